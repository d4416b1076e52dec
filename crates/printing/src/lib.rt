// A text being written: bytes, words and numbers. A byte that finds the text full is dropped; that a text is not so long is shown
// where its parts are joined (`wrote_held` of proofs/Writing.antt).
#![tactic(auto)]

ghost use Rattle.std.specs.Prelude.{[], ◌∷◌, ◌≡◌, ◌<◌, length};
ghost use Rattle.printing.specs.Text.{digit, decimal, hex4};
ghost use Rattle.printing.specs.Writing.{Wrote};

use itoa::Buffer;
use std::marker::Model;

// More than the longest text of this repository has.
pub const CAPACITY: usize = 4096;

// A text; a clause sees the list of its bytes. They stand before count, zeros after them.
#[derive(Clone, Copy)]
pub struct Printed {
    bytes: [u8; CAPACITY],
    count: usize,
}

impl Model for Printed {
    ghost use Rattle.std.specs.Prelude.{ℕ, List, ◌≡◌, ◌≤◌, ◌++◌, ◌-◌, length, take, replicate};
    ghost use Rattle.std.proofs.Common.{sym, ap, ◌∙◌};

    ghost Value = { List ℕ };

    ghost view = { λ text. take text.count text.bytes };

    ghost invariant = { λ text. (text.count ≤ 4096) × (length (take text.count text.bytes) ≡ text.count) × (text.bytes ≡ take text.count text.bytes ++ replicate (4096 - text.count) 0) };

    ghost inverse = { λ bytes. record { bytes = bytes ++ replicate (4096 - length bytes) 0; count = length bytes } };

    ghost inverse_ok = { λ text h. ap (λ n. record { bytes = take text.count text.bytes ++ replicate (4096 - n) 0; count = n }) h.1 ∙ ap (λ l. record { bytes = l; count = text.count }) (sym h.2) };
}

// A digit in a base of at most 16, capitals.
fn digit(d: u16) -> u8
    requires { d < 16 }
    ensures { result ≡ digit d }
{
    if d < 10 { 48 + d as u8 } else { 55 + d as u8 }
}

impl Printed {
    pub fn empty() -> Self
        ensures { result ≡ [] }
    {
        Printed {
            bytes: [0; CAPACITY],
            count: 0,
        }
    }

    pub fn as_bytes(&self) -> &[u8]
        ensures { result.now ≡ self.now }
    {
        let end = self.count;
        &self.bytes[..end]
    }

    pub fn with_word(mut self, word: &[u8]) -> Self
        ensures { Wrote (length word.now) word.now self result }
    {
        let at = self.count;
        let fits = word.len().min(CAPACITY - at);
        let end = at + fits;
        self.bytes[at..end].copy_from_slice(&word[..fits]);
        self.count = end;
        self
    }

    pub fn with_byte(self, b: u8) -> Self
        ensures { Wrote 1 (b ∷ []) self result }
    {
        self.with_word(&[b])
    }

    fn with_digit(self, d: u16) -> Self
        requires { d < 16 }
        ensures { Wrote 1 (digit d ∷ []) self result }
    {
        self.with_byte(digit(d))
    }

    // Without leading zeros.
    pub fn with_decimal(self, n: u64) -> Self
        ensures { Wrote 20 (decimal n) self result }
    {
        self.with_word(Buffer::new().format(n).as_bytes())
    }

    // Four hexadecimal digits.
    pub fn with_hex(self, v: u16) -> Self
        ensures { Wrote 4 (hex4 v) self result }
    {
        self.with_digit(v / 4096)
            .with_digit(v / 256 % 16)
            .with_digit(v / 16 % 16)
            .with_digit(v % 16)
    }
}
