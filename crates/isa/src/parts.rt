// An instruction's parts out of a word, and into one.
ghost use Rattle.std.specs.Prelude.{◌≡◌, ◌<◌};
ghost use Rattle.isa.specs.Sheet.{sheet_line};
ghost use Rattle.isa.specs.Instructions.{parts_of};
ghost use Rattle.isa.specs.Layouts.{Sound, number_of, bits_of, word_sum, write_in};

use crate::Instruction;
use crate::layout::Layout;
use kinds::Kind;
use refusal::Refusal;

impl Layout {
    // The number that x stands for, one of `size` values of which the last `negatives` are negative.
    fn number(self, x: u16) -> i16
        requires sound { Sound self }
        requires few { x < self.size }
        ensures { result ≡ number_of self.size self.negatives x }
    {
        if x < self.size - self.negatives {
            x as i16
        } else {
            let y = self.size - 1 - x;
            !(y as i16)
        }
    }

    // The low bits of n, or none where n is out of range.
    fn low_bits(self, n: i16) -> Option<u16>
        requires { Sound self }
        ensures { result ≡ bits_of self.size self.negatives n }
    {
        if n < 0 {
            let y = (!n) as u16;
            if y < self.negatives {
                Some(self.size - 1 - y)
            } else {
                None
            }
        } else {
            let x = n as u16;
            if x < self.size - self.negatives {
                Some(x)
            } else {
                None
            }
        }
    }

    fn sum(self, a: u16, b: u16, d: u16, x: u16) -> u16
        requires { word_sum self a b d x < 65536 }
        ensures { result ≡ word_sum self a b d x }
    {
        self.base + a * 512 + b * 64 + d * self.weight + x
    }

    // The word of the instruction, or refusal 7.
    pub fn word_of(self, i: Instruction) -> Result<u16, Refusal>
        requires { Sound self }
        ensures { result ≡ write_in self i }
    {
        let a = i.a as u16;
        let b = i.b as u16;
        let d = i.d as u16;
        if self.a <= a || self.b <= b || self.d <= d {
            return Err(Refusal::InstructionPart);
        }
        match self.low_bits(i.n) {
            Some(x) => Ok(self.sum(a, b, d, x)),
            None => Err(Refusal::InstructionPart),
        }
    }
}

pub fn parts_of(kind: Kind, w: u16) -> Instruction
    ensures { result ≡ parts_of (sheet_line kind) kind w }
{
    let m = Layout::of(kind);
    let a = (w / 512 % m.a) as u8;
    let b = (w / 64 % m.b) as u8;
    let d = (w / m.weight % m.d) as u8;
    let n = m.number(w % m.size);
    Instruction { kind, a, b, d, n }
}
