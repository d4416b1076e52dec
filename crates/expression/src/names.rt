// Names and registers.
ghost use Rattle.std.specs.Prelude.{◌≡◌, ◌<◌, MatchOption};
ghost use Rattle.expression.specs.Operands.{register_of, is_name, name_value};
ghost use Rattle.expression.specs.Reading.{labels};

use crate::{Label, Value};

// 0 to 7 for R0 to R7.
#[tactic(auto, unfolding(crate::specs::Operands::register_of, token::specs::Tokens::between))]
pub fn register_of(word: &[u8]) -> Option<u8>
    ensures { MatchOption result (register_of word.now ≡ 8) (λ k. (register_of word.now ≡ k) × (k < 8)) }
{
    match word {
        [b'R', k @ b'0'..=b'7'] => Some(*k - b'0'),
        _ => None,
    }
}

#[tactic(auto, unfolding(crate::specs::Operands::is_name, token::specs::Tokens::is_letter, token::specs::Tokens::between))]
pub fn is_name(word: &[u8]) -> bool
    ensures { result ≡ is_name word.now }
{
    match word {
        [first, ..] => {
            token::is_letter(*first) && word.len() <= 16 && register_of(word).is_none()
        }
        [] => false,
    }
}

// The address of the first label of that name, if there is one.
pub fn name_value(names: &[Label], word: &[u8]) -> Value
    ensures { result ≡ name_value (labels names.now) word.now }
{
    match names.iter().find(|l| token::same_bytes(word, l.name)) {
        Some(l) => Value {
            word: (l.address % 65536) as u16,
            known: true,
        },
        None => Value {
            word: 0,
            known: false,
        },
    }
}
