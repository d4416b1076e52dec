// The value of a token that is an operand.
ghost use Rattle.std.specs.Prelude.{◌≡◌, ◌≤◌};
ghost use Rattle.expression.specs.Reading.{labels, number_leaf, literal_leaf, leaf_of};

use crate::{Label, Value, names};

// The number of the digits, modulo 65,536, if all of them are digits of the base.
#[tactic(auto, using(crate::proofs::Digits::digit_steps))]
fn number(digits: &[u8], base: u16) -> Option<u16>
    requires { (2 ≤ base) × (base ≤ 16) }
    ensures { result ≡ number_leaf base 0 digits.now }
{
    let mut n: u16 = 0;
    for b in digits {
        let d = char::from(*b).to_digit(u32::from(base))?;
        n = n.wrapping_mul(base).wrapping_add(d as u16);
    }
    Some(n)
}

#[tactic(auto, unfolding(crate::specs::Reading::literal_leaf, crate::specs::Operands::hexed))]
fn literal(word: &[u8]) -> Option<u16>
    ensures { result ≡ literal_leaf word.now }
{
    match word {
        [b'0', b'x', _, ..] => number(&word[2..], 16),
        _ => number(word, 10),
    }
}

#[tactic(auto, using(crate::proofs::Digits::first_bytes))]
pub fn leaf_of(names: &[Label], word: &[u8]) -> Option<Value>
    ensures { result ≡ leaf_of (labels names.now) word.now }
{
    let first = *word.first()?;
    if token::is_digit(first) {
        let word = literal(word)?;
        return Some(Value { word, known: true });
    }
    if names::is_name(word) {
        return Some(names::name_value(names, word));
    }
    None
}
