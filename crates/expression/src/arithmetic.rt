// The operators, modulo 65,536.
ghost use Rattle.std.specs.Prelude.{◌≡◌, ◌*◌, ◌%◌};
ghost use Rattle.expression.specs.Operands.{rank_of, operated_of, operated, negated};
ghost use Rattle.expression.specs.Reading.{shown_operator, OperatorOf};

use crate::Value;
use token::Symbol;

// The product fits 32 bits.
fn product16(x: u16, y: u16) -> u16
    ensures { result ≡ x * y % 65536 }
{
    ((x as u32) * (y as u32) % 65536) as u16
}

#[derive(Clone, Copy)]
pub enum Operator {
    Times,
    Plus,
    Minus,
    Shift,
    And,
    Or,
}

impl Operator {
    #[tactic(auto, unfolding(crate::specs::Reading::operator_by, crate::specs::Reading::rank_by, crate::specs::Operands::rank_of))]
    pub fn of(symbol: Symbol) -> Option<Self>
        ensures { OperatorOf symbol result }
    {
        match symbol {
            Symbol::Byte(b'*') => Some(Self::Times),
            Symbol::Byte(b'+') => Some(Self::Plus),
            Symbol::Byte(b'-') => Some(Self::Minus),
            Symbol::Shift => Some(Self::Shift),
            Symbol::Byte(b'&') => Some(Self::And),
            Symbol::Byte(b'|') => Some(Self::Or),
            _ => None,
        }
    }

    #[tactic(auto, unfolding(crate::specs::Operands::rank_of))]
    pub fn rank(self) -> usize
        ensures { result ≡ rank_of (shown_operator self) }
    {
        match self {
            Self::Times => 1,
            Self::Plus | Self::Minus => 2,
            Self::Shift => 3,
            Self::And => 4,
            Self::Or => 5,
        }
    }

    #[tactic(auto, unfolding(crate::specs::Operands::operated_of, crate::specs::Operands::shift_left))]
    fn operated_words(self, x: u16, y: u16) -> u16
        ensures { result ≡ operated_of (shown_operator self) x y }
    {
        match self {
            Self::Times => product16(x, y),
            Self::Plus => x.wrapping_add(y),
            Self::Minus => x.wrapping_sub(y),
            Self::Shift => x.checked_shl(u32::from(y)).unwrap_or(0),
            Self::And => x & y,
            Self::Or => x | y,
        }
    }

    #[tactic(auto, unfolding(crate::specs::Operands::operated))]
    pub fn operated(self, x: Value, y: Value) -> Value
        ensures { result ≡ operated (shown_operator self) x y }
    {
        Value {
            word: self.operated_words(x.word, y.word),
            known: x.known && y.known,
        }
    }
}

#[tactic(auto, unfolding(crate::specs::Operands::negated))]
pub fn negated(x: Value) -> Value
    ensures { result ≡ negated x }
{
    Value {
        word: 0u16.wrapping_sub(x.word),
        ..x
    }
}
