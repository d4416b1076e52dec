// The minus signs before an operand.
ghost use Rattle.expression.specs.Reading.{Led};

use token::Token;

// Whether the minus signs at a position are odd in number, and the token after them.
#[derive(Clone, Copy)]
pub struct Lead<'a> {
    pub negative: bool,
    pub first: Token<'a>,
}

#[tactic(auto, using(crate::proofs::Leads::lead_steps))]
pub fn lead_at(text: &[u8], at: usize) -> Option<Lead<'_>>
    ensures { Led text.now at result }
{
    let mut negative = false;
    let mut first = token::token_at(text, at)?;
    while first.symbol.is(b'-') {
        negative = !negative;
        first = token::token_at(text, first.end)?;
    }
    Some(Lead { negative, first })
}
