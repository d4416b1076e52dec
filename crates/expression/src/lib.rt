// Constant expressions: the value of an expression at a position of a text, given the names and their addresses.
#![tactic(auto)]

ghost use Rattle.std.specs.Prelude.{◌≡◌, ◌≤◌};
ghost use Rattle.token.specs.Scan.{tokens_at};
ghost use Rattle.expression.specs.Grammar.{value_of};
ghost use Rattle.expression.specs.Operands.{operand_value};
ghost use Rattle.expression.specs.Reading.{labels, leaf, mapped, closed, told, Signed, Answers, Between};

use arithmetic::Operator;
use token::Token;

mod arithmetic;
mod literals;
pub mod names;
mod prefix;

#[derive(Clone, Copy)]
pub struct Label<'a> {
    pub name: &'a [u8],
    pub address: usize,
}

// A word; known is false where a name in it is unknown.
#[derive(Clone, Copy)]
pub struct Value {
    pub word: u16,
    pub known: bool,
}

// A value, and where the text after it begins.
#[derive(Clone, Copy)]
pub struct Parsed {
    pub value: Value,
    pub next: usize,
}

#[derive(Clone, Copy)]
struct Join {
    operator: Operator,
    end: usize,
}

// The closing parenthesis after a value.
#[tactic(auto, using(crate::proofs::After::closed_at), unfolding(crate::specs::Reading::told, crate::specs::Reading::closed))]
fn closed(text: &[u8], inner: Parsed) -> Option<Parsed>
    ensures { told text.now result ≡ closed inner.value (tokens_at text.now inner.next) }
{
    let t = token::token_at(text, inner.next)?;
    if t.symbol.is(b')') {
        return Some(Parsed {
            next: t.end,
            ..inner
        });
    }
    None
}

// The value of a token that is an operand.
#[tactic(auto, using(crate::proofs::Digits::leaves), unfolding(crate::specs::Reading::told))]
fn leaf(text: &[u8], names: &[Label], t: Token) -> Option<Parsed>
    ensures { told text.now result ≡ mapped (value_of (operand_value (labels names.now))) (leaf t.entry.word.now (tokens_at text.now t.entry.end)) }
{
    let value = literals::leaf_of(names, t.word)?;
    Some(Parsed { value, next: t.end })
}

// The operator at a position, if its rank is one from low to high. (Inlined, as `product` is: a line of products took half as long again.)
#[tactic(auto, using(crate::proofs::After::operator))]
#[inline(always)]
fn operator_at(text: &[u8], at: usize, low: usize, high: usize) -> Option<Join>
    requires { 1 ≤ low }
    ensures { Between text.now at low high result }
{
    let t = token::token_at(text, at)?;
    let operator = Operator::of(t.symbol)?;
    let rank = operator.rank();
    if low <= rank && rank <= high {
        return Some(Join {
            operator,
            end: t.end,
        });
    }
    None
}

// What was read, with a minus sign before it if `negative`.
#[tactic(auto, using(crate::proofs::Leads::signs), unfolding(crate::specs::Reading::told))]
fn signed(negative: bool, p: Parsed) -> Parsed
    ensures { Signed negative p result }
{
    if negative {
        return Parsed {
            value: arithmetic::negated(p.value),
            ..p
        };
    }
    p
}

// An operand, or minus signs before one. Parentheses may nest to `depth`.
#[cycle(operand_product_sum)]
#[tactic(auto, using(crate::proofs::Begun::beginnings))]
fn operand(text: &[u8], names: &[Label], at: usize, depth: usize) -> Option<Parsed>
    ensures { Answers text.now names.now at depth 0 result }
{
    let lead = prefix::lead_at(text, at)?;
    let first = lead.first;
    if first.symbol.is(b'(') {
        let inner = sum(text, names, first.end, 5, depth.checked_sub(1)?)?;
        return Some(signed(lead.negative, closed(text, inner)?));
    }
    Some(signed(lead.negative, leaf(text, names, first)?))
}

// Operands and `*`.
#[cycle(operand_product_sum)]
#[tactic(auto, using(crate::proofs::Climb::climb_steps))]
#[inline(always)]
fn product(text: &[u8], names: &[Label], at: usize, depth: usize) -> Option<Parsed>
    ensures { Answers text.now names.now at depth 1 result }
{
    let mut total = operand(text, names, at, depth)?;
    while let Some(join) = operator_at(text, total.next, 1, 1) {
        let right = operand(text, names, join.end, depth)?;
        total = Parsed {
            value: join.operator.operated(total.value, right.value),
            next: right.next,
        };
    }
    Some(total)
}

// Products and the operators of the ranks 2 to `rank`, at most 5. After one of rank `low` no tighter one comes.
#[cycle(operand_product_sum)]
#[tactic(auto, using(crate::proofs::Climb::climb_steps))]
fn sum(text: &[u8], names: &[Label], at: usize, rank: usize, depth: usize) -> Option<Parsed>
    requires { (1 ≤ rank) × (rank ≤ 5) }
    ensures { Answers text.now names.now at depth rank result }
{
    let mut total = product(text, names, at, depth)?;
    if rank == 1 {
        return Some(total);
    }
    let mut low = 2;
    while let Some(join) = operator_at(text, total.next, low, rank) {
        low = join.operator.rank();
        let right = sum(text, names, join.end, low - 1, depth)?;
        total = Parsed {
            value: join.operator.operated(total.value, right.value),
            next: right.next,
        };
    }
    Some(total)
}

// The expression at a position: its value and where it ends.
pub fn value_at(text: &[u8], names: &[Label], at: usize) -> Option<Parsed>
    ensures { Answers text.now names.now at 16 5 result }
{
    sum(text, names, at, 5, 16)
}
