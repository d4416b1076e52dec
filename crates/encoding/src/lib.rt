// The word of a statement.
#![tactic(auto)]

ghost use Rattle.std.specs.Prelude.{◌≡◌, Some};
ghost use Rattle.encoding.specs.Words.{distance, odd, number_of, stated};
ghost use Rattle.statement.specs.Parts.{shown_statement};
ghost use Rattle.statement.specs.Table.{field_of};
ghost use Rattle.encoding.specs.Numbers.{given_word, OneWord};

use isa::Instruction;
use refusal::Refusal;
use statement::line::Statement;
use statement::rows;
use statement::rows::{Field, Operation};

// What comes of a line: how many words it takes the place of, none or one; and the word that it gives, if any, or why it is turned
// away.
#[derive(Clone, Copy)]
pub struct Judged {
    pub words: usize,
    pub word: Result<Option<u16>, Refusal>,
}

fn distance(address: usize, target: u16) -> u16
    ensures { result ≡ distance address target }
{
    let next = ((address % 65536) as u16).wrapping_add(2);
    target.wrapping_sub(next)
}

fn is_odd(field: Field, address: usize, v: u16) -> bool
    ensures { result ≡ odd (field_of field) address v }
{
    match field {
        Field::Target => distance(address, v) % 2 == 1,
        Field::Number | Field::EightBits => false,
    }
}

fn number_of(field: Field, address: usize, v: u16) -> i16
    ensures { result ≡ number_of (field_of field) address v }
{
    match field {
        Field::Target => distance(address, v).cast_signed() >> 1,
        Field::EightBits if 128 <= v && v <= 255 => (v as i16) - 256,
        _ => v.cast_signed(),
    }
}

// The word of a statement at an address.
fn encoded(s: Statement, address: usize) -> Result<u16, Refusal>
    ensures { given_word result ≡ stated address (shown_statement (Some s)) }
{
    let parts = s.parts;
    if !parts.n.known {
        return Err(Refusal::TextName);
    }
    let v = parts.n.word;
    let Operation::Instruction(kind) = s.operation else {
        return Ok(v);
    };
    let field = rows::field_of(s.operation);
    if is_odd(field, address, v) {
        return Err(Refusal::TextValue);
    }
    let written = isa::write(Instruction {
        kind,
        a: parts.a,
        b: parts.b,
        d: parts.d,
        n: number_of(field, address, v),
    });
    written.map_err(|_| Refusal::TextValue)
}

// What a line's statement, if any, comes to at an address.
pub fn stated(statement: Option<Statement>, address: usize) -> Judged
    ensures { OneWord statement address result }
{
    match statement {
        Some(s) => Judged {
            words: 1,
            word: encoded(s, address).map(Some),
        },
        None => Judged {
            words: 0,
            word: Ok(None),
        },
    }
}
