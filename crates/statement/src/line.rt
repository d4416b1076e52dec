// A line of text: the name that it gives, and its statement.
ghost use Rattle.std.specs.Prelude.{◌≡◌};
ghost use Rattle.token.specs.Scan.{tokens_at};
ghost use Rattle.statement.specs.Reading.{statement_of, line_by};
ghost use Rattle.statement.specs.Parts.{label_of, shown_line, expression_of, blank_value};

use crate::operands::Parts;
use crate::rows::Operation;
use crate::{operands, rows};
use expression::Label;

#[derive(Clone, Copy)]
pub struct Statement {
    pub operation: Operation,
    pub parts: Parts,
}

// The name that a line gives and its statement, where it has them.
#[derive(Clone, Copy)]
pub struct Content<'a> {
    pub label: Option<&'a [u8]>,
    pub statement: Option<Statement>,
}

// The statement at a position, on a line that gives a name or none. Nothing but the end of the line may follow its operands.
#[tactic(auto, using(crate::proofs::Statements::statement_steps), unfolding(crate::specs::Parts::shown_line, crate::specs::Table::cell))]
fn statement_at<'a>(
    text: &'a [u8],
    names: &[Label],
    at: usize,
    label: Option<&'a [u8]>,
) -> Option<Content<'a>>
    ensures { shown_line result ≡ statement_of (expression_of names.now) blank_value (label_of label.entry) (tokens_at text.now at) }
{
    let Some(mnemonic) = token::token_at(text, at) else {
        return Some(Content {
            label,
            statement: None,
        });
    };
    let table = rows::table();
    let row = rows::row_of(&table, mnemonic.word)?;
    let from = rows::ROW_BYTES * row + rows::OPERANDS_AT;
    let taken = operands::operands_at(text, names, &table[from..from + 6], mnemonic.end)?;
    match token::token_at(text, taken.next) {
        Some(_) => None,
        None => Some(Content {
            label,
            statement: Some(Statement {
                operation: rows::operation_at(row),
                parts: taken.parts,
            }),
        }),
    }
}

// The line that begins at a position.
#[tactic(auto, using(crate::proofs::Statements::line_steps), unfolding(crate::specs::Parts::shown_line, crate::specs::Parts::shown_content))]
pub fn line_at<'a>(text: &'a [u8], names: &[Label], at: usize) -> Option<Content<'a>>
    ensures { shown_line result ≡ line_by (expression_of names.now) blank_value (tokens_at text.now at) }
{
    let Some(first) = token::token_at(text, at) else {
        return Some(Content {
            label: None,
            statement: None,
        });
    };
    let Some(second) = token::token_at(text, first.end) else {
        return statement_at(text, names, at, None);
    };
    if !second.symbol.is(b':') {
        return statement_at(text, names, at, None);
    }
    if !expression::names::is_name(first.word) {
        return None;
    }
    statement_at(text, names, second.end, Some(first.word))
}
