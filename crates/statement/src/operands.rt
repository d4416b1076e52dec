// The operands of a statement.
ghost use Rattle.std.specs.Prelude.{◌≡◌};
ghost use Rattle.expression.specs.Reading.{mapped};
ghost use Rattle.token.specs.Scan.{tokens_at};
ghost use Rattle.statement.specs.Syntax.{put, put_n};
ghost use Rattle.statement.specs.Reading.{one_register, a_punctuation, read_item, read_items};
ghost use Rattle.statement.specs.Table.{item_of, items_of};
ghost use Rattle.statement.specs.Parts.{shown_parts, told_parts, expression_of, blank_value, register_at};

use expression::{Label, Value};

// The registers of a statement and the value of its expression; 0 where it has none.
#[derive(Clone, Copy)]
pub struct Parts {
    pub a: u8,
    pub b: u8,
    pub d: u8,
    pub n: Value,
}

// The parts read so far, and where the next operand begins.
#[derive(Clone, Copy)]
pub struct Taken {
    pub parts: Parts,
    pub next: usize,
}

impl Parts {
    pub fn blank() -> Self
        ensures { shown_parts result ≡ blank_value }
    {
        let n = Value {
            word: 0,
            known: true,
        };
        Self {
            a: 0,
            b: 0,
            d: 0,
            n,
        }
    }

    // The register that a letter of the table stands for.
    #[tactic(auto, unfolding(crate::specs::Parts::register_at))]
    fn with_register(self, letter: u8, k: u8) -> Self
        ensures { shown_parts result ≡ put (register_at letter) k (shown_parts self) }
    {
        match letter {
            b'a' => Self { a: k, ..self },
            b'b' => Self { b: k, ..self },
            _ => Self { d: k, ..self },
        }
    }
}

#[tactic(auto, using(crate::proofs::Items::register_steps), unfolding(crate::specs::Parts::told_parts, crate::specs::Reading::one_register))]
fn register_at(text: &[u8], letter: u8, t: Taken) -> Option<Taken>
    ensures { told_parts text.now result ≡ one_register (register_at letter) (shown_parts t.parts) (tokens_at text.now t.next) }
{
    let token = token::token_at(text, t.next)?;
    let k = expression::names::register_of(token.word)?;
    Some(Taken {
        parts: t.parts.with_register(letter, k),
        next: token.end,
    })
}

#[tactic(auto, using(crate::proofs::Items::mark_there), unfolding(crate::specs::Parts::told_parts, crate::specs::Reading::a_punctuation))]
fn mark_at(text: &[u8], mark: u8, t: Taken) -> Option<Taken>
    ensures { told_parts text.now result ≡ a_punctuation mark (shown_parts t.parts) (tokens_at text.now t.next) }
{
    let token = token::token_at(text, t.next)?;
    if token.symbol.is(mark) {
        return Some(Taken {
            next: token.end,
            ..t
        });
    }
    None
}

fn expression_at(text: &[u8], names: &[Label], t: Taken) -> Option<Taken>
    ensures { told_parts text.now result ≡ mapped (λ e. put_n e (shown_parts t.parts)) (expression_of names.now (tokens_at text.now t.next)) }
{
    let p = expression::value_at(text, names, t.next)?;
    Some(Taken {
        parts: Parts {
            n: p.value,
            ..t.parts
        },
        next: p.next,
    })
}

// The item that a byte of the table stands for.
#[tactic(auto, unfolding(crate::specs::Reading::read_item, crate::specs::Table::item_of, crate::specs::Parts::register_at))]
fn item_at(text: &[u8], names: &[Label], item: u8, t: Taken) -> Option<Taken>
    ensures { told_parts text.now result ≡ read_item (expression_of names.now) (item_of item) (shown_parts t.parts) (tokens_at text.now t.next) }
{
    match item {
        b'a' | b'b' | b'd' => register_at(text, item, t),
        b'n' => expression_at(text, names, t),
        _ => mark_at(text, item, t),
    }
}

// The operands that bytes of the table ask for.
#[tactic(auto, using(crate::proofs::Items::item_steps))]
pub fn operands_at(text: &[u8], names: &[Label], items: &[u8], at: usize) -> Option<Taken>
    ensures { told_parts text.now result ≡ read_items (expression_of names.now) (items_of items.now) blank_value (tokens_at text.now at) }
{
    let mut taken = Taken {
        parts: Parts::blank(),
        next: at,
    };
    for item in items {
        if *item == b' ' {
            return Some(taken);
        }
        taken = item_at(text, names, *item, taken)?;
    }
    Some(taken)
}
