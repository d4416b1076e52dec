// Reading and writing one instruction.
#![tactic(auto)]

ghost use Rattle.std.specs.Prelude.{◌≡◌};
ghost use Rattle.isa.specs.Instructions.{write_of, shown_writing};
ghost use Rattle.isa.specs.Masks.{decoding_of, shown_decoded};

use crate::layout::Layout;
use kinds::Kind;
use refusal::Refusal;

mod layout;
mod masks;
mod parts;
pub mod rows;

// An instruction: its kind and its parts. A part that the kind does not use is 0.
#[derive(Clone, Copy)]
pub struct Instruction {
    pub kind: Kind,
    pub a: u8,
    pub b: u8,
    pub d: u8,
    pub n: i16,
}

// What a word reads as, and the registers that it touches, bit k of a mask for Rk: those whose value it uses, and the one that it
// writes, if any. Both masks are 0 where the word is unassigned.
#[derive(Clone, Copy)]
pub struct Decoded {
    pub reading: Option<Instruction>,
    pub reads: u8,
    pub writes: u8,
}

// The instruction that a word stands for, and the registers that it touches.
#[tactic(auto, unfolding(crate::specs::Instructions::read_of, crate::specs::Masks::masks_of))]
pub fn read(w: u16) -> Decoded
    ensures { shown_decoded result ≡ decoding_of w }
{
    match rows::kind_of(w) {
        Some(kind) => {
            let touched = masks::touched_by(kind, w);
            Decoded {
                reading: Some(parts::parts_of(kind, w)),
                reads: touched.reads,
                writes: touched.writes,
            }
        }
        None => Decoded {
            reading: None,
            reads: 0,
            writes: 0,
        },
    }
}

// The word of an instruction, or refusal 7.
pub fn write(i: Instruction) -> Result<u16, Refusal>
    ensures { shown_writing result ≡ write_of i }
{
    Layout::of(i.kind).word_of(i)
}
