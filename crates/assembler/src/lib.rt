// The assembler: a trim written as text, and its words in a program memory.
#![tactic(auto)]

ghost use Rattle.std.specs.Prelude.{◌≡◌, ◌≤◌, length};
ghost use Rattle.assembler.specs.Text.{AssembleLeft, assemble_left};
ghost use Rattle.assembler.specs.Passes.{shown_assembly, AssembledBy};

use expression::Label;
use refusal::Refusal;

mod passes;

// The first line that is turned away, from 1, and why. Line 0: the call itself.
#[derive(Clone, Copy)]
pub struct Rejected {
    pub line: u32,
    pub refusal: Refusal,
}

pub const PROGRAM_BYTES: usize = 65536;

// A text has at most so many bytes; of a longer one the line with the next byte is turned away.
pub const TEXT_BYTES: usize = 65536;

// The part of a text that is read. (Not inlined: a call that is refused for its lengths would pay for this frame.)
#[inline(never)]
fn assembled(text: &[u8], long: bool, program: &mut [u8]) -> Result<u32, Rejected>
    requires { (length text.now ≤ 65536) × (length program.old ≡ 65536) }
    ensures { AssembledBy long text.now program.old program.new result }
{
    let blank = Label {
        name: &text[0..0],
        address: 0,
    };
    let mut table = [blank; passes::NAMES];
    let mut again = [blank; passes::NAMES];
    let first = passes::pass(text, &[], &mut table, &mut [], long);
    let mut kept = [0; PROGRAM_BYTES];
    block::copy(program, &mut kept);
    let second = passes::pass(text, &table[0..first.labels], &mut again, program, long);
    if second.reply.is_err() {
        block::copy(&kept, program);
    }
    second.reply
}

// Assembles a text into a program memory: how many words there are.
pub fn assemble(text: &[u8], program: &mut [u8]) -> Result<u32, Rejected>
    ensures { ◌≡◌ {A = AssembleLeft} (record { reply = shown_assembly result; program = program.new }) (assemble_left text.now program.old) }
{
    if program.len() != PROGRAM_BYTES {
        return Err(Rejected {
            line: 0,
            refusal: Refusal::LentLength,
        });
    }
    if TEXT_BYTES < text.len() {
        return assembled(&text[0..TEXT_BYTES], true, program);
    }
    assembled(text, false, program)
}
