// What the program `panelasm` writes for a text: a trim file, or why there is none.
#![tactic(auto)]

ghost use Rattle.std.specs.Prelude.{◌≡◌};
ghost use Rattle.refusal.specs.Refusals.{refusal_number};
ghost use Rattle.trimfile.specs.TrimFile.{FileLeft, turned_away, saved_left, file_left};

use image::HEADER_BYTES;
use machine::State;
use printing::Printed;
use refusal::Refusal;

// The longest file of a text: a header, a whole program and no data.
pub const FILE_BYTES: usize = HEADER_BYTES + assembler::PROGRAM_BYTES;

// The trim file of a program, at the front of the destination.
fn saved(text: &[u8], program: &[u8], destination: &mut [u8]) -> Result<usize, Printed>
    ensures { ◌≡◌ {A = FileLeft} (record { trim = result; destination = destination.new }) (saved_left text.now program.now destination.old) }
{
    let memory = [0u8; State::MEMORY_BYTES];
    save::save(State::reset(), program, &memory, destination)
        .reply
        .map_err(|refusal| diagnostic::diagnostic(text, 0, refusal))
}

// The length of the trim file of a text, which stands at the front of the destination, or the diagnostic. The destination's unused
// end keeps its bytes.
pub fn from_text(text: &[u8], destination: &mut [u8]) -> Result<usize, Printed>
    ensures { ◌≡◌ {A = FileLeft} (record { trim = result; destination = destination.new }) (file_left text.now destination.old) }
{
    let mut program = [0u8; State::MEMORY_BYTES];
    match assembler::assemble(text, &mut program) {
        Ok(_) => saved(text, &program, destination),
        Err(rejected) => Err(diagnostic::diagnostic(text, rejected.line, rejected.refusal)),
    }
}
