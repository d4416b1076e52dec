// What the program `panelrun` prints for a trim file: the file is loaded and run by the control table.
#![tactic(auto)]

ghost use Rattle.std.specs.Prelude.{◌≡◌, replicate};
ghost use Rattle.refusal.specs.Refusals.{refusal_number};
ghost use Rattle.control.specs.Control.{by_the_table};
ghost use Rattle.run.specs.Runs.{no_journal, given, run_left};
ghost use Rattle.report.specs.Printed.{refused_line, ran_lines, printed};

use image::Range;
use machine::{Board, State};
use printing::Printed;
use refusal::Refusal;

mod lines;

// The most bytes that a file may have.
pub const FILE_BYTES: usize = 65536;

const BUDGET: u32 = 1000;

const LOG_PLACES: usize = 64;

// The line of a refusal.
pub fn refused(refusal: Refusal) -> Printed
    ensures { result ≡ refused_line (refusal_number refusal) }
{
    let number = u8::from(refusal);
    Printed::empty()
        .with_word(b"refused ")
        .with_decimal(number as u64)
        .with_byte(b'\n')
}

// The run of what a load left.
fn run_loaded(
    state: State,
    program: &[u8],
    memory: &mut [u8],
    inputs: &mut [u16],
    outputs: &mut [u16],
) -> Printed
    ensures { result ≡ ran_lines (run_left by_the_table (given state program.now memory.old inputs.old outputs.old 1000 (replicate 64 0) no_journal)) }
{
    let mut log = [0u64; LOG_PLACES];
    let ran = engine::run_by_table(state, program, memory, inputs, outputs, BUDGET, &mut log);
    match ran.answer {
        Ok(report) => lines::stopped(report, &log[..report.entries], ran.state),
        Err(refusal) => refused(refusal),
    }
}

// The report of a file: the lines of its run with inputs zero, or the line of the refusal.
pub fn report(file: &[u8]) -> Printed
    ensures { result ≡ printed file.now }
{
    if FILE_BYTES < file.len() {
        return refused(Refusal::LongFile);
    }
    let mut program = [0u8; State::MEMORY_BYTES];
    let mut memory = [0u8; State::MEMORY_BYTES];
    let mut inputs = [0u16; State::PORTS];
    let mut outputs = [0u16; State::PORTS];
    let loaded = image::load(
        file,
        Board::TwoMemories,
        Range {
            locked: 0,
            first: 0,
            last: 0,
        },
        &mut program,
        &mut memory,
        &mut inputs,
        &mut outputs,
    );
    match loaded.reply {
        Ok(()) => run_loaded(
            loaded.state,
            &program,
            &mut memory,
            &mut inputs,
            &mut outputs,
        ),
        Err(refusal) => refused(refusal),
    }
}
