// The archive for C, of include/sisa.h, which says what each function and field is. An export has the name, the parameters and the
// clauses of the function of `sisa` that it calls, and does nothing else.
#![tactic(auto)]

ghost use Rattle.std.specs.Prelude.{◌≡◌};
ghost use Rattle.machine.specs.Run.{by_rules};
ghost use Rattle.control.specs.Control.{by_the_table};
ghost use Rattle.isa.specs.Masks.{decoding_of};
ghost use Rattle.replies.specs.Sisa.{SisaLoads, SisaSaves, SisaAssembles, SisaSets, SisaRuns, SisaRunsJournaled, SisaPages, SisaGoesBack, sisa_instruction, sisa_write, sisa_feed, sisa_raise, SisaShows, HostSteps};

use machine::State;
use page::Trims;
use replies::{
    SisaAnswer, SisaAssembly, SisaBack, SisaFed, SisaInstruction, SisaLoad, SisaPage, SisaRaised,
    SisaRun, SisaSaved, SisaWindow, SisaWord,
};
use sheet::Sheet;
use usage::Usage;

#[unsafe(no_mangle)]
pub extern "C" fn sisa_load(
    file: &[u8],
    board: u8,
    locked: u8,
    first: u16,
    last: u16,
    program: &mut [u8],
    memory: &mut [u8],
    inputs: &mut [u16],
    outputs: &mut [u16],
) -> SisaLoad
    ensures { SisaLoads file board locked first last program memory inputs outputs result }
{
    sisa::sisa_load(
        file, board, locked, first, last, program, memory, inputs, outputs,
    )
}

#[unsafe(no_mangle)]
pub extern "C" fn sisa_save(
    state: State,
    program: &[u8],
    memory: &[u8],
    destination: &mut [u8],
) -> SisaSaved
    ensures { SisaSaves state program memory destination result }
{
    sisa::sisa_save(state, program, memory, destination)
}

#[unsafe(no_mangle)]
pub extern "C" fn sisa_assemble(text: &[u8], program: &mut [u8]) -> SisaAssembly
    ensures { SisaAssembles text program result }
{
    sisa::sisa_assemble(text, program)
}

#[unsafe(no_mangle)]
pub extern "C" fn sisa_set_input(inputs: &mut [u16], port: u8, value: u16) -> u8
    ensures { SisaSets inputs port value result }
{
    sisa::sisa_set_input(inputs, port, value)
}

#[unsafe(no_mangle)]
pub extern "C" fn sisa_run_by_rules(
    state: State,
    program: &[u8],
    memory: &mut [u8],
    inputs: &mut [u16],
    outputs: &mut [u16],
    budget: u32,
    log: &mut [u64],
) -> SisaRun
    ensures { SisaRuns by_rules state program memory inputs outputs budget log result }
{
    sisa::sisa_run_by_rules(state, program, memory, inputs, outputs, budget, log)
}

#[unsafe(no_mangle)]
pub extern "C" fn sisa_run_by_table(
    state: State,
    program: &[u8],
    memory: &mut [u8],
    inputs: &mut [u16],
    outputs: &mut [u16],
    budget: u32,
    log: &mut [u64],
) -> SisaRun
    ensures { SisaRuns by_the_table state program memory inputs outputs budget log result }
{
    sisa::sisa_run_by_table(state, program, memory, inputs, outputs, budget, log)
}

#[unsafe(no_mangle)]
pub extern "C" fn sisa_run_by_rules_with_journal(
    state: State,
    program: &[u8],
    memory: &mut [u8],
    inputs: &mut [u16],
    outputs: &mut [u16],
    budget: u32,
    log: &mut [u64],
    journal: &mut [u64],
) -> SisaRun
    ensures { SisaRunsJournaled by_rules state program memory inputs outputs budget log journal result }
{
    sisa::sisa_run_by_rules_with_journal(
        state, program, memory, inputs, outputs, budget, log, journal,
    )
}

#[unsafe(no_mangle)]
pub extern "C" fn sisa_run_by_table_with_journal(
    state: State,
    program: &[u8],
    memory: &mut [u8],
    inputs: &mut [u16],
    outputs: &mut [u16],
    budget: u32,
    log: &mut [u64],
    journal: &mut [u64],
) -> SisaRun
    ensures { SisaRunsJournaled by_the_table state program memory inputs outputs budget log journal result }
{
    sisa::sisa_run_by_table_with_journal(
        state, program, memory, inputs, outputs, budget, log, journal,
    )
}

#[unsafe(no_mangle)]
pub extern "C" fn sisa_page_by_rules(
    trims: Trims,
    count: u8,
    programs: &[u8],
    memories: &mut [u8],
    inputs: &mut [u16],
    outputs: &mut [u16],
    budget: u32,
    log: &mut [u64],
) -> SisaPage
    ensures { SisaPages by_rules trims count programs memories inputs outputs budget log result }
{
    sisa::sisa_page_by_rules(
        trims, count, programs, memories, inputs, outputs, budget, log,
    )
}

#[unsafe(no_mangle)]
pub extern "C" fn sisa_page_by_table(
    trims: Trims,
    count: u8,
    programs: &[u8],
    memories: &mut [u8],
    inputs: &mut [u16],
    outputs: &mut [u16],
    budget: u32,
    log: &mut [u64],
) -> SisaPage
    ensures { SisaPages by_the_table trims count programs memories inputs outputs budget log result }
{
    sisa::sisa_page_by_table(
        trims, count, programs, memories, inputs, outputs, budget, log,
    )
}

#[unsafe(no_mangle)]
pub extern "C" fn sisa_step_back(
    state: State,
    program: &[u8],
    memory: &mut [u8],
    inputs: &mut [u16],
    outputs: &mut [u16],
    journal: &[u64],
    k: u64,
) -> SisaBack
    ensures { SisaGoesBack state program memory inputs outputs journal k result }
{
    sisa::sisa_step_back(state, program, memory, inputs, outputs, journal, k)
}

#[unsafe(no_mangle)]
pub extern "C" fn sisa_raise(state: State, line: u8) -> SisaRaised
    ensures { result ≡ sisa_raise state line }
{
    sisa::sisa_raise(state, line)
}

// A run_refusal that is not 0: a refused run.
#[unsafe(no_mangle)]
pub extern "C" fn sisa_feed(sheet: Sheet, run_refusal: u8, usage: Usage) -> SisaFed
    ensures { result ≡ sisa_feed sheet run_refusal usage }
{
    sisa::sisa_feed(sheet, run_refusal, usage)
}

#[unsafe(no_mangle)]
pub extern "C" fn sisa_read(word: u16) -> SisaInstruction
    ensures { result ≡ sisa_instruction (decoding_of word) }
{
    sisa::sisa_read(word)
}

#[unsafe(no_mangle)]
pub extern "C" fn sisa_write(kind: u8, a: u8, b: u8, d: u8, n: i16) -> SisaWord
    ensures { result ≡ sisa_write kind a b d n }
{
    sisa::sisa_write(kind, a, b, d, n)
}

// of_data is 0 for the program; any other number is the data memory.
#[unsafe(no_mangle)]
pub extern "C" fn sisa_window<'a>(
    state: State,
    program: &'a [u8],
    memory: &'a [u8],
    of_data: u8,
    start: usize,
    count: usize,
) -> SisaWindow
    ensures { SisaShows state program memory of_data start count result }
{
    sisa::sisa_window(state, program, memory, of_data, start, count)
}

// The one function that takes the register state by reference.
#[unsafe(no_mangle)]
pub extern "C" fn sisa_host_step(
    state: &mut State,
    program: &[u8],
    memory: &mut [u8],
    inputs: &mut [u16],
    outputs: &mut [u16],
    log: &mut [u64],
) -> SisaAnswer
    ensures { HostSteps state program memory inputs outputs log result }
{
    sisa::host::sisa_host_step(state, program, memory, inputs, outputs, log)
}
