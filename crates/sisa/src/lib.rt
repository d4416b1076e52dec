// The functions of the C interface, include/sisa.h, which says what each function and field is. A function calls the crate that does
// the work and hands on its reply in numbers. `sisa_c` exports them.
#![tactic(auto)]

ghost use Rattle.std.specs.Prelude.{◌≡◌};
ghost use Rattle.machine.specs.Run.{by_rules};
ghost use Rattle.control.specs.Control.{by_the_table};
ghost use Rattle.isa.specs.Masks.{decoding_of};
ghost use Rattle.replies.specs.Sisa.{SisaLoads, SisaSaves, SisaAssembles, SisaSets, SisaRuns, SisaRunsJournaled, SisaPages, SisaGoesBack, sisa_instruction, sisa_write, sisa_feed, sisa_raise, SisaShows};

use image::Range;
use machine::{Board, Port, State};
use page::Trims;
use replies::{
    SisaAssembly, SisaBack, SisaFed, SisaInstruction, SisaLoad, SisaPage, SisaRaised, SisaRun,
    SisaSaved, SisaWindow, SisaWord,
};
use sheet::Sheet;
use usage::Usage;

pub mod host;

pub fn sisa_load(
    file: &[u8],
    board: u8,
    locked: u8,
    first: u16,
    last: u16,
    program: &mut [u8],
    memory: &mut [u8],
    inputs: &mut [u16],
    outputs: &mut [u16],
) -> SisaLoad
    ensures { SisaLoads file board locked first last program memory inputs outputs result }
{
    let loaded = image::load(
        file,
        Board::from(board),
        Range {
            locked,
            first,
            last,
        },
        program,
        memory,
        inputs,
        outputs,
    );
    SisaLoad::from(loaded)
}

pub fn sisa_save(state: State, program: &[u8], memory: &[u8], destination: &mut [u8]) -> SisaSaved
    ensures { SisaSaves state program memory destination result }
{
    let saved = save::save(state, program, memory, destination);
    SisaSaved::from(saved)
}

pub fn sisa_assemble(text: &[u8], program: &mut [u8]) -> SisaAssembly
    ensures { SisaAssembles text program result }
{
    let assembly = assembler::assemble(text, program);
    SisaAssembly::from(assembly)
}

pub fn sisa_set_input(inputs: &mut [u16], port: u8, value: u16) -> u8
    ensures { SisaSets inputs port value result }
{
    let setting = panel::set_input(inputs, Port(port), value);
    replies::number(setting)
}

pub fn sisa_run_by_rules(
    state: State,
    program: &[u8],
    memory: &mut [u8],
    inputs: &mut [u16],
    outputs: &mut [u16],
    budget: u32,
    log: &mut [u64],
) -> SisaRun
    ensures { SisaRuns by_rules state program memory inputs outputs budget log result }
{
    let ran = engine::run_by_rules(state, program, memory, inputs, outputs, budget, log);
    SisaRun::from(ran)
}

pub fn sisa_run_by_table(
    state: State,
    program: &[u8],
    memory: &mut [u8],
    inputs: &mut [u16],
    outputs: &mut [u16],
    budget: u32,
    log: &mut [u64],
) -> SisaRun
    ensures { SisaRuns by_the_table state program memory inputs outputs budget log result }
{
    let ran = engine::run_by_table(state, program, memory, inputs, outputs, budget, log);
    SisaRun::from(ran)
}

pub fn sisa_run_by_rules_with_journal(
    state: State,
    program: &[u8],
    memory: &mut [u8],
    inputs: &mut [u16],
    outputs: &mut [u16],
    budget: u32,
    log: &mut [u64],
    journal: &mut [u64],
) -> SisaRun
    ensures { SisaRunsJournaled by_rules state program memory inputs outputs budget log journal result }
{
    let ran = engine::run_by_rules_with_journal(
        state, program, memory, inputs, outputs, budget, log, journal,
    );
    SisaRun::from(ran)
}

pub fn sisa_run_by_table_with_journal(
    state: State,
    program: &[u8],
    memory: &mut [u8],
    inputs: &mut [u16],
    outputs: &mut [u16],
    budget: u32,
    log: &mut [u64],
    journal: &mut [u64],
) -> SisaRun
    ensures { SisaRunsJournaled by_the_table state program memory inputs outputs budget log journal result }
{
    let ran = engine::run_by_table_with_journal(
        state, program, memory, inputs, outputs, budget, log, journal,
    );
    SisaRun::from(ran)
}

pub fn sisa_page_by_rules(
    trims: Trims,
    count: u8,
    programs: &[u8],
    memories: &mut [u8],
    inputs: &mut [u16],
    outputs: &mut [u16],
    budget: u32,
    log: &mut [u64],
) -> SisaPage
    ensures { SisaPages by_rules trims count programs memories inputs outputs budget log result }
{
    let paged = page::page_by_rules(
        trims, count, programs, memories, inputs, outputs, budget, log,
    );
    SisaPage::from(paged)
}

pub fn sisa_page_by_table(
    trims: Trims,
    count: u8,
    programs: &[u8],
    memories: &mut [u8],
    inputs: &mut [u16],
    outputs: &mut [u16],
    budget: u32,
    log: &mut [u64],
) -> SisaPage
    ensures { SisaPages by_the_table trims count programs memories inputs outputs budget log result }
{
    let paged = page::page_by_table(
        trims, count, programs, memories, inputs, outputs, budget, log,
    );
    SisaPage::from(paged)
}

pub fn sisa_step_back(
    state: State,
    program: &[u8],
    memory: &mut [u8],
    inputs: &mut [u16],
    outputs: &mut [u16],
    journal: &[u64],
    k: u64,
) -> SisaBack
    ensures { SisaGoesBack state program memory inputs outputs journal k result }
{
    let backed = back::step_back(state, program, memory, inputs, outputs, journal, k);
    SisaBack::from(backed)
}

pub fn sisa_raise(state: State, line: u8) -> SisaRaised
    ensures { result ≡ sisa_raise state line }
{
    let raised = panel::raise(state, line);
    SisaRaised::from(raised)
}

// A run_refusal that is not 0: a refused run.
pub fn sisa_feed(sheet: Sheet, run_refusal: u8, usage: Usage) -> SisaFed
    ensures { result ≡ sisa_feed sheet run_refusal usage }
{
    SisaFed::from(sheet::feed_by(sheet, run_refusal == 0, usage))
}

pub fn sisa_read(word: u16) -> SisaInstruction
    ensures { result ≡ sisa_instruction (decoding_of word) }
{
    SisaInstruction::from(isa::read(word))
}

pub fn sisa_write(kind: u8, a: u8, b: u8, d: u8, n: i16) -> SisaWord
    ensures { result ≡ sisa_write kind a b d n }
{
    replies::write(kind, a, b, d, n)
}

// of_data is 0 for the program; any other number is the data memory.
pub fn sisa_window<'a>(
    state: State,
    program: &'a [u8],
    memory: &'a [u8],
    of_data: u8,
    start: usize,
    count: usize,
) -> SisaWindow
    ensures { SisaShows state program memory of_data start count result }
{
    let part = panel::window(state, program, memory, of_data != 0, start, count);
    replies::window(start, part.len())
}
