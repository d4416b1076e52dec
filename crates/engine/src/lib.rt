// Runs of a trim, by the rules or by a control table.
#![tactic(auto)]

ghost use Rattle.machine.specs.Run.{by_rules};
ghost use Rattle.control.specs.Control.{by_control, by_the_table};
ghost use Rattle.run.specs.Runs.{journal_if, RunsWith, RunsCounted, RunsJournaled, RunsOnly};
ghost use Rattle.places.specs.Places.{Cleared};
ghost use Rattle.cycle.specs.Loops.{RunsTallied, RunsIf};

use bus::{Bus, Log};
use control::control_table;
use machine::State;
use run::{Counted, Ran, Tallied};
use stepping::{Engine, Rules, Table};
use usage::Usage;

// From this budget on a run counts by place, with 68 KiB of stack, cleared and folded in some 2 microseconds; below it each step at once.
const LONG: u32 = 2048;

// A run by an engine, with a journal where it keeps one: its refusals, then its loop.
fn tallied<E: Engine>(
    engine: &E,
    state: State,
    program: &[u8],
    memory: &mut [u8],
    inputs: &mut [u16],
    outputs: &mut [u16],
    budget: u32,
    log: &mut [u64],
    keeps: bool,
    journal: &mut [u64],
    counts: &mut [u32],
) -> Tallied
    requires { Cleared counts.old }
    ensures { RunsTallied (E.stepper engine.now) state program memory inputs outputs budget log «keeps» journal counts result }
{
    match run::checked(state, program, memory, inputs, outputs, budget) {
        Ok(()) => {
            let mut bus = Bus {
                memory,
                inputs,
                outputs,
            };
            let mut written = Log {
                places: log,
                entries: 0,
            };
            cycle::run_accepted(
                engine,
                run::starting(state, keeps),
                program,
                &mut bus,
                run::allowed(budget, state.journaled, keeps, journal),
                &mut written,
                keeps,
                journal,
                counts,
            )
        }
        Err(refusal) => Tallied {
            state,
            answer: Err(refusal),
            usage: Usage::none(),
        },
    }
}

// A long run: its steps are counted by place and folded after the loop. (Not inlined, so that its frame is not part of a short run's.)
#[inline(never)]
fn long<E: Engine>(
    engine: &E,
    state: State,
    program: &[u8],
    memory: &mut [u8],
    inputs: &mut [u16],
    outputs: &mut [u16],
    budget: u32,
    log: &mut [u64],
    keeps: bool,
    journal: &mut [u64],
) -> Tallied
    ensures { RunsIf (E.stepper engine.now) state program memory inputs outputs budget log «keeps» journal result }
{
    let mut counts = [0u32; places::PLACES];
    let ran = tallied(
        engine,
        state,
        program,
        memory,
        inputs,
        outputs,
        budget,
        log,
        keeps,
        journal,
        &mut counts,
    );
    Tallied {
        usage: places::fold(&counts, ran.usage.taken),
        ..ran
    }
}

// A run that counts its steps, at once or by place, with a journal where it keeps one. (Inlined, as `run` is: each call of a function
// between the export and the loop hands the reply on once more, a fifth of what a call of one step takes.)
#[inline(always)]
fn counted<E: Engine>(
    engine: &E,
    state: State,
    program: &[u8],
    memory: &mut [u8],
    inputs: &mut [u16],
    outputs: &mut [u16],
    budget: u32,
    log: &mut [u64],
    keeps: bool,
    journal: &mut [u64],
) -> Counted
    ensures { RunsWith (E.stepper engine.now) state program memory inputs outputs budget log (journal_if «keeps» journal.old) (journal_if «keeps» journal.new) result }
{
    if LONG <= budget {
        return run::with_ticks(long(
            engine, state, program, memory, inputs, outputs, budget, log, keeps, journal,
        ));
    }
    run::with_ticks(tallied(
        engine,
        state,
        program,
        memory,
        inputs,
        outputs,
        budget,
        log,
        keeps,
        journal,
        &mut [],
    ))
}

// A run by an engine.
#[inline(always)]
pub fn run<E: Engine>(
    engine: &E,
    state: State,
    program: &[u8],
    memory: &mut [u8],
    inputs: &mut [u16],
    outputs: &mut [u16],
    budget: u32,
    log: &mut [u64],
) -> Counted
    ensures { RunsCounted (E.stepper engine.now) state program memory inputs outputs budget log result }
{
    let keeps = false;
    counted(
        engine,
        state,
        program,
        memory,
        inputs,
        outputs,
        budget,
        log,
        keeps,
        &mut [],
    )
}

// A run by the rules.
#[inline(always)]
pub fn run_by_rules(
    state: State,
    program: &[u8],
    memory: &mut [u8],
    inputs: &mut [u16],
    outputs: &mut [u16],
    budget: u32,
    log: &mut [u64],
) -> Counted
    ensures { RunsCounted by_rules state program memory inputs outputs budget log result }
{
    run(&Rules, state, program, memory, inputs, outputs, budget, log)
}

// A run by the control table.
#[inline(always)]
pub fn run_by_table(
    state: State,
    program: &[u8],
    memory: &mut [u8],
    inputs: &mut [u16],
    outputs: &mut [u16],
    budget: u32,
    log: &mut [u64],
) -> Counted
    ensures { RunsCounted by_the_table state program memory inputs outputs budget log result }
{
    run(
        &Table {
            words: control_table(),
        },
        state,
        program,
        memory,
        inputs,
        outputs,
        budget,
        log,
    )
}

// A run by the rules with a journal.
#[inline(always)]
pub fn run_by_rules_with_journal(
    state: State,
    program: &[u8],
    memory: &mut [u8],
    inputs: &mut [u16],
    outputs: &mut [u16],
    budget: u32,
    log: &mut [u64],
    journal: &mut [u64],
) -> Counted
    ensures { RunsJournaled by_rules state program memory inputs outputs budget log journal result }
{
    counted(
        &Rules, state, program, memory, inputs, outputs, budget, log, true, journal,
    )
}

// A run by the control table with a journal.
#[inline(always)]
pub fn run_by_table_with_journal(
    state: State,
    program: &[u8],
    memory: &mut [u8],
    inputs: &mut [u16],
    outputs: &mut [u16],
    budget: u32,
    log: &mut [u64],
    journal: &mut [u64],
) -> Counted
    ensures { RunsJournaled by_the_table state program memory inputs outputs budget log journal result }
{
    counted(
        &Table {
            words: control_table(),
        },
        state,
        program,
        memory,
        inputs,
        outputs,
        budget,
        log,
        true,
        journal,
    )
}

// A run by any table of 32 control words. It keeps no journal, and its counts and ticks are not reported.
pub fn run_by_control(
    words: &[u16; 32],
    state: State,
    program: &[u8],
    memory: &mut [u8],
    inputs: &mut [u16],
    outputs: &mut [u16],
    budget: u32,
    log: &mut [u64],
) -> Ran
    ensures { RunsOnly (by_control words.now) state program memory inputs outputs budget log result }
{
    let table = Table { words: *words };
    let mut journal = [0u64; 0];
    let mut counts = [0u32; 0];
    let ran = tallied(
        &table,
        state,
        program,
        memory,
        inputs,
        outputs,
        budget,
        log,
        false,
        &mut journal,
        &mut counts,
    );
    Ran {
        state: ran.state,
        answer: ran.answer,
    }
}
