// Several trims under one allowance.
#![tactic(auto)]

ghost use Rattle.std.specs.Prelude.{◌≡◌};
ghost use Rattle.refusal.specs.Refusals.{accepted};
ghost use Rattle.machine.specs.Run.{by_rules};
ghost use Rattle.control.specs.Control.{by_the_table};
ghost use Rattle.page.specs.Pages.{page_of, page_verdict, trims_end, no_answer, accepted_page, lent_page, left_page, RunsPage};
ghost use Rattle.page.specs.Parts.{with_run, HasRoom};

use machine::State;
use refusal::Refusal;
use run::Report;
use stepping::{Engine, Rules, Table};
use turns::Progress;
use usage::Usage;

mod answers;
mod checks;
mod turns;

// The states of up to 8 trims.
#[repr(C)]
#[derive(Clone, Copy)]
pub struct Trims {
    pub states: [State; 8],
}

// What a trim of a page answers, as of one run.
#[derive(Clone, Copy)]
pub struct TrimAnswer {
    pub stop: u8,
    pub steps: u32,
    pub entries: usize,
    pub ticks: u64,
    pub usage: Usage,
}

// What a page replies: every state, whether it is refused, and the trims' answers.
#[derive(Clone, Copy)]
pub struct Paged {
    pub trims: Trims,
    pub check: Result<(), Refusal>,
    pub answers: [TrimAnswer; 8],
}

impl TrimAnswer {
    fn none() -> Self
        ensures { result ≡ no_answer }
    {
        Self {
            stop: 0,
            steps: 0,
            entries: 0,
            ticks: 0,
            usage: Usage::none(),
        }
    }

    // With a further run.
    fn with_run(self, report: Report, ticks: u64, more: Usage) -> Self
        requires { HasRoom self report ticks more }
        ensures { result ≡ with_run self report ticks more }
    {
        Self {
            stop: report.stop,
            steps: self.steps + report.steps,
            entries: self.entries + report.entries,
            ticks: self.ticks + ticks,
            usage: answers::add_usage(self.usage, more),
        }
    }
}

// An accepted page: a round with the shares, then one with all that is unused.
fn two_rounds<E: Engine>(
    engine: &E,
    trims: Trims,
    count: usize,
    programs: &[u8],
    memories: &mut [u8],
    inputs: &mut [u16],
    outputs: &mut [u16],
    budget: u32,
    log: &mut [u64],
) -> Paged
    requires { accepted ≡ page_verdict (page_of trims.states count programs.now memories.old inputs.old outputs.old budget log.old) }
    ensures { left_page programs memories inputs outputs log result ≡ accepted_page (lent_page trims count programs memories inputs outputs budget log) (trims_end (E.stepper engine.now) (lent_page trims count programs memories inputs outputs budget log)) }
{
    let states = trims.states;
    let begun = Progress {
        states,
        answers: [TrimAnswer::none(); 8],
        rest: budget,
    };
    let share = budget / count as u32;
    let places = log.len() / count;
    let shared = turns::round(
        engine, false, share, count, places, begun, programs, memories, inputs, outputs, log,
    );
    let ended = turns::round(
        engine, true, budget, count, places, shared, programs, memories, inputs, outputs, log,
    );
    let states = ended.states;
    let answers = ended.answers;
    Paged {
        trims: Trims { states },
        check: Ok(()),
        answers,
    }
}

// A page by an engine: its refusals, then its two rounds. (Not inlined, so that a refused page does not pay for what an accepted one needs.)
#[inline(never)]
fn page<E: Engine>(
    engine: &E,
    trims: Trims,
    count: u8,
    programs: &[u8],
    memories: &mut [u8],
    inputs: &mut [u16],
    outputs: &mut [u16],
    budget: u32,
    log: &mut [u64],
) -> Paged
    ensures { RunsPage (E.stepper engine.now) trims count programs memories inputs outputs budget log result }
{
    match checks::checked(trims, count, programs, memories, inputs, outputs, budget) {
        Ok(()) => two_rounds(
            engine,
            trims,
            count as usize,
            programs,
            memories,
            inputs,
            outputs,
            budget,
            log,
        ),
        Err(refusal) => Paged {
            trims,
            check: Err(refusal),
            answers: [TrimAnswer::none(); 8],
        },
    }
}

// A page of trims by the rules.
pub fn page_by_rules(
    trims: Trims,
    count: u8,
    programs: &[u8],
    memories: &mut [u8],
    inputs: &mut [u16],
    outputs: &mut [u16],
    budget: u32,
    log: &mut [u64],
) -> Paged
    ensures { RunsPage by_rules trims count programs memories inputs outputs budget log result }
{
    page(
        &Rules, trims, count, programs, memories, inputs, outputs, budget, log,
    )
}

// A page of trims by the control table.
pub fn page_by_table(
    trims: Trims,
    count: u8,
    programs: &[u8],
    memories: &mut [u8],
    inputs: &mut [u16],
    outputs: &mut [u16],
    budget: u32,
    log: &mut [u64],
) -> Paged
    ensures { RunsPage by_the_table trims count programs memories inputs outputs budget log result }
{
    let table = Table {
        words: control::control_table(),
    };
    page(
        &table, trims, count, programs, memories, inputs, outputs, budget, log,
    )
}
