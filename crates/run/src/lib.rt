// What a run replies, and the tests that refuse it.
#![tactic(auto)]

ghost use Rattle.std.specs.Prelude.{◌≡◌, ◌+◌, ◌≤◌};
ghost use Rattle.refusal.specs.Refusals.{shown_check};
ghost use Rattle.usage.specs.Counting.{Few};
ghost use Rattle.run.specs.Runs.{verdict, journal_if, allowed_in};
ghost use Rattle.run.specs.Parts.{StartsFrom, EndsWith, timed};

use machine::State;
use refusal::Refusal;
use usage::Usage;

// Why a run stopped, how many steps it took, and how many entries of the log it filled.
#[derive(Clone, Copy)]
pub struct Report {
    pub stop: u8,
    pub steps: u32,
    pub entries: usize,
}

// What a run replies: the register state, which a refused run hands back, and the report or the refusal.
#[derive(Clone, Copy)]
pub struct Ran {
    pub state: State,
    pub answer: Result<Report, Refusal>,
}

// What a run that counts replies: also its counts and its ticks, which are zero where it is refused.
#[derive(Clone, Copy)]
pub struct Counted {
    pub state: State,
    pub answer: Result<Report, Refusal>,
    pub usage: Usage,
    pub ticks: u64,
}

// The same before its ticks are worked out.
#[derive(Clone, Copy)]
pub struct Tallied {
    pub state: State,
    pub answer: Result<Report, Refusal>,
    pub usage: Usage,
}

// The refusals of a run, in their order.
#[tactic(auto, unfolding(crate::specs::Runs::verdict))]
pub fn checked(
    state: State,
    program: &[u8],
    memory: &[u8],
    inputs: &[u16],
    outputs: &[u16],
    budget: u32,
) -> Result<(), Refusal>
    ensures { shown_check result ≡ verdict state program.now memory.now inputs.now outputs.now budget }
{
    if !bus::lengths_fit(program, memory, inputs, outputs) {
        return Err(Refusal::LentLength);
    }
    if !state.is_even() {
        return Err(Refusal::OddPc);
    }
    if u32::MAX - state.n < budget {
        return Err(Refusal::StepCount);
    }
    Ok(())
}

// The state that an accepted run starts from.
pub fn starting(state: State, keeps: bool) -> State
    ensures { StartsFrom «keeps» state result }
{
    if keeps {
        state
    } else {
        state.with_journaled(0)
    }
}

// The steps that it may take, where the state counts so many entries of the journal.
pub fn allowed(budget: u32, count: u64, keeps: bool, journal: &[u64]) -> u32
    ensures { result ≡ allowed_in (journal_if «keeps» journal.now) count budget }
{
    if !keeps {
        return budget;
    }
    let left = (journal.len() as u64).saturating_sub(count);
    left.min(budget as u64) as u32
}

// The state that it ends with, after so many steps.
pub fn ending(state: State, steps: u32, keeps: bool) -> State
    requires { state.journaled + steps ≤ 18446744073709551615 }
    ensures { EndsWith «keeps» steps state result }
{
    if keeps {
        state.with_journaled(state.journaled + steps as u64)
    } else {
        state
    }
}

// What a run replies, with its ticks, worked out from its steps and its counts by kind.
pub fn with_ticks(ran: Tallied) -> Counted
    requires { Few ran.usage.kinds }
    ensures { result ≡ timed ran }
{
    let ticks = match ran.answer {
        Ok(report) => ran.usage.ticks(report.steps),
        Err(_) => 0,
    };
    Counted {
        state: ran.state,
        answer: ran.answer,
        usage: ran.usage,
        ticks,
    }
}
