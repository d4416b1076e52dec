// The turns that the trims of a page take, one after the other.
ghost use Rattle.std.specs.Prelude.{◌≡◌, ◌&&◌, eqb};
ghost use Rattle.page.specs.Parts.{CanTurn, TakesTurn, CanRound, TakesRound};

use crate::{TrimAnswer, answers};
use machine::State;
use stepping::Engine;

// What a trim's turn comes to: its state, its answer so far, and the steps of this turn.
#[derive(Clone, Copy)]
struct Turned {
    state: State,
    answer: TrimAnswer,
    steps: u32,
}

// How far the trims have come, and what is unused of the budget.
#[derive(Clone, Copy)]
pub struct Progress {
    pub states: [State; 8],
    pub answers: [TrimAnswer; 8],
    pub rest: u32,
}

// In its second turn a trim that is left nothing is not run.
fn is_left_out(again: bool, budget: u32) -> bool
    ensures { result ≡ («again» && eqb budget 0) }
{
    again && budget == 0
}

// The turn of the trim at a place: it runs on, with its log part's free places.
fn turn<E: Engine>(
    engine: &E,
    again: bool,
    at: usize,
    places: usize,
    state: State,
    answer: TrimAnswer,
    programs: &[u8],
    memories: &mut [u8],
    inputs: &mut [u16],
    outputs: &mut [u16],
    budget: u32,
    log: &mut [u64],
) -> Turned
    requires { CanTurn at places state answer programs.now memories.old inputs.old outputs.old budget log.old }
    ensures { TakesTurn (E.stepper engine.now) «again» at places state answer programs memories inputs outputs budget log result }
{
    if is_left_out(again, budget) {
        return Turned {
            state,
            answer,
            steps: 0,
        };
    }
    let a = at * State::MEMORY_BYTES;
    let e = a + State::MEMORY_BYTES;
    let p = at * State::PORTS;
    let q = p + State::PORTS;
    let free = at * places + answer.entries;
    let end = at * places + places;
    let ran = engine::run(
        engine,
        state,
        &programs[a..e],
        &mut memories[a..e],
        &mut inputs[p..q],
        &mut outputs[p..q],
        budget,
        &mut log[free..end],
    );
    let report = answers::report_of(ran.answer);
    Turned {
        state: ran.state,
        answer: answer.with_run(report, ran.ticks, ran.usage),
        steps: report.steps,
    }
}

// A round: in order, each trim takes its turn with what is unused, `most` at most.
pub fn round<E: Engine>(
    engine: &E,
    again: bool,
    most: u32,
    count: usize,
    places: usize,
    begun: Progress,
    programs: &[u8],
    memories: &mut [u8],
    inputs: &mut [u16],
    outputs: &mut [u16],
    log: &mut [u64],
) -> Progress
    requires { CanRound count places begun programs.now memories.old inputs.old outputs.old log.old }
    ensures { TakesRound (E.stepper engine.now) «again» most count places begun programs memories inputs outputs log result }
{
    let mut states = begun.states;
    let mut answers = begun.answers;
    let mut rest = begun.rest;
    for i in 0..count {
        let budget = most.min(rest);
        let turned = turn(
            engine, again, i, places, states[i], answers[i], programs, memories, inputs, outputs,
            budget, log,
        );
        states[i] = turned.state;
        answers[i] = turned.answer;
        rest -= turned.steps;
    }
    Progress {
        states,
        answers,
        rest,
    }
}
