// Going back: sets, runs with a journal and steps back, after a load.
use crate::calls::{set_port, start_line};
use crate::journals;
use crate::journals::{Journal, change_of, journal_places, of_call, run_on};
use crate::runs::Engine;
use machine::State;
use player::lent::Lent;
use player::print;
use player::runs::{Call, Request};
use replies::SisaBack;
use std::io;
use std::io::Write;
use std::num::wrapping_add_u64;

// How many calls a case makes, below which choice a call is a set, and which bits of a port's number are kept.
#[derive(Clone, Copy)]
pub struct Calls {
    pub count: u16,
    pub sets: u16,
    pub port_bits: u16,
}

pub const GOING_BACK: Calls = Calls {
    count: 12,
    sets: 1,
    port_bits: 255,
};

fn set<W: Write>(
    out: &mut W,
    call: Call,
    port_bits: u16,
    kept: State,
    lent: &mut Lent,
) -> io::Result<()> {
    let port = of_call(call, 1) & port_bits;
    set_port(out, call, port, of_call(call, 2), &mut lent.inputs)?;
    print::left(out, kept, lent)
}

// How many steps to go back. (A count is at most the journal's length: the sum does not wrap.)
fn steps_of(call: Call, journaled: u64) -> u64 {
    match of_call(call, 2) % 4 {
        0 => journaled,
        1 => wrapping_add_u64(journaled, 1),
        _ => (of_call(call, 1) % 20) as u64,
    }
}

// A step back has no budget and no log.
fn back_request(call: Call, kept: State) -> Request {
    Request::by_change(change_of(call), kept, kept.n.min(3), 0, 0)
}

fn step_back(call: Call, kept: State, lent: &mut Lent, journal: &Journal) -> SisaBack {
    let request = back_request(call, kept);
    sisa::sisa_step_back(
        request.state,
        &lent.program,
        &mut lent.memory[0..request.bytes.min(State::MEMORY_BYTES)],
        &mut lent.inputs,
        &mut lent.outputs[0..request.ports.min(State::PORTS)],
        &journal[0..journal_places(call)],
        steps_of(call, kept.journaled),
    )
}

// Going back and its line. Answers what the call returned.
pub fn back<W: Write>(
    out: &mut W,
    call: Call,
    kept: State,
    lent: &mut Lent,
    journal: &Journal,
) -> io::Result<SisaBack> {
    let gone = step_back(call, kept, lent, journal);
    let state = gone.state;
    start_line(out, b"back", call)?;
    print::fields(out, &[gone.refusal as u64, gone.entries, state.journaled])?;
    print::left(out, state, lent)?;
    Ok(gone)
}

// The state that the host keeps after going back.
pub fn kept_after_back(kept: State, gone: SisaBack) -> State {
    if gone.refusal == 0 { gone.state } else { kept }
}

// Plays a call. Answers the state that the host keeps.
fn play_call<W: Write>(
    out: &mut W,
    calls: Calls,
    call: Call,
    kept: State,
    lent: &mut Lent,
    journal: &mut Journal,
) -> io::Result<State> {
    match of_call(call, 0) % 8 {
        choice if choice < calls.sets => {
            set(out, call, calls.port_bits, kept, lent)?;
            Ok(kept)
        }
        0..=3 => run_on(out, Engine::Rules, call, kept, lent, journal),
        4 | 5 => run_on(out, Engine::Table, call, kept, lent, journal),
        _ => {
            let gone = back(out, call, kept, lent, journal)?;
            Ok(kept_after_back(kept, gone))
        }
    }
}

pub fn play<W: Write>(
    out: &mut W,
    calls: Calls,
    c: u16,
    loaded: State,
    lent: &mut Lent,
) -> io::Result<()> {
    let mut journal = journals::first();
    let mut kept = loaded;
    for index in 0..calls.count {
        let call = Call { case: c, index };
        kept = play_call(out, calls, call, kept, lent, &mut journal)?;
    }
    Ok(())
}
