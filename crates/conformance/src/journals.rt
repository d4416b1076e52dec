// The journal of a case, and the runs with it.
ghost use Rattle.std.specs.Prelude.{◌≤◌};

use crate::runs;
use crate::runs::Engine;
use machine::State;
use numbers::number;
use player::lent::Lent;
use player::print;
use player::runs::{Call, Change, LATE, Request, kept_after};
use replies::SisaRun;
use std::io::Write;
use std::{array, io};

const JOURNAL_PLACES: usize = 256;

pub type Journal = [u64; JOURNAL_PLACES];

// The journal that a case begins with.
pub fn first() -> Journal {
    array::from_fn(|i| i as u64)
}

// Number q + k of a case, for its call. (The remainders change nothing.)
pub fn of_call(call: Call, k: u16) -> u16 {
    number(call.case, 7000 + 16 * (call.index % 32) + k % 16)
}

// What is changed in what a call is handed and lent.
pub fn change_of(call: Call) -> Change {
    Change::from(of_call(call, 3))
}

// How many places of the journal are lent.
pub fn journal_places(call: Call) -> usize
    ensures { result ≤ 256 }
{
    match change_of(call) {
        Change::ShortJournal => (of_call(call, 4) % 8) as usize,
        _ => (8 + number(call.case, 7) % 200) as usize,
    }
}

fn run_request(call: Call, kept: State) -> Request {
    let budget = (of_call(call, 1) % 60) as u32;
    let places = (of_call(call, 2) % 40) as usize;
    Request::by_change(change_of(call), kept, LATE, budget, places)
}

fn journal_lent(call: Call, journal: &mut Journal) -> Option<&mut [u64]> {
    match change_of(call) {
        Change::NoJournal => None,
        _ => Some(&mut journal[0..journal_places(call)]),
    }
}

// The run and its line. Answers what the run returned.
pub fn run<W: Write>(
    out: &mut W,
    engine: Engine,
    call: Call,
    kept: State,
    lent: &mut Lent,
    journal: &mut Journal,
) -> io::Result<SisaRun> {
    let request = run_request(call, kept);
    let ran = runs::run_request(engine, request, lent, journal_lent(call, journal));
    runs::print_run(out, b"journal", engine, call, ran)?;
    let state = ran.state;
    print::field(out, state.journaled)?;
    print::left(out, state, lent)?;
    Ok(ran)
}

// The same. Answers the state that the host keeps.
pub fn run_on<W: Write>(
    out: &mut W,
    engine: Engine,
    call: Call,
    kept: State,
    lent: &mut Lent,
    journal: &mut Journal,
) -> io::Result<State> {
    let ran = run(out, engine, call, kept, lent, journal)?;
    Ok(kept_after(kept, runs::reply_of(ran)))
}
