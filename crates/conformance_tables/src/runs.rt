// The runs by a table.
use crate::tables;
use crate::tables::{INTERRUPTS, LOCKS, Table};
use image::Range;
use machine::{Board, State};
use numbers::number;
use player::file::{File, Sort};
use player::lent::{LOG_PLACES, Lent};
use player::print;
use player::runs::{Call, LATE, Reply, Request, finish};
use run::Ran;
use std::io::Write;
use std::{array, io};

fn reply_of(ran: Ran) -> Reply {
    let state = ran.state;
    match ran.answer {
        Ok(report) => Reply {
            state,
            refusal: 0,
            stop: report.stop,
            steps: report.steps,
            entries: report.entries as u64,
        },
        Err(refusal) => Reply {
            state,
            refusal: u8::from(refusal),
            stop: 0,
            steps: 0,
            entries: 0,
        },
    }
}

fn run_request(words: &Table, request: Request, lent: &mut Lent) -> Reply {
    let ran = engine::run_by_control(
        words,
        request.state,
        &lent.program,
        &mut lent.memory[0..request.bytes.min(State::MEMORY_BYTES)],
        &mut lent.inputs,
        &mut lent.outputs[0..request.ports.min(State::PORTS)],
        request.budget,
        &mut lent.log[0..request.places.min(LOG_PLACES)],
    );
    reply_of(ran)
}

// A run by table t. Answers the state that the host keeps.
fn run<W: Write>(
    out: &mut W,
    words: &Table,
    t: u16,
    call: Call,
    kept: State,
    lent: &mut Lent,
) -> io::Result<State> {
    let places = (call.number(2) % 8) as usize;
    let request = Request::of_call(call, kept, LATE, places);
    let reply = run_request(words, request, lent);
    let named = Call { case: t, ..call };
    print::text(out, b"run control")?;
    let kept = finish(out, named, kept, reply, lent)?;
    if t >= INTERRUPTS {
        print::lines(out, named, reply.state)?;
    }
    Ok(kept)
}

fn set_inputs(c: u16, lent: &mut Lent) {
    lent.inputs = array::from_fn(|p| number(c, 400 + p as u16));
}

fn sort_of(t: u16) -> Sort {
    match t {
        0..128 => Sort::Any,
        128..INTERRUPTS => Sort::LowPorts,
        _ => Sort::Enabling,
    }
}

fn start_of(t: u16, c: u16, loaded: State) -> State {
    let start = State {
        r: array::from_fn(|k| number(c, 60 + k as u16)),
        ..loaded
    };
    if t < INTERRUPTS {
        return start;
    }
    State {
        enabled: (number(c, 70) % 2) as u8,
        pending: (number(c, 71) % 256) as u8,
        line: (number(c, 72) % 256) as u8,
        return_address: number(c, 73) / 2 * 2,
        ..start
    }
}

fn board_of(t: u16) -> Board {
    if t < LOCKS {
        Board::TwoMemories
    } else {
        Board::from((t % 2) as u8)
    }
}

fn range_of(t: u16, c: u16) -> Range {
    if t < LOCKS {
        return Range {
            locked: 0,
            first: 0,
            last: 0,
        };
    }
    let first = 256 + number(c, 74) % 16384;
    Range {
        locked: 1,
        first,
        last: first + number(c, 75) % 32768,
    }
}

// The state that the runs start from.
fn load(t: u16, c: u16, lent: &mut Lent) -> State {
    let file = File::whole(sort_of(t), c);
    let loaded = image::load(
        &file.make()[0..file.length()],
        board_of(t),
        range_of(t, c),
        &mut lent.program,
        &mut lent.memory,
        &mut lent.inputs,
        &mut lent.outputs,
    );
    set_inputs(c, lent);
    start_of(t, c, loaded.state)
}

// The runs by table t. (The remainder changes nothing.)
pub fn play<W: Write>(out: &mut W, t: u16, lent: &mut Lent) -> io::Result<()> {
    let c = 1000 + t % 192;
    let words = tables::table_of(t, c);
    let mut kept = load(t, c, lent);
    for index in 0..4 {
        kept = run(out, &words, t, Call { case: c, index }, kept, lent)?;
    }
    Ok(())
}
