// Knob interrupts: cases whose programs enable lines, which the host raises between runs.
use crate::backs::{back, kept_after_back};
use crate::calls::Kept;
use crate::cases::load_whole;
use crate::journals::{Journal, change_of, of_call};
use crate::loads::print_load;
use crate::runs::{Engine, reply_of};
use crate::{journals, sheets};
use machine::State;
use player::file::Sort;
use player::lent::Lent;
use player::print;
use player::runs::{Call, Change, kept_after};
use sheet::Sheet;
use std::io;
use std::io::Write;
use std::num::wrapping_add_u16;

fn raise<W: Write>(out: &mut W, call: Call, kept: Kept) -> io::Result<Kept> {
    let raised = sisa::sisa_raise(kept.state, (of_call(call, 1) % 10) as u8);
    let numbers = [call.case as u64, call.index as u64, raised.refusal as u64];
    print::line(out, b"raise", &numbers)?;
    print::lines(out, call, raised.state)?;
    Ok(Kept {
        state: raised.state,
        ..kept
    })
}

// The state kept, with the change that is this section's own.
fn handed(call: Call, kept: State) -> State {
    match change_of(call) {
        Change::NextReturn => State {
            return_address: wrapping_add_u16(kept.return_address, 1),
            ..kept
        },
        _ => kept,
    }
}

// A run with the journal, and what it returned fed to the sheet.
fn run<W: Write>(
    out: &mut W,
    engine: Engine,
    call: Call,
    kept: Kept,
    lent: &mut Lent,
    journal: &mut Journal,
) -> io::Result<Kept> {
    let start = handed(call, kept.state);
    let ran = journals::run(out, engine, call, start, lent, journal)?;
    let sheet = sheets::feed(out, call, kept.sheet, ran.refusal, ran.usage)?;
    print::lines(out, call, ran.state)?;
    Ok(Kept {
        state: kept_after(kept.state, reply_of(ran)),
        sheet,
    })
}

fn go_back<W: Write>(
    out: &mut W,
    call: Call,
    kept: Kept,
    lent: &mut Lent,
    journal: &Journal,
) -> io::Result<Kept> {
    let start = handed(call, kept.state);
    let gone = back(out, call, start, lent, journal)?;
    print::lines(out, call, gone.state)?;
    Ok(Kept {
        state: kept_after_back(kept.state, gone),
        ..kept
    })
}

// Plays a call. Answers what the host keeps, as each of the three does.
fn play_call<W: Write>(
    out: &mut W,
    call: Call,
    kept: Kept,
    lent: &mut Lent,
    journal: &mut Journal,
) -> io::Result<Kept> {
    match of_call(call, 0) % 8 {
        0 | 1 => raise(out, call, kept),
        2 | 3 => run(out, Engine::Rules, call, kept, lent, journal),
        4 | 5 => run(out, Engine::Table, call, kept, lent, journal),
        _ => go_back(out, call, kept, lent, journal),
    }
}

pub fn play<W: Write>(out: &mut W, c: u16, lent: &mut Lent) -> io::Result<()> {
    let load = load_whole(Sort::Knobs, c, lent);
    print_load(out, b"load", c, load, lent)?;
    let mut journal = journals::first();
    let mut kept = Kept {
        state: load.state,
        sheet: Sheet::empty(),
    };
    for index in 0..24 {
        kept = play_call(out, Call { case: c, index }, kept, lent, &mut journal)?;
    }
    Ok(())
}
