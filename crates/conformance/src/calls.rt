// The calls of a case of docs/CONFORMANCE.md, played on the C interface.
use crate::runs::Engine;
use crate::{instructions, locks, runs};
use machine::State;
use player::lent::{Lent, all_but};
use player::runs::Call;
use player::{digest, print};
use replies::SisaWindow;
use sheet::Sheet;
use std::io;
use std::io::Write;

// What the host keeps between two calls.
#[derive(Clone, Copy)]
pub struct Kept {
    pub state: State,
    pub sheet: Sheet,
}

// The start of a call's line.
pub fn start_line<W: Write>(out: &mut W, what: &[u8], call: Call) -> io::Result<()> {
    print::text(out, what)?;
    print::fields(out, &[call.case as u64, call.index as u64])
}

// Sets a port of the inputs lent, and prints the line but for its digest.
pub fn set_port<W: Write>(
    out: &mut W,
    call: Call,
    port: u16,
    value: u16,
    inputs: &mut [u16],
) -> io::Result<()> {
    let refusal = sisa::sisa_set_input(inputs, (port % 256) as u8, value);
    start_line(out, b"set", call)?;
    print::field(out, refusal as u64)
}

fn set<W: Write>(out: &mut W, call: Call, kept: State, lent: &mut Lent) -> io::Result<()> {
    let words = all_but(call.number(3) % 16 == 0, State::PORTS);
    set_port(
        out,
        call,
        call.number(1),
        call.number(2),
        &mut lent.inputs[0..words],
    )?;
    print::left(out, kept, lent)
}

// How many bytes a window is to show.
fn window_count(call: Call, start: u16) -> usize {
    let rest = State::MEMORY_BYTES - start as usize;
    match call.number(4) % 8 {
        0 => rest,
        1 => rest + 1,
        2 => 0,
        _ => locks::window_bytes(call),
    }
}

// The digest of the bytes that a window shows.
fn window_digest(bytes: &[u8], window: SisaWindow) -> u32 {
    let rest = &bytes[window.start.min(bytes.len())..];
    digest::all(0, &rest[0..window.count.min(rest.len())])
}

fn window<W: Write>(out: &mut W, call: Call, kept: State, lent: &Lent) -> io::Result<()> {
    let of_data = (call.number(1) % 2) as u8;
    let start = locks::window_start(call);
    let count = window_count(call, start);
    let window = sisa::sisa_window(
        kept,
        &lent.program,
        &lent.memory,
        of_data,
        start as usize,
        count,
    );
    let shown = if of_data == 0 {
        &lent.program
    } else {
        &lent.memory
    };
    let numbers = [
        call.case as u64,
        call.index as u64,
        window.start as u64,
        window.count as u64,
        window_digest(shown, window) as u64,
    ];
    print::line(out, b"window", &numbers)
}

// Plays a call. Answers what the host keeps.
pub fn call<W: Write>(out: &mut W, call: Call, kept: Kept, lent: &mut Lent) -> io::Result<Kept> {
    match call.number(0) % 8 {
        0 => set(out, call, kept.state, lent)?,
        1 | 2 => return runs::run(out, Engine::Rules, call, kept, lent),
        3 | 4 => return runs::run(out, Engine::Table, call, kept, lent),
        5 => return runs::run(out, Engine::Host, call, kept, lent),
        6 => window(out, call, kept.state, lent)?,
        _ => instructions::read_and_write(out, call)?,
    }
    Ok(kept)
}
