// The saves of a case, and the load of a saved file.
use crate::loads;
use machine::State;
use player::lent::{Lent, all_but};
use player::runs::Call;
use player::{digest, print};
use replies::{SisaLoad, SisaSaved};
use std::io::Write;
use std::{array, io};

const DESTINATION_BYTES: usize = 131088;

type Destination = [u8; DESTINATION_BYTES];

// What the destination holds before save s.
fn held_before(s: u16) -> Destination {
    array::from_fn(|j| ((j + s as usize) % 253) as u8)
}

// How many bytes of the destination save s is lent. The file of save 0 has this length.
fn bytes_lent(s: u16, length: usize) -> usize {
    match s {
        1 => length,
        2 => all_but(true, length),
        _ => DESTINATION_BYTES,
    }
}

fn save_memories(
    s: u16,
    length: usize,
    state: State,
    lent: &Lent,
    destination: &mut Destination,
) -> SisaSaved {
    let bytes = all_but(s == 3, State::MEMORY_BYTES);
    let most = bytes_lent(s, length).min(DESTINATION_BYTES);
    sisa::sisa_save(
        state,
        &lent.program,
        &lent.memory[0..bytes],
        &mut destination[0..most],
    )
}

// Save s, call s of the saves. Answers the length of its file.
fn save<W: Write>(
    out: &mut W,
    call: Call,
    length: usize,
    state: State,
    lent: &Lent,
    destination: &mut Destination,
) -> io::Result<usize> {
    *destination = held_before(call.index);
    let saved = save_memories(call.index, length, state, lent, destination);
    let numbers = [
        call.case as u64,
        call.index as u64,
        saved.refusal as u64,
        saved.length as u64,
        digest::all(0, destination) as u64,
    ];
    print::line(out, b"save", &numbers)?;
    loads::print_named(out, call.case, saved.state)?;
    Ok(saved.length)
}

// The file of this length, at the front of the destination, is loaded.
fn load_again<W: Write>(
    out: &mut W,
    c: u16,
    length: usize,
    destination: &Destination,
    lent: &mut Lent,
) -> io::Result<SisaLoad> {
    let file = &destination[0..length.min(DESTINATION_BYTES)];
    let load = loads::load(c, file, State::MEMORY_BYTES, lent);
    loads::print_load(out, b"again", c, load, lent)?;
    Ok(load)
}

// From the state that the host keeps. Answers what the load of the saved file replied.
pub fn play<W: Write>(out: &mut W, c: u16, kept: State, lent: &mut Lent) -> io::Result<SisaLoad> {
    let mut held = [0u8; DESTINATION_BYTES];
    let length = save(out, Call { case: c, index: 0 }, 0, kept, lent, &mut held)?;
    save(
        out,
        Call { case: c, index: 1 },
        length,
        kept,
        lent,
        &mut held,
    )?;
    let again = load_again(out, c, length, &held, lent)?;
    for index in 2..4 {
        save(
            out,
            Call { case: c, index },
            length,
            again.state,
            lent,
            &mut held,
        )?;
    }
    Ok(again)
}
