// A case: its load, its calls, its saves and its going back.
use crate::backs::GOING_BACK;
use crate::calls::Kept;
use crate::loads::print_load;
use crate::{backs, calls, loads, saves, sheets};
use machine::State;
use numbers::number;
use player::file::{File, Sort};
use player::lent::{Lent, all_but};
use player::runs::Call;
use replies::SisaLoad;
use std::io;
use std::io::Write;

// The memory lent is short where the page says so.
fn load_file(c: u16, lent: &mut Lent) -> SisaLoad {
    let file = File::of_case(c);
    let memory_bytes = all_but(number(c, 4) % 8 == 0, State::MEMORY_BYTES);
    loads::load(c, &file.make()[0..file.length()], memory_bytes, lent)
}

// The undamaged file of case c is loaded into the whole memories and ports.
pub fn load_whole(sort: Sort, c: u16, lent: &mut Lent) -> SisaLoad {
    let file = File::whole(sort, c);
    loads::load(c, &file.make()[0..file.length()], State::MEMORY_BYTES, lent)
}

// Answers the state that the host keeps.
fn play_calls<W: Write>(out: &mut W, c: u16, loaded: State, lent: &mut Lent) -> io::Result<State> {
    let mut kept = Kept {
        state: loaded,
        sheet: sheets::first(c),
    };
    for index in 0..16 {
        kept = calls::call(out, Call { case: c, index }, kept, lent)?;
    }
    Ok(kept.state)
}

// A case from its load on.
pub fn play_loaded<W: Write>(
    out: &mut W,
    c: u16,
    load: SisaLoad,
    lent: &mut Lent,
) -> io::Result<()> {
    print_load(out, b"load", c, load, lent)?;
    if load.refusal != 0 {
        return Ok(());
    }
    let kept = play_calls(out, c, load.state, lent)?;
    let again = saves::play(out, c, kept, lent)?;
    if again.refusal != 0 {
        return Ok(());
    }
    backs::play(out, GOING_BACK, c, again.state, lent)
}

pub fn play<W: Write>(out: &mut W, c: u16, lent: &mut Lent) -> io::Result<()> {
    let load = load_file(c, lent);
    play_loaded(out, c, load, lent)
}
