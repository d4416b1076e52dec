// The loads of a case: the board and the range that they name, and their lines.
use crate::locks;
use crate::locks::range_of;
use machine::State;
use player::lent::Lent;
use player::print;
use replies::SisaLoad;
use std::io;
use std::io::Write;

// The board that case c is loaded for.
fn board_of(c: u16) -> u8 {
    match c {
        80..=87 | 89 | 91 | 93 | 95 | 103 | 105 | 107 | 109..=111 => 1,
        _ => 0,
    }
}

// Loads a file for the board and with the range of case c, lent so many bytes of the memory.
pub fn load(c: u16, file: &[u8], memory_bytes: usize, lent: &mut Lent) -> SisaLoad {
    let (locked, first, last) = match range_of(c) {
        Some((first, last)) => (1, first, last),
        None => (0, 0, 0),
    };
    sisa::sisa_load(
        file,
        board_of(c),
        locked,
        first,
        last,
        &mut lent.program,
        &mut lent.memory[0..memory_bytes.min(State::MEMORY_BYTES)],
        &mut lent.inputs,
        &mut lent.outputs,
    )
}

// The line of a state's board, or of its board and range, which the cases of two sections have.
pub fn print_named<W: Write>(out: &mut W, c: u16, state: State) -> io::Result<()> {
    match c {
        80..=88 => print::line(out, b"board", &[c as u64, state.board as u64]),
        103..=111 => locks::print_locked(out, c, state),
        _ => Ok(()),
    }
}

// The line of a load, and the one of what it names.
pub fn print_load<W: Write>(
    out: &mut W,
    what: &[u8],
    c: u16,
    load: SisaLoad,
    lent: &Lent,
) -> io::Result<()> {
    print::text(out, what)?;
    print::fields(out, &[c as u64, load.refusal as u64])?;
    print::left(out, load.state, lent)?;
    print_named(out, c, load.state)
}
