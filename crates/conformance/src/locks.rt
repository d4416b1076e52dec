// Locked calibration: cases whose programs load and store near a range that is locked, and files that are loaded with one.
use machine::State;
use player::file::{first_locked, last_locked};
use player::print;
use player::runs::Call;
use std::io;
use std::io::Write;
use std::num::wrapping_add_u16;

// The first and the last address of the range that case c is loaded with.
pub fn range_of(c: u16) -> Option<(u16, u16)> {
    match c {
        103..=108 => Some((first_locked(c), last_locked(c))),
        109 | 110 => Some((9, 8)),
        111 => Some((8, 8)),
        _ => None,
    }
}

// The line of a state's board and range.
pub fn print_locked<W: Write>(out: &mut W, c: u16, state: State) -> io::Result<()> {
    let numbers = [
        c as u64,
        state.board as u64,
        state.locked as u64,
        state.first_locked as u64,
        state.last_locked as u64,
    ];
    print::line(out, b"locked", &numbers)
}

// Where a window starts: in this section's cases near the range.
pub fn window_start(call: Call) -> u16 {
    let number = call.number(2);
    match call.case {
        103..=108 => wrapping_add_u16(first_locked(call.case), wrapping_add_u16(65532, number % 8)),
        _ => number,
    }
}

// How many bytes a window shows where nothing else is said: in this section's cases few.
pub fn window_bytes(call: Call) -> usize {
    let number = call.number(3);
    match call.case {
        103..=108 => (number % 8) as usize,
        _ => (number % 4096) as usize,
    }
}
