// The single-memory board: cases whose programs store into themselves, and files that just fit it and just do not. The section on locked
// calibration is of the same two parts.
use crate::cases::{load_whole, play_loaded};
use crate::loads;
use crate::loads::print_load;
use machine::State;
use numbers::number;
use player::file::Sort;
use player::lent::Lent;
use std::io::Write;
use std::ops::Range;
use std::{array, io};

const LARGE_BYTES: usize = 64016;

type LargeFile = [u8; LARGE_BYTES];

fn play<W: Write>(out: &mut W, sort: Sort, c: u16, lent: &mut Lent) -> io::Result<()> {
    let load = load_whole(sort, c, lent);
    play_loaded(out, c, load, lent)
}

// Byte `at` of the header, which is 32,000, 16, C, 16.
fn header_byte(c: u16, at: usize) -> u8 {
    match at {
        1 => 125,
        4 => 16,
        8 => matches!(c, 87 | 88 | 109) as u8,
        9 => 6,
        12 => 16,
        _ => 0,
    }
}

fn large_file(c: u16) -> LargeFile {
    array::from_fn(|at| {
        if at < 16 {
            header_byte(c, at)
        } else {
            (number(c, at as u16) % 256) as u8
        }
    })
}

fn play_large<W: Write>(out: &mut W, c: u16, lent: &mut Lent) -> io::Result<()> {
    let load = loads::load(c, &large_file(c), State::MEMORY_BYTES, lent);
    print_load(out, b"load", c, load, lent)
}

// A section: its cases, and its cases of large files.
pub fn all<W: Write>(
    out: &mut W,
    sort: Sort,
    cases: Range<u16>,
    large: Range<u16>,
    lent: &mut Lent,
) -> io::Result<()> {
    for c in cases {
        play(out, sort, c, lent)?;
    }
    for c in large {
        play_large(out, c, lent)?;
    }
    Ok(())
}
