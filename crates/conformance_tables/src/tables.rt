// The tables.
use numbers::number;
use std::array;

pub type Table = [u16; 32];

// The first of the tables with knob interrupts.
pub const INTERRUPTS: u16 = 160;

// The first of the tables whose file is loaded with a range.
pub const LOCKS: u16 = 176;

// The paper's table with OUT's word at IN's place too.
fn with_out_at_in() -> Table {
    let mut words = control::control_table();
    words[20] = words[21];
    words
}

fn replaced(c: u16) -> Table {
    let mut words = control::control_table();
    words[(number(c, 40) % 32) as usize] = number(c, 41);
    words
}

fn exchanged(c: u16) -> Table {
    let mut words = control::control_table();
    words.swap((number(c, 40) % 24) as usize, (number(c, 41) % 24) as usize);
    words
}

// Words of which each has these bits cleared, then those set.
fn random(c: u16, cleared: u16, set: u16) -> Table {
    array::from_fn(|j| (number(c, 100 + j as u16) & !cleared) | set)
}

// Words that say assigned. In most of them bit 15, which leaves the choice to f, is cleared.
fn some_by_f(c: u16) -> Table {
    let mut words = random(c, 0, 16384);
    for (j, word) in words.iter_mut().enumerate() {
        if number(c, 140 + j as u16) % 4 != 0 {
            *word &= 32767;
        }
    }
    words
}

// Words that say assigned, from table 128 on with the input as result, from 160 on with few that leave the choice to f.
fn assigned(t: u16, c: u16) -> Table {
    match t {
        0..128 => random(c, 0, 16384),
        128..INTERRUPTS => random(c, 28, 16400),
        _ => some_by_f(c),
    }
}

// Table t, for case c.
pub fn table_of(t: u16, c: u16) -> Table {
    if t % 16 == 8 {
        return with_out_at_in();
    }
    match t % 4 {
        0 => replaced(c),
        1 => exchanged(c),
        2 => assigned(t, c),
        _ => random(c, 0, 0),
    }
}
