// The sheet of a case.
use numbers::number;
use player::runs::Call;
use player::{digest, print};
use sheet::Sheet;
use std::io::Write;
use std::{array, io};
use usage::Usage;

fn counts_digest(kinds: &[u64], taken: u64, reads: &[u64], writes: &[u64]) -> u32 {
    let after = digest::all(0, kinds);
    let after = digest::all(after, &[taken]);
    let after = digest::all(after, reads);
    digest::all(after, writes)
}

pub fn usage_digest(usage: Usage) -> u32 {
    counts_digest(&usage.kinds, usage.taken, &usage.reads, &usage.writes)
}

fn sheet_digest(sheet: Sheet) -> u32 {
    counts_digest(&sheet.kinds, sheet.taken, &sheet.reads, &sheet.writes)
}

// Count k, in the digest's order, of a sheet that is nearly full. (The remainder changes nothing.)
fn large(c: u16, k: usize) -> u64 {
    18446744073709551615 - (number(c, 600 + (k % 51) as u16) as u64)
}

fn large_counts(c: u16) -> Sheet {
    Sheet {
        kinds: array::from_fn(|k| large(c, k)),
        taken: large(c, 34),
        reads: array::from_fn(|k| large(c, 35 + k)),
        writes: array::from_fn(|k| large(c, 43 + k)),
        runs: 0,
    }
}

// The sheet that case c begins with.
pub fn first(c: u16) -> Sheet {
    match number(c, 5) % 4 {
        0 => Sheet {
            runs: 65530,
            ..Sheet::empty()
        },
        1 => large_counts(c),
        _ => Sheet::empty(),
    }
}

// Feeds the sheet what a run returned, and prints what comes of it.
pub fn feed<W: Write>(
    out: &mut W,
    call: Call,
    sheet: Sheet,
    refusal: u8,
    usage: Usage,
) -> io::Result<Sheet> {
    let fed = sisa::sisa_feed(sheet, refusal, usage);
    let after = fed.sheet;
    let numbers = [
        call.case as u64,
        call.index as u64,
        fed.refusal as u64,
        after.runs as u64,
        sheet_digest(after) as u64,
    ];
    print::line(out, b"fed", &numbers)?;
    Ok(after)
}
