// Reads a trim file on standard input, and writes its listing.
#![tactic(auto)]

use report::FILE_BYTES;
use std::io;
use std::io::{BufWriter, Read, Write};

fn main(rt: HostRuntime) -> io::Result<()> {
    // As `panelrun` reads it: one byte more than a file may have.
    let mut file = Vec::new(rt.alloc());
    rt.reader()
        .take(FILE_BYTES as u64 + 1)
        .read_to_end(&mut file)?;
    let mut out = BufWriter::new(rt.alloc(), io::writer(&rt))?;
    let mut k = 0;
    while let Some(line) = listing::line_at(&file, k) {
        out.write_all(line.as_bytes())?;
        k += 1;
    }
    out.flush()
}
