// Reads a trim file on standard input, and writes what its run reports.
#![tactic(auto)]

use report::FILE_BYTES;
use std::io;
use std::io::Read;

fn main(rt: HostRuntime) -> io::Result<()> {
    // One byte more than a file may have, so that a longer one is seen.
    let mut file = Vec::new(rt.alloc());
    rt.reader()
        .take(FILE_BYTES as u64 + 1)
        .read_to_end(&mut file)?;
    rt.write_all(report::report(&file).as_bytes())
}
