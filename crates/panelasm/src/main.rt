// Reads a trim's text on standard input, and writes the trim file on standard output; where the text is refused, writes nothing
// there, and the diagnostic on standard error.
#![tactic(auto)]

use assembler::TEXT_BYTES;
use std::io;
use std::io::Read;
use trimfile::FILE_BYTES;

fn main(rt: HostRuntime) -> io::Result<()> {
    // One byte more than a text may have, so that a longer one is seen.
    let mut text = Vec::new(rt.alloc());
    rt.reader()
        .take(TEXT_BYTES as u64 + 1)
        .read_to_end(&mut text)?;
    let mut file = [0u8; FILE_BYTES];
    match trimfile::from_text(&text, &mut file) {
        Ok(length) => rt.write_all(&file[..length]),
        Err(diagnostic) => rt.stderr().write_all(diagnostic.as_bytes()),
    }
}
