// The printed runs.
use player::file::{File, Sort};
use player::print;
use std::io;
use std::io::Write;

// What panelrun prints for a file.
fn print_run<W: Write>(out: &mut W, file: &[u8]) -> io::Result<()> {
    print::text(out, report::report(file).as_bytes())
}

// A file with this length.
fn of_file<W: Write>(out: &mut W, file: File, length: usize) -> io::Result<()> {
    let bytes = file.make();
    print_run(out, &bytes[0..length.min(bytes.len())])
}

fn of_case<W: Write>(out: &mut W, c: u16) -> io::Result<()> {
    let file = File::of_case(c);
    of_file(out, file, file.length())
}

pub fn all<W: Write>(out: &mut W) -> io::Result<()> {
    for c in 0..64 {
        of_case(out, c)?;
    }
    for length in [0, 65536, 65537] {
        of_file(out, File::whole(Sort::Any, 4), length)?;
    }
    Ok(())
}
