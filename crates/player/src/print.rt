// Printing to a writer.
ghost use Rattle.std.specs.Prelude.{OnOk};
ghost use Rattle.std.specs.Io.KnownBytes.{Appends};
ghost use Rattle.player.specs.Digest.{digest_of_left};
ghost use Rattle.player.specs.Print.{field, fields, last_field, line, lines};

use crate::digest;
use crate::lent::Lent;
use crate::runs::Call;
use machine::State;
use std::io;
use std::io::Write;

pub fn text<W: Write>(out: &mut W, bytes: &[u8]) -> io::Result<()>
    ensures { OnOk result (Appends (W.contents out.old) (W.contents out.new) bytes.now) }
{
    out.write_all(bytes)
}

// A space and a number.
pub fn field<W: Write>(out: &mut W, n: u64) -> io::Result<()>
    ensures { OnOk result (Appends (W.contents out.old) (W.contents out.new) (field n)) }
{
    write!(out, " {n}")
}

// The fields of a line, but for its last.
pub fn fields<W: Write>(out: &mut W, numbers: &[u64]) -> io::Result<()>
    ensures { OnOk result (Appends (W.contents out.old) (W.contents out.new) (fields numbers.now)) }
{
    for n in numbers {
        field(out, *n)?;
    }
    Ok(())
}

// The last field of a line.
pub fn last_field<W: Write>(out: &mut W, n: u64) -> io::Result<()>
    ensures { OnOk result (Appends (W.contents out.old) (W.contents out.new) (last_field n)) }
{
    writeln!(out, " {n}")
}

// A line: its first word, and its fields.
pub fn line<W: Write>(out: &mut W, word: &[u8], numbers: &[u64]) -> io::Result<()>
    ensures { OnOk result (Appends (W.contents out.old) (W.contents out.new) (line word.now numbers.now)) }
{
    text(out, word)?;
    fields(out, numbers)?;
    writeln!(out)
}

// The digest of what is left, the last field of a line.
pub fn left<W: Write>(out: &mut W, state: State, lent: &Lent) -> io::Result<()>
    ensures { OnOk result (Appends (W.contents out.old) (W.contents out.new) (last_field (digest_of_left state lent.now))) }
{
    last_field(out, digest::of_all(state, lent) as u64)
}

// The line of what a state has for interrupts, after a call.
pub fn lines<W: Write>(out: &mut W, call: Call, state: State) -> io::Result<()>
    ensures { OnOk result (Appends (W.contents out.old) (W.contents out.new) (lines call.case call.index state)) }
{
    let numbers = [
        call.case as u64,
        call.index as u64,
        state.enabled as u64,
        state.pending as u64,
        state.line as u64,
        state.return_address as u64,
    ];
    line(out, b"lines", &numbers)
}
