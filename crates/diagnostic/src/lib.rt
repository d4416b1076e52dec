// What the program `panelasm` writes for a text that is refused. The number after `Wrote` is the most bytes that the part has.
#![tactic(auto)]

ghost use Rattle.std.specs.Prelude.{◌≡◌, ◌≤◌, [], length, get_or};
ghost use Rattle.refusal.specs.Refusals.{refusal_number};
ghost use Rattle.printing.specs.Writing.{Wrote};
ghost use Rattle.assembler.specs.Text.{lines};
ghost use Rattle.diagnostic.specs.Diagnostic.{reason, shown_byte, shown_line, source, diagnostic_of};

use printing::Printed;
use refusal::Refusal;

// So many bytes of a line are shown.
const SHOWN: usize = 200;

const LINE_FEED: u8 = b'\n';

// The refusals of other calls have no reason here.
#[tactic(auto, unfolding(crate::specs::Diagnostic::reason))]
fn reason(refusal: Refusal) -> &'static [u8]
    ensures reason { result.now ≡ reason (refusal_number refusal) }
    ensures short { length result.now ≤ 43 }
{
    match refusal {
        Refusal::LentLength => b", the program memory is not 65,536 bytes",
        Refusal::ShortDestination => b", the destination is shorter than the file",
        Refusal::TextLine => b", outside the grammar or past a stated size",
        Refusal::TextName => b", a name unknown or given before",
        Refusal::TextValue => b", a value its field can't hold",
        _ => b"",
    }
}

// Line k, from 0; empty where the text has fewer lines.
fn line_of(text: &[u8], k: u32) -> &[u8]
    ensures { result.now ≡ get_or (lines text.now) k [] }
{
    text.split(|b| *b == LINE_FEED)
        .nth(k as usize)
        .unwrap_or(&[])
}

fn shown_byte(b: u8) -> u8
    ensures { result ≡ shown_byte b }
{
    match b {
        b' '..=b'~' => b,
        _ => b'?',
    }
}

fn with_line(text: Printed, line: &[u8]) -> Printed
    ensures { Wrote 200 (shown_line line.now) text result }
{
    line.iter()
        .take(SHOWN)
        .fold(text, |text, b| text.with_byte(shown_byte(*b)))
}

fn with_source(written: Printed, text: &[u8], line: u32) -> Printed
    ensures { Wrote 205 (source text.now line) written result }
{
    if line == 0 {
        return written;
    }
    with_line(written.with_word(b"    "), line_of(text, line - 1)).with_byte(LINE_FEED)
}

// For a line of the text that is refused: its number, why, and the line itself.
pub fn diagnostic(text: &[u8], line: u32, refusal: Refusal) -> Printed
    ensures { result ≡ diagnostic_of text.now line (refusal_number refusal) }
{
    let message = Printed::empty()
        .with_word(b"line ")
        .with_decimal(line as u64)
        .with_word(b": refused ")
        .with_decimal(u8::from(refusal) as u64)
        .with_word(reason(refusal))
        .with_byte(LINE_FEED);
    with_source(message, text, line)
}
