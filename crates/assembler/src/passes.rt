// The passes over a text's lines.
ghost use Rattle.std.specs.Prelude.{◌≡◌, false, List, ◌∷◌, ◌++◌, ℕ, ◌+◌, ◌*◌, ◌/◌, ◌%◌, ◌<◌, ◌≤◌, IfOk, length, take, drop};
ghost use Rattle.expression.specs.declared.Label.{Label as Held};
ghost use Rattle.statement.specs.Parts.{shown_line};
ghost use Rattle.assembler.specs.Passes.{LineEnd, Labelled, Ready, Taken, counted, moved, LineRead, Scanned, WordRoom, WroteLine, Fine, WrittenBy};

use crate::Rejected;
use encoding::Judged;
use expression::{Label, names};
use refusal::Refusal;
use statement::line::Content;

// Room for the names.
pub const NAMES: usize = 64;

// Where the line that begins at a position ends: at its newline, or at the end of the text.
pub fn line_end(text: &[u8], at: usize) -> usize
    requires { at ≤ length text.now }
    ensures { LineEnd text.now at result }
{
    for i in at..text.len() {
        if text[i] == b'\n' {
            return i;
        }
    }
    text.len()
}

// Gives a name, if there is one, the address: how many names are given then.
fn give<'a>(
    table: &mut [Label<'a>],
    labels: usize,
    label: Option<&'a [u8]>,
    address: usize,
) -> Result<usize, Refusal>
    requires { (length table.old ≡ 64) × (labels ≤ 64) }
    ensures { Labelled table.old labels label.entry address table.new result }
{
    let Some(name) = label else {
        return Ok(labels);
    };
    if names::name_value(&table[0..labels], name).known {
        return Err(Refusal::TextName);
    }
    if labels == NAMES {
        return Err(Refusal::TextLine);
    }
    table[labels] = Label { name, address };
    Ok(labels + 1)
}

// Where a pass stands: the number of the next line; how many labels were given; the next word's address; and how many words were
// given, or the first line that was turned away.
#[derive(Clone, Copy)]
pub struct Progress {
    pub line: u32,
    pub labels: usize,
    pub address: usize,
    pub reply: Result<u32, Rejected>,
}

impl Progress {
    fn start() -> Self
        ensures { result ≡ record { line = 1; labels = 0; address = 0; reply = Ok 0 } }
    {
        Self {
            line: 1,
            labels: 0,
            address: 0,
            reply: Ok(0),
        }
    }

    // The reply after a line that comes to a word.
    fn counted(self, word: Result<Option<u16>, Refusal>) -> Result<u32, Rejected>
        requires { IfOk self.reply (λ n. n < 70000) }
        ensures { result ≡ counted self.line self.reply word }
    {
        let words = self.reply?;
        match word {
            Ok(None) => Ok(words),
            Ok(Some(_)) => Ok(words + 1),
            Err(refusal) => Err(Rejected {
                line: self.line,
                refusal,
            }),
        }
    }

    // After a line that gives so many labels and comes to j.
    fn after(self, labels: usize, j: Judged) -> Self
        requires { (self.line < 70000) × IfOk self.reply (λ n. n < 70000) × (self.address < 140000) × (j.words ≤ 1) }
        ensures { result ≡ moved self labels j }
    {
        Self {
            line: self.line + 1,
            labels,
            address: self.address + 2 * j.words,
            reply: self.counted(j.word),
        }
    }
}

// Takes in a line: its name and what it comes to.
fn take_line<'a>(table: &mut [Label<'a>], l: Option<Content<'a>>, p: Progress) -> Progress
    requires { Ready table.old p }
    ensures { Taken table.old (shown_line l.entry) p table.new result }
{
    let outside = Judged {
        words: 0,
        word: Err(Refusal::TextLine),
    };
    let Some(c) = l else {
        return p.after(p.labels, outside);
    };
    let given = give(table, p.labels, c.label, p.address);
    let j = encoding::stated(c.statement, p.address);
    match given {
        Ok(labels) => p.after(labels, j),
        Err(Refusal::TextLine) => p.after(p.labels, outside),
        Err(refusal) => p.after(
            p.labels,
            Judged {
                word: Err(refusal),
                ..j
            },
        ),
    }
}

fn put_word(program: &mut [u8], address: usize, word: u16)
    requires { address + 2 ≤ length program.old }
    ensures { program.new ≡ take address program.old ++ (word % 256 ∷ word / 256 ∷ drop (address + 2) program.old) }
{
    program[address..address + 2].copy_from_slice(&word.to_le_bytes());
}

// Reads the line from `at` to `end`; the last line of a text that is too long is outside the grammar.
fn read_line<'a>(
    text: &'a [u8],
    names: &[Label],
    long: bool,
    at: usize,
    end: usize,
) -> Option<Content<'a>>
    ensures { LineRead long text.now names.now at end result }
{
    if long & (end == text.len()) {
        return None;
    }
    statement::line::line_at(text, names, at)
}

// Writes the word of a line, if it gives one that has room, and hands back the next word's address.
fn write_line(program: &mut [u8], l: Option<Content>, address: usize) -> usize
    requires { (address ≤ 65536) × (length program.old ≤ 65536) }
    ensures { ((text : List ℕ) (names : List Held) (at end : ℕ) → LineRead false text names at end l.entry → WordRoom text at address program.old → WroteLine text names at address program.old program.new result) × (result ≤ 65536) }
{
    let Some(c) = l else {
        return address;
    };
    let Ok(Some(word)) = encoding::stated(c.statement, address).word else {
        return address;
    };
    let next = address + 2;
    if program.len() < next {
        return address;
    }
    put_word(program, address, word);
    next
}

// Goes over the lines: gathers in `table` the names that they give, finds the first line that is turned away by `names`, and writes
// the words that have room in the program: all of them, where it is whole and no line is turned away.
pub fn pass<'a>(
    text: &'a [u8],
    names: &[Label],
    table: &mut [Label<'a>],
    program: &mut [u8],
    long: bool,
) -> Progress
    requires { (length table.old ≡ 64) × (length text.now ≤ 65536) × (length program.old ≤ 65536) }
    ensures { Scanned long text.now names.now table.new result × (long ≡ false → Fine text.now names.now program.old → WrittenBy text.now names.now program.old program.new) }
{
    let mut p = Progress::start();
    let mut address = 0;
    let mut at = 0;
    loop {
        let end = line_end(text, at);
        let l = read_line(text, names, long, at, end);
        p = take_line(table, l, p);
        address = write_line(program, l, address);
        if end == text.len() {
            return p;
        }
        at = end + 1;
    }
}
