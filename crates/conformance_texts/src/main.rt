// Assembles the texts on standard input, each ended by a byte 0, and prints what docs/CONFORMANCE.md says.
#![tactic(auto)]

use machine::State;
use player::{digest, print};
use std::io::{BufWriter, Read, Write};
use std::{array, io};

// Of standard input as many bytes are read.
const INPUT_BYTES: u64 = 65536;

fn play<W: Write>(out: &mut W, text: &[u8], number: usize, program: &mut [u8]) -> io::Result<()> {
    let reply = sisa::sisa_assemble(text, program);
    let numbers = [
        number as u64,
        reply.refusal as u64,
        reply.line as u64,
        reply.words as u64,
        digest::all(0, program) as u64,
    ];
    print::line(out, b"text", &numbers)
}

// The texts, one after another. Bytes after the last 0 are no text.
fn play_all<W: Write>(out: &mut W, input: &[u8], program: &mut [u8]) -> io::Result<()> {
    let ended = input.split_inclusive(|byte| *byte == 0);
    for (number, text) in ended.enumerate() {
        if let Some((0, text)) = text.split_last() {
            play(out, text, number, program)?;
        }
    }
    Ok(())
}

fn main(rt: HostRuntime) -> io::Result<()> {
    let mut input = Vec::new(rt.alloc());
    rt.reader().take(INPUT_BYTES).read_to_end(&mut input)?;
    let mut program: [u8; State::MEMORY_BYTES] = array::from_fn(|i| (i % 251) as u8);
    let mut out = BufWriter::new(rt.alloc(), io::writer(&rt))?;
    play_all(&mut out, &input, &mut program)?;
    out.flush()
}
