// Saving a trim file from program and data memory.
#![tactic(auto)]

ghost use Rattle.std.specs.Prelude.{◌≡◌, ◌++◌, ◌+◌, ◌*◌, ◌<◌, ◌≤◌, eqb, length, get_or, take, drop};
ghost use Rattle.word.specs.Word.{pick};
ghost use Rattle.machine.specs.Machine.{is_locked};
ghost use Rattle.save.specs.Saved.{kept, words_kept, words_saved, bytes_kept, unlocked, header, file_of, shown_saving, save_left, lent_to_save, saved_with, Saves};

use image::HEADER_BYTES;
use machine::State;
use refusal::Refusal;

// What a save replies: the state as it was handed, and the file's length or the refusal.
#[derive(Clone, Copy)]
pub struct Saved {
    pub state: State,
    pub reply: Result<usize, Refusal>,
}

// Trailing zeros are dropped block by block, then byte by byte.
const BLOCK: usize = 64;

// Every byte is tested: without an early return the test of a block takes a few instructions.
fn all_zero(bytes: &[u8]) -> bool
    ensures { result ≡ eqb (bytes_kept bytes.now) 0 }
{
    let mut zero = true;
    for byte in bytes {
        zero &= *byte == 0;
    }
    zero
}

// How many bytes are kept when trailing zeros are dropped, looked at one by one.
fn kept_one_by_one(bytes: &[u8]) -> usize
    ensures { result ≡ bytes_kept bytes.now }
{
    for at in (0..bytes.len()).rev() {
        if bytes[at] != 0 {
            return at + 1;
        }
    }
    0
}

// The same, looked at block by block first.
fn bytes_kept(bytes: &[u8]) -> usize
    ensures { (result ≡ bytes_kept bytes.now) × (result ≤ length bytes.now) }
{
    let mut end = bytes.len();
    while BLOCK <= end && all_zero(&bytes[end - BLOCK..end]) {
        end -= BLOCK;
    }
    kept_one_by_one(&bytes[..end])
}

// The same of data memory with its locked bytes zero.
fn unlocked_kept(state: State, memory: &[u8]) -> usize
    requires { length memory.now ≡ 65536 }
    ensures { result ≡ bytes_kept (unlocked state memory.now) }
{
    for at in (0..memory.len()).rev() {
        if unlocked_byte(state, at, memory[at]) != 0 {
            return at + 1;
        }
    }
    0
}

// How many bytes of data memory the file has. (Without a range they are counted by blocks.)
#[tactic(auto, using(crate::proofs::Unlocked::unlocked_none, crate::proofs::Unlocked::unlocked_length, crate::proofs::Files::bytes_within))]
fn bytes_saved(state: State, memory: &[u8]) -> usize
    requires { length memory.now ≡ 65536 }
    ensures { (result ≡ bytes_kept (unlocked state memory.now)) × (result ≤ length memory.now) }
{
    if state.locked == 0 {
        bytes_kept(memory)
    } else {
        unlocked_kept(state, memory)
    }
}

// A word is zero where both its bytes are.
#[tactic(auto, using(crate::proofs::Kept::words_kept_lem))]
fn words_kept(program: &[u8]) -> usize
    requires { length program.now ≡ 65536 }
    ensures { (result ≡ words_kept program.now) × (result ≤ 32768) }
{
    (bytes_kept(program) + 1) / 2
}

fn header(words: u32, bytes: u32) -> [u8; 16]
    requires { words ≤ 32768 }
    ensures { result ≡ header words bytes }
{
    let mut header = [0; 16];
    header[..4].copy_from_slice(&words.to_le_bytes());
    header[4..8].copy_from_slice(&16u32.to_le_bytes());
    header[8..12].copy_from_slice(&bytes.to_le_bytes());
    header[12..].copy_from_slice(&(16 + 2 * words).to_le_bytes());
    header
}

// The first `count` bytes of the source, in the target from `at` on; its other bytes stay.
fn put_at(source: &[u8], count: usize, target: &mut [u8], at: usize)
    requires { (count ≤ length source.now) × (at + count ≤ length target.old) }
    ensures { target.new ≡ take at target.old ++ take count source.now ++ drop (at + count) target.old }
{
    block::copy(&source[..count], &mut target[at..at + count]);
}

// A byte of data memory, zero where it is locked.
fn unlocked_byte(state: State, at: usize, byte: u8) -> u8
    requires { at < 65536 }
    ensures { result ≡ pick (is_locked at state) 0 byte }
{
    if state.locks_byte(at as u16) { 0 } else { byte }
}

// The same with locked bytes as zero, of data memory.
#[tactic(auto, using(crate::proofs::Unlocked::copy_turn))]
fn put_unlocked(state: State, memory: &[u8], count: usize, target: &mut [u8], at: usize)
    requires { (count ≤ length memory.now) × (length memory.now ≡ 65536) × (at + count ≤ length target.old) }
    ensures { target.new ≡ take at target.old ++ take count (unlocked state memory.now) ++ drop (at + count) target.old }
{
    for i in 0..count {
        target[at + i] = unlocked_byte(state, i, memory[i]);
    }
}

// Data memory's part of the file. (Without a range the bytes are copied as they are, which takes less time.)
#[tactic(auto, using(crate::proofs::Unlocked::unlocked_none))]
fn put_data(state: State, memory: &[u8], count: usize, target: &mut [u8], at: usize)
    requires { (count ≤ length memory.now) × (length memory.now ≡ 65536) × (at + count ≤ length target.old) }
    ensures { target.new ≡ take at target.old ++ take count (unlocked state memory.now) ++ drop (at + count) target.old }
{
    if state.locked == 0 {
        put_at(memory, count, target, at);
    } else {
        put_unlocked(state, memory, count, target, at);
    }
}

// The file of so many words and bytes, at the front of the destination.
fn write(
    state: State,
    program: &[u8],
    memory: &[u8],
    words: usize,
    bytes: usize,
    destination: &mut [u8],
)
    requires { (words ≤ 32768) × (2 * words ≤ length program.now) × (bytes ≤ length memory.now) × (16 + 2 * words + bytes ≤ length destination.old) × (length memory.now ≡ 65536) }
    ensures { destination.new ≡ file_of words bytes program.now (unlocked state memory.now) ++ drop (16 + 2 * words + bytes) destination.old }
{
    put_at(
        &header(words as u32, bytes as u32),
        HEADER_BYTES,
        destination,
        0,
    );
    put_at(program, 2 * words, destination, HEADER_BYTES);
    put_data(state, memory, bytes, destination, HEADER_BYTES + 2 * words);
}

// How many words of the program the file has: on the single-memory board none.
fn words_saved(state: State, program: &[u8]) -> usize
    requires { length program.now ≡ 65536 }
    ensures { (result ≡ words_saved state program.now) × (result ≤ 32768) }
{
    if state.board == 0 {
        words_kept(program)
    } else {
        0
    }
}

// The reply, and the file in the destination.
fn written(
    state: State,
    program: &[u8],
    memory: &[u8],
    destination: &mut [u8],
) -> Result<usize, Refusal>
    ensures { saved_with (shown_saving result) state program memory destination ≡ save_left (lent_to_save state program memory destination) }
{
    if program.len() != State::MEMORY_BYTES || memory.len() != State::MEMORY_BYTES {
        return Err(Refusal::LentLength);
    }
    let words = words_saved(state, program);
    let bytes = bytes_saved(state, memory);
    let end = HEADER_BYTES + 2 * words + bytes;
    if destination.len() < end {
        return Err(Refusal::ShortDestination);
    }
    write(state, program, memory, words, bytes, destination);
    Ok(end)
}

// The trim file of both memories, on the single-memory board of data memory alone, with locked bytes as zero and without trailing zeros, at the
// front of the destination; its unused end keeps its bytes.
pub fn save(state: State, program: &[u8], memory: &[u8], destination: &mut [u8]) -> Saved
    ensures { Saves state program memory destination result }
{
    Saved {
        state,
        reply: written(state, program, memory, destination),
    }
}
