// Loading a trim file, called an image here.
#![tactic(auto)]

ghost use Rattle.std.specs.Prelude.{◌≡◌, ◌++◌, ◌+◌, ◌-◌, ◌*◌, ◌<◌, ◌≤◌, length, take, drop, replicate, true};
ghost use Rattle.refusal.specs.Refusals.{accepted, shown_check};
ghost use Rattle.machine.specs.declared.Board.TheVariants.{SingleMemory};
ghost use Rattle.image.specs.Parts.{program_part, data_part, ReadAs, Placeable};
ghost use Rattle.image.specs.Image.{W, C, number32, parts_fit, inside, parts_inside, board_holds, loaded_p, loaded_d, with_range, range_fits, file_reply, load_reply, load_left_by, file_lent, file_shown, loaded_with, Loads};

use bus::lengths_fit;
use machine::{Board, State};
use refusal::Refusal;

// What a load replies: the state, the reset one where it is refused, and the reply.
#[derive(Clone, Copy)]
pub struct Loaded {
    pub state: State,
    pub reply: Result<(), Refusal>,
}

// The range of data memory that a load locks: none where `locked` is 0, else first to last, both in it.
#[derive(Clone, Copy)]
pub struct Range {
    pub locked: u8,
    pub first: u16,
    pub last: u16,
}

// A part of the file, in bytes.
#[derive(Clone, Copy)]
pub struct Part {
    pub offset: usize,
    pub count: usize,
}

pub const HEADER_BYTES: usize = 16;

// Where the header's numbers stand.
const WORDS: usize = 0;

const PROGRAM_OFFSET: usize = 4;

const BYTES: usize = 8;

const DATA_OFFSET: usize = 12;

fn number32(file: &[u8], at: usize) -> usize
    requires { at + 4 ≤ length file.now }
    ensures { (result ≡ number32 file.now at) × (result < 4294967296) }
{
    u32::from_le_bytes([file[at], file[at + 1], file[at + 2], file[at + 3]]) as usize
}

pub fn program_part(file: &[u8]) -> Part
    requires { 16 ≤ length file.now }
    ensures { ReadAs (program_part file.now) result }
{
    Part {
        offset: number32(file, PROGRAM_OFFSET),
        count: 2 * number32(file, WORDS),
    }
}

fn data_part(file: &[u8]) -> Part
    requires { 16 ≤ length file.now }
    ensures { ReadAs (data_part file.now) result }
{
    Part {
        offset: number32(file, DATA_OFFSET),
        count: number32(file, BYTES),
    }
}

// Here and in the next two, `&` makes both tests, so that the answer has no branches.
fn parts_fit(file: &[u8]) -> bool
    requires { 16 ≤ length file.now }
    ensures { result ≡ parts_fit file.now }
{
    (number32(file, WORDS) <= 32768) & (number32(file, BYTES) <= 65536)
}

fn inside(file: &[u8], part: Part) -> bool
    requires { part.offset + part.count < 18446744073709551616 }
    ensures { result ≡ inside file.now part.offset part.count }
{
    (HEADER_BYTES <= part.offset) & (part.offset + part.count <= file.len())
}

fn parts_inside(file: &[u8]) -> bool
    requires { 16 ≤ length file.now }
    ensures { result ≡ parts_inside file.now }
{
    inside(file, program_part(file)) & inside(file, data_part(file))
}

// The board's memory holds both parts, where it has one memory only.
fn board_holds(file: &[u8], board: Board) -> bool
    requires { 16 ≤ length file.now }
    ensures { result ≡ board_holds board file.now }
{
    match board {
        Board::TwoMemories => true,
        Board::SingleMemory => {
            2 * number32(file, WORDS) + number32(file, BYTES) <= State::MEMORY_BYTES
        }
    }
}

// The tests of the refusal table that look at the file and the board alone, in their order.
#[tactic(auto, unfolding(crate::specs::Image::file_reply))]
pub fn file_verdict(file: &[u8], board: Board) -> Result<(), Refusal>
    ensures { shown_check result ≡ file_reply file.now board }
{
    if file.len() < HEADER_BYTES {
        return Err(Refusal::ShortFile);
    }
    if !parts_fit(file) {
        return Err(Refusal::LargePart);
    }
    if !parts_inside(file) {
        return Err(Refusal::PartOutside);
    }
    if !board_holds(file, board) {
        return Err(Refusal::SmallBoard);
    }
    Ok(())
}

// First is not over last, where a range is named. `&` and `|` make all tests, so that the answer has no branches.
fn range_fits(range: Range) -> bool
    ensures { result ≡ range_fits range }
{
    (range.locked == 0) | (range.first <= range.last)
}

// The state keeps the range named.
fn with_range(range: Range, state: State) -> State
    ensures { result ≡ with_range range state }
{
    if range.locked == 0 {
        state.with_locked(0, 0, 0)
    } else {
        state.with_locked(1, range.first, range.last)
    }
}

// What is lent is tested before the file, and the range after it.
#[tactic(auto, unfolding(crate::specs::Image::load_reply))]
fn verdict(
    file: &[u8],
    board: Board,
    range: Range,
    program: &[u8],
    memory: &[u8],
    inputs: &[u16],
    outputs: &[u16],
) -> Result<(), Refusal>
    ensures { shown_check result ≡ load_reply (file_shown file board range program memory inputs outputs) }
{
    if !lengths_fit(program, memory, inputs, outputs) {
        return Err(Refusal::LentLength);
    }
    file_verdict(file, board)?;
    if !range_fits(range) {
        return Err(Refusal::LockedRange);
    }
    Ok(())
}

// The part of the file, and zeros to the end of the target.
fn place(file: &[u8], part: Part, target: &mut [u8])
    requires { (part.offset + part.count ≤ length file.now) × (part.count ≤ length target.old) }
    ensures { target.new ≡ take part.count (drop part.offset file.now) ++ replicate (length target.old - part.count) 0 }
{
    let end = part.offset + part.count;
    block::copy(&file[part.offset..end], &mut target[..part.count]);
    target[part.count..].fill(0);
}

// The single memory: the program part, straight after it the data part, and zeros.
fn place_both(file: &[u8], memory: &mut [u8])
    requires { Placeable file.now × (length memory.old ≡ 65536) × (2 * W file.now + C file.now ≤ 65536) }
    ensures { memory.new ≡ loaded_d SingleMemory file.now }
{
    let program = program_part(file);
    let end = program.count;
    place(file, program, memory);
    place(file, data_part(file), &mut memory[end..]);
}

// Both memories, as a load for the board leaves them.
fn fill(file: &[u8], board: Board, program: &mut [u8], memory: &mut [u8])
    requires { Placeable file.now × (length program.old ≡ 65536) × (length memory.old ≡ 65536) × (board_holds board file.now ≡ true) }
    ensures { (program.new ≡ loaded_p board file.now) × (memory.new ≡ loaded_d board file.now) }
{
    match board {
        Board::TwoMemories => {
            place(file, program_part(file), program);
            place(file, data_part(file), memory);
        }
        Board::SingleMemory => {
            program.fill(0);
            place_both(file, memory);
        }
    }
}

// The reply of an accepted load, and what it leaves.
fn accept(
    file: &[u8],
    board: Board,
    range: Range,
    program: &mut [u8],
    memory: &mut [u8],
    inputs: &mut [u16],
    outputs: &mut [u16],
) -> Loaded
    requires { accepted ≡ load_reply (record { file = file.now; board = board; range = range; P = program.old; D = memory.old; I = inputs.old; O = outputs.old }) }
    ensures { loaded_with program memory inputs outputs result ≡ load_left_by accepted (file_lent file board range program memory inputs outputs) }
{
    fill(file, board, program, memory);
    inputs.fill(0);
    outputs.fill(0);
    Loaded {
        state: with_range(range, State::reset_on(board)),
        reply: Ok(()),
    }
}

// The file's parts are copied to the program and the data memory, on the single-memory board both to the data memory; all other memory and
// both port arrays become zero. The state keeps the range.
pub fn load(
    file: &[u8],
    board: Board,
    range: Range,
    program: &mut [u8],
    memory: &mut [u8],
    inputs: &mut [u16],
    outputs: &mut [u16],
) -> Loaded
    ensures { Loads file board range program memory inputs outputs result }
{
    match verdict(file, board, range, program, memory, inputs, outputs) {
        Ok(()) => accept(file, board, range, program, memory, inputs, outputs),
        Err(refusal) => Loaded {
            state: State::reset(),
            reply: Err(refusal),
        },
    }
}
