// Pages: cases of up to three trims under one budget.
ghost use Rattle.std.specs.Prelude.{◌<◌};

use crate::journals::of_call;
use crate::sheets::usage_digest;
use machine::State;
use numbers::number;
use page::Trims;
use player::file::{File, Sort};
use player::lent::{Log, all_but};
use player::runs::{Call, Reply, kept_after};
use player::{digest, print};
use replies::{SisaAnswer, SisaPage};
use std::io;
use std::io::Write;
use std::num::wrapping_add_u16;

// What three trims are lent.
const MEMORIES_BYTES: usize = 3 * State::MEMORY_BYTES;

const PORTS: usize = 3 * State::PORTS;

// Memories and ports of three trims, each kind joined end to end.
#[derive(Drop)]
struct Joined {
    programs: [u8; MEMORIES_BYTES],
    memories: [u8; MEMORIES_BYTES],
    inputs: [u16; PORTS],
    outputs: [u16; PORTS],
}

// What n becomes where a trim is handed another.
const LATE: u32 = 4294967290;

// What is changed in what a page is handed and lent.
#[derive(Clone, Copy)]
enum Change {
    NextPc,
    OtherN,
    ShortMemories,
    ShortOutputs,
    NoTrims,
    NineTrims,
    EightTrims,
    FirstNAndLastPc,
    TooLate,
    Nothing,
}

fn change_of(call: Call) -> Change {
    match of_call(call, 3) % 16 {
        0 => Change::NextPc,
        1 => Change::OtherN,
        2 => Change::ShortMemories,
        3 => Change::ShortOutputs,
        4 => Change::NoTrims,
        5 => Change::NineTrims,
        6 => Change::EightTrims,
        7 => Change::FirstNAndLastPc,
        8 => Change::TooLate,
        _ => Change::Nothing,
    }
}

// The number of trims of case c.
fn trims_of(c: u16) -> usize
    ensures { (0 < result) × (result < 4) }
{
    1 + (c % 3) as usize
}

// The case whose file trim i has. (The remainders are c - 97 and i.)
fn file_of(c: u16, i: usize) -> u16 {
    200 + 3 * (c % 97) + (i % 3) as u16
}

// The state of trim i that the host keeps at first.
fn first_state(f: u16, i: usize, loaded: State) -> State
    requires { i < 3 }
{
    State {
        enabled: (number(f, 70) % 2) as u8,
        pending: (number(f, 71) % 256) as u8,
        journaled: (i + 1) as u64,
        ..loaded
    }
}

impl Joined {
    // Loads the file of case f into the part of trim i, with no range locked, trim 1 for the single-memory board.
    fn load_trim(&mut self, f: u16, i: usize) -> State
        requires { i < 3 }
    {
        let a = i * State::MEMORY_BYTES;
        let e = a + State::MEMORY_BYTES;
        let p = i * State::PORTS;
        let q = p + State::PORTS;
        let file = File::whole(Sort::Pages, f);
        let load = sisa::sisa_load(
            &file.make()[0..file.length()],
            (i == 1) as u8,
            0,
            0,
            0,
            &mut self.programs[a..e],
            &mut self.memories[a..e],
            &mut self.inputs[p..q],
            &mut self.outputs[p..q],
        );
        first_state(f, i, load.state)
    }

    // The states that the host keeps at first.
    fn load_trims(&mut self, c: u16) -> Trims {
        let mut states = [State::reset(); 8];
        for (i, state) in states[0..trims_of(c)].iter_mut().enumerate() {
            *state = self.load_trim(file_of(c, i), i);
        }
        Trims { states }
    }
}

// The states with another n of one trim. (The remainder changes nothing.)
fn with_n(trims: Trims, at: usize, n: u32) -> Trims {
    let mut states = trims.states;
    states[at % 8] = State {
        n,
        ..states[at % 8]
    };
    Trims { states }
}

// The states with one trim's PC greater by 1. (The remainder changes nothing.)
fn with_next_pc(trims: Trims, at: usize) -> Trims {
    let mut states = trims.states;
    let state = states[at % 8];
    states[at % 8] = state.with_pc(wrapping_add_u16(state.pc, 1));
    Trims { states }
}

// The least n that is refused with a budget; with budget 0 the greatest, which is accepted.
fn too_late(budget: u32) -> u32 {
    if budget == 0 {
        4294967295
    } else {
        4294967295 - budget + 1
    }
}

// The states handed.
fn handed(call: Call, kept: Trims, budget: u32) -> Trims {
    let trims = trims_of(call.case);
    let at = of_call(call, 5) as usize % trims;
    match change_of(call) {
        Change::NextPc => with_next_pc(kept, at),
        Change::OtherN => with_n(kept, at, LATE),
        Change::FirstNAndLastPc => with_next_pc(with_n(kept, 0, LATE), trims - 1),
        Change::TooLate => with_n(kept, at, too_late(budget)),
        _ => kept,
    }
}

// The number of trims handed.
fn count_of(call: Call) -> u8 {
    match change_of(call) {
        Change::NoTrims => 0,
        Change::NineTrims => 9,
        Change::EightTrims => 8,
        _ => trims_of(call.case) as u8,
    }
}

fn budget_of(call: Call) -> u32 {
    let number = of_call(call, 2) as u32;
    match of_call(call, 1) % 4 {
        0 => number % 6,
        1 => number % 60,
        _ => number % 1000,
    }
}

fn is_by_rules(call: Call) -> bool {
    of_call(call, 0) % 2 == 0
}

// The page, lent the parts of the trims that the case has.
fn page(call: Call, kept: Trims, joined: &mut Joined, log: &mut Log) -> SisaPage {
    let budget = budget_of(call);
    let trims = handed(call, kept, budget);
    let count = count_of(call);
    let change = change_of(call);
    let bytes = trims_of(call.case) * State::MEMORY_BYTES;
    let ports = trims_of(call.case) * State::PORTS;
    let memory_bytes = all_but(matches!(change, Change::ShortMemories), bytes);
    let output_words = all_but(matches!(change, Change::ShortOutputs), ports);
    let places = (of_call(call, 4) % 64) as usize;
    let Joined {
        programs,
        memories,
        inputs,
        outputs,
    } = joined;
    let programs = &programs[0..bytes];
    let memories = &mut memories[0..memory_bytes];
    let inputs = &mut inputs[0..ports];
    let outputs = &mut outputs[0..output_words];
    let log = &mut log[0..places];
    if is_by_rules(call) {
        sisa::sisa_page_by_rules(
            trims, count, programs, memories, inputs, outputs, budget, log,
        )
    } else {
        sisa::sisa_page_by_table(
            trims, count, programs, memories, inputs, outputs, budget, log,
        )
    }
}

fn states_digest(c: u16, trims: Trims) -> u32 {
    let states = &trims.states[0..trims_of(c)];
    states
        .iter()
        .fold(0, |after, state| digest::registers(after, *state))
}

fn print_page<W: Write>(
    out: &mut W,
    call: Call,
    paged: SisaPage,
    joined: &Joined,
    log: &Log,
) -> io::Result<()> {
    let what: &[u8] = if is_by_rules(call) {
        b"page rules"
    } else {
        b"page table"
    };
    let bytes = trims_of(call.case) * State::MEMORY_BYTES;
    let ports = trims_of(call.case) * State::PORTS;
    let digest = digest::lent(
        states_digest(call.case, paged.trims),
        &joined.programs[0..bytes],
        &joined.memories[0..bytes],
        &joined.inputs[0..ports],
        &joined.outputs[0..ports],
        log,
    );
    let numbers = [
        call.case as u64,
        call.index as u64,
        paged.refusal as u64,
        digest as u64,
    ];
    print::line(out, what, &numbers)
}

fn print_trim<W: Write>(
    out: &mut W,
    call: Call,
    i: usize,
    state: State,
    answer: SisaAnswer,
) -> io::Result<()> {
    let numbers = [
        call.case as u64,
        call.index as u64,
        i as u64,
        answer.stop as u64,
        answer.steps as u64,
        answer.entries,
        answer.ticks,
        usage_digest(answer.usage) as u64,
        state.journaled,
        state.board as u64,
        state.enabled as u64,
        state.pending as u64,
        state.line as u64,
        state.return_address as u64,
    ];
    print::line(out, b"trim", &numbers)
}

// What a page replies of a trim.
fn reply_of(refusal: u8, state: State, answer: SisaAnswer) -> Reply {
    Reply {
        state,
        refusal,
        stop: answer.stop,
        steps: answer.steps,
        entries: answer.entries,
    }
}

// The trims' lines. Answers the states that the host keeps; those past the trims came back as they were kept.
fn finish<W: Write>(out: &mut W, call: Call, kept: Trims, paged: SisaPage) -> io::Result<Trims> {
    let after = paged.trims;
    let mut states = after.states;
    for (i, state) in states[0..trims_of(call.case)].iter_mut().enumerate() {
        let answer = paged.answers[i];
        print_trim(out, call, i, *state, answer)?;
        *state = kept_after(kept.states[i], reply_of(paged.refusal, *state, answer));
    }
    Ok(Trims { states })
}

// A page and its lines. Answers the states that the host keeps.
fn play_page<W: Write>(
    out: &mut W,
    call: Call,
    kept: Trims,
    joined: &mut Joined,
    log: &mut Log,
) -> io::Result<Trims> {
    let paged = page(call, kept, joined, log);
    print_page(out, call, paged, joined, log)?;
    finish(out, call, kept, paged)
}

pub fn play<W: Write>(out: &mut W, c: u16, log: &mut Log) -> io::Result<()> {
    let mut joined = Joined {
        programs: [0; MEMORIES_BYTES],
        memories: [0; MEMORIES_BYTES],
        inputs: [0; PORTS],
        outputs: [0; PORTS],
    };
    let mut kept = joined.load_trims(c);
    for index in 0..10 {
        kept = play_page(out, Call { case: c, index }, kept, &mut joined, log)?;
    }
    Ok(())
}
