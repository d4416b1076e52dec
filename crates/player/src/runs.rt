// The runs of both programs: what is handed and lent, what is printed, and what the host keeps.
ghost use Rattle.std.specs.Prelude.{◌≡◌, ◌++◌, IfOk, OnOk};
ghost use Rattle.std.specs.Io.KnownBytes.{Appends};
ghost use Rattle.player.specs.Digest.{digest_of_left};
ghost use Rattle.player.specs.Print.{last_field, reply_fields};
ghost use Rattle.player.specs.Runs.{of_call, change_of, handed_of, request_by, request_of, kept_after};

use crate::lent::{Lent, all_but};
use crate::print;
use machine::State;
use numbers::number;
use std::io;
use std::io::Write;
use std::num::wrapping_add_u16;

// What n becomes where a run is handed another.
pub const LATE: u32 = 4294967000;

// A call of a case.
#[derive(Clone, Copy)]
pub struct Call {
    pub case: u16,
    pub index: u16,
}

impl Call {
    // Number q + k of the case, for this call. (The remainders change nothing.)
    pub fn number(self, k: u16) -> u16
        ensures { result ≡ of_call self.case self.index k }
    {
        number(self.case, 5000 + 16 * (self.index % 16) + k % 16)
    }
}

// What is changed in what a call is handed and lent.
#[derive(Clone, Copy)]
pub enum Change {
    NextPc,
    OtherN,
    ShortMemory,
    ShortOutputs,
    ShortJournal,
    NoJournal,
    NextReturn,
    Nothing,
}

impl From<u16> for Change {
    ghost from_gives = { λ number change. change ≡ change_of number };

    fn from(number: u16) -> Change {
        match number % 16 {
            0 => Change::NextPc,
            1 => Change::OtherN,
            2 => Change::ShortMemory,
            3 => Change::ShortOutputs,
            4 => Change::ShortJournal,
            5 => Change::NoJournal,
            6 => Change::NextReturn,
            _ => Change::Nothing,
        }
    }
}

// What a run is handed, and how much of the memory, the outputs and the log it is lent.
#[derive(Clone, Copy)]
pub struct Request {
    pub state: State,
    pub budget: u32,
    pub bytes: usize,
    pub ports: usize,
    pub places: usize,
}

// What a run replies.
#[derive(Clone, Copy)]
pub struct Reply {
    pub state: State,
    pub refusal: u8,
    pub stop: u8,
    pub steps: u32,
    pub entries: u64,
}

// The state handed. Where its n is exchanged it becomes n.
fn handed(kept: State, change: Change, n: u32) -> State
    ensures { result ≡ handed_of change n kept }
{
    match change {
        Change::NextPc => kept.with_pc(wrapping_add_u16(kept.pc, 1)),
        Change::OtherN => State { n, ..kept },
        _ => kept,
    }
}

impl Request {
    // What is handed and lent by a change. Where n is exchanged it becomes n.
    pub fn by_change(change: Change, kept: State, n: u32, budget: u32, places: usize) -> Self
        ensures { result ≡ request_by change kept n budget places }
    {
        Request {
            state: handed(kept, change, n),
            budget,
            bytes: all_but(matches!(change, Change::ShortMemory), State::MEMORY_BYTES),
            ports: all_but(matches!(change, Change::ShortOutputs), State::PORTS),
            places,
        }
    }

    // The request for a run.
    pub fn of_call(call: Call, kept: State, n: u32, places: usize) -> Self
        ensures { result ≡ request_of call.case call.index kept n places }
    {
        let change = Change::from(call.number(3));
        let budget = (call.number(1) % 2000) as u32;
        Self::by_change(change, kept, n, budget, places)
    }
}

// The state that the host keeps. Moving PC on ends what can be stepped back.
pub fn kept_after(kept: State, reply: Reply) -> State
    ensures { result ≡ kept_after kept reply }
{
    if reply.refusal != 0 {
        return kept;
    }
    let state = reply.state;
    match reply.stop {
        1 | 3 | 4 => state
            .with_pc(wrapping_add_u16(state.pc, 2))
            .with_journaled(0),
        _ => state,
    }
}

// What follows the engine's name on the line of a run, but for its digests.
pub fn print_reply<W: Write>(out: &mut W, call: Call, reply: Reply) -> io::Result<()>
    ensures { OnOk result (Appends (W.contents out.old) (W.contents out.new) (reply_fields call.case call.index reply)) }
{
    let numbers = [
        call.case as u64,
        call.index as u64,
        reply.refusal as u64,
        reply.stop as u64,
        reply.steps as u64,
        reply.entries,
    ];
    print::fields(out, &numbers)
}

// Prints what follows the engine's name on the line of a run. Answers the state that the host keeps.
pub fn finish<W: Write>(
    out: &mut W,
    call: Call,
    kept: State,
    reply: Reply,
    lent: &Lent,
) -> io::Result<State>
    ensures kept { IfOk result (λ state. state ≡ kept_after kept reply) }
    ensures printed { OnOk result (Appends (W.contents out.old) (W.contents out.new) (reply_fields call.case call.index reply ++ last_field (digest_of_left reply.state lent.now))) }
{
    print_reply(out, call, reply)?;
    print::left(out, reply.state, lent)?;
    Ok(kept_after(kept, reply))
}
