// What a host does at the panel besides runs: setting an input, raising a line, and the window on a memory.
#![tactic(auto)]

ghost use Rattle.std.specs.Prelude.{◌≡◌};
ghost use Rattle.refusal.specs.Refusals.{shown_check};
ghost use Rattle.panel.specs.Calls.{SetLeft, set_left, RaiseLeft, raise_left, part_of, holds_locked, window_of};

use machine::{Port, State};
use refusal::Refusal;

// The input at a port becomes the value.
#[tactic(auto, unfolding(crate::specs::Calls::set_left))]
pub fn set_input(inputs: &mut [u16], port: Port, value: u16) -> Result<(), Refusal>
    ensures { ◌≡◌ {A = SetLeft} (record { reply = shown_check result; I = inputs.new }) (set_left (record { I = inputs.old; port = port.0; value = value })) }
{
    if inputs.len() != State::PORTS {
        return Err(Refusal::LentLength);
    }
    inputs[port.0 as usize] = value;
    Ok(())
}

// What raising a line replies: the state, as handed where it is refused, and the reply.
#[derive(Clone, Copy)]
pub struct Raised {
    pub state: State,
    pub reply: Result<(), Refusal>,
}

// The line's bit is set in the pending byte.
#[tactic(auto, unfolding(crate::specs::Calls::raise_left))]
pub fn raise(state: State, line: u8) -> Raised
    ensures { ◌≡◌ {A = RaiseLeft} (record { reply = shown_check result.reply; state = result.state }) (raise_left state line) }
{
    if 7 < line {
        return Raised {
            state,
            reply: Err(Refusal::LineNumber),
        };
    }
    Raised {
        state: state.with_line(line),
        reply: Ok(()),
    }
}

// The bytes start .. start + count, or none where they end beyond the slice.
fn part(bytes: &[u8], start: usize, count: usize) -> &[u8]
    ensures { result.now ≡ part_of bytes.now start count }
{
    match start.checked_add(count) {
        Some(end) if end <= bytes.len() => &bytes[start..end],
        _ => &[],
    }
}

// A byte of start .. start + count is locked: the range is not empty, and neither ends before the other begins.
#[tactic(auto, using(crate::proofs::Spans::span_is))]
fn holds_locked(state: State, start: usize, count: usize) -> bool
    ensures { result ≡ holds_locked state start count }
{
    let first = state.first_locked as usize;
    let last = state.last_locked as usize;
    (state.locked != 0) & (first <= last) & (start <= last) & (first.saturating_sub(start) < count)
}

// The bytes start .. start + count of the data memory or of the program, or the empty part where they end beyond it, or hold a locked byte of data
// memory.
#[tactic(auto, unfolding(crate::specs::Calls::window_of))]
pub fn window<'a>(
    state: State,
    program: &'a [u8],
    memory: &'a [u8],
    of_data: bool,
    start: usize,
    count: usize,
) -> &'a [u8]
    ensures { result.now ≡ window_of state program.now memory.now of_data start count }
{
    if of_data {
        if holds_locked(state, start, count) {
            return &[];
        }
        part(memory, start, count)
    } else {
        part(program, start, count)
    }
}
