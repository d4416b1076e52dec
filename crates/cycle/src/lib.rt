// The loop of a run: take a line, or fetch, step and count.
#![tactic(auto)]

ghost use Rattle.std.specs.Prelude.{◌≡◌, false, ◌+◌, ◌%◌, ◌≤◌, length};
ghost use Rattle.std.specs.declared.result.Result.TheVariants.{Ok};
ghost use Rattle.machine.specs.Machine.{takes_line};
ghost use Rattle.run.specs.Runs.{journal_if};
ghost use Rattle.run.specs.Parts.{EndsWith};
ghost use Rattle.places.specs.Places.{Cleared};
ghost use Rattle.bus.specs.Lent.{SameBus, SameLog};
ghost use Rattle.journal.specs.Parts.{IsEntry};
ghost use Rattle.cycle.specs.Loops.{given_on, CanRun, RunsAccepted, StopsLocked};

use bus::{Bus, Log};
use machine::{State, Stop};
use run::{Report, Tallied};
use stepping::Engine;
use usage::Usage;

// The next step is stopped by a locked byte: of its fetch, or of what the word fetched reads or stores.
fn is_locked<E: Engine>(engine: &E, state: State, program: &[u8], bus: &Bus) -> bool
    requires { (length program.now ≡ 65536) × (state.pc % 2 ≡ 0) }
    ensures { StopsLocked (E.stepper engine.now) state program.now bus.now.memory.now result }
{
    if state.takes_line() {
        return false;
    }
    if state.locks_fetch() {
        return true;
    }
    engine.touches_locked(bus.fetch(state, program), state)
}

// A line is to be taken. No step raises a line, so where none was pending at the start, which `waits` says, none ever is.
fn takes_line(waits: bool, state: State) -> bool
    requires { waits ≡ false → takes_line state ≡ false }
    ensures { result ≡ takes_line state }
{
    if waits { state.takes_line() } else { false }
}

// The journal's entry of the step of w. (Inlined, as `journal::entry` is.)
#[inline(always)]
fn step_entry(w: u16, state: State, bus: &Bus) -> u64
    ensures { IsEntry w state bus.now.memory.now bus.now.inputs.now bus.now.outputs.now result }
{
    journal::entry(w, state, bus.memory, bus.inputs, bus.outputs)
}

// What a run replies that ends here.
fn ended(stop: u8, state: State, steps: u32, entries: usize, keeps: bool, usage: Usage) -> Tallied
    requires { state.journaled + steps ≤ 18446744073709551615 }
    ensures { (result.answer ≡ Ok (record { stop = stop; steps = steps; entries = entries })) × (result.usage ≡ usage) × EndsWith «keeps» steps state result.state }
{
    Tallied {
        state: run::ending(state, steps, keeps),
        answer: Ok(Report {
            stop,
            steps,
            entries,
        }),
        usage,
    }
}

// The loop of an accepted run by an engine, from the state it starts from, with the steps it may take. PC stays even.
// A line that is to be taken is a step of its own. Where a range is locked, each step is tested before it is made: the inner loop then goes
// one step at a time, and without a range to the end, so that a step has no test of it. Where `keeps`, a step's entry goes to the journal.
// Where `counts` has all places, a step adds one at its word's place, and usage counts only the lines taken.
pub fn run_accepted<E: Engine>(
    engine: &E,
    start: State,
    program: &[u8],
    bus: &mut Bus,
    budget: u32,
    log: &mut Log,
    keeps: bool,
    journal: &mut [u64],
    counts: &mut [u32],
) -> Tallied
    requires cleared { Cleared counts.old }
    requires can_run { CanRun (given_on start program.now bus.old budget log.old (journal_if «keeps» journal.old)) }
    ensures ran { RunsAccepted (E.stepper engine.now) start program bus.old bus.new budget log.old log.new «keeps» journal counts result }
    ensures same { SameBus bus.old bus.new × SameLog log.old log.new }
{
    let mut state = start;
    log.entries = 0;
    let mut steps: u32 = 0;
    let count = state.journaled as usize;
    let mut entry: u64 = 0;
    let mut usage = Usage::none();
    let waits = start.pending != 0;
    while steps < budget {
        let mut until = budget;
        if state.locked != 0 {
            if is_locked(engine, state, program, bus) {
                return ended(
                    u8::from(Stop::LockedByte),
                    state,
                    steps,
                    log.entries,
                    keeps,
                    usage,
                );
            }
            until = steps + 1;
        }
        while steps < until {
            if takes_line(waits, state) {
                if keeps {
                    let place = count + steps as usize;
                    journal[place] = journal::line_entry(state);
                }
                state = state.line_taken();
                usage.taken += 1;
                steps += 1;
                continue;
            }
            let w = bus.fetch(state, program);
            if keeps {
                entry = step_entry(w, state, bus);
            }
            match engine.step(w, state, bus, log) {
                Ok(next) => state = next,
                Err(stop) => {
                    return ended(u8::from(stop), state, steps, log.entries, keeps, usage);
                }
            }
            if keeps {
                let place = count + steps as usize;
                journal[place] = entry;
            }
            if places::PLACES <= counts.len() {
                let at = places::place_of(w);
                counts[at] += 1;
            } else {
                usage.tally(w);
            }
            steps += 1;
        }
    }
    ended(0, state, steps, log.entries, keeps, usage)
}
