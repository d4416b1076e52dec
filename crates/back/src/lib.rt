// Going back by the journal that runs kept.
#![tactic(auto)]

ghost use Rattle.std.specs.Prelude.{◌≡◌, ◌≤◌, min};
ghost use Rattle.bus.specs.Lent.{SameBus};
ghost use Rattle.refusal.specs.Refusals.{shown_check};
ghost use Rattle.back.specs.Backs.{steps_held, back_verdict, GoesBack};
ghost use Rattle.back.specs.Parts.{GoneBack};

use bus::Bus;
use machine::State;
use refusal::Refusal;

// What going back replies: the register state, which a refused call hands back, and how many log entries fall away or the
// refusal.
#[derive(Clone, Copy)]
pub struct Backed {
    pub state: State,
    pub reply: Result<u64, Refusal>,
}

// How many steps the journal holds.
fn steps_held(state: State, journal: &[u64]) -> u64
    ensures { result ≡ steps_held state journal.now }
{
    if (journal.len() as u64) < state.journaled {
        return 0;
    }
    state.journaled.min(state.n as u64)
}

// The last k of the counted entries are undone in turn, the last first.
fn go_back(start: State, bus: &mut Bus, journal: &[u64], k: u64) -> Backed
    requires { k ≤ steps_held start journal.now }
    ensures gone { GoneBack start bus.old.memory.now bus.old.inputs.now bus.old.outputs.now journal.now k result bus.new.memory.now bus.new.inputs.now bus.new.outputs.now }
    ensures same { SameBus bus.old bus.new }
{
    let mut state = start;
    let mut fallen = 0;
    let end = start.journaled as usize;
    for at in (end - k as usize..end).rev() {
        let entry = journal[at];
        state = journal::undo(state, bus, entry);
        fallen += journal::is_output(entry) as u64;
    }
    Backed {
        state: state.with_journaled(start.journaled - k),
        reply: Ok(fallen),
    }
}

// The refusals of going back, in their order.
#[tactic(auto, unfolding(crate::specs::Backs::back_verdict))]
fn checked(
    state: State,
    program: &[u8],
    memory: &[u8],
    inputs: &[u16],
    outputs: &[u16],
    journal: &[u64],
    k: u64,
) -> Result<(), Refusal>
    ensures { shown_check result ≡ back_verdict (record { state = state; P = program.now; D = memory.now; I = inputs.now; O = outputs.now; journal = journal.now; k = k }) }
{
    if !bus::lengths_fit(program, memory, inputs, outputs) {
        return Err(Refusal::LentLength);
    }
    if !state.is_even() {
        return Err(Refusal::OddPc);
    }
    if steps_held(state, journal) < k {
        return Err(Refusal::ShortJournal);
    }
    Ok(())
}

// k steps back. Program and journal stay.
pub fn step_back(
    state: State,
    program: &[u8],
    memory: &mut [u8],
    inputs: &mut [u16],
    outputs: &mut [u16],
    journal: &[u64],
    k: u64,
) -> Backed
    ensures { GoesBack state program memory inputs outputs journal k result }
{
    match checked(state, program, memory, inputs, outputs, journal, k) {
        Ok(()) => {
            let mut bus = Bus {
                memory,
                inputs,
                outputs,
            };
            go_back(state, &mut bus, journal, k)
        }
        Err(refusal) => Backed {
            state,
            reply: Err(refusal),
        },
    }
}
