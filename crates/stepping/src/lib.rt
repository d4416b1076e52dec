// Engines: what makes the steps of a run. One goes by the rules, one by a table of control words.
#![tactic(auto)]

ghost use Rattle.std.specs.Prelude.{Bool, false, ℕ, ◌<◌};
ghost use Rattle.machine.specs.Machine.{Machine};
ghost use Rattle.machine.specs.Step.{Next, by_rule};
ghost use Rattle.machine.specs.Run.{Stepper, is_out, by_rules};
ghost use Rattle.machine.specs.Held.{TestsLock};
ghost use Rattle.bus.specs.Lent.{SameBus, SameLog, StepsAs};
ghost use Rattle.control.specs.Control.{control_in, control_step, writes_port, by_control};
ghost use Rattle.stepping.specs.Engines.{EngineLaws, rules_laws, table_laws};

use bus::{Bus, Log};
use machine::{State, Stop};

pub trait Engine {
    // What a machine steps to by the word w, and whether w writes a port.
    ghost does: { Self → ℕ → Machine → Next };

    ghost writes: { Self → ℕ → Bool };

    // What a run goes by.
    ghost stepper: { Self → Stepper };

    // The step of w, which touches no locked byte.
    fn step(&self, w: u16, state: State, bus: &mut Bus, log: &mut Log) -> Result<State, Stop>
        requires counts { state.n < 4294967295 }
        requires tests_lock { TestsLock (does self.now w) state false }
        ensures steps { StepsAs (does self.now w) (writes self.now w) state bus.old log.old bus.new log.new result }
        ensures same { SameBus bus.old bus.new × SameLog log.old log.new };

    // What w reads or stores touches a locked byte, and no other stop comes before it.
    fn touches_locked(&self, w: u16, state: State) -> bool
        ensures { TestsLock (does self.now w) state result };

    // What the loop of a run rests on.
    ghost laws: { (engine : Self) → EngineLaws (stepper engine) (does engine) (writes engine) };
}

// By the rules.
#[derive(Clone, Copy)]
pub struct Rules;

// By a table of 32 control words.
#[derive(Clone, Copy)]
pub struct Table {
    pub words: [u16; 32],
}

impl Engine for Rules {
    ghost does = { λ engine. by_rule };

    ghost writes = { λ engine. is_out };

    ghost stepper = { λ engine. by_rules };

    ghost laws = { λ engine. rules_laws };

    fn step(&self, w: u16, state: State, bus: &mut Bus, log: &mut Log) -> Result<State, Stop> {
        rules::step(w, state, bus, log)
    }

    fn touches_locked(&self, w: u16, state: State) -> bool {
        rules::touches_locked(w, state)
    }
}

impl Engine for Table {
    ghost does = { λ engine w. control_step (control_in engine.words w) w };

    ghost writes = { λ engine w. writes_port (control_in engine.words w) };

    ghost stepper = { λ engine. by_control engine.words };

    ghost laws = { λ engine. table_laws engine.words };

    fn step(&self, w: u16, state: State, bus: &mut Bus, log: &mut Log) -> Result<State, Stop> {
        datapath::step(control::control_of(&self.words, w), w, state, bus, log)
    }

    fn touches_locked(&self, w: u16, state: State) -> bool {
        datapath::touches_locked(control::control_of(&self.words, w), w, state)
    }
}
