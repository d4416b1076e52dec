// The engine by the rules: the step of a word.
#![tactic(auto)]

ghost use Rattle.std.specs.Prelude.{◌≡◌, true, false, List, ℕ, ◌/◌, ◌<◌, ◌≤◌, length};
ghost use Rattle.machine.specs.Step.{rule, choice, step_by, output};
ghost use Rattle.machine.specs.Run.{is_out};
ghost use Rattle.machine.specs.Held.{TestsLock};
ghost use Rattle.bus.specs.Lent.{SameBus, SameLog, StepsAs};
ghost use Rattle.rules.specs.Parts.{Begun, RuleMeets};

use bus::{Bus, Log};
use machine::{Port, State, Stop};

mod rule;

// The step of a word with opcode 1: unassigned where f is 2, 6 or 7.
fn comparison(w: u16, state: State, next: State) -> Result<State, Stop>
    requires { Begun 1 w state next }
    ensures { (D : List ℕ) → RuleMeets w state D result D }
{
    if word::is_below_6_but(2, w % 8) {
        Ok(rule::compared(w, state, next))
    } else {
        Err(Stop::Unassigned)
    }
}

// The step of a word with opcode 0 or 1. (They are tested apart from the others, so that only f is chosen by an indirect jump.)
fn arithmetic(w: u16, state: State, next: State) -> Result<State, Stop>
    requires begun { Begun (w / 4096) w state next }
    requires w_bound { w / 4096 < 2 }
    ensures { (D : List ℕ) → RuleMeets w state D result D }
{
    if w / 4096 == 0 {
        Ok(rule::operated(w, state, next))
    } else {
        comparison(w, state, next)
    }
}

// The step of a word with opcode 11: unassigned where f is 3, 6 or 7.
fn product(w: u16, state: State, next: State) -> Result<State, Stop>
    requires { Begun 11 w state next }
    ensures { (D : List ℕ) → RuleMeets w state D result D }
{
    if word::is_below_6_but(3, w % 8) {
        if rule::divides_by_zero(w, state) {
            Err(Stop::ZeroDivisor)
        } else {
            Ok(rule::multiplied(w, state, next))
        }
    } else {
        Err(Stop::Unassigned)
    }
}

// The step of a word with opcode 12: unassigned where f is over 3.
fn interrupt(w: u16, state: State, next: State) -> Result<State, Stop>
    requires { Begun 12 w state next }
    ensures { (D : List ℕ) → RuleMeets w state D result D }
{
    if w % 8 < 4 {
        Ok(rule::interrupted(w, next))
    } else {
        Err(Stop::Unassigned)
    }
}

// The step of a word with an opcode other than 0, 1 and 10. (The opcode is handed on, so that the tests of it are compiled to one switch.)
fn by_rule(op: u16, w: u16, state: State, next: State, memory: &mut [u8]) -> Result<State, Stop>
    requires begun { Begun op w state next }
    requires le_op { (2 ≤ op) × (op ≡ 10 → ⊥) }
    requires memory_len { length memory.old ≡ 65536 }
    requires tests_lock { TestsLock (step_by (choice w) w) state false }
    ensures { RuleMeets w state memory.old result memory.new }
{
    match op {
        2 => Ok(rule::summed(w, state, next)),
        3 => Ok(rule::load_word(w, state, next, memory)),
        4 => {
            rule::store_word(w, state, memory);
            Ok(next)
        }
        5 => Ok(rule::load_byte(w, state, next, memory)),
        6 => {
            rule::store_byte(w, state, memory);
            Ok(next)
        }
        7 => Ok(rule::link(w, state, next)),
        8 => Ok(rule::branch(w, state, next)),
        9 => Ok(rule::moved(w, state, next)),
        11 => product(w, state, next),
        12 => interrupt(w, state, next),
        _ => Err(Stop::Unassigned),
    }
}

// OUT.
fn output(w: u16, state: State, next: State, bus: &mut Bus, log: &mut Log) -> Result<State, Stop>
    requires begun { Begun 10 w state next }
    ensures steps { StepsAs (step_by (rule output) w) true state bus.old log.old bus.new log.new result }
    ensures same { SameBus bus.old bus.new × SameLog log.old log.new }
{
    if log.is_full() {
        Err(Stop::FullLog)
    } else {
        let port = Port((w % 256) as u8);
        let x = state.ra(w);
        bus::write_port(bus.outputs, port, x);
        log.push(bus::entry_of(state.n, port, x));
        Ok(next)
    }
}

// IN and OUT.
fn at_port(w: u16, state: State, next: State, bus: &mut Bus, log: &mut Log) -> Result<State, Stop>
    requires { Begun 10 w state next }
    ensures steps { StepsAs (step_by (choice w) w) (is_out w) state bus.old log.old bus.new log.new result }
    ensures same { SameBus bus.old bus.new × SameLog log.old log.new }
{
    if w / 256 % 2 == 0 {
        Ok(rule::input(w, next, bus.inputs))
    } else {
        output(w, state, next, bus, log)
    }
}

// What w reads or stores touches a locked byte.
pub fn touches_locked(w: u16, state: State) -> bool
    ensures { TestsLock (step_by (choice w) w) state result }
{
    let a = rule::sum(w, state.ra(w));
    match w / 4096 {
        3 | 4 => state.locks_word(word::clear_bit0(a)),
        5 | 6 => state.locks_byte(a),
        _ => false,
    }
}

// The step of w, which touches no locked byte. (With an early `return` the compiled step is four times slower.)
pub fn step(w: u16, state: State, bus: &mut Bus, log: &mut Log) -> Result<State, Stop>
    requires counts { state.n < 4294967295 }
    requires tests_lock { TestsLock (step_by (choice w) w) state false }
    ensures steps { StepsAs (step_by (choice w) w) (is_out w) state bus.old log.old bus.new log.new result }
    ensures same { SameBus bus.old bus.new × SameLog log.old log.new }
{
    let op = w / 4096;
    let next = state.advanced();
    if op < 2 {
        arithmetic(w, state, next)
    } else {
        if op == 10 {
            at_port(w, state, next, bus, log)
        } else {
            by_rule(op, w, state, next, bus.memory)
        }
    }
}
