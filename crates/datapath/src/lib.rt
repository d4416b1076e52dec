// The step by a control word: everything but the operands, and f in units 0, 1 and 5 and with bit 15, is learnt from the control word.
#![tactic(auto)]

ghost use Rattle.std.specs.Prelude.{◌≡◌, true, false, ◌<◌, leb, length};
ghost use Rattle.std.specs.declared.option.Option.TheVariants.{None};
ghost use Rattle.std.specs.declared.result.Result.TheVariants.{Ok};
ghost use Rattle.machine.specs.Held.{TestsLock};
ghost use Rattle.bus.specs.Lent.{SameBus, SameLog, StepsAs};
ghost use Rattle.control.specs.Control.{by_interrupt, writes_port, control_step};
ghost use Rattle.datapath.specs.Parts.{stop_of, done_with, with_inputs, result_answer, interrupt_answer, is_result};

use bus::{Bus, Log};
use machine::{State, Stop};

mod fields;
mod groups;

// Why w is not stepped by a control word without bit 15, where it touches no locked byte.
fn stop_of(control: u16, w: u16, state: State, full: bool) -> Option<Stop>
    ensures { result ≡ stop_of control w state full }
{
    if fields::is_assigned(control, w) {
        if fields::divides_by_zero(control, w, state) {
            Some(Stop::ZeroDivisor)
        } else {
            if fields::writes_port(control) & full {
                Some(Stop::FullLog)
            } else {
                None
            }
        }
    } else {
        Some(Stop::Unassigned)
    }
}

// The step of w where nothing stops it, field by field, without bit 15.
fn performed(control: u16, w: u16, state: State, bus: &mut Bus, log: &mut Log) -> State
    requires counts { state.n < 4294967295 }
    requires control_value { (by_interrupt control ≡ false) × (stop_of control w state (leb (length log.old.places.now) log.old.entries) ≡ None) × TestsLock (control_step control w) state false }
    ensures steps { StepsAs (control_step control w) (writes_port control) state bus.old log.old bus.new log.new (Ok result) }
    ensures same { SameBus bus.old bus.new × SameLog log.old log.new }
{
    let p = state.sources(w);
    let u = fields::unit_result(control, w, p.x, p.y);
    let v = fields::chosen_result(control, w, u, state.pc, bus);
    let next = fields::next_pc(control, w, p.x, state.pc);
    fields::store_data(control, p.y, u, bus.memory);
    fields::store_port(control, w, p.x, state.n, bus.outputs, log);
    fields::write_destination(control, w, v, state.counted().with_pc(next))
}

// The step of w by a control word with bit 15: f chooses.
fn interrupt_step(control: u16, w: u16, state: State) -> Result<State, Stop>
    requires { state.n < 4294967295 }
    ensures { result ≡ interrupt_answer control w state }
{
    if fields::is_interrupt_assigned(control, w) {
        Ok(fields::interrupted(control, w, state.advanced()))
    } else {
        Err(Stop::Unassigned)
    }
}

// The step of w by a control word in no group.
fn field_step(
    control: u16,
    w: u16,
    state: State,
    bus: &mut Bus,
    log: &mut Log,
) -> Result<State, Stop>
    requires counts { state.n < 4294967295 }
    requires tests_lock { TestsLock (control_step control w) state false }
    ensures steps { StepsAs (control_step control w) (writes_port control) state bus.old log.old bus.new log.new result }
    ensures same { SameBus bus.old bus.new × SameLog log.old log.new }
{
    if fields::by_interrupt(control) {
        interrupt_step(control, w, state)
    } else {
        match stop_of(control, w, state, log.is_full()) {
            Some(stop) => Err(stop),
            None => Ok(performed(control, w, state, bus, log)),
        }
    }
}

// The step of w by a control word with a store or a next PC other than PC+2.
fn other_step(
    control: u16,
    w: u16,
    state: State,
    bus: &mut Bus,
    log: &mut Log,
) -> Result<State, Stop>
    requires counts { state.n < 4294967295 }
    requires tests_lock { TestsLock (control_step control w) state false }
    ensures steps { StepsAs (control_step control w) (writes_port control) state bus.old log.old bus.new log.new result }
    ensures same { SameBus bus.old bus.new × SameLog log.old log.new }
{
    if groups::is_store(control) {
        groups::store(control, w, state, bus.memory);
        Ok(state.advanced())
    } else {
        if groups::is_jump(control) {
            Ok(groups::jump(control, w, state))
        } else {
            if groups::is_link(control) {
                Ok(groups::link(control, w, state))
            } else {
                field_step(control, w, state, bus, log)
            }
        }
    }
}

// The state after the step of w with the result v, and PC+2.
fn result_done(control: u16, w: u16, v: u16, state: State) -> State
    requires { state.n < 4294967295 }
    ensures { result ≡ done_with control w v state }
{
    fields::write_destination(control, w, v, state.advanced())
}

// The step of w by a control word with no store and PC+2, field by field.
fn other_result(control: u16, w: u16, state: State, bus: &mut Bus) -> Result<State, Stop>
    requires { state.n < 4294967295 }
    ensures answer { with_inputs result bus.new.inputs.now ≡ result_answer control w state bus.old.memory.now bus.old.inputs.now }
    ensures rest { (bus.new.memory.now ≡ bus.old.memory.now) × (bus.new.outputs.now ≡ bus.old.outputs.now) }
    ensures same { SameBus bus.old bus.new }
{
    if fields::is_assigned(control, w) {
        if fields::divides_by_zero(control, w, state) {
            Err(Stop::ZeroDivisor)
        } else {
            let p = state.sources(w);
            let u = fields::unit_result(control, w, p.x, p.y);
            let v = fields::chosen_result(control, w, u, state.pc, bus);
            Ok(result_done(control, w, v, state))
        }
    } else {
        Err(Stop::Unassigned)
    }
}

// The step of w by an assigned control word with no store and PC+2.
fn result_step(control: u16, w: u16, state: State, bus: &mut Bus) -> Result<State, Stop>
    requires { (state.n < 4294967295) × (is_result control ≡ true) }
    ensures answer { with_inputs result bus.new.inputs.now ≡ result_answer control w state bus.old.memory.now bus.old.inputs.now }
    ensures rest { (bus.new.memory.now ≡ bus.old.memory.now) × (bus.new.outputs.now ≡ bus.old.outputs.now) }
    ensures same { SameBus bus.old bus.new }
{
    if groups::is_operation(control) {
        let p = state.sources(w);
        Ok(result_done(control, w, word::operate(w % 8, p.x, p.y), state))
    } else {
        if groups::is_sum(control) {
            let u = groups::address(w, state.ra(w));
            let v = fields::chosen_result(control, w, u, state.pc, bus);
            Ok(result_done(control, w, v, state))
        } else {
            if groups::is_comparison(control, w) {
                let p = state.sources(w);
                Ok(result_done(control, w, word::compare(w % 8, p.x, p.y), state))
            } else {
                other_result(control, w, state, bus)
            }
        }
    }
}

// What w reads or stores by a control word touches a locked byte, and no other stop comes before it.
pub fn touches_locked(control: u16, w: u16, state: State) -> bool
    ensures { TestsLock (control_step control w) state result }
{
    !fields::by_interrupt(control)
        & fields::is_assigned(control, w)
        & !fields::divides_by_zero(control, w, state)
        & fields::is_locked_access(control, w, state)
}

// The step of w by a control word, any control word beside any w, which touches no locked byte. The commonest groups of fields have a step of
// their own, which does what the fields say one by one.
pub fn step(control: u16, w: u16, state: State, bus: &mut Bus, log: &mut Log) -> Result<State, Stop>
    requires counts { state.n < 4294967295 }
    requires tests_lock { TestsLock (control_step control w) state false }
    ensures steps { StepsAs (control_step control w) (writes_port control) state bus.old log.old bus.new log.new result }
    ensures same { SameBus bus.old bus.new × SameLog log.old log.new }
{
    if groups::is_result(control) {
        result_step(control, w, state, bus)
    } else {
        other_step(control, w, state, bus, log)
    }
}
