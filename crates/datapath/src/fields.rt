// The fields of a control word, each with the function that does what it says. x is Ra, y is Rb, u the unit's result. Fields are
// tested bit by bit: that compiles to branches, which take less time here than the jump of a `match`.
ghost use Rattle.std.specs.Prelude.{◌≡◌, true, ◌+◌, ◌*◌, ◌<◌, get_or, length, set};
ghost use Rattle.word.specs.Fields.{b_of, f_of, N8};
ghost use Rattle.word.specs.Word.{pick};
ghost use Rattle.machine.specs.Machine.{touches_locked, R};
ghost use Rattle.control.specs.Control.{second, units, unit_field, unit, result_of, inputs_after, next, by_interrupt, writes_port, stored_data, written, assigned, zero_divisor, touched_by, locked_access, interrupt_assigned};
ghost use Rattle.bus.specs.Lent.{SameBus, SameLog, Holds};
ghost use Rattle.datapath.specs.Parts.{interrupt_of};

use bus::{Bus, Log};
use machine::{Address, Port, State};

// Bits 9..8.
fn second_operand(control: u16, w: u16, y: u16) -> u16
    ensures { result ≡ second control w y }
{
    if control / 256 % 2 == 0 {
        if control / 512 % 2 == 0 {
            y
        } else {
            word::extend8(w)
        }
    } else {
        if control / 512 % 2 == 0 {
            word::extend6(w)
        } else {
            0
        }
    }
}

// Bits 7..5, of both operands.
fn unit_of(control: u16, w: u16, x: u16, operand: u16) -> u16
    ensures { result ≡ get_or (units (f_of w) x operand) (unit_field control) 0 }
{
    if control / 128 % 2 == 0 {
        if control / 64 % 2 == 0 {
            if control / 32 % 2 == 0 {
                word::operate(w % 8, x, operand)
            } else {
                word::compare(w % 8, x, operand)
            }
        } else {
            if control / 32 % 2 == 0 {
                word::sum(x, operand)
            } else {
                operand
            }
        }
    } else {
        if control / 32 % 4 == 0 {
            x % 256 + operand % 256 * 256
        } else {
            if control / 32 % 4 == 1 {
                muldiv::compute(w % 8, x, operand)
            } else {
                0
            }
        }
    }
}

pub fn unit_result(control: u16, w: u16, x: u16, y: u16) -> u16
    ensures { result ≡ unit control w x y }
{
    unit_of(control, w, x, second_operand(control, w, y))
}

// Bits 4..2.
pub fn chosen_result(control: u16, w: u16, u: u16, pc: u16, bus: &mut Bus) -> u16
    ensures value { result ≡ result_of control w u pc bus.old.memory.now bus.old.inputs.now }
    ensures holds { Holds bus.old.memory.now (inputs_after control w bus.old.inputs.now) bus.old.outputs.now bus.new }
    ensures same { SameBus bus.old bus.new }
{
    if control / 16 % 2 == 0 {
        if control / 8 % 2 == 0 {
            if control / 4 % 2 == 0 {
                u
            } else {
                bus.load_word(Address(u))
            }
        } else {
            if control / 4 % 2 == 0 {
                word::extend8(bus.load_byte(Address(u)))
            } else {
                word::sum(pc, 2)
            }
        }
    } else {
        if control / 4 % 4 == 0 {
            bus.read_input(Port((w % 256) as u8))
        } else {
            0
        }
    }
}

// Bits 13..12.
pub fn next_pc(control: u16, w: u16, x: u16, pc: u16) -> u16
    ensures { result ≡ next control w x pc }
{
    if control / 8192 % 2 == 0 {
        if control / 4096 % 2 == 0 {
            word::sum(pc, 2)
        } else {
            if x == 0 {
                word::branch_target(pc, w)
            } else {
                word::sum(pc, 2)
            }
        }
    } else {
        if control / 4096 % 2 == 0 {
            if x == 0 {
                word::sum(pc, 2)
            } else {
                word::branch_target(pc, w)
            }
        } else {
            word::clear_bit0(x)
        }
    }
}

// Bits 11..10, 1 and 2: a word or a byte of data memory.
pub fn store_data(control: u16, y: u16, u: u16, memory: &mut [u8])
    requires { length memory.old ≡ 65536 }
    ensures { memory.new ≡ stored_data control y u memory.old }
{
    if control / 2048 % 2 == 0 {
        if control / 1024 % 2 == 1 {
            bus::store_word(memory, Address(u), y);
        }
    } else {
        if control / 1024 % 2 == 0 {
            bus::store_byte(memory, Address(u), y);
        }
    }
}

// Bit 15.
pub fn by_interrupt(control: u16) -> bool
    ensures { result ≡ by_interrupt control }
{
    control / 32768 % 2 == 1
}

// Bits 11..10 are 3, and not bit 15.
pub fn writes_port(control: u16) -> bool
    ensures { result ≡ writes_port control }
{
    !by_interrupt(control) & (control / 1024 % 4 == 3)
}

// Where they are 3: the port's store, with an entry of the log.
pub fn store_port(control: u16, w: u16, x: u16, n: u32, outputs: &mut [u16], log: &mut Log)
    requires { (length outputs.old ≡ 256) × (writes_port control ≡ true → log.old.entries < length log.old.places.now) }
    ensures outputs { outputs.new ≡ pick (writes_port control) (set outputs.old (N8 w) x) outputs.old }
    ensures places { log.new.places.now ≡ pick (writes_port control) (set log.old.places.now log.old.entries (n * 16777216 + N8 w * 65536 + x)) log.old.places.now }
    ensures entries { log.new.entries ≡ pick (writes_port control) (log.old.entries + 1) log.old.entries }
    ensures same { SameLog log.old log.new }
{
    if writes_port(control) {
        let port = Port((w % 256) as u8);
        bus::write_port(outputs, port, x);
        log.push(bus::entry_of(n, port, x));
    }
}

// Bits 1..0: the number of the destination begins at bit 3, 6 or 9 of w.
pub fn write_destination(control: u16, w: u16, v: u16, state: State) -> State
    ensures { result ≡ written control w v state }
{
    let k = control % 4;
    if k == 0 {
        state
    } else {
        state.with_register(w >> (3 * k), v)
    }
}

// Bit 14, and f where the unit is 1 or 5.
pub fn is_assigned(control: u16, w: u16) -> bool
    ensures { result ≡ assigned control w }
{
    if control / 16384 % 2 == 0 {
        false
    } else {
        if control / 32 % 8 == 1 {
            word::is_below_6_but(2, w % 8)
        } else {
            if control / 32 % 8 == 5 {
                word::is_below_6_but(3, w % 8)
            } else {
                true
            }
        }
    }
}

// The unit is 5, f is 4 or 5, and the second operand is zero.
pub fn divides_by_zero(control: u16, w: u16, state: State) -> bool
    ensures { result ≡ zero_divisor control w (R state (b_of w)) }
{
    if control / 32 % 8 == 5 {
        if w % 8 / 2 == 2 {
            second_operand(control, w, state.rb(w)) == 0
        } else {
            false
        }
    } else {
        false
    }
}

// A result or a store with the field's value k touches a locked byte. u is the unit's result.
fn touches(k: u16, u: u16, state: State) -> bool
    ensures { result ≡ touches_locked (touched_by k u) state }
{
    match k {
        1 => state.locks_word(word::clear_bit0(u)),
        2 => state.locks_byte(u),
        _ => false,
    }
}

// The result or the store does, without bit 15.
pub fn is_locked_access(control: u16, w: u16, state: State) -> bool
    ensures { result ≡ locked_access control w state }
{
    let p = state.sources(w);
    let u = unit_result(control, w, p.x, p.y);
    touches(control / 4 % 8, u, state) | touches(control / 1024 % 4, u, state)
}

// With bit 15: bit 14, and f below 4.
pub fn is_interrupt_assigned(control: u16, w: u16) -> bool
    ensures { result ≡ interrupt_assigned control w }
{
    (control / 16384 % 2 == 1) & (w % 8 < 4)
}

// With bit 15: EI, DI, RETI and GETIID by f, where PC+2 and the count are done.
pub fn interrupted(control: u16, w: u16, next: State) -> State
    ensures { result ≡ interrupt_of control w next }
{
    match w % 8 {
        0 => next.with_enabled(1),
        1 => next.with_enabled(0),
        2 => next.with_enabled(1).with_pc(next.return_address),
        3 => write_destination(control, w, next.line as u16, next),
        _ => next,
    }
}
