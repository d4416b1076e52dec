// The commonest groups of a control word's fields; none has bit 15. Registers are read where they are used: that takes less time
// than before the tests.
ghost use Rattle.std.specs.Prelude.{◌≡◌, ◌<◌, length};
ghost use Rattle.word.specs.Word.{add, clear0, SE};
ghost use Rattle.word.specs.Fields.{a_of, b_of, N6};
ghost use Rattle.machine.specs.Machine.{R, put_pc, count};
ghost use Rattle.control.specs.Control.{next, stored_data, written};
ghost use Rattle.datapath.specs.Parts.{address_of, is_result, is_operation, is_comparison, is_sum, is_store, is_jump, is_link};

use crate::fields;
use machine::State;

// Ra+SE(N6). x is Ra.
pub fn address(w: u16, x: u16) -> u16
    ensures { result ≡ add x (SE 6 (N6 w)) }
{
    word::sum(x, word::extend6(w))
}

// Assigned, no store, and PC+2.
pub fn is_result(control: u16) -> bool
    ensures { result ≡ is_result control }
{
    control / 1024 == 16
}

// An operation on Ra and Rb is the result.
pub fn is_operation(control: u16) -> bool
    ensures { result ≡ is_operation control }
{
    control / 4 % 256 == 0
}

// A comparison of Ra and Rb, by an f that the unit takes, is the result.
pub fn is_comparison(control: u16, w: u16) -> bool
    ensures { result ≡ is_comparison control w }
{
    if control / 4 % 256 == 8 {
        word::is_below_6_but(2, w % 8)
    } else {
        false
    }
}

// The unit's result is Ra+SE(N6).
pub fn is_sum(control: u16) -> bool
    ensures { result ≡ is_sum control }
{
    control / 32 % 32 == 10
}

// Data memory at Ra+SE(N6) is stored to; no destination, PC+2, assigned. (A range test takes some instructions more.)
pub fn is_store(control: u16) -> bool
    ensures { result ≡ is_store control }
{
    let upper = control / 1024;
    (control % 1024 == 320) & ((upper == 17) | (upper == 18))
}

pub fn store(control: u16, w: u16, state: State, memory: &mut [u8])
    requires { length memory.old ≡ 65536 }
    ensures { memory.new ≡ stored_data control (R state (b_of w)) (address_of w state) memory.old }
{
    let p = state.sources(w);
    fields::store_data(control, p.y, address(w, p.x), memory);
}

// All fields but the next PC are 0, and assigned.
pub fn is_jump(control: u16) -> bool
    ensures { result ≡ is_jump control }
{
    (control % 4096 == 0) & (control / 16384 == 1)
}

pub fn jump(control: u16, w: u16, state: State) -> State
    requires { state.n < 4294967295 }
    ensures { result ≡ put_pc (next control w (R state (a_of w)) state.pc) (count state) }
{
    let next = fields::next_pc(control, w, state.ra(w), state.pc);
    state.counted().with_pc(next)
}

// PC becomes Ra and the result is PC+2; no store, unit 0, assigned.
pub fn is_link(control: u16) -> bool
    ensures { result ≡ is_link control }
{
    (control / 1024 == 28) & (control / 4 % 64 == 3)
}

pub fn link(control: u16, w: u16, state: State) -> State
    requires { state.n < 4294967295 }
    ensures { result ≡ written control w (add state.pc 2) (put_pc (clear0 (R state (a_of w))) (count state)) }
{
    let next = state.counted().with_pc(word::clear_bit0(state.ra(w)));
    fields::write_destination(control, w, word::sum(state.pc, 2), next)
}
