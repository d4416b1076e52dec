// The rules, one for each opcode: they read the state before the step and change `next`, where PC+2 and the count are done.
ghost use Rattle.std.specs.Prelude.{◌≡◌, length, get_or};
ghost use Rattle.word.specs.Fields.{f_of, N6, N8};
ghost use Rattle.word.specs.Word.{add, clear0, SE, operation, comparison};
ghost use Rattle.muldiv.specs.Muldiv.{muldiv};
ghost use Rattle.machine.specs.Machine.{put_r, read_from, put_word, put_byte};
ghost use Rattle.machine.specs.Step.{d5_3, d8_6, d11_9};
ghost use Rattle.rules.specs.Parts.{divides_by_zero, ra_of, rb_of, sum_of, word_of, byte_of, branch_of, link_of, move_of, interrupt_of};

use machine::{Address, Port, State};

// Opcode 0.
pub fn operated(w: u16, state: State, next: State) -> State
    ensures { result ≡ put_r (d5_3 w) (operation (f_of w) (ra_of w state) (rb_of w state)) next }
{
    let p = state.sources(w);
    next.with_register(w / 8, word::operate(w % 8, p.x, p.y))
}

// Opcode 1.
pub fn compared(w: u16, state: State, next: State) -> State
    ensures { result ≡ put_r (d5_3 w) (comparison (f_of w) (ra_of w state) (rb_of w state)) next }
{
    let p = state.sources(w);
    next.with_register(w / 8, word::compare(w % 8, p.x, p.y))
}

// DIV or DIVU, and Rb is zero.
pub fn divides_by_zero(w: u16, state: State) -> bool
    ensures { result ≡ divides_by_zero w state }
{
    if w % 8 / 2 == 2 {
        state.rb(w) == 0
    } else {
        false
    }
}

// Opcode 11.
pub fn multiplied(w: u16, state: State, next: State) -> State
    ensures { result ≡ put_r (d5_3 w) (muldiv (f_of w) (ra_of w state) (rb_of w state)) next }
{
    let p = state.sources(w);
    next.with_register(w / 8, muldiv::compute(w % 8, p.x, p.y))
}

// Ra+SE(N6): ADDI's result, and the address of a load or a store. x is Ra.
pub fn sum(w: u16, x: u16) -> u16
    ensures { result ≡ add x (SE 6 (N6 w)) }
{
    word::sum(x, word::extend6(w))
}

// ADDI.
pub fn summed(w: u16, state: State, next: State) -> State
    ensures { result ≡ put_r (d8_6 w) (sum_of w state) next }
{
    next.with_register(w / 64, sum(w, state.ra(w)))
}

// LD.
pub fn load_word(w: u16, state: State, next: State, memory: &[u8]) -> State
    requires { length memory.now ≡ 65536 }
    ensures { result ≡ put_r (d8_6 w) (word_of w state memory.now) next }
{
    next.with_register(w / 64, bus::load_word(memory, Address(sum(w, state.ra(w)))))
}

// ST.
pub fn store_word(w: u16, state: State, memory: &mut [u8])
    requires { length memory.old ≡ 65536 }
    ensures { memory.new ≡ put_word (clear0 (sum_of w state)) (rb_of w state) memory.old }
{
    let p = state.sources(w);
    bus::store_word(memory, Address(sum(w, p.x)), p.y);
}

// LDB.
pub fn load_byte(w: u16, state: State, next: State, memory: &[u8]) -> State
    requires { length memory.now ≡ 65536 }
    ensures { result ≡ put_r (d8_6 w) (byte_of w state memory.now) next }
{
    let byte = bus::load_byte(memory, Address(sum(w, state.ra(w))));
    next.with_register(w / 64, word::extend8(byte))
}

// STB.
pub fn store_byte(w: u16, state: State, memory: &mut [u8])
    requires { length memory.old ≡ 65536 }
    ensures { memory.new ≡ put_byte (sum_of w state) (rb_of w state) memory.old }
{
    let p = state.sources(w);
    bus::store_byte(memory, Address(sum(w, p.x)), p.y);
}

// JALR. Ra is read before the link is written, so from the state before the step.
pub fn link(w: u16, state: State, next: State) -> State
    ensures { result ≡ link_of w state next }
{
    let linked = next.with_register(w / 64, next.pc);
    linked.with_pc(word::clear_bit0(state.ra(w)))
}

// BZ and BNZ.
pub fn branch(w: u16, state: State, next: State) -> State
    ensures { result ≡ branch_of w state next }
{
    let x = state.ra(w);
    let e = w / 256 % 2;
    if x == 0 {
        if e == 0 {
            next.with_pc(word::branch_target(state.pc, w))
        } else {
            next
        }
    } else {
        if e == 0 {
            next
        } else {
            next.with_pc(word::branch_target(state.pc, w))
        }
    }
}

// MOVI and MOVHI.
pub fn moved(w: u16, state: State, next: State) -> State
    ensures { result ≡ put_r (d11_9 w) (move_of w state) next }
{
    if w / 256 % 2 == 0 {
        next.with_register(w / 512, word::extend8(w))
    } else {
        next.with_register(w / 512, state.ra(w) % 256 + w % 256 * 256)
    }
}

// IN.
pub fn input(w: u16, next: State, inputs: &mut [u16]) -> State
    requires { length inputs.old ≡ 256 }
    ensures { (result ≡ put_r (d11_9 w) (get_or inputs.old (N8 w) 0) next) × (inputs.new ≡ read_from (N8 w) inputs.old) }
{
    let port = Port((w % 256) as u8);
    next.with_register(w / 512, bus::read_input(inputs, port))
}

// Opcode 12, by f: EI, DI, RETI, GETIID.
pub fn interrupted(w: u16, next: State) -> State
    ensures { result ≡ interrupt_of w next }
{
    match w % 8 {
        0 => next.with_enabled(1),
        1 => next.with_enabled(0),
        2 => next.with_enabled(1).with_pc(next.return_address),
        3 => next.with_register(w / 8, next.line as u16),
        _ => next,
    }
}
