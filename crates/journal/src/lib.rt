// What a step overwrites, as the entry of a journal, and a step taken back by such an entry.
#![tactic(auto)]

ghost use Rattle.std.specs.Prelude.{◌≡◌, ◌%◌, get_or, length};
ghost use Rattle.bus.specs.Lent.{SameBus};
ghost use Rattle.journal.specs.Journal.{coded, what_in, by_taking, entry_with, is_output};
ghost use Rattle.journal.specs.declared.What.TheVariants.{Nothing};
ghost use Rattle.journal.specs.Parts.{what_number, whats, address_of, register_before, word_before, byte_before, input_before, port_before, interrupt_before, IsEntry, IsUndone};

use bus::Bus;
use machine::{Address, Port, State};

// What a step overwrites.
#[derive(Clone, Copy, Debug, PartialEq, Eq)]
enum What {
    Nothing,
    Register,
    DataWord,
    DataByte,
    Output,
    // A register and input 0, by a read of the key.
    KeyRead,
    EnableFlag,
    LineTaken,
}

// Its number in an entry.
impl From<What> for u8 {
    ghost from_gives = { λ what number. number ≡ what_number what };

    fn from(what: What) -> u8 {
        match what {
            What::Nothing => 0,
            What::Register => 1,
            What::DataWord => 2,
            What::DataByte => 3,
            What::Output => 4,
            What::KeyRead => 5,
            What::EnableFlag => 6,
            What::LineTaken => 7,
        }
    }
}

// What an entry says; nothing by a number over 7.
fn what_in(entry: u64) -> What
    ensures { result ≡ get_or whats (what_in entry) Nothing }
{
    match entry / 281474976710656 % 256 {
        1 => What::Register,
        2 => What::DataWord,
        3 => What::DataByte,
        4 => What::Output,
        5 => What::KeyRead,
        6 => What::EnableFlag,
        7 => What::LineTaken,
        _ => What::Nothing,
    }
}

// An entry: PC before the step, what was held, where, what held it, and the register of a read of the key or the line taken.
fn coded(pc: u16, v: u16, k: u16, what: What, which: u8) -> u64
    ensures { result ≡ coded pc v k (what_number what) which }
{
    u64::from(pc)
        + 65536 * u64::from(v)
        + 4294967296 * u64::from(k)
        + 281474976710656 * u64::from(u8::from(what))
        + 72057594037927936 * u64::from(which)
}

// Of a step that overwrites register k modulo 8.
fn of_register(state: State, k: u16) -> u64
    ensures { result ≡ entry_with state.pc (register_before (k % 8) state) }
{
    coded(state.pc, state.register(k), k % 8, What::Register, 0)
}

// Ra+SE(N6), the address of a store.
fn address(w: u16, state: State) -> u16
    ensures { result ≡ address_of w state }
{
    word::sum(state.ra(w), word::extend6(w))
}

// Of ST.
fn of_word(w: u16, state: State, memory: &[u8]) -> u64
    requires { length memory.now ≡ 65536 }
    ensures { result ≡ entry_with state.pc (word_before w state memory.now) }
{
    let at = address(w, state);
    let held = bus::load_word(memory, Address(at));
    coded(state.pc, held, word::clear_bit0(at), What::DataWord, 0)
}

// Of STB.
fn of_byte(w: u16, state: State, memory: &[u8]) -> u64
    requires { length memory.now ≡ 65536 }
    ensures { result ≡ entry_with state.pc (byte_before w state memory.now) }
{
    let at = address(w, state);
    let held = bus::load_byte(memory, Address(at));
    coded(state.pc, held, at, What::DataByte, 0)
}

// Of IN: from port 1, the key's data, input 0 is overwritten too.
fn of_input(w: u16, state: State, inputs: &[u16]) -> u64
    requires { length inputs.now ≡ 256 }
    ensures { result ≡ entry_with state.pc (input_before w state inputs.now) }
{
    if w % 256 == 1 {
        coded(
            state.pc,
            state.register(w / 512),
            bus::read_port(inputs, Port(0)),
            What::KeyRead,
            (w / 512 % 8) as u8,
        )
    } else {
        of_register(state, w / 512)
    }
}

// Of IN and OUT.
fn at_port(w: u16, state: State, inputs: &[u16], outputs: &[u16]) -> u64
    requires { (length inputs.now ≡ 256) × (length outputs.now ≡ 256) }
    ensures { result ≡ entry_with state.pc (port_before w state inputs.now outputs.now) }
{
    if w / 256 % 2 == 0 {
        of_input(w, state, inputs)
    } else {
        let port = w % 256;
        let held = bus::read_port(outputs, Port(port as u8));
        coded(state.pc, held, port, What::Output, 0)
    }
}

// Of EI, DI and RETI, which overwrite the enable flag, and of GETIID.
fn of_interrupt(w: u16, state: State) -> u64
    ensures { result ≡ entry_with state.pc (interrupt_before w state) }
{
    if w % 8 == 3 {
        of_register(state, w / 8)
    } else {
        coded(state.pc, u16::from(state.enabled), 0, What::EnableFlag, 0)
    }
}

// The entry of a step that takes a line.
pub fn line_entry(state: State) -> u64
    ensures { result ≡ entry_with state.pc (by_taking state) }
{
    let held = u16::from(state.enabled) + 256 * u16::from(state.line);
    coded(
        state.pc,
        state.return_address,
        held,
        What::LineTaken,
        state.lowest_line(),
    )
}

// The entry of the step of w. (Inlined: a call of it would keep the state of a run in memory, step by step.)
#[inline(always)]
pub fn entry(w: u16, state: State, memory: &[u8], inputs: &[u16], outputs: &[u16]) -> u64
    requires { (length memory.now ≡ 65536) × (length inputs.now ≡ 256) × (length outputs.now ≡ 256) }
    ensures { IsEntry w state memory.now inputs.now outputs.now result }
{
    match w / 4096 {
        0 => of_register(state, w / 8),
        1 => of_register(state, w / 8),
        2 => of_register(state, w / 64),
        3 => of_register(state, w / 64),
        4 => of_word(w, state, memory),
        5 => of_register(state, w / 64),
        6 => of_byte(w, state, memory),
        7 => of_register(state, w / 64),
        9 => of_register(state, w / 512),
        10 => at_port(w, state, inputs, outputs),
        11 => of_register(state, w / 8),
        12 => of_interrupt(w, state),
        _ => coded(state.pc, 0, 0, What::Nothing, 0),
    }
}

// The entry is an output's.
pub fn is_output(entry: u64) -> bool
    ensures { result ≡ is_output entry }
{
    entry / 281474976710656 % 256 == u64::from(u8::from(What::Output))
}

// A step taken back by an entry.
pub fn undo(state: State, bus: &mut Bus, entry: u64) -> State
    ensures undone { IsUndone entry state bus.old.memory.now bus.old.inputs.now bus.old.outputs.now result bus.new.memory.now bus.new.inputs.now bus.new.outputs.now }
    ensures same { SameBus bus.old bus.new }
{
    let back = state.retreated((entry % 65536) as u16);
    let v = (entry / 65536 % 65536) as u16;
    let k = (entry / 4294967296 % 65536) as u16;
    let which = (entry / 72057594037927936 % 256) as u16;
    match what_in(entry) {
        What::Register => back.with_register(k, v),
        What::DataWord => {
            bus.store_word(Address(k), v);
            back
        }
        What::DataByte => {
            bus.store_byte(Address(k), v);
            back
        }
        What::Output => {
            bus.write_output(Port((k % 256) as u8), v);
            back
        }
        What::KeyRead => {
            bus.write_input(Port(0), k);
            back.with_register(which, v)
        }
        What::EnableFlag => back.with_enabled((v % 256) as u8),
        What::LineTaken => back
            .with_taken((k / 256) as u8, v)
            .with_line((which % 8) as u8)
            .with_enabled((k % 256) as u8),
        What::Nothing => back,
    }
}
