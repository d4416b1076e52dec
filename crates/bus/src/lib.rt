// The fetch, loads and stores of data memory, and the ports. A data word's address has bit 0 cleared; nothing is refused.
#![tactic(auto)]

ghost use Rattle.std.specs.Prelude.{◌≡◌, ◌+◌, ◌*◌, ◌%◌, ◌<◌, length, get_or, set};
ghost use Rattle.word.specs.Word.{clear0};
ghost use Rattle.machine.specs.Held.{Fetches};
ghost use Rattle.machine.specs.Lengths.{lengths_fit};
ghost use Rattle.machine.specs.Machine.{read_from, word_at, put_word, put_byte};

use machine::{Address, Port, State};

mod lent;
mod stores;

pub use lent::{Bus, Log};

// The memories and ports have the lengths of refusal 1.
pub fn lengths_fit(program: &[u8], memory: &[u8], inputs: &[u16], outputs: &[u16]) -> bool
    ensures { result ≡ lengths_fit program.now memory.now inputs.now outputs.now }
{
    program.len() == State::MEMORY_BYTES
        && memory.len() == State::MEMORY_BYTES
        && inputs.len() == State::PORTS
        && outputs.len() == State::PORTS
}

// The place of the word at an address.
fn word_place(address: Address) -> usize
    ensures { result ≡ clear0 address.0 }
{
    usize::from(word::clear_bit0(address.0))
}

pub fn load_byte(bytes: &[u8], address: Address) -> u16
    requires { length bytes.now ≡ 65536 }
    ensures { result ≡ get_or bytes.now address.0 0 }
{
    let from = usize::from(address.0);
    u16::from(bytes[from])
}

// The word at two neighbouring places, low byte first.
pub fn word_from(bytes: &[u8], at: usize) -> u16
    requires { at + 1 < length bytes.now }
    ensures { result ≡ get_or bytes.now at 0 + 256 * get_or bytes.now (at + 1) 0 }
{
    let low = u16::from(bytes[at]);
    let high = u16::from(bytes[at + 1]);
    low + 256 * high
}

// The word at an even PC.
fn word_at(bytes: &[u8], pc: u16) -> u16
    requires { (length bytes.now ≡ 65536) × (pc % 2 ≡ 0) }
    ensures { result ≡ word_at bytes.now pc }
{
    word_from(bytes, usize::from(pc))
}

// The instruction word at an even PC, of program memory, or of data memory on the single-memory board.
#[tactic(auto, unfolding(machine::specs::Step::fetched))]
pub fn fetch(state: State, program: &[u8], memory: &[u8]) -> u16
    requires { (length program.now ≡ 65536) × (length memory.now ≡ 65536) × (state.pc % 2 ≡ 0) }
    ensures { Fetches state program.now memory.now result }
{
    if state.board == 0 {
        word_at(program, state.pc)
    } else {
        word_at(memory, state.pc)
    }
}

pub fn load_word(bytes: &[u8], address: Address) -> u16
    requires { length bytes.now ≡ 65536 }
    ensures { result ≡ word_at bytes.now (clear0 address.0) }
{
    word_from(bytes, word_place(address))
}

pub fn store_byte(bytes: &mut [u8], address: Address, v: u16)
    requires { length bytes.old ≡ 65536 }
    ensures { bytes.new ≡ put_byte address.0 v bytes.old }
{
    let to = usize::from(address.0);
    bytes[to] = (v % 256) as u8;
}

pub fn store_word(bytes: &mut [u8], address: Address, v: u16)
    requires { length bytes.old ≡ 65536 }
    ensures { bytes.new ≡ put_word (clear0 address.0) v bytes.old }
{
    let at = word_place(address);
    bytes[at] = (v % 256) as u8;
    bytes[at + 1] = (v / 256) as u8;
}

pub fn read_port(ports: &[u16], port: Port) -> u16
    requires { length ports.now ≡ 256 }
    ensures { result ≡ get_or ports.now port.0 0 }
{
    let from = usize::from(port.0);
    ports[from]
}

// IN's read: from port 1, the key's data, input 0, the key's status, then becomes zero (02, L8).
pub fn read_input(inputs: &mut [u16], port: Port) -> u16
    requires { length inputs.old ≡ 256 }
    ensures { (result ≡ get_or inputs.old port.0 0) × (inputs.new ≡ read_from port.0 inputs.old) }
{
    let v = read_port(inputs, port);
    if port.0 == 1 {
        inputs[0] = 0;
    }
    v
}

pub fn write_port(ports: &mut [u16], port: Port, v: u16)
    requires { length ports.old ≡ 256 }
    ensures { ports.new ≡ set ports.old port.0 v }
{
    let to = usize::from(port.0);
    ports[to] = v;
}

// The log entry of a port write: n before the step, the port, the value.
pub fn entry_of(n: u32, port: Port, v: u16) -> u64
    ensures { result ≡ n * 16777216 + port.0 * 65536 + v }
{
    u64::from(n) * 16777216 + u64::from(port.0) * 65536 + u64::from(v)
}
