// Loads and stores on what is lent.
ghost use Rattle.std.specs.Prelude.{◌≡◌, ◌+◌, ◌%◌, ◌<◌, length, set, get_or, leb};
ghost use Rattle.bus.specs.Lent.{SameBus, SameLog, Holds};
ghost use Rattle.word.specs.Word.{clear0};
ghost use Rattle.machine.specs.Held.{Fetches};
ghost use Rattle.machine.specs.Machine.{word_at, put_word, put_byte, read_from};

use crate::lent::{Bus, Log};
use machine::{Address, Port, State};

impl<'a> Bus<'a> {
    // The instruction word at an even PC.
    pub fn fetch(&self, state: State, program: &[u8]) -> u16
        requires { (length program.now ≡ 65536) × (state.pc % 2 ≡ 0) }
        ensures { Fetches state program.now self.now.memory.now result }
    {
        crate::fetch(state, program, self.memory)
    }

    pub fn load_byte(&self, address: Address) -> u16
        ensures value { result ≡ get_or self.now.memory.now address.0 0 }
        ensures byte { result < 256 }
    {
        let from = address.0 as usize;
        u16::from(self.memory[from])
    }

    pub fn load_word(&self, address: Address) -> u16
        ensures { result ≡ word_at self.now.memory.now (clear0 address.0) }
    {
        crate::load_word(self.memory, address)
    }

    pub fn store_byte(&mut self, address: Address, v: u16)
        ensures holds { Holds (put_byte address.0 v self.old.memory.now) self.old.inputs.now self.old.outputs.now self.new }
        ensures same { SameBus self.old self.new }
    {
        crate::store_byte(self.memory, address, v);
    }

    pub fn store_word(&mut self, address: Address, v: u16)
        ensures holds { Holds (put_word (clear0 address.0) v self.old.memory.now) self.old.inputs.now self.old.outputs.now self.new }
        ensures same { SameBus self.old self.new }
    {
        crate::store_word(self.memory, address, v);
    }

    // IN's read.
    pub fn read_input(&mut self, port: Port) -> u16
        ensures value { result ≡ get_or self.old.inputs.now port.0 0 }
        ensures holds { Holds self.old.memory.now (read_from port.0 self.old.inputs.now) self.old.outputs.now self.new }
        ensures same { SameBus self.old self.new }
    {
        crate::read_input(self.inputs, port)
    }

    pub fn write_input(&mut self, port: Port, v: u16)
        ensures holds { Holds self.old.memory.now (set self.old.inputs.now port.0 v) self.old.outputs.now self.new }
        ensures same { SameBus self.old self.new }
    {
        crate::write_port(self.inputs, port, v);
    }

    pub fn write_output(&mut self, port: Port, v: u16)
        ensures holds { Holds self.old.memory.now self.old.inputs.now (set self.old.outputs.now port.0 v) self.new }
        ensures same { SameBus self.old self.new }
    {
        crate::write_port(self.outputs, port, v);
    }
}

impl<'a> Log<'a> {
    pub fn is_full(&self) -> bool
        ensures { result ≡ leb (length self.now.places.now) self.now.entries }
    {
        self.places.len() <= self.entries
    }

    // One entry more.
    pub fn push(&mut self, entry: u64)
        requires { self.old.entries < length self.old.places.now }
        ensures same { SameLog self.old self.new }
        ensures places { self.new.places.now ≡ set self.old.places.now self.old.entries entry }
        ensures entries { self.new.entries ≡ self.old.entries + 1 }
    {
        self.places[self.entries] = entry;
        self.entries += 1;
    }
}
