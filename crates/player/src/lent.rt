// What is lent.
ghost use Rattle.std.specs.Prelude.{◌≡◌};
ghost use Rattle.player.specs.Lent.{first_lent, all_but};

use machine::State;
use std::array;

pub type Memory = [u8; State::MEMORY_BYTES];

pub type Ports = [u16; State::PORTS];

pub const LOG_PLACES: usize = 64;

pub type Log = [u64; LOG_PLACES];

// Memories, ports and log.
#[derive(Drop)]
pub struct Lent {
    pub program: Memory,
    pub memory: Memory,
    pub inputs: Ports,
    pub outputs: Ports,
    pub log: Log,
}

impl Lent {
    // What is lent at the start.
    pub fn first() -> Self
        ensures { result ≡ first_lent }
    {
        Lent {
            program: array::from_fn(|i| (i % 251) as u8),
            memory: [0; State::MEMORY_BYTES],
            inputs: array::from_fn(|p| (7 * p) as u16),
            outputs: [0; State::PORTS],
            log: array::from_fn(|i| 1000 + i as u64),
        }
    }
}

// All of a number of elements, or all but one.
pub fn all_but(short: bool, count: usize) -> usize
    ensures { result ≡ all_but short count }
{
    count.saturating_sub(short as usize)
}
