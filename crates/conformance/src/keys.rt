// Keys: cases whose programs read ports 0 to 3 often.
use crate::backs;
use crate::backs::Calls;
use crate::cases::load_whole;
use crate::loads::print_load;
use player::file::Sort;
use player::lent::Lent;
use std::io;
use std::io::Write;

const CALLS: Calls = Calls {
    count: 24,
    sets: 2,
    port_bits: 1,
};

pub fn play<W: Write>(out: &mut W, c: u16, lent: &mut Lent) -> io::Result<()> {
    let load = load_whole(Sort::Keys, c, lent);
    print_load(out, b"load", c, load, lent)?;
    backs::play(out, CALLS, c, load.state, lent)
}
