// Runs pseudo-random files by pseudo-random control tables, and prints what docs/CONFORMANCE.md says.
#![tactic(auto)]

use player::lent::Lent;
use std::io;
use std::io::{BufWriter, Write};

mod runs;
mod tables;

fn main(rt: HostRuntime) -> io::Result<()> {
    let mut out = BufWriter::new(rt.alloc(), io::writer(&rt))?;
    let mut lent = Lent::first();
    for t in 0..192 {
        runs::play(&mut out, t, &mut lent)?;
    }
    out.flush()
}
