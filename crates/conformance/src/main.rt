// Plays pseudo-random calls on pseudo-random files, and prints what docs/CONFORMANCE.md says.
#![tactic(auto)]

use player::file::Sort;
use player::lent::Lent;
use std::io;
use std::io::{BufWriter, Write};

mod backs;
mod boards;
mod calls;
mod cases;
mod host;
mod instructions;
mod journals;
mod keys;
mod knobs;
mod loads;
mod locks;
mod pages;
mod printed;
mod runs;
mod saves;
mod sheets;

fn main(rt: HostRuntime) -> io::Result<()> {
    let mut out = BufWriter::new(rt.alloc(), io::writer(&rt))?;
    let mut lent = Lent::first();
    for c in 0..64 {
        cases::play(&mut out, c, &mut lent)?;
    }
    printed::all(&mut out)?;
    for c in 64..80 {
        keys::play(&mut out, c, &mut lent)?;
    }
    boards::all(&mut out, Sort::Stores, 80..86, 86..89, &mut lent)?;
    for c in 89..97 {
        knobs::play(&mut out, c, &mut lent)?;
    }
    for c in 97..103 {
        pages::play(&mut out, c, &mut lent.log)?;
    }
    boards::all(&mut out, Sort::Locks, 103..109, 109..112, &mut lent)?;
    out.flush()
}
