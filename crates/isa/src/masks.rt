// The registers that an instruction reads and writes, as masks: bit k stands for Rk.
ghost use Rattle.std.specs.Prelude.{◌≡◌, ◌<◌};
ghost use Rattle.std.specs.Int.Bits.{bit_or};
ghost use Rattle.word.specs.Word.{pick};
ghost use Rattle.isa.specs.Masks.{reads_destination, reads_of, writes_of};
ghost use Rattle.isa.specs.Layouts.{mask_in};

use crate::layout::Layout;
use kinds::Kind;

#[derive(Clone, Copy)]
pub struct Touched {
    pub reads: u8,
    pub writes: u8,
}

// Rk alone; none where the part has one value only, so that the kind does not use it.
fn register_mask(values: u16, k: u16) -> u8
    requires { k < 8 }
    ensures { result ≡ mask_in values k }
{
    if values == 1 { 0 } else { 1 << k }
}

pub fn touched_by(kind: Kind, w: u16) -> Touched
    ensures { (result.reads ≡ reads_of kind w) × (result.writes ≡ writes_of kind w) }
{
    let m = Layout::of(kind);
    let a = register_mask(m.a, w / 512 % 8);
    let b = register_mask(m.b, w / 64 % 8);
    let d = register_mask(m.d, w / m.weight % 8);
    // It keeps the low byte of the register that it writes.
    let kept = if kind == Kind::Movhi { d } else { 0 };
    Touched {
        reads: a | b | kept,
        writes: d,
    }
}
