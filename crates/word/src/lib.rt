// Arithmetic on 16-bit words: what both engines and the instruction reader share.
#![tactic(auto)]

ghost use Rattle.std.specs.Prelude.{◌≡◌, ◌*◌, ◌<◌};
ghost use Rattle.word.specs.Fields.{N6, N8};
ghost use Rattle.word.specs.Codes.{below6_but};
ghost use Rattle.word.specs.Word.{add, subtract, clear0, SE, shifted, amount, sha, shl, operation, comparison};

pub fn sum(x: u16, y: u16) -> u16
    ensures { result ≡ add x y }
{
    x.wrapping_add(y)
}

pub fn difference(x: u16, y: u16) -> u16
    ensures { result ≡ subtract x y }
{
    x.wrapping_sub(y)
}

pub fn clear_bit0(x: u16) -> u16
    ensures { result ≡ clear0 x }
{
    x / 2 * 2
}

// Sign extension of the low 6 bits of w.
pub fn extend6(w: u16) -> u16
    ensures { result ≡ SE 6 (N6 w) }
{
    let n = w % 64;
    n + n / 32 * 65472
}

// Sign extension of the low 8 bits of w.
pub fn extend8(w: u16) -> u16
    ensures { result ≡ SE 8 (N8 w) }
{
    let n = w % 256;
    n + n / 128 * 65280
}

// PC+2+2·SE(N8), from PC and SE(N8).
pub fn target(pc: u16, offset: u16) -> u16
    ensures { result ≡ add (add pc 2) (offset * 2) }
{
    pc.wrapping_add(2).wrapping_add(offset.wrapping_mul(2))
}

// Where the branch w at pc goes.
pub fn branch_target(pc: u16, w: u16) -> u16
    ensures { result ≡ add (add pc 2) (SE 8 (N8 w) * 2) }
{
    target(pc, extend8(w))
}

// x shifted by the low 5 bits t of y: left by t below 16, else right by 32 - t, where 16 bits `fill` stand above x.
fn shift(fill: u32, x: u16, y: u16) -> u16
    requires { fill < 2 }
    ensures { result ≡ shifted fill x (amount y) }
{
    let t = (y % 32) as u32;
    let low = x as u32;
    let wide = low + fill * 4294901760;
    if t < 16 {
        ((low << t) % 65536) as u16
    } else {
        ((wide >> (32 - t)) % 65536) as u16
    }
}

// Right, the places that come free get bit 15 of x.
pub fn shift_arithmetic(x: u16, y: u16) -> u16
    ensures { result ≡ sha x y }
{
    shift((x / 32768) as u32, x, y)
}

pub fn shift_logical(x: u16, y: u16) -> u16
    ensures { result ≡ shl x y }
{
    shift(0, x, y)
}

// The operations of opcode 0, by f; 0 where f is over 7.
#[tactic(auto, unfolding(crate::specs::Word::operation))]
pub fn operate(f: u16, x: u16, y: u16) -> u16
    ensures { result ≡ operation f x y }
{
    match f {
        0 => x & y,
        1 => x | y,
        2 => x ^ y,
        3 => !x,
        4 => sum(x, y),
        5 => difference(x, y),
        6 => shift_arithmetic(x, y),
        7 => shift_logical(x, y),
        _ => 0,
    }
}

// The comparisons of opcode 1, by f; 0 where f is not one of theirs.
#[tactic(auto, unfolding(crate::specs::Word::comparison), using(crate::proofs::Signed::cast_is))]
pub fn compare(f: u16, x: u16, y: u16) -> u16
    ensures { result ≡ comparison f x y }
{
    match f {
        0 => (x.cast_signed() < y.cast_signed()) as u16,
        1 => (x.cast_signed() <= y.cast_signed()) as u16,
        3 => (x == y) as u16,
        4 => (x < y) as u16,
        5 => (x <= y) as u16,
        _ => 0,
    }
}

// f is below 6 and not the gap: an f of opcode 1 (gap 2) or of opcode 11 (gap 3).
pub fn is_below_6_but(gap: u16, f: u16) -> bool
    ensures { result ≡ below6_but gap f }
{
    f != gap && f < 6
}
