// Products and quotients of words: the operations of opcode 11.
#![tactic(auto)]

ghost use Rattle.std.specs.Prelude.{◌≡◌};
ghost use Rattle.muldiv.specs.Muldiv.{mul, mulh, mulhu, div, divu, muldiv};

pub fn low_product(x: u16, y: u16) -> u16
    ensures { result ≡ mul x y }
{
    x.wrapping_mul(y)
}

pub fn high_product(x: u16, y: u16) -> u16
    ensures { result ≡ mulhu x y }
{
    (u32::from(x) * u32::from(y) / 65536) as u16
}

pub fn high_product_signed(x: u16, y: u16) -> u16
    ensures { result ≡ mulh x y }
{
    let product = i32::from(x.cast_signed()) * i32::from(y.cast_signed());
    (product.cast_unsigned() / 65536) as u16
}

// 0 where y is 0.
pub fn quotient(x: u16, y: u16) -> u16
    ensures { result ≡ divu x y }
{
    if y == 0 { 0 } else { x / y }
}

// 0 where y is 0.
pub fn quotient_signed(x: u16, y: u16) -> u16
    ensures { result ≡ div x y }
{
    if y == 0 {
        0
    } else {
        let q = x.cast_signed().wrapping_div(y.cast_signed());
        q.cast_unsigned()
    }
}

// The operations of opcode 11, by f; 0 where f is not one of theirs.
#[tactic(auto, unfolding(crate::specs::Muldiv::muldiv))]
pub fn compute(f: u16, x: u16, y: u16) -> u16
    ensures { result ≡ muldiv f x y }
{
    match f {
        0 => low_product(x, y),
        1 => high_product_signed(x, y),
        2 => high_product(x, y),
        4 => quotient_signed(x, y),
        5 => quotient(x, y),
        _ => 0,
    }
}
