// The sheet's lines in the numbers that reading and writing compute with.
ghost use Rattle.std.specs.Prelude.{◌≡◌};
ghost use Rattle.isa.specs.Layouts.{form_of, numbers_of, layout_of, Sound};

use kinds::Kind;

// A bit row of the sheet and how its n is read: a, b and d are the row's registers in their order, x its ignored bits. The
// number holds the word's fixed bits: opcode, e and f.
#[derive(Clone, Copy)]
pub enum Form {
    // a b d f
    Abd(u16),
    // a x d f
    Axd(u16),
    // a d n
    AdSigned(u16),
    // a b n
    AbSigned(u16),
    // a d x
    Adx(u16),
    // a e n
    ASigned(u16),
    AUnsigned(u16),
    // d e n
    DSigned(u16),
    DUnsigned(u16),
    // x x x f
    Xxx(u16),
    // x x d f
    Xxd(u16),
}

// A form in numbers: the fixed bits; how many values a, b and d may have (1 where the part is unused, and so 0);
// the weight of d's lowest bit; how many values n may have, and how many of those are negative.
#[derive(Clone, Copy)]
pub struct Layout {
    pub base: u16,
    pub a: u16,
    pub b: u16,
    pub d: u16,
    pub weight: u16,
    pub size: u16,
    pub negatives: u16,
}

impl Form {
    fn of(kind: Kind) -> Form
        ensures { result ≡ form_of kind }
    {
        match kind {
            Kind::And => Form::Abd(0x0000),
            Kind::Or => Form::Abd(0x0001),
            Kind::Xor => Form::Abd(0x0002),
            Kind::Not => Form::Axd(0x0003),
            Kind::Add => Form::Abd(0x0004),
            Kind::Sub => Form::Abd(0x0005),
            Kind::Sha => Form::Abd(0x0006),
            Kind::Shl => Form::Abd(0x0007),
            Kind::Cmplt => Form::Abd(0x1000),
            Kind::Cmple => Form::Abd(0x1001),
            Kind::Cmpeq => Form::Abd(0x1003),
            Kind::Cmpltu => Form::Abd(0x1004),
            Kind::Cmpleu => Form::Abd(0x1005),
            Kind::Addi => Form::AdSigned(0x2000),
            Kind::Ld => Form::AdSigned(0x3000),
            Kind::St => Form::AbSigned(0x4000),
            Kind::Ldb => Form::AdSigned(0x5000),
            Kind::Stb => Form::AbSigned(0x6000),
            Kind::Jalr => Form::Adx(0x7000),
            Kind::Bz => Form::ASigned(0x8000),
            Kind::Bnz => Form::ASigned(0x8100),
            Kind::Movi => Form::DSigned(0x9000),
            Kind::Movhi => Form::DUnsigned(0x9100),
            Kind::In => Form::DUnsigned(0xA000),
            Kind::Out => Form::AUnsigned(0xA100),
            Kind::Mul => Form::Abd(0xB000),
            Kind::Mulh => Form::Abd(0xB001),
            Kind::Mulhu => Form::Abd(0xB002),
            Kind::Div => Form::Abd(0xB004),
            Kind::Divu => Form::Abd(0xB005),
            Kind::Ei => Form::Xxx(0xC000),
            Kind::Di => Form::Xxx(0xC001),
            Kind::Reti => Form::Xxx(0xC002),
            Kind::Getiid => Form::Xxd(0xC003),
        }
    }

    fn layout(self) -> Layout
        ensures { result ≡ layout_of self }
    {
        match self {
            Form::Abd(base) => numbers(base, 8, 8, 8, 8, 1, 0),
            Form::Axd(base) => numbers(base, 8, 1, 8, 8, 1, 0),
            Form::AdSigned(base) => numbers(base, 8, 1, 8, 64, 64, 32),
            Form::AbSigned(base) => numbers(base, 8, 8, 1, 64, 64, 32),
            Form::Adx(base) => numbers(base, 8, 1, 8, 64, 1, 0),
            Form::ASigned(base) => numbers(base, 8, 1, 1, 512, 256, 128),
            Form::AUnsigned(base) => numbers(base, 8, 1, 1, 512, 256, 0),
            Form::DSigned(base) => numbers(base, 1, 1, 8, 512, 256, 128),
            Form::DUnsigned(base) => numbers(base, 1, 1, 8, 512, 256, 0),
            Form::Xxx(base) => numbers(base, 1, 1, 1, 8, 1, 0),
            Form::Xxd(base) => numbers(base, 1, 1, 8, 8, 1, 0),
        }
    }
}

fn numbers(base: u16, a: u16, b: u16, d: u16, weight: u16, size: u16, negatives: u16) -> Layout
    ensures { result ≡ numbers_of base a b d weight size negatives }
{
    Layout {
        base,
        a,
        b,
        d,
        weight,
        size,
        negatives,
    }
}

impl Layout {
    pub fn of(kind: Kind) -> Layout
        ensures is { result ≡ layout_of (form_of kind) }
        ensures sound { Sound result }
    {
        Form::of(kind).layout()
    }
}
