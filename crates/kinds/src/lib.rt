// The kinds of instruction and their numbers.
#![tactic(auto)]

ghost use Rattle.std.specs.Prelude.{◌≡◌};
ghost use Rattle.kinds.specs.Kinds.{kind_number, Numbered};

// The 34 kinds of instruction: 25 in the sheet's order, then opcode 11's and opcode 12's.
#[derive(Clone, Copy, Debug, PartialEq, Eq)]
pub enum Kind {
    And,
    Or,
    Xor,
    Not,
    Add,
    Sub,
    Sha,
    Shl,
    Cmplt,
    Cmple,
    Cmpeq,
    Cmpltu,
    Cmpleu,
    Addi,
    Ld,
    St,
    Ldb,
    Stb,
    Jalr,
    Bz,
    Bnz,
    Movi,
    Movhi,
    In,
    Out,
    Mul,
    Mulh,
    Mulhu,
    Div,
    Divu,
    Ei,
    Di,
    Reti,
    Getiid,
}

// How many kinds there are.
pub const COUNT: usize = 34;

// The kind's place in that order, from 0.
impl From<Kind> for u8 {
    ghost from_gives = { λ kind n. n ≡ kind_number kind };

    fn from(kind: Kind) -> u8 {
        kind as u8
    }
}

// The kinds by number.
const KINDS: [Kind; COUNT] = [
    Kind::And,
    Kind::Or,
    Kind::Xor,
    Kind::Not,
    Kind::Add,
    Kind::Sub,
    Kind::Sha,
    Kind::Shl,
    Kind::Cmplt,
    Kind::Cmple,
    Kind::Cmpeq,
    Kind::Cmpltu,
    Kind::Cmpleu,
    Kind::Addi,
    Kind::Ld,
    Kind::St,
    Kind::Ldb,
    Kind::Stb,
    Kind::Jalr,
    Kind::Bz,
    Kind::Bnz,
    Kind::Movi,
    Kind::Movhi,
    Kind::In,
    Kind::Out,
    Kind::Mul,
    Kind::Mulh,
    Kind::Mulhu,
    Kind::Div,
    Kind::Divu,
    Kind::Ei,
    Kind::Di,
    Kind::Reti,
    Kind::Getiid,
];

// A number that no kind has.
#[derive(Clone, Copy, Debug, PartialEq, Eq)]
pub struct UnknownKind(pub u8);

impl TryFrom<u8> for Kind {
    type Error = UnknownKind;

    ghost try_from_gives = { Numbered };

    fn try_from(number: u8) -> Result<Kind, UnknownKind> {
        match KINDS.get(number as usize) {
            Some(kind) => Ok(*kind),
            None => Err(UnknownKind(number)),
        }
    }
}
