// Which kind a word is, by opcode and then by f or e.
ghost use Rattle.std.specs.Prelude.{◌≡◌};
ghost use Rattle.word.specs.Fields.{opcode, e_of, f_of};
ghost use Rattle.isa.specs.Sheet.{kind_at};

use kinds::Kind;

// Opcode 0 by f.
const OPERATIONS: [Option<Kind>; 8] = [
    Some(Kind::And),
    Some(Kind::Or),
    Some(Kind::Xor),
    Some(Kind::Not),
    Some(Kind::Add),
    Some(Kind::Sub),
    Some(Kind::Sha),
    Some(Kind::Shl),
];

// Opcode 1 by f.
const COMPARISONS: [Option<Kind>; 8] = [
    Some(Kind::Cmplt),
    Some(Kind::Cmple),
    None,
    Some(Kind::Cmpeq),
    Some(Kind::Cmpltu),
    Some(Kind::Cmpleu),
    None,
    None,
];

// Opcode 11 by f.
const MULDIV: [Option<Kind>; 8] = [
    Some(Kind::Mul),
    Some(Kind::Mulh),
    Some(Kind::Mulhu),
    None,
    Some(Kind::Div),
    Some(Kind::Divu),
    None,
    None,
];

// Opcode 12 by f.
const INTERRUPTS: [Option<Kind>; 8] = [
    Some(Kind::Ei),
    Some(Kind::Di),
    Some(Kind::Reti),
    Some(Kind::Getiid),
    None,
    None,
    None,
    None,
];

pub fn kind_of(w: u16) -> Option<Kind>
    ensures { result ≡ kind_at (opcode w) (e_of w) (f_of w) }
{
    let f = (w % 8) as usize;
    let e = w / 256 % 2 == 1;
    match w / 4096 {
        0 => OPERATIONS[f],
        1 => COMPARISONS[f],
        2 => Some(Kind::Addi),
        3 => Some(Kind::Ld),
        4 => Some(Kind::St),
        5 => Some(Kind::Ldb),
        6 => Some(Kind::Stb),
        7 => Some(Kind::Jalr),
        8 => Some(if e { Kind::Bnz } else { Kind::Bz }),
        9 => Some(if e { Kind::Movhi } else { Kind::Movi }),
        10 => Some(if e { Kind::Out } else { Kind::In }),
        11 => MULDIV[f],
        12 => INTERRUPTS[f],
        _ => None,
    }
}
