// The table of statements: the kinds' mnemonics in their order, then `.word`, and what stands in the operands of each.
ghost use Rattle.std.specs.Prelude.{◌≡◌, ◌<◌, ◌≤◌, length, get_or};
ghost use Rattle.statement.specs.Syntax.{table, row_at};
ghost use Rattle.statement.specs.Reading.{row_of};
ghost use Rattle.statement.specs.Table.{row_text, mnemonic_lengths, field_of, row_number, RowIs};

use kinds::Kind;

pub const ROWS: usize = 35;

// In the text of the table a row has 12 bytes: six for the mnemonic, six for its operands.
pub const ROW_BYTES: usize = 12;

pub const OPERANDS_AT: usize = 6;

const TABLE_BYTES: usize = 420;

// The text of the table.
pub fn table() -> [u8; TABLE_BYTES]
    ensures { result ≡ row_text }
{
    *b"AND   d,a,b OR    d,a,b XOR   d,a,b NOT   d,a   ADD   d,a,b SUB   d,a,b SHA   d,a,b SHL   d,a,b CMPLT d,a,b CMPLE d,a,b CMPEQ d,a,b CMPLTUd,a,b CMPLEUd,a,b ADDI  d,a,n LD    d,n(a)ST    n(a),bLDB   d,n(a)STB   n(a),bJALR  d,a   BZ    a,n   BNZ   a,n   MOVI  d,n   MOVHI d,n   IN    d,n   OUT   n,a   MUL   d,a,b MULH  d,a,b MULHU d,a,b DIV   d,a,b DIVU  d,a,b EI          DI          RETI        GETIIDd     .word n     "
}

// The bytes of each mnemonic.
const LENGTHS: [u8; ROWS] = [
    3, 2, 3, 3, 3, 3, 3, 3, 5, 5, 5, 6, 6, 4, 2, 2, 3, 3, 4, 2, 3, 4, 5, 2, 3, 3, 4, 5, 3, 4, 2, 2,
    4, 6, 5,
];

pub fn mnemonic_length(row: usize) -> usize
    requires { row < length table }
    ensures { result ≡ get_or mnemonic_lengths row 0 }
{
    LENGTHS[row] as usize
}

// How the value of a row's operand becomes a number: read as signed; MOVI's eight bits; the target of a branch.
#[derive(Clone, Copy, PartialEq, Eq)]
pub enum Field {
    Number,
    EightBits,
    Target,
}

// What the row of a statement stands for: an instruction of a kind, or `.word`.
#[derive(Clone, Copy)]
pub enum Operation {
    Instruction(Kind),
    Word,
}

pub fn field_of(operation: Operation) -> Field
    ensures { field_of result ≡ (row_at (row_number operation)).field }
{
    match operation {
        Operation::Instruction(Kind::Bz) => Field::Target,
        Operation::Instruction(Kind::Bnz) => Field::Target,
        Operation::Instruction(Kind::Movi) => Field::EightBits,
        _ => Field::Number,
    }
}

// What row k stands for.
pub fn operation_at(row: usize) -> Operation
    requires { row < length table }
    ensures { row_number result ≡ row }
{
    match Kind::try_from(row as u8) {
        Ok(kind) => Operation::Instruction(kind),
        Err(_) => Operation::Word,
    }
}

// The place of the row with that mnemonic.
#[tactic(auto, using(crate::proofs::Search::search_steps))]
pub fn row_of(rows: &[u8], word: &[u8]) -> Option<usize>
    requires { rows.now ≡ row_text }
    ensures { RowIs result (row_of word.now) }
{
    for k in 0..ROWS {
        let from = ROW_BYTES * k;
        let to = from + mnemonic_length(k);
        if token::same_bytes(word, &rows[from..to]) {
            return Some(k);
        }
    }
    None
}
