// The line of a word. The number after `Wrote` is the most bytes that the text can have.
ghost use Rattle.std.specs.Prelude.{◌≡◌, ◌+◌, ◌<◌, ◌≤◌, length, take, drop};
ghost use Rattle.isa.specs.Instructions.{shown_reading, read_of};
ghost use Rattle.statement.specs.Table.{item_of, items_of, field_of};
ghost use Rattle.printing.specs.Writing.{Wrote};
ghost use Rattle.listing.specs.Listing.{register_text, number_text, word_text, operand_text, item_text, items_text, instruction_text, text_of, register_in, registers_text, line_text};
ghost use Rattle.listing.specs.Parts.{Registers};

use isa::Instruction;
use itoa::Buffer;
use printing::Printed;
use statement::rows;
use statement::rows::{Field, Operation};

const TAB: u8 = b'\t';

const LINE_FEED: u8 = b'\n';

fn with_register(text: Printed, k: u8) -> Printed
    requires { k < 8 }
    ensures { Wrote 2 (register_text k) text result }
{
    text.with_byte(b'R').with_byte(b'0' + k)
}

fn with_number(text: Printed, n: i16) -> Printed
    ensures { Wrote 21 (number_text n) text result }
{
    text.with_word(Buffer::new().format(n).as_bytes())
}

fn with_value(text: Printed, v: u16) -> Printed
    ensures { Wrote 6 (word_text v) text result }
{
    text.with_word(b"0x").with_hex(v)
}

// The operand for n in a row of that field.
fn with_operand(text: Printed, address: u16, field: Field, n: i16) -> Printed
    ensures { Wrote 21 (operand_text address (field_of field) n) text result }
{
    match field {
        Field::Target => with_value(text, word::target(address, n.cast_unsigned())),
        Field::Number | Field::EightBits => with_number(text, n),
    }
}

// The item that a byte of the table stands for.
fn with_item(text: Printed, item: u8, address: u16, field: Field, i: Instruction) -> Printed
    requires { Registers i }
    ensures { Wrote 21 (item_text address i (field_of field) (item_of item)) text result }
{
    match item {
        b'a' => with_register(text, i.a),
        b'b' => with_register(text, i.b),
        b'd' => with_register(text, i.d),
        b'n' => with_operand(text, address, field, i.n),
        b',' => text.with_word(b", "),
        _ => text.with_byte(item),
    }
}

// The operands that the six bytes of the table at `from` ask for.
fn with_items(
    text: Printed,
    table: &[u8],
    from: usize,
    address: u16,
    field: Field,
    i: Instruction,
) -> Printed
    requires { (from + 6 ≤ length table.now) × Registers i }
    ensures { Wrote 126 (items_text address i (field_of field) (items_of (take 6 (drop from table.now)))) text result }
{
    let mut written = text;
    let mut at = 0;
    while at < 6 {
        let item = table[from + at];
        if item == b' ' {
            return written;
        }
        written = with_item(written, item, address, field, i);
        at += 1;
    }
    written
}

fn with_instruction(text: Printed, address: u16, i: Instruction) -> Printed
    requires { Registers i }
    ensures { Wrote 133 (instruction_text address i) text result }
{
    let kind = i.kind;
    let row = u8::from(kind) as usize;
    let table = rows::table();
    let from = rows::ROW_BYTES * row;
    let to = from + rows::mnemonic_length(row);
    let named = text.with_word(&table[from..to]);
    let operands = from + rows::OPERANDS_AT;
    if table[operands] == b' ' {
        return named;
    }
    with_items(
        named.with_byte(b' '),
        &table,
        operands,
        address,
        rows::field_of(Operation::Instruction(kind)),
        i,
    )
}

fn with_text(text: Printed, address: u16, word: u16, reading: Option<Instruction>) -> Printed
    requires { shown_reading reading ≡ read_of word }
    ensures { Wrote 133 (text_of address word) text result }
{
    match reading {
        Some(i) => with_instruction(text, address, i),
        None => with_value(text.with_word(b".word "), word),
    }
}

// Rk after a space, where the mask has it.
fn with_register_in(text: Printed, mask: u8, k: u8) -> Printed
    requires { k < 8 }
    ensures { Wrote 3 (register_in mask k) text result }
{
    if (mask >> k) % 2 == 1 {
        return with_register(text.with_byte(b' '), k);
    }
    text
}

fn with_registers(text: Printed, mask: u8) -> Printed
    ensures { Wrote 24 (registers_text mask) text result }
{
    (0..8).fold(text, |text, k| with_register_in(text, mask, k))
}

pub fn line_of(address: u16, word: u16) -> Printed
    ensures { result ≡ line_text address word }
{
    let decoded = isa::read(word);
    let reading = decoded.reading;
    let head = Printed::empty()
        .with_hex(address)
        .with_byte(TAB)
        .with_hex(word)
        .with_byte(TAB);
    let named = with_text(head, address, word, reading);
    let read = with_registers(named.with_word(b"\treads"), decoded.reads);
    with_registers(read.with_word(b"\twrites"), decoded.writes).with_byte(LINE_FEED)
}
