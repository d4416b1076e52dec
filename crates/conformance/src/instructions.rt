// Reading and writing instructions.
use crate::calls::start_line;
use player::print;
use player::runs::Call;
use replies::{SisaInstruction, SisaWord};
use std::io;
use std::io::Write;
use std::num::{wrapping_add_u8, wrapping_add_u16};

fn print_read<W: Write>(out: &mut W, read: SisaInstruction) -> io::Result<()> {
    let numbers = [
        read.assigned as u64,
        read.kind as u64,
        read.a as u64,
        read.b as u64,
        read.d as u64,
        read.n.cast_unsigned() as u64,
        read.reads as u64,
        read.writes as u64,
    ];
    print::fields(out, &numbers)
}

fn print_written<W: Write>(out: &mut W, written: SisaWord) -> io::Result<()> {
    print::field(out, written.refusal as u64)?;
    print::last_field(out, written.word as u64)
}

// What is written after an assigned word was read.
fn changed(read: SisaInstruction, change: u16) -> SisaInstruction {
    match change {
        0 => SisaInstruction {
            a: wrapping_add_u8(read.a, 8),
            ..read
        },
        1 => SisaInstruction {
            b: wrapping_add_u8(read.b, 1),
            ..read
        },
        2 => SisaInstruction {
            d: wrapping_add_u8(read.d, 1),
            ..read
        },
        3 => SisaInstruction {
            n: wrapping_add_u16(read.n.cast_unsigned(), 64).cast_signed(),
            ..read
        },
        _ => read,
    }
}

fn written(instruction: SisaInstruction) -> SisaWord {
    let SisaInstruction {
        kind,
        a,
        b,
        d,
        n,
        ..
    } = instruction;
    sisa::sisa_write(kind, a, b, d, n)
}

pub fn read_and_write<W: Write>(out: &mut W, call: Call) -> io::Result<()> {
    let read = sisa::sisa_read(call.number(1));
    start_line(out, b"instruction", call)?;
    print_read(out, read)?;
    if read.assigned == 1 {
        print_written(out, written(changed(read, call.number(2) % 8)))
    } else {
        let kind = (call.number(3) % 40) as u8;
        print_written(out, sisa::sisa_write(kind, 0, 0, 0, 0))
    }
}
