// The file of a case.
ghost use Rattle.std.specs.Prelude.{◌≡◌, ◌<◌, ◌==◌, slice_index};
ghost use Rattle.std.specs.declared.option.Option.TheVariants.{None};
ghost use Rattle.player.specs.declared.file.Sort.TheVariants.{Any};
ghost use Rattle.player.specs.File.{any_w, W, C, damage_of, length_of, header, any_word, loop_word, key_word, store_word, first_locked, last_locked, locked_word, low_port_word, interrupt_f, interrupt_word, enabling_word, knob_word, out_word, addi_word, page_word, program_word, byte_of, file_byte, file_of};

use numbers::number;
use std::array;

// As many bytes as the longest file.
pub type FileBuffer = [u8; 65537];

// The sort of a file, by its program: a case's, one of "Keys", of "The single-memory board", of "Knob interrupts", of "Pages" or of "Locked
// calibration", or one for a table from 128 or from 160 on.
#[derive(Clone, Copy)]
pub enum Sort {
    Any,
    Keys,
    Stores,
    LowPorts,
    Knobs,
    Enabling,
    Pages,
    Locks,
}

// What of a file is damaged.
#[derive(Clone, Copy)]
pub enum Damage {
    Length,
    Words,
    ProgramOffset,
    DataOffset,
}

// The file of a case.
#[derive(Clone, Copy)]
pub struct File {
    pub sort: Sort,
    pub case: u16,
    pub damage: Option<Damage>,
}

impl Damage {
    // How the file of case c is damaged.
    pub fn of_case(c: u16) -> Option<Self>
        ensures { result ≡ damage_of c }
    {
        match number(c, 2) % 16 {
            0 => Some(Self::Length),
            1 => Some(Self::Words),
            2 => Some(Self::ProgramOffset),
            3 => Some(Self::DataOffset),
            _ => None,
        }
    }
}

fn any_words(c: u16) -> u16
    ensures { (result ≡ any_w c) × (result < 201) }
{
    1 + number(c, 0) % 200
}

// W of the page.
fn words(sort: Sort, c: u16) -> u16
    ensures { (result ≡ W sort c) × (result < 201) }
{
    match sort {
        Sort::Any | Sort::LowPorts | Sort::Enabling => any_words(c),
        Sort::Knobs => 136,
        Sort::Keys | Sort::Stores | Sort::Pages | Sort::Locks => 32,
    }
}

// C of the page.
fn bytes(c: u16) -> u16
    ensures { (result ≡ C c) × (result < 300) }
{
    number(c, 1) % 300
}

fn any_word(c: u16, j: u16) -> u16
    requires { j < 200 }
    ensures { result ≡ any_word c j }
{
    let x = number(c, 1000 + j);
    if number(c, 2000 + j) % 16 == 0 {
        x
    } else {
        x / 4096 % 12 * 4096 + x % 4096
    }
}

// The section's own word, or any word; at the end a BZ and a BNZ of R0 to address 0.
fn loop_word(c: u16, j: u16, own: u16) -> u16
    requires { j < 200 }
    ensures { result ≡ loop_word c j own }
{
    match j {
        0..30 if number(c, 4000 + j) % 2 == 0 => own,
        0..30 => any_word(c, j),
        30 => 32993,
        _ => 33248,
    }
}

// The section's own word is an IN of a port from 0 to 3.
fn key_word(c: u16, j: u16) -> u16
    requires { j < 200 }
    ensures { result ≡ key_word c j }
{
    let x = number(c, 1000 + j);
    loop_word(c, j, 40960 + 512 * (x % 8) + x / 8 % 4)
}

// The section's own word is an ST or STB at an address from R0.
fn store_word(c: u16, j: u16) -> u16
    requires { j < 200 }
    ensures { result ≡ store_word c j }
{
    let x = number(c, 1000 + j);
    loop_word(
        c,
        j,
        16384 + 8192 * (x % 2) + 64 * (x / 2 % 8) + x / 16 % 64,
    )
}

// FIRST of the page.
pub fn first_locked(c: u16) -> u16
    ensures { (result ≡ first_locked c) × (result < 32) }
{
    number(c, 8) % 32
}

// LAST of the page.
pub fn last_locked(c: u16) -> u16
    ensures { result ≡ last_locked c }
{
    first_locked(c) + number(c, 9) % 3
}

// The section's own word is an LD, ST, LDB or STB near FIRST, at an address from a register.
fn locked_word(c: u16, j: u16) -> u16
    requires { j < 200 }
    ensures { result ≡ locked_word c j }
{
    let x = number(c, 1000 + j);
    let n = (first_locked(c) + 60 + x / 32 % 8) % 64;
    loop_word(c, j, 12288 + 4096 * (x % 4) + 64 * (x / 4 % 8) + n)
}

fn low_port_word(c: u16, j: u16) -> u16
    requires { j < 200 }
    ensures { result ≡ low_port_word c j }
{
    any_word(c, j) / 256 * 256 + number(c, 4000 + j) % 4
}

// f of an EI, DI or GETIID, by k from 0 to 3.
fn interrupt_f(k: u16) -> u16
    ensures { (result ≡ interrupt_f k) × (result < 4) }
{
    match k {
        2 => 1,
        3 => 3,
        _ => 0,
    }
}

fn interrupt_word(x: u16) -> u16
    ensures { result ≡ interrupt_word x }
{
    49152 + 8 * (x % 8) + interrupt_f(x / 8 % 4)
}

// An EI, DI or GETIID, or any word.
fn enabling_word(c: u16, j: u16) -> u16
    requires { j < 200 }
    ensures { result ≡ enabling_word c j }
{
    if number(c, 4000 + j) % 4 == 0 {
        interrupt_word(number(c, 1000 + j))
    } else {
        any_word(c, j)
    }
}

// The same, but for a BZ and a BNZ of R0 to address 0 and a RETI.
fn knob_word(c: u16, j: u16) -> u16
    requires { j < 200 }
    ensures { result ≡ knob_word c j }
{
    match j {
        30 => 32993,
        31 => 33248,
        135 => 49154,
        _ => enabling_word(c, j),
    }
}

fn out_word(x: u16) -> u16
    ensures { result ≡ out_word x }
{
    41216 + 512 * (x % 8) + x / 8 % 256
}

fn addi_word(x: u16) -> u16
    ensures { result ≡ addi_word x }
{
    8192 + x % 4096
}

// Any word, an OUT or an ADDI; at the end a BZ and a BNZ of R0 to address 0.
fn page_word(c: u16, j: u16) -> u16
    requires { j < 200 }
    ensures { result ≡ page_word c j }
{
    match j {
        0..30 => match number(c, 4000 + j) % 8 {
            0 => any_word(c, j),
            1 => out_word(number(c, 1000 + j)),
            _ => addi_word(number(c, 1000 + j)),
        },
        30 => 32993,
        _ => 33248,
    }
}

// Word j of the program.
fn program_word(sort: Sort, c: u16, j: u16) -> u16
    requires { j < 200 }
    ensures { result ≡ program_word sort c j }
{
    match sort {
        Sort::Any => any_word(c, j),
        Sort::Keys => key_word(c, j),
        Sort::Stores => store_word(c, j),
        Sort::LowPorts => low_port_word(c, j),
        Sort::Knobs => knob_word(c, j),
        Sort::Enabling => enabling_word(c, j),
        Sort::Pages => page_word(c, j),
        Sort::Locks => locked_word(c, j),
    }
}

// Byte i of a number.
fn part(x: u16, i: usize) -> u8
    ensures { result ≡ byte_of x i }
{
    match i {
        0 => (x % 256) as u8,
        1 => (x / 256) as u8,
        _ => 0,
    }
}

impl File {
    // The file of case c, damaged as its numbers say.
    pub fn of_case(c: u16) -> Self
        ensures { result ≡ record { sort = Any; case = c; damage = damage_of c } }
    {
        File {
            sort: Sort::Any,
            case: c,
            damage: Damage::of_case(c),
        }
    }

    // An undamaged file.
    pub fn whole(sort: Sort, c: u16) -> Self
        ensures { result ≡ record { sort = sort; case = c; damage = None } }
    {
        File {
            sort,
            case: c,
            damage: None,
        }
    }

    fn header(self) -> [u16; 4]
        ensures { result ≡ header self.sort self.case self.damage }
    {
        let words = words(self.sort, self.case);
        let mut header = [words, 16, bytes(self.case), 16 + 2 * words];
        match self.damage {
            Some(Damage::Words) => header[0] += 32768,
            Some(Damage::ProgramOffset) => header[1] = 15,
            Some(Damage::DataOffset) => header[3] += 1,
            _ => {}
        }
        header
    }

    // Byte `at`, zero after the end.
    fn byte(self, at: usize) -> u8
        ensures { result ≡ file_byte self.sort self.case self.damage at }
    {
        if at < 16 {
            let header = self.header();
            return part(header[at / 4], at % 4);
        }
        let at = at - 16;
        let program_bytes = 2 * words(self.sort, self.case) as usize;
        if at < program_bytes {
            return part(program_word(self.sort, self.case, (at / 2) as u16), at % 2);
        }
        let at = at - program_bytes;
        if at < bytes(self.case) as usize {
            return (number(self.case, 3000 + at as u16) % 256) as u8;
        }
        0
    }

    // The file, and zeros after it.
    pub fn make(self) -> FileBuffer
        ensures { result ≡ file_of self.sort self.case self.damage }
    {
        array::from_fn(|at| self.byte(at))
    }

    pub fn length(self) -> usize
        ensures { result ≡ length_of self.sort self.case self.damage }
    {
        let whole = 16 + 2 * words(self.sort, self.case) + bytes(self.case);
        match self.damage {
            Some(Damage::Length) => (number(self.case, 3) % whole) as usize,
            _ => whole as usize,
        }
    }
}
