// The register state, memories and ports of the SISA trim processor.
#![tactic(auto)]

ghost use Rattle.std.specs.Prelude.{◌≡◌, ◌+◌, ◌-◌, ◌%◌, ◌<◌, eqb};
ghost use Rattle.word.specs.Fields.{a_of, b_of};
ghost use Rattle.word.specs.Word.{pick, add};
ghost use Rattle.machine.specs.Stops.{stop_number};
ghost use Rattle.machine.specs.Machine.{reset, R, put_r, put_pc, put_n, put_journaled, count, board_number, board_of, reset_on, lowest_line, with_line, without_line, takes_line, line_taken_by, put_locked, is_locked, touches_locked, bytes_at, fetch_locked, even_places, put_enabled, put_pending, put_taken};

// R0 to R7, PC, n, the count of steps done, the count of journal entries, and the board: 0 with two memories, any other number the
// single-memory one. Then interrupts: enabled where it is not 0, a pending byte with bit k for line k, the number of the line last taken and the
// address to return to. Then the locked range of data memory, first to last, none where `locked` is 0.
#[repr(C)]
#[derive(Clone, Copy, Debug, PartialEq, Eq)]
pub struct State {
    pub r: [u16; 8],
    pub pc: u16,
    pub n: u32,
    pub journaled: u64,
    pub board: u8,
    pub enabled: u8,
    pub pending: u8,
    pub line: u8,
    pub return_address: u16,
    pub locked: u8,
    pub first_locked: u16,
    pub last_locked: u16,
}

// The board that a load names: instructions are fetched from program memory, or from data memory, the only one.
#[derive(Clone, Copy, Debug, PartialEq, Eq)]
pub enum Board {
    TwoMemories,
    SingleMemory,
}

impl From<Board> for u8 {
    ghost from_gives = { λ board number. number ≡ board_number board };

    fn from(board: Board) -> u8 {
        match board {
            Board::TwoMemories => 0,
            Board::SingleMemory => 1,
        }
    }
}

// The board that a number names: 0 the one with two memories, any other the single-memory one.
impl From<u8> for Board {
    ghost from_gives = { λ number board. board ≡ board_of number };

    fn from(number: u8) -> Board {
        match number {
            0 => Board::TwoMemories,
            _ => Board::SingleMemory,
        }
    }
}

// Why a word is not stepped.
#[derive(Clone, Copy, Debug, PartialEq, Eq)]
pub enum Stop {
    Unassigned,
    FullLog,
    ZeroDivisor,
    LockedByte,
}

impl From<Stop> for u8 {
    ghost from_gives = { λ stop n. n ≡ stop_number stop };

    fn from(stop: Stop) -> u8 {
        match stop {
            Stop::Unassigned => 1,
            Stop::FullLog => 2,
            Stop::ZeroDivisor => 3,
            Stop::LockedByte => 4,
        }
    }
}

// Ra and Rb of an instruction word: x is Ra, y is Rb.
#[derive(Clone, Copy, Debug, PartialEq, Eq)]
pub struct Sources {
    pub x: u16,
    pub y: u16,
}

// A port number.
#[derive(Clone, Copy, Debug, PartialEq, Eq)]
pub struct Port(pub u8);

// An address of data memory.
#[derive(Clone, Copy, Debug, PartialEq, Eq)]
pub struct Address(pub u16);

fn choose(d: u16, i: u16, v: u16, old: u16) -> u16
    ensures { result ≡ pick (eqb d i) v old }
{
    if d == i { v } else { old }
}

// A pending byte without its lowest line.
fn without_lowest(pending: u8) -> u8
    requires { 0 < pending }
    ensures { result ≡ without_line (lowest_line pending) pending }
{
    pending & (pending - 1)
}

impl State {
    // The bytes of a memory, and the words of an array of ports.
    pub const MEMORY_BYTES: usize = 65536;

    pub const PORTS: usize = 256;

    pub fn reset() -> Self
        ensures { result ≡ reset }
    {
        Self::reset_on(Board::TwoMemories)
    }

    // The reset state of a board.
    pub fn reset_on(board: Board) -> Self
        ensures { result ≡ reset_on board }
    {
        Self {
            r: [0; 8],
            pc: 0,
            n: 0,
            journaled: 0,
            board: u8::from(board),
            enabled: 0,
            pending: 0,
            line: 0,
            return_address: 0,
            locked: 0,
            first_locked: 0,
            last_locked: 0,
        }
    }

    // Register k modulo 8.
    pub fn register(self, k: u16) -> u16
        ensures { result ≡ R self (k % 8) }
    {
        let i = (k % 8) as usize;
        self.r[i]
    }

    // Ra of the instruction word w.
    pub fn ra(self, w: u16) -> u16
        ensures { result ≡ R self (a_of w) }
    {
        self.register(w / 512)
    }

    // Rb of the instruction word w.
    pub fn rb(self, w: u16) -> u16
        ensures { result ≡ R self (b_of w) }
    {
        self.register(w / 64)
    }

    // Both, from one copy of the registers.
    pub fn sources(self, w: u16) -> Sources
        ensures { (result.x ≡ R self (a_of w)) × (result.y ≡ R self (b_of w)) }
    {
        let r = self.r;
        let a = (w / 512 % 8) as usize;
        let b = (w / 64 % 8) as usize;
        Sources { x: r[a], y: r[b] }
    }

    // Register k modulo 8 becomes v. (Choosing each element is faster than a store at an index that is not known.)
    pub fn with_register(self, k: u16, v: u16) -> Self
        ensures { result ≡ put_r (k % 8) v self }
    {
        let d = k % 8;
        let r = self.r;
        let written = [
            choose(d, 0, v, r[0]),
            choose(d, 1, v, r[1]),
            choose(d, 2, v, r[2]),
            choose(d, 3, v, r[3]),
            choose(d, 4, v, r[4]),
            choose(d, 5, v, r[5]),
            choose(d, 6, v, r[6]),
            choose(d, 7, v, r[7]),
        ];
        State { r: written, ..self }
    }

    // (A whole literal: a `mut self` would move the struct's padding along.)
    pub fn with_pc(self, v: u16) -> Self
        ensures { result ≡ put_pc v self }
    {
        State { pc: v, ..self }
    }

    // One step more is done.
    pub fn counted(self) -> Self
        requires { self.n < 4294967295 }
        ensures { result ≡ count self }
    {
        self.with_n(self.n + 1)
    }

    // PC+2, and one step more is done.
    pub fn advanced(self) -> Self
        requires { self.n < 4294967295 }
        ensures { result ≡ put_pc (add self.pc 2) (count self) }
    {
        self.counted().with_pc(word::sum(self.pc, 2))
    }

    pub fn with_n(self, v: u32) -> Self
        ensures { result ≡ put_n v self }
    {
        State { n: v, ..self }
    }

    // PC is v, and one step less is done.
    pub fn retreated(self, v: u16) -> Self
        ensures { result ≡ put_pc v (put_n (self.n - 1) self) }
    {
        self.with_n(self.n.saturating_sub(1)).with_pc(v)
    }

    pub fn with_journaled(self, v: u64) -> Self
        ensures { result ≡ put_journaled v self }
    {
        State {
            journaled: v,
            ..self
        }
    }

    // A line is to be taken (02, L12). `&` makes both tests, so that the answer has no branch.
    pub fn takes_line(self) -> bool
        ensures { result ≡ takes_line self }
    {
        (self.enabled != 0) & (self.pending != 0)
    }

    // PC and the return address are even; no branch either.
    pub fn is_even(self) -> bool
        ensures { result ≡ even_places self }
    {
        (self.pc % 2 == 0) & (self.return_address % 2 == 0)
    }

    // A byte of data memory is locked (02, L14).
    pub fn locks_byte(self, address: u16) -> bool
        ensures { result ≡ is_locked address self }
    {
        (self.locked != 0) & (self.first_locked <= address) & (address <= self.last_locked)
    }

    // A byte of the word at an address is.
    pub fn locks_word(self, address: u16) -> bool
        ensures { result ≡ touches_locked (bytes_at address) self }
    {
        self.locks_byte(address) | self.locks_byte(word::sum(address, 1))
    }

    // The fetch touches a locked byte.
    pub fn locks_fetch(self) -> bool
        ensures { result ≡ fetch_locked self }
    {
        (self.board != 0) & self.locks_word(self.pc)
    }

    // The locked range.
    pub fn with_locked(self, locked: u8, first_locked: u16, last_locked: u16) -> Self
        ensures { result ≡ put_locked locked first_locked last_locked self }
    {
        State {
            locked,
            first_locked,
            last_locked,
            ..self
        }
    }

    // The lowest pending line; 8 where none is pending.
    pub fn lowest_line(self) -> u8
        ensures { result ≡ lowest_line self.pending }
    {
        u8::trailing_zeros(self.pending) as u8
    }

    // The lowest pending line is taken, and one step more is done.
    pub fn line_taken(self) -> Self
        requires { (self.n < 4294967295) × (0 < self.pending) }
        ensures { result ≡ count (line_taken_by self) }
    {
        let r = self.r;
        let line = self.lowest_line();
        let pending = without_lowest(self.pending);
        State {
            pc: 0x0100,
            n: self.n + 1,
            enabled: 0,
            pending,
            line,
            return_address: self.pc,
            ..self
        }
    }

    pub fn with_enabled(self, v: u8) -> Self
        ensures { result ≡ put_enabled v self }
    {
        State { enabled: v, ..self }
    }

    pub fn with_pending(self, v: u8) -> Self
        ensures { result ≡ put_pending v self }
    {
        State { pending: v, ..self }
    }

    // The line's bit is set, set or not before.
    pub fn with_line(self, line: u8) -> Self
        requires { line < 8 }
        ensures { result ≡ put_pending (with_line line self.pending) self }
    {
        self.with_pending(self.pending | (1 << line))
    }

    // The line number and the return address.
    pub fn with_taken(self, line: u8, return_address: u16) -> Self
        ensures { result ≡ put_taken line return_address self }
    {
        State {
            line,
            return_address,
            ..self
        }
    }
}
