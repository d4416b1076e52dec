// The control table: its 32 words, and the word of a table for an instruction word.
#![tactic(auto)]

ghost use Rattle.std.specs.Prelude.{◌≡◌};
ghost use Rattle.control.specs.Control.{table, control_in};

// At opcode times 2 plus e.
pub const CONTROL: [u16; 32] = [
    0x4001, 0x4001, 0x4021, 0x4021, 0x4142, 0x4142, 0x4146, 0x4146, 0x4540, 0x4540, 0x414A, 0x414A,
    0x4940, 0x4940, 0x700E, 0x700E, 0x5000, 0x6000, 0x4263, 0x4283, 0x4013, 0x4C00, 0x40A1, 0x40A1,
    0xC001, 0xC001, 0, 0, 0, 0, 0, 0,
];

// The table, for a run to lend to its steps. (A step that looks into the constant itself builds it anew.)
pub fn control_table() -> [u16; 32]
    ensures { result ≡ table }
{
    CONTROL
}

// The word of a table for an instruction word.
#[tactic(auto, unfolding(crate::specs::Control::control_in))]
pub fn control_of(words: &[u16; 32], w: u16) -> u16
    ensures { result ≡ control_in words.now w }
{
    let at = (w / 4096 * 2 + w / 256 % 2) as usize;
    words[at]
}
