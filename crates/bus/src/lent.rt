// What a step is lent: data memory and ports, and the log of port writes.
ghost use Rattle.std.specs.Prelude.{◌≡◌, ◌≤◌, length};

// Data memory and ports, of their lengths.
#[derive(Drop)]
pub struct Bus<'a> {
    pub memory: &'a mut [u8],
    pub inputs: &'a mut [u16],
    pub outputs: &'a mut [u16],
    ghost lengths: { (length memory.now ≡ 65536) × (length inputs.now ≡ 256) × (length outputs.now ≡ 256) },
}

// The log, whose entries stand at its first places.
#[derive(Drop)]
pub struct Log<'a> {
    pub places: &'a mut [u64],
    pub entries: usize,
    ghost filled: { entries ≤ length places.now },
}
