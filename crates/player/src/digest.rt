// Digests.
ghost use Rattle.std.specs.Prelude.{◌≡◌, ℕ, List, [], ◌∷◌, refl};
ghost use Rattle.player.specs.Digest.{taken_in, digest_from, halves, state_numbers, lent_numbers, digest_of_left};

use crate::lent::Lent;
use machine::State;

fn taken(digest: u32, x: u32) -> u32
    ensures { result ≡ taken_in digest x }
{
    ((digest as u64 * 16777619 + x as u64 + 1) % 4294967296) as u32
}

// A number of a memory, of ports or of a log.
pub trait Number: Copy {
    // The numbers under 2^32 that a list of such gives.
    ghost numbers: { List Self → List ℕ };

    fn taken_in(self, digest: u32) -> u32
        ensures { (xs : List Self) → digest_from result (numbers xs) ≡ digest_from digest (numbers (self ∷ xs)) };

    ghost none: { numbers [] ≡ [] };
}

impl Number for u8 {
    ghost numbers = { λ xs. xs };

    ghost none = { refl };

    fn taken_in(self, digest: u32) -> u32 {
        taken(digest, self as u32)
    }
}

impl Number for u16 {
    ghost numbers = { λ xs. xs };

    ghost none = { refl };

    fn taken_in(self, digest: u32) -> u32 {
        taken(digest, self as u32)
    }
}

// A place of a log gives two halves.
impl Number for u64 {
    ghost numbers = { halves };

    ghost none = { refl };

    fn taken_in(self, digest: u32) -> u32 {
        let low = (self % 4294967296) as u32;
        let high = (self / 4294967296) as u32;
        taken(taken(digest, low), high)
    }
}

// The digest, with each number of a part taken in.
pub fn all<T: Number>(digest: u32, part: &[T]) -> u32
    ensures { result ≡ digest_from digest (T.numbers part.now) }
{
    let mut after = digest;
    for x in part {
        after = x.taken_in(after);
    }
    after
}

// The digest, with R0 to R7, PC and n of a state taken in.
pub fn registers(digest: u32, state: State) -> u32
    ensures { result ≡ digest_from digest (state_numbers state) }
{
    let r = state.r;
    taken(taken(all(digest, &r), state.pc as u32), state.n)
}

// The digest, with memories, ports and log taken in.
pub fn lent(
    digest: u32,
    program: &[u8],
    memory: &[u8],
    inputs: &[u16],
    outputs: &[u16],
    log: &[u64],
) -> u32
    ensures { result ≡ digest_from digest (lent_numbers program.now memory.now inputs.now outputs.now log.now) }
{
    let after = all(digest, program);
    let after = all(after, memory);
    let after = all(after, inputs);
    let after = all(after, outputs);
    all(after, log)
}

// The digest of what is left.
pub fn of_all(state: State, left: &Lent) -> u32
    ensures { result ≡ digest_of_left state left.now }
{
    lent(
        registers(0, state),
        &left.program,
        &left.memory,
        &left.inputs,
        &left.outputs,
        &left.log,
    )
}
