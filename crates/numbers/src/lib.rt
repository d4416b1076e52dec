// The pseudo-random numbers of docs/CONFORMANCE.md.
#![tactic(auto)]

ghost use Rattle.std.specs.Prelude.{◌≡◌};
ghost use Rattle.numbers.specs.Numbers.{number_of, mixed};

const TWO_32: u64 = 4294967296;

fn mixed(t: u32) -> u32
    ensures { result ≡ mixed t }
{
    t ^ (t / 65536)
}

// Number k of case c.
#[tactic(auto, unfolding(crate::specs::Numbers::number_of))]
pub fn number(c: u16, k: u16) -> u16
    ensures { result ≡ number_of c k }
{
    let place = c as u64 * 65536 + k as u64;
    let t = ((place * 2654435761 + 97) % TWO_32) as u32;
    let u = mixed(t) as u64;
    (u * 73244475 % TWO_32 / 65536) as u16
}
