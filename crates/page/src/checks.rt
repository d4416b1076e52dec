// The refusals of a page.
ghost use Rattle.std.specs.Prelude.{◌≡◌, List, [], ℕ};
ghost use Rattle.refusal.specs.Refusals.{shown_check};
ghost use Rattle.page.specs.Pages.{page_of, page_verdict};
ghost use Rattle.page.specs.Parts.{in_order, Whole};

use crate::Trims;
use machine::State;
use refusal::Refusal;

// Trim by trim, the first that is refused decides.
fn checked_in_order(
    trims: Trims,
    count: usize,
    programs: &[u8],
    memories: &[u8],
    inputs: &[u16],
    outputs: &[u16],
    budget: u32,
) -> Result<(), Refusal>
    requires { Whole count programs.now memories.now inputs.now outputs.now }
    ensures { shown_check result ≡ in_order (page_of trims.states count programs.now memories.now inputs.now outputs.now budget []) }
{
    let states = trims.states;
    for i in 0..count {
        let a = i * State::MEMORY_BYTES;
        let e = a + State::MEMORY_BYTES;
        let p = i * State::PORTS;
        let q = p + State::PORTS;
        run::checked(
            states[i],
            &programs[a..e],
            &memories[a..e],
            &inputs[p..q],
            &outputs[p..q],
            budget,
        )?;
    }
    Ok(())
}

// The refusals of a page, in their order.
pub fn checked(
    trims: Trims,
    count: u8,
    programs: &[u8],
    memories: &[u8],
    inputs: &[u16],
    outputs: &[u16],
    budget: u32,
) -> Result<(), Refusal>
    ensures { (log : List ℕ) → shown_check result ≡ page_verdict (page_of trims.states count programs.now memories.now inputs.now outputs.now budget log) }
{
    if count == 0 {
        return Err(Refusal::TrimCount);
    }
    if 8 < count {
        return Err(Refusal::TrimCount);
    }
    let n = count as usize;
    if programs.len() != n * State::MEMORY_BYTES {
        return Err(Refusal::LentLength);
    }
    if memories.len() != n * State::MEMORY_BYTES {
        return Err(Refusal::LentLength);
    }
    if inputs.len() != n * State::PORTS {
        return Err(Refusal::LentLength);
    }
    if outputs.len() != n * State::PORTS {
        return Err(Refusal::LentLength);
    }
    checked_in_order(trims, n, programs, memories, inputs, outputs, budget)
}
