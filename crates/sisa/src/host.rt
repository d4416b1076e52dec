// The host step, the one function that takes the register state by reference: it calls the run, puts its reply in numbers, stores the
// state and hands on the rest. It does not call sisa_run_by_table, which with a second caller would not be inlined in its export.
ghost use Rattle.replies.specs.Sisa.{HostSteps};

use machine::State;
use replies::{SisaAnswer, SisaRun};

pub fn sisa_host_step(
    state: &mut State,
    program: &[u8],
    memory: &mut [u8],
    inputs: &mut [u16],
    outputs: &mut [u16],
    log: &mut [u64],
) -> SisaAnswer
    ensures { HostSteps state program memory inputs outputs log result }
{
    let counted = engine::run_by_table(*state, program, memory, inputs, outputs, 1, log);
    let ran = SisaRun::from(counted);
    *state = ran.state;
    SisaAnswer {
        refusal: ran.refusal,
        stop: ran.stop,
        steps: ran.steps,
        entries: ran.entries,
        ticks: ran.ticks,
        usage: ran.usage,
    }
}
