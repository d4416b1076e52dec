// The host step by value: it lends a state, as a C host does, and hands back what there is then.
use machine::State;
use replies::SisaRun;

pub fn host_step(
    state: State,
    program: &[u8],
    memory: &mut [u8],
    inputs: &mut [u16],
    outputs: &mut [u16],
    log: &mut [u64],
) -> SisaRun {
    let mut state = state;
    let answer = sisa::host::sisa_host_step(&mut state, program, memory, inputs, outputs, log);
    SisaRun {
        state,
        refusal: answer.refusal,
        stop: answer.stop,
        steps: answer.steps,
        entries: answer.entries,
        ticks: answer.ticks,
        usage: answer.usage,
    }
}
