// The runs of a case.
use crate::calls::Kept;
use crate::{host, sheets};
use machine::State;
use player::lent::{LOG_PLACES, Lent};
use player::print;
use player::runs::{Call, LATE, Reply, Request, kept_after, print_reply};
use replies::SisaRun;
use sisa::{
    sisa_run_by_rules, sisa_run_by_rules_with_journal, sisa_run_by_table,
    sisa_run_by_table_with_journal,
};
use std::io;
use std::io::Write;

#[derive(Clone, Copy)]
pub enum Engine {
    Rules,
    Table,
    Host,
}

impl Engine {
    fn name(self) -> &'static [u8] {
        match self {
            Engine::Rules => b" rules",
            Engine::Table => b" table",
            Engine::Host => b" host",
        }
    }
}

pub fn reply_of(ran: SisaRun) -> Reply {
    Reply {
        state: ran.state,
        refusal: ran.refusal,
        stop: ran.stop,
        steps: ran.steps,
        entries: ran.entries,
    }
}

// The request for a run. A host step is one of budget 1.
fn request_of(engine: Engine, call: Call, kept: State) -> Request {
    let number = call.number(2);
    match engine {
        Engine::Host => Request::of_call(call, kept, 4294967295, (number % 2) as usize),
        _ => Request::of_call(call, kept, LATE, (number % 40) as usize),
    }
}

// The run, with a journal where one is lent. A host step takes none.
pub fn run_request(
    engine: Engine,
    request: Request,
    lent: &mut Lent,
    journal: Option<&mut [u64]>,
) -> SisaRun {
    let state = request.state;
    let budget = request.budget;
    let program = &lent.program;
    let memory = &mut lent.memory[0..request.bytes.min(State::MEMORY_BYTES)];
    let inputs = &mut lent.inputs;
    let outputs = &mut lent.outputs[0..request.ports.min(State::PORTS)];
    let log = &mut lent.log[0..request.places.min(LOG_PLACES)];
    match (engine, journal) {
        (Engine::Rules, None) => {
            sisa_run_by_rules(state, program, memory, inputs, outputs, budget, log)
        }
        (Engine::Rules, Some(journal)) => sisa_run_by_rules_with_journal(
            state, program, memory, inputs, outputs, budget, log, journal,
        ),
        (Engine::Table, None) => {
            sisa_run_by_table(state, program, memory, inputs, outputs, budget, log)
        }
        (Engine::Table, Some(journal)) => sisa_run_by_table_with_journal(
            state, program, memory, inputs, outputs, budget, log, journal,
        ),
        (Engine::Host, _) => host::host_step(state, program, memory, inputs, outputs, log),
    }
}

// The line of a run, up to its usage.
pub fn print_run<W: Write>(
    out: &mut W,
    what: &[u8],
    engine: Engine,
    call: Call,
    ran: SisaRun,
) -> io::Result<()> {
    print::text(out, what)?;
    print::text(out, engine.name())?;
    print_reply(out, call, reply_of(ran))?;
    print::field(out, ran.ticks)?;
    print::field(out, sheets::usage_digest(ran.usage) as u64)
}

// The run, and what it returned fed to the sheet. Answers what the host keeps.
pub fn run<W: Write>(
    out: &mut W,
    engine: Engine,
    call: Call,
    kept: Kept,
    lent: &mut Lent,
) -> io::Result<Kept> {
    let request = request_of(engine, call, kept.state);
    let ran = run_request(engine, request, lent, None);
    print_run(out, b"run", engine, call, ran)?;
    print::left(out, ran.state, lent)?;
    let sheet = sheets::feed(out, call, kept.sheet, ran.refusal, ran.usage)?;
    Ok(Kept {
        state: kept_after(kept.state, reply_of(ran)),
        sheet,
    })
}
