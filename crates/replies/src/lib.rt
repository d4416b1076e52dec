// The structs of the C interface, include/sisa.h, and the replies of the crates that do the work in its numbers.
#![tactic(auto)]

ghost use Rattle.std.specs.Prelude.{◌≡◌, eqb};
ghost use Rattle.refusal.specs.Refusals.{shown_check};
ghost use Rattle.word.specs.Word.{pick};
ghost use Rattle.save.specs.Saved.{shown_saving};
ghost use Rattle.assembler.specs.Passes.{shown_assembly};
ghost use Rattle.run.specs.Runs.{shown_answer};
ghost use Rattle.back.specs.Backs.{shown_going};
ghost use Rattle.isa.specs.Instructions.{shown_writing};
ghost use Rattle.isa.specs.Masks.{shown_decoded};
ghost use Rattle.replies.specs.Sisa.{sisa_load, sisa_saved, sisa_assembly, verdict_number, sisa_run, sisa_instruction, sisa_word, sisa_write, sisa_fed, sisa_back, sisa_raised, sisa_answer, sisa_page};

use assembler::Rejected;
use back::Backed;
use image::Loaded;
use isa::{Decoded, Instruction};
use kinds::Kind;
use machine::State;
use page::{Paged, TrimAnswer, Trims};
use panel::Raised;
use refusal::Refusal;
use run::Counted;
use save::Saved;
use sheet::{Fed, Sheet};
use usage::Usage;

#[repr(C)]
#[derive(Clone, Copy)]
pub struct SisaLoad {
    pub state: State,
    pub refusal: u8,
}

#[repr(C)]
#[derive(Clone, Copy)]
pub struct SisaRun {
    pub state: State,
    pub refusal: u8,
    pub stop: u8,
    pub steps: u32,
    pub entries: u64,
    pub ticks: u64,
    pub usage: Usage,
}

#[repr(C)]
#[derive(Clone, Copy)]
pub struct SisaAnswer {
    pub refusal: u8,
    pub stop: u8,
    pub steps: u32,
    pub entries: u64,
    pub ticks: u64,
    pub usage: Usage,
}

#[repr(C)]
#[derive(Clone, Copy)]
pub struct SisaPage {
    pub trims: Trims,
    pub refusal: u8,
    pub answers: [SisaAnswer; 8],
}

#[repr(C)]
#[derive(Clone, Copy)]
pub struct SisaBack {
    pub state: State,
    pub refusal: u8,
    pub entries: u64,
}

#[repr(C)]
#[derive(Clone, Copy)]
pub struct SisaInstruction {
    pub assigned: u8,
    pub kind: u8,
    pub a: u8,
    pub b: u8,
    pub d: u8,
    pub n: i16,
    pub reads: u8,
    pub writes: u8,
}

#[repr(C)]
#[derive(Clone, Copy)]
pub struct SisaWord {
    pub refusal: u8,
    pub word: u16,
}

#[repr(C)]
#[derive(Clone, Copy)]
pub struct SisaWindow {
    pub start: usize,
    pub count: usize,
}

#[repr(C)]
#[derive(Clone, Copy)]
pub struct SisaSaved {
    pub state: State,
    pub refusal: u8,
    pub length: usize,
}

#[repr(C)]
#[derive(Clone, Copy)]
pub struct SisaFed {
    pub sheet: Sheet,
    pub refusal: u8,
}

#[repr(C)]
#[derive(Clone, Copy)]
pub struct SisaRaised {
    pub state: State,
    pub refusal: u8,
}

#[repr(C)]
#[derive(Clone, Copy)]
pub struct SisaAssembly {
    pub refusal: u8,
    pub line: u32,
    pub words: u32,
}

// The refusal's number, 0 where there is none.
pub fn number(reply: Result<(), Refusal>) -> u8
    ensures { result ≡ verdict_number (shown_check reply) }
{
    match reply {
        Ok(()) => 0,
        Err(refusal) => u8::from(refusal),
    }
}

impl From<Loaded> for SisaLoad {
    ghost from_gives = { λ loaded r. r ≡ sisa_load (shown_check loaded.reply) loaded.state };

    fn from(loaded: Loaded) -> SisaLoad {
        SisaLoad {
            state: loaded.state,
            refusal: number(loaded.reply),
        }
    }
}

impl From<Saved> for SisaSaved {
    ghost from_gives = { λ saved r. r ≡ sisa_saved (shown_saving saved.reply) saved.state };

    fn from(saved: Saved) -> SisaSaved {
        let state = saved.state;
        match saved.reply {
            Ok(length) => SisaSaved {
                state,
                refusal: 0,
                length,
            },
            Err(refusal) => SisaSaved {
                state,
                refusal: u8::from(refusal),
                length: 0,
            },
        }
    }
}

impl From<Result<u32, Rejected>> for SisaAssembly {
    ghost from_gives = { λ assembly r. r ≡ sisa_assembly (shown_assembly assembly) };

    fn from(assembly: Result<u32, Rejected>) -> SisaAssembly {
        match assembly {
            Ok(words) => SisaAssembly {
                refusal: 0,
                line: 0,
                words,
            },
            Err(rejected) => SisaAssembly {
                refusal: u8::from(rejected.refusal),
                line: rejected.line,
                words: 0,
            },
        }
    }
}

impl From<Raised> for SisaRaised {
    ghost from_gives = { λ raised r. r ≡ sisa_raised (shown_check raised.reply) raised.state };

    fn from(raised: Raised) -> SisaRaised {
        SisaRaised {
            state: raised.state,
            refusal: number(raised.reply),
        }
    }
}

impl From<Counted> for SisaRun {
    ghost from_gives = { λ ran r. r ≡ sisa_run (shown_answer ran.answer) ran.state ran.usage ran.ticks };

    fn from(ran: Counted) -> SisaRun {
        let state = ran.state;
        let usage = ran.usage;
        match ran.answer {
            Ok(report) => SisaRun {
                state,
                refusal: 0,
                stop: report.stop,
                steps: report.steps,
                entries: report.entries as u64,
                ticks: ran.ticks,
                usage,
            },
            Err(refusal) => SisaRun {
                state,
                refusal: u8::from(refusal),
                stop: 0,
                steps: 0,
                entries: 0,
                ticks: ran.ticks,
                usage,
            },
        }
    }
}

// A trim's answer, with the page's refusal.
fn answer(refusal: u8, answer: TrimAnswer) -> SisaAnswer
    ensures { result ≡ sisa_answer refusal answer }
{
    SisaAnswer {
        refusal,
        stop: answer.stop,
        steps: answer.steps,
        entries: answer.entries as u64,
        ticks: answer.ticks,
        usage: answer.usage,
    }
}

impl From<Paged> for SisaPage {
    ghost from_gives = { λ paged r. r ≡ sisa_page (shown_check paged.check) paged.trims paged.answers };

    fn from(paged: Paged) -> SisaPage {
        let refusal = number(paged.check);
        let given = paged.answers;
        SisaPage {
            trims: paged.trims,
            refusal,
            answers: [
                answer(refusal, given[0]),
                answer(refusal, given[1]),
                answer(refusal, given[2]),
                answer(refusal, given[3]),
                answer(refusal, given[4]),
                answer(refusal, given[5]),
                answer(refusal, given[6]),
                answer(refusal, given[7]),
            ],
        }
    }
}

impl From<Backed> for SisaBack {
    ghost from_gives = { λ backed r. r ≡ sisa_back (shown_going backed.reply) backed.state };

    fn from(backed: Backed) -> SisaBack {
        let state = backed.state;
        match backed.reply {
            Ok(entries) => SisaBack {
                state,
                refusal: 0,
                entries,
            },
            Err(refusal) => SisaBack {
                state,
                refusal: u8::from(refusal),
                entries: 0,
            },
        }
    }
}

impl From<Decoded> for SisaInstruction {
    ghost from_gives = { λ decoded r. r ≡ sisa_instruction (shown_decoded decoded) };

    fn from(decoded: Decoded) -> SisaInstruction {
        let reads = decoded.reads;
        let writes = decoded.writes;
        match decoded.reading {
            Some(i) => SisaInstruction {
                assigned: 1,
                kind: u8::from(i.kind),
                a: i.a,
                b: i.b,
                d: i.d,
                n: i.n,
                reads,
                writes,
            },
            None => SisaInstruction {
                assigned: 0,
                kind: 0,
                a: 0,
                b: 0,
                d: 0,
                n: 0,
                reads,
                writes,
            },
        }
    }
}

impl From<Result<u16, Refusal>> for SisaWord {
    ghost from_gives = { λ writing r. r ≡ sisa_word (shown_writing writing) };

    fn from(writing: Result<u16, Refusal>) -> SisaWord {
        match writing {
            Ok(word) => SisaWord { refusal: 0, word },
            Err(refusal) => SisaWord {
                refusal: u8::from(refusal),
                word: 0,
            },
        }
    }
}

// The instruction that has these numbers, written. There are 34 kinds.
#[tactic(auto, unfolding(crate::specs::Sisa::sisa_write))]
pub fn write(kind: u8, a: u8, b: u8, d: u8, n: i16) -> SisaWord
    ensures { result ≡ sisa_write kind a b d n }
{
    match Kind::try_from(kind) {
        Ok(kind) => SisaWord::from(isa::write(Instruction { kind, a, b, d, n })),
        Err(_) => SisaWord::from(Err(Refusal::InstructionPart)),
    }
}

impl From<Fed> for SisaFed {
    ghost from_gives = { λ fed r. r ≡ sisa_fed (record { reply = shown_check fed.reply; sheet = fed.sheet }) };

    fn from(fed: Fed) -> SisaFed {
        SisaFed {
            sheet: fed.sheet,
            refusal: number(fed.reply),
        }
    }
}

// A part of a memory: where it starts and how many bytes it has. An empty part starts at 0.
pub fn window(start: usize, count: usize) -> SisaWindow
    ensures { result ≡ pick (eqb count 0) (record { start = 0; count = 0 }) (record { start = start; count = count }) }
{
    if count == 0 {
        SisaWindow { start: 0, count: 0 }
    } else {
        SisaWindow { start, count }
    }
}
