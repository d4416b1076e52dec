// The lines of a report. The number after `Wrote` is the most bytes that the text can have.
ghost use Rattle.std.specs.Prelude.{◌≡◌, ◌*◌, ◌≤◌, length};
ghost use Rattle.printing.specs.Text.{each};
ghost use Rattle.printing.specs.Writing.{Wrote};
ghost use Rattle.report.specs.Printed.{run_line, out_line, pc_line, register, registers_line, stopped_lines};

use machine::State;
use printing::Printed;
use run::Report;

const SPACE: u8 = b' ';

const LINE_FEED: u8 = b'\n';

fn with_run(text: Printed, report: Report) -> Printed
    ensures { Wrote 67 (run_line report.stop report.steps report.entries) text result }
{
    text.with_word(b"run ")
        .with_decimal(report.stop as u64)
        .with_byte(SPACE)
        .with_decimal(report.steps as u64)
        .with_byte(SPACE)
        .with_decimal(report.entries as u64)
        .with_byte(LINE_FEED)
}

fn with_out(text: Printed, entry: u64) -> Printed
    ensures { Wrote 51 (out_line entry) text result }
{
    text.with_word(b"out ")
        .with_decimal(entry / 16777216)
        .with_byte(SPACE)
        .with_decimal(entry / 65536 % 256)
        .with_byte(SPACE)
        .with_hex((entry % 65536) as u16)
        .with_byte(LINE_FEED)
}

fn with_outs(text: Printed, log: &[u64]) -> Printed
    ensures { Wrote (51 * length log.now) (each out_line log.now) text result }
{
    log.iter().fold(text, |text, entry| with_out(text, *entry))
}

fn with_pc(text: Printed, pc: u16) -> Printed
    ensures { Wrote 8 (pc_line pc) text result }
{
    text.with_word(b"pc ").with_hex(pc).with_byte(LINE_FEED)
}

fn with_register(text: Printed, v: u16) -> Printed
    ensures { Wrote 5 (register v) text result }
{
    text.with_byte(SPACE).with_hex(v)
}

fn with_registers(text: Printed, state: State) -> Printed
    ensures { Wrote 42 (registers_line state.r) text result }
{
    state
        .r
        .iter()
        .fold(text.with_byte(b'r'), |text, v| with_register(text, *v))
        .with_byte(LINE_FEED)
}

// The lines of a run that stopped: its report, the entries that it wrote and the state that it left.
pub fn stopped(report: Report, log: &[u64], state: State) -> Printed
    requires { length log.now ≤ 64 }
    ensures { result ≡ stopped_lines report.stop report.steps report.entries log.now state }
{
    let run = with_run(Printed::empty(), report);
    let outs = with_outs(run, log);
    with_registers(with_pc(outs, state.pc), state)
}
