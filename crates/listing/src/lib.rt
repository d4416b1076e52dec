// A program listing: the lines that the program `panellist` prints for a trim file.
#![tactic(auto)]

ghost use Rattle.std.specs.Prelude.{◌≡◌, [], ◌∷◌};
ghost use Rattle.refusal.specs.Refusals.{refusal_number, accepted};
ghost use Rattle.machine.specs.declared.Board.TheVariants.{TwoMemories};
ghost use Rattle.image.specs.Image.{file_reply};
ghost use Rattle.report.specs.Printed.{refused_line};
ghost use Rattle.listing.specs.File.{listed_line, word_lines, listing};

use machine::Board;
use printing::Printed;
use refusal::Refusal;

mod text;

// Line k of a listing that is a refusal's line alone.
fn refusal_line(refusal: Refusal, k: usize) -> Option<Printed>
    ensures { result ≡ listed_line (refused_line (refusal_number refusal) ∷ []) k }
{
    if k == 0 {
        Some(report::refused(refusal))
    } else {
        None
    }
}

// Line k of the listing of a file that load takes: that of word k of the program part.
fn word_line(file: &[u8], k: usize) -> Option<Printed>
    requires { accepted ≡ file_reply file.now TwoMemories }
    ensures { result ≡ listed_line (word_lines file.now) k }
{
    let part = image::program_part(file);
    if part.count / 2 <= k {
        return None;
    }
    let word = bus::word_from(file, part.offset + 2 * k);
    Some(text::line_of((2 * k) as u16, word))
}

// Line k, from 0, of the listing of a file; none past the last.
pub fn line_at(file: &[u8], k: usize) -> Option<Printed>
    ensures { result ≡ listed_line (listing file.now) k }
{
    if report::FILE_BYTES < file.len() {
        return refusal_line(Refusal::LongFile, k);
    }
    match image::file_verdict(file, Board::TwoMemories) {
        Ok(()) => word_line(file, k),
        Err(refusal) => refusal_line(refusal, k),
    }
}
