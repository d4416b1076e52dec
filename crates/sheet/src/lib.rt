// A usage sheet: the counts of a show's runs.
#![tactic(auto)]

ghost use Rattle.std.specs.Prelude.{◌≡◌, ◌<◌, length};
ghost use Rattle.refusal.specs.Refusals.{shown_check};
ghost use Rattle.run.specs.Runs.{shown_answer};
ghost use Rattle.sheet.specs.Sheet.{empty, sums, with_run, FeedLeft, feed_by, feed_left};

use refusal::Refusal;
use run::Report;
use usage::Usage;

#[repr(C)]
#[derive(Clone, Copy)]
pub struct Sheet {
    pub kinds: [u64; kinds::COUNT],
    pub taken: u64,
    pub reads: [u64; 8],
    pub writes: [u64; 8],
    pub runs: u16,
}

// What feeding replies: the sheet, which comes back as it was where it is refused, and the reply.
#[derive(Clone, Copy)]
pub struct Fed {
    pub sheet: Sheet,
    pub reply: Result<(), Refusal>,
}

impl Sheet {
    pub fn empty() -> Self
        ensures { result ≡ empty }
    {
        Self {
            kinds: [0; kinds::COUNT],
            taken: 0,
            reads: [0; 8],
            writes: [0; 8],
            runs: 0,
        }
    }
}

// Adds counts place by place.
fn add_counts(counts: &mut [u64], more: &[u64])
    requires { length more.now ≡ length counts.old }
    ensures { counts.new ≡ sums counts.old more.now }
{
    for i in 0..counts.len() {
        counts[i] = counts[i].wrapping_add(more[i]);
    }
}

// The sheet with the counts of an accepted run.
fn with_run(sheet: Sheet, usage: Usage) -> Sheet
    requires { sheet.runs < 65535 }
    ensures { result ≡ with_run sheet usage }
{
    let mut sum = sheet;
    add_counts(&mut sum.kinds, &usage.kinds);
    add_counts(&mut sum.reads, &usage.reads);
    add_counts(&mut sum.writes, &usage.writes);
    sum.taken = sum.taken.wrapping_add(usage.taken);
    sum.runs += 1;
    sum
}

// Feeds the sheet the counts of a run that was accepted or not.
pub fn feed_by(sheet: Sheet, accepted: bool, usage: Usage) -> Fed
    ensures { ◌≡◌ {A = FeedLeft} (record { reply = shown_check result.reply; sheet = result.sheet }) (feed_by accepted sheet usage) }
{
    if !accepted {
        return Fed {
            sheet,
            reply: Ok(()),
        };
    }
    if sheet.runs == u16::MAX {
        return Fed {
            sheet,
            reply: Err(Refusal::FullSheet),
        };
    }
    Fed {
        sheet: with_run(sheet, usage),
        reply: Ok(()),
    }
}

// Feeds the sheet what a run returned.
#[tactic(auto, unfolding(crate::specs::Sheet::feed_left))]
pub fn feed(sheet: Sheet, answer: Result<Report, Refusal>, usage: Usage) -> Fed
    ensures { ◌≡◌ {A = FeedLeft} (record { reply = shown_check result.reply; sheet = result.sheet }) (feed_left sheet (shown_answer answer) usage) }
{
    feed_by(sheet, answer.is_ok(), usage)
}
