// What a trim's runs report, added up.
ghost use Rattle.std.specs.Prelude.{◌≡◌};
ghost use Rattle.usage.specs.Usage.{plus_counts, plus_usage};
ghost use Rattle.run.specs.Runs.{shown_answer};
ghost use Rattle.page.specs.Pages.{report_of};
ghost use Rattle.page.specs.Parts.{FewCounts, Addable};

use refusal::Refusal;
use run::Report;
use usage::Usage;

// Adds counts place by place.
fn add_counts(counts: &mut [u64], more: &[u64])
    requires { Addable counts.old more.now }
    ensures { counts.new ≡ plus_counts counts.old more.now }
{
    for (i, count) in counts.iter_mut().enumerate() {
        *count += more[i];
    }
}

pub fn add_usage(usage: Usage, more: Usage) -> Usage
    requires few_counts { FewCounts usage }
    requires few_counts_2 { FewCounts more }
    ensures { result ≡ plus_usage usage more }
{
    let mut sum = usage;
    sum.taken += more.taken;
    add_counts(&mut sum.kinds, &more.kinds);
    add_counts(&mut sum.reads, &more.reads);
    add_counts(&mut sum.writes, &more.writes);
    sum
}

// What a run reports; one that is refused reports nothing.
pub fn report_of(answer: Result<Report, Refusal>) -> Report
    ensures { result ≡ report_of (shown_answer answer) }
{
    match answer {
        Ok(report) => report,
        Err(_) => Report {
            stop: 0,
            steps: 0,
            entries: 0,
        },
    }
}
