// The plain judge: it reads the clocked table directly, rewrites nothing and writes to nothing that is lent.
#![tactic(auto)]

ghost use Rattle.std.specs.Prelude.{◌≡◌, ◌≤◌, length, MatchResult};
ghost use Rattle.refusal.specs.First.{Answers};
ghost use Rattle.refusal.specs.Heading.{count};
ghost use Rattle.refusal.specs.Reasons.{verdict_of};
ghost use Rattle.conditions.specs.Conditions.{Shaped};
ghost use Rattle.plain.specs.Judges.{plain_refusals, PlainJudges};
ghost use Rattle.plain.specs.Computed.{root_level, RootTold};

use cells::{LONGEST, Span, all_samples};
use conditions::conditions;
use judgement::{Judgement, refused};
use meaning::Level;
use nodes::operators::Sort;
use nodes::sort_at;
use refusal::{Reason, Verdict};
use steps::Told;
use table::checked_base;
use ticking::Ticks;
use walk::property_row;

// The level of the three answers from position 0.
fn level_of(root: Told) -> Level
    ensures { result.number ≡ root_level root }
{
    let holds = root.holds;
    Level::from_answers(holds.strong.has(0), holds.neutral.has(0), holds.weak.has(0))
}

// What the property at the root answers, under no clock: each sample counts.
fn root_told(table: &[u8], samples: &[u64]) -> Told
    requires { Shaped table.now samples.now × (1 ≤ count table.now) }
    ensures { RootTold table.now samples.now result }
{
    let m = usize::from(table[5]);
    let booleans = conditions(table, samples);
    let span = Span { n: samples.len() };
    let clock = Ticks {
        clocked: false,
        at: all_samples(span),
    };
    property_row(table, samples, &booleans, m - 1, clock)
}

// The judgement of a table and a record that are not refused, or the first reason to refuse.
fn judged(table: &[u8], samples: &[u64]) -> Result<Judgement, Reason>
    ensures { MatchResult result (λ r. PlainJudges table.now samples.now r) (λ reason. Answers (plain_refusals table.now (length samples.now)) (verdict_of reason)) }
{
    let m = checked_base(table)?;
    if sort_at(table, m - 1) == Some(Sort::Sequence) {
        return Err(Reason::WrongRoot);
    }
    if samples.len() > LONGEST {
        return Err(Reason::ManySamples);
    }
    let root = root_told(table, samples);
    Ok(Judgement {
        verdict: Verdict::ACCEPTED,
        level: level_of(root),
        tested: root.tested.has(0),
    })
}

// The level at which the property at the table's root holds on the samples, and whether they test it.
pub fn plain_judge(table: &[u8], samples: &[u64]) -> Judgement
    ensures { PlainJudges table.now samples.now result }
{
    match judged(table, samples) {
        Ok(judgement) => judgement,
        Err(reason) => refused(Verdict::from(reason)),
    }
}
