// The calls that people use, on tables of versions 1 to 3: a version 3 table is expanded first, and what is refused on the way is answered; the base call has
// the rest. An older table goes to the base call as it is.
#![tactic(auto)]

ghost use Rattle.std.specs.Prelude.{◌≡◌, true, MatchResult};
ghost use Rattle.nodes.specs.Sorts.{sort_number};
ghost use Rattle.expand.specs.Opens.{has_version3};
ghost use Rattle.calls.specs.Taken.{Taken, Stopped};
ghost use Rattle.calls.specs.Rewrites.{Rewrites};
ghost use Rattle.calls.specs.Judges.{Judges, EndsMatches, PlainJudges};

use encoding::TABLE_BYTES;
use expand::{has_version_3, open};
use judge::MatchEnds;
use judgement::{Judgement, refused};
use nodes::operators::{Sort, sort_number};
use refusal::{Reason, Verdict};
use rewrite::Rewriting;

// The expansion of a version 3 table, in the bytes lent: the table of base operators that stands for it.
fn base_of<'a>(
    table: &[u8],
    wrong: Option<Sort>,
    new: &'a mut [u8; TABLE_BYTES],
) -> Result<&'a [u8], Reason>
    requires { has_version3 table.now ≡ true }
    ensures { MatchResult result (λ base. Taken table.now base.now) (λ reason. Stopped table.now (sort_number wrong) reason) }
{
    let m = open(table, sort_number(wrong), new)?;
    Ok(&new[..4 * m + 6])
}

// Rewriting the clocks of a table away.
pub fn rewrite(table: &[u8], out: &mut [u8]) -> Rewriting
    ensures { Rewrites table.now out.old result out.new }
{
    if !has_version_3(table) {
        return rewrite::rewrite(table, out);
    }
    match base_of(table, None, &mut [0; TABLE_BYTES]) {
        Ok(base) => rewrite::rewrite(base, out),
        Err(reason) => Rewriting::from(Err(reason)),
    }
}

// The level at which the property at the table's root holds on the samples, and whether they test it; the rows are left in the workspace.
pub fn judge(table: &[u8], samples: &[u64], workspace: &mut [u64]) -> Judgement
    ensures { Judges table.now samples.now workspace.old result workspace.new }
{
    if !has_version_3(table) {
        return judge::judge(table, samples, workspace);
    }
    match base_of(table, Some(Sort::Sequence), &mut [0; TABLE_BYTES]) {
        Ok(base) => judge::judge(base, samples, workspace),
        Err(reason) => refused(Verdict::from(reason)),
    }
}

// The match ends of the sequence at the table's root, from a start; the rows are left in the workspace.
pub fn match_ends(table: &[u8], samples: &[u64], start: usize, workspace: &mut [u64]) -> MatchEnds
    ensures { EndsMatches table.now samples.now workspace.old start result workspace.new }
{
    if !has_version_3(table) {
        return judge::match_ends(table, samples, start, workspace);
    }
    match base_of(table, Some(Sort::Property), &mut [0; TABLE_BYTES]) {
        Ok(base) => judge::match_ends(base, samples, start, workspace),
        Err(reason) => MatchEnds::refused(Verdict::from(reason)),
    }
}

// The same level and the same flag by the plain judge, which rewrites nothing and writes to nothing that is lent.
pub fn plain_judge(table: &[u8], samples: &[u64]) -> Judgement
    ensures { PlainJudges table.now samples.now result }
{
    if !has_version_3(table) {
        return plain::plain_judge(table, samples);
    }
    match base_of(table, Some(Sort::Sequence), &mut [0; TABLE_BYTES]) {
        Ok(base) => plain::plain_judge(base, samples),
        Err(reason) => refused(Verdict::from(reason)),
    }
}
