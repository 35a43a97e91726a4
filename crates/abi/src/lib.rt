// The entry points under names that C and Rust call. Each calls the proved function of its own crate, and promises what that function promises.
#![tactic(auto)]

ghost use Rattle.nodes.specs.Operators.{newest};
ghost use Rattle.table.specs.Check.{ChecksTo};
ghost use Rattle.record.specs.Record.{Reads};
ghost use Rattle.expand.specs.Expands.{Expands};
ghost use Rattle.calls.specs.Rewrites.{Rewrites};
ghost use Rattle.calls.specs.Judges.{Judges, EndsMatches, PlainJudges};
ghost use Rattle.line.specs.Program.{Says};

use expand::Expansion;
use judge::MatchEnds;
use judgement::Judgement;
use nodes::operators::NEWEST;
use record::Reading;
use refusal::Verdict;
use rewrite::Rewriting;

// Checking a table.
#[unsafe(no_mangle)]
pub extern "C" fn xistomar_check(table: &[u8]) -> Verdict
    ensures { ChecksTo newest table.now result }
{
    table::check_to(table, NEWEST)
}

// Reading a record.
#[unsafe(no_mangle)]
pub extern "C" fn xistomar_read(record: &[u8], out: &mut [u64]) -> Reading
    ensures { Reads «record».now out.old result out.new }
{
    record::read(record, out)
}

// Expanding the derived operators of a table.
#[unsafe(no_mangle)]
pub extern "C" fn xistomar_expand(table: &[u8], out: &mut [u8]) -> Expansion
    ensures { Expands table.now out.old result out.new }
{
    expand::expand(table, out)
}

// Rewriting the clocks of a table away.
#[unsafe(no_mangle)]
pub extern "C" fn xistomar_rewrite(table: &[u8], out: &mut [u8]) -> Rewriting
    ensures { Rewrites table.now out.old result out.new }
{
    calls::rewrite(table, out)
}

// The judge.
#[unsafe(no_mangle)]
pub extern "C" fn xistomar_judge(table: &[u8], samples: &[u64], workspace: &mut [u64]) -> Judgement
    ensures { Judges table.now samples.now workspace.old result workspace.new }
{
    calls::judge(table, samples, workspace)
}

// The plain judge.
#[unsafe(no_mangle)]
pub extern "C" fn xistomar_plain_judge(table: &[u8], samples: &[u64]) -> Judgement
    ensures { PlainJudges table.now samples.now result }
{
    calls::plain_judge(table, samples)
}

// Match ends.
#[unsafe(no_mangle)]
pub extern "C" fn xistomar_match_ends(
    table: &[u8],
    samples: &[u64],
    start: usize,
    workspace: &mut [u64],
) -> MatchEnds
    ensures { EndsMatches table.now samples.now workspace.old start result workspace.new }
{
    calls::match_ends(table, samples, start, workspace)
}

// The program's line for an input.
#[unsafe(no_mangle)]
pub extern "C" fn xistomar_line(input: &[u8], line: &mut [u8; 19]) -> usize
    ensures { Says input.now line.old result line.new }
{
    line::answer(input, line)
}
