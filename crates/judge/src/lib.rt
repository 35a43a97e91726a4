// The judge and match ends: refusals first, all before the first write, and then the rows of the rewritten table and what is read off them.
#![tactic(auto)]

ghost use Rattle.std.specs.Prelude.{◌≡◌, replicate, None};
ghost use Rattle.nodes.specs.Sorts.{sort_number};
ghost use Rattle.rewrite.specs.Computed.{renumbered};
ghost use Rattle.settling.specs.Computed.{settled_by};
ghost use Rattle.judge.specs.Judges.{Judges, EndsMatches};
ghost use Rattle.judge.specs.Computed.{NoEnds, Lays};

use cells::{Span, TOP_WORD, word_at};
use encoding::TABLE_BYTES;
use judgement::{Judgement, refused};
use nodes::SLOTS;
use nodes::operators::{Sort, sort_number};
use positions::PositionSet;
use readout::level_of;
use refusal::Verdict;
use rows::fill;
use settling::{Unsettled, settle};
use tested::tested;

// What match ends answers: the ends of the matches from the start, and whether the samples from there on, followed by one or more ⊤, match.
#[repr(C)]
#[derive(Clone, Copy)]
pub struct MatchEnds {
    pub verdict: Verdict,
    pub mask: PositionSet,
    pub top: bool,
}

impl MatchEnds {
    // A refusal answers no end.
    pub fn refused(verdict: Verdict) -> MatchEnds
        ensures { NoEnds verdict result }
    {
        MatchEnds {
            verdict,
            mask: PositionSet::empty(),
            top: false,
        }
    }
}

// Settles a call, where `wrong` is the sort that the root must not have; with no refusal, leaves the rows of the rewritten table in the workspace, that table
// in the first bytes of `new`, and the clock and the new number of each node, and answers the count of new nodes.
fn lay(
    table: &[u8],
    wrong: Option<Sort>,
    samples: &[u64],
    start: usize,
    ws: &mut [u64],
    new: &mut [u8; TABLE_BYTES],
    clocks: &mut [Option<u8>; SLOTS],
    numbers: &mut [u8; SLOTS],
) -> Result<usize, Unsettled>
    requires { clocks.old ≡ replicate 121 None }
    ensures { Lays table.now (sort_number wrong) samples.now start ws.old new.old (renumbered (settled_by result) clocks.new numbers.new) new.new ws.new }
{
    let m = settle(
        table,
        sort_number(wrong),
        samples.len(),
        start,
        ws.len(),
        new,
        clocks,
        numbers,
    )?;
    let used = 4 * m + 6;
    fill(&new[..used], samples, ws, m);
    Ok(m)
}

// The level at which the property at the table's root holds on the samples, and whether they test it; the rows are left in the workspace.
pub fn judge(table: &[u8], samples: &[u64], workspace: &mut [u64]) -> Judgement
    ensures { Judges table.now samples.now workspace.old result workspace.new }
{
    let mut new = [0; TABLE_BYTES];
    let mut clocks = [None; SLOTS];
    let mut numbers = [0; SLOTS];
    let wrong = Some(Sort::Sequence);
    let m = match lay(
        table,
        wrong,
        samples,
        0,
        workspace,
        &mut new,
        &mut clocks,
        &mut numbers,
    ) {
        Ok(m) => m,
        Err(unsettled) => return refused(Verdict::from(unsettled.reason)),
    };
    let span = Span { n: samples.len() };
    let tests = tested(table, &clocks, &numbers, workspace, span);
    Judgement {
        verdict: Verdict::ACCEPTED,
        level: level_of(workspace, m - 1),
        tested: tests,
    }
}

// The match ends of the sequence at the table's root, from a start; the rows are left in the workspace.
pub fn match_ends(table: &[u8], samples: &[u64], start: usize, workspace: &mut [u64]) -> MatchEnds
    ensures { EndsMatches table.now samples.now workspace.old start result workspace.new }
{
    let mut new = [0; TABLE_BYTES];
    let mut clocks = [None; SLOTS];
    let mut numbers = [0; SLOTS];
    let wrong = Some(Sort::Property);
    let m = match lay(
        table,
        wrong,
        samples,
        start,
        workspace,
        &mut new,
        &mut clocks,
        &mut numbers,
    ) {
        Ok(m) => m,
        Err(unsettled) => return MatchEnds::refused(Verdict::from(unsettled.reason)),
    };
    let root = m - 1;
    MatchEnds {
        verdict: Verdict::ACCEPTED,
        mask: word_at(workspace, root, start),
        top: word_at(workspace, root, TOP_WORD).has(start),
    }
}
