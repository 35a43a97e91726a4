// Rewriting clocks away: refusals first, all before the first write, and then the new table.
#![tactic(auto)]

ghost use Rattle.std.specs.Prelude.{◌≡◌, replicate, None};
ghost use Rattle.rewrite.specs.Rewrites.{Rewrites};
ghost use Rattle.rewrite.specs.Computed.{rewriting_by, renumbered, Renumbers};

use clocks::clocks_of;
use nodes::SLOTS;
use numbers::{counts_of, numbers_of};
use refusal::{Reason, Verdict};
use table::checked_base;
use writing::put_table;

// The nodes that a table may have.
const MOST: usize = 120;

// What rewriting answers: the verdict, and m, the count of new nodes.
#[repr(C)]
#[derive(Clone, Copy)]
pub struct Rewriting {
    pub verdict: Verdict,
    pub count: usize,
}

impl From<Result<usize, Reason>> for Rewriting {
    ghost from_gives = { λ rewritten r. r ≡ rewriting_by rewritten };

    // A refusal counts no node.
    fn from(rewritten: Result<usize, Reason>) -> Rewriting {
        match rewritten {
            Ok(count) => Rewriting {
                verdict: Verdict::ACCEPTED,
                count,
            },
            Err(reason) => Rewriting {
                verdict: Verdict::from(reason),
                count: 0,
            },
        }
    }
}

// Refusals 1 to 9, 13 and 15, the first that applies; with none, the rewritten table in the first bytes of `out`, the count of its nodes, and what it made of
// each node: its clock, in places that are lent with none, and its new number.
pub fn rewrite_numbered(
    b: &[u8],
    out: &mut [u8],
    clocks: &mut [Option<u8>; SLOTS],
    numbers: &mut [u8; SLOTS],
) -> Result<usize, Reason>
    requires { clocks.old ≡ replicate 121 None }
    ensures { Renumbers b.now out.old (renumbered (rewriting_by result) clocks.new numbers.new) out.new }
{
    checked_base(b)?;
    clocks_of(b, clocks);
    let counts = counts_of(b, clocks);
    if MOST < counts.all {
        return Err(Reason::ManyNodes);
    }
    if out.len() < 4 * counts.all + 6 {
        return Err(Reason::SmallOutput);
    }
    numbers_of(b, clocks, counts, numbers);
    put_table(b, clocks, numbers, counts, out);
    Ok(counts.all)
}

// Rewriting alone.
pub fn rewrite(b: &[u8], out: &mut [u8]) -> Rewriting
    ensures { Rewrites b.now out.old result out.new }
{
    let mut clocks = [None; SLOTS];
    let mut numbers = [0; SLOTS];
    Rewriting::from(rewrite_numbered(b, out, &mut clocks, &mut numbers))
}
