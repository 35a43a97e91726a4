// What the judge and match ends refuse, and what they need of the table: both are settled here, before anything is written.
#![tactic(auto)]

ghost use Rattle.std.specs.Prelude.{◌≡◌, replicate, None};
ghost use Rattle.rewrite.specs.Computed.{renumbered};
ghost use Rattle.settling.specs.Computed.{uncounted, settled_by, Settles};

use cells::{LONGEST, SHARE};
use encoding::TABLE_BYTES;
use nodes::operators::sort_number;
use nodes::{SLOTS, sort_at};
use refusal::Reason;
use rewrite::rewrite_numbered;

// Why a call is not settled, and how many new nodes rewriting counts all the same.
#[derive(Clone, Copy)]
pub struct Unsettled {
    pub reason: Reason,
    pub count: usize,
}

impl From<Reason> for Unsettled {
    ghost from_gives = { λ reason unsettled. unsettled ≡ uncounted reason };

    // What rewriting refuses has no count.
    fn from(reason: Reason) -> Unsettled {
        Unsettled { reason, count: 0 }
    }
}

// The first refusal that applies of 1 to 9, 12, 13, 10, 14 and 11, where `wrong` is the number of the sort that the root must not have; with none, the
// rewritten table in the first bytes of `new`, which has room for 120 nodes, its count, and the clock and the new number of each node. With a refusal too the
// count is the one that rewriting answers. 12 comes before 13, so the root is asked before a 13 of rewriting is passed on.
pub fn settle(
    b: &[u8],
    wrong: u8,
    n: usize,
    start: usize,
    words: usize,
    new: &mut [u8; TABLE_BYTES],
    clocks: &mut [Option<u8>; SLOTS],
    numbers: &mut [u8; SLOTS],
) -> Result<usize, Unsettled>
    requires { clocks.old ≡ replicate 121 None }
    ensures { Settles b.now wrong n start words new.old (renumbered (settled_by result) clocks.new numbers.new) new.new }
{
    let rewritten = rewrite_numbered(b, new, clocks, numbers);
    if rewritten != Err(Reason::ManyNodes) {
        rewritten?;
    }
    let root = usize::from(b[5]) - 1;
    if sort_number(sort_at(b, root)) == wrong {
        return Err(Unsettled {
            reason: Reason::WrongRoot,
            count: rewritten.unwrap_or(0),
        });
    }
    let m = rewritten?;
    if LONGEST < n {
        return Err(Unsettled {
            reason: Reason::ManySamples,
            count: m,
        });
    }
    if n < start {
        return Err(Unsettled {
            reason: Reason::LateStart,
            count: m,
        });
    }
    if words < SHARE * m {
        return Err(Unsettled {
            reason: Reason::SmallWorkspace,
            count: m,
        });
    }
    Ok(m)
}
