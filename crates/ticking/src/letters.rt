// The letter under a clock, or with none.
ghost use Rattle.std.specs.Prelude.{◌≡◌, ℕ, ◌≤◌, ◌<◌, get_or};
ghost use Rattle.positions.specs.Member.{has};
ghost use Rattle.cells.specs.Shares.{share, longest};
ghost use Rattle.cells.specs.Stored.{set64};
ghost use Rattle.ticking.specs.Ticks.{letter_bit, letter_word};

use cells::{Span, TOP_WORD};
use positions::PositionSet;

// A letter's match from i ends after the first tick at or after i, where b holds there. With no clock every sample is a tick.
fn letter_ends(b: PositionSet, ticks: PositionSet, i: usize) -> PositionSet
    requires { i ≤ longest }
    ensures { result.bits ≡ set64 (letter_bit (has b.bits) (has ticks.bits) i) }
{
    let k = ticks.from(i).lowest();
    if k < 63 {
        PositionSet::one(k + 1).only_if(b.has(k))
    } else {
        PositionSet::empty()
    }
}

// The row of a letter b: its words 0 to n, and word 64, which has the starts with no tick from there on.
pub fn letter_row(b: PositionSet, ticks: PositionSet, span: Span) -> [u64; 65]
    ensures { (i : ℕ) → i < share → get_or result i 0 ≡ letter_word (has b.bits) (has ticks.bits) span.n i }
{
    let mut out = [0; 65];
    let mut tops = PositionSet::empty();
    for i in 0..=span.n {
        out[i] = letter_ends(b, ticks, i).bits;
        tops = tops.with_if(i, ticks.from(i).is_empty());
    }
    out[TOP_WORD] = tops.bits;
    out
}
