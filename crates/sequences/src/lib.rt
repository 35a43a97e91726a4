// A sequence's row in the workspace: its words 0 to n, and word 64. One loop makes every row, and each kind says what is found at a start.
#![tactic(auto)]

ghost use denote.Ref.{Bor};
ghost use Rattle.std.specs.Prelude.{◌≡◌, false, List, ℕ, ◌*◌, ◌≤◌, length, take};
ghost use Rattle.cells.specs.Shares.{share, HasRow};
ghost use Rattle.cells.specs.Ready.{ready_sequence};
ghost use Rattle.cells.specs.Stored.{tab, with_row};
ghost use Rattle.matches.specs.Shapes.{Finds};
ghost use Rattle.sequences.specs.Made.{sequence_word, Above};

use cells::{SHARE, Span, TOP_WORD, all_samples, clear, word_at};
use matches::{
    Found, fused_from, leads_forward, longer_words, open_starts, repeat_from, then_from,
};
use nodes::SequenceOp;
use positions::PositionSet;

// The row `own`: `find` gives the ends of the matches from a start, and whether one goes on. It is asked from the last start down, so that a repetition finds
// its own words above.
fn put_row<F: Fn(&[u64], usize) -> Found>(
    rows: &[u64],
    own: &mut [u64],
    op: SequenceOp,
    span: Span,
    find: F,
)
    requires within { ready_sequence (length rows.now) op × (share ≤ length own.old) }
    requires callable { (known : Bor (List ℕ)) (i : ℕ) → Above rows.now span.n op i known.now → F.pre find known i }
    requires finds { (known : Bor (List ℕ)) (i : ℕ) (r : Found) → Above rows.now span.n op i known.now → F.post find known i r
        → Finds rows.now span.n op i r }
    ensures { own.new ≡ with_row own.old 0 (tab (sequence_word rows.now span.n op) share) }
{
    let n = span.n;
    let mut tops = PositionSet::empty();
    for i in (0..=n).rev() {
        let found = find(own, i);
        tops = tops.with_if(i, found.on);
        own[i] = found.ends.bits;
    }
    let open = open_starts(rows, span, op);
    own[TOP_WORD] = tops.joined(open.cut(n)).bits;
    clear(own, 0, n + 1, TOP_WORD);
}

// The ends of the matches of a kind that never goes on.
fn stops(ends: PositionSet) -> Found
    ensures { (result.ends.bits ≡ ends.bits) × (result.on ≡ false) }
{
    Found { ends, on: false }
}

// The row `own`. A rewritten table has no clock node, and a derived operator is expanded before, so there is nothing to find of one.
fn put_own(rows: &[u64], own: &mut [u64], op: SequenceOp, span: Span)
    requires { ready_sequence (length rows.now) op × (share ≤ length own.old) }
    ensures { own.new ≡ with_row own.old 0 (tab (sequence_word rows.now span.n op) share) }
{
    match op {
        // A letter's match from i ends after i, where sample i satisfies b.
        SequenceOp::Letter(b) => {
            let ends = word_at(rows, b, 0).common(all_samples(span)).up();
            let find = |_: &[u64], i: usize| stops(ends.common(PositionSet::one(i).up()));
            put_row(rows, own, op, span, find);
        },
        SequenceOp::Then(a, b) => {
            let find = |_: &[u64], i: usize| then_from(rows, span, a, b, i);
            put_row(rows, own, op, span, find);
        },
        SequenceOp::Fused(a, b) => {
            let mut second = [0; 64];
            longer_words(rows, b, span, &mut second);
            let find = |_: &[u64], i: usize| fused_from(rows, &second, span, a, b, i);
            put_row(rows, own, op, span, find);
        },
        SequenceOp::Either(a, b) => {
            let find = |_: &[u64], i: usize| stops(word_at(rows, a, i).joined(word_at(rows, b, i)));
            put_row(rows, own, op, span, find);
        },
        // The empty match of row a's node, and no other.
        SequenceOp::Empty(_) => put_row(rows, own, op, span, |_, i| stops(PositionSet::one(i))),
        SequenceOp::Repeat(a) => {
            let forward = leads_forward(rows, a, span);
            let find = |known: &[u64], i: usize| repeat_from(rows, known, span, a, i, forward);
            put_row(rows, own, op, span, find);
        },
        SequenceOp::Clocked(_, _) | SequenceOp::Derived(_) => {
            put_row(rows, own, op, span, |_, _| stops(PositionSet::empty()));
        },
    }
}

// A sequence's row: its words up to n, then word 64, and 0 between.
pub fn put_sequence(ws: &mut [u64], k: usize, op: SequenceOp, span: Span)
    requires { HasRow (length ws.old) k × ready_sequence (share * k) op }
    ensures { ws.new ≡ with_row ws.old k (tab (sequence_word (take (share * k) ws.old) span.n op) share) }
{
    let (rows, own) = ws.split_at_mut(SHARE * k);
    put_own(rows, own, op, span);
}
