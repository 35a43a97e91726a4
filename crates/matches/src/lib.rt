// A sequence's matches from one start: their ends, and whether one goes on into letters ⊤.
#![tactic(auto)]

ghost use Rattle.std.specs.Prelude.{◌≡◌, true, ℕ, ◌≤◌, ◌<◌, length, get_or};
ghost use Rattle.telling.specs.Tells.{Tells};
ghost use Rattle.positions.specs.Member.{has, Is};
ghost use Rattle.cells.specs.Shares.{share, HasRow};
ghost use Rattle.cells.specs.Bits.{reached, longer, sequence_bit, starts_open};
ghost use Rattle.cells.specs.Ready.{ready_sequence};
ghost use Rattle.matches.specs.Shapes.{Chains, Forward, Finds};

use cells::{SHARE, Span, TOP_WORD, last_letters, longer_ends, word_at};
use nodes::SequenceOp;
use positions::PositionSet;

// What is found from one start: the ends of the matches, and whether one goes on into the letters ⊤ after a part inside the record.
#[derive(Clone, Copy)]
pub struct Found {
    pub ends: PositionSet,
    pub on: bool,
}

// The ends that are reached from the places of s up to n: those of place m are word m. Where the words chain, as `chain` says, what is left adds
// nothing once all of it is reached.
fn ends_along(words: &[u64], s: PositionSet, span: Span, chain: bool) -> PositionSet
    requires there { span.n < length words.now }
    requires chains { chain ≡ true → Chains (has s.bits) (λ m j. has (get_or words.now m 0) j) span.n }
    ensures { Is result.bits (reached (has s.bits) (λ m j. has (get_or words.now m 0) j) span.n) }
{
    let mut out = PositionSet::empty();
    let mut left = s.cut(span.n);
    while !left.within(out.only_if(chain)) {
        let m = left.lowest();
        let ends = PositionSet { bits: words[m] };
        out = out.joined(ends);
        left = left.rest();
    }
    out
}

// The same along words that need not chain.
fn ends_from(words: &[u64], s: PositionSet, span: Span) -> PositionSet
    requires { span.n < length words.now }
    ensures { Is result.bits (reached (has s.bits) (λ m j. has (get_or words.now m 0) j) span.n) }
{
    ends_along(words, s, span, false)
}

// The ends of the matches of row b that are not empty, from each start up to n: taken once for all the walks along them.
pub fn longer_words(rows: &[u64], b: usize, span: Span, out: &mut [u64])
    requires { HasRow (length rows.now) b × (span.n < length out.old) }
    ensures taken { (m : ℕ) → m ≤ span.n → Is (get_or out.new m 0) (longer rows.now b m) }
    ensures later_stay { (m : ℕ) → span.n < m → get_or out.new m 0 ≡ get_or out.old m 0 }
{
    for (m, word) in out[..=span.n].iter_mut().enumerate() {
        *word = longer_ends(rows, b, m).bits;
    }
}

// The ends of the second match, from each end of the first.
pub fn then_from(rows: &[u64], span: Span, a: usize, b: usize, i: usize) -> Found
    requires { HasRow (length rows.now) a × HasRow (length rows.now) b × (i ≤ span.n) }
    ensures { Finds rows.now span.n (SequenceOp.Then a b) i result }
{
    let first = word_at(rows, a, i);
    let at = SHARE * b;
    Found {
        ends: ends_from(&rows[at..], first, span),
        on: first.meets(word_at(rows, b, TOP_WORD)),
    }
}

// The ends of the second match, `second`, from each last letter of the first.
pub fn fused_from(rows: &[u64], second: &[u64], span: Span, a: usize, b: usize, i: usize) -> Found
    requires there { HasRow (length rows.now) a × HasRow (length rows.now) b × (i ≤ span.n) × (span.n < length second.now) }
    requires second_taken { (m : ℕ) → m ≤ span.n → Is (get_or second.now m 0) (longer rows.now b m) }
    ensures { Finds rows.now span.n (SequenceOp.Fused a b) i result }
{
    let shared = last_letters(rows, a, i);
    Found {
        ends: ends_from(second, shared, span),
        on: shared.meets(word_at(rows, b, TOP_WORD)),
    }
}

// Whether no match of row a leads back: no word up to n has a place below its start.
pub fn leads_forward(rows: &[u64], a: usize, span: Span) -> bool
    requires { HasRow (length rows.now) a }
    ensures { Tells result (Forward rows.now a span.n) }
{
    let mut back = PositionSet::empty();
    for i in 0..=span.n {
        let word = word_at(rows, a, i);
        back = back.joined(word.without(word.from(i)));
    }
    back.is_empty()
}

// One match from i, or one that is not empty and then those from its end, which `own`, the node's words above i, has already; they chain
// where `forward`, as no match of row a then leads back.
pub fn repeat_from(
    rows: &[u64],
    own: &[u64],
    span: Span,
    a: usize,
    i: usize,
    forward: bool,
) -> Found
    requires there { HasRow (length rows.now) a × (i ≤ span.n) × (share ≤ length own.now) }
    requires own_made { (m : ℕ) → i < m → m ≤ span.n → Is (get_or own.now m 0) (sequence_bit rows.now span.n (SequenceOp.Repeat a) m) }
    requires forward { forward ≡ true → Forward rows.now a span.n }
    ensures { Finds rows.now span.n (SequenceOp.Repeat a) i result }
{
    let first = word_at(rows, a, i);
    let ends = ends_along(own, first.after(i), span, forward).joined(first);
    Found {
        ends,
        on: ends.meets(word_at(rows, a, TOP_WORD)),
    }
}

// Of `##1`: the first match ends among the letters ⊤, and the second is empty or goes on there.
fn then_open(rows: &[u64], span: Span, a: usize, b: usize) -> PositionSet
    requires { HasRow (length rows.now) a × HasRow (length rows.now) b }
    ensures { Is result.bits (starts_open rows.now span.n (SequenceOp.Then a b)) }
{
    let n = span.n;
    let ends_there = word_at(rows, b, n).has(n) | word_at(rows, b, TOP_WORD).has(n);
    word_at(rows, a, TOP_WORD).only_if(ends_there)
}

// The starts whose first match itself ends among the letters ⊤.
pub fn open_starts(rows: &[u64], span: Span, op: SequenceOp) -> PositionSet
    requires { ready_sequence (length rows.now) op }
    ensures { Is result.bits (starts_open rows.now span.n op) }
{
    match op {
        SequenceOp::Letter(_) => PositionSet::one(span.n),
        SequenceOp::Then(a, b) => then_open(rows, span, a, b),
        SequenceOp::Fused(a, b) => word_at(rows, a, TOP_WORD).only_if(word_at(
            rows, b, TOP_WORD,
        ).has(span.n)),
        SequenceOp::Either(a, b) => word_at(rows, a, TOP_WORD).joined(word_at(rows, b, TOP_WORD)),
        SequenceOp::Empty(_) => PositionSet::empty(),
        SequenceOp::Repeat(a) => word_at(rows, a, TOP_WORD),
        SequenceOp::Clocked(_, _) => PositionSet::empty(),
        // A derived operator is expanded before: no table here has one.
        SequenceOp::Derived(_) => PositionSet::empty(),
    }
}
