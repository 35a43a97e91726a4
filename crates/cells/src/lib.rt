// How a workspace is shared out, and the words of rows that are read, or made 0.
#![tactic(auto)]

ghost use Rattle.std.specs.Prelude.{◌≡◌, ℕ, false, ◌+◌, ◌≤◌, ◌<◌, ltb, length};
ghost use Rattle.positions.specs.Member.{has, Is};
ghost use Rattle.cells.specs.Shares.{share, longest, word_in, HasRow};
ghost use Rattle.cells.specs.Bits.{longer, last_letter, starts, starts_into};
ghost use Rattle.cells.specs.Stored.{None, Stored};

use positions::PositionSet;

// The words that a node owns.
pub const SHARE: usize = 65;

// The word of a sequence that tells of the letters ⊤ after the record.
pub const TOP_WORD: usize = 64;

// The samples of a record, at most.
pub const LONGEST: usize = 63;

// How many samples a record has: its positions are the places 0 to n.
#[derive(Clone, Copy)]
pub struct Span {
    pub n: usize,
    ghost short: { n ≤ longest },
}

// Word i of row a.
pub fn word_at(rows: &[u64], a: usize, i: usize) -> PositionSet
    requires { HasRow (length rows.now) a × (i < share) }
    ensures { result.bits ≡ word_in rows.now a i }
{
    let at = SHARE * a + i;
    PositionSet { bits: rows[at] }
}

// The ends of the matches of row a from i that are not empty.
pub fn longer_ends(rows: &[u64], a: usize, i: usize) -> PositionSet
    requires { HasRow (length rows.now) a × (i ≤ longest) }
    ensures { Is result.bits (longer rows.now a i) }
{
    word_at(rows, a, i).after(i)
}

// Their last letters.
pub fn last_letters(rows: &[u64], a: usize, i: usize) -> PositionSet
    requires { HasRow (length rows.now) a × (i ≤ longest) }
    ensures { Is result.bits (last_letter rows.now a i) }
{
    longer_ends(rows, a, i).down()
}

// The starts, up to n, that pass the test.
fn starts_where<F: Fn(usize) -> bool>(span: Span, test: F) -> PositionSet
    requires { (i : ℕ) → i ≤ span.n → F.pre test i }
    ensures told { (i : ℕ) → i ≤ span.n → F.post test i (has result.bits i) }
    ensures within { (i : ℕ) → span.n < i → has result.bits i ≡ false }
{
    let mut out = PositionSet::empty();
    for i in 0..=span.n {
        out = out.with_if(i, test(i));
    }
    out
}

// The starts, up to n, of the matches of row a that are not empty.
pub fn starts_of(rows: &[u64], a: usize, span: Span) -> PositionSet
    requires { HasRow (length rows.now) a }
    ensures { Is result.bits (starts rows.now span.n a) }
{
    starts_where(span, |i| !longer_ends(rows, a, i).is_empty())
}

// The starts, up to n, of the matches of row a that are not empty and have their last letter in the set.
pub fn starts_into(rows: &[u64], a: usize, span: Span, p: PositionSet) -> PositionSet
    requires { HasRow (length rows.now) a }
    ensures { Is result.bits (starts_into rows.now span.n a (has p.bits)) }
{
    starts_where(span, move |i| last_letters(rows, a, i).meets(p))
}

// The places of all n samples.
pub fn all_samples(span: Span) -> PositionSet
    ensures { Is result.bits (λ k. ltb k span.n) }
{
    PositionSet::full(span.n).down()
}

// Words `from` to `to` - 1 of the share that begins at word `at`, made 0.
pub fn clear(ws: &mut [u64], at: usize, from: usize, to: usize)
    requires { (from ≤ to) × (at + to ≤ length ws.old) }
    ensures { Stored None ws.old at from to ws.new }
{
    ws[at + from..at + to].fill(0);
}
