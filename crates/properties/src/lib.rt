// What each operator makes of the words of its operands, for the three tails.
#![tactic(auto)]

pub mod untils;

ghost use Rattle.std.specs.Prelude.{false, ◌||◌, ◌&&◌, suc, leb, length};
ghost use Rattle.positions.specs.Member.{has, Is};
ghost use Rattle.cells.specs.Shares.{HasRow};
ghost use Rattle.cells.specs.Ready.{ready_property};
ghost use Rattle.cells.specs.Bits.{negated_bit, implies_bit, next_bit};
ghost use Rattle.properties.specs.Shapes.{told, Sets, WordsAt, Satisfying, Following};

use cells::{Span, TOP_WORD, last_letters, starts_of, word_at};
use nodes::PropertyOp;
use positions::PositionSet;
use untils::{begun, begun_in_tail, leading};

// A property's words: the suffixes that satisfy it with no tail, with a ⊤ tail and with a ⊥ tail.
#[derive(Clone, Copy)]
pub struct Suffixes {
    pub neutral: PositionSet,
    pub weak: PositionSet,
    pub strong: PositionSet,
}

impl Suffixes {
    // No suffix at all.
    pub fn none() -> Self
        ensures { Sets (λ t k. false) result }
    {
        let none = PositionSet::empty();
        Self {
            neutral: none,
            weak: none,
            strong: none,
        }
    }

    // The words of two properties, joined tail by tail.
    fn zip_with<F: Fn(PositionSet, PositionSet) -> PositionSet>(self, other: Self, join: F) -> Self
        requires { F.IsAlwaysCallable join }
        ensures neutral { F.post join self.neutral other.neutral result.neutral }
        ensures weak { F.post join self.weak other.weak result.weak }
        ensures strong { F.post join self.strong other.strong result.strong }
    {
        Self {
            neutral: join(self.neutral, other.neutral),
            weak: join(self.weak, other.weak),
            strong: join(self.strong, other.strong),
        }
    }
}

// The words of the property of row p.
fn three_at(rows: &[u64], p: usize) -> Suffixes
    requires { HasRow (length rows.now) p }
    ensures { WordsAt rows.now p result }
{
    Suffixes {
        neutral: word_at(rows, p, 0),
        weak: word_at(rows, p, 1),
        strong: word_at(rows, p, 2),
    }
}

// A match that is not empty: inside the record or, with a ⊤ tail, on into its letters.
pub fn strong_of(rows: &[u64], span: Span, a: usize) -> Suffixes
    requires { HasRow (length rows.now) a }
    ensures { Satisfying rows.now span.n (PropertyOp.Strong a) result }
{
    let inside = starts_of(rows, a, span);
    Suffixes {
        neutral: inside,
        weak: inside.joined(word_at(rows, a, TOP_WORD)),
        strong: inside,
    }
}

// The longest prefix, followed by ⊤, decides; at the end of a record with no tail there is no prefix to ask.
pub fn weak_of(rows: &[u64], span: Span, a: usize) -> Suffixes
    requires { HasRow (length rows.now) a }
    ensures { Satisfying rows.now span.n (PropertyOp.Weak a) result }
{
    let inside = starts_of(rows, a, span);
    let open = inside.joined(word_at(rows, a, TOP_WORD));
    Suffixes {
        neutral: open.with(span.n),
        weak: open,
        strong: inside,
    }
}

// The bar of a word swaps the tails: not P with a ⊤ tail asks P with a ⊥ tail.
pub fn not_of(p: Suffixes, span: Span) -> Suffixes
    ensures { Sets (negated_bit span.n (told p)) result }
{
    let n = span.n;
    Suffixes {
        neutral: p.neutral.others(n),
        weak: p.strong.others(n),
        strong: p.weak.others(n),
    }
}

pub fn any_of(p: Suffixes, q: Suffixes) -> Suffixes
    ensures { Sets (λ t k. told p t k || told q t k) result }
{
    p.zip_with(q, PositionSet::joined)
}

pub fn both_of(p: Suffixes, q: Suffixes) -> Suffixes
    ensures { Sets (λ t k. told p t k && told q t k) result }
{
    p.zip_with(q, PositionSet::common)
}

// The starts, up to n, from which each match of row a that is not empty has its last letter in the set, for each of the three.
fn following(rows: &[u64], span: Span, a: usize, p: Suffixes) -> Suffixes
    requires { HasRow (length rows.now) a }
    ensures { Following rows.now span.n a p result }
{
    let mut out = Suffixes::none();
    for i in 0..=span.n {
        let last = last_letters(rows, a, i);
        out = out.zip_with(p, |starts, holds| starts.with_if(i, last.within(holds)));
    }
    out
}

// The left side matches on the bar of the word: with a ⊥ tail it may end among letters ⊤, and P is then asked in the tail.
pub fn implies_of(rows: &[u64], span: Span, a: usize, p: Suffixes) -> Suffixes
    requires { HasRow (length rows.now) a }
    ensures { Sets (implies_bit rows.now span.n a (told p)) result }
{
    let inside = following(rows, span, a, p);
    let onward = word_at(rows, a, TOP_WORD);
    let strong = inside.strong.without(onward.only_if(!p.strong.has(span.n)));
    Suffixes { strong, ..inside }
}

// P one position on; position n of a tail is followed by itself.
fn next_in_tail(s: PositionSet, span: Span) -> PositionSet
    ensures { Is result.bits (λ k. has s.bits (suc k) || (has s.bits k && leb span.n k)) }
{
    s.down().joined(s.from(span.n))
}

pub fn next_of(p: Suffixes, span: Span) -> Suffixes
    ensures { Sets (next_bit span.n (told p)) result }
{
    Suffixes {
        neutral: p.neutral.down().with(span.n),
        weak: next_in_tail(p.weak, span),
        strong: next_in_tail(p.strong, span),
    }
}

fn until_of(rows: &[u64], span: Span, p: usize, q: usize) -> Suffixes
    requires { HasRow (length rows.now) p × HasRow (length rows.now) q }
    ensures { Satisfying rows.now span.n (PropertyOp.Until p q) result }
{
    let first = three_at(rows, p);
    let second = three_at(rows, q);
    let neutral = begun(first.neutral, second.neutral, true, span);
    let weak = begun_in_tail(first.weak, second.weak, span);
    let strong = begun_in_tail(first.strong, second.strong, span);
    leading(neutral, weak, strong)
}

// The words of a property. A rewritten table has no clock node, and a derived operator is expanded before: no word is made for one.
pub fn suffixes_of(rows: &[u64], span: Span, op: PropertyOp) -> Suffixes
    requires { ready_property (length rows.now) op }
    ensures { Satisfying rows.now span.n op result }
{
    match op {
        PropertyOp::Strong(a) => strong_of(rows, span, a),
        PropertyOp::Weak(a) => weak_of(rows, span, a),
        PropertyOp::Negated(p) => not_of(three_at(rows, p), span),
        PropertyOp::AnyOf(p, q) => any_of(three_at(rows, p), three_at(rows, q)),
        PropertyOp::BothOf(p, q) => both_of(three_at(rows, p), three_at(rows, q)),
        PropertyOp::Implies(a, p) => implies_of(rows, span, a, three_at(rows, p)),
        PropertyOp::Next(p) => next_of(three_at(rows, p), span),
        PropertyOp::Until(p, q) => until_of(rows, span, p, q),
        PropertyOp::Ticked(_, _) | PropertyOp::Defined(_) => Suffixes::none(),
    }
}
