// Whether a record tests the property at the root of a clocked table: one set of positions a node, upwards, from the rows of the rewritten table.
#![tactic(auto)]

ghost use Rattle.std.specs.Prelude.{◌≡◌, length, get_or};
ghost use Rattle.positions.specs.Member.{has, Is};
ghost use Rattle.nodes.specs.Operators.{node_of};
ghost use Rattle.nodes.specs.Computed.{named_by};
ghost use Rattle.cells.specs.Shares.{HasRow};
ghost use Rattle.tested.specs.Computed.{is_tick, next_tested, until_tested, implies_tested, property_tested, letter_matches, node_tested, clock_row, standing, set_of, clock_there, sequence_there, property_there, node_there, tested_in, Testing};

use cells::{Span, all_samples, starts_into, word_at};
use nodes::{Node, PropertyOp, Raw, SLOTS, SequenceOp, named, node_at};
use positions::PositionSet;
use ticking::{second_tick, tick_run};

// The positions at which a property looks: the ticks of its clock, where row c has the condition, and with no clock all samples.
fn ticks_of(rows: &[u64], span: Span, clock: Option<usize>) -> PositionSet
    requires { clock_there (length rows.now) clock }
    ensures { Is result.bits (is_tick rows.now span.n clock) }
{
    match clock {
        None => all_samples(span),
        Some(c) => word_at(rows, c, 0),
    }
}

// Of nexttime P: P is tested one position on; under a clock at the second tick.
fn next_set(rows: &[u64], span: Span, clock: Option<usize>, p: PositionSet) -> PositionSet
    requires { clock_there (length rows.now) clock }
    ensures { Is result.bits (next_tested rows.now span.n clock (has p.bits)) }
{
    match clock {
        None => p.down(),
        Some(c) => second_tick(word_at(rows, c, 0), span, false, p),
    }
}

// Of P until Q, of rows a and b: at a tick one of the two is tested, and at each earlier one P holds and Q does not.
fn until_set(
    rows: &[u64],
    span: Span,
    ticks: PositionSet,
    a: usize,
    b: usize,
    either: PositionSet,
) -> PositionSet
    requires { HasRow (length rows.now) a × HasRow (length rows.now) b }
    ensures { Is result.bits (until_tested rows.now span.n (has ticks.bits) a b (has either.bits)) }
{
    let holds = word_at(rows, a, 0).without(word_at(rows, b, 0));
    tick_run(ticks, span, false, holds, either)
}

// Of R |-> P: some match of R, not empty, has its last letter where P is tested. A letter with no clock has the samples that it matches in its own set.
fn implies_set(rows: &[u64], span: Span, a: usize, r: PositionSet, p: PositionSet) -> PositionSet
    requires { HasRow (length rows.now) a }
    ensures { Is result.bits (implies_tested rows.now span.n a (has r.bits) (has p.bits)) }
{
    if r.is_empty() {
        return starts_into(rows, a, span, p);
    }
    r.common(p)
}

// The set of the node that a byte names.
fn set_for(sets: &[u64; SLOTS], v: u8) -> PositionSet
    ensures { result.bits ≡ get_or sets.now (named_by v) 0 }
{
    PositionSet {
        bits: sets[named(v)],
    }
}

// The row that stands for the node that a byte names.
fn row_for(numbers: &[u8; SLOTS], v: u8) -> usize
    ensures { result ≡ get_or numbers.now (named_by v) 0 }
{
    usize::from(numbers[named(v)])
}

// The row that stands for a clock's condition.
fn clock_row(numbers: &[u8; SLOTS], clock: Option<u8>) -> Option<usize>
    ensures { result ≡ clock_row numbers.now clock }
{
    clock.map(|c| row_for(numbers, c))
}

// The positions from which a property is tested: the node v under the clock, from the sets below it.
fn property_set(
    rows: &[u64],
    span: Span,
    numbers: &[u8; SLOTS],
    sets: &[u64; SLOTS],
    clock: Option<u8>,
    v: Raw,
    op: PropertyOp,
) -> PositionSet
    requires { property_there (length rows.now) (standing numbers.now clock v) op }
    ensures { Is result.bits (property_tested rows.now span.n (standing numbers.now clock v) (set_of sets.now v.x) (set_of sets.now v.y) op) }
{
    match op {
        PropertyOp::Strong(_) => PositionSet::full(span.n),
        PropertyOp::Weak(_) => PositionSet::full(span.n),
        PropertyOp::Negated(_) => set_for(sets, v.x),
        PropertyOp::AnyOf(_, _) => set_for(sets, v.x).joined(set_for(sets, v.y)),
        PropertyOp::BothOf(_, _) => set_for(sets, v.x).joined(set_for(sets, v.y)),
        PropertyOp::Implies(_, _) => implies_set(
            rows,
            span,
            row_for(numbers, v.x),
            set_for(sets, v.x),
            set_for(sets, v.y),
        ),
        PropertyOp::Next(_) => next_set(rows, span, clock_row(numbers, clock), set_for(sets, v.x)),
        PropertyOp::Until(_, _) => {
            let ticks = ticks_of(rows, span, clock_row(numbers, clock));
            let either = set_for(sets, v.x).joined(set_for(sets, v.y));
            until_set(
                rows,
                span,
                ticks,
                row_for(numbers, v.x),
                row_for(numbers, v.y),
                either,
            )
        }
        PropertyOp::Ticked(_, _) => set_for(sets, v.y),
        // A derived operator is expanded before: no table here has one.
        PropertyOp::Defined(_) => PositionSet::empty(),
    }
}

// The samples that a letter with no clock matches, so that `|->` over it is one meeting of two sets; of any other sequence none.
fn letter_set(
    rows: &[u64],
    numbers: &[u8; SLOTS],
    clock: Option<u8>,
    v: Raw,
    op: SequenceOp,
) -> PositionSet
    requires { sequence_there (length rows.now) (standing numbers.now clock v) op }
    ensures { Is result.bits (letter_matches rows.now (standing numbers.now clock v) op) }
{
    match op {
        SequenceOp::Letter(_) => {
            word_at(rows, row_for(numbers, v.x), 0).only_if(clock.is_none())
        }
        SequenceOp::Then(_, _) => PositionSet::empty(),
        SequenceOp::Fused(_, _) => PositionSet::empty(),
        SequenceOp::Either(_, _) => PositionSet::empty(),
        SequenceOp::Empty(_) => PositionSet::empty(),
        SequenceOp::Repeat(_) => PositionSet::empty(),
        SequenceOp::Clocked(_, _) => PositionSet::empty(),
        SequenceOp::Derived(_) => PositionSet::empty(),
    }
}

// The set of the node v; a boolean has none.
fn node_set(
    rows: &[u64],
    span: Span,
    numbers: &[u8; SLOTS],
    sets: &[u64; SLOTS],
    clock: Option<u8>,
    v: Raw,
) -> PositionSet
    requires { node_there (length rows.now) (standing numbers.now clock v) (node_of v) }
    ensures { Is result.bits (node_tested rows.now span.n (standing numbers.now clock v) (set_of sets.now v.x) (set_of sets.now v.y) (node_of v)) }
{
    match Node::from(v) {
        Node::Boolean(_) => PositionSet::empty(),
        Node::Sequence(op) => letter_set(rows, numbers, clock, v, op),
        Node::Property(op) => property_set(rows, span, numbers, sets, clock, v, op),
    }
}

// Whether the root is tested from position 0.
pub fn tested(
    b: &[u8],
    clocks: &[Option<u8>; SLOTS],
    numbers: &[u8; SLOTS],
    rows: &[u64],
    span: Span,
) -> bool
    requires { Testing b.now clocks.now numbers.now rows.now span.n }
    ensures { result ≡ tested_in b.now clocks.now numbers.now rows.now span.n }
{
    let m = usize::from(b[5]);
    let mut sets = [0; SLOTS];
    for k in 0..m {
        let set = node_set(rows, span, numbers, &sets, clocks[k], node_at(b, k));
        sets[k] = set.bits;
    }
    let root = PositionSet { bits: sets[m - 1] };
    root.has(0)
}
