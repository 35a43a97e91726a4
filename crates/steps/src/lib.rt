// One step of the plain engine: what a node's row is by the rows of its operands, by value.
#![tactic(auto)]

mod beside;

ghost use Rattle.std.specs.Prelude.{◌≡◌};
ghost use Rattle.steps.specs.Steps.{sequence_clock, property_clock, SequenceStep, PropertyStep, NextStep, UntilStep};

use beside::pair_row;
use cells::{Span, starts_into};
use nodes::{PropertyOp, SequenceOp};
use positions::PositionSet;
use properties::{Suffixes, any_of, both_of, implies_of, next_of, not_of, strong_of, weak_of};
use ticking::letters::letter_row;
use ticking::{Ticks, next_under, second_tick, tick_run, until_under};

// What a property node answers: the suffixes that satisfy it with no tail, with a ⊤ tail and with a ⊥ tail, and the positions from which it is tested.
#[derive(Clone, Copy)]
pub struct Told {
    pub holds: Suffixes,
    pub tested: PositionSet,
}

// The clock of the operands of a sequence under `clock`, where c has the samples that satisfy its first operand: a clock node's own.
pub fn sequence_clock(op: SequenceOp, c: PositionSet, clock: Ticks) -> Ticks
    ensures { result ≡ sequence_clock op c clock }
{
    match op {
        SequenceOp::Clocked(_, _) => Ticks {
            clocked: true,
            at: c,
        },
        _ => clock,
    }
}

// The same of a property.
pub fn property_clock(op: PropertyOp, c: PositionSet, clock: Ticks) -> Ticks
    ensures { result ≡ property_clock op c clock }
{
    match op {
        PropertyOp::Ticked(_, _) => Ticks {
            clocked: true,
            at: c,
        },
        _ => clock,
    }
}

// A sequence's row from those of its operands, x and y: a letter's from b, the samples that satisfy it, and the ticks; a clock node's is that of what it
// clocks.
pub fn sequence_step(
    x: &[u64; 65],
    y: &[u64; 65],
    b: PositionSet,
    ticks: PositionSet,
    op: SequenceOp,
    span: Span,
) -> [u64; 65]
    ensures { SequenceStep x.now y.now b.bits ticks.bits span.n op result }
{
    match op {
        SequenceOp::Letter(_) => letter_row(b, ticks, span),
        SequenceOp::Then(_, _) => pair_row(x, y, SequenceOp::Then(0, 1), span),
        SequenceOp::Fused(_, _) => pair_row(x, y, SequenceOp::Fused(0, 1), span),
        SequenceOp::Either(_, _) => pair_row(x, y, SequenceOp::Either(0, 1), span),
        SequenceOp::Empty(_) => pair_row(x, y, SequenceOp::Empty(0), span),
        SequenceOp::Repeat(_) => pair_row(x, y, SequenceOp::Repeat(0), span),
        // A derived operator is expanded before: no table here has one.
        SequenceOp::Clocked(_, _) | SequenceOp::Derived(_) => *y,
    }
}

// nexttime P, with a clock or with none.
fn next_step(p: Told, clock: Ticks, span: Span) -> Told
    ensures { NextStep p clock span.n result }
{
    if clock.clocked {
        return Told {
            holds: next_under(clock.at, span, p.holds),
            tested: second_tick(clock.at, span, false, p.tested),
        };
    }
    Told {
        holds: next_of(p.holds, span),
        tested: p.tested.down(),
    }
}

// P until Q: at a tick one of the two is tested, and at each earlier one P holds and Q does not.
fn until_step(p: Told, q: Told, clock: Ticks, span: Span) -> Told
    ensures { UntilStep p q clock span.n result }
{
    let before = p.holds.neutral.without(q.holds.neutral);
    Told {
        holds: until_under(clock, span, p.holds, q.holds),
        tested: tick_run(clock.at, span, false, before, p.tested.joined(q.tested)),
    }
}

// What a property answers by its operands: the row x of a sequence, and p and q of properties.
pub fn property_step(
    x: &[u64; 65],
    p: Told,
    q: Told,
    op: PropertyOp,
    clock: Ticks,
    span: Span,
) -> Told
    ensures { PropertyStep x.now p q clock span.n op result }
{
    let first = p.holds;
    let second = q.holds;
    let asked = p.tested;
    match op {
        PropertyOp::Strong(_) => Told {
            holds: strong_of(x, span, 0),
            tested: PositionSet::full(span.n),
        },
        PropertyOp::Weak(_) => Told {
            holds: weak_of(x, span, 0),
            tested: PositionSet::full(span.n),
        },
        PropertyOp::Negated(_) => Told {
            holds: not_of(first, span),
            tested: asked,
        },
        PropertyOp::AnyOf(_, _) => Told {
            holds: any_of(first, second),
            tested: asked.joined(q.tested),
        },
        PropertyOp::BothOf(_, _) => Told {
            holds: both_of(first, second),
            tested: asked.joined(q.tested),
        },
        PropertyOp::Implies(_, _) => Told {
            holds: implies_of(x, span, 0, second),
            tested: starts_into(x, 0, span, q.tested),
        },
        PropertyOp::Next(_) => next_step(p, clock, span),
        PropertyOp::Until(_, _) => until_step(p, q, clock, span),
        PropertyOp::Ticked(_, _) | PropertyOp::Defined(_) => q,
    }
}
