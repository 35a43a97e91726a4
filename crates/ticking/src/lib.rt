// What a clock changes, for all positions at once: the letter, nexttime and until.
#![tactic(auto)]

pub mod letters;

ghost use Rattle.positions.specs.Member.{has, Is};
ghost use Rattle.properties.specs.Shapes.{told, Sets};
ghost use Rattle.ticking.specs.Ticks.{second_bit, ticked_until, tick_run, first_tick, second_tick};

use cells::Span;
use positions::PositionSet;
use properties::Suffixes;
use properties::untils::begun;
use runs::lead;

// A clock: whether there is one, and its ticks. With no clock every sample counts as one.
#[derive(Clone, Copy)]
pub struct Ticks {
    pub clocked: bool,
    pub at: PositionSet,
}

// From each position on, `holds` at each tick up to one that is in the set; `last` where no such tick is left.
pub fn tick_run(
    ticks: PositionSet,
    span: Span,
    last: bool,
    holds: PositionSet,
    set: PositionSet,
) -> PositionSet
    ensures { Is result.bits (tick_run (has ticks.bits) span.n last (has holds.bits) (has set.bits)) }
{
    let before = holds.joined(ticks.others(span.n));
    lead(begun(before, set.common(ticks), last, span))
}

// The positions from which the first tick, at the position itself or later, is in the set.
fn first_tick(ticks: PositionSet, span: Span, last: bool, set: PositionSet) -> PositionSet
    ensures { Is result.bits (first_tick (has ticks.bits) span.n last (has set.bits)) }
{
    tick_run(ticks, span, last, PositionSet::empty(), set)
}

// The same of the second tick.
pub fn second_tick(ticks: PositionSet, span: Span, last: bool, set: PositionSet) -> PositionSet
    ensures { Is result.bits (second_tick (has ticks.bits) span.n last (has set.bits)) }
{
    let later = first_tick(ticks, span, last, set).down();
    first_tick(ticks, span, last, later)
}

// nexttime under a clock: with no further tick it is yes with no tail or a ⊤ tail, and no with a ⊥ tail.
pub fn next_under(ticks: PositionSet, span: Span, p: Suffixes) -> Suffixes
    ensures { Sets (second_bit (has ticks.bits) span.n (told p)) result }
{
    Suffixes {
        neutral: second_tick(ticks, span, true, p.neutral),
        weak: second_tick(ticks, span, true, p.weak),
        strong: second_tick(ticks, span, false, p.strong),
    }
}

// P until Q. In a ⊤ tail a clock asks nothing, and in a ⊥ tail it counts nothing.
pub fn until_under(clock: Ticks, span: Span, p: Suffixes, q: Suffixes) -> Suffixes
    ensures { Sets (ticked_until clock.clocked (has clock.at.bits) span.n (told p) (told q)) result }
{
    let n = span.n;
    let ticks = clock.at;
    let clocked = clock.clocked;
    let weak_last = (p.weak.has(n) | q.weak.has(n)) | clocked;
    let strong_last = p.strong.has(n) | (q.strong.has(n) & !clocked);
    Suffixes {
        neutral: tick_run(ticks, span, true, p.neutral, q.neutral),
        weak: tick_run(ticks, span, weak_last, p.weak, q.weak),
        strong: tick_run(ticks, span, strong_last, p.strong, q.strong),
    }
}
