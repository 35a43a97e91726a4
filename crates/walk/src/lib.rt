// The plain engine: a node's row, by calling itself on the node's operands. The node's number falls with each call, and a clock node hands its condition down.
// An operand of another sort, and the operand that an operator does not have, which is node 0 and so a boolean, has an empty row.
#![tactic(auto)]

ghost use Rattle.std.specs.Prelude.{false, ◌<◌};
ghost use Rattle.refusal.specs.Heading.{count};
ghost use Rattle.steps.specs.Steps.{ToldBy};
ghost use Rattle.walk.specs.Walk.{Known, SequenceMeans, PropertyMeans};

use cells::Span;
use conditions::set_at;
use nodes::{Node, node_at};
use positions::PositionSet;
use properties::Suffixes;
use steps::{Told, property_clock, property_step, sequence_clock, sequence_step};
use ticking::Ticks;

// What a node that is no property answers: no position.
fn nothing_told() -> Told
    ensures { ToldBy (λ t k. false) (λ k. false) result }
{
    Told {
        holds: Suffixes::none(),
        tested: PositionSet::empty(),
    }
}

// The words of a sequence node under a clock: the ends of its matches from each start, and word 64.
pub fn sequence_row(
    table: &[u8],
    samples: &[u64],
    booleans: &[u64],
    k: usize,
    clock: Ticks,
) -> [u64; 65]
    requires { Known table.now samples.now booleans.now × (k < count table.now) }
    ensures { SequenceMeans table.now samples.now clock k result }
{
    let v = node_at(table, k);
    let Node::Sequence(op) = Node::from(v) else {
        return [0; 65];
    };
    let a = usize::from(v.x);
    let b = usize::from(v.y);
    let c = set_at(booleans, a);
    let below = sequence_clock(op, c, clock);
    let x = sequence_row(table, samples, booleans, a, below);
    let y = sequence_row(table, samples, booleans, b, below);
    let span = Span { n: samples.len() };
    sequence_step(&x, &y, c, clock.at, op, span)
}

// What a property node answers under a clock.
pub fn property_row(table: &[u8], samples: &[u64], booleans: &[u64], k: usize, clock: Ticks) -> Told
    requires { Known table.now samples.now booleans.now × (k < count table.now) }
    ensures { PropertyMeans table.now samples.now clock k result }
{
    let v = node_at(table, k);
    let Node::Property(op) = Node::from(v) else {
        return nothing_told();
    };
    let a = usize::from(v.x);
    let b = usize::from(v.y);
    let below = property_clock(op, set_at(booleans, a), clock);
    let x = sequence_row(table, samples, booleans, a, below);
    let p = property_row(table, samples, booleans, a, below);
    let q = property_row(table, samples, booleans, b, below);
    let span = Span { n: samples.len() };
    property_step(&x, p, q, op, clock, span)
}
