// A boolean's word: the samples that satisfy it.
#![tactic(auto)]

ghost use Rattle.std.specs.Prelude.{◌≡◌, ◌*◌, ◌≤◌, ◌<◌, length, get_or};
ghost use Rattle.positions.specs.Member.{Is};
ghost use Rattle.cells.specs.Shares.{longest, HasWords};
ghost use Rattle.cells.specs.Bits.{signal_bit, risen_bit, fallen_bit, operand_bit, value_bit};
ghost use Rattle.cells.specs.Ready.{ready_boolean};

use cells::{Span, all_samples};
use nodes::BooleanOp;
use positions::PositionSet;

// The samples that have the signal s.
#[tactic(auto, using(cells::proofs::Loops::taken_none, cells::proofs::Loops::taken_more))]
fn signal_set(samples: &[u64], s: usize) -> PositionSet
    requires { (length samples.now ≤ longest) × (s < 64) }
    ensures { Is result.bits (signal_bit samples.now s) }
{
    let mut out = PositionSet::empty();
    for (k, &bits) in samples.iter().enumerate() {
        out = out.with_if(k, PositionSet { bits }.has(s));
    }
    out
}

// The samples at which the signal s has risen since the sample before: they have it, and the one before does not. The one before the first is all zero.
fn risen_set(samples: &[u64], s: usize) -> PositionSet
    requires { (length samples.now ≤ longest) × (s < 64) }
    ensures { Is result.bits (risen_bit samples.now s) }
{
    let high = signal_set(samples, s);
    high.without(high.up())
}

// The samples at which the signal s has fallen since the sample before: they do not have it, and the one before does.
fn fallen_set(samples: &[u64], s: usize) -> PositionSet
    requires { (length samples.now ≤ longest) × (s < 64) }
    ensures { Is result.bits (fallen_bit samples.now s) }
{
    let high = signal_set(samples, s);
    let span = Span { n: samples.len() };
    all_samples(span).without(high).common(high.up())
}

// The samples that satisfy boolean a: the first of the `stride` words that each node has.
fn set_of(words: &[u64], stride: usize, a: usize) -> PositionSet
    requires { (1 ≤ stride) × HasWords (length words.now) stride a }
    ensures { result.bits ≡ get_or words.now (stride * a) 0 }
{
    PositionSet {
        bits: words[stride * a],
    }
}

// The samples that satisfy a boolean, from the words of the booleans below it.
pub fn boolean_set(words: &[u64], stride: usize, samples: &[u64], op: BooleanOp) -> PositionSet
    requires { (1 ≤ stride) × ready_boolean (length words.now) stride op × (length samples.now ≤ longest) }
    ensures { Is result.bits (value_bit (operand_bit words.now stride) samples.now op) }
{
    let span = Span { n: samples.len() };
    match op {
        BooleanOp::Constant(v) => all_samples(span).only_if(v == 1),
        BooleanOp::Signal(s) => signal_set(samples, s),
        BooleanOp::Not(a) => all_samples(span).without(set_of(words, stride, a)),
        BooleanOp::And(a, b) => set_of(words, stride, a).common(set_of(words, stride, b)),
        BooleanOp::Or(a, b) => set_of(words, stride, a).joined(set_of(words, stride, b)),
        BooleanOp::Risen(s) => risen_set(samples, s),
        BooleanOp::Fallen(s) => fallen_set(samples, s),
    }
}
