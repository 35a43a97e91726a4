// The samples that satisfy each boolean of a table: one set a node, upwards, once.
#![tactic(auto)]

ghost use Rattle.std.specs.Prelude.{◌≡◌, ◌<◌, length, get_or};
ghost use Rattle.refusal.specs.Heading.{count};
ghost use Rattle.conditions.specs.Conditions.{Shaped, Conditioned, Below, Conditions};

use booleans::boolean_set;
use nodes::{Node, node_at};
use positions::PositionSet;

// The set of node b.
pub fn set_at(sets: &[u64], b: usize) -> PositionSet
    requires { b < length sets.now }
    ensures { result.bits ≡ get_or sets.now b 0 }
{
    PositionSet { bits: sets[b] }
}

// The set of node k, where that is a boolean, from the sets of the nodes below it.
fn set_of(table: &[u8], samples: &[u64], sets: &[u64], k: usize) -> PositionSet
    requires { Shaped table.now samples.now × (k < count table.now) × Below table.now samples.now k sets.now }
    ensures { Conditioned table.now samples.now k result.bits }
{
    match Node::from(node_at(table, k)) {
        Node::Boolean(op) => boolean_set(sets, 1, samples, op),
        Node::Sequence(_) | Node::Property(_) => PositionSet::empty(),
    }
}

// The sets of all nodes; a node that is no boolean has none.
pub fn conditions(table: &[u8], samples: &[u64]) -> [u64; 120]
    requires { Shaped table.now samples.now }
    ensures { Conditions table.now samples.now result }
{
    let m = usize::from(table[5]);
    let mut sets = [0; 120];
    for k in 0..m {
        let set = set_of(table, samples, &sets, k);
        sets[k] = set.bits;
    }
    sets
}
