// Refusal 7: the lowest sequence or property node, not the root, in other than one operand place.
ghost use Rattle.std.specs.Prelude.{◌≡◌, ◌+◌, ◌*◌, ◌<◌, ◌≤◌, length};
ghost use Rattle.refusal.specs.Computed.{found};
ghost use Rattle.nodes.specs.Sorts.{operand_sort};
ghost use Rattle.nodes.specs.Nodes.{uses_of};
ghost use Rattle.faults.specs.Computed.{slot_of, astray, Counted};

use nodes::operators::{Operand, Sort, row_of};
use nodes::{SLOTS, named, node_at, sort_at};

// Where the operand byte v is counted: at its node, and past all nodes where it is no operand of a sort.
#[tactic(auto, unfolding(crate::specs::Computed::slot_of))]
fn slot(kind: Operand, v: u8) -> usize
    ensures value { result ≡ slot_of (operand_sort kind) v }
    ensures upper_bound { result ≤ 120 }
{
    match kind {
        Operand::Below(_) => 120,
        Operand::Node(_) => named(v),
    }
}

// In how many operand places of the n nodes each node stands.
fn uses_in(b: &[u8], n: usize) -> [u8; SLOTS]
    requires { (n ≤ 120) × (4 * n + 6 ≤ length b.now) }
    ensures { Counted b.now n result }
{
    let mut uses = [0; SLOTS];
    for j in 0..n {
        let v = node_at(b, j);
        let r = row_of(v.op);
        let x = slot(r.x, v.x);
        let y = slot(r.y, v.y);
        uses[x] += 1;
        uses[y] += 1;
    }
    uses
}

// Whether node k, of n, in so many operand places, is such a node.
#[tactic(auto, unfolding(crate::specs::Computed::astray))]
fn is_astray(b: &[u8], n: usize, k: usize, places: u8) -> bool
    requires { (k < n) × (4 * n + 6 ≤ length b.now) × (places ≡ uses_of b.now k n) }
    ensures { result ≡ astray b.now n k }
{
    match sort_at(b, k) {
        None | Some(Sort::Boolean) => false,
        Some(Sort::Sequence) | Some(Sort::Property) => k + 1 != n && places != 1,
    }
}

// The lowest such node below n.
pub fn first_astray(b: &[u8], n: usize) -> Option<usize>
    requires { (n ≤ 120) × (4 * n + 6 ≤ length b.now) }
    ensures { result ≡ found (astray b.now n) n }
{
    let uses = uses_in(b, n);
    for k in 0..n {
        if is_astray(b, n, k, uses[k]) {
            return Some(k);
        }
    }
    None
}
