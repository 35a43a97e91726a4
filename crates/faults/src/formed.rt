// Refusal 6: the lowest node that is not well formed.
ghost use Rattle.std.specs.Prelude.{◌≡◌, ◌+◌, ◌*◌, ◌≤◌, length};
ghost use Rattle.refusal.specs.Computed.{found};
ghost use Rattle.nodes.specs.Sorts.{operand_sort, operand_limit, fourth_number, row_numbers};
ghost use Rattle.faults.specs.Computed.{operand_fits, fourth_fits, is_known_in, node_fits, unfit};

use nodes::operators::{FourthByte, Operand, Row, row_of};
use nodes::{node_at, sort_at};
use refusal::version_of;

// Whether v serves as an operand byte of node k: a plain byte below the limit, or the index of a lower node of the sort.
#[tactic(auto, unfolding(crate::specs::Computed::operand_fits))]
fn operand(b: &[u8], k: usize, kind: Operand, v: u8) -> bool
    requires { 4 * k + 10 ≤ length b.now }
    ensures { result ≡ operand_fits b.now k (operand_sort kind) (operand_limit kind) v }
{
    match kind {
        Operand::Below(limit) => v < limit,
        Operand::Node(sort) => {
            let i = usize::from(v);
            i < k && sort_at(b, i) == Some(sort)
        }
    }
}

// Whether v serves as a fourth byte of that kind.
#[tactic(auto, unfolding(crate::specs::Computed::fourth_fits))]
fn fourth_fits(kind: FourthByte, v: u8) -> bool
    ensures { result ≡ fourth_fits (fourth_number kind) v }
{
    match kind {
        FourthByte::Zero => v == 0,
        FourthByte::Range => v % 16 <= v / 16,
        FourthByte::Count => v <= 15,
    }
}

// Whether the operator of the row is known in the version.
fn known_in(r: Row, version: usize) -> bool
    ensures { result ≡ is_known_in (row_numbers r) version }
{
    (usize::from(r.first)..=usize::from(r.last)).contains(&version)
}

// Whether node k is well formed in a table of the version.
#[tactic(auto, unfolding(crate::specs::Computed::node_fits, nodes::specs::Nodes::sort_at))]
fn node_fits(b: &[u8], version: usize, k: usize) -> bool
    requires { 4 * k + 10 ≤ length b.now }
    ensures { result ≡ node_fits b.now version k }
{
    let n = node_at(b, k);
    let r = row_of(n.op);
    r.own.is_some()
        && known_in(r, version)
        && fourth_fits(r.fourth, n.fourth)
        && operand(b, k, r.x, n.x)
        && operand(b, k, r.y, n.y)
}

// The lowest node below n that is not well formed.
pub fn first_unfit(b: &[u8], n: usize) -> Option<usize>
    requires { 4 * n + 6 ≤ length b.now }
    ensures { result ≡ found (unfit b.now) n }
{
    let version = version_of(b);
    for k in 0..n {
        if !node_fits(b, version, k) {
            return Some(k);
        }
    }
    None
}
