// The clock of each node of an accepted table: the condition of the nearest clock node above it, if any.
#![tactic(auto)]

ghost use Rattle.std.specs.Prelude.{◌≡◌, cond, ◌≤◌, eqb, replicate, Some, None};
ghost use Rattle.nodes.specs.Sorts.{operand_sort};
ghost use Rattle.clocks.specs.Computed.{AcceptedTable, part_of, Timed};

use nodes::operators::{Operand, Row, Sort, row_of};
use nodes::{SLOTS, count_of, named, node_at};

// Where the clock of the operand v is kept: at its node, and past all nodes where it is no sequence and no property.
#[tactic(auto, unfolding(crate::specs::Computed::part_of))]
fn part(kind: Operand, v: u8) -> usize
    ensures value { result ≡ part_of (operand_sort kind) v }
    ensures upper_bound { result ≤ 120 }
{
    match kind {
        Operand::Node(Sort::Sequence) | Operand::Node(Sort::Property) => named(v),
        _ => 120,
    }
}

// The clock that a node hands down to its parts: a clock node its condition x, any other its own.
fn handed_down(row: Row, x: u8, own: Option<u8>) -> Option<u8>
    ensures { result ≡ cond (eqb row.block 0) (Some x) own }
{
    if row.block == 0 { Some(x) } else { own }
}

// The clocks of the nodes, from the root down, in places that are lent with no clock in them. A clock is the number of its condition.
pub fn clocks_of(b: &[u8], clocks: &mut [Option<u8>; SLOTS])
    requires { AcceptedTable b.now × (clocks.old ≡ replicate 121 None) }
    ensures { Timed b.now clocks.new }
{
    for p in (0..count_of(b)).rev() {
        let v = node_at(b, p);
        let r = row_of(v.op);
        let c = handed_down(r, v.x, clocks[p]);
        clocks[part(r.x, v.x)] = c;
        clocks[part(r.y, v.y)] = c;
    }
}
