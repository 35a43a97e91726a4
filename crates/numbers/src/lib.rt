// How many new nodes there are, and the new number of each node: first all booleans in their order, then one block per other node in order.
#![tactic(auto)]

ghost use Rattle.std.specs.Prelude.{◌≡◌, ◌*◌, ◌≤◌};
ghost use Rattle.refusal.specs.Heading.{count};
ghost use Rattle.clocks.specs.Computed.{ref_of, Timed};
ghost use Rattle.numbers.specs.Numbers.{length_under};
ghost use Rattle.numbers.specs.Computed.{CountsOf, Numbered};

use nodes::operators::{Sort, row_of};
use nodes::{SLOTS, count_of, named, node_at};

// How many new nodes there are: of the booleans, and of all.
#[derive(Clone, Copy)]
pub struct Counts {
    pub booleans: usize,
    pub all: usize,
}

// The length of a block. The operator's row has it for a node under a clock; with no clock it is one node, of a clock node none.
#[tactic(auto, unfolding(crate::specs::Numbers::length_under))]
pub fn length_under(clock: Option<u8>, block: u8) -> usize
    ensures { result ≡ length_under (ref_of clock) block }
{
    match clock {
        None => usize::from(block.min(1)),
        Some(_) => usize::from(block),
    }
}

// The counts of the nodes' blocks.
pub fn counts_of(b: &[u8], clocks: &[Option<u8>; SLOTS]) -> Counts
    requires { Timed b.now clocks.now }
    ensures counts_of { CountsOf b.now clocks.now result }
    ensures bounds { (result.booleans ≤ 14 * count b.now) × (result.all ≤ 14 * count b.now) }
{
    let mut booleans = 0;
    let mut all = 0;
    for k in 0..count_of(b) {
        let v = node_at(b, k);
        let r = row_of(v.op);
        let long = length_under(clocks[k], r.block);
        if r.own == Some(Sort::Boolean) {
            booleans += long;
        }
        all += long;
    }
    Counts { booleans, all }
}

// The new numbers of the nodes, where there are so many new nodes, in the places lent. A block's last node stands for its node; for a clock node its
// operand's does.
pub fn numbers_of(b: &[u8], clocks: &[Option<u8>; SLOTS], counts: Counts, numbers: &mut [u8; SLOTS])
    requires timed { Timed b.now clocks.now }
    requires counts_of { CountsOf b.now clocks.now counts × (counts.all ≤ 120) }
    ensures { Numbered b.now clocks.now numbers.new }
{
    let mut first = 0;
    let mut later = counts.booleans;
    for k in 0..count_of(b) {
        let v = node_at(b, k);
        let r = row_of(v.op);
        let boolean = r.own == Some(Sort::Boolean);
        let start = if boolean { first } else { later };
        let end = start + length_under(clocks[k], r.block);
        numbers[k] = if r.block == 0 {
            numbers[named(v.y)]
        } else {
            (end - 1) as u8
        };
        if boolean {
            first = end;
        } else {
            later = end;
        }
    }
}
