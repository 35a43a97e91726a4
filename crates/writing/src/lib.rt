// Writes the new table into the bytes lent: its heading, the blocks of the booleans and then those of the other nodes, each pass in order.
#![tactic(auto)]

ghost use Rattle.std.specs.Prelude.{◌≡◌, ◌+◌, ◌*◌, ◌<◌, ◌≤◌, length, get_or};
ghost use Rattle.std.specs.Option.{option_map};
ghost use Rattle.refusal.specs.Heading.{count};
ghost use Rattle.nodes.specs.Computed.{named_by};
ghost use Rattle.clocks.specs.Computed.{clock_by};
ghost use Rattle.numbers.specs.Numbers.{new_count, length_of};
ghost use Rattle.numbers.specs.Computed.{CountsOf, Numbered};
ghost use Rattle.encoding.specs.Encoding.{put, put_nodes};
ghost use Rattle.writing.specs.Tables.{headed, block_of, new_table};
ghost use Rattle.writing.specs.Computed.{pass_start, given_below, TableFits, BlockFits};

use blocks::block_node;
use encoding::{moved_operand, put_heading, put_node};
use nodes::operators::{Sort, row_of};
use nodes::{SLOTS, count_of, named, node_at, sort_at};
use numbers::{Counts, length_under};

// A clock by its condition's new number.
fn moved_clock(numbers: &[u8; SLOTS], clock: Option<u8>) -> Option<u8>
    ensures { result ≡ option_map (λ c. get_or numbers.now (named_by c) 0) clock }
{
    clock.map(|c| numbers[named(c)])
}

// Writes the block of node k, from node `at` on, and answers the number after it.
fn put_block(
    b: &[u8],
    clocks: &[Option<u8>; SLOTS],
    numbers: &[u8; SLOTS],
    out: &mut [u8],
    k: usize,
    at: usize,
) -> usize
    requires numbered { Numbered b.now clocks.now numbers.now × (k < count b.now) }
    requires block_fits { BlockFits b.now clocks.now k at out.old }
    ensures value { result ≡ at + length_of b.now (clock_by clocks.now) k }
    ensures out_after { out.new ≡ put_nodes out.old at (block_of b.now (clock_by clocks.now) k) }
{
    let v = node_at(b, k);
    let r = row_of(v.op);
    let x = moved_operand(numbers, r.x, v.x);
    let y = moved_operand(numbers, r.y, v.y);
    let c = moved_clock(numbers, clocks[k]);
    let long = length_under(clocks[k], r.block);
    for i in 0..long {
        put_node(out, at + i, block_node(c, at as u8, v.op, x, y, i));
    }
    at + long
}

// Writes the blocks of a pass, that of the booleans or that of the others, from node `from` on.
fn put_pass(
    b: &[u8],
    clocks: &[Option<u8>; SLOTS],
    numbers: &[u8; SLOTS],
    booleans: bool,
    out: &mut [u8],
    from: usize,
)
    requires numbered { Numbered b.now clocks.now numbers.now }
    requires begins { (from ≡ pass_start b.now (clock_by clocks.now) booleans) × TableFits (new_count b.now (clock_by clocks.now)) out.old }
    ensures { out.new ≡ put_nodes out.old from (given_below b.now clocks.now booleans (count b.now)) }
{
    let mut at = from;
    for k in 0..count_of(b) {
        let boolean = sort_at(b, k) == Some(Sort::Boolean);
        if boolean == booleans {
            at = put_block(b, clocks, numbers, out, k, at);
        }
    }
}

// The heading, with the version of the table b.
fn put_headed(b: &[u8], out: &mut [u8], m: usize)
    requires { (m ≤ 120) × (6 ≤ length b.now) × (6 ≤ length out.old) }
    ensures { out.new ≡ put out.old 0 (headed b.now m) }
{
    put_heading(out, b[3], b[4], m);
}

// Writes the whole new table.
pub fn put_table(
    b: &[u8],
    clocks: &[Option<u8>; SLOTS],
    numbers: &[u8; SLOTS],
    counts: Counts,
    out: &mut [u8],
)
    requires numbered { Numbered b.now clocks.now numbers.now }
    requires counts_of { CountsOf b.now clocks.now counts × TableFits counts.all out.old }
    ensures { out.new ≡ put out.old 0 (new_table b.now (clock_by clocks.now)) }
{
    put_headed(b, out, counts.all);
    put_pass(b, clocks, numbers, true, out, 0);
    put_pass(b, clocks, numbers, false, out, counts.booleans);
}
