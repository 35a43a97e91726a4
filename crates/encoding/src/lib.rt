// A table as bytes: its heading and its nodes, put into bytes that are lent.
#![tactic(auto)]

ghost use Rattle.std.specs.Prelude.{◌≡◌, cond, ◌+◌, ◌*◌, ◌<◌, ◌≤◌, eqb, length, get_or};
ghost use Rattle.nodes.specs.Operators.{none};
ghost use Rattle.nodes.specs.Sorts.{operand_sort};
ghost use Rattle.nodes.specs.Computed.{named_by};
ghost use Rattle.encoding.specs.Encoding.{heading, four_bytes, put};

use nodes::operators::{NO_SORT, Operand};
use nodes::{Raw, SLOTS, named};

// The bytes of the largest table: the heading and 120 nodes.
pub const TABLE_BYTES: usize = 486;

// Writes the four bytes of node `at`, each by a store of its own: a copy of four bytes made rewriting a tenth slower.
pub fn put_node(out: &mut [u8], at: usize, v: Raw)
    requires { 4 * at + 10 ≤ length out.old }
    ensures { out.new ≡ put out.old (4 * at + 6) (four_bytes v) }
{
    let i = 4 * at + 6;
    out[i] = v.op;
    out[i + 1] = v.x;
    out[i + 2] = v.y;
    out[i + 3] = v.fourth;
}

// Writes the mark, the two bytes of the version, and the count.
pub fn put_heading(out: &mut [u8], first: u8, second: u8, m: usize)
    requires { (m ≤ 120) × (6 ≤ length out.old) }
    ensures { out.new ≡ put out.old 0 (heading first second m) }
{
    out[..6].copy_from_slice(&[b'S', b'V', b'T', first, second, m as u8]);
}

// An operand byte of the sort, by its new number; any other byte as it is. The sort is a number, and any number will do.
pub fn moved_byte(numbers: &[u8; SLOTS], sort: u8, v: u8) -> u8
    ensures { result ≡ cond (eqb sort none) v (get_or numbers.now (named_by v) 0) }
{
    if sort == NO_SORT {
        v
    } else {
        numbers[named(v)]
    }
}

// An operand that is a node, by its new number; a plain byte as it is.
pub fn moved_operand(numbers: &[u8; SLOTS], kind: Operand, v: u8) -> u8
    ensures { result ≡ cond (eqb (operand_sort kind) none) v (get_or numbers.now (named_by v) 0) }
{
    moved_byte(numbers, kind.sort(), v)
}
