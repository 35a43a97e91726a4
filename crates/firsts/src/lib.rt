// The booleans of an expanded table, which come first, in one pass: each boolean node, and the boolean that a derived node's block makes.
#![tactic(auto)]

ghost use Rattle.std.specs.Prelude.{◌≡◌, ◌+◌, ◌*◌, ◌<◌, ◌≤◌, length};
ghost use Rattle.nodes.specs.Operators.{none, row_of};
ghost use Rattle.nodes.specs.Nodes.{WellFormed};
ghost use Rattle.encoding.specs.Encoding.{put_nodes};
ghost use Rattle.expansion.specs.Booleans.{given_at};
ghost use Rattle.firsts.specs.Gifts.{gift_of};
ghost use Rattle.expansion.specs.Formed.{Formed, NumberedBelow};
ghost use Rattle.firsts.specs.Firsts.{FirstsPut};

use encoding::{moved_operand, put_node};
use nodes::operators::row_of;
use nodes::{Raw, SLOTS, node_at};

// The boolean that a node gives the new table, if any, with its old operand numbers. A boolean gives itself; |=>, #=# and ##[m:n] with n > 0 make 1, always,
// s_eventually and s_until make 0, [->m] and [=m] make !b.
#[tactic(auto, using(crate::proofs::Arms::no_arm), unfolding(crate::specs::Gifts::gift_of, crate::specs::Gifts::first_gift, expansion::specs::Booleans::given, nodes::specs::Operators::node_of, nodes::specs::Operators::operators, nodes::specs::Operators::lookup, nodes::specs::Operators::boolean_bytes))]
fn given(v: Raw) -> Option<Raw>
    requires { ¬ ((row_of v.op).own ≡ none) }
    ensures { result ≡ gift_of v }
{
    let (op, x, y) = match v.op {
        0 | 1 | 2 | 5 | 6 => (v.op, v.x, 0),
        3 | 4 => (v.op, v.x, v.y),
        24 if 16 <= v.fourth => (0, 1, 0),
        25 | 26 => (2, v.x, 0),
        41 | 43 => (0, 1, 0),
        44 | 45 | 46 => (0, 0, 0),
        _ => return None,
    };
    Some(Raw {
        op,
        x,
        y,
        fourth: 0,
    })
}

// Writes what node k gives as node `at`, and answers the number after it.
fn put_given(b: &[u8], k: usize, numbers: &[u8; SLOTS], out: &mut [u8], at: usize) -> usize
    requires { WellFormed b.now k × (4 * k + 10 ≤ length b.now) × NumberedBelow b.now k numbers.now × (k < 120) × (at < 120) × (486 ≤ length out.old) }
    ensures value { result ≡ at + length (given_at b.now k) }
    ensures out_after { out.new ≡ put_nodes out.old at (given_at b.now k) }
{
    let Some(v) = given(node_at(b, k)) else {
        return at;
    };
    let r = row_of(v.op);
    let x = moved_operand(numbers, r.x, v.x);
    let y = moved_operand(numbers, r.y, v.y);
    put_node(
        out,
        at,
        Raw {
            op: v.op,
            x,
            y,
            fourth: 0,
        },
    );
    at + 1
}

// Writes all that the n nodes give, from node 0 on, and answers how many; each node's number is left in `numbers`.
pub fn put_booleans(b: &[u8], n: usize, numbers: &mut [u8; SLOTS], out: &mut [u8]) -> usize
    requires { Formed b.now n × (486 ≤ length out.old) }
    ensures { FirstsPut b.now n out.old result numbers.new out.new }
{
    let mut at = 0;
    for k in 0..n {
        numbers[k] = at as u8;
        at = put_given(b, k, numbers, out, at);
    }
    at
}
