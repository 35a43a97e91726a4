// The block that each node is rewritten to, node by node, as document 01 lists them. `at` is the number of a block's first node; c, x, y and what else names a
// node are new numbers.
#![tactic(auto)]

ghost use Rattle.std.specs.Prelude.{◌≡◌, ◌<◌, ◌≤◌, length, get_or};
ghost use Rattle.nodes.specs.Operators.{bytes, bytes_of};
ghost use Rattle.blocks.specs.Blocks.{letter_block, next_block, until_block, under_block};
ghost use Rattle.encoding.specs.Encoding.{blank, blank_node};
ghost use Rattle.blocks.specs.Computed.{kind_block};

use nodes::Raw;

// The four bytes of op(x, y).
fn node(op: u8, x: u8, y: u8) -> Raw
    ensures { result ≡ bytes op x y }
{
    Raw {
        op,
        x,
        y,
        fourth: 0,
    }
}

// Node i of letter b under c.
#[tactic(auto, unfolding(nodes::specs::Operators::bytes_of, nodes::specs::Operators::boolean_bytes, nodes::specs::Operators::sequence_bytes, nodes::specs::Operators::property_bytes))]
fn letter_node(at: u8, c: u8, b: u8, i: usize) -> Raw
    requires { (at ≤ 120) × (i < 9) }
    ensures { result ≡ bytes_of (get_or (letter_block at c b) i blank_node) }
{
    match i {
        0 => node(2, c, 0),
        1 => node(3, c, b),
        2 => node(16, at, 0),
        3 => node(20, at + 2, 0),
        4 => node(16, at, 0),
        5 => node(21, at + 4, 0),
        6 => node(19, at + 3, at + 5),
        7 => node(16, at + 1, 0),
        _ => node(17, at + 6, at + 7),
    }
}

// Node i of nexttime p under c.
#[tactic(auto, unfolding(nodes::specs::Operators::bytes_of, nodes::specs::Operators::boolean_bytes, nodes::specs::Operators::sequence_bytes, nodes::specs::Operators::property_bytes))]
fn next_node(at: u8, c: u8, p: u8, i: usize) -> Raw
    requires { (at ≤ 120) × (i < 14) }
    ensures { result ≡ bytes_of (get_or (next_block at c p) i blank_node) }
{
    match i {
        0 => node(2, c, 0),
        1 => node(16, at, 0),
        2 => node(32, at + 1, 0),
        3 => node(16, c, 0),
        4 => node(32, at + 3, 0),
        5 => node(36, at + 4, p),
        6 => node(39, at + 2, at + 5),
        7 => node(38, at + 6, 0),
        8 => node(16, c, 0),
        9 => node(32, at + 8, 0),
        10 => node(36, at + 9, at + 7),
        11 => node(16, at, 0),
        12 => node(32, at + 11, 0),
        _ => node(39, at + 12, at + 10),
    }
}

// Node i of p until q under c.
#[tactic(auto, unfolding(nodes::specs::Operators::bytes_of, nodes::specs::Operators::boolean_bytes, nodes::specs::Operators::sequence_bytes, nodes::specs::Operators::property_bytes))]
fn until_node(at: u8, c: u8, p: u8, q: u8, i: usize) -> Raw
    requires { (at ≤ 120) × (i < 9) }
    ensures { result ≡ bytes_of (get_or (until_block at c p q) i blank_node) }
{
    match i {
        0 => node(16, c, 0),
        1 => node(32, at, 0),
        2 => node(34, p, 0),
        3 => node(36, at + 1, at + 2),
        4 => node(34, at + 3, 0),
        5 => node(16, c, 0),
        6 => node(32, at + 5, 0),
        7 => node(36, at + 6, q),
        _ => node(39, at + 4, at + 7),
    }
}

// Node i of the block of op(x, y) under c.
fn under_node(at: u8, c: u8, op: u8, x: u8, y: u8, i: usize) -> Raw
    requires { (at ≤ 120) × (i < length (under_block at c op x y)) }
    ensures { result ≡ get_or (under_block at c op x y) i blank }
{
    match op {
        16 => letter_node(at, c, x, i),
        38 => next_node(at, c, x, i),
        39 => until_node(at, c, x, y, i),
        _ => node(op, x, y),
    }
}

// Node i of the block of op(x, y), which is no clock node, under the condition c: with no clock it is one node.
#[tactic(auto, using(crate::proofs::Making::alone), unfolding(crate::specs::Computed::kind_block))]
pub fn block_node(c: Option<u8>, at: u8, op: u8, x: u8, y: u8, i: usize) -> Raw
    requires { (at ≤ 120) × (i < length (kind_block c at op x y)) }
    ensures { result ≡ get_or (kind_block c at op x y) i blank }
{
    match c {
        None => node(op, x, y),
        Some(c) => under_node(at, c, op, x, y, i),
    }
}
