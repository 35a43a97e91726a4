// The rows of a table without clocks, in the lent workspace: 65 words a node, made from the rows below it by word operations.
#![tactic(auto)]

ghost use Rattle.std.specs.Prelude.{◌≡◌, ◌*◌, ◌≤◌, length, take};
ghost use Rattle.cells.specs.Shares.{share, longest, HasRow};
ghost use Rattle.cells.specs.Stored.{with_row};
ghost use Rattle.rows.specs.Rows.{three_row, node_row, filled, Ready, Fits};

use booleans::boolean_set;
use cells::{SHARE, Span, clear};
use nodes::{Node, node_at};
use properties::{Suffixes, suffixes_of};
use sequences::put_sequence;

// A row of three words, the others 0.
fn put_three(ws: &mut [u64], k: usize, words: Suffixes)
    requires { HasRow (length ws.old) k }
    ensures { ws.new ≡ with_row ws.old k (three_row words) }
{
    let at = SHARE * k;
    ws[at] = words.neutral.bits;
    ws[at + 1] = words.weak.bits;
    ws[at + 2] = words.strong.bits;
    clear(ws, at, 3, SHARE);
}

// Row k, from the rows below it.
fn put_row(ws: &mut [u64], samples: &[u64], k: usize, node: Node)
    requires { HasRow (length ws.old) k × Ready (share * k) node × (length samples.now ≤ longest) }
    ensures { ws.new ≡ with_row ws.old k (node_row (take (share * k) ws.old) samples.now node) }
{
    let at = SHARE * k;
    let span = Span { n: samples.len() };
    match node {
        Node::Boolean(op) => {
            let set = boolean_set(&ws[..at], SHARE, samples, op);
            let words = Suffixes {
                neutral: set,
                ..Suffixes::none()
            };
            put_three(ws, k, words);
        }
        Node::Sequence(op) => put_sequence(ws, k, op, span),
        Node::Property(op) => {
            let words = suffixes_of(&ws[..at], span, op);
            put_three(ws, k, words);
        }
    }
}

// The rows of the m nodes of a table without clocks, in the first 65m words; the words from there on stay.
pub fn fill(table: &[u8], samples: &[u64], ws: &mut [u64], m: usize)
    requires { Fits table.now samples.now ws.old m }
    ensures { ws.new ≡ filled table.now samples.now ws.old m }
{
    for k in 0..m {
        put_row(ws, samples, k, Node::from(node_at(table, k)));
    }
}
