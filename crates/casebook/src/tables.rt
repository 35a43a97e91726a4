// What expanding or rewriting answered: a table in the bytes that were lent, its nodes as document 01 writes them: 3(1,0) has operator 3, x 1 and y 0.
ghost use Rattle.std.specs.Prelude.{◌+◌, ◌*◌, ◌≤◌, length};

use casetext::answers::{accepted, put_count};
use casetext::output::put_bytes;
use casetext::print::Printer;
use casetext::short::put_digits;
use nodes::operators::{Operand, row_of};
use nodes::{Raw, node_at};
use refusal::Verdict;

// y and the fourth byte. The 0 that an operator asks for is left out, and any other byte is printed, so that it is seen.
fn put_later(out: &Printer<impl Print>, v: Raw) {
    let row = row_of(v.op);
    if v.y != 0 || v.fourth != 0 || matches!(row.y, Operand::Node(_)) {
        print!(out; ",{}", v.y);
    }
    if v.fourth != 0 {
        print!(out; ",{}", v.fourth);
    }
}

fn put_node(out: &Printer<impl Print>, v: Raw) {
    print!(out; " {}({}", v.op, v.x);
    put_later(out, v);
    out.print(")");
}

fn put_nodes(out: &Printer<impl Print>, bytes: &[u8], count: usize)
    requires { 4 * count + 6 ≤ length bytes.now }
{
    for k in 0..count {
        put_node(out, node_at(bytes, k));
    }
}

// The heading, so many nodes, and the bytes after them. Where the bytes are too few for so many, no byte is taken for a node.
fn put_table(out: &Printer<impl Print>, bytes: &[u8], count: usize) {
    if count > 120 || bytes.len() < 4 * count + 6 {
        put_bytes(out, bytes, 0);
        return;
    }
    let end = 4 * count + 6;
    let (table, rest) = bytes.split_at(end);
    put_bytes(out, &table[..6], 0);
    put_nodes(out, table, count);
    put_bytes(out, rest, end);
}

// After an acceptance the bytes begin with a table.
fn put_output(out: &Printer<impl Print>, v: Verdict, count: usize, bytes: &[u8]) {
    if out.short {
        put_digits(out, bytes);
    } else if accepted(v) {
        put_table(out, bytes, count);
    } else {
        put_bytes(out, bytes, 0);
    }
}

// What was answered, and the bytes that were lent.
pub fn written(out: &Printer<impl Print>, label: &[u8], v: Verdict, count: usize, bytes: &[u8]) {
    out.label(label);
    put_count(out, v, count, "nodes");
    out.print(", bytes");
    put_output(out, v, count, bytes);
    out.print("\n");
}
