// The nodes of a table, for every crate that reads one: a node's four bytes, what its operator fixes, and the node that they stand for, one of
// three sorts, each with its own kinds.
#![tactic(auto)]

pub mod operators;

ghost use Rattle.std.specs.Prelude.{◌≡◌, ◌+◌, ◌*◌, ◌≤◌, length};
ghost use Rattle.refusal.specs.Heading.{count};
ghost use Rattle.nodes.specs.Operators.{Decodes};
ghost use Rattle.nodes.specs.Nodes.{raw_at, sort_at};
ghost use Rattle.nodes.specs.Sorts.{sort_number};
ghost use Rattle.nodes.specs.Computed.{named_by};

use operators::{Sort, row_of};

// Operator, x, y and the fourth byte.
#[derive(Clone, Copy)]
pub struct Raw {
    pub op: u8,
    pub x: u8,
    pub y: u8,
    pub fourth: u8,
}

// The nodes that a table may have, and one place past them for what names none.
pub const SLOTS: usize = 121;

// The node that the byte v names, or 120, the place past all nodes, so that a loop over the operands of nodes has no branch for a byte that names none.
#[tactic(auto, unfolding(crate::specs::Computed::named_by))]
pub fn named(v: u8) -> usize
    ensures value { result ≡ named_by v }
    ensures upper_bound { result ≤ 120 }
{
    usize::from(v).min(120)
}

// The count of a table's nodes.
pub fn count_of(b: &[u8]) -> usize
    requires { 6 ≤ length b.now }
    ensures { result ≡ count b.now }
{
    usize::from(b[5])
}

// The four bytes of node k.
pub fn node_at(b: &[u8], k: usize) -> Raw
    requires { 4 * k + 10 ≤ length b.now }
    ensures { result ≡ raw_at b.now k }
{
    let i = 4 * k + 6;
    Raw {
        op: b[i],
        x: b[i + 1],
        y: b[i + 2],
        fourth: b[i + 3],
    }
}

// The sort of a node, none where its operator is not known.
#[tactic(auto, unfolding(crate::specs::Nodes::sort_at))]
pub fn sort_at(b: &[u8], k: usize) -> Option<Sort>
    requires { 4 * k + 10 ≤ length b.now }
    ensures { sort_number result ≡ sort_at b.now k }
{
    row_of(node_at(b, k).op).own
}

// The kinds of a boolean, operators 0 to 6. A constant has its value, and a signal, one risen and one fallen its number; every other number is an
// operand's index.
#[derive(Clone, Copy)]
pub enum BooleanOp {
    Constant(usize),
    Signal(usize),
    Not(usize),
    And(usize, usize),
    Or(usize, usize),
    Risen(usize),
    Fallen(usize),
}

// The kinds of a derived sequence, operators 23 to 26: [*m:n], ##[m:n], [->m], [=m]. After the operands come m and n.
#[derive(Clone, Copy)]
pub enum DerivedSequence {
    Repeated(usize, usize, usize),
    Delayed(usize, usize, usize, usize),
    Goto(usize, usize),
    Nonconsecutive(usize, usize),
}

// The kinds of a derived property, operators 41 to 47: |=>, #-#, #=#, always, s_eventually, s_until, s_nexttime.
#[derive(Clone, Copy)]
pub enum DerivedProperty {
    ImpliesNext(usize, usize),
    Followed(usize, usize),
    FollowedNext(usize, usize),
    Always(usize),
    Eventually(usize),
    StrongUntil(usize, usize),
    StrongNext(usize),
}

// The kinds of a sequence, operators 16 to 22: one letter, ##1, ##0, or, [*0], [*1:$], @(c); and the derived ones.
#[derive(Clone, Copy)]
pub enum SequenceOp {
    Letter(usize),
    Then(usize, usize),
    Fused(usize, usize),
    Either(usize, usize),
    Empty(usize),
    Repeat(usize),
    Clocked(usize, usize),
    Derived(DerivedSequence),
}

// The kinds of a property, operators 32 to 40: strong, weak, not, or, and, |->, nexttime, until, @(c); and the derived ones.
#[derive(Clone, Copy)]
pub enum PropertyOp {
    Strong(usize),
    Weak(usize),
    Negated(usize),
    AnyOf(usize, usize),
    BothOf(usize, usize),
    Implies(usize, usize),
    Next(usize),
    Until(usize, usize),
    Ticked(usize, usize),
    Defined(DerivedProperty),
}

// A decoded node.
#[derive(Clone, Copy)]
pub enum Node {
    Boolean(BooleanOp),
    Sequence(SequenceOp),
    Property(PropertyOp),
}

impl From<Raw> for Node {
    ghost from_gives = { Decodes };

    // The node that four bytes stand for. An unknown operator, which no accepted table has, is taken for the constant 0.
    fn from(n: Raw) -> Node {
        let x = usize::from(n.x);
        let y = usize::from(n.y);
        let count = usize::from(n.fourth);
        let low = count % 16;
        let high = count / 16;
        match n.op {
            0 => Node::Boolean(BooleanOp::Constant(x)),
            1 => Node::Boolean(BooleanOp::Signal(x)),
            2 => Node::Boolean(BooleanOp::Not(x)),
            3 => Node::Boolean(BooleanOp::And(x, y)),
            4 => Node::Boolean(BooleanOp::Or(x, y)),
            5 => Node::Boolean(BooleanOp::Risen(x)),
            6 => Node::Boolean(BooleanOp::Fallen(x)),
            16 => Node::Sequence(SequenceOp::Letter(x)),
            17 => Node::Sequence(SequenceOp::Then(x, y)),
            18 => Node::Sequence(SequenceOp::Fused(x, y)),
            19 => Node::Sequence(SequenceOp::Either(x, y)),
            20 => Node::Sequence(SequenceOp::Empty(x)),
            21 => Node::Sequence(SequenceOp::Repeat(x)),
            22 => Node::Sequence(SequenceOp::Clocked(x, y)),
            23 => Node::Sequence(SequenceOp::Derived(DerivedSequence::Repeated(x, low, high))),
            24 => Node::Sequence(SequenceOp::Derived(DerivedSequence::Delayed(x, y, low, high))),
            25 => Node::Sequence(SequenceOp::Derived(DerivedSequence::Goto(x, count))),
            26 => Node::Sequence(SequenceOp::Derived(DerivedSequence::Nonconsecutive(x, count))),
            32 => Node::Property(PropertyOp::Strong(x)),
            33 => Node::Property(PropertyOp::Weak(x)),
            34 => Node::Property(PropertyOp::Negated(x)),
            35 => Node::Property(PropertyOp::AnyOf(x, y)),
            36 => Node::Property(PropertyOp::BothOf(x, y)),
            37 => Node::Property(PropertyOp::Implies(x, y)),
            38 => Node::Property(PropertyOp::Next(x)),
            39 => Node::Property(PropertyOp::Until(x, y)),
            40 => Node::Property(PropertyOp::Ticked(x, y)),
            41 => Node::Property(PropertyOp::Defined(DerivedProperty::ImpliesNext(x, y))),
            42 => Node::Property(PropertyOp::Defined(DerivedProperty::Followed(x, y))),
            43 => Node::Property(PropertyOp::Defined(DerivedProperty::FollowedNext(x, y))),
            44 => Node::Property(PropertyOp::Defined(DerivedProperty::Always(x))),
            45 => Node::Property(PropertyOp::Defined(DerivedProperty::Eventually(x))),
            46 => Node::Property(PropertyOp::Defined(DerivedProperty::StrongUntil(x, y))),
            47 => Node::Property(PropertyOp::Defined(DerivedProperty::StrongNext(x))),
            _ => Node::Boolean(BooleanOp::Constant(0)),
        }
    }
}
