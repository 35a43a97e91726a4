// Refusal 9: the lowest strong, weak or |-> node over a sequence that matches no k letters ⊤, k at least 1. Two flags a sequence are enough, and
// no clock changes them: what they say of matching is proved in `table`.
#![tactic(auto)]

ghost use Rattle.std.specs.Prelude.{◌≡◌, ◌+◌, ◌*◌, ◌≤◌, length};
ghost use Rattle.refusal.specs.Computed.{found};
ghost use Rattle.hollows.specs.Flags.{then_tops, fused_tops, either_tops, range_tops, later_tops, delay_tops, derived_tops, sequence_tops, node_tops, hollow_derived, hollow_property, hollow_node, hollow};

use nodes::{
    DerivedProperty, DerivedSequence, Node, PropertyOp, SLOTS, SequenceOp, named, node_at,
};

// What a sequence matches of a word of letters ⊤ alone: no letter; some letters, one or more.
#[derive(Clone, Copy)]
pub struct Tops {
    pub empty: bool,
    pub some: bool,
}

const NOTHING: Tops = Tops {
    empty: false,
    some: false,
};

const A_LETTER: Tops = Tops {
    empty: false,
    some: true,
};

const NO_LETTER: Tops = Tops {
    empty: true,
    some: false,
};

// Of ##1: a match of a and then one of b, either part possibly empty.
fn then_tops(a: Tops, b: Tops) -> Tops
    ensures { result ≡ then_tops a b }
{
    Tops {
        empty: a.empty & b.empty,
        some: (a.empty & b.some) | (a.some & (b.empty | b.some)),
    }
}

// Of ##0: two matches that share one letter.
fn fused_tops(a: Tops, b: Tops) -> Tops
    ensures { result ≡ fused_tops a b }
{
    Tops {
        empty: false,
        some: a.some & b.some,
    }
}

// Of or.
fn either_tops(a: Tops, b: Tops) -> Tops
    ensures { result ≡ either_tops a b }
{
    Tops {
        empty: a.empty | b.empty,
        some: a.some | b.some,
    }
}

// Of x[*m:n].
fn range_tops(m: usize, n: usize, x: Tops) -> Tops
    ensures { result ≡ range_tops m n x }
{
    if m == 0 {
        Tops {
            empty: true,
            some: (n != 0) & x.some,
        }
    } else {
        x
    }
}

// Of x ##1 1[*m:n] ##1 y.
fn later_tops(m: usize, n: usize, x: Tops, y: Tops) -> Tops
    ensures { result ≡ later_tops m n x y }
{
    then_tops(then_tops(x, range_tops(m, n, A_LETTER)), y)
}

// Of x ##[m:n] y.
#[tactic(auto, unfolding(crate::specs::Flags::delay_tops))]
fn delay_tops(m: usize, n: usize, x: Tops, y: Tops) -> Tops
    ensures { result ≡ delay_tops m n x y }
{
    let f = fused_tops(x, y);
    if n == 0 {
        return f;
    }
    if m == 0 {
        return either_tops(f, later_tops(0, n - 1, x, y));
    }
    later_tops(m - 1, n - 1, x, y)
}

// Of a derived sequence, as it is expanded, at any counts.
#[tactic(auto, unfolding(crate::specs::Flags::derived_tops))]
fn derived_tops(q: DerivedSequence, x: Tops, y: Tops) -> Tops
    ensures { result ≡ derived_tops q x y }
{
    match q {
        DerivedSequence::Repeated(_, m, n) => range_tops(m, n, x),
        DerivedSequence::Delayed(_, _, m, n) => delay_tops(m, n, x, y),
        DerivedSequence::Goto(_, m) => Tops {
            empty: m == 0,
            some: m != 0,
        },
        DerivedSequence::Nonconsecutive(_, m) => Tops {
            empty: m == 0,
            some: true,
        },
    }
}

// Of a sequence, by its kind and what its operands x and y match.
#[tactic(auto, unfolding(crate::specs::Flags::sequence_tops))]
fn sequence_tops(q: SequenceOp, x: Tops, y: Tops) -> Tops
    ensures { result ≡ sequence_tops q x y }
{
    match q {
        SequenceOp::Letter(_) => A_LETTER,
        SequenceOp::Then(_, _) => then_tops(x, y),
        SequenceOp::Fused(_, _) => fused_tops(x, y),
        SequenceOp::Either(_, _) => either_tops(x, y),
        SequenceOp::Empty(_) => NO_LETTER,
        SequenceOp::Repeat(_) => x,
        SequenceOp::Clocked(_, _) => y,
        SequenceOp::Derived(d) => derived_tops(d, x, y),
    }
}

// Booleans and properties match nothing.
#[tactic(auto, unfolding(crate::specs::Flags::node_tops))]
fn node_tops(v: Node, x: Tops, y: Tops) -> Tops
    ensures { result ≡ node_tops v x y }
{
    match v {
        Node::Boolean(_) => NOTHING,
        Node::Sequence(q) => sequence_tops(q, x, y),
        Node::Property(_) => NOTHING,
    }
}

// Whether what the derived node is expanded to asks for a match of x, or of x and one letter more, which matches no letters ⊤.
#[tactic(auto, unfolding(crate::specs::Flags::hollow_derived))]
fn hollow_derived(p: DerivedProperty, x: Tops) -> bool
    ensures { result ≡ hollow_derived p x }
{
    match p {
        DerivedProperty::ImpliesNext(_, _) => !(x.empty | x.some),
        DerivedProperty::Followed(_, _) => !x.some,
        DerivedProperty::FollowedNext(_, _) => !(x.empty | x.some),
        DerivedProperty::Always(_) => false,
        DerivedProperty::Eventually(_) => false,
        DerivedProperty::StrongUntil(_, _) => false,
        DerivedProperty::StrongNext(_) => false,
    }
}

// Whether the node asks for a match of its operand x, which matches no letters ⊤.
#[tactic(auto, unfolding(crate::specs::Flags::hollow_property))]
fn hollow_property(p: PropertyOp, x: Tops) -> bool
    ensures { result ≡ hollow_property p x }
{
    match p {
        PropertyOp::Strong(_) => !x.some,
        PropertyOp::Weak(_) => !x.some,
        PropertyOp::Negated(_) => false,
        PropertyOp::AnyOf(_, _) => false,
        PropertyOp::BothOf(_, _) => false,
        PropertyOp::Implies(_, _) => !x.some,
        PropertyOp::Next(_) => false,
        PropertyOp::Until(_, _) => false,
        PropertyOp::Ticked(_, _) => false,
        PropertyOp::Defined(d) => hollow_derived(d, x),
    }
}

// Booleans and sequences ask for nothing.
#[tactic(auto, unfolding(crate::specs::Flags::hollow_node))]
fn is_hollow(v: Node, x: Tops) -> bool
    ensures { result ≡ hollow_node v x }
{
    match v {
        Node::Boolean(_) => false,
        Node::Sequence(_) => false,
        Node::Property(p) => hollow_property(p, x),
    }
}

// The lowest such node below n: one pass, with the flags of the nodes below.
pub fn first_hollow(b: &[u8], n: usize) -> Option<usize>
    requires { (n ≤ 120) × (4 * n + 6 ≤ length b.now) }
    ensures { result ≡ found (hollow b.now) n }
{
    let mut done = [NOTHING; SLOTS];
    for k in 0..n {
        let raw = node_at(b, k);
        let v = Node::from(raw);
        let x = done[named(raw.x)];
        let y = done[named(raw.y)];
        if is_hollow(v, x) {
            return Some(k);
        }
        done[k] = node_tops(v, x, y);
    }
    None
}
