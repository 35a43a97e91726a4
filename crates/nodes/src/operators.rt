// The table of operators as constant rows: each operator fixes the versions in which it is known, the sort of its node, what each operand and its fourth
// byte may be, and the length of its block.
ghost use Rattle.std.specs.Prelude.{◌≡◌};
ghost use Rattle.nodes.specs.Operators.{none, row_of};
ghost use Rattle.nodes.specs.Sorts.{sort_number, row_numbers, operand_sort, operand_limit};

// The sorts of nodes.
#[derive(Clone, Copy, PartialEq, Eq)]
pub enum Sort {
    Boolean,
    Sequence,
    Property,
}

// The number of no sort.
pub const NO_SORT: u8 = 0;

// The number of a sort, for those who ask by it, in the order of the sorts.
#[tactic(auto, unfolding(crate::specs::Sorts::sort_number))]
pub fn sort_number(sort: Option<Sort>) -> u8
    ensures { result ≡ sort_number sort }
{
    match sort {
        None => NO_SORT,
        Some(Sort::Boolean) => 1,
        Some(Sort::Sequence) => 2,
        Some(Sort::Property) => 3,
    }
}

// What an operand byte may be: a number below a limit, which is 1 for a byte that is not used, or the index of a lower node of the sort.
#[derive(Clone, Copy)]
pub enum Operand {
    Below(u8),
    Node(Sort),
}

impl Operand {
    // The number of an operand's sort, 0 for a plain number.
    #[tactic(auto, unfolding(crate::specs::Sorts::operand_sort))]
    pub fn sort(self) -> u8
        ensures { result ≡ operand_sort self }
    {
        match self {
            Operand::Below(_) => NO_SORT,
            Operand::Node(sort) => sort_number(Some(sort)),
        }
    }
}

// What the fourth byte may be: 0; m + 16n with m at most n; m, at most 15.
#[derive(Clone, Copy)]
pub enum FourthByte {
    Zero,
    Range,
    Count,
}

// What an operator fixes: the first and the last version in which it is known, the node's own sort, what x, y and the fourth byte may be, and the length of
// its block in rewriting under a clock.
#[derive(Clone, Copy)]
pub struct Row {
    pub first: u8,
    pub last: u8,
    pub own: Option<Sort>,
    pub x: Operand,
    pub y: Operand,
    pub fourth: FourthByte,
    pub block: u8,
}

// The versions of a table are 1 to `NEWEST`; those with base operators alone, which the engines read as they stand, are 1 to `BASE`.
pub const NEWEST: usize = 3;

pub const BASE: usize = 2;

const OF_BOOLEAN: Operand = Operand::Node(Sort::Boolean);

const OF_SEQUENCE: Operand = Operand::Node(Sort::Sequence);

const OF_PROPERTY: Operand = Operand::Node(Sort::Property);

const UNUSED: Operand = Operand::Below(1);

const UNKNOWN: Row = Row {
    first: 0,
    last: 0,
    own: None,
    x: Operand::Below(0),
    y: UNUSED,
    fourth: FourthByte::Zero,
    block: 0,
};

const CONSTANT: Row = Row {
    first: 1,
    last: 4,
    own: Some(Sort::Boolean),
    x: Operand::Below(2),
    y: UNUSED,
    fourth: FourthByte::Zero,
    block: 1,
};

// Each later row says what it has other than the row that it names.
const SIGNAL: Row = Row {
    x: Operand::Below(64),
    ..CONSTANT
};

// A signal risen, or fallen, since the sample before.
const CHANGE: Row = Row { first: 2, ..SIGNAL };

const BOOLEAN_NOT: Row = Row {
    x: OF_BOOLEAN,
    ..CONSTANT
};

const BOOLEAN_TWO: Row = Row {
    y: OF_BOOLEAN,
    ..BOOLEAN_NOT
};

const SEQUENCE_ONE: Row = Row {
    own: Some(Sort::Sequence),
    x: OF_SEQUENCE,
    ..CONSTANT
};

const SEQUENCE_TWO: Row = Row {
    y: OF_SEQUENCE,
    ..SEQUENCE_ONE
};

const LETTER: Row = Row {
    x: OF_BOOLEAN,
    block: 9,
    ..SEQUENCE_ONE
};

const SEQUENCE_CLOCK: Row = Row {
    x: OF_BOOLEAN,
    block: 0,
    ..SEQUENCE_TWO
};

const PROPERTY_NOT: Row = Row {
    own: Some(Sort::Property),
    x: OF_PROPERTY,
    ..CONSTANT
};

const PROPERTY_TWO: Row = Row {
    y: OF_PROPERTY,
    ..PROPERTY_NOT
};

// strong and weak.
const MATCHED: Row = Row {
    x: OF_SEQUENCE,
    ..PROPERTY_NOT
};

const IMPLIES: Row = Row {
    x: OF_SEQUENCE,
    ..PROPERTY_TWO
};

const NEXTTIME: Row = Row {
    block: 14,
    ..PROPERTY_NOT
};

const UNTIL: Row = Row {
    block: 9,
    ..PROPERTY_TWO
};

const PROPERTY_CLOCK: Row = Row {
    x: OF_BOOLEAN,
    block: 0,
    ..PROPERTY_TWO
};

// The derived operators, which are expanded before anything is rewritten: [*m:n]; ##[m:n]; [->m] and [=m]; |=>, #-# and #=#; s_until; always,
// s_eventually and s_nexttime.
const REPEATED: Row = Row {
    first: 3,
    last: 3,
    fourth: FourthByte::Range,
    ..SEQUENCE_ONE
};

const DELAYED: Row = Row {
    y: OF_SEQUENCE,
    ..REPEATED
};

const OCCURRING: Row = Row {
    x: OF_BOOLEAN,
    fourth: FourthByte::Count,
    ..REPEATED
};

const DERIVED_ONE: Row = Row {
    first: 3,
    last: 3,
    ..PROPERTY_NOT
};

const DERIVED_TWO: Row = Row {
    y: OF_PROPERTY,
    ..DERIVED_ONE
};

const DERIVED_IMPLIES: Row = Row {
    x: OF_SEQUENCE,
    ..DERIVED_TWO
};

// The row of an operator.
#[tactic(auto, unfolding(crate::specs::Operators::operators, crate::specs::Operators::lookup, crate::specs::Operators::row_of))]
pub fn row_of(op: u8) -> Row
    ensures row { row_numbers result ≡ row_of op }
    ensures unused_y { operand_sort result.y ≡ none → operand_limit result.y ≡ 1 }
{
    match op {
        0 => CONSTANT,
        1 => SIGNAL,
        2 => BOOLEAN_NOT,
        3 => BOOLEAN_TWO,
        4 => BOOLEAN_TWO,
        5 => CHANGE,
        6 => CHANGE,
        16 => LETTER,
        17 => SEQUENCE_TWO,
        18 => SEQUENCE_TWO,
        19 => SEQUENCE_TWO,
        20 => SEQUENCE_ONE,
        21 => SEQUENCE_ONE,
        22 => SEQUENCE_CLOCK,
        23 => REPEATED,
        24 => DELAYED,
        25 => OCCURRING,
        26 => OCCURRING,
        32 => MATCHED,
        33 => MATCHED,
        34 => PROPERTY_NOT,
        35 => PROPERTY_TWO,
        36 => PROPERTY_TWO,
        37 => IMPLIES,
        38 => NEXTTIME,
        39 => UNTIL,
        40 => PROPERTY_CLOCK,
        41 => DERIVED_IMPLIES,
        42 => DERIVED_IMPLIES,
        43 => DERIVED_IMPLIES,
        44 => DERIVED_ONE,
        45 => DERIVED_ONE,
        46 => DERIVED_TWO,
        47 => DERIVED_ONE,
        _ => UNKNOWN,
    }
}
