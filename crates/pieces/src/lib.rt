// What a derived node is expanded to, piece by piece: one step gives a piece's operator and its operands, which are pieces again or plain bytes.
#![tactic(auto)]

ghost use Rattle.std.specs.Prelude.{◌≡◌};
ghost use Rattle.pieces.specs.declared.SequencePiece.TheVariants.{LetterOf};
ghost use Rattle.pieces.specs.declared.PropertyPiece.TheVariants.{NotOf};
ghost use Rattle.pieces.specs.declared.Piece.TheVariants.{Byte, SequenceOf, PropertyOf};
ghost use Rattle.pieces.specs.Pieces.{subject_piece};
ghost use Rattle.pieces.specs.Steps.{step, times_step, range_step, delay_step, sequence_step, property_step};

// What is repeated: node x; a letter of the boolean c; the group of b[->m], where c is !b.
#[derive(Clone, Copy)]
pub enum Subject {
    Whole(usize),
    OneLetter(u8),
    Group(u8, u8),
}

// Pieces that are sequences. A letter b; [*0], [*1:$] and [*0:$] of it; !b[*0:$] ##1 b; [*m]; [*m:n]; x ##0 y; x ##1 1[*m:n]; x ##1 1[*m:n] ##1 y; x ##1 1.
#[derive(Clone, Copy)]
pub enum SequencePiece {
    LetterOf(u8),
    NoLetter(u8),
    Letters(u8),
    AnyLetters(u8),
    GroupOf(u8, u8),
    Times(Subject, usize),
    Range(Subject, usize, usize),
    Meeting(usize, usize),
    Delay(usize, u8, usize, usize),
    Later(usize, usize, u8, usize, usize),
    NextLetter(usize, u8),
}

// Pieces that are properties. not x; x |-> not y; x |=> not y; weak(0); not x until weak(0); x until y; s_eventually x; nexttime not x.
#[derive(Clone, Copy)]
pub enum PropertyPiece {
    NotOf(usize),
    ImpliesNot(usize, usize),
    ImpliesNextNot(usize, usize, u8),
    WeakOf(u8),
    Never(usize, u8),
    UntilOf(usize, usize),
    EventuallyOf(usize, u8),
    NextNot(usize),
}

// A plain byte; node k of the table, whole; a piece of a derived node.
#[derive(Clone, Copy)]
pub enum Piece {
    Byte(u8),
    NodeOf(usize),
    SequenceOf(SequencePiece),
    PropertyOf(PropertyPiece),
}

// A piece's operator and operands.
#[derive(Clone, Copy)]
pub struct Step {
    pub op: u8,
    pub x: Piece,
    pub y: Piece,
}

impl Step {
    // With two operands.
    pub fn over(op: u8, x: Piece, y: Piece) -> Step
        ensures { result ≡ step op x y }
    {
        Step { op, x, y }
    }

    // With one operand.
    pub fn one(op: u8, x: Piece) -> Step
        ensures { result ≡ step op x (Byte 0) }
    {
        Step::over(op, x, Piece::Byte(0))
    }
}

impl Piece {
    // A letter of the boolean b.
    fn letter(b: u8) -> Piece
        ensures { result ≡ SequenceOf (LetterOf b) }
    {
        Piece::SequenceOf(SequencePiece::LetterOf(b))
    }

    // not x.
    fn not(x: usize) -> Piece
        ensures { result ≡ PropertyOf (NotOf x) }
    {
        Piece::PropertyOf(PropertyPiece::NotOf(x))
    }
}

#[tactic(auto, unfolding(crate::specs::Pieces::subject_piece))]
impl From<Subject> for Piece {
    ghost from_gives = { λ o p. p ≡ subject_piece o };

    // The piece that is repeated.
    fn from(o: Subject) -> Piece {
        match o {
            Subject::Whole(x) => Piece::NodeOf(x),
            Subject::OneLetter(c) => Piece::letter(c),
            Subject::Group(c, b) => Piece::SequenceOf(SequencePiece::GroupOf(c, b)),
        }
    }
}

// Of [*m].
#[tactic(auto, unfolding(crate::specs::Steps::times_step))]
pub fn times_step(o: Subject, m: usize) -> Step
    ensures { result ≡ times_step o m }
{
    let repeated = Piece::from(o);
    if m == 0 {
        Step::one(20, repeated)
    } else {
        Step::over(
            17,
            Piece::SequenceOf(SequencePiece::Times(o, m - 1)),
            repeated,
        )
    }
}

// Of [*m:n].
#[tactic(auto, unfolding(crate::specs::Steps::range_step))]
pub fn range_step(o: Subject, m: usize, n: usize) -> Step
    ensures { result ≡ range_step o m n }
{
    if m < n {
        let shorter = Piece::SequenceOf(SequencePiece::Range(o, m, n - 1));
        Step::over(19, shorter, Piece::SequenceOf(SequencePiece::Times(o, n)))
    } else {
        times_step(o, m)
    }
}

// Of x ##[m:n] y, where c is 1.
#[tactic(auto, unfolding(crate::specs::Steps::delay_step))]
pub fn delay_step(x: usize, y: usize, c: u8, m: usize, n: usize) -> Step
    ensures { result ≡ delay_step x y c m n }
{
    if n == 0 {
        return Step::over(18, Piece::NodeOf(x), Piece::NodeOf(y));
    }
    if m == 0 {
        let meeting = Piece::SequenceOf(SequencePiece::Meeting(x, y));
        return Step::over(
            19,
            meeting,
            Piece::SequenceOf(SequencePiece::Later(x, y, c, 0, n - 1)),
        );
    }
    let delay = Piece::SequenceOf(SequencePiece::Delay(x, c, m - 1, n - 1));
    Step::over(17, delay, Piece::NodeOf(y))
}

// Of a piece that is a sequence.
#[tactic(auto, unfolding(crate::specs::Steps::sequence_step))]
pub fn sequence_step(q: SequencePiece) -> Step
    ensures { result ≡ sequence_step q }
{
    match q {
        SequencePiece::LetterOf(b) => Step::one(16, Piece::Byte(b)),
        SequencePiece::NoLetter(b) => Step::one(20, Piece::letter(b)),
        SequencePiece::Letters(b) => Step::one(21, Piece::letter(b)),
        SequencePiece::AnyLetters(b) => Step::over(
            19,
            Piece::SequenceOf(SequencePiece::NoLetter(b)),
            Piece::SequenceOf(SequencePiece::Letters(b)),
        ),
        SequencePiece::GroupOf(c, b) => Step::over(
            17,
            Piece::SequenceOf(SequencePiece::AnyLetters(c)),
            Piece::letter(b),
        ),
        SequencePiece::Times(o, m) => times_step(o, m),
        SequencePiece::Range(o, m, n) => range_step(o, m, n),
        SequencePiece::Meeting(x, y) => Step::over(18, Piece::NodeOf(x), Piece::NodeOf(y)),
        SequencePiece::Delay(x, c, m, n) => Step::over(
            17,
            Piece::NodeOf(x),
            Piece::SequenceOf(SequencePiece::Range(Subject::OneLetter(c), m, n)),
        ),
        SequencePiece::Later(x, y, c, m, n) => Step::over(
            17,
            Piece::SequenceOf(SequencePiece::Delay(x, c, m, n)),
            Piece::NodeOf(y),
        ),
        SequencePiece::NextLetter(x, c) => Step::over(17, Piece::NodeOf(x), Piece::letter(c)),
    }
}

// Of a piece that is a property.
#[tactic(auto, unfolding(crate::specs::Steps::property_step))]
pub fn property_step(p: PropertyPiece) -> Step
    ensures { result ≡ property_step p }
{
    match p {
        PropertyPiece::NotOf(x) => Step::one(34, Piece::NodeOf(x)),
        PropertyPiece::ImpliesNot(x, y) => Step::over(37, Piece::NodeOf(x), Piece::not(y)),
        PropertyPiece::ImpliesNextNot(x, y, c) => Step::over(
            37,
            Piece::SequenceOf(SequencePiece::NextLetter(x, c)),
            Piece::not(y),
        ),
        PropertyPiece::WeakOf(c) => Step::one(33, Piece::letter(c)),
        PropertyPiece::Never(x, c) => Step::over(
            39,
            Piece::not(x),
            Piece::PropertyOf(PropertyPiece::WeakOf(c)),
        ),
        PropertyPiece::UntilOf(x, y) => Step::over(39, Piece::NodeOf(x), Piece::NodeOf(y)),
        PropertyPiece::EventuallyOf(x, c) => Step::one(
            34,
            Piece::PropertyOf(PropertyPiece::Never(x, c)),
        ),
        PropertyPiece::NextNot(x) => Step::one(38, Piece::not(x)),
    }
}
