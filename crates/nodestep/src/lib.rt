// One step of a node, or of a piece of a derived node: its operator and its operands.
#![tactic(auto)]

ghost use Rattle.std.specs.Prelude.{◌≡◌};
ghost use Rattle.nodes.specs.Sorts.{operand_sort};
ghost use Rattle.expansion.specs.Nodes.{form_of};
ghost use Rattle.pieces.specs.declared.Piece.TheVariants.{NodeOf};
ghost use Rattle.pieces.specs.Pieces.{piece_form, rank, Heavy, Fits, NoByte, Stepped};
ghost use Rattle.nodestep.specs.Operands.{operand_x, operand_y, base_step};
ghost use Rattle.nodestep.specs.Ready.{Ready};

use nodes::operators::{Operand, Sort, row_of};
use nodes::{Raw, SLOTS, named, node_at};
use pieces::{
    Piece, PropertyPiece, SequencePiece, Step, Subject, delay_step, property_step, range_step,
    sequence_step, times_step,
};

// The first operand of a base node: a boolean by its new number d, any other as it is.
#[tactic(auto, unfolding(crate::specs::Operands::operand_x))]
fn first_operand(kind: Operand, d: u8, x: u8) -> Piece
    ensures { result ≡ operand_x (operand_sort kind) d x }
{
    match kind {
        Operand::Node(Sort::Boolean) => Piece::Byte(d),
        _ => Piece::NodeOf(usize::from(x)),
    }
}

// The second, 0 where there is none.
#[tactic(auto, unfolding(crate::specs::Operands::operand_y))]
fn second_operand(kind: Operand, y: u8) -> Piece
    ensures { result ≡ operand_y (operand_sort kind) y }
{
    match kind {
        Operand::Below(_) => Piece::Byte(0),
        Operand::Node(_) => Piece::NodeOf(usize::from(y)),
    }
}

// Of a node of a base operator, where d is the new number of its first operand.
fn base_step(n: Raw, d: u8) -> Step
    ensures { result ≡ base_step n d }
{
    let r = row_of(n.op);
    Step::over(n.op, first_operand(r.x, d, n.x), second_operand(r.y, n.y))
}

// A table that is expanded: its bytes, how many nodes it has, and for each node the new number of the boolean that it gives.
#[derive(Clone, Copy)]
pub struct Source<'a> {
    pub bytes: &'a [u8],
    pub count: usize,
    pub numbers: &'a [u8; SLOTS],
}

impl Source<'_> {
    // Of node k, a sequence or a property. c is the number of the boolean that its block makes, d that of its first operand.
    fn node_step(self, k: usize) -> Step
        requires { Ready self.bytes.now self.count self.numbers.now × Heavy self.bytes.now self.count k }
        ensures { Stepped (form_of self.entry.bytes.now) self.entry.bytes.now self.entry.count (form_of self.entry.bytes.now k) (rank (NodeOf k)) result }
    {
        let v = node_at(self.bytes, k);
        let x = usize::from(v.x);
        let y = usize::from(v.y);
        let c = self.numbers[k];
        let d = self.numbers[named(v.x)];
        let count = usize::from(v.fourth);
        match v.op {
            23 => range_step(Subject::Whole(x), count % 16, count / 16),
            24 => delay_step(x, y, c, count % 16, count / 16),
            25 => times_step(Subject::Group(c, d), count),
            26 => Step::over(
                17,
                Piece::SequenceOf(SequencePiece::Times(Subject::Group(c, d), count)),
                Piece::SequenceOf(SequencePiece::AnyLetters(c)),
            ),
            41 => Step::over(
                37,
                Piece::SequenceOf(SequencePiece::NextLetter(x, c)),
                Piece::NodeOf(y),
            ),
            42 => Step::one(34, Piece::PropertyOf(PropertyPiece::ImpliesNot(x, y))),
            43 => Step::one(
                34,
                Piece::PropertyOf(PropertyPiece::ImpliesNextNot(x, y, c)),
            ),
            44 => Step::over(
                39,
                Piece::NodeOf(x),
                Piece::PropertyOf(PropertyPiece::WeakOf(c)),
            ),
            45 => Step::one(34, Piece::PropertyOf(PropertyPiece::Never(x, c))),
            46 => Step::over(
                36,
                Piece::PropertyOf(PropertyPiece::UntilOf(x, y)),
                Piece::PropertyOf(PropertyPiece::EventuallyOf(y, c)),
            ),
            47 => Step::one(34, Piece::PropertyOf(PropertyPiece::NextNot(x))),
            _ => base_step(v, d),
        }
    }

    // Of any piece but a byte.
    #[tactic(auto, unfolding(pieces::specs::Pieces::piece_form, pieces::specs::Pieces::rank, pieces::specs::Pieces::Fits, pieces::specs::Pieces::NoByte))]
    pub fn step_of(self, p: Piece) -> Step
        requires { Ready self.bytes.now self.count self.numbers.now × Fits self.bytes.now self.count p × NoByte p }
        ensures { Stepped (form_of self.entry.bytes.now) self.entry.bytes.now self.entry.count (piece_form (form_of self.entry.bytes.now) p) (rank p) result }
    {
        match p {
            Piece::Byte(_) => unreachable!(),
            Piece::NodeOf(k) => self.node_step(k),
            Piece::SequenceOf(q) => sequence_step(q),
            Piece::PropertyOf(q) => property_step(q),
        }
    }
}
