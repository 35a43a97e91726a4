// Writes out a piece of what a version 3 table is expanded to, after its operands, and stops where a table of 120 nodes has no room for all.
#![tactic(auto)]

ghost use Rattle.std.specs.Prelude.{◌≡◌, ◌+◌, ◌<◌, ◌≤◌, length};
ghost use Rattle.expansion.specs.Nodes.{form_of};
ghost use Rattle.nodestep.specs.Ready.{Ready};
ghost use Rattle.pieces.specs.Pieces.{piece_form, Fits, NoByte};
ghost use Rattle.unfold.specs.Puts.{placed_by, Puts};

use encoding::put_node;
use nodes::Raw;
use nodestep::Source;
use pieces::{Piece, Step};

// The operand byte of a piece that was just written, where `next` is the number after it.
#[tactic(auto, unfolding(crate::specs::Puts::placed_by, pieces::specs::Pieces::NoByte))]
fn placed(p: Piece, next: usize) -> u8
    requires { (NoByte p → 1 ≤ next) × (next ≤ 120) }
    ensures { result ≡ placed_by p next }
{
    match p {
        Piece::Byte(v) => v,
        _ => (next - 1) as u8,
    }
}

// Writes a piece from node `at` on, its operands first, and answers the number after it, none where the table, with as many nodes more as are still to be
// written after this piece, would have more than 120.
pub fn put_piece(source: Source, out: &mut [u8], p: Piece, at: usize, later: usize) -> Option<usize>
    requires { Ready source.bytes.now source.count source.numbers.now × Fits source.bytes.now source.count p × (at ≤ 120) × (later ≤ 121) × (486 ≤ length out.old) }
    ensures { Puts out.old at later p (piece_form (form_of source.entry.bytes.now) p) result out.new }
{
    if 120 < at + later {
        return None;
    }
    if let Piece::Byte(_) = p {
        return Some(at);
    }
    let Step { op, x, y } = source.step_of(p);
    let middle = put_piece(source, out, x, at, later + 1)?;
    let end = put_piece(source, out, y, middle, later + 1)?;
    put_node(
        out,
        end,
        Raw {
            op,
            x: placed(x, middle),
            y: placed(y, end),
            fourth: 0,
        },
    );
    Some(end + 1)
}
