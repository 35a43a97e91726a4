// What the judge reads off the rows of a table: the level of the root.
#![tactic(auto)]

ghost use Rattle.std.specs.Prelude.{◌≡◌, length};
ghost use Rattle.cells.specs.Shares.{HasRow};
ghost use Rattle.readout.specs.Computed.{level_in};

use cells::word_at;
use meaning::Level;

// The level of a property node: its three answers from position 0.
#[tactic(auto, unfolding(crate::specs::Computed::level_in))]
pub fn level_of(ws: &[u64], root: usize) -> Level
    requires { HasRow (length ws.now) root }
    ensures { result.number ≡ level_in ws.now root }
{
    let strong = word_at(ws, root, 2).has(0);
    let neutral = word_at(ws, root, 0).has(0);
    let weak = word_at(ws, root, 1).has(0);
    Level::from_answers(strong, neutral, weak)
}
