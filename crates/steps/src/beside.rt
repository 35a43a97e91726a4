// The row of a sequence from the rows of its two operands, laid side by side for the rules of `sequences`.
ghost use Rattle.std.specs.Prelude.{◌+◌, ◌≤◌, length};
ghost use Rattle.cells.specs.Shares.{share};
ghost use Rattle.cells.specs.Ready.{ready_sequence};
ghost use Rattle.steps.specs.Steps.{Beside, RowIn, PairRow};

use cells::{SHARE, Span};
use nodes::SequenceOp;
use sequences::put_sequence;

// The two rows, and room for a third.
fn beside(x: &[u64; 65], y: &[u64; 65]) -> [u64; 195]
    ensures { Beside x.now y.now result }
{
    let mut out = [0; 195];
    out[..SHARE].copy_from_slice(x);
    out[SHARE..2 * SHARE].copy_from_slice(y);
    out
}

// The row whose first word is word `at`.
fn row_in(rows: &[u64], at: usize) -> [u64; 65]
    requires { at + share ≤ length rows.now }
    ensures { RowIn rows.now at result }
{
    let mut row = [0; 65];
    row.copy_from_slice(&rows[at..at + SHARE]);
    row
}

// The row of a sequence whose operands are rows 0 and 1.
pub fn pair_row(x: &[u64; 65], y: &[u64; 65], op: SequenceOp, span: Span) -> [u64; 65]
    requires { ready_sequence 130 op }
    ensures { PairRow x.now y.now op span.n result }
{
    let mut rows = beside(x, y);
    put_sequence(&mut rows, 2, op, span);
    row_in(&rows, 130)
}
