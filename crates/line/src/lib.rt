// The program's answer: the line for any input, a table and then a record. How a line is written stands in `linetext`.
#![tactic(auto)]

ghost use Rattle.std.specs.Prelude.{◌≤◌, length};
ghost use Rattle.line.specs.Program.{Says};
ghost use Rattle.line.specs.Computed.{PartsAt};

use calls::judge;
use linetext::put_line;

// The longest line has 19 bytes: `level 3 tested yes` and a newline.
pub const LONGEST_LINE: usize = 19;

// The longest input that is accepted has 996 bytes: a table of 120 nodes and a record of 63 samples. A longer one is answered as its first 997 bytes are
// (`proofs/Theorems.antt`, `cut_same`).
pub const ENOUGH: usize = 997;

// Where the table part ends and the record begins.
fn table_end(input: &[u8]) -> usize
    ensures upper_bound { result ≤ length input.now }
    ensures parts_at { PartsAt input.now result }
{
    if input.len() < 6 {
        return input.len();
    }
    input.len().min(4 * usize::from(input[5]) + 6)
}

// Puts the line for the input at the start of `line`, and answers how many bytes it has. A record that is refused gives no samples, so the judge's own refusals
// are then the table's, and they come first.
pub fn answer(input: &[u8], line: &mut [u8; LONGEST_LINE]) -> usize
    ensures says { Says input.now line.old result line.new }
    ensures upper_bound { result ≤ length line.new }
{
    let (table, rest) = input.split_at(table_end(input));
    let mut samples = [0; 63];
    let reading = record::read(rest, &mut samples);
    let n = reading.count;
    let mut workspace = [0; 7800];
    let judged = judge(table, &samples[..n], &mut workspace);
    put_line(
        line,
        judged.verdict,
        reading.verdict,
        judged.level.number,
        judged.tested,
    )
}
