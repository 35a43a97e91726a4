// The text of the program's line: `level 1 tested yes` or `refused 9 at 3` with a newline, put piece by piece into the bytes that are lent. What a line
// says stands in specs/Text.antt; which line an input gets is said in `line`.
#![tactic(auto)]

ghost use Rattle.std.specs.Prelude.{[], ◌∷◌, ◌++◌, ◌+◌, ◌<◌, ◌≤◌, length};
ghost use Rattle.linetext.specs.Text.{digit, decimal, level_line, refused_line};
ghost use Rattle.linetext.specs.Computed.{line_of, Puts};

use refusal::Verdict;

// Puts a text from a place on, and answers the place after it.
fn put_text(out: &mut [u8], at: usize, text: &[u8]) -> usize
    requires { at + length text.now ≤ length out.old }
    ensures { Puts out.old at text.now result out.new }
{
    let end = at + text.len();
    out[at..end].copy_from_slice(text);
    end
}

// Puts a decimal digit, and answers the place after it.
fn put_digit(out: &mut [u8], at: usize, d: usize) -> usize
    requires { (at < length out.old) × (d < 10) }
    ensures { Puts out.old at (digit d ∷ []) result out.new }
{
    out[at] = b'0' + d as u8;
    at + 1
}

// Puts a text and then a number below 1,000 in decimal.
fn put_number(out: &mut [u8], at: usize, text: &[u8], n: usize) -> usize
    requires { (at + length text.now + 3 ≤ length out.old) × (n < 1000) }
    ensures { Puts out.old at (text.now ++ decimal n) result out.new × (result ≤ at + length text.now + 3) }
{
    let hundreds = n > 99;
    let tens = n > 9;
    let mut end = put_text(out, at, text);
    if hundreds {
        end = put_digit(out, end, n / 100);
    }
    if tens {
        end = put_digit(out, end, n / 10 % 10);
    }
    put_digit(out, end, n % 10)
}

// Puts the line of a refusal, and answers how many bytes it has.
fn put_refusal(line: &mut [u8], v: Verdict) -> usize
    requires { (19 ≤ length line.old) × (v.node < 1000) }
    ensures { Puts line.old 0 (refused_line v) result line.new }
{
    let number = put_number(line, 0, b"refused ", usize::from(v.number));
    let node = put_number(line, number, b" at ", v.node);
    put_text(line, node, b"\n")
}

// Puts the line of a level, and answers how many bytes it has.
fn put_level(line: &mut [u8], level: u8, tested: bool) -> usize
    requires { (19 ≤ length line.old) × (level < 10) }
    ensures { Puts line.old 0 (level_line level tested) result line.new }
{
    let word = put_text(line, 0, b"level ");
    let number = put_digit(line, word, usize::from(level));
    if tested {
        return put_text(line, number, b" tested yes\n");
    }
    put_text(line, number, b" tested no\n")
}

// Puts the line for a table and a record that were answered so, and answers how many bytes it has: a refusal of the table comes before one of the record.
#[tactic(auto, unfolding(crate::specs::Computed::line_of))]
pub fn put_line(line: &mut [u8], table: Verdict, record: Verdict, level: u8, tested: bool) -> usize
    requires { (19 ≤ length line.old) × (table.node < 1000) × («record».node < 1000) × (level < 10) }
    ensures { Puts line.old 0 (line_of table «record» level tested) result line.new }
{
    if table.number != 0 {
        return put_refusal(line, table);
    }
    if record.number != 0 {
        return put_refusal(line, record);
    }
    put_level(line, level, tested)
}
