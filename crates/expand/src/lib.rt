// The expander: refusals first, and then the expansion, a version 3 table written out to base nodes and an older table as it is.
#![tactic(auto)]

ghost use Rattle.std.specs.Prelude.{◌≡◌, true, ◌++◌, ◌≤◌, ◌<◌, drop, MatchResult};
ghost use Rattle.std.proofs.Math.ListN.{length};
ghost use Rattle.refusal.specs.Heading.{count};
ghost use Rattle.refusal.specs.declared.Reason.TheVariants.{SmallOutput};
ghost use Rattle.nodes.specs.Operators.{sequence};
ghost use Rattle.nodes.specs.Nodes.{sort_at, root};
ghost use Rattle.expansion.specs.Formed.{Formed};
ghost use Rattle.expand.specs.Expands.{Expands};
ghost use Rattle.expand.specs.Opens.{has_version3, expansion_by, Unfolds, Opens};

use encoding::{TABLE_BYTES, put_heading};
use firsts::put_booleans;
use nodes::operators::{NEWEST, NO_SORT, sort_number};
use nodes::{SLOTS, sort_at};
use nodestep::Source;
use pieces::Piece;
use refusal::{Reason, Verdict, version_of};
use table::checked;
use unfold::put_piece;

// What expanding answers: the verdict, and the count of the expansion's nodes.
#[repr(C)]
#[derive(Clone, Copy)]
pub struct Expansion {
    pub verdict: Verdict,
    pub count: usize,
}

impl From<Result<usize, Reason>> for Expansion {
    ghost from_gives = { λ opened e. e ≡ expansion_by opened };

    // A refusal has count 0.
    fn from(opened: Result<usize, Reason>) -> Expansion {
        match opened {
            Ok(count) => Expansion {
                verdict: Verdict::ACCEPTED,
                count,
            },
            Err(reason) => Expansion {
                verdict: Verdict::from(reason),
                count: 0,
            },
        }
    }
}

// Whether the bytes have a heading of version 3, the one with derived operators.
#[tactic(auto, unfolding(crate::specs::Opens::has_version3))]
pub fn has_version_3(b: &[u8]) -> bool
    ensures { result ≡ has_version3 b.now }
{
    b.len() >= 6 && version_of(b) == 3
}

// Writes the expansion of the n nodes, whose root is a sequence or a property, and answers its count, none where it has more than 120 nodes.
fn unfold(b: &[u8], n: usize, out: &mut [u8; TABLE_BYTES]) -> Option<usize>
    requires { Formed b.now n × (n ≡ count b.now) × (1 ≤ n) × (sequence ≤ sort_at b.now (root b.now)) }
    ensures { Unfolds b.now out.old result out.new }
{
    let mut numbers = [0; SLOTS];
    let first = put_booleans(b, n, &mut numbers, out);
    let source = Source {
        bytes: b,
        count: n,
        numbers: &numbers,
    };
    let m = put_piece(source, out, Piece::NodeOf(n - 1), first, 0)?;
    put_heading(out, 2, 0, m);
    Some(m)
}

// Of a version 3 table: refusals 1 to 9, 12 where the root is of the wrong sort, and 13, the first that applies; with none, its expansion in the first
// bytes of `new`. The sort is a number; with one that no root has, as 0, any root will do.
pub fn open(b: &[u8], wrong: u8, new: &mut [u8; TABLE_BYTES]) -> Result<usize, Reason>
    requires { has_version3 b.now ≡ true }
    ensures { Opens b.now wrong new.old (expansion_by result) new.new }
{
    let n = checked(b, NEWEST)?;
    if sort_number(sort_at(b, n - 1)) == wrong {
        return Err(Reason::WrongRoot);
    }
    unfold(b, n, new).ok_or(Reason::ManyNodes)
}

// Copies a table to the start of `out`, if it has room there. Byte by byte: `copy_from_slice` asks for `memmove`, which the library then needs from outside.
fn copy_table(table: &[u8], out: &mut [u8]) -> Result<(), Reason>
    ensures { MatchResult result (λ _. (length table.now ≤ length out.old) × (out.new ≡ table.now ++ drop (length table.now) out.old)) (λ reason. (reason ≡ SmallOutput) × (length out.old < length table.now) × (out.new ≡ out.old)) }
{
    if out.len() < table.len() {
        return Err(Reason::SmallOutput);
    }
    for i in 0..table.len() {
        out[i] = table[i];
    }
    Ok(())
}

// Refusals 1 to 9, 13 and 15, the first that applies; with none, the expansion in the first bytes of `out`, and its count.
fn expanded(b: &[u8], out: &mut [u8]) -> Result<usize, Reason>
    ensures { Expands b.now out.old (expansion_by result) out.new }
{
    if has_version_3(b) {
        let mut new = [0; TABLE_BYTES];
        let m = open(b, NO_SORT, &mut new)?;
        let long = 4 * m + 6;
        copy_table(&new[..long], out)?;
        return Ok(m);
    }
    let n = checked(b, NEWEST)?;
    copy_table(b, out)?;
    Ok(n)
}

// Expands a table, of any bytes and into any output.
pub fn expand(b: &[u8], out: &mut [u8]) -> Expansion
    ensures { Expands b.now out.old result out.new }
{
    Expansion::from(expanded(b, out))
}
