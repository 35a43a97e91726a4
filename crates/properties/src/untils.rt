// P until Q, for all positions at once and for the three tails.
ghost use Rattle.std.specs.Prelude.{◌||◌};
ghost use Rattle.positions.specs.Member.{has};
ghost use Rattle.properties.specs.Shapes.{Begins, Leads};

use crate::Suffixes;
use cells::{Span, all_samples};
use positions::PositionSet;
use runs::{Led, lead};

// The runs of P below n, of length 1, and the places of Q below n; n itself is one where until is yes there.
pub fn begun(p: PositionSet, q: PositionSet, last: bool, span: Span) -> Led
    ensures { Begins p.bits q.bits last span.n result }
{
    let inside = all_samples(span);
    Led {
        runs: p.common(inside),
        out: q.common(inside).with_if(span.n, last),
    }
}

// The same with a tail, in which P or Q must hold.
pub fn begun_in_tail(p: PositionSet, q: PositionSet, span: Span) -> Led
    ensures { Begins p.bits q.bits (has p.bits span.n || has q.bits span.n) span.n result }
{
    let n = span.n;
    begun(p, q, p.has(n) | q.has(n), span)
}

// The places from which a run of any length leads up, for each of the three.
pub fn leading(neutral: Led, weak: Led, strong: Led) -> Suffixes
    ensures { Leads neutral weak strong result }
{
    Suffixes {
        neutral: lead(neutral),
        weak: lead(weak),
        strong: lead(strong),
    }
}
