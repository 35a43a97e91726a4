// Runs of places that lead up to a place, for all positions at once: the length that is looked at doubles with each step.
#![tactic(auto)]

ghost use Rattle.std.specs.Prelude.{◌≤◌};
ghost use Rattle.positions.specs.Member.{Is};
ghost use Rattle.runs.specs.Runs.{Further, led};

use positions::PositionSet;

// The runs of a length, and the places from which a shorter run, possibly of none, leads up.
#[derive(Clone, Copy)]
pub struct Led {
    pub runs: PositionSet,
    pub out: PositionSet,
}

// Runs of twice the length d.
pub fn further(l: Led, d: usize) -> Led
    requires { d ≤ 63 }
    ensures { Further l d result }
{
    Led {
        runs: l.runs.common(l.runs.down_by(d)),
        out: l.out.joined(l.runs.common(l.out.down_by(d))),
    }
}

// The places from which a run of any length leads up: turn k looks 2^k places on.
pub fn lead(l: Led) -> PositionSet
    ensures { Is result.bits (led l) }
{
    let mut a = l;
    for k in 0..6usize {
        a = further(a, 1 << k);
    }
    a.out
}
