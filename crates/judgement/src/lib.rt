// What both judges answer.
#![tactic(auto)]

ghost use Rattle.judgement.specs.Refused.{Refused};

use meaning::Level;
use refusal::Verdict;

// The first refusal that applies, or none; the level; and whether the samples test the assertion.
#[repr(C)]
#[derive(Clone, Copy, PartialEq, Eq)]
pub struct Judgement {
    pub verdict: Verdict,
    pub level: Level,
    pub tested: bool,
}

// A refusal answers level 0, not tested.
pub fn refused(verdict: Verdict) -> Judgement
    ensures { Refused verdict result }
{
    Judgement {
        verdict,
        level: Level::BROKEN,
        tested: false,
    }
}
