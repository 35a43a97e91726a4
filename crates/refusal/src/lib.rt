// What an entry point answers first of all: the first reason to refuse that applies, and the number and the node that stand for it. Tables and
// records open alike, so the refusals of their first six bytes stand here, once.
#![tactic(auto)]

ghost use Rattle.std.specs.Prelude.{◌≡◌, ◌≤◌, length};
ghost use Rattle.refusal.specs.First.{Answers};
ghost use Rattle.refusal.specs.Heading.{version, heading_refusals};
ghost use Rattle.refusal.specs.Computed.{is_marked, is_known};
ghost use Rattle.refusal.specs.Reasons.{verdict_of, verdict_by};

use std::fmt;

// The number of the refusal and its node; an acceptance has number and node 0.
#[repr(C)]
#[derive(Clone, Copy, PartialEq, Eq)]
pub struct Verdict {
    pub number: u8,
    pub node: usize,
}

// Why a call is refused, in the order of the numbers 1 to 15; 6, 7 and 9 are given at a node.
#[derive(Clone, Copy, PartialEq, Eq)]
pub enum Reason {
    FewBytes,
    WrongMark,
    UnknownVersion,
    WrongCount,
    WrongLength,
    NotWellFormed(usize),
    Astray(usize),
    BooleanRoot,
    Hollow(usize),
    ManySamples,
    SmallWorkspace,
    WrongRoot,
    ManyNodes,
    LateStart,
    SmallOutput,
}

impl Verdict {
    pub const ACCEPTED: Verdict = Verdict { number: 0, node: 0 };

    // Of an answer that may be a refusal.
    pub fn of<T: Copy>(answer: Result<T, Reason>) -> Verdict
        ensures { result ≡ verdict_by answer }
    {
        match answer {
            Ok(_) => Verdict::ACCEPTED,
            Err(reason) => Verdict::from(reason),
        }
    }
}

impl From<Reason> for Verdict {
    ghost from_gives = { λ reason v. v ≡ verdict_of reason };

    fn from(reason: Reason) -> Verdict {
        match reason {
            Reason::FewBytes => Verdict { number: 1, node: 0 },
            Reason::WrongMark => Verdict { number: 2, node: 0 },
            Reason::UnknownVersion => Verdict { number: 3, node: 0 },
            Reason::WrongCount => Verdict { number: 4, node: 0 },
            Reason::WrongLength => Verdict { number: 5, node: 0 },
            Reason::NotWellFormed(node) => Verdict { number: 6, node },
            Reason::Astray(node) => Verdict { number: 7, node },
            Reason::BooleanRoot => Verdict { number: 8, node: 0 },
            Reason::Hollow(node) => Verdict { number: 9, node },
            Reason::ManySamples => Verdict {
                number: 10,
                node: 0,
            },
            Reason::SmallWorkspace => Verdict {
                number: 11,
                node: 0,
            },
            Reason::WrongRoot => Verdict {
                number: 12,
                node: 0,
            },
            Reason::ManyNodes => Verdict {
                number: 13,
                node: 0,
            },
            Reason::LateStart => Verdict {
                number: 14,
                node: 0,
            },
            Reason::SmallOutput => Verdict {
                number: 15,
                node: 0,
            },
        }
    }
}

impl fmt::Display for Verdict {
    fn fmt<W: fmt::Write>(&self, f: &mut fmt::Formatter<W>) -> fmt::Result {
        write!(f, "refused {} at {}", self.number, self.node)
    }
}

// Whether the bytes begin with the mark: SV and the letter.
fn marked(b: &[u8], letter: u8) -> bool
    requires { 6 ≤ length b.now }
    ensures { result ≡ is_marked letter b.now }
{
    b[..3] == [b'S', b'V', letter]
}

// The 16-bit version, its low byte first.
pub fn version_of(b: &[u8]) -> usize
    requires { 6 ≤ length b.now }
    ensures { result ≡ version b.now }
{
    usize::from(u16::from_le_bytes([b[3], b[4]]))
}

// Whether the version is one of 1 to the newest.
fn known(newest: usize, v: usize) -> bool
    ensures { result ≡ is_known newest v }
{
    (1..=newest).contains(&v)
}

// Refusals 1 to 3 of a file whose mark ends with the letter, of which versions 1 to the newest are known: the first that applies.
pub fn heading(b: &[u8], letter: u8, newest: usize) -> Result<(), Reason>
    ensures { Answers (heading_refusals letter newest b.now) (verdict_by result) }
{
    if b.len() < 6 {
        return Err(Reason::FewBytes);
    }
    if !marked(b, letter) {
        return Err(Reason::WrongMark);
    }
    if !known(newest, version_of(b)) {
        return Err(Reason::UnknownVersion);
    }
    Ok(())
}
