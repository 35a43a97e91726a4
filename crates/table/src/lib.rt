// Checking a table: refusals 1 to 9, the first that applies, for any bytes. The tests of its nodes are those of `faults`; what the nodes stand for,
// and that the tests say what the page says, is stated and proved here.
#![tactic(auto)]

ghost use Rattle.std.specs.Prelude.{◌≡◌, ◌&&◌, ◌+◌, ◌*◌, ◌≤◌, leb, length, IfOk};
ghost use Rattle.refusal.specs.Heading.{count};
ghost use Rattle.refusal.specs.Computed.{first_case};
ghost use Rattle.refusal.specs.Reasons.{verdict_by};
ghost use Rattle.table.specs.Check.{Checks, ChecksTo};
ghost use Rattle.table.specs.Computed.{node_cases};

use faults::formed::first_unfit;
use faults::placed::first_astray;
use hollows::first_hollow;
use nodes::operators::{BASE, Sort};
use nodes::sort_at;
use refusal::{Reason, Verdict, heading};

// Refusals 6 to 9 of the n nodes.
fn check_nodes(b: &[u8], n: usize) -> Result<(), Reason>
    requires { (1 ≤ n) × (n ≤ 120) × (4 * n + 6 ≤ length b.now) }
    ensures { verdict_by result ≡ first_case (node_cases b.now n) }
{
    if let Some(k) = first_unfit(b, n) {
        return Err(Reason::NotWellFormed(k));
    }
    if let Some(k) = first_astray(b, n) {
        return Err(Reason::Astray(k));
    }
    if sort_at(b, n - 1) == Some(Sort::Boolean) {
        return Err(Reason::BooleanRoot);
    }
    if let Some(k) = first_hollow(b, n) {
        return Err(Reason::Hollow(k));
    }
    Ok(())
}

// Whether a table may have so many nodes.
fn is_count(n: usize) -> bool
    ensures { result ≡ (leb 1 n && leb n 120) }
{
    (1..=120).contains(&n)
}

// For any bytes: the first reason of refusals 1 to 9 that applies, and where none does the count of the nodes. The versions are 1 to the newest.
pub fn checked(b: &[u8], newest: usize) -> Result<usize, Reason>
    ensures verdict { ChecksTo newest b.now (verdict_by result) }
    ensures count { IfOk result (λ n. n ≡ count b.now) }
{
    heading(b, b'T', newest)?;
    let n = usize::from(b[5]);
    if !is_count(n) {
        return Err(Reason::WrongCount);
    }
    if b.len() != 4 * n + 6 {
        return Err(Reason::WrongLength);
    }
    check_nodes(b, n)?;
    Ok(n)
}

// The same of a table with base operators alone, as the engines read it.
pub fn checked_base(b: &[u8]) -> Result<usize, Reason>
    ensures verdict { Checks b.now (verdict_by result) }
    ensures count { IfOk result (λ n. n ≡ count b.now) }
{
    checked(b, BASE)
}

// The number and the node of the first refusal of 1 to 9 that applies, and 0 and 0 where none does.
pub fn check_to(b: &[u8], newest: usize) -> Verdict
    ensures { ChecksTo newest b.now result }
{
    Verdict::of(checked(b, newest))
}

// Of a table with base operators alone, as the engines read it.
pub fn check(b: &[u8]) -> Verdict
    ensures { Checks b.now result }
{
    Verdict::of(checked_base(b))
}
