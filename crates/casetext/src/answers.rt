// The lines that are printed.
use crate::print::Printer;
use crate::shares::put_shares;
use crate::short::put_digest;
use refusal::Verdict;

// A line that is no case.
pub fn unread(out: &Printer<impl Print>, line: &[u8]) {
    out.print("cannot read case: ");
    out.bytes(line);
    out.print("\n");
}

// An acceptance has number and node 0: one with another node is printed as a refusal, so that it is seen.
pub fn accepted(v: Verdict) -> bool {
    v == Verdict::ACCEPTED
}

// What checking a table answered.
pub fn table(out: &Printer<impl Print>, label: &[u8], v: Verdict) {
    out.label(label);
    if accepted(v) {
        out.print("accepted");
    } else {
        print!(out; "{v}");
    }
    out.print("\n");
}

// What the program answered, a line with its end.
pub fn program(out: &Printer<impl Print>, label: &[u8], line: &[u8]) {
    out.label(label);
    out.bytes(line);
}

// What reading a record answered, and the words that were lent.
pub fn record(out: &Printer<impl Print>, label: &[u8], v: Verdict, count: usize, words: &[u64]) {
    out.label(label);
    put_count(out, v, count, "samples");
    out.print(", words");
    for word in words {
        print!(out; " {word}");
    }
    out.print("\n");
}

// How many samples were read or nodes written, or the refusal with the count that came with it.
pub fn put_count(out: &Printer<impl Print>, v: Verdict, count: usize, things: &str) {
    if accepted(v) {
        print!(out; "{count} {things}");
    } else {
        print!(out; "{v}");
        print!(out; ", count {count}");
    }
}

// The label, and the refusal where there is one; what a judge says or the match ends follow.
pub fn put_judged(out: &Printer<impl Print>, label: &[u8], v: Verdict) {
    out.label(label);
    if !accepted(v) {
        print!(out; "{v}");
        out.print(", ");
    }
}

// The words that were lent to a judge.
pub fn put_lent(out: &Printer<impl Print>, words: &[u64]) {
    out.print(", words");
    if out.short {
        put_digest(out, words);
    } else {
        put_shares(out, words);
    }
    out.print("\n");
}

pub fn yes_or_no(yes: bool) -> &'static str {
    if yes { "yes" } else { "no" }
}
