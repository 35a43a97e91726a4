// The cases of both judges and of match ends: a table, samples, and for the judge and match ends the words that are lent.
use calls::{judge, match_ends, plain_judge};
use casetext::lent::lend;
use casetext::print::Printer;
use casetext::text::NoCase;
use casetext::{answers, lists, text};
use judge::MatchEnds;
use judgement::Judgement;

// The most samples, and the most words: 120 shares of 65, and one share more.
const SAMPLES: usize = 100;

const WORDS: usize = 7865;

// Runs a case on the samples that the list has.
pub fn run(
    out: &Printer<impl Print>,
    name: &[u8],
    text: &[u8],
    table: &[u8],
    list: &[u8],
) -> Result<(), NoCase> {
    let mut space = [0; SAMPLES];
    let samples = lists::numbers(list, &(1..=16), &mut space)?;
    match name {
        b"judge" => run_judge(out, text, table, samples),
        b"ends" => run_ends(out, text, table, samples),
        b"plain" => {
            put_plain(out, text, plain_judge(table, samples));
            Ok(())
        }
        _ => Err(NoCase),
    }
}

// Asks the judge, with as many words as the text, a number and a label, begins with. They are printed whole, so that those left alone are seen.
fn run_judge(
    out: &Printer<impl Print>,
    text: &[u8],
    table: &[u8],
    samples: &[u64],
) -> Result<(), NoCase> {
    let (size, label) = text::opening(text, WORDS)?;
    let mut space = [0; WORDS];
    let words = lend(&mut space, size)?;
    let got = judge(table, samples, words);
    put_judgement(out, label, got);
    answers::put_lent(out, words);
    if answers::accepted(got.verdict) {
        put_other(out, label, got, plain_judge(table, samples));
    }
    Ok(())
}

// Asks for the match ends from the start that the text, two numbers and a label, begins with; the second is how many words are lent.
fn run_ends(
    out: &Printer<impl Print>,
    text: &[u8],
    table: &[u8],
    samples: &[u64],
) -> Result<(), NoCase> {
    let (start, text) = text::opening(text, usize::MAX)?;
    let (size, label) = text::opening(text, WORDS)?;
    let mut space = [0; WORDS];
    let words = lend(&mut space, size)?;
    put_ends(out, label, match_ends(table, samples, start, words));
    answers::put_lent(out, words);
    Ok(())
}

// What either judge says.
fn put_judgement(out: &Printer<impl Print>, label: &[u8], got: Judgement) {
    answers::put_judged(out, label, got.verdict);
    print!(out;
        "level {} tested {}",
        got.level.number,
        answers::yes_or_no(got.tested)
    );
}

// What match ends answered.
fn put_ends(out: &Printer<impl Print>, label: &[u8], got: MatchEnds) {
    answers::put_judged(out, label, got.verdict);
    print!(out;
        "ends {:x} top {}",
        got.mask.bits,
        answers::yes_or_no(got.top)
    );
}

// What the plain judge answered, to which nothing is lent.
fn put_plain(out: &Printer<impl Print>, label: &[u8], got: Judgement) {
    put_judgement(out, label, got);
    out.print("\n");
}

// What the plain judge says of a case that the judge accepts has to be the same: where it is not, it is printed on a line of its own, so that it is seen.
fn put_other(out: &Printer<impl Print>, label: &[u8], judged: Judgement, plain: Judgement) {
    if plain != judged {
        put_plain(out, label, plain);
    }
}
