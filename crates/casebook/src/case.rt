// One line of the input: a case, a comment, blank, or none of these.
use crate::{judging, tables};
use casetext::lent::lend;
use casetext::print::Printer;
use casetext::text::NoCase;
use casetext::{answers, lists, text};
use nodes::operators::NEWEST;
use refusal::Verdict;

// The most bytes of a case, the most words that are lent to `read`, and the most bytes to `expand` and `rewrite`.
const BYTES: usize = 2048;

const WORDS: usize = 64;

const OUTPUT: usize = 500;

// Runs the line and prints its answer.
pub fn run(out: &Printer<impl Print>, line: &[u8]) {
    if line.iter().all(|byte| *byte == b' ') || line.starts_with(b"#") {
        return;
    }
    if let Err(NoCase) = run_case(out, line) {
        answers::unread(out, line);
    }
}

// What a case asks for stands before its last colon. Its bytes end at a slash, where there is one, and samples for a judge follow it.
fn run_case(out: &Printer<impl Print>, line: &[u8]) -> Result<(), NoCase> {
    let (head, body) = text::rsplit_once(line, b':').ok_or(NoCase)?;
    let (name, text) = text::split_once(head, b' ').ok_or(NoCase)?;
    let mut space = [0; BYTES];
    match text::split_once(body, b'/') {
        Some((bytes, samples)) => {
            let table = lists::numbers(bytes, &(2..=2), &mut space)?;
            judging::run(out, name, text, table, samples)
        }
        None => {
            let bytes = lists::numbers(body, &(2..=2), &mut space)?;
            call(out, name, text, bytes)
        }
    }
}

// Calls the entry point of the name.
fn call(out: &Printer<impl Print>, name: &[u8], text: &[u8], bytes: &[u8]) -> Result<(), NoCase> {
    match name {
        b"check" => answers::table(out, text, table::check_to(bytes, NEWEST)),
        b"program" => program(out, text, bytes),
        b"read" => read(out, text, bytes)?,
        b"rewrite" => write(out, text, |lent| {
            let got = calls::rewrite(bytes, lent);
            (got.verdict, got.count)
        })?,
        b"expand" => write(out, text, |lent| {
            let got = expand::expand(bytes, lent);
            (got.verdict, got.count)
        })?,
        _ => return Err(NoCase),
    }
    Ok(())
}

// Runs the program on the bytes.
fn program(out: &Printer<impl Print>, label: &[u8], bytes: &[u8]) {
    let mut line = [0; line::LONGEST_LINE];
    let length = line::answer(bytes, &mut line);
    answers::program(out, label, &line[..length]);
}

// Reads a record into as many words as the text, a number and a label, begins with. They are printed whole, so that those left alone are seen.
fn read(out: &Printer<impl Print>, text: &[u8], bytes: &[u8]) -> Result<(), NoCase> {
    let (size, label) = text::opening(text, WORDS)?;
    let mut space = [7; WORDS];
    let words = &mut space[..size];
    let got = record::read(bytes, words);
    answers::record(out, label, got.verdict, got.count, words);
    Ok(())
}

// Has a table written into as many bytes as the text, a number and a label, begins with. They are printed whole, so that those left alone are seen.
fn write<F: FnOnce(&mut [u8]) -> (Verdict, usize)>(
    out: &Printer<impl Print>,
    text: &[u8],
    fill: F,
) -> Result<(), NoCase>
    requires { F.IsAlwaysCallable fill }
{
    let (size, label) = text::opening(text, OUTPUT)?;
    let mut space = [0; OUTPUT];
    let bytes = lend(&mut space, size)?;
    let (verdict, count) = fill(bytes);
    tables::written(out, label, verdict, count, bytes);
    Ok(())
}
