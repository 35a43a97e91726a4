// The words that are lent to the judge, printed share by share.
use crate::lent::Lent;
use crate::print::Printer;

// The words of a share; the last share may have fewer.
const SHARE: usize = 65;

// Whether the words of a share, which begins at the place, hold what was lent.
fn is_kept(share: &[u64], start: usize) -> bool {
    share
        .iter()
        .zip(start..)
        .all(|(word, i)| *word == u64::before(i))
}

// A word with its place in the share.
fn put_word(out: &Printer<impl Print>, i: usize, word: u64) {
    let place = i % SHARE;
    if word == u64::before(i) {
        print!(out; "{place}:kept");
    } else {
        print!(out; "{place}:{word:x}");
    }
}

// The words of a share that are not 0, with a space between.
fn put_share(out: &Printer<impl Print>, share: &[u64], start: usize) {
    print!(out; " {}(", start / SHARE);
    let places = share.iter().zip(start..).filter(|(word, _)| **word != 0);
    for (k, (word, i)) in places.enumerate() {
        if k > 0 {
            out.print(" ");
        }
        put_word(out, i, *word);
    }
    out.print(")");
}

// The words: how many stand in shares that hold what was lent, then the next share that does not, and so on.
pub fn put_shares(out: &Printer<impl Print>, words: &[u64]) {
    let mut kept = 0;
    for (share, start) in words.chunks(SHARE).zip((0..).step_by(SHARE)) {
        if is_kept(share, start) {
            kept += share.len();
        } else {
            out.kept(kept);
            put_share(out, share, start);
            kept = 0;
        }
    }
    out.kept(kept);
}
