// What was lent, in short.
use crate::print::Printer;

// The sum FNV-1a of 64 bits: what it begins with, and what it multiplies by.
const BASIS: u64 = 14695981039346656037;

const PRIME: u64 = 1099511628211;

// One number that depends on every word: the sum FNV-1a, over words in place of bytes.
fn digest(words: &[u64]) -> u64 {
    words
        .iter()
        .fold(BASIS, |sum, word| (sum ^ *word).wrapping_mul(PRIME))
}

pub fn put_digest(out: &Printer<impl Print>, words: &[u64]) {
    print!(out; " {:016x}", digest(words));
}

// The bytes with nothing between.
pub fn put_digits(out: &Printer<impl Print>, bytes: &[u8]) {
    out.print(" ");
    for byte in bytes {
        print!(out; "{byte:02x}");
    }
}
