// Runs the cases of standard input through the entry points, and prints one line for each. How text is read and printed stands in `casetext`.
//
//     # a comment, as a blank line, is skipped
//     check LABEL: 53 56 54 01 00 00*16
//     read K LABEL: 53 56 57 01 00 00
//     expand K LABEL: 53 56 54 03 00 03 01 00*3 10 00*3 17 01 00 21
//     rewrite K LABEL: 53 56 54 01 00 02 01 00*3 10 00*3
//     judge W LABEL: 53 56 54 01 00 03 01 00*3 10 00*3 20 01 00*2 / 1 5 2*3
//     plain LABEL: 53 56 54 01 00 03 01 00*3 10 00*3 20 01 00*2 / 1 5 2*3
//     ends START W LABEL: 53 56 54 01 00 02 01 00*3 10 00*3 / 1 1 2
//     program LABEL: 53 56 54 01 00 03 01 00*3 10 00*3 20 01 00*2 53 56 57 01 00 00
//
// A case's bytes stand after its last colon. A byte is two hexadecimal digits, and `*N` after it repeats it N times. K words, 64 at most and each holding 7,
// are lent to `read`, and K bytes, 500 at most and the one at place i holding 128 + i % 127, to `expand` and `rewrite`. The bytes of `program` are its whole
// input, and the line that it answers is printed.
//
// The samples of `judge`, `plain` and `ends` stand after a slash, 100 at most: each has 1 to 16 hexadecimal digits, and `*N` repeats it. To `judge` and
// `ends` W words, 7,865 at most (120 shares of 65, and one share more) and the one at place i holding 0xE700000000000000 + i, are lent. The match ends are
// one number: bit k is end k. START is a decimal number. `plain` asks the plain judge, to which nothing is lent. It is also asked of each case of `judge`
// that is accepted, and where it says anything else, that is printed on one more line.
//
// All that was lent is printed, in full or in short. In full, of the bytes `kept*N` is N that hold what they held, 3(1,0) a node with its operator, x and y,
// and two digits any other byte. The words of `judge` and `ends` are printed share by share: `kept*N` is N words of shares that hold what they held, and 1(0:2
// 64:kept) share 1, in which word 0 is 2, word 64 holds what it held and any other is 0. In short, the bytes are two digits each with nothing between, and
// those words one digest of 16 digits (`casetext::short`). The words of `read` are printed in decimal either way.
//
// A case has 2,048 bytes at most, and a line 8,192. Any other line is printed as one that cannot be read, so that a slip fails the comparison.
#![tactic(auto)]

mod case;
mod judging;
mod lines;
mod tables;

use casetext::print::Printer;
use lines::Line;
use std::io::Read;

// Runs all cases; `short` is whether what was lent is printed in short. Where nothing comes, or the read fails, the line that is kept is the last. A proved
// loop has to end, and nothing says that the input does: there are as many turns as no run uses up.
pub fn run(rt: &(impl Input + Print), short: bool) {
    let out = Printer::new(rt, short);
    let mut input = rt.reader();
    let mut line = Line::new();
    let mut piece = [0; 4096];
    for _ in 0..u64::MAX {
        let count = input.read(&mut piece).unwrap_or(0);
        if count == 0 {
            line.end(&out);
            return;
        }
        line.take(&out, &piece[..count]);
    }
}
