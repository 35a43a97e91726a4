// The program: a table and then a record from standard input, one line to standard output. What the line is for any input is proved in the crate `line`; here
// is only reading and writing.
#![tactic(auto)]

mod input;

use input::take;

// Where the input fails there is nothing to answer, and where the output fails nobody to tell: either way the program ends.
fn main(rt: HostRuntime) {
    let mut bytes = [0; line::ENOUGH];
    let Ok(count) = take(&rt, &mut bytes) else {
        return;
    };
    let mut line = [0; line::LONGEST_LINE];
    let length = line::answer(&bytes[..count], &mut line);
    let _ = rt.write_all(&line[..length]);
}
