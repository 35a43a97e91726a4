// Taking bytes from standard input.
ghost use Rattle.std.specs.Prelude.{◌≤◌, length, IfOk};

use std::io;
use std::io::Read;

// Takes bytes until there is no room for more or the input ends, and answers how many.
pub fn take(rt: &impl Input, out: &mut [u8]) -> io::Result<usize>
    ensures { IfOk result (λ done. done ≤ length out.new) }
{
    let mut input = rt.reader();
    let mut done = 0;
    while done < out.len() {
        let more = input.read(&mut out[done..])?;
        if more == 0 {
            break;
        }
        done += more;
    }
    Ok(done)
}
