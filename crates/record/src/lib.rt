// Reading a record: its refusals, all before the first write, and then its samples, one word each.
#![tactic(auto)]

ghost use Rattle.std.specs.Prelude.{◌≡◌, ◌++◌, ◌+◌, ◌*◌, ◌≤◌, length, drop};
ghost use Rattle.record.specs.Record.{sample_at, samples, Reads};
ghost use Rattle.record.specs.Computed.{reading_by};

use refusal::{Reason, Verdict, heading};

// The samples of a record, at most.
const LONGEST: usize = 63;

// What reading answers: the verdict, and how many samples it wrote.
#[repr(C)]
#[derive(Clone, Copy)]
pub struct Reading {
    pub verdict: Verdict,
    pub count: usize,
}

impl From<Result<usize, Reason>> for Reading {
    ghost from_gives = { λ read reading. reading ≡ reading_by read };

    // A refusal counts no sample.
    fn from(read: Result<usize, Reason>) -> Reading {
        match read {
            Ok(count) => Reading {
                verdict: Verdict::ACCEPTED,
                count,
            },
            Err(reason) => Reading {
                verdict: Verdict::from(reason),
                count: 0,
            },
        }
    }
}

// Sample i.
fn sample_at(b: &[u8], i: usize) -> u64
    requires { 6 + 8 * (i + 1) ≤ length b.now }
    ensures { result ≡ sample_at b.now i }
{
    let at = 6 + 8 * i;
    let w = &b[at..at + 8];
    u64::from_le_bytes([w[0], w[1], w[2], w[3], w[4], w[5], w[6], w[7]])
}

// Writes the n samples in order, and leaves the later words.
fn put_samples(b: &[u8], n: usize, out: &mut [u64])
    requires { (6 + 8 * n ≤ length b.now) × (n ≤ length out.old) }
    ensures { out.new ≡ samples b.now n ++ drop n out.old }
{
    for i in 0..n {
        out[i] = sample_at(b, i);
    }
}

// Refusals 1, 2, 3, 10, 5 and 15, the first that applies; with none, the samples in the first words of `out`, and their count.
fn read_samples(b: &[u8], out: &mut [u64]) -> Result<usize, Reason>
    ensures { Reads b.now out.old (reading_by result) out.new }
{
    heading(b, b'W', 1)?;
    let n = usize::from(b[5]);
    if LONGEST < n {
        return Err(Reason::ManySamples);
    }
    if b.len() != 6 + 8 * n {
        return Err(Reason::WrongLength);
    }
    if out.len() < n {
        return Err(Reason::SmallOutput);
    }
    put_samples(b, n, out);
    Ok(n)
}

// Reads a record, of any bytes.
pub fn read(b: &[u8], out: &mut [u64]) -> Reading
    ensures { Reads b.now out.old result out.new }
{
    Reading::from(read_samples(b, out))
}
