// Lists of hexadecimal numbers, as the bytes and the samples of a case are written.
ghost use Rattle.std.specs.Prelude.{◌≤◌, length, IfOk, IfSome};

use crate::text::{Base, NoCase, numeral, split_once};
use std::ops::RangeInclusive;

// A number of so many hexadecimal digits, and how often it stands: `*` and a decimal number say so, or else it stands once.
fn run(text: &[u8], digits: &RangeInclusive<usize>) -> Option<(usize, usize)> {
    let (number, times) = match split_once(text, b'*') {
        Some((number, times)) => (number, numeral(times, Base::Decimal)?),
        None => (text, 1),
    };
    if !digits.contains(&number.len()) {
        return None;
    }
    Some((numeral(number, Base::Hexadecimal)?, times))
}

// Puts the numbers of one run after the `count` that stand in `out`, and answers how many stand there then.
fn put_run<T: Copy + TryFrom<usize>>(
    text: &[u8],
    digits: &RangeInclusive<usize>,
    out: &mut [T],
    count: usize,
) -> Option<usize>
where
    T::Error: Drop,
    ensures { IfSome result (λ end. end ≤ length out.new) }
{
    let (number, times) = run(text, digits)?;
    let value = T::try_from(number).ok()?;
    let end = count.checked_add(times)?;
    for place in out.get_mut(count..end)? {
        *place = value;
    }
    Some(end)
}

// Puts the numbers that the text lists, each of so many digits, at the start of `out`, and answers them.
pub fn numbers<'a, T: Copy + TryFrom<usize>>(
    text: &[u8],
    digits: &RangeInclusive<usize>,
    out: &'a mut [T],
) -> Result<&'a [T], NoCase>
where
    T::Error: Drop,
    ensures { IfOk result (λ numbers. length numbers.now ≤ length out.old) }
{
    let mut count = 0;
    for run in text
        .split(|byte| *byte == b' ')
        .filter(|run| !run.is_empty())
    {
        count = put_run(run, digits, out, count).ok_or(NoCase)?;
    }
    out.get(..count).ok_or(NoCase)
}
