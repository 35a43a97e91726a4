// Splitting a line, and reading numbers from it.
ghost use Rattle.std.specs.Prelude.{◌≡◌, ◌+◌, ◌≤◌, ◌<◌, length, IfOk, IfSome};

// That a text is not what a case has in its place.
#[derive(Clone, Copy, Debug, PartialEq, Eq)]
pub struct NoCase;

// The text before the first place that holds the byte, and the text after it.
pub fn split_once(text: &[u8], byte: u8) -> Option<(&[u8], &[u8])>
    ensures { IfSome result (λ p. length p.0.now + 1 + length p.1.now ≡ length text.now) }
{
    let at = text.iter().position(|b| *b == byte)?;
    Some((&text[..at], &text[at + 1..]))
}

// The text before the last place that holds the byte, and the text after it.
pub fn rsplit_once(text: &[u8], byte: u8) -> Option<(&[u8], &[u8])>
    ensures { IfSome result (λ p. length p.0.now + 1 + length p.1.now ≡ length text.now) }
{
    let at = text.iter().rposition(|b| *b == byte)?;
    Some((&text[..at], &text[at + 1..]))
}

// The base that a number is written to.
#[derive(Clone, Copy)]
pub enum Base {
    Decimal = 10,
    Hexadecimal = 16,
}

// The text as a number to the base.
pub fn numeral(text: &[u8], base: Base) -> Option<usize> {
    if text.is_empty() {
        return None;
    }
    text.iter().try_fold(0usize, |value, byte| {
        let digit = char::from(*byte).to_digit(base as u32)?;
        value
            .checked_mul(base as usize)?
            .checked_add(digit as usize)
    })
}

// The decimal number that the text begins with, where it is no more than the most that is allowed, and the text after the space that ends it.
pub fn opening(text: &[u8], most: usize) -> Result<(usize, &[u8]), NoCase>
    ensures { IfOk result (λ p. (p.0 ≤ most) × (length p.1.now < length text.now)) }
{
    let (number, rest) = split_once(text, b' ').ok_or(NoCase)?;
    let value = numeral(number, Base::Decimal).ok_or(NoCase)?;
    if value > most {
        return Err(NoCase);
    }
    Ok((value, rest))
}
