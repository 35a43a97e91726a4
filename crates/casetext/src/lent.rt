// What is lent to an entry point is filled before the call, so that a place which was written or moved is seen.
ghost use Rattle.std.specs.Prelude.{◌≡◌, ◌≤◌, length, IfOk};

use crate::text::NoCase;

pub trait Lent: Copy + PartialEq {
    // What place i holds before the call.
    fn before(i: usize) -> Self;
}

// The bytes of a table are all below 128. Only a move by a multiple of 127 places would not be seen.
impl Lent for u8 {
    fn before(i: usize) -> u8 {
        128 + (i % 127) as u8
    }
}

impl Lent for u64 {
    fn before(i: usize) -> u64 {
        0xE700000000000000u64.wrapping_add(i as u64)
    }
}

// So many places at the start of the space, filled as they are lent.
pub fn lend<T: Lent>(space: &mut [T], size: usize) -> Result<&mut [T], NoCase>
    ensures { IfOk result (λ lent. (length lent.now ≡ size) × (size ≤ length space.old)) }
{
    let lent = space.get_mut(..size).ok_or(NoCase)?;
    for (i, place) in lent.iter_mut().enumerate() {
        *place = T::before(i);
    }
    Ok(lent)
}
