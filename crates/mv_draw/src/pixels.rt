//! Lengths in pictures.

/// Returns a number that a picture has room for.
pub(crate) fn pixels(number: usize) -> u32 {
    number.min(u32::MAX as usize) as u32
}
