//! In what the next byte stands.

use arrayvec::ArrayVec;

/// The most bytes of a string.
pub(crate) const LONGEST_TEXT: usize = 65_535;

/// The most bytes of a name.
pub(crate) const LONGEST_NAME: usize = 255;

/// The bytes of a name or a string so far.
pub(crate) type Word = ArrayVec<u8, 65_535>;

/// In what the next byte stands. The bytes of a name and of a string stand beside it.
#[derive(Clone, Copy)]
pub(crate) enum Mode {
    Gap,
    Comment,
    Name,
    /// After `!`.
    Escape,
    /// After `+` or `-`.
    Sign(u8),
    /// Of a negative number or not.
    Number(bool, u64),
    Text,
    /// After a `"` that ends the string or is the first of two.
    Quote,
}
