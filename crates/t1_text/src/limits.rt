//! The limits of the words, names and charstrings of fonts.

/// The most bytes that a word has, and that a phrase of two words has with the blank between them.
pub(crate) const WORD_LIMIT: usize = 32;

/// The most bytes that a name has.
pub const NAME_LIMIT: usize = 127;

/// The most bytes that a charstring has, including its lead bytes.
pub const CHARSTRING_LIMIT: u32 = 65535;
