//! The stub of a Subr.

/// The charstring `return`, which takes the place of a Subr that is cut (Adobe Type 1 Font Format 1.1, chapter 8).
pub const STUB: &[u8] = &[11];
