//! The two forms of a font file.

/// The form that a font file is written in.
#[derive(Clone, Copy, Debug, PartialEq, Eq)]
pub enum Form {
    /// Text, with its encrypted part in hexadecimal lines.
    Pfa,
    /// Segments, with the encrypted part in a binary one (Technical Note 5040).
    Pfb,
}
