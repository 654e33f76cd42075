//! Texts of whole lines.

ghost use Rattle.std.specs.Prelude.{◌≡◌, ◌++◌, ◌∷◌, [], IfOk};
ghost use Rattle.t1_document.specs.Lines.{is_line_end};
ghost use Rattle.t1_dsc.specs.Joining.{is_ended};

use std::alloc::{AllocError, Global};

/// Whether a byte is LF or CR.
fn is_line_end(byte: u8) -> bool
    ensures { result ≡ is_line_end byte }
{
    byte == b'\n' || byte == b'\r'
}

/// Whether a text leaves no line without its end.
pub(crate) fn is_ended(text: &[u8]) -> bool
    ensures { result ≡ is_ended text.now }
{
    match text.split_last() {
        Some((byte, _)) => is_line_end(*byte),
        None => true,
    }
}

/// A text with an LF behind it.
pub(crate) fn with_end(alloc: Global, text: &[u8]) -> Result<Vec<u8>, AllocError>
    ensures { IfOk result (λ v. v.items ≡ text.now ++ 10 ∷ []) }
{
    let mut whole = Vec::from_slice(alloc, text)?;
    whole.push(b'\n')?;
    Ok(whole)
}
