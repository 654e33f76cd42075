//! The lines of a document.

ghost use Rattle.std.specs.Prelude.{◌≡◌, length, take_while, not, OnOk};
ghost use Rattle.t1_document.specs.Lines.{lf_comes, line_closes, is_line_end, end_len, line_of, breaks, with_document};

use std::alloc::AllocError;

/// Whether a byte is CR or LF.
fn ends_line(byte: u8) -> bool
    ensures { result ≡ is_line_end byte }
{
    byte == b'\n' || byte == b'\r'
}

/// How many bytes the end of a line has that comes first: two for CR LF, and none if there are no bytes.
fn end_len(bytes: &[u8]) -> usize
    ensures { result ≡ end_len bytes.now }
{
    match bytes {
        [] => 0,
        [b'\r', b'\n', ..] => 2,
        _ => 1,
    }
}

/// How many bytes stand before the first end of a line.
fn body_len(bytes: &[u8]) -> usize
    ensures { result ≡ length (take_while (λ b. not (is_line_end b)) bytes.now) }
{
    bytes.iter().take_while(|b| !ends_line(**b)).count()
}

/// The first line with its end, and the text behind it.
pub fn line_of(bytes: &[u8]) -> (&[u8], &[u8])
    ensures { (result.0.now, result.1.now) ≡ line_of bytes.now }
{
    let body = body_len(bytes);
    let (_, rest) = bytes.split_at(body);
    bytes.split_at(body + end_len(rest))
}

/// Whether LF comes.
fn lf_comes(bytes: &[u8]) -> bool
    ensures { result ≡ lf_comes bytes.now }
{
    match bytes {
        [b'\n', ..] => true,
        _ => false,
    }
}

/// Whether a line ends with this byte, before these.
fn closes(byte: u8, behind: &[u8]) -> bool
    ensures { result ≡ line_closes byte behind.now }
{
    byte == b'\n' || byte == b'\r' && !lf_comes(behind)
}

/// Whether a line ends between these two texts, or one of them is empty.
pub(crate) fn breaks(text: &[u8], behind: &[u8]) -> bool
    ensures { result ≡ breaks text.now behind.now }
{
    match text.split_last() {
        Some((byte, _)) => behind.is_empty() || closes(*byte, behind),
        None => true,
    }
}

/// Adds a document behind others, with an LF between if no line ends there.
///
/// # Errors
///
/// A growth was refused; then some of it may have been added.
pub fn push_document(text: &mut Vec<u8>, document: &[u8]) -> Result<(), AllocError>
    ensures { OnOk result (text.new.items ≡ with_document text.old.items document.now) }
{
    if !breaks(text.as_slice(), document) {
        text.push(b'\n')?;
    }
    text.extend_from_slice(document)
}
