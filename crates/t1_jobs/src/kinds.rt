//! What a file is, by its first bytes.

ghost use Rattle.std.specs.Prelude.{◌≡◌};
ghost use Rattle.t1_jobs.specs.Kinds.{begins_with, pfm_comes, font_kind, packed_kind, file_kind};

use crate::dos::DOS_MARK;
use std::fmt;
use t1_bytes::texts::fixed_at;

/// What a file is, by its first bytes.
#[derive(Clone, Copy, Debug, PartialEq, Eq)]
pub enum FileKind {
    /// It has no bytes.
    Empty,
    /// PostScript: it begins with `%!`.
    PostScript,
    /// An EPS file for DOS, with a header before the PostScript.
    DosEps,
    /// A PDF file.
    Pdf,
    /// A Type 1 font in segments.
    Pfb,
    /// An OpenType font with the outlines of CFF.
    OpenType,
    /// A TrueType font, or several.
    TrueType,
    /// A font packed for web pages.
    Woff,
    /// A bare CFF font.
    Cff,
    /// The metrics of a font as text.
    Afm,
    /// The metrics of a font for Windows.
    Pfm,
    /// Packed by gzip.
    Gzip,
    /// Packed by xz.
    Xz,
    /// A zip archive.
    Zip,
    /// A web page.
    Html,
    /// Something else.
    Other,
}

/// Whether bytes begin with this word.
pub(crate) fn begins_with(word: &[u8], bytes: &[u8]) -> bool
    ensures { result ≡ begins_with word.now bytes.now }
{
    fixed_at(bytes, word).is_some()
}

/// Whether the header of the metrics for Windows comes: the version 1.0, and no more than 16 MB as the length of the file.
fn pfm_comes(bytes: &[u8]) -> bool
    ensures { result ≡ pfm_comes bytes.now }
{
    bytes.len() > 6 && begins_with(b"\x00\x01", bytes) && bytes[5] == 0
}

/// The kind of font, or of its metrics, that bytes begin with.
#[tactic(auto, unfolding(crate::specs::Kinds::font_kind))]
fn font_kind(bytes: &[u8]) -> Option<FileKind>
    ensures { result ≡ font_kind bytes.now }
{
    if begins_with(b"OTTO", bytes) {
        Some(FileKind::OpenType)
    } else if begins_with(b"\x00\x01\x00\x00", bytes)
        || begins_with(b"true", bytes)
        || begins_with(b"ttcf", bytes)
    {
        Some(FileKind::TrueType)
    } else if begins_with(b"wOFF", bytes) || begins_with(b"wOF2", bytes) {
        Some(FileKind::Woff)
    } else if begins_with(b"\x80\x01", bytes) {
        Some(FileKind::Pfb)
    } else if begins_with(b"\x01\x00\x04", bytes) {
        Some(FileKind::Cff)
    } else if begins_with(b"StartFontMetrics", bytes) {
        Some(FileKind::Afm)
    } else if pfm_comes(bytes) {
        Some(FileKind::Pfm)
    } else {
        None
    }
}

/// The kind of packed file or page that bytes begin with.
#[tactic(auto, unfolding(crate::specs::Kinds::packed_kind))]
fn packed_kind(bytes: &[u8]) -> FileKind
    ensures { result ≡ packed_kind bytes.now }
{
    if begins_with(b"\x1f\x8b", bytes) {
        FileKind::Gzip
    } else if begins_with(b"\xfd7zXZ\x00", bytes) {
        FileKind::Xz
    } else if begins_with(b"PK\x03\x04", bytes) {
        FileKind::Zip
    } else if begins_with(b"<!DOCTYPE", bytes) || begins_with(b"<html", bytes) {
        FileKind::Html
    } else {
        FileKind::Other
    }
}

/// What a file is, by its first bytes.
#[tactic(auto, unfolding(crate::specs::Kinds::file_kind))]
pub fn file_kind(bytes: &[u8]) -> FileKind
    ensures { result ≡ file_kind bytes.now }
{
    if bytes.is_empty() {
        FileKind::Empty
    } else if begins_with(b"%!", bytes) {
        FileKind::PostScript
    } else if begins_with(DOS_MARK, bytes) {
        FileKind::DosEps
    } else if begins_with(b"%PDF-", bytes) {
        FileKind::Pdf
    } else if let Some(kind) = font_kind(bytes) {
        kind
    } else {
        packed_kind(bytes)
    }
}

impl fmt::Display for FileKind {
    ghost use Rattle.std.specs.Prelude.{Some};
    ghost use Rattle.t1_jobs.specs.Kinds.{kind_text};

    ghost output = { λ kind. Some (kind_text kind) };

    fn fmt<W: fmt::Write>(&self, f: &mut fmt::Formatter<W>) -> fmt::Result {
        match self {
            FileKind::Empty => f.write_str("an empty file"),
            FileKind::PostScript => f.write_str("a PostScript file"),
            FileKind::DosEps => f.write_str("an EPS file for DOS"),
            FileKind::Pdf => f.write_str("a PDF file"),
            FileKind::Pfb => f.write_str("a PFB font"),
            FileKind::OpenType => f.write_str("an OpenType font"),
            FileKind::TrueType => f.write_str("a TrueType font"),
            FileKind::Woff => f.write_str("a WOFF font"),
            FileKind::Cff => f.write_str("a CFF font"),
            FileKind::Afm => f.write_str("an AFM file"),
            FileKind::Pfm => f.write_str("a PFM file"),
            FileKind::Gzip => f.write_str("a gzip file"),
            FileKind::Xz => f.write_str("an xz file"),
            FileKind::Zip => f.write_str("a zip file"),
            FileKind::Html => f.write_str("an HTML page"),
            FileKind::Other => f.write_str("an unknown file"),
        }
    }
}
