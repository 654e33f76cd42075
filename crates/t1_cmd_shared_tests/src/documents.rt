//! Documents with places for the font Tiny.
use super::changed::with_all;
use super::engines::subset;
use super::texts::joined;
use std::alloc::{AllocError, Global};
use t1_cmd::Pooling;
use t1_tiny::PFA;

/// Documents one behind the other, with a font for each name.
pub const BEHIND: Pooling = Pooling {
    tags: false,
    dsc: false,
};

/// Documents one behind the other, with a font for each family, too.
pub const FAMILIES: Pooling = Pooling {
    tags: true,
    dsc: false,
};

/// A document with a place for a font, and a line behind it that has no end.
pub fn document(alloc: Global, font: &[u8]) -> Result<Vec<u8>, AllocError> {
    joined(alloc, &[BEGIN, font, END])
}

/// What stands before the font of such a document.
pub const BEGIN: &[u8] = b"%!PS\n%%BeginFont: Tiny\n";

const END: &[u8] = b"{restore}if\n%%EndFont\nshowpage";

/// The font text of Tiny.
pub fn whole() -> &'static [u8] {
    let font = PFA.as_slice();
    &font[..font.len() - 1]
}

/// The font text of the subset of Tiny over X.
pub fn part(alloc: Global) -> Vec<u8> {
    let mut cut = subset(alloc, PFA, &[b"X"]);
    cut.pop();
    cut
}

/// The font text of Tiny with another first byte of the first comment.
pub fn other(alloc: Global) -> Result<Vec<u8>, AllocError> {
    let font = PFA.as_slice();
    joined(alloc, &[b"%!?", &font[3..font.len() - 1]])
}

/// A document with a font text in which the font's name has this tag.
pub fn tagged(alloc: Global, text: &[u8], tag: &[u8]) -> Result<Vec<u8>, AllocError> {
    let name = joined(alloc, &[b"/FontName /", tag])?;
    let font = with_all(alloc, text, b"/FontName /", name.as_slice())?;
    document(alloc, font.as_slice())
}
