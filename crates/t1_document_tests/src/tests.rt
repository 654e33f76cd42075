//! Documents as producers write them: which places they have, and what they become with new texts.

mod apart;
mod growths;
mod joins;
mod kept;
mod large;
mod levelling;
mod places;
mod pooling;
mod rewriting;

use std::alloc::{AllocError, Global};
use t1_document::{Document, Kind};
use t1_font_shared_tests::joined;
use t1_tiny::PFA;

/// How many bytes the first line of the font Tiny has, without its end.
const LINE: usize = 29;

/// The font text of Tiny with another first line.
fn tiny(alloc: Global, line: &[u8]) -> Result<Vec<u8>, AllocError> {
    let font = PFA.as_slice();
    joined(alloc, &[line, &font[LINE..font.len() - 1]])
}

/// The word of a kind.
fn word(kind: Kind) -> &'static [u8] {
    match kind {
        Kind::Font => b"Font",
        Kind::ProcSet => b"ProcSet",
        Kind::Resource => b"Resource",
        Kind::Document => b"Document",
        Kind::Data => b"Data",
        Kind::Binary => b"Binary",
    }
}

/// The text of a document, in which the kind, the depth and the name of each place stand for its font text.
fn labelled(alloc: Global, document: &Document<'_>) -> Result<Vec<u8>, AllocError> {
    let mut text = Vec::new(alloc);
    for place in document.places.as_slice() {
        text.extend_from_slice(place.before)?;
        text.push(b'<')?;
        text.extend_from_slice(word(place.kind))?;
        text.push(b' ')?;
        text.push(b'0' + place.depth.min(9) as u8)?;
        text.push(b' ')?;
        text.extend_from_slice(place.name)?;
        text.push(b'>')?;
        text.extend_from_slice(place.rest)?;
    }
    text.extend_from_slice(document.last)?;
    Ok(text)
}
