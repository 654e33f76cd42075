//! What documents become with new texts.

use super::tiny;
use std::alloc::{AllocError, Global};
use std::test::Fail;
use t1_document::{Texts, read_document};
use t1_font_shared_tests::{are_same, joined, used};

/// Texts with this one for the font Tiny.
fn texts_of(alloc: Global, new: &[u8]) -> Result<Texts<'_>, AllocError> {
    let mut texts = Texts::new(alloc);
    texts.put(b"Tiny", b"")?;
    texts.put(b"Tiny", new)?;
    texts.put(b"Other", b"")?;
    Ok(texts)
}

/// A text with a new text for the font Tiny.
fn text_levelled(alloc: Global, text: &[u8], new: &[u8]) -> Result<Vec<u8>, AllocError> {
    used(read_document(alloc, text), |document| {
        used(texts_of(alloc, new), |texts| document.level(alloc, texts))
    })
}

/// A document of these parts with a new text for the font Tiny.
pub fn levelled(alloc: Global, parts: &[&[u8]], new: &[u8]) -> Result<Vec<u8>, AllocError> {
    let text = joined(alloc, parts)?;
    text_levelled(alloc, text.as_slice(), new)
}

/// Whether a document becomes this with a new text for Tiny.
fn becomes(alloc: Global, parts: &[&[u8]], new: &[u8], want: &[&[u8]]) -> bool {
    are_same(levelled(alloc, parts, new), joined(alloc, want))
}

const BEGIN: &[u8] = b"%%BeginFont: CMR10\n";

const END: &[u8] = b"\n{restore}if\n%%EndFont\n";

const BARE_END: &[u8] = b"%%EndFont\n";

const INSIDE: &[u8] = b"%%BeginDocument: a\n";

const BEHIND: &[u8] = b"%%EndDocument\n";

/// What of documents with a new text comes out wrong, if anything.
fn what_is_wrong<'a>(alloc: Global, a: &'a [u8], b: &'a [u8], n: &'a [u8]) -> &'static str {
    let twice = [BEGIN, a, END, BEGIN, a, END];
    let both = [b"%!\n", BEGIN, a, END, b"x\n", BEGIN, b, END, b"showpage\n"];
    let new = [b"%!\n", BEGIN, n, END, b"x\n", BEGIN, n, END, b"showpage\n"];
    let beside = [INSIDE, BEGIN, a, END, BEHIND, BEGIN, b, END, BEGIN, a, END];
    let new_beside = [INSIDE, BEGIN, n, END, BEHIND, BEGIN, n, END, BEGIN, n, END];
    if !becomes(alloc, &[b"%!\n"], n, &[b"%!\n"]) {
        "no place"
    } else if !becomes(alloc, &twice, a, &twice) {
        "its own text"
    } else if !becomes(alloc, &both, n, &new) {
        "two subsets"
    } else if !becomes(alloc, &beside, n, &new_beside) {
        "a document inside"
    } else {
        ""
    }
}

// meets Document::level Ok at 0, 2, 3 places
#[test]
fn new_texts(rt: HostRuntime) -> Result<(), Fail> {
    let alloc = rt.alloc();
    let one = tiny(alloc, b"%! one")?;
    let two = tiny(alloc, b"%! two")?;
    let new = tiny(alloc, b"%! another")?;
    let wrong = what_is_wrong(alloc, one.as_slice(), two.as_slice(), new.as_slice());
    assert!(rt; wrong.is_empty(), "{wrong}");
    Ok(())
}

/// Whether a document of two places stays as it is with a new text for Tiny.
fn stays(alloc: Global, new: &[u8]) -> Result<bool, AllocError> {
    let font = tiny(alloc, b"%!")?;
    let parts = [
        BEGIN,
        font.as_slice(),
        END,
        BEGIN,
        font.as_slice(),
        BARE_END,
    ];
    Ok(becomes(alloc, &parts, new, &parts))
}

#[test]
fn texts_that_are_refused(rt: HostRuntime) -> Result<(), Fail> {
    let alloc = rt.alloc();
    let marked = tiny(alloc, b"%!\n%%EndFont")?;
    let other = tiny(alloc, b"%!\n/FontName /Other def")?;
    let font = tiny(alloc, b"%!")?;
    let longer = joined(alloc, &[font.as_slice(), b"\n"])?;
    let rows: &[(&[u8], &str)] = &[
        (marked.as_slice(), "a mark inside"),
        (other.as_slice(), "another name"),
        (longer.as_slice(), "more than a font text"),
        (b"", "nothing"),
    ];
    for &(new, what) in rows {
        assert!(rt; stays(alloc, new) == Ok(true), "{what}");
    }
    Ok(())
}
