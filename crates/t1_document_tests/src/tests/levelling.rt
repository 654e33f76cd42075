//! Documents that are levelled together.

use super::joins::{BEGIN, END, cut, whole};
use std::alloc::{AllocError, Global};
use std::test::Fail;
use t1_document::{LevelledTexts, all_places, level_documents, read_documents};
use t1_font_shared_tests::{joined, seen, used};

/// How many places documents have in all.
pub fn place_count(alloc: Global, texts: &[&[u8]]) -> Result<usize, AllocError> {
    used(read_documents(alloc, texts), |documents| {
        seen(
            all_places(alloc, documents.as_slice()),
            |places| places.len(),
        )
    })
}

/// Whether levelled documents are these.
fn are_these(levelled: &LevelledTexts<'_>, want: &[&[u8]]) -> bool {
    if levelled.texts.len() != want.len() {
        return false;
    }
    for (text, other) in levelled.texts.as_slice().iter().zip(want.iter()) {
        if text.as_slice() != *other {
            return false;
        }
    }
    true
}

/// Whether documents are levelled to these.
pub fn level_to(alloc: Global, texts: &[&[u8]], want: &[&[u8]]) -> Result<bool, AllocError> {
    seen(
        level_documents(alloc, texts),
        |levelled| are_these(levelled, want),
    )
}

/// Whether documents have so many places, and are levelled to these.
fn are_right(alloc: Global, texts: &[&[u8]], want: &[&[u8]], places: usize) -> bool {
    place_count(alloc, texts) == Ok(places) && level_to(alloc, texts, want) == Ok(true)
}

/// A document with this font text.
fn document(alloc: Global, font: &[u8], end: &[u8]) -> Result<Vec<u8>, AllocError> {
    joined(alloc, &[b"%!\n", BEGIN, font, END, end])
}

/// So many times a text.
fn times(alloc: Global, text: &[u8], count: usize) -> Result<Vec<&[u8]>, AllocError> {
    let mut many = Vec::new(alloc);
    many.resize(count, text)?;
    Ok(many)
}

// meets read_documents Ok at 0, 2, 300 documents
// meets all_places Ok at 0, 2, 300 documents
// meets level_documents Ok at 0, 2, 300 documents
#[test]
fn levelled_together(rt: HostRuntime) -> Result<(), Fail> {
    let alloc = rt.alloc();
    let x = cut(alloc, b"X")?;
    let whole = whole(alloc)?;
    let a = document(alloc, x.as_slice(), b"one\n")?;
    let b = document(alloc, whole.as_slice(), b"two\n")?;
    let new = document(alloc, whole.as_slice(), b"one\n")?;
    let many = times(alloc, a.as_slice(), 300)?;
    assert!(rt; are_right(alloc, &[], &[], 0));
    assert!(rt;
        are_right(
            alloc,
            &[a.as_slice(), b.as_slice()],
            &[new.as_slice(), b.as_slice()],
            2
        )
    );
    assert!(rt; are_right(alloc, many.as_slice(), many.as_slice(), 300));
    Ok(())
}
