//! Each call that grows, over a small document. `tools/sweep_growths.py` refuses one growth after the other: a call that then
//! answers want of memory answers right when it is made again.

use super::levelling::{level_to, place_count};
use super::rewriting::levelled;
use super::tiny;
use std::alloc::{AllocError, Global};
use t1_document::{
    Document, Joins, Outcome, Place, join_fonts, names_of, push_document, read_document,
};
use t1_font::ReadFault;
use t1_font_shared_tests::{joined, seen, used};

/// Whether the font of a place is read.
fn is_read(alloc: Global, place: &Place<'_>) -> Result<bool, AllocError> {
    match seen(place.source(alloc), |_| true) {
        Ok(read) => Ok(read),
        Err(ReadFault::Memory) => Err(AllocError),
        Err(_) => Ok(false),
    }
}

/// Whether the font of a place is read, and its text can stand there.
fn is_right(alloc: Global, place: &Place<'_>) -> Result<bool, AllocError> {
    Ok(is_read(alloc, place)? && place.can_stand(alloc, place.text)?)
}

/// Whether a document has one font text, at this offset, for which both calls answer right.
fn is_at(alloc: Global, document: &Document<'_>, at: usize) -> Result<bool, AllocError> {
    match document.places.as_slice() {
        [place] => Ok(place.text_offset(0) == at && is_right(alloc, place)?),
        _ => Ok(false),
    }
}

/// Whether the places of a document with these joins have one text.
fn has_one_text(
    alloc: Global,
    document: &Document<'_>,
    joins: &Joins<'_>,
) -> Result<bool, AllocError> {
    let same = matches!(joins.get(b"Tiny"), Some(Outcome::Same(_)));
    seen(
        joins.new_texts(alloc, document.places.as_slice()),
        |texts| same && texts.get(b"Tiny").is_some(),
    )
}

/// Whether a document has one name, whose places have one text.
fn has_one_name(alloc: Global, document: &Document<'_>) -> Result<bool, AllocError> {
    let places = document.places.as_slice();
    let one = seen(names_of(alloc, places), |names| names.len() == 1)?;
    let same = used(
        join_fonts(alloc, places),
        |joins| has_one_text(alloc, document, joins),
    )?;
    Ok(one && same)
}

/// Two documents with this text, one behind the other.
fn twice(alloc: Global, text: &[u8]) -> Result<Vec<u8>, AllocError> {
    let mut both = Vec::new(alloc);
    push_document(&mut both, text)?;
    push_document(&mut both, text)?;
    Ok(both)
}

/// Whether two documents with this text have one name, whose places have one text.
fn joins_right(alloc: Global, text: &[u8]) -> Result<bool, AllocError> {
    let both = twice(alloc, text)?;
    used(
        read_document(alloc, both.as_slice()),
        |document| has_one_name(alloc, document),
    )
}

/// Whether a text is read right, and joins.
fn is_read_right(alloc: Global, text: &[u8]) -> Result<bool, AllocError> {
    let read = used(
        read_document(alloc, text),
        |document| is_at(alloc, document, 12),
    )?;
    Ok(read && joins_right(alloc, text)?)
}

/// Whether a document gets a new text.
fn is_levelled(
    alloc: Global,
    parts: &[&[u8]],
    new: &[u8],
    want: &[u8],
) -> Result<bool, AllocError> {
    Ok(levelled(alloc, parts, new)?.as_slice() == want)
}

/// Whether two documents with this text stay so, levelled together.
fn stay_levelled(alloc: Global, text: &[u8]) -> Result<bool, AllocError> {
    let both = [text, text];
    Ok(place_count(alloc, &both)? == 2 && level_to(alloc, &both, &both)?)
}

/// Whether each call answers right.
fn all_answer_right(alloc: Global) -> Result<bool, AllocError> {
    let font = tiny(alloc, b"%!")?;
    let new = tiny(alloc, b"%! new")?;
    let parts: [&[u8]; 3] = [b"%%BeginFont\n", font.as_slice(), b"\n%%EndFont\n"];
    let text = joined(alloc, &parts)?;
    let want = joined(alloc, &[b"%%BeginFont\n", new.as_slice(), b"\n%%EndFont\n"])?;
    Ok(
        is_read_right(alloc, text.as_slice())?
            && stay_levelled(alloc, text.as_slice())?
            && is_levelled(alloc, &parts, new.as_slice(), want.as_slice())?,
    )
}

// meets Place::source Ok at 1 fonts
// meets Place::can_stand Ok at 1 texts
#[test]
fn growths(rt: HostRuntime) {
    let right = match all_answer_right(rt.alloc()) {
        Err(AllocError) => all_answer_right(rt.alloc()),
        answer => answer,
    };
    assert!(rt; right == Ok(true));
}
