//! A name whose places keep their fonts for a lack, and documents of many bytes and of very many places.

use super::joins::{BEGIN, END, comes, cut, font_text, whole};
use super::tiny;
use std::alloc::{AllocError, Global};
use std::test::Fail;
use t1_bytes::texts::find_from;
use t1_bytes::{EEXEC_KEY, EEXEC_LEAD, open, split_eexec};
use t1_font_shared_tests::{file, joined, of_font};
use t1_tiny::PFA;

/// How many bytes of Tiny are its clear text.
const CLEAR: usize = 313;

/// A text without what stands from the first of these on up to the second.
fn without(alloc: Global, text: &[u8], from: &[u8], to: &[u8]) -> Result<Vec<u8>, AllocError> {
    match find_from(text, from, 0) {
        Some(start) => match find_from(text, to, start) {
            Some(end) => joined(alloc, &[&text[..start], &text[end..]]),
            None => Err(AllocError),
        },
        None => Err(AllocError),
    }
}

/// The file of Tiny, with a binary cipher, without its Subr 5, which its glyph X executes.
fn file_without_5(alloc: Global) -> Result<Vec<u8>, AllocError> {
    let Ok((_, cipher)) = split_eexec(alloc, PFA) else {
        return Err(AllocError);
    };
    let private = open(cipher, EEXEC_KEY, EEXEC_LEAD);
    let less = without(alloc, private.as_slice(), b"dup 5 ", b"dup 6 ")?;
    file(alloc, &PFA[..CLEAR], less.as_slice())
}

/// The font text of that font.
fn text_without_5(alloc: Global) -> Result<Vec<u8>, AllocError> {
    let file = file_without_5(alloc)?;
    of_font(alloc, file.as_slice(), |font| font_text(alloc, font))
}

// meets join_fonts Ok at 2 places
#[test]
fn a_name_kept_for_a_lack(rt: HostRuntime) -> Result<(), Fail> {
    let alloc = rt.alloc();
    let less = text_without_5(alloc)?;
    let whole = whole(alloc)?;
    let parts = [BEGIN, less.as_slice(), END, BEGIN, whole.as_slice(), END];
    let line = b"Tiny glyph X lacks subr 5\n";
    assert!(rt; comes(alloc, &parts, line, &parts));
    Ok(())
}

/// How many bytes the first line of a long font text has, and how many stand behind the last place of a long document.
const LONG: usize = 250_000;

/// A font text with a long first line.
fn long(alloc: Global, text: &[u8]) -> Result<Vec<u8>, AllocError> {
    let mut dashes = Vec::new(alloc);
    dashes.resize(LONG, b'-')?;
    joined(alloc, &[b"%!", dashes.as_slice(), b"\n", text])
}

// meets read_document Ok at 250000 bytes
// meets join_fonts Ok at 250000 bytes
// meets Joins::new_texts Ok at 250000 bytes
// meets Document::level Ok at 250000 bytes
#[test]
fn a_long_document(rt: HostRuntime) -> Result<(), Fail> {
    let alloc = rt.alloc();
    let x = cut(alloc, b"X")?;
    let whole = whole(alloc)?;
    let a = long(alloc, x.as_slice())?;
    let b = long(alloc, whole.as_slice())?;
    let mut end = Vec::new(alloc);
    end.resize(LONG, b'x')?;
    let (a, b, last) = (a.as_slice(), b.as_slice(), end.as_slice());
    let right = comes(
        alloc,
        &[BEGIN, a, END, BEGIN, b, END, last],
        b"Tiny joined\n",
        &[BEGIN, b, END, BEGIN, b, END, last],
    );
    assert!(rt; right);
    Ok(())
}

/// How many places a document of very many has.
const MANY: usize = 1_000;

/// These parts, so many times.
fn repeated<'a>(
    alloc: Global,
    parts: &[&'a [u8]],
    times: usize,
) -> Result<Vec<&'a [u8]>, AllocError> {
    let mut all = Vec::new(alloc);
    for _ in 0..times {
        all.extend_from_slice(parts)?;
    }
    Ok(all)
}

// meets join_fonts Ok at 1000 places
// meets names_of Ok at 1000 places
// meets Joins::new_texts Ok at 1000 places
// meets Document::level Ok at 1000 places
#[test]
fn very_many_places(rt: HostRuntime) -> Result<(), Fail> {
    let alloc = rt.alloc();
    let font = tiny(alloc, b"%!")?;
    let parts = repeated(alloc, &[BEGIN, font.as_slice(), END], MANY)?;
    let right = comes(alloc, parts.as_slice(), b"Tiny same\n", parts.as_slice());
    assert!(rt; right);
    Ok(())
}
