//! What the fonts of documents come to.

use super::tiny;
use std::alloc::{AllocError, Global};
use std::test::Fail;
use t1_document::{
    Document, Joins, Outcome, Place, join_fonts, names_of, push_document, read_document,
};
use t1_font::{Font, Form, write};
use t1_font_shared_tests::{are_same, is, joined, of_font, seen, used, with};
use t1_subset::subset;
use t1_tiny::PFA;

/// The line of a name: the name, and what its fonts come to.
fn line(alloc: Global, name: &[u8], joins: &Joins<'_>) -> Result<Vec<u8>, AllocError> {
    match joins.get(name) {
        Some(Outcome::Same(_)) => joined(alloc, &[name, b" same\n"]),
        Some(Outcome::Joined(_)) => joined(alloc, &[name, b" joined\n"]),
        Some(Outcome::Stays(why)) => {
            let why = why.to_string(alloc)?;
            joined(alloc, &[name, b" ", why.as_bytes(), b"\n"])
        }
        None => joined(alloc, &[name, b" none\n"]),
    }
}

/// The lines of names.
fn lines_of(alloc: Global, names: &[&[u8]], joins: &Joins<'_>) -> Result<Vec<u8>, AllocError> {
    let mut lines = Vec::new(alloc);
    for name in names {
        let line = line(alloc, name, joins)?;
        lines.extend_from_slice(line.as_slice())?;
    }
    Ok(lines)
}

/// A line for each name of some places.
pub fn lines(
    alloc: Global,
    places: &[Place<'_>],
    joins: &Joins<'_>,
) -> Result<Vec<u8>, AllocError> {
    used(
        names_of(alloc, places),
        |names| lines_of(alloc, names.as_slice(), joins),
    )
}

/// Whether a document whose fonts come to this has these lines, and is levelled so.
fn joins_to(
    alloc: Global,
    document: &Document<'_>,
    joins: &Joins<'_>,
    told: &[u8],
    level: &[&[u8]],
) -> bool {
    let levelled = used(
        joins.new_texts(alloc, document.places.as_slice()),
        |texts| document.level(alloc, texts),
    );
    are_same(levelled, joined(alloc, level))
        && is(lines(alloc, document.places.as_slice(), joins), told)
}

/// Whether a text comes to this.
fn text_comes(alloc: Global, text: &[u8], told: &[u8], level: &[&[u8]]) -> bool {
    let comes = used(read_document(alloc, text), |document| {
        seen(
            join_fonts(alloc, document.places.as_slice()),
            |joins| joins_to(alloc, document, joins, told, level),
        )
    });
    comes == Ok(true)
}

/// Whether a document of these parts has these lines, a line for each name, and is levelled to this.
pub fn comes(alloc: Global, parts: &[&[u8]], told: &[u8], level: &[&[u8]]) -> bool {
    match joined(alloc, parts) {
        Ok(text) => text_comes(alloc, text.as_slice(), told, level),
        Err(_) => false,
    }
}

/// The font text of Tiny.
pub fn whole(alloc: Global) -> Result<Vec<u8>, AllocError> {
    let mut text = Vec::from_slice(alloc, PFA)?;
    text.pop();
    Ok(text)
}

/// The font text of a font.
pub fn font_text(alloc: Global, font: &Font<'_>) -> Result<Vec<u8>, AllocError> {
    let mut text = write(alloc, font, Form::Pfa)?;
    text.pop();
    Ok(text)
}

/// The font text of a subset over one name.
fn cut_text(alloc: Global, font: &Font<'_>, name: &[u8]) -> Result<Vec<u8>, AllocError> {
    match seen(subset(alloc, font, &[name]), |cut| font_text(alloc, cut)) {
        Ok(text) => text,
        Err(_) => Err(AllocError),
    }
}

/// The font text of the subset of Tiny over one name.
pub fn cut(alloc: Global, name: &[u8]) -> Result<Vec<u8>, AllocError> {
    of_font(alloc, PFA, |font| cut_text(alloc, font, name))
}

/// A font text in which the font's name has this tag.
pub fn tagged(alloc: Global, text: &[u8], tag: &[u8]) -> Result<Vec<u8>, AllocError> {
    let name = joined(alloc, &[b"/FontName /", tag])?;
    with(alloc, text, b"/FontName /", name.as_slice())
}

pub const BEGIN: &[u8] = b"%%BeginResource: font CMR10\n";

pub const END: &[u8] = b"\n{restore}if\n%%EndResource\n";

const INSIDE: &[u8] = b"%%BeginDocument: a\n";

const BEHIND: &[u8] = b"%%EndDocument\n";

/// Whether a part of a font and the whole are joined at their places.
fn two_join<'a>(alloc: Global, a: &'a [u8], b: &'a [u8]) -> bool {
    comes(
        alloc,
        &[BEGIN, a, END, b"x\n", BEGIN, b, END],
        b"Tiny joined\n",
        &[BEGIN, b, END, b"x\n", BEGIN, b, END],
    )
}

/// What of a part of a font, of the whole and of another font comes out wrong, if anything.
fn what_is_wrong<'a>(alloc: Global, a: &'a [u8], b: &'a [u8], c: &'a [u8]) -> &'static str {
    const SAME: &[u8] = b"Tiny same\n";
    let kept = [BEGIN, a, END, BEGIN, c, END];
    let twice = [BEGIN, a, END, BEGIN, a, END];
    let line = b"Tiny shells differ in head\n";
    if !comes(alloc, &[b"%!\n"], b"", &[b"%!\n"]) {
        "no place"
    } else if !comes(alloc, &[BEGIN, a, END], SAME, &[BEGIN, a, END]) {
        "one place"
    } else if !comes(alloc, &twice, SAME, &twice) {
        "one text"
    } else if !two_join(alloc, a, b) {
        "two subsets"
    } else if !comes(alloc, &kept, line, &kept) {
        "another font"
    } else {
        ""
    }
}

// meets join_fonts Ok at 0, 1, 2, 3 places
// meets names_of Ok at 0, 1, 2, 3 places
// meets Joins::new_texts Ok at 0, 1, 2, 3 places
#[test]
fn fonts_of_a_name(rt: HostRuntime) -> Result<(), Fail> {
    let alloc = rt.alloc();
    let x = cut(alloc, b"X")?;
    let whole = whole(alloc)?;
    let other = tiny(alloc, b"%! another font")?;
    let (a, b) = (x.as_slice(), whole.as_slice());
    let wrong = what_is_wrong(alloc, a, b, other.as_slice());
    assert!(rt; wrong.is_empty(), "{wrong}");
    Ok(())
}

// meets join_fonts Ok at 3 places
#[test]
fn fonts_in_a_document_inside(rt: HostRuntime) -> Result<(), Fail> {
    let alloc = rt.alloc();
    let x = cut(alloc, b"X")?;
    let whole = whole(alloc)?;
    let (a, b) = (x.as_slice(), whole.as_slice());
    let right = comes(
        alloc,
        &[INSIDE, BEGIN, a, END, BEHIND, BEGIN, b, END, BEGIN, a, END],
        b"Tiny joined\n",
        &[INSIDE, BEGIN, b, END, BEHIND, BEGIN, b, END, BEGIN, b, END],
    );
    assert!(rt; right);
    Ok(())
}

/// What of a part of a font with a tag, and of the whole with that tag and with another, comes out wrong, if anything.
fn what_of_tags_is_wrong<'a>(alloc: Global, a: &'a [u8], b: &'a [u8], c: &'a [u8]) -> &'static str {
    let parts = [BEGIN, a, END, BEGIN, b, END];
    let level = [BEGIN, b, END, BEGIN, b, END];
    let both = [BEGIN, b, END, BEGIN, c, END];
    let lines = b"ABCDEF+Tiny same\nGHIJKL+Tiny same\n";
    if !comes(alloc, &parts, b"ABCDEF+Tiny joined\n", &level) {
        "one tag"
    } else if !comes(alloc, &both, lines, &both) {
        "two tags"
    } else {
        ""
    }
}

// meets join_fonts Ok at 2 places
#[test]
fn tags_stay(rt: HostRuntime) -> Result<(), Fail> {
    let alloc = rt.alloc();
    let x = cut(alloc, b"X")?;
    let whole = whole(alloc)?;
    let a = tagged(alloc, x.as_slice(), b"ABCDEF+")?;
    let b = tagged(alloc, whole.as_slice(), b"ABCDEF+")?;
    let c = tagged(alloc, whole.as_slice(), b"GHIJKL+")?;
    let wrong = what_of_tags_is_wrong(alloc, a.as_slice(), b.as_slice(), c.as_slice());
    assert!(rt; wrong.is_empty(), "{wrong}");
    Ok(())
}

// meets join_fonts Ok at 2 places
#[test]
fn mark_in_the_joined_font(rt: HostRuntime) -> Result<(), Fail> {
    let alloc = rt.alloc();
    let x = cut(alloc, b"X")?;
    let whole = whole(alloc)?;
    let a = joined(alloc, &[b"%!\n %%EndFont\n", x.as_slice()])?;
    let b = joined(alloc, &[b"%!\n %%EndFont\n", whole.as_slice()])?;
    let parts = [BEGIN, a.as_slice(), END, BEGIN, b.as_slice(), END];
    let line = b"Tiny the joined font does not fit a place\n";
    assert!(rt; comes(alloc, &parts, line, &parts));
    Ok(())
}

/// So many documents, one behind the other.
fn documents(alloc: Global, text: &[u8], count: usize) -> Result<Vec<u8>, AllocError> {
    let mut all = Vec::new(alloc);
    for _ in 0..count {
        push_document(&mut all, text)?;
    }
    Ok(all)
}

// meets push_document Ok at 0, 1, 2, 3, 300 documents
#[test]
fn one_behind_the_other(rt: HostRuntime) -> Result<(), Fail> {
    const ROWS: &[(&[u8], usize, &[u8])] = &[
        (b"", 3, b""),
        (b"a", 3, b"a\na\na"),
        (b"a\n", 3, b"a\na\na\n"),
        (b"a\r", 3, b"a\ra\ra\r"),
        (b"a\r\n", 3, b"a\r\na\r\na\r\n"),
        (b"\na\r", 3, b"\na\r\n\na\r\n\na\r"),
        (b"a", 0, b""),
        (b"a", 1, b"a"),
        (b"a", 2, b"a\na"),
    ];
    for &(text, count, want) in ROWS {
        assert!(rt; is(documents(rt.alloc(), text, count), want));
    }
    assert!(rt; documents(rt.alloc(), b"a", 300)?.len() == 599);
    Ok(())
}
