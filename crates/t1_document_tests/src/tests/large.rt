//! Documents of many places and marks.

use super::{rewriting, tiny};
use std::alloc::{AllocError, Global};
use std::test::Fail;
use t1_document::{Document, Joins, Texts, join_fonts, names_of, read_document};
use t1_font_shared_tests::{is, joined, seen, used};

/// So many times a text.
fn repeated(alloc: Global, text: &[u8], times: usize) -> Result<Vec<u8>, AllocError> {
    let mut all = Vec::new(alloc);
    for _ in 0..times {
        all.extend_from_slice(text)?;
    }
    Ok(all)
}

/// How many places a text has.
fn count(alloc: Global, text: &[u8]) -> Result<usize, AllocError> {
    seen(read_document(alloc, text), |document| document.places.len())
}

/// The offset of the last font text of a document.
fn last_offset_of(document: &Document<'_>) -> Option<usize> {
    let mut last = None;
    let mut at = 0usize;
    for place in document.places.as_slice() {
        last = Some(place.text_offset(at));
        at = place.end_offset(at);
    }
    last
}

/// The same of a text.
fn last_offset(alloc: Global, text: &[u8]) -> Result<Option<usize>, AllocError> {
    seen(read_document(alloc, text), last_offset_of)
}

/// A name of four bytes for a number below 1,000.
fn numbered(alloc: Global, number: u32) -> Result<Vec<u8>, AllocError> {
    let mut name = Vec::from_slice(alloc, b"g")?;
    for place in [100u32, 10, 1] {
        name.push(b'0' + (number / place % 10) as u8)?;
    }
    Ok(name)
}

/// So many names, each another one.
fn names(alloc: Global, count: u32) -> Result<Vec<Vec<u8>>, AllocError> {
    let mut names = Vec::new(alloc);
    for number in 0..count {
        names.push(numbered(alloc, number)?)?;
    }
    Ok(names)
}

/// A font text of this name, with a first line.
fn named(alloc: Global, line: &[u8], name: &[u8]) -> Result<Vec<u8>, AllocError> {
    let head = joined(alloc, &[line, b"\n/FontName /", name, b" def"])?;
    tiny(alloc, head.as_slice())
}

/// A font text for each name, with a first line.
fn fonts(alloc: Global, line: &[u8], names: &[Vec<u8>]) -> Result<Vec<Vec<u8>>, AllocError> {
    let mut fonts = Vec::new(alloc);
    for name in names {
        fonts.push(named(alloc, line, name.as_slice())?)?;
    }
    Ok(fonts)
}

/// A document with a place for each font text.
fn document_of(alloc: Global, fonts: &[Vec<u8>]) -> Result<Vec<u8>, AllocError> {
    let mut text = Vec::new(alloc);
    for font in fonts {
        let place = joined(
            alloc,
            &[
                b"%%BeginResource: font\n",
                font.as_slice(),
                b"\n%%EndResource\n",
            ],
        )?;
        text.extend_from_slice(place.as_slice())?;
    }
    Ok(text)
}

/// A new text for each name.
fn texts_of<'a>(
    alloc: Global,
    names: &'a [Vec<u8>],
    fonts: &'a [Vec<u8>],
) -> Result<Texts<'a>, AllocError> {
    let mut texts = Texts::new(alloc);
    for (name, font) in names.iter().zip(fonts.iter()) {
        texts.put(name.as_slice(), font.as_slice())?;
    }
    Ok(texts)
}

/// A document levelled with a new text for each name.
fn levelled(
    alloc: Global,
    text: &[u8],
    names: &[Vec<u8>],
    fonts: &[Vec<u8>],
) -> Result<Vec<u8>, AllocError> {
    used(read_document(alloc, text), |document| {
        used(
            texts_of(alloc, names, fonts),
            |texts| document.level(alloc, texts),
        )
    })
}

// meets read_document Ok at 300 places
// meets Document::level Ok at 300 places
// meets Texts::new Ok
// meets Texts::put Ok at 1, 300 names
#[test]
fn many_names(rt: HostRuntime) -> Result<(), Fail> {
    let alloc = rt.alloc();
    let names = names(alloc, 300)?;
    let fonts_before = fonts(alloc, b"%!", names.as_slice())?;
    let fonts_after = fonts(alloc, b"%! new", names.as_slice())?;
    let before = document_of(alloc, fonts_before.as_slice())?;
    let after = document_of(alloc, fonts_after.as_slice())?;
    let levelled = levelled(
        alloc,
        before.as_slice(),
        names.as_slice(),
        fonts_after.as_slice(),
    );
    assert!(rt; is(levelled, after.as_slice()));
    Ok(())
}

/// How long a document is when it is levelled with the fonts that its names come to.
fn levelled_length(
    alloc: Global,
    document: &Document<'_>,
    joins: &Joins<'_>,
) -> Result<usize, AllocError> {
    used(
        joins.new_texts(alloc, document.places.as_slice()),
        |texts| { seen(document.level(alloc, texts), |levelled| levelled.len()) },
    )
}

/// How many names a document has, and how long it is when it is levelled so.
fn levelled_of(alloc: Global, document: &Document<'_>) -> Result<(usize, usize), AllocError> {
    let places = document.places.as_slice();
    let count = seen(names_of(alloc, places), |names| names.len())?;
    let length = used(
        join_fonts(alloc, places),
        |joins| levelled_length(alloc, document, joins),
    )?;
    Ok((count, length))
}

/// The same of a text.
fn text_levelled(alloc: Global, text: &[u8]) -> Result<(usize, usize), AllocError> {
    used(
        read_document(alloc, text),
        |document| levelled_of(alloc, document),
    )
}

// meets join_fonts Ok at 300 places
// like join_fonts: names_of, Joins::new_texts
#[test]
fn many_fonts_of_each(rt: HostRuntime) -> Result<(), Fail> {
    let alloc = rt.alloc();
    let names = names(alloc, 100)?;
    let fonts = fonts(alloc, b"%!", names.as_slice())?;
    let once = document_of(alloc, fonts.as_slice())?;
    let all = repeated(alloc, once.as_slice(), 3)?;
    assert!(rt; text_levelled(alloc, all.as_slice()) == Ok((100, all.len())));
    Ok(())
}

// meets read_document Ok at 0, 300 places
// meets Document::level Ok at 300 places
#[test]
fn many_places(rt: HostRuntime) -> Result<(), Fail> {
    let alloc = rt.alloc();
    let font = tiny(alloc, b"%!")?;
    let place = joined(
        alloc,
        &[b"%%BeginFont\n", font.as_slice(), b"\n%%EndFont\n"],
    )?;
    let many = repeated(alloc, place.as_slice(), 300)?;
    assert!(rt; count(alloc, many.as_slice())? == 300);
    let last = last_offset(alloc, many.as_slice())?;
    assert!(rt; last == Some(many.len().saturating_sub(place.len()).saturating_add(12)));
    let new = tiny(alloc, b"%! new")?;
    let renewed = rewriting::levelled(alloc, &[many.as_slice()], new.as_slice())?;
    assert!(rt; renewed.len() == many.len().saturating_add(300 * 4));
    Ok(())
}

#[test]
fn many_marks(rt: HostRuntime) -> Result<(), Fail> {
    let alloc = rt.alloc();
    let marks = repeated(alloc, b"%%BeginDocument\n%%BeginData\n", 100_000)?;
    assert!(rt; count(alloc, marks.as_slice())? == 0);
    Ok(())
}
