//! Which places a document has.

use super::{labelled, tiny};
use std::alloc::{AllocError, Global};
use std::test::Fail;
use t1_document::read_document;
use t1_font_shared_tests::{is, joined, used};
use t1_tiny::PFA;

/// A text in which each `@` stands for the file of the font Tiny.
fn with_fonts(alloc: Global, row: &[u8]) -> Result<Vec<u8>, AllocError> {
    let mut text = Vec::new(alloc);
    for &byte in row {
        if byte == b'@' {
            text.extend_from_slice(PFA)?;
        } else {
            text.push(byte)?;
        }
    }
    Ok(text)
}

/// A text with its places labelled.
fn places(alloc: Global, text: &[u8]) -> Result<Vec<u8>, AllocError> {
    used(
        read_document(alloc, text),
        |document| labelled(alloc, document),
    )
}

/// Whether the text of a row has these places, labelled.
fn has_places(alloc: Global, row: &[u8], want: &[u8]) -> bool {
    match with_fonts(alloc, row) {
        Ok(text) => is(places(alloc, text.as_slice()), want),
        Err(_) => false,
    }
}

/// Whether it has none.
fn has_no_places(alloc: Global, row: &[u8]) -> bool {
    match with_fonts(alloc, row) {
        Ok(text) => is(places(alloc, text.as_slice()), text.as_slice()),
        Err(_) => false,
    }
}

/// A text with its fonts, and the same with its places labelled.
type Row = (&'static [u8], &'static [u8], &'static str);

const PLACES: &[Row] = &[
    (
        b"%!\n%%BeginFont: CMR10\n@{restore}if\n%%EndFont\nx",
        b"%!\n%%BeginFont: CMR10\n<Font 0 Tiny>\n{restore}if\n%%EndFont\nx",
        "dvips",
    ),
    (
        b"%!\r\n%%BeginResource: font A+CMR10\r\n@%%EndResource\r\n",
        b"%!\r\n%%BeginResource: font A+CMR10\r\n<Resource 0 Tiny>\n%%EndResource\r\n",
        "pdftops",
    ),
    (
        b"%%BeginProcSet: /usr/share/x.pfa\n@%%EndProcSet",
        b"%%BeginProcSet: /usr/share/x.pfa\n<ProcSet 0 Tiny>\n%%EndProcSet",
        "gnuplot",
    ),
    (
        b"%%BeginDocument: a\n%%BeginFont\n@%%EndFont\n%%EndDocument\n%%BeginFont\n@%%EndFont\n",
        b"%%BeginDocument: a\n%%BeginFont\n<Font 1 Tiny>\n%%EndFont\n%%EndDocument\n%%BeginFont\n<Font 0 Tiny>\n%%EndFont\n",
        "a document inside",
    ),
    (
        b"%%EndDocument\n%%BeginDocument\n%%BeginFont\n@%%EndFont\n",
        b"%%EndDocument\n%%BeginDocument\n%%BeginFont\n<Font 1 Tiny>\n%%EndFont\n",
        "an end before any begin",
    ),
    (
        b"%%BeginData: 1\n%%BeginBinary: 1\n%%EndData\n%%EndData\n%%BeginFont\n@%%EndFont\n",
        b"%%BeginData: 1\n%%BeginBinary: 1\n%%EndData\n%%EndData\n%%BeginFont\n<Font 0 Tiny>\n%%EndFont\n",
        "behind data that ended",
    ),
    (
        b"%%BeginFonts\n@%%EndFonts\n",
        b"%%BeginFonts\n<Font 0 Tiny>\n%%EndFonts\n",
        "a longer word",
    ),
    (
        b"%%BeginFont\n@ %%EndResource\n%%Trailer\n%%EndFont\n",
        b"%%BeginFont\n<Font 0 Tiny>\n %%EndResource\n%%Trailer\n%%EndFont\n",
        "what is no mark in the rest",
    ),
];

#[test]
fn texts_with_places(rt: HostRuntime) {
    for &(row, want, what) in PLACES {
        assert!(rt; has_places(rt.alloc(), row, want), "{what}");
    }
}

const NO_PLACES: &[(&[u8], &str)] = &[
    (b"", "nothing"),
    (b"%!\nshowpage\n", "no mark"),
    (b"%%BeginFont\n%%EndFont\n", "an empty part"),
    (b"%%BeginFont\n@", "no end"),
    (b"%%BeginFont\n@%%EndResource\n", "the end of another kind"),
    (
        b"%%BeginFont\n@%%BeginFont\n%%EndFont\n",
        "another mark before the end",
    ),
    (
        b"%%BeginDocument\n@%%EndDocument\n",
        "a part of another kind",
    ),
    (b"%%EndFont\n@%%EndFont\n", "no begin"),
    (
        b"%%BeginData: 9\n%%BeginFont\n@%%EndFont\n%%EndData\n",
        "inside data",
    ),
    (
        b"%%BeginBinary: 9\n%%BeginFont\n@%%EndFont\n%%EndBinary\n",
        "inside binary data",
    ),
    (b"%%BeginFont\nx@%%EndFont\n", "text before the font"),
    (
        b"%%BeginFont\n\n@%%EndFont\n",
        "an empty line before the font",
    ),
    (b"x %%BeginFont\n@%%EndFont\n", "a mark inside a line"),
    (
        b"%%BeginFont\n%!\n/FontName /A def\ncurrentfile eexec\n\x80\x81\x82\x83\x84\n%%EndFont\n",
        "a binary cipher",
    ),
    (
        b"%%BeginFont\n%!\n/FontName /A def\ncurrentfile eexec\n0123456789cleartomark\n%%EndFont\n",
        "no font",
    ),
    (
        b"%%BeginFont\n%!\n/FontName /A def\n%%EndFont\n",
        "no eexec",
    ),
];

#[test]
fn texts_without_places(rt: HostRuntime) {
    for &(row, what) in NO_PLACES {
        assert!(rt; has_no_places(rt.alloc(), row), "{what}");
    }
}

/// A text with CR for each LF.
fn with_cr(alloc: Global, text: &[u8]) -> Result<Vec<u8>, AllocError> {
    let mut ended = Vec::new(alloc);
    for &byte in text {
        ended.push(if byte == b'\n' { b'\r' } else { byte })?;
    }
    Ok(ended)
}

/// The text of a row with CR for each LF, with its places labelled.
fn places_with_cr(alloc: Global, row: &[u8]) -> Result<Vec<u8>, AllocError> {
    let text = with_fonts(alloc, row)?;
    let text = with_cr(alloc, text.as_slice())?;
    places(alloc, text.as_slice())
}

#[test]
fn lines_that_end_with_cr(rt: HostRuntime) {
    let found = places_with_cr(rt.alloc(), b"%%BeginFont\n@x\n%%EndFont\n");
    assert!(rt; is(found, b"%%BeginFont\r<Font 0 Tiny>\rx\r%%EndFont\r"));
}

/// The label of a place of Tiny with another first line, or its text if it is none.
fn place_of(alloc: Global, line: &[u8]) -> Result<Vec<u8>, AllocError> {
    let font = tiny(alloc, line)?;
    let text = joined(alloc, &[b"%%BeginFont\n", font.as_slice(), b"\n%%EndFont"])?;
    places(alloc, text.as_slice())
}

#[test]
fn the_first_name(rt: HostRuntime) -> Result<(), Fail> {
    let found = place_of(rt.alloc(), b"%!\n%/FontName /A+B def");
    assert!(rt; is(found, b"%%BeginFont\n<Font 0 A+B>\n%%EndFont"));
    let found = place_of(rt.alloc(), b"%!\n/FontName / def")?;
    assert!(rt; found.len() > 2000);
    Ok(())
}
