// Layouts, and their parts drawn by pens.

use crate::tests::budget::charstring;
use crate::tests::fonts::GlyphFont;
use std::alloc::{AllocError, Global};
use std::test::Fail;
use t1_run::{Drawing, DrawnPart, Glyphs, Mark, Pen, Subroutines, lay_out, trace};

// `0 250 hsbw`.
const WIDTH: [u8; 4] = [0x8B, 0xF7, 0x8E, 0x0D];

// A pen that notes each mark as a letter.
#[derive(Drop)]
pub(super) struct Letters {
    text: Vec<u8>,
}

impl Letters {
    pub(super) fn new(alloc: Global) -> Letters {
        Letters {
            text: Vec::new(alloc),
        }
    }

    pub(super) fn are(&self, want: &[u8]) -> bool {
        self.text.as_slice() == want
    }
}

impl Pen for Letters {
    ghost Page = { Unit {0} };

    ghost page = { λ _. tt };

    ghost marked = { λ _ _. tt };

    fn mark(&mut self, mark: Mark) -> Result<(), AllocError> {
        let letter = match mark {
            Mark::Move(_) => b'm',
            Mark::Line(_) => b'l',
            Mark::Curve(_) => b'c',
            Mark::Close => b'z',
            Mark::Flex(_) => b'f',
            Mark::Replace => b'r',
            _ => b'h',
        };
        self.text.push(letter)?;
        Ok(())
    }
}

// Draws each part of a layout.
fn trace_parts<S: Subroutines, P: Pen>(
    alloc: Global,
    subrs: &S,
    parts: &[DrawnPart<&[u8]>],
    pen: &mut P,
) -> Result<(), AllocError> {
    for part in parts {
        trace(alloc, subrs, part.marks, pen)?;
    }
    Ok(())
}

// Draws the glyph of a name, and answers how many parts it has, if it is drawn.
pub(super) fn trace_glyph<F: Glyphs, P: Pen>(
    alloc: Global,
    font: &F,
    name: &[u8],
    pen: &mut P,
) -> Result<Option<usize>, AllocError> {
    match lay_out(alloc, font, name)? {
        Drawing::Drawn { parts, .. } => {
            trace_parts(alloc, font, parts.as_slice(), pen)?;
            Ok(Some(parts.len()))
        }
        Drawing::Failed(_) => Ok(None),
    }
}

// Whether a glyph of the small font has so many parts, with these letters.
fn is_drawn(alloc: Global, name: &[u8], count: Option<usize>, want: &[u8]) -> Result<bool, Fail> {
    let font = GlyphFont::new(alloc, &[], &[], None)?;
    let mut pen = Letters::new(alloc);
    Ok(trace_glyph(alloc, &font, name, &mut pen)? == count && pen.are(want))
}

#[test]
fn draws_part_by_part(rt: HostRuntime) -> Result<(), Fail> {
    const ROWS: &[(&[u8], Option<usize>, &[u8])] = &[
        (b"X", Some(1), b"mlllz"),
        (b"F", Some(1), b"mfccz"),
        (b"H", Some(1), b"hrh"),
        (b"Aacute", Some(2), b"mlzmlz"),
        (b".notdef", Some(1), b""),
        (b"L", None, b""),
        (b"missing", None, b""),
    ];
    for &(name, count, want) in ROWS {
        assert!(rt; is_drawn(rt.alloc(), name, count, want)?, "{name:?}");
    }
    Ok(())
}

// How many marks a glyph of as many as a run can make has, by a list as its pen.
fn count_of_many(alloc: Global) -> Result<usize, Fail> {
    let base = charstring(alloc, &WIDTH, 99_996, b"\x0e")?;
    let font = GlyphFont::new(alloc, &[], &[(b"A", &base)], None)?;
    let mut marks = Vec::new(alloc);
    trace_glyph(alloc, &font, b"A", &mut marks)?;
    Ok(marks.len())
}

#[test]
fn draws_many_marks(rt: HostRuntime) -> Result<(), Fail> {
    assert!(rt; count_of_many(rt.alloc())? == 99_996);
    Ok(())
}

// Charstrings that end as accented glyphs or by a fault, and the letters of the marks that they make before.
const BEFORE_END: &[(&str, &[u8], &[u8])] = &[
    (
        "a path before seac",
        b"\x8b\xf7\x8e\x0d\x8b\x16\xef\x06\x09\xbd\xf7\x0c\xf7\x5c\xcc\xf7\x56\x0c\x06",
        b"mlz",
    ),
    (
        "a hint of Subr 7 before seac",
        b"\x8b\xf7\x8e\x0d\x92\x0a\xbd\xf7\x0c\xf7\x5c\xcc\xf7\x56\x0c\x06",
        b"h",
    ),
    (
        "seac alone",
        b"\x8b\xf7\x8e\x0d\xbd\xf7\x0c\xf7\x5c\xcc\xf7\x56\x0c\x06",
        b"",
    ),
    (
        "byte 15 after a path",
        b"\x8b\xf7\x8e\x0d\x8b\x16\x09\x0f",
        b"mz",
    ),
    (
        "a line of no operand after a move",
        b"\x8b\xf7\x8e\x0d\x8b\x16\x06",
        b"m",
    ),
    (
        "no token after a path",
        b"\x8b\xf7\x8e\x0d\x8b\x16\x09",
        b"mz",
    ),
    (
        "calls without end after the line of Subr 5",
        b"\x8b\xf7\x8e\x0d\x8b\x16\x90\x0a\x94\x0a",
        b"ml",
    ),
    (
        "endchar in a flex, whose moves make no mark",
        b"\x8b\xf7\x8e\x0d\x8b\x16\x8c\x0a\xbd\x16\x8d\x0a\x0e",
        b"m",
    ),
    (
        "byte 15 after other hints",
        b"\x8b\xf8\x88\x0d\x8b\x9f\x01\x92\x8f\x0a\x0f",
        b"hrh",
    ),
    ("a move before the width", b"\x8b\x16", b""),
    ("no token", b"", b""),
];

// Whether a pen has drawn these letters of a charstring.
fn traces(alloc: Global, charstring: &[u8], want: &[u8]) -> Result<bool, Fail> {
    let font = GlyphFont::new(alloc, &[], &[], None)?;
    let mut pen = Letters::new(alloc);
    trace(alloc, &font, charstring, &mut pen)?;
    Ok(pen.are(want))
}

// Whether a list has so many marks after a charstring of so many dotsections that ends so.
fn traces_many(alloc: Global, dotsections: u32, end: &[u8]) -> Result<bool, Fail> {
    let font = GlyphFont::new(alloc, &[], &[], None)?;
    let glyph = charstring(alloc, &WIDTH, dotsections, end)?;
    let mut marks = Vec::new(alloc);
    trace(alloc, &font, &glyph, &mut marks)?;
    Ok(marks.len() == dotsections as usize)
}

// meets trace Ok at 0, 1, 3, 99991, 99996, 99997 marks
#[test]
fn draws_up_to_the_end(rt: HostRuntime) -> Result<(), Fail> {
    for &(name, charstring, want) in BEFORE_END {
        assert!(rt; traces(rt.alloc(), charstring, want)?, "{name}");
    }
    let is_seac = traces_many(
        rt.alloc(),
        99_991,
        b"\xbd\xf7\x0c\xf7\x5c\xcc\xf7\x56\x0c\x06",
    )?;
    assert!(rt; is_seac, "seac as token 100,000");
    assert!(rt;
        traces_many(rt.alloc(), 99_996, b"\x0f")?,
        "byte 15 as token 100,000"
    );
    assert!(rt;
        traces_many(rt.alloc(), 99_997, b"\x0e")?,
        "endchar as token 100,001"
    );
    Ok(())
}
