//! Fonts with one FontBBox.

use super::names::all_have;
use std::alloc::{AllocError, Global};
use t1_font::{Font, Part, Source, normalize_boxes};
use t1_font_shared_tests::{GLYPHS, joined, lent, source, used};

/// The source of a font with this head and this clear tail up to `currentfile`.
fn made(alloc: Global, head: &[u8], tail: &[u8]) -> Result<Source, AllocError> {
    let clear = joined(
        alloc,
        &[
            head,
            b"/Encoding StandardEncoding def\n",
            tail,
            b"currentfile eexec\n",
        ],
    )?;
    let private = joined(alloc, &[b"/lenIV 0 def ", GLYPHS])?;
    match source(alloc, clear.as_slice(), private.as_slice()) {
        Ok(source) => Ok(source),
        Err(_) => Err(AllocError),
    }
}

/// A head and a clear tail.
pub type Texts = (&'static [u8], &'static [u8]);

/// The sources of such fonts.
fn sources(alloc: Global, fonts: &[Texts]) -> Result<Vec<Source>, AllocError> {
    let mut sources = Vec::new(alloc);
    for (head, tail) in fonts {
        sources.push(made(alloc, head, tail)?)?;
    }
    Ok(sources)
}

/// The head and the clear tail of a font, a bar behind each.
fn head_and_tail(alloc: Global, font: &Font<'_>) -> Result<Vec<u8>, AllocError> {
    joined(
        alloc,
        &[
            font.text(Part::Head),
            b"|",
            font.text(Part::ClearTail),
            b"|",
        ],
    )
}

/// Those of the fonts of sources.
fn heads_and_tails(alloc: Global, sources: &[Source]) -> Result<Vec<u8>, AllocError> {
    let mut texts = Vec::new(alloc);
    for source in sources {
        let text = lent(alloc, source, |font| head_and_tail(alloc, font))?;
        texts.extend_from_slice(text.as_slice())?;
    }
    Ok(texts)
}

/// Those of such fonts with one box.
pub fn boxed(alloc: Global, fonts: &[Texts]) -> Result<Vec<u8>, AllocError> {
    used(normalize_boxes(alloc, sources(alloc, fonts)?), |sources| {
        heads_and_tails(alloc, sources.as_slice())
    })
}

/// Heads and clear tails, and what they are with one box.
type Row = (&'static [Texts], &'static [u8], &'static str);

/// Two fonts, and what they are with one box.
pub const TWO: &[Texts] = &[
    (b"%!\n/FontBBox{-34 -251 988 750}readonly def\n", b""),
    (b"%!\n/FontBBox [ 9 -1000\n1000 99 ] def\n", b""),
];

pub const ONE_BOX: &[u8] = b"%!\n/FontBBox{-34 -1000 1000 750}readonly def\n|\ncurrentfile eexec|\
      %!\n/FontBBox [ -34 -1000\n1000 750 ] def\n|\ncurrentfile eexec|";

const ROWS: &[Row] = &[
    (TWO, ONE_BOX, "a procedure and an array"),
    (
        &[
            (b"%!\n/FontBBox{0 0 1 1}readonly def\n", b""),
            (b"%!\n/FontBBox 4 array def\n", b""),
        ],
        b"%!\n/FontBBox{0 0 1 1}readonly def\n|\ncurrentfile eexec|%!\n/FontBBox 4 array def\n|\ncurrentfile eexec|",
        "a font without a box",
    ),
    (
        &[
            (b"%!\n/FontBBox{-1 -2 3 4}def\n", b""),
            (b"%!\n/FontBBox{0 0.0 0 -0}def\n", b""),
            (b"%!\n/FontBBox{-5 -6 7 8}def\n", b""),
        ],
        b"%!\n/FontBBox{0 0.0 0 -0}def\n|\ncurrentfile eexec|%!\n/FontBBox{0 0.0 0 -0}def\n|\ncurrentfile eexec|\
          %!\n/FontBBox{0 0.0 0 -0}def\n|\ncurrentfile eexec|",
        "zeros in one of three",
    ),
    (
        &[
            (b"%!\n/FontBBox{0 0.0 0 -0}def\n", b""),
            (b"%!\n/FontBBox{0.0 0 0 0}def\n", b""),
            (b"%!\n/FontBBox{0 0 -0 0}def\n", b""),
        ],
        b"%!\n/FontBBox{0 0 0 0}def\n|\ncurrentfile eexec|%!\n/FontBBox{0 0 0 0}def\n|\ncurrentfile eexec|\
          %!\n/FontBBox{0 0 0 0}def\n|\ncurrentfile eexec|",
        "zeros in each of three",
    ),
    (
        &[
            (b"%!\n/FontBBox{-.5 +7 12.50 0.5}def\n", b""),
            (b"%!\n/FontBBox{-0.25 007 12.5 .5}def\n", b""),
        ],
        b"%!\n/FontBBox{-.5 +7 12.5 .5}def\n|\ncurrentfile eexec|%!\n/FontBBox{-.5 +7 12.5 .5}def\n|\ncurrentfile eexec|",
        "spellings of one value",
    ),
    (
        &[
            (b"%!\n", b"/FontBBox{0 0 1 1}def\n"),
            (b"%!\n/FontBBox{-2 0 1 1}def\n", b"/FontBBox{7 7 7 7}def\n"),
        ],
        b"%!\n|\n/FontBBox{-2 0 1 1}def\ncurrentfile eexec|%!\n/FontBBox{-2 0 1 1}def\n|\n/FontBBox{7 7 7 7}def\ncurrentfile eexec|",
        "a box in the clear tail",
    ),
    (
        &[
            (b"%!\n/FontBBox{0 0 1 1}def\n", b""),
            (b"%!\n/FontBBox{-2  0 1 1}def\n", b""),
        ],
        b"%!\n/FontBBox{0 0 1 1}def\n|\ncurrentfile eexec|%!\n/FontBBox{-2  0 1 1}def\n|\ncurrentfile eexec|",
        "texts that are not normalized",
    ),
    (
        &[
            (b"%!\n/FontBBox{0 0 1 1e3}def\n", b""),
            (b"%!\n/FontBBox{-2 0 1 1}def\n", b""),
        ],
        b"%!\n/FontBBox{0 0 1 1e3}def\n|\ncurrentfile eexec|%!\n/FontBBox{-2 0 1 1}def\n|\ncurrentfile eexec|",
        "an exponent",
    ),
    (
        &[
            (b"%!\n/FontBBox{0\x001 2 3}def\n", b""),
            (b"%!\n/FontBBox{1 0 3 2}def\n", b""),
        ],
        b"%!\n/FontBBox{0\x000 3 3}def\n|\ncurrentfile eexec|%!\n/FontBBox{0 0 3 3}def\n|\ncurrentfile eexec|",
        "NUL between two numbers",
    ),
    (&[], b"", "no fonts"),
];

/// Whether these are those of such fonts with one box.
fn are_boxed(alloc: Global, fonts: &[Texts], want: &[u8]) -> Result<bool, AllocError> {
    Ok(boxed(alloc, fonts)?.as_slice() == want)
}

// meets normalize_boxes Ok at 0, 1, 2, 3 fonts
#[test]
fn fonts_with_one_box(rt: HostRuntime) {
    for &(fonts, want, row) in ROWS {
        assert!(rt; are_boxed(rt.alloc(), fonts, want) == Ok(true), "{row}");
    }
}

/// Whether so many fonts, all but the last of one box, come to have one box.
fn many_become(alloc: Global, count: usize) -> Result<bool, AllocError> {
    let mut fonts = Vec::new(alloc);
    fonts.resize(count.saturating_sub(1), SMALL)?;
    fonts.push((b"%!\n/FontBBox{-1 0 1 2}def\n", b""))?;
    used(
        normalize_boxes(alloc, sources(alloc, fonts.as_slice())?),
        |sources| {
            Ok(
                sources.len() == count
                    && all_have(alloc, sources.as_slice(), b"%!\n/FontBBox{-1 0 1 2}def\n")?,
            )
        },
    )
}

/// A font with a small box.
const SMALL: Texts = (b"%!\n/FontBBox{0 0 1 1}def\n", b"");

// meets normalize_boxes Ok at 1001 fonts
#[test]
fn many_fonts_with_one_box(rt: HostRuntime) {
    const FONTS: usize = 1001;
    assert!(rt; many_become(rt.alloc(), FONTS) == Ok(true));
}
