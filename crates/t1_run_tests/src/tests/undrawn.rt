// Why names aren't drawn; if several reasons apply, the first in the order of tests.

use crate::tests::fonts::GlyphFont;
use std::alloc::{AllocError, Global};
use std::test::Fail;
use t1_run::{DrawFault, Drawing, Fault, draw};

// A name in the small font without this glyph, and the fault.
const LACKING: &[(&str, Option<&[u8]>, &[u8], DrawFault)] = &[
    ("an accented base", None, b"N", DrawFault::NestedSeac),
    (
        "no accent",
        Some(b"acute"),
        b"Aacute",
        DrawFault::MissingPart,
    ),
    ("no base", Some(b"A"), b"Aacute", DrawFault::MissingPart),
    (
        "calls without end",
        None,
        b"L",
        DrawFault::Run(Fault::Nesting),
    ),
    (
        "a name that the font lacks",
        None,
        b"Zed",
        DrawFault::NoGlyph,
    ),
    ("a longer name", None, b"Xx", DrawFault::NoGlyph),
    ("no name", None, b"", DrawFault::NoGlyph),
];

// The charstring of the glyph M, whose codes are no whole ones or have no names, and the fault.
const CODES: &[(&str, &[u8], DrawFault)] = &[
    (
        "code 0 as base",
        b"\x8b\xf8\x88\x0d\xbd\xf7\x0c\xf7\x5c\x8b\xf7\x56\x0c\x06",
        DrawFault::NoPart,
    ),
    (
        "code 255 as accent",
        b"\x8b\xf8\x88\x0d\xbd\xf7\x0c\xf7\x5c\xcc\xf7\x93\x0c\x06",
        DrawFault::NoPart,
    ),
    (
        "code 256 as accent",
        b"\x8b\xf8\x88\x0d\xbd\xf7\x0c\xf7\x5c\xcc\xf7\x94\x0c\x06",
        DrawFault::NoPart,
    ),
    (
        "code 65 + 256 as base",
        b"\x8b\xf8\x88\x0d\xbd\xf7\x0c\xf7\x5c\xf7\xd5\xf7\x56\x0c\x06",
        DrawFault::NoPart,
    ),
    (
        "code -1 as accent",
        b"\x8b\xf8\x88\x0d\xbd\xf7\x0c\xf7\x5c\xcc\x8a\x0c\x06",
        DrawFault::NoPart,
    ),
    (
        "code -191, which is 65 - 256, as base",
        b"\x8b\xf8\x88\x0d\xbd\xf7\x0c\xf7\x5c\xfb\x53\xf7\x56\x0c\x06",
        DrawFault::NoPart,
    ),
    (
        "code 65.5 as base",
        b"\x8b\xf8\x88\x0d\xbd\xf7\x0c\xf7\x5c\xf7\x17\x8d\x0c\x0c\xf7\x56\x0c\x06",
        DrawFault::Run(Fault::NotWhole),
    ),
];

// The same, with faulty parts.
const PARTS: &[(&str, &[u8], DrawFault)] = &[
    (
        "an accented accent",
        b"\x8b\xf8\x88\x0d\xbd\xf7\x0c\xf7\x5c\xcc\xcd\x0c\x06",
        DrawFault::NestedSeac,
    ),
    (
        "a faulty base",
        b"\x8b\xf8\x88\x0d\xbd\xf7\x0c\xf7\x5c\xd7\xf7\x56\x0c\x06",
        DrawFault::PartFault,
    ),
    (
        "a faulty accent",
        b"\x8b\xf8\x88\x0d\xbd\xf7\x0c\xf7\x5c\xcc\xd7\x0c\x06",
        DrawFault::PartFault,
    ),
    (
        "a code without a name, and a part that the font lacks",
        b"\x8b\xf8\x88\x0d\xbd\xf7\x0c\xf7\x5c\xce\x8b\x0c\x06",
        DrawFault::NoPart,
    ),
    (
        "a part that the font lacks, and an accented one",
        b"\x8b\xf8\x88\x0d\xbd\xf7\x0c\xf7\x5c\xcd\xce\x0c\x06",
        DrawFault::MissingPart,
    ),
    (
        "a part that the font lacks, and a faulty one",
        b"\x8b\xf8\x88\x0d\xbd\xf7\x0c\xf7\x5c\xce\xd7\x0c\x06",
        DrawFault::MissingPart,
    ),
    (
        "an accented part, and a faulty one",
        b"\x8b\xf8\x88\x0d\xbd\xf7\x0c\xf7\x5c\xcd\xd7\x0c\x06",
        DrawFault::NestedSeac,
    ),
    (
        "two accented parts",
        b"\x8b\xf8\x88\x0d\xbd\xf7\x0c\xf7\x5c\xcd\xcd\x0c\x06",
        DrawFault::NestedSeac,
    ),
    (
        "a faulty part, and one that the font lacks",
        b"\x8b\xf8\x88\x0d\xbd\xf7\x0c\xf7\x5c\xd7\xce\x0c\x06",
        DrawFault::MissingPart,
    ),
    (
        "an accented part, and one that the font lacks",
        b"\x8b\xf8\x88\x0d\xbd\xf7\x0c\xf7\x5c\xcd\xce\x0c\x06",
        DrawFault::MissingPart,
    ),
    (
        "a faulty part, and an accented one",
        b"\x8b\xf8\x88\x0d\xbd\xf7\x0c\xf7\x5c\xd7\xcd\x0c\x06",
        DrawFault::NestedSeac,
    ),
    (
        "a fault before seac of parts that the font lacks",
        b"\x8b\xf8\x88\x0d\x0f\xbd\xf7\x0c\xf7\x5c\xce\xce\x0c\x06",
        DrawFault::Run(Fault::BadToken),
    ),
];

// A charstring of the glyph A whose base is A, an accented glyph.
const OWN_BASE: &[u8] = b"\x8b\xf8\x88\x0d\xbd\xf7\x0c\xf7\x5c\xcc\xf7\x56\x0c\x06";

// Whether a drawing is this fault.
fn is(drawing: &Drawing, want: DrawFault) -> bool {
    match drawing {
        Drawing::Failed(fault) => *fault == want,
        _ => false,
    }
}

// Whether a name's drawing is this fault, in the small font without a glyph.
fn lacks(
    alloc: Global,
    without: Option<&[u8]>,
    name: &[u8],
    want: DrawFault,
) -> Result<bool, AllocError> {
    let font = GlyphFont::new(alloc, &[], &[], without)?;
    Ok(is(&draw(alloc, &font, name)?, want))
}

// Whether a name's drawing is this fault, in the small font with this glyph more, or in place of its own.
fn answers(
    alloc: Global,
    (glyph, charstring): (&[u8], &[u8]),
    name: &[u8],
    want: DrawFault,
) -> Result<bool, AllocError> {
    let font = GlyphFont::new(alloc, &[], &[(glyph, charstring)], None)?;
    Ok(is(&draw(alloc, &font, name)?, want))
}

// The first of these cases whose glyph M answers something else.
fn first_other(
    alloc: Global,
    cases: &[(&'static str, &'static [u8], DrawFault)],
) -> Result<Option<&'static str>, AllocError> {
    for &(case, charstring, want) in cases {
        if !answers(alloc, (b"M", charstring), b"M", want)? {
            return Ok(Some(case));
        }
    }
    Ok(None)
}

#[test]
fn answers_each_fault(rt: HostRuntime) -> Result<(), Fail> {
    let alloc = rt.alloc();
    for &(case, without, name, want) in LACKING {
        assert!(rt; lacks(alloc, without, name, want)?, "{case}");
    }
    assert_eq!(rt; first_other(alloc, CODES)?, None);
    assert_eq!(rt; first_other(alloc, PARTS)?, None);
    for name in [b"A".as_slice(), b"Aacute"] {
        let nested = answers(alloc, (b"A", OWN_BASE), name, DrawFault::NestedSeac)?;
        assert!(rt;
            nested,
            "a glyph that is its own base, drawn itself and as a base"
        );
    }
    Ok(())
}
