// What fonts draw by name, accented glyphs above all.

use crate::tests::fonts::GlyphFont;
use std::alloc::Global;
use std::test::Fail;
use t1_run::{Curve, Drawing, DrawnPart, Mark, Point, draw};

// The counts of a unit.
const UNIT: i64 = 65536;

// The marks of the glyph A.
const A: [Mark; 3] = [Mark::Move(at!(0, 0)), Mark::Line(at!(-100, 0)), Mark::Close];

// The marks of the glyph acute.
const ACUTE: [Mark; 3] = [Mark::Move(at!(50, 0)), Mark::Line(at!(150, 0)), Mark::Close];

// A drawing in the small font with these Subrs and glyphs more: the name, the width, the side bearing, and the parts, each
// an offset and marks.
#[derive(Clone, Copy)]
struct Drawn {
    case: &'static str,
    subrs: &'static [(u16, &'static [u8])],
    glyphs: &'static [(&'static [u8], &'static [u8])],
    name: &'static [u8],
    width: Point,
    sb: Point,
    parts: &'static [(Point, &'static [Mark])],
}

const DRAWN: [Drawn; 11] = [
    Drawn {
        case: "lines",
        subrs: &[],
        glyphs: &[],
        name: b"X",
        width: at!(300, 0),
        sb: at!(50, 0),
        parts: &[(
            at!(0, 0),
            &[
                Mark::Move(at!(50, 0)),
                Mark::Line(at!(150, 0)),
                Mark::Line(at!(150, 700)),
                Mark::Line(at!(50, 700)),
                Mark::Close,
            ],
        )],
    },
    Drawn {
        case: "flex",
        subrs: &[],
        glyphs: &[],
        name: b"F",
        width: at!(500, 0),
        sb: at!(0, 0),
        parts: &[(
            at!(0, 0),
            &[
                Mark::Move(at!(100, 0)),
                Mark::Flex(50 * UNIT),
                Mark::Curve(curve!((110, 0), (130, 5), (150, 5))),
                Mark::Curve(curve!((170, 5), (190, 0), (200, 0))),
                Mark::Close,
            ],
        )],
    },
    Drawn {
        case: "hint replacement",
        subrs: &[],
        glyphs: &[],
        name: b"H",
        width: at!(500, 0),
        sb: at!(0, 0),
        parts: &[(
            at!(0, 0),
            &[
                Mark::Hstem(0, 20 * UNIT),
                Mark::Replace,
                Mark::Hstem(100 * UNIT, 20 * UNIT),
            ],
        )],
    },
    Drawn {
        case: "no marks",
        subrs: &[],
        glyphs: &[],
        name: b".notdef",
        width: at!(250, 0),
        sb: at!(0, 0),
        parts: &[(at!(0, 0), &[])],
    },
    Drawn {
        case: "an accented glyph",
        subrs: &[],
        glyphs: &[],
        name: b"Aacute",
        width: at!(500, 0),
        sb: at!(0, 0),
        parts: &[(at!(0, 0), &A), (at!(70, 200), &ACUTE)],
    },
    Drawn {
        case: "an accented glyph as .notdef",
        subrs: &[],
        glyphs: &[(
            b".notdef",
            b"\x8b\xf8\x88\x0d\xbd\xf7\x0c\xf7\x5c\xcc\xf7\x56\x0c\x06",
        )],
        name: b".notdef",
        width: at!(500, 0),
        sb: at!(0, 0),
        parts: &[(at!(0, 0), &A), (at!(70, 200), &ACUTE)],
    },
    Drawn {
        case: "seac in a Subr",
        subrs: &[(16, b"\x0c\x06")],
        glyphs: &[(
            b"S",
            b"\x8b\xf8\x88\x0d\xbd\xf7\x0c\xf7\x5c\xcc\xf7\x56\x9b\x0a",
        )],
        name: b"S",
        width: at!(500, 0),
        sb: at!(0, 0),
        parts: &[(at!(0, 0), &A), (at!(70, 200), &ACUTE)],
    },
    Drawn {
        case: "one glyph as base and accent",
        subrs: &[],
        glyphs: &[(
            b"S",
            b"\x8b\xf8\x88\x0d\xbd\xf7\x0c\xf7\x5c\xcc\xcc\x0c\x06",
        )],
        name: b"S",
        width: at!(500, 0),
        sb: at!(0, 0),
        parts: &[(at!(0, 0), &A), (at!(70, 200), &A)],
    },
    Drawn {
        case: "metrics of its own: sbw 30 40 400 10",
        subrs: &[],
        glyphs: &[(
            b"S",
            b"\xa9\xb3\xf8\x24\x95\x0c\x07\xbd\xf7\x0c\xf7\x5c\xcc\xf7\x56\x0c\x06",
        )],
        name: b"S",
        width: at!(400, 10),
        sb: at!(30, 40),
        parts: &[(at!(0, 0), &A), (at!(100, 200), &ACUTE)],
    },
    Drawn {
        case: "marks before seac",
        subrs: &[],
        glyphs: &[(
            b"S",
            b"\x8b\xf8\x88\x0d\x8c\x8d\x01\xbd\xf7\x0c\xf7\x5c\xcc\xf7\x56\x0c\x06",
        )],
        name: b"S",
        width: at!(500, 0),
        sb: at!(0, 0),
        parts: &[(at!(0, 0), &A), (at!(70, 200), &ACUTE)],
    },
    Drawn {
        case: "an offset beyond the range of coordinates",
        subrs: &[],
        glyphs: &[(
            b"S",
            b"\
                \xff\x7f\xff\xff\xff\xf8\x88\x0d\xff\x80\x00\x00\x00\xff\x7f\xff\xff\xff\x8b\xcc\xf7\x56\
                \x0c\x06",
        )],
        name: b"S",
        width: at!(500, 0),
        sb: at!(2147483647, 0),
        parts: &[(at!(0, 0), &A), (at!(6442450942, 0), &ACUTE)],
    },
];

// Whether parts are these.
fn are(parts: &[DrawnPart], want: &[(Point, &[Mark])]) -> bool {
    for (part, (offset, marks)) in parts.iter().zip(want) {
        if part.dx != offset.x || part.dy != offset.y || part.marks.as_slice() != *marks {
            return false;
        }
    }
    parts.len() == want.len()
}

// Whether a drawing is this one.
fn is(drawing: &Drawing, want: &Drawn) -> bool {
    match drawing {
        Drawing::Drawn { width, sb, parts } => {
            *width == want.width && *sb == want.sb && are(parts, want.parts)
        }
        Drawing::Failed(_) => false,
    }
}

// The first of these cases that is drawn in another way.
fn first_other(alloc: Global, cases: &[Drawn]) -> Result<Option<&'static str>, Fail> {
    for want in cases {
        let font = GlyphFont::new(alloc, want.subrs, want.glyphs, None)?;
        let drawing = draw(alloc, &font, want.name)?;
        if !is(&drawing, want) {
            return Ok(Some(want.case));
        }
    }
    Ok(None)
}

#[test]
fn draws_by_name(rt: HostRuntime) -> Result<(), Fail> {
    assert_eq!(rt; first_other(rt.alloc(), &DRAWN)?, None);
    Ok(())
}
