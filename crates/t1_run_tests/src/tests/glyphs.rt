// What charstrings draw.

use crate::tests::fonts::Font;
use std::alloc::Global;
use std::test::Fail;
use t1_run::{Curve, Direct, Mark, Point, direct};

// The counts of a unit.
const UNIT: i64 = 65536;

// A glyph that is drawn: its name, its charstring, its width, its side bearing and its marks.
#[derive(Clone, Copy)]
struct Drawn {
    name: &'static str,
    charstring: &'static [u8],
    width: Point,
    sb: Point,
    marks: &'static [Mark],
}

const DRAWN: [Drawn; 20] = [
    Drawn {
        name: "lines",
        charstring: b"\xbd\xf7\xc0\x0d\x8b\x16\x90\x0a\xf9\x50\x07\x27\x06\x09\x0e",
        width: at!(300, 0),
        sb: at!(50, 0),
        marks: &[
            Mark::Move(at!(50, 0)),
            Mark::Line(at!(150, 0)),
            Mark::Line(at!(150, 700)),
            Mark::Line(at!(50, 700)),
            Mark::Close,
        ],
    },
    Drawn {
        name: "flex",
        charstring: b"\
            \x8b\xf8\x88\x0d\xef\x16\x8c\x0a\xbd\x16\x8d\x0a\x63\x16\x8d\x0a\x9f\x90\x15\x8d\x0a\x9f\
            \x16\x8d\x0a\x9f\x16\x8d\x0a\x9f\x86\x15\x8d\x0a\x95\x16\x8d\x0a\xbd\xf7\x5c\x8b\x8b\x0a\
            \x09\x0e",
        width: at!(500, 0),
        sb: at!(0, 0),
        marks: &[
            Mark::Move(at!(100, 0)),
            Mark::Flex(50 * UNIT),
            Mark::Curve(curve!((110, 0), (130, 5), (150, 5))),
            Mark::Curve(curve!((170, 5), (190, 0), (200, 0))),
            Mark::Close,
        ],
    },
    Drawn {
        name: "hint replacement",
        charstring: b"\x8b\xf8\x88\x0d\x8b\x9f\x01\x92\x8f\x0a\x0e",
        width: at!(500, 0),
        sb: at!(0, 0),
        marks: &[
            Mark::Hstem(0, 20 * UNIT),
            Mark::Replace,
            Mark::Hstem(100 * UNIT, 20 * UNIT),
        ],
    },
    Drawn {
        name: "Subr 3 or Subr 5 by what OtherSubr 3 gives",
        charstring: b"\
            \x8b\xf8\x88\x0d\x8b\x16\x9a\x90\x8c\x8e\x0c\x10\x0c\x11\x0c\x0c\x0a\x09\x0e",
        width: at!(500, 0),
        sb: at!(0, 0),
        marks: &[Mark::Move(at!(0, 0)), Mark::Replace, Mark::Close],
    },
    Drawn {
        name: "a third",
        charstring: b"\x8b\xf7\x8e\x0d\x8c\x8e\x0c\x0c\x16\x0e",
        width: at!(250, 0),
        sb: at!(0, 0),
        marks: &[Mark::Move(Point { x: 21845, y: 0 })],
    },
    Drawn {
        name: "minus a third",
        charstring: b"\x8b\xf7\x8e\x0d\x8a\x8e\x0c\x0c\x16\x0e",
        width: at!(250, 0),
        sb: at!(0, 0),
        marks: &[Mark::Move(Point { x: -21845, y: 0 })],
    },
    Drawn {
        name: "minus half a count is nothing",
        charstring: b"\x8b\xf7\x8e\x0d\x8a\xff\x00\x01\x00\x00\x0c\x0c\x8d\x0c\x0c\x16\x0e",
        width: at!(250, 0),
        sb: at!(0, 0),
        marks: &[Mark::Move(at!(0, 0))],
    },
    Drawn {
        name: "a quotient at the upper end",
        charstring: b"\x8b\xf7\x8e\x0d\xff\x80\x00\x00\x00\x8a\x0c\x0c\x16\x0e",
        width: at!(250, 0),
        sb: at!(0, 0),
        marks: &[Mark::Move(Point {
            x: 140737488355328,
            y: 0,
        })],
    },
    Drawn {
        name: "a quotient at the lower end",
        charstring: b"\x8b\xf7\x8e\x0d\xff\x80\x00\x00\x00\x8c\x0c\x0c\x16\x0e",
        width: at!(250, 0),
        sb: at!(0, 0),
        marks: &[Mark::Move(Point {
            x: -140737488355328,
            y: 0,
        })],
    },
    Drawn {
        name: "24 operands",
        charstring: b"\
            \x8b\xf7\x8e\x0d\x8b\x8b\x8b\x8b\x8b\x8b\x8b\x8b\x8b\x8b\x8b\x8b\x8b\x8b\x8b\x8b\x8b\x8b\
            \x8b\x8b\x8b\x8b\x8b\x8b\x0e",
        width: at!(250, 0),
        sb: at!(0, 0),
        marks: &[],
    },
    Drawn {
        name: "a point at the end of the range",
        charstring: b"\x8b\xf7\x8e\x0d\xff\x7f\xff\xff\xff\x16\x8c\x16\x0e",
        width: at!(250, 0),
        sb: at!(0, 0),
        marks: &[
            Mark::Move(Point {
                x: 140737488289792,
                y: 0,
            }),
            Mark::Move(Point {
                x: 140737488355328,
                y: 0,
            }),
        ],
    },
    Drawn {
        name: "sbw",
        charstring: b"\x8c\x8d\x8e\x8f\x0c\x07\x0e",
        width: at!(3, 4),
        sb: Point {
            x: UNIT,
            y: 2 * UNIT,
        },
        marks: &[],
    },
    Drawn {
        name: "counter control",
        charstring: b"\x8b\xf7\x8e\x0d\x8c\x8c\x97\x0c\x10\x8b\x98\x0c\x10\x0e",
        width: at!(250, 0),
        sb: at!(0, 0),
        marks: &[],
    },
    Drawn {
        name: "operands from the bottom",
        charstring: b"\x8b\xf7\x8e\x0d\x8c\x8d\x8e\x05\x8c\x06\x0e",
        width: at!(250, 0),
        sb: at!(0, 0),
        marks: &[
            Mark::Line(Point {
                x: UNIT,
                y: 2 * UNIT,
            }),
            Mark::Line(at!(2, 2)),
        ],
    },
    Drawn {
        name: "each command",
        charstring: b"\
            \x8b\xf7\x8e\x0d\x8c\x8d\x01\x8c\x8d\x03\x8c\x8d\x8e\x8f\x90\x91\x0c\x02\x8c\x8d\x8e\x8f\
            \x90\x91\x0c\x01\x0c\x00\x8c\x8d\x15\x8c\x16\x8c\x04\x8c\x8d\x05\x8c\x06\x8c\x07\x8c\x8d\
            \x8e\x8f\x90\x91\x08\x8c\x8d\x8e\x8f\x1e\x8c\x8d\x8e\x8f\x1f\x8c\x8d\x0c\x21\x09\x8c\x06\
            \x0e",
        width: at!(250, 0),
        sb: at!(0, 0),
        marks: &[
            Mark::Hstem(UNIT, 2 * UNIT),
            Mark::Vstem(UNIT, 2 * UNIT),
            Mark::Hstem3(UNIT, 2 * UNIT, 3 * UNIT, 4 * UNIT, 5 * UNIT, 6 * UNIT),
            Mark::Vstem3(UNIT, 2 * UNIT, 3 * UNIT, 4 * UNIT, 5 * UNIT, 6 * UNIT),
            Mark::Dot,
            Mark::Move(Point {
                x: UNIT,
                y: 2 * UNIT,
            }),
            Mark::Move(at!(2, 2)),
            Mark::Move(at!(2, 3)),
            Mark::Line(at!(3, 5)),
            Mark::Line(at!(4, 5)),
            Mark::Line(at!(4, 6)),
            Mark::Curve(curve!((5, 8), (8, 12), (13, 18))),
            Mark::Curve(curve!((13, 19), (15, 22), (19, 22))),
            Mark::Curve(curve!((20, 22), (22, 25), (22, 29))),
            Mark::Close,
            Mark::Line(at!(2, 2)),
        ],
    },
    Drawn {
        name: "hints, replacement and setcurrentpoint in flex; a move makes no mark",
        charstring: b"\
            \x8b\xf7\x8e\x0d\x8b\x8c\x0c\x10\x8c\x16\x8c\x8d\x01\x90\x8c\x8e\x0c\x10\x8c\x8d\x0c\x21\
            \x8b\x8d\x0c\x10\x8b\x8d\x0c\x10\x8b\x8d\x0c\x10\x8b\x8d\x0c\x10\x8b\x8d\x0c\x10\x8b\x8d\
            \x0c\x10\x8b\x8d\x0c\x10\x8e\x8f\x90\x8e\x8b\x0c\x10\x0c\x11\x0c\x11\x0c\x21\x8b\x06\x0e",
        width: at!(250, 0),
        sb: at!(0, 0),
        marks: &[
            Mark::Hstem(UNIT, 2 * UNIT),
            Mark::Replace,
            Mark::Flex(3 * UNIT),
            Mark::Curve(Curve {
                first: Point {
                    x: UNIT,
                    y: 2 * UNIT,
                },
                second: Point {
                    x: UNIT,
                    y: 2 * UNIT,
                },
                end: Point {
                    x: UNIT,
                    y: 2 * UNIT,
                },
            }),
            Mark::Curve(Curve {
                first: Point {
                    x: UNIT,
                    y: 2 * UNIT,
                },
                second: Point {
                    x: UNIT,
                    y: 2 * UNIT,
                },
                end: Point {
                    x: UNIT,
                    y: 2 * UNIT,
                },
            }),
            Mark::Line(at!(4, 5)),
        ],
    },
    Drawn {
        name: "a glyph that a Subr ends",
        charstring: b"\x8b\xf7\x8e\x0d\x95\x0a",
        width: at!(250, 0),
        sb: at!(0, 0),
        marks: &[],
    },
    Drawn {
        name: "operands handed to a Subr and back",
        charstring: b"\x8b\xf7\x8e\x0d\x8c\x96\x0a\x06\x0e",
        width: at!(250, 0),
        sb: at!(0, 0),
        marks: &[Mark::Line(Point { x: UNIT, y: 0 })],
    },
    Drawn {
        name: "metrics that a Subr gives",
        charstring: b"\x97\x0a\x0e",
        width: Point { x: UNIT, y: 0 },
        sb: at!(0, 0),
        marks: &[],
    },
    Drawn {
        name: "ten calls, one in the other",
        charstring: b"\x8b\xf7\x8e\x0d\xa0\x0a\x0e",
        width: at!(250, 0),
        sb: at!(0, 0),
        marks: &[],
    },
];

// Whether an answer is this glyph.
fn is(answer: &Direct, glyph: &Drawn) -> bool {
    match answer {
        Direct::Plain { width, sb, marks } => {
            *width == glyph.width && *sb == glyph.sb && marks.as_slice() == glyph.marks
        }
        _ => false,
    }
}

// The name of the first glyph that is drawn in another way.
fn first_other(alloc: Global, glyphs: &[Drawn]) -> Result<Option<&'static str>, Fail> {
    let font = Font::small(alloc)?;
    for glyph in glyphs {
        let answer = direct(alloc, &font, glyph.charstring)?;
        if !is(&answer, glyph) {
            return Ok(Some(glyph.name));
        }
    }
    Ok(None)
}

#[test]
fn draws(rt: HostRuntime) -> Result<(), Fail> {
    assert_eq!(rt; first_other(rt.alloc(), &DRAWN)?, None);
    Ok(())
}

// An accented glyph of codes 65 and 194, after a stem: its marks are dropped.
const AACUTE: [u8; 17] = [
    0x8B, 0xF8, 0x88, 0x0D, 0x8C, 0x8D, 0x01, 0xBD, 0xF7, 0x0C, 0xF7, 0x5C, 0xCC, 0xF7, 0x56, 0x0C,
    0x06,
];

#[test]
fn answers_an_accented_glyph(rt: HostRuntime) -> Result<(), Fail> {
    let font = Font::small(rt.alloc())?;
    let answer = direct(rt.alloc(), &font, &AACUTE)?;
    let accented = Direct::Seac {
        width: at!(500, 0),
        sb: at!(0, 0),
        asb: 50 * UNIT,
        adx: 120 * UNIT,
        ady: 200 * UNIT,
        base: 65,
        accent: 194,
    };
    assert!(rt; answer == accented);
    Ok(())
}
