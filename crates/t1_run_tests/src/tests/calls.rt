// Calls in calls, up to the deepest: what goes on after them, and what doesn't.

use crate::tests::executes::are;
use crate::tests::fonts::Font;
use std::alloc::Global;
use std::test::Fail;
use t1_run::{Direct, Fault, Mark, Point, direct, executed};

// The counts of a hundred units.
const HUNDRED: i64 = 100 * 65536;

// A charstring that begins with `0 250 hsbw`, its marks or its fault, and the indices that it executes.
#[derive(Clone, Copy)]
struct Calling {
    name: &'static str,
    charstring: &'static [u8],
    want: Result<&'static [Mark], Fault>,
    executed: &'static [u16],
}

// Subr 14 calls by the operand on top, so that many of its index on the operands are as many calls, one in the other.
const CALLING: [Calling; 10] = [
    Calling {
        name: "marks of each caller after its call",
        charstring: b"\x8b\xf7\x8e\x0d\x92\x9b\x9b\x0a\xef\x06\x0e",
        want: Ok(&[
            Mark::Hstem(HUNDRED, 20 * 65536),
            Mark::Dot,
            Mark::Dot,
            Mark::Line(Point { x: HUNDRED, y: 0 }),
        ]),
        executed: &[7, 16],
    },
    Calling {
        name: "a line by the tenth call",
        charstring: b"\x8b\xf7\x8e\x0d\x90\x99\x99\x99\x99\x99\x99\x99\x99\x99\x0a\x0e",
        want: Ok(&[Mark::Line(Point { x: HUNDRED, y: 0 })]),
        executed: &[5, 14],
    },
    Calling {
        name: "a line by the tenth call, twice",
        charstring: b"\
            \x8b\xf7\x8e\x0d\x90\x99\x99\x99\x99\x99\x99\x99\x99\x99\x0a\x90\x99\x99\x99\x99\x99\x99\
            \x99\x99\x99\x0a\x0e",
        want: Ok(&[
            Mark::Line(Point { x: HUNDRED, y: 0 }),
            Mark::Line(Point {
                x: 2 * HUNDRED,
                y: 0,
            }),
        ]),
        executed: &[5, 14],
    },
    Calling {
        name: "a line by the eleventh call",
        charstring: b"\x8b\xf7\x8e\x0d\x90\x99\x99\x99\x99\x99\x99\x99\x99\x99\x99\x0a\x0e",
        want: Err(Fault::Nesting),
        executed: &[5, 14],
    },
    Calling {
        name: "a line by the tenth call, and then by the eleventh",
        charstring: b"\
            \x8b\xf7\x8e\x0d\x90\x99\x99\x99\x99\x99\x99\x99\x99\x99\x0a\x90\x99\x99\x99\x99\x99\x99\
            \x99\x99\x99\x99\x0a\x0e",
        want: Err(Fault::Nesting),
        executed: &[5, 14],
    },
    Calling {
        name: "endchar in the tenth call, before a line",
        charstring: b"\x8b\xf7\x8e\x0d\x95\x99\x99\x99\x99\x99\x99\x99\x99\x99\x0a\xef\x06\x0e",
        want: Ok(&[]),
        executed: &[10, 14],
    },
    Calling {
        name: "endchar in a call, before a mark of its caller and a call",
        charstring: b"\x8b\xf7\x8e\x0d\x95\x9b\x0a\x90\x0a\x0e",
        want: Ok(&[]),
        executed: &[10, 16],
    },
    Calling {
        name: "callsubr as the last token of a glyph",
        charstring: b"\x8b\xf7\x8e\x0d\x8e\x0a",
        want: Err(Fault::Unended),
        executed: &[3],
    },
    Calling {
        name: "callsubr as the last token of a Subr",
        charstring: b"\x8b\xf7\x8e\x0d\x9a\x0a\x0e",
        want: Err(Fault::Unended),
        executed: &[3, 15],
    },
    Calling {
        name: "callsubr as the last token of a Subr, of one that ends the glyph",
        charstring: b"\x8b\xf7\x8e\x0d\x95\x9c\x0a",
        want: Ok(&[]),
        executed: &[10, 17],
    },
];

// Whether an answer is these marks, or this fault.
fn is(answer: &Direct, want: Result<&[Mark], Fault>) -> bool {
    match (answer, want) {
        (Direct::Plain { marks, .. }, Ok(want)) => marks.as_slice() == want,
        (Direct::Failed(fault), Err(want)) => *fault == want,
        _ => false,
    }
}

// The name of the first case that answers or executes something else.
fn first_other(alloc: Global, cases: &[Calling]) -> Result<Option<&'static str>, Fail> {
    let font = Font::small(alloc)?;
    for case in cases {
        let answer = direct(alloc, &font, case.charstring)?;
        let called = executed(alloc, &font, case.charstring)?;
        if !(is(&answer, case.want) && are(&called, case.executed)) {
            return Ok(Some(case.name));
        }
    }
    Ok(None)
}

#[test]
fn calls_in_calls(rt: HostRuntime) -> Result<(), Fail> {
    assert_eq!(rt; first_other(rt.alloc(), &CALLING)?, None);
    Ok(())
}
