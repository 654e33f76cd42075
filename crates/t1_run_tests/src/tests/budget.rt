// At most 100,000 tokens, those of Subrs included.

use crate::tests::fonts::{GlyphFont, fault};
use std::alloc::{AllocError, Global};
use std::test::Fail;
use t1_run::{Direct, Fault, direct, direct3, executed};

const DOTSECTION: [u8; 2] = [0x0C, 0x00];

// A charstring that begins so, goes on with so many dotsections, and ends so.
pub(super) fn charstring(
    alloc: Global,
    begin: &[u8],
    dotsections: u32,
    end: &[u8],
) -> Result<Vec<u8>, AllocError> {
    let mut bytes = Vec::new(alloc);
    bytes.extend_from_slice(begin)?;
    for _ in 0..dotsections {
        bytes.extend_from_slice(&DOTSECTION)?;
    }
    bytes.extend_from_slice(end)?;
    Ok(bytes)
}

// `0 250 hsbw`, three tokens.
pub(super) const WIDTH: [u8; 4] = [0x8B, 0xF7, 0x8E, 0x0D];

// The same, and nine calls of Subr 50, of 9,998 tokens: 90,003 tokens.
const NINE_CALLS: [u8; 22] = [
    0x8B, 0xF7, 0x8E, 0x0D, 0xBD, 0x0A, 0xBD, 0x0A, 0xBD, 0x0A, 0xBD, 0x0A, 0xBD, 0x0A, 0xBD, 0x0A,
    0xBD, 0x0A, 0xBD, 0x0A, 0xBD, 0x0A,
];

// The same as the first, and a call of Subr 40.
const BOMB_CALL: [u8; 6] = [0x8B, 0xF7, 0x8E, 0x0D, 0xB3, 0x0A];

// A glyph's beginning, its dotsections and its end; and its fault, if any, how many marks it draws and how many Subrs it
// executes.
#[derive(Clone, Copy)]
struct Counted {
    name: &'static str,
    charstring: (&'static [u8], u32, &'static [u8]),
    want: (Option<Fault>, usize, usize),
}

const COUNTED: [Counted; 16] = [
    Counted {
        name: "99,999 tokens",
        charstring: (&WIDTH, 99_995, b"\x0e"),
        want: (None, 99_995, 0),
    },
    Counted {
        name: "100,000 tokens",
        charstring: (&WIDTH, 99_996, b"\x0e"),
        want: (None, 99_996, 0),
    },
    Counted {
        name: "100,000 tokens, closepath among them",
        charstring: (&WIDTH, 99_995, b"\x09\x0e"),
        want: (None, 99_996, 0),
    },
    Counted {
        name: "100001 tokens",
        charstring: (&WIDTH, 99_997, b"\x0e"),
        want: (Some(Fault::TooLong), 0, 0),
    },
    Counted {
        name: "no token after 100,000",
        charstring: (&WIDTH, 99_997, &[]),
        want: (Some(Fault::Unended), 0, 0),
    },
    Counted {
        name: "byte 15 as token 100,000",
        charstring: (&WIDTH, 99_996, b"\x0f"),
        want: (Some(Fault::BadToken), 0, 0),
    },
    Counted {
        name: "byte 15 as token 100,001: not BadToken",
        charstring: (&WIDTH, 99_997, b"\x0f"),
        want: (Some(Fault::TooLong), 0, 0),
    },
    Counted {
        name: "what is cut off as token 100,001: not BadToken",
        charstring: (&WIDTH, 99_997, b"\xff"),
        want: (Some(Fault::TooLong), 0, 0),
    },
    Counted {
        name: "callsubr of nothing as token 100,001: not Underflow",
        charstring: (&WIDTH, 99_997, b"\x0a"),
        want: (Some(Fault::TooLong), 0, 0),
    },
    Counted {
        name: "a number on 24 operands as token 100,000",
        charstring: (&WIDTH, 99_972, &[0x8B; 25]),
        want: (Some(Fault::Overflow), 0, 0),
    },
    Counted {
        name: "a number on 24 operands as token 100,001: not Overflow",
        charstring: (&WIDTH, 99_973, &[0x8B; 25]),
        want: (Some(Fault::TooLong), 0, 0),
    },
    Counted {
        name: "100,000 tokens, those of Subrs among them",
        charstring: (&NINE_CALLS, 9_996, b"\x0e"),
        want: (None, 99_969, 1),
    },
    Counted {
        name: "100,001 tokens, those of Subrs among them",
        charstring: (&NINE_CALLS, 9_997, b"\x0e"),
        want: (Some(Fault::TooLong), 0, 1),
    },
    Counted {
        name: "callsubr as token 100,000",
        charstring: (&WIDTH, 99_995, b"\x8e\x0a\x0e"),
        want: (Some(Fault::TooLong), 0, 1),
    },
    Counted {
        name: "callsubr as token 100,001, which takes no index",
        charstring: (&WIDTH, 99_996, b"\x8e\x0a\x0e"),
        want: (Some(Fault::TooLong), 0, 0),
    },
    Counted {
        name: "a bomb",
        charstring: (&BOMB_CALL, 0, b"\x0e"),
        want: (Some(Fault::TooLong), 0, 10),
    },
];

// `10 14 14 14 14 14 14 14 14 14 callsubr`: Subr 14 calls by the operand on top, so the tenth call ends the glyph.
const TENTH_ENDS: [u8; 11] = [
    0x95, 0x99, 0x99, 0x99, 0x99, 0x99, 0x99, 0x99, 0x99, 0x99, 0x0A,
];

// The same with a call more, the eleventh.
const ELEVEN_CALLS: [u8; 12] = [
    0x95, 0x99, 0x99, 0x99, 0x99, 0x99, 0x99, 0x99, 0x99, 0x99, 0x99, 0x0A,
];

// The same of the last token in calls of calls.
const COUNTED_IN_CALLS: [Counted; 8] = [
    Counted {
        name: "endchar as token 100,000, by the second call",
        charstring: (&WIDTH, 99_992, b"\x95\x99\x0a"),
        want: (None, 99_992, 2),
    },
    Counted {
        name: "endchar as token 100,000, by the tenth call",
        charstring: (&WIDTH, 99_976, &TENTH_ENDS),
        want: (None, 99_976, 2),
    },
    Counted {
        name: "endchar as token 100,001, by the tenth call",
        charstring: (&WIDTH, 99_977, &TENTH_ENDS),
        want: (Some(Fault::TooLong), 0, 2),
    },
    Counted {
        name: "callsubr as token 100,001, by the ninth call, which takes no index",
        charstring: (&WIDTH, 99_978, &TENTH_ENDS),
        want: (Some(Fault::TooLong), 0, 1),
    },
    Counted {
        name: "return as token 100,000, by the second call",
        charstring: (&WIDTH, 99_992, b"\x8e\x99\x0a\x0e"),
        want: (Some(Fault::TooLong), 0, 2),
    },
    Counted {
        name: "endchar as token 100,000, after the returns of two calls",
        charstring: (&WIDTH, 99_990, b"\x8e\x99\x0a\x0e"),
        want: (None, 99_990, 2),
    },
    Counted {
        name: "the eleventh call as token 100,000",
        charstring: (&WIDTH, 99_975, &ELEVEN_CALLS),
        want: (Some(Fault::Nesting), 0, 2),
    },
    Counted {
        name: "the eleventh call as token 100,001: not Nesting",
        charstring: (&WIDTH, 99_976, &ELEVEN_CALLS),
        want: (Some(Fault::TooLong), 0, 1),
    },
];

// How many marks an answer has.
pub(super) fn count_of_marks(answer: &Direct) -> usize {
    match answer {
        Direct::Plain { marks, .. } => marks.len(),
        _ => 0,
    }
}

// The fault of a charstring, if any, how many marks it draws and how many Subrs it executes.
fn counts(
    alloc: Global,
    font: &GlyphFont<'_>,
    charstring: &[u8],
) -> Result<(Option<Fault>, usize, usize), Fail> {
    let answer = direct(alloc, font, charstring)?;
    let called = executed(alloc, font, charstring)?;
    if direct3(alloc, font, charstring)? != answer {
        return Ok((None, usize::MAX, 0));
    }
    Ok((fault(&answer), count_of_marks(&answer), called.len()))
}

// The first of these cases that counts otherwise.
fn first_other(alloc: Global, cases: &[Counted]) -> Result<Option<&'static str>, Fail> {
    let long = charstring(alloc, &[], 9_997, b"\x0b")?;
    let font = GlyphFont::new(alloc, &[(50, &long)], &[], None)?;
    for case in cases {
        let (begin, dotsections, end) = case.charstring;
        let bytes = charstring(alloc, begin, dotsections, end)?;
        if counts(alloc, &font, &bytes)? != case.want {
            return Ok(Some(case.name));
        }
    }
    Ok(None)
}

// meets direct TooLong at 100001 tokens
// like direct: direct3
#[test]
fn counts_tokens(rt: HostRuntime) -> Result<(), Fail> {
    assert_eq!(rt; first_other(rt.alloc(), &COUNTED)?, None);
    Ok(())
}

#[test]
fn counts_tokens_in_calls(rt: HostRuntime) -> Result<(), Fail> {
    assert_eq!(rt; first_other(rt.alloc(), &COUNTED_IN_CALLS)?, None);
    Ok(())
}
