// What interpreters that keep hints make of glyphs.

use crate::tests::executes::are;
use crate::tests::fonts::{Font, GlyphFont};
use std::alloc::Global;
use std::test::Fail;
use t1_run::{Direct, Drawing, Mark, Point, direct, direct3, draw, draw3, executed};

// `15 5 1 3 callothersubr pop div callsubr` between a move and a closepath: Subr 3, or Subr 5 where hints are kept.
const BOTH: [u8; 19] = [
    0x8B, 0xF8, 0x88, 0x0D, 0x8B, 0x16, 0x9A, 0x90, 0x8C, 0x8E, 0x0C, 0x10, 0x0C, 0x11, 0x0C, 0x0C,
    0x0A, 0x09, 0x0E,
];

// Its marks, and those where hints are kept: a line of 100 units more.
const REPLACED: &[Mark] = &[Mark::Move(Point { x: 0, y: 0 }), Mark::Replace, Mark::Close];

const KEPT: &[Mark] = &[
    Mark::Move(Point { x: 0, y: 0 }),
    Mark::Replace,
    Mark::Line(Point { x: 6_553_600, y: 0 }),
    Mark::Close,
];

// `4 callsubr` after `0 20 hstem 7`, as fonts replace hints: Subr 7, or Subr 3 where hints are kept.
const HINTS: [u8; 11] = [
    0x8B, 0xF8, 0x88, 0x0D, 0x8B, 0x9F, 0x01, 0x92, 0x8F, 0x0A, 0x0E,
];

// Subrs 5 and 6, and no OtherSubr.
const LINES: [u8; 12] = [
    0x8B, 0xF8, 0x88, 0x0D, 0x8B, 0x16, 0x90, 0x0A, 0x91, 0x0A, 0x09, 0x0E,
];

// Whether an answer has these marks.
fn has(answer: &Direct, want: &[Mark]) -> bool {
    match answer {
        Direct::Plain { marks, .. } => marks.as_slice() == want,
        _ => false,
    }
}

// Whether a charstring has these marks where hints are replaced, and those where they are kept.
fn runs_so(
    alloc: Global,
    charstring: &[u8],
    want: &[Mark],
    want_kept: &[Mark],
) -> Result<bool, Fail> {
    let font = Font::small(alloc)?;
    let replaced = direct(alloc, &font, charstring)?;
    let kept = direct3(alloc, &font, charstring)?;
    Ok(has(&replaced, want) && has(&kept, want_kept))
}

#[test]
fn runs_where_hints_are_kept(rt: HostRuntime) -> Result<(), Fail> {
    assert!(rt; runs_so(rt.alloc(), &BOTH, REPLACED, KEPT)?);
    Ok(())
}

#[test]
fn executes_by_both_runs(rt: HostRuntime) -> Result<(), Fail> {
    const ROWS: &[(&[u8], &[u16], &str)] = &[
        (&BOTH, &[3, 5], "an index made of the answer"),
        (&HINTS, &[3, 4, 7], "hint replacement"),
        (&LINES, &[5, 6], "no OtherSubr"),
    ];
    let font = Font::small(rt.alloc())?;
    for &(charstring, indices, what) in ROWS {
        assert!(rt;
            are(&executed(rt.alloc(), &font, charstring)?, indices),
            "{what}"
        );
    }
    Ok(())
}

// Whether the first part of a drawing has these marks, of so many parts.
fn draws(drawing: &Drawing, count: usize, want: &[Mark]) -> bool {
    let Drawing::Drawn { parts, .. } = drawing else {
        return false;
    };
    match parts.first() {
        Some(part) => parts.len() == count && part.marks.as_slice() == want,
        None => false,
    }
}

// Whether a glyph draws so by both answers, in a font where `A` is the glyph of both.
fn draws_by_both(alloc: Global, name: &[u8], count: usize) -> Result<bool, Fail> {
    let font = GlyphFont::new(alloc, &[], &[(b"A", &BOTH)], None)?;
    let replaced = draw(alloc, &font, name)?;
    let kept = draw3(alloc, &font, name)?;
    Ok(draws(&replaced, count, REPLACED) && draws(&kept, count, KEPT))
}

#[test]
fn draws_where_hints_are_kept(rt: HostRuntime) -> Result<(), Fail> {
    assert!(rt; draws_by_both(rt.alloc(), b"A", 1)?, "a plain glyph");
    assert!(rt;
        draws_by_both(rt.alloc(), b"Aacute", 2)?,
        "the base of an accented one"
    );
    Ok(())
}
