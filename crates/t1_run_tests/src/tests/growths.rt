// Each call that grows, over the small font. `tools/sweep_growths.py` refuses one growth after the other: a call that then
// answers want of memory, its one fault, gives the right answer when it is made again.

use crate::tests::budget::count_of_marks;
use crate::tests::executes::are;
use crate::tests::fonts::GlyphFont;
use crate::tests::layouts::{Letters, trace_glyph};
use std::alloc::{AllocError, Global};
use std::test::Fail;
use t1_run::{
    Budget, Direct, Drawing, Stop, SubrSet, direct, direct3, draw, draw3, executed,
    parts_and_executed, parts_and_executed_within, standard_name,
};

// `0 500 hsbw 0 6 callsubr closepath endchar`, of two more Subrs than one.
const TWO_CALLS: [u8; 12] = [
    0x8B, 0xF8, 0x88, 0x0D, 0x8B, 0x16, 0x90, 0x0A, 0x91, 0x0A, 0x09, 0x0E,
];

// `50 120 200 65 194 seac`, after a width.
const SEAC: [u8; 14] = [
    0x8B, 0xF8, 0x88, 0x0D, 0xBD, 0xF7, 0x0C, 0xF7, 0x5C, 0xCC, 0xF7, 0x56, 0x0C, 0x06,
];

// Whether a charstring of two calls is answered with its marks.
fn runs_right(alloc: Global, font: &GlyphFont<'_>) -> Result<bool, AllocError> {
    let plain = direct(alloc, font, &TWO_CALLS)?;
    Ok(count_of_marks(&plain) == 4)
}

// Whether its indices alone are right.
fn executes_right(alloc: Global, font: &GlyphFont<'_>) -> Result<bool, AllocError> {
    let alone = executed(alloc, font, &TWO_CALLS)?;
    Ok(are(&alone, &[5, 6]))
}

// `0 20 hstem 7 4 callsubr`: Subr 7, or Subr 3 where hints are kept.
const HINTS: [u8; 11] = [
    0x8B, 0xF8, 0x88, 0x0D, 0x8B, 0x9F, 0x01, 0x92, 0x8F, 0x0A, 0x0E,
];

// Whether a charstring that replaces hints is answered by both runs.
fn runs_twice_right(alloc: Global, font: &GlyphFont<'_>) -> Result<bool, AllocError> {
    let kept = direct3(alloc, font, &HINTS)?;
    let both = executed(alloc, font, &HINTS)?;
    Ok(matches!(kept, Direct::Plain { .. }) && are(&both, &[3, 4, 7]))
}

// How many parts a drawing has.
fn count_of_parts(drawing: &Drawing) -> usize {
    match drawing {
        Drawing::Drawn { parts, .. } => parts.len(),
        Drawing::Failed(_) => 0,
    }
}

// Whether an accented glyph draws two parts.
fn draws_right(alloc: Global, font: &GlyphFont<'_>) -> Result<bool, AllocError> {
    let drawing = draw(alloc, font, b"Aacute")?;
    let kept = draw3(alloc, font, b"Aacute")?;
    Ok(count_of_parts(&drawing) == 2 && count_of_parts(&kept) == 2)
}

// Whether its layout is drawn by `lay_out` and `trace`, with and without a list of marks.
fn traces_right(alloc: Global, font: &GlyphFont<'_>) -> Result<bool, AllocError> {
    let mut letters = Letters::new(alloc);
    let mut marks = Vec::new(alloc);
    let by_letters = trace_glyph(alloc, font, b"Aacute", &mut letters)?;
    let by_marks = trace_glyph(alloc, font, b"Aacute", &mut marks)?;
    Ok(by_letters == Some(2) && by_marks == Some(2) && letters.are(b"mlzmlz") && marks.len() == 6)
}

// Whether the parts of an accented glyph are named for both runs, and the calls of both told: beside an index that was
// called before, and alone.
fn asks_right(alloc: Global, font: &GlyphFont<'_>) -> Result<bool, AllocError> {
    let mut called = SubrSet::new(alloc);
    called.insert(65534)?;
    let names = parts_and_executed(alloc, font, &SEAC, &mut called)?;
    let no_names = parts_and_executed(alloc, font, &HINTS, &mut called)?;
    let are_named = names.as_slice() == ["A", "acute", "A", "acute"].as_slice();
    let all = called.to_set(alloc)?;
    called.clear();
    let again = parts_and_executed(alloc, font, &HINTS, &mut called)?;
    let calls = called.to_set(alloc)?;
    Ok(
        are_named
            && no_names.is_empty()
            && again.is_empty()
            && are(&all, &[3, 4, 7, 65534])
            && are(&calls, &[3, 4, 7]),
    )
}

// Whether the parts of an accented glyph are named within a budget that is enough.
fn within_right(alloc: Global, font: &GlyphFont<'_>) -> Result<bool, AllocError> {
    let mut called = SubrSet::new(alloc);
    let mut budget = Budget { left: Some(1000) };
    match parts_and_executed_within(alloc, font, &SEAC, &mut called, &mut budget) {
        Ok(names) => Ok(names.len() == 4),
        Err(Stop::Memory) => Err(AllocError),
        Err(Stop::TooManyTokens) => Ok(false),
    }
}

// Whether all of these calls answer right.
fn answers_right(alloc: Global) -> Result<bool, AllocError> {
    let font = GlyphFont::new(alloc, &[], &[], None)?;
    Ok(
        runs_right(alloc, &font)?
            && executes_right(alloc, &font)?
            && runs_twice_right(alloc, &font)?
            && asks_right(alloc, &font)?
            && within_right(alloc, &font)?
            && draws_right(alloc, &font)?
            && traces_right(alloc, &font)?,
    )
}

#[test]
fn growths(rt: HostRuntime) -> Result<(), Fail> {
    let right = match answers_right(rt.alloc()) {
        Err(AllocError) => answers_right(rt.alloc())?,
        answer => answer?,
    };
    assert!(rt; right);
    Ok(())
}

// `tools/sweep_growths.py` refuses all growths: what takes no memory gives the right answer.
#[test]
fn no_growth(rt: HostRuntime) {
    assert!(rt; standard_name(65) == Some("A") && standard_name(0).is_none());
}
