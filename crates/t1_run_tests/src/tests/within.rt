// Runs within a budget of tokens.

use crate::tests::budget::{WIDTH, charstring};
use crate::tests::fonts::Font;
use std::alloc::Global;
use std::test::Fail;
use t1_run::{Budget, Stop, SubrSet, parts_and_executed, parts_and_executed_within};

// `0 500 hsbw 0 20 hstem 7 4 callsubr`: 20 tokens with the endchar, or 17 where hints are kept.
const HINTS: [u8; 10] = [0x8B, 0xF8, 0x88, 0x0D, 0x8B, 0x9F, 0x01, 0x92, 0x8F, 0x0A];

// `0 500 hsbw 3 4 callsubr`: 14 tokens with the endchar, by either answer, which are both 3.
const SAME_HINTS: [u8; 7] = [0x8B, 0xF8, 0x88, 0x0D, 0x8E, 0x8F, 0x0A];

// A glyph's beginning, its dotsections and its end; what is left before it, and after it, or nothing if it is refused.
type Row = (
    &'static [u8],
    u32,
    &'static [u8],
    Option<u64>,
    Option<Option<u64>>,
);

const ROWS: [Row; 19] = [
    (b"", 0, b"", Some(0), Some(Some(0))),
    (&WIDTH, 0, b"\x0e", Some(4), Some(Some(0))),
    (&WIDTH, 0, b"\x0e", Some(5), Some(Some(1))),
    (&WIDTH, 0, b"\x0e", Some(3), None),
    (&WIDTH, 0, b"\x0e", Some(0), None),
    (&WIDTH, 0, b"\x0e", None, Some(None)),
    (&WIDTH, 99_996, b"\x0e", Some(100_000), Some(Some(0))),
    (&WIDTH, 99_996, b"\x0e", Some(99_999), None),
    (
        &WIDTH,
        99_996,
        b"\x0e",
        Some(10_000_000_000),
        Some(Some(9_999_900_000)),
    ),
    (&WIDTH, 99_996, b"\x0e", None, Some(None)),
    // too long: the last token is not executed
    (&WIDTH, 99_997, b"\x0e", Some(100_000), Some(Some(0))),
    (&WIDTH, 99_997, b"\x0e", Some(99_999), None),
    (&HINTS, 0, b"\x0e", Some(37), Some(Some(0))),
    (&HINTS, 0, b"\x0e", Some(36), None),
    (&HINTS, 0, b"\x0e", Some(20), None),
    (&HINTS, 0, b"\x0e", Some(19), None),
    (&HINTS, 0, b"\x0e", None, Some(None)),
    (&SAME_HINTS, 0, b"\x0e", Some(28), Some(Some(0))),
    (&SAME_HINTS, 0, b"\x0e", Some(27), None),
];

// Whether a glyph is answered so within that budget, and, where it is, as it is without one.
fn answers_so(alloc: Global, row: &Row) -> Result<bool, Fail> {
    let font = Font::small(alloc)?;
    let (begin, dotsections, end, left, want) = *row;
    let glyph = charstring(alloc, begin, dotsections, end)?;
    let mut budget = Budget { left };
    let mut called = SubrSet::new(alloc);
    let names = match parts_and_executed_within(alloc, &font, &glyph, &mut called, &mut budget) {
        Ok(names) => names,
        Err(stop) => return Ok(stop == Stop::TooManyTokens && want.is_none()),
    };
    let mut all = SubrSet::new(alloc);
    let plain = parts_and_executed(alloc, &font, &glyph, &mut all)?;
    let is_plain = names.len() == plain.len() && called.as_slice() == all.as_slice();
    Ok(is_plain && want == Some(budget.left))
}

// meets parts_and_executed_within Ok at 0, 4, 37, 100000 tokens
// meets parts_and_executed_within TooManyTokens at 4, 37, 100000 tokens
#[test]
fn runs_within_budgets(rt: HostRuntime) -> Result<(), Fail> {
    for row in &ROWS {
        assert!(rt; answers_so(rt.alloc(), row)?, "{:?} left", row.3);
    }
    Ok(())
}

// `0 500 hsbw` and a seac of A and acute: nine tokens, in one run.
const ACCENTED: [u8; 14] = [
    0x8B, 0xF8, 0x88, 0x0D, 0xBD, 0xF7, 0x0C, 0xF7, 0x5C, 0xCC, 0xF7, 0x56, 0x0C, 0x06,
];

// Whether glyphs take their tokens out of one budget, one after the other, until none are left for the next.
fn takes_from_one(alloc: Global) -> Result<bool, Fail> {
    let font = Font::small(alloc)?;
    let mut budget = Budget { left: Some(22) };
    let mut called = SubrSet::new(alloc);
    let names = parts_and_executed_within(alloc, &font, &ACCENTED, &mut called, &mut budget);
    let first = names.is_ok_and(|names| names.as_slice()
        == ["A", "acute", "A", "acute"].as_slice());
    let after_one = budget.left == Some(13);
    let more = parts_and_executed_within(alloc, &font, &ACCENTED, &mut called, &mut budget);
    let after_two = more.is_ok() && budget.left == Some(4);
    let last = parts_and_executed_within(alloc, &font, &ACCENTED, &mut called, &mut budget);
    let is_refused = last.is_err_and(|stop| stop == Stop::TooManyTokens);
    Ok(first && after_one && after_two && is_refused && budget.left == Some(0))
}

// meets parts_and_executed_within Ok at 9 tokens
#[test]
fn lowers_its_budget(rt: HostRuntime) -> Result<(), Fail> {
    assert!(rt; takes_from_one(rt.alloc())?);
    assert!(rt; format!(in rt.alloc(); "{}", Stop::TooManyTokens)?.as_str() == "too many tokens");
    assert!(rt; format!(in rt.alloc(); "{}", Stop::Memory)?.as_str() == "out of memory");
    Ok(())
}
