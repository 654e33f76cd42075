// What is small and what is large: where there is memory, no call may want more of it.

use crate::tests::budget::{WIDTH, charstring, count_of_marks};
use crate::tests::fonts::{Font, GlyphFont};
use crate::tests::layouts::trace_glyph;
use std::alloc::{AllocError, Global};
use std::collections::BTreeSet;
use std::test::Fail;
use t1_run::{
    Direct, Drawing, SubrSet, direct, direct3, draw, draw3, executed, parts_and_executed,
};

const RETURN: [u8; 1] = [0x0B];

// `7 1 3 callothersubr pop callsubr`: Subr 7, or Subr 3 where hints are kept.
const SPLIT: [u8; 8] = [0x92, 0x8C, 0x8E, 0x0C, 0x10, 0x0C, 0x11, 0x0A];

// So many Subrs from 0 on, each of which goes back.
fn returns(alloc: Global, count: u16) -> Result<Vec<(u16, &'static [u8])>, AllocError> {
    let mut subrs = Vec::new(alloc);
    for index in 0..count {
        subrs.push((index, RETURN.as_slice()))?;
    }
    Ok(subrs)
}

// A glyph that begins so and calls each of these Subrs, its index as a number of four bytes.
fn calls(alloc: Global, begin: &[u8], count: u16) -> Result<Vec<u8>, AllocError> {
    let mut bytes = Vec::new(alloc);
    bytes.extend_from_slice(&WIDTH)?;
    bytes.extend_from_slice(begin)?;
    for index in 0..count {
        bytes.extend_from_slice(&[0xFF, 0, 0, (index / 256) as u8, (index % 256) as u8, 0x0A])?;
    }
    bytes.push(0x0E)?;
    Ok(bytes)
}

// Whether a set is that of the indices below this number.
fn is_below(set: &BTreeSet<u16>, count: u16) -> bool {
    for (index, want) in set.iter().zip(0..count) {
        if *index != want {
            return false;
        }
    }
    set.len() == usize::from(count)
}

// Whether that glyph is plain and executes all of these Subrs, by each call that answers them.
fn executes_all(alloc: Global, begin: &[u8], count: u16) -> Result<bool, Fail> {
    let subrs = returns(alloc, count)?;
    let font = Font::new(alloc, &subrs)?;
    let glyph = calls(alloc, begin, count)?;
    let alone = executed(alloc, &font, &glyph)?;
    let answer = direct(alloc, &font, &glyph)?;
    let mut called = SubrSet::new(alloc);
    let names = parts_and_executed(alloc, &font, &glyph, &mut called)?;
    let added = called.to_set(alloc)?;
    let are_all = is_below(&alone, count) && is_below(&added, count);
    let is_plain = matches!(&answer, Direct::Plain { .. });
    Ok(are_all && is_plain && names.is_empty())
}

// meets executed Ok at 0, 1, 101, 1001, 33332 indices
// meets parts_and_executed Ok at 0, 1, 101, 1001, 33332 indices
#[test]
fn executes_many(rt: HostRuntime) -> Result<(), Fail> {
    const ROWS: &[(&[u8], u16)] = &[
        (b"", 0),
        (b"", 1),
        (b"", 101),
        (b"", 1_001),
        (b"", 33_332),
        (&SPLIT, 8),
        (&SPLIT, 101),
        (&SPLIT, 1_001),
        (&SPLIT, 33_329),
    ];
    for &(begin, count) in ROWS {
        assert!(rt;
            executes_all(rt.alloc(), begin, count)?,
            "{count} after {begin:?}"
        );
    }
    Ok(())
}

// `0 250 hsbw 5 callsubr 50 120 200 65 194 seac`.
const CALL_AND_SEAC: [u8; 16] = [
    0x8B, 0xF7, 0x8E, 0x0D, 0x90, 0x0A, 0xBD, 0xF7, 0x0C, 0xF7, 0x5C, 0xCC, 0xF7, 0x56, 0x0C, 0x06,
];

// Whether the indices below this number, which were called before, are still there after that glyph, which calls one of them
// again and names two parts in both runs.
fn keeps(alloc: Global, before: u16) -> Result<bool, Fail> {
    let font = Font::small(alloc)?;
    let mut called = SubrSet::new(alloc);
    for index in 0..before {
        called.insert(index)?;
    }
    let names = parts_and_executed(alloc, &font, &CALL_AND_SEAC, &mut called)?;
    let all = called.to_set(alloc)?;
    Ok(names.len() == 4 && is_below(&all, before))
}

// meets parts_and_executed Ok at 6, 1001, 65535 indices
#[test]
fn keeps_what_was_called(rt: HostRuntime) -> Result<(), Fail> {
    for before in [6, 1_001, 65_535] {
        assert!(rt; keeps(rt.alloc(), before)?, "{before} indices");
    }
    Ok(())
}

// How many marks the parts of a drawing have.
fn counts(drawing: &Drawing) -> Option<(usize, Option<usize>)> {
    let Drawing::Drawn { parts, .. } = drawing else {
        return None;
    };
    match parts.as_slice() {
        [one] => Some((one.marks.len(), None)),
        [base, accent] => Some((base.marks.len(), Some(accent.marks.len()))),
        _ => None,
    }
}

// Whether a name is drawn with so many marks by both answers, and traced in all with so many.
fn is_drawn(
    alloc: Global,
    font: &GlyphFont<'_>,
    name: &[u8],
    want: (usize, Option<usize>),
    all: usize,
) -> Result<bool, Fail> {
    let replaced = draw(alloc, font, name)?;
    let kept = draw3(alloc, font, name)?;
    let mut marks = Vec::new(alloc);
    let parts = trace_glyph(alloc, font, name, &mut marks)?;
    Ok(counts(&replaced) == Some(want) && kept == replaced && parts.is_some() && marks.len() == all)
}

// Whether a plain glyph of so many marks is answered alike by each call.
fn answers_alike(
    alloc: Global,
    font: &GlyphFont<'_>,
    glyph: &[u8],
    count: usize,
) -> Result<bool, Fail> {
    let replaced = direct(alloc, font, glyph)?;
    let kept = direct3(alloc, font, glyph)?;
    Ok(count_of_marks(&replaced) == count && kept == replaced)
}

// Whether plain glyphs of so many marks are drawn, one and as the parts of an accented glyph, which has so many in all.
fn draws(alloc: Global, count: u32, all: usize) -> Result<bool, Fail> {
    let glyph = charstring(alloc, &WIDTH, count, b"\x0e")?;
    let font = GlyphFont::new(alloc, &[], &[(b"A", &glyph), (b"acute", &glyph)], None)?;
    let count = count as usize;
    Ok(
        answers_alike(alloc, &font, &glyph, count)?
            && is_drawn(alloc, &font, b"A", (count, None), count)?
            && is_drawn(alloc, &font, b"Aacute", (count, Some(count)), all)?,
    )
}

// meets direct Plain at 0, 1, 99996 marks
// meets direct3 Plain at 0, 1, 99996 marks
// meets draw Drawn at 0, 1, 99996 marks
// meets draw3 Drawn at 0, 1, 99996 marks
// meets lay_out Drawn at 0, 1, 99996 marks
// meets trace Ok at 0, 1, 99996 marks
#[test]
fn draws_many(rt: HostRuntime) -> Result<(), Fail> {
    for (count, all) in [(0, 0), (1, 2), (99_996, 199_992)] {
        assert!(rt; draws(rt.alloc(), count, all)?, "{count} marks");
    }
    Ok(())
}

// `0 250 hsbw`, and then Subr 7, which makes a mark, or Subr 3 where hints are kept; a mark tells both runs apart.
const APART: [u8; 12] = [
    0x8B, 0xF7, 0x8E, 0x0D, 0x92, 0x8C, 0x8E, 0x0C, 0x10, 0x0C, 0x11, 0x0A,
];

// Whether a charstring of two runs, with so many dotsections, has so many marks where hints are replaced and so many where
// they are kept.
fn answers_apart(
    alloc: Global,
    dotsections: u32,
    replaced: usize,
    kept: usize,
) -> Result<bool, Fail> {
    let font = Font::small(alloc)?;
    let glyph = charstring(alloc, &APART, dotsections, b"\x0e")?;
    let answer = direct(alloc, &font, &glyph)?;
    let other = direct3(alloc, &font, &glyph)?;
    Ok(count_of_marks(&answer) == replaced && count_of_marks(&other) == kept)
}

// meets direct Plain at 2, 99988 marks
// meets direct3 Plain at 1, 99987 marks
#[test]
fn answers_many_apart(rt: HostRuntime) -> Result<(), Fail> {
    for (dotsections, replaced, kept) in [(0, 2, 1), (99_986, 99_988, 99_987)] {
        assert!(rt;
            answers_apart(rt.alloc(), dotsections, replaced, kept)?,
            "{dotsections} dotsections"
        );
    }
    Ok(())
}

// Whether a charstring that ends so after so many dotsections is an accented glyph, and names so many parts.
fn names_parts(alloc: Global, dotsections: u32, end: &[u8], count: usize) -> Result<bool, Fail> {
    let font = Font::small(alloc)?;
    let glyph = charstring(alloc, &WIDTH, dotsections, end)?;
    let replaced = direct(alloc, &font, &glyph)?;
    let kept = direct3(alloc, &font, &glyph)?;
    let mut called = SubrSet::new(alloc);
    let both = parts_and_executed(alloc, &font, &glyph, &mut called)?;
    let is_seac = matches!(&replaced, Direct::Seac { .. }) && kept == replaced;
    Ok(is_seac && both.len() / 2 == count)
}

// meets direct Seac at 0, 99991 marks
// meets direct3 Seac at 0, 99991 marks
// meets parts_and_executed Ok at 0, 2, 4 names
#[test]
fn names_parts_late(rt: HostRuntime) -> Result<(), Fail> {
    const ENDS: &[(&[u8], usize)] = &[
        (b"\xbd\xf7\x0c\xf7\x5c\x8b\x8b\x0c\x06", 0),
        (b"\xbd\xf7\x0c\xf7\x5c\x8b\xf7\x56\x0c\x06", 1),
        (b"\xbd\xf7\x0c\xf7\x5c\xcc\xf7\x56\x0c\x06", 2),
    ];
    for dotsections in [0, 99_991] {
        for &(end, count) in ENDS {
            assert!(rt;
                names_parts(rt.alloc(), dotsections, end, count)?,
                "{count} parts after {dotsections}"
            );
        }
    }
    Ok(())
}
