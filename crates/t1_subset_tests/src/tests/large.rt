//! Fonts of thousands of glyphs, and fonts that together are over the limits.

use super::closures::{file_lacks, keeps, kept};
use super::fonts::{SHELL, SUBRS, cut, file, glyphs_text, lent, put_entry};
use super::mergers::{all_merged, conflict, glyph_differs, merged};
use std::alloc::{AllocError, Global};
use std::ops::Range;
use std::test::Fail;
use t1_font::{Source, read};
use t1_subset::{Conflict, states};

/// A name of six bytes for a number below 100,000, in the order of the numbers.
fn numbered(alloc: Global, number: u32) -> Result<Vec<u8>, AllocError> {
    let mut name = Vec::from_slice(alloc, b"g")?;
    for place in [10_000u32, 1_000, 100, 10, 1] {
        name.push(b'0' + (number / place % 10) as u8)?;
    }
    Ok(name)
}

/// The file of `.notdef` and of glyphs with numbered names, each with these bytes.
pub fn many(alloc: Global, numbers: Range<u32>, plain: &[u8]) -> Result<Vec<u8>, AllocError> {
    let mut text = glyphs_text(alloc, &SHELL, &[(b".notdef", b"\x0e")])?;
    for number in numbers {
        text.push(b'/')?;
        let name = numbered(alloc, number)?;
        put_entry(alloc, &mut text, name.as_slice(), plain, SHELL.def)?;
    }
    file(alloc, &SHELL, SUBRS, text.as_slice())
}

/// The names of these numbers.
pub fn names(alloc: Global, numbers: Range<u32>) -> Result<Vec<Vec<u8>>, AllocError> {
    let mut names = Vec::new(alloc);
    for number in numbers {
        match names.push(numbered(alloc, number)?) {
            Ok(_) => {}
            Err(_) => return Err(AllocError),
        }
    }
    Ok(names)
}

/// The subset of a file's font over these names, if their closure keeps this many glyphs.
fn cut_of(alloc: Global, file: &[u8], names: &[&[u8]], count: usize) -> Vec<u8> {
    let cut = cut(alloc, file, names);
    if count_kept(alloc, file, names) == count && glyph_count(alloc, cut.as_slice()) == count {
        cut
    } else {
        Vec::new(alloc)
    }
}

/// The subset of a file's font over these names, if it has these and `.notdef`.
fn cut_by_names(alloc: Global, file: &[u8], names: &[Vec<u8>]) -> Vec<u8> {
    match lent(alloc, names) {
        Ok(lent) => cut_of(alloc, file, lent.as_slice(), names.len().saturating_add(1)),
        Err(_) => Vec::new(alloc),
    }
}

/// The subset of a file's font over the glyphs of these numbers, if it has these and `.notdef`.
fn numbered_cut(alloc: Global, file: &[u8], numbers: Range<u32>) -> Vec<u8> {
    match names(alloc, numbers) {
        Ok(names) => cut_by_names(alloc, file, names.as_slice()),
        Err(_) => Vec::new(alloc),
    }
}

/// How many glyphs names keep of a file's font.
fn count_kept(alloc: Global, file: &[u8], names: &[&[u8]]) -> usize {
    match kept(alloc, file, names) {
        Ok(text) => text.iter().filter(|byte| **byte == b' ').count(),
        Err(_) => 0,
    }
}

/// How many glyphs a source's font has.
fn lent_count(alloc: Global, source: &Source) -> usize {
    match source.font(alloc) {
        Ok(font) => {
            let count = font.names().count();
            drop(font);
            count
        }
        Err(_) => 0,
    }
}

/// How many glyphs a file's font has.
fn glyph_count(alloc: Global, file: &[u8]) -> usize {
    match read(alloc, file) {
        Ok(source) => {
            let count = lent_count(alloc, &source);
            drop(source);
            count
        }
        Err(_) => 0,
    }
}

/// How many glyphs two fonts come to, by both calls.
fn merged_count(alloc: Global, one: &[u8], other: &[u8]) -> usize {
    let two = merged(alloc, one, other);
    let all = all_merged(alloc, &[one, other]).unwrap_or(Vec::new(alloc));
    if two.as_slice() == all.as_slice() {
        glyph_count(alloc, all.as_slice())
    } else {
        0
    }
}

/// `0 0 hsbw 5 callsubr endchar`.
const CALLS_5: &[u8] = b"\x8b\x8b\x0d\x90\x0a\x0e";

#[test]
fn thousands_of_glyphs(rt: HostRuntime) -> Result<(), Fail> {
    let file = many(rt.alloc(), 0..6000, CALLS_5)?;
    let one = numbered_cut(rt.alloc(), file.as_slice(), 0..3500);
    let other = numbered_cut(rt.alloc(), file.as_slice(), 2500..6000);
    let got = merged_count(rt.alloc(), one.as_slice(), other.as_slice());
    assert!(rt; got == 6001);
    Ok(())
}

/// Whether names of these numbers are refused, since a file's font lacks this one.
fn lacks(alloc: Global, file: &[u8], numbers: Range<u32>, name: &[u8]) -> Result<bool, AllocError> {
    let names = names(alloc, numbers)?;
    let names = lent(alloc, names.as_slice())?;
    let refused = file_lacks(alloc, file, names.as_slice(), name);
    Ok(refused && keeps(alloc, file, names.as_slice(), name))
}

// meets merge Glyph at 6000 glyphs
// meets closure NoSuchGlyph at 6000 glyphs
// meets subset NoSuchGlyph at 6000 glyphs
#[test]
fn the_last_of_thousands_of_glyphs(rt: HostRuntime) -> Result<(), Fail> {
    let file = many(rt.alloc(), 0..6000, CALLS_5)?;
    let other = many(rt.alloc(), 5999..6001, b"\x0e")?;
    assert!(rt; glyph_differs(rt.alloc(), file.as_slice(), other.as_slice(), b"g05999"));
    assert!(rt; lacks(rt.alloc(), file.as_slice(), 0..6001, b"g06000")?);
    Ok(())
}

/// Whether two files come to this many glyphs, all of which their subset keeps, and whose states can be made.
fn reaches(alloc: Global, one: &[u8], other: &[u8], count: u32) -> Result<bool, AllocError> {
    let whole = merged(alloc, one, other);
    let cut = numbered_cut(alloc, whole.as_slice(), 0..count.saturating_sub(1));
    let are_all = merged_count(alloc, one, other) == count as usize;
    Ok(are_all && !cut.is_empty() && has_states(alloc, whole.as_slice()))
}

/// Whether the states of a source's font can be made.
fn source_has_states(alloc: Global, source: &Source) -> bool {
    match source.font(alloc) {
        Ok(font) => {
            let made = states(alloc, &font).is_ok();
            drop(font);
            made
        }
        Err(_) => false,
    }
}

/// Whether the states of a file's font can be made.
fn has_states(alloc: Global, file: &[u8]) -> bool {
    match read(alloc, file) {
        Ok(source) => {
            let made = source_has_states(alloc, &source);
            drop(source);
            made
        }
        Err(_) => false,
    }
}

// meets merge Ok at 65535 glyphs
// meets merge_all Ok at 65535 glyphs
// meets merge Limit at 65536 glyphs
// meets merge_all Limit at 65536 glyphs
// meets closure Ok at 65535 glyphs
// meets subset Ok at 65535 glyphs
// meets states Ok at 65535 glyphs
#[test]
fn as_many_glyphs_as_a_font_can_have(rt: HostRuntime) -> Result<(), Fail> {
    let one = many(rt.alloc(), 0..32_767, CALLS_5)?;
    let other = many(rt.alloc(), 32_767..65_534, CALLS_5)?;
    assert!(rt; reaches(rt.alloc(), one.as_slice(), other.as_slice(), 65_535)?);
    // 65536 of both, with `.notdef`.
    let more = many(rt.alloc(), 32_767..65_535, CALLS_5)?;
    assert!(rt; are_over_the_limit(rt.alloc(), one.as_slice(), more.as_slice()));
    Ok(())
}

/// Whether two fonts are over a limit together, by both calls and in both orders.
fn are_over_the_limit(alloc: Global, one: &[u8], other: &[u8]) -> bool {
    let two = matches!(conflict(alloc, one, other), Some(Conflict::Limit));
    let all = all_merged(alloc, &[one, other, one]);
    let is_over = matches!(all, Err(Conflict::Limit));
    drop(all);
    two && is_over
}

/// Whether two fonts are too heavy together, but the first is not with itself.
fn too_heavy(alloc: Global, one: &[u8], other: &[u8]) -> bool {
    are_over_the_limit(alloc, one, other) && !merged(alloc, one, one).is_empty()
}

/// The file of the glyphs of these numbers, each of 65,000 bytes.
fn heavy(alloc: Global, numbers: Range<u32>) -> Result<Vec<u8>, AllocError> {
    let mut plain = Vec::new(alloc);
    plain.resize(65_000, 14)?;
    many(alloc, numbers, plain.as_slice())
}

#[test]
fn a_merger_that_weighs_too_much(rt: HostRuntime) -> Result<(), Fail> {
    let one = heavy(rt.alloc(), 0..520)?;
    let other = heavy(rt.alloc(), 520..1040)?;
    assert!(rt; too_heavy(rt.alloc(), one.as_slice(), other.as_slice()));
    assert!(rt; too_heavy(rt.alloc(), other.as_slice(), one.as_slice()));
    Ok(())
}
