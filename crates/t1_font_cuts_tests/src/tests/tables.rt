//! Tables of glyphs, those of a source and those that were made, with ample memory.

use super::cuts::{Cut, X, Y, cut_font, large};
use std::alloc::{AllocError, Global};
use std::test::Fail;
use t1_font::{CharStrings, Font, STUB, SparseArray, join_glyphs, join_same_glyphs};
use t1_font_shared_tests::{file_of, of_file, of_font, seen, used};
use t1_join::Table;
use t1_tiny::PFA;

/// The names of a table, each with a blank.
fn names(alloc: Global, glyphs: &CharStrings<'_>) -> Result<Vec<u8>, AllocError> {
    let mut text = Vec::new(alloc);
    for (name, _) in glyphs.entries() {
        text.extend_from_slice(name)?;
        text.push(b' ')?;
    }
    Ok(text)
}

/// Whether the table has each glyph of the font, with its charstring.
fn has_all(glyphs: &CharStrings<'_>, font: &Font<'_>) -> bool {
    for name in font.names() {
        if glyphs.get(name) != font.charstring(name) {
            return false;
        }
    }
    true
}

/// Whether the copy of a font's table has these names and its charstrings.
fn copy_has(alloc: Global, font: &Font<'_>, want: &[u8]) -> Result<bool, AllocError> {
    used(font.glyphs().copy(alloc), |copy| {
        Ok(names(alloc, copy)?.as_slice() == want && has_all(copy, font))
    })
}

/// Whether a table has these names and the charstrings of two fonts.
fn has_both(
    alloc: Global,
    both: &CharStrings<'_>,
    first: &Font<'_>,
    second: &Font<'_>,
    want: &[u8],
) -> Result<bool, AllocError> {
    let names = names(alloc, both)?;
    Ok(names.as_slice() == want && has_all(both, first) && has_all(both, second))
}

/// Whether the tables of two fonts join in one pass to a table with these names.
fn join_same<'a>(
    alloc: Global,
    first: &Font<'a>,
    second: &Font<'a>,
    want: &[u8],
) -> Result<bool, AllocError> {
    used(
        join_same_glyphs(alloc, first.glyphs(), second.glyphs()),
        |same| match same {
            Some(same) => has_both(alloc, same, first, second, want),
            None => Ok(false),
        },
    )
}

/// Whether one pass over the tables of two fonts weighs, counts, compares and joins them as their joined table says.
fn passes_as<'a>(
    alloc: Global,
    first: &Font<'a>,
    second: &Font<'a>,
    both: &CharStrings<'a>,
) -> Result<bool, AllocError> {
    let extent = first.glyphs().extent_with(second.glyphs(), 7, 4);
    let differing = first.glyphs().first_differing(second.glyphs());
    let right = extent.weight == both.weight(7, 4)
        && extent.count == both.len() as u64
        && differing.is_none();
    let want = names(alloc, both)?;
    Ok(right && join_same(alloc, first, second, want.as_slice())?)
}

/// Whether a table has these names and the charstrings of both fonts, as one pass over their tables says.
fn is_joined<'a>(
    alloc: Global,
    both: &CharStrings<'a>,
    first: &Font<'a>,
    second: &Font<'a>,
    want: &[u8],
) -> Result<bool, AllocError> {
    Ok(has_both(alloc, both, first, second, want)? && passes_as(alloc, first, second, both)?)
}

/// Whether the joined tables of two fonts have these names and the charstrings of both, as one pass over them says.
fn join_has<'a>(
    alloc: Global,
    first: &Font<'a>,
    second: &Font<'a>,
    want: &[u8],
) -> Result<bool, AllocError> {
    let joined = join_glyphs(alloc, first.glyphs(), second.glyphs());
    used(joined, |both| is_joined(alloc, both, first, second, want))
}

/// The names of Tiny.
const ALL_NAMES: &[u8] = b".notdef A Aacute B F H L N X Y acute ";

/// Whether a table that a cut made is copied.
fn made_copies(alloc: Global, font: &Font<'_>) -> Result<bool, AllocError> {
    used(
        cut_font(alloc, font, X.0, X.1),
        |x| copy_has(alloc, x, b".notdef X "),
    )
}

/// Whether a font's table and that of a cut join to these names.
fn joins_with<'a>(
    alloc: Global,
    first: &Font<'a>,
    font: &Font<'a>,
    cut: Cut,
    want: &[u8],
) -> Result<bool, AllocError> {
    used(
        cut_font(alloc, font, cut.0, cut.1),
        |second| join_has(alloc, first, second, want),
    )
}

/// The same of two cuts, which have X and Y.
fn made_joins(alloc: Global, font: &Font<'_>, first: Cut, second: Cut) -> Result<bool, AllocError> {
    match cut_font(alloc, font, first.0, first.1) {
        Ok(first) => joins_with(alloc, &first, font, second, b".notdef X Y "),
        Err(fault) => Err(fault),
    }
}

/// Whether the shell of a font makes a font of these Subrs and of its glyphs.
fn is_made<'a>(alloc: Global, font: &Font<'a>, subrs: SparseArray<'a>) -> Result<bool, AllocError> {
    match font.glyphs().copy(alloc) {
        Ok(glyphs) => Ok(
            font.shell()
                .font(SparseArray::none(alloc), subrs, glyphs)
                .is_some(),
        ),
        Err(fault) => Err(fault),
    }
}

/// Whether a table has Subrs at the numbers of a font, and a stub at 1.
fn has_stubs(subrs: &SparseArray<'_>, font: &Font<'_>) -> bool {
    subrs.same_numbers(font.subrs()) && subrs.get(1) == Some(STUB)
}

/// Whether the shell of a font makes it a font again with the Subrs of a table at its numbers, and none without Subrs.
fn made_by_shell(
    alloc: Global,
    font: &Font<'_>,
    table: &Table<u16, &[u8]>,
) -> Result<bool, AllocError> {
    let right = match SparseArray::with_stubs(alloc, font.subrs(), table) {
        Ok(subrs) => has_stubs(&subrs, font) && is_made(alloc, font, subrs)?,
        Err(fault) => return Err(fault),
    };
    Ok(right && !is_made(alloc, font, SparseArray::none(alloc))?)
}

/// The same with a table of one Subr, which the font gets.
fn made_of_table(alloc: Global, font: &Font<'_>) -> Result<bool, AllocError> {
    let mut table = Table::new(alloc);
    table.insert(0, b"\x0b\x0b".as_slice())?;
    let has = seen(
        SparseArray::with_stubs(alloc, font.subrs(), &table),
        |one| { one.get(0) == Some(b"\x0b\x0b".as_slice()) },
    );
    Ok(has? && made_by_shell(alloc, font, &table)?)
}

/// Whether all tables that are copied and joined have their names.
fn are_right(alloc: Global, font: &Font<'_>) -> Result<bool, AllocError> {
    Ok(
        copy_has(alloc, font, ALL_NAMES)?
            && made_copies(alloc, font)?
            && made_joins(alloc, font, X, Y)?
            && made_joins(alloc, font, Y, X)?
            && joins_with(alloc, font, font, X, ALL_NAMES)?
            && made_of_table(alloc, font)?,
    )
}

/// The same of Tiny.
pub fn tiny_is_right(alloc: Global) -> Result<bool, AllocError> {
    of_font(alloc, PFA, |font| are_right(alloc, font))
}

#[test]
fn tables_of_tiny(rt: HostRuntime) {
    assert!(rt; tiny_is_right(rt.alloc()) == Ok(true));
}

/// A font with `.notdef` and a glyph `X`, whose charstring is one byte.
fn with_x(alloc: Global, charstring: &[u8]) -> Result<Vec<u8>, AllocError> {
    let private: &[&[u8]] = &[
        b"/lenIV 0 def /CharStrings 2 dict dup begin\n/.notdef 1 RD x ND\n/X 1 RD ",
        charstring,
        b" ND\nend\nmark currentfile closefile\n",
    ];
    file_of(
        alloc,
        &[b"/Encoding StandardEncoding def\ncurrentfile eexec\n"],
        private,
    )
}

/// Whether the tables of two fonts don't join in one pass, and differ at `X`.
fn differ_at_x(alloc: Global, first: &Font<'_>, second: &Font<'_>) -> Result<bool, AllocError> {
    let differing = first.glyphs().first_differing(second.glyphs());
    seen(
        join_same_glyphs(alloc, first.glyphs(), second.glyphs()),
        |joined| { joined.is_none() && differing == Some(b"X".as_slice()) },
    )
}

#[test]
fn tables_with_two_glyphs_of_one_name(rt: HostRuntime) -> Result<(), Fail> {
    let first = with_x(rt.alloc(), b"p")?;
    let second = with_x(rt.alloc(), b"q")?;
    let differ = of_file(rt.alloc(), first.as_slice(), |first| {
        of_font(
            rt.alloc(),
            second.as_slice(),
            |second| differ_at_x(rt.alloc(), first, second),
        )
    });
    assert!(rt; differ == Ok(true));
    Ok(())
}

/// A few of the names of a large font.
const FEW: Cut = (&[b"0", b"7", b"77", b"777", b"3999"], &[0, 1, 2, 3]);

/// How many glyphs the copy of a font's table has.
fn copied(alloc: Global, font: &Font<'_>) -> Result<usize, AllocError> {
    seen(font.glyphs().copy(alloc), |copy| copy.len())
}

/// How many glyphs a table has, if one pass over the tables of two fonts says that it is theirs.
fn passed_length<'a>(
    alloc: Global,
    first: &Font<'a>,
    second: &Font<'a>,
    both: &CharStrings<'a>,
) -> Result<usize, AllocError> {
    let right = passes_as(alloc, first, second, both)?;
    Ok(if right { both.len() } else { 0 })
}

/// How many glyphs the tables of two fonts have together, if one pass over both is right.
fn joined<'a>(alloc: Global, first: &Font<'a>, second: &Font<'a>) -> Result<usize, AllocError> {
    let joined = join_glyphs(alloc, first.glyphs(), second.glyphs());
    used(joined, |both| passed_length(alloc, first, second, both))
}

/// How many glyphs a part of a font has, and both together.
fn part_counts<'a>(
    alloc: Global,
    part: &Font<'a>,
    font: &Font<'a>,
) -> Result<(usize, usize), AllocError> {
    Ok((copied(alloc, part)?, joined(alloc, part, font)?))
}

/// The same of the part with a few names.
fn counts_of_part(alloc: Global, font: &Font<'_>) -> Result<(usize, usize), AllocError> {
    used(
        cut_font(alloc, font, FEW.0, FEW.1),
        |part| part_counts(alloc, part, font),
    )
}

/// The same of a font, of its part and of both; and how many Subrs the font has.
fn counts(alloc: Global, font: &Font<'_>) -> Result<(usize, usize, usize, usize), AllocError> {
    let (part, both) = counts_of_part(alloc, font)?;
    Ok((copied(alloc, font)?, part, both, font.indices().count()))
}

#[test]
fn tables_of_thousands(rt: HostRuntime) -> Result<(), Fail> {
    let file = large(rt.alloc())?;
    let counts = of_file(rt.alloc(), file.as_slice(), |font| counts(rt.alloc(), font));
    assert!(rt; counts == Ok((4_001, 6, 4_001, 2_000)));
    Ok(())
}
