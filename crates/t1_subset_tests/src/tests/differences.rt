//! All conflicts of two fonts, in their order, as they are printed.

use super::fonts::{ACCENTED, GLYPHS, SHELL, SUBRS, Shell, cut, font, replaced, whole, with_subr};
use super::large::many;
use super::mergers::with_a_and_b;
use std::alloc::{AllocError, Global};
use std::test::Fail;
use t1_font::{Font, Source, read};
use t1_subset::{Conflict, conflicts};

/// A line for each of these conflicts.
fn lines(alloc: Global, all: &[Conflict]) -> Result<Vec<u8>, AllocError> {
    let mut text = Vec::new(alloc);
    for conflict in all {
        let line = conflict.to_string(alloc)?;
        text.extend_from_slice(line.as_bytes())?;
        text.push(b'\n')?;
    }
    Ok(text)
}

/// A line for each conflict of two fonts.
fn told(alloc: Global, left: &Font<'_>, right: &Font<'_>) -> Result<Vec<u8>, AllocError> {
    let all = conflicts(alloc, left, right)?;
    lines(alloc, all.as_slice())
}

/// A line for each conflict of the fonts of two sources.
fn lent_told(alloc: Global, left: &Source, right: &Source) -> Result<Vec<u8>, AllocError> {
    let one = left.font(alloc)?;
    let other = right.font(alloc)?;
    told(alloc, &one, &other)
}

/// A line for each conflict of the fonts of two files.
pub fn differences(alloc: Global, left: &[u8], right: &[u8]) -> Result<Vec<u8>, AllocError> {
    let Ok(left) = read(alloc, left) else {
        return Err(AllocError);
    };
    let Ok(right) = read(alloc, right) else {
        return Err(AllocError);
    };
    lent_told(alloc, &left, &right)
}

/// Whether these are the lines of two files in both orders.
fn differ(alloc: Global, left: &[u8], right: &[u8], want: &[u8]) -> Result<bool, AllocError> {
    let one = differences(alloc, left, right)?;
    let other = differences(alloc, right, left)?;
    Ok(one.as_slice() == want && other.as_slice() == want)
}

/// Whether these are the lines of the whole font and of this one.
fn whole_differs(alloc: Global, other: &[u8], want: &[u8]) -> Result<bool, AllocError> {
    let one = whole(alloc)?;
    differ(alloc, one.as_slice(), other, want)
}

#[test]
fn fonts_that_join(rt: HostRuntime) -> Result<(), Fail> {
    let alloc = rt.alloc();
    let one = whole(alloc)?;
    assert!(rt; whole_differs(alloc, one.as_slice(), b"")?);
    let x = cut(alloc, one.as_slice(), &[b"X"]);
    let y = cut(alloc, one.as_slice(), &[b"Y"]);
    assert!(rt; differ(alloc, x.as_slice(), y.as_slice(), b"")?);
    Ok(())
}

/// A shell that differs from the one above in three parts and in the name of code 66.
const OTHER: Shell = Shell {
    head: b"%!x\n",
    encoding: b"/Encoding 256 array dup 65 /X put dup 66 /A put dup 67 /A put def",
    middle: b"3 index ",
    tail: b"\nmark currentfile closefile",
    ..SHELL
};

/// The font above with that shell, another A and another B, another Subr 5, which X executes, and another Subr 8, which
/// none does.
fn with_all(alloc: Global) -> Result<Vec<u8>, AllocError> {
    let a = replaced(alloc, GLYPHS, 1, (b"A", b"\x0e"))?;
    let both = replaced(alloc, a.as_slice(), 3, (b"B", b"\x0e"))?;
    let five = replaced(alloc, SUBRS, 5, (b"5", b"\xee\x06\x0b"))?;
    let subrs = replaced(alloc, five.as_slice(), 8, (b"8", b"\x0e"))?;
    font(alloc, &OTHER, subrs.as_slice(), both.as_slice())
}

/// The lines of these.
const ALL: &[u8] = b"shells differ in head
shells differ in middle
shells differ in tail
code 66 differs
glyph A differs
glyph B differs
subr 5 differs, used by P
subr 8 differs
";

// meets conflicts Ok at 8 conflicts
#[test]
fn conflicts_of_each_kind(rt: HostRuntime) -> Result<(), Fail> {
    let alloc = rt.alloc();
    let other = with_all(alloc)?;
    assert!(rt; whole_differs(alloc, other.as_slice(), ALL)?);
    let both = with_a_and_b(alloc)?;
    assert!(rt;
        whole_differs(
            alloc,
            both.as_slice(),
            b"glyph A differs\nglyph B differs\n"
        )?
    );
    let eight = with_subr(alloc, 8, (b"8", b"\x0e"))?;
    assert!(rt; whole_differs(alloc, eight.as_slice(), b"subr 8 differs\n")?);
    Ok(())
}

/// The glyphs of one font, each of which lacks the other's components: Aacute names A and acute, and so does Agrave here.
const ACCENTS: &[(&[u8], &[u8])] = &[
    (b".notdef", b"\x0e"),
    (b"Aacute", ACCENTED),
    (b"Agrave", ACCENTED),
];

const LETTERS: &[(&[u8], &[u8])] = &[(b".notdef", b"\x0e"), (b"A", b"\x0e"), (b"acute", b"\x0e")];

#[test]
fn components_that_one_font_lacks(rt: HostRuntime) -> Result<(), Fail> {
    let alloc = rt.alloc();
    let accents = font(alloc, &SHELL, SUBRS, ACCENTS)?;
    let letters = font(alloc, &SHELL, SUBRS, LETTERS)?;
    let want = b"glyph Aacute lacks part A\nglyph Aacute lacks part acute\n";
    assert!(rt; differ(alloc, accents.as_slice(), letters.as_slice(), want)?);
    Ok(())
}

/// How many lines two files differ by.
fn count(alloc: Global, left: &[u8], right: &[u8]) -> Result<usize, AllocError> {
    let text = differences(alloc, left, right)?;
    Ok(text.iter().filter(|byte| **byte == b'\n').count())
}

// meets conflicts Ok at 65535 glyphs
#[test]
fn many_conflicts(rt: HostRuntime) -> Result<(), Fail> {
    let alloc = rt.alloc();
    let one = many(alloc, 0..65_534, b"\x0e")?;
    let other = many(alloc, 0..65_534, b"\x8b\x8b\x0d\x0e")?;
    // 65535 glyphs with `.notdef`, which is the same.
    assert!(rt; count(alloc, one.as_slice(), other.as_slice())? == 65_534);
    let more = many(alloc, 65_534..65_535, b"\x0e")?;
    assert!(rt; differ(alloc, one.as_slice(), more.as_slice(), b"over a limit\n")?);
    Ok(())
}
