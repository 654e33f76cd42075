//! Closures and subsets.

use super::fonts::{cut, whole};
use std::alloc::{AllocError, Global};
use std::test::Fail;
use t1_font::{Font, Source, read};
use t1_subset::{Closure, SubsetFault, closure, subset};

/// The names of a closure, each with a blank after it, and the digits of its Subrs.
fn text_of(alloc: Global, closure: &Closure) -> Result<Vec<u8>, AllocError> {
    let mut text = Vec::new(alloc);
    for name in &closure.names {
        text.extend_from_slice(name.as_slice())?;
        text.push(b' ')?;
    }
    for index in 0..10u16 {
        if closure.subrs.contains(&index) {
            text.push(b'0' + index as u8)?;
        }
    }
    Ok(text)
}

/// What names keep of a font, as a text, or the name that the font lacks.
fn font_keeps(alloc: Global, font: &Font<'_>, names: &[&[u8]]) -> Result<Vec<u8>, AllocError> {
    match closure(alloc, font, names) {
        Ok(closure) => {
            let text = text_of(alloc, &closure);
            drop(closure);
            text
        }
        Err(SubsetFault::NoSuchGlyph { name }) => Ok(name),
        Err(SubsetFault::Memory) => Err(AllocError),
    }
}

/// What names keep of a source's font, as a text, or the name that the font lacks.
fn source_keeps(alloc: Global, source: &Source, names: &[&[u8]]) -> Result<Vec<u8>, AllocError> {
    let font = source.font(alloc)?;
    let kept = font_keeps(alloc, &font, names);
    drop(font);
    kept
}

/// What names keep of a file's font, as a text, or the name that the font lacks.
pub fn kept(alloc: Global, file: &[u8], names: &[&[u8]]) -> Result<Vec<u8>, AllocError> {
    match read(alloc, file) {
        Ok(source) => {
            let kept = source_keeps(alloc, &source, names);
            drop(source);
            kept
        }
        Err(_) => Err(AllocError),
    }
}

/// Names, and what they keep.
const KEPT: &[(&[&[u8]], &[u8])] = &[
    (&[], b".notdef 0123"),
    (&[b".notdef"], b".notdef 0123"),
    (&[b"X"], b".notdef X 01235"),
    (&[b"X", b"X"], b".notdef X 01235"),
    (&[b"H"], b".notdef H 012347"),
    (&[b"Aacute"], b".notdef A Aacute acute 012356"),
    (&[b"N"], b".notdef A B N acute 012356"),
];

/// Whether this is what names keep of a file's font, or the name that the font lacks.
pub fn keeps(alloc: Global, file: &[u8], names: &[&[u8]], want: &[u8]) -> bool {
    match kept(alloc, file, names) {
        Ok(text) => text.as_slice() == want,
        Err(_) => false,
    }
}

/// Whether this is what the names keep of the subset over them.
fn cut_keeps(alloc: Global, file: &[u8], names: &[&[u8]], want: &[u8]) -> bool {
    let cut = cut(alloc, file, names);
    keeps(alloc, cut.as_slice(), names, want)
}

// meets closure Ok at 0, 1 names
// meets subset Ok at 0, 1 names
#[test]
fn what_names_keep(rt: HostRuntime) -> Result<(), Fail> {
    let file = whole(rt.alloc())?;
    for &(names, want) in KEPT {
        assert!(rt; keeps(rt.alloc(), file.as_slice(), names, want));
        let again = cut_keeps(rt.alloc(), file.as_slice(), names, want);
        assert!(rt; again, "in the subset");
    }
    Ok(())
}

/// Lists of names that the font lacks in part, and the first that it lacks.
const ABSENT: &[(&[&[u8]], &[u8])] = &[
    (&[b"Zed"], b"Zed"),
    (&[b"X", b"Zee", b"Zed"], b"Zee"),
    (&[b"Zed", b"X"], b"Zed"),
    (&[b"", b"Zed"], b""),
];

/// Whether a subset is refused for this name.
fn lacks(alloc: Global, font: &Font<'_>, names: &[&[u8]], want: &[u8]) -> bool {
    match subset(alloc, font, names) {
        Ok(cut) => {
            drop(cut);
            false
        }
        Err(SubsetFault::NoSuchGlyph { name }) => name.as_slice() == want,
        Err(SubsetFault::Memory) => false,
    }
}

/// Whether a subset of a source's font is refused for this name.
fn source_lacks(alloc: Global, source: &Source, names: &[&[u8]], want: &[u8]) -> bool {
    match source.font(alloc) {
        Ok(font) => {
            let told = lacks(alloc, &font, names, want);
            drop(font);
            told
        }
        Err(_) => false,
    }
}

/// Whether a subset of a file's font is refused for this name.
pub fn file_lacks(alloc: Global, file: &[u8], names: &[&[u8]], want: &[u8]) -> bool {
    match read(alloc, file) {
        Ok(source) => {
            let told = source_lacks(alloc, &source, names, want);
            drop(source);
            told
        }
        Err(_) => false,
    }
}

// meets closure NoSuchGlyph at 1, 3 names
// meets subset NoSuchGlyph at 1, 3 names
#[test]
fn names_that_are_absent(rt: HostRuntime) -> Result<(), Fail> {
    let file = whole(rt.alloc())?;
    for &(names, want) in ABSENT {
        let got = keeps(rt.alloc(), file.as_slice(), names, want);
        assert!(rt; got, "of a closure");
        let told = file_lacks(rt.alloc(), file.as_slice(), names, want);
        assert!(rt; told, "of a subset");
    }
    Ok(())
}
