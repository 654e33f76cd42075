//! Mergers of two and of many fonts, and each conflict with its data, in both orders.

use super::fonts::{
    ACCENTED, GLYPHS, SHELL, SUBRS, Shell, cut, font, lent, replaced, whole, with_glyph,
    with_shell, with_subr, written,
};
use std::alloc::{AllocError, Global};
use std::test::Fail;
use t1_font::{Font, Form, Source, read, write};
use t1_subset::{Conflict, ShellPart, merge, merge_all};

/// The canonical PFB of what two fonts come to, or why they don't merge.
fn merger<'a>(alloc: Global, left: &Font<'a>, right: &Font<'a>) -> Result<Vec<u8>, Conflict> {
    match merge(alloc, left, right) {
        Ok(both) => {
            let file = written(alloc, &both);
            drop(both);
            Ok(file)
        }
        Err(conflict) => Err(conflict),
    }
}

/// The canonical PFB of what a font and that of a source come to, or why they don't merge.
fn merger_with<'a>(alloc: Global, left: &Font<'a>, right: &'a Source) -> Result<Vec<u8>, Conflict> {
    match right.font(alloc) {
        Ok(right) => {
            let answer = merger(alloc, left, &right);
            drop(right);
            answer
        }
        Err(_) => Err(Conflict::Memory),
    }
}

/// The canonical PFB of what the fonts of two sources come to, or why they don't merge.
fn lent_two<'a>(alloc: Global, left: &'a Source, right: &'a Source) -> Result<Vec<u8>, Conflict> {
    match left.font(alloc) {
        Ok(left) => {
            let answer = merger_with(alloc, &left, right);
            drop(left);
            answer
        }
        Err(_) => Err(Conflict::Memory),
    }
}

/// The canonical PFB of what the fonts of a source and of a file come to, or why they don't merge.
fn answer_with(alloc: Global, left: &Source, right: &[u8]) -> Result<Vec<u8>, Conflict> {
    match read(alloc, right) {
        Ok(right) => {
            let answer = lent_two(alloc, left, &right);
            drop(right);
            answer
        }
        Err(_) => Err(Conflict::Memory),
    }
}

/// The canonical PFB of what the fonts of two files come to, or why they don't merge.
fn answer(alloc: Global, left: &[u8], right: &[u8]) -> Result<Vec<u8>, Conflict> {
    match read(alloc, left) {
        Ok(left) => {
            let answer = answer_with(alloc, &left, right);
            drop(left);
            answer
        }
        Err(_) => Err(Conflict::Memory),
    }
}

/// The canonical PFB of what the fonts of two files come to, or nothing if they don't merge.
pub fn merged(alloc: Global, left: &[u8], right: &[u8]) -> Vec<u8> {
    answer(alloc, left, right).unwrap_or(Vec::new(alloc))
}

/// Why the fonts of two files don't merge, if both orders say the same.
pub fn conflict(alloc: Global, left: &[u8], right: &[u8]) -> Option<Conflict> {
    let one = answer(alloc, left, right).err();
    let other = answer(alloc, right, left).err();
    let is_same = one == other;
    drop(other);
    if is_same {
        return one;
    }
    drop(one);
    None
}

/// Shells that differ from the one above, and the part that is told: the first if two parts differ.
const CHANGED: &[(Shell, ShellPart)] = &[
    (
        Shell {
            head: b"%!x\n",
            ..SHELL
        },
        ShellPart::Head,
    ),
    (
        Shell {
            encoding: b"/Encoding StandardEncoding def",
            ..SHELL
        },
        ShellPart::Encoding,
    ),
    (
        Shell {
            clear_tail: b"\n\ncurrentfile eexec ",
            ..SHELL
        },
        ShellPart::ClearTail,
    ),
    (
        Shell {
            private: b"/lenIV 0 def /password 1 def\n",
            ..SHELL
        },
        ShellPart::Private,
    ),
    (
        Shell {
            subrs: b"/Subrs 11 array\n",
            ..SHELL
        },
        ShellPart::SubrsTable,
    ),
    (
        Shell {
            subrs: b"",
            middle: b"",
            ..SHELL
        },
        ShellPart::SubrsTable,
    ),
    (Shell { put: b"|", ..SHELL }, ShellPart::SubrsWords),
    (
        Shell {
            closing: b"|-\n",
            ..SHELL
        },
        ShellPart::SubrsWords,
    ),
    (
        Shell {
            middle: b"3 index ",
            ..SHELL
        },
        ShellPart::Middle,
    ),
    (
        Shell {
            def: b"|-",
            ..SHELL
        },
        ShellPart::GlyphsWords,
    ),
    (
        Shell {
            tail: b"\nmark currentfile closefile",
            ..SHELL
        },
        ShellPart::Tail,
    ),
    (
        Shell {
            middle: b"3 index ",
            tail: b"\nmark currentfile closefile",
            ..SHELL
        },
        ShellPart::Middle,
    ),
];

/// Whether the shells of two fonts differ in this part.
fn differs(alloc: Global, left: &[u8], right: &[u8], part: ShellPart) -> bool {
    match conflict(alloc, left, right) {
        Some(Conflict::Shell { part: told }) => told == part,
        Some(other) => {
            drop(other);
            false
        }
        None => false,
    }
}

/// Whether a font's shell differs from this one in this part.
fn shell_differs(
    alloc: Global,
    file: &[u8],
    shell: &Shell,
    part: ShellPart,
) -> Result<bool, AllocError> {
    let other = with_shell(alloc, shell)?;
    Ok(differs(alloc, file, other.as_slice(), part))
}

/// The first part of the shells above that isn't told.
fn first_untold(alloc: Global, file: &[u8]) -> Result<Option<ShellPart>, AllocError> {
    for &(ref shell, part) in CHANGED {
        if !shell_differs(alloc, file, shell, part)? {
            return Ok(Some(part));
        }
    }
    Ok(None)
}

#[test]
fn shells_that_differ(rt: HostRuntime) -> Result<(), Fail> {
    let one = whole(rt.alloc())?;
    assert!(rt; first_untold(rt.alloc(), one.as_slice())?.is_none());
    Ok(())
}

#[test]
fn an_index_that_one_font_lacks(rt: HostRuntime) -> Result<(), Fail> {
    let one = whole(rt.alloc())?;
    let few = font(rt.alloc(), &SHELL, &SUBRS[..9], GLYPHS)?;
    let table = ShellPart::SubrsTable;
    assert!(rt; differs(rt.alloc(), one.as_slice(), few.as_slice(), table));
    Ok(())
}

/// The file of the font above with this as its Encoding.
fn encoded(alloc: Global, encoding: &'static [u8]) -> Result<Vec<u8>, AllocError> {
    with_shell(alloc, &Shell { encoding, ..SHELL })
}

#[test]
fn two_words_of_encodings(rt: HostRuntime) -> Result<(), Fail> {
    let one = encoded(rt.alloc(), b"/Encoding One def")?;
    let other = encoded(rt.alloc(), b"/Encoding Two def")?;
    let part = ShellPart::Encoding;
    assert!(rt; differs(rt.alloc(), one.as_slice(), other.as_slice(), part));
    Ok(())
}

/// Whether two fonts differ in the name of this code.
fn code_differs(alloc: Global, left: &[u8], right: &[u8], want: u8) -> bool {
    match conflict(alloc, left, right) {
        Some(Conflict::Code { code }) => code == want,
        Some(other) => {
            drop(other);
            false
        }
        None => false,
    }
}

/// Whether two fonts differ in the glyph of this name.
pub fn glyph_differs(alloc: Global, left: &[u8], right: &[u8], want: &[u8]) -> bool {
    match conflict(alloc, left, right) {
        Some(Conflict::Glyph { name }) => name.as_slice() == want,
        Some(other) => {
            drop(other);
            false
        }
        None => false,
    }
}

/// Whether two fonts differ in the Subr of this index, which this glyph or no glyph executes.
pub fn subr_differs(
    alloc: Global,
    left: &[u8],
    right: &[u8],
    want: u16,
    user: Option<&[u8]>,
) -> bool {
    match conflict(alloc, left, right) {
        Some(Conflict::Subr { index, glyph }) => {
            index == want && glyph.as_ref().map(|name| name.as_slice()) == user
        }
        Some(other) => {
            drop(other);
            false
        }
        None => false,
    }
}

#[test]
fn codes_that_differ(rt: HostRuntime) -> Result<(), Fail> {
    let one = whole(rt.alloc())?;
    let codes = b"/Encoding 256 array dup 65 /X put dup 66 /A put dup 67 /A put def";
    let other = encoded(rt.alloc(), codes)?;
    assert!(rt; code_differs(rt.alloc(), one.as_slice(), other.as_slice(), 66));
    Ok(())
}

/// The file of the font above with another A and another B.
pub fn with_a_and_b(alloc: Global) -> Result<Vec<u8>, AllocError> {
    let a = replaced(alloc, GLYPHS, 1, (b"A", b"\x0e"))?;
    let both = replaced(alloc, a.as_slice(), 3, (b"B", b"\x0e"))?;
    font(alloc, &SHELL, SUBRS, both.as_slice())
}

#[test]
fn glyphs_that_differ(rt: HostRuntime) -> Result<(), Fail> {
    let one = whole(rt.alloc())?;
    let other = with_a_and_b(rt.alloc())?;
    assert!(rt; glyph_differs(rt.alloc(), one.as_slice(), other.as_slice(), b"A"));
    Ok(())
}

#[test]
fn a_subr_that_no_glyph_executes(rt: HostRuntime) -> Result<(), Fail> {
    let one = whole(rt.alloc())?;
    let other = with_subr(rt.alloc(), 8, (b"8", b"\x0e"))?;
    assert!(rt; subr_differs(rt.alloc(), one.as_slice(), other.as_slice(), 8, None));
    Ok(())
}

/// Whether a glyph of one of two fonts lacks a component.
pub fn lacks_component(alloc: Global, left: &[u8], right: &[u8], of: &[u8], want: &[u8]) -> bool {
    match conflict(alloc, left, right) {
        Some(Conflict::Part { glyph, part }) => glyph.as_slice() == of && part.as_slice() == want,
        Some(other) => {
            drop(other);
            false
        }
        None => false,
    }
}

/// The sources of files.
fn sources(alloc: Global, files: &[&[u8]]) -> Result<Vec<Source>, AllocError> {
    let mut sources = Vec::new(alloc);
    for file in files {
        let Ok(source) = read(alloc, file) else {
            return Err(AllocError);
        };
        if sources.push(source).is_err() {
            return Err(AllocError);
        }
    }
    Ok(sources)
}

/// The fonts that sources lend.
fn fonts<'a>(alloc: Global, sources: &'a [Source]) -> Result<Vec<Font<'a>>, AllocError> {
    let mut fonts = Vec::new(alloc);
    for source in sources {
        if fonts.push(source.font(alloc)?).is_err() {
            return Err(AllocError);
        }
    }
    Ok(fonts)
}

/// The canonical PFB of what fonts come to, merged from left to right, or why they don't merge.
fn written_merger(alloc: Global, fonts: &[Font<'_>]) -> Result<Vec<u8>, Conflict> {
    let merged = merge_all(alloc, fonts)?;
    write(alloc, &merged, Form::Pfb).map_err(|_| Conflict::Memory)
}

/// The canonical PFB of what the fonts of sources come to, merged from left to right, or why they don't merge.
fn lent_merger(alloc: Global, sources: &[Source]) -> Result<Vec<u8>, Conflict> {
    match fonts(alloc, sources) {
        Ok(fonts) => written_merger(alloc, fonts.as_slice()),
        Err(_) => Err(Conflict::Memory),
    }
}

/// The canonical PFB of what the fonts of files come to, merged from left to right, or why they don't merge.
pub fn all_merged(alloc: Global, files: &[&[u8]]) -> Result<Vec<u8>, Conflict> {
    match sources(alloc, files) {
        Ok(sources) => lent_merger(alloc, sources.as_slice()),
        Err(_) => Err(Conflict::Memory),
    }
}

/// The subsets of a file's font over each of these sets of names.
fn cuts(alloc: Global, file: &[u8], sets: &[&[&[u8]]]) -> Result<Vec<Vec<u8>>, AllocError> {
    let mut files = Vec::new(alloc);
    for names in sets {
        match files.push(cut(alloc, file, names)) {
            Ok(_) => {}
            Err(_) => return Err(AllocError),
        }
    }
    Ok(files)
}

/// Lists of sets of names, and the names of all of them.
const LISTS: &[(&[&[&[u8]]], &[&[u8]])] = &[
    (&[&[b"X"]], &[b"X"]),
    (&[&[b"X"], &[b"Y"]], &[b"X", b"Y"]),
    (&[&[], &[b"N"], &[b"H"], &[b"X"]], &[b"H", b"N", b"X"]),
    (&[&[b"A"], &[b"Aacute"], &[b"A"]], &[b"Aacute"]),
];

/// What files come to, merged from left to right, or nothing if they don't merge.
fn list_merged(alloc: Global, files: &[Vec<u8>]) -> Vec<u8> {
    match lent(alloc, files) {
        Ok(files) => all_merged(alloc, files.as_slice()).unwrap_or(Vec::new(alloc)),
        Err(_) => Vec::new(alloc),
    }
}

/// Whether the subsets of a file's font over each of these sets of names come to the subset over all of them.
fn cuts_merge(alloc: Global, file: &[u8], sets: &[&[&[u8]]], all: &[&[u8]]) -> bool {
    let want = cut(alloc, file, all);
    match cuts(alloc, file, sets) {
        Ok(files) => list_merged(alloc, files.as_slice()).as_slice() == want.as_slice(),
        Err(_) => false,
    }
}

// meets merge Ok at 2 fonts
#[test]
fn subsets_of_one_font(rt: HostRuntime) -> Result<(), Fail> {
    let file = whole(rt.alloc())?;
    for &(sets, all) in LISTS {
        let merge = cuts_merge(rt.alloc(), file.as_slice(), sets, all);
        assert!(rt; merge, "{} subsets", sets.len());
    }
    Ok(())
}

/// Whether files are refused from left to right for the glyph of this name.
fn last_glyph_differs(alloc: Global, files: &[&[u8]], want: &[u8]) -> bool {
    match all_merged(alloc, files) {
        Err(Conflict::Glyph { name }) => name.as_slice() == want,
        _ => false,
    }
}

// meets merge_all Empty at 0 fonts
#[test]
fn no_fonts(rt: HostRuntime) {
    let empty = all_merged(rt.alloc(), &[]).err();
    assert!(rt; empty == Some(Conflict::Empty));
}

/// Whether the subsets of a font over acute and over X and another font are refused for acute.
fn last_acute_differs(alloc: Global, file: &[u8], other: &[u8]) -> bool {
    let acute = cut(alloc, file, &[b"acute"]);
    let x = cut(alloc, file, &[b"X"]);
    last_glyph_differs(alloc, &[acute.as_slice(), x.as_slice(), other], b"acute")
}

#[test]
fn the_first_and_the_last_differ(rt: HostRuntime) -> Result<(), Fail> {
    let file = whole(rt.alloc())?;
    let other = with_glyph(rt.alloc(), 9, (b"acute", ACCENTED))?;
    assert!(rt; last_acute_differs(rt.alloc(), file.as_slice(), other.as_slice()));
    Ok(())
}
