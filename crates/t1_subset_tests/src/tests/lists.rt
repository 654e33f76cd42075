//! Lists of two to forty fonts: what they come to, and each conflict with its text wherever the odd font stands.

use super::fonts::{
    ACCENTED, Entry, GLYPHS, SHELL, SUBRS, Shell, cut, font, lent, with_glyph, with_shell,
    with_subr,
};
use super::large::{many, names};
use super::mergers::{all_merged, conflict};
use std::alloc::{AllocError, Global};
use std::test::Fail;

/// What is odd in a font of a list.
#[derive(Clone, Copy)]
enum Odd {
    Head,
    Code,
    Glyph,
    Part,
    UsedSubr,
    Subr,
    LastSubr,
}

/// Each kind, and how a list with such a font is refused.
const ODD: &[(Odd, &str)] = &[
    (Odd::Head, "shells differ in head"),
    (Odd::Code, "code 66 differs"),
    (Odd::Glyph, "glyph acute differs"),
    (Odd::Part, "glyph Aacute lacks part acute"),
    (Odd::UsedSubr, "subr 5 differs, used by P"),
    (Odd::Subr, "subr 8 differs"),
    (Odd::LastSubr, "subr 65534 differs"),
];

/// The font of the other tests with a Subr of the greatest index, that has these bytes.
fn with_last(alloc: Global, plain: &'static [u8]) -> Result<Vec<u8>, AllocError> {
    let mut subrs: Vec<Entry> = Vec::new(alloc);
    for entry in SUBRS {
        subrs.push(*entry)?;
    }
    subrs.push((b"65534", plain))?;
    let shell = Shell {
        subrs: b"/Subrs 65535 array\n",
        ..SHELL
    };
    font(alloc, &shell, subrs.as_slice(), GLYPHS)
}

/// The fonts that stand beside the odd one.
fn normal_font(alloc: Global, kind: Odd) -> Result<Vec<u8>, AllocError> {
    match kind {
        Odd::LastSubr => with_last(alloc, b"\x0e"),
        _ => with_shell(alloc, &SHELL),
    }
}

/// The odd font.
fn odd_font(alloc: Global, kind: Odd) -> Result<Vec<u8>, AllocError> {
    const CODES: &[u8] = b"/Encoding 256 array dup 65 /X put dup 66 /A put def";
    match kind {
        Odd::Head => with_shell(
            alloc,
            &Shell {
                head: b"%!x\n",
                ..SHELL
            },
        ),
        Odd::Code => with_shell(
            alloc,
            &Shell {
                encoding: CODES,
                ..SHELL
            },
        ),
        Odd::Glyph => with_glyph(alloc, 9, (b"acute", ACCENTED)),
        Odd::Part => font(alloc, &SHELL, SUBRS, &GLYPHS[..9]),
        Odd::UsedSubr => with_subr(alloc, 5, (b"5", b"\xee\x06\x0b")),
        Odd::Subr => with_subr(alloc, 8, (b"8", b"\x0e")),
        Odd::LastSubr => with_last(alloc, b"\x0b\x0b"),
    }
}

/// Whether a list is refused with this text: so many normalized fonts, the odd one, and another normalized one.
fn is_refused(
    alloc: Global,
    normal: &[u8],
    odd: &[u8],
    before: usize,
    text: &str,
) -> Result<bool, AllocError> {
    let mut files = Vec::new(alloc);
    for _ in 0..before {
        files.push(normal)?;
    }
    files.push(odd)?;
    files.push(normal)?;
    match all_merged(alloc, files.as_slice()) {
        Ok(_) => Ok(false),
        Err(conflict) => {
            let told = conflict.to_string(alloc);
            drop(conflict);
            Ok(told?.as_str() == text)
        }
    }
}

/// Whether two fonts are refused with this text in either order.
fn two_are_refused(
    alloc: Global,
    normal: &[u8],
    odd: &[u8],
    text: &str,
) -> Result<bool, AllocError> {
    match conflict(alloc, normal, odd) {
        Some(conflict) => {
            let told = conflict.to_string(alloc);
            drop(conflict);
            Ok(told?.as_str() == text)
        }
        None => Ok(false),
    }
}

// meets merge Shell at 2 fonts
// meets merge Code at 2 fonts
// meets merge Glyph at 2 fonts
// meets merge Part at 2 fonts
// meets merge Subr at 2 fonts
// meets merge_all Shell at 3, 4, 5, 10, 34 fonts
// meets merge_all Code at 3, 4, 5, 10, 34 fonts
// meets merge_all Glyph at 3, 4, 5, 10, 34 fonts
// meets merge_all Part at 3, 4, 5, 10, 34 fonts
// meets merge_all Subr at 3, 4, 5, 10, 34 fonts
#[test]
fn an_odd_font_wherever_it_stands(rt: HostRuntime) -> Result<(), Fail> {
    for &(kind, text) in ODD {
        let normal = normal_font(rt.alloc(), kind)?;
        let odd = odd_font(rt.alloc(), kind)?;
        let refused = two_are_refused(rt.alloc(), normal.as_slice(), odd.as_slice(), text)?;
        assert!(rt; refused, "{text}, of two");
        for before in [1usize, 2, 3, 8, 32] {
            let refused = is_refused(rt.alloc(), normal.as_slice(), odd.as_slice(), before, text)?;
            assert!(rt; refused, "{text}, behind {before}");
        }
    }
    Ok(())
}

/// The subsets of a font over each of these names alone.
fn single_cuts(alloc: Global, file: &[u8], names: &[&[u8]]) -> Result<Vec<Vec<u8>>, AllocError> {
    let mut cuts = Vec::new(alloc);
    for name in names {
        match cuts.push(cut(alloc, file, &[*name])) {
            Ok(_) => {}
            Err(_) => return Err(AllocError),
        }
    }
    Ok(cuts)
}

/// Whether files come to this one.
fn come_to(alloc: Global, files: &[Vec<u8>], want: &[u8]) -> Result<bool, AllocError> {
    let lent = lent(alloc, files)?;
    let merged = all_merged(alloc, lent.as_slice()).unwrap_or(Vec::new(alloc));
    Ok(!merged.is_empty() && merged.as_slice() == want)
}

/// Whether the subsets of a font over each of so many glyphs come to the subset over all of them.
fn singles_merge(alloc: Global, count: u32) -> Result<bool, AllocError> {
    // Each is `0 0 hsbw 5 callsubr endchar`.
    let file = many(alloc, 0..count, b"\x8b\x8b\x0d\x90\x0a\x0e")?;
    let names = names(alloc, 0..count)?;
    let names = lent(alloc, names.as_slice())?;
    let cuts = single_cuts(alloc, file.as_slice(), names.as_slice())?;
    let want = cut(alloc, file.as_slice(), names.as_slice());
    come_to(alloc, cuts.as_slice(), want.as_slice())
}

// meets merge_all Ok at 1, 2, 3, 4, 5, 6, 7, 8, 9, 40, 300 fonts
#[test]
fn lists_of_subsets(rt: HostRuntime) -> Result<(), Fail> {
    for count in [1u32, 2, 3, 4, 5, 6, 7, 8, 9, 40, 300] {
        assert!(rt; singles_merge(rt.alloc(), count)?, "{count} fonts");
    }
    Ok(())
}
