//! Mergers of subsets of three fonts that differ: the font of the other tests, the same with a Subr 5 that is `return`, and
//! the same without the glyph acute.

use super::fonts::{GLYPHS, SHELL, SUBRS, cut, font, whole, with_subr, written};
use super::mergers::{all_merged, lacks_component, merged, subr_differs};
use std::alloc::{AllocError, Global};
use std::test::Fail;
use t1_font::{Font, Source, read};
use t1_run::{DrawFault, Drawing, draw};

/// The subset over X of the font whose Subr 5 is `return`.
fn x_of_another(alloc: Global) -> Result<Vec<u8>, AllocError> {
    let other = with_subr(alloc, 5, (b"5", b"\x0b"))?;
    Ok(cut(alloc, other.as_slice(), &[b"X"]))
}

/// The subset over Aacute of the font without acute.
fn aacute_alone(alloc: Global) -> Result<Vec<u8>, AllocError> {
    let other = font(alloc, &SHELL, SUBRS, &GLYPHS[..9])?;
    Ok(cut(alloc, other.as_slice(), &[b"Aacute"]))
}

/// The canonical PFB of the font of a source.
fn lent_canonical(alloc: Global, source: &Source) -> Vec<u8> {
    match source.font(alloc) {
        Ok(font) => {
            let file = written(alloc, &font);
            drop(font);
            file
        }
        Err(_) => Vec::new(alloc),
    }
}

/// The canonical PFB of a file's font.
fn canonical(alloc: Global, file: &[u8]) -> Vec<u8> {
    match read(alloc, file) {
        Ok(source) => {
            let file = lent_canonical(alloc, &source);
            drop(source);
            file
        }
        Err(_) => Vec::new(alloc),
    }
}

#[test]
fn a_font_with_itself(rt: HostRuntime) -> Result<(), Fail> {
    let file = whole(rt.alloc())?;
    let want = canonical(rt.alloc(), file.as_slice());
    let got = merged(rt.alloc(), file.as_slice(), file.as_slice());
    assert!(rt; !got.is_empty() && got.as_slice() == want.as_slice());
    Ok(())
}

/// Whether both orders of two files come to one font, whose subset over these names is this one.
fn comes_to(alloc: Global, left: &[u8], right: &[u8], names: &[&[u8]], want: &[u8]) -> bool {
    let one = merged(alloc, left, right);
    let other = merged(alloc, right, left);
    !one.is_empty()
        && one.as_slice() == other.as_slice()
        && cut(alloc, one.as_slice(), names).as_slice() == want
}

/// Whether the subset of a font over A and another subset over this name merge to a font whose subset over the name is
/// that other one again.
fn keeps(alloc: Global, file: &[u8], other: &[u8], name: &[u8]) -> bool {
    let a = cut(alloc, file, &[b"A"]);
    comes_to(alloc, a.as_slice(), other, &[name], other)
}

#[test]
fn a_stub_that_is_used(rt: HostRuntime) -> Result<(), Fail> {
    let file = whole(rt.alloc())?;
    let used = x_of_another(rt.alloc())?;
    assert!(rt; y_differs(rt.alloc(), file.as_slice(), used.as_slice()));
    assert!(rt; keeps(rt.alloc(), file.as_slice(), used.as_slice(), b"X"));
    Ok(())
}

/// The orders of three files.
const ORDERS: &[[usize; 3]] = &[
    [0, 1, 2],
    [0, 2, 1],
    [1, 0, 2],
    [1, 2, 0],
    [2, 0, 1],
    [2, 1, 0],
];

/// Whether files are refused at once, since X executes a Subr that differs.
fn are_refused(alloc: Global, files: &[&[u8]]) -> bool {
    match all_merged(alloc, files) {
        Ok(_) => false,
        Err(conflict) => {
            let told = conflict.to_string(alloc);
            drop(conflict);
            told.is_ok_and(|text| text.as_str() == "subr 5 differs, used by X")
        }
    }
}

/// Whether three files are refused in this order, at once and in both groupings.
fn three_are_refused(alloc: Global, one: &[u8], two: &[u8], three: &[u8]) -> bool {
    let front = merged(alloc, one, two);
    let back = merged(alloc, two, three);
    let from_left = merged(alloc, front.as_slice(), three);
    let from_right = merged(alloc, one, back.as_slice());
    are_refused(alloc, &[one, two, three]) && from_left.is_empty() && from_right.is_empty()
}

/// The first order in which three files are not refused.
fn first_accepted(alloc: Global, files: &[&[u8]; 3]) -> Option<[usize; 3]> {
    for &order in ORDERS {
        let [one, two, three] = order;
        if !three_are_refused(alloc, files[one], files[two], files[three]) {
            return Some(order);
        }
    }
    None
}

/// The first order in which these are not refused: the subsets of a font over A and over Y, and one with another Subr 5.
fn first_accepted_with(alloc: Global, file: &[u8], used: &[u8]) -> Option<[usize; 3]> {
    let y = cut(alloc, file, &[b"Y"]);
    let a = cut(alloc, file, &[b"A"]);
    first_accepted(alloc, &[a.as_slice(), used, y.as_slice()])
}

/// Whether the merger of the subset over A with the other font is refused beside the subset over Y, since X executes
/// Subr 5.
fn merger_differs(alloc: Global, file: &[u8], used: &[u8]) -> bool {
    let a = cut(alloc, file, &[b"A"]);
    let both = merged(alloc, a.as_slice(), used);
    y_differs(alloc, file, both.as_slice())
}

/// Whether a file is refused beside the subset over Y, since X executes Subr 5.
fn y_differs(alloc: Global, file: &[u8], used: &[u8]) -> bool {
    let y = cut(alloc, file, &[b"Y"]);
    subr_differs(alloc, y.as_slice(), used, 5, Some(b"X"))
}

#[test]
fn three_fonts_of_which_two_differ(rt: HostRuntime) -> Result<(), Fail> {
    let file = whole(rt.alloc())?;
    let used = x_of_another(rt.alloc())?;
    let accepted = first_accepted_with(rt.alloc(), file.as_slice(), used.as_slice());
    assert!(rt; accepted.is_none());
    assert!(rt; merger_differs(rt.alloc(), file.as_slice(), used.as_slice()));
    Ok(())
}

/// Whether the glyph of a font lacks a part.
fn lacks_part(alloc: Global, font: &Font<'_>, name: &[u8]) -> bool {
    match draw(alloc, font, name) {
        Ok(Drawing::Failed(fault)) => fault == DrawFault::MissingPart,
        Ok(other) => {
            drop(other);
            false
        }
        Err(_) => false,
    }
}

/// Whether the glyph of a source's font lacks a part.
fn lent_lacks_part(alloc: Global, source: &Source, name: &[u8]) -> bool {
    match source.font(alloc) {
        Ok(font) => {
            let lacks = lacks_part(alloc, &font, name);
            drop(font);
            lacks
        }
        Err(_) => false,
    }
}

/// Whether the glyph of a file's font lacks a part.
fn file_lacks_part(alloc: Global, file: &[u8], name: &[u8]) -> bool {
    match read(alloc, file) {
        Ok(source) => {
            let lacks = lent_lacks_part(alloc, &source, name);
            drop(source);
            lacks
        }
        Err(_) => false,
    }
}

/// Whether a file is refused beside the subset of a font over acute, since its Aacute lacks that component.
fn lacks_acute(alloc: Global, accented: &[u8], file: &[u8]) -> bool {
    let acute = cut(alloc, file, &[b"acute"]);
    lacks_component(alloc, accented, acute.as_slice(), b"Aacute", b"acute")
}

/// Whether the merger of a file with the subset of a font over A is refused, too, and its Aacute lacks a part.
fn merger_lacks_acute(alloc: Global, accented: &[u8], file: &[u8]) -> bool {
    let a = cut(alloc, file, &[b"A"]);
    let both = merged(alloc, accented, a.as_slice());
    file_lacks_part(alloc, both.as_slice(), b"Aacute") && lacks_acute(alloc, both.as_slice(), file)
}

#[test]
fn a_component_that_is_lacking(rt: HostRuntime) -> Result<(), Fail> {
    let file = whole(rt.alloc())?;
    let accented = aacute_alone(rt.alloc())?;
    assert!(rt; keeps(rt.alloc(), file.as_slice(), accented.as_slice(), b"Aacute"));
    assert!(rt; lacks_acute(rt.alloc(), accented.as_slice(), file.as_slice()));
    assert!(rt; merger_lacks_acute(rt.alloc(), accented.as_slice(), file.as_slice()));
    Ok(())
}
