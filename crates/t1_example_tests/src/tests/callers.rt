//! The callers of single crates, over a font of one glyph beside `.notdef` and of many.

use super::{file_of, names_in};
use std::alloc::{AllocError, Global};
use std::test::Fail;
use t1_example::{
    both_files, joined_text, respelled, sealed_and_opened, space, subset_file, width, with_font,
};
use t1_font::{Form, ReadFault, read};
use t1_join::listing;

/// The clear text of each font.
const CLEAR: &[u8] = b"%!
/FontName /Font def
/Encoding StandardEncoding def
currentfile eexec ";

/// Lines of so many numbers, each between these texts.
fn lines(alloc: Global, count: u32, before: &[u8], behind: &[u8]) -> Result<Vec<u8>, AllocError> {
    let mut text = Vec::new(alloc);
    for number in 0..count {
        let number = number.to_string(alloc)?;
        text.extend_from_slice(before)?;
        text.extend_from_slice(number.as_bytes())?;
        text.extend_from_slice(behind)?;
    }
    Ok(text)
}

/// The private text of a font of so many glyphs beside `.notdef`, each 250 units wide.
fn private_of(alloc: Global, count: u32) -> Result<Vec<u8>, AllocError> {
    let start =
        b"/lenIV 0 def /CharStrings 1 dict dup begin\n/.notdef 5 RD \x9b\x23\xb0\xbb\x08 ND\n";
    let mut private = Vec::from_slice(alloc, start)?;
    let glyphs = lines(alloc, count, b"/g", b" 5 RD \x9b\x23\xb0\xbb\x08 ND\n")?;
    private.extend_from_slice(glyphs.as_slice())?;
    private.extend_from_slice(b"end closefile")?;
    Ok(private)
}

/// The file of such a font.
fn font_of(alloc: Global, count: u32) -> Result<Vec<u8>, AllocError> {
    let private = private_of(alloc, count)?;
    file_of(alloc, CLEAR, private.as_slice())
}

/// Whether a font's private text is what was sealed and opened.
fn opens(alloc: Global, count: u32) -> Result<bool, AllocError> {
    let private = private_of(alloc, count)?;
    match sealed_and_opened(alloc, private.as_slice()) {
        Ok(opened) => Ok(opened.as_slice() == private.as_slice()),
        Err(_) => Err(AllocError),
    }
}

/// Whether the charstring of a width has these bytes.
fn spells(alloc: Global, width: i32, want: &[u8]) -> Result<bool, AllocError> {
    match space(alloc, width) {
        Ok(charstring) => Ok(charstring.as_slice() == want),
        Err(_) => Err(AllocError),
    }
}

/// How wide a glyph of a file's font is.
fn width_in(alloc: Global, file: &[u8], name: &[u8]) -> Result<Option<i64>, AllocError> {
    let Ok(source) = read(alloc, file) else {
        return Err(AllocError);
    };
    let font = source.font(alloc)?;
    width(alloc, &font, name)
}

/// Whether two listings, the second of so many lines, come to the text of both.
fn lists(alloc: Global, count: u32) -> Result<bool, AllocError> {
    let text = lines(alloc, count, b"S ", b" 0b\n")?;
    let Ok(one) = listing::read(alloc, b"G A 0E\n") else {
        return Err(AllocError);
    };
    let Ok(other) = listing::read(alloc, text.as_slice()) else {
        return Err(AllocError);
    };
    match joined_text(alloc, &one, &other) {
        Ok(both) => Ok(both.starts_with(b"S 0 0b\n") && both.ends_with(b"\nG A 0e\n")),
        Err(_) => Err(AllocError),
    }
}

/// The canonical PFB of such a font.
fn canonical(alloc: Global, count: u32) -> Result<Vec<u8>, AllocError> {
    let file = font_of(alloc, count)?;
    match respelled(alloc, file.as_slice()) {
        Ok(canonical) => Ok(canonical),
        Err(_) => Err(AllocError),
    }
}

/// The names that the subset of `g0` of such a font has.
fn names_of_one(alloc: Global, count: u32) -> Result<Vec<u8>, AllocError> {
    let file = font_of(alloc, count)?;
    let Ok(source) = read(alloc, file.as_slice()) else {
        return Err(AllocError);
    };
    match subset_file(alloc, &source, &[b"g0"], Form::Pfb) {
        Ok(some) => names_in(alloc, some.as_slice()),
        Err(_) => Err(AllocError),
    }
}

/// The canonical PFA of such a font, which is what it and itself come to.
fn merged(alloc: Global, count: u32) -> Result<Vec<u8>, AllocError> {
    let file = canonical(alloc, count)?;
    match both_files(alloc, file.as_slice(), file.as_slice()) {
        Ok(both) => Ok(both),
        Err(_) => Err(AllocError),
    }
}

/// A document with so many places of this font.
fn document(alloc: Global, font: &[u8], count: u32) -> Result<Vec<u8>, AllocError> {
    let mut text = Vec::new(alloc);
    for _ in 0..count {
        text.extend_from_slice(b"%%BeginFont: Font\n")?;
        text.extend_from_slice(font)?;
        text.extend_from_slice(b"%%EndFont\n")?;
    }
    Ok(text)
}

/// Whether a document with so many places gets another font text at each.
fn replaces(alloc: Global, count: u32) -> Result<bool, AllocError> {
    let old = merged(alloc, 1)?;
    let new = merged(alloc, 2)?;
    let text = document(alloc, old.as_slice(), count)?;
    let want = document(alloc, new.as_slice(), count)?;
    let end = new.len().saturating_sub(1);
    let got = with_font(alloc, text.as_slice(), b"Font", &new[..end])?;
    Ok(got.as_slice() == want.as_slice())
}

/// Whether each caller answers right over a font of so many glyphs, and over as many lines.
fn called(alloc: Global, count: u32, places: u32) -> Result<bool, AllocError> {
    let file = font_of(alloc, count)?;
    let names = names_of_one(alloc, count)?;
    Ok(
        opens(alloc, count)?
            && spells(alloc, 250, b"\x8b\xf7\x8e\x0d\x0e")?
            && spells(alloc, 70_000, b"\x8b\xff\x00\x01\x11\x70\x0d\x0e")?
            && width_in(alloc, file.as_slice(), b"g0")? == Some(250 * 65_536)
            && width_in(alloc, file.as_slice(), b"A")? == None
            && lists(alloc, count)?
            && names.as_slice() == b".notdef g0 ".as_slice()
            && replaces(alloc, places)?,
    )
}

#[test]
fn callers(rt: HostRuntime) -> Result<(), Fail> {
    assert!(rt; called(rt.alloc(), 1, 1)?);
    assert!(rt; called(rt.alloc(), 3000, 100)?);
    let refused = respelled(rt.alloc(), b"%!");
    assert!(rt; matches!(refused, Err(ReadFault::NoEexec)));
    Ok(())
}

// `tools/sweep_growths.py` refuses one growth after the other: a call that then answers want of memory gives the right
// answer when it is made again.
#[test]
fn growths_of_callers(rt: HostRuntime) -> Result<(), Fail> {
    let right = match called(rt.alloc(), 1, 1) {
        Err(AllocError) => called(rt.alloc(), 1, 1)?,
        answer => answer?,
    };
    assert!(rt; right);
    Ok(())
}
