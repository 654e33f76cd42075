//! Encodings that are literal arrays.

use bstr::ByteSlice;
use std::alloc::{AllocError, Global};
use std::test::Fail;
use t1_font::{Form, ReadFault, read};
use t1_font_shared_tests::{is_written_as, joined, rewritten};
use t1_tiny::PFA;

/// Tiny's PFA with this text behind its `/Encoding`.
pub(super) fn encoded(alloc: Global, encoding: &[u8]) -> Result<Vec<u8>, AllocError> {
    let tiny: &[u8] = PFA;
    match tiny.find(b"readonly def") {
        Some(end) => joined(alloc, &[&tiny[..144], encoding, &tiny[end + 12..]]),
        None => Err(AllocError),
    }
}

/// So many times `.notdef` without blanks, between two texts.
fn unnamed(alloc: Global, open: &[u8], count: usize, close: &[u8]) -> Result<Vec<u8>, AllocError> {
    let mut text = Vec::from_slice(alloc, open)?;
    for _ in 0..count {
        text.extend_from_slice(b"/.notdef")?;
    }
    text.extend_from_slice(close)?;
    Ok(text)
}

/// Why Tiny with such an array is refused, if it is.
fn refusal(alloc: Global, open: &[u8], count: usize, close: &[u8]) -> Option<ReadFault> {
    let Ok(text) = unnamed(alloc, open, count, close) else {
        return Some(ReadFault::Memory);
    };
    match encoded(alloc, text.as_slice()) {
        Ok(file) => read(alloc, file.as_slice()).err(),
        Err(_) => Some(ReadFault::Memory),
    }
}

#[test]
fn arrays_of_no_names(rt: HostRuntime) {
    const ROWS: &[(&[u8], usize, &[u8], Option<usize>, &str)] = &[
        (b" [", 255, b"] def", Some(2186), "255 names"),
        (b" [", 256, b"] def", None, "256 names"),
        (b" [", 257, b"] def", Some(2194), "257 names"),
        (b"[", 256, b"]def", None, "no white space"),
        (
            b" [ ",
            256,
            b" ]readonly def",
            None,
            "white space on the inside",
        ),
        (
            b" [",
            256,
            b"] readonly readonly def",
            Some(2194),
            "readonly twice",
        ),
        (b" [", 256, b"] readonly", Some(2194), "no def"),
        (b" [", 256, b"] put", Some(2194), "another word for def"),
        (
            b" [",
            256,
            b" defx",
            Some(2195),
            "no bracket, and another word",
        ),
        (b" [ X", 256, b"] def", Some(147), "a word among the names"),
        (b" [/", 255, b"] def", Some(146), "an empty name"),
        (b" [(", 256, b"] def", Some(146), "a string among the names"),
        (b" {", 256, b"} def", Some(135), "a procedure"),
        (
            b" 256[",
            256,
            b"] def",
            Some(135),
            "a number before the bracket",
        ),
    ];
    for &(open, count, close, offset, name) in ROWS {
        let want = match offset {
            Some(at) => Some(ReadFault::BadEncoding { at }),
            None => None,
        };
        assert!(rt; refusal(rt.alloc(), open, count, close) == want, "{name}");
    }
}

/// Tiny with the array of the names that its codes have, and of these bytes for that of code 255.
fn tiny_by_array(alloc: Global, last: &[u8]) -> Result<Vec<u8>, AllocError> {
    let mut text = Vec::from_slice(alloc, b" [")?;
    for code in 0..255u32 {
        let name: &[u8] = match code {
            65 => b"/X ",
            66 => b"/Y\n",
            194 => b"/H",
            _ => b"/.notdef",
        };
        text.extend_from_slice(name)?;
    }
    text.extend_from_slice(last)?;
    text.extend_from_slice(b"] readonly def")?;
    encoded(alloc, text.as_slice())
}

/// Whether a file's font is written as a PFA that has this text.
fn is_written_with(alloc: Global, file: &[u8], text: &[u8]) -> bool {
    match rewritten(alloc, file, Form::Pfa) {
        Ok(written) => written.as_slice().find(text).is_some(),
        Err(_) => false,
    }
}

#[test]
fn tiny_by_an_array(rt: HostRuntime) -> Result<(), Fail> {
    let file = tiny_by_array(rt.alloc(), b"/.notdef")?;
    assert!(rt; is_written_as(rt.alloc(), file.as_slice(), Form::Pfa, PFA));
    Ok(())
}

#[test]
fn the_last_name_of_an_array(rt: HostRuntime) -> Result<(), Fail> {
    let file = tiny_by_array(rt.alloc(), b"/Z")?;
    let text = b"dup 194 /H put\ndup 255 /Z put\nreadonly def";
    assert!(rt; is_written_with(rt.alloc(), file.as_slice(), text));
    Ok(())
}

#[test]
fn an_array_of_no_names_is_a_table(rt: HostRuntime) -> Result<(), Fail> {
    let text = unnamed(rt.alloc(), b" [", 256, b"] def")?;
    let file = encoded(rt.alloc(), text.as_slice())?;
    let text = b"/Encoding 256 array\n0 1 255 {1 index exch /.notdef put} for\nreadonly def";
    assert!(rt; is_written_with(rt.alloc(), file.as_slice(), text));
    Ok(())
}

/// Why Tiny is refused with an array whose first name has this many bytes, if it is.
fn refusal_of_long_name(alloc: Global, length: usize) -> Result<Option<ReadFault>, AllocError> {
    let mut open = Vec::from_slice(alloc, b" [/")?;
    open.resize(length.saturating_add(3), b'x')?;
    Ok(refusal(alloc, open.as_slice(), 255, b"] def"))
}

#[test]
fn names_of_arrays_at_their_limits(rt: HostRuntime) -> Result<(), Fail> {
    const ROWS: &[(usize, Option<ReadFault>)] = &[
        (127, None),
        (128, Some(ReadFault::BadEncoding { at: 146 })),
    ];
    for &(length, want) in ROWS {
        let got = refusal_of_long_name(rt.alloc(), length)?;
        assert!(rt; got == want, "a name of {length} bytes");
    }
    Ok(())
}
