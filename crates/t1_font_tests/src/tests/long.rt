//! Long names, long charstrings, weights at the limit, and 256 MiB of nothing.

use super::again::is_written_again;
use std::alloc::{AllocError, Global};
use t1_font::ReadFault;
use t1_font_shared_tests::{CLEAR, GLYPHS, behind, fault, fault_of, file, joined};

/// A clear text whose Encoding has a name of this many bytes.
fn named(alloc: Global, name: usize) -> Result<Vec<u8>, AllocError> {
    let mut text = Vec::from_slice(alloc, b"/Encoding 256 array dup 65/")?;
    text.resize(text.len().saturating_add(name), b'a')?;
    text.extend_from_slice(b" put def currentfile eexec ")?;
    Ok(text)
}

/// A private text with one glyph of this name and this many bytes, and `.notdef`.
fn glyph(alloc: Global, name: usize, length: usize) -> Result<Vec<u8>, AllocError> {
    let mut name_text = Vec::new(alloc);
    name_text.resize(name, b'a')?;
    let mut plain = Vec::new(alloc);
    plain.resize(length, 11)?;
    let digits = length.to_string(alloc)?;
    let texts: &[&[u8]] = &[
        b"/lenIV 0 def /CharStrings 2 dict dup begin /",
        name_text.as_slice(),
        b" ",
        digits.as_bytes(),
        b" RD ",
        plain.as_slice(),
        b" ND /.notdef 0 RD  ND end closefile",
    ];
    joined(alloc, texts)
}

/// Whether a private text with such a glyph has this fault, or is written again if it has none.
fn glyph_has(
    alloc: Global,
    name: usize,
    length: usize,
    want: Option<ReadFault>,
) -> Result<bool, AllocError> {
    let private = glyph(alloc, name, length)?;
    let file = file(alloc, CLEAR, private.as_slice())?;
    let written = is_written_again(alloc, file.as_slice());
    Ok(fault_of(alloc, file.as_slice()) == want && written == want.is_none())
}

// meets read Ok at 1, 127, 65535 bytes
// meets read BadGlyphs at 0, 128, 65536 bytes
// like read: read_vec, read_wide, read_wide_vec, mends
// meets write Ok at 1, 127, 65535 bytes
#[test]
fn long_names_and_charstrings(rt: HostRuntime) {
    const BAD: Option<ReadFault> = Some(ReadFault::BadGlyphs { at: 43 });
    const ROWS: &[(usize, usize, Option<ReadFault>, &str)] = &[
        (127, 0, None, "a name of 127 bytes"),
        (128, 0, BAD, "a name of 128 bytes"),
        (0, 0, BAD, "a name of no bytes"),
        (1, 65_535, None, "a charstring of 65,535 bytes"),
        (1, 65_536, BAD, "a charstring of 65,536 bytes"),
    ];
    for &(name, length, want, what) in ROWS {
        let right = glyph_has(rt.alloc(), name, length, want);
        assert!(rt; right == Ok(true), "{what}, and written");
    }
}

/// A private text of so many blanks and a Subr, with glyphs, and as many blanks before the last words.
fn blank(alloc: Global, blanks: usize) -> Result<Vec<u8>, AllocError> {
    let mut white = Vec::new(alloc);
    white.resize(blanks, b' ')?;
    let white = white.as_slice();
    let texts: &[&[u8]] = &[
        white,
        b"/lenIV 0 def /Subrs 1 array\ndup 0 1 RD \x0b NP\nND\n",
        b"/CharStrings 1 dict dup begin\n/.notdef 1 RD \x1b ND\nend\n",
        white,
        b"mark currentfile closefile\n",
    ];
    joined(alloc, texts)
}

/// Whether a file with such a private text is read, and written again.
fn blank_is_read(alloc: Global, blanks: usize) -> Result<bool, AllocError> {
    let private = blank(alloc, blanks)?;
    let file = file(alloc, CLEAR, private.as_slice())?;
    Ok(fault_of(alloc, file.as_slice()).is_none() && is_written_again(alloc, file.as_slice()))
}

// meets read Ok at 0, 100000 bytes
// like read: read_vec, read_wide, read_wide_vec, mends
#[test]
fn long_private_texts(rt: HostRuntime) {
    for &blanks in &[0, 100_000] {
        assert!(rt;
            blank_is_read(rt.alloc(), blanks) == Ok(true),
            "{blanks} blanks"
        );
    }
}

/// Why a font is refused whose Encoding has a name of this many bytes, if it is.
fn named_fault(alloc: Global, name: usize) -> Option<ReadFault> {
    match named(alloc, name) {
        Ok(clear) => fault(alloc, &[clear.as_slice()], &[b"/lenIV 0 def ", GLYPHS]),
        Err(_) => Some(ReadFault::Memory),
    }
}

// meets read Ok at 127 bytes
// meets read BadEncoding at 128 bytes
// like read: read_vec, read_wide, read_wide_vec, mends
#[test]
fn long_names_of_codes(rt: HostRuntime) {
    const ROWS: &[(usize, Option<ReadFault>)] = &[
        (127, None),
        (128, Some(ReadFault::BadEncoding { at: 20 })),
    ];
    for &(name, want) in ROWS {
        assert!(rt; named_fault(rt.alloc(), name) == want, "{name} bytes");
    }
}

/// Why a font with a head of so many blanks is refused, if it is.
fn headed_fault(alloc: Global, head: usize) -> Option<ReadFault> {
    let Ok(head) = behind(
        alloc,
        head,
        b"/Encoding StandardEncoding def\ncurrentfile eexec\n",
    ) else {
        return Some(ReadFault::Memory);
    };
    fault(alloc, &[head.as_slice()], &[b"/lenIV 0 def ", GLYPHS])
}

// meets read Ok at 67108549 bytes
// meets read Limit at 67108550 bytes
// like read: read_vec, read_wide, read_wide_vec, mends
#[test]
fn weights_at_the_limit(rt: HostRuntime) {
    // The clear tail has 18 bytes and the private texts 13 and 27; `.notdef` weighs 257.
    const ROWS: &[(usize, Option<ReadFault>)] = &[
        (67_108_549, None),
        (67_108_550, Some(ReadFault::Limit)),
    ];
    for &(head, want) in ROWS {
        assert!(rt;
            headed_fault(rt.alloc(), head) == want,
            "a head of {head} bytes"
        );
    }
}

/// Why a file of zeros, but for its first byte, is refused, if it is.
fn zeros_fault(alloc: Global, length: usize, first: u8) -> Option<ReadFault> {
    let mut zeros = Vec::new(alloc);
    let room = zeros.resize(length, 0);
    match zeros.as_mut_slice() {
        [byte, ..] if room.is_ok() => *byte = first,
        _ => return Some(ReadFault::Memory),
    }
    fault_of(alloc, zeros.as_slice())
}

// meets read NoEexec at 268435456 bytes
// meets read BadSegment at 268435456 bytes
// meets read TooLong at 268435457 bytes
// like read: read_vec, read_wide, read_wide_vec, mends
#[test]
fn nothing_at_the_limit(rt: HostRuntime) {
    const ROWS: &[(usize, u8, ReadFault, &str)] = &[
        (268_435_456, 0, ReadFault::NoEexec, "256 MiB"),
        (
            268_435_456,
            128,
            ReadFault::BadSegment { at: 0 },
            "256 MiB that begin with 128",
        ),
        (268_435_457, 128, ReadFault::TooLong, "a byte more"),
    ];
    for &(length, first, want, what) in ROWS {
        assert!(rt;
            zeros_fault(rt.alloc(), length, first) == Some(want),
            "{what}"
        );
    }
}
