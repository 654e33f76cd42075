//! Each fault of reading with its place, near the front and far behind it, and of two that apply the first.

use std::alloc::{AllocError, Global};
use t1_font::ReadFault;
use t1_font_shared_tests::{CLEAR, behind, fault, fault_of};

/// A first segment of so many blanks that declares this length, and what stands behind it.
fn segment(
    alloc: Global,
    declared: u32,
    blanks: usize,
    rest: &[u8],
) -> Result<Vec<u8>, AllocError> {
    let mut file = Vec::from_slice(alloc, b"\x80\x01")?;
    file.extend_from_slice(&declared.to_le_bytes())?;
    file.resize(file.len().saturating_add(blanks), b' ')?;
    file.extend_from_slice(rest)?;
    Ok(file)
}

/// Why such a file spells no font.
fn segment_fault(alloc: Global, declared: u32, blanks: usize, rest: &[u8]) -> Option<ReadFault> {
    match segment(alloc, declared, blanks, rest) {
        Ok(file) => fault_of(alloc, file.as_slice()),
        Err(_) => Some(ReadFault::Memory),
    }
}

// meets read BadSegment at 2, 100000, 1000000 bytes
// like read: read_vec, read_wide, read_wide_vec, mends
#[test]
fn faults_of_segments(rt: HostRuntime) {
    const ROWS: &[(u32, usize, &[u8], usize, &str)] = &[
        (3, 2, b"", 0, "data cut off"),
        (100_001, 100_000, b"", 0, "data cut off"),
        (2, 2, b"\x80\x04", 8, "another type, and no eexec"),
        (
            100_000,
            100_000,
            b"\x80\x04",
            100_006,
            "another type, and no eexec",
        ),
        (
            1_000_000,
            1_000_000,
            b"\x80\x02\x01\0\0\0",
            1_000_006,
            "no data, and no eexec",
        ),
    ];
    for &(declared, blanks, rest, at, name) in ROWS {
        let fault = segment_fault(rt.alloc(), declared, blanks, rest);
        assert!(rt; fault == Some(ReadFault::BadSegment { at }), "{name}");
    }
}

/// How many blanks stand before a text.
const BEFORE: &[usize] = &[0, 100_000];

/// The fault of a text behind so many blanks.
fn moved(fault: ReadFault, blanks: usize) -> ReadFault {
    match fault {
        ReadFault::BadEncoding { at } => ReadFault::BadEncoding {
            at: at.saturating_add(blanks),
        },
        ReadFault::BadSubrs { at } => ReadFault::BadSubrs {
            at: at.saturating_add(blanks),
        },
        ReadFault::BadGlyphs { at } => ReadFault::BadGlyphs {
            at: at.saturating_add(blanks),
        },
        other => other,
    }
}

/// Why a file of so many blanks and a text spells no font.
fn fault_behind(alloc: Global, blanks: usize, text: &[u8]) -> Option<ReadFault> {
    match behind(alloc, blanks, text) {
        Ok(file) => fault_of(alloc, file.as_slice()),
        Err(_) => Some(ReadFault::Memory),
    }
}

/// Why the file of a private text behind so many blanks spells no font.
fn private_fault_behind(alloc: Global, blanks: usize, text: &[u8]) -> Option<ReadFault> {
    match behind(alloc, blanks, text) {
        Ok(private) => fault(alloc, &[CLEAR], &[private.as_slice()]),
        Err(_) => Some(ReadFault::Memory),
    }
}

// meets read NoEexec at 0, 100000 bytes
// meets read ShortCipher at 0, 100000 bytes
// meets read NoEncoding at 0, 100000 bytes
// meets read BadEncoding at 0, 100000 bytes
// like read: read_vec, read_wide, read_wide_vec, mends
#[test]
fn faults_of_clear_texts(rt: HostRuntime) {
    const ROWS: &[(&[u8], ReadFault, &str)] = &[
        (b"", ReadFault::NoEexec, "nothing"),
        (
            b"currentfile eexec \x81\x82\x83",
            ReadFault::ShortCipher,
            "three bytes, and no Encoding",
        ),
        (
            b"currentfile eexec \x81\x82\x83\x84",
            ReadFault::NoEncoding,
            "no Encoding, and no CharStrings",
        ),
        (
            b"/Encoding def currentfile eexec \x81\x82\x83\x84",
            ReadFault::BadEncoding { at: 0 },
            "no form of an Encoding, and no CharStrings",
        ),
        (
            b"%!\n/Encoding 256 array dup 256/X put currentfile eexec \x81\x82\x83\x84",
            ReadFault::BadEncoding { at: 23 },
            "a code of 256",
        ),
        (
            b"/EncodingX /Encoding 256 array 0 1 254 currentfile eexec \x81\x82\x83\x84",
            ReadFault::BadEncoding { at: 31 },
            "a loop that doesn't read",
        ),
        (
            b"/Encoding 256 def currentfile eexec \x81\x82\x83\x84",
            ReadFault::NoCharStrings,
            "the word 256 is an Encoding",
        ),
    ];
    for &(text, want, name) in ROWS {
        for &blanks in BEFORE {
            let fault = fault_behind(rt.alloc(), blanks, text);
            assert!(rt;
                fault == Some(moved(want, blanks)),
                "{name}, behind {blanks} blanks"
            );
        }
    }
}

// meets read NoCharStrings at 0, 100000 bytes
// meets read BadLenIV at 0, 100000 bytes
// meets read BadSubrs at 0, 100000 bytes
// meets read BadGlyphs at 0, 100000 bytes
// meets read Hybrid at 0, 100000 bytes
// meets read NoClosefile at 0, 100000 bytes
// meets read NoNotdef at 0, 100000 bytes
// meets read Limit at 0, 100000 bytes
// like read: read_vec, read_wide, read_wide_vec, mends
#[test]
fn faults_of_private_texts(rt: HostRuntime) {
    const ROWS: &[(&[u8], ReadFault, &str)] = &[
        (
            b"/lenIV -1 def",
            ReadFault::NoCharStrings,
            "no CharStrings, and a bad lenIV",
        ),
        (
            b"/lenIV -1 def /Subrs 1 array dup /CharStrings 1 dict dup begin ",
            ReadFault::BadLenIV,
            "a bad lenIV, and bad Subrs",
        ),
        (
            b"/lenIV 0 def /Subrs 1 array dup /CharStrings 1 dict dup begin ",
            ReadFault::BadSubrs { at: 28 },
            "an entry without an index, and bad CharStrings",
        ),
        (
            b"/Subrs 0 array ND /CharStrings 1 dict dup begin /.notdef ",
            ReadFault::BadGlyphs { at: 48 },
            "a glyph without a length, and no closefile",
        ),
        (
            b"/Subrs 1 array ND /Subrs 0 array ND /CharStrings 1 dict dup begin /.notdef ",
            ReadFault::BadGlyphs { at: 66 },
            "bad CharStrings, and a second table of Subrs",
        ),
        (
            b"/lenIV 0 def /Subrs 1 array dup 0 29 RD /CharStrings 1 dict dup begin NP ND X",
            ReadFault::BadGlyphs { at: 75 },
            "a CharStrings marker inside the bytes of a Subr alone",
        ),
        (
            b"/CharStrings 0 dict dup begin end /Subrs 0 array ",
            ReadFault::Hybrid,
            "Subrs after CharStrings, and no closefile",
        ),
        (
            b"/Subrs 0 array ND /Subrs 0 array ND /CharStrings 0 dict dup begin end closefile",
            ReadFault::Hybrid,
            "two tables of Subrs, and no .notdef",
        ),
        (
            b"/CharStrings 0 dict dup begin end close file",
            ReadFault::NoClosefile,
            "no closefile, and no .notdef",
        ),
        (
            b"/Subrs 65536 array ND /CharStrings 0 dict dup begin end closefile",
            ReadFault::NoNotdef,
            "no .notdef, and too many Subrs declared",
        ),
        (
            b"/lenIV 0 def /Subrs 65536 array ND /CharStrings 0 dict dup begin /.notdef 0 RD  ND end closefile",
            ReadFault::Limit,
            "65,536 Subrs declared",
        ),
        (
            b"/lenIV 0 def /Subrs 999999999 array ND /CharStrings 0 dict dup begin /.notdef 0 RD  ND end closefile",
            ReadFault::Limit,
            "999,999,999 Subrs declared",
        ),
        (
            b"/lenIV 256 def /CharStrings 0 dict dup begin end closefile",
            ReadFault::BadLenIV,
            "a lenIV of 256",
        ),
        (
            b"/lenIV % def /CharStrings 0 dict dup begin end closefile",
            ReadFault::BadLenIV,
            "no word after lenIV",
        ),
    ];
    for &(text, want, name) in ROWS {
        for &blanks in BEFORE {
            let fault = private_fault_behind(rt.alloc(), blanks, text);
            assert!(rt;
                fault == Some(moved(want, blanks)),
                "{name}, behind {blanks} blanks"
            );
        }
    }
}
