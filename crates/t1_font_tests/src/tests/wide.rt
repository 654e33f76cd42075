//! Files that other programs spell: what the wide readers take beside what the strict ones do, and what they refuse.

use super::arrays::encoded;
use std::alloc::{AllocError, Global};
use t1_font::{Form, ReadFault, read, read_wide, write};
use t1_font_shared_tests::{CLEAR, GLYPHS, file, file_of, is_written_as, joined, of_source};
use t1_tiny::PFA;

/// The canonical file of the font that a file spells widely.
fn mended(alloc: Global, file: &[u8]) -> Result<Vec<u8>, ReadFault> {
    of_source(
        alloc,
        read_wide(alloc, file),
        |font| write(alloc, font, Form::Pfa),
    )
}

/// Whether a file spells widely what another one spells, and is refused for this fault where it is read strictly.
fn is_mended_as(alloc: Global, file: &[u8], like: &[u8], fault: ReadFault) -> bool {
    match mended(alloc, file) {
        Ok(written) => {
            read(alloc, file).err() == Some(fault)
                && is_written_as(alloc, like, Form::Pfa, written.as_slice())
        }
        Err(_) => false,
    }
}

/// What opens the table of an Encoding; it begins at offset 144 of Tiny.
const OPEN: &[u8] = b" 256 array\n0 1 255 {1 index exch /.notdef put} for\n";

/// Tiny with codes that get their names by copies.
pub(super) fn with_copies(alloc: Global) -> Result<Vec<u8>, AllocError> {
    const COPIES: &[u8] = b"dup 1 /X put dup 2 /Y put dup dup 1 2 getinterval 65 exch putinterval \
        dup 1 /.notdef put dup dup 2 exch 3 get put dup 194 /H put % endarray\ndef";
    opened(alloc, COPIES)
}

/// Tiny with these entries in its Encoding.
fn opened(alloc: Global, entries: &[u8]) -> Result<Vec<u8>, AllocError> {
    let text = joined(alloc, &[OPEN, entries])?;
    encoded(alloc, text.as_slice())
}

/// Whether Tiny with these entries is mended as Tiny, and refused for its Encoding at this place where it is read strictly.
fn entries_are_mended(alloc: Global, entries: &[u8], at: usize) -> Result<bool, AllocError> {
    let file = opened(alloc, entries)?;
    Ok(is_mended_as(alloc, file.as_slice(), PFA, ReadFault::BadEncoding { at }))
}

#[test]
fn tables_of_codes(rt: HostRuntime) {
    const ROWS: &[(&[u8], usize, &str)] = &[
        (
            b"% one\ndup 65 /X put dup 66 /Y put dup 194 /H put readonly def",
            195,
            "a comment before the first entry",
        ),
        (
            b"dup 65 /X put%\rdup 66 /Y put dup 194 /H put readonly def",
            208,
            "an empty comment that CR ends",
        ),
        (
            b"dup 65 /X put dup 66 /Y put dup 194 /H put % endarray\x0creadonly def",
            238,
            "a comment before the close that FF ends",
        ),
        (
            b"dup 65 /X put dup %/Z put\n66 %\n%\n /Y put dup 194 /H put readonly def",
            209,
            "comments within an entry",
        ),
        (
            b"dup 65 /X put dup 66 /Y put dup 194 /H put readonly % def\n def",
            238,
            "a comment within the close",
        ),
        (
            b"dup 7 /X put dup 66 /Y put dup dup 65 exch 7 get put dup 7 /.notdef put dup 194 /H put def",
            222,
            "the copy of one code",
        ),
        (
            b"dup 1 /X put dup 2 /Y put dup dup 1 2 getinterval 65 exch putinterval dup 1 /.notdef put dup 2 /.notdef put dup 194 /H put def",
            221,
            "the copy of two codes",
        ),
        (
            b"dup 3 /Z put dup dup 3 exch 4 get put dup 65 /X put dup 66 /Y put dup 194 /H put def",
            208,
            "the copy of a code without a name",
        ),
        (
            b"dup 65 /X put dup 66 /Y put dup dup 65 2 getinterval 66 exch putinterval \
            dup dup 8#102 2 getinterval 65 exch putinterval dup 67 /.notdef put dup 194 /H put def",
            223,
            "copies over their own codes",
        ),
        (
            b"dup dup 256 0 getinterval 256 exch putinterval dup 65 /X put dup 66 /Y put dup 194 /H put def",
            195,
            "the copy of no codes",
        ),
        (
            b"dup 65 /X put dup 66 /Y put dup dup 0 256 getinterval 0 exch putinterval dup 194 /H put def",
            223,
            "the copy of all codes",
        ),
    ];
    for &(entries, at, name) in ROWS {
        assert!(rt;
            entries_are_mended(rt.alloc(), entries, at) == Ok(true),
            "{name}"
        );
    }
}

/// Whether Tiny with this Encoding is mended as with that one, and refused at this place where it is read strictly.
fn encoding_is_mended(
    alloc: Global,
    spelled: &[u8],
    like: &[u8],
    at: usize,
) -> Result<bool, AllocError> {
    let file = encoded(alloc, spelled)?;
    let plain = encoded(alloc, like)?;
    Ok(is_mended_as(
        alloc,
        file.as_slice(),
        plain.as_slice(),
        ReadFault::BadEncoding { at },
    ))
}

#[test]
fn other_forms_of_an_encoding(rt: HostRuntime) {
    const ROWS: &[(&[u8], &[u8], usize, &str)] = &[
        (
            b" StandardEncoding readonly def",
            b" StandardEncoding def",
            135,
            "a word, and readonly",
        ),
        (
            b"% a\n StandardEncoding%b\ndef",
            b" StandardEncoding def",
            135,
            "a word between comments",
        ),
        (
            b" %\n256 %\narray % 0\n0 %\n1 %\n255 %\n{%\n1 %\nindex %\nexch%\n/.notdef %\nput%\n}%\nfor def",
            b" 256 array def",
            135,
            "the loop, a comment between any two words",
        ),
    ];
    for &(spelled, like, at, name) in ROWS {
        assert!(rt;
            encoding_is_mended(rt.alloc(), spelled, like, at) == Ok(true),
            "{name}"
        );
    }
}

/// A private text with this table of Subrs.
fn with_subrs(alloc: Global, table: &[u8]) -> Result<Vec<u8>, AllocError> {
    file_of(
        alloc,
        &[CLEAR],
        &[b"/lenIV 0 def /Subrs 2 array ", table, GLYPHS],
    )
}

/// Whether such a font is mended as one without comments, and refused for its Subrs at this place where it is read strictly.
fn subrs_are_mended(alloc: Global, table: &[u8], at: usize) -> Result<bool, AllocError> {
    let file = with_subrs(alloc, table)?;
    let plain = with_subrs(alloc, b"dup 0 1 RD \x0b NP dup 1 1 RD \x0b NP ND ")?;
    Ok(is_mended_as(
        alloc,
        file.as_slice(),
        plain.as_slice(),
        ReadFault::BadSubrs { at },
    ))
}

#[test]
fn comments_among_subrs(rt: HostRuntime) {
    const ROWS: &[(&[u8], usize, &str)] = &[
        (
            b"% one\ndup 0 1 RD \x0b NP dup 1 1 RD \x0b NP ND ",
            28,
            "before the first entry",
        ),
        (
            b"dup 0 1 RD \x0b NP %\r\ndup 1 1 RD \x0b NP ND ",
            44,
            "before the second entry",
        ),
        (
            b"dup 0 1 RD \x0b NP dup 1 1 RD \x0b NP % endarray\x0cND ",
            60,
            "before the close",
        ),
    ];
    for &(table, at, name) in ROWS {
        assert!(rt;
            subrs_are_mended(rt.alloc(), table, at) == Ok(true),
            "{name}"
        );
    }
}

/// Why Tiny with these entries is refused where it is read widely, if it is.
fn fault_of_entries(alloc: Global, entries: &[u8]) -> Option<ReadFault> {
    match opened(alloc, entries) {
        Ok(file) => read_wide(alloc, file.as_slice()).err(),
        Err(_) => Some(ReadFault::Memory),
    }
}

#[test]
fn refused_widely(rt: HostRuntime) {
    const ROWS: &[(&[u8], usize, &str)] = &[
        (
            b"dup dup 250 7 getinterval 0 exch putinterval def",
            195,
            "a range over 255",
        ),
        (
            b"%\ndup dup 0 7 getinterval 250 exch putinterval def",
            197,
            "into a range over 255",
        ),
        (
            b"dup 65 /X put dup dup 256 exch 65 get put def",
            209,
            "into code 256",
        ),
        (
            b"dup dup 65 exch 256 get put def",
            195,
            "the copy of code 256",
        ),
        (
            b"dup dup 65 exch 66 getinterval put def",
            195,
            "half of either copy",
        ),
        (b"% dup 65 /X put def", 215, "a comment through the close"),
    ];
    for &(entries, at, name) in ROWS {
        let fault = fault_of_entries(rt.alloc(), entries);
        assert!(rt; fault == Some(ReadFault::BadEncoding { at }), "{name}");
    }
}

/// Why a font with this private text is refused where it is read widely, if it is.
fn fault_of_private(alloc: Global, private: &[u8]) -> Option<ReadFault> {
    match file(alloc, CLEAR, private) {
        Ok(file) => read_wide(alloc, file.as_slice()).err(),
        Err(_) => Some(ReadFault::Memory),
    }
}

#[test]
fn comments_elsewhere_are_refused(rt: HostRuntime) {
    const ROWS: &[(&[u8], ReadFault, &str)] = &[
        (
            b"/lenIV 0 def /Subrs 1 array dup %\n0 1 RD \x0b NP ND /CharStrings 1 dict dup begin /.notdef 1 RD \x1b ND end closefile ",
            ReadFault::BadSubrs { at: 28 },
            "within an entry of Subrs",
        ),
        (
            b"/lenIV 0 def /CharStrings 1 dict dup begin % no\n/.notdef 1 RD \x1b ND end closefile ",
            ReadFault::BadGlyphs { at: 43 },
            "before a glyph",
        ),
        (
            b"/lenIV 0 def /CharStrings 1 dict dup begin /.notdef 1 RD \x1b ND %\nend closefile ",
            ReadFault::BadGlyphs { at: 62 },
            "before the end of the glyphs",
        ),
    ];
    for &(private, want, name) in ROWS {
        assert!(rt;
            fault_of_private(rt.alloc(), private) == Some(want),
            "{name}"
        );
    }
}
