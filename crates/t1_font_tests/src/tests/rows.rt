//! The font Tiny: its two files, and changed files.

use std::alloc::{AllocError, Global};
use std::test::Fail;
use t1_bytes::{CHARSTRING_KEY, EEXEC_KEY, EEXEC_LEAD, open, seal, split_eexec};
use t1_font::{Font, Form, ReadFault, read};
use t1_font_shared_tests::{counts, fault_of, file, is_written_as, joined, of_file, of_font, with};
use t1_run::Glyphs;
use t1_tiny::{PFA, PFB};

/// The private text of Tiny.
pub fn private(alloc: Global) -> Result<Vec<u8>, AllocError> {
    let Ok((_, cipher)) = split_eexec(alloc, PFA) else {
        return Err(AllocError);
    };
    Ok(open(cipher, EEXEC_KEY, EEXEC_LEAD))
}

/// Whether a file's font is written as Tiny's PFA.
fn is_tiny(alloc: Global, file: &[u8]) -> bool {
    is_written_as(alloc, file, Form::Pfa, PFA)
}

/// Tiny's PFA with its digits in upper case, and lines of them that end in CR.
fn in_upper_case(alloc: Global) -> Result<Vec<u8>, AllocError> {
    let mut upper = Vec::from_slice(alloc, PFA)?;
    for byte in &mut upper.as_mut_slice()[313..2357] {
        *byte = if *byte == b'\n' {
            b'\r'
        } else {
            byte.to_ascii_uppercase()
        };
    }
    Ok(upper)
}

/// Whether a file is one of Tiny's, by what it is written as, its glyphs and its weight.
fn is_whole_tiny(alloc: Global, file: &[u8]) -> bool {
    is_tiny(alloc, file)
        && is_written_as(alloc, file, Form::Pfb, PFB)
        && counts(alloc, file) == Ok((11, 4936))
}

#[test]
fn tiny_is_written_again(rt: HostRuntime) -> Result<(), Fail> {
    assert!(rt; is_whole_tiny(rt.alloc(), PFA), "the PFA in both forms");
    assert!(rt; is_whole_tiny(rt.alloc(), PFB), "the PFB in both forms");
    let cut: &[u8] = PFB;
    assert!(rt;
        is_tiny(rt.alloc(), &cut[..1333]),
        "a PFB that ends after its cipher"
    );
    let upper = in_upper_case(rt.alloc())?;
    assert!(rt;
        is_tiny(rt.alloc(), upper.as_slice()),
        "digits in upper case"
    );
    Ok(())
}

/// Tiny with another text in its private one.
fn with_private(alloc: Global, old: &[u8], new: &[u8]) -> Result<Vec<u8>, AllocError> {
    let text = private(alloc)?;
    let changed = with(alloc, text.as_slice(), old, new)?;
    file(alloc, &PFA[..313], changed.as_slice())
}

/// Why this font is refused, if it is.
fn private_fault(alloc: Global, old: &[u8], new: &[u8]) -> Option<ReadFault> {
    match with_private(alloc, old, new) {
        Ok(file) => fault_of(alloc, file.as_slice()),
        Err(_) => Some(ReadFault::Memory),
    }
}

#[test]
fn changed_private_texts(rt: HostRuntime) -> Result<(), Fail> {
    const ROWS: &[(&[u8], &[u8], Option<ReadFault>)] = &[
        (
            b"dup 0 15 RD ",
            b"dup 0 3 RD ",
            Some(ReadFault::BadSubrs { at: 269 }),
        ),
        (
            b"/.notdef 9 RD ",
            b"/.notdef 3 RD ",
            Some(ReadFault::BadGlyphs { at: 546 }),
        ),
        (
            b"/Subrs 10 array",
            b"/Subrs 9 array",
            Some(ReadFault::BadSubrs { at: 481 }),
        ),
        (b"/Subrs 10 array", b"/Subrs 65535 array", None),
        (
            b"/Subrs 10 array",
            b"/Subrs 65536 array",
            Some(ReadFault::Limit),
        ),
        (
            b"/Subrs 10 array",
            b"/lenIV -1 def\n/Subrs 10 array",
            Some(ReadFault::BadLenIV),
        ),
        (
            b"dup 9 7 RD ",
            b"dup 9 65535 RD ",
            Some(ReadFault::BadSubrs { at: 482 }),
        ),
        (
            b"2 index",
            b"/Subrs 0 array ND 2 index",
            Some(ReadFault::Hybrid),
        ),
        (b"/.notdef 9", b"/.notdeg 9", Some(ReadFault::NoNotdef)),
        (b"closefile", b"closefil", Some(ReadFault::NoClosefile)),
    ];
    for &(old, new, want) in ROWS {
        assert!(rt;
            private_fault(rt.alloc(), old, new) == want,
            "{}",
            new.len()
        );
    }
    let counted = with_private(rt.alloc(), b"/CharStrings 11 dict", b"/CharStrings 3 dict")?;
    assert!(rt;
        is_tiny(rt.alloc(), counted.as_slice()),
        "another size of the dictionary"
    );
    Ok(())
}

#[test]
fn changed_clear_texts(rt: HostRuntime) -> Result<(), Fail> {
    let code = with(rt.alloc(), PFA, b"dup 65 /X put", b"dup 256 /X put")?;
    assert!(rt;
        read(rt.alloc(), code.as_slice()).err() == Some(ReadFault::BadEncoding { at: 195 }),
        "code 256"
    );
    let octal = with(rt.alloc(), PFA, b"dup 65 /X put", b"dup 8#101 /X put")?;
    assert!(rt; is_tiny(rt.alloc(), octal.as_slice()), "octal 101");
    Ok(())
}

/// Whether a file's font has a glyph with these bytes.
fn has_glyph(alloc: Global, file: &[u8], name: &[u8], plain: &[u8]) -> bool {
    of_file(alloc, file, |font| Ok(font.glyph(name) == Some(plain))) == Ok(true)
}

/// The bytes of Tiny's glyph Y.
const Y: &[u8] = &[
    0x8B, 0xF8, 0x88, 0x0D, 0x8B, 0x16, 0x90, 0x0A, 0x91, 0x0A, 0x09, 0x0E,
];

/// Tiny with these entries behind its glyphs.
fn with_entries(alloc: Global, entries: &[u8]) -> Result<Vec<u8>, AllocError> {
    let ends = b"end\nend\nreadonly put";
    let entries = joined(alloc, &[entries, ends])?;
    with_private(alloc, ends, entries.as_slice())
}

/// Tiny with a glyph of each of these names behind its own, with the bytes of Y.
fn with_names(alloc: Global, names: &[&[u8]]) -> Result<Vec<u8>, AllocError> {
    let Ok(body) = seal(alloc, Y, CHARSTRING_KEY, 4) else {
        return Err(AllocError);
    };
    let mut entries = Vec::new(alloc);
    for name in names {
        let entry = joined(alloc, &[b"/", name, b" 16 RD ", body.as_slice(), b" ND\n"])?;
        entries.extend_from_slice(entry.as_slice())?;
    }
    with_entries(alloc, entries.as_slice())
}

#[test]
fn a_second_glyph_of_a_name(rt: HostRuntime) -> Result<(), Fail> {
    let file = with_names(rt.alloc(), &[b"X"])?;
    assert!(rt; counts(rt.alloc(), file.as_slice()) == Ok((11, 4933)));
    let has = has_glyph(rt.alloc(), file.as_slice(), b"X", Y);
    assert!(rt; has, "X has the bytes of Y");
    Ok(())
}

/// The names of a font's glyphs that begin with `alike`, in their order, a name a line.
fn names_alike(alloc: Global, font: &Font<'_>) -> Result<Vec<u8>, AllocError> {
    let mut text = Vec::new(alloc);
    for name in font.names() {
        if name.starts_with(b"alike") {
            text.extend_from_slice(name)?;
            text.push(b'\n')?;
        }
    }
    Ok(text)
}

/// Whether Tiny with glyphs of these names has those that begin so in this order.
fn have_order(alloc: Global, names: &[&[u8]], wanted: &[u8]) -> Result<bool, AllocError> {
    let file = with_names(alloc, names)?;
    of_font(
        alloc,
        file.as_slice(),
        |font| Ok(names_alike(alloc, font)?.as_slice() == wanted),
    )
}

#[test]
fn names_that_begin_alike(rt: HostRuntime) {
    const ROWS: &[(&[&[u8]], &[u8])] = &[
        (&[b"alike2", b"alike1"], b"alike1\nalike2\n"),
        (
            &[b"alikeness3", b"alikeness1", b"alikeness2"],
            b"alikeness1\nalikeness2\nalikeness3\n",
        ),
        (
            &[b"alikeness2", b"alikeness1", b"alikeness2"],
            b"alikeness1\nalikeness2\n",
        ),
        (
            &[b"alikeness", b"alikenes", b"alikeness.b", b"alikeness.a"],
            b"alikenes\nalikeness\nalikeness.a\nalikeness.b\n",
        ),
        (
            &[b"alikenessalikeness2", b"alikenessalikeness1"],
            b"alikenessalikeness1\nalikenessalikeness2\n",
        ),
        (
            &[
                b"alikenessalikeness",
                b"alikenessalikeness",
                b"alikenessalikenes",
            ],
            b"alikenessalikenes\nalikenessalikeness\n",
        ),
    ];
    for &(names, wanted) in ROWS {
        assert!(rt; have_order(rt.alloc(), names, wanted) == Ok(true));
    }
}
