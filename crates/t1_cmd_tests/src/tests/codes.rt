//! Subsets by codes of the font's Encoding, and lists of codes.
use std::alloc::{AllocError, Global};
use t1_cmd::read_codes;
use t1_cmd_shared_tests::changed::tiny_encoded;
use t1_cmd_shared_tests::engines::{Engine, answer, answers};
use t1_font::Form;
use t1_tiny::{PFA, PFB};

/// Names and codes, and the names of the same subset of Tiny, whose Encoding has X at 65, Y at 66 and H at 194.
const SAME: &[(&[&[u8]], &[u8], &[&[u8]])] = &[
    (&[], b"", &[]),
    (&[], b"A", &[b"X"]),
    (&[b"X"], b"", &[b"X"]),
    (&[b"X"], b"BAB", &[b"X", b"Y"]),
    (&[b"Aacute"], b"\xc2", &[b"H", b"Aacute"]),
];

/// Whether the subset of names and codes is that of names, in this form.
fn is_same(alloc: Global, names: &[&[u8]], codes: &[u8], all: &[&[u8]], form: Form) -> bool {
    let want = answer(alloc, Engine::Subset(all, form), PFB);
    answers(
        alloc,
        Engine::Codes(names, codes, form),
        PFA,
        want.as_slice(),
    )
}

// meets run_subset_with_codes Ok at 0, 1, 2, 3 codes
// like run_subset_with_codes: subset_file_with_codes
#[test]
fn codes_stand_for_names(rt: HostRuntime) {
    for &(names, codes, all) in SAME {
        let same = is_same(rt.alloc(), names, codes, all, Form::Pfa)
            && is_same(rt.alloc(), names, codes, all, Form::Pfb);
        assert!(rt; same, "{}", codes.len());
    }
}

/// Names and codes that are refused of Tiny, and the line: codes without a name in their order, and then names, of which those of
/// codes come last.
const ABSENT: &[(&[&[u8]], &[u8], &[u8])] = &[
    (&[], b"A\xffC", b"refused: no code 255\n"),
    (&[b"Zed"], b"\x00", b"refused: no code 0\n"),
    (&[b"X", b"Zed"], b"A", b"refused: no glyph Zed\n"),
];

// meets run_subset_with_codes NoCode at 1, 3 codes
// meets run_subset_with_codes NoGlyph at 1 codes
// like run_subset_with_codes: subset_file_with_codes
#[test]
fn codes_that_are_absent(rt: HostRuntime) {
    for &(names, codes, want) in ABSENT {
        assert!(rt;
            answers(
                rt.alloc(),
                Engine::Codes(names, codes, Form::Pfa),
                PFA,
                want
            )
        );
    }
}

/// Another Encoding of Tiny, codes, and the beginning of what is answered. StandardEncoding has A at 65, acute at 194 and C at 67,
/// and no name at 128.
const ENCODED: &[(&[u8], &[u8], &[u8])] = &[
    (b"/Encoding StandardEncoding def", b"A\xc2", b"%!"),
    (
        b"/Encoding StandardEncoding def",
        b"A\x80\xc2",
        b"refused: no code 128\n",
    ),
    (
        b"/Encoding StandardEncoding def",
        b"CD",
        b"refused: no glyph C\n",
    ),
    (
        b"/Encoding standardEncoding def",
        b"A",
        b"refused: no code 65\n",
    ),
    (
        b"/Encoding StandardEncoding1 def",
        b"A",
        b"refused: no code 65\n",
    ),
    (
        b"/Encoding 256 array dup 65 /.notdef put def",
        b"A",
        b"refused: no code 65\n",
    ),
    (
        b"/Encoding 256 array dup 65 /Zed put def",
        b"A",
        b"refused: no glyph Zed\n",
    ),
];

/// Whether what is answered of Tiny with this Encoding begins so.
fn begins(alloc: Global, encoding: &[u8], codes: &[u8], want: &[u8]) -> bool {
    match tiny_encoded(alloc, encoding) {
        Ok(file) => answer(
            alloc,
            Engine::Codes(&[], codes, Form::Pfa),
            file.as_slice(),
        ).starts_with(want),
        Err(_) => false,
    }
}

#[test]
fn codes_of_other_encodings(rt: HostRuntime) {
    for &(encoding, codes, want) in ENCODED {
        assert!(rt; begins(rt.alloc(), encoding, codes, want), "{}", want.len());
    }
}

/// So many times a text.
fn repeated(alloc: Global, text: &[u8], times: usize) -> Result<Vec<u8>, AllocError> {
    let mut all = Vec::new(alloc);
    for _ in 0..times {
        all.extend_from_slice(text)?;
    }
    Ok(all)
}

/// How many codes a list of so many codes and of this end has, if it can be read.
fn count(alloc: Global, times: usize, end: &[u8]) -> Result<Option<usize>, AllocError> {
    let mut list = repeated(alloc, b"65,", times)?;
    list.extend_from_slice(end)?;
    match read_codes(alloc, list.as_slice())? {
        Some(codes) => Ok(Some(codes.len())),
        None => Ok(None),
    }
}

// meets read_codes Some at 1, 65536 codes
// meets read_codes None at 1, 65535 codes
#[test]
fn long_lists_of_codes(rt: HostRuntime) {
    const ROWS: &[(usize, &[u8], Option<usize>)] = &[
        (0, b"0-255", Some(256)),
        (65_535, b"65", Some(65_536)),
        (0, b"65-", None),
        (65_535, b"", None),
    ];
    for &(times, end, want) in ROWS {
        assert!(rt; count(rt.alloc(), times, end) == Ok(want));
    }
}
