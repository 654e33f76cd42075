//! What is mended of files that other programs spell, with its place.

use super::arrays::encoded;
use super::wide::with_copies;
use std::alloc::{AllocError, Global};
use std::test::Fail;
use t1_font::{Mend, mends};
use t1_font_shared_tests::{CLEAR, GLYPHS, TESTED, file_of};
use t1_tiny::{PFA, PFB};

/// Whether this is what is mended of a file.
fn are(alloc: Global, file: &[u8], want: &[Mend]) -> bool {
    match mends(alloc, file) {
        Ok(mends) => mends.as_slice() == want,
        Err(_) => false,
    }
}

// meets mends Ok at 11 glyphs
#[test]
fn nothing_to_mend(rt: HostRuntime) {
    assert!(rt; are(rt.alloc(), PFA, &[]));
    assert!(rt; are(rt.alloc(), PFB, &[]));
}

/// Whether this is what is mended of Tiny with this Encoding.
fn are_of_encoding(alloc: Global, encoding: &[u8], want: &[Mend]) -> bool {
    match encoded(alloc, encoding) {
        Ok(file) => are(alloc, file.as_slice(), want),
        Err(_) => false,
    }
}

#[test]
fn encodings_to_mend(rt: HostRuntime) -> Result<(), Fail> {
    const ROWS: &[(&[u8], &[Mend], &str)] = &[
        (
            b" 256 array dup 65 /X put % one\n% two\ndef",
            &[Mend::CommentInEncoding { at: 169 }],
            "comments",
        ),
        (
            b" 256 array dup 7 /X put dup dup 65 exch 7 get put dup dup 66 exch 7 get put def",
            &[Mend::CodeCopied { at: 168 }],
            "copies",
        ),
        (
            b" StandardEncoding readonly def",
            &[Mend::ReadonlyEncoding { at: 135 }],
            "a word, and readonly",
        ),
        (
            b"% a\n StandardEncoding readonly def",
            &[
                Mend::CommentInEncoding { at: 135 },
                Mend::ReadonlyEncoding { at: 135 },
            ],
            "a comment, and readonly behind a word",
        ),
    ];
    for &(text, want, what) in ROWS {
        assert!(rt; are_of_encoding(rt.alloc(), text, want), "{what}");
    }
    let copies = with_copies(rt.alloc())?;
    let want = &[
        Mend::CommentInEncoding { at: 324 },
        Mend::CodeCopied { at: 221 },
    ];
    assert!(rt;
        are(rt.alloc(), copies.as_slice(), want),
        "a comment behind copies"
    );
    Ok(())
}

/// A font with a test in its head, a comment in its Encoding and another among its Subrs.
fn with_three(alloc: Global) -> Result<Vec<u8>, AllocError> {
    let clear: &[&[u8]] = &[
        TESTED,
        b"/Encoding%\nStandardEncoding def\ncurrentfile eexec\n",
    ];
    let subrs = b"/lenIV 0 def /Subrs 1 array dup 0 1 RD \x0b NP %\nND ";
    file_of(alloc, clear, &[subrs, GLYPHS])
}

/// A font with comments among its Subrs.
fn with_comments(alloc: Global) -> Result<Vec<u8>, AllocError> {
    let subrs = b"/lenIV 0 def /Subrs 1 array %\n%\ndup 0 1 RD \x0b NP ND ";
    file_of(alloc, &[CLEAR], &[subrs, GLYPHS])
}

#[test]
fn subrs_and_tests_to_mend(rt: HostRuntime) -> Result<(), Fail> {
    let file = with_comments(rt.alloc())?;
    let want = &[Mend::CommentInSubrs { at: 28 }];
    assert!(rt;
        are(rt.alloc(), file.as_slice(), want),
        "comments among Subrs"
    );
    let file = with_three(rt.alloc())?;
    let want = &[
        Mend::CommentInEncoding { at: 236 },
        Mend::CommentInSubrs { at: 44 },
        Mend::TestTakenOut { at: 48 },
    ];
    assert!(rt; are(rt.alloc(), file.as_slice(), want), "three things");
    Ok(())
}

#[test]
fn printed_mends(rt: HostRuntime) -> Result<(), Fail> {
    const ROWS: &[(Mend, &str)] = &[
        (
            Mend::CommentInEncoding { at: 0 },
            "comment in Encoding at 0",
        ),
        (Mend::CodeCopied { at: 12 }, "code copied at 12"),
        (Mend::ReadonlyEncoding { at: 3 }, "readonly Encoding at 3"),
        (Mend::CommentInSubrs { at: 45 }, "comment in Subrs at 45"),
        (
            Mend::TestTakenOut { at: 6 },
            "test of FontDirectory taken out at 6",
        ),
    ];
    for (mend, want) in ROWS {
        let text = mend.to_string(rt.alloc())?;
        assert!(rt; text.as_str() == *want);
    }
    Ok(())
}
