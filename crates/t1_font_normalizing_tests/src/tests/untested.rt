//! Fonts without the test in their heads whether they were loaded before.

use super::normalizing::{NONE, has_head, made};
use std::alloc::{AllocError, Global};
use t1_font::Source;
use t1_font_shared_tests::{TESTED, behind, used};

/// What is left of [`TESTED`] without its test.
pub const UNTESTED: &[u8] = b"%!PS-AdobeFont-1.0: CMR10 003.002
%%EndComments

11 dict begin
";

/// A test with white space between all tokens.
const SPREAD: &[u8] =
    b"a FontDirectory\t/X known { /X findfont dup\r/UniqueID known\n{ dup /UniqueID get 0 eq exch\n
/FontType get 1 eq and } { pop false } ifelse { save true } { false } ifelse } { false } ifelse b";

/// A test that cairo has made answer false, as pdftocairo writes that of Latin Modern.
const OF_CAIRO: &[u8] = b"%!
FontDirectory/LMRoman10-Regular known{/LMRoman10-Regular findfont dup/UniqueID known pop false {dup
/UniqueID get 0 eq exch/FontType get 1 eq and}{pop false}ifelse
{save true}{false}ifelse}{false}ifelse
17 dict begin";

/// The first answer taken away, and no other put in its place.
const POP_ALONE: &[u8] =
    b"FontDirectory/X known{/X findfont dup/UniqueID known pop {dup/UniqueID get 1 eq exch
/FontType get 1 eq and}{pop false}ifelse{save true}{false}ifelse}{false}ifelse";

/// Another one put in its place.
const POP_TRUE: &[u8] =
    b"FontDirectory/X known{/X findfont dup/UniqueID known pop true {dup/UniqueID get 1 eq exch
/FontType get 1 eq and}{pop false}ifelse{save true}{false}ifelse}{false}ifelse";

/// Another name in the second place.
const OTHER_NAME: &[u8] =
    b"FontDirectory/X known{/Y findfont dup/UniqueID known{dup/UniqueID get 1 eq exch
/FontType get 1 eq and}{pop false}ifelse{save true}{false}ifelse}{false}ifelse";

/// Two tests.
const TWO: &[u8] = b"FontDirectory/X known{/X findfont dup/UniqueID known{dup/UniqueID get 1 eq exch
/FontType get 1 eq and}{pop false}ifelse{save true}{false}ifelse}{false}ifelse
FontDirectory/X known{/X findfont dup/UniqueID known{dup/UniqueID get 1 eq exch
/FontType get 1 eq and}{pop false}ifelse{save true}{false}ifelse}{false}ifelse ";

/// A test in a longer word.
const IN_A_WORD: &[u8] =
    b"xFontDirectory/X known{/X findfont dup/UniqueID known{dup/UniqueID get 1 eq exch
/FontType get 1 eq and}{pop false}ifelse{save true}{false}ifelse}{false}ifelse ";

/// A test that keeps a `currentfile` and an `eexec` apart.
const BETWEEN: &[u8] =
    b"currentfile FontDirectory/X known{/X findfont dup/UniqueID known{dup/UniqueID get 1 eq exch
/FontType get 1 eq and}{pop false}ifelse{save true}{false}ifelse}{false}ifelse eexec ";

/// The source of a font with this head that loses its test.
fn untested(alloc: Global, head: &[u8]) -> Result<Source, AllocError> {
    match made(alloc, 0, head, NONE) {
        Ok(source) => source.untested(alloc),
        Err(fault) => Err(fault),
    }
}

/// Whether this is left of a head when its font loses its test.
pub fn is_left(alloc: Global, head: &[u8], want: &[u8]) -> Result<bool, AllocError> {
    used(
        untested(alloc, head),
        |source| has_head(alloc, source, want),
    )
}

/// The same of a head behind so many blanks.
fn is_left_behind(
    alloc: Global,
    blanks: usize,
    head: &[u8],
    want: &[u8],
) -> Result<bool, AllocError> {
    let head = behind(alloc, blanks, head)?;
    let want = behind(alloc, blanks, want)?;
    is_left(alloc, head.as_slice(), want.as_slice())
}

// meets Source::untested Ok at 0, 1000000 bytes
#[test]
fn heads_without_tests(rt: HostRuntime) {
    const ROWS: &[(&[u8], &[u8], &str)] = &[
        (TESTED, UNTESTED, "a test"),
        (SPREAD, b"a  b", "white space between all tokens"),
        (OF_CAIRO, b"%!\n\n17 dict begin", "as cairo writes it"),
        (POP_ALONE, POP_ALONE, "no other answer"),
        (POP_TRUE, POP_TRUE, "another answer"),
        (OTHER_NAME, OTHER_NAME, "another name"),
        (TWO, TWO, "two tests"),
        (IN_A_WORD, IN_A_WORD, "a longer word"),
        (BETWEEN, BETWEEN, "a marker would arise"),
        (UNTESTED, UNTESTED, "no test"),
        (b"", b"", "no head"),
    ];
    for &(head, want, what) in ROWS {
        for &blanks in &[0, 1_000_000] {
            let left = is_left_behind(rt.alloc(), blanks, head, want);
            assert!(rt; left == Ok(true), "{what}, behind {blanks} blanks");
        }
    }
}
