//! Fonts under another name.

use super::normalizing::{NONE, has_head, made};
use std::alloc::{AllocError, Global};
use std::test::Fail;
use t1_font::{Source, normalize_named};
use t1_font_shared_tests::{joined, used};

/// The source of a font with this head that gets this name.
fn named(alloc: Global, head: &[u8], name: &[u8]) -> Result<Source, AllocError> {
    match made(alloc, 0, head, NONE) {
        Ok(source) => source.named(alloc, name),
        Err(fault) => Err(fault),
    }
}

/// Whether a head becomes another one with this name.
pub fn becomes(alloc: Global, head: &[u8], name: &[u8], want: &[u8]) -> Result<bool, AllocError> {
    used(
        named(alloc, head, name),
        |source| has_head(alloc, source, want),
    )
}

/// The sources of so many fonts with tags.
fn tagged(alloc: Global, count: usize) -> Result<Vec<Source>, AllocError> {
    let mut sources = Vec::new(alloc);
    for _ in 0..count {
        sources.push(made(alloc, 0, b"%!\r\n/FontName  /ABCDEF+T def\n", NONE)?)?;
    }
    Ok(sources)
}

/// Whether the fonts of sources have this head.
pub fn all_have(alloc: Global, sources: &[Source], head: &[u8]) -> Result<bool, AllocError> {
    for source in sources {
        if !has_head(alloc, source, head)? {
            return Ok(false);
        }
    }
    Ok(true)
}

/// Whether so many fonts with tags are normalized and then have this name.
pub fn all_become(alloc: Global, count: usize) -> Result<bool, AllocError> {
    used(
        normalize_named(alloc, tagged(alloc, count)?, b"GHIJKL+T"),
        |named| {
            Ok(
                named.len() == count
                    && all_have(alloc, named.as_slice(), b"%!\n/FontName /GHIJKL+T def\n")?,
            )
        },
    )
}

// meets Source::named Ok at 0, 1, 8 bytes
#[test]
fn heads_with_names(rt: HostRuntime) {
    const ROWS: &[(&[u8], &[u8], &[u8], &str)] = &[
        (
            b"%!\n/FontName /T def ",
            b"ABCDEF+T",
            b"%!\n/FontName /ABCDEF+T def ",
            "a tag",
        ),
        (
            b"/FontName /ABCDEF+T def ",
            b"T",
            b"/FontName /T def ",
            "no tag",
        ),
        (
            b"/FontName /T def /FontName /U def ",
            b"V",
            b"/FontName /V def /FontName /U def ",
            "the first",
        ),
        (
            b"/FontName\t/ def ",
            b"T",
            b"/FontName\t/T def ",
            "no name before",
        ),
        (
            b"/FontName /T def ",
            b"",
            b"/FontName / def ",
            "no name behind",
        ),
        (
            b"/FontName (T) def ",
            b"U",
            b"/FontName (T) def ",
            "no slash",
        ),
        (b"/Name /T def ", b"U", b"/Name /T def ", "another key"),
        (
            b"/FontName /T def ",
            b"Encoding",
            b"/FontName /T def ",
            "a name that would begin an Encoding",
        ),
    ];
    for &(head, name, want, what) in ROWS {
        assert!(rt; becomes(rt.alloc(), head, name, want) == Ok(true), "{what}");
    }
}

// meets Source::named Ok at 100000 bytes
#[test]
fn long_name(rt: HostRuntime) -> Result<(), Fail> {
    let mut name = Vec::new(rt.alloc());
    name.resize(100_000, b'T')?;
    let name = name.as_slice();
    let want = joined(rt.alloc(), &[b"/FontName /", name, b" def "])?;
    let right = becomes(rt.alloc(), b"/FontName /T def ", name, want.as_slice());
    assert!(rt; right == Ok(true));
    Ok(())
}

// meets normalize_named Ok at 0, 2, 1000 fonts
#[test]
fn normal_fonts_with_a_name(rt: HostRuntime) {
    for &count in &[0, 2, 1000] {
        assert!(rt; all_become(rt.alloc(), count) == Ok(true), "{count} fonts");
    }
}
