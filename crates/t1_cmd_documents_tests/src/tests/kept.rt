//! Answers that only come in odd cases, or are long, with ample memory: names that keep their fonts, places deep inside, and long
//! documents.
use super::documents::{families_are, level_into, pool_into};
use std::alloc::{AllocError, Global};
use std::test::Fail;
use t1_cmd::{extract_file, list_fonts};
use t1_cmd_shared_tests::documents::{BEGIN, document, other, part, tagged, whole};
use t1_cmd_shared_tests::texts::{is, joined};
use t1_tiny::PFA;

/// A document with a line in front of its font that would end the place.
fn barred(alloc: Global, font: &[u8]) -> Result<Vec<u8>, AllocError> {
    let text = joined(alloc, &[b"%!\n %%EndFont\n", font])?;
    document(alloc, text.as_slice())
}

// meets run_pool Ok at 2 documents
// meets run_level Ok at 2 documents
#[test]
fn a_joined_font_that_fits_no_place(rt: HostRuntime) -> Result<(), Fail> {
    const BARRED: &[u8] = b"kept Tiny: the joined font does not fit a place\n";
    let alloc = rt.alloc();
    let cut = part(alloc);
    let a = barred(alloc, cut.as_slice())?;
    let b = barred(alloc, whole())?;
    let (a, b) = (a.as_slice(), b.as_slice());
    assert!(rt; pool_into(alloc, &[a, b], &[a, b"\n", b, BARRED]));
    assert!(rt; level_into(alloc, &[a, b], &[b"|", a, b"|", b, BARRED]));
    Ok(())
}

// meets run_fonts Ok at 1 documents
// like run_fonts: list_fonts
#[test]
fn a_place_two_documents_deep(rt: HostRuntime) -> Result<(), Fail> {
    let alloc = rt.alloc();
    let deep = joined(
        alloc,
        &[
            b"%!PS\n%%BeginDocument: a\n%%BeginDocument: b\n",
            BEGIN,
            PFA,
            b"%%EndFont\n%%EndDocument\n%%EndDocument\n",
        ],
    )?;
    let deep = deep.as_slice();
    let want = b"a.ps: 66 Tiny 11 2 joined\n1 places, 1 names, 0 kept\n";
    assert!(rt; is(list_fonts(alloc, &[b"a.ps"], &[deep]), want));
    assert!(rt; is(extract_file(alloc, b"Tiny", &[deep]), PFA));
    Ok(())
}

// meets run_pool Ok at 4 documents
#[test]
fn a_name_and_a_family_both_kept(rt: HostRuntime) -> Result<(), Fail> {
    const BOTH: &[u8] =
        b"kept GHIJKL+Tiny: shells differ in head\nkept Tiny: shells differ in head\n";
    let alloc = rt.alloc();
    let cut = part(alloc);
    let other = other(alloc)?;
    let g = tagged(alloc, whole(), b"GHIJKL+")?;
    let o = tagged(alloc, other.as_slice(), b"GHIJKL+")?;
    let a = tagged(alloc, cut.as_slice(), b"ABCDEF+")?;
    let q = tagged(alloc, other.as_slice(), b"MNOPQR+")?;
    let (g, o, a, q) = (g.as_slice(), o.as_slice(), a.as_slice(), q.as_slice());
    let want = &[g, b"\n", o, b"\n", a, b"\n", q, BOTH];
    assert!(rt; families_are(alloc, &[g, o, a, q], want));
    Ok(())
}

/// A document with Tiny that asks for the fonts that are loaded, but not whether it is one of them.
fn asking(alloc: Global) -> Result<Vec<u8>, AllocError> {
    let text = joined(alloc, &[b"%!\n/x FontDirectory def\n", whole()])?;
    document(alloc, text.as_slice())
}

const LEFT: &[u8] = b"kept Tiny: the joined font does not fit a place\n";

// meets run_pool Ok at 2, 4 documents
#[test]
fn names_that_are_left(rt: HostRuntime) -> Result<(), Fail> {
    const OTHERS: &[u8] = b"kept GHIJKL+Tiny: shells differ in head\n";
    let alloc = rt.alloc();
    let other = other(alloc)?;
    let d = asking(alloc)?;
    let g = tagged(alloc, whole(), b"GHIJKL+")?;
    let o = tagged(alloc, other.as_slice(), b"GHIJKL+")?;
    let (d, g, o) = (d.as_slice(), g.as_slice(), o.as_slice());
    let two = [d, b"\n", d, LEFT];
    assert!(rt; pool_into(alloc, &[d, d], &two), "by names");
    assert!(rt; families_are(alloc, &[d, d], &two), "told once");
    let four = [d, b"\n", g, b"\n", o, b"\n", d, LEFT, OTHERS];
    assert!(rt;
        pool_into(alloc, &[d, g, o, d], &four),
        "in the order of the names"
    );
    Ok(())
}

// meets run_pool Ok at 2 documents
#[test]
fn a_family_that_is_left(rt: HostRuntime) -> Result<(), Fail> {
    const OWN: &[u8] = b"kept pool:Tiny: the joined font does not fit a place\n";
    let alloc = rt.alloc();
    let cut = part(alloc);
    let a = tagged(alloc, cut.as_slice(), b"ABCDEF+pool:")?;
    let g = tagged(alloc, whole(), b"GHIJKL+pool:")?;
    let (a, g) = (a.as_slice(), g.as_slice());
    assert!(rt; pool_into(alloc, &[a, g], &[a, b"\n", g]), "by names");
    assert!(rt;
        families_are(alloc, &[a, g], &[a, b"\n", g, OWN]),
        "by families"
    );
    Ok(())
}

// meets run_pool Ok at 2 documents
#[test]
fn a_line_that_is_told_once(rt: HostRuntime) -> Result<(), Fail> {
    const ONCE: &[u8] = b"kept Tiny: shells differ in head\n";
    let alloc = rt.alloc();
    let other = other(alloc)?;
    let a = document(alloc, whole())?;
    let c = document(alloc, other.as_slice())?;
    let (a, c) = (a.as_slice(), c.as_slice());
    assert!(rt; families_are(alloc, &[a, c], &[a, b"\n", c, ONCE]));
    Ok(())
}

/// How many bytes stand behind the last place of a long document.
const LONG: usize = 2_200_000;

// meets run_pool Ok at 2200000 bytes
#[test]
fn a_long_document(rt: HostRuntime) -> Result<(), Fail> {
    let alloc = rt.alloc();
    let mut text = document(alloc, whole())?;
    text.resize(LONG, b'x')?;
    assert!(rt; pool_into(alloc, &[text.as_slice()], &[text.as_slice()]));
    Ok(())
}
