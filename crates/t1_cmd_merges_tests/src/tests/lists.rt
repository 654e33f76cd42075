//! Lists of three fonts and more, merged and rejoined in both forms: what they come to, and each conflict wherever the odd
//! font stands.
use super::merges::heavy;
use std::alloc::{AllocError, Global};
use std::test::Fail;
use t1_cmd_shared_tests::changed::{
    file_of, tiny_and, tiny_changed, tiny_with_subr, with_all, without_acute, without_subr_5,
};
use t1_cmd_shared_tests::engines::{Engine, of_tiny, subset};
use t1_cmd_shared_tests::lists::{LISTS, List, all_list, form_of, lists};
use t1_cmd_shared_tests::texts::joined;
use t1_font::Form;
use t1_tiny::PFA;

/// The names of Tiny's glyphs that have no components.
const NAMES: &[&[u8]] = &[b"X", b"Y", b"H", b"L", b"F", b"acute", b"A"];

/// The subsets of Tiny over each of so many of these names, over and over.
fn cuts(alloc: Global, count: usize) -> Result<Vec<Vec<u8>>, AllocError> {
    let mut cuts = Vec::new(alloc);
    for at in 0..count {
        cuts.push(subset(alloc, PFA, &[NAMES[at % 7]]))?;
    }
    Ok(cuts)
}

/// The files, lent.
fn lent<'a>(alloc: Global, files: &'a [Vec<u8>]) -> Result<Vec<&'a [u8]>, AllocError> {
    files.iter().map(|file| file.as_slice()).collect(alloc)
}

/// Whether each engine over lists makes the subset of Tiny over these names of files.
fn come_to(alloc: Global, files: &[&[u8]], names: &[&[u8]]) -> bool {
    for &list in LISTS {
        let want = of_tiny(alloc, Engine::Subset(&*names, form_of(list)));
        if !lists(alloc, list, files, want.as_slice()) {
            return false;
        }
    }
    true
}

/// Whether each engine over lists makes the subset over the names of so many single subsets of them.
fn cuts_come_to_one(alloc: Global, count: usize) -> Result<bool, AllocError> {
    let cuts = cuts(alloc, count)?;
    let files = lent(alloc, cuts.as_slice())?;
    Ok(come_to(alloc, files.as_slice(), &NAMES[..count.min(7)]))
}

// meets run_subset Ok at 0, 1, 7 names
// meets run_merge Ok at 1, 2, 3, 4, 5, 6, 40 fonts
// meets run_rejoin Ok at 1, 2, 3, 4, 5, 6, 40 fonts
// like run_subset: subset_file
// like run_merge: merge_files
// like run_rejoin: rejoin_files
#[test]
fn lists_of_subsets(rt: HostRuntime) {
    for &count in &[1, 2, 3, 4, 5, 6, 40] {
        assert!(rt; cuts_come_to_one(rt.alloc(), count) == Ok(true), "{count}");
    }
}

/// What is odd in a font of a list.
#[derive(Clone, Copy)]
enum Odd {
    Shell,
    Code,
    Glyph,
    Part,
    UsedSubr,
    Subr,
}

/// Each kind, and how a list of Tiny and such a font is refused.
const ODD: &[(Odd, &[u8])] = &[
    (Odd::Shell, b"refused: shells differ in private\n"),
    (Odd::Code, b"refused: code 66 differs\n"),
    (Odd::Glyph, b"refused: glyph A differs\n"),
    (Odd::Part, b"refused: glyph Aacute lacks part acute\n"),
    (Odd::UsedSubr, b"refused: subr 5 differs, used by X\n"),
    (Odd::Subr, b"refused: subr 8 differs\n"),
];

/// The odd font.
fn odd_font(alloc: Global, kind: Odd) -> Result<Vec<u8>, AllocError> {
    match kind {
        Odd::Shell => tiny_changed(alloc, b"5839", b"5840"),
        Odd::Code => with_all(alloc, PFA, b"dup 66 /Y put", b"dup 66 /A put"),
        Odd::Glyph => tiny_and(alloc, b"A", b"\x8b\xf8\x88\x0d\x0e"),
        Odd::Part => without_acute(alloc),
        Odd::UsedSubr => without_subr_5(alloc),
        Odd::Subr => tiny_with_subr(alloc, b"dup 8 ", b"", b"\x0e"),
    }
}

/// Whether each engine over lists refuses this with this line: so many times Tiny, the odd font, and Tiny again.
fn is_refused(alloc: Global, odd: &[u8], before: usize, line: &[u8]) -> Result<bool, AllocError> {
    let mut files: Vec<&[u8]> = Vec::new(alloc);
    for _ in 0..before {
        files.push(PFA)?;
    }
    files.push(odd)?;
    files.push(PFA)?;
    Ok(all_list(alloc, files.as_slice(), line))
}

// meets run_merge Shell at 3, 4, 5, 10 fonts
// meets run_merge Code at 3, 4, 5, 10 fonts
// meets run_merge Glyph at 3, 4, 5, 10 fonts
// meets run_merge Part at 3, 4, 5, 10 fonts
// meets run_merge Subr at 3, 4, 5, 10 fonts
// like run_merge: run_rejoin, merge_files, rejoin_files
#[test]
fn an_odd_font_wherever_it_stands(rt: HostRuntime) -> Result<(), Fail> {
    for &(kind, line) in ODD {
        let odd = odd_font(rt.alloc(), kind)?;
        for &before in &[1, 2, 3, 8] {
            let refused = is_refused(rt.alloc(), odd.as_slice(), before, line);
            assert!(rt; refused == Ok(true), "{before}, {}", line.len());
        }
    }
    Ok(())
}

/// Whether each engine over lists refuses these as over a limit.
fn are_over(alloc: Global, files: &[&[u8]]) -> bool {
    all_list(alloc, files, b"refused: over a limit\n")
}

// meets run_merge Empty at 0 fonts
// meets run_rejoin Empty at 0 fonts
// meets run_merge Limit at 2, 3 fonts
// meets run_rejoin Limit at 2, 3 fonts
// like run_merge: merge_files
// like run_rejoin: rejoin_files
#[test]
fn lists_over_the_limit(rt: HostRuntime) -> Result<(), Fail> {
    assert!(rt; all_list(rt.alloc(), &[], b"refused: nothing to merge\n"));
    let one = heavy(rt.alloc(), b"/A")?;
    let other = heavy(rt.alloc(), b"/B")?;
    let (one, other) = (one.as_slice(), other.as_slice());
    assert!(rt; are_over(rt.alloc(), &[one, other]));
    assert!(rt; are_over(rt.alloc(), &[one, one, other]));
    Ok(())
}

/// A glyph of this many bytes, of which the first is endchar, if there are any.
fn glyph(alloc: Global, size: usize) -> Result<Vec<u8>, AllocError> {
    let mut plain = Vec::new(alloc);
    plain.resize(size, 0)?;
    let length = size.to_string(alloc)?;
    match plain.as_mut_slice() {
        [first, ..] => *first = 30,
        [] => return Ok(plain),
    }
    joined(
        alloc,
        &[
            b"/g ",
            length.as_bytes(),
            b" RD ",
            plain.as_slice(),
            b" ND ",
        ],
    )
}

/// So many Subrs without bytes.
fn subrs(alloc: Global, count: u32) -> Result<Vec<u8>, AllocError> {
    let mut subrs = Vec::new(alloc);
    for index in 0..count {
        let index = index.to_string(alloc)?;
        let line = joined(alloc, &[b"dup ", index.as_bytes(), b" 0 RD  NP\n"])?;
        subrs.extend_from_slice(line.as_slice())?;
    }
    Ok(subrs)
}

/// A private text with so many Subrs without bytes, `.notdef`, and a glyph of this many bytes.
fn with_subrs(alloc: Global, count: u32, size: usize) -> Result<Vec<u8>, AllocError> {
    let subrs = subrs(alloc, count)?;
    let glyph = glyph(alloc, size)?;
    let texts: &[&[u8]] = &[
        b"/lenIV 0 def /Subrs 1000 array\n",
        subrs.as_slice(),
        b"ND /CharStrings 2 dict dup begin /.notdef 0 RD  ND ",
        glyph.as_slice(),
        b"end closefile",
    ];
    joined(alloc, texts)
}

/// A font with a head of this many bytes, so many Subrs and a glyph of this many bytes.
fn with_head(alloc: Global, before: usize, count: u32, size: usize) -> Result<Vec<u8>, AllocError> {
    let private = with_subrs(alloc, count, size)?;
    file_of(alloc, before, private.as_slice())
}

/// Whether two fonts are refused so in either order by an engine that writes this form.
fn refuse_both(alloc: Global, form: Form, one: &[u8], other: &[u8], line: &[u8]) -> bool {
    lists(alloc, List::Rejoin(form), &[one, other], line)
        && lists(alloc, List::Rejoin(form), &[other, one], line)
}

// A font of 67,000,000 bytes is near the greatest weight, 67,108,864; each stub weighs 129, and a glyph of 65,000 bytes 65,256.
// meets run_rejoin Limit at 600 subrs
// like run_rejoin: rejoin_files
#[test]
fn stubs_that_weigh_too_much(rt: HostRuntime) -> Result<(), Fail> {
    let heavy = with_head(rt.alloc(), 67_000_000, 1, 65_000)?;
    let full = with_head(rt.alloc(), 67_000_000, 600, 0)?;
    let other = with_head(rt.alloc(), 10, 600, 0)?;
    const OVER: &[u8] = b"refused: over a limit\n";
    const DIFFER: &[u8] = b"refused: shells differ in head\n";
    let rows: &[(Form, &[u8], &[u8])] = &[
        (Form::Pfa, full.as_slice(), OVER),
        (Form::Pfb, full.as_slice(), OVER),
        (Form::Pfa, other.as_slice(), DIFFER),
    ];
    for &(form, font, line) in rows {
        assert!(rt; refuse_both(rt.alloc(), form, heavy.as_slice(), font, line));
    }
    Ok(())
}
