//! Merges of subsets of the font Tiny and of fonts that differ from it.
use std::alloc::{AllocError, Global};
use std::test::Fail;
use t1_cmd::{Counted, run_merge};
use t1_cmd_shared_tests::changed::{
    file_of, heaviest, tiny_and, tiny_changed, tiny_encoded, tiny_with_subr, with_all,
    without_acute, without_subr_5,
};
use t1_cmd_shared_tests::engines::{Engine, answer, answers, subset};
use t1_cmd_shared_tests::texts::{joined, text_or_line};
use t1_font::Form;
use t1_tiny::PFA;

/// The PFA file that readers merge to, or the line of their refusal.
fn merged_from(alloc: Global, readers: &mut [Counted<&[u8]>]) -> Vec<u8> {
    let mut out = Vec::new(alloc);
    let ended = run_merge(alloc, readers, Form::Pfa, &mut Counted::new(&mut out));
    text_or_line(alloc, out, ended)
}

/// The same, of two files.
fn merged<'a>(alloc: Global, left: &'a [u8], right: &'a [u8]) -> Vec<u8> {
    let mut readers = [Counted::new(left), Counted::new(right)];
    merged_from(alloc, &mut readers)
}

/// The same, of two files in either order; nothing if the orders differ.
fn either<'a>(alloc: Global, left: &'a [u8], right: &'a [u8]) -> Vec<u8> {
    let one = merged(alloc, left, right);
    let other = merged(alloc, right, left);
    if one.as_slice() == other.as_slice() {
        one
    } else {
        Vec::new(alloc)
    }
}

/// Whether two files in either order merge to this, or it is the line of their refusal.
fn merges<'a>(alloc: Global, left: &'a [u8], right: &'a [u8], want: &[u8]) -> bool {
    either(alloc, left, right).as_slice() == want
}

/// The same of Tiny and of a file.
fn tiny_merges(alloc: Global, file: Result<Vec<u8>, AllocError>, want: &[u8]) -> bool {
    match file {
        Ok(file) => merges(alloc, PFA, file.as_slice(), want),
        Err(_) => false,
    }
}

/// Whether the subsets of Tiny by two lists of names merge to that by a third.
fn subsets_merge(alloc: Global, left: &[&[u8]], right: &[&[u8]], want: &[&[u8]]) -> bool {
    let left = subset(alloc, PFA, left);
    let right = subset(alloc, PFA, right);
    let want = subset(alloc, PFA, want);
    merges(alloc, left.as_slice(), right.as_slice(), want.as_slice())
}

#[test]
fn subsets_of_one_font(rt: HostRuntime) {
    const ROWS: &[(&[&[u8]], &[&[u8]], &[&[u8]])] = &[
        (&[b"X"], &[b"Y"], &[b"X", b"Y"]),
        (&[b"Y"], &[], &[b"Y"]),
        (&[b"H"], &[b"X", b"Y"], &[b"X", b"Y", b"H"]),
    ];
    for &(left, right, want) in ROWS {
        assert!(rt; subsets_merge(rt.alloc(), left, right, want));
    }
    assert!(rt; merges(rt.alloc(), PFA, PFA, PFA));
}

#[test]
fn shells_and_codes_that_differ(rt: HostRuntime) {
    let word = tiny_encoded(rt.alloc(), b"/Encoding StandardEncoding def");
    let want = b"refused: shells differ in encoding\n";
    assert!(rt; tiny_merges(rt.alloc(), word, want));
    let code = with_all(rt.alloc(), PFA, b"dup 66 /Y put", b"dup 66 /A put");
    assert!(rt; tiny_merges(rt.alloc(), code, b"refused: code 66 differs\n"));
}

#[test]
fn private_texts_that_differ(rt: HostRuntime) {
    let password = tiny_changed(rt.alloc(), b"5839", b"5840");
    let want = b"refused: shells differ in private\n";
    assert!(rt; tiny_merges(rt.alloc(), password, want));
}

#[test]
fn the_first_font_is_no_font(rt: HostRuntime) {
    let got = merged(rt.alloc(), b"", PFA);
    assert!(rt; got.as_slice() == b"refused: no eexec\n".as_slice());
}

#[test]
fn glyphs_that_differ(rt: HostRuntime) -> Result<(), Fail> {
    let a = tiny_and(rt.alloc(), b"A", b"\x8b\xf8\x88\x0d\x0e")?;
    let b = tiny_and(rt.alloc(), b"B", b"\x8b\xf8\x88\x0d\x0e")?;
    assert!(rt;
        merges(
            rt.alloc(),
            a.as_slice(),
            b.as_slice(),
            b"refused: glyph A differs\n"
        )
    );
    Ok(())
}

#[test]
fn a_subr_that_no_glyph_executes(rt: HostRuntime) {
    let other = tiny_with_subr(rt.alloc(), b"dup 8 ", b"", b"\x0e");
    assert!(rt; tiny_merges(rt.alloc(), other, b"refused: subr 8 differs\n"));
}

/// A private text with one long glyph of this name beside `.notdef`.
fn heavy_private(alloc: Global, name: &[u8]) -> Result<Vec<u8>, AllocError> {
    const START: &[u8] = b"/lenIV 0 def /CharStrings 2 dict dup begin\n/.notdef 0 RD  ND\n";
    let mut plain = Vec::new(alloc);
    plain.resize(60_000, b'x')?;
    joined(
        alloc,
        &[
            START,
            name,
            b" 60000 RD ",
            plain.as_slice(),
            b" ND\nend\nclosefile",
        ],
    )
}

/// A font with a long head and that private text.
pub fn heavy(alloc: Global, name: &[u8]) -> Result<Vec<u8>, AllocError> {
    let private = heavy_private(alloc, name)?;
    file_of(alloc, 67_000_000, private.as_slice())
}

#[test]
fn fonts_that_are_too_heavy_together(rt: HostRuntime) -> Result<(), Fail> {
    let a = heavy(rt.alloc(), b"/A")?;
    let b = heavy(rt.alloc(), b"/B")?;
    assert!(rt;
        merges(
            rt.alloc(),
            a.as_slice(),
            b.as_slice(),
            b"refused: over a limit\n"
        )
    );
    Ok(())
}

const OWN_X: &[u8] =
    b"width 300 0\nbearing 50 0\npart 0 0\nmove 50 0\nline 50 700\nline -50 700\nclose\n";

/// The subset by X of the font whose Subr 5 is `return`.
fn own_x(alloc: Global) -> Result<Vec<u8>, AllocError> {
    let other = without_subr_5(alloc)?;
    Ok(subset(alloc, other.as_slice(), &[b"X"]))
}

/// That subset merged with one of Tiny by this name.
fn own_x_and(alloc: Global, name: &[u8]) -> Result<Vec<u8>, AllocError> {
    let used = own_x(alloc)?;
    let cut = subset(alloc, PFA, &[name]);
    Ok(either(alloc, cut.as_slice(), used.as_slice()))
}

#[test]
fn a_subr_that_differs(rt: HostRuntime) -> Result<(), Fail> {
    let got = own_x_and(rt.alloc(), b"Y")?;
    assert!(rt; got.as_slice() == b"refused: subr 5 differs, used by X\n".as_slice());
    Ok(())
}

const OWN_X_LISTED: &[u8] =
    b"code 65 X\nsubr 0 11\nsubr 1 5\nsubr 2 5\nsubr 3 1\nsubr 4 1\nsubr 5 1\nsubr 6 3\n";

#[test]
fn a_subr_that_one_font_uses(rt: HostRuntime) -> Result<(), Fail> {
    let both = own_x_and(rt.alloc(), b"A")?;
    let drawn = answers(rt.alloc(), Engine::Show(b"X"), both.as_slice(), OWN_X);
    assert!(rt; drawn, "X draws as in its own font");
    let listed = answer(rt.alloc(), Engine::List, both.as_slice());
    assert!(rt;
        listed.as_slice().starts_with(OWN_X_LISTED),
        "Subr 5 is return"
    );
    Ok(())
}

/// The subset by Aacute of the font without acute.
fn accented(alloc: Global) -> Result<Vec<u8>, AllocError> {
    let other = without_acute(alloc)?;
    Ok(subset(alloc, other.as_slice(), &[b"Aacute"]))
}

/// That subset merged with one of Tiny by A.
fn accented_and_a(alloc: Global) -> Result<Vec<u8>, AllocError> {
    let left = accented(alloc)?;
    let right = subset(alloc, PFA, &[b"A"]);
    Ok(either(alloc, left.as_slice(), right.as_slice()))
}

/// Whether a file is refused beside the subset of Tiny by acute, since its Aacute lacks that part.
fn lacks_acute(alloc: Global, file: &[u8]) -> bool {
    let acute = subset(alloc, PFA, &[b"acute"]);
    let want = b"refused: glyph Aacute lacks part acute\n";
    merges(alloc, file, acute.as_slice(), want)
}

#[test]
fn a_part_that_one_font_lacks(rt: HostRuntime) -> Result<(), Fail> {
    let left = accented(rt.alloc())?;
    assert!(rt; lacks_acute(rt.alloc(), left.as_slice()));
    let both = accented_and_a(rt.alloc())?;
    assert!(rt;
        lacks_acute(rt.alloc(), both.as_slice()),
        "that result, too"
    );
    let want = b"fault MissingPart\n";
    assert!(rt; answers(rt.alloc(), Engine::Show(b"Aacute"), both.as_slice(), want));
    Ok(())
}

#[test]
fn the_heaviest_font(rt: HostRuntime) -> Result<(), Fail> {
    let font = heaviest(rt.alloc())?;
    let got = merged(rt.alloc(), font.as_slice(), font.as_slice());
    let is_kept = answers(
        rt.alloc(),
        Engine::Convert(Form::Pfa),
        font.as_slice(),
        got.as_slice(),
    );
    assert!(rt; is_kept, "merged with itself");
    Ok(())
}

#[test]
fn nothing_to_merge(rt: HostRuntime) {
    let mut none: [Counted<&[u8]>; 0] = [];
    let got = merged_from(rt.alloc(), &mut none);
    assert!(rt; got.as_slice() == b"refused: nothing to merge\n".as_slice());
}
