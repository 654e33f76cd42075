//! Subsets of the font Tiny and of changed ones.
use std::alloc::{AllocError, Global};
use std::test::Fail;
use t1_cmd_shared_tests::changed::{heaviest, tiny_and};
use t1_cmd_shared_tests::engines::{Engine, answer, answers, subset};
use t1_font::{Font, Form};
use t1_font_shared_tests::{joined, of_font};
use t1_run::Subroutines;
use t1_tiny::{PFA, PFB};

/// Adds the names of a font's glyphs.
fn push_names(font: &Font<'_>, text: &mut Vec<u8>) -> Result<(), AllocError> {
    for name in font.names() {
        text.extend_from_slice(name)?;
        text.push(b' ')?;
    }
    Ok(())
}

/// Whether a charstring is there and is no `return`.
fn acts(plain: Option<&[u8]>) -> bool {
    match plain {
        Some(bytes) => bytes != [11].as_slice(),
        None => false,
    }
}

/// Adds a digit for each of a font's Subrs that is no `return`.
fn push_subrs(font: &Font<'_>, text: &mut Vec<u8>) -> Result<(), AllocError> {
    for index in 0..10u16 {
        if acts(font.get(index)) {
            text.push(b'0' + index as u8)?;
        }
    }
    Ok(())
}

/// The names of a font's glyphs, and its Subrs that are no `return`.
fn kept_by(alloc: Global, font: &Font<'_>) -> Result<Vec<u8>, AllocError> {
    let mut text = Vec::new(alloc);
    push_names(font, &mut text)?;
    push_subrs(font, &mut text)?;
    Ok(text)
}

/// Whether the subset of a file keeps this.
fn keeps(alloc: Global, input: &[u8], names: &[&[u8]], want: &[u8]) -> bool {
    let file = subset(alloc, input, names);
    of_font(
        alloc,
        file.as_slice(),
        |font| Ok(kept_by(alloc, font)?.as_slice() == want),
    ) == Ok(true)
}

/// Names, and what their subset of Tiny keeps.
const KEPT: &[(&[&[u8]], &[u8])] = &[
    (&[], b".notdef 012"),
    (&[b"X"], b".notdef X 0125"),
    (&[b"X", b"X"], b".notdef X 0125"),
    (&[b"H"], b".notdef H 01247"),
    (&[b"Aacute"], b".notdef A Aacute acute 01256"),
    (&[b"N"], b".notdef A B N acute 01256"),
    (&[b"L"], b".notdef L 0129"),
];

#[test]
fn what_names_keep(rt: HostRuntime) {
    for &(names, want) in KEPT {
        assert!(rt; keeps(rt.alloc(), PFB, names, want));
    }
}

/// A glyph of Tiny with another charstring, and what its subset keeps.
const CHANGED_KEPT: &[(&[u8], &[u8], &[u8])] = &[
    (
        b"M",
        b"\x8b\xf8\x88\x0d\xbd\xf7\x0c\xf7\x5c\x8b\xf7\x56\x0c\x06",
        b".notdef M acute 0125",
    ),
    (
        b"A",
        b"\x8b\xf8\x88\x0d\xbd\xf7\x0c\xf7\x5c\xcc\xf7\x56\x0c\x06",
        b".notdef A acute 0125",
    ),
];

#[test]
fn what_changed_glyphs_keep(rt: HostRuntime) -> Result<(), Fail> {
    for &(name, plain, want) in CHANGED_KEPT {
        let font = tiny_and(rt.alloc(), name, plain)?;
        assert!(rt; keeps(rt.alloc(), font.as_slice(), &[name], want));
    }
    Ok(())
}

const X_LISTED: &[u8] = b"code 65 X
subr 0 11
subr 1 5
subr 2 5
subr 3 1
subr 4 1
subr 5 3
subr 6 1
subr 7 1
subr 8 1
subr 9 1
glyph .notdef 5
glyph X 15
";

const NOTHING_LISTED: &[u8] = b"subr 0 11
subr 1 5
subr 2 5
subr 3 1
subr 4 1
subr 5 1
subr 6 1
subr 7 1
subr 8 1
subr 9 1
glyph .notdef 5
";

const BOTH_LISTED: &[u8] = b"code 65 X
code 66 Y
subr 0 11
subr 1 5
subr 2 5
subr 3 1
subr 4 1
subr 5 3
subr 6 3
subr 7 1
subr 8 1
subr 9 1
glyph .notdef 5
glyph X 15
glyph Y 12
";

/// Names, the size of their subset of Tiny, and what is checked and listed of it.
const SUBSETS: &[(&[&[u8]], usize, &[u8], &[u8])] = &[
    (
        &[],
        2141,
        b"ok 1 glyphs, 10 subrs, weight 2167\n",
        NOTHING_LISTED,
    ),
    (
        &[b"X"],
        2224,
        b"ok 2 glyphs, 10 subrs, weight 2444\n",
        X_LISTED,
    ),
    (
        &[b"X", b"X"],
        2224,
        b"ok 2 glyphs, 10 subrs, weight 2444\n",
        X_LISTED,
    ),
    (
        &[b"Y", b"X"],
        2301,
        b"ok 3 glyphs, 10 subrs, weight 2718\n",
        BOTH_LISTED,
    ),
];

/// Whether a subset of Tiny is checked so.
fn is_checked(alloc: Global, names: &[&[u8]], want: &[u8]) -> bool {
    let file = subset(alloc, PFA, names);
    answers(alloc, Engine::Check, file.as_slice(), want)
}

/// Whether it has this size and is listed so.
fn is_listed(alloc: Global, names: &[&[u8]], size: usize, want: &[u8]) -> bool {
    let file = subset(alloc, PFA, names);
    file.len() == size && answers(alloc, Engine::List, file.as_slice(), want)
}

#[test]
fn sizes_of_subsets(rt: HostRuntime) {
    for &(names, size, checked, listed) in SUBSETS {
        assert!(rt; is_checked(rt.alloc(), names, checked));
        assert!(rt; is_listed(rt.alloc(), names, size, listed));
    }
    let want = b"ok 5 glyphs, 10 subrs, weight 3259\n";
    assert!(rt; is_checked(rt.alloc(), &[b"N"], want));
}

/// `15 5 1 3 callothersubr pop div callsubr` between a move and a closepath: Subr 3, or Subr 5 where hints are kept.
const BOTH_ANSWERS: &[u8] =
    b"\x8b\xf8\x88\x0d\x8b\x16\x9a\x90\x8c\x8e\x0c\x10\x0c\x11\x0c\x0c\x0a\x09\x0e";

#[test]
fn both_answers_to_hint_replacement(rt: HostRuntime) -> Result<(), Fail> {
    let font = tiny_and(rt.alloc(), b"P", BOTH_ANSWERS)?;
    let file = subset(rt.alloc(), font.as_slice(), &[b"P"]);
    let want = b"ok 2 glyphs, 10 subrs, weight 2448\n";
    assert!(rt; answers(rt.alloc(), Engine::Check, file.as_slice(), want));
    assert!(rt; keeps(rt.alloc(), font.as_slice(), &[b"P"], b".notdef P 0125"));
    Ok(())
}

#[test]
fn names_that_are_absent(rt: HostRuntime) {
    const ROWS: &[(&[u8], &[&[u8]], &[u8])] = &[
        (PFA, &[b"Zed", b"X"], b"refused: no glyph Zed\n"),
        (PFA, &[b"X", b"Zed", b"Zee"], b"refused: no glyph Zed\n"),
        (b"%!", &[b"Zed"], b"refused: no eexec\n"),
    ];
    for &(file, names, want) in ROWS {
        assert!(rt; answers(rt.alloc(), Engine::Subset(names, Form::Pfa), file, want));
    }
}

#[test]
fn the_heaviest_font(rt: HostRuntime) -> Result<(), Fail> {
    let file = heaviest(rt.alloc())?;
    let cut = subset(rt.alloc(), file.as_slice(), &[]);
    let pfb = answer(rt.alloc(), Engine::Convert(Form::Pfb), cut.as_slice());
    let fonts: &[&[u8]] = &[file.as_slice(), cut.as_slice(), pfb.as_slice()];
    for font in fonts {
        let want = b"ok 1 glyphs, 1 subrs, weight 67108864\n";
        assert!(rt; answers(rt.alloc(), Engine::Check, font, want));
    }
    Ok(())
}

#[test]
fn a_byte_over_the_greatest_weight(rt: HostRuntime) -> Result<(), Fail> {
    let heaviest = heaviest(rt.alloc())?;
    let file = joined(rt.alloc(), &[b" ", heaviest.as_slice()])?;
    let want = b"refused: over a limit\n";
    assert!(rt; answers(rt.alloc(), Engine::Check, file.as_slice(), want));
    Ok(())
}
