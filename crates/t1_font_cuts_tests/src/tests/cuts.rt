//! Cuts of fonts, and the fonts of the entries of two, with ample memory.

ghost use Rattle.std.specs.Prelude.{◌≡◌, ℕ, Bool, true, List, IfOk};
ghost use Rattle.t1_bytes.specs.declared.form.Form.TheVariants.{Pfb};
ghost use Rattle.t1_font.specs.{FontValue.{notdef}, Cut.{set_of_names, restrict}, Canon.{canon}, IsFont.{IsFont}, Parts.{HasShellOf}, Encodings.{SameKind}};
ghost use Rattle.std.specs.FinMap as fin;
ghost use Rattle.std.specs.FinSet as sets;

use std::alloc::{AllocError, Global};
use std::collections::BTreeSet;
use std::ops::Range;
use std::test::Fail;
use t1_font::{Font, Form, PartsFault, STUB, Source, join_parts, read, restrict, write};
use t1_font_shared_tests::{
    add_line, behind, file, file_of, joined as one_after, of_file, of_font, seen, used, with,
};
use t1_run::{Glyphs, Subroutines};
use t1_tiny::{PFA, PFB};

/// `.notdef`, and those of these names that the font has.
fn known(alloc: Global, font: &Font<'_>, names: &[&[u8]]) -> Result<Vec<Vec<u8>>, AllocError>
    ensures known { IfOk result (λ v. (n : List ℕ)
        → sets.contains (set_of_names v.items) n ≡ true
        → fin.contains_key font.now.glyphs n ≡ true) }
    ensures notdef { IfOk result (λ v. sets.contains (set_of_names v.items) notdef ≡ true) }
{
    font.proof_is_font();
    let mut known = Vec::new(alloc);
    known.push(Vec::from_slice(alloc, b".notdef")?)?;
    'names: for name in names {
        if font.glyph(name).is_some() {
            known.push(Vec::from_slice(alloc, name)?)?;
        }
    }
    Ok(known)
}

/// The set of these indices.
fn set_of(alloc: Global, indices: &[u16]) -> Result<BTreeSet<u16>, AllocError> {
    let mut set = BTreeSet::new(alloc);
    for index in indices {
        set.insert(*index)?;
    }
    Ok(set)
}

/// The canonical PFB of a font that is cut to `.notdef`, to those of the names that it has, and to these Subrs.
fn cut(
    alloc: Global,
    font: &Font<'_>,
    names: &[&[u8]],
    subrs: &[u16],
) -> Result<Vec<u8>, AllocError>
    ensures { IfOk result (λ v. (p : List ℕ → Bool) × ((s : ℕ → Bool)
        × (IsFont (restrict p s font.now) × (v.items ≡ canon (restrict p s font.now) Pfb)))) }
{
    let names = known(alloc, font, names)?;
    let subrs = set_of(alloc, subrs)?;
    let cut = restrict(alloc, font, names.as_slice(), &subrs)?;
    cut.proof_is_font();
    write(alloc, &cut, Form::Pfb)
}

/// Whether two fonts, cut to `.notdef` alone, are one font, so that nothing but the entries of their tables tells them
/// apart.
pub fn is_one_shell(alloc: Global, first: &Font<'_>, second: &Font<'_>) -> Result<bool, AllocError>
    ensures shells { IfOk result (λ b. b ≡ true → first.now.shell ≡ second.now.shell) }
    ensures kinds { IfOk result (λ b. b ≡ true → SameKind first.now.encoding second.now.encoding) }
{
    let one = cut(alloc, first, &[], &[])?;
    let other = cut(alloc, second, &[], &[])?;
    Ok(one.as_slice() == other.as_slice())
}

/// The canonical PFB of the font of the entries of both.
fn both<'a>(alloc: Global, first: &Font<'a>, second: &Font<'a>) -> Result<Vec<u8>, PartsFault> {
    if !is_one_shell(alloc, first, second)? {
        return Err(PartsFault::Memory);
    }
    used(
        join_parts(alloc, first, second),
        |joined| Ok(write(alloc, joined, Form::Pfb)?),
    )
}

/// What comes of two fonts, or want of memory where one of them is none.
fn answer_of(
    answer: Result<Result<Vec<u8>, PartsFault>, AllocError>,
) -> Result<Vec<u8>, PartsFault> {
    match answer {
        Ok(answer) => answer,
        Err(_) => Err(PartsFault::Memory),
    }
}

/// The same, of the fonts of two files.
pub fn joined(alloc: Global, first: &[u8], second: &[u8]) -> Result<Vec<u8>, PartsFault> {
    answer_of(of_font(alloc, first, |first| {
        of_font(alloc, second, |second| Ok(both(alloc, first, second)))
    }))
}

/// Whether this is what the fonts of two files come to.
fn joins_to(alloc: Global, first: &[u8], second: &[u8], want: &[u8]) -> bool {
    match joined(alloc, first, second) {
        Ok(both) => both.as_slice() == want,
        Err(_) => false,
    }
}

/// The canonical PFB of Tiny, cut to `.notdef`, to these names and to these Subrs.
pub fn tiny_cut(alloc: Global, (names, subrs): Cut) -> Result<Vec<u8>, AllocError> {
    of_font(alloc, PFA, |font| cut(alloc, font, names, subrs))
}

/// The names of a font's glyphs, each with a blank.
fn names_text(alloc: Global, font: &Font<'_>) -> Result<Vec<u8>, AllocError> {
    let mut text = Vec::new(alloc);
    for name in font.names() {
        text.extend_from_slice(name)?;
        text.push(b' ')?;
    }
    Ok(text)
}

/// The digits of a font's ten Subrs, with a dash for one that is `return`.
fn subrs_text(alloc: Global, font: &Font<'_>) -> Result<Vec<u8>, AllocError> {
    let mut text = Vec::new(alloc);
    for index in 0..10u8 {
        let is_stub = font.get(u16::from(index)) == Some(STUB);
        text.push(if is_stub { b'-' } else { b'0' + index })?;
    }
    Ok(text)
}

/// The names and the Subrs of a font as a text.
fn entries_text(alloc: Global, font: &Font<'_>) -> Result<Vec<u8>, AllocError> {
    let mut text = names_text(alloc, font)?;
    text.extend_from_slice(subrs_text(alloc, font)?.as_slice())?;
    Ok(text)
}

/// Whether a font shows this: the names and the Subrs as a text, its weight, and the length of its PFA.
fn shows(
    alloc: Global,
    font: &Font<'_>,
    text: &[u8],
    weight: u32,
    length: usize,
) -> Result<bool, AllocError> {
    let pfa = write(alloc, font, Form::Pfa)?;
    let shown = entries_text(alloc, font)?;
    Ok(shown.as_slice() == text && font.weight() == weight && pfa.len() == length)
}

/// Whether Tiny, cut to these names and Subrs, shows this.
fn cut_shows(
    alloc: Global,
    cut: Cut,
    text: &[u8],
    weight: u32,
    length: usize,
) -> Result<bool, AllocError> {
    let file = tiny_cut(alloc, cut)?;
    of_font(
        alloc,
        file.as_slice(),
        |font| shows(alloc, font, text, weight, length),
    )
}

/// Names and Subrs that a font is cut to.
pub type Cut = (&'static [&'static [u8]], &'static [u16]);

/// Names and Subrs; what Tiny cut to them shows, its weight, and the length of its PFA. Subr 3 of Tiny is `return`
/// itself, Subr 8 has no bytes, and Tiny has no Subr 12.
const CUTS: &[(Cut, &[u8], u32, usize)] = &[
    ((&[], &[]), b".notdef ----------", 2149, 2102),
    ((&[], &[0, 1, 2, 3]), b".notdef 012-------", 2167, 2141),
    (
        (&[b"X"], &[12, 5, 3, 2, 1, 0]),
        b".notdef X 012--5----",
        2444,
        2224,
    ),
    (
        (&[b"Y", b"X", b"Y"], &[0, 1, 2, 3, 5, 6]),
        b".notdef X Y 012--56---",
        2718,
        2301,
    ),
    (
        (
            &[
                b"acute", b"Y", b"X", b"N", b"L", b"H", b"F", b"B", b"Aacute", b"A", b".notdef",
            ],
            &[0, 1, 2, 3, 4, 5, 6, 7, 8, 9],
        ),
        b".notdef A Aacute B F H L N X Y acute 012-456789",
        4936,
        2893,
    ),
];

// meets restrict Ok at 1, 2, 3, 11 glyphs
#[test]
fn cuts_of_tiny(rt: HostRuntime) -> Result<(), Fail> {
    for &(cut, text, weight, length) in CUTS {
        let shows = cut_shows(rt.alloc(), cut, text, weight, length)?;
        assert!(rt; shows, "{text:?}");
    }
    Ok(())
}

pub const X: Cut = (&[b"X"], &[0, 1, 2, 3, 5]);

pub const Y: Cut = (&[b"Y"], &[0, 1, 2, 3, 5, 6]);

pub const X_AND_Y: Cut = (&[b"X", b"Y"], &[0, 1, 2, 3, 5, 6]);

const ALL: Cut = (
    &[
        b"A", b"Aacute", b"B", b"F", b"H", b"L", b"N", b"X", b"Y", b"acute",
    ],
    &[0, 1, 2, 3, 4, 5, 6, 7, 8, 9],
);

/// Whether Tiny cut to these and to those comes to Tiny cut to what is wanted.
fn cuts_join(alloc: Global, first: Cut, second: Cut, want: Cut) -> Result<bool, AllocError> {
    let first = tiny_cut(alloc, first)?;
    let second = tiny_cut(alloc, second)?;
    let both = tiny_cut(alloc, want)?;
    Ok(joins_to(alloc, first.as_slice(), second.as_slice(), both.as_slice()))
}

// meets join_parts Ok at 3, 11 glyphs
#[test]
fn joins_of_tiny(rt: HostRuntime) {
    const ROWS: &[(Cut, Cut, Cut, &str)] = &[
        (X, Y, X_AND_Y, "two cuts"),
        (Y, X, X_AND_Y, "in the other order"),
        (ALL, X, ALL, "a font and its cut"),
        (X, ALL, ALL, "a cut and its font"),
    ];
    for &(first, second, want, what) in ROWS {
        assert!(rt;
            cuts_join(rt.alloc(), first, second, want) == Ok(true),
            "{what}"
        );
    }
}

#[test]
fn the_first_of_two_names_of_a_code_stands(rt: HostRuntime) -> Result<(), Fail> {
    let other = with(rt.alloc(), PFB, b"dup 66 /Y put", b"dup 66 /A put")?;
    let other = other.as_slice();
    assert!(rt; joins_to(rt.alloc(), PFB, other, PFB), "Tiny");
    assert!(rt; joins_to(rt.alloc(), other, PFB, other), "the other");
    Ok(())
}

/// A font that is cut to `.notdef`, to those of the names that it has, and to these Subrs.
pub fn cut_font<'a>(
    alloc: Global,
    font: &Font<'a>,
    names: &[&[u8]],
    subrs: &[u16],
) -> Result<Font<'a>, AllocError>
    ensures { IfOk result (λ f. HasShellOf f font.now) }
{
    let names = known(alloc, font, names)?;
    let subrs = set_of(alloc, subrs)?;
    restrict(alloc, font, names.as_slice(), &subrs)
}

/// The same of the font of a source, which is lent for no longer than it is cut.
pub fn lent_cut_font<'a>(
    alloc: Global,
    source: &'a Source,
    cut: Cut,
) -> Result<Font<'a>, AllocError>
    ensures { IfOk result (λ f. HasShellOf f source.now) }
{
    let font = source.font(alloc)?;
    cut_font(alloc, &font, cut.0, cut.1)
}

/// The canonical PFB of the entries of X of the first source's font and of Y of the second's, neither of them written
/// and read again on the way.
fn lent_x_and_y(alloc: Global, first: &Source, second: &Source) -> Result<Vec<u8>, PartsFault> {
    answer_of(used(lent_cut_font(alloc, first, X), |x| {
        used(lent_cut_font(alloc, second, Y), |y| Ok(both(alloc, x, y)))
    }))
}

/// Whether these come to this file.
fn x_and_y_make(alloc: Global, first: &Source, second: &Source, want: &[u8]) -> bool {
    match lent_x_and_y(alloc, first, second) {
        Ok(got) => got.as_slice() == want,
        Err(_) => false,
    }
}

/// Whether the entries of X of the first file's font and of Y of the second's come to this file.
fn x_and_y_join(alloc: Global, first: &[u8], second: &[u8], want: &[u8]) -> bool {
    let joined = seen(read(alloc, first), |first| {
        seen(
            read(alloc, second),
            |second| x_and_y_make(alloc, first, second, want),
        )
    });
    joined == Ok(Ok(true))
}

/// The same of one file that is read once.
fn x_and_y_join_of_one(alloc: Global, file: &[u8], want: &[u8]) -> bool {
    seen(
        read(alloc, file),
        |source| x_and_y_make(alloc, source, source, want),
    ) == Ok(true)
}

/// What of cuts of Tiny and of these two that were cut before doesn't join to this file, if anything.
fn what_joins_not(alloc: Global, x: &[u8], y: &[u8], both: &[u8]) -> &'static str {
    if !x_and_y_join(alloc, PFA, PFB, both) {
        "cuts of two sources of one font"
    } else if !x_and_y_join(alloc, PFA, y, both) {
        "a cut, and a font that was cut before"
    } else if !x_and_y_join(alloc, x, PFB, both) {
        "a font that was cut before, and a cut"
    } else if !x_and_y_join(alloc, x, y, both) {
        "two fonts that were cut before"
    } else if !x_and_y_join_of_one(alloc, PFA, both) {
        "cuts of one source"
    } else {
        ""
    }
}

#[test]
fn joins_of_fonts_of_two_sources(rt: HostRuntime) -> Result<(), Fail> {
    let x = tiny_cut(rt.alloc(), X)?;
    let y = tiny_cut(rt.alloc(), Y)?;
    let both = tiny_cut(rt.alloc(), X_AND_Y)?;
    let what = what_joins_not(rt.alloc(), x.as_slice(), y.as_slice(), both.as_slice());
    assert!(rt; what.is_empty(), "{what}");
    Ok(())
}

/// A font with a head of so many blanks, `.notdef` and a glyph.
pub fn headed(alloc: Global, head: usize, glyph: &[u8]) -> Result<Vec<u8>, AllocError> {
    let clear = behind(
        alloc,
        head,
        b"/Encoding StandardEncoding def\ncurrentfile eexec\n",
    )?;
    let private = one_after(
        alloc,
        &[
            b"/lenIV 0 def /CharStrings 2 dict dup begin\n/.notdef 1 RD x ND\n",
            glyph,
            b" 1 RD x ND\nend\nmark currentfile closefile\n",
        ],
    )?;
    file(alloc, clear.as_slice(), private.as_slice())
}

/// A line for each number: what stands before its digits, and what stands after them.
pub fn lines(
    alloc: Global,
    numbers: Range<u32>,
    before: &[u8],
    after: &[u8],
) -> Result<Vec<u8>, AllocError> {
    let mut text = Vec::new(alloc);
    for number in numbers {
        add_line(alloc, &mut text, number, before, after)?;
    }
    Ok(text)
}

/// What spells names of all codes, their digits.
fn codes(alloc: Global) -> Result<Vec<u8>, AllocError> {
    let mut text = Vec::new(alloc);
    for code in 0..256u32 {
        add_line(alloc, &mut text, code, b"dup ", b"/")?;
        add_line(alloc, &mut text, code, b"", b" put ")?;
    }
    Ok(text)
}

/// A font of 256 codes, 2,000 Subrs of two bytes, and 4,001 glyphs of one byte: `.notdef`, and those of the names `0` to
/// `3999`.
pub fn large(alloc: Global) -> Result<Vec<u8>, AllocError> {
    let codes = codes(alloc)?;
    let subrs = lines(alloc, 0..2000, b"dup ", b" 2 RD ab NP\n")?;
    let glyphs = lines(alloc, 0..4000, b"/", b" 1 RD x ND\n")?;
    let clear: &[&[u8]] = &[
        b"%!\n/Encoding 256 array ",
        codes.as_slice(),
        b"def\ncurrentfile eexec\n",
    ];
    let private: &[&[u8]] = &[
        b"/lenIV 0 def /Subrs 2000 array\n",
        subrs.as_slice(),
        b"ND\n/CharStrings 4001 dict dup begin\n/.notdef 1 RD x ND\n",
        glyphs.as_slice(),
        b"end\nmark currentfile closefile\n",
    ];
    file_of(alloc, clear, private)
}

/// The canonical PFB of a font that is cut to `.notdef`, to the names of such lengths, and to these Subrs.
fn part_of(
    alloc: Global,
    font: &Font<'_>,
    lengths: Range<usize>,
    subrs: Range<u16>,
) -> Result<Vec<u8>, AllocError> {
    let names: Vec<&[u8]> = font
        .names()
        .filter(|name| lengths.contains(&name.len()))
        .collect(alloc)?;
    let subrs: Vec<u16> = subrs.collect(alloc)?;
    cut(alloc, font, names.as_slice(), subrs.as_slice())
}

/// The same of a file's font.
pub fn part(
    alloc: Global,
    file: &[u8],
    lengths: Range<usize>,
    subrs: Range<u16>,
) -> Result<Vec<u8>, AllocError> {
    of_font(alloc, file, |font| part_of(alloc, font, lengths, subrs))
}

/// How many glyphs a font has, its weight, and whether its codes 99 and 100 have names.
fn counts_of(font: &Font<'_>) -> (usize, u32, bool, bool) {
    let codes = (
        font.encoding_at(99).is_some(),
        font.encoding_at(100).is_some(),
    );
    (font.names().count(), font.weight(), codes.0, codes.1)
}

/// Whether a file's font has these.
fn counts_as(alloc: Global, file: &[u8], want: (usize, u32, bool, bool)) -> bool {
    of_file(alloc, file, |font| Ok(counts_of(font) == want)) == Ok(true)
}

/// How many glyphs a large font's parts and both together have, their weights, and whether codes 99 and 100 have names.
const PARTS: [(usize, u32, bool, bool); 3] = [
    // The kept texts have 3, 18, 13, 1 and 27 bytes; a Subr of two bytes weighs 130, and a glyph 257.
    (
        1_001,
        62 + 1_000 * 130 + 1_000 * 129 + 1_001 * 257,
        true,
        true,
    ),
    (
        3_901,
        62 + 1_500 * 130 + 500 * 129 + 3_901 * 257,
        false,
        true,
    ),
    (4_001, 62 + 2_000 * 130 + 4_001 * 257, true, true),
];

#[test]
fn thousands_of_entries(rt: HostRuntime) -> Result<(), Fail> {
    let file = large(rt.alloc())?;
    let one = part(rt.alloc(), file.as_slice(), 1..4, 0..1000)?;
    let other = part(rt.alloc(), file.as_slice(), 3..5, 500..2000)?;
    let both = joined(rt.alloc(), one.as_slice(), other.as_slice())?;
    let [first, second, all] = PARTS;
    assert!(rt;
        counts_as(rt.alloc(), one.as_slice(), first),
        "names of at most three digits"
    );
    assert!(rt;
        counts_as(rt.alloc(), other.as_slice(), second),
        "names of at least three digits"
    );
    assert!(rt; counts_as(rt.alloc(), both.as_slice(), all), "all");
    Ok(())
}
