//! Sources normalized, and fonts that are filled.

use std::alloc::{AllocError, Global};
use std::test::Fail;
use t1_font::{Font, Part, PartsFault, STUB, Source, fill_all, normalize_shells};
use t1_font_shared_tests::{
    GLYPHS, add_line, behind, joined, lent, lent_counts, seen, source, used,
};

/// Subr 0, of two that are declared.
const ONE: &[u8] = b"/lenIV 0 def /Subrs 2 array\ndup 0 1 RD \x0e NP\nND\n";

/// Subrs 1 and 4, of five.
const TWO: &[u8] = b"/lenIV 0 def /Subrs 5 array\ndup 1 1 RD \x0e NP\ndup 4 1 RD \x0e NP\nND\n";

/// None of three.
const EMPTY: &[u8] = b"/lenIV 0 def /Subrs 3 array\nND\n";

/// No table of Subrs.
pub const NONE: &[u8] = b"/lenIV 0 def ";

/// The source of a font with so many blanks and this head, and with these Subrs.
pub fn made(alloc: Global, blanks: usize, head: &[u8], subrs: &[u8]) -> Result<Source, AllocError> {
    let head = behind(alloc, blanks, head)?;
    let clear = joined(
        alloc,
        &[
            head.as_slice(),
            b"/Encoding StandardEncoding def\ncurrentfile eexec\n",
        ],
    )?;
    let private = joined(alloc, &[subrs, GLYPHS])?;
    match source(alloc, clear.as_slice(), private.as_slice()) {
        Ok(source) => Ok(source),
        Err(_) => Err(AllocError),
    }
}

/// Whether the font of a source has this head.
pub fn has_head(alloc: Global, source: &Source, head: &[u8]) -> Result<bool, AllocError> {
    lent(alloc, source, |font| Ok(font.text(Part::Head) == head))
}

/// The source of a font with this head that is normalized.
fn normal(alloc: Global, head: &[u8]) -> Result<Source, AllocError> {
    match made(alloc, 0, head, ONE) {
        Ok(source) => source.normalize(alloc, 7),
        Err(fault) => Err(fault),
    }
}

/// Whether this is left of a head when its font is normalized.
pub fn is_left(alloc: Global, head: &[u8], want: &[u8]) -> Result<bool, AllocError> {
    used(normal(alloc, head), |source| {
        Ok(source.declared_count() == 7 && has_head(alloc, source, want)?)
    })
}

/// For each Subr of the first five a letter: a dot where there is none, `s` for a stub, else `b`.
fn put_marks(marks: &mut Vec<u8>, font: &Font<'_>) -> Result<(), AllocError> {
    for index in 0..5u16 {
        let mark = match font.subr(index) {
            None => b'.',
            Some(body) if body == STUB => b's',
            Some(_) => b'b',
        };
        marks.push(mark)?;
    }
    marks.push(b' ')?;
    Ok(())
}

/// The fonts of sources.
fn fonts_of(alloc: Global, sources: &[Source]) -> Result<Vec<Font<'_>>, AllocError> {
    let mut fonts = Vec::new(alloc);
    for source in sources {
        fonts.push(source.font(alloc)?)?;
    }
    Ok(fonts)
}

/// The same when they are filled.
fn filled_fonts<'a>(
    alloc: Global,
    sources: &'a [Source],
    indices: &'a mut Vec<u16>,
) -> Result<Vec<Font<'a>>, PartsFault> {
    match fonts_of(alloc, sources) {
        Ok(fonts) => fill_all(alloc, fonts, indices),
        Err(_) => Err(PartsFault::Memory),
    }
}

/// The marks of fonts.
fn marks_of(alloc: Global, fonts: &[Font<'_>]) -> Result<Vec<u8>, PartsFault> {
    let mut marks = Vec::new(alloc);
    for font in fonts {
        put_marks(&mut marks, font)?;
    }
    Ok(marks)
}

/// The marks of the fonts of sources when they are filled.
fn lent_marks(alloc: Global, sources: &[Source]) -> Result<Vec<u8>, PartsFault> {
    let mut indices = Vec::new(alloc);
    used(
        filled_fonts(alloc, sources, &mut indices),
        |fonts| marks_of(alloc, fonts.as_slice()),
    )
}

/// The sources of fonts with these Subrs, the first of them with so many blanks more.
fn sources(alloc: Global, blanks: usize, tables: &[&[u8]]) -> Result<Vec<Source>, AllocError> {
    let mut sources = Vec::new(alloc);
    let mut blanks = blanks;
    for &table in tables {
        sources.push(made(alloc, blanks, b"%!\n", table)?)?;
        blanks = 0;
    }
    Ok(sources)
}

/// The marks of fonts with these Subrs when they are filled as they are.
fn filled(alloc: Global, tables: &[&[u8]]) -> Result<Vec<u8>, PartsFault> {
    let sources = sources(alloc, 0, tables)?;
    lent_marks(alloc, sources.as_slice())
}

/// The marks of fonts with these Subrs when they are normalized.
pub fn normalized(alloc: Global, tables: &[&[u8]]) -> Result<Vec<u8>, PartsFault> {
    match normalize_shells(alloc, sources(alloc, 0, tables)?) {
        Ok(sources) => lent_marks(alloc, sources.as_slice()),
        Err(_) => Err(PartsFault::Memory),
    }
}

/// All four tables.
pub const TABLES: &[&[u8]] = &[ONE, TWO, EMPTY, NONE];

/// The marks of their fonts when they are normalized.
pub const MARKS: &[u8] = b"bs..s sb..b ..... ..... ";

/// And when they are filled with the counts that they have.
const AS_THEY_ARE: &[u8] = b"bs... sb..b ..... ..... ";

/// A head behind a comment of so many bytes, or alone.
fn behind_comment(alloc: Global, bytes: usize, head: &[u8]) -> Result<Vec<u8>, AllocError> {
    let mut all = Vec::new(alloc);
    if bytes > 0 {
        all.resize(bytes, b'%')?;
        all.push(b'\n')?;
    }
    all.extend_from_slice(head)?;
    Ok(all)
}

/// Whether this is left of a head behind a comment of so many bytes.
fn is_left_behind(
    alloc: Global,
    bytes: usize,
    head: &[u8],
    want: &[u8],
) -> Result<bool, AllocError> {
    let head = behind_comment(alloc, bytes, head)?;
    let want = behind_comment(alloc, bytes, want)?;
    is_left(alloc, head.as_slice(), want.as_slice())
}

// meets Source::normalize Ok at 0, 1000000 bytes
#[test]
fn heads_without_tags(rt: HostRuntime) {
    const ROWS: &[(&[u8], &[u8], &str)] = &[
        (
            b"%!\n/FontName /ABCDEF+Tiny def\n",
            b"%!\n/FontName /Tiny def\n",
            "a tag",
        ),
        (
            b"/FontName\n/ABCDEF+GHIJKL+Tiny def ",
            b"/FontName\n/Tiny def ",
            "two tags",
        ),
        (
            b"/FontName /ABCDE+T def ",
            b"/FontName /ABCDE+T def ",
            "five letters",
        ),
        (
            b"/FontName /ABCDE1+T def ",
            b"/FontName /ABCDE1+T def ",
            "a digit",
        ),
        (
            b"/FontName (ABCDEF+T) def ",
            b"/FontName (ABCDEF+T) def ",
            "no slash",
        ),
        (
            b"/FontName /ABCDEF+Encoding def ",
            b"/FontName /ABCDEF+Encoding def ",
            "a name that would begin an Encoding",
        ),
        (
            b"/Name /ABCDEF+T def ",
            b"/Name /ABCDEF+T def ",
            "another name",
        ),
        (
            b"%!PS-AdobeFont-1.0: ABCDEF+T 1\n/FullName (ABCDEF+T) def /FontName /ABCDEF+T def ",
            b"%!PS-AdobeFont-1.0: T 1\n/FullName (T) def /FontName /T def ",
            "the name elsewhere",
        ),
        (
            b"%ABCDEF+T003.002 AABCDEF+T UVWXYZ+T\n/FontName /ABCDEF+T def ",
            b"%T003.002 AABCDEF+T UVWXYZ+T\n/FontName /T def ",
            "a version behind the name, and other names",
        ),
        (
            b"/FontName /ABCDEF+ def ",
            b"/FontName /ABCDEF+ def ",
            "nothing but a tag",
        ),
        (
            b"/FontName /ABCDEF-T def ",
            b"/FontName /ABCDEF-T def ",
            "a hyphen",
        ),
        (b"", b"", "no head"),
    ];
    for &(head, want, what) in ROWS {
        for &bytes in &[0, 1_000_000] {
            let left = is_left_behind(rt.alloc(), bytes, head, want);
            assert!(rt; left == Ok(true), "{what}, behind {bytes} bytes");
        }
    }
}

/// Whether fonts with these tables are normalized, and filled, so that they have these marks.
fn normalize_to(alloc: Global, tables: &[&[u8]], want: &[u8]) -> bool {
    match normalized(alloc, tables) {
        Ok(marks) => marks.as_slice() == want,
        Err(_) => false,
    }
}

/// The marks of so many fonts of one table, and of a last one of another, when they are normalized.
fn marks_of_many(alloc: Global, before: usize) -> Result<Vec<u8>, AllocError> {
    let mut marks = Vec::new(alloc);
    for _ in 0..before {
        marks.extend_from_slice(b"bs..s ")?;
    }
    marks.extend_from_slice(b"sb..b ")?;
    Ok(marks)
}

/// Whether so many fonts, all but the last of them of one table, are normalized, and filled.
fn are_normalized(alloc: Global, fonts: usize) -> Result<bool, AllocError> {
    let before = fonts.saturating_sub(1);
    let mut tables = Vec::new(alloc);
    tables.resize(before, ONE)?;
    tables.push(TWO)?;
    let want = marks_of_many(alloc, before)?;
    Ok(normalize_to(alloc, tables.as_slice(), want.as_slice()))
}

/// Whether fonts with these tables have these marks when they are filled as they are.
fn fill_to(alloc: Global, tables: &[&[u8]], want: &[u8]) -> bool {
    match filled(alloc, tables) {
        Ok(marks) => marks.as_slice() == want,
        Err(_) => false,
    }
}

/// How many Subrs fonts with these tables declare when they are normalized.
fn declared(alloc: Global, tables: &[&[u8]]) -> Result<Vec<u16>, AllocError> {
    used(
        normalize_shells(alloc, sources(alloc, 0, tables)?),
        |sources| {
            sources
                .as_slice()
                .iter()
                .map(|source| source.declared_count())
                .collect(alloc)
        },
    )
}

// meets normalize_shells Ok at 0, 2, 4, 1001 fonts
// like normalize_shells: fill_all
#[test]
fn counts_and_stubs(rt: HostRuntime) -> Result<(), Fail> {
    let alloc = rt.alloc();
    assert!(rt; declared(alloc, TABLES)?.as_slice() == [5, 5, 5, 0].as_slice());
    assert!(rt; normalize_to(alloc, TABLES, MARKS));
    assert!(rt; fill_to(alloc, TABLES, AS_THEY_ARE));
    assert!(rt; normalize_to(alloc, &[], b""));
    for &fonts in &[2, 1_001] {
        assert!(rt; are_normalized(alloc, fonts) == Ok(true), "{fonts} fonts");
    }
    Ok(())
}

/// The lines of every second one of so many Subrs, from the first or from the second on.
fn every_other_line(alloc: Global, declared: u16, from: u16) -> Result<Vec<u8>, AllocError> {
    let mut lines = Vec::new(alloc);
    for index in 0..declared {
        if index % 2 == from {
            add_line(
                alloc,
                &mut lines,
                u32::from(index),
                b"dup ",
                b" 1 RD \x0e NP\n",
            )?;
        }
    }
    Ok(lines)
}

/// A table of so many declared Subrs that has these.
fn every_other(alloc: Global, declared: u16, from: u16) -> Result<Vec<u8>, AllocError> {
    let count = declared.to_string(alloc)?;
    let lines = every_other_line(alloc, declared, from)?;
    let texts: &[&[u8]] = &[
        b"/lenIV 0 def /Subrs ",
        count.as_bytes(),
        b" array\n",
        lines.as_slice(),
        b"ND\n",
    ];
    joined(alloc, texts)
}

/// The sources of two such fonts; the first has even Subrs and so many blanks more, and the second odd ones.
fn halves(alloc: Global, declared: [u16; 2], blanks: usize) -> Result<Vec<Source>, AllocError> {
    let [first, second] = declared;
    let even = every_other(alloc, first, 0)?;
    let odd = every_other(alloc, second, 1)?;
    sources(alloc, blanks, &[even.as_slice(), odd.as_slice()])
}

/// How many Subrs fonts have.
fn subr_counts(alloc: Global, fonts: &[Font<'_>]) -> Result<Vec<usize>, AllocError> {
    let mut counts = Vec::new(alloc);
    for font in fonts {
        counts.push(font.subrs().len())?;
    }
    Ok(counts)
}

/// How many Subrs the fonts of sources have when they are filled.
fn counts_of(alloc: Global, sources: &[Source]) -> Result<Vec<usize>, PartsFault> {
    let mut indices = Vec::new(alloc);
    used(
        filled_fonts(alloc, sources, &mut indices),
        |fonts| Ok(subr_counts(alloc, fonts.as_slice())?),
    )
}

/// How many Subrs two such fonts have when they are filled.
fn counts_of_halves(
    alloc: Global,
    declared: [u16; 2],
    blanks: usize,
) -> Result<Vec<usize>, PartsFault> {
    let halves = halves(alloc, declared, blanks)?;
    counts_of(alloc, halves.as_slice())
}

/// A byte more than a font may weigh.
const HEAVY: usize = 67_108_865;

/// How many blanks the first of two such fonts may have so that it weighs so when it is filled: each stub weighs 129.
fn blanks_for(alloc: Global, declared: u16, filled: usize) -> Result<usize, AllocError> {
    let even = every_other(alloc, declared, 0)?;
    let (_, weight) = used(
        made(alloc, 0, b"%!\n", even.as_slice()),
        |source| lent_counts(alloc, source),
    )?;
    let stubs = usize::from(declared / 2).saturating_mul(129);
    Ok(filled.saturating_sub(weight as usize).saturating_sub(stubs))
}

/// Whether two such fonts have so many Subrs when they are filled.
fn halves_fill(alloc: Global, declared: [u16; 2], blanks: usize, want: [usize; 2]) -> bool {
    match counts_of_halves(alloc, declared, blanks) {
        Ok(counts) => counts.as_slice() == want.as_slice(),
        Err(_) => false,
    }
}

/// Whether two such fonts that declare as many have as many each.
fn fill_each_other(alloc: Global, declared: u16, blanks: usize) -> bool {
    let all = usize::from(declared);
    halves_fill(alloc, [declared, declared], blanks, [all, all])
}

// meets fill_all Ok at 2, 65535 subrs
// meets fill_all Limit at 65535 subrs
#[test]
fn halves_of_all_subrs(rt: HostRuntime) -> Result<(), Fail> {
    for &declared in &[2, 65_535] {
        let blanks = blanks_for(rt.alloc(), declared, HEAVY)?;
        for &blanks in &[0, blanks.saturating_sub(1)] {
            let fills = fill_each_other(rt.alloc(), declared, blanks);
            assert!(rt; fills, "{declared} Subrs, {blanks} blanks");
        }
    }
    let blanks = blanks_for(rt.alloc(), 65_535, HEAVY)?;
    let heavy = counts_of_halves(rt.alloc(), [65_535, 65_535], blanks).err();
    assert!(rt; heavy == Some(PartsFault::Limit));
    Ok(())
}

// The first table declares fewer Subrs than the second has, so its stubs are put into a list of its own.
// meets fill_all Ok at 2002 subrs
#[test]
fn stubs_among_too_many_indices(rt: HostRuntime) {
    assert!(rt; halves_fill(rt.alloc(), [2_002, 4_000], 0, [2_002, 3_001]));
}

// meets fill_all Limit at 2 subrs
// meets fill_all Limit at 67108865 bytes
#[test]
fn a_filled_font_over_the_limit(rt: HostRuntime) -> Result<(), Fail> {
    let blanks = blanks_for(rt.alloc(), 2, HEAVY)?;
    let heavy = counts_of_halves(rt.alloc(), [2, 2], blanks).err();
    assert!(rt; heavy == Some(PartsFault::Limit), "a byte too many");
    Ok(())
}

/// Whether the first two of some fonts have Subrs at the same indices.
fn have_same_subrs(fonts: &[Font<'_>]) -> bool {
    match fonts {
        [first, second, ..] => first.subrs().same_numbers(second.subrs()),
        _ => false,
    }
}

/// Whether two such fonts have Subrs at the same indices before they are filled, and then.
fn same_in_halves(alloc: Global, declared: u16) -> Result<(bool, bool), PartsFault> {
    let halves = halves(alloc, [declared, declared], 0)?;
    let before = seen(
        fonts_of(alloc, halves.as_slice()),
        |fonts| have_same_subrs(fonts.as_slice()),
    );
    let mut indices = Vec::new(alloc);
    let after = seen(
        filled_fonts(alloc, halves.as_slice(), &mut indices),
        |fonts| { have_same_subrs(fonts.as_slice()) },
    );
    Ok((before?, after?))
}

#[test]
fn same_indices_of_halves(rt: HostRuntime) {
    for &declared in &[2, 65_535] {
        let same = same_in_halves(rt.alloc(), declared);
        assert!(rt; same == Ok((false, true)), "{declared} Subrs");
    }
}
