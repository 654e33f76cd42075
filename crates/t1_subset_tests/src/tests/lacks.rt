//! Lists of fonts of which a glyph executes a Subr that its font lacks, and shells of lists.

use super::fonts::{Entry, GLYPHS, SHELL, SUBRS, Shell, file, font, glyphs_text, lent, put_entry};
use std::alloc::{AllocError, Global};
use std::test::Fail;
use t1_font::{Font, Source, read};
use t1_subset::{
    Budget, Conflict, RejoinFault, ShellPart, Stop, first_lack, fonts_of, rejoin, shells_conflict,
};

/// A shell, and the indices of the Subrs above that a font lacks.
pub type Made = (Shell, &'static [&'static [u8]]);

pub const WHOLE: Made = (SHELL, &[]);

pub const FIVE: Made = (SHELL, &[b"5"]);

pub const EIGHT: Made = (SHELL, &[b"8"]);

/// The shell without a table of Subrs.
const BARE: Shell = Shell {
    subrs: b"",
    ..SHELL
};

/// The shell with one more declared Subr.
const ELEVEN: Shell = Shell {
    subrs: b"/Subrs 11 array\n",
    ..SHELL
};

/// Another tail, and another head.
const TAIL: Shell = Shell {
    tail: b"\nend mark currentfile closefile",
    ..SHELL
};

const HEAD: Shell = Shell {
    head: b"%!PS\n",
    ..SHELL
};

/// The Subrs above but for those of these indices.
fn without(alloc: Global, indices: &[&[u8]]) -> Result<Vec<Entry>, AllocError> {
    let mut left = Vec::new(alloc);
    for (index, plain) in SUBRS {
        if !indices.iter().any(|other| *other == *index) {
            left.push((*index, *plain))?;
        }
    }
    Ok(left)
}

/// The file of a shell and the glyphs above, with the Subrs above but for those of these indices.
pub fn lacking(alloc: Global, made: &Made) -> Result<Vec<u8>, AllocError> {
    let (shell, indices) = made;
    let left = without(alloc, indices)?;
    font(alloc, shell, left.as_slice(), GLYPHS)
}

/// The source of each file.
pub fn sources(alloc: Global, files: &[&[u8]]) -> Result<Vec<Source>, AllocError> {
    let mut sources = Vec::new(alloc);
    for file in files {
        let Ok(source) = read(alloc, file) else {
            return Err(AllocError);
        };
        match sources.push(source) {
            Ok(_) => {}
            Err(_) => return Err(AllocError),
        }
    }
    Ok(sources)
}

/// How many Subrs and glyphs a font has.
fn counts_text(alloc: Global, font: &Font<'_>) -> Result<String, AllocError> {
    let mut text = font.subrs().len().to_string(alloc)?;
    text.push_str(" ")?;
    text.push_str(font.glyphs().len().to_string(alloc)?.as_str())?;
    Ok(text)
}

/// What the first font of a list lacks: the index and the glyph, as a text.
fn lack_text(alloc: Global, fonts: &[Font<'_>]) -> Result<Vec<u8>, AllocError> {
    let mut text = Vec::new(alloc);
    let Ok(lack) = first_lack(alloc, fonts, Budget { left: None }) else {
        return Err(AllocError);
    };
    if let Some(lack) = lack {
        text.extend_from_slice(lack.index.to_string(alloc)?.as_bytes())?;
        text.push(b' ')?;
        text.extend_from_slice(lack.glyph)?;
    }
    Ok(text)
}

/// What the first font of the files lacks, as a text.
pub fn lack_in(alloc: Global, files: &[&[u8]]) -> Result<Vec<u8>, AllocError> {
    let sources = sources(alloc, files)?;
    let fonts = fonts_of(alloc, sources.as_slice())?;
    lack_text(alloc, fonts.as_slice())
}

/// The first part in which the shells of the files differ.
pub fn differing_in(alloc: Global, files: &[&[u8]]) -> Result<Option<ShellPart>, AllocError> {
    let sources = sources(alloc, files)?;
    let fonts = fonts_of(alloc, sources.as_slice())?;
    Ok(shells_conflict(alloc, fonts.as_slice()))
}

/// How many Subrs and glyphs the font has that the files rejoin to, as a text, or why they don't rejoin.
pub fn rejoined(alloc: Global, files: &[&[u8]]) -> Result<Vec<u8>, AllocError> {
    let sources = sources(alloc, files)?;
    let mut indices = Vec::new(alloc);
    let text = match rejoin(alloc, sources.as_slice(), &mut indices) {
        Ok(font) => counts_text(alloc, &font)?,
        Err(RejoinFault::Merge(Conflict::Memory)) => return Err(AllocError),
        Err(fault) => fault.to_string(alloc)?,
    };
    Vec::from_slice(alloc, text.as_bytes())
}

/// The files of these fonts.
fn files(alloc: Global, all: &[Made]) -> Result<Vec<Vec<u8>>, AllocError> {
    let mut files = Vec::new(alloc);
    for made in all {
        match files.push(lacking(alloc, made)?) {
            Ok(_) => {}
            Err(_) => return Err(AllocError),
        }
    }
    Ok(files)
}

/// Fonts, what the first of them lacks, and what they rejoin to. P executes Subr 5 where hints are kept, A executes Subr 6, and H
/// Subrs 4 and 7.
const LACKS: &[(&str, &[Made], &[u8], &[u8])] = &[
    ("no font", &[], b"", b"nothing to merge"),
    ("one font", &[FIVE], b"", b"9 10"),
    ("the same font", &[WHOLE, WHOLE], b"", b"10 10"),
    (
        "no font has it",
        &[FIVE, (SHELL, &[b"5", b"8", b"9"])],
        b"",
        b"9 10",
    ),
    ("the last", &[WHOLE, FIVE], b"5 P", b"glyph P lacks subr 5"),
    ("the first", &[FIVE, WHOLE], b"5 P", b"glyph P lacks subr 5"),
    (
        "the smallest index",
        &[WHOLE, (SHELL, &[b"5", b"6"])],
        b"5 P",
        b"glyph P lacks subr 5",
    ),
    (
        "it alone is had",
        &[FIVE, (SHELL, &[b"5", b"6"])],
        b"6 A",
        b"glyph A lacks subr 6",
    ),
    (
        "the first font",
        &[WHOLE, (SHELL, &[b"6", b"7"]), FIVE],
        b"6 A",
        b"glyph A lacks subr 6",
    ),
    (
        "before it",
        &[FIVE, (SHELL, &[b"6", b"7"]), WHOLE],
        b"5 P",
        b"glyph P lacks subr 5",
    ),
    (
        "before a shell that differs",
        &[(TAIL, &[]), WHOLE, FIVE],
        b"5 P",
        b"glyph P lacks subr 5",
    ),
    (
        "nobody executes it",
        &[WHOLE, (SHELL, &[b"8", b"9"])],
        b"",
        b"10 10",
    ),
    (
        "stubs in both",
        &[(SHELL, &[b"8"]), (SHELL, &[b"9"]), WHOLE],
        b"",
        b"10 10",
    ),
    (
        "another shell",
        &[WHOLE, (SHELL, &[b"8"]), (TAIL, &[])],
        b"",
        b"shells differ in tail",
    ),
    (
        "no table",
        &[WHOLE, (BARE, &[])],
        b"",
        b"shells differ in private",
    ),
    (
        "a table",
        &[WHOLE, (SHELL, ALL)],
        b"3 P",
        b"glyph P lacks subr 3",
    ),
];

/// The indices of all Subrs above.
const ALL: &[&[u8]] = &[b"0", b"1", b"2", b"3", b"4", b"5", b"6", b"7", b"8", b"9"];

// meets first_lack None at 0, 1, 2, 3 fonts
// meets first_lack Some at 2, 3 fonts
// meets fonts_of Ok at 0, 1, 2, 3 fonts
// meets rejoin Ok at 1, 2, 3 fonts
// meets rejoin Lacks at 2, 3 fonts
// meets rejoin Merge at 0, 2, 3 fonts
#[test]
fn the_first_lack(rt: HostRuntime) -> Result<(), Fail> {
    for (name, all, want, rejoins) in LACKS {
        let files = files(rt.alloc(), all)?;
        let lent = lent(rt.alloc(), files.as_slice())?;
        let got = lack_in(rt.alloc(), lent.as_slice())?;
        assert!(rt; got.as_slice() == *want, "{name}");
        let got = rejoined(rt.alloc(), lent.as_slice())?;
        assert!(rt; got.as_slice() == *rejoins, "{name} rejoins");
    }
    Ok(())
}

/// Fonts, and the first part in which a shell differs from the first.
const SHELLS: &[(&str, &[Made], Option<ShellPart>)] = &[
    ("no font", &[], None),
    ("one font", &[WHOLE], None),
    ("whichever Subrs are present", &[WHOLE, FIVE], None),
    (
        "the last",
        &[WHOLE, FIVE, (TAIL, &[])],
        Some(ShellPart::Tail),
    ),
    ("the first", &[(TAIL, &[]), WHOLE], Some(ShellPart::Tail)),
    (
        "the first that differs",
        &[WHOLE, (TAIL, &[]), (HEAD, &[])],
        Some(ShellPart::Tail),
    ),
    (
        "the count of Subrs",
        &[WHOLE, (ELEVEN, &[])],
        Some(ShellPart::SubrsTable),
    ),
    // Without a table all of the private text stands before CharStrings.
    ("no table", &[WHOLE, (BARE, &[])], Some(ShellPart::Private)),
];

// meets shells_conflict None at 0, 1, 2 fonts
// meets shells_conflict Some at 2, 3 fonts
#[test]
fn shells_of_lists(rt: HostRuntime) -> Result<(), Fail> {
    for (name, all, want) in SHELLS {
        let files = files(rt.alloc(), all)?;
        let lent = lent(rt.alloc(), files.as_slice())?;
        let got = differing_in(rt.alloc(), lent.as_slice())?;
        assert!(rt; got == *want, "{name}");
    }
    Ok(())
}

/// Whether the search for a lack ends for want of tokens alone, within a budget.
fn is_cut_off(alloc: Global, files: &[&[u8]], tokens: u64) -> Result<bool, AllocError> {
    let sources = sources(alloc, files)?;
    let fonts = fonts_of(alloc, sources.as_slice())?;
    let budget = Budget { left: Some(tokens) };
    match first_lack(alloc, fonts.as_slice(), budget) {
        Ok(_) => Ok(false),
        Err(Stop::TooManyTokens) => Ok(true),
        Err(Stop::Memory) => Err(AllocError),
    }
}

/// Whether so many tokens are enough to look for a lack in these fonts, and one fewer is not.
fn is_searched_from(alloc: Global, made: &[Made], tokens: u64) -> Result<bool, AllocError> {
    let files = files(alloc, made)?;
    let lent = lent(alloc, files.as_slice())?;
    let enough = is_cut_off(alloc, lent.as_slice(), tokens)?;
    let fewer = is_cut_off(alloc, lent.as_slice(), tokens.saturating_sub(1))?;
    Ok(!enough && fewer)
}

// meets first_lack TooManyTokens at 2 fonts
#[test]
fn a_lack_within_a_budget(rt: HostRuntime) -> Result<(), Fail> {
    // 150 tokens of the whole font, and 121 of the other.
    assert!(rt; is_searched_from(rt.alloc(), &[WHOLE, FIVE], 271)?);
    assert!(rt; is_searched_from(rt.alloc(), &[FIVE, WHOLE], 121)?);
    let files = files(rt.alloc(), &[WHOLE, WHOLE])?;
    let lent = lent(rt.alloc(), files.as_slice())?;
    assert!(rt; !is_cut_off(rt.alloc(), lent.as_slice(), 0)?);
    Ok(())
}

/// The file of these Subrs and of `.notdef` and glyphs that call Subr 5, 65535 in all.
fn many(alloc: Global, subrs: &[Entry]) -> Result<Vec<u8>, AllocError> {
    let mut text = glyphs_text(alloc, &SHELL, &[(b".notdef", b"\x0e")])?;
    for number in 0..65_534u32 {
        let mut name = Vec::from_slice(alloc, b"/")?;
        name.extend_from_slice(number.to_string(alloc)?.as_bytes())?;
        let plain = b"\x8b\x8b\x0d\x90\x0a\x0e";
        put_entry(alloc, &mut text, name.as_slice(), plain, SHELL.def)?;
    }
    file(alloc, &SHELL, subrs, text.as_slice())
}

// meets first_lack None at 65535 glyphs
// meets first_lack Some at 65535 glyphs
// meets shells_conflict None at 65535 glyphs
// meets rejoin Lacks at 65535 glyphs
// meets rejoin Ok at 65535 glyphs
// meets fonts_of Ok at 65535 glyphs
#[test]
fn a_lack_of_many_glyphs(rt: HostRuntime) -> Result<(), Fail> {
    let whole = lacking(rt.alloc(), &WHOLE)?;
    let left = without(rt.alloc(), &[b"5"])?;
    let five = many(rt.alloc(), left.as_slice())?;
    let got = lack_in(rt.alloc(), &[five.as_slice(), whole.as_slice()])?;
    assert!(rt; got.as_slice() == b"5 0".as_slice());
    let got = rejoined(rt.alloc(), &[five.as_slice(), whole.as_slice()])?;
    assert!(rt; got.as_slice() == b"glyph 0 lacks subr 5".as_slice());
    let left = without(rt.alloc(), &[b"8"])?;
    let eight = many(rt.alloc(), left.as_slice())?;
    let files = [eight.as_slice(), whole.as_slice()];
    assert!(rt; lack_in(rt.alloc(), &files)?.is_empty());
    let own = [eight.as_slice()];
    assert!(rt; rejoined(rt.alloc(), &own)?.as_slice() == b"9 65535".as_slice());
    assert!(rt; differing_in(rt.alloc(), &files)?.is_none());
    Ok(())
}
