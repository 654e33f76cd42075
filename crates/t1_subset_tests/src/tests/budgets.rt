//! Subsets, mergers and rejoined fonts within budgets of tokens.

use super::fonts::{ACCENTED, SHELL, Shell, whole, with_glyph, with_shell};
use super::lacks::{FIVE, Made, lacking, sources};
use std::alloc::{AllocError, Global};
use std::test::Fail;
use t1_subset::{
    Budget, BudgetFault, Conflict, RejoinFault, Stop, SubsetFault, conflicts_within, fonts_of,
    merge_all_within, rejoin_within, subset_within,
};

/// How a call is answered: by a font, by too many tokens, or by what it refuses without a budget.
#[derive(Clone, Copy, PartialEq, Eq, Debug)]
pub(super) enum Answer {
    Made,
    TooMany,
    Refused,
}

/// How the font of a file is cut to these names.
pub(super) fn cut_within(
    alloc: Global,
    file: &[u8],
    names: &[&[u8]],
    left: Option<u64>,
) -> Result<Answer, AllocError> {
    let files = sources(alloc, &[file])?;
    let fonts = fonts_of(alloc, files.as_slice())?;
    let Some(font) = fonts.first() else {
        return Err(AllocError);
    };
    match subset_within(alloc, font, names, Budget { left }) {
        Ok(_) => Ok(Answer::Made),
        Err(BudgetFault::TooManyTokens) => Ok(Answer::TooMany),
        Err(BudgetFault::Plain(SubsetFault::Memory)) => Err(AllocError),
        Err(BudgetFault::Plain(_)) => Ok(Answer::Refused),
    }
}

/// How the fonts of files are merged.
pub(super) fn merged_within(
    alloc: Global,
    files: &[&[u8]],
    left: Option<u64>,
) -> Result<Answer, AllocError> {
    let files = sources(alloc, files)?;
    let fonts = fonts_of(alloc, files.as_slice())?;
    match merge_all_within(alloc, fonts.as_slice(), Budget { left }) {
        Ok(_) => Ok(Answer::Made),
        Err(BudgetFault::TooManyTokens) => Ok(Answer::TooMany),
        Err(BudgetFault::Plain(Conflict::Memory)) => Err(AllocError),
        Err(BudgetFault::Plain(_)) => Ok(Answer::Refused),
    }
}

/// How the fonts of files are rejoined.
pub(super) fn rejoined_within(
    alloc: Global,
    files: &[&[u8]],
    left: Option<u64>,
) -> Result<Answer, AllocError> {
    let files = sources(alloc, files)?;
    let mut indices = Vec::new(alloc);
    match rejoin_within(alloc, files.as_slice(), &mut indices, Budget { left }) {
        Ok(_) => Ok(Answer::Made),
        Err(BudgetFault::TooManyTokens) => Ok(Answer::TooMany),
        Err(BudgetFault::Plain(RejoinFault::Merge(Conflict::Memory))) => Err(AllocError),
        Err(BudgetFault::Plain(_)) => Ok(Answer::Refused),
    }
}

/// How the conflicts of two files are told: `Made` if there are none.
fn differs_within(
    alloc: Global,
    files: [&[u8]; 2],
    left: Option<u64>,
) -> Result<Answer, AllocError> {
    let files = sources(alloc, &files)?;
    let fonts = fonts_of(alloc, files.as_slice())?;
    let [own, other] = fonts.as_slice() else {
        return Err(AllocError);
    };
    match conflicts_within(alloc, own, other, Budget { left }) {
        Ok(all) if all.is_empty() => Ok(Answer::Made),
        Ok(_) => Ok(Answer::Refused),
        Err(Stop::TooManyTokens) => Ok(Answer::TooMany),
        Err(Stop::Memory) => Err(AllocError),
    }
}

/// Names, and the tokens that the runs of what they keep execute: .notdef 4, A and acute 12, Aacute 9, X 16, and by both answers H
/// 37 and P 34.
const CUTS: &[(&[&[u8]], u64)] = &[
    (&[], 4),
    (&[b"X"], 20),
    (&[b"H"], 41),
    (&[b"P", b"P"], 38),
    (&[b"Aacute"], 37),
];

// meets subset_within TooManyTokens at 0, 1, 2 names
#[test]
fn cuts_within_budgets(rt: HostRuntime) -> Result<(), Fail> {
    let file = whole(rt.alloc())?;
    for &(names, tokens) in CUTS {
        let enough = cut_within(rt.alloc(), file.as_slice(), names, Some(tokens))?;
        let fewer = cut_within(rt.alloc(), file.as_slice(), names, Some(tokens - 1))?;
        let free = cut_within(rt.alloc(), file.as_slice(), names, None)?;
        assert!(rt; enough == Answer::Made, "{tokens} tokens");
        assert!(rt; fewer == Answer::TooMany, "fewer than {tokens} tokens");
        assert!(rt; free == Answer::Made, "no budget for {tokens} tokens");
    }
    let absent = cut_within(rt.alloc(), file.as_slice(), &[b"Z"], Some(0))?;
    assert!(rt; absent == Answer::Refused, "a name that is absent");
    Ok(())
}

/// The tokens that the runs of all glyphs of the whole font execute, of which B is as the one before it.
const ALL: u64 = 150;

// meets conflicts_within TooManyTokens at 2 fonts
#[test]
fn differs_within_budgets(rt: HostRuntime) -> Result<(), Fail> {
    let alloc = rt.alloc();
    let file = whole(alloc)?;
    let other = with_glyph(alloc, 1, (b"A", b"\x0e"))?;
    let two = [file.as_slice(), file.as_slice()];
    assert!(rt; differs_within(alloc, two, Some(2 * ALL))? == Answer::Made);
    assert!(rt; differs_within(alloc, two, Some(2 * ALL - 1))? == Answer::TooMany);
    assert!(rt; differs_within(alloc, two, None)? == Answer::Made);
    // The other A, of one token, is 11 tokens shorter.
    let unlike = [file.as_slice(), other.as_slice()];
    assert!(rt; differs_within(alloc, unlike, Some(2 * ALL - 11))? == Answer::Refused);
    assert!(rt; differs_within(alloc, unlike, Some(2 * ALL - 12))? == Answer::TooMany);
    assert!(rt; differs_within(alloc, unlike, Some(0))? == Answer::TooMany);
    Ok(())
}

// meets merge_all_within TooManyTokens at 1, 2 fonts
#[test]
fn merges_within_budgets(rt: HostRuntime) -> Result<(), Fail> {
    let alloc = rt.alloc();
    let file = whole(alloc)?;
    let one = [file.as_slice()];
    let two = [file.as_slice(), file.as_slice()];
    assert!(rt; merged_within(alloc, &one, Some(ALL))? == Answer::Made);
    assert!(rt; merged_within(alloc, &one, Some(ALL - 1))? == Answer::TooMany);
    assert!(rt; merged_within(alloc, &one, None)? == Answer::Made);
    assert!(rt; merged_within(alloc, &two, Some(2 * ALL))? == Answer::Made);
    assert!(rt; merged_within(alloc, &two, Some(2 * ALL - 1))? == Answer::TooMany);
    assert!(rt; merged_within(alloc, &two, None)? == Answer::Made);
    assert!(rt; merged_within(alloc, &[], Some(0))? == Answer::Refused);
    Ok(())
}

// Shells are compared before any glyph is run; a conflict of glyphs is told only if the budget is enough for the runs.
#[test]
fn refuses_within_budgets(rt: HostRuntime) -> Result<(), Fail> {
    const TAIL: Shell = Shell {
        tail: b"\nend mark currentfile closefile",
        ..SHELL
    };
    let alloc = rt.alloc();
    let file = whole(alloc)?;
    let shell = with_shell(alloc, &TAIL)?;
    let glyph = with_glyph(alloc, 9, (b"acute", ACCENTED))?;
    let shells = [file.as_slice(), shell.as_slice()];
    let third = [file.as_slice(), file.as_slice(), shell.as_slice()];
    // The other acute, of nine tokens, is three tokens shorter.
    let glyphs = [file.as_slice(), glyph.as_slice()];
    assert!(rt; merged_within(alloc, &shells, Some(0))? == Answer::Refused);
    assert!(rt; merged_within(alloc, &third, Some(3 * ALL))? == Answer::Refused);
    assert!(rt; merged_within(alloc, &third, Some(3 * ALL - 1))? == Answer::TooMany);
    assert!(rt; merged_within(alloc, &glyphs, Some(2 * ALL - 3))? == Answer::Refused);
    assert!(rt; merged_within(alloc, &glyphs, Some(2 * ALL - 4))? == Answer::TooMany);
    assert!(rt; rejoined_within(alloc, &shells, Some(2 * ALL))? == Answer::Refused);
    assert!(rt; rejoined_within(alloc, &shells, Some(2 * ALL - 1))? == Answer::TooMany);
    assert!(rt; rejoined_within(alloc, &glyphs, Some(2 * ALL - 3))? == Answer::Refused);
    assert!(rt; rejoined_within(alloc, &glyphs, Some(2 * ALL - 4))? == Answer::TooMany);
    Ok(())
}

// meets rejoin_within TooManyTokens at 1, 2 fonts
#[test]
fn rejoins_within_budgets(rt: HostRuntime) -> Result<(), Fail> {
    let alloc = rt.alloc();
    let file = whole(alloc)?;
    let one = [file.as_slice()];
    let two = [file.as_slice(), file.as_slice()];
    assert!(rt; rejoined_within(alloc, &one, Some(ALL))? == Answer::Made);
    assert!(rt; rejoined_within(alloc, &one, Some(ALL - 1))? == Answer::TooMany);
    assert!(rt; rejoined_within(alloc, &two, Some(2 * ALL))? == Answer::Made);
    assert!(rt; rejoined_within(alloc, &two, Some(2 * ALL - 1))? == Answer::TooMany);
    assert!(rt; rejoined_within(alloc, &two, None)? == Answer::Made);
    assert!(rt; rejoined_within(alloc, &[], Some(0))? == Answer::Refused);
    Ok(())
}

/// The tokens of the same font without Subr 5, which P, X, Y and acute call.
const WITHOUT_5: u64 = 121;

/// A file that has so long a line before it that its font is near the greatest weight, 67,108,864: a stub is too heavy for it.
fn near_the_limit(alloc: Global, made: &Made) -> Result<Vec<u8>, AllocError> {
    let mut heavy = Vec::from_slice(alloc, b"%")?;
    heavy.resize(67_104_845, b'!')?;
    heavy.push(b'\n')?;
    heavy.extend_from_slice(lacking(alloc, made)?.as_slice())?;
    Ok(heavy)
}

/// Whether so many tokens are enough for fonts that are refused, and one fewer is not.
fn is_refused_from(alloc: Global, files: &[&[u8]], tokens: u64) -> Result<bool, AllocError> {
    let enough = rejoined_within(alloc, files, Some(tokens))?;
    let fewer = rejoined_within(alloc, files, Some(tokens.saturating_sub(1)))?;
    Ok(enough == Answer::Refused && fewer == Answer::TooMany)
}

// Fonts behind the first that lacks a Subr aren't run.
#[test]
fn lacks_within_budgets(rt: HostRuntime) -> Result<(), Fail> {
    let alloc = rt.alloc();
    let all = whole(alloc)?;
    let five = lacking(alloc, &FIVE)?;
    let (all, five) = (all.as_slice(), five.as_slice());
    assert!(rt; is_refused_from(alloc, &[five, all], WITHOUT_5)?);
    assert!(rt; is_refused_from(alloc, &[all, five], ALL + WITHOUT_5)?);
    assert!(rt; is_refused_from(alloc, &[all, five, all], ALL + WITHOUT_5)?);
    Ok(())
}

// Fonts that are too heavy with their stubs are run as the others are.
#[test]
fn heavy_fonts_within_budgets(rt: HostRuntime) -> Result<(), Fail> {
    const NONE_EXECUTES: Made = (SHELL, &[b"8", b"9"]);
    let alloc = rt.alloc();
    let all = whole(alloc)?;
    let lacks = near_the_limit(alloc, &FIVE)?;
    let heavy = near_the_limit(alloc, &NONE_EXECUTES)?;
    let (all, lacks, heavy) = (all.as_slice(), lacks.as_slice(), heavy.as_slice());
    assert!(rt; rejoined_within(alloc, &[heavy], Some(ALL))? == Answer::Made);
    assert!(rt; is_refused_from(alloc, &[lacks, all], WITHOUT_5)?);
    assert!(rt; is_refused_from(alloc, &[all, lacks], ALL + WITHOUT_5)?);
    assert!(rt; is_refused_from(alloc, &[heavy, all], 2 * ALL)?);
    assert!(rt; is_refused_from(alloc, &[all, heavy], 2 * ALL)?);
    Ok(())
}
