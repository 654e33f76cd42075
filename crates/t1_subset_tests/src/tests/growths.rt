//! Each call that grows, over a small font. `tools/sweep_growths.py` refuses one growth after the other: a call that then
//! answers want of memory answers right when it is made again. `None` is another refusal, which is wrong.

use super::budgets::{Answer, cut_within, merged_within, rejoined_within};
use super::differences::differences;
use super::fonts::whole;
use super::lacks::{EIGHT, FIVE, WHOLE, differing_in, lack_in, lacking, rejoined};
use super::mergers::with_a_and_b;
use std::alloc::{AllocError, Global};
use std::test::Fail;
use t1_font::{Font, Form, Source, read, write};
use t1_subset::{Conflict, SubsetFault, closure, merge, merge_all, states, subset};

/// The canonical PFB of what a call answers, or nothing for another refusal.
fn file_of(alloc: Global, font: Option<Font<'_>>) -> Result<Vec<u8>, AllocError> {
    match font {
        Some(font) => {
            let file = write(alloc, &font, Form::Pfb);
            drop(font);
            file
        }
        None => Ok(Vec::new(alloc)),
    }
}

fn cut<'a>(
    alloc: Global,
    font: &Font<'a>,
    names: &[&[u8]],
) -> Result<Option<Font<'a>>, AllocError> {
    match subset(alloc, font, names) {
        Ok(cut) => Ok(Some(cut)),
        Err(SubsetFault::Memory) => Err(AllocError),
        Err(fault) => {
            drop(fault);
            Ok(None)
        }
    }
}

/// Whether this is the canonical PFB of a font.
fn is_written(alloc: Global, font: &Font<'_>, want: &[u8]) -> Result<bool, AllocError> {
    let file = write(alloc, font, Form::Pfb)?;
    Ok(file.as_slice() == want)
}

/// Whether the font of a merger is the font of this file.
fn is_file(
    alloc: Global,
    answer: Result<Font<'_>, Conflict>,
    want: &[u8],
) -> Result<bool, AllocError> {
    match answer {
        Ok(font) => {
            let is_same = is_written(alloc, &font, want);
            drop(font);
            is_same
        }
        Err(Conflict::Memory) => Err(AllocError),
        Err(conflict) => {
            drop(conflict);
            Ok(false)
        }
    }
}

/// Whether two fonts merge, by both calls, to the font of this file.
fn fonts_merge(alloc: Global, fonts: &[Font<'_>; 2], want: &[u8]) -> Result<bool, AllocError> {
    let [one, other] = fonts;
    let two = is_file(alloc, merge(alloc, one, other), want)?;
    Ok(two && is_file(alloc, merge_all(alloc, fonts), want)?)
}

/// Whether a font and the subset of another over Aacute merge, by both calls, to the font of this file.
fn merges_with_aacute<'a>(
    alloc: Global,
    one: Font<'a>,
    font: &Font<'a>,
    want: &[u8],
) -> Result<bool, AllocError> {
    match cut(alloc, font, &[b"Aacute"]) {
        Ok(Some(other)) => fonts_merge(alloc, &[one, other], want),
        Ok(None) => {
            drop(one);
            Ok(false)
        }
        Err(AllocError) => {
            drop(one);
            Err(AllocError)
        }
    }
}

/// How many Subrs names keep of a font.
fn kept(alloc: Global, font: &Font<'_>, names: &[&[u8]]) -> Result<usize, AllocError> {
    match closure(alloc, font, names) {
        Ok(closure) => {
            let count = closure.subrs.len();
            drop(closure);
            Ok(count)
        }
        Err(SubsetFault::Memory) => Err(AllocError),
        Err(fault) => {
            drop(fault);
            Ok(0)
        }
    }
}

/// Whether two subsets merge, by both calls, to the subset of the names of both.
fn subsets_merge(alloc: Global, font: &Font<'_>) -> Result<bool, AllocError> {
    let both = file_of(alloc, cut(alloc, font, &[b"X", b"Aacute"])?)?;
    match cut(alloc, font, &[b"X"])? {
        Some(x) => merges_with_aacute(alloc, x, font, both.as_slice()),
        None => Ok(false),
    }
}

/// Whether all calls answer right.
fn font_answers_right(alloc: Global, font: &Font<'_>) -> Result<bool, AllocError> {
    let subrs = kept(alloc, font, &[b"X"])?;
    let made = states(alloc, font)?;
    drop(made);
    Ok(subrs == 5 && subsets_merge(alloc, font)?)
}

fn source_answers_right(alloc: Global, source: &Source) -> Result<bool, AllocError> {
    let font = source.font(alloc)?;
    let right = font_answers_right(alloc, &font);
    drop(font);
    right
}

/// Whether a Subr that is lacking is found, also when fonts are rejoined, and no shell that differs.
fn lacks_answer_right(alloc: Global) -> Result<bool, AllocError> {
    let (whole, five) = (lacking(alloc, &WHOLE)?, lacking(alloc, &FIVE)?);
    let files = [whole.as_slice(), five.as_slice()];
    let (lack, told) = (lack_in(alloc, &files)?, rejoined(alloc, &files)?);
    let right = lack.as_slice() == b"5 P".as_slice()
        && told.as_slice() == b"glyph P lacks subr 5".as_slice();
    Ok(right && differing_in(alloc, &files)?.is_none())
}

/// Whether fonts rejoin, also where one gets a stub.
fn lists_answer_right(alloc: Global) -> Result<bool, AllocError> {
    let (whole, eight) = (lacking(alloc, &WHOLE)?, lacking(alloc, &EIGHT)?);
    let counts = rejoined(alloc, &[whole.as_slice(), eight.as_slice()])?;
    Ok(counts.as_slice() == b"10 10".as_slice() && lacks_answer_right(alloc)?)
}

fn answers_right(alloc: Global) -> Result<bool, AllocError> {
    let file = whole(alloc)?;
    match read(alloc, file.as_slice()) {
        Ok(source) => {
            let right = source_answers_right(alloc, &source);
            drop(source);
            right
        }
        Err(_) => Err(AllocError),
    }
}

/// Whether all conflicts of two fonts are told.
fn conflicts_answer_right(alloc: Global) -> Result<bool, AllocError> {
    let (one, other) = (whole(alloc)?, with_a_and_b(alloc)?);
    let told = differences(alloc, one.as_slice(), other.as_slice())?;
    Ok(told.as_slice() == b"glyph A differs\nglyph B differs\n".as_slice())
}

/// Whether a font is cut, and two are merged and rejoined, within a budget that is enough.
fn budgets_answer_right(alloc: Global) -> Result<bool, AllocError> {
    let file = whole(alloc)?;
    let files = [file.as_slice(), file.as_slice()];
    let cut = cut_within(alloc, file.as_slice(), &[b"X"], Some(1000))?;
    let merged = merged_within(alloc, &files, Some(1000))?;
    let rejoined = rejoined_within(alloc, &files, Some(1000))?;
    Ok(cut == Answer::Made && merged == Answer::Made && rejoined == Answer::Made)
}

/// Whether each call answers right.
fn all_answer_right(alloc: Global) -> Result<bool, AllocError> {
    Ok(
        answers_right(alloc)?
            && lists_answer_right(alloc)?
            && conflicts_answer_right(alloc)?
            && budgets_answer_right(alloc)?,
    )
}

// meets states Ok at 10 glyphs
#[test]
fn growths(rt: HostRuntime) -> Result<(), Fail> {
    let right = match all_answer_right(rt.alloc()) {
        Err(AllocError) => all_answer_right(rt.alloc())?,
        answer => answer?,
    };
    assert!(rt; right);
    Ok(())
}
