//! Fonts with as many glyphs and Subrs as there may be, with one more, and with keys that come again.

use super::cuts::{cut_font, headed, joined, lines, part};
use std::alloc::{AllocError, Global};
use std::ops::Range;
use std::test::Fail;
use t1_font::{
    CharStrings, Font, Form, PartsFault, ReadFault, Source, SparseArray, join_glyphs,
    join_same_glyphs, mends, read, read_vec, read_wide, read_wide_vec, write,
};
use t1_font_shared_tests::{
    CLEAR, GLYPHS, fault, file_of, is_written_as, of_font, of_source, seen, used,
};
use t1_join::Table;

/// A font with so many Subrs of one byte, and with `.notdef` and glyphs of these numbers as names, each of one byte; then
/// come so many of these lines.
fn counted(
    alloc: Global,
    subrs: u32,
    names: Range<u32>,
    times: usize,
    line: &[u8],
) -> Result<Vec<u8>, AllocError> {
    let count = subrs.to_string(alloc)?;
    let subrs = lines(alloc, 0..subrs, b"dup ", b" 1 RD a NP\n")?;
    let glyphs = lines(alloc, names, b"/", b" 1 RD x ND\n")?;
    let again = repeated(
        alloc,
        b"",
        line,
        times,
        b"end\nmark currentfile closefile\n",
    )?;
    let private: &[&[u8]] = &[
        b"/lenIV 0 def /Subrs ",
        count.as_bytes(),
        b" array\n",
        subrs.as_slice(),
        b"ND\n/CharStrings 9 dict dup begin\n/.notdef 1 RD x ND\n",
        glyphs.as_slice(),
        again.as_slice(),
    ];
    file_of(alloc, &[CLEAR], private)
}

/// How many glyphs and Subrs a font has, and its weight.
type Counts = (usize, usize, u32);

/// Those of the answer of a reader.
fn counts_of(alloc: Global, answer: Result<Source, ReadFault>) -> Result<Counts, ReadFault> {
    of_source(
        alloc,
        answer,
        |font| Ok((font.glyphs().len(), font.subrs().len(), font.weight())),
    )
}

/// Whether a font that is handed over to the wide reader has these counts, or this fault.
fn reads_widely_as(alloc: Global, file: &[u8], want: Result<Counts, ReadFault>) -> bool {
    match Vec::from_slice(alloc, file) {
        Ok(file) => counts_of(alloc, read_wide_vec(alloc, file)) == want,
        Err(_) => false,
    }
}

/// Whether nothing is mended of a file that is read, or it is refused for this fault.
fn mends_nothing(alloc: Global, file: &[u8], want: Result<Counts, ReadFault>) -> bool {
    match mends(alloc, file) {
        Ok(mends) => mends.is_empty() && want.is_ok(),
        Err(fault) => want == Err(fault),
    }
}

/// Whether each reader answers a font of these counts, or this fault.
fn reads_as(alloc: Global, file: Vec<u8>, want: Result<Counts, ReadFault>) -> bool {
    let lent = counts_of(alloc, read(alloc, file.as_slice()));
    let wide = counts_of(alloc, read_wide(alloc, file.as_slice()));
    let wide_handed_over = reads_widely_as(alloc, file.as_slice(), want);
    let told = mends_nothing(alloc, file.as_slice(), want);
    let handed_over = counts_of(alloc, read_vec(alloc, file));
    lent == want && wide == want && handed_over == want && wide_handed_over && told
}

/// The counts of a font of so many Subrs and glyphs of one byte each. The kept texts have 3, 18, 13, 1 and 27 bytes.
fn counts(subrs: u32, glyphs: u32) -> Counts {
    let subrs_weigh = subrs.saturating_mul(129);
    let glyphs_weigh = glyphs.saturating_mul(257);
    let weight = subrs_weigh.saturating_add(glyphs_weigh).saturating_add(62);
    (glyphs as usize, subrs as usize, weight)
}

/// Whether fonts with so many Subrs and glyphs, and with so many lines of `.notdef` more, are read, or are over the limit.
fn are_read(
    alloc: Global,
    subrs: u32,
    glyphs: u32,
    times: usize,
    fits: bool,
) -> Result<bool, AllocError> {
    let file = counted(alloc, subrs, 1..glyphs, times, b"/.notdef 1 RD y ND\n")?;
    let want = if fits {
        Ok(counts(subrs, glyphs))
    } else {
        Err(ReadFault::Limit)
    };
    Ok(reads_as(alloc, file, want))
}

// meets read Ok at 1, 4096, 4097 glyphs
// meets read Ok at 0, 4096, 4097 subrs
// like read: read_vec, read_wide, read_wide_vec, mends
// meets Source::font Ok at 1, 4096, 4097 glyphs
#[test]
fn counts_about_the_first_look(rt: HostRuntime) -> Result<(), Fail> {
    const ROWS: &[(u32, u32, usize)] = &[
        (0, 1, 0),
        (1, 2, 1),
        (4_096, 4_096, 0),
        (4_097, 4_097, 1),
        (2, 3, 8_192),
    ];
    for &(subrs, glyphs, times) in ROWS {
        let right = are_read(rt.alloc(), subrs, glyphs, times, true)?;
        assert!(rt;
            right,
            "{subrs} Subrs, {glyphs} glyphs, .notdef {times} times again"
        );
    }
    Ok(())
}

// meets read Ok at 65535 glyphs
// meets read Ok at 65535 subrs
// like read: read_vec, read_wide, read_wide_vec, mends
// meets Source::font Ok at 65535 glyphs
#[test]
fn counts_at_the_limit(rt: HostRuntime) -> Result<(), Fail> {
    const ROWS: &[(u32, u32, usize)] = &[(0, 65_535, 10), (65_535, 1, 0)];
    for &(subrs, glyphs, times) in ROWS {
        let right = are_read(rt.alloc(), subrs, glyphs, times, true)?;
        assert!(rt; right, "{subrs} Subrs, {glyphs} glyphs");
    }
    Ok(())
}

// meets read Limit at 65536 glyphs
// meets read Limit at 65536 subrs
// like read: read_vec, read_wide, read_wide_vec, mends
#[test]
fn counts_over_the_limit(rt: HostRuntime) -> Result<(), Fail> {
    const ROWS: &[(u32, u32)] = &[(0, 65_536), (65_536, 1)];
    for &(subrs, glyphs) in ROWS {
        let right = are_read(rt.alloc(), subrs, glyphs, 0, false)?;
        assert!(rt; right, "{subrs} Subrs, {glyphs} glyphs");
    }
    Ok(())
}

/// A text in which a line comes so often between two texts.
fn repeated(
    alloc: Global,
    front: &[u8],
    line: &[u8],
    times: usize,
    back: &[u8],
) -> Result<Vec<u8>, AllocError> {
    let mut text = Vec::from_slice(alloc, front)?;
    for _ in 0..times {
        text.extend_from_slice(line)?;
    }
    text.extend_from_slice(back)?;
    Ok(text)
}

/// Why a font is refused that spells the name of a code and a Subr so many times, if it is.
fn fault_of_repeated(alloc: Global, times: usize) -> Result<Option<ReadFault>, AllocError> {
    let codes = repeated(
        alloc,
        b"%!\n/Encoding 256 array\n",
        b"dup 65/X put\n",
        times,
        b"def\n",
    )?;
    let subrs = repeated(
        alloc,
        b"/lenIV 0 def /Subrs 9 array\n",
        b"dup 8 1 RD a NP\n",
        times,
        b"ND\n",
    )?;
    let clear: &[&[u8]] = &[codes.as_slice(), b"currentfile eexec\n"];
    Ok(fault(alloc, clear, &[subrs.as_slice(), GLYPHS]))
}

// meets read Ok at 1, 4096, 4097, 100000 entries
// like read: read_vec, read_wide, read_wide_vec, mends
#[test]
fn entries_that_come_again(rt: HostRuntime) -> Result<(), Fail> {
    const ROWS: &[usize] = &[1, 4_096, 4_097, 100_000];
    for &times in ROWS {
        let fault = fault_of_repeated(rt.alloc(), times)?;
        assert!(rt; fault.is_none(), "code 65 and Subr 8, {times} times");
    }
    Ok(())
}

/// How many glyphs a table has, if there is one.
fn length(glyphs: &Option<CharStrings<'_>>) -> Option<usize> {
    match glyphs {
        Some(glyphs) => Some(glyphs.len()),
        None => None,
    }
}

/// Whether a font's table joins with its copy to one of as many glyphs, which is copied, and in one pass.
fn copy_joins<'a>(
    alloc: Global,
    font: &Font<'a>,
    copy: &CharStrings<'a>,
    glyphs: usize,
) -> Result<bool, AllocError> {
    let both = used(join_glyphs(alloc, font.glyphs(), copy), |both| {
        seen(both.copy(alloc), |both| both.len())
    });
    let same = seen(join_same_glyphs(alloc, font.glyphs(), copy), length);
    Ok(copy.len() == glyphs && both? == glyphs && same? == Some(glyphs))
}

/// How many Subrs a font's copied table has, and the copied table of the font cut to `.notdef`.
fn subrs_copied(alloc: Global, font: &Font<'_>) -> Result<(usize, usize), AllocError> {
    let subrs = seen(font.subrs().copy(alloc), |subrs| subrs.len());
    let cut = used(cut_font(alloc, font, &[], &[]), |cut| {
        seen(cut.subrs().copy(alloc), |subrs| subrs.len())
    });
    Ok((subrs?, cut?))
}

/// How many Subrs the font has that a font's shell makes of these and of copied glyphs, if it makes one.
fn subrs_made<'a>(
    alloc: Global,
    font: &Font<'a>,
    subrs: SparseArray<'a>,
) -> Result<Option<usize>, AllocError> {
    match font.glyphs().copy(alloc) {
        Ok(glyphs) => Ok(
            font.shell()
                .font(SparseArray::none(alloc), subrs, glyphs)
                .map(|made| made.subrs().len()),
        ),
        Err(fault) => Err(fault),
    }
}

/// How many Subrs the font has that a font's shell makes of stubs at its numbers.
fn stubs_made(alloc: Global, font: &Font<'_>) -> Result<Option<usize>, AllocError> {
    match SparseArray::with_stubs(alloc, font.subrs(), &Table::new(alloc)) {
        Ok(stubs) => subrs_made(alloc, font, stubs),
        Err(fault) => Err(fault),
    }
}

/// Whether the tables of a font are copied as ones of these counts.
fn are_copied(
    alloc: Global,
    font: &Font<'_>,
    (glyphs, subrs, _): Counts,
) -> Result<bool, AllocError> {
    let joins = used(
        font.glyphs().copy(alloc),
        |copy| copy_joins(alloc, font, copy, glyphs),
    );
    Ok(
        joins?
            && subrs_copied(alloc, font)? == (subrs, subrs)
            && stubs_made(alloc, font)? == Some(subrs),
    )
}

/// Whether a font is copied, and written in either form as a file that is read as one of these counts.
fn is_handled(alloc: Global, font: &Font<'_>, want: Counts) -> Result<bool, AllocError> {
    Ok(
        are_copied(alloc, font, want)?
            && reads_as(alloc, write(alloc, font, Form::Pfa)?, Ok(want))
            && reads_as(alloc, write(alloc, font, Form::Pfb)?, Ok(want)),
    )
}

/// Whether a font of so many Subrs and glyphs is handled so, and is the cut to all of its names and Subrs.
fn is_cut_to_itself(alloc: Global, subrs: u16, glyphs: u32) -> Result<bool, ReadFault> {
    let want = counts(u32::from(subrs), glyphs);
    let file = counted(alloc, u32::from(subrs), 1..glyphs, 0, b"")?;
    let cut = part(alloc, file.as_slice(), 0..128, 0..subrs)?;
    let same = is_written_as(alloc, file.as_slice(), Form::Pfb, cut.as_slice());
    let handled = of_source(
        alloc,
        read_vec(alloc, file),
        |font| is_handled(alloc, font, want),
    );
    Ok(same && handled?)
}

// meets restrict Ok at 1, 2, 4097, 65535 glyphs
// meets restrict Ok at 0, 4097, 65535 subrs
// meets CharStrings::copy Ok at 1, 2, 4097, 65535 glyphs
// meets SparseArray::copy Ok at 0, 4097, 65535 subrs
// meets SparseArray::with_stubs Ok at 0, 4097, 65535 subrs
// meets SparseArray::none Ok at 0, 4097, 65535 subrs
// meets join_glyphs Ok at 1, 2, 4097, 65535 glyphs
// meets join_same_glyphs Some at 1, 2, 4097, 65535 glyphs
// meets write Ok at 1, 2, 4097, 65535 glyphs
// meets write Ok at 0, 4097, 65535 subrs
#[test]
fn fonts_up_to_the_limit(rt: HostRuntime) -> Result<(), Fail> {
    const ROWS: &[(u16, u32)] = &[(0, 1), (1, 2), (4_097, 4_097), (65_535, 65_535)];
    for &(subrs, glyphs) in ROWS {
        let right = is_cut_to_itself(rt.alloc(), subrs, glyphs)?;
        assert!(rt; right, "{subrs} Subrs and {glyphs} glyphs");
    }
    Ok(())
}

/// Whether the tables of glyphs of the fonts of files don't join as the same.
fn differ(alloc: Global, first: &[u8], second: &[u8]) -> Option<bool> {
    let apart = of_font(alloc, first, |first| {
        of_font(alloc, second, |second| {
            seen(
                join_same_glyphs(alloc, first.glyphs(), second.glyphs()),
                |same| same.is_none(),
            )
        })
    });
    apart.ok()
}

/// Whether the tables of glyphs of two files' fonts don't join as the same, where the entries of both fonts are one font
/// with these counts, or are refused so; `None` if they are another thing.
fn join_as(
    alloc: Global,
    first: &[u8],
    second: &[u8],
    want: Result<Counts, PartsFault>,
) -> Option<bool> {
    let right = match (joined(alloc, first, second), want) {
        (Ok(both), Ok(counts)) => reads_as(alloc, both, Ok(counts)),
        (Err(both), Err(fault)) => both == fault,
        _ => false,
    };
    if !right {
        return None;
    }
    differ(alloc, first, second)
}

// meets join_parts Ok at 2, 3, 65535 glyphs
// meets join_same_glyphs None at 2, 3, 65535 glyphs
#[test]
fn joins_up_to_the_limit(rt: HostRuntime) -> Result<(), Fail> {
    const ROWS: &[(u32, u32)] = &[(1, 2), (2, 3), (32_768, 65_535)];
    for &(middle, glyphs) in ROWS {
        let last = glyphs.saturating_sub(1);
        let first = counted(rt.alloc(), 4, 1..middle, 1, b"/z 1 RD x ND\n")?;
        let second = counted(rt.alloc(), 4, middle..last, 1, b"/z 1 RD y ND\n")?;
        let want = Ok(counts(4, glyphs));
        let apart = join_as(rt.alloc(), first.as_slice(), second.as_slice(), want);
        assert!(rt; apart == Some(true), "{glyphs} glyphs together");
    }
    Ok(())
}

// meets join_parts Limit at 65536 glyphs
#[test]
fn joins_over_the_limit(rt: HostRuntime) -> Result<(), Fail> {
    const MIDDLE: u32 = 32_768;
    const GLYPHS_TOGETHER: u32 = 65_536;
    let first = counted(rt.alloc(), 4, 1..MIDDLE, 0, b"")?;
    let second = counted(rt.alloc(), 4, MIDDLE..GLYPHS_TOGETHER, 0, b"")?;
    let want = Err(PartsFault::Limit);
    let refused = join_as(rt.alloc(), first.as_slice(), second.as_slice(), want);
    assert!(rt; refused.is_some());
    Ok(())
}

// meets join_parts Ok at 67108864 bytes
// meets join_parts Limit at 67108865 bytes
#[test]
fn joins_at_the_limit_of_weight(rt: HostRuntime) -> Result<(), Fail> {
    // The clear tail has 18 bytes and the private texts 13 and 27; each of the three glyphs weighs 257.
    const ROWS: &[(usize, u32, Option<PartsFault>)] = &[
        (67_108_035, 67_108_864, None),
        (67_108_036, 67_108_865, Some(PartsFault::Limit)),
    ];
    for &(head, weight, fault) in ROWS {
        let x = headed(rt.alloc(), head, b"/X")?;
        let y = headed(rt.alloc(), head, b"/Y")?;
        let want = match fault {
            Some(fault) => Err(fault),
            None => Ok((3, 0, weight)),
        };
        let answer = join_as(rt.alloc(), x.as_slice(), y.as_slice(), want);
        assert!(rt; answer == Some(false), "a weight of {weight}");
    }
    Ok(())
}
