//! What is written is read again: other words, other numbers of lead bytes, no Subrs, one glyph.

use super::rows::private;
use bstr::ByteSlice;
use std::alloc::{AllocError, Global};
use std::test::Fail;
use t1_bytes::{EEXEC_KEY, EEXEC_LEAD, open, split_eexec};
use t1_font::{Font, Form, Part, Source, read, write};
use t1_font_shared_tests::{
    CLEAR, GLYPHS, behind, counts, file, is_written_as, joined, lent, lent_file, of_font,
    rewritten, seen, with,
};
use t1_tiny::{PFA, PFB};

/// A text with `new` in place of each `old`, of which there are at most 64.
fn with_each(alloc: Global, text: &[u8], old: &[u8], new: &[u8]) -> Result<Vec<u8>, AllocError> {
    let mut changed = Vec::from_slice(alloc, text)?;
    for _ in 0..64 {
        if changed.as_slice().find(old).is_some() {
            changed = with(alloc, changed.as_slice(), old, new)?;
        }
    }
    Ok(changed)
}

/// A private text with the words of fonts from other makers.
fn with_other_words(alloc: Global, text: &[u8]) -> Result<Vec<u8>, AllocError> {
    let rd = with_each(alloc, text, b"RD ", b"-| ")?;
    let nd = with_each(alloc, rd.as_slice(), b"ND", b"|-")?;
    with_each(alloc, nd.as_slice(), b"NP", b"|")
}

/// Tiny's private text through `closefile`, with such words.
fn other_words(alloc: Global) -> Result<Vec<u8>, AllocError> {
    let text = private(alloc)?;
    let Some(end) = text.as_slice().find(b"closefile") else {
        return Err(AllocError);
    };
    let mut changed = with_other_words(alloc, &text.as_slice()[..end])?;
    changed.extend_from_slice(b"closefile\n")?;
    Ok(changed)
}

/// The private text of what a file's font is written as.
fn written(alloc: Global, file: &[u8]) -> Result<Vec<u8>, AllocError> {
    let Ok(pfa) = rewritten(alloc, file, Form::Pfa) else {
        return Err(AllocError);
    };
    let Ok((_, cipher)) = split_eexec(alloc, pfa.as_slice()) else {
        return Err(AllocError);
    };
    Ok(open(cipher, EEXEC_KEY, EEXEC_LEAD))
}

/// The kept words of a font, each with a blank: those around the bytes of a Subr, after the last Subr, and those around
/// the bytes of a glyph.
fn words_of(alloc: Global, font: &Font<'_>) -> Result<Vec<u8>, AllocError> {
    const PARTS: &[Part] = &[
        Part::SubrsRd,
        Part::SubrsPut,
        Part::SubrsDef,
        Part::GlyphsRd,
        Part::GlyphsDef,
    ];
    let mut words = Vec::new(alloc);
    for part in PARTS {
        words.extend_from_slice(font.text(*part))?;
        words.push(b' ')?;
    }
    Ok(words)
}

/// Whether these are the kept words of a file's font.
fn has_words(alloc: Global, file: &[u8], want: &[u8]) -> Result<bool, AllocError> {
    of_font(
        alloc,
        file,
        |font| Ok(words_of(alloc, font)?.as_slice() == want),
    )
}

/// Whether a file's font is written with a private text that begins so.
fn is_written_with(alloc: Global, file: &[u8], text: &[u8]) -> Result<bool, AllocError> {
    Ok(written(alloc, file)?.as_slice().starts_with(text))
}

#[test]
fn other_words_are_kept(rt: HostRuntime) -> Result<(), Fail> {
    let text = other_words(rt.alloc())?;
    let file = file(rt.alloc(), &PFA[..313], text.as_slice())?;
    assert!(rt; has_words(rt.alloc(), file.as_slice(), b"-| | |- -| |- ") == Ok(true));
    let again = is_written_with(rt.alloc(), file.as_slice(), text.as_slice());
    assert!(rt; again == Ok(true), "the words are written again");
    Ok(())
}

/// Whether two files of one font are written in either form from each other.
fn are_written_again(alloc: Global, pfa: &[u8], pfb: &[u8]) -> bool {
    is_written_as(alloc, pfa, Form::Pfb, pfb) && is_written_as(alloc, pfb, Form::Pfa, pfa)
}

/// Whether what a file's font is written as is written again so.
pub fn is_written_again(alloc: Global, file: &[u8]) -> bool {
    match (
        rewritten(alloc, file, Form::Pfa),
        rewritten(alloc, file, Form::Pfb),
    ) {
        (Ok(pfa), Ok(pfb)) => are_written_again(alloc, pfa.as_slice(), pfb.as_slice()),
        _ => false,
    }
}

/// Whether the files of a font with this weight, of a clear text and of a private one, are written again so.
fn is_kept(alloc: Global, clear: &[u8], private: &[u8], weight: u32) -> bool {
    let Ok(file) = file(alloc, clear, private) else {
        return false;
    };
    let weighs = counts(alloc, file.as_slice()).is_ok_and(|counts| counts.1 == weight);
    weighs && is_written_again(alloc, file.as_slice())
}

/// A font with 255 lead bytes, and a charstring of no other.
fn most_lead_bytes(alloc: Global) -> Result<Vec<u8>, AllocError> {
    joined(
        alloc,
        &[
            b"/lenIV 255 def /CharStrings 1 dict dup begin /.notdef 255 RD ",
            &[b'x'; 255],
            b" ND end closefile and a rest",
        ],
    )
}

/// The same of a font whose head and private text begin with so many blanks.
fn is_kept_behind(alloc: Global, blanks: usize, weight: u32) -> Result<bool, AllocError> {
    let clear = behind(alloc, blanks, CLEAR)?;
    let start = behind(alloc, blanks, b"/lenIV 0 def ")?;
    let private = joined(alloc, &[start.as_slice(), GLYPHS])?;
    Ok(is_kept(alloc, clear.as_slice(), private.as_slice(), weight))
}

// A line has the digits of 32 bytes, so some of these ciphers fill their last line.
// meets write Ok at 0, 64, 1000000 bytes
#[test]
fn each_length_of_the_last_line(rt: HostRuntime) {
    for blanks in 0..65u32 {
        let kept = is_kept_behind(rt.alloc(), blanks as usize, 318 + 2 * blanks);
        assert!(rt; kept == Ok(true), "{blanks} blanks");
    }
    assert!(rt; is_kept_behind(rt.alloc(), 1_000_000, 2_000_318) == Ok(true));
}

/// The same of a font whose private text ends with the shortest table of glyphs.
fn is_kept_with_glyphs(
    alloc: Global,
    clear: &[u8],
    start: &[u8],
    weight: u32,
) -> Result<bool, AllocError> {
    let private = joined(alloc, &[start, GLYPHS])?;
    Ok(is_kept(alloc, clear, private.as_slice(), weight))
}

#[test]
fn both_forms_are_read_again(rt: HostRuntime) -> Result<(), Fail> {
    const ROWS: &[(&[u8], &[u8], u32, &str)] = &[
        (
            CLEAR,
            b"/lenIV 0 def ",
            318,
            "lenIV 0, a word, no Subrs, one glyph",
        ),
        (
            b"/Encoding 256 array def currentfile eexec ",
            b"/lenIV 0 def /Subrs 7 array ND xclosefilex /closefile ",
            339,
            "no Subrs but a count, no codes",
        ),
    ];
    for &(clear, start, weight, name) in ROWS {
        let kept = is_kept_with_glyphs(rt.alloc(), clear, start, weight);
        assert!(rt; kept == Ok(true), "{name}");
    }
    let most = most_lead_bytes(rt.alloc())?;
    assert!(rt;
        is_kept(rt.alloc(), CLEAR, most.as_slice(), 557),
        "lenIV 255"
    );
    Ok(())
}

/// Whether a font, and one that its source lends while it is lent once already, have this canonical PFB.
fn are_written_as(
    alloc: Global,
    font: &Font<'_>,
    source: &Source,
    pfb: &[u8],
) -> Result<bool, AllocError> {
    let first = write(alloc, font, Form::Pfb)?;
    let again = lent_file(alloc, source, Form::Pfb)?;
    Ok(first.as_slice() == pfb && again.as_slice() == pfb)
}

/// Whether a file's font is lent twice as the font of this canonical PFB.
fn is_lent_twice(alloc: Global, file: &[u8], pfb: &[u8]) -> bool {
    let twice = seen(read(alloc, file), |source| {
        lent(
            alloc,
            source,
            |font| are_written_as(alloc, font, source, pfb),
        )
    });
    twice == Ok(Ok(true))
}

#[test]
fn a_source_lends_its_font_twice(rt: HostRuntime) {
    assert!(rt; is_lent_twice(rt.alloc(), PFA, PFB), "the PFA");
    assert!(rt; is_lent_twice(rt.alloc(), PFB, PFB), "the PFB");
}
