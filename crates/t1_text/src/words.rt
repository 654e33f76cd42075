//! Words of font text.

ghost use Rattle.std.specs.{Prelude.{◌≡◌, ◌<◌, true, length, take_while, unwrap_or, IfOk, IfSome, Some}, Option.{option_map}};
ghost use Rattle.t1_grammar.specs.Grammar.{run, that};
ghost use Rattle.t1_text.specs.Words.{is_regular, one_white, word, keyword, regular_comes, first_digit, decimal, name, next_name, is_access, phrase_of, passes};
ghost use Rattle.t1_text.specs.{declared.dialect.Spacing.TheVariants.{White}, Views.{phrase_view, words_view}};

use crate::limits::{NAME_LIMIT, WORD_LIMIT};
use std::alloc::{AllocError, Global};
use t1_bytes::texts::{count_at, fixed_at, gap_at, is_white, white_at};

/// What each byte is, with 32 bytes in a row: `w` white space, `d` a delimiter, `.` regular.
const KINDS: &[u8; 256] = b"\
    w........ww.ww..................\
    w....d..dd.....d............d.d.\
    ...........................d.d..\
    ...........................d.d..\
    ................................\
    ................................\
    ................................\
    ................................\
";

/// Whether a byte is neither white space nor a delimiter. It is looked up in a table, since this is asked of each byte of
/// each word.
pub(crate) fn is_regular(byte: u8) -> bool
    ensures { result ≡ is_regular byte }
{
    KINDS[byte as usize] == b'.'
}

/// How many regular bytes come first.
pub fn regular_len(bytes: &[u8]) -> usize
    ensures { result ≡ length (take_while is_regular bytes.now) }
{
    bytes.iter().take_while(|b| is_regular(**b)).count()
}

/// A run of regular bytes at the front, and what stands after it.
pub(crate) fn regular_at(bytes: &[u8]) -> (&[u8], &[u8])
    ensures { Some (result.0.now, result.1.now) ≡ (run is_regular).read bytes.now }
{
    bytes.split_at(regular_len(bytes))
}

/// One byte of white space.
#[inline(always)]
#[tactic(auto, unfolding(crate::specs::Words::one_white))]
pub(crate) fn one_white_at(bytes: &[u8]) -> Option<(&[u8], &[u8])>
    ensures { option_map (λ x. (x.0.now, x.1.now)) result ≡ one_white.read bytes.now }
{
    let (front, rest) = count_at(bytes, 1)?;
    if !is_white(front[0]) {
        return None;
    }
    Some((front, rest))
}

/// A word of 1 to 32 bytes.
#[inline(always)]
#[tactic(auto, unfolding(crate::specs::Words::word))]
pub(crate) fn word_at(bytes: &[u8]) -> Option<(&[u8], &[u8])>
    ensures { option_map (λ x. (x.0.now, x.1.now)) result ≡ word.read bytes.now }
{
    let (front, rest) = regular_at(bytes);
    if front.is_empty() || front.len() > WORD_LIMIT {
        return None;
    }
    Some((front, rest))
}

/// Whether a regular byte comes.
pub fn regular_comes(bytes: &[u8]) -> bool
    ensures { result ≡ regular_comes bytes.now }
{
    match bytes.first() {
        Some(byte) => is_regular(*byte),
        None => false,
    }
}

/// The whole word `word`: the regular bytes that come first, if they are these.
#[inline]
#[tactic(auto, unfolding(crate::specs::Words::keyword))]
pub(crate) fn keyword_at<'a>(bytes: &'a [u8], word: &[u8]) -> Option<(&'a [u8], &'a [u8])>
    ensures { option_map (λ x. (x.0.now, x.1.now)) result ≡ (keyword word.now).read bytes.now }
{
    let (front, rest) = regular_at(bytes);
    if word == front {
        Some((front, rest))
    } else {
        None
    }
}

/// The digit that comes first, and what stands after it.
fn digit_at(bytes: &[u8]) -> Option<(u32, &[u8])>
    ensures digit { option_map (λ x. (x.0, x.1.now)) result ≡ first_digit bytes.now }
    ensures below { IfSome result (λ x. x.0 < 10) }
{
    let (byte, rest) = bytes.split_first()?;
    if *byte < b'0' || b'9' < *byte {
        return None;
    }
    Some(((*byte - b'0') as u32, rest))
}

/// A word of 1 to 9 digits.
#[inline(always)]
pub(crate) fn decimal_at(bytes: &[u8]) -> Option<(u32, &[u8])>
    ensures { option_map (λ x. (x.0, x.1.now)) result ≡ decimal.read bytes.now }
{
    let mut value = 0;
    let mut count: usize = 0;
    let mut rest = bytes;
    'digits: while let Some((digit, after)) = digit_at(rest) {
        if count == 9 {
            return None;
        }
        value = value * 10 + digit;
        count += 1;
        rest = after;
    }
    if count == 0 || regular_comes(rest) {
        return None;
    }
    Some((value, rest))
}

/// A slash and the name after it.
#[tactic(auto, unfolding(crate::specs::Words::name))]
pub(crate) fn name_at(bytes: &[u8]) -> Option<(&[u8], &[u8])>
    ensures { option_map (λ x. (x.0.now, x.1.now)) result ≡ name.read bytes.now }
{
    let (_, rest) = fixed_at(bytes, b"/")?;
    let (name, rest) = regular_at(rest);
    if name.is_empty() || name.len() > NAME_LIMIT {
        return None;
    }
    Some((name, rest))
}

/// White space, and a name behind it.
#[tactic(auto, unfolding(crate::specs::Words::next_name))]
pub(crate) fn next_name_at(bytes: &[u8]) -> Option<(&[u8], &[u8])>
    ensures { option_map (λ x. (x.0.now, x.1.now)) result ≡ (next_name White).read bytes.now }
{
    let (_, rest) = white_at(bytes);
    name_at(rest)
}

/// One word, or an access word and one more.
#[derive(Clone, Copy)]
pub struct Phrase<'a> {
    pub access: Option<&'a [u8]>,
    pub word: &'a [u8],
}

/// The bytes of a phrase, with one blank between its words.
///
/// # Errors
///
/// A growth was refused.
pub fn phrase_bytes(alloc: Global, phrase: Phrase<'_>) -> Result<Vec<u8>, AllocError>
    ensures { IfOk result (λ v. v.items ≡ phrase_view phrase.entry) }
{
    let mut bytes = Vec::new(alloc);
    if let Some(access) = phrase.access {
        bytes.extend_from_slice(access)?;
        bytes.push(b' ')?;
    }
    bytes.extend_from_slice(phrase.word)?;
    Ok(bytes)
}

/// The words of a table's first entry: the one before its bytes, and the phrase after them.
#[derive(Drop)]
pub struct Words {
    pub rd: Vec<u8>,
    pub phrase: Vec<u8>,
}

/// The words that are kept: those of the first entry.
///
/// # Errors
///
/// A growth was refused.
pub fn first_words(
    alloc: Global,
    words: Option<Words>,
    rd: &[u8],
    phrase: Phrase<'_>,
) -> Result<Words, AllocError>
    ensures { IfOk result (λ w. words_view w
        ≡ unwrap_or (option_map words_view words) (rd.now, phrase_view phrase.entry)) }
{
    match words {
        Some(words) => Ok(words),
        None => Ok(Words {
            rd: Vec::from_slice(alloc, rd)?,
            phrase: phrase_bytes(alloc, phrase)?,
        }),
    }
}

/// Whether a word takes the next one with it.
fn is_access(word: &[u8]) -> bool
    ensures { result ≡ is_access word.now }
{
    word == b"noaccess".as_slice()
        || word == b"readonly".as_slice()
        || word == b"executeonly".as_slice()
}

/// A word, which may be barred from being `dup`.
#[inline(always)]
fn passing_word_at(bytes: &[u8], may_be_dup: bool) -> Option<(&[u8], &[u8])>
    ensures { option_map (λ x. (x.0.now, x.1.now)) result
        ≡ (that (passes may_be_dup) word).read bytes.now }
{
    let (front, rest) = word_at(bytes)?;
    if may_be_dup || b"dup".as_slice() != front {
        return Some((front, rest));
    }
    None
}

/// A phrase, whose words may be barred from being `dup`.
#[inline(always)]
#[tactic(auto, unfolding(crate::specs::Words::phrase_of))]
pub(crate) fn phrase_at(bytes: &[u8], may_be_dup: bool) -> Option<(Phrase<'_>, &[u8])>
    ensures { option_map (λ x. (phrase_view x.0, x.1.now)) result
        ≡ (phrase_of (passes may_be_dup)).read bytes.now }
{
    let (first, rest) = passing_word_at(bytes, may_be_dup)?;
    if !is_access(first) {
        return Some((
            Phrase {
                access: None,
                word: first,
            },
            rest,
        ));
    }
    let (_, rest) = gap_at(rest)?;
    let (second, rest) = passing_word_at(rest, may_be_dup)?;
    if first.len() + 1 + second.len() > WORD_LIMIT {
        return None;
    }
    Some((
        Phrase {
            access: Some(first),
            word: second,
        },
        rest,
    ))
}
