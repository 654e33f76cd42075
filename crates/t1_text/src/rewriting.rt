//! Texts that are rewritten from left to right: white space is squeezed, lines that number a font go, and names lose their tags.

ghost use Rattle.std.specs.{Prelude.{◌≡◌, ◌==◌, not, Some, length, take_while, codes, IfOk}, List.{list_any}, Option.{option_map}};
ghost use Rattle.t1_grammar.specs.Grammar.{run};
ghost use Rattle.t1_bytes.specs.Eexec.{is_blank};
ghost use Rattle.t1_text.specs.{Words.{is_regular}, Rewriting.{rewritten}, Squeezing.{ends_line, one_space, is_solid, squeezed_piece, stays, staying, squeezed}};
ghost use Rattle.t1_text.specs.Identity.{is_digit_or_blank, one_blank, unique_id, extended_id, access, defining, goes_on, identity_line, identity_comment, is_in_line, first_line};
ghost use Rattle.t1_text.specs.{Identity.{unnumbered_piece, unnumbered, unique_begins, extended_begins}, Tags.{renamed, untagged_piece}, Steps.{piece_of}};

use crate::font_test::blank_comes;
use crate::markers::{Marker, occurs};
use crate::tags::untagged;
use crate::words::{decimal_at, is_regular, keyword_at, regular_at, regular_comes};
use std::alloc::{AllocError, Global};
use t1_bytes::texts::fixed_at;

/// How a text is rewritten.
#[derive(Clone, Copy)]
pub enum Step<'a> {
    /// Lines that number the font go.
    Unnumbered,
    /// Words that begin with this name lose its tags.
    Untagged(&'a [u8]),
}

// ---- white space

/// Whether a byte is a blank, a tab, CR or LF.
fn is_blank(byte: u8) -> bool
    ensures { result ≡ is_blank byte }
{
    byte <= b' ' && matches!(byte, b' ' | b'\t' | b'\r' | b'\n')
}

/// How many blanks, tabs, CR and LF come first.
fn blank_len(text: &[u8]) -> usize
    ensures { result ≡ length (take_while is_blank text.now) }
{
    text.iter().take_while(|b| is_blank(**b)).count()
}

/// How many other bytes come first.
fn solid_len(text: &[u8]) -> usize
    ensures { result ≡ length (take_while is_solid text.now) }
{
    text.iter().take_while(|b| !is_blank(**b)).count()
}

/// Whether a run has CR or LF.
fn has_line_end(run: &[u8]) -> bool
    ensures { result ≡ list_any ends_line run.now }
{
    run.iter().any(|b| *b == b'\r' || *b == b'\n')
}

/// What becomes of a run of blanks, tabs, CR and LF.
fn one_space(run: &[u8]) -> &'static [u8]
    ensures { result.now ≡ one_space run.now }
{
    if has_line_end(run) { b"\n" } else { b" " }
}

/// What becomes of the first run of a text, and what stands behind it.
#[tactic(auto, unfolding(crate::specs::Squeezing::squeezed_piece))]
fn squeezed_piece(text: &[u8]) -> (&[u8], &[u8])
    ensures { (result.0.now, result.1.now) ≡ squeezed_piece text.now }
{
    if !text.is_empty() && is_blank(text[0]) {
        let (run, rest) = text.split_at(blank_len(text));
        (one_space(run), rest)
    } else {
        text.split_at(solid_len(text))
    }
}

/// Whether a byte stays before others.
fn stays(byte: u8, behind: &[u8]) -> bool
    ensures { result ≡ stays byte behind.now }
{
    !is_blank(byte) || ((byte == b' ' || byte == b'\n') && !blank_comes(behind))
}

/// How many bytes from the front on stay.
fn staying(text: &[u8]) -> usize
    ensures { result ≡ staying text.now }
{
    let mut count = 0;
    let mut rest = text;
    'bytes: while let Some((byte, behind)) = rest.split_first() {
        if !stays(*byte, behind) {
            return count;
        }
        count += 1;
        rest = behind;
    }
    count
}

/// A text with each longest run of blanks, tabs, CR and LF made one byte. What stays is copied as far as it goes.
///
/// # Errors
///
/// A growth was refused.
pub fn squeezed(alloc: Global, text: &[u8]) -> Result<Vec<u8>, AllocError>
    ensures { IfOk result (λ v. v.items ≡ squeezed text.now) }
{
    let mut new = Vec::with_capacity(alloc, text.len())?;
    let mut rest = text;
    'runs: while !rest.is_empty() {
        let (kept, behind) = rest.split_at(staying(rest));
        new.extend_from_slice(kept)?;
        let (put, behind) = squeezed_piece(behind);
        new.extend_from_slice(put)?;
        rest = behind;
    }
    Ok(new)
}

// ---- lines that number a font

/// A blank, or none.
#[tactic(auto, unfolding(crate::specs::Identity::one_blank))]
fn one_blank_at(text: &[u8]) -> &[u8]
    ensures { option_map (λ x. x.1) (one_blank.read text.now) ≡ Some result.now }
{
    match fixed_at(text, b" ") {
        Some((_, rest)) => rest,
        None => text,
    }
}

/// What stands behind `/UniqueID` and a decimal.
#[tactic(auto, unfolding(crate::specs::Identity::unique_id))]
fn unique_id_at(text: &[u8]) -> Option<&[u8]>
    ensures { option_map (λ r. r.now) result ≡ option_map (λ x. x.1) (unique_id.read text.now) }
{
    let (_, rest) = fixed_at(text, b"/UniqueID ")?;
    let (_, rest) = decimal_at(rest)?;
    Some(rest)
}

/// How many digits and blanks come first.
fn numbers_len(text: &[u8]) -> usize
    ensures { result ≡ length (take_while is_digit_or_blank text.now) }
{
    text.iter()
        .take_while(|b| b'0' <= **b && **b <= b'9' || **b == b' ')
        .count()
}

/// What stands behind `/XUID` and numbers in brackets.
#[tactic(auto, unfolding(crate::specs::Identity::extended_id))]
fn extended_id_at(text: &[u8]) -> Option<&[u8]>
    ensures { option_map (λ r. r.now) result ≡ option_map (λ x. x.1) (extended_id.read text.now) }
{
    let (_, rest) = fixed_at(text, b"/XUID")?;
    let (_, rest) = fixed_at(one_blank_at(rest), b"[")?;
    let (_, rest) = rest.split_at(numbers_len(rest));
    let (_, rest) = fixed_at(rest, b"]")?;
    Some(rest)
}

/// What stands behind `readonly` or `noaccess` and a blank.
#[tactic(auto, unfolding(crate::specs::Identity::access))]
fn access_at(text: &[u8]) -> Option<&[u8]>
    ensures { option_map (λ r. r.now) result ≡ option_map (λ x. x.1) (access.read text.now) }
{
    let (_, rest) = match keyword_at(text, b"readonly") {
        Some(x) => x,
        None => keyword_at(text, b"noaccess")?,
    };
    let (_, rest) = fixed_at(rest, b" ")?;
    Some(rest)
}

/// What stands behind `def`, `ND` or `|-`.
#[tactic(auto, unfolding(crate::specs::Identity::defining))]
fn defining_at(text: &[u8]) -> Option<&[u8]>
    ensures { option_map (λ r. r.now) result ≡ option_map (λ x. x.1) (defining.read text.now) }
{
    if let Some((_, rest)) = keyword_at(text, b"def") {
        return Some(rest);
    }
    if let Some((_, rest)) = keyword_at(text, b"ND") {
        return Some(rest);
    }
    let (_, rest) = keyword_at(text, b"|-")?;
    Some(rest)
}

/// Whether the text ends, or a name, a comment or the end of the dictionary comes.
fn goes_on(text: &[u8]) -> bool
    ensures { result ≡ goes_on text.now }
{
    text.is_empty()
        || fixed_at(text, b"/").is_some()
        || fixed_at(text, b"%").is_some()
        || fixed_at(text, b"currentdict").is_some()
}

/// What stands behind a line that numbers its font.
#[tactic(auto, unfolding(crate::specs::Identity::identity_line))]
fn identity_line_at(text: &[u8]) -> Option<&[u8]>
    ensures { option_map (λ r. r.now) result ≡ option_map (λ x. x.1) (identity_line.read text.now) }
{
    let rest = match unique_id_at(text) {
        Some(rest) => rest,
        None => extended_id_at(text)?,
    };
    let rest = one_blank_at(rest);
    let rest = match access_at(rest) {
        Some(behind) => behind,
        None => rest,
    };
    let rest = defining_at(rest)?;
    let (_, rest) = fixed_at(rest, b"\n")?;
    if !goes_on(rest) {
        return None;
    }
    Some(rest)
}

/// What stands behind a comment that would be such a line without its `%`.
#[tactic(auto, unfolding(crate::specs::Identity::identity_comment))]
fn identity_comment_at(text: &[u8]) -> Option<&[u8]>
    ensures { option_map (λ r. r.now) result ≡ option_map (λ x. x.1) (identity_comment.read text.now) }
{
    let (_, rest) = fixed_at(text, b"%")?;
    let rest = identity_line_at(rest)?;
    Some(rest)
}

/// How many bytes come before the first LF.
fn line_len(text: &[u8]) -> usize
    ensures { result ≡ length (take_while is_in_line text.now) }
{
    text.iter().take_while(|b| **b != b'\n').count()
}

/// A line, with the LF that ends it, and what stands behind it.
fn first_line(text: &[u8]) -> (&[u8], &[u8])
    ensures { (result.0.now, result.1.now) ≡ first_line text.now }
{
    let len = line_len(text);
    if len < text.len() {
        text.split_at(len + 1)
    } else {
        text.split_at(len)
    }
}

/// The first line, or nothing if it numbers the font, or `%` if it would without that, and what stands behind it.
#[tactic(auto, unfolding(crate::specs::Identity::unnumbered_piece))]
fn unnumbered_piece(text: &[u8]) -> (&[u8], &[u8])
    ensures { (result.0.now, result.1.now) ≡ unnumbered_piece text.now }
{
    if let Some(rest) = identity_comment_at(text) {
        return (b"%\n", rest);
    }
    match identity_line_at(text) {
        Some(rest) => (&[], rest),
        None => first_line(text),
    }
}

/// `/UniqueID` and a decimal.
#[derive(Clone, Copy)]
struct UniqueId;

impl Marker for UniqueId {
    ghost Said = { Unit {0} };

    ghost said = { λ _. tt };

    ghost text = { codes "/UniqueID " };

    ghost marker = { unique_id };

    fn text() -> &'static [u8] {
        b"/UniqueID "
    }

    fn at(bytes: &[u8]) -> Option<(UniqueId, &[u8])> {
        let rest = unique_id_at(bytes)?;
        Some((UniqueId, rest))
    }

    ghost begins = { unique_begins };
}

/// `/XUID` and numbers in brackets.
#[derive(Clone, Copy)]
struct ExtendedId;

impl Marker for ExtendedId {
    ghost Said = { Unit {0} };

    ghost said = { λ _. tt };

    ghost text = { codes "/XUID" };

    ghost marker = { extended_id };

    fn text() -> &'static [u8] {
        b"/XUID"
    }

    fn at(bytes: &[u8]) -> Option<(ExtendedId, &[u8])> {
        let rest = extended_id_at(bytes)?;
        Some((ExtendedId, rest))
    }

    ghost begins = { extended_begins };
}

/// A text without the lines that number its font. Of a comment that would be such a line its `%` stays.
///
/// # Errors
///
/// A growth was refused.
#[tactic(auto, using(crate::proofs::RewritingLemmas::no_numbers))]
pub fn unnumbered(alloc: Global, text: &[u8]) -> Result<Vec<u8>, AllocError>
    ensures { IfOk result (λ v. v.items ≡ unnumbered text.now) }
{
    if occurs::<UniqueId>(text) || occurs::<ExtendedId>(text) {
        rewritten(alloc, Step::Unnumbered, text)
    } else {
        Vec::from_slice(alloc, text)
    }
}

// ---- tags

/// How many bytes come first that aren't regular.
fn break_len(text: &[u8]) -> usize
    ensures { result ≡ length (take_while (λ b. not (is_regular b)) text.now) }
{
    text.iter().take_while(|b| !is_regular(**b)).count()
}

/// A word, without its tags if it begins with this name.
fn renamed<'a>(name: &'a [u8], word: &'a [u8]) -> &'a [u8]
    ensures { result.now ≡ renamed name.now word.now }
{
    if fixed_at(word, name).is_some() {
        untagged(word)
    } else {
        word
    }
}

/// The first word of a text, or what stands between words, and what stands behind it.
fn untagged_piece<'a>(name: &'a [u8], text: &'a [u8]) -> (&'a [u8], &'a [u8])
    ensures { (result.0.now, result.1.now) ≡ untagged_piece name.now text.now }
{
    if regular_comes(text) {
        let (word, rest) = regular_at(text);
        (renamed(name, word), rest)
    } else {
        text.split_at(break_len(text))
    }
}

// ---- texts

/// What becomes of the first piece of a text, and what stands behind it.
fn piece<'a>(step: Step<'a>, text: &'a [u8]) -> (&'a [u8], &'a [u8])
    ensures { (result.0.now, result.1.now) ≡ piece_of step.entry text.now }
{
    match step {
        Step::Unnumbered => unnumbered_piece(text),
        Step::Untagged(name) => untagged_piece(name, text),
    }
}

/// A text, rewritten.
///
/// # Errors
///
/// A growth was refused.
pub fn rewritten(alloc: Global, step: Step<'_>, text: &[u8]) -> Result<Vec<u8>, AllocError>
    ensures { IfOk result (λ v. v.items ≡ rewritten (piece_of step.entry) text.now) }
{
    let mut new = Vec::with_capacity(alloc, text.len())?;
    let mut rest = text;
    'pieces: while !rest.is_empty() {
        let (put, behind) = piece(step, rest);
        new.extend_from_slice(put)?;
        rest = behind;
    }
    Ok(new)
}
