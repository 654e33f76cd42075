//! Heads without the test whether their font was loaded before.
//!
//! Many fonts, those of Computer Modern among them, begin by asking PostScript's `FontDirectory` for themselves. The answer
//! stays on the operand stack, for a `restore` behind the font's `cleartomark`, which isn't kept.

ghost use Rattle.std.specs.Prelude.{◌≡◌, ℕ, List, ◌++◌, ◌∷◌, ◌+◌, ◌≤◌, ◌<◌, length, map, drop, get_or, codes, Some, None, IfOk, IfSome, MatchOption};
ghost use Rattle.std.specs.{Prelude.{if◌then◌else◌}, Option.{option_map}};
ghost use Rattle.t1_grammar.specs.Grammar.{first};
ghost use Rattle.t1_bytes.specs.Eexec.{blank_comes};
ghost use Rattle.t1_text.specs.FontTest.{is_brace, if_false, ask_number, get_number, is_same, then_save, token, test_tokens, literal, known_name, if_numbered, known_number};
ghost use Rattle.t1_text.specs.FontTest.{font_test, precedes_test, found_test, place_and_around, eexec_there, test_begins, eexec_begins, has_marker, is_untested, untested, taken_test};

use crate::markers::{EncodingMarker, Marker, first};
use crate::words::{decimal_at, is_regular, keyword_at, next_name_at, regular_comes};
use std::alloc::{AllocError, Global};
use t1_bytes::texts::{fixed_at, gap_at, white_at};

/// `known {`
const IF_KNOWN: &[&[u8]] = &[b"known", b"{"];

/// `known pop false {`
fn if_false() -> &'static [&'static [u8]]
    ensures { map (λ w. w.now) result.now ≡ if_false }
{
    &[b"known", b"pop", b"false", b"{"]
}

/// `findfont dup /UniqueID`
fn ask_number() -> &'static [&'static [u8]]
    ensures { map (λ w. w.now) result.now ≡ ask_number }
{
    &[b"findfont", b"dup", b"/UniqueID"]
}

/// `dup /UniqueID get`
fn get_number() -> &'static [&'static [u8]]
    ensures { map (λ w. w.now) result.now ≡ get_number }
{
    &[b"dup", b"/UniqueID", b"get"]
}

/// `eq exch /FontType get 1 eq and } { pop false } ifelse`
fn is_same() -> &'static [&'static [u8]]
    ensures { map (λ w. w.now) result.now ≡ is_same }
{
    &[
        b"eq",
        b"exch",
        b"/FontType",
        b"get",
        b"1",
        b"eq",
        b"and",
        b"}",
        b"{",
        b"pop",
        b"false",
        b"}",
        b"ifelse",
    ]
}

/// `{ save true } { false } ifelse } { false } ifelse`
fn then_save() -> &'static [&'static [u8]]
    ensures { map (λ w. w.now) result.now ≡ then_save }
{
    &[
        b"{", b"save", b"true", b"}", b"{", b"false", b"}", b"ifelse", b"}", b"{", b"false", b"}",
        b"ifelse",
    ]
}

/// Whether a token is a brace.
fn is_brace(word: &[u8]) -> bool
    ensures { result ≡ is_brace word.now }
{
    word == b"{".as_slice() || word == b"}".as_slice()
}

/// What stands behind a token, which white space may precede.
#[tactic(auto, unfolding(crate::specs::FontTest::token))]
fn token_at<'a>(bytes: &'a [u8], word: &[u8]) -> Option<&'a [u8]>
    ensures { option_map (λ r. r.now) result ≡ option_map (λ x. x.1) ((token word.now).read bytes.now) }
{
    let (_, rest) = white_at(bytes);
    let (_, rest) = fixed_at(rest, word)?;
    if !is_brace(word) && regular_comes(rest) {
        return None;
    }
    Some(rest)
}

/// What stands behind some tokens.
fn tokens_at<'a>(bytes: &'a [u8], words: &[&[u8]]) -> Option<&'a [u8]>
    ensures { option_map (λ r. r.now) result
        ≡ option_map (λ x. x.1) ((test_tokens (map (λ w. w.now) words.now)).read bytes.now) }
{
    let mut rest = bytes;
    'words: for word in words {
        match token_at(rest, word) {
            Some(behind) => rest = behind,
            None => return None,
        }
    }
    Some(rest)
}

/// What stands behind a slash and this name, which white space may precede.
#[tactic(auto, unfolding(crate::specs::FontTest::literal))]
fn literal_at<'a>(bytes: &'a [u8], name: &[u8]) -> Option<&'a [u8]>
    ensures { option_map (λ r. r.now) result ≡ option_map (λ x. x.1) ((literal name.now).read bytes.now) }
{
    let (_, rest) = white_at(bytes);
    let (_, rest) = fixed_at(rest, b"/")?;
    let (_, rest) = keyword_at(rest, name)?;
    Some(rest)
}

/// What stands behind the question whether the font's name is known.
#[tactic(auto, unfolding(crate::specs::FontTest::known_name))]
fn known_name_at(bytes: &[u8]) -> Option<&[u8]>
    ensures { option_map (λ r. r.now) result ≡ option_map (λ x. x.1) (known_name.read bytes.now) }
{
    let (_, rest) = fixed_at(bytes, b"FontDirectory")?;
    let (name, rest) = next_name_at(rest)?;
    let rest = tokens_at(rest, IF_KNOWN)?;
    literal_at(rest, name)
}

/// What stands behind `known {` or `known pop false {`.
#[tactic(auto, unfolding(crate::specs::FontTest::if_numbered))]
fn if_numbered_at(bytes: &[u8]) -> Option<&[u8]>
    ensures { option_map (λ r. r.now) result ≡ option_map (λ x. x.1) (if_numbered.read bytes.now) }
{
    match tokens_at(bytes, IF_KNOWN) {
        Some(rest) => Some(rest),
        None => tokens_at(bytes, if_false()),
    }
}

/// What stands behind the question whether its number is known.
#[tactic(auto, unfolding(crate::specs::FontTest::known_number))]
fn known_number_at(bytes: &[u8]) -> Option<&[u8]>
    ensures { option_map (λ r. r.now) result ≡ option_map (λ x. x.1) (known_number.read bytes.now) }
{
    let rest = tokens_at(bytes, ask_number())?;
    let rest = if_numbered_at(rest)?;
    let rest = tokens_at(rest, get_number())?;
    let (_, rest) = white_at(rest);
    let (_, rest) = decimal_at(rest)?;
    Some(rest)
}

/// The test, wherever it stands.
#[derive(Clone, Copy)]
struct FontTest;

impl Marker for FontTest {
    ghost Said = { Unit {0} };

    ghost said = { λ _. tt };

    ghost text = { codes "FontDirectory" };

    ghost marker = { font_test };

    fn text() -> &'static [u8] {
        b"FontDirectory"
    }

    #[tactic(auto, unfolding(crate::specs::FontTest::font_test))]
    fn at(bytes: &[u8]) -> Option<(FontTest, &[u8])> {
        let rest = known_name_at(bytes)?;
        let rest = known_number_at(rest)?;
        let rest = tokens_at(rest, is_same())?;
        let rest = tokens_at(rest, then_save())?;
        Some((FontTest, rest))
    }

    ghost begins = { test_begins };
}

/// Whether the test may stand at a place of a head: no word goes on there, nor a literal.
fn breaks_at(head: &[u8], place: usize) -> bool
    requires { place ≤ length head.now }
    ensures { result ≡ precedes_test (get_or (10 ∷ head.now) place 0) }
{
    place == 0 || (!is_regular(head[place - 1]) && head[place - 1] != b'/')
}

/// The place of the first test from a place of a head on, wherever it stands, and what stands behind it.
fn test_from(head: &[u8], from: usize) -> Option<(usize, &[u8])>
    requires { from ≤ length head.now }
    ensures test { option_map {U = ℕ × List ℕ} (λ x. (x.0, x.1.now)) result
        ≡ option_map (λ x. (from + length x.0.0, x.1)) ((first font_test).read (drop from head.now)) }
    ensures within { IfSome result (λ x. x.0 < length head.now) }
{
    let (_, rest) = head.split_at(from);
    let (front, _, behind) = first::<FontTest>(rest)?;
    Some((from + front.len(), behind))
}

/// What stands before and behind the first test of a head.
fn found_test(head: &[u8]) -> Option<(&[u8], &[u8])>
    ensures { option_map (λ x. (length x.0.now, x.0.now ++ x.1.now)) result
        ≡ option_map place_and_around (found_test head.now) }
{
    let mut from = 0;
    'tests: while let Some((place, behind)) = test_from(head, from) {
        if breaks_at(head, place) {
            let (before, _) = head.split_at(place);
            return Some((before, behind));
        }
        from = place + 1;
    }
    None
}

/// Whether a blank, a tab, CR or LF comes.
pub(crate) fn blank_comes(bytes: &[u8]) -> bool
    ensures { result ≡ blank_comes bytes.now }
{
    !bytes.is_empty() && matches!(bytes[0], b' ' | b'\t' | b'\r' | b'\n')
}

/// The marker that ends the clear text.
#[derive(Clone, Copy)]
pub struct EexecMarker;

impl Marker for EexecMarker {
    ghost Said = { Unit {0} };

    ghost said = { λ _. tt };

    ghost text = { codes "currentfile" };

    ghost marker = { eexec_there };

    fn text() -> &'static [u8] {
        b"currentfile"
    }

    #[tactic(auto, unfolding(t1_bytes::specs::Eexec::eexec_marker, crate::specs::FontTest::eexec_there))]
    fn at(bytes: &[u8]) -> Option<(EexecMarker, &[u8])> {
        let (_, rest) = fixed_at(bytes, b"currentfile")?;
        let (_, rest) = gap_at(rest)?;
        let (_, rest) = fixed_at(rest, b"eexec")?;
        if !blank_comes(rest) {
            return None;
        }
        Some((EexecMarker, rest))
    }

    ghost begins = { eexec_begins };
}

/// Whether in a text stands a marker that ends a head, or the clear text.
pub fn has_marker(text: &[u8]) -> bool
    ensures { result ≡ has_marker text.now }
{
    first::<EncodingMarker>(text).is_some() || first::<EexecMarker>(text).is_some()
}

/// A text, if it is a head without a test.
fn whole_head(mut text: Vec<u8>) -> Result<Option<Vec<u8>>, AllocError>
    ensures { IfOk result (λ o. option_map (λ v. v.items) o
        ≡ (if is_untested text.items then Some text.items else None)) }
{
    if found_test(text.as_slice()).is_some() {
        return Ok(None);
    }
    text.push(b'/')?;
    if has_marker(text.as_slice()) {
        return Ok(None);
    }
    text.pop();
    Ok(Some(text))
}

/// What stands around a test, if that is a head without one.
fn joined_head(alloc: Global, before: &[u8], behind: &[u8]) -> Result<Option<Vec<u8>>, AllocError>
    ensures { IfOk result (λ o. option_map (λ v. v.items) o
        ≡ (if is_untested (before.now ++ behind.now) then Some (before.now ++ behind.now) else None)) }
{
    let mut text = Vec::from_slice(alloc, before)?;
    text.extend_from_slice(behind)?;
    whole_head(text)
}

/// The head without its test, if it loses one.
///
/// # Errors
///
/// A growth was refused.
pub fn untested(alloc: Global, head: &[u8]) -> Result<Option<Vec<u8>>, AllocError>
    ensures { IfOk result (λ o. MatchOption o (untested head.now ≡ head.now) (λ v. v.items ≡ untested head.now)) }
{
    match found_test(head) {
        Some((before, behind)) => joined_head(alloc, before, behind),
        None => Ok(None),
    }
}

/// Where the test stands in a head that loses it.
///
/// # Errors
///
/// A growth was refused.
pub fn taken_test(alloc: Global, head: &[u8]) -> Result<Option<usize>, AllocError>
    ensures { IfOk result (λ o. o ≡ taken_test head.now) }
{
    let Some((before, behind)) = found_test(head) else {
        return Ok(None);
    };
    match joined_head(alloc, before, behind)? {
        Some(_) => Ok(Some(before.len())),
        None => Ok(None),
    }
}
