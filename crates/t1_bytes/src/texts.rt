//! Reading from the front of bytes. A reader answers what it read and what stands after it; both
//! are parts of the bytes that it was given.

ghost use Rattle.std.specs.{Prelude.{◌≡◌, ◌≤◌, ◌+◌, length, take_while, Some, IfSome, MatchOption}, Option.{option_map}};
ghost use Rattle.bstr.specs.Find.{OccursAt, Nowhere};
ghost use Rattle.t1_grammar.specs.Grammar.{count, fixed};
ghost use Rattle.t1_bytes.specs.White.{is_white, white, gap};

use bstr::ByteSlice;

/// The first `n` bytes; `None` if there are fewer.
pub fn count_at(bytes: &[u8], n: usize) -> Option<(&[u8], &[u8])>
    ensures { option_map (λ x. (x.0.now, x.1.now)) result ≡ (count n).read bytes.now }
{
    if n <= bytes.len() {
        Some(bytes.split_at(n))
    } else {
        None
    }
}

/// The bytes of `text`; `None` if the front is something else.
pub fn fixed_at<'a>(bytes: &'a [u8], text: &[u8]) -> Option<(&'a [u8], &'a [u8])>
    ensures { option_map (λ x. (x.0.now, x.1.now)) result ≡ (fixed text.now).read bytes.now }
{
    let (front, rest) = count_at(bytes, text.len())?;
    if text == front {
        Some((front, rest))
    } else {
        None
    }
}

/// Whether a byte is white space: a null, a tab, LF, a form feed, CR or a blank.
pub fn is_white(byte: u8) -> bool
    ensures { result ≡ is_white byte }
{
    byte <= b' ' && matches!(byte, 0 | 9 | 10 | 12 | 13 | 32)
}

/// How many bytes of white space come first.
fn white_len(bytes: &[u8]) -> usize
    ensures { result ≡ length (take_while is_white bytes.now) }
{
    bytes.iter().take_while(|b| is_white(**b)).count()
}

/// All the white space at the front; there may be none.
pub fn white_at(bytes: &[u8]) -> (&[u8], &[u8])
    ensures { Some (result.0.now, result.1.now) ≡ white.read bytes.now }
{
    bytes.split_at(white_len(bytes))
}

/// All the white space at the front, at least one byte; `None` if there is none.
#[tactic(auto, unfolding(crate::specs::White::gap))]
pub fn gap_at(bytes: &[u8]) -> Option<(&[u8], &[u8])>
    ensures { option_map (λ x. (x.0.now, x.1.now)) result ≡ gap.read bytes.now }
{
    let (front, rest) = white_at(bytes);
    if front.is_empty() {
        return None;
    }
    Some((front, rest))
}

/// The first offset from `from` on where `text` stands; `None` if there is none, also if `from` is
/// past the end of the bytes.
pub fn find_from(bytes: &[u8], text: &[u8], from: usize) -> Option<usize>
    ensures within { IfSome result (λ at. (from ≤ at) × (at + length text.now ≤ length bytes.now)) }
    ensures first { MatchOption result (Nowhere (OccursAt bytes.now text.now) from (length bytes.now
        + 1)) (Nowhere (OccursAt bytes.now text.now) from) }
    ensures found { IfSome result (OccursAt bytes.now text.now) }
{
    if from > bytes.len() {
        return None;
    }
    let (_, rest) = bytes.split_at(from);
    match rest.find(text) {
        Some(at) => Some(from + at),
        None => None,
    }
}
