//! What stands behind the key of an entry, in the tables of subroutines and of glyphs.

ghost use Rattle.std.specs.{Prelude.{◌≡◌, ◌≤◌, IfSome, length}, Option.{option_map}};
ghost use Rattle.t1_text.specs.{Entry.{length_from, body}, Places.{StandsIn}, Views.{body_view}};

use crate::limits::CHARSTRING_LIMIT;
use crate::places::Place;
use crate::words::{Phrase, decimal_at, one_white_at, phrase_at, word_at};
use t1_bytes::texts::{count_at, gap_at, white_at};

/// What stands behind a key, as it is spelled, and how many bytes stand behind its charstring.
#[derive(Clone, Copy)]
pub struct Body<'a> {
    pub rd: &'a [u8],
    pub bytes: &'a [u8],
    pub phrase: Phrase<'a>,
    pub behind: usize,
}

impl<'a> Body<'a> {
    /// Where the charstring stands.
    pub fn place(&self) -> Place
        ensures len { result.len ≡ length self.now.bytes.now }
        ensures behind { result.behind ≡ self.now.behind }
    {
        Place {
            len: self.bytes.len(),
            behind: self.behind,
        }
    }
}

/// The length of a charstring with lead bytes.
#[inline(always)]
#[tactic(auto, unfolding(crate::specs::Entry::length_from))]
fn length_at(bytes: &[u8], len_iv: u8) -> Option<(u32, &[u8])>
    ensures value { option_map (λ x. (x.0, x.1.now)) result ≡ (length_from len_iv).read bytes.now }
    ensures room { IfSome result (λ x. len_iv ≤ x.0) }
{
    let (len, rest) = decimal_at(bytes)?;
    if len_iv as u32 <= len && len <= CHARSTRING_LIMIT {
        Some((len, rest))
    } else {
        None
    }
}

/// What stands behind a key in a table with this lenIV.
#[inline(always)]
#[tactic(auto, unfolding(crate::specs::Entry::body))]
pub(crate) fn body_at(bytes: &[u8], len_iv: u8) -> Option<(Body<'_>, &[u8])>
    ensures value { option_map (λ x. (body_view x.0, x.1.now)) result
        ≡ (body len_iv).read bytes.now }
    ensures length { IfSome result (λ x. len_iv ≤ length x.0.bytes.now) }
    ensures place { IfSome result (λ x. StandsIn bytes.now x.0.bytes.now x.0.behind) }
    ensures left { IfSome result (λ x. length x.1.now ≤ x.0.behind) }
{
    let (_, rest) = gap_at(bytes)?;
    let (len, rest) = length_at(rest, len_iv)?;
    let (_, rest) = gap_at(rest)?;
    let (rd, rest) = word_at(rest)?;
    let (_, rest) = one_white_at(rest)?;
    let (bytes, rest) = count_at(rest, len as usize)?;
    let behind = rest.len();
    let (_, rest) = white_at(rest);
    let (phrase, rest) = phrase_at(rest, true)?;
    let body = Body {
        rd,
        bytes,
        phrase,
        behind,
    };
    Some((body, rest))
}
