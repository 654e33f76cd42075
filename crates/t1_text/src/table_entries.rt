//! The entries of the tables of subroutines and of glyphs, and what closes each table.

ghost use Rattle.std.specs.{Prelude.{◌≡◌, ◌<◌, ◌≤◌, ◌+◌, IfSome, length}, Option.{option_map}};
ghost use Rattle.t1_text.specs.{Subrs.{subr, subr_key, subrs_end}, Places.{StandsIn}, Views.{entry_view, phrase_view}, Glyphs.{glyph, glyphs_end}};

use crate::dialect::Spacing;
use crate::entry::{Body, body_at};
use crate::places::Place;
use crate::words::{Phrase, decimal_at, keyword_at, next_name_at, phrase_at};
use t1_bytes::texts::{gap_at, white_at};

// ---- subroutines

/// An index below the declared count, and what stands before it.
#[tactic(auto, unfolding(crate::specs::Subrs::subr_key))]
fn subr_key_at(bytes: &[u8], spacing: Spacing, declared: u32) -> Option<(u32, &[u8])>
    ensures value { option_map (λ x. (x.0, x.1.now)) result ≡ (subr_key spacing declared).read bytes.now }
    ensures below { IfSome result (λ x. x.0 < declared) }
{
    let (_, rest) = spacing.white_at(bytes);
    let (_, rest) = keyword_at(rest, b"dup")?;
    let (_, rest) = gap_at(rest)?;
    let (index, rest) = decimal_at(rest)?;
    if index < declared {
        Some((index, rest))
    } else {
        None
    }
}

/// An entry of a table with this declared count and lenIV: its index, what stands behind that, and what stands after the entry.
#[tactic(auto, unfolding(crate::specs::Entry::entry))]
pub fn subr_at(
    bytes: &[u8],
    spacing: Spacing,
    declared: u32,
    len_iv: u8,
) -> Option<(u32, Body<'_>, &[u8])>
    ensures value { option_map (λ x. (entry_view x.0 x.1, x.2.now)) result
        ≡ (subr spacing declared len_iv).read bytes.now }
    ensures index { IfSome result (λ x. x.0 < declared) }
    ensures length { IfSome result (λ x. len_iv ≤ length x.1.bytes.now) }
    ensures body { IfSome result (λ x. StandsIn bytes.now x.1.bytes.now x.1.behind) }
    ensures left { IfSome result (λ x. length x.2.now ≤ x.1.behind) }
{
    let (index, rest) = subr_key_at(bytes, spacing, declared)?;
    let (body, rest) = body_at(rest, len_iv)?;
    Some((index, body, rest))
}

/// The phrase that closes the table, and what stands after it.
#[tactic(auto, unfolding(crate::specs::Subrs::subrs_end))]
pub fn subrs_end_at(bytes: &[u8], spacing: Spacing) -> Option<(Phrase<'_>, &[u8])>
    ensures { option_map (λ x. (phrase_view x.0, x.1.now)) result ≡ (subrs_end spacing).read bytes.now }
{
    let (_, rest) = spacing.white_at(bytes);
    phrase_at(rest, false)
}

// ---- glyphs

/// An entry of the table: its name, how many bytes stand behind that, and what they begin with.
#[derive(Clone, Copy)]
pub struct GlyphEntry<'a> {
    pub name: &'a [u8],
    pub behind: usize,
    pub body: Body<'a>,
}

impl<'a> GlyphEntry<'a> {
    /// Where the name stands.
    pub fn name_place(&self) -> Place
        ensures len { result.len ≡ length self.now.name.now }
        ensures behind { result.behind ≡ self.now.behind }
    {
        Place {
            len: self.name.len(),
            behind: self.behind,
        }
    }
}

/// An entry of a table with this lenIV, and what stands after it.
#[tactic(auto, unfolding(crate::specs::Entry::entry))]
pub fn glyph_at(bytes: &[u8], len_iv: u8) -> Option<(GlyphEntry<'_>, &[u8])>
    ensures value { option_map (λ x. (entry_view x.0.name.now x.0.body, x.1.now)) result
        ≡ (glyph len_iv).read bytes.now }
    ensures length { IfSome result (λ x. len_iv ≤ length x.0.body.bytes.now) }
    ensures name { IfSome result (λ x. StandsIn bytes.now x.0.name.now x.0.behind) }
    ensures body { IfSome result (λ x. StandsIn bytes.now x.0.body.bytes.now x.0.body.behind) }
    ensures order { IfSome result (λ x. length x.0.body.bytes.now + x.0.body.behind ≤ x.0.behind) }
    ensures left { IfSome result (λ x. length x.1.now ≤ x.0.body.behind) }
{
    let (name, rest) = next_name_at(bytes)?;
    let behind = rest.len();
    let (body, rest) = body_at(rest, len_iv)?;
    Some((GlyphEntry { name, behind, body }, rest))
}

/// What stands after the close of the table.
#[tactic(auto, unfolding(crate::specs::Glyphs::glyphs_end))]
pub fn glyphs_end_at(bytes: &[u8]) -> Option<&[u8]>
    ensures { option_map (λ x. x.now) result ≡ option_map (λ x. x.1) (glyphs_end.read bytes.now) }
{
    let (_, rest) = white_at(bytes);
    let (_, rest) = keyword_at(rest, b"end")?;
    Some(rest)
}
