//! Tags of subsets: six capitals and `+`, which programs put before the name of a font that they cut (ISO 32000-1, 9.6.4).

ghost use Rattle.std.specs.{Prelude.{◌≡◌, ℕ, List, codes}, List.{list_all}, Option.{option_map}};
ghost use Rattle.t1_text.specs.Tags.{around_name, is_capital, tag, name_marker, name_begins, untagged, name_in, font_name, is_tagged, tagged_name};

use crate::markers::{Marker, first};
use crate::words::regular_at;
use t1_bytes::texts::{count_at, fixed_at, white_at};

/// What stands before the name of a font.
#[derive(Clone, Copy)]
struct NameMarker;

impl Marker for NameMarker {
    ghost Said = { List ℕ };

    ghost said = { λ _. codes "/" };

    ghost text = { codes "/FontName" };

    ghost marker = { name_marker };

    fn text() -> &'static [u8] {
        b"/FontName"
    }

    #[tactic(auto, unfolding(crate::specs::Tags::name_marker))]
    fn at(bytes: &[u8]) -> Option<(NameMarker, &[u8])> {
        let (_, rest) = fixed_at(bytes, b"/FontName")?;
        let (_, rest) = white_at(rest);
        let (_, rest) = fixed_at(rest, b"/")?;
        Some((NameMarker, rest))
    }

    ghost begins = { name_begins };
}

/// Whether all bytes are capitals.
fn are_capitals(bytes: &[u8]) -> bool
    ensures { result ≡ list_all is_capital bytes.now }
{
    bytes.iter().all(|b| b'A' <= *b && *b <= b'Z')
}

/// What stands behind a tag.
#[tactic(auto, unfolding(crate::specs::Tags::tag))]
fn tag_at(bytes: &[u8]) -> Option<&[u8]>
    ensures { option_map (λ r. r.now) result ≡ option_map (λ x. x.1) (tag.read bytes.now) }
{
    let (letters, rest) = count_at(bytes, 6)?;
    if !are_capitals(letters) {
        return None;
    }
    let (_, rest) = fixed_at(rest, b"+")?;
    Some(rest)
}

/// A name without the tags that it begins with: six capitals and `+`, as often as they come.
pub fn untagged(bytes: &[u8]) -> &[u8]
    ensures { result.now ≡ untagged bytes.now }
{
    let mut rest = bytes;
    'tags: while let Some(behind) = tag_at(rest) {
        rest = behind;
    }
    rest
}

/// The name behind the first `/FontName`, white space and a slash of a text; `None` if it has no such slash. The name may
/// be empty.
pub fn name_in(text: &[u8]) -> Option<&[u8]>
    ensures { option_map (λ r. r.now) result ≡ name_in text.now }
{
    let (_, _, behind) = first::<NameMarker>(text)?;
    let (name, _) = regular_at(behind);
    Some(name)
}

/// The bytes of a text before its name, and those behind the name.
pub fn around_name(text: &[u8]) -> Option<(&[u8], &[u8])>
    ensures { option_map {U = List ℕ × List ℕ} (λ x. (x.0.now, x.1.now)) result
        ≡ around_name text.now }
{
    let (_, _, name) = first::<NameMarker>(text)?;
    let (before, _) = text.split_at(text.len().saturating_sub(name.len()));
    let (_, behind) = regular_at(name);
    Some((before, behind))
}

/// The name of the font around whose Encoding these two texts stand.
fn font_name<'a>(head: &'a [u8], clear_tail: &'a [u8]) -> Option<&'a [u8]>
    ensures { option_map (λ r. r.now) result ≡ font_name (head.now, clear_tail.now) }
{
    match name_in(head) {
        Some(name) => Some(name),
        None => name_in(clear_tail),
    }
}

/// Whether a name has tags, and behind them a name.
fn is_tagged(name: &[u8]) -> bool
    ensures { result ≡ is_tagged name.now }
{
    let behind = untagged(name);
    !behind.is_empty() && behind.len() < name.len()
}

/// The name of the font around whose Encoding these two texts stand, if it has tags.
pub fn tagged_name<'a>(head: &'a [u8], clear_tail: &'a [u8]) -> Option<&'a [u8]>
    ensures { option_map (λ r. r.now) result ≡ tagged_name (head.now, clear_tail.now) }
{
    let name = font_name(head, clear_tail)?;
    if is_tagged(name) { Some(name) } else { None }
}
