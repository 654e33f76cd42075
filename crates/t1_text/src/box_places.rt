//! The FontBBox in a text: its numbers, and the text around them (Adobe Type 1 Font Format 1.1, chapter 2).

ghost use Rattle.std.specs.{Prelude.{◌≡◌, ℕ, List, Some, None, IfOk}, Option.{option_map}};
ghost use Rattle.t1_text.specs.Boxes.{is_opening, closing, closes_box, opening, spaced, box_numbers, font_box, place_in, at_place, box_place_text, same_box, same_numbers, same_place};
ghost use Rattle.t1_text.specs.{Boxes.{is_read}, BoxViews.{box_view, numbers_view, box_place_view}};

use crate::joined_boxes::FontBox;
use crate::numbers::number_at;
use std::alloc::{AllocError, Global};
use t1_bytes::texts::{count_at, find_from, fixed_at, gap_at, white_at};

/// Four numbers, and the white space behind each of the first three.
#[derive(Clone, Copy)]
pub struct Numbers<'a> {
    pub sides: FontBox<'a>,
    pub first: &'a [u8],
    pub second: &'a [u8],
    pub third: &'a [u8],
}

/// Where a box stands in a text: what stands before it, its bytes up to its numbers, these, and what stands behind them.
#[derive(Clone, Copy)]
pub struct Place<'a> {
    pub front: &'a [u8],
    pub start: &'a [u8],
    pub numbers: Numbers<'a>,
    pub behind: &'a [u8],
}

// ---- a box in a text

/// Whether this is an opening brace or bracket.
fn is_opening(word: &[u8]) -> bool
    ensures { result ≡ is_opening word.now }
{
    word == b"{".as_slice() || word == b"[".as_slice()
}

/// What closes it.
fn closing(word: &[u8]) -> &'static [u8]
    ensures { result.now ≡ closing word.now }
{
    if word == b"{".as_slice() { b"}" } else { b"]" }
}

/// Whether white space, which may be none, and what closes this come.
fn closes(word: &[u8], text: &[u8]) -> bool
    ensures { result ≡ closes_box word.now text.now }
{
    let (_, behind) = white_at(text);
    fixed_at(behind, closing(word)).is_some()
}

/// The brace or bracket behind `/FontBBox`, and what stands behind it and white space.
#[tactic(auto, unfolding(crate::specs::Boxes::opening))]
fn opening_at(bytes: &[u8]) -> Option<(&[u8], &[u8])>
    ensures { option_map {U = List ℕ × List ℕ} (λ x. (x.0.now, x.1.now)) result
        ≡ option_map (λ x. (x.0.1, x.1)) (opening.read bytes.now) }
{
    let (_, rest) = fixed_at(bytes, b"/FontBBox")?;
    let (_, rest) = white_at(rest);
    let (bracket, rest) = count_at(rest, 1)?;
    if !is_opening(bracket) {
        return None;
    }
    let (_, rest) = white_at(rest);
    Some((bracket, rest))
}

/// A number, and white space.
#[tactic(auto, unfolding(crate::specs::Boxes::spaced))]
fn spaced_at(bytes: &[u8]) -> Option<((&[u8], &[u8]), &[u8])>
    ensures { option_map (λ x. ((x.0.0.now, x.0.1.now), x.1.now)) result ≡ spaced.read bytes.now }
{
    let (word, rest) = number_at(bytes)?;
    let (space, rest) = gap_at(rest)?;
    Some(((word, space), rest))
}

/// Four numbers.
#[tactic(auto, unfolding(crate::specs::Boxes::box_numbers))]
fn numbers_at(bytes: &[u8]) -> Option<(Numbers<'_>, &[u8])>
    ensures { option_map (λ x. (numbers_view x.0, x.1.now)) result ≡ box_numbers.read bytes.now }
{
    let ((llx, first), rest) = spaced_at(bytes)?;
    let ((lly, second), rest) = spaced_at(rest)?;
    let ((urx, third), rest) = spaced_at(rest)?;
    let (ury, rest) = number_at(rest)?;
    let numbers = Numbers {
        sides: FontBox { llx, lly, urx, ury },
        first,
        second,
        third,
    };
    Some((numbers, rest))
}

/// The bytes up to four numbers, these, and what stands behind them.
fn font_box_at(bytes: &[u8]) -> Option<((&[u8], Numbers<'_>), &[u8])>
    ensures { option_map (λ x. ((x.0.0.now, numbers_view x.0.1), x.1.now)) result
        ≡ font_box.read bytes.now }
{
    let (bracket, inside) = opening_at(bytes)?;
    let (numbers, rest) = numbers_at(inside)?;
    if !closes(bracket, rest) {
        return None;
    }
    let (start, _) = bytes.split_at(bytes.len().saturating_sub(inside.len()));
    Some(((start, numbers), rest))
}

/// The first place of a text that has a box.
pub fn place_in(text: &[u8]) -> Option<Place<'_>>
    ensures { option_map box_place_view result ≡ place_in text.now }
{
    let mut from = 0;
    'places: while let Some(place) = find_from(text, b"/FontBBox", from) {
        let (front, here) = text.split_at(place);
        if let Some(((start, numbers), behind)) = font_box_at(here) {
            return Some(Place {
                front,
                start,
                numbers,
                behind,
            });
        }
        from = place + 1;
    }
    None
}

/// A place with this box in it.
pub fn at_place<'a>(sides: FontBox<'a>, place: Place<'a>) -> Place<'a>
    ensures { box_place_view result ≡ at_place (box_view sides.entry) (box_place_view place.entry) }
{
    Place {
        front: place.front,
        start: place.start,
        numbers: Numbers {
            sides,
            first: place.numbers.first,
            second: place.numbers.second,
            third: place.numbers.third,
        },
        behind: place.behind,
    }
}

/// The text of a place.
///
/// # Errors
///
/// A growth was refused.
pub fn text_of(alloc: Global, place: Place<'_>) -> Result<Vec<u8>, AllocError>
    ensures { IfOk result (λ v. v.items ≡ box_place_text (box_place_view place.entry)) }
{
    let Numbers {
        sides,
        first,
        second,
        third,
    } = place.numbers;
    let mut text = Vec::from_slice(alloc, place.front)?;
    text.extend_from_slice(place.start)?;
    text.extend_from_slice(sides.llx)?;
    text.extend_from_slice(first)?;
    text.extend_from_slice(sides.lly)?;
    text.extend_from_slice(second)?;
    text.extend_from_slice(sides.urx)?;
    text.extend_from_slice(third)?;
    text.extend_from_slice(sides.ury)?;
    text.extend_from_slice(place.behind)?;
    Ok(text)
}

// ---- equal places

/// Whether two boxes are spelled alike.
pub fn same_box(b: FontBox<'_>, c: FontBox<'_>) -> bool
    ensures { result ≡ same_box (box_view b.entry) (box_view c.entry) }
{
    b.llx == c.llx && b.lly == c.lly && b.urx == c.urx && b.ury == c.ury
}

/// Whether four numbers, and what stands between them, are the same.
fn same_numbers(m: Numbers<'_>, n: Numbers<'_>) -> bool
    ensures { result ≡ same_numbers (numbers_view m.entry) (numbers_view n.entry) }
{
    same_box(m.sides, n.sides) && m.first == n.first && m.second == n.second && m.third == n.third
}

/// Whether two places are the same.
fn same_place(p: Place<'_>, q: Place<'_>) -> bool
    ensures { result ≡ same_place (box_place_view p.entry) (box_place_view q.entry) }
{
    p.front == q.front
        && p.start == q.start
        && same_numbers(p.numbers, q.numbers)
        && p.behind == q.behind
}

/// Whether this place is read in a text.
pub fn is_read(place: Place<'_>, text: &[u8]) -> bool
    ensures { result ≡ is_read (box_place_view place.entry) (place_in text.now) }
{
    match place_in(text) {
        Some(read) => same_place(place, read),
        None => false,
    }
}
