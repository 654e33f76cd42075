//! One FontBBox for a list of fonts: the least box that holds the box of each (Adobe Type 1 Font Format 1.1, chapter 2).

ghost use Rattle.std.specs.{Prelude.{◌≡◌, nat_le, ℕ, List, [], map, Some, None, IfOk, if◌then◌else◌}, List.{list_all}, Option.{option_map}};
ghost use Rattle.t1_text.specs.Boxes.{joined_box, font_box, place_in, at_place, same_box};
ghost use Rattle.t1_text.specs.{Boxes.{is_read}, BoxViews.{box_view, kept_view}};
ghost use Rattle.t1_font.specs.FontBoxes.{side_in, box_at, texts_at, stays_at, with_clear, box_of};
ghost use Rattle.t1_font.specs.{FontBoxes.{clear_with, with_texts, can_take, can_have, if_can, boxes_of, boxed}, NormalTexts.{same_both, normal_clear}};
ghost use Rattle.t1_font.specs.{IsFont.{IsFont}, FontModel.{clamp}, FontValue.{weight, texts_weight, weight_limit}};
ghost use Rattle.t1_font.specs.BoxViews.{side_view, are_alike, wanted_box};

use crate::file::proof_are_bytes;
use crate::limits::WEIGHT_LIMIT;
use crate::normal_texts::{ClearTexts, both_fit, normal_clear, same_both};
use crate::shell::Shell;
use crate::source::{Source, SourceParts, glyphs_weight, subrs_weight};
use std::alloc::{AllocError, Global};
use t1_join::push_item;
use t1_text::box_places::{Place, at_place, is_read, place_in, same_box, text_of};
use t1_text::joined_boxes::{FontBox, KeptBox, joined_box};

// ---- the two texts around the Encoding

/// Where the box of two texts stands.
#[derive(Clone, Copy)]
enum Side<'a> {
    InHead(Place<'a>),
    InTail(Place<'a>),
}

/// Where the box of the two texts around the Encoding stands.
fn side_in<'a>(head: &'a [u8], clear_tail: &'a [u8]) -> Option<Side<'a>>
    ensures { option_map side_view result ≡ side_in (head.now, clear_tail.now) }
{
    if let Some(place) = place_in(head) {
        return Some(Side::InHead(place));
    }
    let place = place_in(clear_tail)?;
    Some(Side::InTail(place))
}

/// The box that stands there.
fn box_at(side: Side<'_>) -> FontBox<'_>
    ensures { box_view result ≡ box_at (side_view side.entry) }
{
    match side {
        Side::InHead(place) => place.numbers.sides,
        Side::InTail(place) => place.numbers.sides,
    }
}

/// The two texts with this box there.
fn texts_at<'a>(
    alloc: Global,
    sides: FontBox<'a>,
    head: &'a [u8],
    clear_tail: &'a [u8],
    side: Side<'a>,
) -> Result<ClearTexts, AllocError>
    ensures { IfOk result (λ x. (x.head.items, x.clear_tail.items)
        ≡ texts_at (box_view sides.entry) (head.now, clear_tail.now) (side_view side.entry)) }
{
    match side {
        Side::InHead(place) => Ok(ClearTexts {
            head: text_of(alloc, at_place(sides, place))?,
            clear_tail: Vec::from_slice(alloc, clear_tail)?,
        }),
        Side::InTail(place) => Ok(ClearTexts {
            head: Vec::from_slice(alloc, head)?,
            clear_tail: text_of(alloc, at_place(sides, place))?,
        }),
    }
}

// ---- what is wanted of them

/// Whether two texts with this box there have it there when they are read again.
fn stays_at<'a>(sides: FontBox<'a>, texts: &ClearTexts, side: Side<'a>) -> bool
    ensures { result
        ≡ stays_at (box_view sides.entry) (texts.now.head.items, texts.now.clear_tail.items) (side_view side.entry) }
{
    match side {
        Side::InHead(place) => is_read(at_place(sides, place), texts.head.as_slice()),
        Side::InTail(place) => is_read(at_place(sides, place), texts.clear_tail.as_slice()),
    }
}

/// Whether two texts stay when they are normalized.
fn are_normal(alloc: Global, texts: &ClearTexts) -> Result<bool, AllocError>
    ensures { IfOk result (λ b. b
        ≡ same_both (normal_clear (texts.now.head.items, texts.now.clear_tail.items))
        (texts.now.head.items, texts.now.clear_tail.items)) }
{
    let head = texts.head.as_slice();
    let clear_tail = texts.clear_tail.as_slice();
    let normal = normal_clear(alloc, head, clear_tail)?;
    Ok(same_both(&normal, head, clear_tail))
}

// ---- fonts

/// How many bytes the five kept texts have with these two in place of the head and the clear tail.
fn texts_weight(shell: &Shell, texts: &ClearTexts) -> u64
    ensures { result
        ≡ clamp (texts_weight (with_clear shell.now (texts.now.head.items, texts.now.clear_tail.items))) }
{
    (texts.head.len() as u64)
        .saturating_add(texts.clear_tail.len() as u64)
        .saturating_add(shell.private.len() as u64)
        .saturating_add(shell.middle.len() as u64)
        .saturating_add(shell.tail.len() as u64)
}

/// The weight of the font with these two texts, as far as 64 bits hold it.
fn weight_with(parts: &SourceParts, texts: &ClearTexts) -> u64
    ensures { result
        ≡ clamp (weight (with_texts parts.now (texts.now.head.items, texts.now.clear_tail.items))) }
{
    let len_iv = parts.shell.len_iv();
    let weight = texts_weight(&parts.shell, texts);
    let with_subrs = subrs_weight(weight, len_iv, parts.subrs.as_slice());
    glyphs_weight(with_subrs, len_iv, parts.glyphs.as_slice())
}

/// Whether the font is within the weight limit with these two texts.
pub(crate) fn is_light(parts: &SourceParts, texts: &ClearTexts) -> bool
    ensures { result
        ≡ nat_le (weight (with_texts parts.now (texts.now.head.items, texts.now.clear_tail.items))) weight_limit }
{
    weight_with(parts, texts) <= WEIGHT_LIMIT
}

/// Whether the font can have these two texts, in which this box stands there.
fn can_take<'a>(
    alloc: Global,
    parts: &SourceParts,
    sides: FontBox<'a>,
    side: Side<'a>,
    texts: &mut ClearTexts,
) -> Result<bool, AllocError>
    ensures { IfOk result (λ b. (b ≡ can_take (box_view sides.entry) parts.now (texts.old.head.items, texts.old.clear_tail.items) (side_view side.entry))
        × (texts.new.head.items ≡ texts.old.head.items)
        × (texts.new.clear_tail.items ≡ texts.old.clear_tail.items)) }
{
    let fit = both_fit(texts)?;
    let normal = are_normal(alloc, texts)?;
    let stays = stays_at(sides, texts, side);
    let light = is_light(parts, texts);
    Ok(fit && (normal && (stays && light)))
}

/// The two texts around the Encoding with this box, if the font can have it.
fn clear_with(
    alloc: Global,
    parts: &SourceParts,
    sides: FontBox<'_>,
) -> Result<Option<ClearTexts>, AllocError>
    ensures { IfOk result (λ o. option_map {U = List ℕ × List ℕ} (λ x. (x.head.items, x.clear_tail.items)) o
        ≡ (if can_have (box_view sides.entry) parts.now
        then Some (clear_with (box_view sides.entry) parts.now.shell) else None)) }
{
    let head = parts.shell.head.as_slice();
    let clear_tail = parts.shell.clear_tail.as_slice();
    let Some(side) = side_in(head, clear_tail) else {
        return Ok(None);
    };
    let mut texts = texts_at(alloc, sides, head, clear_tail, side)?;
    if can_take(alloc, parts, sides, side, &mut texts)? {
        Ok(Some(texts))
    } else {
        Ok(None)
    }
}

impl Source {
    /// The box of the font.
    fn font_box(&self) -> Option<FontBox<'_>>
        ensures { option_map box_view result ≡ box_of self.now.shell }
    {
        let shell = &self.parts.shell;
        let side = side_in(shell.head.as_slice(), shell.clear_tail.as_slice())?;
        Some(box_at(side))
    }

    /// Whether the font can have this box.
    fn can_have(&self, alloc: Global, sides: FontBox<'_>) -> Result<bool, AllocError>
        ensures { IfOk result (λ b. b ≡ can_have (box_view sides.entry) self.now) }
    {
        let texts = clear_with(alloc, &self.parts, sides)?;
        Ok(texts.is_some())
    }

    /// The font with these two texts around the Encoding.
    pub(crate) fn with_texts(self, texts: ClearTexts) -> Source
        requires { IsFont (with_texts self (texts.head.items, texts.clear_tail.items)) }
        ensures { result ≡ with_texts self (texts.head.items, texts.clear_tail.items) }
    {
        let ClearTexts { head, clear_tail } = texts;
        let mut parts = self.parts;
        parts.shell.head = head;
        parts.shell.clear_tail = clear_tail;
        Source { parts }
    }

    /// The font with this box, if it can have it.
    fn with_box(self, alloc: Global, sides: FontBox<'_>) -> Result<Source, AllocError>
        ensures { IfOk result (λ f. f ≡ if_can (box_view sides.entry) self) }
    {
        let texts = match clear_with(alloc, &self.parts, sides) {
            Ok(texts) => texts,
            Err(fault) => {
                drop(self);
                return Err(fault);
            }
        };
        match texts {
            Some(texts) => {
                proof_are_bytes(texts.head.as_slice());
                proof_are_bytes(texts.clear_tail.as_slice());
                Ok(self.with_texts(texts))
            }
            None => Ok(self),
        }
    }
}

// ---- lists of fonts

/// The boxes of some sources, if each has one.
fn boxes_of(alloc: Global, sources: &[Source]) -> Result<Option<Vec<FontBox<'_>>>, AllocError>
    ensures { IfOk result (λ o. option_map (λ v. map box_view v.items) o ≡ boxes_of sources.now) }
{
    let mut boxes = Vec::with_capacity(alloc, sources.len())?;
    'sources: for source in sources {
        match source.font_box() {
            Some(sides) => boxes.push(sides)?,
            None => return Ok(None),
        }
    }
    Ok(Some(boxes))
}

/// Whether some boxes are spelled like this one.
fn are_like(sides: FontBox<'_>, boxes: &[FontBox<'_>]) -> bool
    ensures { result ≡ list_all (same_box (box_view sides.entry)) (map box_view boxes.now) }
{
    'boxes: for other in boxes {
        if !same_box(sides, *other) {
            return false;
        }
    }
    true
}

/// Whether all of some boxes are spelled alike.
fn are_alike(boxes: &[FontBox<'_>]) -> bool
    ensures { result ≡ are_alike (map box_view boxes.now) }
{
    match boxes {
        [first, rest @ ..] => are_like(*first, rest),
        [] => true,
    }
}

/// The one box for some sources, if each has a box and they aren't spelled alike.
fn one_box(alloc: Global, sources: &[Source]) -> Result<Option<KeptBox>, AllocError>
    ensures { IfOk result (λ o. option_map kept_view o ≡ wanted_box (boxes_of sources.now)) }
{
    let Some(boxes) = boxes_of(alloc, sources)? else {
        return Ok(None);
    };
    if are_alike(boxes.as_slice()) {
        return Ok(None);
    }
    Ok(Some(joined_box(alloc, boxes.as_slice())?))
}

/// Whether each source can have this box.
fn all_can_have(alloc: Global, sources: &[Source], sides: FontBox<'_>) -> Result<bool, AllocError>
    ensures { IfOk result (λ b. b ≡ list_all (can_have (box_view sides.entry)) sources.now) }
{
    'sources: for source in sources {
        if !source.can_have(alloc, sides)? {
            return Ok(false);
        }
    }
    Ok(true)
}

/// The sources with this box, where each of them can have it.
fn all_with_box(
    alloc: Global,
    sources: Vec<Source>,
    sides: FontBox<'_>,
) -> Result<Vec<Source>, AllocError>
    ensures { IfOk result (λ all. all.items ≡ map (if_can (box_view sides.entry)) sources.items) }
{
    let mut all = Vec::with_capacity(alloc, sources.len())?;
    'sources: for source in sources {
        // Spelled out: with `?` each source that is left would be dropped field by field, and each step proved.
        let source = match source.with_box(alloc, sides) {
            Ok(source) => source,
            Err(fault) => return Err(fault),
        };
        push_item(&mut all, source)?;
    }
    Ok(all)
}

/// The sources with one FontBBox: the least box that holds the box of each. Programs that convert one font write another box
/// into each subset of it.
///
/// A box is `/FontBBox`, white space, an opening brace or bracket, four decimal numbers with white space between them, and what
/// closes it, in the head or else in the clear tail. The two lower numbers become the least of the list, the two upper ones the
/// greatest; each is written as one of the fonts spells it. A box of four zeros says that nothing is known, and makes all of
/// them so. Only the four words are replaced.
///
/// All sources stay as they are if their boxes are spelled alike, if one has no such box, or if one cannot have the new one: where
/// its texts would no longer be normalized texts of a font, where the box would not be read again at its place, and where the font would
/// be over the weight limit.
///
/// The sources are consumed whatever the answer is; after an error none of them is left.
///
/// # Errors
///
/// A growth was refused.
pub fn normalize_boxes(alloc: Global, sources: Vec<Source>) -> Result<Vec<Source>, AllocError>
    ensures { IfOk result (λ all. all.items ≡ boxed sources.items) }
{
    let joined = match one_box(alloc, sources.as_slice()) {
        Ok(Some(joined)) => joined,
        Ok(None) => return Ok(sources),
        Err(fault) => return Err(fault),
    };
    match all_can_have(alloc, sources.as_slice(), joined.lent()) {
        Ok(true) => all_with_box(alloc, sources, joined.lent()),
        Ok(false) => Ok(sources),
        Err(fault) => Err(fault),
    }
}
