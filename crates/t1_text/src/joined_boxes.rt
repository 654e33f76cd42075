//! The least box that holds some boxes, of which one may say that nothing is known (Adobe Type 1 Font Format 1.1, chapter 2).

ghost use Rattle.std.specs.{Prelude.{◌≡◌, ◌∷◌, [], map, filter, IfOk}, List.{list_any}};
ghost use Rattle.t1_text.specs.{Boxes.{says_nothing, held, joined_box}, BoxViews.{box_view, kept_view}};

use crate::numbers::{greater, is_zero, lesser};
use std::alloc::{AllocError, Global};

/// The numbers of a box, as they are spelled: its left, lower, right and upper side.
#[derive(Clone, Copy)]
pub struct FontBox<'a> {
    pub llx: &'a [u8],
    pub lly: &'a [u8],
    pub urx: &'a [u8],
    pub ury: &'a [u8],
}

/// Whether a box says that nothing is known.
fn says_nothing(sides: FontBox<'_>) -> bool
    ensures { result ≡ says_nothing (box_view sides.entry) }
{
    is_zero(sides.llx) && is_zero(sides.lly) && is_zero(sides.urx) && is_zero(sides.ury)
}

/// Whether one of some boxes says that nothing is known.
fn any_says_nothing(boxes: &[FontBox<'_>]) -> bool
    ensures { result ≡ list_any says_nothing (map box_view boxes.now) }
{
    'boxes: for sides in boxes {
        if says_nothing(*sides) {
            return true;
        }
    }
    false
}

/// Those of some boxes that say that nothing is known.
fn saying_nothing<'a>(alloc: Global, boxes: &[FontBox<'a>]) -> Result<Vec<FontBox<'a>>, AllocError>
    ensures { IfOk result (λ v. map box_view v.items ≡ filter says_nothing (map box_view boxes.now)) }
{
    let mut found = Vec::new(alloc);
    'boxes: for sides in boxes {
        if says_nothing(*sides) {
            found.push(*sides)?;
        }
    }
    Ok(found)
}

/// The least box that holds two.
fn both_held<'a>(b: FontBox<'a>, c: FontBox<'a>) -> FontBox<'a>
    ensures { box_view result ≡ held (box_view b.entry ∷ box_view c.entry ∷ []) }
{
    FontBox {
        llx: lesser(b.llx, c.llx),
        lly: lesser(b.lly, c.lly),
        urx: greater(b.urx, c.urx),
        ury: greater(b.ury, c.ury),
    }
}

/// The least box that holds one and some others.
fn held_with<'a>(first: FontBox<'a>, others: &[FontBox<'a>]) -> FontBox<'a>
    ensures { box_view result ≡ held (box_view first.entry ∷ map box_view others.now) }
{
    let mut joined = first;
    'boxes: for sides in others {
        joined = both_held(joined, *sides);
    }
    joined
}

/// The least box that holds some.
fn held<'a>(boxes: &[FontBox<'a>]) -> FontBox<'a>
    ensures { box_view result ≡ held (map box_view boxes.now) }
{
    match boxes.split_first() {
        Some((first, others)) => held_with(*first, others),
        None => FontBox {
            llx: b"",
            lly: b"",
            urx: b"",
            ury: b"",
        },
    }
}

/// A box that owns the spellings of its numbers.
#[derive(Drop)]
pub struct KeptBox {
    llx: Vec<u8>,
    lly: Vec<u8>,
    urx: Vec<u8>,
    ury: Vec<u8>,
}

impl KeptBox {
    /// A copy of a box.
    fn copied(alloc: Global, sides: FontBox<'_>) -> Result<KeptBox, AllocError>
        ensures { IfOk result (λ b. kept_view b ≡ box_view sides.entry) }
    {
        Ok(KeptBox {
            llx: Vec::from_slice(alloc, sides.llx)?,
            lly: Vec::from_slice(alloc, sides.lly)?,
            urx: Vec::from_slice(alloc, sides.urx)?,
            ury: Vec::from_slice(alloc, sides.ury)?,
        })
    }

    /// The box, borrowed.
    pub fn lent(&self) -> FontBox<'_>
        ensures { box_view result ≡ kept_view self.now }
    {
        FontBox {
            llx: self.llx.as_slice(),
            lly: self.lly.as_slice(),
            urx: self.urx.as_slice(),
            ury: self.ury.as_slice(),
        }
    }
}

/// The one box for some: the least that holds each, or one of four zeros where one of them has four zeros.
///
/// # Errors
///
/// A growth was refused.
pub fn joined_box(alloc: Global, boxes: &[FontBox<'_>]) -> Result<KeptBox, AllocError>
    ensures { IfOk result (λ b. kept_view b ≡ joined_box (map box_view boxes.now)) }
{
    if any_says_nothing(boxes) {
        let nothing = saying_nothing(alloc, boxes)?;
        KeptBox::copied(alloc, held(nothing.as_slice()))
    } else {
        KeptBox::copied(alloc, held(boxes))
    }
}
