//! A document whose fonts get new texts.

ghost use Rattle.std.specs.{Prelude.{◌≡◌, ◌<◌, ◌++◌, List, ℕ, map, None, IfOk, OnOk, if◌then◌else◌}, Option.{option_map}};
ghost use Rattle.t1_document.specs.{Marks.{has_mark}, Texts.{text_in, has_text}, Views.{font_view, place_view, document_view}};
ghost use Rattle.t1_document.specs.Rewriting.{is_font, can_stand, is_like, is_text, AllTried, is_barred};
ghost use Rattle.t1_document.specs.Rewriting.{is_refused, without_refused, level_fate, level_fates, fate_bytes, fated_bytes, document_levelled};

use crate::documents::{Document, Place};
use crate::fonts::{FontText, font_in};
use crate::stretches::unmarked_len;
use crate::texts::Texts;
use std::alloc::{AllocError, Global};

/// Whether a line of a text is a mark.
pub(crate) fn has_mark(text: &[u8]) -> bool
    ensures { result ≡ has_mark text.now }
{
    unmarked_len(text) < text.len()
}

/// Whether a text was found as the font text of a place's name, with the place's rest behind it.
fn is_font(found: Option<FontText<'_>>, text: &[u8], place: &Place<'_>) -> bool
    ensures { result ≡ is_font place.now.name.now text.now place.now.rest.now (option_map font_view found.entry) }
{
    match found {
        Some(font) => font.name == place.name && font.text == text && font.rest == place.rest,
        None => false,
    }
}

impl<'a> Place<'a> {
    /// Whether a text can stand at this place: with the rest of the place behind it, it has no line that is a mark, and it is
    /// read again as a font text of the place's name before the same rest.
    ///
    /// # Errors
    ///
    /// Only want of memory.
    pub fn can_stand(&self, alloc: Global, text: &[u8]) -> Result<bool, AllocError>
        ensures { IfOk result (λ b. b ≡ can_stand text.now (place_view self.now)) }
    {
        let mut whole = Vec::with_capacity(alloc, text.len().saturating_add(self.rest.len()))?;
        whole.extend_from_slice(text)?;
        whole.extend_from_slice(self.rest)?;
        if has_mark(&whole) {
            return Ok(false);
        }
        let found = font_in(alloc, &whole)?;
        Ok(is_font(found, text, self))
    }
}

/// Whether a place is like one that came before, so that the same texts can stand at both.
pub(crate) fn is_like(before: Option<&Place<'_>>, place: &Place<'_>) -> bool
    ensures { result ≡ is_like (option_map (λ p. place_view p.now) before.entry) (place_view place.now) }
{
    match before {
        Some(other) => other.name == place.name && other.rest == place.rest,
        None => false,
    }
}

/// Whether this rest is noted for a name.
fn is_noted(tried: &Texts<'_>, name: &[u8], rest: &[u8]) -> bool
    ensures { result ≡ is_text rest.now (text_in tried.now name.now) }
{
    match tried.get(name) {
        Some(noted) => noted == rest,
        None => false,
    }
}

/// Whether the new text of a place's name can't stand there. Where it can, the place's rest is noted, since the text need not be tried
/// before it again.
fn is_barred<'a>(
    alloc: Global,
    new: &Texts<'_>,
    tried: &mut Texts<'a>,
    place: &Place<'a>,
) -> Result<bool, AllocError>
    requires { AllTried (text_in new.now) (text_in tried.old) }
    ensures barred { IfOk result (λ b. b ≡ is_barred (text_in new.now place.now.name.now) (place_view place.now)) }
    ensures tried { OnOk result (AllTried (text_in new.now) (text_in tried.new)) }
{
    let Some(text) = new.get(place.name) else {
        return Ok(false);
    };
    if is_noted(tried, place.name, place.rest) {
        return Ok(false);
    }
    if !place.can_stand(alloc, text)? {
        return Ok(true);
    }
    tried.put(place.name, place.rest)?;
    Ok(false)
}

/// The names whose new texts can't stand at one of their places; the texts are the names again.
fn refused<'a>(
    alloc: Global,
    new: &Texts<'_>,
    places: &[Place<'a>],
) -> Result<Texts<'a>, AllocError>
    ensures { IfOk result (λ r. (name : List ℕ) → has_text r name
        ≡ is_refused (text_in new.now) (map place_view places.now) name) }
{
    let mut refused = Texts::new(alloc);
    let mut tried = Texts::new(alloc);
    'places: for place in places {
        if is_barred(alloc, new, &mut tried, place)? {
            refused.put(place.name, place.name)?;
        }
    }
    Ok(refused)
}

/// The new text of a name that is not refused.
fn standing<'n>(new: &Texts<'n>, refused: &Texts<'_>, name: &[u8]) -> Option<&'n [u8]>
    ensures { option_map (λ t. t.now) result
        ≡ without_refused (has_text refused.now) (text_in new.now) name.now }
{
    if refused.get(name).is_some() {
        return None;
    }
    new.get(name)
}

/// Adds a place's font text, or the new text of its name, and its rest.
fn push_place(out: &mut Vec<u8>, place: &Place<'_>, text: Option<&[u8]>) -> Result<(), AllocError>
    ensures { OnOk result (out.new.items
        ≡ out.old.items ++ fate_bytes (level_fate (option_map (λ t. t.now) text.entry)) (place_view place.now)) }
{
    match text {
        Some(text) => out.extend_from_slice(text)?,
        None => out.extend_from_slice(place.text)?,
    }
    out.extend_from_slice(place.rest)
}

/// Adds places whose fonts get the new texts of names that are not refused, and the bytes behind them.
fn push_levelled(
    out: &mut Vec<u8>,
    places: &[Place<'_>],
    last: &[u8],
    new: &Texts<'_>,
    refused: &Texts<'_>,
) -> Result<(), AllocError>
    ensures { OnOk result (out.new.items ≡ out.old.items
        ++ fated_bytes (level_fates (without_refused (has_text refused.now) (text_in new.now)) (map place_view places.now)) last.now) }
{
    'places: for place in places {
        out.extend_from_slice(place.before)?;
        push_place(out, place, standing(new, refused, place.name))?;
    }
    out.extend_from_slice(last)?;
    Ok(())
}

/// The bytes of a document whose fonts get the new texts of names that are not refused.
pub(crate) fn write(
    alloc: Global,
    document: &Document<'_>,
    new: &Texts<'_>,
    refused: &Texts<'_>,
) -> Result<Vec<u8>, AllocError>
    requires { (name : List ℕ) → has_text refused.now name
        ≡ is_refused (text_in new.now) (document_view document.now).places name }
    ensures { IfOk result (λ v. v.items ≡ document_levelled (text_in new.now) (document_view document.now)) }
{
    let mut out = Vec::new(alloc);
    push_levelled(
        &mut out,
        document.places.as_slice(),
        document.last,
        new,
        refused,
    )?;
    Ok(out)
}

impl<'a> Document<'a> {
    /// The document in which each place of a name has the new text of that name. All other bytes stay.
    ///
    /// A name gets its new text only if that can stand at each of its places ([`Place::can_stand`]). Else the places of the
    /// name stay as they are.
    ///
    /// # Errors
    ///
    /// Only want of memory.
    pub fn level(&self, alloc: Global, new: &Texts<'_>) -> Result<Vec<u8>, AllocError>
        ensures { IfOk result (λ v. v.items ≡ document_levelled (text_in new.now) (document_view self.now)) }
    {
        let refused = refused(alloc, new, self.places.as_slice())?;
        write(alloc, self, new, &refused)
    }
}
