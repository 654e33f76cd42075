//! Fonts under another name.

ghost use Rattle.std.specs.{Prelude.{◌≡◌, ℕ, List, map, Some, None, IfOk, if◌then◌else◌}, Option.{option_map}};
ghost use Rattle.t1_font.specs.FontNames.{text_named, clear_named, can_be_named, named, normalized_named};
ghost use Rattle.t1_text.specs.Tags.{around_name};

use crate::file::proof_are_bytes;
use crate::font_boxes::is_light;
use crate::normal_texts::{ClearTexts, both_fit};
use crate::normalizing::normalize_shells;
use crate::source::{Source, SourceParts};
use std::alloc::{AllocError, Global};
use t1_join::push_item;
use t1_text::tags::around_name;

/// A text with this name in place of its own, if it has one.
fn text_named(alloc: Global, name: &[u8], text: &[u8]) -> Result<Vec<u8>, AllocError>
    ensures { IfOk result (λ v. v.items ≡ text_named name.now text.now) }
{
    let Some((before, behind)) = around_name(text) else {
        return Vec::from_slice(alloc, text);
    };
    let mut new = Vec::from_slice(alloc, before)?;
    new.extend_from_slice(name)?;
    new.extend_from_slice(behind)?;
    Ok(new)
}

/// The two texts around the Encoding, the head with this name.
fn clear_named(alloc: Global, name: &[u8], parts: &SourceParts) -> Result<ClearTexts, AllocError>
    ensures { IfOk result (λ x. (x.head.items, x.clear_tail.items) ≡ clear_named name.now parts.now.shell) }
{
    Ok(ClearTexts {
        head: text_named(alloc, name, parts.shell.head.as_slice())?,
        clear_tail: Vec::from_slice(alloc, parts.shell.clear_tail.as_slice())?,
    })
}

/// The two texts around the Encoding, the head with this name, if the font can have it.
fn named_texts(
    alloc: Global,
    name: &[u8],
    parts: &SourceParts,
) -> Result<Option<ClearTexts>, AllocError>
    ensures { IfOk result (λ o. option_map {U = List ℕ × List ℕ} (λ x. (x.head.items, x.clear_tail.items)) o
        ≡ (if can_be_named name.now parts.now
        then Some (clear_named name.now parts.now.shell) else None)) }
{
    let mut texts = clear_named(alloc, name, parts)?;
    if both_fit(&mut texts)? && is_light(parts, &texts) {
        Ok(Some(texts))
    } else {
        Ok(None)
    }
}

impl Source {
    /// The font with this name behind the first `/FontName`, white space and a slash of its head, in place of the one that stands
    /// there. The font stays as it is where no such slash stands there, where a marker would arise that ends the head or the clear
    /// text, and where the font would be over the weight limit.
    ///
    /// # Errors
    ///
    /// A growth was refused.
    pub fn named(self, alloc: Global, name: &[u8]) -> Result<Source, AllocError>
        ensures { IfOk result (λ f. f ≡ named name.now self) }
    {
        let texts = match named_texts(alloc, name, &self.parts) {
            Ok(texts) => texts,
            Err(fault) => {
                drop(self);
                return Err(fault);
            }
        };
        match texts {
            Some(texts) => {
                proof_are_bytes(texts.head.as_slice());
                proof_are_bytes(texts.clear_tail.as_slice());
                Ok(self.with_texts(texts))
            }
            None => Ok(self),
        }
    }
}

/// The sources with this name, each if it can have it.
fn all_named(alloc: Global, sources: Vec<Source>, name: &[u8]) -> Result<Vec<Source>, AllocError>
    ensures { IfOk result (λ all. all.items ≡ map (named name.now) sources.items) }
{
    let mut all = Vec::with_capacity(alloc, sources.len())?;
    'sources: for source in sources {
        // Spelled out: with `?` each source that is left would be dropped field by field, and each step proved.
        let source = match source.named(alloc, name) {
            Ok(source) => source,
            Err(fault) => return Err(fault),
        };
        push_item(&mut all, source)?;
    }
    Ok(all)
}

/// The sources normalized by [`normalize_shells`], each with this name ([`Source::named`]): a document finds a font by its name, from
/// which normalizing takes the tags.
///
/// The sources are consumed whatever the answer is; after an error none of them is left.
///
/// # Errors
///
/// A growth was refused.
pub fn normalize_named(
    alloc: Global,
    sources: Vec<Source>,
    name: &[u8],
) -> Result<Vec<Source>, AllocError>
    ensures { IfOk result (λ all. all.items ≡ normalized_named name.now sources.items) }
{
    match normalize_shells(alloc, sources) {
        Ok(sources) => all_named(alloc, sources, name),
        Err(fault) => Err(fault),
    }
}
