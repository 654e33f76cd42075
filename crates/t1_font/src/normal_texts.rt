//! The kept texts of normalized fonts: their white space squeezed, without lines that number the font, and without tags.

ghost use Rattle.std.specs.Prelude.{◌≡◌, IfOk};
ghost use Rattle.t1_font.specs.Pieces.{iv_of};
ghost use Rattle.t1_text.specs.Tags.{tagged_name};
ghost use Rattle.t1_font.specs.NormalTexts.{reads_number, own_fits, next_byte, followed_fits, fits, ends_at, squeezed_text, normal_text, both_normal};
ghost use Rattle.t1_font.specs.NormalTexts.{without_tags, same_both, both_fit, normal_clear};

use crate::private::iv_of;
use std::alloc::{AllocError, Global};
use t1_text::font_test::{EexecMarker, has_marker};
use t1_text::markers::{CharsMarker, Closefile, Marker, SubrsMarker, first, occurs};
use t1_text::rewriting::{Step, rewritten, squeezed, unnumbered};
use t1_text::tags::tagged_name;
use t1_text::words::regular_comes;

/// Which kept text of a font a text is to be; the private text with the lenIV of the font.
#[derive(Clone, Copy)]
pub(crate) enum KeptText {
    Head,
    ClearTail,
    Private(u8),
    Middle,
    Tail,
}

// ---- texts of a font

/// Whether a marker stands in a text, and these bytes behind the first one.
fn ends_at<M: Marker>(rest: &[u8], text: &[u8]) -> bool
    ensures { result ≡ ends_at M.marker rest.now text.now }
{
    match first::<M>(text) {
        Some((_, _, behind)) => rest == behind,
        None => false,
    }
}

/// Whether a private text has this lenIV.
fn has_iv(iv: u8, text: &[u8]) -> bool
    ensures { result ≡ reads_number iv (iv_of text.now).read }
{
    match iv_of(text) {
        Ok(read) => read == iv,
        Err(_) => false,
    }
}

/// Whether a text alone can be that text of a font.
fn own_fits(kept: KeptText, text: &[u8]) -> bool
    ensures { result ≡ own_fits kept text.now }
{
    match kept {
        KeptText::Head => true,
        KeptText::ClearTail => !regular_comes(text),
        KeptText::Private(iv) => has_iv(iv, text),
        KeptText::Middle => !regular_comes(text) && !occurs::<SubrsMarker>(text),
        KeptText::Tail => {
            !regular_comes(text)
                && (!occurs::<SubrsMarker>(text) && ends_at::<Closefile>(b"", text))
        }
    }
}

/// The byte that is thought behind a text.
fn next_byte(kept: KeptText) -> u8
    ensures { result ≡ next_byte kept }
{
    match kept {
        KeptText::ClearTail => b'\n',
        _ => b'/',
    }
}

/// Whether a text can be that text of a font, with the byte that is thought behind it.
fn followed_fits(kept: KeptText, text: &[u8]) -> bool
    ensures { result ≡ followed_fits kept text.now }
{
    match kept {
        KeptText::Head => !has_marker(text),
        KeptText::ClearTail => ends_at::<EexecMarker>(b"\n", text),
        KeptText::Private(_) => !occurs::<SubrsMarker>(text) && !occurs::<CharsMarker>(text),
        KeptText::Middle => !occurs::<CharsMarker>(text),
        KeptText::Tail => true,
    }
}

/// Whether a text can be that text of a font.
fn fits(kept: KeptText, text: &mut Vec<u8>) -> Result<bool, AllocError>
    ensures { IfOk result (λ b. (b ≡ fits kept text.old.items) × (text.new.items ≡ text.old.items)) }
{
    if !own_fits(kept, text.as_slice()) {
        return Ok(false);
    }
    text.push(next_byte(kept))?;
    let fits = followed_fits(kept, text.as_slice());
    text.pop();
    Ok(fits)
}

// ---- steps

/// A text with its white space squeezed, if it can then be that text of a font.
pub(crate) fn squeezed_text(
    alloc: Global,
    kept: KeptText,
    text: &[u8],
) -> Result<Vec<u8>, AllocError>
    ensures { IfOk result (λ v. v.items ≡ squeezed_text kept text.now) }
{
    let mut new = squeezed(alloc, text)?;
    if new.as_slice() == text {
        return Ok(new);
    }
    let again = squeezed(alloc, new.as_slice())?;
    if fits(kept, &mut new)? && again.as_slice() == new.as_slice() {
        Ok(new)
    } else {
        Vec::from_slice(alloc, text)
    }
}

/// A normalized text, but for tags.
pub(crate) fn normal_text(alloc: Global, kept: KeptText, text: &[u8]) -> Result<Vec<u8>, AllocError>
    ensures { IfOk result (λ v. v.items ≡ normal_text kept text.now) }
{
    let old = squeezed_text(alloc, kept, text)?;
    let mut new = unnumbered(alloc, old.as_slice())?;
    if new.as_slice() == old.as_slice() {
        return Ok(new);
    }
    let before = squeezed_text(alloc, kept, new.as_slice())?;
    let again = unnumbered(alloc, new.as_slice())?;
    if fits(kept, &mut new)?
        && (before.as_slice() == new.as_slice() && again.as_slice() == new.as_slice())
    {
        Ok(new)
    } else {
        Ok(old)
    }
}

/// The two texts around the Encoding.
#[derive(Drop)]
pub(crate) struct ClearTexts {
    pub(crate) head: Vec<u8>,
    pub(crate) clear_tail: Vec<u8>,
}

/// The two texts around the Encoding, each normalized but for tags.
fn both_normal(alloc: Global, head: &[u8], clear_tail: &[u8]) -> Result<ClearTexts, AllocError>
    ensures { IfOk result (λ x. (x.head.items, x.clear_tail.items) ≡ both_normal (head.now, clear_tail.now)) }
{
    let head = normal_text(alloc, KeptText::Head, head)?;
    let clear_tail = normal_text(alloc, KeptText::ClearTail, clear_tail)?;
    Ok(ClearTexts { head, clear_tail })
}

/// The two texts around the Encoding without the tags of the font's name.
fn without_tags(alloc: Global, head: &[u8], clear_tail: &[u8]) -> Result<ClearTexts, AllocError>
    ensures { IfOk result (λ x. (x.head.items, x.clear_tail.items) ≡ without_tags (head.now, clear_tail.now)) }
{
    match tagged_name(head, clear_tail) {
        Some(name) => Ok(ClearTexts {
            head: rewritten(alloc, Step::Untagged(name), head)?,
            clear_tail: rewritten(alloc, Step::Untagged(name), clear_tail)?,
        }),
        None => Ok(ClearTexts {
            head: Vec::from_slice(alloc, head)?,
            clear_tail: Vec::from_slice(alloc, clear_tail)?,
        }),
    }
}

/// Whether two texts can be the two texts around the Encoding of a font.
pub(crate) fn both_fit(texts: &mut ClearTexts) -> Result<bool, AllocError>
    ensures { IfOk result (λ b. (b ≡ both_fit (texts.old.head.items, texts.old.clear_tail.items))
        × (texts.new.head.items ≡ texts.old.head.items)
        × (texts.new.clear_tail.items ≡ texts.old.clear_tail.items)) }
{
    let head = fits(KeptText::Head, &mut texts.head)?;
    let clear_tail = fits(KeptText::ClearTail, &mut texts.clear_tail)?;
    Ok(head && clear_tail)
}

/// Whether two texts are these two.
pub(crate) fn same_both(texts: &ClearTexts, head: &[u8], clear_tail: &[u8]) -> bool
    ensures { result ≡ same_both (texts.now.head.items, texts.now.clear_tail.items) (head.now, clear_tail.now) }
{
    texts.head.as_slice() == head && texts.clear_tail.as_slice() == clear_tail
}

/// The two texts around the Encoding, normalized.
pub(crate) fn normal_clear(
    alloc: Global,
    head: &[u8],
    clear_tail: &[u8],
) -> Result<ClearTexts, AllocError>
    ensures { IfOk result (λ x. (x.head.items, x.clear_tail.items) ≡ normal_clear (head.now, clear_tail.now)) }
{
    let old = both_normal(alloc, head, clear_tail)?;
    let mut new = without_tags(alloc, old.head.as_slice(), old.clear_tail.as_slice())?;
    if same_both(&old, new.head.as_slice(), new.clear_tail.as_slice()) {
        return Ok(old);
    }
    let before = both_normal(alloc, new.head.as_slice(), new.clear_tail.as_slice())?;
    let again = without_tags(alloc, new.head.as_slice(), new.clear_tail.as_slice())?;
    let fit = fits(KeptText::Head, &mut new.head)?
        && fits(KeptText::ClearTail, &mut new.clear_tail)?;
    if fit
        && (same_both(&before, new.head.as_slice(), new.clear_tail.as_slice())
            && same_both(&again, new.head.as_slice(), new.clear_tail.as_slice()))
    {
        Ok(new)
    } else {
        Ok(old)
    }
}
