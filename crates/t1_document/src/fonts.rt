//! Font texts: fonts whose cipher is hexadecimal, as documents have them.

ghost use Rattle.std.specs.{Prelude.{◌≡◌, ◌≤◌, ◌-◌, false, length, take, drop, IfOk, IfSome}, Option.{option_map}};
ghost use Rattle.t1_grammar.specs.Grammar.{that};
ghost use Rattle.t1_bytes.specs.{Eexec.{hex_text}, FlatText.{starts_segment}};
ghost use Rattle.t1_document.specs.{Fonts.{ends_with_c, font_shape, is_memory, spelled_name, name_within, if_font, font_in}, Views.{font_view}};

use std::alloc::{AllocError, Global};
use t1_bytes::texts::fixed_at;
use t1_bytes::{after_eexec, hex_text_at};
use t1_font::{Part, ReadFault, Source, name_in, read_wide};

/// A font text, the name of its font, and the bytes that follow it.
#[derive(Clone, Copy)]
pub(crate) struct FontText<'a> {
    pub(crate) name: &'a [u8],
    pub(crate) text: &'a [u8],
    pub(crate) rest: &'a [u8],
}

/// Whether the last byte is a `c`.
fn ends_with_c(digits: &[u8]) -> bool
    ensures { result ≡ ends_with_c digits.now }
{
    !digits.is_empty() && digits[digits.len() - 1] == b'c'
}

/// What stands after the digits of a cipher that end with a `c`.
fn behind_digits(bytes: &[u8]) -> Option<&[u8]>
    ensures { option_map (λ r. r.now) result ≡ option_map (λ x. x.1) ((that ends_with_c hex_text).read bytes.now) }
{
    let (digits, rest) = hex_text_at(bytes)?;
    if !ends_with_c(digits) {
        return None;
    }
    Some(rest)
}

/// What stands after a text of the shape of a font text.
#[tactic(auto, unfolding(crate::specs::Fonts::font_shape))]
fn behind_shape(bytes: &[u8]) -> Option<&[u8]>
    ensures { option_map (λ r. r.now) result ≡ option_map (λ x. x.1) (font_shape.read bytes.now) }
{
    let (_, rest) = fixed_at(bytes, b"%!")?;
    let rest = after_eexec(rest)?;
    let rest = behind_digits(rest)?;
    let (_, rest) = fixed_at(rest, b"leartomark")?;
    Some(rest)
}

/// How many bytes the head of a font has.
fn head_len(alloc: Global, source: &Source) -> Result<usize, AllocError>
    ensures { IfOk result (λ n. n ≡ length source.now.shell.head) }
{
    let font = source.font(alloc)?;
    Ok(font.text(Part::Head).len())
}

/// Whether a fault is want of memory.
pub(crate) fn is_memory(fault: &ReadFault) -> bool
    ensures { result ≡ is_memory fault.now }
{
    matches!(fault, ReadFault::Memory)
}

/// How many bytes the head has of the font that a text spells, if it spells one; the text begins with that head.
fn spelled_head_len(alloc: Global, text: &[u8]) -> Result<Option<usize>, AllocError>
    requires flat { starts_segment text.now ≡ false }
    ensures name { IfOk result (λ o. name_within text.now o ≡ spelled_name text.now) }
    ensures within { IfOk result (λ o. IfSome o (λ n. n ≤ length text.now)) }
{
    match read_wide(alloc, text) {
        Ok(source) => Ok(Some(head_len(alloc, &source)?)),
        Err(fault) => {
            if is_memory(&fault) {
                Err(AllocError)
            } else {
                Ok(None)
            }
        }
    }
}

/// The name of the font that a text spells, if it spells one that has a name. It is lent from the text.
fn spelled_name(alloc: Global, text: &[u8]) -> Result<Option<&[u8]>, AllocError>
    requires flat { starts_segment text.now ≡ false }
    ensures { IfOk result (λ o. option_map (λ n. n.now) o ≡ spelled_name text.now) }
{
    let Some(len) = spelled_head_len(alloc, text)? else {
        return Ok(None);
    };
    let (head, _) = text.split_at(len);
    match name_in(head) {
        Some(name) if !name.is_empty() => Ok(Some(name)),
        _ => Ok(None),
    }
}

/// The font text that stands before so many bytes at the end, if it spells a font that has a name.
fn font_before(alloc: Global, bytes: &[u8], left: usize) -> Result<Option<FontText<'_>>, AllocError>
    requires within { left ≤ length bytes.now }
    requires flat { starts_segment (take (length bytes.now - left) bytes.now) ≡ false }
    ensures { IfOk result (λ o. option_map font_view o ≡ if_font (take (length bytes.now - left) bytes.now, drop (length bytes.now - left) bytes.now)) }
{
    let (text, rest) = bytes.split_at(bytes.len() - left);
    match spelled_name(alloc, text)? {
        Some(name) => Ok(Some(FontText { name, text, rest })),
        None => Ok(None),
    }
}

/// The font text that bytes begin with, and what follows it.
#[tactic(auto, unfolding(crate::specs::Fonts::font_in))]
pub(crate) fn font_in(alloc: Global, bytes: &[u8]) -> Result<Option<FontText<'_>>, AllocError>
    ensures { IfOk result (λ o. option_map font_view o ≡ font_in bytes.now) }
{
    let Some(rest) = behind_shape(bytes) else {
        return Ok(None);
    };
    font_before(alloc, bytes, rest.len())
}
