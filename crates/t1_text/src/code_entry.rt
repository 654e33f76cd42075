//! The entries of an Encoding's table.

ghost use Rattle.std.specs.{Prelude.{◌≡◌, true, IfSome, Some, None, if◌then◌else◌}, Option.{option_map}};
ghost use Rattle.t1_text.specs.Encoding.{is_octal, octal_after, octal, decimal_or_octal, code, put_entry, copy_start, one_copy, copied_range, copy_of_range, are_codes, range_copy, code_entry};
ghost use Rattle.t1_text.specs.{Encoding.{within_codes}, Views.{code_entry_view}};

use crate::dialect::{Dialect, Spacing};
use crate::words::{decimal_at, keyword_at, name_at, regular_at};
use t1_bytes::texts::fixed_at;

/// The number that 1 to 9 octal digits spell.
fn octal_digits(digits: &[u8]) -> Option<u32>
    ensures { result ≡ (if is_octal digits.now then Some (octal_after 0 digits.now) else None) }
{
    if digits.is_empty() || digits.len() > 9 {
        return None;
    }
    let mut value = 0;
    for b in digits {
        if *b < b'0' || b'7' < *b {
            return None;
        }
        value = value * 8 + (*b - b'0') as u32;
    }
    Some(value)
}

/// `8#` and octal digits.
#[tactic(auto, unfolding(crate::specs::Encoding::octal))]
fn octal_at(bytes: &[u8]) -> Option<(u32, &[u8])>
    ensures { option_map (λ x. (x.0, x.1.now)) result ≡ octal.read bytes.now }
{
    let (_, rest) = fixed_at(bytes, b"8#")?;
    let (digits, rest) = regular_at(rest);
    let value = octal_digits(digits)?;
    Some((value, rest))
}

/// A number, in decimal or in octal digits.
fn number_at(bytes: &[u8]) -> Option<(u32, &[u8])>
    ensures { option_map (λ x. (x.0, x.1.now)) result ≡ decimal_or_octal.read bytes.now }
{
    match decimal_at(bytes) {
        Some(found) => Some(found),
        None => octal_at(bytes),
    }
}

/// A code.
#[tactic(auto, unfolding(crate::specs::Encoding::code))]
fn code_at(bytes: &[u8]) -> Option<(u8, &[u8])>
    ensures { option_map (λ x. (x.0, x.1.now)) result ≡ code.read bytes.now }
{
    let (value, rest) = number_at(bytes)?;
    if value > 255 {
        return None;
    }
    Some((value as u8, rest))
}

/// An entry of the table.
#[derive(Clone, Copy)]
pub enum CodeEntry<'a> {
    /// A code that is given a name.
    Put(u8, &'a [u8]),
    /// The names of so many codes from one on, which are put at the codes from another one on.
    Copy(u16, u16, u16),
}

/// A code and its name.
#[tactic(auto, unfolding(crate::specs::Encoding::put_entry))]
fn put_at(bytes: &[u8], spacing: Spacing) -> Option<(CodeEntry<'_>, &[u8])>
    ensures value { option_map (λ x. (code_entry_view x.0, x.1.now)) result
        ≡ (put_entry spacing).read bytes.now }
    ensures within { IfSome result (λ x. within_codes (code_entry_view x.0) ≡ true) }
{
    let (_, rest) = spacing.white_at(bytes);
    let (_, rest) = keyword_at(rest, b"dup")?;
    let (_, rest) = spacing.gap_at(rest)?;
    let (code, rest) = code_at(rest)?;
    let (_, rest) = spacing.white_at(rest);
    let (name, rest) = name_at(rest)?;
    let (_, rest) = spacing.gap_at(rest)?;
    let (_, rest) = keyword_at(rest, b"put")?;
    Some((CodeEntry::Put(code, name), rest))
}

/// `dup dup`, which begins a copy.
fn copy_start_at(bytes: &[u8], spacing: Spacing) -> Option<(&[u8], &[u8])>
    ensures { option_map (λ x. (x.0.now, x.1.now)) result ≡ (copy_start spacing).read bytes.now }
{
    let (_, rest) = spacing.white_at(bytes);
    let (_, rest) = keyword_at(rest, b"dup")?;
    let (_, rest) = spacing.gap_at(rest)?;
    let (_, rest) = keyword_at(rest, b"dup")?;
    spacing.gap_at(rest)
}

/// The copy of one code's name.
#[tactic(auto, unfolding(crate::specs::Encoding::one_copy))]
fn one_copy_at(bytes: &[u8], spacing: Spacing) -> Option<(CodeEntry<'_>, &[u8])>
    ensures value { option_map (λ x. (code_entry_view x.0, x.1.now)) result
        ≡ (one_copy spacing).read bytes.now }
    ensures within { IfSome result (λ x. within_codes (code_entry_view x.0) ≡ true) }
{
    let (_, rest) = copy_start_at(bytes, spacing)?;
    let (to, rest) = code_at(rest)?;
    let (_, rest) = spacing.gap_at(rest)?;
    let (_, rest) = keyword_at(rest, b"exch")?;
    let (_, rest) = spacing.gap_at(rest)?;
    let (from, rest) = code_at(rest)?;
    let (_, rest) = spacing.gap_at(rest)?;
    let (_, rest) = keyword_at(rest, b"get")?;
    let (_, rest) = spacing.gap_at(rest)?;
    let (_, rest) = keyword_at(rest, b"put")?;
    Some((CodeEntry::Copy(from as u16, 1, to as u16), rest))
}

/// The range of codes whose names are copied.
#[tactic(auto, unfolding(crate::specs::Encoding::copied_range))]
fn copied_range_at(bytes: &[u8], spacing: Spacing) -> Option<(u32, u32, &[u8])>
    ensures { option_map (λ x. ((x.0, x.1), x.2.now)) result ≡ (copied_range spacing).read bytes.now }
{
    let (_, rest) = copy_start_at(bytes, spacing)?;
    let (from, rest) = number_at(rest)?;
    let (_, rest) = spacing.gap_at(rest)?;
    let (count, rest) = number_at(rest)?;
    let (_, rest) = spacing.gap_at(rest)?;
    let (_, rest) = keyword_at(rest, b"getinterval")?;
    Some((from, count, rest))
}

/// Whether so many codes from one on are codes.
fn are_codes(from: u32, count: u32) -> bool
    ensures { result ≡ are_codes from count }
{
    from <= 256 && count <= 256 - from
}

/// The copy of the names of a range of codes.
#[tactic(auto, unfolding(crate::specs::Encoding::copy_of_range))]
fn range_copy_at(bytes: &[u8], spacing: Spacing) -> Option<(CodeEntry<'_>, &[u8])>
    ensures value { option_map (λ x. (code_entry_view x.0, x.1.now)) result
        ≡ (range_copy spacing).read bytes.now }
    ensures within { IfSome result (λ x. within_codes (code_entry_view x.0) ≡ true) }
{
    let (from, count, rest) = copied_range_at(bytes, spacing)?;
    let (_, rest) = spacing.gap_at(rest)?;
    let (to, rest) = number_at(rest)?;
    let (_, rest) = spacing.gap_at(rest)?;
    let (_, rest) = keyword_at(rest, b"exch")?;
    let (_, rest) = spacing.gap_at(rest)?;
    let (_, rest) = keyword_at(rest, b"putinterval")?;
    if !are_codes(from, count) || !are_codes(to, count) {
        return None;
    }
    Some((CodeEntry::Copy(from as u16, count as u16, to as u16), rest))
}

/// An entry of the table. Only a wide one may be a copy.
pub fn code_entry_at(bytes: &[u8], dialect: Dialect) -> Option<(CodeEntry<'_>, &[u8])>
    ensures value { option_map (λ x. (code_entry_view x.0, x.1.now)) result
        ≡ (code_entry dialect).read bytes.now }
    ensures within { IfSome result (λ x. within_codes (code_entry_view x.0) ≡ true) }
{
    if let Some(found) = put_at(bytes, dialect.encoding) {
        return Some(found);
    }
    if !dialect.copies {
        return None;
    }
    match one_copy_at(bytes, dialect.encoding) {
        Some(found) => Some(found),
        None => range_copy_at(bytes, dialect.encoding),
    }
}
