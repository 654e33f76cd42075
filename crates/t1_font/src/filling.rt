//! Fonts with one set of Subrs: a stub stands where a font lacks a Subr that another has.

ghost use Rattle.std.specs.{Prelude.{◌≡◌, ◌+◌, ◌*◌, ◌≤◌, map, nat_lt, IfOk, MatchResult}, Ordering.{nat_cmp}};
ghost use Rattle.t1_font.specs.{FontValue.{SparseArray as SparseArrayValue, weight, weight_limit}, FontModel.{clamp}, Maps.{merged}};
ghost use Rattle.t1_font.specs.Normalizing.{stubs_at, indices_of_all};
ghost use Rattle.t1_font.specs.{Filling.{Fills, FillRefuses, has_each, are_below, AreStubs, with_subrs, filled_by, FontRefused}, Lent.{stub_at}};
ghost use Rattle.t1_join.specs.TableMeaning.{Rises};
ghost use Rattle.std.specs.FinMap as fin;

use crate::cut::cut_subrs;
use crate::font::{Font, FontParts};
use crate::lent::{SparseArray, SparseArrayForm};
use crate::limits::WEIGHT_LIMIT;
use crate::parts::{PartsFault, join_codes};
use crate::stub::STUB;
use std::alloc::{AllocError, Global};
use std::collections::BTreeSet;
use t1_join::push_item;

/// Whether a table has an entry at each number at which the other has one.
fn has_all(table: &SparseArray<'_>, others: &SparseArray<'_>) -> bool
    ensures { result ≡ has_each table.now (fin.keys others.now) }
{
    'others: for (number, _) in others.entries() {
        if table.get_likely(number).is_none() {
            return false;
        }
    }
    true
}

/// A stub at each index at which some font has a Subr. A font takes no room here if all of its indices are known.
fn stubs_of_all<'a>(alloc: Global, fonts: &[Font<'a>]) -> Result<SparseArray<'a>, AllocError>
    ensures { IfOk result (λ m. m ≡ stubs_at (indices_of_all fonts.now)) }
{
    let mut all = SparseArray::made(Vec::new(alloc));
    'fonts: for font in fonts {
        if !has_all(&all, &font.parts.subrs) {
            all = join_codes(alloc, &all, &font.parts.subrs)?;
        }
    }
    cut_subrs(alloc, &all, &BTreeSet::new(alloc))
}

/// Whether all indices are below a count. They rise, so the last one says it.
fn are_below(indices: &[u16], declared: u16) -> bool
    requires { Rises nat_cmp (map stub_at indices.now) }
    ensures { result ≡ are_below declared indices.now }
{
    match indices.split_last() {
        Some((last, _)) => *last < declared,
        None => true,
    }
}

/// The Subrs, and stubs at the indices that are below a count and have no Subr, in a list of their own.
fn made_with_stubs<'a>(
    alloc: Global,
    subrs: &SparseArray<'a>,
    indices: &[u16],
    declared: u16,
) -> Result<SparseArray<'a>, AllocError>
    requires { Rises nat_cmp (map stub_at indices.now) }
    ensures { IfOk result (λ m. m ≡ merged subrs.now
        (fin.retain_keys (stubs_at indices.now) (λ i. nat_lt i declared))) }
{
    let mut stubs: Vec<(u16, &'a [u8])> = Vec::with_capacity(alloc, indices.len())?;
    'indices: for index in indices {
        if *index < declared {
            stubs.push((*index, STUB))?;
        }
    }
    let stubs = SparseArray::made(stubs);
    join_codes(alloc, subrs, &stubs)
}

/// The Subrs, and stubs at the indices that are below a count and have no Subr. If the Subrs are a source's, all indices are
/// below the count and each index of a Subr is one of them, they are lent, and take no room.
fn with_stubs<'a>(
    alloc: Global,
    subrs: &SparseArray<'a>,
    indices: &'a [u16],
    declared: u16,
) -> Result<SparseArray<'a>, AllocError>
    requires { Rises nat_cmp (map stub_at indices.now) }
    ensures { IfOk result (λ m. m ≡ merged subrs.now
        (fin.retain_keys (stubs_at indices.now) (λ i. nat_lt i declared))) }
{
    if let SparseArrayForm::Stored(own) = subrs.form() {
        if are_below(indices, declared) && subrs.are_among(indices) {
            return Ok(SparseArray::filled(own.again(), indices));
        }
    }
    made_with_stubs(alloc, subrs, indices, declared)
}

/// What so many stubs weigh in a font with this lenIV, as far as 64 bits hold it.
fn stubs_weight(len_iv: u8, count: usize) -> u64
    ensures { result ≡ clamp (count * (129 + len_iv)) }
{
    (count as u64).saturating_mul(129 + len_iv as u64)
}

/// What a font weighs with these Subrs, which are its own and stubs, as far as 64 bits hold it.
fn filled_weight(parts: &FontParts<'_>, subrs: &SparseArray<'_>) -> u64
    ensures { (stubs : SparseArrayValue)
        → AreStubs stubs
        → subrs.now ≡ merged parts.now.subrs stubs
        → result ≡ clamp (weight (with_subrs parts.now subrs.now)) }
{
    let added = subrs.len().saturating_sub(parts.subrs.len());
    parts
        .weight()
        .saturating_add(stubs_weight(parts.shell.len_iv(), added))
}

/// The font with the stubs at the indices that it declares and lacks. A font without Subrs gets none, since it has no
/// words to write them with.
fn fill<'a>(alloc: Global, font: Font<'a>, indices: &'a [u16]) -> Result<Font<'a>, PartsFault>
    requires { Rises nat_cmp (map stub_at indices.now) }
    ensures filled { MatchResult result (λ f. f
        ≡ filled_by (stubs_at indices.now) font.entry)
        (FontRefused (filled_by (stubs_at indices.now) font.entry)) }
    ensures light { IfOk result (λ f. weight f ≤ weight_limit) }
{
    font.proof_is_font();
    let parts = font.parts;
    if parts.subrs.is_empty() {
        return Ok(Font { parts });
    }
    let subrs = match with_stubs(alloc, &parts.subrs, indices, parts.shell.declared_count()) {
        Ok(subrs) => subrs,
        Err(_) => {
            drop(parts);
            return Err(PartsFault::Memory);
        }
    };
    if filled_weight(&parts, &subrs) > WEIGHT_LIMIT {
        drop(subrs);
        drop(parts);
        return Err(PartsFault::Limit);
    }
    let parts = FontParts {
        shell: parts.shell,
        encoding: parts.encoding,
        subrs,
        glyphs: parts.glyphs,
    };
    Ok(Font { parts })
}

/// The indices at which some font has a Subr, upwards.
fn stub_indices(alloc: Global, fonts: &[Font<'_>]) -> Result<Vec<u16>, AllocError>
    ensures { IfOk result (λ v. v.items ≡ fin.keys (stubs_at (indices_of_all fonts.now))) }
{
    let stubs = stubs_of_all(alloc, fonts)?;
    let mut indices = Vec::with_capacity(alloc, stubs.len())?;
    'stubs: for (index, _) in stubs.entries() {
        indices.push(index)?;
    }
    Ok(indices)
}

/// The fonts, each with the stubs at the indices of a list that it declares and lacks.
fn fill_each<'a>(
    alloc: Global,
    fonts: Vec<Font<'a>>,
    indices: &'a [u16],
) -> Result<Vec<Font<'a>>, PartsFault>
    requires { indices.now ≡ fin.keys (stubs_at (indices_of_all fonts.items)) }
    ensures { MatchResult result (λ all. Fills fonts.entry.items all.items)
        (FillRefuses fonts.entry.items) }
{
    let mut all = Vec::with_capacity(alloc, fonts.len())?;
    'fonts: for font in fonts {
        // Spelled out, since with `?` each font that is left would be let go field by field, and each step proved.
        let font = match fill(alloc, font, indices) {
            Ok(font) => font,
            Err(fault) => return Err(fault),
        };
        push_item(&mut all, font)?;
    }
    Ok(all)
}

/// The fonts, each with [`STUB`](crate::STUB) at the indices of Subrs that it declares and lacks and that another of the
/// fonts has. A font without Subrs gets none, since it has no words to write them with.
///
/// `indices` is a place for the indices of all, from which they are lent, so that a font of a source takes no room for its
/// stubs; what it held before is let go.
///
/// The fonts are consumed whatever the answer is; after an error none of them is left, and their sources are still there.
///
/// # Errors
///
/// `Limit` if one of the fonts then weighs more than a font may, `Memory` if a growth was refused.
pub fn fill_all<'a>(
    alloc: Global,
    fonts: Vec<Font<'a>>,
    indices: &'a mut Vec<u16>,
) -> Result<Vec<Font<'a>>, PartsFault>
    ensures { MatchResult result (λ all. Fills fonts.entry.items all.items)
        (FillRefuses fonts.entry.items) }
{
    *indices = stub_indices(alloc, fonts.as_slice())?;
    fill_each(alloc, fonts, indices.as_slice())
}
