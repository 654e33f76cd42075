//! A font cut to some of its glyphs and Subrs.

ghost use Rattle.std.specs.{Prelude.{◌≡◌, ℕ, List, [], true, cond, unwrap_or, IfOk, OnOk}, Ordering.{nat_cmp}, BTreeSet.{contains}};
ghost use Rattle.std.specs.{List.Sorted.{IsStrictlySortedBy}, Map.{keys_of, values_of}};
ghost use Rattle.t1_font.specs.{FontValue.{notdef}, FontModel.{encoding_of}, Lent.{glyph_names, AreOwn}, Cut.{stub, set_of_names, restrict_encoding, restrict}};
ghost use Rattle.t1_font.specs.Maps.{put_all_into, entry_of, map_values};
ghost use Rattle.std.specs.FinMap as fin;
ghost use Rattle.std.specs.FinSet as sets;

use crate::font::{Font, FontParts, LentEncoding};
use crate::lent::{CharStrings, Glyph, SparseArray};
use crate::stub::STUB;
use std::alloc::{AllocError, Global};
use std::collections::{BTreeMap, BTreeSet};

/// The values of a map in the order of their keys. The map is used up.
fn drain<K: Ord + Drop, V: Drop>(alloc: Global, map: BTreeMap<K, V>) -> Result<Vec<V>, AllocError>
    ensures items { IfOk result (λ v. v.items ≡ values_of map.entries) }
    ensures ordered { IfOk result (λ _. IsStrictlySortedBy K.cmp (keys_of map.entries)) }
{
    let mut values = Vec::with_capacity(alloc, map.len())?;
    'entries: for (_, value) in map {
        values.push(value)?;
    }
    Ok(values)
}

/// Keeps the glyph of a name, if there is one.
fn keep_named<'a>(
    cut: &mut BTreeMap<&'a [u8], Glyph<'a>>,
    glyphs: &CharStrings<'a>,
    name: &[u8],
) -> Result<(), AllocError>
    ensures kept { OnOk result (glyph_names cut.new.entries
        ≡ put_all_into (glyph_names cut.old.entries)
        (entry_of name.now (fin.get glyphs.now name.now))) }
    ensures own { OnOk result (AreOwn cut.old.entries → AreOwn cut.new.entries) }
{
    if let Some(glyph) = glyphs.glyph(name) {
        cut.insert(glyph.name(), glyph)?;
    }
    Ok(())
}

/// The glyphs of these names.
fn cut_glyphs<'a>(
    alloc: Global,
    glyphs: &CharStrings<'a>,
    names: &[Vec<u8>],
) -> Result<CharStrings<'a>, AllocError>
    ensures { IfOk result (λ m. m
        ≡ fin.retain_keys glyphs.now (sets.contains (set_of_names names.now))) }
{
    let mut cut = BTreeMap::new(alloc);
    'names: for name in names {
        keep_named(&mut cut, glyphs, name.as_slice())?;
    }
    Ok(CharStrings::made(drain(alloc, cut)?))
}

/// The codes whose names are those of glyphs.
fn cut_codes<'a>(
    alloc: Global,
    codes: &SparseArray<'a>,
    glyphs: &CharStrings<'_>,
) -> Result<SparseArray<'a>, AllocError>
    ensures { IfOk result (λ m. m
        ≡ fin.retain_keys codes.now
        (λ c. fin.contains_key glyphs.now (unwrap_or (fin.get codes.now c) []))) }
{
    let mut cut = Vec::new(alloc);
    'codes: for (code, name) in codes.entries() {
        if glyphs.get(name).is_some() {
            cut.push((code, name))?;
        }
    }
    Ok(SparseArray::made(cut))
}

/// An Encoding with only the names of these glyphs; a word stays as it is.
fn cut_encoding<'a>(
    alloc: Global,
    encoding: &LentEncoding<'a>,
    glyphs: &CharStrings<'_>,
) -> Result<LentEncoding<'a>, AllocError>
    ensures { IfOk result (λ e. encoding_of e
        ≡ restrict_encoding (fin.contains_key glyphs.now) (encoding_of encoding.now)) }
{
    match encoding {
        LentEncoding::Word(word) => Ok(LentEncoding::Word(word)),
        LentEncoding::Codes(codes) => Ok(LentEncoding::Codes(cut_codes(alloc, codes, glyphs)?)),
    }
}

/// A Subr that is kept, or `return` in its place.
fn kept_or_stub<'a>(is_kept: bool, body: &'a [u8]) -> &'a [u8]
    ensures { result.now ≡ cond is_kept body.now stub }
{
    if is_kept { body } else { STUB }
}

/// The Subrs, with `return` in place of all that are not in the set.
pub(crate) fn cut_subrs<'a>(
    alloc: Global,
    subrs: &SparseArray<'a>,
    kept: &BTreeSet<u16>,
) -> Result<SparseArray<'a>, AllocError>
    ensures { IfOk result (λ m. m
        ≡ map_values (λ i c. cond (contains nat_cmp kept.now i) c stub) subrs.now) }
{
    let mut cut = Vec::with_capacity(alloc, subrs.len())?;
    'bodies: for (index, body) in subrs.entries() {
        cut.push((index, kept_or_stub(kept.contains(&index), body)))?;
    }
    Ok(SparseArray::made(cut))
}

/// The parts of a font that is cut.
fn cut_parts<'a>(
    alloc: Global,
    parts: &FontParts<'a>,
    names: &[Vec<u8>],
    subrs: &BTreeSet<u16>,
) -> Result<FontParts<'a>, AllocError>
    requires { (n : List ℕ)
        → sets.contains (set_of_names names.now) n ≡ true
        → fin.contains_key parts.now.glyphs n ≡ true }
    ensures { IfOk result (λ f. f
        ≡ restrict (sets.contains (set_of_names names.now))
        (contains nat_cmp subrs.now) parts.now) }
{
    let glyphs = cut_glyphs(alloc, &parts.glyphs, names)?;
    Ok(FontParts {
        shell: parts.shell,
        encoding: cut_encoding(alloc, &parts.encoding, &glyphs)?,
        subrs: cut_subrs(alloc, &parts.subrs, subrs)?,
        glyphs,
    })
}

/// The font cut to glyphs and Subrs: its glyphs, and its Encoding if that is a table, are cut to the names, and each
/// present Subr outside the set is replaced by the charstring `return`, so its index stays present (Adobe Type 1 Font
/// Format 1.1, chapters 2 and 8).
///
/// The names are names of the font's glyphs in any order, and `.notdef` is one of them.
///
/// # Errors
///
/// Where a growth was refused.
pub fn restrict<'a>(
    alloc: Global,
    font: &Font<'a>,
    names: &[Vec<u8>],
    subrs: &BTreeSet<u16>,
) -> Result<Font<'a>, AllocError>
    requires known { (n : List ℕ)
        → sets.contains (set_of_names names.now) n ≡ true
        → fin.contains_key font.now.glyphs n ≡ true }
    requires notdef { sets.contains (set_of_names names.now) notdef ≡ true }
    ensures { IfOk result (λ f. f
        ≡ restrict (sets.contains (set_of_names names.now))
        (contains nat_cmp subrs.now) font.now) }
{
    font.proof_is_font();
    let parts = cut_parts(alloc, &font.parts, names, subrs)?;
    Ok(Font { parts })
}
