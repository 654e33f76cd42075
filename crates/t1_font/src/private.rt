//! The private text.

ghost use Rattle.std.specs.{Prelude.{◌≡◌, ◌++◌, Option, Some, None, [], OnOk}, Option.{option_map}};
ghost use Rattle.t1_grammar.specs.{Formats.{in_table}, Grammar.{first}, Tables.{table_at}, Places.{occurs}};
ghost use Rattle.t1_text.specs.{Markers.{subrs_marker, closefile}, Glyphs.{glyph, glyphs_end}, declared.dialect.Spacing.TheVariants.{White}, Subrs.{subr, subrs_end}};
ghost use Rattle.t1_font.specs.Pieces.{SubrsPieces, iv_of, tail_after, glyphs_from, tables_from, private_pieces};
ghost use Rattle.t1_font.specs.declared.fault.ReadFault.TheVariants.{BadSubrs, BadGlyphs};
ghost use Rattle.t1_font.specs.{Reading.{bad_at}, Answers.{Answers, Shown, ShowsTable, ShowsGlyphs, ShowsBefore, ShowsPrivate}};
ghost use Rattle.t1_font.specs.{Gathering.{SubrsAlone, GlyphsAlone}, Held.{HoldsSubrs, HoldsGlyphs}};
ghost use Rattle.std.specs.FinMap as fin;

use crate::fault::{ReadFault, TableError};
use crate::gathered::Gathered;
use crate::glyphs::{GlyphsParts, glyphs_at};
use crate::subrs::{SubrsParts, subrs_at};
use std::alloc::Global;
use t1_text::dialect::Spacing;
use t1_text::markers::{CharsMarker, Closefile, LenIvMarker, SubrsMarker, first, len_iv_at};

/// The pieces of the private text; the tail ends with `closefile`. The charstrings are gathered.
#[derive(Drop)]
pub struct PrivateParts {
    pub private: Vec<u8>,
    pub len_iv: u8,
    pub subrs: Option<SubrsParts>,
    pub middle: Vec<u8>,
    pub glyphs: GlyphsParts,
    pub tail: Vec<u8>,
}

/// What stands before the glyphs.
#[derive(Drop)]
pub struct Before {
    pub private: Vec<u8>,
    pub len_iv: u8,
    pub subrs: Option<SubrsParts>,
    pub middle: Vec<u8>,
}

/// Whether a Subrs marker stands in a text.
fn has_subrs(text: &[u8]) -> bool
    ensures { result ≡ occurs subrs_marker text.now }
{
    first::<SubrsMarker>(text).is_some()
}

/// lenIV, from the text before the tables.
#[tactic(auto, unfolding(crate::specs::Pieces::iv_of, crate::specs::Pieces::iv_at))]
pub(crate) fn iv_of(private: &[u8]) -> Result<u8, ReadFault>
    ensures { result ≡ (iv_of private.now).read }
{
    let Some((_, _, after)) = first::<LenIvMarker>(private) else {
        return Ok(4);
    };
    match len_iv_at(after) {
        Some((n, _)) => Ok(n),
        None => Err(ReadFault::BadLenIV),
    }
}

/// What is kept after the glyphs.
#[tactic(auto, unfolding(crate::specs::Pieces::tail_after))]
fn tail_after<'a>(middle: &[u8], rest: &'a [u8]) -> Result<&'a [u8], ReadFault>
    ensures { Answers (λ t. t.now) result (tail_after middle.now rest.now).read }
{
    let Some(tail) = through_close(rest) else {
        if has_subrs(middle) || has_subrs(rest) {
            return Err(ReadFault::Hybrid);
        }
        return Err(ReadFault::NoClosefile);
    };
    if has_subrs(middle) || has_subrs(tail) {
        return Err(ReadFault::Hybrid);
    }
    Ok(tail)
}

/// The text through the first `closefile`.
fn through_close(bytes: &[u8]) -> Option<&[u8]>
    ensures { option_map (λ x. x.now) result
        ≡ option_map (λ x. x.0.0 ++ x.0.1) ((first closefile).read bytes.now) }
{
    let (_, _, rest) = first::<Closefile>(bytes)?;
    let (through, _) = bytes.split_at(bytes.len() - rest.len());
    Some(through)
}

/// The table of glyphs, in the last part of a private text of this many bytes.
fn glyphs_parts(
    alloc: Global,
    size: usize,
    len_iv: u8,
    gathered: &mut Gathered<'_>,
) -> Result<GlyphsParts, ReadFault>
    requires { gathered.old.glyphs ≡ fin.empty }
    ensures shown { Shown (λ x t. ShowsGlyphs x t.0
        × HoldsGlyphs len_iv gathered.new.glyphs t.0
        × (gathered.new.rest
        ≡ t.2)) result (in_table (bad_at White BadGlyphs size) (table_at (glyph len_iv) glyphs_end gathered.old.rest)) }
    ensures others { OnOk result (GlyphsAlone gathered.old gathered.new) }
{
    match glyphs_at(alloc, len_iv, gathered) {
        Ok(found) => Ok(found),
        Err(TableError::Memory) => Err(ReadFault::Memory),
        Err(TableError::Left(left)) => Err(ReadFault::BadGlyphs {
            at: size.saturating_sub(left),
        }),
    }
}

/// The glyphs after their marker, and what is kept of the rest.
#[tactic(auto, unfolding(crate::specs::Pieces::glyphs_from))]
fn glyphs_from(
    alloc: Global,
    size: usize,
    before: Before,
    gathered: &mut Gathered<'_>,
) -> Result<PrivateParts, ReadFault>
    requires { gathered.old.glyphs ≡ fin.empty }
    ensures shown { (s : Option SubrsPieces)
        → ShowsBefore before gathered.old.subrs s
        → Shown (λ x p. ShowsPrivate x gathered.new p) result
        (glyphs_from size before.private.items s before.middle.items before.len_iv
        gathered.old.rest).read }
    ensures codes { OnOk result (gathered.new.codes ≡ gathered.old.codes) }
{
    let glyphs = glyphs_parts(alloc, size, before.len_iv, gathered)?;
    let kept = tail_after(before.middle.as_slice(), gathered.rest())?;
    let tail = Vec::from_slice(alloc, kept)?;
    Ok(PrivateParts {
        private: before.private,
        len_iv: before.len_iv,
        subrs: before.subrs,
        middle: before.middle,
        glyphs,
        tail,
    })
}

/// The tables of a private text without Subrs, before the entries of glyphs.
#[tactic(auto, unfolding(crate::specs::Pieces::tables_from))]
fn tables_without(
    alloc: Global,
    size: usize,
    private: Vec<u8>,
    gathered: &mut Gathered<'_>,
) -> Result<PrivateParts, ReadFault>
    requires subrs { gathered.old.subrs ≡ fin.empty }
    requires glyphs { gathered.old.glyphs ≡ fin.empty }
    ensures shown { Shown (λ x p. ShowsPrivate x gathered.new p) result
        (tables_from White size ((private.items, tt), gathered.old.rest) None).read }
    ensures codes { OnOk result (gathered.new.codes ≡ gathered.old.codes) }
{
    let len_iv = iv_of(private.as_slice())?;
    let before = Before {
        private,
        len_iv,
        subrs: None,
        middle: Vec::new(alloc),
    };
    glyphs_from(alloc, size, before, gathered)
}

/// The table of Subrs, in the last part of a private text of this many bytes.
fn subrs_parts(
    alloc: Global,
    spacing: Spacing,
    size: usize,
    declared: u32,
    len_iv: u8,
    gathered: &mut Gathered<'_>,
) -> Result<SubrsParts, ReadFault>
    requires { gathered.old.subrs ≡ fin.empty }
    ensures shown { Shown
        (λ x t. ShowsTable x
        (record { declared = declared; entries = t.0; closing = t.1 })
        × HoldsSubrs declared len_iv gathered.new.subrs t.0
        × (gathered.new.rest
        ≡ t.2)) result
        (in_table (bad_at spacing BadSubrs size)
        (table_at (subr spacing declared len_iv) (subrs_end spacing) gathered.old.rest)) }
    ensures others { OnOk result (SubrsAlone gathered.old gathered.new) }
{
    match subrs_at(alloc, spacing, declared, len_iv, gathered) {
        Ok(found) => Ok(found),
        Err(TableError::Memory) => Err(ReadFault::Memory),
        Err(TableError::Left(left)) => Err(ReadFault::BadSubrs {
            at: size.saturating_sub(left),
        }),
    }
}

/// The tables of a private text, before the entries of Subrs.
#[tactic(auto, unfolding(crate::specs::Pieces::tables_from))]
fn tables_with(
    alloc: Global,
    spacing: Spacing,
    size: usize,
    private: Vec<u8>,
    declared: u32,
    gathered: &mut Gathered<'_>,
) -> Result<PrivateParts, ReadFault>
    requires subrs { gathered.old.subrs ≡ fin.empty }
    requires glyphs { gathered.old.glyphs ≡ fin.empty }
    ensures shown { Shown (λ x p. ShowsPrivate x gathered.new p) result
        (tables_from spacing size (([], tt), []) (Some ((private.items, declared), gathered.old.rest))).read }
    ensures codes { OnOk result (gathered.new.codes ≡ gathered.old.codes) }
{
    let len_iv = iv_of(private.as_slice())?;
    let subrs = subrs_parts(alloc, spacing, size, declared, len_iv, gathered)?;
    let between = gathered.rest();
    let Some((middle, _, glyphs)) = first::<CharsMarker>(between) else {
        return Err(ReadFault::BadGlyphs {
            at: size.saturating_sub(between.len()),
        });
    };
    let middle = Vec::from_slice(alloc, middle)?;
    let left = glyphs.len();
    gathered.pass_to(left);
    let before = Before {
        private,
        len_iv,
        subrs: Some(subrs),
        middle,
    };
    glyphs_from(alloc, size, before, gathered)
}

/// The pieces of a private text.
#[tactic(auto, unfolding(crate::specs::Pieces::private_pieces, crate::specs::Pieces::tables_from))]
pub(crate) fn private_parts(
    alloc: Global,
    spacing: Spacing,
    gathered: &mut Gathered<'_>,
) -> Result<PrivateParts, ReadFault>
    requires subrs { gathered.old.subrs ≡ fin.empty }
    requires glyphs { gathered.old.glyphs ≡ fin.empty }
    ensures shown { Shown (λ x p. ShowsPrivate x gathered.new p) result
        (private_pieces spacing gathered.old.rest).read }
    ensures codes { OnOk result (gathered.new.codes ≡ gathered.old.codes) }
{
    let text = gathered.rest();
    let size = text.len();
    let Some((front, _, glyphs)) = first::<CharsMarker>(text) else {
        return Err(ReadFault::NoCharStrings);
    };
    if let Some((private, subrs, entries)) = first::<SubrsMarker>(text) {
        if private.len() < front.len() {
            let private = Vec::from_slice(alloc, private)?;
            let left = entries.len();
            gathered.pass_to(left);
            return tables_with(alloc, spacing, size, private, subrs.declared, gathered);
        }
    }
    let private = Vec::from_slice(alloc, front)?;
    let left = glyphs.len();
    gathered.pass_to(left);
    tables_without(alloc, size, private, gathered)
}
