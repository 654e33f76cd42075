//! A font that owns its bytes.

ghost use Rattle.std.specs.{Prelude.{◌≡◌, ◌+◌, map, IfOk}, Ordering.{nat_cmp}, FinMap.{from_sorted, len}};
ghost use Rattle.t1_join.specs.TableMeaning.{Rises};
ghost use Rattle.t1_font.specs.{FontModel.{clamp, encoding_of}, FontValue.{total, weight}};
ghost use Rattle.t1_font.specs.{Ranges.{subr_at_weight, glyph_at_weight}, Sources.{kept_name}};

use crate::font::{Font, FontParts, LentEncoding};
use crate::lent::{CharStrings, SparseArray, glyph_weight, subr_weight};
use crate::ranges::Range;
use crate::shell::Shell;
use crate::stored::StoredSubrs;
use std::alloc::{AllocError, Global};
use std::marker::Model;

/// The Encoding: one word, or the names of codes.
#[derive(Drop)]
pub(crate) enum KeptEncoding {
    Word(Vec<u8>),
    Codes(Vec<(u16, Vec<u8>)>),
}

/// The parts of a font that owns them, which together need not make one. Names of glyphs and charstrings are ranges of
/// the buffer. Subrs are looked for where they likely stand ([`likely_places`](t1_join::likely_places)).
#[derive(Drop)]
pub(crate) struct SourceParts {
    pub(crate) shell: Shell,
    pub(crate) encoding: KeptEncoding,
    pub(crate) buffer: Vec<u8>,
    pub(crate) subrs: Vec<(u16, Range)>,
    pub(crate) likely: Vec<u16>,
    pub(crate) glyphs: Vec<(Range, Range)>,
}

impl Model for SourceParts {
    ghost use Rattle.t1_font.specs.{FontValue.{FontValue}, FontModel.{font_code}, Sources.{source_value, IsSource}};

    ghost Value = { FontValue };

    ghost coded = { font_code };

    ghost view = { source_value };

    ghost invariant = { IsSource };
}

/// What [`read`](crate::read) reads: a font program that owns its bytes. [`Source::font`] lends the font.
///
/// It has one buffer with all names of glyphs and all plain charstrings, and tables that say where each stands there.
#[derive(Drop)]
pub struct Source {
    pub(crate) parts: SourceParts,
}

impl Model for Source {
    ghost use Rattle.t1_font.specs.{FontValue.{FontValue}, FontModel.{font_code}, IsFont.{IsFont}};

    ghost Value = { FontValue };

    ghost coded = { font_code };

    ghost view = { λ s. s.parts };

    ghost invariant = { λ s. IsFont s.parts };
}

impl Source {
    /// The font, which borrows its names, charstrings and texts. The source has to live as long as the font, and as long
    /// as every font that is cut or merged from it. Only the names of codes take room: the tables of Subrs and glyphs are
    /// lent as they stand in the source.
    ///
    /// # Errors
    ///
    /// Where a growth was refused.
    pub fn font(&self, alloc: Global) -> Result<Font<'_>, AllocError>
        ensures { IfOk result (λ f. f ≡ self.now) }
    {
        let parts = self.parts.lent(alloc)?;
        Ok(Font { parts })
    }
}

/// The names of codes, borrowed.
fn lent_codes(alloc: Global, codes: &[(u16, Vec<u8>)]) -> Result<SparseArray<'_>, AllocError>
    requires rises { Rises nat_cmp (map kept_name codes.now) }
    ensures { IfOk result (λ m. m ≡ from_sorted (map kept_name codes.now)) }
{
    let mut lent = Vec::with_capacity(alloc, codes.len())?;
    'codes: for (code, name) in codes {
        lent.push((*code, name.as_slice()))?;
    }
    Ok(SparseArray::made(lent))
}

/// `before` plus the weight of Subrs in these ranges, in a font with this lenIV, as far as 64 bits hold it.
pub(crate) fn subrs_weight(before: u64, len_iv: u8, subrs: &[(u16, Range)]) -> u64
    ensures { result ≡ clamp (before + total (subr_at_weight len_iv) subrs.now) }
{
    let mut weight = before;
    'subrs: for (_, body) in subrs {
        weight = weight.saturating_add(subr_weight(len_iv, body.len()));
    }
    weight
}

/// `before` plus the weight of glyphs in these ranges, in a font with this lenIV, as far as 64 bits hold it.
pub(crate) fn glyphs_weight(before: u64, len_iv: u8, glyphs: &[(Range, Range)]) -> u64
    ensures { result ≡ clamp (before + total (glyph_at_weight len_iv) glyphs.now) }
{
    let mut weight = before;
    'glyphs: for (_, body) in glyphs {
        weight = weight.saturating_add(glyph_weight(len_iv, body.len()));
    }
    weight
}

impl SourceParts {
    /// The Encoding, borrowed.
    fn encoding(&self, alloc: Global) -> Result<LentEncoding<'_>, AllocError>
        ensures { IfOk result (λ e. encoding_of e ≡ self.now.encoding) }
    {
        match &self.encoding {
            KeptEncoding::Word(word) => Ok(LentEncoding::Word(word.as_slice())),
            KeptEncoding::Codes(names) => Ok(LentEncoding::Codes(lent_codes(alloc, names)?)),
        }
    }

    /// How many glyphs there are.
    pub(crate) fn glyph_count(&self) -> usize
        ensures { result ≡ len self.now.glyphs }
    {
        self.glyphs.len()
    }

    /// The weight of the font, as far as 64 bits hold it.
    pub(crate) fn weight(&self) -> u64
        ensures { result ≡ clamp (weight self.now) }
    {
        let len_iv = self.shell.len_iv();
        let with_subrs = subrs_weight(self.shell.texts_weight(), len_iv, self.subrs.as_slice());
        glyphs_weight(with_subrs, len_iv, self.glyphs.as_slice())
    }

    /// The parts, borrowed.
    pub(crate) fn lent(&self, alloc: Global) -> Result<FontParts<'_>, AllocError>
        ensures { IfOk result (λ f. f ≡ self.now) }
    {
        Ok(FontParts {
            shell: &self.shell,
            encoding: self.encoding(alloc)?,
            subrs: SparseArray::stored(StoredSubrs::new(&self.buffer, &self.subrs, &self.likely)),
            glyphs: CharStrings::stored(&self.buffer, &self.glyphs),
        })
    }
}
