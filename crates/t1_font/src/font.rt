//! The font value.

ghost use Rattle.std.specs.{Prelude.{◌≡◌, ◌≤◌, true, false, is_some}, Option.{option_map}};
ghost use Rattle.t1_font.specs.{FontValue.{weight, count_limit, weight_limit, names_in}, FontModel.{clamp, part_of, word_of, name_at, subr_at}};
ghost use Rattle.t1_font.specs.{IsFont.{IsFont}, Joins.{IsOverLimits}};
ghost use Rattle.std.specs.FinMap as fin;

use crate::font_shell::FontShell;
use crate::lent::{CharStrings, CharStringsEntries, SparseArray, SparseArrayEntries};
use crate::limits::{COUNT_LIMIT, WEIGHT_LIMIT};
use crate::shell::{Part, Shell};
use std::marker::Model;
use t1_run::{Glyphs, Subroutines};

/// The Encoding: one word, or the names of codes.
#[derive(Drop)]
pub(crate) enum LentEncoding<'a> {
    Word(&'a [u8]),
    Codes(SparseArray<'a>),
}

/// The parts of a font, which together need not make one.
#[derive(Drop)]
pub(crate) struct FontParts<'a> {
    pub(crate) shell: &'a Shell,
    pub(crate) encoding: LentEncoding<'a>,
    pub(crate) subrs: SparseArray<'a>,
    pub(crate) glyphs: CharStrings<'a>,
}

impl<'a> Model for FontParts<'a> {
    ghost use Rattle.t1_font.specs.{FontValue.{FontValue}, FontModel.{font_code, encoding_of}};

    ghost Value = { FontValue };

    ghost coded = { font_code };

    ghost view = { λ p. record { shell = p.shell.now; encoding = encoding_of p.encoding; subrs = p.subrs; glyphs = p.glyphs } };
}

/// A Type 1 font program (Adobe Type 1 Font Format 1.1, chapter 2): its kept texts, its Encoding, its
/// Subrs by index and its glyphs by name, their charstrings plain.
///
/// A font is within the limits of this library, and its canonical file is read as the font itself. It borrows its names,
/// charstrings and texts from a [`Source`](crate::Source), or from several of one shell.
#[derive(Drop)]
pub struct Font<'a> {
    pub(crate) parts: FontParts<'a>,
}

impl<'a> Model for Font<'a> {
    ghost use Rattle.t1_font.specs.{FontValue.{FontValue}, FontModel.{font_code}, IsFont.{IsFont}};

    ghost Value = { FontValue };

    ghost coded = { font_code };

    ghost view = { λ f. f.parts };

    ghost invariant = { λ f. IsFont f.parts };
}

impl<'a> Font<'a> {
    /// States what each font is: a value whose canonical file is read as the value itself.
    ///
    /// It does nothing when it runs: proofs about fonts call it.
    pub fn proof_is_font(&self)
        ensures { IsFont self.now }
    {
        let _parts = &self.parts;
    }

    /// The names of the glyphs, upwards by their bytes.
    pub fn names(&self) -> Names<'_, 'a>
        ensures { result ≡ names_in self.now.glyphs }
    {
        Names {
            inner: self.parts.glyphs.entries(),
        }
    }

    /// The glyphs, by name.
    pub fn glyphs(&self) -> &CharStrings<'a>
        ensures { result.now ≡ self.now.glyphs }
    {
        &self.parts.glyphs
    }

    /// The Subrs, by index.
    pub fn subrs(&self) -> &SparseArray<'a>
        ensures { result.now ≡ self.now.subrs }
    {
        &self.parts.subrs
    }

    /// The indices of the Subrs that have an entry, upwards.
    pub fn indices(&self) -> Indices<'_, 'a>
        ensures { result ≡ fin.keys self.now.subrs }
    {
        Indices {
            inner: self.parts.subrs.entries(),
        }
    }

    /// The word that is the whole Encoding, such as `StandardEncoding`, or `None` if the Encoding is a table.
    pub fn encoding_word(&self) -> Option<&'a [u8]>
        ensures { option_map (λ w. w.now) result ≡ word_of self.now.encoding }
    {
        match &self.parts.encoding {
            LentEncoding::Word(word) => Some(*word),
            LentEncoding::Codes(_) => None,
        }
    }

    /// The name of a code, if the Encoding is a table that has the code; `.notdef` counts as no name.
    pub fn encoding_at(&self, code: u8) -> Option<&'a [u8]>
        ensures { option_map (λ n. n.now) result ≡ name_at self.now.encoding code }
    {
        match &self.parts.encoding {
            LentEncoding::Word(_) => None,
            LentEncoding::Codes(names) => names.get(code as u16),
        }
    }

    /// The kept texts and words, which fonts of one source share. They live as long as the source.
    pub(crate) fn texts(&self) -> &'a Shell
        ensures { result.now ≡ self.now.shell }
    {
        self.parts.shell
    }

    /// The shell, to which other tables may be put ([`FontShell::font`]).
    pub fn shell(&self) -> FontShell<'a>
        ensures { result ≡ (self.now.shell, word_of self.now.encoding) }
    {
        FontShell::of(self)
    }

    /// A kept text, or kept words; a word that isn't kept is empty.
    pub fn text(&self, part: Part) -> &'a [u8]
        ensures { result.now ≡ part_of part self.now.shell }
    {
        self.texts().text(part)
    }

    /// Whether the font has a table of Subrs.
    pub fn has_subrs(&self) -> bool
        ensures { result ≡ is_some self.now.shell.subrs }
    {
        self.texts().has_subrs()
    }

    /// How many lead bytes a charstring has in a file.
    pub fn len_iv(&self) -> u8
        ensures { result ≡ self.now.shell.len_iv }
    {
        self.texts().len_iv()
    }

    /// The weight by which a font is limited: the bytes of the five kept texts, and for each charstring its bytes, its
    /// lead bytes and a fixed number.
    pub fn weight(&self) -> u32
        ensures { result ≡ weight self.now }
    {
        self.parts.weight() as u32
    }

    /// Whether a Subr has an entry.
    pub fn present(&self, index: u16) -> bool
        ensures { result ≡ fin.contains_key self.now.subrs index }
    {
        self.subr(index).is_some()
    }

    /// The plain charstring of a Subr, if it has an entry. It is lent for as long as the font's source lives.
    pub fn subr(&self, index: u16) -> Option<&'a [u8]>
        ensures entry { option_map (λ b. b.now) result ≡ fin.get self.now.subrs index }
        ensures shown { option_map (λ b. b.now) result ≡ subr_at self.now index }
    {
        self.parts.subr(index)
    }

    /// The plain charstring of a glyph, if the font has the glyph. The name is given without its `/`. The charstring is
    /// lent for as long as the font's source lives.
    pub fn charstring(&self, name: &[u8]) -> Option<&'a [u8]>
        ensures { option_map (λ b. b.now) result ≡ fin.get self.now.glyphs name.now }
    {
        self.parts.glyphs.get(name)
    }
}

impl<'a> FontParts<'a> {
    /// The plain charstring of a Subr.
    fn subr(&self, index: u16) -> Option<&'a [u8]>
        ensures { option_map (λ b. b.now) result ≡ fin.get self.now.subrs index }
    {
        self.subrs.get_likely(index)
    }

    /// The weight, as far as 64 bits hold it.
    pub(crate) fn weight(&self) -> u64
        ensures { result ≡ clamp (weight self.now) }
    {
        let texts = self.shell.texts_weight();
        let len_iv = self.shell.len_iv();
        let with_subrs = self.subrs.weight(texts, len_iv);
        self.glyphs.weight(with_subrs, len_iv)
    }

    /// Whether there are too many glyphs for a font, or they weigh too much with the rest.
    pub(crate) fn is_over_limits(&self) -> bool
        ensures over { result ≡ true → IsOverLimits self.now }
        ensures few { result ≡ false → fin.len self.now.glyphs ≤ count_limit }
        ensures light { result ≡ false → weight self.now ≤ weight_limit }
    {
        self.glyphs.len() > COUNT_LIMIT || self.weight() > WEIGHT_LIMIT
    }
}

/// The names of a font's glyphs, upwards by their bytes.
#[derive(Drop)]
pub struct Names<'t, 'a> {
    inner: CharStringsEntries<'t, 'a>,
}

impl<'t, 'a> Model for Names<'t, 'a> {
    ghost use Rattle.std.specs.Prelude.{List, ℕ, ◌≤◌, map, length};
    ghost use Rattle.t1_font.specs.FontValue.{count_limit};

    ghost Value = { List (List ℕ) };

    ghost view = { λ s. map (λ e. e.0) s.inner };

    ghost invariant = { λ s. length s.inner ≤ count_limit };
}

impl<'t, 'a> Iterator for Names<'t, 'a> {
    type Item = &'a [u8];

    ghost use Rattle.std.specs.{Prelude.{length}, Iterator.{at_most}, Map.Iter.{TakesFirst}};

    ghost next_gives = { TakesFirst (λ n. n.now) };

    ghost remaining = { λ s. at_most (length s) };

    fn next(&mut self) -> Option<&'a [u8]> {
        let (name, _) = self.inner.next()?;
        Some(name)
    }
}

/// The indices of a font's Subrs, upwards.
#[derive(Drop)]
pub struct Indices<'t, 'a> {
    inner: SparseArrayEntries<'t, 'a>,
}

impl<'t, 'a> Model for Indices<'t, 'a> {
    ghost use Rattle.std.specs.Prelude.{List, ℕ, ◌≤◌, map, length};
    ghost use Rattle.t1_font.specs.FontValue.{weight_limit};

    ghost Value = { List ℕ };

    ghost view = { λ s. map (λ e. e.0) s.inner };

    ghost invariant = { λ s. length s.inner ≤ weight_limit };
}

impl<'t, 'a> Iterator for Indices<'t, 'a> {
    type Item = u16;

    ghost use Rattle.std.specs.{Prelude.{length}, Iterator.{at_most}, Map.Iter.{TakesFirst}};

    ghost next_gives = { TakesFirst (λ i. i) };

    ghost remaining = { λ s. at_most (length s) };

    fn next(&mut self) -> Option<u16> {
        let (index, _) = self.inner.next()?;
        Some(index)
    }
}

impl<'a> Subroutines for Font<'a> {
    ghost use Rattle.t1_font.specs.{FontValue.{declared_count}, FontModel.{subr_at, subrs_below}};

    ghost subrs = { subr_at };

    ghost declared = { λ f. declared_count f.shell.subrs };

    ghost below = { subrs_below };

    fn count(&self) -> u16 {
        self.texts().declared_count()
    }

    fn get(&self, i: u16) -> Option<&[u8]> {
        self.subr(i)
    }
}

impl<'a> Glyphs for Font<'a> {
    ghost use Rattle.std.specs.FinMap as fin;

    ghost glyphs = { λ f. fin.get f.glyphs };

    fn glyph(&self, name: &[u8]) -> Option<&[u8]> {
        self.charstring(name)
    }
}
