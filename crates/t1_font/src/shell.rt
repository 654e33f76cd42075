//! The shell of a font: its kept texts, and the words of its tables.

ghost use Rattle.std.specs.Prelude.{◌≡◌, is_some};
ghost use Rattle.t1_font.specs.{FontValue.{declared_count, texts_weight}, FontModel.{clamp, part_of, of_subrs}};

use std::marker::Model;

/// A kept text, or a kept word or phrase of a table.
#[derive(Clone, Copy, Debug, PartialEq, Eq)]
pub enum Part {
    /// The clear text before the Encoding.
    Head,
    /// The clear text after the Encoding, through `eexec`.
    ClearTail,
    /// The private text before Subrs, or before CharStrings if there are no Subrs.
    Private,
    /// The private text between Subrs and CharStrings.
    Middle,
    /// The private text after CharStrings, through the first `closefile`.
    Tail,
    /// The word before the bytes of each Subr, often `RD`.
    SubrsRd,
    /// The phrase after the bytes of each Subr, often `NP`.
    SubrsPut,
    /// The phrase that closes the table of Subrs, often `ND`.
    SubrsDef,
    /// The word before the bytes of each glyph, often `RD`.
    GlyphsRd,
    /// The phrase after the bytes of each glyph, often `ND`.
    GlyphsDef,
}

/// What is kept of a table of Subrs beside its Subrs.
#[derive(Drop)]
pub(crate) struct KeptSubrs {
    pub(crate) declared: u16,
    pub(crate) rd: Vec<u8>,
    pub(crate) put: Vec<u8>,
    pub(crate) closing: Vec<u8>,
}

/// The shell of a font (Adobe Type 1 Font Format 1.1, chapter 2): its kept texts, the kept words of its tables, lenIV and
/// the declared count of Subrs. Fonts that are merged have to share it.
#[derive(Drop)]
pub struct Shell {
    pub(crate) head: Vec<u8>,
    pub(crate) clear_tail: Vec<u8>,
    pub(crate) private: Vec<u8>,
    pub(crate) middle: Vec<u8>,
    pub(crate) tail: Vec<u8>,
    pub(crate) len_iv: u8,
    pub(crate) subrs: Option<KeptSubrs>,
    pub(crate) glyphs_rd: Vec<u8>,
    pub(crate) glyphs_def: Vec<u8>,
}

impl Model for Shell {
    ghost use Rattle.t1_font.specs.{FontValue.{Shell as ShellValue}, FontModel.{shell_code, shell_view}};

    ghost Value = { ShellValue };

    ghost coded = { shell_code };

    ghost view = { shell_view };
}

impl Shell {
    /// A kept text, or kept words; a word that isn't kept is empty.
    pub fn text(&self, part: Part) -> &[u8]
        ensures { result.now ≡ part_of part self.now }
    {
        match part {
            Part::Head => self.head.as_slice(),
            Part::ClearTail => self.clear_tail.as_slice(),
            Part::Private => self.private.as_slice(),
            Part::Middle => self.middle.as_slice(),
            Part::Tail => self.tail.as_slice(),
            Part::SubrsRd => self.subrs_rd(),
            Part::SubrsPut => self.subrs_put(),
            Part::SubrsDef => self.subrs_def(),
            Part::GlyphsRd => self.glyphs_rd.as_slice(),
            Part::GlyphsDef => self.glyphs_def.as_slice(),
        }
    }

    /// Whether there is a table of Subrs.
    pub fn has_subrs(&self) -> bool
        ensures { result ≡ is_some self.now.subrs }
    {
        self.subrs.is_some()
    }

    /// How many Subrs are declared, 0 if there is no table of them.
    pub fn declared_count(&self) -> u16
        ensures { result ≡ declared_count self.now.subrs }
    {
        match &self.subrs {
            Some(kept) => kept.declared,
            None => 0,
        }
    }

    /// How many lead bytes a charstring has in a file.
    pub fn len_iv(&self) -> u8
        ensures { result ≡ self.now.len_iv }
    {
        self.len_iv
    }

    /// How many bytes the five kept texts have, or the greatest number of 64 bits if they have more.
    pub fn texts_weight(&self) -> u64
        ensures { result ≡ clamp (texts_weight self.now) }
    {
        (self.head.len() as u64)
            .saturating_add(self.clear_tail.len() as u64)
            .saturating_add(self.private.len() as u64)
            .saturating_add(self.middle.len() as u64)
            .saturating_add(self.tail.len() as u64)
    }

    /// The word before the bytes of each Subr.
    fn subrs_rd(&self) -> &[u8]
        ensures { result.now ≡ of_subrs (λ s. s.rd) self.now.subrs }
    {
        match &self.subrs {
            Some(kept) => kept.rd.as_slice(),
            None => &[],
        }
    }

    /// The phrase after the bytes of each Subr.
    fn subrs_put(&self) -> &[u8]
        ensures { result.now ≡ of_subrs (λ s. s.put) self.now.subrs }
    {
        match &self.subrs {
            Some(kept) => kept.put.as_slice(),
            None => &[],
        }
    }

    /// The phrase that closes the table of Subrs.
    fn subrs_def(&self) -> &[u8]
        ensures { result.now ≡ of_subrs (λ s. s.closing) self.now.subrs }
    {
        match &self.subrs {
            Some(kept) => kept.closing.as_slice(),
            None => &[],
        }
    }
}
