//! The shell of a font, and whether tables make a font in it.

ghost use Rattle.std.specs.{Prelude.{◌≡◌, ◌↔◌, ◌<◌, IsTrue, MatchOption}, List.{AllByRecursion}, Option.{option_map}};
ghost use Rattle.t1_font.specs.{FontModel.{encoding_by, encoding_of, font_by, word_of}, FontShells.{HasFont, IsShellOfFont, CodesFit}};
ghost use Rattle.t1_text.specs.{Words.{name_limit}, FontWords.{IsWord, IsCharstring}};
ghost use Rattle.t1_font.specs.IsFont.{IsFont, IsCode, SubrsFit};
ghost use Rattle.std.specs.FinMap as fin;

use crate::file::proof_are_bytes;
use crate::font::{Font, FontParts, LentEncoding};
use crate::glyphs::is_notdef;
use crate::lent::{CharStrings, SparseArray};
use crate::shell::{Part, Shell};
use std::marker::Model;
use t1_text::limits::{CHARSTRING_LIMIT, NAME_LIMIT};
use t1_text::words::regular_len;

/// The shell of a font, and the word that is its Encoding if it is one: what is left of a font without its tables.
#[derive(Drop)]
pub struct FontShell<'a> {
    texts: &'a Shell,
    word: Option<&'a [u8]>,
}

impl<'a> Model for FontShell<'a> {
    ghost use Rattle.std.specs.{Prelude.{Option, List, ℕ}, Option.{option_map}};
    ghost use Rattle.t1_font.specs.{FontValue.{Shell as ShellValue}, FontShells.{shell_word_code, IsShellOfFont}};

    ghost Value = { ShellValue × Option (List ℕ) };

    ghost coded = { shell_word_code };

    ghost view = { λ s. (s.texts.now, option_map (λ w. w.now) s.word) };

    ghost invariant = { λ s. IsShellOfFont s.texts.now (option_map (λ w. w.now) s.word) };
}

/// Whether a byte string is a name: 1 to 127 regular bytes.
fn is_name(name: &[u8]) -> bool
    ensures { IsTrue result ↔ IsWord name_limit name.now }
{
    proof_are_bytes(name);
    if name.is_empty() || name.len() > NAME_LIMIT {
        return false;
    }
    regular_len(name) == name.len()
}

/// Whether a charstring has room for so many lead bytes.
fn is_charstring(len_iv: u8, body: &[u8]) -> bool
    ensures { IsTrue result ↔ IsCharstring len_iv body.now }
{
    proof_are_bytes(body);
    body.len() <= CHARSTRING_LIMIT as usize - len_iv as usize
}

/// Whether a number is a code, and its name one of a glyph other than `.notdef`.
fn is_code(code: u16, name: &[u8]) -> bool
    ensures { IsTrue result ↔ IsCode code name.now }
{
    code <= 255 && is_name(name) && !is_notdef(name)
}

/// Whether each entry is a code with a name.
fn are_codes(codes: &SparseArray<'_>) -> bool
    ensures { IsTrue result ↔ AllByRecursion (λ e. IsCode e.0 e.1) (fin.entries codes.now) }
{
    'codes: for (code, name) in codes.entries() {
        if !is_code(code, name) {
            return false;
        }
    }
    true
}

/// Whether each Subr is below the count, and has room for so many lead bytes.
fn are_subrs(len_iv: u8, declared: u16, subrs: &SparseArray<'_>) -> bool
    ensures { IsTrue result
        ↔ AllByRecursion (λ e. (e.0 < declared) × IsCharstring len_iv e.1) (fin.entries subrs.now) }
{
    'subrs: for (index, body) in subrs.entries() {
        if index >= declared || !is_charstring(len_iv, body) {
            return false;
        }
    }
    true
}

/// Whether each glyph has a name, and room for so many lead bytes.
fn are_glyphs(len_iv: u8, glyphs: &CharStrings<'_>) -> bool
    ensures { IsTrue result
        ↔ AllByRecursion (λ e. IsWord name_limit e.0 × IsCharstring len_iv e.1) (fin.entries glyphs.now) }
{
    'glyphs: for (name, body) in glyphs.entries() {
        if !is_name(name) || !is_charstring(len_iv, body) {
            return false;
        }
    }
    true
}

/// The Encoding that is this word, or else the table of these names.
fn encoding_by<'a>(word: Option<&'a [u8]>, codes: SparseArray<'a>) -> LentEncoding<'a>
    ensures { encoding_of result ≡ encoding_by (option_map (λ w. w.now) word.entry) codes.entry }
{
    match word {
        Some(word) => LentEncoding::Word(word),
        None => LentEncoding::Codes(codes),
    }
}

/// Whether an Encoding is a word, or a table of codes with names.
fn encoding_fits(encoding: &LentEncoding<'_>) -> bool
    ensures { IsTrue result ↔ CodesFit (encoding_of encoding.now) }
{
    match encoding {
        LentEncoding::Word(_) => true,
        LentEncoding::Codes(codes) => are_codes(codes),
    }
}

/// Whether Subrs fit a font's shell.
fn subrs_fit(shell: &Shell, subrs: &SparseArray<'_>) -> bool
    requires { HasFont shell.now }
    ensures { IsTrue result ↔ SubrsFit shell.now shell.now.subrs subrs.now }
{
    if !shell.has_subrs() {
        return subrs.is_empty();
    }
    if subrs.is_empty() != shell.text(Part::SubrsRd).is_empty() {
        return false;
    }
    are_subrs(shell.len_iv(), shell.declared_count(), subrs)
}

impl<'a> FontShell<'a> {
    /// The shell of a font.
    pub(crate) fn of(font: &Font<'a>) -> Self
        ensures { result ≡ (font.now.shell, word_of font.now.encoding) }
    {
        font.proof_is_font();
        FontShell {
            texts: font.texts(),
            word: font.encoding_word(),
        }
    }

    /// The kept texts and words.
    pub fn texts(&self) -> &'a Shell
        ensures { result.now ≡ self.now.0 }
    {
        self.texts
    }

    /// The word that is the Encoding, if it is one.
    pub fn word(&self) -> Option<&'a [u8]>
        ensures { option_map (λ w. w.now) result ≡ self.now.1 }
    {
        self.word
    }

    /// The same shell.
    pub fn again(&self) -> Self
        ensures { result ≡ self.now }
    {
        FontShell {
            texts: self.texts,
            word: self.word,
        }
    }

    /// The font of this shell with these tables, or `None` where they make no font: names of codes, which count only if the
    /// Encoding is no word, Subrs and glyphs.
    pub fn font(
        self,
        codes: SparseArray<'a>,
        subrs: SparseArray<'a>,
        glyphs: CharStrings<'a>,
    ) -> Option<Font<'a>>
        ensures { MatchOption result
            (¬ IsFont (font_by self.entry.0 self.entry.1 codes.entry subrs.entry glyphs.entry))
            (λ f. f ≡ font_by self.entry.0 self.entry.1 codes.entry subrs.entry glyphs.entry) }
    {
        let parts = FontParts {
            shell: self.texts,
            encoding: encoding_by(self.word, codes),
            subrs,
            glyphs,
        };
        if parts.make_font() {
            Some(Font { parts })
        } else {
            None
        }
    }
}

impl<'a> FontParts<'a> {
    /// Whether the parts make a font. The shell is that of a font, and so is the Encoding if it is a word.
    fn make_font(&self) -> bool
        requires { IsShellOfFont self.now.shell (word_of self.now.encoding) }
        ensures { IsTrue result ↔ IsFont self.now }
    {
        if !encoding_fits(&self.encoding) {
            return false;
        }
        if !subrs_fit(self.shell, &self.subrs) {
            return false;
        }
        if !are_glyphs(self.shell.len_iv(), &self.glyphs) {
            return false;
        }
        if self.glyphs.get(b".notdef").is_none() {
            return false;
        }
        !self.is_over_limits()
    }
}
