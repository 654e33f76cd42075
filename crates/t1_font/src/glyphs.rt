//! The table of glyphs.

ghost use Rattle.std.specs.{Prelude.{◌≡◌, OnOk}, Str.{bytes_eq}};
ghost use Rattle.t1_font.specs.{FontValue.{notdef}, Answers.{ShowsGlyphs}, Gathering.{GlyphsAlone}, Held.{HoldsGlyphs, TableHeld}};
ghost use Rattle.t1_text.specs.{Glyphs.{glyph, glyphs_end}, declared.dialect.Spacing.TheVariants.{White}};
ghost use Rattle.t1_grammar.specs.Tables.{table_at};
ghost use Rattle.std.specs.FinMap as fin;

use crate::fault::TableError;
use crate::gathered::Gathered;
use std::alloc::Global;
use t1_bytes::texts::white_at;
use t1_text::table_entries::{glyph_at, glyphs_end_at};
use t1_text::words::{Words, first_words};

/// What is read of a table of glyphs beside its glyphs: the words of the first entry, and whether one is `.notdef`.
#[derive(Drop)]
pub struct GlyphsParts {
    pub words: Option<Words>,
    pub has_notdef: bool,
}

/// Whether a name is `.notdef`, which every font has.
pub fn is_notdef(name: &[u8]) -> bool
    ensures { result ≡ bytes_eq notdef name.now }
{
    b".notdef".as_slice() == name
}

/// The entries, through what closes them.
pub(crate) fn glyphs_at(
    alloc: Global,
    len_iv: u8,
    gathered: &mut Gathered<'_>,
) -> Result<GlyphsParts, TableError>
    requires { gathered.old.glyphs ≡ fin.empty }
    ensures shown { TableHeld White (λ x es close rest. ShowsGlyphs x es
        × HoldsGlyphs len_iv gathered.new.glyphs es
        × (gathered.new.rest
        ≡ rest)) result (table_at (glyph len_iv) glyphs_end gathered.old.rest) }
    ensures others { OnOk result (GlyphsAlone gathered.old gathered.new) }
{
    let mut words = None;
    let mut has_notdef = false;
    'entries: loop {
        if let Some(after) = glyphs_end_at(gathered.rest()) {
            let left = after.len();
            gathered.pass_to(left);
            return Ok(GlyphsParts { words, has_notdef });
        }
        let Some((entry, after)) = glyph_at(gathered.rest(), len_iv) else {
            let (_, left) = white_at(gathered.rest());
            return Err(TableError::Left(left.len()));
        };
        words = Some(first_words(alloc, words, entry.body.rd, entry.body.phrase)?);
        has_notdef |= is_notdef(entry.name);
        let (name, body, left) = (entry.name_place(), entry.body.place(), after.len());
        gathered.keep_glyph(name, body, left, len_iv)?;
    }
}
