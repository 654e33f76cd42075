//! The canonical private text of a font, and its cipher.

ghost use Rattle.std.specs.{Prelude.{◌≡◌, ◌+◌, ◌++◌, ◌∷◌, length, map, Some, OnOk, IfOk}, Fmt.{decimal}, Option.{option_map}};
ghost use Rattle.t1_bytes.specs.Cipher.{private_cipher};
ghost use Rattle.t1_font.specs.{FontModel.{subrs_view}, Writing.{subr_text, glyph_text, subrs_part, glyphs_part}};
ghost use Rattle.t1_font.specs.Canon.{sealed_body, subr_entry, glyph_entry, subrs_pieces, canon_private};
ghost use Rattle.std.specs.FinMap as fin;

use crate::font::FontParts;
use crate::lent::{CharStrings, SparseArray};
use crate::sealing::Sealing;
use crate::shell::{KeptSubrs, Shell};
use std::alloc::{AllocError, Global};
use t1_bytes::{EEXEC_LEAD, Form, room_around};

/// How many bytes of a text stand outside the entries and the kept texts at most: the markers, the phrase that closes
/// Subrs, lead bytes and ends of lines.
pub(crate) const MARKERS: usize = 256;

/// How many bytes an entry has at most beside its name, its bytes and the kept words: the end of the line, `dup`, two
/// numbers and the blanks between them.
const AROUND: usize = 19;

/// Writes what follows the key of an entry: its length, its bytes, and the kept words around them.
fn put_body(
    out: &mut Sealing,
    plain: &[u8],
    len_iv: u8,
    rd: &[u8],
    phrase: &[u8],
) -> Result<(), AllocError>
    ensures { OnOk result (out.new
        ≡ out.old
        ++ (32
        ∷ (decimal (len_iv + length plain.now)
        ++ (32
        ∷ (rd.now
        ++ (32
        ∷ (sealed_body len_iv plain.now
        ++ (32 ∷ phrase.now)))))))) }
{
    out.put(b" ")?;
    out.put_number(len_iv as usize + plain.len())?;
    out.put(b" ")?;
    out.put(rd)?;
    out.put(b" ")?;
    out.put_charstring(plain, len_iv)?;
    out.put(b" ")?;
    out.put(phrase)?;
    Ok(())
}

/// Writes an entry of Subrs, after the end of the line before it.
fn put_subr(
    out: &mut Sealing,
    kept: &KeptSubrs,
    len_iv: u8,
    index: u16,
    plain: &[u8],
) -> Result<(), AllocError>
    ensures { OnOk result (out.new
        ≡ out.old
        ++ subr_text (subr_entry len_iv (subrs_view kept.now) (index, plain.now))) }
{
    out.put(b"\ndup ")?;
    out.put_number(index as usize)?;
    put_body(out, plain, len_iv, kept.rd.as_slice(), kept.put.as_slice())?;
    Ok(())
}

/// Writes the table of Subrs.
fn put_subrs(
    out: &mut Sealing,
    kept: &KeptSubrs,
    len_iv: u8,
    subrs: &SparseArray<'_>,
) -> Result<(), AllocError>
    ensures { OnOk result (out.new
        ≡ out.old
        ++ subrs_part
        (Some (subrs_pieces len_iv (fin.entries subrs.now) (subrs_view kept.now)))) }
{
    out.put(b"/Subrs ")?;
    out.put_number(kept.declared as usize)?;
    out.put(b" array")?;
    'subrs: for (index, plain) in subrs.entries() {
        put_subr(out, kept, len_iv, index, plain)?;
    }
    out.put(b"\n")?;
    out.put(kept.closing.as_slice())?;
    Ok(())
}

/// Writes the table of Subrs, if there is one.
fn put_table(out: &mut Sealing, shell: &Shell, subrs: &SparseArray<'_>) -> Result<(), AllocError>
    ensures { OnOk result (out.new
        ≡ out.old
        ++ subrs_part
        (option_map
        (subrs_pieces shell.now.len_iv
        (fin.entries subrs.now)) shell.now.subrs)) }
{
    match &shell.subrs {
        Some(kept) => {
            put_subrs(out, kept, shell.len_iv, subrs)?;
            Ok(())
        }
        None => Ok(()),
    }
}

/// Writes a glyph, after the end of the line before it.
fn put_glyph(out: &mut Sealing, shell: &Shell, name: &[u8], plain: &[u8]) -> Result<(), AllocError>
    ensures { OnOk result (out.new
        ≡ out.old ++ glyph_text (glyph_entry shell.now (name.now, plain.now))) }
{
    out.put(b"\n/")?;
    out.put(name)?;
    put_body(
        out,
        plain,
        shell.len_iv,
        shell.glyphs_rd.as_slice(),
        shell.glyphs_def.as_slice(),
    )?;
    Ok(())
}

/// Writes the table of glyphs.
fn put_glyphs(out: &mut Sealing, shell: &Shell, glyphs: &CharStrings<'_>) -> Result<(), AllocError>
    ensures { OnOk result (out.new
        ≡ out.old ++ glyphs_part (map (glyph_entry shell.now) (fin.entries glyphs.now))) }
{
    out.put(b"/CharStrings ")?;
    out.put_number(glyphs.len())?;
    out.put(b" dict dup begin")?;
    'glyphs: for (name, plain) in glyphs.entries() {
        put_glyph(out, shell, name, plain)?;
    }
    out.put(b"\nend")?;
    Ok(())
}

/// Writes the canonical private text.
fn put_private(out: &mut Sealing, parts: &FontParts<'_>) -> Result<(), AllocError>
    ensures { OnOk result (out.new ≡ out.old ++ canon_private parts.now) }
{
    let shell = parts.shell;
    out.put(shell.private.as_slice())?;
    put_table(out, shell, &parts.subrs)?;
    out.put(shell.middle.as_slice())?;
    put_glyphs(out, shell, &parts.glyphs)?;
    out.put(shell.tail.as_slice())?;
    out.put(b"\n")?;
    Ok(())
}

/// How many bytes the entries of Subrs have at most.
fn subrs_room(shell: &Shell, subrs: &SparseArray<'_>) -> usize {
    let mut around = AROUND.saturating_add(shell.len_iv as usize);
    if let Some(kept) = &shell.subrs {
        around = around
            .saturating_add(kept.rd.len())
            .saturating_add(kept.put.len());
    }
    let mut room = MARKERS;
    'subrs: for (_, plain) in subrs.entries() {
        room = room.saturating_add(around).saturating_add(plain.len());
    }
    room
}

/// How many bytes the entries of glyphs have at most.
fn glyphs_room(shell: &Shell, glyphs: &CharStrings<'_>) -> usize {
    let around = AROUND
        .saturating_add(shell.len_iv as usize)
        .saturating_add(shell.glyphs_rd.len())
        .saturating_add(shell.glyphs_def.len());
    let mut room = MARKERS;
    'glyphs: for (name, plain) in glyphs.entries() {
        room = room
            .saturating_add(around)
            .saturating_add(name.len())
            .saturating_add(plain.len());
    }
    room
}

/// How many bytes the cipher has at most, as far as it can be told.
fn cipher_room(parts: &FontParts<'_>) -> usize {
    let shell = parts.shell;
    subrs_room(shell, &parts.subrs)
        .saturating_add(glyphs_room(shell, &parts.glyphs))
        .saturating_add(shell.private.len())
        .saturating_add(shell.middle.len())
        .saturating_add(shell.tail.len())
}

/// The cipher of the canonical private text, with zeros as its lead bytes. There is room for a file of it in this form, with a clear
/// part of so many bytes.
pub(crate) fn private_cipher(
    alloc: Global,
    parts: &FontParts<'_>,
    form: Form,
    clear: usize,
) -> Result<Vec<u8>, AllocError>
    ensures { IfOk result (λ v. v.items ≡ private_cipher (canon_private parts.now)) }
{
    let mut out = Sealing::with_capacity(alloc, room_around(form, cipher_room(parts), clear))?;
    out.put(&[0; EEXEC_LEAD as usize])?;
    put_private(&mut out, parts)?;
    Ok(out.into_cipher())
}
