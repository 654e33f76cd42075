//! The engine that lists what a font has.
ghost use Rattle.std.specs.{Prelude.{◌≡◌, ◌+◌, ◌≤◌, ◌++◌, ◌∷◌, [], None, Ok, OnOk, IfOk, IfErr}, List.{flat_map}};
ghost use Rattle.t1_font.specs.FontModel.{name_at, word_of};
ghost use Rattle.t1_cmd.specs.{Count.{calls_counted}, Inputs.{input_of}, Runs.{RunEnds, Succeeds}, Answers.{Prints, MayRefuse}, Fonts.{font_input, of_file}};
ghost use Rattle.t1_cmd.specs.ListText.{line_at, code_line, subr_length_line, glyph_length_line, encoding_lines, list_answer};
ghost use Rattle.t1_bytes.specs.Limits.{file_limit};
ghost use Rattle.std.specs.FinMap as fin;

use crate::counting::Counted;
use crate::faults::{Reason, RunFault};
use crate::font_commands::{FontCommand, Taking, run_command, text_of_bytes};
use crate::texts::{push_about, push_number, push_shown};
use std::alloc::{AllocError, Global};
use std::io::{Read, Write};
use t1_font::Font;

// The line of a code that has a name; nothing for any other.
fn push_code(alloc: Global, out: &mut Vec<u8>, font: &Font<'_>, code: u8) -> Result<(), AllocError>
    ensures { OnOk result (out.new.items
        ≡ out.old.items ++ line_at code_line code (name_at font.now.encoding code)) }
{
    if let Some(name) = font.encoding_at(code) {
        push_about(out, b"code ", usize::from(code))?;
        out.push(b' ')?;
        push_shown(alloc, out, name)?;
        out.push(b'\n')?;
    }
    Ok(())
}

// The line of a Subr.
fn push_subr(out: &mut Vec<u8>, index: u16, body: &[u8]) -> Result<(), AllocError>
    ensures { OnOk result (out.new.items ≡ out.old.items ++ subr_length_line index body.now) }
{
    push_about(out, b"subr ", usize::from(index))?;
    push_about(out, b" ", body.len())?;
    out.push(b'\n')?;
    Ok(())
}

// The line of a glyph.
fn push_glyph(alloc: Global, out: &mut Vec<u8>, name: &[u8], body: &[u8]) -> Result<(), AllocError>
    ensures { OnOk result (out.new.items ≡ out.old.items ++ glyph_length_line name.now body.now) }
{
    out.extend_from_slice(b"glyph ")?;
    push_shown(alloc, out, name)?;
    push_about(out, b" ", body.len())?;
    out.push(b'\n')?;
    Ok(())
}

// A line for each code of a table.
fn push_codes(alloc: Global, out: &mut Vec<u8>, font: &Font<'_>) -> Result<(), AllocError>
    requires { word_of font.now.encoding ≡ None }
    ensures { OnOk result (out.new.items ≡ out.old.items ++ encoding_lines font.now.encoding) }
{
    font.proof_is_font();
    'codes: for code in 0..256u16 {
        push_code(alloc, out, font, code as u8)?;
    }
    Ok(())
}

fn push_encoding(alloc: Global, out: &mut Vec<u8>, font: &Font<'_>) -> Result<(), AllocError>
    ensures { OnOk result (out.new.items ≡ out.old.items ++ encoding_lines font.now.encoding) }
{
    let Some(word) = font.encoding_word() else {
        return push_codes(alloc, out, font);
    };
    out.extend_from_slice(b"encoding ")?;
    push_shown(alloc, out, word)?;
    out.push(b'\n')?;
    Ok(())
}

fn push_subrs(out: &mut Vec<u8>, font: &Font<'_>) -> Result<(), AllocError>
    ensures { OnOk result (out.new.items
        ≡ out.old.items ++ flat_map (λ e. subr_length_line e.0 e.1) (fin.entries font.now.subrs)) }
{
    'subrs: for (index, body) in font.subrs().entries() {
        push_subr(out, index, body)?;
    }
    Ok(())
}

fn push_glyphs(alloc: Global, out: &mut Vec<u8>, font: &Font<'_>) -> Result<(), AllocError>
    ensures { OnOk result (out.new.items
        ≡ out.old.items ++ flat_map (λ e. glyph_length_line e.0 e.1) (fin.entries font.now.glyphs)) }
{
    'glyphs: for (name, body) in font.glyphs().entries() {
        push_glyph(alloc, out, name, body)?;
    }
    Ok(())
}

/// The lines of a font.
pub(crate) fn list_text(alloc: Global, font: &Font<'_>) -> Result<Vec<u8>, AllocError>
    ensures { IfOk result (λ text. list_answer font.now ≡ Ok text.items) }
{
    let mut text = Vec::new(alloc);
    push_encoding(alloc, &mut text, font)?;
    push_subrs(&mut text, font)?;
    push_glyphs(alloc, &mut text, font)?;
    Ok(text)
}

/// The command `list`.
#[derive(Drop)]
pub(crate) struct List;

impl FontCommand for List {
    ghost answer = { λ command. list_answer };

    fn text(&self, alloc: Global, font: Font<'_>) -> Result<Vec<u8>, Reason> {
        let text = list_text(alloc, &font);
        drop(font);
        let text = text?;
        Ok(text)
    }
}

/// The lines that list the font of a file, as [`run_list`] writes them.
///
/// # Errors
///
/// [`Reason::TooLong`] or [`Reason::Font`] if the file spells no font, for its first fault; [`Reason::Memory`] if a growth was
/// refused.
pub fn list_file(alloc: Global, file: &[u8]) -> Result<Vec<u8>, Reason>
    ensures text { IfOk result (λ text. of_file list_answer file.now ≡ Ok text.items) }
    ensures refused { IfErr result (MayRefuse (λ a. a ≡ of_file list_answer file.now)) }
{
    text_of_bytes(alloc, Taking::Spelled, &List, file)
}

/// Writes a line for the Encoding, or for each of its codes, then one for each Subr that is present, then one for each
/// glyph, in the order of their keys. Lengths are those of the plain charstrings, in bytes.
pub fn run_list<R: Read, W: Write>(
    alloc: Global,
    reader: &mut Counted<R>,
    writer: &mut Counted<W>,
) -> Result<(), RunFault>
    ensures ends { RunEnds font_input (Prints list_answer) W.contents
        (input_of R.remaining reader.old reader.new ∷ []) writer.old writer.new result }
    ensures succeeds { Succeeds font_input (Prints list_answer)
        (input_of R.remaining reader.old reader.new ∷ []) writer.old writer.new result }
    ensures turns { calls_counted reader.new ≤ calls_counted reader.old + (file_limit + 1) }
{
    run_command(alloc, Taking::Spelled, &List, reader, writer)
}
