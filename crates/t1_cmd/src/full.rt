//! The engine that lists what a font has in full: also what its dictionary says, and how wide its glyphs are.
ghost use Rattle.std.specs.{Prelude.{◌≡◌, ◌+◌, ◌≤◌, ◌++◌, ◌∷◌, [], ◌==◌, None, codes, Ok, OnOk, IfOk, IfErr}, List.{flat_map}, Option.{option_map}};
ghost use Rattle.t1_grammar.specs.Grammar.{fixed};
ghost use Rattle.t1_bytes.specs.{White.{is_white}, Limits.{file_limit}};
ghost use Rattle.t1_run.specs.Drawings.{draw};
ghost use Rattle.t1_font.specs.{FontModel.{subr_at}, FontValue.{names_in}};
ghost use Rattle.t1_join.specs.ListingMeaning.{ends_name};
ghost use Rattle.t1_cmd.specs.{Count.{calls_counted}, Inputs.{input_of}, Runs.{RunEnds, Succeeds}, Answers.{Prints, MayRefuse}, Fonts.{font_input, of_file}};
ghost use Rattle.t1_cmd.specs.DrawingText.{draw_fault_line};
ghost use Rattle.t1_cmd.specs.FullText.{name_goes_on, behind_or, text_behind, behind_clear, value_byte, value_text, opens, closes_name, value_at, past_white};
ghost use Rattle.t1_cmd.specs.FullText.{valued, value_line, first_some, clear_line, unique_line, dictionary_lines, width_told, width_line, full_answer};
ghost use Rattle.std.specs.FinMap as fin;

use crate::counting::Counted;
use crate::faults::{Reason, RunFault};
use crate::font_commands::{FontCommand, Taking, run_command, text_of_bytes};
use crate::list::list_text;
use crate::show::{fault_text, push_line};
use crate::texts::push_shown;
use std::alloc::{AllocError, Global};
use std::io::{Read, Write};
use t1_bytes::texts::fixed_at;
use t1_font::{DrawFault, Drawing, Font, Part, lay_out};
use t1_join::ends_name;

// ---- what the dictionary says

// Whether a word goes on here.
fn goes_on(text: &[u8]) -> bool
    ensures { result ≡ name_goes_on text.now }
{
    match text.first() {
        Some(byte) => !ends_name(*byte),
        None => false,
    }
}

// What stands behind a key that comes here as a whole word.
fn key_at<'a>(key: &[u8], text: &'a [u8]) -> Option<&'a [u8]>
    ensures { option_map (λ r. r.now) result ≡ behind_or ((fixed key.now).read text.now) None }
{
    let (_, found) = fixed_at(text, key)?;
    if goes_on(found) { None } else { Some(found) }
}

// What stands behind the first place of a key.
fn behind<'a>(key: &[u8], text: &'a [u8]) -> Option<&'a [u8]>
    ensures { option_map (λ r. r.now) result ≡ text_behind key.now text.now }
{
    let mut rest = text;
    'places: while let Some((_, after)) = rest.split_first() {
        if let Some(found) = key_at(key, rest) {
            return Some(found);
        }
        rest = after;
    }
    None
}

// The same in the clear text before the Encoding, or else in that behind it.
fn behind_clear<'a>(key: &[u8], font: &Font<'a>) -> Option<&'a [u8]>
    ensures { option_map (λ r. r.now) result ≡ behind_clear key.now font.now }
{
    match behind(key, font.text(Part::Head)) {
        Some(found) => Some(found),
        None => behind(key, font.text(Part::ClearTail)),
    }
}

fn is_white(byte: u8) -> bool
    ensures { result ≡ is_white byte }
{
    matches!(byte, 0 | 9 | 10 | 12 | 13 | 32)
}

fn opens(byte: u8) -> bool
    ensures { result ≡ opens byte }
{
    byte == b'[' || byte == b'{'
}

fn closes(byte: u8) -> bool
    ensures { result ≡ closes_name byte }
{
    byte == b']' || byte == b'}'
}

// A text without the white space at its front.
fn past_white(text: &[u8]) -> &[u8]
    ensures { result.now ≡ past_white text.now }
{
    let mut rest = text;
    'white: while let Some((byte, after)) = rest.split_first() {
        if !is_white(*byte) {
            return rest;
        }
        rest = after;
    }
    rest
}

fn push_byte(alloc: Global, out: &mut Vec<u8>, byte: u8) -> Result<(), AllocError>
    ensures { OnOk result (out.new.items ≡ out.old.items ++ value_byte byte) }
{
    if is_white(byte) {
        out.push(b' ')?;
        return Ok(());
    }
    push_shown(alloc, out, &[byte])
}

// The bytes of a value up to a bracket or brace that closes.
fn push_inside(alloc: Global, out: &mut Vec<u8>, text: &[u8]) -> Result<(), AllocError>
    ensures { OnOk result (out.new.items ≡ out.old.items ++ value_text closes_name text.now) }
{
    'bytes: for byte in text {
        if closes(*byte) {
            return Ok(());
        }
        push_byte(alloc, out, *byte)?;
    }
    Ok(())
}

// The bytes of a value up to the end of a word.
fn push_word(alloc: Global, out: &mut Vec<u8>, text: &[u8]) -> Result<(), AllocError>
    ensures { OnOk result (out.new.items ≡ out.old.items ++ value_text ends_name text.now) }
{
    'bytes: for byte in text {
        if ends_name(*byte) {
            return Ok(());
        }
        push_byte(alloc, out, *byte)?;
    }
    Ok(())
}

fn push_value(alloc: Global, out: &mut Vec<u8>, text: &[u8]) -> Result<(), AllocError>
    ensures { OnOk result (out.new.items ≡ out.old.items ++ value_at text.now) }
{
    let Some((byte, after)) = text.split_first() else {
        return Ok(());
    };
    if opens(*byte) {
        return push_inside(alloc, out, after);
    }
    if *byte == b'/' {
        return push_word(alloc, out, after);
    }
    push_word(alloc, out, text)
}

// The line of a value, if it has bytes.
fn push_valued(out: &mut Vec<u8>, word: &[u8], value: &[u8]) -> Result<(), AllocError>
    ensures { OnOk result (out.new.items ≡ out.old.items ++ valued word.now value.now) }
{
    if value.is_empty() {
        return Ok(());
    }
    out.extend_from_slice(word)?;
    out.extend_from_slice(value)?;
    out.push(b'\n')?;
    Ok(())
}

// The line of a value that stands behind a key, if the key is there and has one.
fn push_fact(
    alloc: Global,
    out: &mut Vec<u8>,
    word: &[u8],
    found: Option<&[u8]>,
) -> Result<(), AllocError>
    ensures { OnOk result (out.new.items ≡ out.old.items
        ++ value_line word.now (option_map (λ r. r.now) found.entry)) }
{
    let Some(text) = found else {
        return Ok(());
    };
    let mut value = Vec::new(alloc);
    push_value(alloc, &mut value, past_white(text))?;
    push_valued(out, word, value.as_slice())
}

// Where a font's UniqueID stands.
fn unique_id<'a>(font: &Font<'a>) -> Option<&'a [u8]>
    ensures { option_map (λ r. r.now) result
        ≡ first_some (behind_clear (codes "/UniqueID") font.now) (text_behind (codes "/UniqueID") font.now.shell.private) }
{
    match behind_clear(b"/UniqueID", font) {
        Some(found) => Some(found),
        None => behind(b"/UniqueID", font.text(Part::Private)),
    }
}

// The line of a key of the clear text.
fn push_clear(
    alloc: Global,
    out: &mut Vec<u8>,
    word: &[u8],
    key: &[u8],
    font: &Font<'_>,
) -> Result<(), AllocError>
    ensures { OnOk result (out.new.items
        ≡ out.old.items ++ clear_line word.now key.now font.now) }
{
    let found = behind_clear(key, font);
    push_fact(alloc, out, word, found)
}

fn push_unique(alloc: Global, out: &mut Vec<u8>, font: &Font<'_>) -> Result<(), AllocError>
    ensures { OnOk result (out.new.items ≡ out.old.items ++ unique_line font.now) }
{
    let found = unique_id(font);
    push_fact(alloc, out, b"unique ", found)
}

fn push_dictionary(alloc: Global, out: &mut Vec<u8>, font: &Font<'_>) -> Result<(), AllocError>
    ensures { OnOk result (out.new.items ≡ out.old.items ++ dictionary_lines font.now) }
{
    push_clear(alloc, out, b"name ", b"/FontName", font)?;
    push_clear(alloc, out, b"matrix ", b"/FontMatrix", font)?;
    push_clear(alloc, out, b"box ", b"/FontBBox", font)?;
    push_unique(alloc, out, font)
}

// ---- widths

// Why a glyph can't be drawn, behind its name.
fn push_fault(alloc: Global, out: &mut Vec<u8>, fault: DrawFault) -> Result<(), AllocError>
    ensures { OnOk result (out.new.items ≡ out.old.items ++ (32 ∷ draw_fault_line fault)) }
{
    let text = fault_text(alloc, fault)?;
    out.push(b' ')?;
    out.extend_from_slice(text.as_slice())
}

// How wide a glyph is, behind its name, or why it can't be drawn.
fn push_told(
    alloc: Global,
    out: &mut Vec<u8>,
    font: &Font<'_>,
    name: &[u8],
) -> Result<(), AllocError>
    ensures { OnOk result (out.new.items
        ≡ out.old.items ++ width_told (draw (subr_at font.now) (fin.get font.now.glyphs) name.now)) }
{
    let width = match lay_out(alloc, font, name)? {
        Drawing::Drawn { width, .. } => width,
        Drawing::Failed(fault) => return push_fault(alloc, out, fault),
    };
    push_line(out, b"", &[width.x, width.y])
}

fn push_width(
    alloc: Global,
    out: &mut Vec<u8>,
    font: &Font<'_>,
    name: &[u8],
) -> Result<(), AllocError>
    ensures { OnOk result (out.new.items ≡ out.old.items ++ width_line font.now name.now) }
{
    out.extend_from_slice(b"width ")?;
    push_shown(alloc, out, name)?;
    push_told(alloc, out, font, name)
}

fn push_widths(alloc: Global, out: &mut Vec<u8>, font: &Font<'_>) -> Result<(), AllocError>
    ensures { OnOk result (out.new.items
        ≡ out.old.items ++ flat_map (width_line font.now) (names_in font.now.glyphs)) }
{
    'names: for name in font.names() {
        push_width(alloc, out, font, name)?;
    }
    Ok(())
}

// All lines of a font.
fn full_text(alloc: Global, font: &Font<'_>) -> Result<Vec<u8>, AllocError>
    ensures { IfOk result (λ text. full_answer font.now ≡ Ok text.items) }
{
    let mut text = list_text(alloc, font)?;
    push_dictionary(alloc, &mut text, font)?;
    push_widths(alloc, &mut text, font)?;
    Ok(text)
}

/// The command `list` in full.
#[derive(Drop)]
pub(crate) struct ListFull;

impl FontCommand for ListFull {
    ghost answer = { λ command. full_answer };

    fn text(&self, alloc: Global, font: Font<'_>) -> Result<Vec<u8>, Reason> {
        let text = full_text(alloc, &font);
        drop(font);
        let text = text?;
        Ok(text)
    }
}

/// The lines that list the font of a file in full, as [`run_list_full`] writes them.
///
/// # Errors
///
/// [`Reason::TooLong`] or [`Reason::Font`] if the file spells no font, for its first fault; [`Reason::Memory`] if a growth was
/// refused.
pub fn list_file_full(alloc: Global, file: &[u8]) -> Result<Vec<u8>, Reason>
    ensures text { IfOk result (λ text. of_file full_answer file.now ≡ Ok text.items) }
    ensures refused { IfErr result (MayRefuse (λ a. a ≡ of_file full_answer file.now)) }
{
    text_of_bytes(alloc, Taking::Spelled, &ListFull, file)
}

/// Writes what [`run_list`](crate::run_list) writes, then the font's name, its FontMatrix, FontBBox and UniqueID as they are
/// spelled, each if it is there and has a value, and then a line for each glyph, in the order of their names, with its width, or with the fault for
/// which it can't be drawn.
pub fn run_list_full<R: Read, W: Write>(
    alloc: Global,
    reader: &mut Counted<R>,
    writer: &mut Counted<W>,
) -> Result<(), RunFault>
    ensures ends { RunEnds font_input (Prints full_answer) W.contents
        (input_of R.remaining reader.old reader.new ∷ []) writer.old writer.new result }
    ensures succeeds { Succeeds font_input (Prints full_answer)
        (input_of R.remaining reader.old reader.new ∷ []) writer.old writer.new result }
    ensures turns { calls_counted reader.new ≤ calls_counted reader.old + (file_limit + 1) }
{
    run_command(alloc, Taking::Spelled, &ListFull, reader, writer)
}
