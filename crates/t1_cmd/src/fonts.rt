//! The engines that take a whole font: one writes its canonical file, the other says that it can be read.
ghost use Rattle.std.specs.Prelude.{◌≡◌, ◌+◌, ◌≤◌, ◌∷◌, [], Ok, IfOk, IfErr};
ghost use Rattle.t1_cmd.specs.{Count.{calls_counted}, Inputs.{input_of}, Runs.{RunEnds, Succeeds}, Answers.{Prints, MayRefuse}};
ghost use Rattle.t1_cmd.specs.{Fonts.{font_input, of_file, file_answer}, CheckText.{check_answer, check_answer_of}};
ghost use Rattle.t1_bytes.specs.Limits.{file_limit};

use crate::counting::Counted;
use crate::faults::{Reason, RunFault};
use crate::font_commands::{FontCommand, Taking, run_command, text_of_bytes};
use crate::texts::push_about;
use std::alloc::{AllocError, Global};
use std::io::{Read, Write};
use t1_font::{Font, Form, write};
use t1_run::Subroutines;

// The canonical file of a font.
pub(crate) fn font_file(alloc: Global, font: &Font<'_>, form: Form) -> Result<Vec<u8>, AllocError>
    ensures { IfOk result (λ text. file_answer form font.now ≡ Ok text.items) }
{
    let text = write(alloc, font, form)?;
    Ok(text)
}

/// The commands `pfa` and `pfb`.
#[derive(Drop)]
pub(crate) struct Convert {
    form: Form,
}

impl Convert {
    /// The command that writes this form.
    pub(crate) fn to(form: Form) -> Self
        ensures { result.form ≡ form }
    {
        Convert { form }
    }
}

impl FontCommand for Convert {
    ghost answer = { λ command. file_answer command.form };

    fn text(&self, alloc: Global, font: Font<'_>) -> Result<Vec<u8>, Reason> {
        let text = font_file(alloc, &font, self.form);
        drop(font);
        let text = text?;
        Ok(text)
    }
}

/// The canonical file, in one of the two forms, of the font that a file spells.
///
/// # Errors
///
/// [`Reason::TooLong`] or [`Reason::Font`] if the file spells no font, for its first fault; [`Reason::Memory`] if a growth was
/// refused.
pub fn convert_file(alloc: Global, file: &[u8], form: Form) -> Result<Vec<u8>, Reason>
    ensures text { IfOk result (λ text. of_file (file_answer form) file.now ≡ Ok text.items) }
    ensures refused { IfErr result (MayRefuse (λ a. a ≡ of_file (file_answer form) file.now)) }
{
    text_of_bytes(alloc, Taking::Spelled, &Convert { form }, file)
}

/// Writes a font's canonical file in one of the two forms.
pub fn run_convert<R: Read, W: Write>(
    alloc: Global,
    reader: &mut Counted<R>,
    form: Form,
    writer: &mut Counted<W>,
) -> Result<(), RunFault>
    ensures ends { RunEnds font_input (Prints (file_answer form)) W.contents
        (input_of R.remaining reader.old reader.new ∷ []) writer.old writer.new result }
    ensures succeeds { Succeeds font_input (Prints (file_answer form))
        (input_of R.remaining reader.old reader.new ∷ []) writer.old writer.new result }
    ensures turns { calls_counted reader.new ≤ calls_counted reader.old + (file_limit + 1) }
{
    run_command(alloc, Taking::Spelled, &Convert { form }, reader, writer)
}

// The line for a font that can be read.
fn check_line(alloc: Global, font: &Font<'_>) -> Result<Vec<u8>, AllocError>
    ensures { IfOk result (λ text. check_answer font.now ≡ Ok text.items) }
{
    let mut text = Vec::new(alloc);
    push_about(&mut text, b"ok ", font.glyphs().len())?;
    push_about(&mut text, b" glyphs, ", font.subrs().len())?;
    push_about(&mut text, b" subrs, weight ", font.weight() as usize)?;
    text.push(b'\n')?;
    Ok(text)
}

/// The command `check`.
#[derive(Drop)]
pub(crate) struct Check;

impl FontCommand for Check {
    ghost answer = { λ command. check_answer };

    fn text(&self, alloc: Global, font: Font<'_>) -> Result<Vec<u8>, Reason> {
        let text = check_line(alloc, &font);
        drop(font);
        let text = text?;
        Ok(text)
    }
}

// The line for a font that can be read, behind its path.
fn check_line_of(alloc: Global, path: &[u8], font: &Font<'_>) -> Result<Vec<u8>, AllocError>
    ensures { IfOk result (λ text. check_answer_of path.now font.now ≡ Ok text.items) }
{
    let line = check_line(alloc, font)?;
    let mut text = Vec::new(alloc);
    text.extend_from_slice(path)?;
    text.extend_from_slice(b": ")?;
    text.extend_from_slice(line.as_slice())?;
    Ok(text)
}

/// The command `check` about one of several files, of this path.
#[derive(Drop)]
pub(crate) struct CheckOf<'a> {
    path: &'a [u8],
}

impl FontCommand for CheckOf<'_> {
    ghost answer = { λ command. check_answer_of command.path.now };

    fn text(&self, alloc: Global, font: Font<'_>) -> Result<Vec<u8>, Reason> {
        let text = check_line_of(alloc, self.path, &font);
        drop(font);
        let text = text?;
        Ok(text)
    }
}

/// One line that says that a file spells a font: how many glyphs it has, how many Subrs are present, and its weight.
///
/// # Errors
///
/// [`Reason::TooLong`] or [`Reason::Font`] if the file spells no font, for its first fault; [`Reason::Memory`] if a growth was
/// refused.
pub fn check_file(alloc: Global, file: &[u8]) -> Result<Vec<u8>, Reason>
    ensures text { IfOk result (λ text. of_file check_answer file.now ≡ Ok text.items) }
    ensures refused { IfErr result (MayRefuse (λ a. a ≡ of_file check_answer file.now)) }
{
    text_of_bytes(alloc, Taking::Spelled, &Check, file)
}

/// Writes one line that says that a font can be read: how many glyphs it has, how many Subrs are present, and its weight.
pub fn run_check<R: Read, W: Write>(
    alloc: Global,
    reader: &mut Counted<R>,
    writer: &mut Counted<W>,
) -> Result<(), RunFault>
    ensures ends { RunEnds font_input (Prints check_answer) W.contents
        (input_of R.remaining reader.old reader.new ∷ []) writer.old writer.new result }
    ensures succeeds { Succeeds font_input (Prints check_answer)
        (input_of R.remaining reader.old reader.new ∷ []) writer.old writer.new result }
    ensures turns { calls_counted reader.new ≤ calls_counted reader.old + (file_limit + 1) }
{
    run_command(alloc, Taking::Spelled, &Check, reader, writer)
}

/// Writes the path of a file as it stands, a colon and a blank, and then what [`run_check`] writes of its font.
pub fn run_check_of<R: Read, W: Write>(
    alloc: Global,
    reader: &mut Counted<R>,
    path: &[u8],
    writer: &mut Counted<W>,
) -> Result<(), RunFault>
    ensures ends { RunEnds font_input (Prints (check_answer_of path.now)) W.contents
        (input_of R.remaining reader.old reader.new ∷ []) writer.old writer.new result }
    ensures succeeds { Succeeds font_input (Prints (check_answer_of path.now))
        (input_of R.remaining reader.old reader.new ∷ []) writer.old writer.new result }
    ensures turns { calls_counted reader.new ≤ calls_counted reader.old + (file_limit + 1) }
{
    run_command(alloc, Taking::Spelled, &CheckOf { path }, reader, writer)
}
