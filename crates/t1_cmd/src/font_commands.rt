//! The commands about one font: what each makes of a font, of a file, and of what a reader has.
ghost use Rattle.std.specs.Prelude.{◌≡◌, ◌+◌, ◌≤◌, ◌∷◌, [], ℕ, List, Result, Ok, IfOk, IfErr, IfSome};
ghost use Rattle.t1_bytes.specs.Limits.{file_limit};
ghost use Rattle.t1_font.specs.FontValue.{FontValue};
ghost use Rattle.t1_cmd.specs.{declared.faults.Reason.{Reason}, Count.{calls_counted, inner_of}, Inputs.{Input, Holds, input_of}};
ghost use Rattle.t1_cmd.specs.{Runs.{InputStops, InputEnds, RunEnds, Succeeds}, Answers.{Prints, MayRefuse}};
ghost use Rattle.t1_cmd.specs.Fonts.{font_reason, font_input, mended_input, input_by, of_input};

use crate::counting::Counted;
use crate::faults::{Reason, RunFault};
use crate::reading::read_all;
use crate::writing::write_text;
use std::alloc::Global;
use std::io::{Read, Write};
use t1_bytes::FILE_LIMIT;
use t1_font::{Font, ReadFault, Source, read_vec, read_wide_vec};

/// A command about one font. Its answer for a font is a text or a refusal.
pub(crate) trait FontCommand {
    ghost answer: { Self → FontValue → Result (List ℕ) Reason };

    /// The text that the command makes of a font.
    fn text(&self, alloc: Global, font: Font<'_>) -> Result<Vec<u8>, Reason>
        ensures text { IfOk result (λ text. answer self.now font.entry ≡ Ok text.items) }
        ensures refused { IfErr result (MayRefuse (λ a. a ≡ answer self.now font.entry)) };
}

pub(crate) fn reason_of(fault: ReadFault) -> Reason
    ensures { result ≡ font_reason fault }
{
    match fault {
        ReadFault::TooLong => Reason::TooLong,
        ReadFault::Memory => Reason::Memory,
        other => Reason::Font(other),
    }
}

/// How a file is taken for a font.
#[derive(Clone, Copy)]
pub(crate) enum Taking {
    /// As the font that it spells.
    Spelled,
    /// As the font that it spells widely, without the test whether it was loaded before.
    Mended,
}

// The source of the font that a file spells.
fn spelled_source(alloc: Global, file: Vec<u8>) -> Result<Source, Reason>
    ensures source { IfOk result (λ source. font_input file.items ≡ Ok source) }
    ensures refused { IfErr result (MayRefuse (λ a. a ≡ font_input file.items)) }
{
    if file.len() > FILE_LIMIT {
        return Err(Reason::TooLong);
    }
    read_vec(alloc, file).map_err(reason_of)
}

// The source of the font that a file spells widely, without the test whether it was loaded before.
fn mended_source(alloc: Global, file: Vec<u8>) -> Result<Source, Reason>
    ensures source { IfOk result (λ source. mended_input file.items ≡ Ok source) }
    ensures refused { IfErr result (MayRefuse (λ a. a ≡ mended_input file.items)) }
{
    if file.len() > FILE_LIMIT {
        return Err(Reason::TooLong);
    }
    match read_wide_vec(alloc, file) {
        Ok(source) => Ok(source.untested(alloc)?),
        Err(fault) => Err(reason_of(fault)),
    }
}

/// The source of the font that a file is taken for.
pub(crate) fn source_of(alloc: Global, taking: Taking, file: Vec<u8>) -> Result<Source, Reason>
    ensures source { IfOk result (λ source. input_by taking file.items ≡ Ok source) }
    ensures refused { IfErr result (MayRefuse (λ a. a ≡ input_by taking file.items)) }
{
    match taking {
        Taking::Spelled => spelled_source(alloc, file),
        Taking::Mended => mended_source(alloc, file),
    }
}

// The text that a command makes of the font of a source.
fn text_of_source<T: FontCommand>(
    alloc: Global,
    command: &T,
    source: &Source,
) -> Result<Vec<u8>, Reason>
    ensures text { IfOk result (λ text. T.answer command.now source.now ≡ Ok text.items) }
    ensures refused { IfErr result (MayRefuse (λ a. a ≡ T.answer command.now source.now)) }
{
    let font = source.font(alloc)?;
    command.text(alloc, font)
}

/// The text that a command makes of the font that a file is taken for.
pub(crate) fn text_of_file<T: FontCommand>(
    alloc: Global,
    taking: Taking,
    command: &T,
    file: Vec<u8>,
) -> Result<Vec<u8>, Reason>
    ensures text { IfOk result (λ text. of_input (input_by taking) (T.answer command.now) file.items
        ≡ Ok text.items) }
    ensures refused { IfErr result (MayRefuse (λ a. a ≡ of_input (input_by taking) (T.answer command.now) file.items)) }
{
    let source = match source_of(alloc, taking, file) {
        Ok(source) => source,
        Err(reason) => return Err(reason),
    };
    let text = text_of_source(alloc, command, &source);
    drop(source);
    text
}

/// The same of a file that is lent.
pub(crate) fn text_of_bytes<T: FontCommand>(
    alloc: Global,
    taking: Taking,
    command: &T,
    file: &[u8],
) -> Result<Vec<u8>, Reason>
    ensures text { IfOk result (λ text. of_input (input_by taking) (T.answer command.now) file.now
        ≡ Ok text.items) }
    ensures refused { IfErr result (MayRefuse (λ a. a ≡ of_input (input_by taking) (T.answer command.now) file.now)) }
{
    let file = file.to_vec(alloc)?;
    text_of_file(alloc, taking, command, file)
}

/// All the bytes of a reader.
pub(crate) fn read_file<R: Read>(
    alloc: Global,
    taking: Taking,
    reader: &mut Counted<R>,
) -> Result<Vec<u8>, RunFault>
    ensures file { IfOk result
        (λ file. IfSome (R.remaining (inner_of reader.old)) (λ bytes. file.items ≡ bytes)) }
    ensures refused { IfErr result
        (InputStops (input_by taking) (input_of R.remaining reader.old reader.new)) }
    ensures turns { calls_counted reader.new ≤ calls_counted reader.old + (file_limit + 1) }
{
    read_all(alloc, reader, FILE_LIMIT)
}

/// The source of the font that a reader's bytes are taken for.
pub(crate) fn read_font<R: Read>(
    alloc: Global,
    taking: Taking,
    reader: &mut Counted<R>,
) -> Result<Source, RunFault>
    ensures ends { InputEnds (input_by taking) (λ f. f)
        (input_of R.remaining reader.old reader.new) result }
    ensures turns { calls_counted reader.new ≤ calls_counted reader.old + (file_limit + 1) }
{
    let file = read_file(alloc, taking, reader)?;
    match source_of(alloc, taking, file) {
        Ok(source) => Ok(source),
        Err(reason) => Err(RunFault::Refused(reason)),
    }
}

/// Writes the text that a command makes of the font that a file, the bytes of an input, is taken for.
pub(crate) fn write_command<T: FontCommand, W: Write>(
    alloc: Global,
    taking: Taking,
    command: &T,
    file: Vec<u8>,
    writer: &mut Counted<W>,
) -> Result<(), RunFault>
    ensures { (i : Input) → Holds i file.items
        → RunEnds (input_by taking) (Prints (T.answer command.now)) W.contents
        (i ∷ []) writer.old writer.new result }
{
    let text = match text_of_file(alloc, taking, command, file) {
        Ok(text) => text,
        Err(reason) => return Err(RunFault::Refused(reason)),
    };
    write_text(writer, text.as_slice())
}

/// Writes the text that a command makes of the font that a reader's bytes are taken for.
pub(crate) fn run_command<T: FontCommand, R: Read, W: Write>(
    alloc: Global,
    taking: Taking,
    command: &T,
    reader: &mut Counted<R>,
    writer: &mut Counted<W>,
) -> Result<(), RunFault>
    ensures ends { RunEnds (input_by taking) (Prints (T.answer command.now)) W.contents
        (input_of R.remaining reader.old reader.new ∷ []) writer.old writer.new result }
    ensures succeeds { Succeeds (input_by taking) (Prints (T.answer command.now))
        (input_of R.remaining reader.old reader.new ∷ []) writer.old writer.new result }
    ensures turns { calls_counted reader.new ≤ calls_counted reader.old + (file_limit + 1) }
{
    let file = read_file(alloc, taking, reader)?;
    write_command(alloc, taking, command, file, writer)
}
