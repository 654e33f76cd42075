//! The engine that mends a font: it writes as a canonical file what other programs spell, and tells what that changes.
ghost use Rattle.std.specs.{Prelude.{◌≡◌, ◌+◌, ◌≤◌, ◌++◌, ◌∷◌, [], Ok, OnOk, IfOk, IfErr, IfSome}, List.{flat_map}};
ghost use Rattle.t1_cmd.specs.{Count.{calls_counted, inner_of}, Inputs.{input_of}, Runs.{ended, RunEnds, Succeeds}, Answers.{Prints, MayRefuse}};
ghost use Rattle.t1_cmd.specs.{Fonts.{mended_input, of_mended, file_answer}, Mends.{mend_line, mends_answer}};
ghost use Rattle.t1_bytes.specs.Limits.{file_limit};

use crate::counting::Counted;
use crate::faults::{Reason, RunFault};
use crate::font_commands::{Taking, read_file, reason_of, text_of_bytes, write_command};
use crate::fonts::Convert;
use std::alloc::{AllocError, Global};
use std::io::{Read, Write};
use t1_bytes::FILE_LIMIT;
use t1_font::{Form, Mend, mends};

/// The canonical file, in one of the two forms, of the font that a file spells widely, without the test whether it was loaded
/// before, as [`run_mend`] writes it.
///
/// # Errors
///
/// [`Reason::TooLong`] or [`Reason::Font`] if the file spells no font widely, for its first fault; [`Reason::Memory`] if a growth
/// was refused.
pub fn mend_file(alloc: Global, file: &[u8], form: Form) -> Result<Vec<u8>, Reason>
    ensures text { IfOk result (λ text. of_mended (file_answer form) file.now ≡ Ok text.items) }
    ensures refused { IfErr result (MayRefuse (λ a. a ≡ of_mended (file_answer form) file.now)) }
{
    text_of_bytes(alloc, Taking::Mended, &Convert::to(form), file)
}

// One more line.
fn push_mend(alloc: Global, out: &mut Vec<u8>, mend: &Mend) -> Result<(), AllocError>
    ensures { OnOk result (out.new.items ≡ out.old.items ++ mend_line mend.now) }
{
    let text = mend.to_string(alloc)?;
    out.extend_from_slice(text.as_bytes())?;
    out.push(b'\n')?;
    Ok(())
}

// The lines of mends.
fn mend_lines(alloc: Global, mends: &[Mend]) -> Result<Vec<u8>, AllocError>
    ensures { IfOk result (λ text. text.items ≡ flat_map mend_line mends.now) }
{
    let mut text = Vec::new(alloc);
    'mends: for mend in mends {
        push_mend(alloc, &mut text, mend)?;
    }
    Ok(text)
}

/// A line for each thing that [`mend_file`] mends of a file, with its place, as [`Mend`] prints it. It is empty if the file
/// spells a font that has no test to lose.
///
/// # Errors
///
/// Those of [`mend_file`].
pub fn list_mends(alloc: Global, file: &[u8]) -> Result<Vec<u8>, Reason>
    ensures text { IfOk result (λ text. mends_answer file.now ≡ Ok text.items) }
    ensures refused { IfErr result (MayRefuse (λ a. a ≡ mends_answer file.now)) }
{
    if file.len() > FILE_LIMIT {
        return Err(Reason::TooLong);
    }
    match mends(alloc, file) {
        Ok(mends) => Ok(mend_lines(alloc, mends.as_slice())?),
        Err(fault) => Err(reason_of(fault)),
    }
}

/// Writes the canonical file, in one of the two forms, of the font that a file spells widely, without the test whether it was
/// loaded before, and answers the lines that tell what it mended ([`list_mends`]). Widely spelled, a font may have comments in its
/// Encoding and among its Subrs, codes that are copied, and `readonly` behind a word that is the whole Encoding.
pub fn run_mend<R: Read, W: Write>(
    alloc: Global,
    reader: &mut Counted<R>,
    form: Form,
    writer: &mut Counted<W>,
) -> Result<Vec<u8>, RunFault>
    ensures ends { RunEnds mended_input (Prints (file_answer form)) W.contents
        (input_of R.remaining reader.old reader.new ∷ []) writer.old writer.new (ended result) }
    ensures succeeds { Succeeds mended_input (Prints (file_answer form))
        (input_of R.remaining reader.old reader.new ∷ []) writer.old writer.new (ended result) }
    ensures turns { calls_counted reader.new ≤ calls_counted reader.old + (file_limit + 1) }
    ensures told { IfOk result (λ lines. IfSome (R.remaining (inner_of reader.old))
        (λ bytes. mends_answer bytes ≡ Ok lines.items)) }
{
    let file = read_file(alloc, Taking::Mended, reader)?;
    let lines = match list_mends(alloc, file.as_slice()) {
        Ok(lines) => lines,
        Err(reason) => return Err(RunFault::Refused(reason)),
    };
    match write_command(alloc, Taking::Mended, &Convert::to(form), file, writer) {
        Ok(()) => Ok(lines),
        Err(fault) => Err(fault),
    }
}
