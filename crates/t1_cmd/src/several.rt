//! The commands about several fonts: what each makes of fonts, of files, and of what readers have.
ghost use Rattle.std.specs.Prelude.{◌≡◌, ℕ, List, Result, Ok, IfOk, IfErr};
ghost use Rattle.t1_font.specs.FontValue.{FontValue};
ghost use Rattle.t1_subset.specs.NameSets.{lent};
ghost use Rattle.t1_cmd.specs.{declared.faults.Reason.{Reason}, Answers.{MayRefuse}, Files.{values_from, IsUnread, IsRefusalAt, OfFiles, RefusesFiles}};
ghost use Rattle.t1_cmd.specs.{Fonts.{input_by}, Inputs.{Say}, Mergers.{inputs_of, InTurns, InputsStop}, Runs.{RunEnds}};

use crate::counting::Counted;
use crate::faults::{FilesRefusal, Reason, RunFault};
use crate::font_commands::{Taking, read_font, source_of};
use crate::writing::write_text;
use std::alloc::{AllocError, Global};
use std::io::{Read, Write};
use t1_font::Source;
use t1_join::push_item;

/// A command about several fonts. It has a text or a refusal among its answers for them.
pub(crate) trait FontsCommand {
    ghost Answers: { Self → List FontValue → Result (List ℕ) Reason → Type 0 };

    /// The text that the command makes of the fonts of sources.
    fn text(&self, alloc: Global, sources: Vec<Source>) -> Result<Vec<u8>, Reason>
        ensures text { IfOk result (λ text. Answers self.now sources.items (Ok text.items)) }
        ensures refused { IfErr result (MayRefuse (Answers self.now sources.items)) };
}

/// The source of the font that the bytes of a file are taken for.
pub(crate) fn source_in(alloc: Global, taking: Taking, file: &[u8]) -> Result<Source, Reason>
    ensures source { IfOk result (λ source. input_by taking file.now ≡ Ok source) }
    ensures refused { IfErr result (MayRefuse (λ a. a ≡ input_by taking file.now)) }
{
    let file = file.to_vec(alloc)?;
    source_of(alloc, taking, file)
}

/// The refusal of the file at a place. Want of memory is no fault of the file.
pub(crate) fn refused_at(place: usize, reason: Reason) -> FilesRefusal
    ensures { IsRefusalAt place reason result }
{
    match reason {
        Reason::Memory => FilesRefusal {
            place: None,
            reason: Reason::Memory,
        },
        reason => FilesRefusal {
            place: Some(place),
            reason,
        },
    }
}

// The sources of the fonts that files are taken for, one after the other.
fn sources_of(alloc: Global, taking: Taking, files: &[&[u8]]) -> Result<Vec<Source>, FilesRefusal>
    ensures sources { IfOk result
        (λ sources. values_from (input_by taking) 0 (lent files.now) ≡ Ok sources.items) }
    ensures refused { IfErr result (λ e. IsUnread (input_by taking) (lent files.now) e.place e.reason) }
{
    let mut sources = Vec::new(alloc);
    'files: for place in 0..files.len() {
        let source = match source_in(alloc, taking, files[place]) {
            Ok(source) => source,
            Err(reason) => return Err(refused_at(place, reason)),
        };
        if push_item(&mut sources, source).is_err() {
            return Err(refused_at(place, Reason::Memory));
        }
    }
    Ok(sources)
}

/// The text that a command makes of the fonts that files are taken for.
pub(crate) fn text_of_files<T: FontsCommand>(
    alloc: Global,
    taking: Taking,
    command: &T,
    files: &[&[u8]],
) -> Result<Vec<u8>, FilesRefusal>
    ensures text { IfOk result
        (λ text. OfFiles (input_by taking) (T.Answers command.now) (lent files.now) (Ok text.items)) }
    ensures refused { IfErr result (RefusesFiles (input_by taking) (T.Answers command.now) (lent files.now)) }
{
    let sources = match sources_of(alloc, taking, files) {
        Ok(sources) => sources,
        Err(refusal) => return Err(refusal),
    };
    let text = match command.text(alloc, sources) {
        Ok(text) => text,
        Err(reason) => {
            return Err(FilesRefusal {
                place: None,
                reason,
            });
        }
    };
    Ok(text)
}

// The sources of the fonts that the readers' bytes are taken for, one after the other.
fn read_fonts<R: Read>(
    alloc: Global,
    taking: Taking,
    readers: &mut [Counted<R>],
) -> Result<Vec<Source>, RunFault>
    ensures says { IfOk result
        (λ sources. Say (input_by taking)
        (inputs_of R.remaining readers.old readers.new) sources.items) }
    ensures stops { IfErr result
        (λ e. InputsStop (input_by taking)
        (inputs_of R.remaining readers.old readers.new) e) }
    ensures turns { InTurns readers.old readers.new }
{
    let mut sources = Vec::new(alloc);
    'readers: for i in 0..readers.len() {
        let source = match read_font(alloc, taking, &mut readers[i]) {
            Ok(source) => source,
            Err(fault) => return Err(fault),
        };
        push_item(&mut sources, source)?;
    }
    Ok(sources)
}

/// Writes the text that a command makes of the fonts that the readers' bytes are taken for.
pub(crate) fn run_fonts_command<T: FontsCommand, R: Read, W: Write>(
    alloc: Global,
    taking: Taking,
    command: &T,
    readers: &mut [Counted<R>],
    writer: &mut Counted<W>,
) -> Result<(), RunFault>
    ensures ends { RunEnds (input_by taking) (T.Answers command.now) W.contents
        (inputs_of R.remaining readers.old readers.new) writer.old writer.new result }
    ensures turns { InTurns readers.old readers.new }
{
    let sources = match read_fonts(alloc, taking, readers) {
        Ok(sources) => sources,
        Err(fault) => return Err(fault),
    };
    let text = match command.text(alloc, sources) {
        Ok(text) => text,
        Err(reason) => return Err(RunFault::Refused(reason)),
    };
    write_text(writer, text.as_slice())
}
