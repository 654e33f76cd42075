//! The commands about documents: what each makes of documents in memory, and of what readers have.
ghost use Rattle.std.specs.Prelude.{ℕ, List, Result, Ok, IfOk, IfErr};
ghost use Rattle.t1_subset.specs.NameSets.{lent};
ghost use Rattle.t1_cmd.specs.{declared.faults.Reason.{Reason}, Answers.{MayRefuse}, Files.{OfFiles, RefusesFiles}, Mergers.{inputs_of, InTurns}};
ghost use Rattle.t1_cmd.specs.{Runs.{RunEnds}, Documents.{text_input}};

use crate::counting::Counted;
use crate::documents::{Taken, all_taken, lent, read_texts};
use crate::faults::{FilesRefusal, Reason, RunFault};
use crate::writing::write_text;
use std::alloc::Global;
use std::io::{Read, Write};

/// A command about documents. It has a text or a refusal among its answers for them.
pub(crate) trait DocumentsCommand {
    ghost Answers: { Self → List (List ℕ) → Result (List ℕ) Reason → Type 0 };

    /// The text that the command makes of documents.
    fn text(&self, alloc: Global, documents: &[&[u8]]) -> Result<Vec<u8>, Reason>
        ensures text { IfOk result (λ text. Answers self.now (lent documents.now) (Ok text.items)) }
        ensures refused { IfErr result (MayRefuse (Answers self.now (lent documents.now))) };
}

/// The text that a command makes of documents in memory.
pub(crate) fn text_of_documents<T: DocumentsCommand>(
    alloc: Global,
    command: &T,
    documents: &[&[u8]],
) -> Result<Vec<u8>, FilesRefusal>
    ensures text { IfOk result
        (λ text. OfFiles text_input (T.Answers command.now) (lent documents.now) (Ok text.items)) }
    ensures refused { IfErr result (RefusesFiles text_input (T.Answers command.now) (lent documents.now)) }
{
    let carried = match all_taken(alloc, Taken::Document, documents) {
        Ok(carried) => carried,
        Err(refusal) => return Err(refusal),
    };
    match command.text(alloc, carried.as_slice()) {
        Ok(text) => Ok(text),
        Err(reason) => Err(FilesRefusal {
            place: None,
            reason,
        }),
    }
}

/// Writes the text that a command makes of the documents that the readers have.
pub(crate) fn run_documents<T: DocumentsCommand, R: Read, W: Write>(
    alloc: Global,
    command: &T,
    readers: &mut [Counted<R>],
    writer: &mut Counted<W>,
) -> Result<(), RunFault>
    ensures ends { RunEnds text_input (T.Answers command.now) W.contents
        (inputs_of R.remaining readers.old readers.new) writer.old writer.new result }
    ensures turns { InTurns readers.old readers.new }
{
    let texts = match read_texts(alloc, Taken::Document, readers) {
        Ok(texts) => texts,
        Err(fault) => return Err(fault),
    };
    let documents = lent(alloc, texts.as_slice())?;
    let text = match command.text(alloc, documents.as_slice()) {
        Ok(text) => text,
        Err(reason) => return Err(RunFault::Refused(reason)),
    };
    write_text(writer, text.as_slice())
}
