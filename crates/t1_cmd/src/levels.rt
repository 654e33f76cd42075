//! The engine that levels documents: each place of a name gets one font.
ghost use Rattle.std.specs.Prelude.{◌≡◌, [], map, length, Ok, IfOk, IfErr, IfSome, OnOk, IsSome, IsOkUnless};
ghost use Rattle.t1_subset.specs.NameSets.{lent};
ghost use Rattle.t1_document.specs.Joins.{places_of_all};
ghost use Rattle.t1_cmd.specs.Levels.{carried, files_with, LevelsFiles};
ghost use Rattle.t1_cmd.specs.{declared.faults.Reason.TheVariants.{Memory}, declared.faults.RunFault.TheVariants.{Refused}, Inputs.{AllQuiet, values_of}};
ghost use Rattle.t1_cmd.specs.{Files.{SaidBy, IsUnread}, Mergers.{inputs_of, InTurns, InputsStop}, Documents.{file_input, TellsKept}};

use crate::counting::Counted;
use crate::documents::{Taken, all_taken, kept_lines, lent, read_texts};
use crate::faults::{FilesRefusal, Reason, RunFault};
use std::alloc::{AllocError, Global};
use std::io::Read;
use t1_document::level_documents;
use t1_jobs::{job_of, with_document};
use t1_join::push_item;

/// Documents whose fonts of a name are one font at each place.
#[derive(Drop)]
pub struct Levelled {
    /// The documents, in their order.
    pub texts: Vec<Vec<u8>>,
    /// Lines of the names that keep their fonts.
    pub kept: Vec<u8>,
}

// The document that a file carries; no bytes where it carries none.
fn carried(file: &[u8]) -> &[u8]
    ensures { result.now ≡ carried file.now }
{
    match job_of(file) {
        Ok(job) => job.document,
        Err(_) => b"",
    }
}

// The documents that files carry.
fn all_carried<'a>(alloc: Global, files: &[&'a [u8]]) -> Result<Vec<&'a [u8]>, AllocError>
    ensures { IfOk result (λ ds. lent ds.items ≡ map carried (lent files.now)) }
{
    let mut documents = Vec::with_capacity(alloc, files.len())?;
    'files: for file in files {
        documents.push(carried(file))?;
    }
    Ok(documents)
}

// Files that carry these documents in place of their own, one for one.
fn files_with(
    alloc: Global,
    files: &[&[u8]],
    documents: &[Vec<u8>],
) -> Result<Vec<Vec<u8>>, AllocError>
    requires { length files.now ≡ length documents.now }
    ensures { IfOk result (λ v. map (λ t. t.items) v.items ≡ files_with (lent files.now) (map (λ d. d.items) documents.now)) }
{
    let mut all = Vec::with_capacity(alloc, files.len())?;
    'files: for i in 0..files.len() {
        let whole = with_document(alloc, files[i], documents[i].as_slice())?;
        push_item(&mut all, whole)?;
    }
    Ok(all)
}

// Files whose documents have one font of a name at each place.
fn level(alloc: Global, files: &[&[u8]]) -> Result<Levelled, AllocError>
    ensures levels { IfOk result (λ l. LevelsFiles (lent files.now) (map (λ t. t.items) l.texts.items)) }
    ensures kept { IfOk result (λ l. TellsKept (places_of_all (map carried (lent files.now))) l.kept.items) }
{
    let documents = all_carried(alloc, files)?;
    let levelled = level_documents(alloc, documents.as_slice())?;
    let kept = kept_lines(alloc, levelled.places.as_slice(), &levelled.joins)?;
    let texts = files_with(alloc, files, levelled.texts.as_slice())?;
    Ok(Levelled { texts, kept })
}

/// Documents in memory whose fonts of a name are one font at each place, and a line for each name that keeps its fonts, as
/// [`run_level`] has them.
///
/// # Errors
///
/// [`Reason::TooLong`] or [`Reason::Document`] with the place of the first file that is over the file limit or carries no document;
/// [`Reason::Memory`] if a growth was refused.
pub fn level_files(alloc: Global, documents: &[&[u8]]) -> Result<Levelled, FilesRefusal>
    ensures levels { IfOk result (λ l. SaidBy file_input (λ fs. LevelsFiles fs (map (λ t. t.items) l.texts.items)) (lent documents.now)) }
    ensures kept { IfOk result (λ l. SaidBy file_input (λ fs. TellsKept (places_of_all (map carried fs)) l.kept.items) (lent documents.now)) }
    ensures refused { IfErr result (λ e. IsUnread file_input (lent documents.now) e.place e.reason) }
{
    let files = match all_taken(alloc, Taken::File, documents) {
        Ok(files) => files,
        Err(refusal) => return Err(refusal),
    };
    match level(alloc, files.as_slice()) {
        Ok(levelled) => Ok(levelled),
        Err(_) => Err(FilesRefusal {
            place: None,
            reason: Reason::Memory,
        }),
    }
}

// The documents that readers have, levelled.
fn read_levelled<R: Read>(alloc: Global, readers: &mut [Counted<R>]) -> Result<Levelled, RunFault>
    ensures levels { IfOk result (λ l. IfSome (values_of file_input (inputs_of R.remaining readers.old readers.new))
        (λ files. LevelsFiles files (map (λ t. t.items) l.texts.items))) }
    ensures told { IfOk result (λ l. IfSome (values_of file_input (inputs_of R.remaining readers.old readers.new))
        (λ files. TellsKept (places_of_all (map carried files)) l.kept.items)) }
    ensures stops { IfErr result
        (λ e. InputsStop file_input (inputs_of R.remaining readers.old readers.new) e) }
    ensures turns { InTurns readers.old readers.new }
{
    let texts = match read_texts(alloc, Taken::File, readers) {
        Ok(texts) => texts,
        Err(fault) => return Err(fault),
    };
    let documents = lent(alloc, texts.as_slice())?;
    let levelled = level(alloc, documents.as_slice())?;
    Ok(levelled)
}

/// Documents whose fonts of a name are one font at each place, and a line for each name that keeps its fonts.
///
/// Each document is read by itself, and the fonts of a name are those of all documents ([`level_documents`]). Nothing but the font
/// texts of names that don't keep theirs changes. What stands around a document in its file, as the words of a print job or the
/// header of an EPS file for DOS, stays, too ([`with_document`]).
///
/// The inputs are read one after the other. [`Reason::TooLong`] is answered if one of them is over the file limit, and
/// [`Reason::Document`] if one carries no document. Nothing else is refused but for want of memory.
pub fn run_level<R: Read>(alloc: Global, readers: &mut [Counted<R>]) -> Result<Levelled, RunFault>
    ensures levels { IfOk result (λ l. IfSome (values_of file_input (inputs_of R.remaining readers.old readers.new))
        (λ files. LevelsFiles files (map (λ t. t.items) l.texts.items))) }
    ensures told { IfOk result (λ l. IfSome (values_of file_input (inputs_of R.remaining readers.old readers.new))
        (λ files. TellsKept (places_of_all (map carried files)) l.kept.items)) }
    ensures stops { IfErr result
        (λ e. InputsStop file_input (inputs_of R.remaining readers.old readers.new) e) }
    ensures succeeds { IsSome (values_of file_input (inputs_of R.remaining readers.old readers.new))
        → AllQuiet (inputs_of R.remaining readers.old readers.new) → IsOkUnless result (Refused Memory) }
    ensures turns { InTurns readers.old readers.new }
{
    read_levelled(alloc, readers)
}
