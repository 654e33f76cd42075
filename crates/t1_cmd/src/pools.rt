//! The engine that pools documents: each font once.
ghost use Rattle.std.specs.Prelude.{Bool, ℕ, List, Some, ◌≡◌, ◌+◌, ◌≤◌, ◌++◌, [], map, length, Ok, Err, OnOk, IfOk, IfErr, IfSome, MatchResult, if◌then◌else◌};
ghost use Rattle.t1_bytes.specs.Limits.{file_limit};
ghost use Rattle.t1_subset.specs.NameSets.{lent};
ghost use Rattle.t1_document.specs.{Lines.{one_text}, Documents.{document_of}, PoolLaws.{PooledByKeys}};
ghost use Rattle.t1_cmd.specs.{Inputs.{values_of}, Files.{SaidBy, OfFiles, RefusesFiles}, Answers.{MayRefuse}, Mergers.{inputs_of, InTurns}};
ghost use Rattle.t1_cmd.specs.{Runs.{ended, RunEnds, Succeeds}, Documents.{text_input, PooledAs, PoolsBehind, TellsKeys, TellsPooled}};
ghost use Rattle.t1_cmd.specs.Pages.{PagesTo, TellsPaged, PoolsTo, TellsPooling};

use crate::counting::Counted;
use crate::documents::{Taken, all_taken, lent, push_lines, read_texts, told_lines};
use crate::faults::{FilesRefusal, Reason, RunFault};
use crate::pages::pages;
use crate::writing::write_text;
use std::alloc::{AllocError, Global};
use std::io::{Read, Write};
use t1_bytes::FILE_LIMIT;
use t1_document::{Key, pool_document, push_document};

/// How documents are pooled.
#[derive(Clone, Copy)]
pub struct Pooling {
    /// Names that are equal without their tags have one font.
    pub tags: bool,
    /// The documents become one document whose pages stand by themselves; else they stand one behind the other.
    pub dsc: bool,
}

/// Documents as one text, with each font once.
#[derive(Drop)]
pub struct Pooled {
    /// The documents, one behind the other.
    pub text: Vec<u8>,
    /// Lines of the names, and of the families, that keep their fonts.
    pub kept: Vec<u8>,
}

// The documents, one behind the other.
fn one_text(alloc: Global, documents: &[&[u8]]) -> Result<Vec<u8>, Reason>
    ensures text { IfOk result (λ t. t.items ≡ one_text (lent documents.now)) }
    ensures short { IfOk result (λ t. length t.items ≤ file_limit) }
    ensures refused { IfErr result (λ e. (tags : Bool) → MayRefuse (PoolsBehind tags (lent documents.now)) e) }
{
    let mut text = Vec::new(alloc);
    'documents: for document in documents {
        push_document(&mut text, *document)?;
        if text.len() > FILE_LIMIT {
            return Err(Reason::TooLong);
        }
    }
    Ok(text)
}

// A text with the fonts of each key once, and the lines of those that keep theirs.
#[derive(Drop)]
struct Told {
    text: Vec<u8>,
    lines: Vec<Vec<u8>>,
}

// A text with the fonts of each key once.
fn pool_keys(alloc: Global, by: Key, text: &[u8]) -> Result<Told, AllocError>
    ensures text { IfOk result (λ t. PooledByKeys by text.now t.text.items) }
    ensures lines { IfOk result (λ t. TellsKeys by text.now (map (λ l. l.items) t.lines.items)) }
{
    let pooled = pool_document(alloc, by, text)?;
    let lines = told_lines(
        alloc,
        pooled.left.as_slice(),
        pooled.places.as_slice(),
        &pooled.joins,
    )?;
    Ok(Told {
        text: pooled.text,
        lines,
    })
}

// A text with each font once: one for each name, and then also one for names that are equal without their tags.
fn pool_text(alloc: Global, tags: bool, text: Vec<u8>) -> Result<Pooled, AllocError>
    ensures text { IfOk result (λ p. PooledAs tags text.items p.text.items) }
    ensures kept { IfOk result (λ p. TellsPooled tags text.items p.kept.items) }
{
    let names = pool_keys(alloc, Key::Name, text.as_slice())?;
    drop(text);
    let mut kept = Vec::new(alloc);
    push_lines(alloc, &mut kept, &[], names.lines.as_slice())?;
    if !tags {
        return Ok(Pooled {
            text: names.text,
            kept,
        });
    }
    let families = pool_keys(alloc, Key::Family, names.text.as_slice())?;
    push_lines(
        alloc,
        &mut kept,
        names.lines.as_slice(),
        families.lines.as_slice(),
    )?;
    Ok(Pooled {
        text: families.text,
        kept,
    })
}

// Documents one behind the other, with each font once.
fn pool_behind(alloc: Global, tags: bool, documents: &[&[u8]]) -> Result<Pooled, Reason>
    ensures text { IfOk result (λ p. PoolsBehind tags (lent documents.now) (Ok p.text.items)) }
    ensures kept { IfOk result (λ p. TellsPooled tags (one_text (lent documents.now)) p.kept.items) }
    ensures refused { IfErr result (MayRefuse (PoolsBehind tags (lent documents.now))) }
{
    let text = match one_text(alloc, documents) {
        Ok(text) => text,
        Err(reason) => return Err(reason),
    };
    Ok(pool_text(alloc, tags, text)?)
}

// Documents with each font once.
fn pool(alloc: Global, how: Pooling, documents: &[&[u8]]) -> Result<Pooled, Reason>
    ensures text { IfOk result (λ p. PoolsTo how (lent documents.now) (Ok p.text.items)) }
    ensures kept { IfOk result (λ p. TellsPooling how (lent documents.now) p.kept.items) }
    ensures refused { IfErr result (MayRefuse (PoolsTo how (lent documents.now))) }
{
    if how.dsc {
        pages(alloc, how.tags, documents)
    } else {
        pool_behind(alloc, how.tags, documents)
    }
}

// Documents that are owned, one behind the other.
fn joined(alloc: Global, documents: &[Vec<u8>]) -> Result<Vec<u8>, Reason>
    ensures text { IfOk result (λ t. t.items ≡ one_text (map (λ d. d.items) documents.now)) }
    ensures short { IfOk result (λ t. length t.items ≤ file_limit) }
    ensures refused { IfErr result (λ e. (tags : Bool) → MayRefuse (PoolsBehind tags (map (λ d. d.items) documents.now)) e) }
{
    let documents = lent(alloc, documents)?;
    one_text(alloc, documents.as_slice())
}

// Documents one behind the other, with each font once. They are dropped before they are pooled.
fn pool_behind_owned(alloc: Global, tags: bool, documents: Vec<Vec<u8>>) -> Result<Pooled, Reason>
    ensures text { IfOk result (λ p. PoolsBehind tags (map (λ d. d.items) documents.items) (Ok p.text.items)) }
    ensures kept { IfOk result (λ p. TellsPooled tags (one_text (map (λ d. d.items) documents.items)) p.kept.items) }
    ensures refused { IfErr result (MayRefuse (PoolsBehind tags (map (λ d. d.items) documents.items))) }
{
    let text = match joined(alloc, documents.as_slice()) {
        Ok(text) => text,
        Err(reason) => return Err(reason),
    };
    drop(documents);
    Ok(pool_text(alloc, tags, text)?)
}

// Documents that are owned as one document with each font once.
fn pages_owned(alloc: Global, tags: bool, documents: Vec<Vec<u8>>) -> Result<Pooled, Reason>
    ensures text { IfOk result (λ p. PagesTo tags (map (λ d. d.items) documents.items) (Ok p.text.items)) }
    ensures kept { IfOk result (λ p. TellsPaged tags (map (λ d. d.items) documents.items) p.kept.items) }
    ensures refused { IfErr result (MayRefuse (PagesTo tags (map (λ d. d.items) documents.items))) }
{
    let all = lent(alloc, documents.as_slice())?;
    pages(alloc, tags, all.as_slice())
}

// Documents that are owned, with each font once.
fn pool_owned(alloc: Global, how: Pooling, documents: Vec<Vec<u8>>) -> Result<Pooled, Reason>
    ensures text { IfOk result (λ p. PoolsTo how (map (λ d. d.items) documents.items) (Ok p.text.items)) }
    ensures kept { IfOk result (λ p. TellsPooling how (map (λ d. d.items) documents.items) p.kept.items) }
    ensures refused { IfErr result (MayRefuse (PoolsTo how (map (λ d. d.items) documents.items))) }
{
    if how.dsc {
        pages_owned(alloc, how.tags, documents)
    } else {
        pool_behind_owned(alloc, how.tags, documents)
    }
}

/// Documents in memory with each font once, and a line for each name that keeps its fonts, as [`run_pool`] has them.
///
/// # Errors
///
/// [`Reason::TooLong`] or [`Reason::Document`] with the place of the first file that is over the file limit or carries no document, and
/// [`Reason::TooLong`] without a place if all documents together, or the one document that they become, are over it; [`Reason::Memory`]
/// if a growth was refused.
pub fn pool_files(alloc: Global, how: Pooling, documents: &[&[u8]]) -> Result<Pooled, FilesRefusal>
    ensures text { IfOk result (λ p. OfFiles text_input (PoolsTo how) (lent documents.now) (Ok p.text.items)) }
    ensures kept { IfOk result (λ p. SaidBy text_input (λ ds. TellsPooling how ds p.kept.items) (lent documents.now)) }
    ensures refused { IfErr result (RefusesFiles text_input (PoolsTo how) (lent documents.now)) }
{
    let carried = match all_taken(alloc, Taken::Document, documents) {
        Ok(carried) => carried,
        Err(refusal) => return Err(refusal),
    };
    match pool(alloc, how, carried.as_slice()) {
        Ok(pooled) => Ok(pooled),
        Err(reason) => Err(FilesRefusal {
            place: None,
            reason,
        }),
    }
}

// Writes the documents that readers have with each font once.
fn write_pooled<R: Read, W: Write>(
    alloc: Global,
    how: Pooling,
    readers: &mut [Counted<R>],
    writer: &mut Counted<W>,
) -> Result<Vec<u8>, RunFault>
    ensures ends { RunEnds text_input (PoolsTo how) W.contents
        (inputs_of R.remaining readers.old readers.new) writer.old writer.new (ended result) }
    ensures told { IfOk result (λ lines. IfSome (values_of text_input (inputs_of R.remaining readers.old readers.new))
        (λ documents. TellsPooling how documents lines.items)) }
    ensures turns { InTurns readers.old readers.new }
{
    let documents = match read_texts(alloc, Taken::Document, readers) {
        Ok(documents) => documents,
        Err(fault) => return Err(fault),
    };
    let pooled = match pool_owned(alloc, how, documents) {
        Ok(pooled) => pooled,
        Err(reason) => return Err(RunFault::Refused(reason)),
    };
    match write_text(writer, pooled.text.as_slice()) {
        Ok(()) => Ok(pooled.kept),
        Err(fault) => Err(fault),
    }
}

/// Writes documents with each font once, and answers a line for each name that keeps its fonts.
///
/// The documents stand one behind the other, with an LF between two where no line ends there. The fonts of a name stand once, before the
/// first document, and each place of the name has a line by which it finds them ([`pool_document`](t1_document::pool_document) by
/// [`Key::Name`](t1_document::Key::Name)). With [`Pooling::tags`] what comes out is pooled once more, by families
/// ([`Key::Family`](t1_document::Key::Family)): names that are equal without their tags have one font.
///
/// With [`Pooling::dsc`] they become one document that conforms to Adobe's Document Structuring Conventions 3.0: one header with the
/// number of pages, one prolog, one setup with the fonts, each document's pages under new numbers, and one trailer. Each page stands by
/// itself, behind its own document's prolog and setup, between `save` and `restore` ([`join_pages`](t1_dsc::join_pages)); so it can be
/// printed alone, in any order. The fonts of a name stand in the setup also where it has one place, since a document's prolog is run
/// for each page ([`pool_apart`](t1_document::pool_apart)). With tags those of families come first, and then those of names that still
/// have font texts. A document without pages by its comments is one page, and a line says so.
///
/// A name keeps its fonts if they don't rejoin, or if they do and can't stand before the documents, or a line can't stand at a place.
/// With tags there are lines of the families that keep theirs, too, but no line stands twice.
///
/// A file may carry its document in a print job or in an EPS file for DOS ([`job_of`](t1_jobs::job_of)); what stands around it is left
/// out.
///
/// The inputs are read one after the other. [`Reason::TooLong`] is answered if one of them, or what they become, is over the file
/// limit, and [`Reason::Document`] if one carries no document. Nothing else is refused but for want of memory.
pub fn run_pool<R: Read, W: Write>(
    alloc: Global,
    how: Pooling,
    readers: &mut [Counted<R>],
    writer: &mut Counted<W>,
) -> Result<Vec<u8>, RunFault>
    ensures ends { RunEnds text_input (PoolsTo how) W.contents
        (inputs_of R.remaining readers.old readers.new) writer.old writer.new (ended result) }
    ensures succeeds { Succeeds text_input (PoolsTo how)
        (inputs_of R.remaining readers.old readers.new) writer.old writer.new (ended result) }
    ensures told { IfOk result (λ lines. IfSome (values_of text_input (inputs_of R.remaining readers.old readers.new))
        (λ documents. TellsPooling how documents lines.items)) }
    ensures turns { InTurns readers.old readers.new }
{
    write_pooled(alloc, how, readers, writer)
}
