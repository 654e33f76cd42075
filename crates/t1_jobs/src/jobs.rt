//! The document that a file carries, and what stands around it.

ghost use Rattle.std.specs.{Prelude.{◌≡◌, ◌++◌, Ok, Err, IfOk, MatchResult}};
ghost use Rattle.t1_jobs.specs.{Jobs.{job_with, job_behind, in_job, job_of, job_around, job_with_document, dos_or_postscript, dos_with_document, with_document}};
ghost use Rattle.t1_jobs.specs.{Dos.{dos_postscript}, Views.{job_view}};

use crate::dos::{DOS_MARK, dos_postscript, with_postscript};
use crate::kinds::{FileKind, begins_with, file_kind};
use crate::words::{behind_words, document_len};
use std::alloc::{AllocError, Global};
use std::fmt;

/// The document that a file carries, and how many bytes stand before it and behind it in its job: the words of a printer.
#[derive(Clone, Copy)]
pub struct Job<'a> {
    /// The document.
    pub document: &'a [u8],
    /// How many bytes stand before it.
    pub before: usize,
    /// How many bytes stand behind it.
    pub behind: usize,
}

/// Why a file carries no document.
#[derive(Clone, Copy, Debug, PartialEq, Eq)]
pub enum NoDocument {
    /// It doesn't begin with `%!`: what it is.
    IsA(FileKind),
    /// It is an EPS file for DOS that lacks the PostScript which its header speaks of.
    BadHeader,
    /// Behind the end of a job inside it something else begins.
    JobEnds,
}

impl fmt::Display for NoDocument {
    ghost use Rattle.std.specs.Prelude.{Some};
    ghost use Rattle.t1_jobs.specs.Jobs.{no_document_text};

    ghost output = { λ why. Some (no_document_text why) };

    fn fmt<W: fmt::Write>(&self, f: &mut fmt::Formatter<W>) -> fmt::Result {
        match self {
            NoDocument::IsA(kind) => write!(f, "no document: {kind}"),
            NoDocument::BadHeader => f.write_str(
                "no document: an EPS file for DOS without its PostScript",
            ),
            NoDocument::JobEnds => f.write_str("no document: a job ends inside"),
        }
    }
}

/// The document of a job that begins with words before this text.
fn job_behind<'a>(job: &[u8], text: &'a [u8]) -> Result<Job<'a>, NoDocument>
    ensures { MatchResult result (λ c. Ok (job_view c) ≡ job_behind job.now text.entry.now)
        (λ e. Err e ≡ job_behind job.now text.entry.now) }
{
    if !begins_with(b"%!", text) {
        return Err(NoDocument::IsA(file_kind(text)));
    }
    match document_len(text) {
        Some(len) => {
            let (document, rest) = text.split_at(len);
            Ok(Job {
                document,
                before: job.len().saturating_sub(text.len()),
                behind: rest.len(),
            })
        }
        None => Err(NoDocument::JobEnds),
    }
}

/// The document of a job.
fn in_job(job: &[u8]) -> Result<Job<'_>, NoDocument>
    ensures { MatchResult result (λ c. Ok (job_view c) ≡ in_job job.now) (λ e. Err e ≡ in_job job.now) }
{
    job_behind(job, behind_words(job))
}

/// The document that a file carries.
///
/// A document begins with `%!`. Before it may stand words of a printer: ^D, the universal exit `ESC %-12345X`, lines of PJL, and
/// ends of lines; and behind it the same, of which the first is ^D or the universal exit. In an EPS file for DOS, which begins with
/// a header of 30 bytes, the document is in the part that the header names.
///
/// # Errors
///
/// [`NoDocument::BadHeader`] if an EPS file for DOS lacks that part; else [`NoDocument::IsA`] if behind the words no `%!` comes,
/// with what comes there; else [`NoDocument::JobEnds`] if inside stands the universal exit, or ^D and other words and behind them
/// another `%!`.
pub fn job_of(file: &[u8]) -> Result<Job<'_>, NoDocument>
    ensures { MatchResult result (λ c. Ok (job_view c) ≡ job_of file.now) (λ e. Err e ≡ job_of file.now) }
{
    if !begins_with(DOS_MARK, file) {
        return in_job(file);
    }
    match dos_postscript(file) {
        Some(job) => in_job(job),
        None => Err(NoDocument::BadHeader),
    }
}

/// A job with this document in place of its own.
fn job_around(
    alloc: Global,
    bytes: &[u8],
    document: &[u8],
    job: Job<'_>,
) -> Result<Vec<u8>, AllocError>
    ensures { IfOk result (λ v. v.items ≡ job_around bytes.now document.now (job_view job.entry)) }
{
    let mut out = Vec::new(alloc);
    let (before, _) = bytes.split_at(job.before.min(bytes.len()));
    let (_, behind) = bytes.split_at(bytes.len().saturating_sub(job.behind));
    out.extend_from_slice(before)?;
    out.extend_from_slice(document)?;
    out.extend_from_slice(behind)?;
    Ok(out)
}

/// A job that carries this document in place of its own.
fn job_with_document(alloc: Global, bytes: &[u8], document: &[u8]) -> Result<Vec<u8>, AllocError>
    ensures { IfOk result (λ v. v.items ≡ job_with_document bytes.now document.now) }
{
    match in_job(bytes) {
        Ok(job) => job_around(alloc, bytes, document, job),
        Err(_) => Vec::from_slice(alloc, document),
    }
}

/// An EPS file for DOS with this PostScript, or the PostScript alone.
fn dos_or_postscript(alloc: Global, file: &[u8], postscript: Vec<u8>) -> Result<Vec<u8>, AllocError>
    ensures { IfOk result (λ v. v.items ≡ dos_or_postscript file.now postscript.items) }
{
    match with_postscript(alloc, file, postscript.as_slice())? {
        Some(made) => Ok(made),
        None => Ok(postscript),
    }
}

/// An EPS file for DOS whose PostScript carries this document in place of its own.
fn dos_with_document(alloc: Global, file: &[u8], document: &[u8]) -> Result<Vec<u8>, AllocError>
    ensures { IfOk result (λ v. v.items ≡ dos_with_document file.now document.now (dos_postscript file.now)) }
{
    match dos_postscript(file) {
        Some(job) => dos_or_postscript(alloc, file, job_with_document(alloc, job, document)?),
        None => Vec::from_slice(alloc, document),
    }
}

/// A file that carries this document in place of its own; what stands around it stays.
///
/// It is the document alone if the file carries none ([`job_of`]). Of an EPS file for DOS whose PostScript would be longer than its
/// header can say, more than 2^32 bytes, the PostScript is left.
pub fn with_document(alloc: Global, file: &[u8], document: &[u8]) -> Result<Vec<u8>, AllocError>
    ensures { IfOk result (λ v. v.items ≡ with_document file.now document.now) }
{
    if begins_with(DOS_MARK, file) {
        dos_with_document(alloc, file, document)
    } else {
        job_with_document(alloc, file, document)
    }
}
