//! Documents as one.

ghost use Rattle.std.specs.Prelude.{◌≡◌, ◌++◌, ◌+◌, ◌≤◌, length, map, IfOk, IfErr, OnOk};
ghost use Rattle.t1_dsc.specs.Limits.{IsOver};
ghost use Rattle.t1_dsc.specs.Joining.{count_in, page_count, told_in, pages_told, bytes_in, document_bytes, documents_bytes, total, header, prolog, quiet_in, quieted, setup, joined_pages};

use crate::fault::PagesFault;
use crate::lines::read_lines;
use crate::names::{names_start, push_procedures};
use crate::pages::{Frame, push_number, push_pages, sum};
use crate::parts::{behind_header, has_pages, parts_of};
use crate::quiet::{push_closing, push_quiet};
use crate::whole::{is_ended, with_end};
use std::alloc::{AllocError, Global};

/// Documents as one.
#[derive(Drop)]
pub struct JoinedPages {
    /// The text of the one document.
    pub text: Vec<u8>,
    /// How many pages each document has: none where it has no pages by its comments, so that it is one page whole.
    pub pages: Vec<usize>,
}

/// How many pages a document becomes, and how many it has.
#[derive(Clone, Copy)]
struct PageCount {
    becomes: usize,
    told: usize,
}

/// How many pages documents become together, and how many each of them has.
#[derive(Drop)]
struct PageCounts {
    total: usize,
    told: Vec<usize>,
}

/// Counts the pages of a text of whole lines.
fn count_in(alloc: Global, text: &[u8]) -> Result<PageCount, AllocError>
    ensures becomes { IfOk result (λ c. c.becomes ≡ count_in text.now) }
    ensures told { IfOk result (λ c. c.told ≡ told_in text.now) }
{
    let read = read_lines(alloc, text)?;
    let lines = behind_header(read.lines.as_slice());
    let parts = parts_of(alloc, lines)?;
    let becomes = parts.pages.len();
    let told = if has_pages(lines) { becomes } else { 0 };
    Ok(PageCount { becomes, told })
}

/// Counts the pages of a document.
fn count_pages(alloc: Global, document: &[u8]) -> Result<PageCount, AllocError>
    ensures becomes { IfOk result (λ c. c.becomes ≡ page_count document.now) }
    ensures told { IfOk result (λ c. c.told ≡ pages_told document.now) }
{
    if is_ended(document) {
        return count_in(alloc, document);
    }
    let whole = with_end(alloc, document)?;
    count_in(alloc, whole.as_slice())
}

/// Counts the pages of documents.
fn count_all(alloc: Global, documents: &[&[u8]]) -> Result<PageCounts, AllocError>
    ensures total { IfOk result (λ c. c.total ≡ total (map (λ d. d.now) documents.now)) }
    ensures told { IfOk result (λ c. c.told.items ≡ map pages_told (map (λ d. d.now) documents.now)) }
{
    let mut total = 0;
    let mut told = Vec::new(alloc);
    'documents: for document in documents {
        let count = count_pages(alloc, *document)?;
        total = sum(total, count.becomes)?;
        told.push(count.told)?;
    }
    Ok(PageCounts { total, told })
}

/// Adds the pages of a text of whole lines, numbered from this number on, and tells the number behind theirs. No page is begun
/// behind so many bytes.
#[tactic(auto, unfolding(crate::specs::Joining::bytes_in))]
fn push_in(
    alloc: Global,
    out: &mut Vec<u8>,
    start: &[u8],
    first: usize,
    text: &[u8],
    limit: usize,
) -> Result<usize, PagesFault>
    ensures next { IfOk result (λ n. n ≡ first + count_in text.now) }
    ensures bytes { OnOk result (out.new.items ≡ out.old.items ++ bytes_in start.now first text.now) }
    ensures over { IfErr result (IsOver limit (out.old.items ++ bytes_in start.now first text.now)) }
{
    let read = read_lines(alloc, text)?;
    let parts = parts_of(alloc, behind_header(read.lines.as_slice()))?;
    let mut head = Vec::new(alloc);
    push_quiet(&mut head, parts.head)?;
    let mut tail = Vec::new(alloc);
    push_quiet(&mut tail, parts.trailer)?;
    push_closing(&mut tail, read.state)?;
    let frame = Frame {
        head: head.as_slice(),
        tail: tail.as_slice(),
    };
    push_pages(out, start, frame, first, parts.pages.as_slice(), limit)
}

/// Adds the pages of a document, numbered from this number on, and tells the number behind theirs. No page is begun behind so many
/// bytes.
fn push_document(
    alloc: Global,
    out: &mut Vec<u8>,
    start: &[u8],
    first: usize,
    document: &[u8],
    limit: usize,
) -> Result<usize, PagesFault>
    ensures next { IfOk result (λ n. n ≡ first + page_count document.now) }
    ensures bytes { OnOk result (out.new.items ≡ out.old.items ++ document_bytes start.now first document.now) }
    ensures over { IfErr result (IsOver limit (out.old.items ++ document_bytes start.now first document.now)) }
{
    if is_ended(document) {
        return push_in(alloc, out, start, first, document, limit);
    }
    let whole = with_end(alloc, document)?;
    push_in(alloc, out, start, first, whole.as_slice(), limit)
}

/// Adds the pages of documents. No page is begun behind so many bytes.
fn push_documents(
    alloc: Global,
    out: &mut Vec<u8>,
    start: &[u8],
    documents: &[&[u8]],
    limit: usize,
) -> Result<(), PagesFault>
    ensures bytes { OnOk result (out.new.items ≡ out.old.items ++ documents_bytes start.now 1 (map (λ d. d.now) documents.now)) }
    ensures over { IfErr result (IsOver limit (out.old.items ++ documents_bytes start.now 1 (map (λ d. d.now) documents.now))) }
{
    let mut first = 1;
    'documents: for document in documents {
        first = match push_document(alloc, out, start, first, *document, limit) {
            Ok(next) => next,
            Err(fault) => return Err(fault),
        };
    }
    Ok(())
}

/// Adds the header and the prolog.
#[tactic(auto, unfolding(crate::specs::Joining::header, crate::specs::Joining::prolog))]
fn push_header(out: &mut Vec<u8>, start: &[u8], pages: usize) -> Result<(), AllocError>
    ensures { OnOk result (out.new.items ≡ out.old.items ++ (header pages ++ prolog start.now)) }
{
    out.extend_from_slice(b"%!PS-Adobe-3.0\n%%Pages: ")?;
    push_number(out, pages)?;
    out.extend_from_slice(b"\n%%EndComments\n")?;
    out.extend_from_slice(b"%%BeginProlog\n")?;
    push_procedures(out, start)?;
    out.extend_from_slice(b"%%EndProlog\n")
}

/// Adds a text of whole lines, of which none is structure, and what ends what it leaves open.
#[tactic(auto, unfolding(crate::specs::Joining::quiet_in))]
fn push_quiet_in(alloc: Global, out: &mut Vec<u8>, text: &[u8]) -> Result<(), AllocError>
    ensures { OnOk result (out.new.items ≡ out.old.items ++ quiet_in text.now) }
{
    let read = read_lines(alloc, text)?;
    push_quiet(out, read.lines.as_slice())?;
    push_closing(out, read.state)
}

/// Adds a text that is made such.
fn push_quieted(alloc: Global, out: &mut Vec<u8>, text: &[u8]) -> Result<(), AllocError>
    ensures { OnOk result (out.new.items ≡ out.old.items ++ quieted text.now) }
{
    if is_ended(text) {
        return push_quiet_in(alloc, out, text);
    }
    let whole = with_end(alloc, text)?;
    push_quiet_in(alloc, out, whole.as_slice())
}

/// Adds the setup, with the fonts.
fn push_setup(alloc: Global, out: &mut Vec<u8>, fonts: &[u8]) -> Result<(), AllocError>
    ensures { OnOk result (out.new.items ≡ out.old.items ++ setup fonts.now) }
{
    out.extend_from_slice(b"%%BeginSetup\n")?;
    push_quieted(alloc, out, fonts)?;
    out.extend_from_slice(b"%%EndSetup\n")?;
    Ok(())
}

/// Adds what stands before the pages.
fn push_front(
    alloc: Global,
    out: &mut Vec<u8>,
    start: &[u8],
    pages: usize,
    fonts: &[u8],
) -> Result<(), AllocError>
    ensures { OnOk result (out.new.items ≡ out.old.items ++ (header pages ++ (prolog start.now ++ setup fonts.now))) }
{
    push_header(out, start, pages)?;
    push_setup(alloc, out, fonts)
}

/// A text, if it isn't longer than this.
fn within(text: Vec<u8>, limit: usize) -> Result<Vec<u8>, PagesFault>
    ensures text { IfOk result (λ t. t.items ≡ text.items) }
    ensures short { IfOk result (λ t. length t.items ≤ limit) }
    ensures over { IfErr result (IsOver limit text.items) }
{
    if text.len() > limit {
        return Err(PagesFault::TooLong);
    }
    Ok(text)
}

/// Documents as one, whose setup begins with `fonts`.
///
/// # Errors
///
/// [`PagesFault::TooLong`] if it would have more bytes than `limit`: then few more than these are written. [`PagesFault::Memory`] if a
/// growth was refused.
#[tactic(auto, unfolding(crate::specs::Joining::joined_pages))]
pub fn join_pages(
    alloc: Global,
    fonts: &[u8],
    documents: &[&[u8]],
    limit: usize,
) -> Result<JoinedPages, PagesFault>
    ensures text { IfOk result (λ j. j.text.items ≡ joined_pages fonts.now (map (λ d. d.now) documents.now)) }
    ensures pages { IfOk result (λ j. j.pages.items ≡ map pages_told (map (λ d. d.now) documents.now)) }
    ensures short { IfOk result (λ j. length j.text.items ≤ limit) }
    ensures over { IfErr result (IsOver limit (joined_pages fonts.now (map (λ d. d.now) documents.now))) }
{
    let start = names_start(alloc, fonts, documents)?;
    let counts = count_all(alloc, documents)?;
    let mut text = Vec::new(alloc);
    push_front(alloc, &mut text, start.as_slice(), counts.total, fonts)?;
    push_documents(alloc, &mut text, start.as_slice(), documents, limit)?;
    text.extend_from_slice(b"%%Trailer\n%%EOF\n")?;
    let text = within(text, limit)?;
    Ok(JoinedPages {
        text,
        pages: counts.told,
    })
}
