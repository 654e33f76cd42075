//! Documents as one document, whose pages stand by themselves, with each font once.
ghost use Rattle.std.specs.Prelude.{Bool, ℕ, List, [], ◌≡◌, ◌++◌, ◌+◌, ◌≤◌, length, true, false, map, codes, decimal, Ok, IfOk, IfErr, OnOk};
ghost use Rattle.t1_subset.specs.NameSets.{lent};
ghost use Rattle.t1_document.specs.{declared.entries.Least.TheVariants.{One}, declared.pooling.Key.TheVariants.{Name}, Apart.{PooledApartBy}};
ghost use Rattle.t1_bytes.specs.Limits.{file_limit};
ghost use Rattle.t1_dsc.specs.{Joining.{pages_told, joined_pages}, Limits.{IsOver}};
ghost use Rattle.t1_cmd.specs.Answers.{MayRefuse};
ghost use Rattle.t1_cmd.specs.Pages.{PooledApartAs, PagedAs, PagesTo, TellsApart, whole_line, whole_lines, TellsKept, TellsPaged};

use crate::documents::{lent, push_lines, told_lines};
use crate::faults::Reason;
use crate::pools::Pooled;
use crate::texts::push_about;
use std::alloc::{AllocError, Global};
use t1_bytes::FILE_LIMIT;
use t1_document::{Key, Least, pool_apart};
use t1_dsc::{JoinedPages, PagesFault, join_pages};

// Documents, the fonts that they have apart, and the lines of the keys that keep theirs.
#[derive(Drop)]
struct Apart {
    fonts: Vec<u8>,
    documents: Vec<Vec<u8>>,
    lines: Vec<Vec<u8>>,
}

// Documents with the fonts of each key apart.
fn keys_apart(alloc: Global, by: Key, documents: &[&[u8]]) -> Result<Apart, AllocError>
    ensures apart { IfOk result
        (λ a. PooledApartBy One by (lent documents.now) a.fonts.items (map (λ d. d.items) a.documents.items)) }
    ensures lines { IfOk result (λ a. TellsApart by (lent documents.now) (map (λ l. l.items) a.lines.items)) }
{
    let pooled = pool_apart(alloc, by, Least::One, documents)?;
    let lines = told_lines(
        alloc,
        pooled.left.as_slice(),
        pooled.places.as_slice(),
        &pooled.joins,
    )?;
    Ok(Apart {
        fonts: pooled.fonts,
        documents: pooled.documents,
        lines,
    })
}

// Documents, the fonts that they have apart, and the lines of the names and families that keep theirs.
#[derive(Drop)]
struct Separated {
    fonts: Vec<u8>,
    documents: Vec<Vec<u8>>,
    kept: Vec<u8>,
}

// Documents with the fonts of each name apart.
fn names_apart(alloc: Global, documents: &[&[u8]]) -> Result<Separated, AllocError>
    ensures apart { IfOk result
        (λ s. PooledApartAs false (lent documents.now) s.fonts.items (map (λ d. d.items) s.documents.items)) }
    ensures kept { IfOk result (λ s. TellsKept false (lent documents.now) s.kept.items) }
{
    let names = keys_apart(alloc, Key::Name, documents)?;
    let mut kept = Vec::new(alloc);
    push_lines(alloc, &mut kept, &[], names.lines.as_slice())?;
    Ok(Separated {
        fonts: names.fonts,
        documents: names.documents,
        kept,
    })
}

// The fonts of each name that are left in documents whose families stand apart.
fn left_apart(alloc: Global, families: &Apart) -> Result<Apart, AllocError>
    ensures apart { IfOk result (λ a. PooledApartBy One Name
        (map (λ d. d.items) families.now.documents.items) a.fonts.items (map (λ d. d.items) a.documents.items)) }
    ensures lines { IfOk result (λ a. TellsApart Name
        (map (λ d. d.items) families.now.documents.items) (map (λ l. l.items) a.lines.items)) }
{
    let documents = lent(alloc, families.documents.as_slice())?;
    keys_apart(alloc, Key::Name, documents.as_slice())
}

// Documents with the fonts of each family apart, and then those of each name.
fn families_apart(alloc: Global, documents: &[&[u8]]) -> Result<Separated, AllocError>
    ensures apart { IfOk result
        (λ s. PooledApartAs true (lent documents.now) s.fonts.items (map (λ d. d.items) s.documents.items)) }
    ensures kept { IfOk result (λ s. TellsKept true (lent documents.now) s.kept.items) }
{
    let families = keys_apart(alloc, Key::Family, documents)?;
    let names = left_apart(alloc, &families)?;
    let mut kept = Vec::new(alloc);
    push_lines(alloc, &mut kept, &[], families.lines.as_slice())?;
    push_lines(
        alloc,
        &mut kept,
        families.lines.as_slice(),
        names.lines.as_slice(),
    )?;
    let mut fonts = families.fonts;
    fonts.extend_from_slice(names.fonts.as_slice())?;
    Ok(Separated {
        fonts,
        documents: names.documents,
        kept,
    })
}

// Documents with their fonts apart.
fn separate(alloc: Global, tags: bool, documents: &[&[u8]]) -> Result<Separated, AllocError>
    ensures apart { IfOk result
        (λ s. PooledApartAs tags (lent documents.now) s.fonts.items (map (λ d. d.items) s.documents.items)) }
    ensures kept { IfOk result (λ s. TellsKept tags (lent documents.now) s.kept.items) }
{
    if tags {
        families_apart(alloc, documents)
    } else {
        names_apart(alloc, documents)
    }
}

// Adds what is told of a document of this number that is one page.
fn push_told(out: &mut Vec<u8>, number: usize) -> Result<(), AllocError>
    ensures { OnOk result (out.new.items ≡ out.old.items ++ (codes "document " ++ (decimal number
        ++ codes " has no pages by its comments: it is one page\n"))) }
{
    push_about(out, b"document ", number)?;
    out.extend_from_slice(b" has no pages by its comments: it is one page\n")?;
    Ok(())
}

// Adds the line of a document of this number that has so many pages.
fn push_whole(out: &mut Vec<u8>, number: usize, pages: usize) -> Result<(), AllocError>
    ensures { OnOk result (out.new.items ≡ out.old.items ++ whole_line number pages) }
{
    if pages == 0 {
        return push_told(out, number);
    }
    Ok(())
}

// Adds the lines of documents that have so many pages.
fn push_wholes(out: &mut Vec<u8>, pages: &[usize]) -> Result<(), AllocError>
    ensures { OnOk result (out.new.items ≡ out.old.items ++ whole_lines 1 pages.now) }
{
    'documents: for i in 0..pages.len() {
        push_whole(out, i + 1, pages[i])?;
    }
    Ok(())
}

// Why documents aren't joined, as a reason.
fn reason_of(fault: PagesFault) -> Reason
    ensures { (tags : Bool) (documents : List (List ℕ)) (out : List ℕ) → PagedAs tags documents out
        → IsOver file_limit out fault → MayRefuse (PagesTo tags documents) result }
{
    match fault {
        PagesFault::TooLong => Reason::TooLong,
        PagesFault::Memory => Reason::Memory,
    }
}

// Documents with their fonts apart as one document.
fn pages_of(alloc: Global, separated: &Separated) -> Result<JoinedPages, PagesFault>
    ensures text { IfOk result (λ j. j.text.items ≡ joined_pages separated.now.fonts.items (map (λ d. d.items) separated.now.documents.items)) }
    ensures pages { IfOk result (λ j. j.pages.items ≡ map pages_told (map (λ d. d.items) separated.now.documents.items)) }
    ensures short { IfOk result (λ j. length j.text.items ≤ file_limit) }
    ensures over { IfErr result (IsOver file_limit (joined_pages separated.now.fonts.items (map (λ d. d.items) separated.now.documents.items))) }
{
    let documents = lent(alloc, separated.documents.as_slice())?;
    join_pages(
        alloc,
        separated.fonts.as_slice(),
        documents.as_slice(),
        FILE_LIMIT,
    )
}

// Documents as one document with each font once.
pub(crate) fn pages(alloc: Global, tags: bool, documents: &[&[u8]]) -> Result<Pooled, Reason>
    ensures text { IfOk result (λ p. PagesTo tags (lent documents.now) (Ok p.text.items)) }
    ensures kept { IfOk result (λ p. TellsPaged tags (lent documents.now) p.kept.items) }
    ensures refused { IfErr result (MayRefuse (PagesTo tags (lent documents.now))) }
{
    let separated = separate(alloc, tags, documents)?;
    let joined = match pages_of(alloc, &separated) {
        Ok(joined) => joined,
        Err(fault) => return Err(reason_of(fault)),
    };
    let mut kept = separated.kept;
    push_wholes(&mut kept, joined.pages.as_slice())?;
    Ok(Pooled {
        text: joined.text,
        kept,
    })
}
