//! The command `fonts`: the places of fonts in documents, and what becomes of the fonts of each name.
ghost use Rattle.std.specs.{Prelude.{◌≡◌, ◌++◌, [], map, filter, get_or, length, Ok, IfOk, IfErr, OnOk}, Option.{option_copied}};
ghost use Rattle.t1_font.specs.ReadFont.{read_font_widely};
ghost use Rattle.t1_subset.specs.NameSets.{lent};
ghost use Rattle.t1_document.specs.{Documents.{document_of}, Groups.{outcome_in}, Views.{place_view, document_view}};
ghost use Rattle.t1_cmd.specs.{Files.{OfFiles, RefusesFiles}, Mergers.{inputs_of, InTurns}, Runs.{RunEnds, Succeeds}, Documents.{text_input}};
ghost use Rattle.t1_cmd.specs.FontPlaces.{glyph_count, outcome_text, place_line, place_lines, document_lines, is_kept, count_line, ListsTo};
ghost use Rattle.std.specs.FinMap as fin;

use crate::counting::Counted;
use crate::document_commands::{DocumentsCommand, run_documents, text_of_documents};
use crate::documents::push_why;
use crate::faults::{FilesRefusal, Reason, RunFault};
use crate::texts::{push_about, push_number, push_shown};
use std::alloc::{AllocError, Global};
use std::io::{Read, Write};
use t1_document::{
    Document, Joins, Outcome, Place, all_places, join_fonts, names_of, read_documents,
};
use t1_font::Source;

// ---- a place

// How many glyphs the font of a source has.
fn glyphs_in(alloc: Global, source: &Source) -> Result<usize, AllocError>
    ensures { IfOk result (λ n. n ≡ fin.len source.now.glyphs) }
{
    let font = source.font(alloc)?;
    let count = font.glyphs().len();
    drop(font);
    Ok(count)
}

// How many glyphs the font of a place has.
fn glyphs_of(alloc: Global, place: &Place<'_>) -> Result<usize, AllocError>
    ensures { IfOk result (λ n. n ≡ glyph_count (read_font_widely place.now.text.now)) }
{
    match place.source(alloc) {
        Ok(source) => glyphs_in(alloc, &source),
        // The font of a place can be read, so this is want of memory.
        Err(_) => Err(AllocError),
    }
}

// What becomes of the fonts of a name.
fn push_outcome(
    alloc: Global,
    out: &mut Vec<u8>,
    outcome: Option<&Outcome<'_>>,
) -> Result<(), AllocError>
    ensures { OnOk result (out.new.items ≡ out.old.items ++ outcome_text (option_copied outcome.entry)) }
{
    match outcome {
        Some(Outcome::Stays(why)) => {
            out.extend_from_slice(b"kept: ")?;
            push_why(alloc, out, why)
        }
        _ => out.extend_from_slice(b"joined"),
    }
}

// The line of a place.
fn push_place(
    alloc: Global,
    out: &mut Vec<u8>,
    label: &[u8],
    at: usize,
    place: &Place<'_>,
    outcome: Option<&Outcome<'_>>,
) -> Result<(), AllocError>
    ensures { OnOk result (out.new.items
        ≡ out.old.items ++ place_line label.now at (place_view place.now) (option_copied outcome.entry)) }
{
    let glyphs = glyphs_of(alloc, place)?;
    out.extend_from_slice(label)?;
    push_about(out, b": ", at)?;
    out.extend_from_slice(b" ")?;
    push_shown(alloc, out, place.name)?;
    push_about(out, b" ", glyphs)?;
    push_about(out, b" ", place.depth)?;
    out.extend_from_slice(b" ")?;
    push_outcome(alloc, out, outcome)?;
    out.push(b'\n')?;
    Ok(())
}

// ---- documents

// The lines of the places of the document of a text. Each offset is within the text.
fn push_places(
    alloc: Global,
    out: &mut Vec<u8>,
    label: &[u8],
    text: &[u8],
    document: &Document<'_>,
    joins: &Joins<'_>,
) -> Result<(), AllocError>
    requires { document_view document.now ≡ document_of text.now }
    ensures { OnOk result (out.new.items
        ≡ out.old.items ++ place_lines (outcome_in joins.now) label.now 0 (document_of text.now).places) }
{
    let mut at = 0usize;
    'places: for place in document.places.as_slice() {
        push_place(
            alloc,
            out,
            label,
            place.text_offset(at),
            place,
            joins.get(place.name),
        )?;
        at = place.end_offset(at);
    }
    Ok(())
}

// The label of a document; it is empty behind the last one.
fn label_at<'a>(labels: &[&'a [u8]], i: usize) -> &'a [u8]
    ensures { result.now ≡ get_or (lent labels.now) i [] }
{
    if i < labels.len() { labels[i] } else { b"" }
}

// The lines of the places of the documents of texts.
fn push_documents(
    alloc: Global,
    out: &mut Vec<u8>,
    labels: &[&[u8]],
    texts: &[&[u8]],
    documents: &[Document<'_>],
    joins: &Joins<'_>,
) -> Result<(), AllocError>
    requires { map document_view documents.now ≡ map document_of (lent texts.now) }
    ensures { OnOk result (out.new.items
        ≡ out.old.items ++ document_lines (outcome_in joins.now) (lent labels.now) 0 (lent texts.now)) }
{
    'documents: for i in 0..documents.len() {
        push_places(
            alloc,
            out,
            label_at(labels, i),
            texts[i],
            &documents[i],
            joins,
        )?;
    }
    Ok(())
}

// ---- counts

// Whether a name keeps its fonts.
fn is_kept(outcome: Option<&Outcome<'_>>) -> bool
    ensures { result ≡ is_kept (option_copied outcome.entry) }
{
    matches!(outcome, Some(Outcome::Stays(_)))
}

// How many of some names keep their fonts.
fn kept_count(names: &[&[u8]], joins: &Joins<'_>) -> usize
    ensures { result ≡ length (filter (λ name. is_kept (outcome_in joins.now name)) (lent names.now)) }
{
    let mut kept = 0;
    'names: for name in names {
        if is_kept(joins.get(*name)) {
            kept += 1;
        }
    }
    kept
}

// The line that counts places.
fn push_counts(
    alloc: Global,
    out: &mut Vec<u8>,
    places: &[Place<'_>],
    joins: &Joins<'_>,
) -> Result<(), AllocError>
    ensures { OnOk result (out.new.items ≡ out.old.items ++ count_line (outcome_in joins.now) (map place_view places.now)) }
{
    let names = names_of(alloc, places)?;
    push_number(out, places.len())?;
    push_about(out, b" places, ", names.len())?;
    push_about(out, b" names, ", kept_count(names.as_slice(), joins))?;
    out.extend_from_slice(b" kept\n")?;
    Ok(())
}

// ---- the command

// The lines of the places of documents, and one that counts them.
fn fonts_text(alloc: Global, labels: &[&[u8]], texts: &[&[u8]]) -> Result<Vec<u8>, AllocError>
    ensures { IfOk result (λ text. ListsTo (lent labels.now) (lent texts.now) (Ok text.items)) }
{
    let documents = read_documents(alloc, texts)?;
    let places = all_places(alloc, documents.as_slice())?;
    let joins = join_fonts(alloc, places.as_slice())?;
    let mut text = Vec::new(alloc);
    push_documents(
        alloc,
        &mut text,
        labels,
        texts,
        documents.as_slice(),
        &joins,
    )?;
    push_counts(alloc, &mut text, places.as_slice(), &joins)?;
    Ok(text)
}

/// The command `fonts`, and the labels of the documents.
#[derive(Drop)]
pub(crate) struct Fonts<'a> {
    labels: &'a [&'a [u8]],
}

impl DocumentsCommand for Fonts<'_> {
    ghost Answers = { λ command. ListsTo (lent command.labels.now) };

    fn text(&self, alloc: Global, documents: &[&[u8]]) -> Result<Vec<u8>, Reason> {
        let text = fonts_text(alloc, self.labels, documents)?;
        Ok(text)
    }
}

/// A line for each place of a font of documents in memory, each read by itself, and one that counts them, as [`run_fonts`]
/// writes them.
///
/// # Errors
///
/// [`Reason::TooLong`] with the place of the first document that is over the file limit; [`Reason::Memory`] if a growth was
/// refused.
pub fn list_fonts(
    alloc: Global,
    labels: &[&[u8]],
    documents: &[&[u8]],
) -> Result<Vec<u8>, FilesRefusal>
    ensures text { IfOk result
        (λ text. OfFiles text_input (ListsTo (lent labels.now)) (lent documents.now) (Ok text.items)) }
    ensures refused { IfErr result (RefusesFiles text_input (ListsTo (lent labels.now)) (lent documents.now)) }
{
    text_of_documents(alloc, &Fonts { labels }, documents)
}

/// Writes a line for each place of a font of documents, in their order: the label of the document as it stands, a colon and a
/// blank; then, with a blank between, the offset of the font text in the document, the name of the font, how many glyphs the
/// font has, how many documents are open around the place, and `joined`, or `kept: ` and why the places of the name keep their
/// texts. The last line counts the places, their names, and the names that keep their fonts.
///
/// Each document is read by itself ([`read_document`](t1_document::read_document)), and the fonts of a name are those of all
/// documents ([`join_fonts`]), as [`run_level`](crate::run_level) takes them. The labels are those of the documents, one for
/// one; a document behind the last label has an empty one.
///
/// The inputs are read one after the other. [`Reason::TooLong`] is answered if one of them is over the file limit. Nothing else
/// is refused but for want of memory.
pub fn run_fonts<R: Read, W: Write>(
    alloc: Global,
    labels: &[&[u8]],
    readers: &mut [Counted<R>],
    writer: &mut Counted<W>,
) -> Result<(), RunFault>
    ensures ends { RunEnds text_input (ListsTo (lent labels.now)) W.contents
        (inputs_of R.remaining readers.old readers.new) writer.old writer.new result }
    ensures succeeds { Succeeds text_input (ListsTo (lent labels.now))
        (inputs_of R.remaining readers.old readers.new) writer.old writer.new result }
    ensures turns { InTurns readers.old readers.new }
{
    run_documents(alloc, &Fonts { labels }, readers, writer)
}
