//! The command `extract`: the font of a name, taken out of documents.
ghost use Rattle.std.specs.{Prelude.{◌≡◌, map, Ok, IfOk, IfErr}, Option.{option_map}};
ghost use Rattle.t1_bytes.specs.declared.form.Form.TheVariants.{Pfa};
ghost use Rattle.t1_font.specs.{Canon.{canon}, ReadFont.{read_font_widely}};
ghost use Rattle.t1_font.specs.UntestedFonts.{untested_font};
ghost use Rattle.t1_subset.specs.NameSets.{lent};
ghost use Rattle.t1_document.specs.{Views.{place_view}, Joins.{places_of_all}};
ghost use Rattle.t1_cmd.specs.{Answers.{MayRefuse, with_reason}, Files.{OfFiles, RefusesFiles}, Fonts.{font_reason}, Mergers.{inputs_of, InTurns}};
ghost use Rattle.t1_cmd.specs.{Runs.{RunEnds, Succeeds}, Documents.{text_input}, Extracts.{first_named, IsTakenOut, ExtractsTo}};

use crate::counting::Counted;
use crate::document_commands::{DocumentsCommand, run_documents, text_of_documents};
use crate::faults::{FilesRefusal, Name, Reason, RunFault};
use crate::font_commands::reason_of;
use std::alloc::{AllocError, Global};
use std::io::{Read, Write};
use t1_document::{Place, read_document};
use t1_font::{Form, Source, write};

// The first of some places that has a name.
fn first_named<'a>(name: &[u8], places: &[Place<'a>]) -> Option<Place<'a>>
    ensures { option_map place_view result ≡ first_named name.now (map place_view places.now) }
{
    'places: for place in places {
        if place.name == name {
            return Some(*place);
        }
    }
    None
}

// The first place of documents that has a name.
fn place_of<'a>(
    alloc: Global,
    name: &[u8],
    documents: &[&'a [u8]],
) -> Result<Option<Place<'a>>, AllocError>
    ensures { IfOk result
        (λ o. option_map place_view o ≡ first_named name.now (places_of_all (lent documents.now))) }
{
    'documents: for document in documents {
        let read = match read_document(alloc, document) {
            Ok(read) => read,
            Err(fault) => return Err(fault),
        };
        match first_named(name, read.places.as_slice()) {
            Some(place) => return Ok(Some(place)),
            None => {}
        }
    }
    Ok(None)
}

// The canonical PFA of the font of a source, without the test whether it was loaded before.
fn untested_pfa(alloc: Global, source: Source) -> Result<Vec<u8>, AllocError>
    ensures { IfOk result (λ text. text.items ≡ canon (untested_font source) Pfa) }
{
    let source = source.untested(alloc)?;
    let font = source.font(alloc)?;
    let text = write(alloc, &font, Form::Pfa);
    drop(font);
    text
}

// The canonical PFA of the font of a place.
fn taken_out(alloc: Global, place: &Place<'_>) -> Result<Vec<u8>, Reason>
    ensures text { IfOk result (λ text. IsTakenOut (place_view place.now) text.items) }
    ensures refused { IfErr result
        (MayRefuse (λ a. a ≡ with_reason font_reason (read_font_widely place.now.text.now))) }
{
    match place.source(alloc) {
        Ok(source) => Ok(untested_pfa(alloc, source)?),
        Err(fault) => Err(reason_of(fault)),
    }
}

// That no document has a font of a name.
fn no_font(alloc: Global, name: &[u8]) -> Result<Reason, AllocError>
    ensures { IfOk result (λ r. r ≡ Reason.NoFont name.now) }
{
    let name = Name::new(alloc, name)?;
    Ok(Reason::NoFont { name })
}

// The canonical PFA of the first font of a name.
fn extracted(alloc: Global, name: &[u8], documents: &[&[u8]]) -> Result<Vec<u8>, Reason>
    ensures text { IfOk result (λ text. ExtractsTo name.now (lent documents.now) (Ok text.items)) }
    ensures refused { IfErr result (MayRefuse (ExtractsTo name.now (lent documents.now))) }
{
    match place_of(alloc, name, documents)? {
        Some(place) => taken_out(alloc, &place),
        None => Err(no_font(alloc, name)?),
    }
}

/// The command `extract`, and the name of a font.
#[derive(Drop)]
pub(crate) struct Extract<'a> {
    name: &'a [u8],
}

impl DocumentsCommand for Extract<'_> {
    ghost Answers = { λ command. ExtractsTo command.name.now };

    fn text(&self, alloc: Global, documents: &[&[u8]]) -> Result<Vec<u8>, Reason> {
        extracted(alloc, self.name, documents)
    }
}

/// The canonical PFA of the first font of a name (without its `/`) in documents, without the test whether it was loaded before, as
/// [`run_extract`] writes it.
///
/// # Errors
///
/// [`Reason::TooLong`] with the place of the first document that is over the file limit; else [`Reason::NoFont`], without a place,
/// if no place of the documents has the name; [`Reason::Memory`] if a growth was refused.
pub fn extract_file(
    alloc: Global,
    name: &[u8],
    documents: &[&[u8]],
) -> Result<Vec<u8>, FilesRefusal>
    ensures text { IfOk result
        (λ text. OfFiles text_input (ExtractsTo name.now) (lent documents.now) (Ok text.items)) }
    ensures refused { IfErr result (RefusesFiles text_input (ExtractsTo name.now) (lent documents.now)) }
{
    text_of_documents(alloc, &Extract { name }, documents)
}

/// Writes the canonical PFA of the first font of a name (without its `/`) in documents, each read by itself, without the test
/// whether it was loaded before: what [`run_mend`](crate::run_mend) writes of the font text of the first place of that name
/// ([`takes_out_mended`](crate::laws::takes_out_mended)).
///
/// The inputs are read one after the other. [`Reason::TooLong`] is answered if one of them is over the file limit, else
/// [`Reason::NoFont`] if no place has the name. Nothing else is refused but for want of memory: the font of a place can be read.
pub fn run_extract<R: Read, W: Write>(
    alloc: Global,
    name: &[u8],
    readers: &mut [Counted<R>],
    writer: &mut Counted<W>,
) -> Result<(), RunFault>
    ensures ends { RunEnds text_input (ExtractsTo name.now) W.contents
        (inputs_of R.remaining readers.old readers.new) writer.old writer.new result }
    ensures succeeds { Succeeds text_input (ExtractsTo name.now)
        (inputs_of R.remaining readers.old readers.new) writer.old writer.new result }
    ensures turns { InTurns readers.old readers.new }
{
    run_documents(alloc, &Extract { name }, readers, writer)
}
