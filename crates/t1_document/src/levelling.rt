//! Documents that are levelled: each place of a name gets one font.

ghost use Rattle.std.specs.{Prelude.{◌≡◌, map, IfOk}, List.{AllByRecursion, flat_map}};
ghost use Rattle.t1_subset.specs.NameSets.{lent};
ghost use Rattle.t1_document.specs.{Documents.{document_of}, Rewriting.{levelled, document_levelled}, Laws.{NoneIsRefused}, Groups.{outcome_in}};
ghost use Rattle.t1_document.specs.{Joins.{AreOutcomes, new_texts, places_of_all}, Texts.{text_in}, Views.{place_view, document_view}};

use crate::documents::{Document, Place, read_document};
use crate::joins::{Joins, join_fonts};
use crate::rewriting::write;
use crate::texts::Texts;
use std::alloc::{AllocError, Global};
use t1_join::push_item;

/// Documents in which each place of a name has one font.
#[derive(Drop)]
pub struct LevelledTexts<'a> {
    /// The documents, in their order.
    pub texts: Vec<Vec<u8>>,
    /// The places of fonts that all of them had, those of the first document first.
    pub places: Vec<Place<'a>>,
    /// What the fonts of each name come to.
    pub joins: Joins<'a>,
}

/// The documents that texts are, each by itself ([`read_document`]).
///
/// # Errors
///
/// Only want of memory.
pub fn read_documents<'a>(
    alloc: Global,
    texts: &[&'a [u8]],
) -> Result<Vec<Document<'a>>, AllocError>
    ensures { IfOk result (λ ds. map document_view ds.items ≡ map document_of (lent texts.now)) }
{
    let mut documents = Vec::with_capacity(alloc, texts.len())?;
    'texts: for text in texts {
        let document = match read_document(alloc, text) {
            Ok(document) => document,
            Err(fault) => return Err(fault),
        };
        push_item(&mut documents, document)?;
    }
    Ok(documents)
}

/// The places of documents, those of the first one first.
///
/// # Errors
///
/// Only want of memory.
pub fn all_places<'a>(
    alloc: Global,
    documents: &[Document<'a>],
) -> Result<Vec<Place<'a>>, AllocError>
    ensures { IfOk result (λ v. map place_view v.items ≡ flat_map (λ d. d.places) (map document_view documents.now)) }
{
    let mut places = Vec::new(alloc);
    'documents: for document in documents {
        places.extend_from_slice(document.places.as_slice())?;
    }
    Ok(places)
}

/// Documents with new texts that can stand at each place of their names.
fn each_levelled(
    alloc: Global,
    documents: &[Document<'_>],
    new: &Texts<'_>,
) -> Result<Vec<Vec<u8>>, AllocError>
    requires { AllByRecursion (NoneIsRefused (text_in new.now)) (map document_view documents.now) }
    ensures { IfOk result (λ v. map (λ t. t.items) v.items
        ≡ map (document_levelled (text_in new.now)) (map document_view documents.now)) }
{
    let none = Texts::new(alloc);
    let mut texts = Vec::with_capacity(alloc, documents.len())?;
    'documents: for document in documents {
        let text = write(alloc, document, new, &none)?;
        push_item(&mut texts, text)?;
    }
    Ok(texts)
}

/// Documents in which each place of a name has one font: that to which the fonts of the name, in all of them, rejoin.
///
/// Each document is read by itself ([`read_document`]), and what the fonts of a name come to is what [`join_fonts`] says of the places
/// of all documents. That text stands at each place of the name, unless the name keeps its fonts, and all else stays. As none of these
/// texts is refused at a place, this is what [`Document::level`] writes with them, and takes less time.
///
/// # Errors
///
/// Only want of memory.
pub fn level_documents<'a>(
    alloc: Global,
    texts: &[&'a [u8]],
) -> Result<LevelledTexts<'a>, AllocError>
    ensures places { IfOk result (λ l. map place_view l.places.items ≡ places_of_all (lent texts.now)) }
    ensures joins { IfOk result (λ l. AreOutcomes (places_of_all (lent texts.now)) (outcome_in l.joins)) }
    ensures texts { IfOk result (λ l. map (λ t. t.items) l.texts.items
        ≡ map (levelled (new_texts (outcome_in l.joins))) (lent texts.now)) }
{
    let documents = read_documents(alloc, texts)?;
    let places = all_places(alloc, documents.as_slice())?;
    let joins = join_fonts(alloc, places.as_slice())?;
    let new = joins.new_texts(alloc, places.as_slice())?;
    let texts = each_levelled(alloc, documents.as_slice(), &new)?;
    drop(new);
    Ok(LevelledTexts {
        texts,
        places,
        joins,
    })
}
