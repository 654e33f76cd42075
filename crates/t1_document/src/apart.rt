//! Documents pooled each by itself: the fonts of keys stand once, apart from all documents.

ghost use Rattle.std.specs.Prelude.{◌≡◌, map, IfOk};
ghost use Rattle.t1_subset.specs.NameSets.{lent};
ghost use Rattle.t1_document.specs.{Groups.{outcome_in}, Joins.{new_texts, places_of_all, AreOutcomes}, Texts.{text_in}};
ghost use Rattle.t1_document.specs.{Pooling.{keyed}, Views.{place_view, document_view}};
ghost use Rattle.t1_document.specs.Apart.{lined_document, fonts_apart, left_apart, documents_apart};

use crate::documents::{Document, Place};
use crate::entries::Least;
use crate::joins::{Joins, join_fonts};
use crate::levelling::{all_places, read_documents};
use crate::own_names::longest_start;
use crate::pooling::{Key, entries_among, keyed, push_lined};
use crate::texts::Texts;
use std::alloc::{AllocError, Global};
use t1_join::push_item;

/// Documents without the fonts of keys, and these fonts.
#[derive(Drop)]
pub struct PooledApart<'a> {
    /// What has to be run before the documents: of each key that has an entry the font text, in a part of its own, and the lines
    /// that give the font the pool's name.
    pub fonts: Vec<u8>,
    /// The documents, in their order.
    pub documents: Vec<Vec<u8>>,
    /// The places of fonts that all of them had, each under its key, those of the first document first.
    pub places: Vec<Place<'a>>,
    /// What the fonts of each key come to.
    pub joins: Joins<'a>,
    /// The keys that have a new text and so many places and keep their font texts all the same, in the order of their first places.
    pub left: Vec<&'a [u8]>,
}

/// Documents in which places of keys whose lines end so have lines.
fn each_lined(
    alloc: Global,
    start: &[u8],
    by: Key,
    ends: &Texts<'_>,
    documents: &[Document<'_>],
) -> Result<Vec<Vec<u8>>, AllocError>
    ensures { IfOk result (λ v. map (λ t. t.items) v.items
        ≡ map (lined_document start.now by (text_in ends.now)) (map document_view documents.now)) }
{
    let mut texts = Vec::with_capacity(alloc, documents.len())?;
    'documents: for document in documents {
        let mut text = Vec::new(alloc);
        push_lined(
            &mut text,
            start,
            by,
            ends,
            document.places.as_slice(),
            document.last,
        )?;
        push_item(&mut texts, text)?;
    }
    Ok(texts)
}

/// Documents each by itself, and apart from them the fonts of the keys that have so many places among all of them.
///
/// Each document is read by itself ([`read_document`](crate::read_document)), and what the fonts of a key come to is what
/// [`join_fonts`] says of the places of all documents. All else is as [`pool_document`](crate::pool_document) has it for one text:
/// what stands before the documents there is `fonts` here, without its first line.
///
/// # Errors
///
/// Only want of memory.
pub fn pool_apart<'a>(
    alloc: Global,
    by: Key,
    least: Least,
    texts: &[&'a [u8]],
) -> Result<PooledApart<'a>, AllocError>
    ensures joins { IfOk result (λ p. AreOutcomes (keyed by (places_of_all (lent texts.now))) (outcome_in p.joins)) }
    ensures places { IfOk result (λ p. map place_view p.places.items ≡ keyed by (places_of_all (lent texts.now))) }
    ensures fonts { IfOk result (λ p. p.fonts.items ≡ fonts_apart least by (new_texts (outcome_in p.joins)) (lent texts.now)) }
    ensures documents { IfOk result (λ p. map (λ t. t.items) p.documents.items
        ≡ documents_apart least by (new_texts (outcome_in p.joins)) (lent texts.now)) }
    ensures left { IfOk result (λ p. map (λ k. k.now) p.left.items
        ≡ left_apart least by (new_texts (outcome_in p.joins)) (lent texts.now)) }
{
    let documents = read_documents(alloc, texts)?;
    let own = all_places(alloc, documents.as_slice())?;
    let places = keyed(alloc, by, own.as_slice())?;
    let joins = join_fonts(alloc, places.as_slice())?;
    let start = longest_start(alloc, Vec::from_slice(alloc, b"/pool:")?, texts)?;
    let start = start.as_slice();
    let entries = entries_among(
        alloc,
        start,
        by,
        least,
        own.as_slice(),
        places.as_slice(),
        &joins,
    )?;
    let lined = each_lined(alloc, start, by, &entries.ends, documents.as_slice())?;
    Ok(PooledApart {
        fonts: entries.bytes,
        documents: lined,
        places,
        joins,
        left: entries.left,
    })
}
