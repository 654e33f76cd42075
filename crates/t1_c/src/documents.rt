//! The calls over documents, before what they make is given.
ghost use Rattle.std.specs.Prelude.{◌≡◌, length, None, Ok, IfOk, IfErr};
ghost use Rattle.t1_subset.specs.NameSets.{lent};
ghost use Rattle.t1_cmd.specs.{Files.{OfFiles, RefusesFiles}, Documents.{text_input}, Pages.{PoolsTo}, FontPlaces.{ListsTo}};
ghost use Rattle.t1_cmd.specs.declared.faults.Reason.TheVariants.{Memory};
ghost use Rattle.t1_c.specs.Gives.{place_labels};

use crate::labels::{lent, place_labels};
use std::alloc::Global;
use t1_cmd::{FilesRefusal, Pooled, Pooling, Reason, list_fonts, pool_files};

/// Documents with each font once.
pub(crate) fn pooled(
    alloc: Global,
    how: Pooling,
    documents: &[&[u8]],
) -> Result<Vec<u8>, FilesRefusal>
    ensures text { IfOk result (λ text. OfFiles text_input (PoolsTo how) (lent documents.now) (Ok text.items)) }
    ensures refused { IfErr result (RefusesFiles text_input (PoolsTo how) (lent documents.now)) }
{
    match pool_files(alloc, how, documents) {
        Ok(pooled) => {
            let Pooled { text, .. } = pooled;
            Ok(text)
        }
        Err(refusal) => Err(refusal),
    }
}

// A growth was refused.
fn no_memory() -> FilesRefusal
    ensures place { result.place ≡ None }
    ensures reason { result.reason ≡ Memory }
{
    FilesRefusal {
        place: None,
        reason: Reason::Memory,
    }
}

/// The lines of the places of fonts in documents, and one that counts them. The labels of the documents are their places.
pub(crate) fn places(alloc: Global, documents: &[&[u8]]) -> Result<Vec<u8>, FilesRefusal>
    ensures text { IfOk result
        (λ text. OfFiles text_input (ListsTo (place_labels (length documents.now))) (lent documents.now) (Ok text.items)) }
    ensures refused { IfErr result
        (RefusesFiles text_input (ListsTo (place_labels (length documents.now))) (lent documents.now)) }
{
    let Ok(labels) = place_labels(alloc, documents.len()) else {
        return Err(no_memory());
    };
    let Ok(labels) = lent(alloc, labels.as_slice()) else {
        return Err(no_memory());
    };
    list_fonts(alloc, labels.as_slice(), documents)
}
