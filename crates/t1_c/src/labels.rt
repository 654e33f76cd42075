//! The labels of documents, which have no names here: their places.
ghost use Rattle.std.specs.{Prelude.{◌≡◌, map, IfOk}, Fmt.{decimal}};
ghost use Rattle.t1_subset.specs.NameSets.{lent};
ghost use Rattle.t1_c.specs.Gives.{place_labels};

use std::alloc::{AllocError, Global};
use t1_join::push_item;

// The label of a place.
fn label(alloc: Global, place: usize) -> Result<Vec<u8>, AllocError>
    ensures { IfOk result (λ v. v.items ≡ decimal place) }
{
    let text = place.to_string(alloc)?;
    Ok(text.into_bytes())
}

/// The labels of so many documents.
pub(crate) fn place_labels(alloc: Global, count: usize) -> Result<Vec<Vec<u8>>, AllocError>
    ensures { IfOk result (λ v. map (λ t. t.items) v.items ≡ place_labels count) }
{
    let mut labels = Vec::with_capacity(alloc, count)?;
    'labels: for place in 0..count {
        let label = label(alloc, place)?;
        push_item(&mut labels, label)?;
    }
    Ok(labels)
}

/// Labels, lent.
pub(crate) fn lent(alloc: Global, labels: &[Vec<u8>]) -> Result<Vec<&[u8]>, AllocError>
    ensures { IfOk result (λ v. lent v.items ≡ map (λ t. t.items) labels.now) }
{
    let mut lent = Vec::with_capacity(alloc, labels.len())?;
    'labels: for label in labels {
        lent.push(label.as_slice())?;
    }
    Ok(lent)
}
