//! The names of the fonts of documents.

ghost use Rattle.std.specs.Prelude.{◌≡◌, ◌∷◌, [], map, ℕ, List, IfOk, OnOk};
ghost use Rattle.t1_document.specs.{Joins.{names_from}, Texts.{Sees}, Views.{place_view}};

use crate::documents::Place;
use crate::texts::Texts;
use std::alloc::{AllocError, Global};

/// Notes a name.
pub(crate) fn note<'a>(seen: &mut Texts<'a>, name: &'a [u8]) -> Result<(), AllocError>
    ensures { OnOk result ((names : List (List ℕ))
        → Sees seen.old names
        → Sees seen.new (name.now ∷ names)) }
{
    seen.put(name, name)
}

/// The names of the fonts of some places, each once, in the order of the first place of each.
///
/// # Errors
///
/// Only want of memory.
pub fn names_of<'a>(alloc: Global, places: &[Place<'a>]) -> Result<Vec<&'a [u8]>, AllocError>
    ensures { IfOk result (λ v. map (λ n. n.now) v.items ≡ names_from [] (map place_view places.now)) }
{
    let mut names = Vec::new(alloc);
    let mut seen = Texts::new(alloc);
    'places: for place in places {
        if seen.get(place.name).is_none() {
            note(&mut seen, place.name)?;
            names.push(place.name)?;
        }
    }
    Ok(names)
}
