//! The places of each name, or of each key.

ghost use Rattle.std.specs.{Prelude.{◌≡◌, ◌++◌, ◌∷◌, [], ℕ, List, map, IfOk, OnOk, if◌then◌else◌}, Option.{option_map, unwrap_or}, Str.{bytes_eq}};
ghost use Rattle.t1_document.specs.{Joins.{places_under}, Groups.{places_in}, Pooling.{places_by}, Views.{place_view}};

use crate::documents::Place;
use crate::pooling::Key;
use std::alloc::{AllocError, Global};
use std::collections::BTreeMap;

/// The places of each name, in their order.
#[derive(Drop)]
pub(crate) struct Groups<'a> {
    places: BTreeMap<&'a [u8], Vec<Place<'a>>>,
}

impl<'a> Groups<'a> {
    /// No places.
    fn new(alloc: Global) -> Groups<'a>
        ensures { (name : List ℕ) → places_in result name ≡ [] }
    {
        Groups {
            places: BTreeMap::new(alloc),
        }
    }

    /// The places of a name.
    pub(crate) fn get(&self, name: &[u8]) -> Option<&[Place<'a>]>
        ensures { unwrap_or (option_map (λ s. map place_view s.now) result) [] ≡ places_in self.now name.now }
    {
        Some(self.places.get(name)?.as_slice())
    }

    /// Adds a place to those of a name. After an error some may be lost.
    fn add(&mut self, alloc: Global, key: &'a [u8], place: Place<'a>) -> Result<(), AllocError>
        ensures { OnOk result ((name : List ℕ) → places_in self.new name
            ≡ (if bytes_eq key.now name
            then places_in self.old name ++ place_view place.entry ∷ [] else places_in self.old name)) }
    {
        let mut places = match self.places.remove(key) {
            Some(places) => places,
            None => Vec::new(alloc),
        };
        places.push(place)?;
        match self.places.insert(key, places) {
            Ok(_) => Ok(()),
            Err(_) => Err(AllocError),
        }
    }
}

/// The places of each name among some.
pub(crate) fn groups_of<'a>(alloc: Global, places: &[Place<'a>]) -> Result<Groups<'a>, AllocError>
    ensures { IfOk result (λ g. (name : List ℕ) → places_in g name ≡ places_under name (map place_view places.now)) }
{
    let mut groups = Groups::new(alloc);
    'places: for place in places {
        groups.add(alloc, place.name, *place)?;
    }
    Ok(groups)
}

/// The places of each key among some.
pub(crate) fn groups_by<'a>(
    alloc: Global,
    by: Key,
    places: &[Place<'a>],
) -> Result<Groups<'a>, AllocError>
    ensures { IfOk result (λ g. (key : List ℕ) → places_in g key ≡ places_by by key (map place_view places.now)) }
{
    let mut groups = Groups::new(alloc);
    'places: for place in places {
        groups.add(alloc, by.of(place.name), *place)?;
    }
    Ok(groups)
}
