//! The Subrs that runs call.

ghost use Rattle.std.specs.Prelude.{◌≡◌, ◌≢◌, ◌<◌, ◌≤◌, ℕ, [], ◌∷◌, false, length, IfOk, OnOk, OnErr};
ghost use Rattle.t1_run.specs.{Run.{with_indices}, SubrSet.{is_in, times}};

use std::alloc::{AllocError, Global};
use std::collections::BTreeSet;
use std::marker::Model;

/// Indices of Subrs, each once. A run of 100,000 calls adds an index for each call, so whether an index is already in is
/// read at its own place, without a search.
#[derive(Drop)]
pub struct SubrSet {
    order: Vec<u16>,
    places: Vec<bool>,
}

impl Model for SubrSet {
    ghost use Rattle.std.specs.Prelude.{ℕ, List, []};
    ghost use Rattle.t1_run.specs.{Run.{with_indices}, SubrSet.{AreListed}};

    ghost Value = { List ℕ };

    ghost view = { λ c. with_indices [] c.order.items };

    ghost invariant = { λ c. AreListed c.places.items c.order.items };
}

/// Whether an index is in.
fn is_in(places: &Vec<bool>, index: u16) -> bool
    ensures { result ≡ is_in places.now.items index }
{
    let place = index as usize;
    place < places.len() && places[place]
}

/// Makes the place of an index, if there is none.
fn make_place(places: &mut Vec<bool>, index: u16) -> Result<(), AllocError>
    ensures there { OnOk result (index < length places.new.items) }
    ensures same { (i : ℕ) → is_in places.new.items i ≡ is_in places.old.items i }
{
    let place = index as usize;
    if place < places.len() {
        return Ok(());
    }
    places.resize(place + 1, false)
}

/// Takes an index out of its place.
fn take_out(places: &mut Vec<bool>, index: u16)
    ensures out { is_in places.new.items index ≡ false }
    ensures others { (i : ℕ)
        → i ≢ index
        → is_in places.new.items i ≡ is_in places.old.items i }
{
    let place = index as usize;
    if place < places.len() {
        places[place] = false;
    }
}

impl SubrSet {
    /// No index.
    pub fn new(alloc: Global) -> SubrSet
        ensures { result ≡ [] }
    {
        SubrSet {
            order: Vec::new(alloc),
            places: Vec::new(alloc),
        }
    }

    /// Adds an index. If memory is refused, nothing changes.
    pub fn insert(&mut self, index: u16) -> Result<(), AllocError>
        ensures added { OnOk result (self.new ≡ with_indices self.old (index ∷ [])) }
        ensures unchanged { OnErr result (self.new ≡ self.old) }
    {
        if is_in(&self.places, index) {
            return Ok(());
        }
        make_place(&mut self.places, index)?;
        self.order.push(index)?;
        self.places[index as usize] = true;
        Ok(())
    }

    /// Takes all indices out.
    pub fn clear(&mut self)
        ensures { self.new ≡ [] }
    {
        'order: while let Some(index) = self.order.pop() {
            take_out(&mut self.places, index);
        }
    }

    /// The indices, each once, in an order that is not told.
    pub fn as_slice(&self) -> &[u16]
        ensures indices { with_indices [] result.now ≡ self.now }
        ensures once { (i : ℕ) → times result.now i ≤ 1 }
    {
        self.order.as_slice()
    }

    /// The indices as a set.
    pub fn to_set(&self, alloc: Global) -> Result<BTreeSet<u16>, AllocError>
        ensures { IfOk result (λ set. set.keys ≡ self.now) }
    {
        let mut set = BTreeSet::new(alloc);
        'indices: for index in self.as_slice() {
            set.insert(*index)?;
        }
        Ok(set)
    }
}
