//! The Subrs of a source, by index.

ghost use Rattle.std.specs.{Prelude.{◌≡◌, ◌<◌, map, unwrap_or, IfSome}, List.{slice_get}, Option.{option_map, option_and_then}, Ordering.{nat_cmp}};
ghost use Rattle.t1_join.specs.TableMeaning.{Rises};
ghost use Rattle.t1_font.specs.{Cut.{stub}, Lent.{lent_number}, Ranges.{numbered_at}};
ghost use Rattle.std.specs.FinMap as fin;

use crate::ranges::Range;
use crate::stub::STUB;
use std::marker::Model;

/// Charstrings by index as they stand in a source: its buffer, and the place of each there; and, by index, where each likely stands
/// among these places.
#[derive(Drop)]
pub(crate) struct StoredSubrs<'a> {
    buffer: &'a [u8],
    places: &'a [(u16, Range)],
    likely: &'a [u16],
}

impl<'a> Model for StoredSubrs<'a> {
    ghost use Rattle.std.specs.{Prelude.{map}, Ordering.{nat_cmp}, FinMap.{from_sorted}};
    ghost use Rattle.t1_join.specs.TableMeaning.{Rises};
    ghost use Rattle.t1_font.specs.{FontValue.{SparseArray as SparseArrayValue}, Codes.{numbered_code}, Ranges.{numbered_at}};

    ghost Value = { SparseArrayValue };

    ghost coded = { numbered_code };

    ghost view = { λ s. from_sorted (map (numbered_at s.buffer.now) s.places.now) };

    ghost invariant = { λ s. Rises nat_cmp (map (numbered_at s.buffer.now) s.places.now) };
}

impl<'a> StoredSubrs<'a> {
    /// The table of a source, as it stands there, with the places of [`t1_join::likely_places`].
    pub(crate) fn new(buffer: &'a [u8], places: &'a [(u16, Range)], likely: &'a [u16]) -> Self
        requires { Rises nat_cmp (map (numbered_at buffer.now) places.now) }
        ensures { result ≡ fin.from_sorted (map (numbered_at buffer.now) places.now) }
    {
        StoredSubrs {
            buffer,
            places,
            likely,
        }
    }

    /// The same entries, lent once more.
    pub(crate) fn again(&self) -> Self
        ensures { result ≡ self.now }
    {
        StoredSubrs {
            buffer: self.buffer,
            places: self.places,
            likely: self.likely,
        }
    }

    /// How many there are.
    #[tactic(auto, using(t1_join::proofs::TablePlaces::count_is))]
    pub(crate) fn len(&self) -> usize
        ensures { result ≡ fin.len self.now }
    {
        self.places.len()
    }

    /// The entry at a place; places are counted upwards by index, from 0. The place after an entry fits in a `usize`.
    #[inline(always)]
    #[tactic(auto, using(t1_join::proofs::TablePlaces::stands, t1_join::proofs::TablePlaces::stands_not))]
    pub(crate) fn at(&self, place: usize) -> Option<(u16, &'a [u8])>
        ensures entry { option_map lent_number result ≡ slice_get (fin.entries self.now) place }
        ensures short { IfSome result (λ _. place < 18446744073709551615) }
    {
        let (index, body) = self.places.get(place)?;
        Some((*index, body.of(self.buffer)))
    }

    /// Where an index stands if it has an entry, in all likelihood.
    #[inline(always)]
    pub(crate) fn likely_place(&self, index: u16) -> usize {
        match self.likely.get(index as usize) {
            Some(place) => *place as usize,
            None => index as usize,
        }
    }

    /// The place of an index, if it has an entry.
    #[inline(always)]
    pub(crate) fn place_of(&self, index: u16) -> Option<usize>
        ensures { option_and_then (slice_get (fin.entries self.now)) result
            ≡ option_map (λ b. (index, b)) (fin.get self.now index) }
    {
        self.places
            .binary_search_by_key(&index, |entry| entry.0)
            .ok()
    }

    /// The charstring at an index.
    #[tactic(auto, using(crate::proofs::LentTables::value_there))]
    fn get(&self, index: u16) -> Option<&'a [u8]>
        ensures { option_map (λ b. b.now) result ≡ fin.get self.now index }
    {
        let (_, body) = self.at(self.place_of(index)?)?;
        Some(body)
    }

    /// The same, or a stub if there is none. It is kept out of line, so that the search costs tables of other forms nothing.
    #[inline(never)]
    fn searched_or_stub(&self, index: u16) -> &'a [u8]
        ensures { result.now ≡ unwrap_or (fin.get self.now index) stub }
    {
        match self.get(index) {
            Some(body) => body,
            None => STUB,
        }
    }

    /// The charstring at an index, or a stub if there is none. It is looked for where it likely stands, and an index behind the last one
    /// has none, so few are searched.
    #[inline(always)]
    pub(crate) fn get_or_stub(&self, index: u16) -> &'a [u8]
        ensures { result.now ≡ unwrap_or (fin.get self.now index) stub }
    {
        match self.at(self.likely_place(index)) {
            Some((there, body)) if there == index => return body,
            _ => {}
        }
        match self.places.last() {
            Some((last, _)) if *last < index => STUB,
            _ => self.searched_or_stub(index),
        }
    }
}
