//! Tables of borrowed byte strings, by number and by name, in the order of their keys.
//!
//! The byte strings of a source stand in its buffer, and the source's own table says where, so that table is lent and not
//! copied. A table that a cut or a join makes has entries of its own, and one that is filled with stubs has their indices
//! in a list that it shares with others. Beside `copy` and filling, only `len`, `at` and `place_of` ask which of these a
//! table is; all other functions go by places.

ghost use Rattle.std.specs.{Prelude.{◌≡◌, ◌+◌, ◌<◌, ℕ, max, map, IfOk}, List.{slice_get}, Option.{option_map, option_and_then}, Ordering.{nat_cmp, is_eq}};
ghost use Rattle.t1_join.specs.TableMeaning.{Rises};
ghost use Rattle.t1_font.specs.{FontValue.{name_cmp, total, subr_weight, glyph_weight}, FontModel.{clamp}, Filling.{has_none, has_each}};
ghost use Rattle.t1_font.specs.{Lent.{lent_number, stub_at, filled_at, numbered_entries, lent_glyph}, Ranges.{named_at}};
ghost use Rattle.std.specs.FinMap as fin;

use crate::ranges::Range;
use crate::stored::StoredSubrs;
use std::alloc::{AllocError, Global};
use std::cmp::Ordering;
use std::marker::Model;
use t1_join::SortedTable;

/// The weight of a Subr of this many bytes, as far as 64 bits hold it. A Subr of no bytes weighs as much as one of one
/// byte.
pub(crate) fn subr_weight(len_iv: u8, len: usize) -> u64
    ensures { result ≡ clamp (128 + len_iv + max 1 len) }
{
    (128 + len_iv as u64).saturating_add(len.max(1) as u64)
}

/// The weight of a glyph of this many bytes, as far as 64 bits hold it.
pub(crate) fn glyph_weight(len_iv: u8, len: usize) -> u64
    ensures { result ≡ clamp (256 + len_iv + len) }
{
    (256 + len_iv as u64).saturating_add(len as u64)
}

/// Whether a list has an index.
#[tactic(auto, using(crate::proofs::FilledTables::among_is))]
fn is_among(indices: &[u16], index: u16) -> bool
    requires { Rises nat_cmp (map stub_at indices.now) }
    ensures { result
        ≡ fin.contains_key (fin.from_sorted {R = nat_cmp} (map stub_at indices.now)) index }
{
    indices.binary_search(&index).is_ok()
}

/// Where a sparse array has its entries.
#[derive(Drop)]
pub(crate) enum SparseArrayForm<'a> {
    /// In a source.
    Stored(StoredSubrs<'a>),
    /// In a source, and stubs at the other indices of a list.
    Filled {
        own: StoredSubrs<'a>,
        indices: &'a [u16],
    },
    /// In a list of its own.
    Made(Vec<(u16, &'a [u8])>),
}

/// An array of PostScript with gaps, such as the Subrs and a table Encoding: charstrings by index, or names by code, upwards by number.
#[derive(Drop)]
pub struct SparseArray<'a> {
    form: SparseArrayForm<'a>,
}

impl<'a> Model for SparseArray<'a> {
    ghost use Rattle.std.specs.{Ordering.{nat_cmp}, FinMap.{from_sorted}};
    ghost use Rattle.t1_join.specs.TableMeaning.{Rises};
    ghost use Rattle.t1_font.specs.{FontValue.{SparseArray as SparseArrayValue}, Codes.{numbered_code}, Lent.{numbered_entries}};

    ghost Value = { SparseArrayValue };

    ghost coded = { numbered_code };

    ghost view = { λ m. from_sorted (numbered_entries m.form) };

    ghost invariant = { λ m. Rises nat_cmp (numbered_entries m.form) };
}

impl<'a> SparseArray<'a> {
    /// The table of a source, as it stands there.
    #[tactic(auto, using(t1_join::proofs::Sorted::map_of))]
    pub(crate) fn stored(own: StoredSubrs<'a>) -> Self
        ensures { result ≡ own.entry }
    {
        SparseArray {
            form: SparseArrayForm::Stored(own),
        }
    }

    /// A source's Subrs, and stubs, at the indices of a list. This takes no room.
    #[tactic(auto, using(crate::proofs::FilledTables::same_rise))]
    pub(crate) fn filled(own: StoredSubrs<'a>, indices: &'a [u16]) -> Self
        requires { Rises nat_cmp (map stub_at indices.now) }
        ensures { result ≡ fin.from_sorted (map (filled_at own.entry) indices.now) }
    {
        SparseArray {
            form: SparseArrayForm::Filled { own, indices },
        }
    }

    /// Where the table has its entries.
    #[tactic(auto, using(crate::proofs::LentTables::same_table))]
    pub(crate) fn form(&self) -> &SparseArrayForm<'a>
        ensures { fin.from_sorted (numbered_entries result.now) ≡ self.now }
    {
        &self.form
    }

    /// Whether a list has the number of each entry.
    #[tactic(auto, using(std::proofs::lemmas::Map::Iter::rest_more, std::proofs::lemmas::Map::Iter::rest_all, crate::proofs::normal_fonts::Filled::all_left, crate::proofs::normal_fonts::Filled::one_known, crate::proofs::normal_fonts::Filled::one_unknown, crate::proofs::normal_fonts::Filled::all_known))]
    pub(crate) fn are_among(&self, numbers: &[u16]) -> bool
        requires { Rises nat_cmp (map stub_at numbers.now) }
        ensures { result ≡ has_each (fin.from_sorted {R = nat_cmp} (map stub_at numbers.now)) (fin.keys self.now) }
    {
        'entries: for (number, _) in self.entries() {
            if !is_among(numbers, number) {
                return false;
            }
        }
        true
    }

    /// The table of these entries, which stand upwards by number.
    pub(crate) fn made(entries: Vec<(u16, &'a [u8])>) -> Self
        requires { Rises nat_cmp (map lent_number entries.items) }
        ensures { result ≡ fin.from_sorted (map lent_number entries.entry.items) }
    {
        SparseArray {
            form: SparseArrayForm::Made(entries),
        }
    }

    /// The same entries. A table of a source is lent once more, and takes no room; any other is copied.
    #[tactic(auto, using(crate::proofs::LentTables::same_table, crate::proofs::FilledTables::same_rise))]
    pub fn copy(&self, alloc: Global) -> Result<Self, AllocError>
        ensures { IfOk result (λ m. m ≡ self.now) }
    {
        match &self.form {
            SparseArrayForm::Stored(own) => Ok(SparseArray::stored(own.again())),
            SparseArrayForm::Filled { own, indices } => Ok(SparseArray::filled(
                own.again(),
                indices,
            )),
            SparseArrayForm::Made(entries) => Ok(SparseArray::made(Vec::from_slice(
                alloc, entries,
            )?)),
        }
    }

    /// How many entries the table has.
    #[tactic(auto, using(t1_join::proofs::TablePlaces::count_is, crate::proofs::LentTables::same_table))]
    pub fn len(&self) -> usize
        ensures { result ≡ fin.len self.now }
    {
        match &self.form {
            SparseArrayForm::Stored(own) => own.len(),
            SparseArrayForm::Filled { indices, .. } => indices.len(),
            SparseArrayForm::Made(entries) => entries.len(),
        }
    }

    /// The place of a number, if it has an entry. It is kept out of line, since most look-ups need no search.
    #[inline(never)]
    fn place_of(&self, number: u16) -> Option<usize>
        ensures { option_and_then (slice_get (fin.entries self.now)) result
            ≡ option_map (λ b. (number, b)) (fin.get self.now number) }
    {
        match &self.form {
            SparseArrayForm::Stored(own) => own.place_of(number),
            SparseArrayForm::Filled { indices, .. } => indices.binary_search(&number).ok(),
            SparseArrayForm::Made(entries) => {
                entries.binary_search_by_key(&number, |entry| entry.0).ok()
            }
        }
    }

    /// The byte string at a number.
    #[tactic(auto, using(crate::proofs::LentTables::value_there))]
    pub fn get(&self, number: u16) -> Option<&'a [u8]>
        ensures { option_map (λ b. b.now) result ≡ fin.get self.now number }
    {
        let (_, body) = self.at(self.place_of(number)?)?;
        Some(body)
    }

    /// Whether the table has no entries.
    pub fn is_empty(&self) -> bool
        ensures { result ≡ has_none (fin.entries self.now) }
    {
        self.len() == 0
    }

    /// Where a number stands if it has an entry, in all likelihood.
    #[inline(always)]
    fn likely_place(&self, number: u16) -> usize {
        match &self.form {
            SparseArrayForm::Stored(own) => own.likely_place(number),
            _ => number as usize,
        }
    }

    /// The byte string at a number, which is looked for first where it likely stands.
    pub(crate) fn get_likely(&self, number: u16) -> Option<&'a [u8]>
        ensures { option_map (λ b. b.now) result ≡ fin.get self.now number }
    {
        self.get_near(self.likely_place(number), number)
    }

    /// The byte string at a number, which is looked for at this place first.
    pub(crate) fn get_near(&self, place: usize, number: u16) -> Option<&'a [u8]>
        ensures { option_map (λ b. b.now) result ≡ fin.get self.now number }
    {
        match self.at(place) {
            Some((there, body)) if there == number => Some(body),
            _ => self.get(number),
        }
    }

    /// Whether both tables have entries at the same numbers. Those of tables that are filled stand in lists.
    pub fn same_numbers(&self, other: &SparseArray<'_>) -> bool
        ensures { result ≡ is_eq (name_cmp (fin.keys self.now) (fin.keys other.now)) }
    {
        match (&self.form, &other.form) {
            (
                SparseArrayForm::Filled { indices, .. },
                SparseArrayForm::Filled {
                    indices: others,
                    ..
                },
            ) => *indices == *others,
            _ => same_keys(self, other),
        }
    }

    /// The entries, upwards by number.
    pub fn entries(&self) -> SparseArrayEntries<'_, 'a>
        ensures { result ≡ fin.entries self.now }
    {
        SparseArrayEntries {
            table: self,
            place: 0,
        }
    }

    /// `before` plus the weight of the entries as Subrs of a font with this lenIV, as far as 64 bits hold it.
    #[tactic(auto, using(std::proofs::lemmas::Map::Iter::rest_more, std::proofs::lemmas::Map::Iter::rest_all, crate::proofs::Weights::sums_none, crate::proofs::Weights::sums_next, crate::proofs::Weights::sums_all))]
    pub fn weight(&self, before: u64, len_iv: u8) -> u64
        ensures { result ≡ clamp (before + total (subr_weight len_iv) (fin.entries self.now)) }
    {
        let mut weight = before;
        'bodies: for (_, body) in self.entries() {
            weight = weight.saturating_add(subr_weight(len_iv, body.len()));
        }
        weight
    }
}

impl<'t, 'a> SortedTable for &'t SparseArray<'a> {
    ghost use Rattle.std.specs.{Prelude.{ℕ}, Ordering.{nat_cmp}};
    ghost use Rattle.t1_join.specs.Meaning.{of_number};
    ghost use Rattle.t1_font.specs.Lent.{lent_number};

    ghost Key = { ℕ };

    ghost meaning = { of_number };

    ghost order = { nat_cmp };

    ghost table = { λ m. m.now };

    type Entry = (u16, &'a [u8]);

    ghost entry = { lent_number };

    #[inline(always)]
    #[tactic(auto, using(t1_join::proofs::TablePlaces::stands, t1_join::proofs::TablePlaces::stands_not, t1_join::proofs::TablePlaces::stands_copied, crate::proofs::LentTables::same_table))]
    fn at(self, place: usize) -> Option<(u16, &'a [u8])> {
        match &self.form {
            SparseArrayForm::Stored(own) => own.at(place),
            SparseArrayForm::Filled { own, indices } => {
                let index = *indices.get(place)?;
                Some((index, own.get_or_stub(index)))
            }
            SparseArrayForm::Made(entries) => entries.get(place).copied(),
        }
    }

    #[inline(always)]
    fn compare(one: &(u16, &'a [u8]), other: &(u16, &'a [u8])) -> Ordering {
        one.0.cmp(&other.0)
    }

    #[inline(always)]
    fn same(one: &(u16, &'a [u8]), other: &(u16, &'a [u8])) -> bool {
        one.1 == other.1
    }
}

/// Whether both tables have entries at the same numbers.
fn same_keys(left: &SparseArray<'_>, right: &SparseArray<'_>) -> bool
    ensures { result ≡ is_eq (name_cmp (fin.keys left.now) (fin.keys right.now)) }
{
    if left.len() != right.len() {
        return false;
    }
    let mut others = right.entries();
    'entries: for (number, _) in left.entries() {
        match others.next() {
            Some((other, _)) if other == number => {}
            _ => return false,
        }
    }
    others.next().is_none()
}

/// The entries of a sparse array, upwards by number.
#[derive(Drop)]
pub struct SparseArrayEntries<'t, 'a> {
    table: &'t SparseArray<'a>,
    place: usize,
}

impl<'t, 'a> Model for SparseArrayEntries<'t, 'a> {
    ghost use Rattle.std.specs.Prelude.{List, ℕ, drop};
    ghost use Rattle.std.specs.FinMap as fin;

    ghost Value = { List (ℕ × List ℕ) };

    ghost view = { λ s. drop s.place (fin.entries s.table.now) };
}

impl<'t, 'a> Iterator for SparseArrayEntries<'t, 'a> {
    type Item = (u16, &'a [u8]);

    ghost use Rattle.std.specs.{Prelude.{length}, Iterator.{at_most}, Map.Iter.{TakesFirst}};
    ghost use Rattle.t1_font.specs.Lent.{lent_number};

    ghost next_gives = { TakesFirst lent_number };

    ghost remaining = { λ s. at_most (length s) };

    #[inline(always)]
    #[tactic(auto, using(t1_join::proofs::TablePasses::from_place, t1_join::proofs::TablePasses::past_all))]
    fn next(&mut self) -> Option<(u16, &'a [u8])> {
        let entry = self.table.at(self.place)?;
        self.place += 1;
        Some(entry)
    }
}

/// A glyph where it stands in a source: the source's buffer, and the places of its name and its charstring there.
///
/// It refers to the vector and not to its bytes, so a table of glyphs takes two words for each.
#[derive(Clone, Copy)]
pub struct Glyph<'a> {
    buffer: &'a Vec<u8>,
    places: &'a (Range, Range),
}

impl<'a> Glyph<'a> {
    /// Its name.
    pub fn name(self) -> &'a [u8]
        ensures { result.now ≡ (lent_glyph self.entry).0 }
    {
        self.places.0.of(self.buffer.as_slice())
    }

    /// Its charstring.
    pub fn body(self) -> &'a [u8]
        ensures { result.now ≡ (lent_glyph self.entry).1 }
    {
        self.places.1.of(self.buffer.as_slice())
    }
}

/// Where the CharStrings of a font have their glyphs.
#[derive(Drop)]
pub(crate) enum CharStringsForm<'a> {
    /// In a source: its buffer, and the places of each there.
    Stored {
        buffer: &'a Vec<u8>,
        places: &'a [(Range, Range)],
    },
    /// In a list of its own.
    Made(Vec<Glyph<'a>>),
}

/// The dictionary CharStrings of a font: charstrings by name, upwards by the bytes of their names.
#[derive(Drop)]
pub struct CharStrings<'a> {
    form: CharStringsForm<'a>,
}

impl<'a> Model for CharStrings<'a> {
    ghost use Rattle.std.specs.FinMap.{from_sorted};
    ghost use Rattle.t1_join.specs.TableMeaning.{Rises};
    ghost use Rattle.t1_font.specs.{FontValue.{CharStrings as CharStringsValue, name_cmp}, Codes.{named_code}, Lent.{named_entries}};

    ghost Value = { CharStringsValue };

    ghost coded = { named_code };

    ghost view = { λ m. from_sorted (named_entries m.form) };

    ghost invariant = { λ m. Rises name_cmp (named_entries m.form) };
}

impl<'a> CharStrings<'a> {
    /// The table of a source, as it stands there.
    pub(crate) fn stored(buffer: &'a Vec<u8>, places: &'a [(Range, Range)]) -> Self
        requires { Rises name_cmp (map (named_at buffer.now.items) places.now) }
        ensures { result ≡ fin.from_sorted (map (named_at buffer.now.items) places.now) }
    {
        CharStrings {
            form: CharStringsForm::Stored { buffer, places },
        }
    }

    /// The table of these glyphs.
    pub(crate) fn made(glyphs: Vec<Glyph<'a>>) -> Self
        requires { Rises name_cmp (map lent_glyph glyphs.items) }
        ensures { result ≡ fin.from_sorted (map lent_glyph glyphs.entry.items) }
    {
        CharStrings {
            form: CharStringsForm::Made(glyphs),
        }
    }

    /// The same glyphs. A table of a source is lent once more, and takes no room; any other is copied.
    pub fn copy(&self, alloc: Global) -> Result<Self, AllocError>
        ensures { IfOk result (λ m. m ≡ self.now) }
    {
        match &self.form {
            CharStringsForm::Stored { buffer, places } => Ok(CharStrings::stored(buffer, places)),
            CharStringsForm::Made(glyphs) => Ok(CharStrings::made(Vec::from_slice(alloc, glyphs)?)),
        }
    }

    /// How many glyphs the table has.
    #[tactic(auto, using(t1_join::proofs::TablePlaces::count_is))]
    pub fn len(&self) -> usize
        ensures { result ≡ fin.len self.now }
    {
        match &self.form {
            CharStringsForm::Stored { places, .. } => places.len(),
            CharStringsForm::Made(glyphs) => glyphs.len(),
        }
    }

    /// The place of a name, if it has a glyph.
    fn place_of(&self, name: &[u8]) -> Option<usize>
        ensures { option_and_then (slice_get (fin.entries self.now)) result
            ≡ option_map (λ b. (name.now, b)) (fin.get self.now name.now) }
    {
        match &self.form {
            CharStringsForm::Stored { buffer, places } => places
                .binary_search_by(|entry| entry.0.of(buffer).cmp(name))
                .ok(),
            CharStringsForm::Made(glyphs) => glyphs
                .binary_search_by(|glyph| glyph.name().cmp(name))
                .ok(),
        }
    }

    /// The glyph of a name.
    pub(crate) fn glyph(&self, name: &[u8]) -> Option<Glyph<'a>>
        ensures { option_map lent_glyph result
            ≡ option_map (λ b. (name.now, b)) (fin.get self.now name.now) }
    {
        self.at(self.place_of(name)?)
    }

    /// The charstring of a name.
    #[tactic(auto, using(crate::proofs::LentTables::value_there))]
    pub fn get(&self, name: &[u8]) -> Option<&'a [u8]>
        ensures { option_map (λ b. b.now) result ≡ fin.get self.now name.now }
    {
        let glyph = self.glyph(name)?;
        Some(glyph.body())
    }

    /// The entries, upwards by the bytes of their names.
    pub fn entries(&self) -> CharStringsEntries<'_, 'a>
        ensures { result ≡ fin.entries self.now }
    {
        CharStringsEntries {
            table: self,
            place: 0,
        }
    }

    /// `before` plus the weight of the entries as glyphs of a font with this lenIV, as far as 64 bits hold it.
    #[tactic(auto, using(std::proofs::lemmas::Map::Iter::rest_more, std::proofs::lemmas::Map::Iter::rest_all, crate::proofs::Weights::sums_none, crate::proofs::Weights::sums_next, crate::proofs::Weights::sums_all))]
    pub fn weight(&self, before: u64, len_iv: u8) -> u64
        ensures { result ≡ clamp (before + total (glyph_weight len_iv) (fin.entries self.now)) }
    {
        let mut weight = before;
        'bodies: for (_, body) in self.entries() {
            weight = weight.saturating_add(glyph_weight(len_iv, body.len()));
        }
        weight
    }
}

impl<'t, 'a> SortedTable for &'t CharStrings<'a> {
    ghost use Rattle.std.specs.Prelude.{List, ℕ};
    ghost use Rattle.t1_font.specs.{FontValue.{name_cmp}, Lent.{lent_glyph}};

    ghost Key = { List ℕ };

    ghost meaning = { λ n. n };

    ghost order = { name_cmp };

    ghost table = { λ m. m.now };

    type Entry = Glyph<'a>;

    ghost entry = { lent_glyph };

    #[tactic(auto, using(t1_join::proofs::TablePlaces::stands, t1_join::proofs::TablePlaces::stands_not, t1_join::proofs::TablePlaces::stands_copied))]
    fn at(self, place: usize) -> Option<Glyph<'a>> {
        match &self.form {
            CharStringsForm::Stored { buffer, places } => {
                let places = places.get(place)?;
                Some(Glyph { buffer, places })
            }
            CharStringsForm::Made(glyphs) => glyphs.get(place).copied(),
        }
    }

    #[inline(always)]
    fn compare(one: &Glyph<'a>, other: &Glyph<'a>) -> Ordering {
        one.name().cmp(other.name())
    }

    #[inline(always)]
    fn same(one: &Glyph<'a>, other: &Glyph<'a>) -> bool {
        one.body() == other.body()
    }
}

/// The glyphs of CharStrings, upwards by the bytes of their names.
#[derive(Drop)]
pub struct CharStringsEntries<'t, 'a> {
    table: &'t CharStrings<'a>,
    place: usize,
}

impl<'t, 'a> Model for CharStringsEntries<'t, 'a> {
    ghost use Rattle.std.specs.Prelude.{List, ℕ, drop};
    ghost use Rattle.std.specs.FinMap as fin;

    ghost Value = { List (List ℕ × List ℕ) };

    ghost view = { λ s. drop s.place (fin.entries s.table.now) };
}

impl<'t, 'a> Iterator for CharStringsEntries<'t, 'a> {
    type Item = (&'a [u8], &'a [u8]);

    ghost use Rattle.std.specs.{Prelude.{length}, Iterator.{at_most}, Map.Iter.{TakesFirst}};
    ghost use Rattle.t1_font.specs.Lent.{lent_name};

    ghost next_gives = { TakesFirst lent_name };

    ghost remaining = { λ s. at_most (length s) };

    #[tactic(auto, using(t1_join::proofs::TablePasses::from_place, t1_join::proofs::TablePasses::past_all))]
    fn next(&mut self) -> Option<(&'a [u8], &'a [u8])> {
        let glyph = self.table.at(self.place)?;
        self.place += 1;
        Some((glyph.name(), glyph.body()))
    }
}
