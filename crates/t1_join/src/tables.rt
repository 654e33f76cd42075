//! Tables: finite maps, joined key by key.
ghost use Rattle.std.specs.{Prelude.{◌≡◌, ◌≤◌, ◌↔◌, length, IsTrue, OnOk, OnErr, IfOk, MatchOption}, Option.{option_map, option_copied}, List.{insert}};
ghost use Rattle.std.specs.{List.Sorted.{IsStrictlySortedBy, IsBinarySearchResult, IsSearchInRange}, Map.{keys_of}};
ghost use Rattle.t1_join.specs.TableMeaning.{TablesAgree, IsFirstConflict, joined_table, entry_meanings, first_meanings, pair_meaning};
ghost use Rattle.t1_join.specs.Unsorted.{KeysDiffer, IsTableOf};
ghost use Rattle.std.specs.FinMap as fin;

use crate::keys::{Kept, Key};
use crate::partial::Join;
use crate::passes::{Both, SortedTable, differing_place};
use std::alloc::{AllocError, Global};
use std::cmp::Ordering;
use std::collections::BTreeMap;
use std::marker::Model;
use std::slice;

/// A finite map, seen by the meanings of its keys and values: its entries stand upwards by key.
#[derive(Drop)]
pub struct Table<K: Key, V: Kept> {
    entries: Vec<(K, V)>,
}

impl<K: Key, V: Kept> Model for Table<K, V> {
    ghost use Rattle.t1_join.specs.{Meaning.{meaning_cmp}, TableMeaning.{TableMeaning, table_code, meaning_of_entries, entry_meanings, Rises}};

    ghost Value = { TableMeaning };

    ghost coded = { table_code };

    ghost view = { λ t. meaning_of_entries K.meaning V.meaning t.entries.items };

    ghost invariant = { λ t. Rises meaning_cmp
        (entry_meanings K.meaning V.meaning t.entries.items) };
}

impl<K: Key + Drop, V: Kept + Drop> Table<K, V> {
    /// A table with no entry.
    pub fn new(alloc: Global) -> Self
        ensures { result ≡ fin.empty }
    {
        Table {
            entries: Vec::new(alloc),
        }
    }

    /// The table of the entries of a map, which stand upwards by key.
    pub(crate) fn of_map(alloc: Global, map: BTreeMap<K, V>) -> Result<Self, AllocError>
        ensures { IfOk result (λ t. t ≡ first_meanings K.meaning V.meaning map.entries) }
    {
        let mut entries = Vec::with_capacity(alloc, map.len())?;
        for entry in map {
            entries.push(entry)?;
        }
        Ok(Table { entries })
    }

    /// The table of entries in any order, or nothing if a key comes twice. They are sorted in place.
    pub(crate) fn of_entries(entries: Vec<(K, V)>) -> Option<Self>
        ensures { MatchOption result
            (¬ KeysDiffer (entry_meanings K.meaning V.meaning entries.items))
            (IsTableOf (entry_meanings K.meaning V.meaning entries.items)) }
    {
        let mut sorted = entries;
        sorted.sort_unstable_by(|one, other| one.0.cmp(&other.0));
        if keys_rise(sorted.as_slice()) {
            Some(Table { entries: sorted })
        } else {
            None
        }
    }

    /// Puts the value at the key. If memory is refused, the table stays as it was, and the pair is dropped.
    pub fn insert(&mut self, key: K, value: V) -> Result<(), AllocError>
        ensures ok { OnOk result (self.new
            ≡ fin.insert self.old (K.meaning key) (V.meaning value)) }
        ensures err { OnErr result (self.new ≡ self.old) }
    {
        match place_of(self.entries.as_slice(), &key) {
            Ok(at) => self.entries[at].1 = value,
            Err(at) => put_there(&mut self.entries, at, (key, value))?,
        }
        Ok(())
    }

    /// The value at the key.
    pub fn get(&self, key: &K) -> Option<&V>
        ensures { option_map V.meaning (option_copied result)
            ≡ fin.get self.now (K.meaning key.now) }
    {
        match self.entries.binary_search_by(|entry| entry.0.cmp(key)) {
            Ok(at) => Some(&self.entries[at].1),
            Err(_) => None,
        }
    }

    /// The entries, upwards by key.
    pub fn entries(&self) -> Entries<'_, K, V>
        ensures { result ≡ fin.entries self.now }
    {
        Entries {
            inner: self.entries.iter(),
        }
    }

    /// The entries, upwards by key, in a list of their own.
    pub fn into_entries(self) -> Vec<(K, V)>
        ensures { entry_meanings K.meaning V.meaning result.items ≡ fin.entries self }
    {
        self.entries
    }

    /// The entries of both tables, upwards by key: the first table's entry if both have the key.
    pub fn entries_with<'t>(&'t self, other: &'t Table<K, V>) -> Both<&'t Table<K, V>>
        ensures { result ≡ fin.entries (joined_table self.now other.now) }
    {
        Both::of(self, other)
    }

    /// The smallest key whose places do not join.
    pub fn conflict(&self, other: &Table<K, V>) -> Option<&K>
        ensures { MatchOption result (TablesAgree self.now other.now)
            (λ k. IsFirstConflict self.now other.now (K.meaning k.now)) }
    {
        let place = differing_place(self, other)?;
        let (key, _) = self.at(place)?;
        Some(key)
    }
}

impl<'t, K: Key, V: Kept> SortedTable for &'t Table<K, V> {
    ghost use Rattle.t1_join.specs.{Meaning.{Meaning, meaning_cmp}, TableMeaning.{pair_meaning}};

    ghost Key = { Meaning };

    ghost meaning = { λ q. q };

    ghost order = { meaning_cmp };

    ghost table = { λ t. t.now };

    type Entry = &'t (K, V);

    ghost entry = { λ e. pair_meaning K.meaning V.meaning e.now };

    #[inline(always)]
    fn at(self, place: usize) -> Option<&'t (K, V)> {
        self.entries.get(place)
    }

    #[inline(always)]
    fn compare(one: &&'t (K, V), other: &&'t (K, V)) -> Ordering {
        one.0.cmp(&other.0)
    }

    #[inline(always)]
    fn same(one: &&'t (K, V), other: &&'t (K, V)) -> bool {
        one.1.same(&other.1)
    }
}

/// What a binary search for the key answers. A key above all entries, as each is of a table that is built upwards, is not
/// searched for.
fn place_of<K: Key, V>(entries: &[(K, V)], key: &K) -> Result<usize, usize>
    ensures search { IsBinarySearchResult (λ e. K.cmp e.0 key.now) entries.now result }
    ensures bound { IsSearchInRange result (length entries.now) }
{
    let end = entries.len();
    if end > 0 && entries[end - 1].0.cmp(key).is_lt() {
        return Err(end);
    }
    entries.binary_search_by(|entry| entry.0.cmp(key))
}

/// Puts an entry at this place. At the end, it is added without a move.
fn put_there<K: Drop, V: Drop>(
    entries: &mut Vec<(K, V)>,
    at: usize,
    entry: (K, V),
) -> Result<(), AllocError>
    requires { at ≤ length entries.old.items }
    ensures ok { OnOk result (entries.new.items ≡ insert entries.old.items at entry) }
    ensures err { OnErr result (entries.new.items ≡ entries.old.items) }
{
    if at == entries.len() {
        entries.push(entry)?;
    } else {
        entries.insert(at, entry)?;
    }
    Ok(())
}

/// Whether each key is above the one before it.
fn keys_rise<K: Key, V>(entries: &[(K, V)]) -> bool
    ensures { IsTrue result ↔ IsStrictlySortedBy K.cmp (keys_of entries.now) }
{
    entries.is_sorted_by(|one, other| matches!(one.0.cmp(&other.0), Ordering::Less))
}

/// An entry with the same meanings.
fn copy_entry<K: Key + Drop, V: Kept + Drop>(
    alloc: Global,
    entry: &(K, V),
) -> Result<(K, V), AllocError>
    ensures { IfOk result (λ e. pair_meaning K.meaning V.meaning e
        ≡ pair_meaning K.meaning V.meaning entry.now) }
{
    let key = entry.0.copy(alloc)?;
    let value = entry.1.copy(alloc)?;
    Ok((key, value))
}

/// Copies of the entries of both tables, upwards by key: the first table's if both have a key.
#[tactic(auto, using(crate::proofs::TablePasses::all_out))]
fn copy_both<K: Key + Drop, V: Kept + Drop>(
    alloc: Global,
    first: &Table<K, V>,
    second: &Table<K, V>,
) -> Result<Vec<(K, V)>, AllocError>
    ensures { IfOk result (λ all. entry_meanings K.meaning V.meaning all.items
        ≡ fin.entries (joined_table first.now second.now)) }
{
    let room = first.entries.len().saturating_add(second.entries.len());
    let mut all = Vec::with_capacity(alloc, room)?;
    for entry in first.entries_with(second) {
        all.push(copy_entry(alloc, entry)?)?;
    }
    Ok(all)
}

impl<K: Key + Drop, V: Kept + Drop> Join for Table<K, V> {
    ghost use Rattle.t1_join.specs.{TableMeaning.{TableMeaning, TablesAgree, TablesJoin}, TableLaws.{table_laws}};

    ghost Meaning = { TableMeaning };

    ghost meaning = { λ t. t };

    ghost Agrees = { TablesAgree };

    ghost Joins = { TablesJoin };

    ghost laws = { table_laws };

    fn agrees(&self, other: &Table<K, V>) -> bool {
        self.conflict(other).is_none()
    }

    fn join(&self, alloc: Global, other: &Table<K, V>) -> Result<Table<K, V>, AllocError> {
        Ok(Table {
            entries: copy_both(alloc, self, other)?,
        })
    }
}

/// The entries of a table, upwards by key.
#[derive(Drop)]
pub struct Entries<'a, K: Key, V: Kept> {
    inner: slice::Iter<'a, (K, V)>,
}

impl<'a, K: Key, V: Kept> Model for Entries<'a, K, V> {
    ghost use Rattle.std.specs.{Prelude.{List}, Slice.Iter.{iter_rest}};
    ghost use Rattle.t1_join.specs.{Meaning.{Meaning}, TableMeaning.{entry_meanings}};

    ghost Value = { List (Meaning × Meaning) };

    ghost view = { λ s. entry_meanings K.meaning V.meaning (iter_rest s.inner) };
}

impl<'a, K: Key, V: Kept> Iterator for Entries<'a, K, V> {
    type Item = (&'a K, &'a V);

    ghost use Rattle.std.specs.{Prelude.{length}, Iterator.{at_most}, Map.Iter.{TakesFirst}};
    ghost use Rattle.t1_join.specs.TableMeaning.{lent_meanings};

    ghost next_gives = { TakesFirst (lent_meanings K.meaning V.meaning) };

    ghost remaining = { λ s. at_most (length s) };

    fn next(&mut self) -> Option<(&'a K, &'a V)> {
        let (key, value) = self.inner.next()?;
        Some((key, value))
    }
}
