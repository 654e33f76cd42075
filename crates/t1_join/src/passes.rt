//! One pass over two tables in the order of their keys.
ghost use Rattle.std.specs.{Prelude.{◌≡◌, ◌++◌, ◌∷◌, ◌<◌, [], map, IfSome, MatchOption, OnOk, OnErr}, declared.cmp.Ordering.{Ordering}, List.{slice_get}};
ghost use Rattle.std.specs.{Option.{option_map, option_and_then}, FinMap.{FinMap, entries}};
ghost use Rattle.t1_join.specs.{Meaning.{Meaning, same_meaning}, Entries.{entries_by}, Passes.{merge, first_met, merged_from, AddsSome}};

use std::alloc::AllocError;
use std::cmp::Ordering;
use std::marker::Model;

/// A table that is lent, in the order of its keys: what stands at each place, counted from 0.
pub trait SortedTable: Copy + Drop {
    ghost Key: { Type 0 };

    ghost meaning: { Key → Meaning };

    ghost order: { Key → Key → Ordering };

    ghost table: { Self → FinMap order Meaning };

    type Entry: Copy + Drop;

    ghost entry: { Self.Entry → Key × Meaning };

    /// The entry at a place. The place after an entry fits in a `usize`.
    fn at(self, place: usize) -> Option<Self::Entry>
        ensures entry { option_map entry result ≡ slice_get (entries (table self)) place }
        ensures short { IfSome result (λ _. place < 18446744073709551615) };

    /// The order of the keys of two entries.
    fn compare(one: &Self::Entry, other: &Self::Entry) -> Ordering
        ensures { result ≡ order (entry one.now).0 (entry other.now).0 };

    /// Whether the values of two entries are the same.
    fn same(one: &Self::Entry, other: &Self::Entry) -> bool
        ensures { result ≡ same_meaning (entry one.now).1 (entry other.now).1 };
}

/// The entry that comes next of two tables from two places on, and the places behind it. If both have its key, it is the
/// first's, and both tables go on.
#[inline(always)]
#[tactic(auto, using(crate::proofs::TablePasses::none_ahead, crate::proofs::TablePasses::first_alone, crate::proofs::TablePasses::second_alone, crate::proofs::TablePasses::first_lower, crate::proofs::TablePasses::both_tie, crate::proofs::TablePasses::second_lower))]
fn next_of<T: SortedTable>(
    first: T,
    second: T,
    i: usize,
    j: usize,
) -> Option<(T::Entry, usize, usize)>
    ensures { MatchOption result (merged_from (T.table first) (T.table second) i j ≡ [])
        (λ next. merged_from (T.table first) (T.table second) i j
        ≡ T.entry next.0 ∷ merged_from (T.table first) (T.table second) next.1 next.2) }
{
    match (first.at(i), second.at(j)) {
        (None, None) => None,
        (Some(one), None) => Some((one, i + 1, j)),
        (None, Some(other)) => Some((other, i, j + 1)),
        (Some(one), Some(other)) => match T::compare(&one, &other) {
            Ordering::Less => Some((one, i + 1, j)),
            Ordering::Equal => Some((one, i + 1, j + 1)),
            Ordering::Greater => Some((other, i, j + 1)),
        },
    }
}

/// The entries of two tables, upwards by key. If both have a key, it is the first's entry.
#[derive(Drop)]
pub struct Both<T: SortedTable> {
    first: T,
    second: T,
    i: usize,
    j: usize,
}

impl<T: SortedTable> Model for Both<T> {
    ghost use Rattle.std.specs.Prelude.{List};
    ghost use Rattle.t1_join.specs.{Meaning.{Meaning}, Entries.{entries_by}, Passes.{merged_from}};

    ghost Value = { List (Meaning × Meaning) };

    ghost view = { λ s. entries_by T.meaning (λ v. v)
        (merged_from (T.table s.first) (T.table s.second) s.i s.j) };
}

impl<T: SortedTable> Iterator for Both<T> {
    type Item = T::Entry;

    ghost use Rattle.std.specs.{Prelude.{length}, Iterator.{at_most}, Map.Iter.{TakesFirst}};
    ghost use Rattle.t1_join.specs.Entries.{entry_by};

    ghost next_gives = { TakesFirst (λ e. entry_by T.meaning (λ v. v) (T.entry e)) };

    ghost remaining = { λ s. at_most (length s) };

    #[inline(always)]
    fn next(&mut self) -> Option<T::Entry> {
        let (entry, i, j) = next_of(self.first, self.second, self.i, self.j)?;
        self.i = i;
        self.j = j;
        Some(entry)
    }
}

impl<T: SortedTable> Both<T> {
    /// All entries of two tables.
    pub fn of(first: T, second: T) -> Self
        ensures { result ≡ entries_by T.meaning (λ v. v)
            (merge T.order (entries (T.table first)) (entries (T.table second))) }
    {
        Both {
            first,
            second,
            i: 0,
            j: 0,
        }
    }
}

/// Adds the entries of two tables from two places on, upwards by key. If both have a key, the first's entry stands. Where a growth is
/// refused, the first few of them were added, behind what was there.
#[tactic(auto, using(crate::proofs::TablePasses::none_pushed, crate::proofs::TablePasses::one_pushed, crate::proofs::TablePasses::all_pushed, crate::proofs::TablePasses::some_pushed))]
pub fn push_both<T: SortedTable>(
    all: &mut Vec<T::Entry>,
    first: T,
    second: T,
    from_first: usize,
    from_second: usize,
) -> Result<(), AllocError>
    ensures all { OnOk result (map T.entry all.new.items
        ≡ map T.entry all.old.items
        ++ merged_from (T.table first) (T.table second) from_first from_second) }
    ensures some { OnErr result (AddsSome (merged_from (T.table first) (T.table second) from_first from_second)
        (map T.entry all.old.items) (map T.entry all.new.items)) }
{
    let mut i = from_first;
    let mut j = from_second;
    'pass: while let Some((entry, next_i, next_j)) = next_of(first, second, i, j) {
        all.push(entry)?;
        i = next_i;
        j = next_j;
    }
    Ok(())
}

/// The place of the first table's first entry whose key the second table has with another value.
#[tactic(auto, using(crate::proofs::TablePasses::meets_later, crate::proofs::TablePasses::meets_above, crate::proofs::TablePasses::meets_same, crate::proofs::TablePasses::meets_here, crate::proofs::TablePasses::first_ends, crate::proofs::TablePasses::second_ends, crate::proofs::TablePasses::first_nearer, crate::proofs::TablePasses::second_nearer, crate::proofs::TablePasses::both_nearer))]
pub fn differing_place<T: SortedTable>(first: T, second: T) -> Option<usize>
    ensures { option_map (λ e. e.0) (option_and_then (slice_get (entries (T.table first))) result)
        ≡ first_met T.order same_meaning (entries (T.table first)) (entries (T.table second)) }
{
    let mut i = 0;
    let mut j = 0;
    'pass: while let (Some(one), Some(other)) = (first.at(i), second.at(j)) {
        match T::compare(&one, &other) {
            Ordering::Less => i += 1,
            Ordering::Greater => j += 1,
            Ordering::Equal => {
                if !T::same(&one, &other) {
                    return Some(i);
                }
                i += 1;
                j += 1;
            }
        }
    }
    None
}
