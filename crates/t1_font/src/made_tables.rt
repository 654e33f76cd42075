//! Sparse arrays that are made of a join's tables.

ghost use Rattle.std.specs.{Prelude.{◌≡◌, IfOk}};
ghost use Rattle.t1_font.specs.{MadeTables.{numbered, entry_or_stub}, Maps.{map_values}};
ghost use Rattle.std.specs.FinMap as fin;

use crate::lent::SparseArray;
use crate::stub::STUB;
use std::alloc::{AllocError, Global};
use t1_join::Table;

/// The entry of a table, or a stub if it has none.
fn entry_or_stub<'a>(table: &Table<u16, &'a [u8]>, index: u16) -> &'a [u8]
    ensures { result.now ≡ entry_or_stub table.now index }
{
    match table.get(&index) {
        Some(body) => *body,
        None => STUB,
    }
}

impl<'a> SparseArray<'a> {
    /// No entries.
    pub fn none(alloc: Global) -> Self
        ensures { result ≡ fin.empty }
    {
        SparseArray::made(Vec::new(alloc))
    }

    /// The entries of a table.
    pub fn of_table(table: Table<u16, &'a [u8]>) -> Self
        ensures { numbered result ≡ table.entry }
    {
        SparseArray::made(table.into_entries())
    }

    /// The entries of a table at the numbers of another array, and stubs where the table has none.
    pub fn with_stubs(
        alloc: Global,
        numbers: &SparseArray<'_>,
        table: &Table<u16, &'a [u8]>,
    ) -> Result<Self, AllocError>
        ensures { IfOk result (λ m. m ≡ map_values (λ i c. entry_or_stub table.now i) numbers.now) }
    {
        let mut all = Vec::with_capacity(alloc, numbers.len())?;
        'present: for (index, _) in numbers.entries() {
            all.push((index, entry_or_stub(table, index)))?;
        }
        Ok(SparseArray::made(all))
    }
}
