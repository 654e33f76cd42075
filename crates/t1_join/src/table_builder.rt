//! Entries as they are read: a tree takes keys in any order at the same cost, and its entries make a table at the end.
ghost use Rattle.std.specs.Prelude.{◌≡◌, IfOk, MatchBool, OnErr};
ghost use Rattle.t1_join.specs.TableMeaning.{IsNewEntry, IsRepeated};
ghost use Rattle.std.specs.FinMap as fin;

use crate::keys::{Kept, Key};
use crate::tables::Table;
use std::alloc::{AllocError, Global};
use std::collections::BTreeMap;
use std::marker::Model;

/// A finite map that is being built, seen by the meanings of its keys and values.
#[derive(Drop)]
pub(crate) struct TableBuilder<K: Key, V: Kept> {
    map: BTreeMap<K, V>,
}

impl<K: Key, V: Kept> Model for TableBuilder<K, V> {
    ghost use Rattle.t1_join.specs.TableMeaning.{TableMeaning, table_code, first_meanings};

    ghost Value = { TableMeaning };

    ghost coded = { table_code };

    ghost view = { λ t. first_meanings K.meaning V.meaning t.map.entries };
}

impl<K: Key + Drop, V: Kept + Drop> TableBuilder<K, V> {
    /// A map with no entry.
    pub(crate) fn new(alloc: Global) -> Self
        ensures { result ≡ fin.empty }
    {
        TableBuilder {
            map: BTreeMap::new(alloc),
        }
    }

    /// Adds the entry, unless its key is there: then the answer is false. The map stays as it was if the key is there or
    /// memory is refused.
    pub(crate) fn add(&mut self, key: K, value: V) -> Result<bool, AllocError>
        ensures ok { IfOk result
            (λ new. MatchBool new
            (IsNewEntry self.old (K.meaning key) (V.meaning value) self.new)
            (IsRepeated self.old (K.meaning key) self.new)) }
        ensures err { OnErr result (self.new ≡ self.old) }
    {
        if self.map.contains_key(&key) {
            return Ok(false);
        }
        self.map.insert(key, value)?;
        Ok(true)
    }

    /// The table of the entries.
    pub(crate) fn table(self, alloc: Global) -> Result<Table<K, V>, AllocError>
        ensures { IfOk result (λ t. t ≡ self) }
    {
        Table::of_map(alloc, self.map)
    }
}
