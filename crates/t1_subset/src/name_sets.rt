//! Sets of names.

ghost use Rattle.std.specs.{Prelude.{◌≡◌, IfOk, OnOk, OnErr}, List.Sorted.{IsStrictlySortedBy}};
ghost use Rattle.t1_font.specs.FontValue.{name_cmp};
ghost use Rattle.t1_subset.specs.NameSets.{listed_names, set_by};
ghost use Rattle.std.specs.FinSet as sets;

use std::alloc::{AllocError, Global};
use std::collections::BTreeSet;
use std::marker::Model;

/// Names in the order of their bytes, without repeats.
#[derive(Drop)]
pub(crate) struct NameSet {
    names: BTreeSet<Vec<u8>>,
}

impl Model for NameSet {
    ghost use Rattle.t1_algebra.specs.Interpreter.{Names};
    ghost use Rattle.t1_subset.specs.NameSets.{names_code, set_by};

    ghost Value = { Names };

    ghost coded = { names_code };

    ghost view = { λ s. set_by s.names.keys };
}

impl NameSet {
    /// A set of no names.
    pub(crate) fn new(alloc: Global) -> Self
        ensures { result ≡ sets.empty }
    {
        NameSet {
            names: BTreeSet::new(alloc),
        }
    }

    /// Adds a name.
    pub(crate) fn insert(&mut self, name: Vec<u8>) -> Result<(), AllocError>
        ensures ok { OnOk result (self.new ≡ sets.insert self.old name.items) }
        ensures err { OnErr result (self.new ≡ self.old) }
    {
        self.names.insert(name)?;
        Ok(())
    }

    /// The names, upwards by their bytes.
    pub(crate) fn into_names(self, alloc: Global) -> Result<Vec<Vec<u8>>, AllocError>
        ensures members { IfOk result (λ names. set_by names.items ≡ self) }
        ensures upwards { IfOk result
            (λ names. IsStrictlySortedBy name_cmp (listed_names names.items)) }
    {
        let mut names = Vec::new(alloc);
        'names: for name in self.names {
            names.push(name)?;
        }
        Ok(names)
    }
}
