//! The names of a closure in the order in which they were met: its work list.

ghost use Rattle.std.specs.{Prelude.{◌≡◌, OnOk, List, ℕ, [], map, filter, slice_get}, Option.{option_map}};
ghost use Rattle.t1_algebra.specs.Keep.{has};
ghost use Rattle.t1_subset.specs.{ClosureNames.{push_new, push_all}, NameSets.{lent}};

use indexmap::IndexSet;
use std::alloc::{AllocError, Global};
use std::marker::Model;
use t1_font::Font;
use t1_run::Glyphs;

/// Names without repeats, in the order in which they were met. They are borrowed: the names that are asked for from the
/// caller, and the names of components from the table of StandardEncoding.
#[derive(Drop)]
pub(crate) struct ClosureNames<'a> {
    names: IndexSet<&'a [u8]>,
}

impl<'a> Model for ClosureNames<'a> {
    ghost use Rattle.std.specs.Prelude.{List, ℕ};
    ghost use Rattle.t1_subset.specs.{ClosureNames.{closure_code}, NameSets.{lent}};

    ghost Value = { List (List ℕ) };

    ghost coded = { closure_code };

    ghost view = { λ c. lent c.names.keys };
}

impl<'a> ClosureNames<'a> {
    /// A list of no names.
    pub(crate) fn new(alloc: Global) -> ClosureNames<'a>
        ensures { result ≡ [] }
    {
        ClosureNames {
            names: IndexSet::new(alloc),
        }
    }

    /// The name that was met at this place.
    pub(crate) fn get(&self, place: usize) -> Option<&'a [u8]>
        ensures { option_map (λ n. n.now) result ≡ slice_get self.now place }
    {
        match self.names.get_index(place) {
            Some(name) => Some(*name),
            None => None,
        }
    }

    /// The names, in the order in which they were met.
    pub(crate) fn as_slice(&self) -> &[&'a [u8]]
        ensures { lent result.now ≡ self.now }
    {
        self.names.as_slice()
    }

    /// Adds a name, unless it is there already.
    pub(crate) fn add(&mut self, name: &'a [u8]) -> Result<(), AllocError>
        ensures { OnOk result (self.new ≡ push_new self.old name.now) }
    {
        self.names.insert(name)?;
        Ok(())
    }

    /// Adds each of these names, unless it is there already.
    pub(crate) fn add_all(&mut self, names: &[&'a [u8]]) -> Result<(), AllocError>
        ensures { OnOk result (self.new ≡ push_all self.old (lent names.now)) }
    {
        'names: for name in names {
            self.add(name)?;
        }
        Ok(())
    }
}

/// Whether the font has a glyph of this name.
pub(crate) fn has_glyph(font: &Font<'_>, name: &[u8]) -> bool
    ensures { result ≡ has font.now name.now }
{
    font.glyph(name).is_some()
}

/// Adds the components that the font has.
pub(crate) fn add_components(
    font: &Font<'_>,
    closure: &mut ClosureNames<'_>,
    components: &[&'static str],
) -> Result<(), AllocError>
    ensures { OnOk result (closure.new
        ≡ push_all closure.old (filter (has font.now) (map (λ s. s.now) components.now))) }
{
    'components: for component in components {
        if has_glyph(font, component.as_bytes()) {
            closure.add(component.as_bytes())?;
        }
    }
    Ok(())
}
