//! The states of names: the glyphs of a font, which are lent, and the components that its glyphs seek.

ghost use Rattle.std.specs.{Prelude.{◌≡◌, ◌↔◌, ◌+◌, ℕ, List, IfOk, IsTrue, MatchOption, Some, None, is_some, [], cond}, Option.{option_map}, List.{find}};
ghost use Rattle.t1_font.specs.{FontValue.{name_cmp, total}, FontModel.{clamp}};
ghost use Rattle.t1_join.specs.{Meaning.{Meaning}, TableMeaning.{TablesAgree, TablesJoin, joined_table}};
ghost use Rattle.t1_algebra.specs.{Profile.{profile}, StateTables.{name_states, AreNameStates, behind_mark, name_adds, name_counts}};
ghost use Rattle.t1_algebra.specs.{NameStates.{is_sought_in, charstrings_differ, lacks, one_lacks, lacks_in}, Searches.{IsLowest}};
ghost use Rattle.t1_subset.specs.References.{seeker_of};
ghost use Rattle.std.specs.FinMap as maps;

use crate::references::{Seekers, smaller};
use std::alloc::{AllocError, Global};
use std::marker::Model;
use t1_font::{CharStrings, Extent, Font, join_same_glyphs};
use t1_join::{Join, Kept, Table};

/// That a name is sought. It has nothing else to say.
#[derive(Clone, Copy)]
pub(crate) struct Sought;

impl Kept for Sought {
    ghost use Rattle.std.specs.Prelude.{[]};

    ghost meaning = { λ _. [] };

    fn same(&self, _other: &Sought) -> bool {
        true
    }

    fn copy(&self, _alloc: Global) -> Result<Sought, AllocError> {
        Ok(Sought)
    }
}

/// The states of the names of a font: each glyph's charstring, and the names that glyphs seek and that have no glyph.
#[derive(Drop)]
pub(crate) struct NameTable<'a> {
    glyphs: CharStrings<'a>,
    sought: Table<&'a [u8], Sought>,
}

impl<'a> Model for NameTable<'a> {
    ghost use Rattle.t1_join.specs.TableMeaning.{TableMeaning, table_code};
    ghost use Rattle.t1_algebra.specs.StateTables.{names_table, AreSought};

    ghost Value = { TableMeaning };

    ghost coded = { table_code };

    ghost view = { λ t. names_table t.glyphs t.sought };

    ghost invariant = { λ t. AreSought t.sought };
}

/// The components that have a seeker, as sought names.
#[tactic(auto, using(t1_algebra::proofs::Tables::sought_all))]
fn sought_names<'a>(
    alloc: Global,
    seekers: &Seekers<'a>,
) -> Result<Table<&'a [u8], Sought>, AllocError>
    ensures { (q : Meaning)
        → IfOk result (λ sought. maps.get sought q
        ≡ cond (maps.contains_key seekers.now q) (Some []) None) }
{
    let mut sought = Table::new(alloc);
    'seekers: for (component, _) in seekers.entries() {
        sought.insert(*component, Sought)?;
    }
    Ok(sought)
}

/// The first of these names that the one table seeks and for which the other has a glyph.
fn first_lacked<'a>(
    names: &Table<&'a [u8], Sought>,
    own: &NameTable<'_>,
    other: &NameTable<'_>,
) -> Option<&'a [u8]>
    ensures { option_map (λ n. n.now) result
        ≡ option_map (λ e. e.0)
        (find (lacks_in own.now other.now) (maps.entries names.now)) }
{
    'names: for (name, _) in names.entries() {
        if own.seeks(name) && other.has_glyph(name) {
            return Some(*name);
        }
    }
    None
}

impl<'a> NameTable<'a> {
    /// The states of the names of a font with these seekers.
    #[tactic(auto, using(t1_algebra::proofs::Tables::only_sought))]
    pub(crate) fn of(
        alloc: Global,
        font: &Font<'a>,
        seekers: &Seekers<'a>,
    ) -> Result<NameTable<'a>, AllocError>
        requires { (p : List ℕ) → maps.get seekers.now p ≡ seeker_of font.now p }
        ensures { IfOk result (λ names. names ≡ name_states profile font.now) }
    {
        Ok(NameTable {
            glyphs: font.glyphs().copy(alloc)?,
            sought: sought_names(alloc, seekers)?,
        })
    }

    /// The charstring of a name, if it has a glyph.
    #[tactic(auto, using(t1_algebra::proofs::Tables::charstring_in))]
    fn charstring(&self, name: &[u8]) -> Option<&'a [u8]>
        ensures { option_map (λ c. c.now) result ≡ behind_mark (maps.get self.now name.now) }
    {
        self.glyphs.get(name)
    }

    /// The glyphs of the names.
    #[tactic(auto, using(t1_algebra::proofs::Tables::charstring_in))]
    pub(crate) fn into_glyphs(self) -> CharStrings<'a>
        ensures { (n : List ℕ) → maps.get result n ≡ behind_mark (maps.get self.entry n) }
    {
        self.glyphs
    }

    /// Whether a name has a glyph.
    fn has_glyph(&self, name: &[u8]) -> bool
        ensures { result ≡ is_some (behind_mark (maps.get self.now name.now)) }
    {
        self.charstring(name).is_some()
    }

    /// Whether a name is sought.
    fn seeks(&self, name: &[u8]) -> bool
        ensures { result ≡ is_sought_in (maps.get self.now name.now) }
    {
        !self.has_glyph(name) && self.sought.get(&name).is_some()
    }

    /// States that each state of a name is a charstring, or that the name is sought. It does nothing when it runs: proofs
    /// call it.
    fn proof_states(&self)
        ensures { AreNameStates self.now }
    {
        let _glyphs = &self.glyphs;
    }

    /// The smallest name for which both have a glyph, with different charstrings.
    pub(crate) fn glyph_conflict(&self, other: &NameTable<'_>) -> Option<&'a [u8]>
        ensures { IsLowest name_cmp
            (λ n. charstrings_differ (maps.get self.now n) (maps.get other.now n))
            (option_map (λ n. n.now) result) }
    {
        self.glyphs.first_differing(&other.glyphs)
    }

    /// The smallest name that this table seeks and for which the other has a glyph.
    fn lacked(&self, other: &NameTable<'_>) -> Option<&'a [u8]>
        ensures { IsLowest name_cmp (λ n. lacks (maps.get self.now n) (maps.get other.now n))
            (option_map (λ n. n.now) result) }
    {
        first_lacked(&self.sought, self, other)
    }

    /// The smallest name that one of both seeks and for which the other has a glyph.
    pub(crate) fn component_conflict(&self, other: &NameTable<'a>) -> Option<&'a [u8]>
        ensures { IsLowest name_cmp
            (λ n. one_lacks (maps.get self.now n) (maps.get other.now n))
            (option_map (λ n. n.now) result) }
    {
        smaller(self.lacked(other), other.lacked(self))
    }

    /// How many glyphs the names of both tables have, and what they add to the weight of a font with this lenIV, added to
    /// `before`. A name that is sought weighs nothing.
    pub(crate) fn extent_with(&self, other: &NameTable<'a>, before: u64, len_iv: u8) -> Extent
        requires { TablesAgree self.now other.now }
        ensures weight { result.weight
            ≡ clamp (before
            + total (name_adds len_iv) (maps.entries (joined_table self.now other.now))) }
        ensures count { result.count
            ≡ clamp (total name_counts (maps.entries (joined_table self.now other.now))) }
    {
        self.glyphs.extent_with(&other.glyphs, before, len_iv)
    }

    /// How many glyphs the names have, and what they add to the weight of a font with this lenIV, added to `before`.
    pub(crate) fn extent(&self, before: u64, len_iv: u8) -> Extent
        ensures weight { result.weight
            ≡ clamp (before + total (name_adds len_iv) (maps.entries self.now)) }
        ensures count { result.count ≡ total name_counts (maps.entries self.now) }
    {
        Extent {
            weight: self.glyphs.weight(before, len_iv),
            count: self.glyphs.len() as u64,
        }
    }

    /// Whether the states of both tables join.
    pub(crate) fn agrees(&self, other: &NameTable<'a>) -> bool
        ensures { IsTrue result ↔ TablesAgree self.now other.now }
    {
        self.proof_states();
        other.proof_states();
        self.glyph_conflict(other).is_none() && self.component_conflict(other).is_none()
    }

    /// The joined states of both tables, or `None` if they don't join.
    #[tactic(auto, using(t1_algebra::proofs::Tables::sought_agree))]
    pub(crate) fn join_if_agreed(
        &self,
        alloc: Global,
        other: &NameTable<'a>,
    ) -> Result<Option<NameTable<'a>>, AllocError>
        ensures { IfOk result
            (λ o. MatchOption o (¬ TablesAgree self.now other.now) (TablesJoin self.now other.now)) }
    {
        self.proof_states();
        other.proof_states();
        if self.component_conflict(other).is_some() {
            return Ok(None);
        }
        let Some(glyphs) = join_same_glyphs(alloc, &self.glyphs, &other.glyphs)? else {
            return Ok(None);
        };
        let sought = self.sought.join(alloc, &other.sought)?;
        Ok(Some(NameTable { glyphs, sought }))
    }
}
