//! The join of states.

ghost use Rattle.std.specs.Prelude.{◌≡◌, ◌↔◌, ◌≤◌, ◌+◌, [], IsTrue};
ghost use Rattle.t1_join.specs.TableMeaning.{TablesAgree, joined_table};
ghost use Rattle.t1_font.specs.{FontValue.{total, weight_limit, count_limit}, FontModel.{clamp}};
ghost use Rattle.t1_algebra.specs.StateTables.{StatesFit, code_part, name_part, subr_part, subr_adds, states_weight, states_glyphs, joined_states};
ghost use Rattle.t1_algebra.specs.StateLaws.{PartsAgree};
ghost use Rattle.std.specs.FinMap as maps;

use crate::name_states::NameTable;
use crate::shared::Shared;
use crate::state_value::States;
use std::alloc::{AllocError, Global};
use t1_font::{COUNT_LIMIT, CharStrings, Extent, WEIGHT_LIMIT};
use t1_join::{Join, Table};

/// How many bytes a Subr has more than a stub.
fn subr_adds(body: &[u8]) -> u64
    ensures { result ≡ subr_adds [] body.now }
{
    (body.len() as u64).saturating_sub(1)
}

/// `before` plus what the Subrs of both tables weigh more than as many stubs, as far as 64 bits hold it.
#[tactic(auto, using(std::proofs::lemmas::Map::Iter::rest_more, std::proofs::lemmas::Map::Iter::rest_all, t1_font::proofs::Weights::sums_none, t1_font::proofs::Weights::sums_next, t1_font::proofs::Weights::sums_all))]
fn with_subrs<'a>(before: u64, own: &Table<u16, &'a [u8]>, other: &Table<u16, &'a [u8]>) -> u64
    ensures { result
        ≡ clamp (before + total subr_adds (maps.entries (joined_table own.now other.now))) }
{
    let mut weight = before;
    'entries: for (_, body) in own.entries_with(other) {
        weight = weight.saturating_add(subr_adds(body));
    }
    weight
}

/// Whether a font that weighs this and has as many glyphs is within the limits.
fn is_within(extent: Extent) -> bool
    ensures { IsTrue result ↔ ((extent.weight ≤ weight_limit) × (extent.count ≤ count_limit)) }
{
    extent.weight <= WEIGHT_LIMIT && extent.count <= COUNT_LIMIT as u64
}

impl<'a> States<'a> {
    /// What a font of the joined states weighs, and how many glyphs it has.
    fn joint_extent(&self, other: &States<'a>) -> Extent
        requires { PartsAgree self.now other.now }
        ensures weight { result.weight
            ≡ clamp (states_weight (joined_states self.now other.now)) }
        ensures count { result.count
            ≡ clamp (states_glyphs (joined_states self.now other.now)) }
    {
        let with_subrs = with_subrs(self.shared.weight(), &self.subrs, &other.subrs);
        self.names
            .extent_with(&other.names, with_subrs, self.shared.len_iv())
    }

    /// The same, by the joined states of the names.
    fn extent_by(&self, other: &States<'a>, names: &NameTable<'a>) -> Extent
        requires { names.now ≡ joined_table (name_part self.now) (name_part other.now) }
        ensures weight { result.weight
            ≡ clamp (states_weight (joined_states self.now other.now)) }
        ensures count { result.count
            ≡ clamp (states_glyphs (joined_states self.now other.now)) }
    {
        let with_subrs = with_subrs(self.shared.weight(), &self.subrs, &other.subrs);
        names.extent(with_subrs, self.shared.len_iv())
    }

    /// Whether a font of the joined states is within the limits.
    fn fits_with(&self, other: &States<'a>) -> bool
        requires { PartsAgree self.now other.now }
        ensures { IsTrue result ↔ StatesFit (joined_states self.now other.now) }
    {
        is_within(self.joint_extent(other))
    }

    /// The same, by the joined states of the names.
    fn fits_by(&self, other: &States<'a>, names: &NameTable<'a>) -> bool
        requires { names.now ≡ joined_table (name_part self.now) (name_part other.now) }
        ensures { IsTrue result ↔ StatesFit (joined_states self.now other.now) }
    {
        is_within(self.extent_by(other, names))
    }

    /// What the font shares with each font that it joins.
    pub(crate) fn shared(&self) -> &Shared<'a>
        ensures { result.now ≡ self.now.0 }
    {
        &self.shared
    }

    /// The states of codes.
    pub(crate) fn codes(&self) -> &Table<u16, &'a [u8]>
        ensures { result.now ≡ code_part self.now }
    {
        &self.codes
    }

    /// The states of names.
    fn names(&self) -> &NameTable<'a>
        ensures { result.now ≡ name_part self.now }
    {
        &self.names
    }

    /// The states of Subrs.
    pub(crate) fn subrs(&self) -> &Table<u16, &'a [u8]>
        ensures { result.now ≡ subr_part self.now }
    {
        &self.subrs
    }

    /// Whether the fonts share what they have to, and the states of codes and Subrs join.
    fn numbers_agree(&self, other: &States<'a>) -> bool
        ensures { IsTrue result
            ↔ ((self.now.0 ≡ other.now.0)
            × TablesAgree (code_part self.now) (code_part other.now)
            × TablesAgree (subr_part self.now) (subr_part other.now)) }
    {
        self.shared.is_same(&other.shared)
            && self.codes().agrees(other.codes())
            && self.subrs().agrees(other.subrs())
    }

    /// Whether the fonts share what they have to, and all states join.
    fn parts_agree(&self, other: &States<'a>) -> bool
        ensures { IsTrue result ↔ PartsAgree self.now other.now }
    {
        self.numbers_agree(other) && self.names().agrees(other.names())
    }

    /// States that these states are within the limits. It does nothing when it runs: proofs call it.
    fn proof_fits(&self)
        ensures { StatesFit self.now }
    {
        let _names = &self.names;
    }
}

impl<'a> Join for States<'a> {
    ghost use Rattle.t1_algebra.specs.{StateTables.{StatesValue, FontStatesAgree, FontStatesJoin}, StateLaws.{states_laws}};

    ghost Meaning = { StatesValue };

    ghost meaning = { λ s. s };

    ghost Agrees = { FontStatesAgree };

    ghost Joins = { FontStatesJoin };

    ghost laws = { states_laws };

    fn agrees(&self, other: &States<'a>) -> bool {
        self.proof_fits();
        self.parts_agree(other) && self.fits_with(other)
    }

    fn join(&self, alloc: Global, other: &States<'a>) -> Result<States<'a>, AllocError> {
        match self.join_if_agreed(alloc, other)? {
            Some(joined) => Ok(joined),
            None => unreachable!(),
        }
    }

    fn join_if_agreed(
        &self,
        alloc: Global,
        other: &States<'a>,
    ) -> Result<Option<States<'a>>, AllocError> {
        self.proof_fits();
        if !self.numbers_agree(other) {
            return Ok(None);
        }
        let Some(names) = self.names().join_if_agreed(alloc, other.names())? else {
            return Ok(None);
        };
        if !self.fits_by(other, &names) {
            return Ok(None);
        }
        Ok(Some(States {
            shared: self.shared.copy(alloc)?,
            codes: self.codes.join(alloc, &other.codes)?,
            names,
            subrs: self.subrs.join(alloc, &other.subrs)?,
        }))
    }
}
