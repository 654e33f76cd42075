//! The joined states of fonts, or why they don't merge: the conflict of the first font that doesn't join those before it.

ghost use Rattle.std.specs.Prelude.{◌≡◌, ◌<◌, IfOk, IfErr, length, map};
ghost use Rattle.t1_font.specs.FontValue.{FontValue};
ghost use Rattle.t1_algebra.specs.{Profile.{profile}, StateTables.{FontStatesAgree, states_of}, Conflicts.{conflict}, Merges.{ComesToStates}};
ghost use Rattle.t1_subset.specs.{Clashes.{AreStatesOf, AreReferences}, Refusals.{Tells}, References.{AreNoted, fonts_of}, Merger.{NotMerged}};

use crate::conflict::Conflict;
use crate::references::References;
use crate::searches::{one_shell, tables_conflict};
use crate::state_value::States;
use std::alloc::Global;
use t1_join::join_first;

/// The lowest conflict of two fonts whose states don't join: if shells and states have none, the limits refuse them. The references are
/// those of both fonts.
fn conflict_of(
    alloc: Global,
    left: &States<'_>,
    right: &States<'_>,
    references: &[References<'_, '_>],
) -> Conflict
    ensures { (f g : FontValue)
        → AreStatesOf left.now right.now f g
        → AreReferences references.now f g
        → (FontStatesAgree left.now right.now → ⊥)
        → Tells result (conflict profile f g) }
{
    if let Err(conflict) = one_shell(&left.shared, &right.shared) {
        return conflict;
    }
    match tables_conflict(alloc, left, right, references) {
        Err(conflict) => conflict,
        Ok(()) => Conflict::Limit,
    }
}

/// The joined states of one or more fonts, by the references of each and its states, or the first conflict from left to right.
#[tactic(auto, using(std::proofs::lemmas::Result::err_from_is_err_and))]
pub(crate) fn all_join<'a>(
    alloc: Global,
    references: &[References<'_, '_>],
    states: &[States<'a>],
) -> Result<States<'a>, Conflict>
    requires some { 0 < length references.now }
    requires noted { AreNoted references.now }
    requires states { states.now ≡ map (states_of profile) (fonts_of references.now) }
    ensures ok { IfOk result (λ all. ComesToStates (fonts_of references.now) all) }
    ensures err { IfErr result (λ e. NotMerged (fonts_of references.now) e) }
{
    let Some((joined, count)) = join_first(alloc, states)? else {
        return Err(Conflict::Empty);
    };
    match states.get(count) {
        Some(next) => Err(conflict_of(alloc, &joined, next, &references[..count + 1])),
        None => Ok(joined),
    }
}
