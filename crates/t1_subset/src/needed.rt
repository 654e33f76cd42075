//! What a set of names needs of a font.

ghost use Rattle.std.specs.Prelude.{◌≡◌, IfOk, IfErr, OnOk};
ghost use Rattle.t1_algebra.specs.{Profile.{profile}, Keep.{keep, kept, IsOf}};
ghost use Rattle.t1_subset.specs.{Calls.{number_set}, NameSets.{asked}, Budgets.{kept_tokens}};
ghost use Rattle.t1_run.specs.{Budgets.{Spends, HasFewer}, declared.budget.Stop.TheVariants.{TooManyTokens}};
ghost use Rattle.std.specs.FinSet as sets;

use crate::calls::first_four;
use crate::closure_names::{ClosureNames, add_components};
use crate::last_runs::LastRun;
use std::alloc::Global;
use std::collections::BTreeSet;
use t1_font::Font;
use t1_run::{Budget, Stop};

/// What a set of glyph names needs of a font: the glyphs that are kept, and the Subrs that are kept as they are.
#[derive(Drop)]
pub struct Closure {
    /// The names of the glyphs, upwards by their bytes.
    pub names: Vec<Vec<u8>>,
    /// The indices of the Subrs, including 0 to 3, whether or not the font has these.
    pub subrs: BTreeSet<u16>,
}

/// The names that a set of the font's names keeps, in the order in which they are met, and the Subrs that are kept, within a
/// budget.
///
/// Each glyph that is kept is run once, or not at all if the one before it has the same charstring; then what that took is taken once
/// more.
#[tactic(auto, using(crate::proofs::closing::Closures::closure_end, crate::proofs::closing::NumberSets::calls_end, crate::proofs::closing::Closures::past))]
pub(crate) fn needed<'a>(
    alloc: Global,
    font: &Font<'_>,
    names: &[&'a [u8]],
    budget: &mut Budget,
) -> Result<(ClosureNames<'a>, BTreeSet<u16>), Stop>
    requires { IsOf font.now (asked names.now) }
    ensures names { IfOk result (λ r. sets.from_list r.0
        ≡ keep profile font.now (asked names.now)) }
    ensures subrs { IfOk result (λ r. number_set r.1 ≡ kept profile font.now (asked names.now)) }
    ensures takes { OnOk result (Spends (kept_tokens font.now (asked names.now))
        budget.old.left budget.new.left) }
    ensures refused { IfErr result (λ e. e ≡ TooManyTokens
        → HasFewer budget.old.left (kept_tokens font.now (asked names.now))) }
{
    font.proof_is_font();
    let mut closure = ClosureNames::new(alloc);
    closure.add(b".notdef")?;
    closure.add_all(names)?;
    let mut calls = first_four(alloc)?;
    let mut last = LastRun::none(alloc);
    let mut place = 0;
    'closure: while let Some(name) = closure.get(place) {
        last.go_on(alloc, font, name, &mut calls, budget)?;
        add_components(font, &mut closure, last.components.as_slice())?;
        place += 1;
    }
    let subrs = calls.to_set(alloc)?;
    Ok((closure, subrs))
}
