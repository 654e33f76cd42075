//! What the run of a glyph comes to: the Subrs that it executes, and the components that it names.

ghost use Rattle.std.specs.Prelude.{◌≡◌, ℕ, List, Some, IfOk, IfErr, OnOk, ◌∷◌, [], map};
ghost use Rattle.t1_algebra.specs.{Profile.{profile, set_of}, Keep.{components, charstring}};
ghost use Rattle.t1_run.specs.{Budgets.{Spends, HasFewer}, declared.budget.Stop.TheVariants.{TooManyTokens}};
ghost use Rattle.t1_subset.specs.Budgets.{glyph_tokens};
ghost use Rattle.std.specs.FinMap as maps;
ghost use Rattle.std.specs.FinSet as sets;

use std::alloc::{AllocError, Global};
use t1_font::Font;
use t1_run::{Budget, Glyphs, Stop, SubrSet, parts_and_executed_within};

/// The components that the runs of a charstring name, within a budget. The Subrs that the runs execute are added to `calls`. Each glyph
/// that has the charstring names and executes these.
fn run(
    alloc: Global,
    font: &Font<'_>,
    body: &[u8],
    calls: &mut SubrSet,
    budget: &mut Budget,
) -> Result<Vec<&'static str>, Stop>
    ensures components { IfOk result (λ names. (n : List ℕ)
        → maps.get font.now.glyphs n ≡ Some body.now
        → map (λ s. s.now) names.items ≡ components profile font.now.subrs (charstring font.now n)) }
    ensures calls { OnOk result ((n : List ℕ)
        → maps.get font.now.glyphs n ≡ Some body.now
        → set_of calls.new ≡ sets.union (set_of calls.old) (profile.exec font.now.subrs (charstring font.now n))) }
    ensures takes { OnOk result ((n : List ℕ)
        → maps.get font.now.glyphs n ≡ Some body.now
        → Spends (glyph_tokens font.now n) budget.old.left budget.new.left) }
    ensures refused { IfErr result (λ e. e ≡ TooManyTokens
        → (n : List ℕ)
        → maps.get font.now.glyphs n ≡ Some body.now
        → HasFewer budget.old.left (glyph_tokens font.now n)) }
{
    font.proof_is_font();
    let names = parts_and_executed_within(alloc, font, body, calls, budget)?;
    Ok(names)
}

/// The components that the runs of the glyph of a name name, within a budget. The Subrs that the runs execute are added to `calls`.
#[tactic(auto, using(crate::proofs::closing::Runs::no_components, crate::proofs::closing::Runs::no_calls, crate::proofs::closing::NumberSets::union_none))]
pub(crate) fn run_of(
    alloc: Global,
    font: &Font<'_>,
    name: &[u8],
    calls: &mut SubrSet,
    budget: &mut Budget,
) -> Result<Vec<&'static str>, Stop>
    ensures components { IfOk result (λ names. map (λ s. s.now) names.items
        ≡ components profile font.now.subrs (charstring font.now name.now)) }
    ensures calls { OnOk result (set_of calls.new
        ≡ sets.union (set_of calls.old)
        (profile.exec font.now.subrs (charstring font.now name.now))) }
    ensures takes { OnOk result (Spends (glyph_tokens font.now name.now) budget.old.left budget.new.left) }
    ensures refused { IfErr result (λ e. e ≡ TooManyTokens
        → HasFewer budget.old.left (glyph_tokens font.now name.now)) }
{
    match font.glyph(name) {
        Some(charstring) => run(alloc, font, charstring, calls, budget),
        None => Ok(Vec::new(alloc)),
    }
}

/// The components that the runs of a charstring name, within a budget. Only the Subrs that these runs execute are in `calls` afterwards.
/// Each glyph that has the charstring names and executes these.
pub(crate) fn run_alone(
    alloc: Global,
    font: &Font<'_>,
    body: &[u8],
    calls: &mut SubrSet,
    budget: &mut Budget,
) -> Result<Vec<&'static str>, Stop>
    ensures components { IfOk result (λ names. (n : List ℕ)
        → maps.get font.now.glyphs n ≡ Some body.now
        → map (λ s. s.now) names.items ≡ components profile font.now.subrs (charstring font.now n)) }
    ensures calls { OnOk result ((n : List ℕ)
        → maps.get font.now.glyphs n ≡ Some body.now
        → set_of calls.new ≡ profile.exec font.now.subrs (charstring font.now n)) }
    ensures takes { OnOk result ((n : List ℕ)
        → maps.get font.now.glyphs n ≡ Some body.now
        → Spends (glyph_tokens font.now n) budget.old.left budget.new.left) }
    ensures refused { IfErr result (λ e. e ≡ TooManyTokens
        → (n : List ℕ)
        → maps.get font.now.glyphs n ≡ Some body.now
        → HasFewer budget.old.left (glyph_tokens font.now n)) }
{
    calls.clear();
    run(alloc, font, body, calls, budget)
}

/// The indices 0 to 3, which stand in for the PostScript of flex and hint replacement and are always kept
/// (Adobe Type 1 Font Format 1.1, chapter 8).
pub(crate) fn first_four(alloc: Global) -> Result<SubrSet, AllocError>
    ensures { IfOk result (λ calls. calls ≡ 0 ∷ 1 ∷ 2 ∷ 3 ∷ []) }
{
    let mut calls = SubrSet::new(alloc);
    calls.insert(0)?;
    calls.insert(1)?;
    calls.insert(2)?;
    calls.insert(3)?;
    Ok(calls)
}
