//! Many fonts at once: whether the first two share what they have to, and what is noted of each.

ghost use Rattle.std.specs.{Prelude.{◌≡◌, ◌++◌, ◌∷◌, [], IfOk, IfErr, OnOk, None, map}, List.{AllByRecursion}, Option.{option_map}};
ghost use Rattle.t1_font.specs.IsFont.{IsFont};
ghost use Rattle.t1_algebra.specs.{Profile.{profile}, Conflicts.{shell_conflict, conflict, shell_conflict_among, shells_conflict}, StateTables.{states_of}};
ghost use Rattle.t1_subset.specs.{Differences.{shell_part}, References.{AreNoted, fonts_of}, Merger.{NotMerged, FirstShare}, Refusals.{Tells}};
ghost use Rattle.t1_subset.specs.{declared.conflict.Conflict.TheVariants.{Memory}, Budgets.{fonts_tokens}};
ghost use Rattle.t1_run.specs.{Budgets.{Spends, HasFewer}, declared.budget.Stop.TheVariants.{TooManyTokens}};

use crate::conflict::{Conflict, ShellPart};
use crate::references::References;
use crate::searches::one_shell;
use crate::shared::Shared;
use crate::state_making::note_font;
use crate::state_value::States;
use std::alloc::{AllocError, Global};
use t1_font::Font;
use t1_run::{Budget, Stop};

/// The fonts, lent one by one.
pub(crate) fn lent_fonts<'t, 'a>(
    alloc: Global,
    fonts: &'t [Font<'a>],
) -> Result<Vec<&'t Font<'a>>, AllocError>
    ensures lent { IfOk result (λ v. map (λ f. f.now) v.items ≡ fonts.now) }
    ensures fonts { IfOk result (λ _. AllByRecursion IsFont fonts.now) }
{
    let mut lent = Vec::with_capacity(alloc, fonts.len())?;
    'fonts: for font in fonts {
        font.proof_is_font();
        lent.push(font)?;
    }
    Ok(lent)
}

/// A list of two fonts.
pub(crate) fn both_lent<'t, 'a>(
    alloc: Global,
    left: &'t Font<'a>,
    right: &'t Font<'a>,
) -> Result<Vec<&'t Font<'a>>, AllocError>
    ensures { IfOk result (λ v. map (λ f. f.now) v.items ≡ left.now ∷ right.now ∷ []) }
{
    let mut lent = Vec::with_capacity(alloc, 2)?;
    lent.push(left)?;
    lent.push(right)?;
    Ok(lent)
}

/// Refuses two fonts that don't share what they have to. No glyph is run.
#[tactic(auto, using(crate::proofs::state_tables::Conflicts::tells_shell, crate::proofs::state_tables::Conflicts::tells_states, crate::proofs::state_tables::Conflicts::parts_seen))]
fn share(alloc: Global, left: &Font<'_>, right: &Font<'_>) -> Result<(), Conflict>
    ensures ok { IfOk result (λ _. shell_conflict left.now right.now ≡ None) }
    ensures err { IfErr result (λ e. Tells e (conflict profile left.now right.now)) }
    ensures memory { IfErr result (λ e. shell_conflict left.now right.now ≡ None → e ≡ Memory) }
{
    let own = Shared::of(alloc, left)?;
    let other = Shared::of(alloc, right)?;
    one_shell(&own, &other)
}

/// Refuses fonts of which the first two don't share what they have to. No glyph is run.
pub(crate) fn first_share(alloc: Global, fonts: &[&Font<'_>]) -> Result<(), Conflict>
    ensures ok { IfOk result (λ _. FirstShare (map (λ f. f.now) fonts.now)) }
    ensures err { IfErr result (λ e. NotMerged (map (λ f. f.now) fonts.now) e) }
    ensures memory { IfErr result (λ e. FirstShare (map (λ f. f.now) fonts.now) → e ≡ Memory) }
{
    match fonts {
        [first, second, ..] => share(alloc, first, second),
        _ => Ok(()),
    }
}

/// The first part in which the first of some fonts whose shell differs from that of a font differs from it.
fn shells_differ(alloc: Global, own: &Font<'_>, fonts: &[Font<'_>]) -> Option<ShellPart>
    ensures { option_map shell_part result ≡ shell_conflict_among own.now fonts.now }
{
    let own = Shared::without_subrs(alloc, own);
    'fonts: for font in fonts {
        if let Some(part) = own.differing_part(&Shared::without_subrs(alloc, font)) {
            return Some(part);
        }
    }
    None
}

/// The first part in which the first of the fonts whose shell differs from that of the first font differs from it, whichever
/// Subrs are present. No glyph is run.
pub fn shells_conflict(alloc: Global, fonts: &[Font<'_>]) -> Option<ShellPart>
    ensures { option_map shell_part result ≡ shells_conflict fonts.now }
{
    match fonts {
        [first, rest @ ..] => shells_differ(alloc, first, rest),
        [] => None,
    }
}

/// Adds the references and the states of one more font.
pub(crate) fn keep<'t, 'a>(
    references: &mut Vec<References<'t, 'a>>,
    states: &mut Vec<States<'a>>,
    own: References<'t, 'a>,
    state: States<'a>,
) -> Result<(), AllocError>
    ensures references { OnOk result (references.new.items ≡ references.old.items ++ own.entry ∷ []) }
    ensures states { OnOk result (states.new.items ≡ states.old.items ++ state.entry ∷ []) }
{
    references.push(own)?;
    states.push(state)?;
    Ok(())
}

/// The references of each of the fonts, and its states, within a budget.
pub(crate) fn note_fonts<'t, 'a>(
    alloc: Global,
    fonts: &[&'t Font<'a>],
    budget: &mut Budget,
) -> Result<(Vec<References<'t, 'a>>, Vec<States<'a>>), Stop>
    ensures fonts { IfOk result (λ n. fonts_of n.0.items ≡ map (λ f. f.now) fonts.now) }
    ensures noted { IfOk result (λ n. AreNoted n.0.items) }
    ensures states { IfOk result (λ n. n.1.items ≡ map (states_of profile) (fonts_of n.0.items)) }
    ensures takes { OnOk result (Spends (fonts_tokens (map (λ f. f.now) fonts.now))
        budget.old.left budget.new.left) }
    ensures refused { IfErr result (λ e. e ≡ TooManyTokens
        → HasFewer budget.old.left (fonts_tokens (map (λ f. f.now) fonts.now))) }
{
    let mut references = Vec::with_capacity(alloc, fonts.len())?;
    let mut states = Vec::with_capacity(alloc, fonts.len())?;
    'fonts: for font in fonts {
        font.proof_is_font();
        let (own, state) = note_font(alloc, font, Shared::of(alloc, font)?, budget)?;
        keep(&mut references, &mut states, own, state)?;
    }
    Ok((references, states))
}
