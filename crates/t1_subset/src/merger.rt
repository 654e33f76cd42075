//! The join of two fonts, or their lowest conflict.

ghost use Rattle.std.specs.Prelude.{◌≡◌, ◌<◌, length, map, OnOk, IfOk, IfErr};
ghost use Rattle.t1_algebra.specs.{Profile.{profile}, States.{Join, joined_font}, Conflicts.{conflict}, StateTables.{states_of}};
ghost use Rattle.t1_algebra.specs.Merges.{DrawsBoth, DrawsAll, ComesTo};
ghost use Rattle.t1_subset.specs.{Refusals.{Tells}, declared.conflict.Conflict.TheVariants.{Memory, Empty}, References.{AreNoted, fonts_of}};
ghost use Rattle.t1_subset.specs.Budgets.{merge_tokens, IsWithin, OnPlain, IsMergerOf, IsMergerOfFonts};
ghost use Rattle.t1_subset.specs.Merger.{IsMerger, MergesItself, NotMerged, AcceptsAllJoin, MergesInAnyOrder, MergesSubsets, MergesAllSubsets};

use crate::budgets::BudgetFault;
use crate::conflict::Conflict;
use crate::groupings::{both_lent, first_share, lent_fonts, note_fonts};
use crate::in_turn::all_join;
use crate::references::References;
use crate::state_value::States;
use std::alloc::Global;
use t1_font::Font;
use t1_run::{Budget, Stop};

/// The join of one or more fonts, by the references of each and its states, which are let go before the font is made of the joined
/// states.
#[tactic(auto, using(std::proofs::lemmas::Result::err_from_is_err_and))]
pub(crate) fn merge_noted<'a>(
    alloc: Global,
    references: Vec<References<'_, '_>>,
    states: Vec<States<'a>>,
) -> Result<Font<'a>, Conflict>
    requires some { 0 < length references.items }
    requires noted { AreNoted references.items }
    requires states { states.items ≡ map (states_of profile) (fonts_of references.items) }
    ensures ok { IfOk result (λ j. ComesTo (fonts_of references.entry.items) j) }
    ensures err { IfErr result (λ e. NotMerged (fonts_of references.entry.items) e) }
{
    let joined = match all_join(alloc, references.as_slice(), states.as_slice()) {
        Ok(joined) => joined,
        Err(conflict) => return Err(conflict),
    };
    drop(states);
    drop(references);
    Ok(joined.into_font(alloc)?)
}

/// The join of one or more fonts, or the first conflict from left to right, within a budget. If the first two don't share what they
/// have to, no glyph is run.
#[tactic(auto, using(crate::proofs::Plain::no_memory, crate::proofs::Tokens::spends_enough, crate::proofs::Within::shared_enough, crate::proofs::Within::shared_fewer))]
fn merge_lent<'a>(
    alloc: Global,
    fonts: &[&Font<'a>],
    budget: Budget,
) -> Result<Font<'a>, BudgetFault<Conflict>>
    requires { 0 < length fonts.now }
    ensures merges { OnPlain result (IsMergerOf (map (λ f. f.now) fonts.now)) }
    ensures within { IsWithin Memory budget.left (merge_tokens (map (λ f. f.now) fonts.now)) result }
{
    if let Err(conflict) = first_share(alloc, fonts) {
        return Err(BudgetFault::Plain(conflict));
    }
    let mut budget = budget;
    let (references, states) = match note_fonts(alloc, fonts, &mut budget) {
        Ok(noted) => noted,
        Err(Stop::TooManyTokens) => return Err(BudgetFault::TooManyTokens),
        Err(Stop::Memory) => return Err(BudgetFault::Plain(Conflict::Memory)),
    };
    match merge_noted(alloc, references, states) {
        Ok(font) => Ok(font),
        Err(conflict) => Err(BudgetFault::Plain(conflict)),
    }
}

/// The join of two fonts, or their lowest conflict.
#[tactic(auto, using(crate::proofs::state_tables::Walks::two_come, crate::proofs::state_tables::Walks::two_refused))]
fn merge_two<'t, 'a>(
    alloc: Global,
    left: &'t Font<'a>,
    right: &'t Font<'a>,
) -> Result<Font<'a>, Conflict>
    ensures ok { IfOk result (λ j. Join profile left.now right.now
        × (j ≡ joined_font profile left.now right.now)) }
    ensures err { IfErr result (λ e. Tells e (conflict profile left.now right.now)) }
{
    let fonts = both_lent(alloc, left, right)?;
    match merge_lent(alloc, fonts.as_slice(), Budget { left: None }) {
        Ok(font) => Ok(font),
        Err(BudgetFault::Plain(conflict)) => Err(conflict),
        Err(BudgetFault::TooManyTokens) => Err(Conflict::Memory),
    }
}

/// The font that two fonts make together: the shell of both, the codes and glyphs of either, and for each Subr the
/// entry of either, but an entry that is `return` and that no glyph of its font executes gives way to the other's
/// (Adobe Type 1 Font Format 1.1, chapters 2 and 8). It is answered exactly if the fonts join: their shells are the
/// same, what both have is the same, neither lacks a component that it needs and the other has, and the font of both is
/// within the limits.
///
/// Otherwise the lowest [`Conflict`] is answered, the same in both orders of the fonts, and never `Empty`. Want of memory may be
/// answered in place of either. A font merged with itself is itself.
///
/// Two subsets of one font always join, and their join is the subset over both sets of names.
#[tactic(auto, using(crate::proofs::Answered::draws_both, crate::proofs::Answered::other_order, crate::proofs::Answered::itself, crate::proofs::Answered::never_empty))]
pub fn merge<'a>(alloc: Global, left: &Font<'a>, right: &Font<'a>) -> Result<Font<'a>, Conflict>
    ensures ok { IfOk result (λ j. Join profile left.now right.now
        × (j ≡ joined_font profile left.now right.now)) }
    ensures err { IfErr result (λ e. Tells e (conflict profile left.now right.now)) }
    ensures other_order { IsMerger right.now left.now result }
    ensures itself { MergesItself left.now right.now result }
    ensures subsets { MergesSubsets left.now right.now result }
    ensures draws { IfOk result (λ j. DrawsBoth left.now right.now j) }
    ensures never_empty { IfErr result (λ e. ¬ (e ≡ Empty)) }
{
    left.proof_is_font();
    merge_two(alloc, left, right)
}

/// The join of a list of fonts, or why they don't merge, within a budget.
#[tactic(auto, using(crate::proofs::Plain::no_memory, crate::proofs::Plain::no_fonts))]
fn merge_list<'a>(
    alloc: Global,
    fonts: &[Font<'a>],
    budget: Budget,
) -> Result<Font<'a>, BudgetFault<Conflict>>
    ensures merges { OnPlain result (IsMergerOfFonts fonts.now) }
    ensures within { IsWithin Memory budget.left (merge_tokens fonts.now) result }
{
    if fonts.is_empty() {
        return Err(BudgetFault::Plain(Conflict::Empty));
    }
    let Ok(lent) = lent_fonts(alloc, fonts) else {
        return Err(BudgetFault::Plain(Conflict::Memory));
    };
    merge_lent(alloc, lent.as_slice(), budget)
}

/// The same as [`merge_all`] within a budget, out of which each run takes its tokens. It is refused with
/// [`BudgetFault::TooManyTokens`] if the runs of the glyphs of all fonts execute more than are left. Each glyph is run once, and once
/// more if it runs OtherSubr 3, or not at all if the one before it has the same charstring; no glyph is run if the shells of the first
/// two fonts differ. Else it answers what [`merge_all`] answers; a conflict is told only if the runs of all fonts are within the
/// budget.
pub fn merge_all_within<'a>(
    alloc: Global,
    fonts: &[Font<'a>],
    budget: Budget,
) -> Result<Font<'a>, BudgetFault<Conflict>>
    ensures ok { IfOk result (λ j. ComesTo fonts.now j) }
    ensures err { OnPlain result (λ r. IfErr r (λ e. NotMerged fonts.now e)) }
    ensures accepted { OnPlain result (AcceptsAllJoin fonts.now) }
    ensures any_order { OnPlain result (MergesInAnyOrder fonts.now) }
    ensures draws { IfOk result (λ j. DrawsAll fonts.now j) }
    ensures subsets { OnPlain result (MergesAllSubsets fonts.now) }
    ensures within { IsWithin Memory budget.left (merge_tokens fonts.now) result }
{
    merge_list(alloc, fonts, budget)
}

/// The font that a list of fonts makes together, merged from left to right. Any other order and grouping of the merges
/// comes to the same font, or is refused, too. Fonts are accepted exactly if there is at least one, the states of each
/// two of them join, and the font of all is within the limits. They are refused with [`Conflict::Empty`] if there are
/// none, and otherwise with the conflict of the first font that doesn't join those before it. Each glyph of each font
/// draws in the result as it did before.
///
/// Subsets of one font always join, and their join is the subset over all their names.
pub fn merge_all<'a>(alloc: Global, fonts: &[Font<'a>]) -> Result<Font<'a>, Conflict>
    ensures ok { IfOk result (λ j. ComesTo fonts.now j) }
    ensures err { IfErr result (λ e. NotMerged fonts.now e) }
    ensures accepted { AcceptsAllJoin fonts.now result }
    ensures any_order { MergesInAnyOrder fonts.now result }
    ensures draws { IfOk result (λ j. DrawsAll fonts.now j) }
    ensures subsets { MergesAllSubsets fonts.now result }
{
    match merge_all_within(alloc, fonts, Budget { left: None }) {
        Ok(font) => Ok(font),
        Err(BudgetFault::Plain(conflict)) => Err(conflict),
        Err(BudgetFault::TooManyTokens) => Err(Conflict::Memory),
    }
}
