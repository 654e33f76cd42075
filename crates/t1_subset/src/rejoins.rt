//! Fonts that are rejoined: each is filled with stubs where it lacks a Subr that another has, and they merge.

ghost use Rattle.std.specs.Prelude.{◌≡◌, [], None, Some, IfOk, IfErr, OnOk, map};
ghost use Rattle.t1_font.specs.{Normalizing.{filled, filled_all, indices_of_all}, Filling.{AnyHeavy, AreLight}};
ghost use Rattle.t1_algebra.specs.{Profile.{profile}, StateTables.{states_of}, Lacks.{lack_in, first_lack}};
ghost use Rattle.t1_subset.specs.{References.{AreReferencesOf, AreNoted, fonts_of}, Lacks.{lack_view}, Refusals.{Tells}};
ghost use Rattle.t1_subset.specs.{Rejoins.{heavy_conflict, TellsLack, Rejoin, NotRejoined}, declared.budgets.BudgetFault.TheVariants.{Plain}};
ghost use Rattle.t1_subset.specs.Budgets.{font_tokens, rejoin_tokens, RefusedWithin, IsWithin, OnPlain};
ghost use Rattle.t1_subset.specs.{declared.conflict.Conflict.TheVariants.{Memory}, declared.fault.RejoinFault.TheVariants.{Merge}};
ghost use Rattle.t1_run.specs.Budgets.{Spends};

use crate::budgets::BudgetFault;
use crate::conflict::Conflict;
use crate::fault::RejoinFault;
use crate::groupings::{keep, shells_conflict};
use crate::lacks::{Lack, lack_by, lack_by_runs};
use crate::merger::merge_noted;
use crate::references::References;
use crate::shared::Shared;
use crate::state_making::{note_as, uses_of};
use crate::state_value::States;
use std::alloc::{AllocError, Global};
use t1_font::{Font, PartsFault, Source, fill_all};
use t1_run::Budget;

/// The font of each source.
///
/// # Errors
///
/// A growth was refused.
pub fn fonts_of(alloc: Global, sources: &[Source]) -> Result<Vec<Font<'_>>, AllocError>
    ensures { IfOk result (λ fonts. fonts.items ≡ sources.now) }
{
    let mut fonts = Vec::with_capacity(alloc, sources.len())?;
    'sources: for source in sources {
        fonts.push(source.font(alloc)?)?;
    }
    Ok(fonts)
}

/// The lack of a Subr as a refusal.
fn lacking(alloc: Global, lack: Lack<'_>) -> RejoinFault
    ensures { TellsLack result (Some (lack_view lack.entry)) }
{
    match Vec::from_slice(alloc, lack.glyph) {
        Ok(glyph) => RejoinFault::Lacks {
            glyph,
            index: lack.index,
        },
        Err(_) => RejoinFault::Merge(Conflict::Memory),
    }
}

/// Why fonts of which one is too heavy once it has its stubs don't merge.
fn heavy_conflict(alloc: Global, fonts: &[Font<'_>]) -> Conflict
    ensures { Tells result (Some (heavy_conflict fonts.now)) }
{
    match shells_conflict(alloc, fonts) {
        Some(part) => Conflict::Shell { part },
        None => Conflict::Limit,
    }
}

/// Why fonts of which one is too heavy once it has its stubs don't rejoin, within a budget.
fn too_heavy(alloc: Global, fonts: &[Font<'_>], budget: Budget) -> BudgetFault<RejoinFault>
    requires { AnyHeavy (filled_all fonts.now) }
    ensures told { (e : RejoinFault) → result ≡ Plain e → NotRejoined fonts.now e }
    ensures within { RefusedWithin (Merge Memory) budget.left (rejoin_tokens fonts.now) result }
{
    match lack_by_runs(alloc, fonts, budget) {
        Ok(Some(lack)) => BudgetFault::Plain(lacking(alloc, lack)),
        Ok(None) => BudgetFault::Plain(RejoinFault::Merge(heavy_conflict(alloc, fonts))),
        Err(stop) => BudgetFault::from(stop),
    }
}

/// The references and the states of a font that is filled, if no glyph of it executes a Subr that the font lacked and another of the
/// fonts has, within a budget. Each glyph of the font is run once.
fn note_filled<'t, 'a>(
    alloc: Global,
    fonts: &[Font<'a>],
    font: &Font<'a>,
    full: &'t Font<'a>,
    budget: &mut Budget,
) -> Result<(References<'t, 'a>, States<'a>), BudgetFault<RejoinFault>>
    requires { full.now ≡ filled (indices_of_all fonts.now) font.now }
    ensures font { IfOk result (λ n. n.0.font.now ≡ full.now) }
    ensures references { IfOk result (λ n. AreReferencesOf n.0 full.now) }
    ensures states { IfOk result (λ n. n.1 ≡ states_of profile full.now) }
    ensures none { IfOk result (λ _. lack_in fonts.now font.now ≡ None) }
    ensures lack { OnPlain result (λ r. IfErr r (λ e. TellsLack e (lack_in fonts.now font.now))) }
    ensures takes { OnOk result (Spends (font_tokens font.now) budget.old.left budget.new.left) }
    ensures within { IfErr result (RefusedWithin (Merge Memory) budget.old.left (font_tokens font.now)) }
{
    let uses = uses_of(alloc, font, budget)?;
    if let Some(lack) = lack_by(fonts, font, &uses.users) {
        return Err(BudgetFault::Plain(lacking(alloc, lack)));
    }
    let shared = Shared::of(alloc, full)?;
    Ok(note_as(alloc, full, shared, font, uses)?)
}

/// The references and the states of fonts that are filled, if no glyph executes a Subr that its font lacked and another has, within a
/// budget.
fn note_each<'t, 'a>(
    alloc: Global,
    fonts: &[Font<'a>],
    full: &'t [Font<'a>],
    budget: Budget,
) -> Result<(Vec<References<'t, 'a>>, Vec<States<'a>>), BudgetFault<RejoinFault>>
    requires { full.now ≡ filled_all fonts.now }
    ensures fonts { IfOk result (λ n. fonts_of n.0.items ≡ full.now) }
    ensures noted { IfOk result (λ n. AreNoted n.0.items) }
    ensures states { IfOk result (λ n. n.1.items ≡ map (states_of profile) (fonts_of n.0.items)) }
    ensures none { IfOk result (λ _. first_lack fonts.now ≡ None) }
    ensures lack { OnPlain result (λ r. IfErr r (λ e. TellsLack e (first_lack fonts.now))) }
    ensures within { IsWithin (Merge Memory) budget.left (rejoin_tokens fonts.now) result }
{
    let mut left = budget;
    let mut references = Vec::with_capacity(alloc, full.len())?;
    let mut states = Vec::with_capacity(alloc, full.len())?;
    'fonts: for place in 0..full.len() {
        let filled = &full[place];
        filled.proof_is_font();
        let (own, state) = match note_filled(alloc, fonts, &fonts[place], filled, &mut left) {
            Ok(noted) => noted,
            Err(fault) => return Err(fault),
        };
        keep(&mut references, &mut states, own, state)?;
    }
    Ok((references, states))
}

/// The join of fonts that are filled, if no glyph executes a Subr that its font lacked and another has, within a budget.
#[tactic(auto, using(crate::proofs::Plain::plain_err))]
fn merge_filled<'a>(
    alloc: Global,
    fonts: &[Font<'a>],
    full: &[Font<'a>],
    budget: Budget,
) -> Result<Font<'a>, BudgetFault<RejoinFault>>
    requires some { ¬ (fonts.now ≡ []) }
    requires full { full.now ≡ filled_all fonts.now }
    requires light { AreLight full.now }
    ensures ok { IfOk result (λ j. Rejoin fonts.now j) }
    ensures err { OnPlain result (λ r. IfErr r (λ e. NotRejoined fonts.now e)) }
    ensures within { IsWithin (Merge Memory) budget.left (rejoin_tokens fonts.now) result }
{
    let (references, states) = match note_each(alloc, fonts, full, budget) {
        Ok(noted) => noted,
        Err(fault) => return Err(fault),
    };
    match merge_noted(alloc, references, states) {
        Ok(font) => Ok(font),
        Err(conflict) => Err(BudgetFault::Plain(RejoinFault::Merge(conflict))),
    }
}

/// The same as [`rejoin`] within a budget, out of which each run takes its tokens. It is refused with
/// [`BudgetFault::TooManyTokens`] if the runs of the glyphs of the fonts, as they are before they are filled, execute more than are
/// left, up to and with the first font that lacks a Subr. Each glyph is run once, and once more if it runs OtherSubr 3, or not at all
/// if the one before it has the same charstring. Else it answers what [`rejoin`] answers, and only if these runs are within the budget.
#[tactic(auto, using(crate::proofs::LackTokens::none_rejoined, crate::proofs::Rejoining::light_or_heavy))]
pub fn rejoin_within<'a>(
    alloc: Global,
    sources: &'a [Source],
    indices: &'a mut Vec<u16>,
    budget: Budget,
) -> Result<Font<'a>, BudgetFault<RejoinFault>>
    ensures ok { IfOk result (λ j. Rejoin sources.now j) }
    ensures err { OnPlain result (λ r. IfErr r (λ e. NotRejoined sources.now e)) }
    ensures within { IsWithin (Merge Memory) budget.left (rejoin_tokens sources.now) result }
{
    if sources.is_empty() {
        return Err(BudgetFault::Plain(RejoinFault::Merge(Conflict::Empty)));
    }
    let fonts = fonts_of(alloc, sources)?;
    let full = match fill_all(alloc, fonts_of(alloc, sources)?, indices) {
        Ok(full) => full,
        Err(PartsFault::Limit) => return Err(too_heavy(alloc, fonts.as_slice(), budget)),
        Err(PartsFault::Memory) => {
            return Err(BudgetFault::Plain(RejoinFault::Merge(Conflict::Memory)));
        }
    };
    merge_filled(alloc, fonts.as_slice(), full.as_slice(), budget)
}

/// The font that the fonts of sources come to when each is filled, with [`STUB`](t1_font::STUB) where it lacks a Subr that another
/// has, and they are merged from left to right. The sources are those of fonts that other programs cut, normalized by
/// [`normalize_shells`](t1_font::normalize_shells).
///
/// Each glyph of each font is run once.
///
/// `indices` is a place for the indices of all Subrs, from which they are lent; what it held before is let go.
///
/// # Errors
///
/// [`RejoinFault::Lacks`] if a glyph executes a Subr that its font declares and lacks and another of the fonts has, where a stub
/// would draw something else without a word. Else [`RejoinFault::Merge`] with the conflict of the first font that doesn't join those
/// before it. A font that is too heavy with its stubs is told as [`Conflict::Limit`], if no shell differs from the first. Want of
/// memory may be answered in place of any, as [`Conflict::Memory`].
pub fn rejoin<'a>(
    alloc: Global,
    sources: &'a [Source],
    indices: &'a mut Vec<u16>,
) -> Result<Font<'a>, RejoinFault>
    ensures ok { IfOk result (λ j. Rejoin sources.now j) }
    ensures err { IfErr result (λ e. NotRejoined sources.now e) }
{
    match rejoin_within(alloc, sources, indices, Budget { left: None }) {
        Ok(font) => Ok(font),
        Err(BudgetFault::Plain(fault)) => Err(fault),
        Err(BudgetFault::TooManyTokens) => Err(RejoinFault::Merge(Conflict::Memory)),
    }
}
