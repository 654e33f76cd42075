//! The making of states: one run of each glyph.

ghost use Rattle.std.specs.Prelude.{◌≡◌, Some, IfOk, IfErr, OnOk};
ghost use Rattle.t1_algebra.specs.{Profile.{profile}, StateTables.{states_of}, Shared.{shared_of}};
ghost use Rattle.t1_run.specs.{Budgets.{Spends, HasFewer}, declared.budget.Stop.TheVariants.{TooManyTokens}};
ghost use Rattle.t1_subset.specs.{Budgets.{font_tokens}, References.{AreUsesOf, AreReferencesOf, RunAlike}};

use crate::calls::run_alone;
use crate::last_runs::is_again;
use crate::name_states::NameTable;
use crate::references::{References, Seekers, note_seekers};
use crate::shared::Shared;
use crate::state_value::States;
use crate::tables::{code_table, subr_table, used};
use crate::users::{UserArray, nobody, note_users};
use std::alloc::{AllocError, Global};
use t1_font::Font;
use t1_run::{Budget, Stop, SubrSet};

/// What the glyphs of a font execute and seek: the smallest glyph that executes each Subr, and the smallest that names each
/// component that the font lacks.
#[derive(Drop)]
pub(crate) struct Uses<'a> {
    pub(crate) users: UserArray<'a>,
    pub(crate) seekers: Seekers<'a>,
}

/// What the glyphs of a font execute and seek, within a budget. Each glyph is run once, or not at all if the one before it has the
/// same charstring.
pub(crate) fn uses_of<'a>(
    alloc: Global,
    font: &Font<'a>,
    budget: &mut Budget,
) -> Result<Uses<'a>, Stop>
    ensures uses { IfOk result (λ uses. AreUsesOf uses font.now) }
    ensures takes { OnOk result (Spends (font_tokens font.now) budget.old.left budget.new.left) }
    ensures refused { IfErr result (λ e. e ≡ TooManyTokens
        → HasFewer budget.old.left (font_tokens font.now)) }
{
    let mut users = nobody(alloc);
    let mut seekers = Seekers::new(alloc);
    let mut calls = SubrSet::new(alloc);
    let mut last = None;
    'glyphs: for (name, charstring) in font.glyphs().entries() {
        if is_again(last, Some(charstring)) {
            continue;
        }
        let components = run_alone(alloc, font, charstring, &mut calls, budget)?;
        note_users(&mut users, &calls, name)?;
        note_seekers(font, &mut seekers, components.as_slice(), name)?;
        last = Some(charstring);
    }
    Ok(Uses { users, seekers })
}

/// The states of a font by what it shares, and by another font with the same states but for that, whose glyphs execute and seek
/// this. No glyph is run.
fn states_from<'a>(
    alloc: Global,
    font: &Font<'a>,
    shared: Shared<'a>,
    run: &Font<'a>,
    uses: &Uses<'a>,
) -> Result<States<'a>, AllocError>
    requires shared { shared ≡ shared_of font.now }
    requires uses { AreUsesOf uses.now run.now }
    requires alike { RunAlike run.now font.now }
    ensures { IfOk result (λ s. s ≡ states_of profile font.now) }
{
    font.proof_is_font();
    run.proof_is_font();
    Ok(States {
        shared,
        codes: code_table(alloc, run)?,
        names: NameTable::of(alloc, run, &uses.seekers)?,
        subrs: subr_table(alloc, run, &uses.users)?,
    })
}

/// The references of a font, and its states, by what it shares, and by another font with the same states but for that, whose glyphs
/// execute and seek this. No glyph is run.
pub(crate) fn note_as<'t, 'a>(
    alloc: Global,
    font: &'t Font<'a>,
    shared: Shared<'a>,
    run: &Font<'a>,
    uses: Uses<'a>,
) -> Result<(References<'t, 'a>, States<'a>), AllocError>
    requires shared { shared ≡ shared_of font.now }
    requires uses { AreUsesOf uses run.now }
    requires alike { RunAlike run.now font.now }
    ensures font { IfOk result (λ n. n.0.font.now ≡ font.now) }
    ensures references { IfOk result (λ n. AreReferencesOf n.0 font.now) }
    ensures states { IfOk result (λ n. n.1 ≡ states_of profile font.now) }
{
    font.proof_is_font();
    let states = states_from(alloc, font, shared, run, &uses)?;
    let users = used(alloc, run, &uses.users)?;
    Ok((
        References {
            font,
            users,
            seekers: uses.seekers,
        },
        states,
    ))
}

/// The references of a font, and its states, by what it shares, within a budget. Each glyph of the font is run once.
pub(crate) fn note_font<'t, 'a>(
    alloc: Global,
    font: &'t Font<'a>,
    shared: Shared<'a>,
    budget: &mut Budget,
) -> Result<(References<'t, 'a>, States<'a>), Stop>
    requires { shared ≡ shared_of font.now }
    ensures font { IfOk result (λ n. n.0.font.now ≡ font.now) }
    ensures references { IfOk result (λ n. AreReferencesOf n.0 font.now) }
    ensures states { IfOk result (λ n. n.1 ≡ states_of profile font.now) }
    ensures takes { OnOk result (Spends (font_tokens font.now) budget.old.left budget.new.left) }
    ensures refused { IfErr result (λ e. e ≡ TooManyTokens
        → HasFewer budget.old.left (font_tokens font.now)) }
{
    let uses = uses_of(alloc, font, budget)?;
    Ok(note_as(alloc, font, shared, font, uses)?)
}

/// The states of a font. Each glyph of the font is run once.
pub fn states<'a>(alloc: Global, font: &Font<'a>) -> Result<States<'a>, AllocError>
    ensures { IfOk result (λ s. s ≡ states_of profile font.now) }
{
    let shared = Shared::of(alloc, font)?;
    match uses_of(alloc, font, &mut Budget { left: None }) {
        Ok(uses) => states_from(alloc, font, shared, font, &uses),
        Err(_) => Err(AllocError),
    }
}
