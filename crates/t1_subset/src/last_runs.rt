//! The runs of the glyphs of a closure, one behind another. A glyph that has the charstring of the one before it isn't run again.

ghost use Rattle.std.specs.{Prelude.{◌≡◌, ℕ, map, None, IfErr, IfSome, OnOk}, Option.{option_map}};
ghost use Rattle.t1_run.specs.{Budgets.{Spends, HasFewer}, declared.budget.Stop.TheVariants.{TooManyTokens}};
ghost use Rattle.t1_algebra.specs.{Keep.{components, charstring}, Profile.{profile, set_of}};
ghost use Rattle.t1_subset.specs.{Budgets.{glyph_tokens}, References.{same_charstring}, LastRuns.{WasRun}};
ghost use Rattle.std.specs.FinSet as sets;

use crate::calls::run_of;
use crate::shared::same_bytes;
use std::alloc::Global;
use t1_font::Font;
use t1_run::{Budget, Stop, SubrSet};

/// Whether a glyph has the same charstring as the one before it, and so executes and names the same.
pub(crate) fn is_again(last: Option<&[u8]>, glyph: Option<&[u8]>) -> bool
    ensures { result
        ≡ same_charstring (option_map (λ b. b.now) last.entry) (option_map (λ b. b.now) glyph.entry) }
{
    match (last, glyph) {
        (Some(last), Some(charstring)) => same_bytes(last, charstring),
        _ => false,
    }
}

/// The glyph that was run last.
#[derive(Drop)]
pub(crate) struct LastRun<'a> {
    /// Its charstring, if there is one.
    charstring: Option<&'a [u8]>,
    /// The components that its runs name.
    pub(crate) components: Vec<&'static str>,
    /// The tokens that its runs took out of the budget, if that counts them.
    tokens: u64,
}

/// The tokens that were taken out of what was left.
fn taken(before: Option<u64>, after: Option<u64>) -> u64
    ensures { (tokens : ℕ)
        → Spends tokens before after
        → IfSome after (λ _. result ≡ tokens) }
{
    match (before, after) {
        (Some(before), Some(after)) => before.saturating_sub(after),
        _ => 0,
    }
}

/// Takes tokens out of a budget for runs that are left out.
fn take(budget: &mut Budget, tokens: u64) -> Result<(), Stop>
    ensures takes { OnOk result (Spends tokens budget.old.left budget.new.left) }
    ensures refused { IfErr result (λ e. (e ≡ TooManyTokens) × HasFewer budget.old.left tokens) }
{
    if let Some(left) = budget.left {
        if left < tokens {
            return Err(Stop::TooManyTokens);
        }
        budget.left = Some(left - tokens);
    }
    Ok(())
}

impl<'a> LastRun<'a> {
    /// No glyph was run.
    pub(crate) fn none(alloc: Global) -> LastRun<'a>
        ensures { result.charstring ≡ None }
    {
        LastRun {
            charstring: None,
            components: Vec::new(alloc),
            tokens: 0,
        }
    }

    /// Goes on to the glyph of a name, within a budget: it is run, unless it has the charstring of the one before it; then what that took
    /// is taken once more. The Subrs that its runs execute are added to `calls`.
    pub(crate) fn go_on(
        &mut self,
        alloc: Global,
        font: &Font<'a>,
        name: &[u8],
        calls: &mut SubrSet,
        budget: &mut Budget,
    ) -> Result<(), Stop>
        requires { WasRun font.now (set_of calls.old) budget.old.left self.old }
        ensures last { OnOk result (WasRun font.now (set_of calls.new) budget.new.left self.new) }
        ensures components { OnOk result (map (λ s. s.now) self.new.components.items
            ≡ components profile font.now.subrs (charstring font.now name.now)) }
        ensures calls { OnOk result (set_of calls.new
            ≡ sets.union (set_of calls.old)
            (profile.exec font.now.subrs (charstring font.now name.now))) }
        ensures takes { OnOk result (Spends (glyph_tokens font.now name.now) budget.old.left budget.new.left) }
        ensures refused { IfErr result (λ e. e ≡ TooManyTokens
            → HasFewer budget.old.left (glyph_tokens font.now name.now)) }
    {
        let charstring = font.charstring(name);
        if is_again(self.charstring, charstring) {
            return take(budget, self.tokens);
        }
        let before = budget.left;
        self.components = run_of(alloc, font, name, calls, budget)?;
        self.charstring = charstring;
        self.tokens = taken(before, budget.left);
        Ok(())
    }
}
