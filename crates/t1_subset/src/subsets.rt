//! Subsets of a font.

ghost use Rattle.std.specs.{Prelude.{◌≡◌, IfOk, IfErr, OnOk, None, not, List, ℕ, true}, List.{find}};
ghost use Rattle.t1_algebra.specs.{Profile.{profile}, Keep.{has, keep, subset}, Alike.{DrawsAlike}};
ghost use Rattle.t1_subset.specs.{NameSets.{lent, asked}, Refusals.{Absent}};
ghost use Rattle.t1_subset.specs.Budgets.{subset_tokens, IsWithin, OnPlain};
ghost use Rattle.t1_subset.specs.declared.fault.SubsetFault.TheVariants.{Memory};
ghost use Rattle.std.specs.FinSet as sets;

use crate::budgets::BudgetFault;
use crate::closures::closure_within;
use crate::fault::SubsetFault;
use std::alloc::Global;
use t1_font::{Font, restrict};
use t1_run::Budget;

/// The same as [`subset`] within a budget: it is refused with [`BudgetFault::TooManyTokens`] if the font has all names, and the runs of
/// the glyphs that are kept execute more tokens than are left in it. Each glyph that is kept is run once, and once more if it runs
/// OtherSubr 3. If it has the charstring of the one before it, in the order in which they are met, it isn't run, and the tokens that the
/// one before it took are taken once more. Else it answers what [`subset`] answers; a name that is absent is told whatever is left.
pub fn subset_within<'a>(
    alloc: Global,
    font: &Font<'a>,
    names: &[&[u8]],
    budget: Budget,
) -> Result<Font<'a>, BudgetFault<SubsetFault>>
    ensures ok { IfOk result (λ s. s ≡ subset profile font.now (asked names.now)) }
    ensures draws { IfOk result (λ s. (n : List ℕ)
        → sets.contains (keep profile font.now (asked names.now)) n ≡ true
        → DrawsAlike font.now s n) }
    ensures present { OnOk result (find (λ n. not (has font.now n)) (lent names.now)
        ≡ None) }
    ensures absent { OnPlain result (λ r. IfErr r
        (λ e. Absent e (find (λ n. not (has font.now n)) (lent names.now)))) }
    ensures within { IsWithin Memory budget.left (subset_tokens font.now (lent names.now)) result }
{
    font.proof_is_font();
    let closure = match closure_within(alloc, font, names, budget) {
        Ok(closure) => closure,
        Err(fault) => return Err(fault),
    };
    match restrict(alloc, font, closure.names.as_slice(), &closure.subrs) {
        Ok(font) => Ok(font),
        Err(_) => Err(BudgetFault::Plain(SubsetFault::Memory)),
    }
}

/// The font cut to the closure of a set of names, which is what the names need of it. Its glyphs, and its Encoding if
/// that is a table, are cut to the names that are kept. Each present Subr that isn't kept is replaced by the charstring
/// `return`, so its index stays present (Adobe Type 1 Font Format 1.1, chapters 2 and 8). Everything else stays as it
/// is. Each glyph that is kept draws as it does in the font, or faults as it does there. The subset borrows from where
/// the font borrows.
///
/// It fails with [`SubsetFault::NoSuchGlyph`] for the first name asked for that the font lacks, and otherwise only for
/// want of memory.
pub fn subset<'a>(alloc: Global, font: &Font<'a>, names: &[&[u8]]) -> Result<Font<'a>, SubsetFault>
    ensures ok { IfOk result (λ s. s ≡ subset profile font.now (asked names.now)) }
    ensures draws { IfOk result (λ s. (n : List ℕ)
        → sets.contains (keep profile font.now (asked names.now)) n ≡ true
        → DrawsAlike font.now s n) }
    ensures present { OnOk result (find (λ n. not (has font.now n)) (lent names.now)
        ≡ None) }
    ensures absent { IfErr result
        (λ e. Absent e
        (find (λ n. not (has font.now n)) (lent names.now))) }
{
    match subset_within(alloc, font, names, Budget { left: None }) {
        Ok(font) => Ok(font),
        Err(BudgetFault::Plain(fault)) => Err(fault),
        Err(BudgetFault::TooManyTokens) => Err(SubsetFault::Memory),
    }
}
