//! The closure of a set of names.

ghost use Rattle.std.specs.{Prelude.{◌≡◌, IfOk, IfErr, OnOk, None, not}, Option.{option_map}, List.Sorted.{IsStrictlySortedBy}, List.{find}};
ghost use Rattle.t1_font.specs.FontValue.{name_cmp};
ghost use Rattle.t1_algebra.specs.{Profile.{profile}, Keep.{has, keep, kept, IsOf}};
ghost use Rattle.t1_subset.specs.{Calls.{number_set}, NameSets.{listed_names, lent, asked, set_by}, Refusals.{Absent}};
ghost use Rattle.t1_subset.specs.Budgets.{kept_tokens, subset_tokens, IsEnough, IsWithin, OnPlain};
ghost use Rattle.t1_subset.specs.declared.fault.SubsetFault.TheVariants.{Memory};
ghost use Rattle.t1_run.specs.Budgets.{HasFewer};
ghost use Rattle.t1_run.specs.declared.budget.Stop.TheVariants as stop;

use crate::budgets::BudgetFault;
use crate::closure_names::has_glyph;
use crate::fault::SubsetFault;
use crate::name_sets::NameSet;
use crate::needed::{Closure, needed};
use std::alloc::{AllocError, Global};
use t1_font::Font;
use t1_run::{Budget, Stop};

/// The first of these names that the font lacks.
fn first_absent<'a>(font: &Font<'_>, names: &'a [&'a [u8]]) -> Option<&'a [u8]>
    ensures { option_map (λ n. n.now) result
        ≡ find (λ n. not (has font.now n)) (lent names.now) }
{
    'names: for name in names {
        if !has_glyph(font, name) {
            return Some(*name);
        }
    }
    None
}

/// Copies of these names, upwards by their bytes and without repeats.
fn upwards(alloc: Global, names: &[&[u8]]) -> Result<Vec<Vec<u8>>, AllocError>
    ensures names { IfOk result (λ vs. set_by vs.items ≡ asked names.now) }
    ensures upwards { IfOk result (λ vs. IsStrictlySortedBy name_cmp (listed_names vs.items)) }
{
    let mut copies = NameSet::new(alloc);
    'names: for name in names {
        copies.insert(Vec::from_slice(alloc, name)?)?;
    }
    copies.into_names(alloc)
}

/// What these names need of the font, which has them all, within a budget.
fn closure_of(
    alloc: Global,
    font: &Font<'_>,
    names: &[&[u8]],
    budget: Budget,
) -> Result<Closure, Stop>
    requires { IsOf font.now (asked names.now) }
    ensures names { IfOk result (λ c. set_by c.names.items
        ≡ keep profile font.now (asked names.now)) }
    ensures upwards { IfOk result (λ c. IsStrictlySortedBy name_cmp (listed_names c.names.items)) }
    ensures subrs { IfOk result (λ c. number_set c.subrs
        ≡ kept profile font.now (asked names.now)) }
    ensures enough { OnOk result (IsEnough budget.left (kept_tokens font.now (asked names.now))) }
    ensures refused { IfErr result (λ e. e ≡ stop.TooManyTokens
        → HasFewer budget.left (kept_tokens font.now (asked names.now))) }
{
    let mut budget = budget;
    let (closure, subrs) = needed(alloc, font, names, &mut budget)?;
    let names = upwards(alloc, closure.as_slice())?;
    Ok(Closure { names, subrs })
}

/// What a set of names needs of a font, as [`closure`] says, within a budget.
pub(crate) fn closure_within(
    alloc: Global,
    font: &Font<'_>,
    names: &[&[u8]],
    budget: Budget,
) -> Result<Closure, BudgetFault<SubsetFault>>
    ensures names { IfOk result (λ c. set_by c.names.items
        ≡ keep profile font.now (asked names.now)) }
    ensures upwards { IfOk result (λ c. IsStrictlySortedBy name_cmp (listed_names c.names.items)) }
    ensures subrs { IfOk result (λ c. number_set c.subrs
        ≡ kept profile font.now (asked names.now)) }
    ensures present { OnOk result (find (λ n. not (has font.now n)) (lent names.now)
        ≡ None) }
    ensures absent { OnPlain result (λ r. IfErr r
        (λ e. Absent e (find (λ n. not (has font.now n)) (lent names.now)))) }
    ensures within { IsWithin Memory budget.left (subset_tokens font.now (lent names.now)) result }
{
    if let Some(name) = first_absent(font, names) {
        return match Vec::from_slice(alloc, name) {
            Ok(name) => Err(BudgetFault::Plain(SubsetFault::NoSuchGlyph { name })),
            Err(_) => Err(BudgetFault::Plain(SubsetFault::Memory)),
        };
    }
    Ok(closure_of(alloc, font, names, budget)?)
}

/// What a set of names needs of a font: the glyphs of these names, `.notdef`, and the components of accented glyphs
/// that the font has, by StandardEncoding (Adobe Type 1 Font Format 1.1, chapter 6); and the Subrs 0 to 3 with all
/// Subrs that these glyphs execute, where hints are replaced or where they are kept. A name may be asked for more than
/// once.
///
/// It fails with [`SubsetFault::NoSuchGlyph`] for the first name asked for that the font lacks, and otherwise only for
/// want of memory.
pub fn closure(alloc: Global, font: &Font<'_>, names: &[&[u8]]) -> Result<Closure, SubsetFault>
    ensures names { IfOk result (λ c. set_by c.names.items
        ≡ keep profile font.now (asked names.now)) }
    ensures upwards { IfOk result (λ c. IsStrictlySortedBy name_cmp (listed_names c.names.items)) }
    ensures subrs { IfOk result (λ c. number_set c.subrs
        ≡ kept profile font.now (asked names.now)) }
    ensures present { OnOk result (find (λ n. not (has font.now n)) (lent names.now)
        ≡ None) }
    ensures absent { IfErr result
        (λ e. Absent e
        (find (λ n. not (has font.now n)) (lent names.now))) }
{
    match closure_within(alloc, font, names, Budget { left: None }) {
        Ok(closure) => Ok(closure),
        Err(BudgetFault::Plain(fault)) => Err(fault),
        Err(BudgetFault::TooManyTokens) => Err(SubsetFault::Memory),
    }
}
