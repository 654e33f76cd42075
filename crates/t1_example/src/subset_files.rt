//! A caller of `t1_subset`.

ghost use Rattle.std.specs.Prelude.{◌≡◌, ◌⊎◌, None, Ok, IfOk, OnOk, IfErr, MatchResult};
ghost use Rattle.t1_algebra.specs.{Keep.{subset, IsOf}, Profile.{profile}};
ghost use Rattle.t1_example.specs.Refusals.{IsMemory, LacksFirst, first_lacking};
ghost use Rattle.t1_font.specs.{Canon.{canon, Fits}, ReadFont.{read_font}};
ghost use Rattle.t1_subset.specs.NameSets.{asked, lent};

use crate::refusal::Refusal;
use std::alloc::Global;
use t1_font::{Form, Source, write};
use t1_subset::subset;

/// The file of the subset of a source's font that keeps these names; the first name that the font lacks is refused. If it lacks
/// none, and the file in this form can be read again, it is read as the subset.
pub fn subset_file(
    alloc: Global,
    source: &Source,
    names: &[&[u8]],
    form: Form,
) -> Result<Vec<u8>, Refusal>
    ensures text { IfOk result (λ v. v.items ≡ canon (subset profile source.now (asked names.now)) form) }
    ensures present { OnOk result (first_lacking source.now (lent names.now) ≡ None) }
    ensures absent { IfErr result
        (λ e. IsMemory e ⊎ LacksFirst (first_lacking source.now (lent names.now)) e) }
    ensures again { IsOf source.now (asked names.now)
        → Fits form source.now
        → MatchResult result (λ v. read_font v.items
        ≡ Ok (subset profile source.now (asked names.now))) IsMemory }
{
    let font = source.font(alloc)?;
    let some = subset(alloc, &font, names);
    drop(font);
    let some = some?;
    let file = write(alloc, &some, form);
    drop(some);
    Ok(file?)
}
