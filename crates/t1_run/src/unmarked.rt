//! What a glyph needs of its font: the parts that it names and the Subrs that it executes. Its marks are not kept.

ghost use Rattle.std.specs.Prelude.{◌≡◌, ◌++◌, IfOk, IfErr, OnOk, OnErr, map, not, [], true};
ghost use Rattle.t1_run.specs.Run.{run_glyph, calls_of, calls, calls3, exec, with_executed, with_indices, AddsFirst};
ghost use Rattle.t1_run.specs.{Budgets.{tokens_by, tokens_of, replaces_hints, Spends, RunsOut, NoMore}};
ghost use Rattle.t1_run.specs.declared.budget.Stop.TheVariants.{TooManyTokens};
ghost use Rattle.t1_run.specs.{Machine.{ending_of}, Drawings.{parts, parts_by, parts_of}};

use crate::answer::{Halt, Hints};
use crate::budget::{Budget, Stop};
use crate::parts::parts_of;
use crate::pens::Blank;
use crate::run::run;
use crate::subr_set::SubrSet;
use crate::subroutines::Subroutines;
use std::alloc::{AllocError, Global};
use std::collections::BTreeSet;

/// How a charstring ends, whether it ran OtherSubr 3 never, so that it ends and calls the same where hints are kept, and which Subrs
/// it called, added to `called`.
fn halt_of<S: Subroutines>(
    subrs: &S,
    hints: Hints,
    charstring: &[u8],
    called: &mut SubrSet,
    budget: &mut Budget,
) -> Result<(Halt, bool), Stop>
    ensures parts { IfOk result (λ r. parts_of (ending_of r.0 [])
        ≡ parts_by hints (S.subrs subrs.now) charstring.now) }
    ensures called { OnOk result (called.new
        ≡ with_indices called.old (calls_of hints (S.subrs subrs.now) charstring.now)) }
    ensures some { OnErr result (AddsFirst (calls_of hints (S.subrs subrs.now) charstring.now)
        called.old called.new) }
    ensures one { IfOk result (λ r. r.1 ≡ true
        → run_glyph (S.subrs subrs.now) Hints.Kept charstring.now
        ≡ run_glyph (S.subrs subrs.now) hints charstring.now) }
    ensures told { IfOk result (λ r. r.1
        ≡ not (replaces_hints hints (S.subrs subrs.now) charstring.now)) }
    ensures spends { OnOk result (Spends (tokens_by hints (S.subrs subrs.now) charstring.now)
        budget.old.left budget.new.left) }
    ensures runs_out { IfErr result (λ e. e ≡ TooManyTokens
        → RunsOut (tokens_by hints (S.subrs subrs.now) charstring.now)
        budget.old.left budget.new.left) }
    ensures lowers { OnErr result (NoMore budget.old.left budget.new.left) }
{
    run(subrs, hints, charstring, &mut Blank, called, budget)
}

/// How a charstring ends where hints are replaced and where they are kept, and which Subrs it executes, added to `called`.
/// It is run once if it runs no OtherSubr 3.
fn both_halts<S: Subroutines>(
    subrs: &S,
    charstring: &[u8],
    called: &mut SubrSet,
    budget: &mut Budget,
) -> Result<(Halt, Halt), Stop>
    ensures replaced { IfOk result (λ r. parts_of (ending_of r.0 [])
        ≡ parts_by Hints.Replaced (S.subrs subrs.now) charstring.now) }
    ensures kept { IfOk result (λ r. parts_of (ending_of r.1 [])
        ≡ parts_by Hints.Kept (S.subrs subrs.now) charstring.now) }
    ensures executed { OnOk result (called.new
        ≡ with_executed called.old (S.subrs subrs.now) charstring.now) }
    ensures some { OnErr result (AddsFirst
        (calls (S.subrs subrs.now) charstring.now ++ calls3 (S.subrs subrs.now) charstring.now)
        called.old called.new) }
    ensures spends { OnOk result (Spends (tokens_of (S.subrs subrs.now) charstring.now)
        budget.old.left budget.new.left) }
    ensures runs_out { IfErr result (λ e. e ≡ TooManyTokens
        → RunsOut (tokens_of (S.subrs subrs.now) charstring.now)
        budget.old.left budget.new.left) }
    ensures lowers { OnErr result (NoMore budget.old.left budget.new.left) }
{
    let (replaced, is_one) = halt_of(subrs, Hints::Replaced, charstring, called, budget)?;
    if is_one {
        return Ok((replaced, replaced));
    }
    let (kept, _) = halt_of(subrs, Hints::Kept, charstring, called, budget)?;
    Ok((replaced, kept))
}

/// The same as [`parts_and_executed`] within a budget: each token that is executed is taken out of it, and it stops before a token
/// for which none is left. A charstring that runs no OtherSubr 3 is run once, and any other is run once more, where hints are kept.
///
/// It fails with [`Stop::TooManyTokens`] if these runs execute more tokens than are left, and none is left then; and else only for
/// want of memory, after which no more are left than before. It has then added the first few of the indices to `called`, or none.
#[tactic(auto, using(crate::proofs::Indices::first_all))]
pub fn parts_and_executed_within<S: Subroutines>(
    alloc: Global,
    subrs: &S,
    charstring: &[u8],
    called: &mut SubrSet,
    budget: &mut Budget,
) -> Result<Vec<&'static str>, Stop>
    ensures names { IfOk result (λ names. map (λ s. s.now) names.items
        ≡ parts (S.subrs subrs.now) charstring.now) }
    ensures executed { OnOk result (called.new
        ≡ with_executed called.old (S.subrs subrs.now) charstring.now) }
    ensures some { OnErr result (AddsFirst
        (calls (S.subrs subrs.now) charstring.now ++ calls3 (S.subrs subrs.now) charstring.now)
        called.old called.new) }
    ensures spends { OnOk result (Spends (tokens_of (S.subrs subrs.now) charstring.now)
        budget.old.left budget.new.left) }
    ensures runs_out { IfErr result (λ e. e ≡ TooManyTokens
        → RunsOut (tokens_of (S.subrs subrs.now) charstring.now)
        budget.old.left budget.new.left) }
    ensures lowers { OnErr result (NoMore budget.old.left budget.new.left) }
{
    let (replaced, kept) = both_halts(subrs, charstring, called, budget)?;
    let mut names = parts_of(alloc, replaced)?;
    let more = parts_of(alloc, kept)?;
    names.extend_from_slice(more.as_slice())?;
    Ok(names)
}

/// What a plain charstring needs of its font: for an accented glyph the names of its base and its accent, where hints are
/// replaced and then where they are kept, and the indices that it executes, as [`executed`] says, added to `called`. It
/// keeps no marks. It fails only for want of memory, and has then added the first few of these indices or none, in the
/// order in which the runs take them; what was in `called` before is still there.
pub fn parts_and_executed<S: Subroutines>(
    alloc: Global,
    subrs: &S,
    charstring: &[u8],
    called: &mut SubrSet,
) -> Result<Vec<&'static str>, AllocError>
    ensures names { IfOk result (λ names. map (λ s. s.now) names.items
        ≡ parts (S.subrs subrs.now) charstring.now) }
    ensures executed { OnOk result (called.new
        ≡ with_executed called.old (S.subrs subrs.now) charstring.now) }
    ensures some { OnErr result (AddsFirst
        (calls (S.subrs subrs.now) charstring.now ++ calls3 (S.subrs subrs.now) charstring.now)
        called.old called.new) }
{
    let mut budget = Budget { left: None };
    match parts_and_executed_within(alloc, subrs, charstring, called, &mut budget) {
        Ok(names) => Ok(names),
        Err(_) => Err(AllocError),
    }
}

/// Runs a charstring where hints are replaced and where they are kept, without a budget. The Subrs that it executes are added to
/// `called`.
fn run_both<S: Subroutines>(
    subrs: &S,
    charstring: &[u8],
    called: &mut SubrSet,
) -> Result<(), AllocError>
    ensures { OnOk result (called.new
        ≡ with_executed called.old (S.subrs subrs.now) charstring.now) }
{
    match both_halts(subrs, charstring, called, &mut Budget { left: None }) {
        Ok(_) => Ok(()),
        Err(_) => Err(AllocError),
    }
}

/// The indices that `callsubr` takes in the run of a plain charstring, up to its end or fault, where hints are replaced or
/// where they are kept: whole numbers from 0 to 65,534, including those of Subrs that are absent or too deep. It keeps
/// no marks. It fails only for want of memory.
pub fn executed<S: Subroutines>(
    alloc: Global,
    subrs: &S,
    charstring: &[u8],
) -> Result<BTreeSet<u16>, AllocError>
    ensures indices { IfOk result (λ set. set.keys ≡ exec (S.subrs subrs.now) charstring.now) }
{
    let mut called = SubrSet::new(alloc);
    run_both(subrs, charstring, &mut called)?;
    called.to_set(alloc)
}
