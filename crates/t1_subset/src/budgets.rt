//! Why a call within a budget of tokens has no answer.

ghost use Rattle.std.specs.Prelude.{◌≡◌};
ghost use Rattle.t1_subset.specs.{Budgets.{stopped}, FaultTexts.{text_within}, declared.fault.RejoinFault.TheVariants.{Merge}};
ghost use Rattle.t1_subset.specs.declared.budgets.BudgetFault.TheVariants.{Plain};
ghost use Rattle.t1_subset.specs.declared.conflict.Conflict.TheVariants as conflict;
ghost use Rattle.t1_subset.specs.declared.fault.SubsetFault.TheVariants as subset;

use crate::conflict::Conflict;
use crate::fault::{RejoinFault, SubsetFault};
use std::alloc::AllocError;
use std::fmt;
use t1_run::Stop;

/// Why a call within a budget of tokens has no answer.
#[derive(PartialEq, Eq, Debug, Drop)]
pub enum BudgetFault<E> {
    /// The runs of the glyphs execute more tokens than the budget has.
    TooManyTokens,
    /// What the call answers without a budget.
    Plain(E),
}

impl<E: fmt::Display + Drop> fmt::Display for BudgetFault<E> {
    ghost output = { λ fault. text_within E.output fault };

    fn fmt<W: fmt::Write>(&self, f: &mut fmt::Formatter<W>) -> fmt::Result {
        match self {
            BudgetFault::TooManyTokens => f.write_str("too many tokens"),
            BudgetFault::Plain(fault) => write!(f, "{fault}"),
        }
    }
}

impl<E: fmt::Debug + fmt::Display + Drop> std::error::Error for BudgetFault<E> {}

impl From<Stop> for BudgetFault<SubsetFault> {
    ghost from_gives = { λ stop e. e ≡ stopped stop subset.Memory };

    fn from(stop: Stop) -> BudgetFault<SubsetFault> {
        match stop {
            Stop::TooManyTokens => BudgetFault::TooManyTokens,
            Stop::Memory => BudgetFault::Plain(SubsetFault::Memory),
        }
    }
}

impl From<Stop> for BudgetFault<RejoinFault> {
    ghost from_gives = { λ stop e. e ≡ stopped stop (Merge conflict.Memory) };

    fn from(stop: Stop) -> BudgetFault<RejoinFault> {
        match stop {
            Stop::TooManyTokens => BudgetFault::TooManyTokens,
            Stop::Memory => BudgetFault::Plain(RejoinFault::Merge(Conflict::Memory)),
        }
    }
}

impl From<AllocError> for BudgetFault<RejoinFault> {
    ghost from_gives = { λ _ e. e ≡ Plain (Merge conflict.Memory) };

    fn from(_fault: AllocError) -> BudgetFault<RejoinFault> {
        BudgetFault::Plain(RejoinFault::Merge(Conflict::Memory))
    }
}
