//! Budgets of tokens: how many more runs may execute.

ghost use Rattle.std.specs.Prelude.{◌≡◌, Some, IfOk, IfErr, OnErr};
ghost use Rattle.t1_run.specs.{declared.budget.Stop.TheVariants.{TooManyTokens}, Budgets.{allowed_by, less}, State.{token_limit}, Frames.{frame_left}};
ghost use Rattle.t1_run.specs.Machine.{left_of, EndsAtLimit, Withheld};

use crate::answer::{Fault, Halt};
use crate::frames::Frame;
use std::alloc::AllocError;
use std::fmt;

/// The tokens that a run may execute, this project's limit.
const TOKENS: u32 = 100_000;

/// How many more tokens runs may execute in all.
#[derive(Clone, Copy, PartialEq, Eq, Debug)]
pub struct Budget {
    /// The tokens that are left, or `None` if runs may execute as many as they like.
    pub left: Option<u64>,
}

impl Budget {
    /// Takes tokens out of what is left.
    pub(crate) fn take(&mut self, tokens: u32)
        ensures { self.new.left ≡ less self.old.left tokens }
    {
        if let Some(left) = self.left {
            self.left = Some(left.saturating_sub(u64::from(tokens)));
        }
    }
}

/// How many more tokens one run may execute.
#[derive(Clone, Copy)]
pub(crate) struct Allowance {
    /// The tokens that its own limit and its budget allow.
    pub(crate) allowed: u32,
    /// The tokens more that its own limit allows and its budget does not.
    pub(crate) withheld: u32,
}

impl Allowance {
    /// What a budget allows to a run before its first token.
    pub(crate) fn of(budget: Budget) -> Allowance
        ensures all { left_of result ≡ token_limit }
        ensures allowed { result.allowed ≡ allowed_by budget.left }
    {
        let allowed = match budget.left {
            Some(left) => left.min(u64::from(TOKENS)) as u32,
            None => TOKENS,
        };
        Allowance {
            allowed,
            withheld: TOKENS - allowed,
        }
    }

    /// How a charstring ends where no more tokens are allowed: no token is left, or it fails at its own limit; or the budget withholds
    /// the next token.
    #[inline(never)]
    pub(crate) fn end(self, top: &mut Frame<'_>) -> Result<Halt, Stop>
        requires { self.allowed ≡ 0 }
        ensures ends { IfOk result (EndsAtLimit self (frame_left top.old) (frame_left top.new)) }
        ensures withheld { OnErr result (Withheld self (frame_left top.old) (frame_left top.new)) }
        ensures fault { IfErr result (λ e. e ≡ TooManyTokens) }
    {
        if top.next().is_none() {
            return Ok(Halt::Failed(Fault::Unended));
        }
        if self.withheld > 0 {
            return Err(Stop::TooManyTokens);
        }
        Ok(Halt::Failed(Fault::TooLong))
    }
}

/// Why a run within a budget stops before its end.
#[derive(Clone, Copy, PartialEq, Eq, Debug)]
pub enum Stop {
    /// No token is left for the next that it would execute.
    TooManyTokens,
    /// A growth was refused.
    Memory,
}

impl fmt::Display for Stop {
    ghost use Rattle.t1_run.specs.FaultNames.{stop_text};

    ghost output = { λ stop. Some (stop_text stop) };

    fn fmt<W: fmt::Write>(&self, f: &mut fmt::Formatter<W>) -> fmt::Result {
        f.write_str(match self {
            Stop::TooManyTokens => "too many tokens",
            Stop::Memory => "out of memory",
        })
    }
}

impl std::error::Error for Stop {}

impl From<AllocError> for Stop {
    ghost use Rattle.t1_run.specs.declared.budget.Stop.TheVariants.{Memory};

    ghost from_gives = { λ _ e. e ≡ Memory };

    fn from(_fault: AllocError) -> Stop {
        Stop::Memory
    }
}
