//! Subsets and mergers of Type 1 fonts.
//!
//! [`subset`] cuts a font to the glyphs of some names and to what these glyphs need: the components of accented glyphs,
//! and the Subrs that are executed; [`closure`] answers what that is. [`merge`] and [`merge_all`] make one font of
//! several; subsets of one font merge to the subset over all their names. [`states`] answers what fonts are compared by.
//! [`subset_within`], [`merge_all_within`], [`rejoin_within`] and [`conflicts_within`] execute no more tokens than a [`Budget`] allows.
//! A font that is made here borrows from the sources of the fonts that it was made from.
//!
//! ```text
//! let some = subset(alloc, &font, &[b"A", b"Aacute"])?;
//! let other = subset(alloc, &font, &[b"C"])?;
//! let both = merge(alloc, &some, &other)?;
//! ```
//!
//! `t1_example` is a whole caller, with its contract and proof.
#![tactic(auto)]

mod budgets;
mod calls;
mod closure_names;
mod closures;
mod conflict;
mod differences;
mod fault;
mod font_making;
mod groupings;
mod in_turn;
mod lacks;
mod last_runs;
pub mod laws;
mod merger;
mod name_sets;
mod name_states;
mod needed;
mod references;
mod rejoins;
mod searches;
mod shared;
mod state_joins;
mod state_making;
mod state_value;
mod subsets;
mod tables;
mod users;

pub use budgets::BudgetFault;
pub use closures::closure;
pub use conflict::{Conflict, ShellPart};
pub use differences::{conflicts, conflicts_within};
pub use fault::{RejoinFault, SubsetFault};
pub use groupings::shells_conflict;
pub use lacks::{Lack, first_lack};
pub use merger::{merge, merge_all, merge_all_within};
pub use needed::Closure;
pub use rejoins::{fonts_of, rejoin, rejoin_within};
pub use state_making::states;
pub use state_value::States;
pub use subsets::{subset, subset_within};
pub use t1_run::{Budget, Stop};
