//! What the tests of `t1_cmd` share: readers and writers that behave by a plan, files of Tiny with changes, and what the engines and
//! the calls below them answer.
#![tactic(auto)]

pub mod changed;
pub mod diffs;
pub mod documents;
pub mod engines;
pub mod feeds;
pub mod lists;
pub mod texts;
