//! The engines over several fonts, and the calls below them, with ample memory.

mod budgets;
mod diffs;
mod failing_merges;
mod growths;
mod lists;
mod merges;
mod rejoins;
