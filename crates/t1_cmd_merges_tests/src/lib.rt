//! The tests of the engines of `t1_cmd` over several fonts: mergers, fonts that rejoin, conflicts, and budgets.
#![tactic(auto)]

#[cfg(test)]
mod tests;
