//! The tests of what `t1_cmd` reads, tells and joins, and of its engines over one font.
#![tactic(auto)]

#[cfg(test)]
mod tests;
