//! The tests of `t1_classes`, which call what is public of it: over the proved crate, so that only they are proved here.
#![tactic(auto)]

#[cfg(test)]
mod tests;
