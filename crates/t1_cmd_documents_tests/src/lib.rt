//! The tests of the engines of `t1_cmd` over documents: fonts that are pooled, levelled, listed and taken out.
#![tactic(auto)]

#[cfg(test)]
mod tests;
