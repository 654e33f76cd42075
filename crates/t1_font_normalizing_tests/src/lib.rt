//! The tests of how `t1_font` makes fonts alike: normalized texts, names, boxes, heads without tests, and Subrs that are filled.
#![tactic(auto)]

#[cfg(test)]
mod tests;
