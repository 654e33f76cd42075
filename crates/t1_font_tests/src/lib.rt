//! The tests of what `t1_font` reads and writes: files of fonts, and what each fault of them is.
#![tactic(auto)]

#[cfg(test)]
mod tests;
