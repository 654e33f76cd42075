//! The tests of what `t1_font` says of parts of fonts: cuts, tables of glyphs and of Subrs, joins, and how many entries there may be.
#![tactic(auto)]

#[cfg(test)]
mod tests;
