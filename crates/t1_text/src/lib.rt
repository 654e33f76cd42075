//! The texts of a font program: its words, numbers, markers and names, the entries of its tables, and texts that are rewritten.
//!
//! A reader at the front of bytes answers what its grammar reads of them, and what stands behind it; `None` where the grammar
//! reads nothing. No call owes a condition. What a `&[u8]` says of a whole font is a matter of `t1_font`.
#![tactic(auto)]

pub mod box_places;
pub mod code_entry;
pub mod dialect;
pub mod encoding_forms;
pub mod entry;
pub mod font_test;
pub mod joined_boxes;
pub mod laws;
pub mod limits;
pub mod markers;
mod numbers;
pub mod places;
pub mod rewriting;
pub mod table_entries;
pub mod tags;
pub mod words;
