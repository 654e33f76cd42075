//! Classes of font files: which of many files that are to have one name join.
//!
//! [`join_files`] answers the text that files join to, or why they don't join. [`classes_of`] parts any number of files into classes
//! that join, of which no two do: so one odd file of a family doesn't keep the others apart.
//!
//! ```text
//! for class in classes_of(alloc, b"CMR10", &[one, other, odd])?.as_slice() {
//!     // class.members, class.text(), class.apart
//! }
//! ```
//!
//! The specifications speak of files as their bytes: what they join to is in `specs/Joining.antt`, how they are parted in
//! `specs/Partition.antt`, what is answered in `specs/Classes.antt`, and the laws in `specs/Laws.antt`.
#![tactic(auto)]

mod classes;
mod distinct;
mod fitting;
mod joining;
pub mod laws;
mod refusals;
mod settling;

pub use classes::{Class, Content, classes_of};
pub use joining::join_files;
pub use refusals::Refusal;
