//! Type 1 fonts in PostScript documents.
//!
//! [`read_document`] finds the places of fonts in a document, between the marks that producers write around them. Each
//! [`Place`] has the name of its font, lends its text, and reads the font again. [`join_fonts`] says what the fonts of each name
//! come to. [`Document::level`] writes the document with new texts at the places of some names, and [`pool_document`] with each
//! font once, before all places.
//!
//! ```text
//! let pooled = pool_document(alloc, Key::Name, text)?;
//! ```
//!
//! The specifications speak of a document by its lines (`specs/Lines.antt`), its marks and the stretches behind them
//! (`specs/Stretches.antt`), and its places (`specs/Documents.antt`); what it becomes with new texts is in
//! `specs/Rewriting.antt`, and the laws in `specs/Laws.antt`.
#![tactic(auto)]

mod apart;
mod documents;
mod entries;
mod families;
mod fonts;
mod groups;
mod joins;
pub mod laws;
mod levelling;
mod lines;
mod marks;
mod names;
mod own_names;
mod pooling;
mod rewriting;
mod stretches;
mod texts;

pub use apart::{PooledApart, pool_apart};
pub use documents::{Document, Place, read_document};
pub use entries::Least;
pub use joins::{Joins, Kept, Outcome, join_fonts};
pub use levelling::{LevelledTexts, all_places, level_documents, read_documents};
pub use lines::{line_of, push_document};
pub use marks::{Kind, Mark, Open, Side, mark_of};
pub use names::names_of;
pub use own_names::{free_start, longest_start, stands_in};
pub use pooling::{Key, PooledText, pool_document};
pub use texts::Texts;
