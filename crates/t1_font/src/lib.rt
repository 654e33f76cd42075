//! Type 1 fonts: reading PFA and PFB files, the font value, and writing it.
//!
//! [`read`] answers the [`Source`] of the font that a file spells, or the first fault, and [`Source::font`] lends the
//! [`Font`]. [`write`] gives the one canonical file of a font, in either [`Form`], which is read as the same font. A font
//! implements `t1_run`'s `Subroutines` and `Glyphs`, so its charstrings can be run and drawn.
//!
//! ```text
//! let source = read(alloc, file)?;
//! let font = source.font(alloc)?;
//! let canonical = write(alloc, &font, Form::Pfb)?;
//! ```
//!
//! [`read_wide`] reads fonts that other programs spell, too: with comments in the Encoding and among Subrs, with codes that are
//! copied, and with `readonly` behind a word that is the whole Encoding.
//!
//! The specifications speak of a font as a `FontValue` (`specs/FontValue.antt`), and of reading as a relation, `Spells`,
//! and as a function, `read_font`; laws tie the two together.
#![tactic(auto)]

mod code_names;
mod cut;
mod encoding;
mod fault;
mod file;
mod filling;
mod font;
mod font_boxes;
mod font_names;
mod font_shell;
mod gathered;
mod glyphs;
mod lent;
mod limits;
mod made_tables;
mod mend;
mod normal_texts;
mod normalizing;
mod parts;
mod passes;
mod private;
mod private_writing;
mod ranges;
mod read_shell;
mod repeats;
mod sealing;
mod shell;
mod source;
mod stored;
mod stub;
mod subrs;
mod untested;
mod writing;

pub use cut::restrict;
pub use fault::ReadFault;
pub use file::{read, read_vec, read_wide, read_wide_vec};
pub use filling::fill_all;
pub use font::{Font, Indices, Names};
pub use font_boxes::normalize_boxes;
pub use font_names::normalize_named;
pub use font_shell::FontShell;
pub use lent::{CharStrings, CharStringsEntries, Glyph, SparseArray, SparseArrayEntries};
pub use limits::{COUNT_LIMIT, WEIGHT_LIMIT};
pub use mend::{Mend, mends};
pub use normalizing::normalize_shells;
pub use parts::{PartsFault, join_parts};
pub use passes::{Extent, join_glyphs, join_same_glyphs};
pub use shell::{Part, Shell};
pub use source::Source;
pub use stub::STUB;
pub use t1_bytes::Form;
pub use t1_run::{
    Curve, DrawFault, Drawing, DrawnPart, Fault, Mark, Pen, Point, draw, lay_out, trace,
};
pub use t1_text::tags::{name_in, untagged};
pub use writing::write;
