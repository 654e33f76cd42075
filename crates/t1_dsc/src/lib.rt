//! PostScript documents as one document that conforms to Adobe's Document Structuring Conventions 3.0, so that print spoolers and
//! programs that select or reorder pages see every page of it.
//!
//! ```text
//! let joined = join_pages(alloc, fonts, &[one, other], limit)?;
//! ```
//!
//! The text has one header, which tells the number of pages, one prolog with two procedures, one setup with `fonts`, and one
//! trailer. Each page stands by itself, so it draws the same in any order: behind its new number and its comments on itself come, between
//! the two procedures, the head of its document (prolog and setup), its own lines, and the trailer of its document. The first
//! procedure saves the state of the interpreter; the second one pops what the page left on the stacks, and restores that state.
//! The page's setup ends where it ended before, or where the page had none behind the head, so that paper is chosen inside it.
//!
//! Of a document's header nothing is kept: it has comments alone. A line that would be structure of the joined document gets `% ` before
//! it, and each other line stays. Inside embedded documents and data nothing changes, and what a document leaves open there is ended
//! behind it. A document without pages, or with a page behind the beginning of a trailer (as where documents stand one behind
//! the other), becomes one page whole, and its number of pages is told as 0.
//!
//! `fonts` are lines, too, of which none is structure. They may define names that begin with `/pool:`: the names of the two procedures
//! then have more colons.
//!
//! The specifications speak of a document by its lines and what they are (`specs/Structure.antt`) and by its parts
//! (`specs/Parts.antt`); what documents become is in `specs/Joining.antt`, and the laws in `specs/Laws.antt`.
#![tactic(auto)]

mod fault;
mod joining;
pub mod laws;
mod lines;
mod names;
mod pages;
mod parts;
mod quiet;
mod whole;

pub use fault::PagesFault;
pub use joining::{JoinedPages, join_pages};
