//! What a file carries that is to be a PostScript document: the document itself, and what stands around it in a print job or in an
//! EPS file for DOS; and what a file is that carries none.
//!
//! No call owes a condition.
#![tactic(auto)]

mod dos;
mod jobs;
mod kinds;
mod words;

pub use jobs::{Job, NoDocument, job_of, with_document};
pub use kinds::{FileKind, file_kind};
