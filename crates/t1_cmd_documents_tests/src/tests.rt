//! The engines over documents, and the calls below them, with ample memory.

mod documents;
mod fonts;
mod jobs;
mod kept;
mod pages;
