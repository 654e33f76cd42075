//! The engines of `t1subset`: from the bytes of readers to the bytes of a writer.
//!
//! Each engine reads whole inputs, makes its whole result, and writes it last. What is written is a stated function
//! of the bytes that were read; after a refusal, or if a reader failed, nothing is written.
//!
//! Beside the engines stand calls over files in memory, which answer the same texts: [`check_file`], [`list_file`], [`list_file_full`],
//! [`show_file`], [`convert_file`], [`subset_file`], [`subset_file_with_codes`], [`merge_files`], [`rejoin_files`], [`diff_files`] and [`join_listings`];
//! and over documents [`pool_files`], [`level_files`], [`list_fonts`] and [`extract_file`].
//!
//! [`run_subset_within`], [`run_merge_within`], [`run_rejoin_within`] and [`run_diff_within`] execute no more tokens of charstrings than
//! a [`Budget`] allows; so do [`subset_file_within`], [`merge_files_within`], [`rejoin_files_within`] and [`diff_files_within`].
//!
//! ```text
//! let mut text = Vec::new(alloc);
//! match run_check(alloc, &mut Counted::new(file), &mut Counted::new(&mut text)) {
//!     Ok(()) => show(&text),
//!     Err(fault) => write_fault(alloc, &fault, &mut Counted::new(err))?,
//! }
//! ```
#![tactic(auto)]

mod code_lists;
mod counting;
mod diffs;
mod document_commands;
mod documents;
mod extracts;
mod faults;
mod font_commands;
mod font_places;
mod fonts;
mod full;
pub mod laws;
mod levels;
mod list;
mod listings;
mod mends;
mod mergers;
mod pages;
mod pools;
mod reading;
mod rejoins;
mod several;
mod show;
mod subsets;
mod texts;
mod writing;

pub use code_lists::read_codes;
pub use counting::Counted;
pub use diffs::{diff_files, diff_files_within, run_diff, run_diff_within};
pub use extracts::{extract_file, run_extract};
pub use faults::{FilesRefusal, Name, Reason, RunFault, status};
pub use font_places::{list_fonts, run_fonts};
pub use fonts::{check_file, convert_file, run_check, run_check_of, run_convert};
pub use full::{list_file_full, run_list_full};
pub use levels::{Levelled, level_files, run_level};
pub use list::{list_file, run_list};
pub use listings::{join_listings, run_join};
pub use mends::{list_mends, mend_file, run_mend};
pub use mergers::{merge_files, merge_files_within, run_merge, run_merge_within};
pub use pools::{Pooled, Pooling, pool_files, run_pool};
pub use reading::read_all;
pub use rejoins::{rejoin_files, rejoin_files_within, run_rejoin, run_rejoin_within};
pub use show::{run_show, show_file};
pub use subsets::{
    run_subset, run_subset_with_codes, run_subset_within, subset_file, subset_file_with_codes,
    subset_file_within,
};
pub use t1_bytes::FILE_LIMIT;
pub use t1_subset::Budget;
pub use writing::{write_fault, write_fault_of, write_text};
