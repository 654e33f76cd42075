//! A whole caller of this library: a font is cut in two and joined again.
//!
//! Two documents carry subsets of one font, each in a file of its own. A tool that joins the documents reads both
//! files, merges the fonts, and writes one file with all glyphs of both. [`cut_and_joined`] does all of that over bytes
//! in memory, and its contract is what the library promises to such a tool.
//!
//! A file is read into a [`Source`], which owns its bytes and lends the [`Font`]; a font that is cut or merged from
//! others also borrows from their sources. So a source is kept until what is made of its fonts has been written, and the
//! steps here take files or sources and answer files.
//!
//! [`cuts_joined`] does the same for cuts that other programs made.
//!
//! The other functions call one crate each, as its page `CALLING.md` shows.
//!
//! ```text
//! let both = cut_and_joined(alloc, file, &[b"A"], &[b"B"], Order::SecondIntoFirst, Form::Pfb)?;
//! ```
#![tactic(auto)]

mod cuts;
mod listings;
mod merged_files;
mod new_fonts;
mod private_texts;
mod refusal;
mod spaces;
mod spellings;
mod subset_files;
mod widths;

ghost use Rattle.std.specs.Prelude.{◌≡◌, ℕ, true, List, IfOk, MatchResult};
ghost use Rattle.t1_font.specs.{Canon.{canon}, FontValue.{FontValue}, IsFont.{IsFont}, ReadFont.{read_font}, Spelling.{Spells}};
ghost use Rattle.t1_algebra.specs.{Interpreter.{Names}, Keep.{keep, subset, IsOf}, Laws.{AnswersAlike}, Profile.{profile}};
ghost use Rattle.t1_subset.specs.{NameSets.{lent, asked}, Merger.{IsMerger, MergesSubsets}};
ghost use Rattle.t1_example.specs.{Joining.{AreCuts, CanBeCut, union_subset}, Outcomes.{FileComesTo, FilesMergeTo, MergeTo}, Refusals.{IsMemory}};
ghost use Rattle.std.specs.FinSet as sets;

pub use cuts::cuts_joined;
pub use listings::joined_text;
pub use merged_files::both_files;
pub use new_fonts::with_font;
pub use private_texts::sealed_and_opened;
pub use refusal::Refusal;
pub use spaces::space;
pub use spellings::respelled;
use std::alloc::Global;
pub use subset_files::subset_file;
use t1_font::{Font, Form, Source, read, write};
use t1_subset::{Conflict, merge};
pub use widths::width;

/// Which of two fonts is the left one of a merge.
#[derive(Clone, Copy, Debug, PartialEq, Eq)]
pub enum Order {
    /// The second is the left one.
    FirstIntoSecond,
    /// The first is the left one.
    SecondIntoFirst,
}

// What two fonts come to, merged in this order; it borrows from the sources of both.
fn merged<'a>(
    alloc: Global,
    first: &Font<'a>,
    second: &Font<'a>,
    order: Order,
) -> Result<Font<'a>, Conflict>
    ensures subsets { MergesSubsets first.now second.now result }
    ensures comes { IsMerger first.now second.now result }
{
    match order {
        Order::FirstIntoSecond => merge(alloc, second, first),
        Order::SecondIntoFirst => merge(alloc, first, second),
    }
}

// The file of what the fonts of two sources come to.
fn merged_file(
    alloc: Global,
    first: &Source,
    second: &Source,
    order: Order,
    form: Form,
) -> Result<Vec<u8>, Refusal>
    ensures subsets { (f : FontValue) (a b : Names) → IsFont f → IsOf f a → IsOf f b →
        first.now ≡ subset profile f a → second.now ≡ subset profile f b →
        MatchResult result (λ v. v.items ≡ canon (union_subset f a b) form) IsMemory }
    ensures comes { MergeTo first.now second.now form result }
{
    let one = first.font(alloc)?;
    let other = match second.font(alloc) {
        Ok(other) => other,
        Err(_) => {
            drop(one);
            return Err(Refusal::Memory);
        }
    };
    let font = merged(alloc, &one, &other, order);
    drop(one);
    drop(other);
    let font = font?;
    let file = write(alloc, &font, form);
    drop(font);
    Ok(file?)
}

// The file of what the fonts of two files come to: the work of a tool that joins documents.
fn joined(
    alloc: Global,
    first: &[u8],
    second: &[u8],
    order: Order,
    form: Form,
) -> Result<Vec<u8>, Refusal>
    ensures subsets { (f : FontValue) (a b : Names)
        → IsFont f
        → IsOf f a
        → IsOf f b
        → AreCuts f a b first.now second.now
        → MatchResult result (λ v. v.items ≡ canon (union_subset f a b) form) IsMemory }
    ensures comes { FilesMergeTo (read_font first.now) (read_font second.now) form result }
{
    let one = read(alloc, first)?;
    let other = match read(alloc, second) {
        Ok(other) => other,
        Err(fault) => {
            drop(one);
            return Err(Refusal::Read(fault));
        }
    };
    let file = merged_file(alloc, &one, &other, order, form);
    drop(one);
    drop(other);
    file
}

/// The file of the font that two subsets of a font come to: the font of a file is read and cut to both sets of names;
/// both subsets are written, read again and merged; and the merged font is written.
///
/// If the file spells a font, the names are the font's, and the font's head doesn't begin with byte 128 or the form is
/// PFB, the answer is the file of the subset of all the names, in either order of the merge, and each of its glyphs runs
/// and draws as in the font. Then only want of memory is refused.
///
/// A file that spells no font is refused for its first fault, as [`Refusal::Read`]; else the first name that the font
/// lacks, of `first` before `second`, as [`Refusal::Subset`]. A head that begins with byte 128 makes a PFA that is taken
/// for a PFB: then the answer is what the two written files come to, whatever they are read as.
pub fn cut_and_joined(
    alloc: Global,
    file: &[u8],
    first: &[&[u8]],
    second: &[&[u8]],
    order: Order,
    form: Form,
) -> Result<Vec<u8>, Refusal>
    ensures bytes { (f : FontValue)
        → CanBeCut file.now (asked first.now) (asked second.now) form f
        → MatchResult result (λ v. v.items
        ≡ canon (union_subset f (asked first.now) (asked second.now)) form) IsMemory }
    ensures comes { FileComesTo (read_font file.now) (lent first.now) (lent second.now) form result }
    ensures draws { (f : FontValue)
        → CanBeCut file.now (asked first.now) (asked second.now) form f
        → IfOk result (λ v. (g : FontValue) (n : List ℕ)
        → Spells v.items g
        → sets.contains
        (keep profile f (sets.union (asked first.now) (asked second.now))) n
        ≡ true
        → AnswersAlike f g n) }
{
    let source = read(alloc, file)?;
    let one = match subset_file(alloc, &source, first, form) {
        Ok(one) => one,
        Err(refusal) => {
            drop(source);
            return Err(refusal);
        }
    };
    let other = subset_file(alloc, &source, second, form);
    drop(source);
    let other = other?;
    joined(alloc, one.as_slice(), other.as_slice(), order, form)
}
