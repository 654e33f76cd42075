//! The engine that merges fonts.
ghost use Rattle.std.specs.Prelude.{◌≡◌, None, Ok, OnOk, IfOk, IfErr, MatchResult};
ghost use Rattle.t1_subset.specs.{Budgets.{merge_tokens, IsEnough}, NameSets.{lent}};
ghost use Rattle.t1_algebra.specs.Merges.{ComesTo};
ghost use Rattle.t1_cmd.specs.{Fonts.{font_input}, Answers.{MayRefuse}, Files.{OfFiles, RefusesFiles}, Runs.{RunEnds, Succeeds}};
ghost use Rattle.t1_cmd.specs.{Mergers.{inputs_of, InTurns, MergesToFile}, Budgets.{MergesWithin}, WrittenSubsets.{OfUnion, WritesUnion}};

use crate::counting::Counted;
use crate::faults::{FilesRefusal, Reason, RunFault};
use crate::font_commands::Taking;
use crate::fonts::font_file;
use crate::several::{FontsCommand, run_fonts_command, text_of_files};
use std::alloc::Global;
use std::io::{Read, Write};
use t1_font::{Font, Form, Source};
use t1_subset::{Budget, BudgetFault, Conflict, fonts_of, merge_all_within};

// The font that fonts come to, merged from left to right, within a budget.
#[tactic(auto, using(crate::proofs::Budgets::told_enough))]
fn merge_fonts<'a>(alloc: Global, fonts: &[Font<'a>], budget: Budget) -> Result<Font<'a>, Reason>
    ensures comes { IfOk result (λ j. ComesTo fonts.now j) }
    ensures enough { OnOk result (IsEnough budget.left (merge_tokens fonts.now)) }
    ensures refused { IfErr result
        (λ e. (form : Form) → MayRefuse (MergesWithin budget.left form fonts.now) e) }
{
    match merge_all_within(alloc, fonts, budget) {
        Ok(font) => Ok(font),
        Err(BudgetFault::TooManyTokens) => Err(Reason::TooManyTokens),
        Err(BudgetFault::Plain(Conflict::Memory)) => Err(Reason::Memory),
        Err(BudgetFault::Plain(conflict)) => Err(Reason::Merge(conflict)),
    }
}

// The canonical file of the font that fonts come to, within a budget. The fonts are dropped before it is written.
fn merged_file(
    alloc: Global,
    fonts: Vec<Font<'_>>,
    form: Form,
    budget: Budget,
) -> Result<Vec<u8>, Reason>
    ensures text { IfOk result (λ text. MergesWithin budget.left form fonts.entry.items (Ok text.items)) }
    ensures refused { IfErr result (MayRefuse (MergesWithin budget.left form fonts.entry.items)) }
{
    let font = match merge_fonts(alloc, fonts.as_slice(), budget) {
        Ok(font) => font,
        Err(reason) => return Err(reason),
    };
    drop(fonts);
    let text = font_file(alloc, &font, form);
    drop(font);
    let text = text?;
    Ok(text)
}

/// The command `merge`, the form that it writes, and the tokens that it may execute.
#[derive(Drop)]
pub(crate) struct Merge {
    form: Form,
    budget: Budget,
}

impl FontsCommand for Merge {
    ghost Answers = { λ command. MergesWithin command.budget.left command.form };

    fn text(&self, alloc: Global, sources: Vec<Source>) -> Result<Vec<u8>, Reason> {
        let fonts = fonts_of(alloc, sources.as_slice())?;
        merged_file(alloc, fonts, self.form, self.budget)
    }
}

/// The canonical file, in one of the two forms, of the font that the fonts of files come to when they are merged from left to
/// right, as [`run_merge`] writes it. For written subsets of one font this is the subset of all their names.
///
/// # Errors
///
/// [`Reason::TooLong`] or [`Reason::Font`] with the place of the first file that spells no font; else [`Reason::Merge`] if the
/// fonts don't merge, or if there is none. [`Reason::Memory`] if a growth was refused.
pub fn merge_files(alloc: Global, files: &[&[u8]], form: Form) -> Result<Vec<u8>, FilesRefusal>
    ensures text { IfOk result (λ text. OfFiles font_input (MergesToFile form) (lent files.now) (Ok text.items)) }
    ensures refused { IfErr result (RefusesFiles font_input (MergesToFile form) (lent files.now)) }
    ensures subsets { OfUnion form (lent files.now) (λ union. MatchResult result
        (λ text. text.items ≡ union) (λ e. (e.place ≡ None) × (e.reason ≡ Reason.Memory))) }
{
    merge_files_within(alloc, files, form, Budget { left: None })
}

/// The same as [`merge_files`] within a budget, out of which the runs of glyphs take their tokens.
///
/// # Errors
///
/// As [`merge_files`]; but behind what the files are refused for, and behind a conflict of the shells of the first two fonts, comes
/// [`Reason::TooManyTokens`], if the runs of the glyphs of all fonts execute more tokens than the budget has.
pub fn merge_files_within(
    alloc: Global,
    files: &[&[u8]],
    form: Form,
    budget: Budget,
) -> Result<Vec<u8>, FilesRefusal>
    ensures text { IfOk result
        (λ text. OfFiles font_input (MergesWithin budget.left form) (lent files.now) (Ok text.items)) }
    ensures refused { IfErr result (RefusesFiles font_input (MergesWithin budget.left form) (lent files.now)) }
{
    text_of_files(alloc, Taking::Spelled, &Merge { form, budget }, files)
}

/// Writes the canonical file, in one of the two forms, of the font that fonts come to when they are merged from left
/// to right. For subsets of one font this is the subset of all their names.
///
/// The inputs are read and understood one after the other, and merged after that. If several things are wrong, the first
/// in that order is answered, and a conflict of the fonts, as [`Reason::Merge`], comes last.
pub fn run_merge<R: Read, W: Write>(
    alloc: Global,
    readers: &mut [Counted<R>],
    form: Form,
    writer: &mut Counted<W>,
) -> Result<(), RunFault>
    ensures ends { RunEnds font_input (MergesToFile form) W.contents
        (inputs_of R.remaining readers.old readers.new) writer.old writer.new result }
    ensures succeeds { Succeeds font_input (MergesToFile form)
        (inputs_of R.remaining readers.old readers.new) writer.old writer.new result }
    ensures subsets { WritesUnion W.contents form
        (inputs_of R.remaining readers.old readers.new) writer.old writer.new result }
    ensures turns { InTurns readers.old readers.new }
{
    run_merge_within(alloc, readers, form, Budget { left: None }, writer)
}

/// Writes what [`run_merge`] writes, within a budget, out of which the runs of glyphs take their tokens.
///
/// Behind what an input is refused for, and behind a conflict of the shells of the first two fonts, it is refused with
/// [`Reason::TooManyTokens`], if the runs of the glyphs of all fonts execute more tokens than the budget has.
pub fn run_merge_within<R: Read, W: Write>(
    alloc: Global,
    readers: &mut [Counted<R>],
    form: Form,
    budget: Budget,
    writer: &mut Counted<W>,
) -> Result<(), RunFault>
    ensures ends { RunEnds font_input (MergesWithin budget.left form) W.contents
        (inputs_of R.remaining readers.old readers.new) writer.old writer.new result }
    ensures turns { InTurns readers.old readers.new }
{
    let command = Merge { form, budget };
    run_fonts_command(alloc, Taking::Spelled, &command, readers, writer)
}
