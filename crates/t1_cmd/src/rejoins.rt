//! The engine that rejoins fonts that other programs cut.
ghost use Rattle.std.specs.Prelude.{◌≡◌, ℕ, List, Option, None, IfOk, IfErr, MatchResult, Ok};
ghost use Rattle.t1_font.specs.{FontValue.{FontValue}, Normalizing.{normalized_shells}};
ghost use Rattle.t1_subset.specs.NameSets.{lent};
ghost use Rattle.t1_cmd.specs.{Answers.{MayRefuse}, Files.{OfFiles, RefusesFiles}, Fonts.{mended_input}, Runs.{RunEnds, Succeeds}};
ghost use Rattle.t1_cmd.specs.{Mergers.{inputs_of, InTurns}, Rejoins.{RejoinsTo}, Budgets.{RejoinsWithin, NotRejoinedWithin}};
ghost use Rattle.t1_cmd.specs.Cuts.{OfRejoined, WritesRejoined};

use crate::counting::Counted;
use crate::faults::{FilesRefusal, Name, Reason, RunFault};
use crate::font_commands::Taking;
use crate::fonts::font_file;
use crate::several::{FontsCommand, run_fonts_command, text_of_files};
use std::alloc::Global;
use std::io::{Read, Write};
use t1_font::{Form, Source, normalize_shells};
use t1_subset::{Budget, BudgetFault, Conflict, RejoinFault, rejoin_within};

// Why fonts don't rejoin within a budget, as a reason.
#[tactic(auto, using(crate::proofs::Budgets::told_rejoined, crate::proofs::Budgets::lack_enough))]
fn reason_of(alloc: Global, fault: BudgetFault<RejoinFault>) -> Reason
    ensures { (left : Option ℕ) (form : Form) (whole : List FontValue)
        → NotRejoinedWithin left (normalized_shells whole) fault
        → MayRefuse (RejoinsWithin left form whole) result }
{
    match fault {
        BudgetFault::TooManyTokens => Reason::TooManyTokens,
        BudgetFault::Plain(RejoinFault::Lacks { glyph, index }) => {
            match Name::new(alloc, glyph.as_slice()) {
                Ok(glyph) => Reason::Lacks { glyph, index },
                Err(_) => Reason::Memory,
            }
        }
        BudgetFault::Plain(RejoinFault::Merge(Conflict::Memory)) => Reason::Memory,
        BudgetFault::Plain(RejoinFault::Merge(conflict)) => Reason::Merge(conflict),
    }
}

// The canonical file of the font that sources of one declared count come to when they are filled, where no glyph lacks a Subr that
// another of them has, within a budget.
fn filled_file(
    alloc: Global,
    sources: &[Source],
    form: Form,
    budget: Budget,
) -> Result<Vec<u8>, Reason>
    ensures text { (fonts : List FontValue)
        → sources.now ≡ normalized_shells fonts
        → IfOk result (λ text. RejoinsWithin budget.left form fonts (Ok text.items)) }
    ensures refused { (fonts : List FontValue)
        → sources.now ≡ normalized_shells fonts
        → IfErr result (MayRefuse (RejoinsWithin budget.left form fonts)) }
{
    let mut indices = Vec::new(alloc);
    let font = match rejoin_within(alloc, sources, &mut indices, budget) {
        Ok(font) => font,
        Err(fault) => return Err(reason_of(alloc, fault)),
    };
    let text = font_file(alloc, &font, form);
    drop(font);
    let text = text?;
    Ok(text)
}

// The canonical file of the font that these come to when they are normalized, within a budget.
fn rejoined_file(
    alloc: Global,
    sources: Vec<Source>,
    form: Form,
    budget: Budget,
) -> Result<Vec<u8>, Reason>
    ensures text { IfOk result (λ text. RejoinsWithin budget.left form sources.items (Ok text.items)) }
    ensures refused { IfErr result (MayRefuse (RejoinsWithin budget.left form sources.items)) }
{
    let normalized = normalize_shells(alloc, sources)?;
    filled_file(alloc, normalized.as_slice(), form, budget)
}

/// The command `rejoin`, the form that it writes, and the tokens that it may execute.
#[derive(Drop)]
pub(crate) struct Rejoin {
    form: Form,
    budget: Budget,
}

impl FontsCommand for Rejoin {
    ghost Answers = { λ command. RejoinsWithin command.budget.left command.form };

    fn text(&self, alloc: Global, sources: Vec<Source>) -> Result<Vec<u8>, Reason> {
        rejoined_file(alloc, sources, self.form, self.budget)
    }
}

/// The canonical file, in one of the two forms, of the font that the fonts of files come to when they are normalized and then
/// merged from left to right, as [`run_rejoin`] writes it. Of truncated subsets of one font, such as dvips and pdfTeX cut, this is
/// the subset of all their names.
///
/// # Errors
///
/// [`Reason::TooLong`] or [`Reason::Font`] with the place of the first file that spells no font; else [`Reason::Lacks`] if a glyph
/// executes a Subr that its font lacks and another has; else [`Reason::Merge`] if the fonts, normalized, don't merge, if one of
/// them is then too heavy, or if there is none. [`Reason::Memory`] if a growth was refused.
pub fn rejoin_files(alloc: Global, files: &[&[u8]], form: Form) -> Result<Vec<u8>, FilesRefusal>
    ensures text { IfOk result (λ text. OfFiles mended_input (RejoinsTo form) (lent files.now) (Ok text.items)) }
    ensures refused { IfErr result (RefusesFiles mended_input (RejoinsTo form) (lent files.now)) }
    ensures cuts { OfRejoined form (lent files.now) (λ whole. MatchResult result
        (λ text. text.items ≡ whole) (λ e. (e.place ≡ None) × (e.reason ≡ Reason.Memory))) }
{
    rejoin_files_within(alloc, files, form, Budget { left: None })
}

/// The same as [`rejoin_files`] within a budget, out of which the runs of glyphs take their tokens.
///
/// # Errors
///
/// As [`rejoin_files`]; but behind what the files are refused for comes [`Reason::TooManyTokens`], if the runs of the glyphs of the
/// fonts, up to and with the first font that lacks a Subr, execute more tokens than the budget has.
pub fn rejoin_files_within(
    alloc: Global,
    files: &[&[u8]],
    form: Form,
    budget: Budget,
) -> Result<Vec<u8>, FilesRefusal>
    ensures text { IfOk result
        (λ text. OfFiles mended_input (RejoinsWithin budget.left form) (lent files.now) (Ok text.items)) }
    ensures refused { IfErr result (RefusesFiles mended_input (RejoinsWithin budget.left form) (lent files.now)) }
{
    text_of_files(alloc, Taking::Mended, &Rejoin { form, budget }, files)
}

/// Writes the canonical file, in one of the two forms, of the font that fonts come to when they are normalized and then
/// merged from left to right. Fonts of one parent that other programs cut differ in white space, in lines that number the font
/// and in tags before its name, declare no Subrs after the last one used, and have boxes of their own where they were converted.
///
/// The inputs are read and understood one after the other, and then normalized and merged. If several things are wrong, the
/// first in that order is answered. Before fonts are merged, a glyph that executes a Subr which its font lacks and another
/// has is refused as [`Reason::Lacks`]. A font that is too heavy with the stubs that it gets is reported as
/// [`Conflict::Limit`], if no shell differs from the first.
pub fn run_rejoin<R: Read, W: Write>(
    alloc: Global,
    readers: &mut [Counted<R>],
    form: Form,
    writer: &mut Counted<W>,
) -> Result<(), RunFault>
    ensures ends { RunEnds mended_input (RejoinsTo form) W.contents
        (inputs_of R.remaining readers.old readers.new) writer.old writer.new result }
    ensures succeeds { Succeeds mended_input (RejoinsTo form)
        (inputs_of R.remaining readers.old readers.new) writer.old writer.new result }
    ensures cuts { WritesRejoined W.contents form
        (inputs_of R.remaining readers.old readers.new) writer.old writer.new result }
    ensures turns { InTurns readers.old readers.new }
{
    run_rejoin_within(alloc, readers, form, Budget { left: None }, writer)
}

/// Writes what [`run_rejoin`] writes, within a budget, out of which the runs of glyphs take their tokens.
///
/// Behind what an input is refused for it is refused with [`Reason::TooManyTokens`], if the runs of the glyphs of the fonts, up to and
/// with the first font that lacks a Subr, execute more tokens than the budget has.
pub fn run_rejoin_within<R: Read, W: Write>(
    alloc: Global,
    readers: &mut [Counted<R>],
    form: Form,
    budget: Budget,
    writer: &mut Counted<W>,
) -> Result<(), RunFault>
    ensures ends { RunEnds mended_input (RejoinsWithin budget.left form) W.contents
        (inputs_of R.remaining readers.old readers.new) writer.old writer.new result }
    ensures turns { InTurns readers.old readers.new }
{
    let command = Rejoin { form, budget };
    run_fonts_command(alloc, Taking::Mended, &command, readers, writer)
}
