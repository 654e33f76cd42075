//! The engine that tells all conflicts of two fonts.
ghost use Rattle.std.specs.{Prelude.{◌≡◌, ◌↔◌, ◌+◌, ◌≤◌, ◌++◌, ◌∷◌, [], Ok, OnOk, IfOk, IfErr, IfSome, IsTrue}, List.{flat_map}};
ghost use Rattle.t1_subset.specs.Budgets.{fonts_tokens, IsEnough};
ghost use Rattle.t1_bytes.specs.Limits.{file_limit};
ghost use Rattle.t1_algebra.specs.{Profile.{profile}, States.{Join}};
ghost use Rattle.t1_cmd.specs.{Count.{calls_counted}, Inputs.{input_of, values_of}, Answers.{MayRefuse}, Files.{IsRefusalAt, OfFiles, RefusesFiles}};
ghost use Rattle.t1_cmd.specs.{Fonts.{font_input}, Runs.{ended, RunEnds, Succeeds}, Budgets.{DiffersWithin}};
ghost use Rattle.t1_cmd.specs.Diffs.{conflict_line, ListsConflicts, DiffersBy, SaysJoin};

use crate::counting::Counted;
use crate::faults::{FilesRefusal, Reason, RunFault};
use crate::font_commands::{Taking, read_font};
use crate::several::{refused_at, source_in};
use crate::writing::write_text;
use std::alloc::{AllocError, Global};
use std::io::{Read, Write};
use t1_font::Source;
use t1_subset::{Budget, Conflict, Stop, conflicts_within};

// One more line.
fn push_conflict(alloc: Global, out: &mut Vec<u8>, conflict: &Conflict) -> Result<(), AllocError>
    ensures { OnOk result (out.new.items ≡ out.old.items ++ conflict_line conflict.now) }
{
    let text = conflict.to_string(alloc)?;
    out.extend_from_slice(text.as_bytes())?;
    out.push(b'\n')?;
    Ok(())
}

// The lines of conflicts.
fn conflict_lines(alloc: Global, conflicts: &[Conflict]) -> Result<Vec<u8>, AllocError>
    ensures { IfOk result (λ text. text.items ≡ flat_map conflict_line conflicts.now) }
{
    let mut text = Vec::new(alloc);
    'conflicts: for conflict in conflicts {
        push_conflict(alloc, &mut text, conflict)?;
    }
    Ok(text)
}

// The lines of all conflicts of the fonts of two sources, within a budget.
fn diff_text(
    alloc: Global,
    left: &Source,
    right: &Source,
    budget: Budget,
) -> Result<Vec<u8>, Reason>
    ensures text { IfOk result (λ text. ListsConflicts left.now right.now text.items) }
    ensures joins { IfOk result (λ text. (text.items ≡ []) ↔ Join profile left.now right.now) }
    ensures enough { OnOk result (IsEnough budget.left (fonts_tokens (left.now ∷ right.now ∷ []))) }
    ensures refused { IfErr result (MayRefuse (DiffersWithin budget.left (left.now ∷ right.now ∷ []))) }
{
    let own = left.font(alloc)?;
    let other = right.font(alloc)?;
    let all = match conflicts_within(alloc, &own, &other, budget) {
        Ok(all) => all,
        Err(Stop::TooManyTokens) => return Err(Reason::TooManyTokens),
        Err(Stop::Memory) => return Err(Reason::Memory),
    };
    match conflict_lines(alloc, all.as_slice()) {
        Ok(text) => Ok(text),
        Err(_) => Err(Reason::Memory),
    }
}

// Whether a text is empty.
fn is_nothing(text: &[u8]) -> bool
    ensures { IsTrue result ↔ (text.now ≡ []) }
{
    match text {
        [] => true,
        _ => false,
    }
}

// The source of the font that the file at a place spells.
fn source_at(alloc: Global, place: usize, file: &[u8]) -> Result<Source, FilesRefusal>
    ensures source { IfOk result (λ source. font_input file.now ≡ Ok source) }
    ensures refused { IfErr result (λ e. (reason : Reason)
        × MayRefuse (λ a. a ≡ font_input file.now) reason × IsRefusalAt place reason e) }
{
    match source_in(alloc, Taking::Spelled, file) {
        Ok(source) => Ok(source),
        Err(reason) => Err(refused_at(place, reason)),
    }
}

/// A line for each conflict of the fonts that two files spell, as [`run_diff`] writes them. It is empty exactly if the fonts
/// join.
///
/// # Errors
///
/// [`Reason::TooLong`] or [`Reason::Font`] with the place of the first file that spells no font; [`Reason::Memory`] if a growth
/// was refused.
pub fn diff_files(alloc: Global, first: &[u8], second: &[u8]) -> Result<Vec<u8>, FilesRefusal>
    ensures text { IfOk result
        (λ text. OfFiles font_input DiffersBy (first.now ∷ second.now ∷ []) (Ok text.items)) }
    ensures refused { IfErr result
        (RefusesFiles font_input DiffersBy (first.now ∷ second.now ∷ [])) }
{
    diff_files_within(alloc, first, second, Budget { left: None })
}

/// The same as [`diff_files`] within a budget, out of which the runs of glyphs take their tokens.
///
/// # Errors
///
/// As [`diff_files`]; but behind what the files are refused for comes [`Reason::TooManyTokens`], if the runs of the glyphs of both
/// fonts execute more tokens than the budget has.
pub fn diff_files_within(
    alloc: Global,
    first: &[u8],
    second: &[u8],
    budget: Budget,
) -> Result<Vec<u8>, FilesRefusal>
    ensures text { IfOk result
        (λ text. OfFiles font_input (DiffersWithin budget.left) (first.now ∷ second.now ∷ []) (Ok text.items)) }
    ensures refused { IfErr result
        (RefusesFiles font_input (DiffersWithin budget.left) (first.now ∷ second.now ∷ [])) }
{
    let left = source_at(alloc, 0, first)?;
    let right = match source_at(alloc, 1, second) {
        Ok(right) => right,
        Err(refusal) => {
            drop(left);
            return Err(refusal);
        }
    };
    match diff_text(alloc, &left, &right, budget) {
        Ok(text) => Ok(text),
        Err(reason) => Err(FilesRefusal {
            place: None,
            reason,
        }),
    }
}

/// Writes a line for each conflict of two fonts, the lowest first: what [`run_merge`](crate::run_merge) would tell of it. It
/// answers whether the fonts join; then it writes nothing.
///
/// The first input is read and understood before the second is read. If both are refused, the first refusal is answered.
pub fn run_diff<R: Read, S: Read, W: Write>(
    alloc: Global,
    first: &mut Counted<R>,
    second: &mut Counted<S>,
    writer: &mut Counted<W>,
) -> Result<bool, RunFault>
    ensures ends { RunEnds font_input DiffersBy W.contents
        (input_of R.remaining first.old first.new ∷ input_of S.remaining second.old second.new ∷ [])
        writer.old writer.new (ended result) }
    ensures succeeds { Succeeds font_input DiffersBy
        (input_of R.remaining first.old first.new ∷ input_of S.remaining second.old second.new ∷ [])
        writer.old writer.new (ended result) }
    ensures joins { IfOk result (λ joins. IfSome (values_of font_input
        (input_of R.remaining first.old first.new ∷ input_of S.remaining second.old second.new ∷ []))
        (SaysJoin joins)) }
    ensures first_turns { calls_counted first.new ≤ calls_counted first.old + (file_limit + 1) }
    ensures second_turns { calls_counted second.new ≤ calls_counted second.old + (file_limit + 1) }
{
    run_diff_within(alloc, first, second, Budget { left: None }, writer)
}

/// Writes and answers what [`run_diff`] does, within a budget, out of which the runs of glyphs take their tokens.
///
/// Behind what an input is refused for it is refused with [`Reason::TooManyTokens`], if the runs of the glyphs of both fonts execute
/// more tokens than the budget has.
pub fn run_diff_within<R: Read, S: Read, W: Write>(
    alloc: Global,
    first: &mut Counted<R>,
    second: &mut Counted<S>,
    budget: Budget,
    writer: &mut Counted<W>,
) -> Result<bool, RunFault>
    ensures ends { RunEnds font_input (DiffersWithin budget.left) W.contents
        (input_of R.remaining first.old first.new ∷ input_of S.remaining second.old second.new ∷ [])
        writer.old writer.new (ended result) }
    ensures joins { IfOk result (λ joins. IfSome (values_of font_input
        (input_of R.remaining first.old first.new ∷ input_of S.remaining second.old second.new ∷ []))
        (SaysJoin joins)) }
    ensures first_turns { calls_counted first.new ≤ calls_counted first.old + (file_limit + 1) }
    ensures second_turns { calls_counted second.new ≤ calls_counted second.old + (file_limit + 1) }
{
    let left = match read_font(alloc, Taking::Spelled, first) {
        Ok(left) => left,
        Err(fault) => return Err(fault),
    };
    let right = match read_font(alloc, Taking::Spelled, second) {
        Ok(right) => right,
        Err(fault) => return Err(fault),
    };
    let text = match diff_text(alloc, &left, &right, budget) {
        Ok(text) => text,
        Err(reason) => return Err(RunFault::Refused(reason)),
    };
    match write_text(writer, text.as_slice()) {
        Ok(()) => Ok(is_nothing(text.as_slice())),
        Err(fault) => Err(fault),
    }
}
