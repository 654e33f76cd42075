//! What files join to.

ghost use Rattle.std.specs.Prelude.{◌≡◌, IfOk, IfErr, Ok};
ghost use Rattle.t1_font.specs.{Answers.{Answers}, ReadFont.{read_font_widely}};
ghost use Rattle.t1_subset.specs.Rejoins.{NotRejoined};
ghost use Rattle.t1_classes.specs.Joining.{without_test, fonts_of_files, font_text, wants_memory, is_memory, joins, RejoinToText, AreJoined, IsJoined};
ghost use Rattle.t1_classes.specs.Views.{lent};

use crate::refusals::Refusal;
use std::alloc::{AllocError, Global};
use t1_font::{Font, Form, ReadFault, Source, normalize_named, read_wide, write};
use t1_join::push_item;
use t1_subset::{Conflict, RejoinFault, rejoin};

/// The font of a file, without its test whether it was loaded before.
fn source_of(alloc: Global, file: &[u8]) -> Result<Source, ReadFault>
    ensures { Answers (λ f. f) result (without_test (read_font_widely file.now)) }
{
    match read_wide(alloc, file) {
        Ok(source) => Ok(source.untested(alloc)?),
        Err(fault) => Err(fault),
    }
}

/// The fonts of files.
fn sources_of(alloc: Global, files: &[&[u8]]) -> Result<Vec<Source>, ReadFault>
    ensures { Answers (λ v. v.items) result (fonts_of_files (lent files.now)) }
{
    let mut sources = Vec::with_capacity(alloc, files.len())?;
    'files: for file in files {
        let source = match source_of(alloc, file) {
            Ok(source) => source,
            Err(fault) => return Err(fault),
        };
        push_item(&mut sources, source)?;
    }
    Ok(sources)
}

/// The canonical text of a font.
fn font_text(alloc: Global, font: &Font<'_>) -> Result<Vec<u8>, AllocError>
    ensures { IfOk result (λ v. v.items ≡ font_text font.now) }
{
    let mut text = write(alloc, font, Form::Pfa)?;
    text.pop();
    Ok(text)
}

/// The canonical text of the font that sources rejoin to.
fn rejoined_text(alloc: Global, sources: &[Source]) -> Result<Vec<u8>, RejoinFault>
    ensures text { IfOk result (λ v. RejoinToText sources.now v.items) }
    ensures refused { IfErr result (NotRejoined sources.now) }
{
    let mut indices = Vec::new(alloc);
    let font = match rejoin(alloc, sources, &mut indices) {
        Ok(font) => font,
        Err(fault) => return Err(fault),
    };
    let text = font_text(alloc, &font);
    drop(font);
    Ok(text?)
}

/// Whether a growth was refused.
fn wants_memory(fault: &RejoinFault) -> bool
    ensures { result ≡ wants_memory fault.now }
{
    matches!(fault, RejoinFault::Merge(Conflict::Memory))
}

/// Whether a fault of reading is want of memory.
fn is_memory(fault: &ReadFault) -> bool
    ensures { result ≡ is_memory fault.now }
{
    matches!(fault, ReadFault::Memory)
}

/// The text that fonts come to under a name.
#[tactic(auto, using(crate::proofs::Rejoined::text_joins, crate::proofs::Rejoined::none_joins))]
fn join_sources(
    alloc: Global,
    name: &[u8],
    sources: Vec<Source>,
) -> Result<Result<Vec<u8>, Refusal>, AllocError>
    ensures { IfOk result (AreJoined name.now (Ok sources.items)) }
{
    let normalized = normalize_named(alloc, sources, name)?;
    match rejoined_text(alloc, normalized.as_slice()) {
        Ok(text) => Ok(Ok(text)),
        Err(fault) => {
            if wants_memory(&fault) {
                return Err(AllocError);
            }
            Ok(Err(Refusal::Unlike(fault)))
        }
    }
}

/// The text that files join to under a name, or why they don't join.
///
/// The fonts that they spell ([`read_wide`](t1_font::read_wide)) lose the test whether they were loaded before
/// ([`Source::untested`]), are normalized and get the name ([`normalize_named`]), and rejoin ([`rejoin`]). The text is the canonical
/// one of that font: its PFA without the line end behind `cleartomark`.
///
/// # Errors
///
/// Only want of memory.
pub fn join_files(
    alloc: Global,
    name: &[u8],
    files: &[&[u8]],
) -> Result<Result<Vec<u8>, Refusal>, AllocError>
    ensures { IfOk result (IsJoined name.now (lent files.now)) }
{
    match sources_of(alloc, files) {
        Ok(sources) => join_sources(alloc, name, sources),
        Err(fault) => {
            if is_memory(&fault) {
                return Err(AllocError);
            }
            Ok(Err(Refusal::Unread(fault)))
        }
    }
}

/// Whether files join under a name.
#[tactic(auto, unfolding(crate::specs::Joining::joins, crate::specs::Joining::joined_text))]
pub(crate) fn joins(alloc: Global, name: &[u8], files: &[&[u8]]) -> Result<bool, AllocError>
    ensures { IfOk result (λ b. b ≡ joins name.now (lent files.now)) }
{
    Ok(join_files(alloc, name, files)?.is_ok())
}
