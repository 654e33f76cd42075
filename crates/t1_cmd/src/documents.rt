//! Documents as they are read, and the lines that tell of their fonts.
ghost use Rattle.std.specs.Prelude.{Bool, ℕ, List, Some, ◌≡◌, ◌+◌, ◌≤◌, ◌++◌, [], map, length, Ok, Err, OnOk, IfOk, IfErr, IfSome, MatchResult, if◌then◌else◌};
ghost use Rattle.std.specs.{Option.{option_copied}, List.{flat_map}};
ghost use Rattle.t1_bytes.specs.Limits.{file_limit};
ghost use Rattle.t1_subset.specs.NameSets.{lent};
ghost use Rattle.t1_document.specs.{Groups.{outcome_in}, Joins.{kept_text, names_from}, Rewriting.{is_seen}, Texts.{has_text}, Views.{place_view}};
ghost use Rattle.t1_document.specs.{declared.joins.Outcome.TheVariants.{Stays}, declared.joins.Kept.TheVariants.{Barred}};
ghost use Rattle.t1_cmd.specs.{Count.{calls_counted, inner_of}, Inputs.{Say, input_of}, Files.{values_from, IsUnread}};
ghost use Rattle.t1_cmd.specs.{Runs.{InputStops, InputEnds}, Answers.{MayRefuse}, Mergers.{inputs_of, InTurns, InputsStop}};
ghost use Rattle.t1_cmd.specs.Documents.{taken_input, kept_line, kept_lines, told_of, told_lines, new_lines};

use crate::counting::Counted;
use crate::faults::{FilesRefusal, Reason, RunFault};
use crate::reading::read_all;
use crate::several::refused_at;
use crate::texts::push_shown;
use std::alloc::{AllocError, Global};
use std::io::Read;
use t1_bytes::FILE_LIMIT;
use t1_document::{Joins, Kept, Outcome, Place, Texts, names_of};
use t1_jobs::job_of;
use t1_join::push_item;

// ---- reading

// What is taken of a file that carries a document.
#[derive(Clone, Copy)]
pub(crate) enum Taken {
    // The document.
    Document,
    // All of the file.
    File,
}

// What is taken of a file that carries a document.
fn taken_from(taken: Taken, file: &[u8]) -> Result<&[u8], Reason>
    ensures { MatchResult result (λ d. taken_input taken file.now ≡ Ok d.now) (λ e. taken_input taken file.now ≡ Err e) }
{
    if file.len() > FILE_LIMIT {
        return Err(Reason::TooLong);
    }
    match job_of(file) {
        Ok(job) => Ok(match taken {
            Taken::Document => job.document,
            Taken::File => file,
        }),
        Err(why) => Err(Reason::Document(why)),
    }
}

// What is taken of a file: the file's own vector where that is all of it.
fn taken_of(alloc: Global, taken: Taken, file: Vec<u8>) -> Result<Vec<u8>, Reason>
    ensures bytes { IfOk result (λ d. taken_input taken file.items ≡ Ok d.items) }
    ensures refused { IfErr result (MayRefuse (λ a. a ≡ taken_input taken file.items)) }
{
    let bytes = match taken_from(taken, file.as_slice()) {
        Ok(bytes) => bytes,
        Err(reason) => return Err(reason),
    };
    if bytes == file.as_slice() {
        return Ok(file);
    }
    Ok(bytes.to_vec(alloc)?)
}

// All the bytes of a reader.
fn read_file<R: Read>(
    alloc: Global,
    taken: Taken,
    reader: &mut Counted<R>,
) -> Result<Vec<u8>, RunFault>
    ensures file { IfOk result
        (λ file. IfSome (R.remaining (inner_of reader.old)) (λ bytes. file.items ≡ bytes)) }
    ensures refused { IfErr result
        (InputStops (taken_input taken) (input_of R.remaining reader.old reader.new)) }
    ensures turns { calls_counted reader.new ≤ calls_counted reader.old + (file_limit + 1) }
{
    read_all(alloc, reader, FILE_LIMIT)
}

// What is taken of a reader's file.
fn read_text<R: Read>(
    alloc: Global,
    taken: Taken,
    reader: &mut Counted<R>,
) -> Result<Vec<u8>, RunFault>
    ensures ends { InputEnds (taken_input taken) (λ v. v.items)
        (input_of R.remaining reader.old reader.new) result }
    ensures turns { calls_counted reader.new ≤ calls_counted reader.old + (file_limit + 1) }
{
    let file = read_file(alloc, taken, reader)?;
    match taken_of(alloc, taken, file) {
        Ok(bytes) => Ok(bytes),
        Err(reason) => Err(RunFault::Refused(reason)),
    }
}

// What is taken of the readers' files, one after the other.
pub(crate) fn read_texts<R: Read>(
    alloc: Global,
    taken: Taken,
    readers: &mut [Counted<R>],
) -> Result<Vec<Vec<u8>>, RunFault>
    ensures says { IfOk result
        (λ texts. Say (taken_input taken) (inputs_of R.remaining readers.old readers.new) (map (λ v. v.items) texts.items)) }
    ensures stops { IfErr result
        (λ e. InputsStop (taken_input taken) (inputs_of R.remaining readers.old readers.new) e) }
    ensures turns { InTurns readers.old readers.new }
{
    let mut texts = Vec::new(alloc);
    'readers: for i in 0..readers.len() {
        let text = match read_text(alloc, taken, &mut readers[i]) {
            Ok(text) => text,
            Err(fault) => return Err(fault),
        };
        push_item(&mut texts, text)?;
    }
    Ok(texts)
}

// What is taken of files.
pub(crate) fn all_taken<'a>(
    alloc: Global,
    taken: Taken,
    files: &[&'a [u8]],
) -> Result<Vec<&'a [u8]>, FilesRefusal>
    ensures bytes { IfOk result (λ ds. values_from (taken_input taken) 0 (lent files.now) ≡ Ok (lent ds.items)) }
    ensures refused { IfErr result (λ e. IsUnread (taken_input taken) (lent files.now) e.place e.reason) }
{
    let mut all = Vec::new(alloc);
    'files: for place in 0..files.len() {
        let bytes = match taken_from(taken, files[place]) {
            Ok(bytes) => bytes,
            Err(reason) => return Err(refused_at(place, reason)),
        };
        if all.push(bytes).is_err() {
            return Err(refused_at(place, Reason::Memory));
        }
    }
    Ok(all)
}

// Documents, lent.
pub(crate) fn lent(alloc: Global, texts: &[Vec<u8>]) -> Result<Vec<&[u8]>, AllocError>
    ensures { IfOk result (λ v. lent v.items ≡ map (λ t. t.items) texts.now) }
{
    let mut lent = Vec::with_capacity(alloc, texts.len())?;
    'texts: for text in texts {
        lent.push(text.as_slice())?;
    }
    Ok(lent)
}

// ---- what is told

// The line of a name, if it keeps its fonts.
fn push_kept(
    alloc: Global,
    out: &mut Vec<u8>,
    name: &[u8],
    outcome: Option<&Outcome<'_>>,
) -> Result<(), AllocError>
    ensures { OnOk result (out.new.items
        ≡ out.old.items ++ kept_line name.now (option_copied outcome.entry)) }
{
    if let Some(Outcome::Stays(why)) = outcome {
        out.extend_from_slice(b"kept ")?;
        push_shown(alloc, out, name)?;
        out.extend_from_slice(b": ")?;
        push_why(alloc, out, why)?;
        out.push(b'\n')?;
    }
    Ok(())
}

// Why a name keeps its fonts.
pub(crate) fn push_why(alloc: Global, out: &mut Vec<u8>, why: &Kept) -> Result<(), AllocError>
    ensures { OnOk result (out.new.items ≡ out.old.items ++ kept_text why.now) }
{
    let text = why.to_string(alloc)?;
    out.extend_from_slice(text.as_bytes())
}

// The lines of the names that keep their fonts.
pub(crate) fn kept_lines(
    alloc: Global,
    places: &[Place<'_>],
    joins: &Joins<'_>,
) -> Result<Vec<u8>, AllocError>
    ensures { IfOk result (λ v. v.items ≡ kept_lines (outcome_in joins.now) (map place_view places.now)) }
{
    let mut lines = Vec::new(alloc);
    let names = names_of(alloc, places)?;
    'names: for name in names.as_slice() {
        push_kept(alloc, &mut lines, *name, joins.get(*name))?;
    }
    Ok(lines)
}

// Names or lines, to be found again.
fn texts_of<'a>(alloc: Global, names: &[&'a [u8]]) -> Result<Texts<'a>, AllocError>
    ensures { IfOk result (λ t. (name : List ℕ) → has_text t name ≡ is_seen (map (λ k. k.now) names.now) name) }
{
    let mut texts = Texts::new(alloc);
    'names: for name in names {
        texts.put(*name, *name)?;
    }
    Ok(texts)
}

// The line of a name that keeps its fonts, or is left.
fn told_line(
    alloc: Global,
    name: &[u8],
    left: &Texts<'_>,
    joins: &Joins<'_>,
) -> Result<Vec<u8>, AllocError>
    ensures { IfOk result (λ v. v.items
        ≡ kept_line name.now (if has_text left.now name.now then Some (Stays Barred) else outcome_in joins.now name.now)) }
{
    let mut line = Vec::new(alloc);
    match left.get(name) {
        Some(_) => push_kept(alloc, &mut line, name, Some(&Outcome::Stays(Kept::Barred)))?,
        None => push_kept(alloc, &mut line, name, joins.get(name))?,
    }
    Ok(line)
}

// The lines of the names that keep their fonts, or are left, and an empty one for each other name.
fn lines_with(
    alloc: Global,
    places: &[Place<'_>],
    left: &Texts<'_>,
    joins: &Joins<'_>,
) -> Result<Vec<Vec<u8>>, AllocError>
    ensures { IfOk result (λ v. map (λ l. l.items) v.items ≡ map (λ name. kept_line name (if has_text left.now name
        then Some (Stays Barred) else outcome_in joins.now name)) (names_from [] (map place_view places.now))) }
{
    let mut lines = Vec::new(alloc);
    let names = names_of(alloc, places)?;
    'names: for name in names.as_slice() {
        let line = told_line(alloc, *name, left, joins)?;
        push_item(&mut lines, line)?;
    }
    Ok(lines)
}

// The lines of the keys of places, of which some are left.
pub(crate) fn told_lines(
    alloc: Global,
    left: &[&[u8]],
    places: &[Place<'_>],
    joins: &Joins<'_>,
) -> Result<Vec<Vec<u8>>, AllocError>
    ensures { IfOk result (λ v. map (λ l. l.items) v.items ≡ told_lines
        (told_of (map (λ k. k.now) left.now) (outcome_in joins.now)) (map place_view places.now)) }
{
    let left = texts_of(alloc, left)?;
    let lines = lines_with(alloc, places, &left, joins)?;
    Ok(lines)
}

// Adds a line, unless it is told already.
fn push_new(out: &mut Vec<u8>, told: &Texts<'_>, line: &[u8]) -> Result<(), AllocError>
    ensures { OnOk result (out.new.items ≡ out.old.items ++ (if has_text told.now line.now then [] else line.now)) }
{
    match told.get(line) {
        Some(_) => Ok(()),
        None => out.extend_from_slice(line),
    }
}

// Adds lines, without those that are told already.
fn push_others(out: &mut Vec<u8>, told: &Texts<'_>, lines: &[Vec<u8>]) -> Result<(), AllocError>
    ensures { OnOk result (out.new.items ≡ out.old.items
        ++ flat_map (λ line. if has_text told.now line then [] else line) (map (λ l. l.items) lines.now)) }
{
    'lines: for line in lines {
        push_new(out, told, line.as_slice())?;
    }
    Ok(())
}

// Adds lines, without those that are among others.
pub(crate) fn push_lines(
    alloc: Global,
    out: &mut Vec<u8>,
    told: &[Vec<u8>],
    lines: &[Vec<u8>],
) -> Result<(), AllocError>
    ensures { OnOk result (out.new.items
        ≡ out.old.items ++ new_lines (map (λ l. l.items) told.now) (map (λ l. l.items) lines.now)) }
{
    let told = lent(alloc, told)?;
    let told = texts_of(alloc, told.as_slice())?;
    push_others(out, &told, lines)
}
