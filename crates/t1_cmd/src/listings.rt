//! The join of two listings.
ghost use Rattle.std.specs.Prelude.{◌≡◌, ◌+◌, ◌≤◌, [], ◌∷◌, Ok, IfOk, IfErr, IfSome};
ghost use Rattle.t1_cmd.specs.{Count.{calls_counted, inner_of}, Inputs.{input_of}, Answers.{MayRefuse}, Files.{IsRefusalAt, OfFiles, RefusesFiles}};
ghost use Rattle.t1_cmd.specs.{Runs.{InputStops, RunEnds, Succeeds}, Listings.{list_reason, join_reason, listing_input, JoinsTo, JoinsRead, StopsRead}};
ghost use Rattle.t1_bytes.specs.Limits.{file_limit};

use crate::counting::Counted;
use crate::faults::{FilesRefusal, Reason, RunFault};
use crate::reading::read_all;
use crate::several::refused_at;
use crate::writing::write_text;
use std::alloc::Global;
use std::io::{Read, Write};
use t1_bytes::FILE_LIMIT;
use t1_join::{JoinFault, ListFault, Listing, listing, write_joined};

fn list_reason(fault: ListFault) -> Reason
    ensures { result ≡ list_reason fault }
{
    match fault {
        ListFault::Memory => Reason::Memory,
        other => Reason::List(other),
    }
}

fn join_reason(fault: JoinFault) -> Reason
    ensures { result ≡ join_reason fault }
{
    match fault {
        JoinFault::Memory => Reason::Memory,
        other => Reason::Join(other),
    }
}

// The listing that a text spells.
fn listing_in(alloc: Global, text: &[u8]) -> Result<Listing<'_>, Reason>
    ensures listing { IfOk result (λ l. listing_input text.now ≡ Ok l) }
    ensures refused { IfErr result (MayRefuse (λ a. a ≡ listing_input text.now)) }
{
    if text.len() > FILE_LIMIT {
        return Err(Reason::TooLong);
    }
    listing::read(alloc, text).map_err(list_reason)
}

// The text of the join of two listings.
fn joined_text(alloc: Global, left: &Listing<'_>, right: &Listing<'_>) -> Result<Vec<u8>, Reason>
    ensures text { IfOk result (λ text. JoinsTo (left.now ∷ right.now ∷ []) (Ok text.items)) }
    ensures refused { IfErr result (MayRefuse (JoinsTo (left.now ∷ right.now ∷ []))) }
{
    match write_joined(alloc, left, right) {
        Ok(text) => Ok(text),
        Err(fault) => Err(join_reason(fault)),
    }
}

// The listing that the text at a place spells.
fn listing_at(alloc: Global, place: usize, text: &[u8]) -> Result<Listing<'_>, FilesRefusal>
    ensures listing { IfOk result (λ l. listing_input text.now ≡ Ok l) }
    ensures refused { IfErr result (λ e. (reason : Reason)
        × MayRefuse (λ a. a ≡ listing_input text.now) reason × IsRefusalAt place reason e) }
{
    match listing_in(alloc, text) {
        Ok(listing) => Ok(listing),
        Err(reason) => Err(refused_at(place, reason)),
    }
}

/// The text of the join of the listings that two texts spell, as [`run_join`] writes it.
///
/// # Errors
///
/// [`Reason::TooLong`] or [`Reason::List`] with the place of the first text that spells no listing; else [`Reason::Join`] if the
/// listings don't join. [`Reason::Memory`] if a growth was refused.
pub fn join_listings(alloc: Global, first: &[u8], second: &[u8]) -> Result<Vec<u8>, FilesRefusal>
    ensures text { IfOk result
        (λ text. OfFiles listing_input JoinsTo (first.now ∷ second.now ∷ []) (Ok text.items)) }
    ensures refused { IfErr result
        (RefusesFiles listing_input JoinsTo (first.now ∷ second.now ∷ [])) }
{
    let left = listing_at(alloc, 0, first)?;
    let right = listing_at(alloc, 1, second)?;
    match joined_text(alloc, &left, &right) {
        Ok(text) => Ok(text),
        Err(reason) => Err(FilesRefusal {
            place: None,
            reason,
        }),
    }
}

// The whole text of a reader.
fn read_text<R: Read>(alloc: Global, reader: &mut Counted<R>) -> Result<Vec<u8>, RunFault>
    ensures text { IfOk result
        (λ text. IfSome (R.remaining (inner_of reader.old)) (λ bytes. text.items ≡ bytes)) }
    ensures refused { IfErr result
        (InputStops listing_input (input_of R.remaining reader.old reader.new)) }
    ensures turns { calls_counted reader.new ≤ calls_counted reader.old + (file_limit + 1) }
{
    read_all(alloc, reader, FILE_LIMIT)
}

// The text of the join of a listing and of that of a reader.
fn joined_with<S: Read>(
    alloc: Global,
    left: &Listing<'_>,
    second: &mut Counted<S>,
) -> Result<Vec<u8>, RunFault>
    ensures text { IfOk result
        (λ text. JoinsRead (input_of S.remaining second.old second.new) left.now text.items) }
    ensures refused { IfErr result
        (StopsRead (input_of S.remaining second.old second.new) left.now) }
    ensures turns { calls_counted second.new ≤ calls_counted second.old + (file_limit + 1) }
{
    let text = read_text(alloc, second)?;
    let right = match listing_in(alloc, text.as_slice()) {
        Ok(right) => right,
        Err(reason) => return Err(RunFault::Refused(reason)),
    };
    match joined_text(alloc, left, &right) {
        Ok(text) => Ok(text),
        Err(reason) => Err(RunFault::Refused(reason)),
    }
}

/// Writes the text of the join of two listings.
///
/// The first input is read and understood before the second is read. If several things are wrong, the first in that order
/// is answered, and a conflict of the two listings comes last.
pub fn run_join<R: Read, S: Read, W: Write>(
    alloc: Global,
    first: &mut Counted<R>,
    second: &mut Counted<S>,
    writer: &mut Counted<W>,
) -> Result<(), RunFault>
    ensures ends { RunEnds listing_input JoinsTo W.contents
        (input_of R.remaining first.old first.new ∷ input_of S.remaining second.old second.new ∷ [])
        writer.old writer.new result }
    ensures succeeds { Succeeds listing_input JoinsTo
        (input_of R.remaining first.old first.new ∷ input_of S.remaining second.old second.new ∷ [])
        writer.old writer.new result }
    ensures first_turns { calls_counted first.new ≤ calls_counted first.old + (file_limit + 1) }
    ensures second_turns { calls_counted second.new ≤ calls_counted second.old + (file_limit + 1) }
{
    let text = read_text(alloc, first)?;
    let left = match listing_in(alloc, text.as_slice()) {
        Ok(left) => left,
        Err(reason) => return Err(RunFault::Refused(reason)),
    };
    let both = match joined_with(alloc, &left, second) {
        Ok(both) => both,
        Err(fault) => return Err(fault),
    };
    write_text(writer, both.as_slice())
}
