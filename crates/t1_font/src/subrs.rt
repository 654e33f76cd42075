//! The table of subroutines.

ghost use Rattle.std.specs.Prelude.{◌≡◌, ◌<◌, ◌≤◌, ◌+◌, OnOk, length};
ghost use Rattle.t1_bytes.specs.Cipher.{plain_of};
ghost use Rattle.t1_font.specs.{Answers.{ShowsTable}, Gathering.{SubrsAlone}, Held.{HoldsSubrs, TableHeld}};
ghost use Rattle.t1_text.specs.{Subrs.{subrs_at}, Places.{ending, bytes_at_place}};
ghost use Rattle.t1_font.specs.FontValue.{count_limit};
ghost use Rattle.std.specs.FinMap as fin;

use crate::fault::TableError;
use crate::gathered::Gathered;
use std::alloc::{AllocError, Global};
use t1_text::dialect::Spacing;
use t1_text::places::Place;
use t1_text::table_entries::{subr_at, subrs_end_at};
use t1_text::words::{Words, first_words, phrase_bytes};

/// What is read of a table of Subrs beside its Subrs: the declared count, the words of the first entry, and the phrase
/// that closes it.
#[derive(Drop)]
pub struct SubrsParts {
    pub declared: u32,
    pub words: Option<Words>,
    pub closing: Vec<u8>,
}

/// Keeps the plain charstring of one more entry, behind which this many bytes are left. An index over 65,535 is not kept:
/// the declared count of its font is over the limit.
fn keep_subr(
    gathered: &mut Gathered<'_>,
    index: u32,
    body: Place,
    left: usize,
    len_iv: u8,
) -> Result<(), AllocError>
    requires body { body.len + body.behind ≤ length gathered.old.rest }
    requires lead { len_iv ≤ body.len }
    requires left { left ≤ body.behind }
    ensures kept { OnOk result (index ≤ count_limit
        → gathered.new.subrs
        ≡ fin.insert gathered.old.subrs index
        (plain_of len_iv (bytes_at_place gathered.old.rest body))) }
    ensures rest { OnOk result (gathered.new.rest ≡ ending left gathered.old.rest) }
    ensures others { OnOk result (SubrsAlone gathered.old gathered.new) }
{
    let Ok(index) = u16::try_from(index) else {
        gathered.pass_to(left);
        return Ok(());
    };
    gathered.keep_subr(index, body, left, len_iv)
}

/// The entries, through the phrase that closes the table.
pub(crate) fn subrs_at(
    alloc: Global,
    spacing: Spacing,
    declared: u32,
    len_iv: u8,
    gathered: &mut Gathered<'_>,
) -> Result<SubrsParts, TableError>
    requires { gathered.old.subrs ≡ fin.empty }
    ensures shown { TableHeld spacing
        (λ x es close rest. ShowsTable x
        (record { declared = declared; entries = es; closing = close })
        × HoldsSubrs declared len_iv gathered.new.subrs es
        × (gathered.new.rest ≡ rest)) result (subrs_at spacing declared len_iv gathered.old.rest) }
    ensures others { OnOk result (SubrsAlone gathered.old gathered.new) }
{
    let mut words = None;
    'entries: loop {
        if let Some((index, body, after)) = subr_at(gathered.rest(), spacing, declared, len_iv) {
            words = Some(first_words(alloc, words, body.rd, body.phrase)?);
            let (body, left) = (body.place(), after.len());
            keep_subr(gathered, index, body, left, len_iv)?;
        } else if let Some((closing, after)) = subrs_end_at(gathered.rest(), spacing) {
            let closing = phrase_bytes(alloc, closing)?;
            let left = after.len();
            gathered.pass_to(left);
            return Ok(SubrsParts {
                declared,
                words,
                closing,
            });
        } else {
            let (_, left) = spacing.white_at(gathered.rest());
            return Err(TableError::Left(left.len()));
        }
    }
}
