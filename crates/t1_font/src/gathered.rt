//! What is gathered of a font while it is read.

ghost use Rattle.std.specs.Prelude.{◌≡◌, ◌≤◌, ◌+◌, ◌-◌, ◌++◌, length, take, drop, OnOk};
ghost use Rattle.t1_bytes.specs.{Cipher.{decrypted, plain_of}, Limits.{file_limit}};
ghost use Rattle.t1_font.specs.Gathering.{kept_by};
ghost use Rattle.t1_text.specs.{Encoding.{Copy}, Places.{ending, bytes_at_place}};
ghost use Rattle.t1_font.specs.Ranges.{bytes_at, IsInside};
ghost use Rattle.std.specs.FinMap as fin;

use crate::code_names::CodeNames;
use crate::ranges::Range;
use crate::repeats::{ByName, ByNumber, ROOM, settle};
use std::alloc::{AllocError, Global};
use std::marker::Model;
use t1_bytes::{CHARSTRING_KEY, decrypt};
use t1_text::places::Place;

/// What is read of a font's tables: names by code, and charstrings of Subrs by index and of glyphs by name. The last entry
/// of a repeated key stands.
///
/// Names of codes stay in place in the clear text. The private text stands in a buffer and is read from its front: names
/// and charstrings stay in place there, and each charstring is decrypted when its entry was read.
#[derive(Drop)]
pub(crate) struct Gathered<'a> {
    pub(crate) codes: CodeNames<'a>,
    pub(crate) buffer: Vec<u8>,
    /// The offset up to which the buffer was read.
    pub(crate) at: usize,
    pub(crate) subrs: Vec<(u16, Range)>,
    pub(crate) glyphs: Vec<(Range, Range)>,
    /// How many entries of each kind there may be until the next look for repeated keys.
    pub(crate) subr_room: usize,
    pub(crate) glyph_room: usize,
}

impl<'a> Model for Gathered<'a> {
    ghost use Rattle.t1_font.specs.Gathering.{Entries, entries_code, gathered_value, IsGathered};

    ghost Value = { Entries };

    ghost coded = { entries_code };

    ghost view = { gathered_value };

    ghost invariant = { IsGathered };
}

/// The part of a buffer of this many bytes that is at a place.
fn part_at(size: usize, place: Place) -> Range
    requires inside { place.len + place.behind ≤ size }
    requires short { size ≤ file_limit }
    ensures start { result.start ≡ size - (place.len + place.behind) }
    ensures end { result.end ≡ size - place.behind }
{
    let end = size - place.behind;
    Range::new(end - place.len, end)
}

/// A charstring's part of a buffer without its lead bytes.
fn behind_lead(part: Range, len_iv: u8) -> Range
    requires { part.start + len_iv ≤ part.end }
    ensures start { result.start ≡ part.start + len_iv }
    ensures end { result.end ≡ part.end }
{
    Range {
        start: part.start + len_iv as u32,
        end: part.end,
    }
}

/// Decrypts the charstring in a part of a buffer, in place.
fn decrypt_in(buffer: &mut Vec<u8>, part: Range)
    requires { IsInside (length buffer.old.items) part }
    ensures { buffer.new.items
        ≡ take part.start buffer.old.items
        ++ decrypted 4330 (bytes_at buffer.old.items part)
        ++ drop part.end buffer.old.items }
{
    let (front, _) = buffer.as_mut_slice().split_at_mut(part.end as usize);
    let (_, body) = front.split_at_mut(part.start as usize);
    decrypt(body, CHARSTRING_KEY);
}

impl<'a> Gathered<'a> {
    /// No entries, before the private text, which stands in a buffer from `at` on.
    pub(crate) fn new(alloc: Global, buffer: Vec<u8>, at: usize) -> Self
        requires inside { at ≤ length buffer.items }
        requires short { length buffer.items ≤ file_limit }
        ensures { result
            ≡ record {
              rest = drop at buffer.items;
              codes = fin.empty;
              subrs = fin.empty;
              glyphs = fin.empty;
            } }
    {
        Gathered {
            codes: CodeNames::none(),
            buffer,
            at,
            subrs: Vec::new(alloc),
            glyphs: Vec::new(alloc),
            subr_room: ROOM,
            glyph_room: ROOM,
        }
    }

    /// What is left of the private text.
    pub(crate) fn rest(&self) -> &[u8]
        ensures { result.now ≡ self.now.rest }
    {
        &self.buffer[self.at..]
    }

    /// Passes over what stands before the last `left` bytes.
    pub(crate) fn pass_to(&mut self, left: usize)
        requires { left ≤ length self.old.rest }
        ensures { self.new
            ≡ record {
              rest = ending left self.old.rest;
              codes = self.old.codes;
              subrs = self.old.subrs;
              glyphs = self.old.glyphs;
            } }
    {
        self.at = self.buffer.len() - left;
    }

    /// Puts a name at a code.
    pub(crate) fn keep_code(&mut self, code: u8, name: &'a [u8])
        ensures { self.new
            ≡ record {
              rest = self.old.rest;
              codes = fin.insert self.old.codes code name.now;
              subrs = self.old.subrs;
              glyphs = self.old.glyphs;
            } }
    {
        self.codes.put(code, name);
    }

    /// Puts the names of so many codes from one on at the codes from another one on.
    pub(crate) fn copy_codes(&mut self, from: u16, count: u16, to: u16)
        requires from { from + count ≤ 256 }
        requires to { to + count ≤ 256 }
        ensures { self.new
            ≡ record {
              rest = self.old.rest;
              codes = kept_by self.old.codes (Copy from count to);
              subrs = self.old.subrs;
              glyphs = self.old.glyphs;
            } }
    {
        self.codes.copy(from, count, to);
    }

    /// Decrypts a Subr's charstring, puts it at its index, and passes to the last `left` bytes.
    pub(crate) fn keep_subr(
        &mut self,
        index: u16,
        body: Place,
        left: usize,
        len_iv: u8,
    ) -> Result<(), AllocError>
        requires body { body.len + body.behind ≤ length self.old.rest }
        requires lead { len_iv ≤ body.len }
        requires left { left ≤ body.behind }
        ensures { OnOk result (self.new
            ≡ record {
              rest = ending left self.old.rest;
              codes = self.old.codes;
              subrs = fin.insert self.old.subrs index (plain_of len_iv (bytes_at_place self.old.rest body));
              glyphs = self.old.glyphs;
            }) }
    {
        self.subr_room = settle(&mut self.subrs, ByNumber, self.subr_room)?;
        let cipher = part_at(self.buffer.len(), body);
        let plain = behind_lead(cipher, len_iv);
        self.subrs.push((index, plain))?;
        decrypt_in(&mut self.buffer, cipher);
        self.at = self.buffer.len() - left;
        Ok(())
    }

    /// Decrypts a glyph's charstring, puts it at its name, and passes to the last `left` bytes.
    pub(crate) fn keep_glyph(
        &mut self,
        name: Place,
        body: Place,
        left: usize,
        len_iv: u8,
    ) -> Result<(), AllocError>
        requires name { name.len + name.behind ≤ length self.old.rest }
        requires body { body.len + body.behind ≤ name.behind }
        requires lead { len_iv ≤ body.len }
        requires left { left ≤ body.behind }
        ensures { OnOk result (self.new
            ≡ record {
              rest = ending left self.old.rest;
              codes = self.old.codes;
              subrs = self.old.subrs;
              glyphs = fin.insert self.old.glyphs (bytes_at_place self.old.rest name)
                  (plain_of len_iv (bytes_at_place self.old.rest body));
            }) }
    {
        let names = ByName {
            buffer: self.buffer.as_slice(),
        };
        self.glyph_room = settle(&mut self.glyphs, names, self.glyph_room)?;
        let name = part_at(self.buffer.len(), name);
        let cipher = part_at(self.buffer.len(), body);
        let plain = behind_lead(cipher, len_iv);
        self.glyphs.push((name, plain))?;
        decrypt_in(&mut self.buffer, cipher);
        self.at = self.buffer.len() - left;
        Ok(())
    }
}
