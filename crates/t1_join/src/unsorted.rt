//! The entries of a listing in the order of its lines; they are sorted once, after all lines have been read.
ghost use Rattle.std.specs.Prelude.{◌≡◌, [], OnOk, MatchOption};
ghost use Rattle.t1_join.specs.{LineMeaning.{line_entry}, Unsorted.{with_line, AllKeysDiffer, AreTablesOf}};

use crate::hexadecimal::Hex;
use crate::lines::Line;
use crate::tables::Table;
use std::alloc::{AllocError, Global};
use std::marker::Model;

/// The entries of the lines that were read, with each key as often as it came.
#[derive(Drop)]
pub(crate) struct Unsorted<'a> {
    subrs: Vec<(u16, Hex<'a>)>,
    glyphs: Vec<(&'a [u8], Hex<'a>)>,
}

impl<'a> Model for Unsorted<'a> {
    ghost use Rattle.t1_join.specs.{Meaning.{of_number}, TableMeaning.{entry_meanings}, Unsorted.{Unsorted}};

    ghost Value = { Unsorted };

    ghost view = { λ u. record {
      subrs = entry_meanings of_number (λ h. h) u.subrs.items;
      glyphs = entry_meanings (λ n. n.now) (λ h. h) u.glyphs.items;
    } };
}

impl<'a> Unsorted<'a> {
    /// No line.
    pub(crate) fn new(alloc: Global) -> Unsorted<'a>
        ensures { result ≡ record { subrs = []; glyphs = [] } }
    {
        Unsorted {
            subrs: Vec::new(alloc),
            glyphs: Vec::new(alloc),
        }
    }

    /// Adds what a line says.
    pub(crate) fn add(&mut self, line: Line<'a>) -> Result<(), AllocError>
        ensures { OnOk result (self.new ≡ with_line (line_entry line.entry) self.old) }
    {
        match line {
            Line::Subr(index, bytes) => self.subrs.push((index, bytes))?,
            Line::Glyph(name, bytes) => self.glyphs.push((name, bytes))?,
        }
        Ok(())
    }

    /// The tables of the entries, or nothing if a key comes twice.
    pub(crate) fn tables(self) -> Option<(Table<u16, Hex<'a>>, Table<&'a [u8], Hex<'a>>)>
        ensures { MatchOption result (¬ AllKeysDiffer self.entry) (AreTablesOf self.entry) }
    {
        let subrs = Table::of_entries(self.subrs)?;
        let glyphs = Table::of_entries(self.glyphs)?;
        Some((subrs, glyphs))
    }
}
