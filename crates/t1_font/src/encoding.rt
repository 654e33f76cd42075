//! The Encoding of the clear text.

ghost use Rattle.std.specs.Prelude.{◌≡◌, true, OnOk, Some, length};
ghost use Rattle.t1_grammar.specs.Tables.{table_at, counted_at};
ghost use Rattle.t1_text.specs.Words.{next_name};
ghost use Rattle.t1_text.specs.{Encoding.{code_entry, within_codes, puts_of, encoding_end}, Views.{code_entry_view}};
ghost use Rattle.t1_text.specs.{Encoding.{array_end, code_count, from_code, OpensPuts, OpensNames}, Entries.{map_of}, Views.{opening_view}};
ghost use Rattle.t1_font.specs.{Faults.{table_fault}, declared.fault.ReadFault.TheVariants.{BadEncoding}, Gathering.{CodesAlone, kept_by}};
ghost use Rattle.t1_font.specs.{Held.{TableHeld}, ReadFont.{encoding_value}, Pieces.{encoding_from, clear_pieces}};
ghost use Rattle.t1_font.specs.Answers.{Shown, encoding_view, ShowsClear};
ghost use Rattle.std.specs.FinMap as fin;

use crate::code_names::CODES;
use crate::fault::{ReadFault, TableError};
use crate::gathered::Gathered;
use t1_text::code_entry::{CodeEntry, code_entry_at};
use t1_text::dialect::{Dialect, Spacing};
use t1_text::encoding_forms::{
    Opening, array_end_at, array_name_at, encoding_end_at, encoding_start_at,
};
use t1_text::markers::{EncodingMarker, first};

/// Keeps what an entry of the table puts.
fn keep_entry<'a>(entry: CodeEntry<'a>, gathered: &mut Gathered<'a>)
    requires { within_codes (code_entry_view entry) ≡ true }
    ensures kept { gathered.new.codes ≡ kept_by gathered.old.codes (code_entry_view entry.entry) }
    ensures others { CodesAlone gathered.old gathered.new }
{
    match entry {
        CodeEntry::Put(code, name) => gathered.keep_code(code, name),
        CodeEntry::Copy(from, count, to) => gathered.copy_codes(from, count, to),
    }
}

/// The entries of the table, kept, and what stands after their close.
fn puts_at<'a>(
    bytes: &'a [u8],
    dialect: Dialect,
    gathered: &mut Gathered<'a>,
) -> Result<&'a [u8], TableError>
    requires { gathered.old.codes ≡ fin.empty }
    ensures shown { TableHeld dialect.encoding (λ x es close rest. (gathered.new.codes ≡ map_of (puts_of es))
        × (x.now ≡ rest)) result (table_at (code_entry dialect) (encoding_end dialect.encoding) bytes.now) }
    ensures others { OnOk result (CodesAlone gathered.old gathered.new) }
{
    let mut rest = bytes;
    'entries: loop {
        if let Some(after) = encoding_end_at(rest, dialect.encoding) {
            return Ok(after);
        }
        let Some((entry, after)) = code_entry_at(rest, dialect) else {
            let (_, left) = dialect.encoding.white_at(rest);
            return Err(TableError::Left(left.len()));
        };
        keep_entry(entry, gathered);
        rest = after;
    }
}

/// The names of an array, kept at the codes of their places, and what stands after their close.
fn names_at<'a>(
    bytes: &'a [u8],
    spacing: Spacing,
    gathered: &mut Gathered<'a>,
) -> Result<&'a [u8], TableError>
    requires { gathered.old.codes ≡ fin.empty }
    ensures shown { TableHeld spacing (λ x names close rest. (gathered.new.codes
        ≡ map_of (from_code 0 names))
        × (x.now
        ≡ rest)) result
        (counted_at (next_name spacing) (array_end spacing) code_count bytes.now) }
    ensures others { OnOk result (CodesAlone gathered.old gathered.new) }
{
    let mut rest = bytes;
    'names: for code in 0..CODES {
        let Some((name, after)) = array_name_at(rest, spacing) else {
            let (_, left) = spacing.white_at(rest);
            return Err(TableError::Left(left.len()));
        };
        gathered.keep_code(code as u8, name);
        rest = after;
    }
    let Some(after) = array_end_at(rest, spacing) else {
        let (_, left) = spacing.white_at(rest);
        return Err(TableError::Left(left.len()));
    };
    Ok(after)
}

/// The Encoding: its word, or the names of codes, which are gathered.
#[derive(Clone, Copy)]
pub enum EncodingParts<'a> {
    OneWord(&'a [u8]),
    Puts,
}

/// The pieces of the clear text.
#[derive(Clone, Copy)]
pub struct ClearParts<'a> {
    pub head: &'a [u8],
    pub encoding: EncodingParts<'a>,
    pub clear_tail: &'a [u8],
}

/// Where the entries of the Encoding break off, in the last part of the clear text.
fn bad_encoding(clear: &[u8], error: TableError) -> ReadFault
    ensures { result ≡ table_fault BadEncoding (length clear.now) error }
{
    match error {
        TableError::Memory => ReadFault::Memory,
        TableError::Left(left) => ReadFault::BadEncoding {
            at: clear.len().saturating_sub(left),
        },
    }
}

/// The names of the table's codes, in the last part of the clear text.
#[tactic(auto, unfolding(crate::specs::Pieces::encoding_from))]
fn table_from<'a>(
    clear: &[u8],
    rest: &'a [u8],
    dialect: Dialect,
    gathered: &mut Gathered<'a>,
) -> Result<(EncodingParts<'a>, &'a [u8]), ReadFault>
    requires { gathered.old.codes ≡ fin.empty }
    ensures shown { Shown (λ x e. (encoding_view x.0 gathered.new.codes ≡ encoding_value e.0)
        × (x.1.now ≡ e.1)) result (encoding_from dialect clear.now OpensPuts rest.now).read }
    ensures others { OnOk result (CodesAlone gathered.old gathered.new) }
{
    match puts_at(rest, dialect, gathered) {
        Ok(after) => Ok((EncodingParts::Puts, after)),
        Err(error) => Err(bad_encoding(clear, error)),
    }
}

/// The names of the array, in the last part of the clear text.
#[tactic(auto, unfolding(crate::specs::Pieces::encoding_from))]
fn array_from<'a>(
    clear: &[u8],
    rest: &'a [u8],
    dialect: Dialect,
    gathered: &mut Gathered<'a>,
) -> Result<(EncodingParts<'a>, &'a [u8]), ReadFault>
    requires { gathered.old.codes ≡ fin.empty }
    ensures shown { Shown (λ x e. (encoding_view x.0 gathered.new.codes ≡ encoding_value e.0)
        × (x.1.now ≡ e.1)) result (encoding_from dialect clear.now OpensNames rest.now).read }
    ensures others { OnOk result (CodesAlone gathered.old gathered.new) }
{
    match names_at(rest, dialect.encoding, gathered) {
        Ok(after) => Ok((EncodingParts::Puts, after)),
        Err(error) => Err(bad_encoding(clear, error)),
    }
}

/// The Encoding, from its word or from the first of its puts or names on.
#[tactic(auto, unfolding(crate::specs::Pieces::encoding_from))]
fn encoding_from<'a>(
    clear: &[u8],
    opening: Opening<'a>,
    rest: &'a [u8],
    dialect: Dialect,
    gathered: &mut Gathered<'a>,
) -> Result<(EncodingParts<'a>, &'a [u8]), ReadFault>
    requires { gathered.old.codes ≡ fin.empty }
    ensures shown { Shown (λ x e. (encoding_view x.0 gathered.new.codes ≡ encoding_value e.0)
        × (x.1.now
        ≡ e.1)) result (encoding_from dialect clear.now (opening_view opening.entry) rest.now).read }
    ensures others { OnOk result (CodesAlone gathered.old gathered.new) }
{
    match opening {
        Opening::Word(word) => Ok((EncodingParts::OneWord(word), rest)),
        Opening::Puts => table_from(clear, rest, dialect, gathered),
        Opening::Names => array_from(clear, rest, dialect, gathered),
    }
}

/// The head, the Encoding, and the rest of a clear text.
#[tactic(auto, unfolding(crate::specs::Pieces::clear_pieces))]
pub(crate) fn clear_parts<'a>(
    clear: &'a [u8],
    dialect: Dialect,
    gathered: &mut Gathered<'a>,
) -> Result<ClearParts<'a>, ReadFault>
    requires { gathered.old.codes ≡ fin.empty }
    ensures shown { Shown (λ x c. ShowsClear x gathered.new.codes c) result
        (clear_pieces dialect clear.now).read }
    ensures others { OnOk result (CodesAlone gathered.old gathered.new) }
{
    let Some((head, _, after)) = first::<EncodingMarker>(clear) else {
        return Err(ReadFault::NoEncoding);
    };
    let Some((opening, rest)) = encoding_start_at(after, dialect) else {
        return Err(ReadFault::BadEncoding { at: head.len() });
    };
    let (encoding, clear_tail) = encoding_from(clear, opening, rest, dialect, gathered)?;
    Ok(ClearParts {
        head,
        encoding,
        clear_tail,
    })
}
