//! Listings: texts of Subrs by index and glyphs by name, and their join.
ghost use Rattle.std.specs.Prelude.{◌≡◌, ◌⊎◌, ◌∷◌, ◌++◌, [], OnOk, MatchResult, MatchOption, MatchBool, IfOk, IsErr, IsTrue};
ghost use Rattle.hex.specs.Hex.{encode_lower};
ghost use Rattle.t1_join.specs.{ListingMeaning.{IsListing}, ListingJoin.{ListingsAgree, IsJoined, IsJoinFault, IsJoinedText, joined_listing}};
ghost use Rattle.t1_join.specs.{ListingText.{listing_of, text_of, subr_line, glyph_line}, Meaning.{of_number}};
ghost use Rattle.t1_join.specs.LineMeaning.{line_entry, has_entry, IsEntry, IsAdded};
ghost use Rattle.std.specs.FinMap as fin;

use crate::hexadecimal::Hex;
use crate::lines::{Line, read_line, split_at_byte};
use crate::partial::Join;
use crate::shown::Shown;
use crate::table_builder::TableBuilder;
use crate::tables::Table;
use crate::unsorted::Unsorted;
use std::alloc::{AllocError, Global};
use std::fmt;
use std::marker::Model;

/// The Subrs of a font by index and its glyphs by name, each with its bytes, all lent by the text that spells them.
///
/// A listing holds only what a text can spell: indices of at most 65,534, names by the rule of Type 1
/// programs with at most 127 bytes, and at most 65,535 bytes at each.
#[derive(Drop)]
pub struct Listing<'a> {
    subrs: Table<u16, Hex<'a>>,
    glyphs: Table<&'a [u8], Hex<'a>>,
}

impl<'a> Model for Listing<'a> {
    ghost use Rattle.t1_join.specs.ListingMeaning.{ListingMeaning, listing_code, IsListing};

    ghost Value = { ListingMeaning };

    ghost coded = { listing_code };

    ghost view = { λ l. record { subrs = l.subrs; glyphs = l.glyphs } };

    ghost invariant = { λ l. IsListing (record { subrs = l.subrs; glyphs = l.glyphs }) };
}

/// Why a text is not a listing. Lines are counted from 1, and the first faulty line is named.
#[derive(Debug, PartialEq, Eq, Drop)]
pub enum ListFault {
    /// The line doesn't parse, or has no line feed.
    BadLine { line: usize },
    /// An earlier line has the key of this line.
    Repeated { line: usize },
    /// A growth was refused.
    Memory,
}

impl fmt::Display for ListFault {
    ghost use Rattle.std.specs.Prelude.{Some};
    ghost use Rattle.t1_join.specs.FaultTexts.{list_text};

    ghost output = { λ fault. Some (list_text fault) };

    fn fmt<W: fmt::Write>(&self, f: &mut fmt::Formatter<W>) -> fmt::Result {
        match self {
            ListFault::BadLine { line } => write!(f, "bad line {line}"),
            ListFault::Repeated { line } => write!(f, "repeated in line {line}"),
            ListFault::Memory => f.write_str("out of memory"),
        }
    }
}

impl std::error::Error for ListFault {}

impl From<AllocError> for ListFault {
    ghost use Rattle.std.specs.Prelude.{◌≡◌};
    ghost use Rattle.t1_join.specs.declared.listing.ListFault.TheVariants.{Memory};

    ghost from_gives = { λ _ e. e ≡ Memory };

    fn from(_error: AllocError) -> ListFault {
        ListFault::Memory
    }
}

/// Why two listings don't join.
#[derive(Debug, Drop)]
pub enum JoinFault {
    /// Both have this index, with different bytes; it is the smallest such index.
    Subr { index: u16 },
    /// All Subrs join, and both have this name, with different bytes; it is the smallest such name.
    Glyph { name: Vec<u8> },
    /// A growth was refused.
    Memory,
}

impl fmt::Display for JoinFault {
    ghost use Rattle.std.specs.Prelude.{Some};
    ghost use Rattle.t1_join.specs.FaultTexts.{join_text};

    ghost output = { λ fault. Some (join_text fault) };

    fn fmt<W: fmt::Write>(&self, f: &mut fmt::Formatter<W>) -> fmt::Result {
        match self {
            JoinFault::Subr { index } => write!(f, "subr {index} differs"),
            JoinFault::Glyph { name } => write!(f, "glyph {} differs", Shown(name.as_slice())),
            JoinFault::Memory => f.write_str("out of memory"),
        }
    }
}

impl std::error::Error for JoinFault {}

impl From<AllocError> for JoinFault {
    ghost use Rattle.std.specs.Prelude.{◌≡◌};
    ghost use Rattle.t1_join.specs.declared.listing.JoinFault.TheVariants.{Memory};

    ghost from_gives = { λ _ e. e ≡ Memory };

    fn from(_error: AllocError) -> JoinFault {
        JoinFault::Memory
    }
}

impl<'a> Listing<'a> {
    /// The Subrs, by index.
    pub fn subrs(&self) -> &Table<u16, Hex<'a>>
        ensures { result.now ≡ self.now.subrs }
    {
        &self.subrs
    }

    /// The glyphs, by name.
    pub fn glyphs(&self) -> &Table<&'a [u8], Hex<'a>>
        ensures { result.now ≡ self.now.glyphs }
    {
        &self.glyphs
    }

    /// Each entry has an index or a name, and a value that one line of a text can spell.
    pub fn proof_holds_what_lines_spell(&self)
        ensures { IsListing self.now }
    {
        let _ = &self.subrs;
    }
}

/// The entries of the lines that were read.
#[derive(Drop)]
struct Lines<'a> {
    subrs: TableBuilder<u16, Hex<'a>>,
    glyphs: TableBuilder<&'a [u8], Hex<'a>>,
}

impl<'a> Model for Lines<'a> {
    ghost use Rattle.t1_join.specs.ListingMeaning.{ListingMeaning, listing_code, IsListing};

    ghost Value = { ListingMeaning };

    ghost coded = { listing_code };

    ghost view = { λ l. record { subrs = l.subrs; glyphs = l.glyphs } };

    ghost invariant = { λ l. IsListing (record { subrs = l.subrs; glyphs = l.glyphs }) };
}

impl<'a> Lines<'a> {
    /// No line.
    fn new(alloc: Global) -> Lines<'a>
        ensures { result ≡ record { subrs = fin.empty; glyphs = fin.empty } }
    {
        Lines {
            subrs: TableBuilder::new(alloc),
            glyphs: TableBuilder::new(alloc),
        }
    }

    /// Adds what a line says, unless its key is there: then the answer is false.
    fn add(&mut self, line: Line<'a>) -> Result<bool, AllocError>
        requires { IsEntry (line_entry line) }
        ensures { IfOk result
            (λ new. MatchBool new (IsAdded self.old (line_entry line.entry) self.new)
            (IsTrue (has_entry self.old (line_entry line.entry)))) }
    {
        match line {
            Line::Subr(index, bytes) => self.subrs.add(index, bytes),
            Line::Glyph(name, bytes) => self.glyphs.add(name, bytes),
        }
    }

    /// The listing of the lines.
    fn listing(self, alloc: Global) -> Result<Listing<'a>, AllocError>
        ensures { IfOk result (λ l. l ≡ self.entry) }
    {
        let subrs = self.subrs.table(alloc)?;
        let glyphs = self.glyphs.table(alloc)?;
        Ok(Listing { subrs, glyphs })
    }
}

/// The listing that a text spells, or nothing if it has a fault: all lines are read, and then their keys are compared.
fn read_at_once(alloc: Global, text: &[u8]) -> Result<Option<Listing<'_>>, AllocError>
    ensures { IfOk result
        (λ o. MatchOption o (IsErr (listing_of text.now)) (λ l. listing_of text.now ≡ Ok l)) }
{
    let mut lines = Unsorted::new(alloc);
    let mut rest = text;
    while let Some((front, after)) = split_at_byte(rest, b'\n') {
        let Some(line) = read_line(front) else {
            return Ok(None);
        };
        lines.add(line)?;
        rest = after;
    }
    if !rest.is_empty() {
        return Ok(None);
    }
    let Some((subrs, glyphs)) = lines.tables() else {
        return Ok(None);
    };
    Ok(Some(Listing { subrs, glyphs }))
}

/// The listing that a text spells, or its first fault: each line's key is looked up among those before it.
fn read_in_turn(alloc: Global, text: &[u8]) -> Result<Listing<'_>, ListFault>
    ensures { MatchResult result (λ l. listing_of text.now ≡ Ok l) (λ e. (e ≡ ListFault.Memory)
        ⊎ (listing_of text.now ≡ Err e)) }
{
    let mut lines = Lines::new(alloc);
    let mut rest = text;
    let mut line = 1usize;
    while let Some((front, back)) = split_at_byte(rest, b'\n') {
        let Some(entry) = read_line(front) else {
            return Err(ListFault::BadLine { line });
        };
        if !lines.add(entry)? {
            return Err(ListFault::Repeated { line });
        }
        rest = back;
        line += 1;
    }
    if rest.is_empty() {
        Ok(lines.listing(alloc)?)
    } else {
        Err(ListFault::BadLine { line })
    }
}

/// The listing that a text spells, or its first fault.
///
/// Each line is `S INDEX HEX` or `G NAME HEX` and a line feed; HEX is pairs of hexadecimal digits of
/// either case, and may be empty.
pub fn read(alloc: Global, text: &[u8]) -> Result<Listing<'_>, ListFault>
    ensures { MatchResult result (λ l. listing_of text.now ≡ Ok l) (λ e. (e ≡ ListFault.Memory)
        ⊎ (listing_of text.now ≡ Err e)) }
{
    match read_at_once(alloc, text)? {
        Some(listing) => Ok(listing),
        None => read_in_turn(alloc, text),
    }
}

/// The blank, the digits and the line feed that end a line.
fn add_bytes(out: &mut Vec<u8>, bytes: &Hex<'_>) -> Result<(), AllocError>
    ensures { OnOk result (out.new.items
        ≡ out.old.items ++ 32 ∷ (encode_lower bytes.now ++ 10 ∷ [])) }
{
    out.push(b' ')?;
    bytes.put_digits(out)?;
    out.push(b'\n')?;
    Ok(())
}

fn add_subr_line(
    alloc: Global,
    out: &mut Vec<u8>,
    index: u16,
    bytes: &Hex<'_>,
) -> Result<(), AllocError>
    ensures { OnOk result (out.new.items
        ≡ out.old.items ++ subr_line (of_number index, bytes.now)) }
{
    let number = index.to_string(alloc)?;
    out.extend_from_slice(b"S ")?;
    out.extend_from_slice(number.as_bytes())?;
    add_bytes(out, bytes)
}

fn add_glyph_line(out: &mut Vec<u8>, name: &[u8], bytes: &Hex<'_>) -> Result<(), AllocError>
    ensures { OnOk result (out.new.items ≡ out.old.items ++ glyph_line (name.now, bytes.now)) }
{
    out.extend_from_slice(b"G ")?;
    out.extend_from_slice(name)?;
    add_bytes(out, bytes)
}

/// The text of a listing: the Subrs upwards by index, then the glyphs upwards by the bytes of their names,
/// in lower-case hexadecimal. It reads as the same listing (`laws::reads_what_is_written`).
pub fn write(alloc: Global, listing: &Listing<'_>) -> Result<Vec<u8>, AllocError>
    ensures { IfOk result (λ text. text.items ≡ text_of listing.now) }
{
    let mut out = Vec::new(alloc);
    for (index, bytes) in listing.subrs.entries() {
        add_subr_line(alloc, &mut out, *index, bytes)?;
    }
    for (name, bytes) in listing.glyphs.entries() {
        add_glyph_line(&mut out, name, bytes)?;
    }
    Ok(out)
}

/// Nothing if two listings join, otherwise the smallest key in conflict, Subrs before glyphs.
fn agreed(alloc: Global, left: &Listing<'_>, right: &Listing<'_>) -> Result<(), JoinFault>
    ensures { MatchResult result (λ _. ListingsAgree left.now right.now)
        (IsJoinFault left.now right.now) }
{
    if let Some(index) = left.subrs.conflict(&right.subrs) {
        return Err(JoinFault::Subr { index: *index });
    }
    if let Some(name) = left.glyphs.conflict(&right.glyphs) {
        let name = name.to_vec(alloc)?;
        return Err(JoinFault::Glyph { name });
    }
    Ok(())
}

/// The listing with the entries of both, or the smallest key in conflict, Subrs before glyphs.
/// Both orders give one answer (`laws::listings_join_alike`).
pub fn join<'a>(
    alloc: Global,
    left: &Listing<'a>,
    right: &Listing<'a>,
) -> Result<Listing<'a>, JoinFault>
    ensures { MatchResult result (IsJoined left.now right.now) (IsJoinFault left.now right.now) }
{
    agreed(alloc, left, right)?;
    let subrs = left.subrs.join(alloc, &right.subrs)?;
    let glyphs = left.glyphs.join(alloc, &right.glyphs)?;
    Ok(Listing { subrs, glyphs })
}

/// The text of the entries of both.
fn text_of_both(
    alloc: Global,
    left: &Listing<'_>,
    right: &Listing<'_>,
) -> Result<Vec<u8>, AllocError>
    ensures { IfOk result (λ text. text.items ≡ text_of (joined_listing left.now right.now)) }
{
    let mut out = Vec::new(alloc);
    for (index, hex) in left.subrs.entries_with(&right.subrs) {
        add_subr_line(alloc, &mut out, *index, hex)?;
    }
    for (name, hex) in left.glyphs.entries_with(&right.glyphs) {
        add_glyph_line(&mut out, name, hex)?;
    }
    Ok(out)
}

/// The text of the join of two listings, or what keeps them from joining. The joined listing itself, which may take more
/// memory than both texts, is not made.
pub fn write_joined(
    alloc: Global,
    left: &Listing<'_>,
    right: &Listing<'_>,
) -> Result<Vec<u8>, JoinFault>
    ensures { MatchResult result (λ text. IsJoinedText left.now right.now text.items)
        (IsJoinFault left.now right.now) }
{
    agreed(alloc, left, right)?;
    Ok(text_of_both(alloc, left, right)?)
}
