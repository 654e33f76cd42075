//! Reading a font file.

ghost use Rattle.std.specs.{Prelude.{◌≡◌, ◌≤◌, ◌+◌, length, take, drop, true, IfOk, MatchResult}, Ordering.{nat_cmp}};
ghost use Rattle.t1_bytes.specs.{Cipher.{decrypted}, Split.{cipher_in, last_bytes}, Limits.{file_limit}, Laws.{AreBytes}};
ghost use Rattle.t1_join.specs.TableMeaning.{Rises};
ghost use Rattle.t1_font.specs.{FontValue.{count_limit}, Pieces.{ClearPieces, PrivatePieces, flat_pieces}};
ghost use Rattle.t1_font.specs.ReadFont.{font_of, flat_reading, file_pieces, font_from, font_texts, font_file, read_font, read_font_widely};
ghost use Rattle.t1_font.specs.{Answers.{Answers, Shown, ShowsClear, ShowsPrivate, encoding_view, declared_in}, Sources.{kept_encoding, codes_of}};
ghost use Rattle.t1_font.specs.{Spelling.{SpellsIn, Spells, SpellsWidely}, Reasons.{RefusesIn, Refuses, RefusesWidely}};

use crate::code_names::CodeNames;
use crate::encoding::{ClearParts, EncodingParts, clear_parts};
use crate::fault::ReadFault;
use crate::gathered::Gathered;
use crate::limits::{COUNT_LIMIT, WEIGHT_LIMIT};
use crate::private::{PrivateParts, private_parts};
use crate::read_shell::kept_shell;
use crate::repeats::{ByName, ByNumber, last_entries};
use crate::source::{KeptEncoding, Source, SourceParts};
use crate::subrs::SubrsParts;
use std::alloc::{AllocError, Global};
use t1_bytes::{Cipher, EEXEC_KEY, EEXEC_LEAD, FILE_LIMIT, decrypt, find_cipher, flatten_vec};
use t1_join::likely_places;
use t1_text::dialect::Dialect;

/// The flat text of a file, in the file's own vector.
#[tactic(auto, unfolding(crate::specs::ReadFont::flat_reading))]
fn flat_text(file: Vec<u8>) -> Result<Vec<u8>, ReadFault>
    ensures value { Answers (λ v. v.items) result (flat_reading file.items).read }
    ensures no_longer { IfOk result (λ v. length v.items ≤ length file.items) }
{
    match flatten_vec(file) {
        Ok(flat) => Ok(flat),
        Err(fault) => Err(ReadFault::from(fault)),
    }
}

/// Where the clear text of a flat text ends, and the cipher.
fn found(alloc: Global, flat: &[u8]) -> Result<(usize, Cipher), ReadFault>
    ensures parts { Shown (λ x p. (take x.0 flat.now ≡ p.clear)
        × (cipher_in flat.now x.1 ≡ p.cipher)) result (flat_pieces flat.now).read }
    ensures end { IfOk result (λ x. x.0 ≤ length flat.now) }
    ensures last { IfOk result (λ x. last_bytes x.1 ≤ length flat.now) }
    ensures lead { IfOk result (λ x. 4 ≤ length (cipher_in flat.now x.1)) }
    ensures no_longer { IfOk result (λ x. length (cipher_in flat.now x.1) ≤ length flat.now) }
{
    match find_cipher(alloc, flat) {
        Ok((end, cipher)) => Ok((end, cipher)),
        Err(fault) => Err(ReadFault::from(fault)),
    }
}

/// The clear text of a file, and a buffer that holds the cipher from an offset on.
#[derive(Drop)]
pub(crate) struct CutFile {
    clear: Vec<u8>,
    buffer: Vec<u8>,
    from: usize,
}

/// A flat text, cut. A binary cipher stays where it stands.
fn cut_flat(alloc: Global, flat: Vec<u8>) -> Result<CutFile, ReadFault>
    ensures parts { Shown (λ x p. (x.clear.items ≡ p.clear)
        × (drop x.from x.buffer.items ≡ p.cipher)) result (flat_pieces flat.items).read }
    ensures lead { IfOk result (λ x. x.from + 4 ≤ length x.buffer.items) }
    ensures no_longer { IfOk result (λ x. length x.buffer.items ≤ length flat.items) }
{
    let (end, cipher) = found(alloc, flat.as_slice())?;
    let clear = Vec::from_slice(alloc, &flat[..end])?;
    match cipher {
        Cipher::Last(len) => {
            let from = flat.len() - len;
            Ok(CutFile {
                clear,
                buffer: flat,
                from,
            })
        }
        Cipher::Spelled(buffer) => Ok(CutFile {
            clear,
            buffer,
            from: 0,
        }),
    }
}

/// A file, cut.
fn cut_file(alloc: Global, file: Vec<u8>) -> Result<CutFile, ReadFault>
    ensures parts { Shown (λ x p. (x.clear.items ≡ p.clear)
        × (drop x.from x.buffer.items ≡ p.cipher)) result (file_pieces file.items).read }
    ensures lead { IfOk result (λ x. x.from + 4 ≤ length x.buffer.items) }
    ensures no_longer { IfOk result (λ x. length x.buffer.items ≤ length file.items) }
{
    let flat = flat_text(file)?;
    cut_flat(alloc, flat)
}

/// The Encoding of what was read, which owns its bytes.
fn kept_encoding(
    alloc: Global,
    parts: EncodingParts<'_>,
    codes: &CodeNames<'_>,
) -> Result<KeptEncoding, AllocError>
    ensures value { IfOk result (λ e. kept_encoding e ≡ encoding_view parts.entry codes.now) }
    ensures rise { IfOk result (λ e. Rises nat_cmp (codes_of e)) }
{
    match parts {
        EncodingParts::OneWord(word) => Ok(KeptEncoding::Word(Vec::from_slice(alloc, word)?)),
        EncodingParts::Puts => Ok(KeptEncoding::Codes(codes.kept(alloc)?)),
    }
}

/// The parts of the font that was read.
fn source_parts(
    alloc: Global,
    outside: &ClearParts<'_>,
    inside: PrivateParts,
    gathered: Gathered<'_>,
) -> Result<SourceParts, AllocError>
    requires { declared_in inside.subrs ≤ count_limit }
    ensures { IfOk result (λ f. (c : ClearPieces) (p : PrivatePieces)
        → ShowsClear outside.now gathered.entry.codes c
        → ShowsPrivate inside gathered.entry p
        → f ≡ font_of c p) }
{
    let shell = kept_shell(alloc, outside, inside)?;
    let buffer = gathered.buffer;
    let encoding = kept_encoding(alloc, outside.encoding, &gathered.codes)?;
    let names = ByName {
        buffer: buffer.as_slice(),
    };
    let glyphs = last_entries(gathered.glyphs, names)?;
    let subrs = last_entries(gathered.subrs, ByNumber)?;
    let likely = likely_places(alloc, subrs.as_slice())?;
    Ok(SourceParts {
        shell,
        encoding,
        buffer,
        subrs,
        likely,
        glyphs,
    })
}

/// How many Subrs are declared.
fn declared_in(parts: &Option<SubrsParts>) -> u32
    ensures { result ≡ declared_in parts.now }
{
    match parts {
        Some(parts) => parts.declared,
        None => 0,
    }
}

/// The parts of the font that was read, if it has no more glyphs than a font may have, and weighs no more.
fn light_parts(
    alloc: Global,
    outside: &ClearParts<'_>,
    inside: PrivateParts,
    gathered: Gathered<'_>,
) -> Result<SourceParts, ReadFault>
    requires declared { declared_in inside.subrs ≤ count_limit }
    requires notdef { inside.glyphs.has_notdef ≡ true }
    ensures { (c : ClearPieces) (p : PrivatePieces)
        → ShowsClear outside.now gathered.entry.codes c
        → ShowsPrivate inside gathered.entry p
        → Answers (λ f. f) result (font_from c p).read }
{
    let parts = source_parts(alloc, outside, inside, gathered)?;
    if parts.glyph_count() > COUNT_LIMIT {
        return Err(ReadFault::Limit);
    }
    if parts.weight() > WEIGHT_LIMIT {
        return Err(ReadFault::Limit);
    }
    Ok(parts)
}

/// The font that was read, if it has `.notdef` and is within the limits.
fn font_from(
    alloc: Global,
    outside: &ClearParts<'_>,
    inside: PrivateParts,
    gathered: Gathered<'_>,
) -> Result<SourceParts, ReadFault>
    ensures { (c : ClearPieces) (p : PrivatePieces)
        → ShowsClear outside.now gathered.entry.codes c
        → ShowsPrivate inside gathered.entry p
        → Answers (λ f. f) result (font_from c p).read }
{
    if !inside.glyphs.has_notdef {
        return Err(ReadFault::NoNotdef);
    }
    if declared_in(&inside.subrs) as usize > COUNT_LIMIT {
        return Err(ReadFault::Limit);
    }
    light_parts(alloc, outside, inside, gathered)
}

/// Decrypts in place the cipher of a private text, which stands in a buffer from an offset on.
fn open_private(buffer: &mut Vec<u8>, from: usize)
    requires { from ≤ length buffer.old.items }
    ensures value { drop from buffer.new.items ≡ decrypted 55665 (drop from buffer.old.items) }
    ensures same { length buffer.new.items ≡ length buffer.old.items }
{
    let (_, cipher) = buffer.as_mut_slice().split_at_mut(from);
    decrypt(cipher, EEXEC_KEY);
}

/// The parts of the font of a clear text, and of a private text that stands in a buffer from `at` on.
fn text_parts(
    alloc: Global,
    dialect: Dialect,
    clear: &[u8],
    buffer: Vec<u8>,
    at: usize,
) -> Result<SourceParts, ReadFault>
    requires inside { at ≤ length buffer.items }
    requires short { length buffer.items ≤ file_limit }
    ensures { Answers (λ f. f) result (font_texts dialect clear.now (drop at buffer.items)).read }
{
    let mut gathered = Gathered::new(alloc, buffer, at);
    let outside = clear_parts(clear, dialect, &mut gathered)?;
    let inside = private_parts(alloc, dialect.subrs, &mut gathered)?;
    font_from(alloc, &outside, inside, gathered)
}

/// The parts of the font that a file spells.
#[tactic(auto, unfolding(crate::specs::ReadFont::font_file))]
fn file_parts(alloc: Global, dialect: Dialect, file: Vec<u8>) -> Result<SourceParts, ReadFault>
    ensures { Answers (λ f. f) result (font_file dialect file.items).read }
{
    if file.len() > FILE_LIMIT {
        return Err(ReadFault::TooLong);
    }
    let cut = cut_file(alloc, file)?;
    let mut buffer = cut.buffer;
    open_private(&mut buffer, cut.from);
    let at = cut.from + EEXEC_LEAD as usize;
    text_parts(alloc, dialect, cut.clear.as_slice(), buffer, at)
}

/// Tells proofs that bytes are numbers below 256. It does nothing when it runs.
pub(crate) fn proof_are_bytes(bytes: &[u8])
    ensures { AreBytes bytes.now }
{
    let _bytes = bytes;
}

/// Reads a font file that is spelled in a dialect.
pub(crate) fn read_in(alloc: Global, dialect: Dialect, file: Vec<u8>) -> Result<Source, ReadFault>
    ensures right { MatchResult result (SpellsIn dialect file.items) (RefusesIn dialect file.items) }
    ensures exact { Answers (λ f. f) result (font_file dialect file.items).read }
{
    proof_are_bytes(file.as_slice());
    match file_parts(alloc, dialect, file) {
        Ok(parts) => Ok(Source { parts }),
        Err(fault) => Err(fault),
    }
}

/// Reads a font file that is handed over, as [`read`] reads one that is lent. The answer owns the file's vector, in which
/// a binary cipher was decrypted in place; a hexadecimal cipher takes another half of the memory of its digits.
///
/// # Errors
///
/// Those of [`read`].
pub fn read_vec(alloc: Global, file: Vec<u8>) -> Result<Source, ReadFault>
    ensures right { MatchResult result (Spells file.items) (Refuses file.items) }
    ensures exact { Answers (λ f. f) result (read_font file.items) }
{
    read_in(alloc, Dialect::strict(), file)
}

/// Reads a font file that is handed over, as [`read_wide`] reads one that is lent.
///
/// # Errors
///
/// Those of [`read_wide`].
pub fn read_wide_vec(alloc: Global, file: Vec<u8>) -> Result<Source, ReadFault>
    ensures right { MatchResult result (SpellsWidely file.items) (RefusesWidely file.items) }
    ensures exact { Answers (λ f. f) result (read_font_widely file.items) }
{
    read_in(alloc, Dialect::wide(), file)
}

/// Reads a font file: PFA or PFB, in any spelling of the Type 1 grammar that this library accepts
/// (Adobe Type 1 Font Format 1.1, chapters 2, 5, 6 and 7; Technical Note 5040). It reads a copy of the file;
/// [`read_vec`] takes the file itself.
///
/// # Errors
///
/// The first fault, in the order of [`ReadFault`], whose condition holds; `at` is the offset of the
/// first entry that doesn't parse: in the file for a segment, in the flat text for the Encoding, in
/// the private text for the tables. If a growth was refused, the answer is `Memory`.
pub fn read(alloc: Global, file: &[u8]) -> Result<Source, ReadFault>
    ensures right { MatchResult result (Spells file.now) (Refuses file.now) }
    ensures exact { Answers (λ f. f) result (read_font file.now) }
{
    match Vec::from_slice(alloc, file) {
        Ok(file) => read_vec(alloc, file),
        Err(_) => Err(ReadFault::Memory),
    }
}

/// Reads a font file as [`read`] does, and takes what other programs write beside it: comments between the words of an
/// Encoding, before the entries of Subrs and before the words that close them; in an Encoding's table copies of names of
/// codes (`dup dup TO exch FROM get put` and `dup dup FROM COUNT getinterval TO exch putinterval`), each within the 256
/// codes; and `readonly` behind a word that is the whole Encoding. It reads a copy of the file; [`read_wide_vec`] takes the
/// file itself.
///
/// # Errors
///
/// The first fault, as [`read`] has it; `at` is the offset of the first entry that doesn't parse behind any comments.
pub fn read_wide(alloc: Global, file: &[u8]) -> Result<Source, ReadFault>
    ensures right { MatchResult result (SpellsWidely file.now) (RefusesWidely file.now) }
    ensures exact { Answers (λ f. f) result (read_font_widely file.now) }
{
    match Vec::from_slice(alloc, file) {
        Ok(file) => read_wide_vec(alloc, file),
        Err(_) => Err(ReadFault::Memory),
    }
}
