//! A font with the entries of two.

ghost use Rattle.std.specs.{Prelude.{◌≡◌, IfOk, MatchResult}, Option.{option_map}};
ghost use Rattle.t1_font.specs.{FontModel.{encoding_of}, Maps.{map_values, merged}, Joins.{joined_subr, join_parts, Refuses}};
ghost use Rattle.t1_font.specs.Encodings.{join_encodings, SameKind};
ghost use Rattle.std.specs.FinMap as fin;

use crate::font::{Font, FontParts, LentEncoding};
use crate::lent::SparseArray;
use crate::passes::join_glyphs;
use crate::stub::STUB;
use std::alloc::{AllocError, Global};
use std::fmt;
use t1_join::push_both;

/// Why the entries of two fonts don't make one font.
#[derive(Clone, Copy, Debug, PartialEq, Eq)]
pub enum PartsFault {
    /// The font of both would have too many glyphs or weigh too much.
    Limit,
    /// A growth was refused.
    Memory,
}

impl fmt::Display for PartsFault {
    ghost use Rattle.std.specs.Prelude.{Some};
    ghost use Rattle.t1_font.specs.FaultTexts.{parts_text};

    ghost output = { λ fault. Some (parts_text fault) };

    fn fmt<W: fmt::Write>(&self, f: &mut fmt::Formatter<W>) -> fmt::Result {
        f.write_str(match self {
            PartsFault::Limit => "over a limit",
            PartsFault::Memory => "out of memory",
        })
    }
}

impl std::error::Error for PartsFault {}

impl From<AllocError> for PartsFault {
    ghost use Rattle.std.specs.Prelude.{◌≡◌};
    ghost use Rattle.t1_font.specs.declared.parts.PartsFault.TheVariants.{Memory};

    ghost from_gives = { λ _ e. e ≡ Memory };

    fn from(_fault: AllocError) -> PartsFault {
        PartsFault::Memory
    }
}

/// The codes of both fonts, in one pass over both tables. If both have a code, the first's name stands.
#[tactic(auto, using(t1_join::proofs::TablePasses::put_out, t1_join::proofs::TablePasses::merge_rises, t1_join::proofs::TablePasses::merge_is, std::proofs::lemmas::Cmp::nat_cmp_total, crate::proofs::canonical::FontAgain::number_same))]
pub(crate) fn join_codes<'a>(
    alloc: Global,
    first: &SparseArray<'a>,
    second: &SparseArray<'a>,
) -> Result<SparseArray<'a>, AllocError>
    ensures { IfOk result (λ m. m ≡ merged first.now second.now) }
{
    let mut all = Vec::with_capacity(alloc, first.len().saturating_add(second.len()))?;
    push_both(&mut all, first, second, 0, 0)?;
    Ok(SparseArray::made(all))
}

/// The Encoding of both fonts. A word stays as it is in the first.
pub(crate) fn join_encoding<'a>(
    alloc: Global,
    first: &LentEncoding<'a>,
    second: &LentEncoding<'a>,
) -> Result<LentEncoding<'a>, AllocError>
    requires { SameKind (encoding_of first.now) (encoding_of second.now) }
    ensures { IfOk result (λ e. encoding_of e
        ≡ join_encodings (encoding_of first.now) (encoding_of second.now)) }
{
    match (first, second) {
        (LentEncoding::Codes(first), LentEncoding::Codes(second)) => {
            Ok(LentEncoding::Codes(join_codes(alloc, first, second)?))
        }
        (LentEncoding::Word(word), _) | (_, LentEncoding::Word(word)) => {
            Ok(LentEncoding::Word(word))
        }
    }
}

/// The first's Subr, or the second's if the first's is a stub.
fn joined_subr<'a>(first: &'a [u8], second: Option<&'a [u8]>) -> &'a [u8]
    ensures { result.now ≡ joined_subr first.now (option_map (λ b. b.now) second.entry) }
{
    match second {
        Some(body) if first == STUB => body,
        _ => first,
    }
}

/// The Subrs of the first font. Its stubs give way to the second's Subrs.
pub(crate) fn join_subrs<'a>(
    alloc: Global,
    first: &SparseArray<'a>,
    second: &SparseArray<'a>,
) -> Result<SparseArray<'a>, AllocError>
    ensures { IfOk result (λ m. m
        ≡ map_values (λ i c. joined_subr c (fin.get second.now i)) first.now) }
{
    let mut joined = Vec::with_capacity(alloc, first.len())?;
    'bodies: for (index, body) in first.entries() {
        let other = second.get_near(joined.len(), index);
        joined.push((index, joined_subr(body, other)))?;
    }
    Ok(SparseArray::made(joined))
}

/// The entries of both, whatever they weigh.
fn joined_parts<'a>(
    alloc: Global,
    first: &FontParts<'a>,
    second: &FontParts<'a>,
) -> Result<FontParts<'a>, AllocError>
    requires { SameKind first.now.encoding second.now.encoding }
    ensures { IfOk result (λ f. f ≡ join_parts first.now second.now) }
{
    Ok(FontParts {
        shell: first.shell,
        encoding: join_encoding(alloc, &first.encoding, &second.encoding)?,
        subrs: join_subrs(alloc, &first.subrs, &second.subrs)?,
        glyphs: join_glyphs(alloc, &first.glyphs, &second.glyphs)?,
    })
}

/// The font with the entries of both fonts. A Subr that is `return` gives way to the other font's entry (Adobe Type 1
/// Font Format 1.1, chapters 2 and 8). If both have different entries at a key, the first's stands. The first font
/// decides which Subrs are present: a Subr that only the second has is left out.
///
/// Both fonts have the same shell, and their Encodings are the same word or both tables.
///
/// # Errors
///
/// `Limit` if the font of both has more glyphs or weighs more than a font may, `Memory` if a growth was refused.
pub fn join_parts<'a>(
    alloc: Global,
    first: &Font<'a>,
    second: &Font<'a>,
) -> Result<Font<'a>, PartsFault>
    requires shells { first.now.shell ≡ second.now.shell }
    requires encodings { SameKind first.now.encoding second.now.encoding }
    ensures { MatchResult result (λ f. f
        ≡ join_parts first.now second.now) (Refuses (join_parts first.now second.now)) }
{
    first.proof_is_font();
    second.proof_is_font();
    let parts = joined_parts(alloc, &first.parts, &second.parts)?;
    if parts.is_over_limits() {
        return Err(PartsFault::Limit);
    }
    Ok(Font { parts })
}
