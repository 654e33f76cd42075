//! How the Encoding of a clear text begins and ends, in each of its three forms.

ghost use Rattle.std.specs.{Prelude.{◌≡◌, Some}, Option.{option_map}};
ghost use Rattle.t1_grammar.specs.Grammar.{may_be};
ghost use Rattle.t1_text.specs.Words.{next_name};
ghost use Rattle.t1_text.specs.Encoding.{before_def, encoding_end, encoding_word, encoding_table, loop_range, loop_body, encoding_loop, encoding_start, readonly, array_start};
ghost use Rattle.t1_text.specs.{Encoding.{array_end}, Views.{opening_view}};

use crate::dialect::{Dialect, Spacing};
use crate::words::{keyword_at, name_at, word_at};
use t1_bytes::texts::fixed_at;

/// `readonly` and the white space after it, if they are there.
fn after_readonly(bytes: &[u8], spacing: Spacing) -> &[u8]
    ensures { Some result.now ≡ option_map (λ x. x.1) ((readonly spacing).read bytes.now) }
{
    if let Some((_, rest)) = keyword_at(bytes, b"readonly") {
        if let Some((_, rest)) = spacing.gap_at(rest) {
            return rest;
        }
    }
    bytes
}

/// What stands after the close of the table.
#[tactic(auto, unfolding(crate::specs::Encoding::encoding_end))]
pub fn encoding_end_at(bytes: &[u8], spacing: Spacing) -> Option<&[u8]>
    ensures { option_map (λ x. x.now) result ≡ option_map (λ x. x.1) ((encoding_end spacing).read bytes.now) }
{
    let (_, rest) = spacing.white_at(bytes);
    let (_, rest) = keyword_at(after_readonly(rest, spacing), b"def")?;
    Some(rest)
}

/// What may stand between a word that is the whole Encoding and its `def` is passed over.
fn before_def(bytes: &[u8], dialect: Dialect) -> &[u8]
    ensures { Some result.now ≡ option_map (λ x. x.1) ((before_def dialect).read bytes.now) }
{
    if dialect.readonly {
        after_readonly(bytes, dialect.encoding)
    } else {
        bytes
    }
}

/// A word that is the whole Encoding.
#[tactic(auto, unfolding(crate::specs::Encoding::encoding_word))]
fn encoding_word_at(bytes: &[u8], dialect: Dialect) -> Option<(&[u8], &[u8])>
    ensures { option_map (λ x. (x.0.now, x.1.now)) result ≡ (encoding_word dialect).read bytes.now }
{
    let (_, rest) = dialect.encoding.white_at(bytes);
    let (word, rest) = word_at(rest)?;
    let (_, rest) = dialect.encoding.gap_at(rest)?;
    let (_, rest) = keyword_at(before_def(rest, dialect), b"def")?;
    Some((word, rest))
}

/// How a table begins.
#[tactic(auto, unfolding(crate::specs::Encoding::encoding_table))]
fn encoding_table_at(bytes: &[u8], spacing: Spacing) -> Option<(&[u8], &[u8])>
    ensures { option_map (λ x. (x.0.now, x.1.now)) result ≡ (encoding_table spacing).read bytes.now }
{
    let (_, rest) = spacing.white_at(bytes);
    let (_, rest) = keyword_at(rest, b"256")?;
    let (_, rest) = spacing.gap_at(rest)?;
    keyword_at(rest, b"array")
}

/// `0 1 255`, which begins the loop.
fn loop_range_at(bytes: &[u8], spacing: Spacing) -> Option<(&[u8], &[u8])>
    ensures { option_map (λ x. (x.0.now, x.1.now)) result ≡ (loop_range spacing).read bytes.now }
{
    let (_, rest) = spacing.white_at(bytes);
    let (_, rest) = keyword_at(rest, b"0")?;
    let (_, rest) = spacing.gap_at(rest)?;
    let (_, rest) = keyword_at(rest, b"1")?;
    let (_, rest) = spacing.gap_at(rest)?;
    keyword_at(rest, b"255")
}

/// `1 index exch /.notdef put`, which the loop does.
fn loop_body_at(bytes: &[u8], spacing: Spacing) -> Option<(&[u8], &[u8])>
    ensures { option_map (λ x. (x.0.now, x.1.now)) result ≡ (loop_body spacing).read bytes.now }
{
    let (_, rest) = spacing.white_at(bytes);
    let (_, rest) = keyword_at(rest, b"1")?;
    let (_, rest) = spacing.gap_at(rest)?;
    let (_, rest) = keyword_at(rest, b"index")?;
    let (_, rest) = spacing.gap_at(rest)?;
    let (_, rest) = keyword_at(rest, b"exch")?;
    let (_, rest) = spacing.white_at(rest);
    let (_, rest) = fixed_at(rest, b"/")?;
    let (_, rest) = keyword_at(rest, b".notdef")?;
    let (_, rest) = spacing.gap_at(rest)?;
    keyword_at(rest, b"put")
}

/// The loop that names all codes `.notdef`.
#[tactic(auto, unfolding(crate::specs::Encoding::encoding_loop))]
fn encoding_loop_at(bytes: &[u8], spacing: Spacing) -> Option<(&[u8], &[u8])>
    ensures { option_map (λ x. (x.0.now, x.1.now)) result ≡ (encoding_loop spacing).read bytes.now }
{
    let (_, rest) = loop_range_at(bytes, spacing)?;
    let (_, rest) = spacing.white_at(rest);
    let (_, rest) = fixed_at(rest, b"{")?;
    let (_, rest) = loop_body_at(rest, spacing)?;
    let (_, rest) = spacing.white_at(rest);
    let (_, rest) = fixed_at(rest, b"}")?;
    let (_, rest) = spacing.white_at(rest);
    keyword_at(rest, b"for")
}

/// The loop, if it is there.
fn after_loop(bytes: &[u8], spacing: Spacing) -> &[u8]
    ensures { Some result.now ≡ option_map (λ x. x.1) ((may_be (encoding_loop spacing)).read bytes.now) }
{
    if let Some((_, rest)) = encoding_loop_at(bytes, spacing) {
        return rest;
    }
    bytes
}

/// How an array begins.
#[tactic(auto, unfolding(crate::specs::Encoding::array_start))]
fn array_start_at(bytes: &[u8], spacing: Spacing) -> Option<(&[u8], &[u8])>
    ensures { option_map (λ x. (x.0.now, x.1.now)) result ≡ (array_start spacing).read bytes.now }
{
    let (_, rest) = spacing.white_at(bytes);
    fixed_at(rest, b"[")
}

/// What stands after the close of an array.
#[tactic(auto, unfolding(crate::specs::Encoding::array_end))]
pub fn array_end_at(bytes: &[u8], spacing: Spacing) -> Option<&[u8]>
    ensures { option_map (λ x. x.now) result ≡ option_map (λ x. x.1) ((array_end spacing).read bytes.now) }
{
    let (_, rest) = spacing.white_at(bytes);
    let (_, rest) = fixed_at(rest, b"]")?;
    encoding_end_at(rest, spacing)
}

/// A name of an array.
#[tactic(auto, unfolding(crate::specs::Words::next_name))]
pub fn array_name_at(bytes: &[u8], spacing: Spacing) -> Option<(&[u8], &[u8])>
    ensures { option_map (λ x. (x.0.now, x.1.now)) result ≡ (next_name spacing).read bytes.now }
{
    let (_, rest) = spacing.white_at(bytes);
    name_at(rest)
}

/// How the Encoding begins.
#[derive(Clone, Copy)]
pub enum Opening<'a> {
    /// The one word that it is.
    Word(&'a [u8]),
    /// What opens the puts of a table.
    Puts,
    /// What opens the names of a literal array.
    Names,
}

/// How the Encoding begins, in one of three forms.
#[tactic(auto, unfolding(crate::specs::Encoding::encoding_start))]
pub fn encoding_start_at(bytes: &[u8], dialect: Dialect) -> Option<(Opening<'_>, &[u8])>
    ensures { option_map (λ x. (opening_view x.0, x.1.now)) result ≡ (encoding_start dialect).read bytes.now }
{
    if let Some((word, rest)) = encoding_word_at(bytes, dialect) {
        return Some((Opening::Word(word), rest));
    }
    if let Some((_, rest)) = encoding_table_at(bytes, dialect.encoding) {
        return Some((Opening::Puts, after_loop(rest, dialect.encoding)));
    }
    let (_, rest) = array_start_at(bytes, dialect.encoding)?;
    Some((Opening::Names, rest))
}
