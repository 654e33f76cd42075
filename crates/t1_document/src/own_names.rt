//! Names of the pool's own, under which documents find its fonts.

ghost use Rattle.std.specs.Prelude.{◌≡◌, ◌++◌, IfOk, OnOk};
ghost use Rattle.t1_grammar.specs.{Grammar.{fixed}, Places.{occurs}};
ghost use Rattle.t1_subset.specs.NameSets.{lent};
ghost use Rattle.t1_document.specs.{Rewriting.{can_give}, Pooling.{free_start, longer, longest, clashes, defined_as, line_end, place_line}};

use crate::lines::breaks;
use crate::rewriting::has_mark;
use std::alloc::{AllocError, Global};
use t1_bytes::texts::{find_from, fixed_at};

/// Whether a word stands somewhere in a text.
pub fn stands_in(word: &[u8], text: &[u8]) -> bool
    ensures { result ≡ occurs (fixed word.now) text.now }
{
    find_from(text, word, 0).is_some()
}

/// What the names of the pool begin with: it stands nowhere in this text.
///
/// # Errors
///
/// Only want of memory.
pub fn free_start(alloc: Global, text: &[u8]) -> Result<Vec<u8>, AllocError>
    ensures { IfOk result (λ v. v.items ≡ free_start text.now) }
{
    let mut start = Vec::from_slice(alloc, b"/pool:")?;
    'colons: while stands_in(start.as_slice(), text) {
        start.push(b':')?;
    }
    Ok(start)
}

/// The longer of two starts of names.
fn longer(a: Vec<u8>, b: Vec<u8>) -> Vec<u8>
    ensures { result.items ≡ longer a.items b.items }
{
    if a.len() < b.len() { b } else { a }
}

/// The longest of a start of names and those that are free in texts ([`free_start`]).
///
/// # Errors
///
/// Only want of memory.
pub fn longest_start(alloc: Global, start: Vec<u8>, texts: &[&[u8]]) -> Result<Vec<u8>, AllocError>
    ensures { IfOk result (λ v. v.items ≡ longest start.items (lent texts.now)) }
{
    let mut longest = start;
    'texts: for text in texts {
        let other = free_start(alloc, *text)?;
        longest = longer(longest, other);
    }
    Ok(longest)
}

/// Whether a name begins as the pool's own do.
pub(crate) fn clashes(start: &[u8], name: &[u8]) -> bool
    ensures { result ≡ clashes start.now name.now }
{
    match start.split_first() {
        Some((slash, own)) => *slash == b'/' && fixed_at(name, own).is_some(),
        None => true,
    }
}

/// Adds that the font of another name is found under this one, too; each of both in two parts.
pub(crate) fn push_defined(
    out: &mut Vec<u8>,
    name: (&[u8], &[u8]),
    other: (&[u8], &[u8]),
) -> Result<(), AllocError>
    ensures { OnOk result (out.new.items ≡ out.old.items
        ++ defined_as (name.entry.0.now ++ name.entry.1.now) (other.entry.0.now ++ other.entry.1.now)) }
{
    out.extend_from_slice(name.0)?;
    out.extend_from_slice(name.1)?;
    out.extend_from_slice(b" ")?;
    out.extend_from_slice(other.0)?;
    out.extend_from_slice(other.1)?;
    out.extend_from_slice(b" findfont definefont pop")
}

/// How a line ends, which leaves false on the operand stack, or nothing.
pub(crate) fn line_end(answers: bool) -> &'static [u8]
    ensures { result.now ≡ line_end answers }
{
    if answers { b" false" } else { b"" }
}

/// Adds the line by which a name gets the pool's font of its key.
pub(crate) fn push_line(
    out: &mut Vec<u8>,
    start: &[u8],
    end: &[u8],
    name: &[u8],
    key: &[u8],
) -> Result<(), AllocError>
    ensures { OnOk result (out.new.items ≡ out.old.items ++ place_line start.now end.now name.now key.now) }
{
    push_defined(out, (b"/", name), (start, key))?;
    out.extend_from_slice(end)
}

/// Whether bytes can stand in place of a font text and its rest.
pub(crate) fn can_give(bytes: &[u8]) -> bool
    ensures { result ≡ can_give bytes.now }
{
    match bytes.first() {
        Some(b'/') => breaks(bytes, b"%") && !has_mark(bytes),
        _ => false,
    }
}
