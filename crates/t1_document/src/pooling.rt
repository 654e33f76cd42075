//! Documents in which each font stands once, before the first of them, and is found under a name of the pool's own.

ghost use Rattle.std.specs.{Prelude.{◌≡◌, ◌++◌, ◌||◌, ◌∷◌, [], ℕ, List, map, filter, IfOk, OnOk, if◌then◌else◌}, Option.{option_map}};
ghost use Rattle.t1_document.specs.{Documents.{document_of}, Rewriting.{fate_bytes, fated_bytes}, Joins.{new_texts, names_from, AreOutcomes}};
ghost use Rattle.t1_document.specs.{Groups.{outcome_in, places_in}, Texts.{text_in}, Views.{place_view, document_view}};
ghost use Rattle.t1_document.specs.Pooling.{free_start, key_of, keyed, any_clashes, prolog, line_fate, line_fates, document_pooled, pooled_by};
ghost use Rattle.t1_document.specs.Pooling.{is_several, has_no_lines, is_left_from, left_keys};
ghost use Rattle.t1_document.specs.Apart.{fonts_among, ends_among, left_among};

use crate::documents::{Document, Place, read_document};
use crate::entries::{Least, parts_of};
use crate::families::family;
use crate::groups::{Groups, groups_by};
use crate::joins::{Joins, join_fonts};
use crate::names::names_of;
use crate::own_names::{clashes, free_start, push_line};
use crate::texts::Texts;
use std::alloc::{AllocError, Global};

/// What the places of one font share.
#[derive(Clone, Copy)]
pub enum Key {
    /// Their name.
    Name,
    /// Their name without the tags that it begins with, six capitals and `+`.
    Family,
}

impl Key {
    /// The key of a name.
    pub(crate) fn of<'a>(self, name: &'a [u8]) -> &'a [u8]
        ensures { result.now ≡ key_of self name.now }
    {
        match self {
            Key::Name => name,
            Key::Family => family(name),
        }
    }
}

/// Places under their keys.
pub(crate) fn keyed<'a>(
    alloc: Global,
    by: Key,
    places: &[Place<'a>],
) -> Result<Vec<Place<'a>>, AllocError>
    ensures { IfOk result (λ v. map place_view v.items ≡ keyed by (map place_view places.now)) }
{
    let mut keyed = Vec::with_capacity(alloc, places.len())?;
    'places: for place in places {
        keyed.push(Place {
            name: by.of(place.name),
            ..*place
        })?;
    }
    Ok(keyed)
}

/// Whether the name of some place begins as the pool's own do.
fn any_clashes(start: &[u8], places: &[Place<'_>]) -> bool
    ensures { result ≡ any_clashes start.now (map place_view places.now) }
{
    'places: for place in places {
        if clashes(start, place.name) {
            return true;
        }
    }
    false
}

/// Those of all keys that may have entries: none where the name or the key of a place clashes.
fn keys_of<'k, 'a>(
    start: &[u8],
    places: &[Place<'_>],
    keyed: &[Place<'_>],
    all: &'k [&'a [u8]],
) -> &'k [&'a [u8]]
    ensures { map (λ k. k.now) result.now
        ≡ (if any_clashes start.now (map place_view places.now) || any_clashes start.now (map place_view keyed.now)
        then [] else map (λ k. k.now) all.now) }
{
    if any_clashes(start, places) || any_clashes(start, keyed) {
        &[]
    } else {
        all
    }
}

/// What stands before the documents.
fn prolog(alloc: Global, parts: &[u8]) -> Result<Vec<u8>, AllocError>
    ensures { IfOk result (λ v. v.items ≡ prolog parts.now) }
{
    let mut out = Vec::new(alloc);
    if !parts.is_empty() {
        out.extend_from_slice(b"%!PS-Adobe-3.0\n")?;
        out.extend_from_slice(parts)?;
    }
    Ok(out)
}

/// Adds what stands in place of the font text and the rest of a place.
fn push_place(
    out: &mut Vec<u8>,
    start: &[u8],
    by: Key,
    ends: &Texts<'_>,
    place: &Place<'_>,
) -> Result<(), AllocError>
    ensures { OnOk result (out.new.items
        ≡ out.old.items ++ fate_bytes (line_fate start.now by (text_in ends.now) (place_view place.now)) (place_view place.now)) }
{
    let key = by.of(place.name);
    match ends.get(key) {
        Some(end) => push_line(out, start, end, place.name, key)?,
        None => out.extend_from_slice(place.text)?,
    }
    out.extend_from_slice(place.rest)
}

/// Adds places, of which those of keys whose lines end so have lines, and the bytes behind them.
pub(crate) fn push_lined(
    out: &mut Vec<u8>,
    start: &[u8],
    by: Key,
    ends: &Texts<'_>,
    places: &[Place<'_>],
    last: &[u8],
) -> Result<(), AllocError>
    ensures { OnOk result (out.new.items ≡ out.old.items
        ++ fated_bytes (line_fates start.now by (text_in ends.now) (map place_view places.now)) last.now) }
{
    'places: for place in places {
        out.extend_from_slice(place.before)?;
        push_place(out, start, by, ends, place)?;
    }
    out.extend_from_slice(last)?;
    Ok(())
}

/// Whether there is more than one place.
fn is_several(places: &[Place<'_>]) -> bool
    ensures { result ≡ is_several (map place_view places.now) }
{
    matches!(places, [_, _, ..])
}

/// Whether there is a text, and no end of lines.
fn has_no_lines(text: Option<&[u8]>, end: Option<&[u8]>) -> bool
    ensures { result ≡ has_no_lines (option_map (λ t. t.now) text.entry) (option_map (λ t. t.now) end.entry) }
{
    matches!((text, end), (Some(_), None))
}

/// Whether a key that has a text and these places keeps its font texts, though it has so many places.
fn is_left_at(least: Least, text: Option<&[u8]>, places: &[Place<'_>], end: Option<&[u8]>) -> bool
    ensures { result ≡ is_left_from least (option_map (λ t. t.now) text.entry) (map place_view places.now) (option_map (λ t. t.now) end.entry) }
{
    match least {
        Least::One => has_no_lines(text, end),
        Least::Two => is_several(places) && has_no_lines(text, end),
    }
}

/// The places of a key.
fn places_in<'g, 'a>(groups: &'g Groups<'a>, key: &[u8]) -> &'g [Place<'a>]
    ensures { map place_view result.now ≡ places_in groups.now key.now }
{
    groups.get(key).unwrap_or_default()
}

/// Whether a key does.
fn is_left(
    least: Least,
    key: &[u8],
    ends: &Texts<'_>,
    joins: &Joins<'_>,
    groups: &Groups<'_>,
) -> bool
    ensures { result ≡ is_left_from least (new_texts (outcome_in joins.now) key.now) (places_in groups.now key.now) (text_in ends.now key.now) }
{
    is_left_at(
        least,
        joins.text(key),
        places_in(groups, key),
        ends.get(key),
    )
}

/// Those of keys that do.
fn left_keys<'a>(
    alloc: Global,
    least: Least,
    keys: &[&'a [u8]],
    ends: &Texts<'_>,
    joins: &Joins<'_>,
    groups: &Groups<'_>,
) -> Result<Vec<&'a [u8]>, AllocError>
    ensures { IfOk result (λ v. map (λ k. k.now) v.items ≡ filter (λ key. is_left_from least
        (new_texts (outcome_in joins.now) key) (places_in groups.now key) (text_in ends.now key)) (map (λ k. k.now) keys.now)) }
{
    let mut left = Vec::new(alloc);
    'keys: for key in keys {
        if is_left(least, *key, ends, joins, groups) {
            left.push(*key)?;
        }
    }
    Ok(left)
}

/// The entries of keys, and the keys that are left.
#[derive(Drop)]
pub(crate) struct Entries<'a> {
    pub(crate) bytes: Vec<u8>,
    pub(crate) ends: Texts<'a>,
    pub(crate) left: Vec<&'a [u8]>,
}

/// The entries of the keys of places, and the keys that are left, where the pool's names have this start and fonts come to this.
pub(crate) fn entries_among<'a>(
    alloc: Global,
    start: &[u8],
    by: Key,
    least: Least,
    own: &[Place<'a>],
    places: &[Place<'a>],
    joins: &Joins<'_>,
) -> Result<Entries<'a>, AllocError>
    requires { map place_view places.now ≡ keyed by (map place_view own.now) }
    ensures bytes { IfOk result (λ e. e.bytes.items
        ≡ fonts_among least start.now by (new_texts (outcome_in joins.now)) (map place_view own.now)) }
    ensures ends { IfOk result (λ e. (key : List ℕ) → text_in e.ends key
        ≡ ends_among least start.now by (new_texts (outcome_in joins.now)) (map place_view own.now) key) }
    ensures left { IfOk result (λ e. map (λ k. k.now) e.left.items
        ≡ left_among least start.now by (new_texts (outcome_in joins.now)) (map place_view own.now)) }
{
    let groups = groups_by(alloc, by, own)?;
    let all = names_of(alloc, places)?;
    let keys = keys_of(start, own, places, all.as_slice());
    let parts = parts_of(alloc, least, start, keys, joins, &groups)?;
    let left = left_keys(alloc, least, all.as_slice(), &parts.ends, joins, &groups)?;
    Ok(Entries {
        bytes: parts.bytes,
        ends: parts.ends,
        left,
    })
}

/// What a document becomes, and the keys that are left as they are.
#[derive(Drop)]
struct Lined<'a> {
    text: Vec<u8>,
    left: Vec<&'a [u8]>,
}

impl<'a> Document<'a> {
    /// The document with entries before it, where the pool's names have this start and fonts come to this.
    fn pooled(
        &self,
        alloc: Global,
        start: &[u8],
        by: Key,
        places: &[Place<'a>],
        joins: &Joins<'_>,
    ) -> Result<Lined<'a>, AllocError>
        requires { map place_view places.now ≡ keyed by (document_view self.now).places }
        ensures text { IfOk result (λ l. l.text.items
            ≡ document_pooled start.now by (new_texts (outcome_in joins.now)) (document_view self.now)) }
        ensures left { IfOk result (λ l. map (λ k. k.now) l.left.items
            ≡ left_keys start.now by (new_texts (outcome_in joins.now)) (document_view self.now).places) }
    {
        let own = self.places.as_slice();
        let entries = entries_among(alloc, start, by, Least::Two, own, places, joins)?;
        let mut text = prolog(alloc, entries.bytes.as_slice())?;
        push_lined(&mut text, start, by, &entries.ends, own, self.last)?;
        Ok(Lined {
            text,
            left: entries.left,
        })
    }
}

/// A text in which each font stands once, before all documents, and is found by a line at each of its places.
#[derive(Drop)]
pub struct PooledText<'a> {
    /// The text.
    pub text: Vec<u8>,
    /// The places of fonts that it had, each under its key.
    pub places: Vec<Place<'a>>,
    /// What the fonts of each key come to.
    pub joins: Joins<'a>,
    /// The keys that have a new text and several places and keep their font texts all the same, in the order of their first places.
    pub left: Vec<&'a [u8]>,
}

/// A text with the fonts of each key once.
///
/// The places of the text's document ([`read_document`]) are taken under their keys, and the fonts of each key are joined
/// ([`join_fonts`]). Where a key has a new text and several places, that text stands in a part `%%BeginResource: font` of its own
/// before the document, behind a first line `%!PS-Adobe-3.0`. There the font gets the name `/pool:KEY`, with more colons if the text
/// has such names already, and loses its own again. Each place of the key has the line `/NAME /pool:KEY findfont definefont pop` in
/// place of its font text, so whatever the document has restored, re-encoded or taken away before, the name has the font there. Where
/// a font text leaves the answer of its own test of `FontDirectory` on the operand stack, the line leaves `false` there. All other
/// bytes stay.
///
/// A key keeps its font texts where it has one place, where a text asks for `FontDirectory` otherwise than by that test, where the new
/// text or the line of a place can't stand there, and where a name or a key begins as the pool's own names do.
///
/// # Errors
///
/// Only want of memory.
pub fn pool_document(alloc: Global, by: Key, text: &[u8]) -> Result<PooledText<'_>, AllocError>
    ensures joins { IfOk result (λ p. AreOutcomes (keyed by (document_of text.now).places) (outcome_in p.joins)) }
    ensures places { IfOk result (λ p. map place_view p.places.items ≡ keyed by (document_of text.now).places) }
    ensures text { IfOk result (λ p. p.text.items ≡ pooled_by by (new_texts (outcome_in p.joins)) text.now) }
    ensures left { IfOk result (λ p. map (λ k. k.now) p.left.items
        ≡ left_keys (free_start text.now) by (new_texts (outcome_in p.joins)) (document_of text.now).places) }
{
    let document = read_document(alloc, text)?;
    let places = keyed(alloc, by, document.places.as_slice())?;
    let joins = join_fonts(alloc, places.as_slice())?;
    let start = free_start(alloc, text)?;
    let lined = document.pooled(alloc, &start, by, places.as_slice(), &joins)?;
    Ok(PooledText {
        text: lined.text,
        places,
        joins,
        left: lined.left,
    })
}
