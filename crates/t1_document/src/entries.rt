//! The entries of a pool: the fonts that stand before the documents.

ghost use Rattle.std.specs.{Prelude.{◌≡◌, ◌++◌, ℕ, List, map, codes, is_some, true, Some, None, IfOk, OnOk, if◌then◌else◌}, List.{list_all}};
ghost use Rattle.std.specs.Option.{option_map};
ghost use Rattle.t1_document.specs.{Joins.{new_texts}, Groups.{outcome_in, places_in}, Texts.{text_in}, Views.{font_view, place_view, entry_view}};
ghost use Rattle.t1_text.specs.FontTest.{taken_test};
ghost use Rattle.t1_document.specs.Pooling.{behind_text, text_part, renaming, entry_bytes, asks, leaves, is_so, named_by, entry_name, takes_line};
ghost use Rattle.t1_document.specs.Pooling.{entry_for, first_of_several, first_from, entry_from, entry_part, end_added, entries, line_ends};

use crate::documents::Place;
use crate::fonts::{FontText, font_in};
use crate::groups::Groups;
use crate::joins::Joins;
use crate::own_names::{can_give, clashes, line_end, push_defined, push_line, stands_in};
use crate::rewriting::has_mark;
use crate::texts::Texts;
use std::alloc::{AllocError, Global};
use t1_font::{Part, ReadFault, Source, read_wide};
use t1_text::font_test::taken_test;
use t1_text::words::regular_comes;

/// A font text before the documents, the name of its font, and whether the text leaves an answer on the operand stack.
#[derive(Drop)]
pub(crate) struct Entry<'n> {
    pub(crate) name: Vec<u8>,
    pub(crate) text: &'n [u8],
    pub(crate) answers: bool,
}

/// What follows the text of an entry, and takes its answer.
fn behind_text(answers: bool) -> &'static [u8]
    ensures { result.now ≡ behind_text answers }
{
    if answers { b"{restore}if\n" } else { b"\n" }
}

/// Whether a text asks PostScript for the fonts that are loaded.
fn asks(text: &[u8]) -> bool
    ensures { result ≡ asks text.now }
{
    stands_in(b"FontDirectory", text)
}

/// Whether the head of a font has the test that it loses when it is mended.
fn has_test(alloc: Global, source: &Source) -> Result<bool, AllocError>
    ensures { IfOk result (λ b. b ≡ is_some (taken_test source.now.shell.head)) }
{
    let font = source.font(alloc)?;
    Ok(taken_test(alloc, font.text(Part::Head))?.is_some())
}

/// What a font leaves whose text asks: the answer of its test, if that is in its head. Else it isn't known.
fn answer(has_test: bool) -> Option<bool>
    ensures { result ≡ (if has_test then Some true else None) }
{
    if has_test { Some(true) } else { None }
}

/// Whether a font text leaves an answer on the operand stack, if it is known.
fn leaves(alloc: Global, text: &[u8]) -> Result<Option<bool>, AllocError>
    ensures { IfOk result (λ o. o ≡ leaves text.now) }
{
    if !asks(text) {
        return Ok(Some(false));
    }
    match read_wide(alloc, text) {
        Ok(source) => Ok(answer(has_test(alloc, &source)?)),
        Err(ReadFault::Memory) => Err(AllocError),
        Err(_) => Ok(None),
    }
}

/// Whether that is known, and so.
fn is_so(answers: bool, left: Option<bool>) -> bool
    ensures { result ≡ is_so answers left }
{
    match left {
        Some(left) => { if answers { left } else { !left } }
        None => false,
    }
}

/// The name of a font that was found, if it is that of this text, with this behind it.
fn named_by<'a>(text: &[u8], rest: &[u8], found: Option<FontText<'a>>) -> Option<&'a [u8]>
    ensures { option_map (λ n. n.now) result ≡ named_by text.now rest.now (option_map font_view found.entry) }
{
    match found {
        Some(font) if font.text == text && font.rest == rest => Some(font.name),
        _ => None,
    }
}

/// The name of the font of a text that can stand before the documents, with this behind it.
fn entry_name(
    alloc: Global,
    start: &[u8],
    text: &[u8],
    rest: &[u8],
) -> Result<Option<Vec<u8>>, AllocError>
    ensures { IfOk result (λ o. option_map (λ n. n.items) o ≡ entry_name start.now text.now rest.now) }
{
    let mut whole = Vec::with_capacity(alloc, text.len().saturating_add(rest.len()))?;
    whole.extend_from_slice(text)?;
    whole.extend_from_slice(rest)?;
    if has_mark(&whole) {
        return Ok(None);
    }
    match named_by(text, rest, font_in(alloc, &whole)?) {
        Some(name) if !clashes(start, name) => Ok(Some(Vec::from_slice(alloc, name)?)),
        _ => Ok(None),
    }
}

/// Whether a place takes its line.
fn takes_line(
    alloc: Global,
    start: &[u8],
    key: &[u8],
    answers: bool,
    place: &Place<'_>,
) -> Result<bool, AllocError>
    ensures { IfOk result (λ b. b ≡ takes_line start.now key.now answers (place_view place.now)) }
{
    if !is_so(answers, leaves(alloc, place.text)?) || regular_comes(place.rest) {
        return Ok(false);
    }
    let mut line = Vec::new(alloc);
    push_line(&mut line, start, line_end(answers), place.name, key)?;
    line.extend_from_slice(place.rest)?;
    Ok(can_give(&line))
}

/// Whether each of some places takes its line.
fn all_take_lines(
    alloc: Global,
    start: &[u8],
    key: &[u8],
    answers: bool,
    places: &[Place<'_>],
) -> Result<bool, AllocError>
    ensures { IfOk result (λ b. b ≡ list_all (takes_line start.now key.now answers) (map place_view places.now)) }
{
    'places: for place in places {
        if !takes_line(alloc, start, key, answers, place)? {
            return Ok(false);
        }
    }
    Ok(true)
}

/// The entry of this text, if each of these places takes its line.
fn entry_for<'n>(
    alloc: Global,
    start: &[u8],
    key: &[u8],
    text: &'n [u8],
    answers: bool,
    places: &[Place<'_>],
) -> Result<Option<Entry<'n>>, AllocError>
    ensures { IfOk result (λ o. option_map entry_view o
        ≡ entry_for start.now key.now text.now answers (map place_view places.now)) }
{
    if !is_so(answers, leaves(alloc, text)?) {
        return Ok(None);
    }
    if !all_take_lines(alloc, start, key, answers, places)? {
        return Ok(None);
    }
    match entry_name(alloc, start, text, behind_text(answers))? {
        Some(name) => Ok(Some(Entry {
            name,
            text,
            answers,
        })),
        None => Ok(None),
    }
}

/// The first of several places.
fn first_of_several<'p, 'a>(places: &'p [Place<'a>]) -> Option<&'p Place<'a>>
    ensures { option_map (λ p. place_view p.now) result ≡ first_of_several (map place_view places.now) }
{
    match places {
        [first, _, ..] => Some(first),
        _ => None,
    }
}

/// From how many places on a key has an entry.
#[derive(Clone, Copy)]
pub enum Least {
    /// One.
    One,
    /// Two: a font that stands once stays where it is.
    Two,
}

/// The first of places, if there are so many.
fn first_from<'p, 'a>(least: Least, places: &'p [Place<'a>]) -> Option<&'p Place<'a>>
    ensures { option_map (λ p. place_view p.now) result ≡ first_from least (map place_view places.now) }
{
    match least {
        Least::One => places.first(),
        Least::Two => first_of_several(places),
    }
}

/// The entry of a key that has this text and these places.
fn entry_of<'n>(
    alloc: Global,
    least: Least,
    start: &[u8],
    key: &[u8],
    text: Option<&'n [u8]>,
    places: &[Place<'_>],
) -> Result<Option<Entry<'n>>, AllocError>
    ensures { IfOk result (λ o. option_map entry_view o
        ≡ entry_from least start.now key.now (option_map (λ t. t.now) text.entry) (map place_view places.now)) }
{
    let Some(text) = text else {
        return Ok(None);
    };
    let Some(first) = first_from(least, places) else {
        return Ok(None);
    };
    match leaves(alloc, first.text)? {
        Some(answers) => entry_for(alloc, start, key, text, answers, places),
        None => Ok(None),
    }
}

/// Adds the line that begins the part of a font's text.
fn push_begin(out: &mut Vec<u8>, name: &[u8]) -> Result<(), AllocError>
    ensures { OnOk result (out.new.items ≡ out.old.items ++ (codes "%%BeginResource: font " ++ (name.now ++ codes "\n"))) }
{
    out.extend_from_slice(b"%%BeginResource: font ")?;
    out.extend_from_slice(name)?;
    out.push(b'\n')?;
    Ok(())
}

/// Adds the part of an entry's text.
fn push_text_part(out: &mut Vec<u8>, entry: &Entry<'_>) -> Result<(), AllocError>
    ensures { OnOk result (out.new.items ≡ out.old.items ++ text_part (entry_view entry.now)) }
{
    push_begin(out, entry.name.as_slice())?;
    out.extend_from_slice(entry.text)?;
    out.extend_from_slice(behind_text(entry.answers))?;
    out.extend_from_slice(b"%%EndResource\n")?;
    Ok(())
}

/// Adds that a font gets the pool's name of a key and loses its own.
fn push_renaming(out: &mut Vec<u8>, start: &[u8], key: &[u8], name: &[u8]) -> Result<(), AllocError>
    ensures { OnOk result (out.new.items ≡ out.old.items ++ renaming start.now key.now name.now) }
{
    push_defined(out, (start, key), (b"/", name))?;
    out.extend_from_slice(b"\nsystemdict/undefinefont known{/")?;
    out.extend_from_slice(name)?;
    out.extend_from_slice(b" undefinefont}if\n")
}

/// Adds the entry of a key.
fn push_entry(
    out: &mut Vec<u8>,
    start: &[u8],
    key: &[u8],
    entry: &Entry<'_>,
) -> Result<(), AllocError>
    ensures { OnOk result (out.new.items ≡ out.old.items ++ entry_bytes start.now key.now (entry_view entry.now)) }
{
    push_text_part(out, entry)?;
    push_renaming(out, start, key, entry.name.as_slice())
}

/// The entry of a key, by what its fonts come to, and its places.
fn entry_in<'j>(
    alloc: Global,
    least: Least,
    start: &[u8],
    key: &[u8],
    joins: &'j Joins<'_>,
    groups: &Groups<'_>,
) -> Result<Option<Entry<'j>>, AllocError>
    ensures { IfOk result (λ o. option_map entry_view o
        ≡ entry_from least start.now key.now (new_texts (outcome_in joins.now) key.now) (places_in groups.now key.now)) }
{
    match groups.get(key) {
        Some(places) => entry_of(alloc, least, start, key, joins.text(key), places),
        None => Ok(None),
    }
}

/// What stands before the documents, but for its first line, and of each key that has an entry there how its lines end.
#[derive(Drop)]
pub(crate) struct Parts<'a> {
    pub(crate) bytes: Vec<u8>,
    pub(crate) ends: Texts<'a>,
}

impl<'a> Parts<'a> {
    /// Adds the entry of a key, if there is one.
    fn add(
        &mut self,
        start: &[u8],
        key: &'a [u8],
        entry: &Option<Entry<'_>>,
    ) -> Result<(), AllocError>
        ensures bytes { OnOk result (self.new.bytes.items
            ≡ self.old.bytes.items ++ entry_part start.now key.now (option_map entry_view entry.now)) }
        ensures ends { OnOk result ((other : List ℕ) → text_in self.new.ends other
            ≡ end_added (option_map entry_view entry.now) key.now other (text_in self.old.ends other)) }
    {
        match entry {
            Some(entry) => {
                push_entry(&mut self.bytes, start, key, entry)?;
                self.ends.put(key, line_end(entry.answers))?;
                Ok(())
            }
            None => Ok(()),
        }
    }
}

/// The entries of keys.
pub(crate) fn parts_of<'a>(
    alloc: Global,
    least: Least,
    start: &[u8],
    keys: &[&'a [u8]],
    joins: &Joins<'_>,
    groups: &Groups<'_>,
) -> Result<Parts<'a>, AllocError>
    ensures bytes { IfOk result (λ x. x.bytes.items ≡ entries start.now (λ key.
        entry_from least start.now key (new_texts (outcome_in joins.now) key) (places_in groups.now key)) (map (λ k. k.now) keys.now)) }
    ensures ends { IfOk result (λ x. (name : List ℕ) → text_in x.ends name ≡ line_ends (λ key.
        entry_from least start.now key (new_texts (outcome_in joins.now) key) (places_in groups.now key)) (map (λ k. k.now) keys.now) name) }
{
    let mut parts = Parts {
        bytes: Vec::new(alloc),
        ends: Texts::new(alloc),
    };
    'keys: for key in keys {
        let entry = entry_in(alloc, least, start, *key, joins, groups)?;
        parts.add(start, *key, &entry)?;
    }
    Ok(parts)
}
