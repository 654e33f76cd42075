//! What becomes of the fonts of a document: those of one name are joined.

ghost use Rattle.std.specs.{Prelude.{◌≡◌, ℕ, List, Some, None, map, not, IfOk, IfErr, OnOk, if◌then◌else◌}, List.{list_all}};
ghost use Rattle.std.specs.{Option.{option_map, option_copied}, Str.{bytes_eq}};
ghost use Rattle.t1_font.specs.Answers.{Answers};
ghost use Rattle.t1_subset.specs.Rejoins.{NotRejoined};
ghost use Rattle.t1_document.specs.{Fonts.{canon_text}, Rewriting.{can_stand}};
ghost use Rattle.t1_document.specs.Joins.{fonts_of_places, wants_memory, text_for_places, kept_text, RejoinToText, OfNormalized, OfFonts, ComeTo, AreOutcomes, lacks_name};
ghost use Rattle.t1_document.specs.{Joins.{places_under, new_texts}, Groups.{places_in, outcome_in}, Texts.{text_in}, Views.{place_view}};

use crate::documents::Place;
use crate::fonts::is_memory;
use crate::groups::{Groups, groups_of};
use crate::rewriting::is_like;
use crate::texts::Texts;
use std::alloc::{AllocError, Global};
use std::collections::BTreeMap;
use std::fmt;
use t1_font::{Font, Form, ReadFault, Source, normalize_named, write};
use t1_join::push_item;
use t1_subset::{Conflict, RejoinFault, rejoin};

/// Why the places of a name keep their texts.
#[derive(PartialEq, Eq, Debug, Drop)]
pub enum Kept {
    /// A text spells no font. No place of [`read_document`](crate::read_document) has such a text.
    Unread(ReadFault),
    /// The fonts don't rejoin.
    Unlike(RejoinFault),
    /// The font that they rejoin to can't stand at one of the places ([`Place::can_stand`](crate::Place::can_stand)).
    Barred,
}

impl fmt::Display for Kept {
    ghost output = { λ why. Some (kept_text why) };

    fn fmt<W: fmt::Write>(&self, f: &mut fmt::Formatter<W>) -> fmt::Result {
        match self {
            Kept::Unread(fault) => write!(f, "{fault}"),
            Kept::Unlike(fault) => write!(f, "{fault}"),
            Kept::Barred => f.write_str("the joined font does not fit a place"),
        }
    }
}

/// What becomes of the fonts of a name.
#[derive(Drop)]
pub enum Outcome<'a> {
    /// All places have this text.
    Same(&'a [u8]),
    /// They get this text, the canonical one of the font that the fonts rejoin to.
    Joined(Vec<u8>),
    /// They keep their texts.
    Stays(Kept),
}

impl<'a> Outcome<'a> {
    /// The text that all places of the name get, unless they keep theirs.
    pub fn text(&self) -> Option<&[u8]>
        ensures { option_map (λ t. t.now) result ≡ text_for_places self.now }
    {
        match self {
            Outcome::Same(text) => Some(*text),
            Outcome::Joined(text) => Some(text.as_slice()),
            Outcome::Stays(_) => None,
        }
    }
}

/// Whether all of some places have this text.
fn all_have(text: &[u8], places: &[Place<'_>]) -> bool
    ensures { result ≡ list_all (λ q. bytes_eq text.now q.text) (map place_view places.now) }
{
    'places: for place in places {
        if text != place.text {
            return false;
        }
    }
    true
}

/// Whether a text can stand at all of some places.
fn stands(alloc: Global, text: &[u8], places: &[Place<'_>]) -> Result<bool, AllocError>
    ensures { IfOk result (λ b. b ≡ list_all (can_stand text.now) (map place_view places.now)) }
{
    let mut before = None;
    'places: for place in places {
        if !is_like(before, place) && !place.can_stand(alloc, text)? {
            return Ok(false);
        }
        before = Some(place);
    }
    Ok(true)
}

/// The fonts of places.
fn sources_of(alloc: Global, places: &[Place<'_>]) -> Result<Vec<Source>, ReadFault>
    ensures { Answers (λ v. v.items) result (fonts_of_places (map place_view places.now)) }
{
    let mut sources = Vec::with_capacity(alloc, places.len())?;
    'places: for place in places {
        let source = match place.source(alloc) {
            Ok(source) => source,
            Err(fault) => return Err(fault),
        };
        push_item(&mut sources, source)?;
    }
    Ok(sources)
}

/// The canonical text of a font.
fn canon_text(alloc: Global, font: &Font<'_>) -> Result<Vec<u8>, AllocError>
    ensures { IfOk result (λ v. v.items ≡ canon_text font.now) }
{
    let mut text = write(alloc, font, Form::Pfa)?;
    text.pop();
    Ok(text)
}

/// The canonical text of the font that sources rejoin to.
fn rejoined_text(alloc: Global, sources: &[Source]) -> Result<Vec<u8>, RejoinFault>
    ensures text { IfOk result (λ v. RejoinToText sources.now v.items) }
    ensures refused { IfErr result (NotRejoined sources.now) }
{
    let mut indices = Vec::new(alloc);
    let font = match rejoin(alloc, sources, &mut indices) {
        Ok(font) => font,
        Err(fault) => return Err(fault),
    };
    let text = canon_text(alloc, &font);
    drop(font);
    Ok(text?)
}

/// Whether a growth was refused.
fn wants_memory(fault: &RejoinFault) -> bool
    ensures { result ≡ wants_memory fault.now }
{
    matches!(fault, RejoinFault::Merge(Conflict::Memory))
}

/// What sources that were normalized come to, at these places.
fn of_normalized<'a>(
    alloc: Global,
    sources: &[Source],
    places: &[Place<'_>],
) -> Result<Outcome<'a>, AllocError>
    ensures { IfOk result (OfNormalized sources.now (map place_view places.now)) }
{
    match rejoined_text(alloc, sources) {
        Ok(text) => {
            if stands(alloc, text.as_slice(), places)? {
                Ok(Outcome::Joined(text))
            } else {
                Ok(Outcome::Stays(Kept::Barred))
            }
        }
        Err(fault) => {
            if wants_memory(&fault) {
                return Err(AllocError);
            }
            Ok(Outcome::Stays(Kept::Unlike(fault)))
        }
    }
}

/// What the fonts of places of this name come to.
fn of_fonts<'a>(alloc: Global, name: &[u8], places: &[Place<'_>]) -> Result<Outcome<'a>, AllocError>
    ensures { IfOk result (OfFonts name.now (map place_view places.now) (fonts_of_places (map place_view places.now))) }
{
    match sources_of(alloc, places) {
        Ok(sources) => {
            let normalized = normalize_named(alloc, sources, name)?;
            of_normalized(alloc, normalized.as_slice(), places)
        }
        Err(fault) => {
            if is_memory(&fault) {
                return Err(AllocError);
            }
            Ok(Outcome::Stays(Kept::Unread(fault)))
        }
    }
}

/// What the places of a name come to; nothing, if there are none.
///
/// If all have one text, it is that. Else the fonts that they spell are normalized, which takes the tags from their name and from
/// other words, get the name back, and rejoin ([`rejoin`]).
///
/// # Errors
///
/// Only want of memory.
pub(crate) fn join_places<'a>(
    alloc: Global,
    name: &[u8],
    places: &[Place<'a>],
) -> Result<Option<Outcome<'a>>, AllocError>
    ensures { IfOk result (ComeTo name.now (map place_view places.now)) }
{
    let Some((first, rest)) = places.split_first() else {
        return Ok(None);
    };
    if all_have(first.text, rest) {
        return Ok(Some(Outcome::Same(first.text)));
    }
    Ok(Some(of_fonts(alloc, name, places)?))
}

/// What the fonts of each name of a document come to.
#[derive(Drop)]
pub struct Joins<'a> {
    outcomes: BTreeMap<&'a [u8], Outcome<'a>>,
}

impl<'a> Joins<'a> {
    /// Of no names.
    fn new(alloc: Global) -> Joins<'a>
        ensures { (name : List ℕ) → outcome_in result name ≡ None }
    {
        Joins {
            outcomes: BTreeMap::new(alloc),
        }
    }

    /// What the fonts of a name come to; nothing, if no place has this name.
    pub fn get(&self, name: &[u8]) -> Option<&Outcome<'a>>
        ensures { option_copied result ≡ outcome_in self.now name.now }
    {
        self.outcomes.get(name)
    }

    /// The text that all places of a name get, unless they keep theirs.
    pub fn text(&self, name: &[u8]) -> Option<&[u8]>
        ensures { option_map (λ t. t.now) result ≡ new_texts (outcome_in self.now) name.now }
    {
        self.outcomes.get(name)?.text()
    }

    /// The new texts of the names of some places, those whose fonts come to one text.
    ///
    /// # Errors
    ///
    /// Only want of memory.
    pub fn new_texts<'n>(
        &'n self,
        alloc: Global,
        places: &[Place<'n>],
    ) -> Result<Texts<'n>, AllocError>
        ensures { IfOk result (λ t. (name : List ℕ) → text_in t name
            ≡ (if lacks_name name (map place_view places.now) then None else new_texts (outcome_in self.now) name)) }
    {
        let mut texts = Texts::new(alloc);
        'places: for place in places {
            match self.text(place.name) {
                Some(text) => texts.put(place.name, text)?,
                None => {}
            }
        }
        Ok(texts)
    }

    /// Notes what the fonts of a name come to.
    fn put(&mut self, name: &'a [u8], outcome: Outcome<'a>) -> Result<(), AllocError>
        ensures { OnOk result ((other : List ℕ) → outcome_in self.new other
            ≡ (if bytes_eq name.now other then Some outcome.entry else outcome_in self.old other)) }
    {
        match self.outcomes.insert(name, outcome) {
            Ok(_) => Ok(()),
            Err(_) => Err(AllocError),
        }
    }
}

/// What the places of a name come to.
fn outcome_of<'a>(
    alloc: Global,
    name: &[u8],
    groups: &Groups<'a>,
) -> Result<Option<Outcome<'a>>, AllocError>
    ensures { IfOk result (ComeTo name.now (places_in groups.now name.now)) }
{
    match groups.get(name) {
        Some(places) => join_places(alloc, name, places),
        None => Ok(None),
    }
}

/// What the fonts of each name among some places come to, where their groups are these.
fn joins_of<'a>(
    alloc: Global,
    places: &[Place<'a>],
    groups: &Groups<'a>,
) -> Result<Joins<'a>, AllocError>
    requires { (name : List ℕ) → places_in groups.now name
        ≡ places_under name (map place_view places.now) }
    ensures { IfOk result (λ j. AreOutcomes (map place_view places.now) (outcome_in j)) }
{
    let mut joins = Joins::new(alloc);
    'places: for place in places {
        if joins.get(place.name).is_none() {
            match outcome_of(alloc, place.name, groups)? {
                Some(outcome) => joins.put(place.name, outcome)?,
                None => {}
            }
        }
    }
    Ok(joins)
}

/// What the fonts of each name among some places, of one document or of several, come to.
///
/// If all places of a name have one text, it is that. Else the fonts of its places are normalized, which takes the tags from their
/// name and from other words, get the name back, and rejoin ([`rejoin`]); and their text has to fit each place
/// ([`Place::can_stand`]). Where that fails, the places keep their texts.
///
/// # Errors
///
/// Only want of memory.
pub fn join_fonts<'a>(alloc: Global, places: &[Place<'a>]) -> Result<Joins<'a>, AllocError>
    ensures { IfOk result (λ j. AreOutcomes (map place_view places.now) (outcome_in j)) }
{
    let groups = groups_of(alloc, places)?;
    joins_of(alloc, places, &groups)
}
