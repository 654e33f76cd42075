//! Marks: the lines by which a document says where its parts begin and end (Adobe's Document Structuring Conventions).

ghost use Rattle.std.specs.Prelude.{◌≡◌};
ghost use Rattle.t1_grammar.specs.Grammar.{fixed};
ghost use Rattle.t1_document.specs.Marks.{begins_with, kind_of, mark_behind, mark_of, holds_fonts, holds_data, is_document, same_kind};

use t1_bytes::texts::fixed_at;

/// Whether a mark begins a part of a document or ends it.
#[derive(Clone, Copy)]
pub enum Side {
    Begin,
    End,
}

/// The kind of part that a mark begins or ends.
#[derive(Clone, Copy)]
pub enum Kind {
    Font,
    ProcSet,
    Resource,
    Document,
    Data,
    Binary,
}

/// A mark: a line that begins with `%%Begin` or `%%End` and the word of a kind.
#[derive(Clone, Copy)]
pub struct Mark {
    pub side: Side,
    pub kind: Kind,
}

/// Whether bytes begin with this word.
fn begins_with(bytes: &[u8], word: &[u8]) -> bool
    ensures { result ≡ begins_with word.now bytes.now }
{
    fixed_at(bytes, word).is_some()
}

/// The kind whose word bytes begin with.
#[tactic(auto, unfolding(crate::specs::Marks::kind_of))]
fn kind_of(bytes: &[u8]) -> Option<Kind>
    ensures { result ≡ kind_of bytes.now }
{
    if begins_with(bytes, b"Font") {
        Some(Kind::Font)
    } else if begins_with(bytes, b"ProcSet") {
        Some(Kind::ProcSet)
    } else if begins_with(bytes, b"Resource") {
        Some(Kind::Resource)
    } else if begins_with(bytes, b"Document") {
        Some(Kind::Document)
    } else if begins_with(bytes, b"Data") {
        Some(Kind::Data)
    } else if begins_with(bytes, b"Binary") {
        Some(Kind::Binary)
    } else {
        None
    }
}

/// The mark whose kind stands behind this word.
fn mark_behind(line: &[u8], word: &[u8], side: Side) -> Option<Mark>
    ensures { result ≡ mark_behind side ((fixed word.now).read line.now) }
{
    let (_, rest) = fixed_at(line, word)?;
    let kind = kind_of(rest)?;
    Some(Mark { side, kind })
}

/// The mark that a line is.
#[tactic(auto, unfolding(crate::specs::Marks::mark_of))]
pub fn mark_of(line: &[u8]) -> Option<Mark>
    ensures { result ≡ mark_of line.now }
{
    match mark_behind(line, b"%%Begin", Side::Begin) {
        Some(mark) => Some(mark),
        None => mark_behind(line, b"%%End", Side::End),
    }
}

impl Kind {
    /// Whether what stands between marks of this kind may be a font.
    pub(crate) fn holds_fonts(self) -> bool
        ensures { result ≡ holds_fonts self }
    {
        matches!(self, Kind::Font | Kind::ProcSet | Kind::Resource)
    }

    /// Whether what stands between marks of this kind is a number of lines or bytes.
    pub(crate) fn holds_data(self) -> bool
        ensures { result ≡ holds_data self }
    {
        matches!(self, Kind::Data | Kind::Binary)
    }

    /// Whether what stands between marks of this kind is another document.
    pub(crate) fn is_document(self) -> bool
        ensures { result ≡ is_document self }
    {
        matches!(self, Kind::Document)
    }

    /// Whether two kinds are one.
    pub(crate) fn is(self, other: Kind) -> bool
        ensures { result ≡ same_kind self other }
    {
        match self {
            Kind::Font => matches!(other, Kind::Font),
            Kind::ProcSet => matches!(other, Kind::ProcSet),
            Kind::Resource => matches!(other, Kind::Resource),
            Kind::Document => matches!(other, Kind::Document),
            Kind::Data => matches!(other, Kind::Data),
            Kind::Binary => matches!(other, Kind::Binary),
        }
    }
}

/// What is open: how many documents inside the whole one, and how many parts of raw data.
#[derive(Clone, Copy)]
pub struct Open {
    pub documents: usize,
    pub raw: usize,
}
