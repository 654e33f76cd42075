//! The lines of a document, and what they are in its structure.

ghost use Rattle.std.specs.Prelude.{◌≡◌, ◌+◌, ◌<◌, ◌^◌, map, IfOk};
ghost use Rattle.t1_document.specs.Marks.{begins_with};
ghost use Rattle.t1_dsc.specs.{Structure.{is_structure, role_of, is_clear, role_in, same_role, open_past, lines_in, left_open}, Views.{line_view}};

use std::alloc::{AllocError, Global};
use t1_bytes::texts::fixed_at;
use t1_document::{Open, line_of, mark_of};

/// What a line is in the structure of its document.
#[derive(Clone, Copy)]
pub enum Role {
    /// It belongs to no structure, or an embedded document or data is open there.
    Text,
    /// It begins a page.
    Page,
    /// It begins the trailer, or ends the document.
    Trailer,
    /// It ends the setup of a page.
    SetupEnd,
    /// It begins another part, or ends it, or tells how many pages there are.
    Structure,
}

/// A line with its end, and what it is.
#[derive(Clone, Copy)]
pub(crate) struct Line<'a> {
    pub(crate) text: &'a [u8],
    pub(crate) role: Role,
}

/// The lines of a document, and what it leaves open.
#[derive(Drop)]
pub(crate) struct Lines<'a> {
    pub(crate) lines: Vec<Line<'a>>,
    pub(crate) state: Open,
}

/// Whether a line begins with this word.
pub(crate) fn begins_with(line: &[u8], word: &[u8]) -> bool
    ensures { result ≡ begins_with word.now line.now }
{
    fixed_at(line, word).is_some()
}

/// Whether a line begins a part other than a page and the trailer, or ends it, or tells how many pages there are.
fn is_structure(line: &[u8]) -> bool
    ensures { result ≡ is_structure line.now }
{
    begins_with(line, b"%%Pages:")
        || begins_with(line, b"%%EndComments")
        || begins_with(line, b"%%BeginDefaults")
        || begins_with(line, b"%%EndDefaults")
        || begins_with(line, b"%%BeginProlog")
        || begins_with(line, b"%%EndProlog")
        || begins_with(line, b"%%BeginSetup")
        || begins_with(line, b"%%EndSetup")
        || begins_with(line, b"%%BeginPageSetup")
}

/// What a line is where nothing is open.
#[tactic(auto, unfolding(crate::specs::Structure::role_of))]
fn role_of(line: &[u8]) -> Role
    ensures { result ≡ role_of line.now }
{
    if begins_with(line, b"%%Page:") {
        Role::Page
    } else if begins_with(line, b"%%Trailer") || begins_with(line, b"%%EOF") {
        Role::Trailer
    } else if begins_with(line, b"%%EndPageSetup") {
        Role::SetupEnd
    } else if is_structure(line) {
        Role::Structure
    } else {
        Role::Text
    }
}

/// Whether no embedded document and no data is open.
fn is_clear(state: Open) -> bool
    ensures { result ≡ is_clear state }
{
    state.documents == 0 && state.raw == 0
}

/// What a line is where this is open.
fn role_in(state: Open, line: &[u8]) -> Role
    ensures { result ≡ role_in state line.now }
{
    if is_clear(state) {
        role_of(line)
    } else {
        Role::Text
    }
}

/// What is open behind a line.
fn open_past(state: Open, line: &[u8]) -> Open
    requires documents { state.documents + 1 < 2 ^ 64 }
    requires raw { state.raw + 1 < 2 ^ 64 }
    ensures { result ≡ open_past state line.now }
{
    match mark_of(line) {
        Some(mark) => state.behind(mark),
        None => state,
    }
}

impl Role {
    /// Whether two roles are one.
    pub(crate) fn is(self, other: Role) -> bool
        ensures { result ≡ same_role self other }
    {
        match self {
            Role::Text => matches!(other, Role::Text),
            Role::Page => matches!(other, Role::Page),
            Role::Trailer => matches!(other, Role::Trailer),
            Role::SetupEnd => matches!(other, Role::SetupEnd),
            Role::Structure => matches!(other, Role::Structure),
        }
    }
}

/// Reads the lines of a document.
pub(crate) fn read_lines<'a>(alloc: Global, text: &'a [u8]) -> Result<Lines<'a>, AllocError>
    ensures lines { IfOk result (λ r. map line_view r.lines.items ≡ lines_in text.now) }
    ensures state { IfOk result (λ r. r.state ≡ left_open text.now) }
{
    let mut lines = Vec::new(alloc);
    let mut state = Open {
        documents: 0,
        raw: 0,
    };
    let mut rest = text;
    'lines: while !rest.is_empty() {
        let (line, behind) = line_of(rest);
        let role = role_in(state, line);
        lines.push(Line { text: line, role })?;
        state = open_past(state, line);
        rest = behind;
    }
    Ok(Lines { lines, state })
}
