//! The numbers by which C knows forms, ways of pooling, refusals, and the parts of a font.
ghost use Rattle.std.specs.Prelude.{◌≡◌};
ghost use Rattle.t1_c.specs.Numbers.{form_at, pooling_at, number_of, font_number, merge_number, list_number, join_number, part_number, detail_of};

use t1_cmd::{Pooling, Reason};
use t1_font::{Form, ReadFault};
use t1_join::{JoinFault, ListFault};
use t1_subset::{Conflict, ShellPart};

/// The call was answered.
pub(crate) const OK: u32 = 0;
/// A growth was refused.
pub(crate) const MEMORY: u32 = 1;
/// An argument has no meaning.
pub(crate) const BAD_CALL: u32 = 2;

/// The form of a number.
pub(crate) fn form_of(form: u32) -> Option<Form>
    ensures { result ≡ form_at form }
{
    match form {
        0 => Some(Form::Pfa),
        1 => Some(Form::Pfb),
        _ => None,
    }
}

/// What a number says of how documents are pooled.
pub(crate) fn pooling_of(pooling: u32) -> Option<Pooling>
    ensures { result ≡ pooling_at pooling }
{
    let (tags, dsc) = match pooling {
        0 => (false, false),
        1 => (true, false),
        2 => (false, true),
        3 => (true, true),
        _ => return None,
    };
    Some(Pooling { tags, dsc })
}

// The number of a fault of reading a font.
fn font_number(fault: &ReadFault) -> u32
    ensures { result ≡ font_number fault.now }
{
    match fault {
        ReadFault::TooLong => 3,
        ReadFault::BadSegment { .. } => 10,
        ReadFault::NoEexec => 11,
        ReadFault::ShortCipher => 12,
        ReadFault::NoEncoding => 13,
        ReadFault::BadEncoding { .. } => 14,
        ReadFault::NoCharStrings => 15,
        ReadFault::BadLenIV => 16,
        ReadFault::BadSubrs { .. } => 17,
        ReadFault::BadGlyphs { .. } => 18,
        ReadFault::Hybrid => 19,
        ReadFault::NoClosefile => 20,
        ReadFault::NoNotdef => 21,
        ReadFault::Limit => 22,
        ReadFault::Memory => MEMORY,
    }
}

// The number of a conflict of fonts.
fn merge_number(conflict: &Conflict) -> u32
    ensures { result ≡ merge_number conflict.now }
{
    match conflict {
        Conflict::Shell { .. } => 30,
        Conflict::Code { .. } => 31,
        Conflict::Glyph { .. } => 32,
        Conflict::Part { .. } => 33,
        Conflict::Subr { .. } => 34,
        Conflict::Limit => 35,
        Conflict::Memory => MEMORY,
        Conflict::Empty => 36,
    }
}

// The number of a fault of reading a listing.
fn list_number(fault: &ListFault) -> u32
    ensures { result ≡ list_number fault.now }
{
    match fault {
        ListFault::BadLine { .. } => 40,
        ListFault::Repeated { .. } => 41,
        ListFault::Memory => MEMORY,
    }
}

// The number of a conflict of listings.
fn join_number(fault: &JoinFault) -> u32
    ensures { result ≡ join_number fault.now }
{
    match fault {
        JoinFault::Subr { .. } => 42,
        JoinFault::Glyph { .. } => 43,
        JoinFault::Memory => MEMORY,
    }
}

/// The number of a reason.
pub(crate) fn number_of(reason: &Reason) -> u32
    ensures { result ≡ number_of reason.now }
{
    match reason {
        Reason::TooLong => 3,
        Reason::Memory => MEMORY,
        Reason::List(fault) => list_number(fault),
        Reason::Join(fault) => join_number(fault),
        Reason::Font(fault) => font_number(fault),
        Reason::NoGlyph { .. } => 4,
        Reason::NoCode { .. } => 5,
        Reason::NoFont { .. } => 6,
        Reason::TooManyTokens => 7,
        Reason::Document(_) => 8,
        Reason::Lacks { .. } => 37,
        Reason::Merge(conflict) => merge_number(conflict),
    }
}

// The number of a part of a font.
fn part_number(part: ShellPart) -> u64
    ensures { result ≡ part_number part }
{
    match part {
        ShellPart::Head => 0,
        ShellPart::Encoding => 1,
        ShellPart::ClearTail => 2,
        ShellPart::Private => 3,
        ShellPart::SubrsTable => 4,
        ShellPart::SubrsWords => 5,
        ShellPart::Middle => 6,
        ShellPart::GlyphsWords => 7,
        ShellPart::Tail => 8,
    }
}

/// The offset, code, index, line or part that a reason names; else 0.
pub(crate) fn detail_of(reason: &Reason) -> u64
    ensures { result ≡ detail_of reason.now }
{
    match reason {
        Reason::Font(
            ReadFault::BadSegment { at }
            | ReadFault::BadEncoding { at }
            | ReadFault::BadSubrs { at }
            | ReadFault::BadGlyphs { at },
        ) => *at as u64,
        Reason::NoCode { code } => u64::from(*code),
        Reason::Lacks { index, .. } => u64::from(*index),
        Reason::Merge(Conflict::Shell { part }) => part_number(*part),
        Reason::Merge(Conflict::Code { code }) => u64::from(*code),
        Reason::Merge(Conflict::Subr { index, .. }) => u64::from(*index),
        Reason::List(ListFault::BadLine { line } | ListFault::Repeated { line }) => *line as u64,
        Reason::Join(JoinFault::Subr { index }) => u64::from(*index),
        _ => 0,
    }
}
