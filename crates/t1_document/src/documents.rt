//! A document as its places, which hold fonts, and the bytes before, between and behind them.

ghost use Rattle.std.specs.{Prelude.{◌≡◌, ◌+◌, ◌<◌, ◌^◌, [], length, IfOk}, List.{AllByRecursion}, Option.{option_map}};
ghost use Rattle.t1_font.specs.{Answers.{Answers}, FontModel.{clamp}, ReadFont.{read_font_widely}};
ghost use Rattle.t1_document.specs.{Marks.{open_count}, Stretches.{stretches}};
ghost use Rattle.t1_document.specs.Documents.{open_behind, clamped, begins_part, ends_part, encloses, next_mark, place_with, place_at, place_bytes, document_bytes};
ghost use Rattle.t1_document.specs.{Documents.{document_of}, Laws.{SpellsPlace}, Views.{stretch_view, font_view, place_view, document_view}};

use crate::fonts::{FontText, font_in};
use crate::lines::line_of;
use crate::marks::{Kind, Mark, Open, Side, mark_of};
use crate::stretches::{Stretch, first_stretch, unmarked_len};
use std::alloc::{AllocError, Global};
use t1_font::{ReadFault, Source, read_wide};

/// A place of a font in a document: what stands between a mark `%%BeginFont`, `%%BeginProcSet` or `%%BeginResource` and the
/// mark that ends it, where no raw data is open and a font text comes first.
#[derive(Clone, Copy)]
pub struct Place<'a> {
    /// The bytes between the place before it, or the start of the document, and its font text.
    pub before: &'a [u8],
    /// The kind of its marks.
    pub kind: Kind,
    /// How many marks `%%BeginDocument` are open around it.
    pub depth: usize,
    /// The name of its font, which is the key that `definefont` gets; its mark may say another.
    pub name: &'a [u8],
    /// Its font text, from `%!` through `cleartomark`.
    pub text: &'a [u8],
    /// What stands between the font text and the mark that ends the place.
    pub rest: &'a [u8],
}

impl<'a> Place<'a> {
    /// Reads the font of the place.
    ///
    /// # Errors
    ///
    /// For a place of [`read_document`] only want of memory, `Memory`; else those of [`read_wide`](t1_font::read_wide).
    pub fn source(&self, alloc: Global) -> Result<Source, ReadFault>
        ensures { Answers (λ f. f) result (read_font_widely self.now.text.now) }
    {
        read_wide(alloc, self.text)
    }

    /// The offset of its font text where so many bytes stand before the place, as far as 64 bits hold it.
    pub fn text_offset(&self, at: usize) -> usize
        ensures { result ≡ clamp (at + length self.now.before.now) }
    {
        at.saturating_add(self.before.len())
    }

    /// The offset of what stands behind the place.
    pub fn end_offset(&self, at: usize) -> usize
        ensures { result ≡ clamp (at + length (place_bytes (place_view self.now))) }
    {
        at.saturating_add(self.before.len())
            .saturating_add(self.text.len())
            .saturating_add(self.rest.len())
    }
}

/// A document: its places in the order of the text, and the bytes behind the last one.
#[derive(Drop)]
pub struct Document<'a> {
    pub places: Vec<Place<'a>>,
    pub last: &'a [u8],
}

impl Side {
    /// Whether a mark of this side begins a part.
    fn begins(self) -> bool
        ensures { result ≡ begins_part self }
    {
        matches!(self, Side::Begin)
    }

    /// Whether a mark of this side ends a part.
    fn ends(self) -> bool
        ensures { result ≡ ends_part self }
    {
        matches!(self, Side::End)
    }
}

/// One more behind a mark that begins a part, one fewer behind one that ends it, but never fewer than none; as far as 64 bits count.
fn counted(side: Side, n: usize) -> usize
    ensures { result ≡ clamp (open_count side n) }
{
    match side {
        Side::Begin => n.saturating_add(1),
        Side::End => n.saturating_sub(1),
    }
}

impl Open {
    /// What is open behind a mark, as far as 64 bits count it: no text in memory has more marks.
    pub fn behind(self, mark: Mark) -> Open
        ensures { result ≡ clamped (open_behind self mark) }
    {
        let mut open = self;
        if mark.kind.is_document() {
            open.documents = counted(mark.side, self.documents);
        }
        if mark.kind.holds_data() {
            open.raw = counted(mark.side, self.raw);
        }
        open
    }
}

/// Whether a mark begins a part that may be a font, and the next one ends a part of its kind.
fn encloses(mark: Mark, next: Option<Mark>) -> bool
    ensures { result ≡ encloses mark next }
{
    match next {
        Some(next) => {
            mark.side.begins()
                && mark.kind.holds_fonts()
                && next.side.ends()
                && mark.kind.is(next.kind)
        }
        None => false,
    }
}

/// The mark that bytes begin with.
fn mark_at(bytes: &[u8]) -> Option<Mark>
    requires { (stretches bytes.now).0 ≡ [] }
    ensures { result ≡ next_mark (stretches bytes.now).1 }
{
    let (line, _) = line_of(bytes);
    mark_of(line)
}

/// The font text of a stretch, if the stretch is a place.
fn font_at<'a>(
    alloc: Global,
    around: Open,
    stretch: Stretch<'a>,
    next: Option<Mark>,
) -> Result<Option<FontText<'a>>, AllocError>
    ensures { IfOk result (λ o. option_map (λ f. place_with around (stretch_view stretch.entry) (font_view f)) o
        ≡ place_at around (stretch_view stretch.entry) next) }
{
    if encloses(stretch.mark, next) && around.raw == 0 {
        font_in(alloc, stretch.text)
    } else {
        Ok(None)
    }
}

/// The places of a document, in the order of the text.
///
/// A line begins at the start and behind each CR, LF and CR LF. A place stands between a line that begins with `%%BeginFont`,
/// `%%BeginProcSet` or `%%BeginResource` and the next line that begins with `%%Begin` or `%%End` and one of the words `Font`,
/// `ProcSet`, `Resource`, `Document`, `Data` and `Binary`, if that line ends a part of its kind and no part `Data` or `Binary`
/// is open. It begins with a font text: `%!`, a font that [`read_wide`](t1_font::read_wide) reads and that has a name, whose
/// cipher is hexadecimal, through `cleartomark`.
///
/// # Errors
///
/// Only want of memory.
pub fn read_document(alloc: Global, text: &[u8]) -> Result<Document<'_>, AllocError>
    ensures exact { IfOk result (λ d. document_view d ≡ document_of text.now) }
    ensures whole { IfOk result (λ d. document_bytes (document_view d) ≡ text.now) }
    ensures spell { IfOk result (λ d. AllByRecursion SpellsPlace (document_view d).places) }
{
    let mut places = Vec::new(alloc);
    let mut around = Open {
        documents: 0,
        raw: 0,
    };
    let mut here = text;
    let (_, mut rest) = text.split_at(unmarked_len(text));
    'stretches: while let Some((stretch, behind)) = first_stretch(rest) {
        if let Some(font) = font_at(alloc, around, stretch, mark_at(behind))? {
            let (before, _) = here.split_at(here.len() - behind.len() - stretch.text.len());
            places.push(Place {
                before,
                kind: stretch.mark.kind,
                depth: around.documents,
                name: font.name,
                text: font.text,
                rest: font.rest,
            })?;
            here = behind;
        }
        around = around.behind(stretch.mark);
        rest = behind;
    }
    Ok(Document { places, last: here })
}
