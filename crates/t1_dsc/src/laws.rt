//! Laws of the joined document.

ghost use Rattle.t1_dsc.specs.Laws.{PartsAreWhole, LinesStay, PagesHold, NamesAreFree, PagesAreRead};

/// The header of a document has comments alone, and it, the head, the pages and the trailer are the whole document, byte for byte.
pub fn parts_are_whole()
    ensures { PartsAreWhole }
{}

/// A line with an end stays as it is, but for `% ` before a line of structure, and inside an embedded document and inside data no
/// line is one of structure.
pub fn lines_stay()
    ensures { LinesStay }
{}

/// The bytes of a page are its line, its comments, and between the two procedures its document's head, its own line, its setup and its
/// text, and then its document's trailer; comments, setup and text are all lines of the page, in their order.
pub fn pages_hold()
    ensures { PagesHold }
{}

/// What the names of the joined document's own begin with stands neither in the fonts nor in any of the documents.
pub fn names_are_free()
    ensures { NamesAreFree }
{}

/// The joined document, read again, leaves nothing open, and its structure is one header, one prolog, one setup, as many pages as the
/// documents become, numbered from 1 on, and one trailer, in this order.
pub fn pages_are_read()
    ensures { PagesAreRead }
{}
