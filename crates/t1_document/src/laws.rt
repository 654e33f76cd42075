//! Laws of documents.

ghost use Rattle.t1_document.specs.Laws.{StretchesOfText, ReadAgain, DocumentOfText, PlacesSpell, JoinedDocuments, RewrittenIsRead, MarksStay, OthersStay};
ghost use Rattle.t1_document.specs.Laws.{LevelRenews, CanonStands, OwnTextsStand, OwnTextsStay, LevelledTwice, LevelledApart};
ghost use Rattle.t1_document.specs.JoinLaws.{NewTextsDraw, NewTextsStand, OneOutcome, OneLevelled, LevelledAgain, LevelledTogether, InAnyOrder};
ghost use Rattle.t1_document.specs.{PoolLaws.{Pooled}, ApartLaws.{PooledApart}};

/// The stretches of a text, joined, are the text.
pub fn stretches_of_text()
    ensures { StretchesOfText }
{}

/// Stretches that are those of a text are read again.
pub fn read_again()
    ensures { ReadAgain }
{}

/// The places of a document and the bytes before, between and behind them are the document.
pub fn document_of_text()
    ensures { DocumentOfText }
{}

/// Each place of a document spells a font, whose head says the place's name.
pub fn places_spell()
    ensures { PlacesSpell }
{}

/// The document of a text that leaves nothing open and of a text behind it is that of both.
pub fn joined_documents()
    ensures { JoinedDocuments }
{}

/// What is written for new texts is read again as it was meant: each place has its name, kind, depth, rest and the bytes before
/// it, and those whose names are not refused have the new texts.
pub fn rewritten_is_read()
    ensures { RewrittenIsRead }
{}

/// The marks of a document stay where its fonts get new texts, each in its line; and each byte stays outside the font texts
/// that become something else.
pub fn others_stay()
    ensures marks { MarksStay }
    ensures bytes { OthersStay }
{}

/// Where fonts are levelled, each place has the new text of its name if that isn't refused, and all else stays.
pub fn level_renews()
    ensures { LevelRenews }
{}

/// The font text of each place can stand there, and where each place is to have its own text, levelling changes nothing.
pub fn own_texts_stay()
    ensures stand { OwnTextsStand }
    ensures stay { OwnTextsStay }
{}

/// The canonical text of a font whose head begins with `%!` and has a name, its PFA without the last line end, can stand at each
/// place of that name, unless there is a mark in it.
pub fn canon_stands()
    ensures { CanonStands }
{}

/// To level twice with the same new texts is to level once.
pub fn levelled_twice()
    ensures { LevelledTwice }
{}

/// Two texts of which the first leaves nothing open are levelled together as each by itself, where no new text is refused.
pub fn levelled_apart()
    ensures { LevelledApart }
{}

/// What the places of a name get spells a font in which each glyph of the font of one of these places runs and draws as it did there,
/// its faults included, and each code keeps its name; word by word the kept texts are those of that font, but for what normalizing may
/// change and the name itself.
pub fn new_texts_draw()
    ensures { NewTextsDraw }
{}

/// What the places of a name get can stand at each of them, so that none of it is refused.
pub fn new_texts_stand()
    ensures { NewTextsStand }
{}

/// What places get for a name is one text or none, so there is one list of documents that documents are levelled to.
pub fn one_outcome()
    ensures texts { OneOutcome }
    ensures levelled { OneLevelled }
{}

/// Documents that were levelled are levelled to themselves.
pub fn levelled_again()
    ensures { LevelledAgain }
{}

/// Two documents between which a line ends, of which the first leaves nothing open, are levelled as one text to what both are
/// levelled to.
pub fn levelled_together()
    ensures { LevelledTogether }
{}

/// In any order documents get the same texts for their names.
pub fn in_any_order()
    ensures { InAnyOrder }
{}

/// Where the bytes of a pooled text's entries are run, and then those at its places, the name of each place finds a font right behind
/// the font text or the line that stands there, in which the place's own stays, whatever is run between that leaves the pool's names,
/// which begin as nothing in the text does. The bytes of a pooled text are its entries and then, place by place, those before the
/// place, its font text or a line, and its rest; and the last bytes. A text is pooled to one text, and that is pooled to itself; in
/// any order documents get the same texts for their keys.
pub fn pooled()
    ensures { Pooled }
{}

/// Where the fonts that documents have apart are run, each place of each document finds a font in which its own stays, whatever is run
/// before it then that leaves the pool's names, which begin as nothing in the documents does. At each place stands its font text
/// or a line, and then its rest. Documents have one text of fonts apart.
pub fn pooled_apart()
    ensures { PooledApart }
{}
