//! Laws of the texts of fonts.

ghost use Rattle.t1_text.specs.{Laws.{ReadsAsSpelled, LastStands}, BoxLaws.{BoxInAnyOrder, HoldsEach, HeldByAll}, Renewing.{SqueezedWords, TestGoes}, FontTest.{UntestedTwice, UntestedStarts}};

/// What is read of each part of the font grammar is what is spelled, and vice versa: words, numbers, names and phrases,
/// each marker and its first place, the starts, entries and ends of the three tables.
pub fn reads_as_spelled()
    ensures { ReadsAsSpelled }
{}

/// The last entry of a repeated key stands.
pub fn last_stands()
    ensures { LastStands }
{}

/// The one box for some boxes is the same in any order.
pub fn box_in_any_order()
    ensures { BoxInAnyOrder }
{}

/// The one box for some boxes, none of which says that nothing is known, is the least box that holds each of them.
pub fn holds_each()
    ensures each { HoldsEach }
    ensures least { HeldByAll }
{}

/// A head that lost the test whether its font was loaded before stays as it is when it is to lose one again, and begins with
/// byte 128 exactly if it did with the test.
pub fn untested_twice()
    ensures head { UntestedTwice }
    ensures starts { UntestedStarts }
{}

/// A head loses one test whether its font was loaded before, and nothing else, or it stays.
pub fn test_goes()
    ensures { TestGoes }
{}

/// A text that is squeezed keeps its words.
pub fn squeezed_words()
    ensures { SqueezedWords }
{}
