//! Laws of reading and writing font files.

ghost use Rattle.t1_font_laws.specs.{Laws.{ReadsSpelled, SpellsOne, RefusesForReason, ReadsWidely}, Differing.{MeetsSmallest}};
ghost use Rattle.t1_font.specs.NormalizingLaws.{NormalStays, FilledStays, NormalTextsStay, NormalizedTwice, NormalFontsStay, OneBoxForAnother, BoxedTwice};
ghost use Rattle.t1_font.specs.NormalizingLaws.{BoxedKeeps, BoxedAreFonts, BoxedAreNormal, OneShellStays};
ghost use Rattle.t1_font.specs.Renewing.{TextsRenewed};
ghost use Rattle.t1_font.specs.Mends.{NeedsNoRule, TellsTheTest};
ghost use Rattle.t1_font.specs.UntestedFonts.{UntestedIsFont};
ghost use Rattle.t1_font.specs.WriteLaws.{RoundTrip, Fingerprint, CanonIsBytes, CanonIsShort, CanonWeighs, RestrictIsFont, JoinIsFont, ReadIsFont};
ghost use Rattle.t1_font.specs.WriteLaws.{IsFontExactly, HeadStarts, JoinWeighs, ShowsItsSubrs};

/// What is read is the font that the file spells.
pub fn reads_spelled()
    ensures { ReadsSpelled }
{}

/// A file spells at most one font.
pub fn spells_one()
    ensures { SpellsOne }
{}

/// A file is refused for the first reason that holds.
pub fn refuses_for_reason()
    ensures { RefusesForReason }
{}

/// Widely, too, what is read is the one font that the file spells, or the first reason that holds; and a file that spells a
/// font spells the same font widely.
pub fn reads_widely()
    ensures { ReadsWidely }
{}

/// A file that spells a font widely needs none of the rules exactly if it spells it anyhow, and a head has no test to mend
/// exactly if it is not changed.
pub fn mends_exactly()
    ensures rules { NeedsNoRule }
    ensures test { TellsTheTest }
{}

/// The canonical file of a font is read as the font.
pub fn round_trip()
    ensures { RoundTrip }
{}

/// Fonts with the same canonical file are the same font.
pub fn fingerprint()
    ensures { Fingerprint }
{}

/// The canonical file of a value of bytes is bytes.
pub fn canon_is_bytes()
    ensures { CanonIsBytes }
{}

/// The canonical file of a font is within the file limit.
pub fn canon_is_short()
    ensures { CanonIsShort }
{}

/// The length of a canonical file is bounded by the weight of its font.
pub fn canon_weighs()
    ensures { CanonWeighs }
{}

/// A font cut to names with `.notdef` is a font, and weighs no more.
pub fn restrict_is_font()
    ensures { RestrictIsFont }
{}

/// The entries of two fonts with one shell, within the limits, are a font.
pub fn join_is_font()
    ensures { JoinIsFont }
{}

/// What is read of a file of bytes is a font.
pub fn read_is_font()
    ensures { ReadIsFont }
{}

/// A font is a value of bytes that its own canonical PFB spells.
pub fn is_font_exactly()
    ensures { IsFontExactly }
{}

/// A font's head begins with byte 128 exactly if the flat text that it was read from does.
pub fn head_starts()
    ensures { HeadStarts }
{}

/// A join weighs no less than its first font.
pub fn join_weighs()
    ensures { JoinWeighs }
{}

/// The Subrs that a font shows as `Subroutines` are all that it has. So what is said of the maps of a font is also said of
/// what `direct`, `executed` and `draw` of `t1_run` answer of the font.
pub fn shows_its_subrs()
    ensures { ShowsItsSubrs }
{}

/// A font of normalized texts that declares as many Subrs as the largest count is not changed by normalizing it, and a font that
/// is filled over its own indices is the font itself.
pub fn normal_stays()
    ensures shell { NormalStays }
    ensures subrs { FilledStays }
{}

/// Texts that were normalized stay as they are when they are normalized again, and so do fonts.
pub fn normalized_twice()
    ensures texts { NormalTextsStay }
    ensures fonts { NormalizedTwice }
{}

/// Fonts of normalized texts that declare one count, have the same FontBBox or none, and have Subrs at the same indices stay as they
/// are when they are normalized.
pub fn normal_fonts_stay()
    ensures { NormalFontsStay }
{}

/// Where a shell has a box when it is read again, another box takes its place as it takes the place of the shell's own.
pub fn one_box_for_another()
    ensures { OneBoxForAnother }
{}

/// Fonts with one box keep it, and are what they were but for the two texts around the Encoding.
pub fn boxed_twice()
    ensures twice { BoxedTwice }
    ensures others { BoxedKeeps }
{}

/// Fonts with one box are fonts, and their texts are normalized where they were.
pub fn boxed_are_fonts()
    ensures fonts { BoxedAreFonts }
    ensures texts { BoxedAreNormal }
{}

/// Fonts of one shell stay as they are when they are to get one box.
pub fn one_shell_stays()
    ensures { OneShellStays }
{}

/// A font without that test in its head is a font, and weighs no more.
pub fn untested_is_font()
    ensures { UntestedIsFont }
{}

/// The name that `CharStrings::first_differing` answers is the smallest for which both tables have a glyph with different
/// charstrings; it answers none exactly if there is no such name.
pub fn meets_smallest()
    ensures { MeetsSmallest }
{}

/// Word by word, the texts of a font that is normalized are what they were, but for the words of lines that number the font, which
/// go, for those of comments that would be such lines, of which `%` stays, and for the tags of the font's name; where white space
/// alone is squeezed they are what they were.
pub fn texts_renewed()
    ensures { TextsRenewed }
{}
