//! Laws of the engines, over the definitions alone.

ghost use Rattle.t1_cmd.specs.{Mends.{MendsAgain, MendsNothing, MendedIsSpelled, TellsNothing, RejoinsMended}, Rejoins.{RejoinsWhatMerges}};
ghost use Rattle.t1_cmd.specs.{Cuts.{Rejoined}, Subsets.{SubsetWithoutCodes}, Extracts.{TakesOutMended}};

/// Fonts that merge rejoin to the file of what they merge to, with normalized texts, and to nothing else: where the texts are normalized and
/// have no test to lose, [`run_rejoin`](crate::run_rejoin) writes what [`run_merge`](crate::run_merge) writes, unless a growth was
/// refused.
pub fn rejoins_what_merges()
    ensures { RejoinsWhatMerges }
{}

/// Without codes [`run_subset_with_codes`](crate::run_subset_with_codes) writes what [`run_subset`](crate::run_subset) writes of
/// the names, unless a growth was refused.
pub fn subset_without_codes()
    ensures { SubsetWithoutCodes }
{}

/// What fonts rejoin to is the canonical file of a font in which each of their glyphs runs and draws as it did, or has the fault that
/// it had, where hints are replaced and where they are kept, over the maps of both fonts and as calls see them. Word by word the kept
/// texts of that font are those of each of the fonts, but for the words of lines that number the font, which go (in a comment but for
/// its `%`), the tags of its name, the numbers of its FontBBox and the declared count of Subrs. Truncated subsets of one font rejoin to
/// the subset over all the names.
pub fn rejoined()
    ensures { Rejoined }
{}

/// A file that [`mend_file`](crate::mend_file) wrote is mended to itself in the same form and, in the other form, to what the
/// first file is mended to. A PFA whose head begins with byte 128 would be taken for a PFB, and is left out.
pub fn mends_again()
    ensures { MendsAgain }
{}

/// The canonical file of a font that stays as it is when it is to lose the test whether it was loaded before is mended to
/// itself, but for a PFA whose head begins with byte 128.
pub fn mends_nothing()
    ensures { MendsNothing }
{}

/// A file that [`mend_file`](crate::mend_file) wrote spells the font that it was mended to, so each other command takes it; but for a
/// PFA whose head begins with byte 128.
pub fn mended_is_spelled()
    ensures { MendedIsSpelled }
{}

/// Of a file that [`mend_file`](crate::mend_file) wrote [`list_mends`](crate::list_mends) tells nothing, but for a PFA whose head
/// begins with byte 128.
pub fn tells_nothing()
    ensures { TellsNothing }
{}

/// Files that are mended before they are rejoined, each in either form, are rejoined as the same fonts: all that
/// [`rejoin_files`](crate::rejoin_files) and [`run_rejoin`](crate::run_rejoin) may answer is the same.
pub fn rejoins_mended()
    ensures { RejoinsMended }
{}

/// What [`run_extract`](crate::run_extract) writes of a place is what [`run_mend`](crate::run_mend) writes of its font text as a PFA.
pub fn takes_out_mended()
    ensures { TakesOutMended }
{}
