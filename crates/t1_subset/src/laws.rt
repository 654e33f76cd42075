//! Laws of subsets and mergers. They speak of the definitions alone and depend on no code.

ghost use Rattle.t1_algebra.specs.Laws.{KeepIsLeast, KeepIsMonotone, Distribution, SubsetIsFont, SubsetOfSubset, Bottom, SubsetsDraw, TwoSubsets, ManySubsets};
ghost use Rattle.t1_algebra.specs.Laws.{JoinedIsFont, JoinIsSymmetric, JoinIsIdempotent, StatesOfJoin, JoinsDraw, AnyOrder, AcceptedByPairs};
ghost use Rattle.t1_algebra.specs.Laws.{JoinWhereStatesAgree, NoConflictIsJoin, ConflictIsSymmetric, ConflictsAreAll, JoinHasEntries, CallsDrawAlike};
ghost use Rattle.t1_algebra.specs.{Profile.{profile}, Headline.{Headline}, Normalized.{NormalizedDraw, UnlackingDraw, NormalizedRenewed, ShellsStay}};
ghost use Rattle.t1_algebra.specs.Rejoins.{TruncatedSubsetsRejoin, MergingFontsAreNormal};
ghost use Rattle.t1_algebra.specs.Untested.{UntestedDraws, UntestedSubsets, UntestedJoins, UntestedGroupings};

/// For every input that spells a font F and all sets A and B of its glyph names, reading the written subsets over A
/// and B and merging them, in either order, writes the bytes of the subset over A together with B. Over any list of
/// such subsets every order and grouping writes the same bytes, whether or not the fonts on the way are written and
/// read again. Each kept glyph draws with the width, the hints and the outline that it has in F.
pub fn headline()
    ensures { Headline }
{}

/// What a set of names keeps is closed, and lies within each closed set of the font's names that has these names.
pub fn keep_is_least()
    ensures { KeepIsLeast profile }
{}

/// A larger set of names keeps no less.
#[tactic(auto, using(t1_algebra::proofs::Kept::keep_more, t1_algebra::proofs::Kept::kept_more))]
pub fn keep_is_monotone()
    ensures { KeepIsMonotone profile }
{}

/// Two sets of names keep together what each of them keeps.
#[tactic(auto, using(t1_algebra::proofs::Kept::keep_union, t1_algebra::proofs::Kept::kept_union))]
pub fn distribution()
    ensures { Distribution profile }
{}

/// A subset of a font is a font and weighs no more.
pub fn subset_is_font()
    ensures { SubsetIsFont profile }
{}

/// A subset of a subset is the font's own subset; over the same names it is the subset itself.
#[tactic(auto, using(t1_algebra::proofs::Again::subset_again, t1_algebra::proofs::Again::subset_itself))]
pub fn subset_of_subset()
    ensures { SubsetOfSubset profile }
{}

/// The state of a Subr that a subset doesn't keep is the bottom, and a component that the subset seeks and lacks is
/// lacking in the font.
pub fn bottom()
    ensures { Bottom profile }
{}

/// A kept glyph runs and draws in a subset as it does in the font.
pub fn subsets_draw()
    ensures { SubsetsDraw profile }
{}

/// Two subsets of a font join in either order, to the subset over both sets of names.
pub fn two_subsets()
    ensures { TwoSubsets profile }
{}

/// Subsets of a font over any list of sets of names merge in any order and grouping to the subset over all the sets.
#[tactic(auto, using(t1_algebra::proofs::Fonts::many_subsets))]
pub fn many_subsets()
    ensures { ManySubsets profile }
{}

/// The join of two fonts is a font.
pub fn join_is_font()
    ensures { JoinedIsFont profile }
{}

/// Fonts join in both orders, to the same font.
pub fn join_is_symmetric()
    ensures { JoinIsSymmetric profile }
{}

/// A font joins with itself, to itself.
pub fn join_is_idempotent()
    ensures { JoinIsIdempotent profile }
{}

/// The states of a join are the joined states.
pub fn states_of_join()
    ensures { StatesOfJoin profile }
{}

/// Each glyph of either font runs and draws in their join as it did.
pub fn joins_draw()
    ensures { JoinsDraw profile }
{}

/// Fonts that merge in one order and grouping merge in every other, to the same font and to no other.
pub fn any_order()
    ensures { AnyOrder profile }
{}

/// A list of fonts merges from left to right exactly if the states of each two of them join and the font of all is
/// within the limits.
#[tactic(auto, using(t1_algebra::proofs::Orders::accepted_from_pairs, t1_algebra::proofs::Orders::pairs_from_accepted, t1_algebra::proofs::Orders::folded_is, t1_algebra::proofs::Orders::within, t1_algebra::proofs::Fonts::fonts_within))]
pub fn accepted_by_pairs()
    ensures { AcceptedByPairs profile }
{}

/// Fonts join exactly if their states agree.
pub fn join_where_states_agree()
    ensures { JoinWhereStatesAgree profile }
{}

/// Two fonts have no conflict exactly if they join.
#[tactic(auto, using(t1_algebra::proofs::Conflicts::no_conflict))]
pub fn no_conflict_is_join()
    ensures { NoConflictIsJoin profile }
{}

/// Two fonts have the same lowest conflict in both orders.
#[tactic(auto, using(t1_algebra::proofs::Conflicts::conflict_back))]
pub fn conflict_is_symmetric()
    ensures { ConflictIsSymmetric profile }
{}

/// Two fonts have no conflicts exactly if they join; otherwise the lowest is the first of all, and in both orders all are the
/// same.
#[tactic(auto, using(t1_algebra::proofs::AllConflicts::all_conflicts))]
pub fn conflicts_are_all()
    ensures { ConflictsAreAll profile }
{}

/// If the states of two fonts join, their join has the entries of both.
#[tactic(auto, using(t1_algebra::proofs::JoinedStates::entries_join, t1_algebra::proofs::JoinedStates::joined_are_entries))]
pub fn join_has_entries()
    ensures { JoinHasEntries profile }
{}

/// If a glyph runs and draws alike in two fonts, calls answer alike: `direct`, `direct3`, `executed`, `draw` and `draw3`
/// of `t1_run` answer the same for both fonts. So the drawings of subsets and mergers, which the clauses of
/// [`subset`](crate::subset) and [`merge`](crate::merge) state over the maps of fonts, are the drawings that calls answer.
#[tactic(auto, using(t1_algebra::proofs::Drawings::answers_alike))]
pub fn calls_draw_alike()
    ensures { CallsDrawAlike }
{}

/// A glyph that is drawn in a font is drawn the same after the font is normalized: with normalized texts, with more Subrs
/// declared and with stubs for some that it lacks. What its charstring answers without a fault, it answers there, too.
/// This holds where hints are replaced and where they are kept, each by itself, over the maps of both fonts and as calls
/// see them.
#[tactic(auto, using(t1_algebra::proofs::rejoining::Normalized::normalized_draw))]
pub fn normalized_draw()
    ensures { NormalizedDraw }
{}

/// Where no glyph executes a Subr that its font lacks and another of the fonts has, each glyph of each font runs and draws as it did
/// after the fonts are normalized, its faults included. [`rejoin`](crate::rejoin) refuses all other fonts.
#[tactic(auto, using(t1_algebra::proofs::rejoining::Unlacking::unlacking_draw))]
pub fn unlacking_draw()
    ensures { UnlackingDraw }
{}

/// Word by word the kept texts of fonts that are normalized are what they were, but for the words of lines that number the font, which
/// go (in a comment but for its `%`), the tags of its name, the numbers of its FontBBox and the declared count of Subrs; and what
/// fonts come to has the kept texts of each of them.
#[tactic(auto, using(t1_algebra::proofs::rejoining::Renewed::normalized_renewed, t1_algebra::proofs::rejoining::Renewed::shells_stay))]
pub fn normalized_renewed()
    ensures fonts { NormalizedRenewed }
    ensures joined { ShellsStay }
{}

/// Subsets of one font that other programs cut merge once they are normalized. Their texts may differ in white space, in lines
/// that number the font and in tags, and each may have only the font's first Subrs, as long as those that it keeps are among
/// them. In every order and grouping they merge to the subset over all the names, cut to the largest of the counts and with
/// normalized texts, and to nothing else, so to the same bytes. Each glyph that is kept draws in it as in the font.
pub fn truncated_subsets_rejoin()
    ensures { TruncatedSubsetsRejoin }
{}

/// Of fonts that merge in some order and grouping only the texts are normalized, and then they merge in it to what they merged
/// to, with normalized texts.
#[tactic(auto, using(t1_algebra::proofs::rejoining::Normalized::merging_fonts_are_normal))]
pub fn merging_fonts_are_normal()
    ensures { MergingFontsAreNormal }
{}

/// Each glyph of a font draws, runs and executes as before when the font's head has lost the test whether the font was
/// loaded before, over the maps of both fonts and as calls see them.
#[tactic(auto, using(t1_algebra::proofs::Untested::untested_draws))]
pub fn untested_draws()
    ensures { UntestedDraws }
{}

/// Whether fonts lose that test before they are cut and merged or after it makes no difference. A subset without the test
/// is the subset of the font without it. Fonts that join also join when both have lost their tests, to their join without
/// it; so fonts that merge in some order and grouping also merge in it, to what they came to, without the test.
#[tactic(auto, using(t1_algebra::proofs::Untested::untested_subsets, t1_algebra::proofs::Untested::untested_joins, t1_algebra::proofs::Untested::untested_groupings))]
pub fn untested_commutes()
    ensures subsets { UntestedSubsets profile }
    ensures joins { UntestedJoins profile }
    ensures groupings { UntestedGroupings profile }
{}
