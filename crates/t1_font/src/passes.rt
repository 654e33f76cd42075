//! One pass over two tables of glyphs.

ghost use Rattle.std.specs.{Prelude.{◌≡◌, ◌+◌, IfOk, MatchOption, None, is_some, true, length}, Option.{option_map}};
ghost use Rattle.t1_font.specs.{FontValue.{total, glyph_weight}, FontModel.{clamp}, Joins.{differing_name}, Maps.{merged}};
ghost use Rattle.std.specs.FinMap as fin;

use crate::lent::{CharStrings, glyph_weight};
use std::alloc::{AllocError, Global};
use std::cmp::Ordering;
use t1_join::{Both, SortedTable, differing_place, push_both};

/// What glyphs weigh, and how many they are, each as far as 64 bits hold it.
#[derive(Clone, Copy)]
pub struct Extent {
    pub weight: u64,
    pub count: u64,
}

impl<'a> CharStrings<'a> {
    /// The glyphs of this table and of another, upwards by the bytes of their names. If both have a name, this table's
    /// glyph stands. It takes no memory.
    #[tactic(auto, using(t1_join::proofs::TablePasses::merged_entries, t1_join::proofs::TablePasses::entries_same, std::proofs::lemmas::Cmp::nat_list_cmp_total, crate::proofs::canonical::FontAgain::name_same))]
    pub fn entries_with<'t>(&'t self, other: &'t CharStrings<'a>) -> Both<&'t CharStrings<'a>>
        ensures { result ≡ fin.entries (merged self.now other.now) }
    {
        Both::of(self, other)
    }

    /// How many glyphs both tables have together, and what they weigh in a font with this lenIV, added to `before`.
    #[tactic(auto, using(std::proofs::lemmas::Map::Iter::rest_more, std::proofs::lemmas::Map::Iter::rest_all, crate::proofs::Weights::sums_none, crate::proofs::Weights::sums_next, crate::proofs::Weights::sums_all, crate::proofs::Weights::counts_none, crate::proofs::Weights::counts_next, crate::proofs::Weights::counts_all))]
    pub fn extent_with(&self, other: &CharStrings<'a>, before: u64, len_iv: u8) -> Extent
        ensures weight { result.weight
            ≡ clamp (before
            + total (glyph_weight len_iv) (fin.entries (merged self.now other.now))) }
        ensures count { result.count
            ≡ clamp (length (fin.entries (merged self.now other.now))) }
    {
        let mut weight = before;
        let mut count = 0u64;
        'bodies: for glyph in self.entries_with(other) {
            weight = weight.saturating_add(glyph_weight(len_iv, glyph.body().len()));
            count = count.saturating_add(1);
        }
        Extent { weight, count }
    }

    /// The smallest name for which both tables have a glyph, with different charstrings.
    pub fn first_differing(&self, other: &CharStrings<'_>) -> Option<&'a [u8]>
        ensures { option_map (λ n. n.now) result
            ≡ differing_name self.now other.now }
    {
        let place = differing_place(&*self, &*other)?;
        let glyph = self.at(place)?;
        Some(glyph.name())
    }
}

/// The glyphs of both tables, in one pass over both. If both have a name, the first's glyph stands.
#[tactic(auto, using(t1_join::proofs::TablePasses::put_out, t1_join::proofs::TablePasses::merge_rises, t1_join::proofs::TablePasses::merge_is, std::proofs::lemmas::Cmp::nat_list_cmp_total, crate::proofs::canonical::FontAgain::name_same))]
pub fn join_glyphs<'a>(
    alloc: Global,
    first: &CharStrings<'a>,
    second: &CharStrings<'a>,
) -> Result<CharStrings<'a>, AllocError>
    ensures { IfOk result (λ m. m ≡ merged first.now second.now) }
{
    let mut all = Vec::with_capacity(alloc, first.len().saturating_add(second.len()))?;
    push_both(&mut all, first, second, 0, 0)?;
    Ok(CharStrings::made(all))
}

/// The glyphs of both tables, in one pass over both, or `None` if both have a name with different charstrings.
#[tactic(auto, using(t1_join::proofs::TablePasses::meets_later, t1_join::proofs::TablePasses::meets_above, t1_join::proofs::TablePasses::meets_same, t1_join::proofs::TablePasses::meets_here, t1_join::proofs::TablePasses::first_ends, t1_join::proofs::TablePasses::second_ends, t1_join::proofs::TablePasses::first_nearer, t1_join::proofs::TablePasses::second_nearer, t1_join::proofs::TablePasses::both_nearer, t1_join::proofs::TablePasses::first_lower, t1_join::proofs::TablePasses::both_tie, t1_join::proofs::TablePasses::second_lower, t1_join::proofs::TablePasses::put_next))]
pub fn join_same_glyphs<'a>(
    alloc: Global,
    first: &CharStrings<'a>,
    second: &CharStrings<'a>,
) -> Result<Option<CharStrings<'a>>, AllocError>
    ensures { IfOk result (λ o. MatchOption o (is_some (differing_name first.now second.now) ≡ true)
        (λ m. (m ≡ merged first.now second.now)
        × (differing_name first.now second.now ≡ None))) }
{
    let mut all = Vec::with_capacity(alloc, first.len().saturating_add(second.len()))?;
    let mut i = 0;
    let mut j = 0;
    'pass: while let (Some(one), Some(other)) = (first.at(i), second.at(j)) {
        match one.name().cmp(other.name()) {
            Ordering::Less => {
                all.push(one)?;
                i += 1;
            }
            Ordering::Equal => {
                if one.body() != other.body() {
                    return Ok(None);
                }
                all.push(one)?;
                i += 1;
                j += 1;
            }
            Ordering::Greater => {
                all.push(other)?;
                j += 1;
            }
        }
    }
    push_both(&mut all, first, second, i, j)?;
    Ok(Some(CharStrings::made(all)))
}
