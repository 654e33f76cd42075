//! Groups of which no two join.

ghost use Rattle.std.specs.Prelude.{◌≡◌, ◌≤◌, ◌<◌, ◌+◌, ◌++◌, ℕ, drop, length, IfOk, OnOk, IfSome};
ghost use Rattle.t1_classes.specs.{Joining.{joins}, Partition.{partner_from, pair_from, joined_at, all_settled}, Views.{lent, group_lists}};

use crate::fitting::both;
use crate::joining::joins;
use std::alloc::{AllocError, Global};

/// The place of the first group from this place on that joins with a group.
fn partner<'a>(
    alloc: Global,
    name: &[u8],
    group: &[&'a [u8]],
    groups: &[Vec<&'a [u8]>],
    from: usize,
) -> Result<Option<usize>, AllocError>
    ensures place { IfOk result (λ o. o
        ≡ partner_from (joins name.now) (lent group.now) from (group_lists (drop from groups.now))) }
    ensures within { IfOk result (λ o. IfSome o (λ j. (from ≤ j) × (j < length groups.now))) }
{
    'groups: for place in from..groups.len() {
        let all = both(alloc, group, groups[place].as_slice())?;
        if joins(alloc, name, all.as_slice())? {
            return Ok(Some(place));
        }
    }
    Ok(None)
}

/// The places of the first two groups that join.
fn pair(
    alloc: Global,
    name: &[u8],
    groups: &[Vec<&[u8]>],
) -> Result<Option<(usize, usize)>, AllocError>
    ensures places { IfOk result (λ o. o ≡ pair_from (joins name.now) 0 (group_lists groups.now)) }
    ensures within { IfOk result (λ o. IfSome o (λ x. (x.0 < x.1) × (x.1 < length groups.now))) }
{
    'groups: for place in 0..groups.len() {
        if let Some(other) = partner(alloc, name, groups[place].as_slice(), groups, place + 1)? {
            return Ok(Some((place, other)));
        }
    }
    Ok(None)
}

/// Puts the second of two groups into the first.
fn join_at<'a>(
    alloc: Global,
    groups: &mut Vec<Vec<&'a [u8]>>,
    place: usize,
    other: usize,
) -> Result<(), AllocError>
    requires order { place < other }
    requires within { other < length groups.old.items }
    ensures { OnOk result (group_lists groups.new.items ≡ joined_at (group_lists groups.old.items) (place, other)) }
{
    let all = both(alloc, groups[place].as_slice(), groups[other].as_slice())?;
    groups.remove(other);
    groups[place] = all;
    Ok(())
}

/// The groups, of which no two join then: the second of the first two that do goes into the first, as long as there are such.
pub(crate) fn settle<'a>(
    alloc: Global,
    name: &[u8],
    groups: Vec<Vec<&'a [u8]>>,
) -> Result<Vec<Vec<&'a [u8]>>, AllocError>
    ensures { IfOk result (λ v. group_lists v.items ≡ all_settled (joins name.now) (group_lists groups.entry.items)) }
{
    let mut groups = groups;
    'groups: for _turn in 0..groups.len() {
        match pair(alloc, name, groups.as_slice())? {
            Some((place, other)) => join_at(alloc, &mut groups, place, other)?,
            None => break,
        }
    }
    Ok(groups)
}
