//! Groups of files that join, by halves.

ghost use Rattle.std.specs.Prelude.{◌≡◌, ◌≤◌, ◌++◌, ℕ, [], length, IfOk, OnOk};
ghost use Rattle.t1_classes.specs.{Joining.{joins}, Partition.{fitted, singles, groups_from}, Views.{lent, group_lists, fit_view}};

use crate::joining::joins;
use std::alloc::{AllocError, Global};

/// A group of files, and the files that were left over.
#[derive(Drop)]
pub(crate) struct Fitted<'a> {
    pub(crate) group: Vec<&'a [u8]>,
    pub(crate) left: Vec<&'a [u8]>,
}

/// The files of two lists as one list.
pub(crate) fn both<'a>(
    alloc: Global,
    front: &[&'a [u8]],
    back: &[&'a [u8]],
) -> Result<Vec<&'a [u8]>, AllocError>
    ensures { IfOk result (λ v. lent v.items ≡ lent front.now ++ lent back.now) }
{
    let mut all = Vec::from_slice(alloc, front)?;
    all.extend_from_slice(back)?;
    Ok(all)
}

/// Files fitted onto a group, by halves.
fn fit<'a>(
    alloc: Global,
    name: &[u8],
    group: &[&'a [u8]],
    files: &[&'a [u8]],
) -> Result<Fitted<'a>, AllocError>
    ensures { (n : ℕ) → length files.now ≤ n
        → IfOk result (λ f. fit_view f ≡ fitted (joins name.now) n (lent group.now) (lent files.now)) }
{
    if files.is_empty() {
        return Ok(Fitted {
            group: Vec::from_slice(alloc, group)?,
            left: Vec::new(alloc),
        });
    }
    let all = both(alloc, group, files)?;
    if joins(alloc, name, all.as_slice())? {
        return Ok(Fitted {
            group: all,
            left: Vec::new(alloc),
        });
    }
    if files.len() <= 1 {
        return Ok(Fitted {
            group: Vec::from_slice(alloc, group)?,
            left: Vec::from_slice(alloc, files)?,
        });
    }
    let (front, back) = files.split_at(files.len() / 2);
    let first = fit(alloc, name, group, front)?;
    let second = fit(alloc, name, first.group.as_slice(), back)?;
    let left = both(alloc, first.left.as_slice(), second.left.as_slice())?;
    Ok(Fitted {
        group: second.group,
        left,
    })
}

/// Adds each file as a group by itself.
fn push_singles<'a>(
    alloc: Global,
    groups: &mut Vec<Vec<&'a [u8]>>,
    files: &[&'a [u8]],
) -> Result<(), AllocError>
    ensures { OnOk result (group_lists groups.new.items ≡ group_lists groups.old.items ++ singles (lent files.now)) }
{
    'files: for file in files {
        let mut group = Vec::new(alloc);
        group.push(*file)?;
        groups.push(group)?;
    }
    Ok(())
}

/// The groups of distinct files: the first is what is fitted onto no files, and what is left over makes the next ones. Where nothing
/// is fitted, each file that is left is by itself.
pub(crate) fn groups_from<'a>(
    alloc: Global,
    name: &[u8],
    files: &[&'a [u8]],
) -> Result<Vec<Vec<&'a [u8]>>, AllocError>
    ensures { IfOk result (λ v. group_lists v.items
        ≡ groups_from (joins name.now) (length files.now) (lent files.now)) }
{
    let mut groups = Vec::new(alloc);
    let mut left = Vec::from_slice(alloc, files)?;
    'groups: for _turn in 0..files.len() {
        let fit = fit(alloc, name, &[], left.as_slice())?;
        left = fit.left;
        if fit.group.is_empty() {
            break;
        }
        groups.push(fit.group)?;
    }
    push_singles(alloc, &mut groups, left.as_slice())?;
    Ok(groups)
}
