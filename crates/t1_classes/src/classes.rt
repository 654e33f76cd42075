//! The classes of files.

ghost use Rattle.std.specs.{Prelude.{◌≡◌, ◌++◌, IfOk}, Option.{option_map}};
ghost use Rattle.t1_classes.specs.{Joining.{joins}, Partition.{groups, is_among}, Views.{lent, group_lists}};
ghost use Rattle.t1_classes.specs.Classes.{places_of, text_of, IsContent, IsApart, IsClass, AreClasses};

use crate::distinct::distinct;
use crate::fitting::{both, groups_from};
use crate::joining::join_files;
use crate::refusals::Refusal;
use crate::settling::settle;
use std::alloc::{AllocError, Global};

/// What the files of a class come to.
#[derive(Drop)]
pub enum Content<'a> {
    /// They are all this file, which spells a font.
    Same(&'a [u8]),
    /// They join to this text.
    Joined(Vec<u8>),
    /// They are all one file, which joins with none, and not by itself either.
    Refused(Refusal),
}

/// Files that join, or one file that joins with none.
#[derive(Drop)]
pub struct Class<'a> {
    /// The places of its files among those that were given, in their order.
    pub members: Vec<usize>,
    /// What its files come to.
    pub content: Content<'a>,
    /// Why its files don't join with those of the first class; nothing for that class itself.
    pub apart: Option<Refusal>,
}

impl<'a> Class<'a> {
    /// The text that stands for each of its files, unless they don't join.
    pub fn text(&self) -> Option<&[u8]>
        ensures { option_map (λ t. t.now) result ≡ text_of self.now.content }
    {
        match &self.content {
            Content::Same(text) => Some(*text),
            Content::Joined(text) => Some(text.as_slice()),
            Content::Refused(_) => None,
        }
    }
}

/// Whether a file is among some.
fn is_among(file: &[u8], group: &[&[u8]]) -> bool
    ensures { result ≡ is_among file.now (lent group.now) }
{
    'group: for other in group {
        if file == *other {
            return true;
        }
    }
    false
}

/// The places of the files that are among those of a group.
fn members(alloc: Global, files: &[&[u8]], group: &[&[u8]]) -> Result<Vec<usize>, AllocError>
    ensures { IfOk result (λ v. v.items ≡ places_of (lent files.now) (lent group.now)) }
{
    let mut members = Vec::new(alloc);
    'files: for place in 0..files.len() {
        if is_among(files[place], group) {
            members.push(place)?;
        }
    }
    Ok(members)
}

/// What the files of a group come to.
#[tactic(auto, unfolding(crate::specs::Joining::joins, crate::specs::Joining::joined_text))]
fn content_of<'a>(alloc: Global, name: &[u8], group: &[&'a [u8]]) -> Result<Content<'a>, AllocError>
    ensures { IfOk result (IsContent name.now (lent group.now)) }
{
    match join_files(alloc, name, group)? {
        Ok(text) => {
            if group.len() == 1 {
                return Ok(Content::Same(group[0]));
            }
            Ok(Content::Joined(text))
        }
        Err(why) => Ok(Content::Refused(why)),
    }
}

/// Why the files of two groups don't join, if they don't.
#[tactic(auto, unfolding(crate::specs::Joining::joins, crate::specs::Joining::joined_text))]
fn apart(
    alloc: Global,
    name: &[u8],
    first: &[&[u8]],
    group: &[&[u8]],
) -> Result<Option<Refusal>, AllocError>
    ensures { IfOk result (IsApart name.now (lent first.now ++ lent group.now)) }
{
    let all = both(alloc, first, group)?;
    match join_files(alloc, name, all.as_slice())? {
        Ok(_) => Ok(None),
        Err(why) => Ok(Some(why)),
    }
}

/// The class of a group.
fn class_of<'a>(
    alloc: Global,
    name: &[u8],
    files: &[&[u8]],
    group: &[&'a [u8]],
    apart: Option<Refusal>,
) -> Result<Class<'a>, AllocError>
    ensures class { IfOk result (IsClass name.now (lent files.now) (lent group.now)) }
    ensures apart { IfOk result (λ c. c.apart ≡ apart) }
{
    Ok(Class {
        members: members(alloc, files, group)?,
        content: content_of(alloc, name, group)?,
        apart,
    })
}

/// The classes of groups.
fn classes_of_groups<'a>(
    alloc: Global,
    name: &[u8],
    files: &[&[u8]],
    groups: &[Vec<&'a [u8]>],
) -> Result<Vec<Class<'a>>, AllocError>
    ensures { IfOk result (λ v. AreClasses name.now (lent files.now) (group_lists groups.now) v.items) }
{
    let mut classes = Vec::new(alloc);
    let Some((first, rest)) = groups.split_first() else {
        return Ok(classes);
    };
    classes.push(class_of(alloc, name, files, first.as_slice(), None)?)?;
    'rest: for group in rest {
        let apart = apart(alloc, name, first.as_slice(), group.as_slice())?;
        classes.push(class_of(alloc, name, files, group.as_slice(), apart)?)?;
    }
    Ok(classes)
}

/// The classes of font files that are to have one name: the files of each class join ([`join_files`]), no two classes do, and each
/// file is in one class. They are decided by the bytes of the files, and not by their order.
///
/// Of the files, each once and sorted by their bytes, the first class has those that join when they are fitted onto it by halves, and
/// the next classes are made in the same way of those that are left over. So a family with one odd font costs a few joins more, and not
/// one for each font. Where two classes still join, the second goes into the first.
///
/// # Errors
///
/// Only want of memory.
pub fn classes_of<'a>(
    alloc: Global,
    name: &[u8],
    files: &[&'a [u8]],
) -> Result<Vec<Class<'a>>, AllocError>
    ensures { IfOk result (λ v. AreClasses name.now (lent files.now) (groups (joins name.now) (lent files.now)) v.items) }
{
    let sorted = distinct(alloc, files)?;
    let groups = groups_from(alloc, name, sorted.as_slice())?;
    let groups = settle(alloc, name, groups)?;
    classes_of_groups(alloc, name, files, groups.as_slice())
}
