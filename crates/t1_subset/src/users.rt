//! The smallest glyph that executes each Subr of a font.

ghost use Rattle.std.specs.{Prelude.{◌≡◌, ◌<◌, ◌≤◌, ℕ, length, min, OnOk, None, Some, cond}, Option.{option_map}};
ghost use Rattle.t1_join.specs.Meaning.{of_number};
ghost use Rattle.t1_algebra.specs.{Profile.{set_of}, Shared.{same_number}, States.{joined_option}};
ghost use Rattle.t1_subset.specs.Users.{user_at};
ghost use Rattle.std.specs.FinMap as maps;
ghost use Rattle.std.specs.FinSet as sets;

use std::alloc::{AllocError, Global};
use t1_join::Table;
use t1_run::SubrSet;

/// The smallest glyph that executes each Subr of a font, by index, among the glyphs that have been noted. There is a place
/// for each Subr up to the last one that a glyph executes, and some more.
pub(crate) type UserArray<'a> = Vec<Option<&'a [u8]>>;

/// The smallest glyph that executes each Subr of a font. There is no entry for a Subr that no glyph executes, so a font of
/// many stubs takes little room.
pub(crate) type Users<'a> = Table<u16, &'a [u8]>;

/// Nobody yet.
pub(crate) fn nobody<'a>(alloc: Global) -> UserArray<'a>
    ensures { (q : ℕ) → user_at result.items q ≡ None }
{
    Vec::new(alloc)
}

/// Makes a place for a Subr, if there is none: twice as many places as there were, or more.
fn reach(users: &mut UserArray<'_>, place: usize) -> Result<(), AllocError>
    requires { place < 65536 }
    ensures reached { OnOk result (place < length users.new.items) }
    ensures noted { (q : ℕ) → OnOk result (user_at users.new.items q ≡ user_at users.old.items q) }
{
    if place >= users.len() {
        let places = users.len().saturating_mul(2).max(place + 1);
        users.resize(places, None)?;
    }
    Ok(())
}

/// Notes a glyph that executes the index, unless there is a smaller one. Glyphs come upwards by name.
fn note_user<'a>(users: &mut UserArray<'a>, index: u16, glyph: &'a [u8]) -> Result<(), AllocError>
    ensures { (q : ℕ)
        → OnOk result (user_at users.new.items q
        ≡ joined_option (user_at users.old.items q)
        (cond (same_number q index) (Some glyph.now) None)) }
{
    let place = index as usize;
    reach(users, place)?;
    if users[place].is_none() {
        users[place] = Some(glyph);
    }
    Ok(())
}

/// Notes a glyph that executes these indices.
pub(crate) fn note_users<'a>(
    users: &mut UserArray<'a>,
    calls: &SubrSet,
    glyph: &'a [u8],
) -> Result<(), AllocError>
    ensures { (q : ℕ)
        → OnOk result (user_at users.new.items q
        ≡ joined_option (user_at users.old.items q)
        (cond (sets.contains (set_of calls.now) q) (Some glyph.now) None)) }
{
    'calls: for index in calls.as_slice() {
        note_user(users, *index, glyph)?;
    }
    Ok(())
}

/// The glyph that is noted for the index.
pub(crate) fn first_user<'a>(users: &UserArray<'a>, index: u16) -> Option<&'a [u8]>
    ensures { option_map (λ n. n.now) result ≡ user_at users.now.items index }
{
    match users.get(index as usize) {
        Some(user) => *user,
        None => None,
    }
}

/// How many of so many indices have a place. None has a user behind these.
pub(crate) fn reached_below(users: &UserArray<'_>, count: u16) -> u16
    ensures places { result ≡ min (length users.now.items) count }
    ensures none { (q : ℕ) → result ≤ q → q < count → user_at users.now.items q ≡ None }
{
    if users.len() < count as usize {
        users.len() as u16
    } else {
        count
    }
}

/// The smallest glyph that executes the index.
pub(crate) fn user_in<'a>(users: &Users<'a>, index: u16) -> Option<&'a [u8]>
    ensures { option_map (λ n. n.now) result ≡ maps.get users.now (of_number index) }
{
    match users.get(&index) {
        Some(glyph) => Some(*glyph),
        None => None,
    }
}
