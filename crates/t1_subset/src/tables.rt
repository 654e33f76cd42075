//! The states of a font's codes and Subrs, as tables that join key by key, and the table of the glyphs that execute them.

ghost use Rattle.std.specs.{Prelude.{◌≡◌, ◌<◌, ℕ, true, IfOk, OnOk}, Option.{option_map}};
ghost use Rattle.t1_join.specs.Meaning.{of_number};
ghost use Rattle.t1_font.specs.FontValue.{declared_count};
ghost use Rattle.t1_font.specs.MadeTables.{numbered};
ghost use Rattle.t1_algebra.specs.{Profile.{profile}, StateTables.{code_states, used_subrs}, Lacks.{user_of}};
ghost use Rattle.t1_subset.specs.{Differences.{with_state, entry_state}, Users.{user_at}};
ghost use Rattle.std.specs.FinMap as maps;

use crate::users::{UserArray, Users, first_user, reached_below};
use std::alloc::{AllocError, Global};
use t1_font::{Font, STUB};
use t1_join::{Kept, Key, Table};
use t1_run::Subroutines;

/// Puts a state at a key, if there is one.
fn put<K: Key + Drop, V: Kept + Drop>(
    table: &mut Table<K, V>,
    key: K,
    state: Option<V>,
) -> Result<(), AllocError>
    ensures { OnOk result (table.new
        ≡ with_state table.old (K.meaning key) (option_map V.meaning state)) }
{
    match state {
        Some(state) => table.insert(key, state),
        None => Ok(()),
    }
}

/// The names of the codes of a table Encoding.
pub(crate) fn code_table<'a>(
    alloc: Global,
    font: &Font<'a>,
) -> Result<Table<u16, &'a [u8]>, AllocError>
    ensures { IfOk result (λ table. table ≡ code_states font.now.encoding) }
{
    font.proof_is_font();
    let mut table = Table::new(alloc);
    'codes: for code in 0..256u16 {
        put(&mut table, code, font.encoding_at(code as u8))?;
    }
    Ok(table)
}

/// The state of a Subr: its entry, unless that is a `return` that is not executed.
fn subr_state<'a>(entry: Option<&'a [u8]>, is_called: bool) -> Option<&'a [u8]>
    ensures { option_map (λ b. b.now) result
        ≡ entry_state (option_map (λ b. b.now) entry.entry) is_called }
{
    match entry {
        Some(body) if body == STUB && !is_called => None,
        entry => entry,
    }
}

/// The states of the Subrs, by the glyphs that execute them.
pub(crate) fn subr_table<'a>(
    alloc: Global,
    font: &Font<'a>,
    users: &UserArray<'_>,
) -> Result<Table<u16, &'a [u8]>, AllocError>
    requires { (i : ℕ)
        → maps.contains_key font.now.subrs i ≡ true
        → user_at users.now.items i ≡ user_of font.now i }
    ensures { IfOk result (λ table. table ≡ numbered (used_subrs profile font.now)) }
{
    let mut table = Table::new(alloc);
    'entries: for (index, body) in font.subrs().entries() {
        let is_called = first_user(users, index).is_some();
        put(&mut table, index, subr_state(Some(body), is_called))?;
    }
    Ok(table)
}

/// The users that were noted, in a table.
pub(crate) fn used<'a>(
    alloc: Global,
    font: &Font<'_>,
    users: &UserArray<'a>,
) -> Result<Users<'a>, AllocError>
    ensures { IfOk result (λ used. (q : ℕ)
        → q < declared_count font.now.shell.subrs
        → maps.get used (of_number q) ≡ user_at users.now.items q) }
{
    let mut used = Table::new(alloc);
    'indices: for index in 0..reached_below(users, font.count()) {
        put(&mut used, index, first_user(users, index))?;
    }
    Ok(used)
}
