//! The lowest conflict of two fonts, by their states and their references: one search for each kind.

ghost use Rattle.std.specs.{Prelude.{◌≡◌, ◌<◌, IfOk, IfErr, Some, None, SomeIff, []}, Option.{option_map, unwrap_or}};
ghost use Rattle.t1_font.specs.{FontValue.{FontValue}, IsFont.{IsFont}};
ghost use Rattle.t1_font.specs.MadeTables.{numbered};
ghost use Rattle.t1_algebra.specs.{Profile.{profile}, StateTables.{code_states, used_subrs}};
ghost use Rattle.t1_algebra.specs.Conflicts.{ShellDiffers, GlyphDiffers, LacksComponent, SubrDiffers, shell_conflict, code_conflict, subr_conflict};
ghost use Rattle.t1_algebra.specs.{Conflicts.{states_conflict}, Shared.{differing_part}};
ghost use Rattle.t1_subset.specs.{Clashes.{AreStatesOf, AreReferences}, Refusals.{Tells}};

use crate::conflict::Conflict;
use crate::references::{References, seeker, user};
use crate::shared::Shared;
use crate::state_value::States;
use std::alloc::Global;
use t1_join::Table;

/// The code as a byte, if it is one.
fn byte_of(code: u16) -> Option<u8>
    ensures { SomeIff result (code < 256) code }
{
    match u8::try_from(code) {
        Ok(code) => Some(code),
        Err(_) => None,
    }
}

/// The smallest code that both fonts have, with different names.
fn code_conflict(own: &Table<u16, &[u8]>, other: &Table<u16, &[u8]>) -> Option<u8>
    ensures { (f g : FontValue)
        → IsFont f
        → own.now ≡ code_states f.encoding
        → other.now ≡ code_states g.encoding
        → result ≡ code_conflict f g }
{
    match own.conflict(other) {
        Some(code) => byte_of(*code),
        None => None,
    }
}

/// The smallest index at which the states differ.
fn subr_conflict(own: &Table<u16, &[u8]>, other: &Table<u16, &[u8]>) -> Option<u16>
    ensures { (f g : FontValue)
        → IsFont f
        → own.now ≡ numbered (used_subrs profile f)
        → other.now ≡ numbered (used_subrs profile g)
        → result ≡ subr_conflict profile f g }
{
    match own.conflict(other) {
        Some(index) => Some(*index),
        None => None,
    }
}

/// The conflict of a glyph that differs, or want of memory.
pub(crate) fn glyph_differs(alloc: Global, name: &[u8]) -> Conflict
    ensures { Tells result (Some (GlyphDiffers name.now)) }
{
    match Vec::from_slice(alloc, name) {
        Ok(name) => Conflict::Glyph { name },
        Err(_) => Conflict::Memory,
    }
}

/// The conflict of a component that is lacking and the glyph that names it, or want of memory.
pub(crate) fn lacks_component(alloc: Global, glyph: Option<&[u8]>, part: &[u8]) -> Conflict
    ensures { Tells result
        (Some (LacksComponent (unwrap_or (option_map (λ n. n.now) glyph.entry) []) part.now)) }
{
    let Ok(glyph) = Vec::from_slice(alloc, glyph.unwrap_or(&[])) else {
        return Conflict::Memory;
    };
    match Vec::from_slice(alloc, part) {
        Ok(part) => Conflict::Part { glyph, part },
        Err(_) => Conflict::Memory,
    }
}

/// The conflict of a Subr that differs and the glyph that executes it, or want of memory.
pub(crate) fn subr_differs(alloc: Global, index: u16, user: Option<&[u8]>) -> Conflict
    ensures { Tells result (Some (SubrDiffers index (option_map (λ n. n.now) user.entry))) }
{
    match user {
        Some(user) => match Vec::from_slice(alloc, user) {
            Ok(glyph) => Conflict::Subr {
                index,
                glyph: Some(glyph),
            },
            Err(_) => Conflict::Memory,
        },
        None => Conflict::Subr { index, glyph: None },
    }
}

/// Refuses fonts that don't share what they have to, with the first part that differs.
pub(crate) fn one_shell(left: &Shared<'_>, right: &Shared<'_>) -> Result<(), Conflict>
    ensures ok { IfOk result (λ _. differing_part left.now right.now ≡ None) }
    ensures err { IfErr result
        (λ e. Tells e (option_map ShellDiffers (differing_part left.now right.now))) }
{
    match left.differing_part(right) {
        Some(part) => Err(Conflict::Shell { part }),
        None => Ok(()),
    }
}

/// The lowest conflict of the states of two fonts of one shell, or want of memory. The references are those of both fonts.
pub(crate) fn tables_conflict(
    alloc: Global,
    left: &States<'_>,
    right: &States<'_>,
    references: &[References<'_, '_>],
) -> Result<(), Conflict>
    ensures ok { (f g : FontValue)
        → AreStatesOf left.now right.now f g
        → shell_conflict f g ≡ None
        → IfOk result (λ _. states_conflict profile f g ≡ None) }
    ensures err { (f g : FontValue)
        → AreStatesOf left.now right.now f g
        → AreReferences references.now f g
        → shell_conflict f g ≡ None
        → IfErr result (λ e. Tells e (states_conflict profile f g)) }
{
    if let Some(code) = code_conflict(&left.codes, &right.codes) {
        return Err(Conflict::Code { code });
    }
    if let Some(name) = left.names.glyph_conflict(&right.names) {
        return Err(glyph_differs(alloc, name));
    }
    if let Some(part) = left.names.component_conflict(&right.names) {
        return Err(lacks_component(alloc, seeker(references, part), part));
    }
    match subr_conflict(&left.subrs, &right.subrs) {
        Some(index) => Err(subr_differs(alloc, index, user(references, index))),
        None => Ok(()),
    }
}
