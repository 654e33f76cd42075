//! The smallest glyph that executes each Subr of a font, and the smallest that names each component that the font lacks.

ghost use Rattle.std.specs.{Prelude.{◌≡◌, ◌&&◌, ℕ, List, not, OnOk, None, Some, cond, map}, Option.{option_map}, List.{list_any}};
ghost use Rattle.t1_font.specs.FontValue.{name_cmp};
ghost use Rattle.t1_algebra.specs.{Interpreter.{same_bytes}, States.{joined_option}, Keep.{has}};
ghost use Rattle.t1_subset.specs.{Differences.{smaller}, References.{user_from, seeker_from}};
ghost use Rattle.std.specs.FinMap as maps;

use crate::closure_names::has_glyph;
use crate::users::{Users, user_in};
use std::alloc::{AllocError, Global};
use t1_font::Font;
use t1_join::Table;

/// The smallest glyph that names each component that a font lacks.
pub(crate) type Seekers<'a> = Table<&'a [u8], &'a [u8]>;

/// Notes a glyph that names the component, unless there is a smaller one or the font has the component.
fn note_seeker<'a>(
    font: &Font<'_>,
    seekers: &mut Seekers<'a>,
    component: &'a [u8],
    glyph: &'a [u8],
) -> Result<(), AllocError>
    ensures { (q : List ℕ)
        → OnOk result (maps.get seekers.new q
        ≡ joined_option (maps.get seekers.old q)
        (cond (not (has font.now q) && same_bytes q component.now)
        (Some glyph.now) None)) }
{
    if has_glyph(font, component) {
        return Ok(());
    }
    match seekers.get(&component) {
        Some(_) => Ok(()),
        None => seekers.insert(component, glyph),
    }
}

/// Notes a glyph that names these components, for each of them that the font lacks.
pub(crate) fn note_seekers<'a>(
    font: &Font<'_>,
    seekers: &mut Seekers<'a>,
    components: &[&'static str],
    glyph: &'a [u8],
) -> Result<(), AllocError>
    ensures { (q : List ℕ)
        → OnOk result (maps.get seekers.new q
        ≡ joined_option (maps.get seekers.old q)
        (cond (not (has font.now q) && list_any (same_bytes q)
        (map (λ s. s.now) components.now)) (Some glyph.now) None)) }
{
    'components: for component in components {
        note_seeker(font, seekers, component.as_bytes(), glyph)?;
    }
    Ok(())
}

/// A font, the glyphs that execute its Subrs, and the glyphs that name the components that it lacks.
#[derive(Drop)]
pub(crate) struct References<'t, 'a> {
    pub(crate) font: &'t Font<'a>,
    pub(crate) users: Users<'a>,
    pub(crate) seekers: Seekers<'a>,
}

/// The smaller of two names, or the one that is there.
pub(crate) fn smaller<'a>(first: Option<&'a [u8]>, second: Option<&'a [u8]>) -> Option<&'a [u8]>
    ensures { option_map (λ n. n.now) result
        ≡ smaller name_cmp (option_map (λ n. n.now) first.entry)
        (option_map (λ n. n.now) second.entry) }
{
    match (first, second) {
        (Some(first), Some(second)) => {
            if second.cmp(first).is_lt() {
                Some(second)
            } else {
                Some(first)
            }
        }
        (None, second) => second,
        (first, None) => first,
    }
}

/// The smallest glyph that executes the index, among the references of some fonts.
pub(crate) fn user<'a>(references: &[References<'_, 'a>], index: u16) -> Option<&'a [u8]>
    ensures { option_map (λ n. n.now) result ≡ user_from None references.now index }
{
    let mut user = None;
    'references: for references in references {
        user = smaller(user, user_in(&references.users, index));
    }
    user
}

/// The glyph that seeks the component, in the references of a font.
pub(crate) fn seeker_in<'a>(seekers: &Seekers<'a>, component: &[u8]) -> Option<&'a [u8]>
    ensures { option_map (λ n. n.now) result ≡ maps.get seekers.now component.now }
{
    match seekers.get(&component) {
        Some(glyph) => Some(*glyph),
        None => None,
    }
}

/// The smallest glyph that names the component and whose font lacks it, among the references of some fonts.
pub(crate) fn seeker<'a>(references: &[References<'_, 'a>], component: &[u8]) -> Option<&'a [u8]>
    ensures { option_map (λ n. n.now) result ≡ seeker_from None references.now component.now }
{
    let mut seeker = None;
    'references: for references in references {
        seeker = smaller(seeker, seeker_in(&references.seekers, component));
    }
    seeker
}
