//! All conflicts of two fonts.

ghost use Rattle.std.specs.{Prelude.{◌≡◌, ◌↔◌, [], ◌∷◌, ◌||◌, not, cond, map, filter, IfOk, IfErr, OnOk, IsTrue}, Option.{option_map}};
ghost use Rattle.t1_join.specs.Meaning.{of_number};
ghost use Rattle.t1_algebra.specs.{Profile.{profile}, Searches.{passing}, Shared.{same_part}, Keep.{has}, States.{Join}};
ghost use Rattle.t1_algebra.specs.Conflicts.{ShellDiffers, CodeDiffers, GlyphDiffers, agrees, codes_of_both, keys_of_both, code_clashes, glyph_clashes};
ghost use Rattle.t1_algebra.specs.Conflicts.{glyphs_of_both, component_clashes, subr_clashes, lacks_component, subr_differs, states_conflicts, conflicts};
ghost use Rattle.t1_run.specs.{Budgets.{Spends, HasFewer}, declared.budget.Stop.TheVariants.{TooManyTokens}};
ghost use Rattle.t1_subset.specs.{Budgets.{font_tokens, fonts_tokens, StopsWithin}, Differences.{shell_part}, References.{IsNoted}};
ghost use Rattle.t1_subset.specs.Refusals.{Adds, AddsOne, TellEach};
ghost use Rattle.std.specs.FinMap as maps;

use crate::closure_names::has_glyph;
use crate::conflict::{Conflict, ShellPart};
use crate::references::{References, seeker_in, smaller};
use crate::searches::{glyph_differs, lacks_component, subr_differs};
use crate::shared::{PARTS, Shared, same_bytes, same_part};
use crate::state_making::note_font;
use crate::state_value::States;
use crate::users::user_in;
use std::alloc::{AllocError, Global};
use t1_font::Font;
use t1_join::{Join, Table, push_item};
use t1_run::{Budget, Stop};

/// A font's references and states.
#[derive(Drop)]
struct Side<'t, 'a> {
    references: References<'t, 'a>,
    states: States<'a>,
}

/// The references and the states of a font, within a budget. Each glyph of the font is run once.
fn side_of<'t, 'a>(
    alloc: Global,
    font: &'t Font<'a>,
    budget: &mut Budget,
) -> Result<Side<'t, 'a>, Stop>
    ensures font { IfOk result (λ side. side.references.font.now ≡ font.now) }
    ensures noted { IfOk result (λ side. IsNoted side.references side.states) }
    ensures takes { OnOk result (Spends (font_tokens font.now) budget.old.left budget.new.left) }
    ensures refused { IfErr result (λ e. e ≡ TooManyTokens
        → HasFewer budget.old.left (font_tokens font.now)) }
{
    font.proof_is_font();
    let (references, states) = note_font(alloc, font, Shared::of(alloc, font)?, budget)?;
    Ok(Side { references, states })
}

/// Adds a conflict, unless it is want of memory.
fn add(all: &mut Vec<Conflict>, conflict: Conflict) -> Result<(), AllocError>
    ensures { OnOk result (AddsOne conflict all.old.items all.new.items) }
{
    match conflict {
        Conflict::Memory => Err(AllocError),
        conflict => push_item(all, conflict),
    }
}

/// Whether both are there and differ.
fn clash(own: Option<&[u8]>, other: Option<&[u8]>) -> bool
    ensures { result
        ≡ not (agrees (option_map (λ b. b.now) own.entry) (option_map (λ b. b.now) other.entry)) }
{
    match (own, other) {
        (Some(own), Some(other)) => !same_bytes(own, other),
        _ => false,
    }
}

/// The state at a number.
fn state_at<'a>(states: &Table<u16, &'a [u8]>, number: u16) -> Option<&'a [u8]>
    ensures { option_map (λ b. b.now) result ≡ maps.get states.now (of_number number) }
{
    match states.get(&number) {
        Some(state) => Some(*state),
        None => None,
    }
}

/// Whether the states at a number differ.
fn clash_at(own: &Table<u16, &[u8]>, other: &Table<u16, &[u8]>, number: u16) -> bool
    ensures { result
        ≡ not (agrees (maps.get own.now (of_number number)) (maps.get other.now (of_number number))) }
{
    clash(state_at(own, number), state_at(other, number))
}

/// Adds the part, if it differs.
fn add_part(
    all: &mut Vec<Conflict>,
    own: &Shared<'_>,
    other: &Shared<'_>,
    part: ShellPart,
) -> Result<(), AllocError>
    ensures { OnOk result (Adds all.old.items all.new.items
        (cond (not (same_part own.now other.now (shell_part part))) (ShellDiffers (shell_part part) ∷ []) [])) }
{
    if same_part(own, other, part) {
        Ok(())
    } else {
        add(all, Conflict::Shell { part })
    }
}

/// Adds those of these parts that differ.
fn add_parts(
    all: &mut Vec<Conflict>,
    own: &Shared<'_>,
    other: &Shared<'_>,
    parts: &[ShellPart],
) -> Result<(), AllocError>
    ensures { OnOk result (Adds all.old.items all.new.items
        (map ShellDiffers (filter (λ part. not (same_part own.now other.now part))
        (map shell_part parts.now)))) }
{
    'parts: for part in parts {
        add_part(all, own, other, *part)?;
    }
    Ok(())
}

/// Adds the code, if its names differ.
fn add_code(
    all: &mut Vec<Conflict>,
    own: &Table<u16, &[u8]>,
    other: &Table<u16, &[u8]>,
    code: u8,
) -> Result<(), AllocError>
    ensures { OnOk result (Adds all.old.items all.new.items
        (cond (not (agrees (maps.get own.now (of_number code)) (maps.get other.now (of_number code))))
        (CodeDiffers code ∷ []) [])) }
{
    if clash_at(own, other, u16::from(code)) {
        add(all, Conflict::Code { code })
    } else {
        Ok(())
    }
}

/// Adds each code with two names that differ.
fn add_codes(
    all: &mut Vec<Conflict>,
    own: &Side<'_, '_>,
    other: &Side<'_, '_>,
) -> Result<(), AllocError>
    requires own { IsNoted own.now.references own.now.states }
    requires other { IsNoted other.now.references other.now.states }
    ensures { OnOk result (Adds all.old.items all.new.items
        (map CodeDiffers (passing (code_clashes own.now.references.font.now other.now.references.font.now)
        (codes_of_both own.now.references.font.now.encoding other.now.references.font.now.encoding)))) }
{
    let names = own.states.codes();
    let others = other.states.codes();
    'codes: for code in 0..256u16 {
        add_code(all, names, others, code as u8)?;
    }
    Ok(())
}

/// Adds the glyph, if its charstrings differ.
fn add_glyph(
    alloc: Global,
    all: &mut Vec<Conflict>,
    own: &Font<'_>,
    other: &Font<'_>,
    name: &[u8],
) -> Result<(), AllocError>
    ensures { OnOk result (Adds all.old.items all.new.items
        (cond (glyph_clashes own.now other.now name.now) (GlyphDiffers name.now ∷ []) [])) }
{
    if clash(own.charstring(name), other.charstring(name)) {
        add(all, glyph_differs(alloc, name))
    } else {
        Ok(())
    }
}

/// Adds each glyph of both fonts with two charstrings that differ.
fn add_glyphs(
    alloc: Global,
    all: &mut Vec<Conflict>,
    own: &Font<'_>,
    other: &Font<'_>,
) -> Result<(), AllocError>
    ensures { OnOk result (Adds all.old.items all.new.items
        (map GlyphDiffers (passing (glyph_clashes own.now other.now) (glyphs_of_both own.now other.now)))) }
{
    'names: for name in own.names() {
        add_glyph(alloc, all, own, other, name)?;
    }
    Ok(())
}

/// Whether one of two fonts has the name.
fn is_in_either(own: &Font<'_>, other: &Font<'_>, name: &[u8]) -> bool
    ensures { result ≡ (has own.now name.now || has other.now name.now) }
{
    has_glyph(own, name) || has_glyph(other, name)
}

/// Adds the component with the smallest glyph that names it in a font that lacks it, if the other font has it.
fn add_component(
    alloc: Global,
    all: &mut Vec<Conflict>,
    own: &Side<'_, '_>,
    other: &Side<'_, '_>,
    component: &[u8],
) -> Result<(), AllocError>
    requires own { IsNoted own.now.references own.now.states }
    requires other { IsNoted other.now.references other.now.states }
    ensures { OnOk result (Adds all.old.items all.new.items
        (cond (component_clashes profile own.now.references.font.now other.now.references.font.now component.now)
        (lacks_component profile own.now.references.font.now other.now.references.font.now component.now ∷ []) [])) }
{
    if !is_in_either(own.references.font, other.references.font, component) {
        return Ok(());
    }
    let seeker = smaller(
        seeker_in(&own.references.seekers, component),
        seeker_in(&other.references.seekers, component),
    );
    match seeker {
        Some(glyph) => add(all, lacks_component(alloc, Some(glyph), component)),
        None => Ok(()),
    }
}

/// Adds each component that one font has and the other lacks and seeks.
fn add_components(
    alloc: Global,
    all: &mut Vec<Conflict>,
    own: &Side<'_, '_>,
    other: &Side<'_, '_>,
) -> Result<(), AllocError>
    requires own { IsNoted own.now.references own.now.states }
    requires other { IsNoted other.now.references other.now.states }
    ensures { OnOk result (Adds all.old.items all.new.items
        (map (lacks_component profile own.now.references.font.now other.now.references.font.now)
        (passing (component_clashes profile own.now.references.font.now other.now.references.font.now)
        (glyphs_of_both own.now.references.font.now other.now.references.font.now)))) }
{
    let sought = own
        .references
        .seekers
        .entries_with(&other.references.seekers);
    'sought: for (component, _) in sought {
        add_component(alloc, all, own, other, component)?;
    }
    Ok(())
}

/// Adds the Subr with the smallest glyph of either font that executes it, if its states differ.
fn add_subr(
    alloc: Global,
    all: &mut Vec<Conflict>,
    own: &Side<'_, '_>,
    other: &Side<'_, '_>,
    index: u16,
) -> Result<(), AllocError>
    requires own { IsNoted own.now.references own.now.states }
    requires other { IsNoted other.now.references other.now.states }
    ensures { OnOk result (Adds all.old.items all.new.items
        (cond (subr_clashes profile own.now.references.font.now other.now.references.font.now index)
        (subr_differs profile own.now.references.font.now other.now.references.font.now index ∷ []) [])) }
{
    if !clash_at(own.states.subrs(), other.states.subrs(), index) {
        return Ok(());
    }
    let user = smaller(
        user_in(&own.references.users, index),
        user_in(&other.references.users, index),
    );
    add(all, subr_differs(alloc, index, user))
}

/// Adds each Subr with two states that differ.
fn add_subrs(
    alloc: Global,
    all: &mut Vec<Conflict>,
    own: &Side<'_, '_>,
    other: &Side<'_, '_>,
) -> Result<(), AllocError>
    requires own { IsNoted own.now.references own.now.states }
    requires other { IsNoted other.now.references other.now.states }
    ensures { OnOk result (Adds all.old.items all.new.items
        (map (subr_differs profile own.now.references.font.now other.now.references.font.now)
        (passing (subr_clashes profile own.now.references.font.now other.now.references.font.now)
        (keys_of_both own.now.references.font.now.subrs other.now.references.font.now.subrs)))) }
{
    'indices: for index in own.references.font.indices() {
        add_subr(alloc, all, own, other, index)?;
    }
    Ok(())
}

/// All conflicts of the shells and states of two fonts.
fn states_conflicts(
    alloc: Global,
    own: &Side<'_, '_>,
    other: &Side<'_, '_>,
) -> Result<Vec<Conflict>, AllocError>
    requires own { IsNoted own.now.references own.now.states }
    requires other { IsNoted other.now.references other.now.states }
    ensures { IfOk result (λ all. TellEach all.items
        (states_conflicts profile own.now.references.font.now other.now.references.font.now)) }
{
    let mut all = Vec::new(alloc);
    add_parts(&mut all, own.states.shared(), other.states.shared(), &PARTS)?;
    add_codes(&mut all, own, other)?;
    add_glyphs(alloc, &mut all, own.references.font, other.references.font)?;
    add_components(alloc, &mut all, own, other)?;
    add_subrs(alloc, &mut all, own, other)?;
    Ok(all)
}

/// Whether there are no conflicts.
fn is_none(all: &[Conflict]) -> bool
    ensures { IsTrue result ↔ (all.now ≡ []) }
{
    match all {
        [] => true,
        _ => false,
    }
}

/// All conflicts of two fonts.
fn all_conflicts(
    alloc: Global,
    own: &Side<'_, '_>,
    other: &Side<'_, '_>,
) -> Result<Vec<Conflict>, AllocError>
    requires own { IsNoted own.now.references own.now.states }
    requires other { IsNoted other.now.references other.now.states }
    ensures { IfOk result (λ all. TellEach all.items
        (conflicts profile own.now.references.font.now other.now.references.font.now)) }
{
    let mut all = states_conflicts(alloc, own, other)?;
    if !is_none(all.as_slice()) {
        return Ok(all);
    }
    if own.states.agrees(&other.states) {
        return Ok(all);
    }
    push_item(&mut all, Conflict::Limit)?;
    Ok(all)
}

/// The same as [`conflicts`] within a budget, out of which each run takes its tokens. It is refused with [`Stop::TooManyTokens`] if the
/// runs of the glyphs of both fonts execute more than are left. Each glyph is run once, and once more if it runs OtherSubr 3, or not at
/// all if the one before it has the same charstring.
pub fn conflicts_within<'a>(
    alloc: Global,
    left: &Font<'a>,
    right: &Font<'a>,
    budget: Budget,
) -> Result<Vec<Conflict>, Stop>
    ensures all { IfOk result (λ all. TellEach all.items (conflicts profile left.now right.now)) }
    ensures joins { IfOk result (λ all. (all.items ≡ []) ↔ Join profile left.now right.now) }
    ensures within { StopsWithin budget.left (fonts_tokens (left.now ∷ right.now ∷ [])) result }
{
    let mut budget = budget;
    let own = side_of(alloc, left, &mut budget)?;
    let other = side_of(alloc, right, &mut budget)?;
    match all_conflicts(alloc, &own, &other) {
        Ok(all) => Ok(all),
        Err(_) => Err(Stop::Memory),
    }
}

/// All conflicts of two fonts, the lowest first: each part of the shells that differs, each code, each glyph, each component
/// that one font lacks and the other has, with its smallest caller, and each Subr, with its smallest user. If there is none of
/// these, the limits may be one. There are none exactly if the fonts join, and the first is the one that
/// [`merge`](crate::merge) refuses them for. In both orders of the fonts they are the same, and want of memory and `Empty` are
/// never among them.
///
/// Each glyph is run once.
pub fn conflicts<'a>(
    alloc: Global,
    left: &Font<'a>,
    right: &Font<'a>,
) -> Result<Vec<Conflict>, AllocError>
    ensures all { IfOk result (λ all. TellEach all.items (conflicts profile left.now right.now)) }
    ensures joins { IfOk result (λ all. (all.items ≡ []) ↔ Join profile left.now right.now) }
{
    match conflicts_within(alloc, left, right, Budget { left: None }) {
        Ok(all) => Ok(all),
        Err(_) => Err(AllocError),
    }
}
