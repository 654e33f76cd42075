//! Glyphs that execute a Subr that their font lacks and that another font of a list has.

ghost use Rattle.std.specs.{Prelude.{◌≡◌, ◌<◌, ℕ, IfOk, IfErr, OnOk}, Option.{option_map}};
ghost use Rattle.t1_font.specs.FontValue.{declared_count};
ghost use Rattle.t1_algebra.specs.Lacks.{user_of, is_had, lack_at, lack_in, first_lack};
ghost use Rattle.t1_subset.specs.{Lacks.{lack_view, have_same_subrs}, Users.{user_at}, Budgets.{font_tokens, rejoin_tokens, lack_tokens, StopsWithin}};
ghost use Rattle.t1_run.specs.{Budgets.{Spends, HasFewer}, declared.budget.Stop.TheVariants.{TooManyTokens}};

use crate::state_making::uses_of;
use crate::users::{UserArray, first_user, reached_below};
use std::alloc::Global;
use t1_font::Font;
use t1_run::{Budget, Stop, Subroutines};

/// A Subr that a glyph executes, that its font declares and lacks, and that another font has.
#[derive(Clone, Copy, PartialEq, Eq, Debug)]
pub struct Lack<'a> {
    /// The index of the Subr.
    pub index: u16,
    /// The name of the glyph.
    pub glyph: &'a [u8],
}

/// Whether one of the fonts has a Subr at the index.
fn is_had(fonts: &[Font<'_>], index: u16) -> bool
    ensures { result ≡ is_had fonts.now index }
{
    'fonts: for font in fonts {
        if font.subr(index).is_some() {
            return true;
        }
    }
    false
}

/// Whether all fonts have Subrs at the indices at which the first has them.
fn have_same_subrs(first: &Font<'_>, fonts: &[Font<'_>]) -> bool
    ensures { result ≡ have_same_subrs first.now fonts.now }
{
    'fonts: for font in fonts {
        if !first.subrs().same_numbers(font.subrs()) {
            return false;
        }
    }
    true
}

/// The index with the smallest glyph of a font that executes it, if the font has no Subr there and one of the fonts has.
fn lack_at<'a>(
    fonts: &[Font<'a>],
    font: &Font<'a>,
    user: Option<&'a [u8]>,
    index: u16,
) -> Option<Lack<'a>>
    requires { option_map (λ n. n.now) user ≡ user_of font.now index }
    ensures { option_map lack_view result ≡ lack_at fonts.now font.now index }
{
    let glyph = user?;
    if font.subr(index).is_some() || !is_had(fonts, index) {
        return None;
    }
    Some(Lack { index, glyph })
}

/// The smallest index that a font declares and lacks, that one of its glyphs executes and that one of the fonts has, with the
/// smallest such glyph.
pub(crate) fn lack_by<'a>(
    fonts: &[Font<'a>],
    font: &Font<'a>,
    users: &UserArray<'a>,
) -> Option<Lack<'a>>
    requires { (i : ℕ)
        → i < declared_count font.now.shell.subrs
        → user_at users.now.items i ≡ user_of font.now i }
    ensures { option_map lack_view result ≡ lack_in fonts.now font.now }
{
    'indices: for index in 0..reached_below(users, font.count()) {
        let lack = lack_at(fonts, font, first_user(users, index), index);
        if lack.is_some() {
            return lack;
        }
    }
    None
}

/// The smallest index that a font declares and lacks, that one of its glyphs executes and that one of the fonts has, with the
/// smallest such glyph, within a budget. Each glyph of the font is run once.
fn lack_in<'a>(
    alloc: Global,
    fonts: &[Font<'a>],
    font: &Font<'a>,
    budget: &mut Budget,
) -> Result<Option<Lack<'a>>, Stop>
    ensures lack { IfOk result (λ lack. option_map lack_view lack ≡ lack_in fonts.now font.now) }
    ensures takes { OnOk result (Spends (font_tokens font.now) budget.old.left budget.new.left) }
    ensures refused { IfErr result (λ e. e ≡ TooManyTokens
        → HasFewer budget.old.left (font_tokens font.now)) }
{
    let uses = uses_of(alloc, font, budget)?;
    Ok(lack_by(fonts, font, &uses.users))
}

/// The first of the fonts that has a glyph that executes a Subr that the font declares and lacks and that another of the fonts has, by
/// the runs of all glyphs of the fonts up to it, within a budget.
pub(crate) fn lack_by_runs<'a>(
    alloc: Global,
    fonts: &[Font<'a>],
    budget: Budget,
) -> Result<Option<Lack<'a>>, Stop>
    ensures lack { IfOk result (λ lack. option_map lack_view lack ≡ first_lack fonts.now) }
    ensures within { StopsWithin budget.left (rejoin_tokens fonts.now) result }
{
    let mut left = budget;
    'fonts: for font in fonts {
        if let Some(lack) = lack_in(alloc, fonts, font, &mut left)? {
            return Ok(Some(lack));
        }
    }
    Ok(None)
}

/// The first of the fonts that has a glyph that executes a Subr that the font declares and lacks and that another of the fonts has:
/// the smallest such index, and the smallest such glyph. If a stub stood there, the glyph would draw something else.
///
/// If all fonts have Subrs at the same indices, none lacks any, and no glyph is run. Else the glyphs of the fonts are run up to the
/// first that lacks a Subr.
///
/// # Errors
///
/// Want of memory, and [`Stop::TooManyTokens`] if these runs execute more tokens than are left in the budget.
pub fn first_lack<'a>(
    alloc: Global,
    fonts: &[Font<'a>],
    budget: Budget,
) -> Result<Option<Lack<'a>>, Stop>
    ensures lack { IfOk result (λ lack. option_map lack_view lack ≡ first_lack fonts.now) }
    ensures within { StopsWithin budget.left (lack_tokens fonts.now) result }
{
    let [first, ..] = fonts else {
        return Ok(None);
    };
    if have_same_subrs(first, fonts) {
        return Ok(None);
    }
    lack_by_runs(alloc, fonts, budget)
}
