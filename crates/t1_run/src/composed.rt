//! Glyphs made of their parts: a plain glyph is one part, an accented glyph a base and an accent (Adobe Type 1 Font
//! Format 1.1, chapter 6).

ghost use Rattle.std.specs.Prelude.{◌≡◌, ◌+ℤ◌, ◌-ℤ◌, List, [], IfOk, IfSome, map, option_map};
ghost use Rattle.t1_run.specs.{declared.answer.Hints.{Hints}, declared.answer.Mark.{Mark}, State.{Seac}, Run.{Subrs, direct_by}};
ghost use Rattle.t1_run.specs.{Limits.{EndsWithinLimits, IsAccentWithin, IsWithin}, Machine.{ending_of}};
ghost use Rattle.t1_run.specs.Drawings.{outcome_at, accent_offset, accented_picture, of_two, parts_of, draw_by, draw, draw3, marks_of, IsPlain};
ghost use Rattle.t1_run.specs.{Composed.{own_ending, IsPlainOwn}, Pictures.{picture_of, EachPart}};

use crate::answer::{Accent, DrawFault, Halt, Hints, Mark, Metrics, Point};
use crate::drawings::{Drawing, DrawnPart};
use crate::parts::name_of_code;
use crate::pens::Blank;
use crate::run::run_freely;
use crate::subr_set::SubrSet;
use crate::subroutines::{Glyphs, Subroutines};
use std::alloc::{AllocError, Global};

/// What is kept of a run: the marks of a plain glyph, or the charstring that draws them.
pub(crate) trait Outline<'f>: Sized + Drop {
    ghost marks: { Hints → Subrs → Self → List Mark };

    ghost IsOfPlain: { Hints → Subrs → Self → Type 0 };

    /// How the run of a charstring ends, and what is kept of it.
    fn of<S: Subroutines>(
        alloc: Global,
        subrs: &S,
        hints: Hints,
        charstring: &'f [u8],
    ) -> Result<(Halt, Self), AllocError>
        ensures ending { IfOk result (λ own. own_ending (marks hints (S.subrs subrs.now)) own
            ≡ direct_by hints (S.subrs subrs.now) charstring.now) }
        ensures within { IfOk result (λ own. EndsWithinLimits (ending_of own.0 [])) }
        ensures plain { IfOk result (IsPlainOwn (IsOfPlain hints (S.subrs subrs.now))) };
}

impl<'f> Outline<'f> for Vec<Mark> {
    ghost marks = { λ hints subrs marks. marks.items };

    ghost IsOfPlain = { λ hints subrs marks. Unit {0} };

    fn of<S: Subroutines>(
        alloc: Global,
        subrs: &S,
        hints: Hints,
        charstring: &'f [u8],
    ) -> Result<(Halt, Vec<Mark>), AllocError> {
        let mut marks = Vec::new(alloc);
        let mut called = SubrSet::new(alloc);
        let (halt, _) = run_freely(subrs, hints, charstring, &mut marks, &mut called)?;
        Ok((halt, marks))
    }
}

impl<'f> Outline<'f> for &'f [u8] {
    ghost marks = { λ hints subrs c. marks_of (direct_by hints subrs c.now) };

    ghost IsOfPlain = { λ hints subrs c. IsPlain (direct_by hints subrs c.now) };

    fn of<S: Subroutines>(
        alloc: Global,
        subrs: &S,
        hints: Hints,
        charstring: &'f [u8],
    ) -> Result<(Halt, &'f [u8]), AllocError> {
        let mut called = SubrSet::new(alloc);
        let (halt, _) = run_freely(subrs, hints, charstring, &mut Blank, &mut called)?;
        Ok((halt, charstring))
    }
}

/// The run of the glyph of a name, if the font has it.
fn outcome<'f, F: Glyphs, T: Outline<'f>>(
    alloc: Global,
    font: &'f F,
    hints: Hints,
    name: &[u8],
) -> Result<Option<(Halt, T)>, AllocError>
    ensures outcome { IfOk result
        (λ o. option_map (own_ending (T.marks hints (F.subrs font.now))) o
        ≡ outcome_at hints (F.subrs font.now) (F.glyphs font.now) name.now) }
    ensures within { IfOk result
        (λ o. IfSome o (λ own. EndsWithinLimits (ending_of own.0 []))) }
    ensures plain { IfOk result
        (λ o. IfSome o (IsPlainOwn (T.IsOfPlain hints (F.subrs font.now)))) }
{
    match font.glyph(name) {
        Some(charstring) => Ok(Some(T::of(alloc, font, hints, charstring)?)),
        None => Ok(None),
    }
}

/// The sum of two values, minus a third.
fn sum_less(a: i64, b: i64, c: i64) -> i64
    requires first { IsWithin a }
    requires second { IsWithin b }
    requires third { IsWithin c }
    ensures { result ≡ (a +ℤ b) -ℤ c }
{
    a + b - c
}

/// The offset of an accent.
fn accent_offset(accent: Accent) -> Point
    requires { IsAccentWithin accent }
    ensures { result ≡ accent_offset accent }
{
    Point {
        x: sum_less(accent.metrics.bearing.x, accent.adx, accent.asb),
        y: accent.ady,
    }
}

/// A part at this offset.
fn place<T>(offset: Point, marks: T) -> DrawnPart<T>
    ensures { result ≡ record { dx = offset.x; dy = offset.y; marks = marks } }
{
    DrawnPart {
        dx: offset.x,
        dy: offset.y,
        marks,
    }
}

/// A glyph of these metrics and parts.
fn drawn<T>(metrics: Metrics, parts: Vec<DrawnPart<T>>) -> Drawing<T>
    ensures { result ≡ Drawing.Drawn metrics.width metrics.bearing parts }
{
    Drawing::Drawn {
        width: metrics.width,
        sb: metrics.bearing,
        parts,
    }
}

/// An accented glyph, by the runs of its base and its accent.
fn of_two<'f, T: Outline<'f>>(
    alloc: Global,
    glyph: Accent,
    base: Option<(Halt, T)>,
    accent: Option<(Halt, T)>,
) -> Result<Drawing<T>, AllocError>
    requires { IsAccentWithin glyph }
    ensures picture { IfOk result (λ d. (marks : T → List Mark) → picture_of marks d
        ≡ of_two glyph (option_map (own_ending marks) base) (option_map (own_ending marks) accent)) }
    ensures plain { IfOk result (λ d. (hints : Hints) (subrs : Subrs)
        → IfSome base (IsPlainOwn (T.IsOfPlain hints subrs))
        → IfSome accent (IsPlainOwn (T.IsOfPlain hints subrs))
        → EachPart (T.IsOfPlain hints subrs) d) }
{
    match (base, accent) {
        (Some((Halt::Plain(_), base)), Some((Halt::Plain(_), accent))) => {
            let mut parts = Vec::new(alloc);
            parts.push(place(Point::default(), base))?;
            parts.push(place(accent_offset(glyph), accent))?;
            Ok(drawn(glyph.metrics, parts))
        }
        (None, _) | (_, None) => Ok(Drawing::Failed(DrawFault::MissingPart)),
        (Some((Halt::Seac(_), _)), _) | (_, Some((Halt::Seac(_), _))) => {
            Ok(Drawing::Failed(DrawFault::NestedSeac))
        }
        _ => Ok(Drawing::Failed(DrawFault::PartFault)),
    }
}

/// An accented glyph.
fn accented<'f, F: Glyphs, T: Outline<'f>>(
    alloc: Global,
    font: &'f F,
    hints: Hints,
    glyph: Accent,
) -> Result<Drawing<T>, AllocError>
    requires { IsAccentWithin glyph }
    ensures picture { IfOk result (λ d. picture_of (T.marks hints (F.subrs font.now)) d
        ≡ accented_picture glyph
        (map (outcome_at hints (F.subrs font.now) (F.glyphs font.now)) (parts_of (Seac glyph)))) }
    ensures plain { IfOk result (EachPart (T.IsOfPlain hints (F.subrs font.now))) }
{
    let (Some(base), Some(accent)) = (name_of_code(glyph.base), name_of_code(glyph.accent)) else {
        return Ok(Drawing::Failed(DrawFault::NoPart));
    };
    let base = outcome(alloc, font, hints, base.as_bytes())?;
    let accent = outcome(alloc, font, hints, accent.as_bytes())?;
    of_two(alloc, glyph, base, accent)
}

/// What the glyph of a name draws, by what is kept of its parts. Each glyph is run once.
pub(crate) fn compose<'f, F: Glyphs, T: Outline<'f>>(
    alloc: Global,
    font: &'f F,
    hints: Hints,
    name: &[u8],
) -> Result<Drawing<T>, AllocError>
    ensures picture { IfOk result (λ d. picture_of (T.marks hints (F.subrs font.now)) d
        ≡ draw_by hints (F.subrs font.now) (F.glyphs font.now) name.now) }
    ensures plain { IfOk result (EachPart (T.IsOfPlain hints (F.subrs font.now))) }
{
    match outcome(alloc, font, hints, name)? {
        None => Ok(Drawing::Failed(DrawFault::NoGlyph)),
        Some((Halt::Plain(metrics), own)) => {
            let mut parts = Vec::new(alloc);
            parts.push(place(Point::default(), own))?;
            Ok(drawn(metrics, parts))
        }
        Some((Halt::Seac(glyph), _)) => accented(alloc, font, hints, glyph),
        Some((Halt::Failed(fault), _)) => Ok(Drawing::Failed(DrawFault::Run(fault))),
    }
}

/// What the glyph of a name, without its `/`, draws in a font (Adobe Type 1 Font Format 1.1, chapter 6). An accented
/// glyph has a width and a side bearing of its own; its accent is offset by sbx + adx - asb and ady. Its parts are found by
/// StandardEncoding, never by the font's own encoding. If several faults apply to its parts, the first in the order of
/// [`DrawFault`] is answered. It fails only for want of memory: that a glyph can't be drawn is an answer.
pub fn draw<F: Glyphs>(alloc: Global, font: &F, name: &[u8]) -> Result<Drawing, AllocError>
    ensures picture { IfOk result (λ d. picture_of (λ marks. marks.items) d
        ≡ draw (F.subrs font.now) (F.glyphs font.now) name.now) }
{
    compose(alloc, font, Hints::Replaced, name)
}

/// The same as [`draw`] for an interpreter that keeps hints: a glyph and its parts are run as by
/// [`direct3`](crate::direct3).
pub fn draw3<F: Glyphs>(alloc: Global, font: &F, name: &[u8]) -> Result<Drawing, AllocError>
    ensures picture { IfOk result (λ d. picture_of (λ marks. marks.items) d
        ≡ draw3 (F.subrs font.now) (F.glyphs font.now) name.now) }
{
    compose(alloc, font, Hints::Kept, name)
}
