//! Layouts of a font's glyphs: what a glyph draws, without its marks, which are drawn part by part.

ghost use Rattle.std.specs.Prelude.{◌≡◌, IfOk, OnOk};
ghost use Rattle.t1_run.specs.{Run.{direct, marks_made}, Pens.{Draws}, Drawings.{draw, marks_of, IsPlain}, Pictures.{picture_of, EachPart, traced, IsPlainIn}};

use crate::answer::Hints;
use crate::composed::compose;
use crate::drawings::Drawing;
use crate::pens::Pen;
use crate::run::run_freely;
use crate::subr_set::SubrSet;
use crate::subroutines::{Glyphs, Subroutines};
use std::alloc::{AllocError, Global};

/// What the glyph of a name draws, as [`draw`](crate::draw) answers it, but with the charstrings of its parts in place of
/// their marks, which [`trace`] draws (Adobe Type 1 Font Format 1.1, chapters 6 and 8). It runs the charstrings and keeps
/// no mark, so the memory that it takes doesn't grow with what they draw. It fails only for want of memory: that a
/// glyph can't be drawn is an answer.
pub fn lay_out<'f, F: Glyphs>(
    alloc: Global,
    font: &'f F,
    name: &[u8],
) -> Result<Drawing<&'f [u8]>, AllocError>
    ensures picture { IfOk result (λ d. picture_of (traced (F.subrs font.now)) d
        ≡ draw (F.subrs font.now) (F.glyphs font.now) name.now) }
    ensures plain { IfOk result (EachPart (IsPlainIn (F.subrs font.now))) }
{
    compose(alloc, font, Hints::Replaced, name)
}

/// Draws the marks of a plain charstring by a pen, one after another, in a font with these Subrs, where hints are replaced
/// (Adobe Type 1 Font Format 1.1, chapters 6 and 8): those that it makes up to its end or its fault. A plain glyph's are
/// those that [`direct`](crate::direct) answers; an accented glyph's are those before its `seac`, and none of its parts. It
/// keeps none itself. It fails only for want of memory, and what the pen has drawn then is not told.
pub fn trace<S: Subroutines, P: Pen>(
    alloc: Global,
    subrs: &S,
    charstring: &[u8],
    pen: &mut P,
) -> Result<(), AllocError>
    ensures drawn { OnOk result (IsPlain (direct (S.subrs subrs.now) charstring.now)
        → Draws P.marked (P.page pen.old) (P.page pen.new)
        (marks_of (direct (S.subrs subrs.now) charstring.now))) }
    ensures made { OnOk result (Draws P.marked (P.page pen.old) (P.page pen.new)
        (marks_made Hints.Replaced (S.subrs subrs.now) charstring.now)) }
{
    let mut called = SubrSet::new(alloc);
    run_freely(subrs, Hints::Replaced, charstring, pen, &mut called)?;
    Ok(())
}
