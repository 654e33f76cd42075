//! A caller of `t1_run`.

ghost use Rattle.std.specs.Prelude.{◌≡◌, IfOk};
ghost use Rattle.t1_run.specs.Drawings.{draw};
ghost use Rattle.t1_example.specs.Widths.{width_in};

use std::alloc::{AllocError, Global};
use t1_run::{Drawing, Glyphs, lay_out};

/// How far a glyph moves the pen to the right, in counts of 1/65536 unit, or nothing if it can't be drawn.
pub fn width<F: Glyphs>(alloc: Global, font: &F, name: &[u8]) -> Result<Option<i64>, AllocError>
    ensures { IfOk result (λ w. w ≡ width_in (draw (F.subrs font.now) (F.glyphs font.now) name.now)) }
{
    match lay_out(alloc, font, name)? {
        Drawing::Drawn { width, .. } => Ok(Some(width.x)),
        Drawing::Failed(_) => Ok(None),
    }
}
