//! The font that is made of states.

ghost use Rattle.std.specs.Prelude.{◌≡◌, IfOk};
ghost use Rattle.t1_algebra.specs.{Profile.{profile}, StateTables.{states_of}, Merges.{AreOfFont}};

use crate::state_value::States;
use std::alloc::{AllocError, Global};
use t1_font::{Font, SparseArray};

impl<'a> States<'a> {
    /// The font of these states, which are those of a font.
    pub(crate) fn into_font(self, alloc: Global) -> Result<Font<'a>, AllocError>
        requires { AreOfFont self }
        ensures { IfOk result (λ font. self.entry ≡ states_of profile font) }
    {
        let States {
            shared,
            codes,
            names,
            subrs,
        } = self;
        let subrs = SparseArray::with_stubs(alloc, &shared.subrs, &subrs)?;
        let codes = SparseArray::of_table(codes);
        let font = shared.shell.font(codes, subrs, names.into_glyphs());
        Ok(font.unwrap())
    }
}
