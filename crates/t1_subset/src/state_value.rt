//! The states of a font, as one value.

use crate::name_states::NameTable;
use crate::shared::Shared;
use std::marker::Model;
use t1_join::Table;

/// The states of a font: what fonts have to share to join, and the states of its codes, names and Subrs.
///
/// The state of a code is its name, if the Encoding is a table. The state of a name is its charstring, or that a glyph of
/// the font names it as a component and the font lacks it. The state of a Subr is its entry, unless that is a `return`
/// that no glyph of the font executes (Adobe Type 1 Font Format 1.1, chapters 2, 6 and 8). Any other state is nothing,
/// which joins with every state.
#[derive(Drop)]
pub struct States<'a> {
    pub(crate) shared: Shared<'a>,
    pub(crate) codes: Table<u16, &'a [u8]>,
    pub(crate) names: NameTable<'a>,
    pub(crate) subrs: Table<u16, &'a [u8]>,
}

impl<'a> Model for States<'a> {
    ghost use Rattle.t1_algebra.specs.StateTables.{StatesValue, states_code, StatesFit};

    ghost Value = { StatesValue };

    ghost coded = { states_code };

    ghost view = { λ s. (s.shared, (s.codes, (s.names, s.subrs))) };

    ghost invariant = { λ s. StatesFit (s.shared, (s.codes, (s.names, s.subrs))) };
}
