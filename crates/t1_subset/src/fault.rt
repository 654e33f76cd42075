//! Why there is no closure or subset of a set of names, and why fonts don't rejoin.

ghost use Rattle.std.specs.Prelude.{Some};
ghost use Rattle.t1_subset.specs.FaultTexts.{subset_text, rejoin_text};

use crate::conflict::Conflict;
use std::alloc::AllocError;
use std::fmt;
use t1_join::Shown;

/// Why there is no closure or subset of a set of names.
#[derive(PartialEq, Eq, Debug, Drop)]
pub enum SubsetFault {
    /// The font lacks this name, the first of those asked for that it lacks.
    NoSuchGlyph { name: Vec<u8> },
    /// A growth was refused.
    Memory,
}

impl fmt::Display for SubsetFault {
    ghost output = { λ fault. Some (subset_text fault) };

    fn fmt<W: fmt::Write>(&self, f: &mut fmt::Formatter<W>) -> fmt::Result {
        match self {
            SubsetFault::NoSuchGlyph { name } => write!(f, "no glyph {}", Shown(name.as_slice())),
            SubsetFault::Memory => f.write_str("out of memory"),
        }
    }
}

impl std::error::Error for SubsetFault {}

/// Why fonts don't rejoin.
#[derive(PartialEq, Eq, Debug, Drop)]
pub enum RejoinFault {
    /// A glyph executes a Subr that its font declares and lacks, and that another of the fonts has. The font is the first such one,
    /// the index the smallest, and the glyph the smallest that executes it.
    Lacks { glyph: Vec<u8>, index: u16 },
    /// The fonts, filled, don't merge, or one of them is too heavy.
    Merge(Conflict),
}

impl fmt::Display for RejoinFault {
    ghost output = { λ fault. Some (rejoin_text fault) };

    fn fmt<W: fmt::Write>(&self, f: &mut fmt::Formatter<W>) -> fmt::Result {
        match self {
            RejoinFault::Lacks { glyph, index } => {
                write!(f, "glyph {} lacks subr {index}", Shown(glyph.as_slice()))
            }
            RejoinFault::Merge(conflict) => write!(f, "{conflict}"),
        }
    }
}

impl std::error::Error for RejoinFault {}

impl From<AllocError> for RejoinFault {
    ghost use Rattle.std.specs.Prelude.{◌≡◌};
    ghost use Rattle.t1_subset.specs.{declared.conflict.Conflict.TheVariants.{Memory}, declared.fault.RejoinFault.TheVariants.{Merge}};

    ghost from_gives = { λ _ e. e ≡ Merge Memory };

    fn from(_fault: AllocError) -> RejoinFault {
        RejoinFault::Merge(Conflict::Memory)
    }
}
