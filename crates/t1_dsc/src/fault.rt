//! Why documents aren't joined.

ghost use Rattle.std.specs.Prelude.{◌≡◌, Some};
ghost use Rattle.t1_dsc.specs.declared.fault.PagesFault.TheVariants.{Memory};

use std::alloc::AllocError;
use std::fmt;

/// Why documents aren't joined.
#[derive(Clone, Copy, Debug, PartialEq, Eq)]
pub enum PagesFault {
    /// The joined document is longer than it may be.
    TooLong,
    /// A growth was refused. This may come in place of the other fault.
    Memory,
}

impl fmt::Display for PagesFault {
    ghost use Rattle.t1_dsc.specs.Limits.{fault_text};

    ghost output = { λ fault. Some (fault_text fault) };

    fn fmt<W: fmt::Write>(&self, f: &mut fmt::Formatter<W>) -> fmt::Result {
        match self {
            PagesFault::TooLong => f.write_str("document too long"),
            PagesFault::Memory => f.write_str("out of memory"),
        }
    }
}

impl std::error::Error for PagesFault {}

impl From<AllocError> for PagesFault {
    ghost from_gives = { λ _ e. e ≡ Memory };

    fn from(_e: AllocError) -> PagesFault {
        PagesFault::Memory
    }
}
