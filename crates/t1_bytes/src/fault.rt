//! Why a file has no flat text, or no cipher.

ghost use Rattle.std.specs.Prelude.{◌≡◌, Some};
ghost use Rattle.t1_bytes.specs.declared.fault.BytesFault.TheVariants.{Memory};

use std::alloc::{AllocError, AllocFailed};
use std::fmt;

/// The refusals of this crate.
#[derive(Clone, Copy, Debug, PartialEq, Eq)]
pub enum BytesFault {
    /// At this offset of the file there is neither a segment nor the end of the segments.
    BadSegment { at: usize },
    /// No `eexec` stands after `currentfile` and white space and before a blank, tab, CR or LF.
    NoEexec,
    /// Fewer than four cipher bytes follow `eexec`.
    ShortCipher,
    /// A growth was refused. This may come in place of any other fault.
    Memory,
}

impl fmt::Display for BytesFault {
    ghost use Rattle.t1_bytes.specs.FaultTexts.{fault_text};

    ghost output = { λ fault. Some (fault_text fault) };

    fn fmt<W: fmt::Write>(&self, f: &mut fmt::Formatter<W>) -> fmt::Result {
        match self {
            BytesFault::BadSegment { at } => write!(f, "bad segment at {at}"),
            BytesFault::NoEexec => f.write_str("no eexec"),
            BytesFault::ShortCipher => f.write_str("cipher too short"),
            BytesFault::Memory => f.write_str("out of memory"),
        }
    }
}

impl std::error::Error for BytesFault {}

impl From<AllocError> for BytesFault {
    ghost from_gives = { λ _ e. e ≡ Memory };

    fn from(_e: AllocError) -> BytesFault {
        BytesFault::Memory
    }
}

impl<T: Drop> From<AllocFailed<T>> for BytesFault {
    ghost from_gives = { λ _ e. e ≡ Memory };

    fn from(_e: AllocFailed<T>) -> BytesFault {
        BytesFault::Memory
    }
}
