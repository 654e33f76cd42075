//! Why files don't join.

ghost use Rattle.std.specs.Prelude.{Some};
ghost use Rattle.t1_classes.specs.Texts.{refusal_text};

use std::fmt;
use t1_font::ReadFault;
use t1_subset::RejoinFault;

/// Why files don't join.
#[derive(PartialEq, Eq, Debug, Drop)]
pub enum Refusal {
    /// One of them spells no font; it is the first such one.
    Unread(ReadFault),
    /// Their fonts, normalized, don't rejoin.
    Unlike(RejoinFault),
}

impl fmt::Display for Refusal {
    ghost output = { λ why. Some (refusal_text why) };

    fn fmt<W: fmt::Write>(&self, f: &mut fmt::Formatter<W>) -> fmt::Result {
        match self {
            Refusal::Unread(fault) => write!(f, "{fault}"),
            Refusal::Unlike(fault) => write!(f, "{fault}"),
        }
    }
}
