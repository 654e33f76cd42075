//! Why there is no joined file.

use std::alloc::AllocError;
use t1_font::ReadFault;
use t1_subset::{Conflict, SubsetFault};

/// Why there is no joined file: what the first call that fails answers.
#[derive(PartialEq, Eq, Debug, Drop)]
pub enum Refusal {
    /// A file spells no font.
    Read(ReadFault),
    /// The font lacks a name.
    Subset(SubsetFault),
    /// The subsets don't merge.
    Merge(Conflict),
    /// A growth was refused.
    Memory,
}

impl From<ReadFault> for Refusal {
    ghost use Rattle.std.specs.Prelude.{◌≡◌};
    ghost use Rattle.t1_example.specs.declared.refusal.Refusal.TheVariants.{Read};

    ghost from_gives = { λ fault e. e ≡ Read fault };

    fn from(fault: ReadFault) -> Refusal {
        Refusal::Read(fault)
    }
}

impl From<SubsetFault> for Refusal {
    ghost use Rattle.std.specs.Prelude.{◌≡◌};
    ghost use Rattle.t1_example.specs.declared.refusal.Refusal.TheVariants.{Subset};

    ghost from_gives = { λ fault e. e ≡ Subset fault };

    fn from(fault: SubsetFault) -> Refusal {
        Refusal::Subset(fault)
    }
}

impl From<Conflict> for Refusal {
    ghost use Rattle.std.specs.Prelude.{◌≡◌};
    ghost use Rattle.t1_example.specs.declared.refusal.Refusal.TheVariants.{Merge};

    ghost from_gives = { λ conflict e. e ≡ Merge conflict };

    fn from(conflict: Conflict) -> Refusal {
        Refusal::Merge(conflict)
    }
}

impl From<AllocError> for Refusal {
    ghost use Rattle.std.specs.Prelude.{◌≡◌};
    ghost use Rattle.t1_example.specs.declared.refusal.Refusal.TheVariants.{Memory};

    ghost from_gives = { λ _ e. e ≡ Memory };

    fn from(_error: AllocError) -> Refusal {
        Refusal::Memory
    }
}
