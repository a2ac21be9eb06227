ghost use Rattle.std.specs.Prelude.{◌≡◌};
ghost use Rattle.pd_ctl.specs.declared.fault.CtlFault.TheVariants as faults;

use pd_types::NoMemory as OutOfMemory;
use std::alloc::AllocError;
use thiserror::Error;

/// Why words are no command. They are tested for `Unknown` first, then for their number
/// (`MissingWord`, `ExtraWord`), and then one by one (`BadNumber`).
#[derive(Clone, Copy, Debug, PartialEq, Eq, Error)]
pub enum CtlFault {
    /// The first words are none of the table's.
    #[error("unknown")]
    Unknown,
    /// A word that stands for a number, a rate, a kind, a key or a name is none.
    #[error("bad-number")]
    BadNumber,
    /// Too few words stand behind the first ones.
    #[error("missing-word")]
    MissingWord,
    /// Too many words stand behind the first ones.
    #[error("extra-word")]
    ExtraWord,
    /// Want of memory, and nothing else.
    #[error("out of memory")]
    NoMemory,
}

impl From<OutOfMemory> for CtlFault {
    ghost from_gives = { λ _ fault. fault ≡ faults.NoMemory };

    fn from(_: OutOfMemory) -> CtlFault {
        CtlFault::NoMemory
    }
}

impl From<AllocError> for CtlFault {
    ghost from_gives = { λ _ fault. fault ≡ faults.NoMemory };

    fn from(_: AllocError) -> CtlFault {
        CtlFault::NoMemory
    }
}
