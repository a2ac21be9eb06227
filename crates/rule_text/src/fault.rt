ghost use Rattle.std.specs.Prelude.{◌≡◌};
ghost use Rattle.rule_text.specs.declared.fault.RuleFault.TheVariants as faults;

use std::alloc::{AllocError, AllocFailed};
use thiserror::Error;

/// Why a text isn't read as a rule. The tests stand in this order, each over the whole rule before
/// the next.
#[derive(Clone, Copy, Debug, PartialEq, Eq, Error)]
pub enum RuleFault {
    #[error("not one JSON text")]
    NotJson,
    #[error("not an object")]
    NotObject,
    #[error("a field is missing")]
    Missing,
    #[error("a field is not of its kind")]
    WrongKind,
    #[error("a key is not hexadecimal, or too long")]
    BadHex,
    #[error("an unknown role")]
    BadRole,
    #[error("an unknown operator")]
    BadOp,
    #[error("a count out of range")]
    BadCount,
    #[error("the range is empty")]
    EmptyRange,
    #[error("an isolation level is set")]
    IsolationLevel,
    /// Want of memory, and nothing else.
    #[error("out of memory")]
    NoMemory,
}

impl From<AllocError> for RuleFault {
    ghost from_gives = { λ _ e. e ≡ faults.NoMemory };

    fn from(_: AllocError) -> Self {
        RuleFault::NoMemory
    }
}

impl<T: Drop> From<AllocFailed<T>> for RuleFault {
    ghost from_gives = { λ _ e. e ≡ faults.NoMemory };

    fn from(_: AllocFailed<T>) -> Self {
        RuleFault::NoMemory
    }
}

impl From<pd_types::NoMemory> for RuleFault {
    ghost from_gives = { λ _ e. e ≡ faults.NoMemory };

    fn from(_: pd_types::NoMemory) -> Self {
        RuleFault::NoMemory
    }
}
