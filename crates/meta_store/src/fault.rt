use thiserror::Error;

/// Why a call isn't accepted. Want of memory alone leaves no entry.
#[derive(Clone, Copy, Debug, PartialEq, Eq, Error)]
pub enum MetaFault {
    #[error("a later term was announced: {fence}")]
    OldTerm { fence: u64 },
    #[error("the key has revision {found}")]
    Conflict { found: u64 },
    #[error("there are too many keys or entries")]
    Limit,
    /// Want of memory, and nothing else.
    #[error("out of memory")]
    NoMemory,
}
