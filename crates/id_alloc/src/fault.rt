use thiserror::Error;

/// Why no id is taken. The window is as before.
#[derive(Clone, Copy, Debug, PartialEq, Eq, Error)]
pub enum IdFault {
    /// The door answered so to this call's write.
    #[error("a later term was announced: {fence}")]
    OldTerm { fence: u64 },
    /// The window is used up, and the next one would end at 2^63 or later.
    #[error("no ids are left")]
    Spent,
    /// The door answered so to this call's write.
    #[error("the window was saved by another, at revision {found}")]
    Conflict { found: u64 },
    /// The door answered so to this call's write.
    #[error("there are too many keys or entries")]
    Limit,
    /// Want of memory, and nothing else.
    #[error("out of memory")]
    NoMemory,
}
