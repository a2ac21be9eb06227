use thiserror::Error;

/// Why a rule isn't set. The set is as before.
#[derive(Clone, Copy, Debug, PartialEq, Eq, Error)]
pub enum SetFault {
    #[error("there are 64 rules")]
    Limit,
    /// Want of memory, and nothing else.
    #[error("out of memory")]
    NoMemory,
}

/// Why a rule isn't removed. The set is as before.
#[derive(Clone, Copy, Debug, PartialEq, Eq, Error)]
pub enum RemoveFault {
    #[error("there is no such rule")]
    Absent,
    #[error("there is no other rule")]
    LastRule,
}
