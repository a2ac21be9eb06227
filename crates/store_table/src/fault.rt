use thiserror::Error;

/// Why a call on a store is refused. A refused call leaves all stores as they were.
#[derive(Clone, Copy, Debug, PartialEq, Eq, Error)]
pub enum StoreFault {
    #[error("the store is not known")]
    UnknownStore,
    #[error("the store is a tombstone")]
    Tombstone,
    #[error("the store is not offline")]
    NotOffline,
    #[error("there are 256 stores")]
    Limit,
    /// Want of memory, and nothing else.
    #[error("out of memory")]
    NoMemory,
}
