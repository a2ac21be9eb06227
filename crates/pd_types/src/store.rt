use crate::{Duplicate, Labels, NoMemory, Text};
use std::alloc::Global;

/// A location label of a store (metapb `StoreLabel`). An absent label has the empty value.
#[derive(Debug, Drop, PartialEq)]
pub struct Label {
    pub key: Text,
    pub value: Text,
}

/// The state of a store (metapb `StoreState`).
#[derive(Clone, Copy, Debug, PartialEq, Eq)]
pub enum StoreState {
    Up,
    Offline,
    Tombstone,
}

/// A store (metapb `Store`).
#[derive(Debug, Drop, PartialEq)]
pub struct StoreRec {
    pub id: u64,
    pub address: Text,
    pub labels: Labels,
    pub state: StoreState,
}

impl Duplicate for Label {
    fn copy(&self, alloc: Global) -> Result<Label, NoMemory> {
        Ok(Label {
            key: self.key.copy(alloc)?,
            value: self.value.copy(alloc)?,
        })
    }
}

impl Duplicate for StoreRec {
    fn copy(&self, alloc: Global) -> Result<StoreRec, NoMemory> {
        Ok(StoreRec {
            id: self.id,
            address: self.address.copy(alloc)?,
            labels: self.labels.copy(alloc)?,
            state: self.state,
        })
    }
}
