// What the metadata keeps: records, and the calls that wrote them.
use pd_types::{Bytes, Duplicate, NoMemory, Seq};
use std::alloc::Global;

/// A record: its key, its bytes, and the number of accepted writes up to the one that wrote it.
#[derive(Debug, Drop)]
pub struct Cell {
    pub key: Bytes,
    pub revision: u64,
    pub bytes: Bytes,
}

/// Records by rising key.
pub type Cells = Seq<Cell>;

/// A call: a term is announced, or a key is written or deleted where its revision is the expected
/// one, 0 for a key without a record.
#[derive(Debug, Drop)]
pub enum MetaCall {
    Lead {
        term: u64,
    },
    Put {
        term: u64,
        key: Bytes,
        expected: u64,
        bytes: Bytes,
    },
    Delete {
        term: u64,
        key: Bytes,
        expected: u64,
    },
}

/// What becomes of a call. An accepted one tells the number of accepted writes after it.
#[derive(Clone, Copy, Debug, PartialEq, Eq)]
pub enum MetaVerdict {
    Accepted { revision: u64 },
    OldTerm { fence: u64 },
    Conflict { found: u64 },
    Limit,
}

/// A call of a driver with its verdict.
#[derive(Debug, Drop)]
pub struct MetaEntry {
    pub driver: u8,
    pub call: MetaCall,
    pub verdict: MetaVerdict,
}

/// All calls, in their order.
pub type MetaJournal = Seq<MetaEntry>;

/// What a driver heard of a call. An accepted announcement has the records that were handed out,
/// and the revision 0; every other answer has no records.
#[derive(Debug, Drop)]
pub struct MetaAnswer {
    pub call: MetaCall,
    pub verdict: MetaVerdict,
    pub cells: Cells,
}

/// Answers, in their order.
pub type MetaAnswers = Seq<MetaAnswer>;

impl Duplicate for Cell {
    fn copy(&self, alloc: Global) -> Result<Cell, NoMemory> {
        Ok(Cell {
            key: self.key.copy(alloc)?,
            revision: self.revision,
            bytes: self.bytes.copy(alloc)?,
        })
    }
}
