ghost use Rattle.std.specs.Prelude.{◌≡◌};
ghost use Rattle.tso_core.specs.Done.{reply_of};

use crate::Reply;
use pd_types::{Batch, CellWord, Window};

/// What a step did, by the word that it found.
#[derive(Clone, Copy, Debug, Drop)]
pub enum Done {
    /// The cell was loaded.
    Read { cell: CellWord },
    /// The next term was claimed. Its window has no length before its first save.
    Claimed { window: Window },
    /// The cell was another one than the driver knew.
    Beaten { found: CellWord },
    /// A later end of the held window was saved.
    Saved { hi: u64 },
    /// The cell was another one than that of the held window.
    Lost { found: CellWord },
    /// The cursor was raised to this, or stood there or above.
    Raised { cursor: u64 },
    /// The held window's end was stored as the limit, or 0.
    Published { hi: u64 },
    /// The limit was 0.
    NoLimit,
    /// The limit's term is below the seen one.
    Stale { seen_term: u64 },
    /// The limit is in hand.
    Looked { term: u64, hi: u64 },
    /// The count is armed.
    Armed { at: u64 },
    /// The count passed at this cursor.
    Refused { at: u64, hi: u64, n: u64 },
    /// The count was drawn.
    Granted { batch: Batch },
}

impl Done {
    /// The answer to a step that did this.
    #[inline(always)]
    pub fn reply(self) -> Reply
        ensures value { result ≡ reply_of self }
    {
        match self {
            Done::Read { cell } => Reply::CellRead { cell },
            Done::Claimed { window } => Reply::Claimed { term: window.term },
            Done::Beaten { found } => Reply::Beaten { found },
            Done::Saved { hi } => Reply::Saved { hi },
            Done::Lost { found } => Reply::Lost { found },
            Done::Raised { cursor } => Reply::Raised { cursor },
            Done::Published { hi } => Reply::Published { hi },
            Done::NoLimit => Reply::NotLeader,
            Done::Stale { seen_term } => Reply::Stale { seen_term },
            Done::Looked { term, hi } => Reply::Looked { term, hi },
            Done::Armed { at } => Reply::Armed { at },
            Done::Refused { at, hi, n } => Reply::Again { at, hi, n },
            Done::Granted { batch } => Reply::Got { batch },
        }
    }
}
