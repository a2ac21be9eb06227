// What the calls of a driver answer.
use pd_types::CellWord;

/// What a lead answers. Times are in milliseconds.
#[derive(Clone, Copy, Debug, Drop, PartialEq, Eq)]
pub enum LeadReply {
    /// The driver holds this term, with a window from `lo` to `hi`.
    Won { term: u64, lo: u64, hi: u64 },
    /// The campaign found another cell than the one read just before. The driver is as it was.
    Beaten { found: CellWord },
    /// The term was claimed, but its save found another cell. The driver holds no term.
    Lost { found: CellWord },
    /// The cell has the last term. The driver is as it was.
    TermsSpent,
    /// The window's end would be at 2^45 milliseconds or later. The driver is as it was.
    ClockRange,
}

/// What a tick answers. Times are in milliseconds.
#[derive(Clone, Copy, Debug, Drop, PartialEq, Eq)]
pub enum TickReply {
    /// The cursor was raised to `next`, and the held window ends at `hi`.
    Moved { next: u64, hi: u64 },
    /// There is nothing to do at this moment.
    Idle,
    /// The save found another cell. The driver holds no term.
    Lost { found: CellWord },
    /// A new end would be at 2^45 milliseconds or later. The driver is as it was.
    ClockRange,
    /// The driver holds no term.
    NotLeading,
}
