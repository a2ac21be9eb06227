// What views keep of the steps that were made.
use pd_types::{Batch, Seen, Window};

/// A window, with the saved time at which it was claimed.
#[derive(Clone, Copy, Debug, Drop)]
pub struct Claim {
    pub window: Window,
    pub at: u64,
}

/// A limit that was looked up: how far the driver may grant in this term.
#[derive(Clone, Copy, Debug, Drop)]
pub struct Limit {
    pub driver: u8,
    pub term: u64,
    pub hi: u64,
}

/// A value that a driver raised its cursor to.
#[derive(Clone, Copy, Debug, Drop)]
pub struct Start {
    pub driver: u8,
    pub at: u64,
}

/// A cursor that a driver found, with the greatest start that it had then, or 0.
#[derive(Clone, Copy, Debug, Drop)]
pub struct Found {
    pub driver: u8,
    pub cursor: u64,
    pub start: u64,
}

/// A word that a driver stored as its limit, 0 among them.
#[derive(Clone, Copy, Debug, Drop)]
pub struct Published {
    pub driver: u8,
    pub word: u64,
}

/// A limit word that a client loaded, with what it had seen at that moment.
#[derive(Clone, Copy, Debug, Drop)]
pub struct Look {
    pub client: u8,
    pub driver: u8,
    pub word: u64,
    pub seen: Seen,
}

/// A draw that was refused: `count` more than the cursor `at` don't fit below `hi`. `sum` is all
/// that its client had added at that driver before it.
#[derive(Clone, Copy, Debug, Drop)]
pub struct Refusal {
    pub client: u8,
    pub driver: u8,
    pub at: u64,
    pub hi: u64,
    pub count: u64,
    pub sum: u64,
}

/// A batch, and the client that drew it.
#[derive(Clone, Copy, Debug, Drop)]
pub struct Grant {
    pub client: u8,
    pub batch: Batch,
}

/// A count that a client added to a driver's cursor, granted or not.
#[derive(Clone, Copy, Debug, Drop)]
pub struct Added {
    pub client: u8,
    pub driver: u8,
    pub count: u64,
}
