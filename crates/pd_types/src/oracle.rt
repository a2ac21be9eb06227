ghost use Rattle.std.specs.Prelude.{◌≡◌, ◌+◌, ◌<◌, ◌≤◌, ℕ};
ghost use Rattle.pd_types.specs.Batch.{first_of, Holds};

use crate::{Duplicate, NoMemory};
use std::alloc::Global;

/// Saved times are below this, in milliseconds since the epoch.
pub const CLOCK_END: u64 = 1 << 45;

/// The last term. It fits one word beside a saved time.
pub const LAST_TERM: u64 = 262143;

/// The greatest number of a driver.
pub const MAX_DRIVERS: u64 = 7;

/// The greatest number of a client.
pub const MAX_CLIENTS: u64 = 64;

const _: () = prove!(CLOCK_END == 35_184_372_088_832 && LAST_TERM == 262_143);

const _: () = prove!(MAX_DRIVERS == 7 && MAX_CLIENTS == 64);

/// A batch of timestamps (pdpb `TsoResponse`): the `count` numbers that end with `last`, drawn in
/// `term` at `driver`. A batch that was granted has a count from 1 to its last.
#[derive(Clone, Copy, Debug, PartialEq, Eq)]
pub struct Batch {
    pub term: u64,
    pub driver: u8,
    pub last: u64,
    pub count: u64,
}

impl Batch {
    /// The first timestamp, for a batch with a count from 1 to its last.
    pub fn first(&self) -> u64
        requires some { 0 < self.now.count }
        requires within { self.now.count ≤ self.now.last }
        ensures value { result ≡ first_of self.now }
    {
        self.last - self.count + 1
    }
}

/// The guarded cell of all drivers: the end of the last saved window, in milliseconds since the
/// epoch and below `CLOCK_END`, and the last term, at most `LAST_TERM`.
#[derive(Clone, Copy, Debug, PartialEq, Eq)]
pub struct CellWord {
    pub saved: u64,
    pub term: u64,
}

/// The window of a term: its driver may grant timestamps from `lo` up to `hi`, in milliseconds
/// since the epoch. Before the first save of the term both are the saved time at which it was
/// claimed.
#[derive(Clone, Copy, Debug, PartialEq, Eq)]
pub struct Window {
    pub term: u64,
    pub driver: u8,
    pub lo: u64,
    pub hi: u64,
}

/// The greatest term, and in it the greatest timestamp, that a caller has seen; zeros before the
/// first.
#[derive(Clone, Copy, Debug, PartialEq, Eq)]
pub struct Seen {
    pub term: u64,
    pub last: u64,
}

/// Who acts: a driver or a client by its number from 1, or a store by its id.
#[derive(Clone, Copy, Debug, PartialEq, Eq)]
pub enum Actor {
    Driver(u8),
    Client(u8),
    Store(u64),
}

impl Duplicate for Batch {
    fn copy(&self, _alloc: Global) -> Result<Batch, NoMemory> {
        Ok(*self)
    }
}

impl Duplicate for CellWord {
    fn copy(&self, _alloc: Global) -> Result<CellWord, NoMemory> {
        Ok(*self)
    }
}

impl Duplicate for Window {
    fn copy(&self, _alloc: Global) -> Result<Window, NoMemory> {
        Ok(*self)
    }
}

impl Duplicate for Seen {
    fn copy(&self, _alloc: Global) -> Result<Seen, NoMemory> {
        Ok(*self)
    }
}

/// Where one batch ends before another begins, no timestamp is in both.
pub fn batches_apart_share_no_timestamp()
    ensures apart { (a b : Batch) (ts : ℕ) → a.last < first_of b → Holds a ts → Holds b ts → ⊥ }
{}

/// A batch has as many timestamps as its count: as many numbers lie from its first to its last.
pub fn batches_have_their_count()
    ensures count { (b : Batch) → 0 < b.count → b.count ≤ b.last → first_of b + b.count ≡ b.last + 1 }
{}
