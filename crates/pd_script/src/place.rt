ghost use Rattle.std.specs.Prelude.{◌≡◌};
ghost use Rattle.pd_script.specs.Places.{least, most, read_place};

use crate::Reason;
use pd_lines::number;
use pd_types::{CLOCK_END, LAST_TERM, MAX_COUNT, MOMENT_END};

/// How many workers check all regions at most.
pub const MAX_WORKERS: u64 = 16;

const _: () = prove!(MAX_WORKERS == 16);

/// What may stand in a place of a line.
#[derive(Clone, Copy, Debug, PartialEq, Eq)]
pub enum Place {
    /// A driver's number, from 1.
    Driver,
    /// A client's number, from 1.
    Client,
    /// A moment in milliseconds since the epoch.
    Moment,
    /// A count of timestamps.
    Count,
    /// A saved time in milliseconds since the epoch.
    Saved,
    Term,
    /// The id of a store, a region or a peer, from 1.
    Id,
    /// A version or conf_ver of a region.
    Version,
    /// For how many seconds a peer is down.
    Seconds,
    /// How many workers check all regions.
    Workers,
}

impl Place {
    /// The least number of the place.
    pub fn least(self) -> u64
        ensures value { result ≡ least self }
    {
        match self {
            Place::Driver | Place::Client | Place::Count | Place::Id => 1,
            Place::Moment | Place::Saved | Place::Term => 0,
            Place::Version | Place::Seconds => 0,
            Place::Workers => 1,
        }
    }

    /// The greatest number of the place.
    pub fn most(self) -> u64
        ensures value { result ≡ most self }
    {
        match self {
            Place::Driver | Place::Client => u64::MAX,
            Place::Moment => MOMENT_END - 1,
            Place::Saved => CLOCK_END - 1,
            Place::Count => MAX_COUNT,
            Place::Term => LAST_TERM,
            Place::Id | Place::Version => (1 << 63) - 1,
            Place::Seconds => (1 << 32) - 1,
            Place::Workers => MAX_WORKERS,
        }
    }
}

/// The number that a word stands for in a place.
pub fn read_place(place: Place, word: &[u8]) -> Result<u64, Reason>
    ensures value { result ≡ read_place place word.now }
{
    match number(word) {
        None => Err(Reason::BadNumber),
        Some(n) => {
            if place.least() <= n && n <= place.most() {
                Ok(n)
            } else {
                Err(Reason::OutOfRange)
            }
        }
    }
}
