ghost use Rattle.std.specs.Prelude.{◌≡◌, ◌↔◌, IsTrue};
ghost use Rattle.store_table.specs.Live.{live_test, usable_test, state_name, IsLive, IsUsable};

use crate::StateName;
use pd_types::{StoreRec, StoreState};

/// A live store's last heartbeat came at most this many milliseconds ago.
pub const LIVE_MS: u64 = 20_000;

/// A usable store was silent for at most this many milliseconds.
pub const USABLE_MS: u64 = 1_800_000;

/// A store that is known in a term.
#[derive(Debug, Drop)]
pub struct StoreEntry {
    pub store: StoreRec,
    /// The moment in milliseconds from which the store's silence is counted in this term.
    pub began: u64,
    /// The greatest moment of its heartbeats in this term, in milliseconds.
    pub beat: Option<u64>,
}

impl StoreEntry {
    /// Whether the store answers at the moment `now`.
    pub fn is_live(&self, now: u64) -> bool
        ensures live { IsTrue result ↔ IsLive self.now now }
        ensures value { result ≡ live_test self.now now }
    {
        let recent = match self.beat {
            Some(beat) => now.saturating_sub(beat) <= LIVE_MS,
            None => false,
        };
        recent && self.store.state != StoreState::Tombstone
    }

    /// Whether the store may hold peers at the moment `now`.
    pub fn is_usable(&self, now: u64) -> bool
        ensures usable { IsTrue result ↔ IsUsable self.now now }
        ensures value { result ≡ usable_test self.now now }
    {
        let heard = match self.beat {
            Some(beat) => beat.max(self.began),
            None => self.began,
        };
        self.store.state == StoreState::Up && now.saturating_sub(heard) <= USABLE_MS
    }

    /// How pd-ctl names the store's state at the moment `now`.
    pub fn state_name(&self, now: u64) -> StateName
        ensures value { result ≡ state_name self.now now }
    {
        match self.store.state {
            StoreState::Tombstone => StateName::Tombstone,
            StoreState::Offline => StateName::Offline,
            StoreState::Up => {
                if !self.is_usable(now) {
                    StateName::Down
                } else if !self.is_live(now) {
                    StateName::Disconnected
                } else {
                    StateName::Up
                }
            }
        }
    }
}
