ghost use Rattle.std.specs.Prelude.{◌≡◌, ◌<◌, ◌≤◌, ◌↔◌, IsTrue, IsErr, IsSome, IfErr, OnOk, OnErr};
ghost use Rattle.std.specs.FinMap as map;
ghost use Rattle.store_limit.specs.Level.{full_at};
ghost use Rattle.store_limit.specs.Limits.{available_in, known, level_of, taken, with_level, with_rate};

use crate::bucket::{Bucket, Buckets};
use crate::{MAX_RATE, PEER_UNITS, START_RATE};
use id_map::IdMap;
use pd_types::NoMemory;
use std::alloc::Global;
use std::marker::Model;
use thiserror::Error;

/// Which peers a limit counts: those that a store gains, or those that it loses.
#[derive(Clone, Copy, Debug, PartialEq, Eq)]
pub enum LimitKind {
    AddPeer,
    RemovePeer,
}

/// A charge is refused: the bucket holds `available` units, fewer than the `needed` ones.
#[derive(Clone, Copy, Debug, PartialEq, Eq, Error)]
#[error("the store limit has {available} of {needed} units")]
pub struct Limited {
    pub available: u64,
    pub needed: u64,
}

/// The limits of all known stores. Contracts see them as a map from a store's id to the levels of
/// its two buckets.
#[derive(Drop)]
pub struct Limits {
    stores: IdMap<Buckets>,
}

impl Model for Limits {
    ghost use Rattle.std.specs.Ordering.{nat_cmp};
    ghost use Rattle.std.specs.FinMap as map;
    ghost use Rattle.std.specs.Coded.{coded_ℕ};
    ghost use Rattle.store_limit.specs.declared.bucket.Buckets.{Buckets};
    ghost use Rattle.store_limit.specs.contracts.bucket.Buckets as buckets;

    ghost Value = { map.FinMap nat_cmp Buckets };

    ghost coded = { map.code coded_ℕ buckets.the_row.coded };

    ghost view = { λ limits. limits.stores };
}

impl Buckets {
    // Both full, at the first rate.
    fn new(now: u64) -> Buckets
        ensures value { result ≡ record { add = full_at START_RATE now; remove = full_at START_RATE now } }
    {
        let bucket = Bucket::full(START_RATE, now);
        Buckets {
            add: bucket,
            remove: bucket,
        }
    }

    fn bucket(&self, kind: LimitKind) -> Bucket
        ensures value { result ≡ level_of kind self.now }
    {
        match kind {
            LimitKind::AddPeer => self.add,
            LimitKind::RemovePeer => self.remove,
        }
    }

    fn with(&self, kind: LimitKind, bucket: Bucket) -> Buckets
        ensures value { result ≡ with_level kind bucket self.now }
    {
        match kind {
            LimitKind::AddPeer => Buckets {
                add: bucket,
                remove: self.remove,
            },
            LimitKind::RemovePeer => Buckets {
                add: self.add,
                remove: bucket,
            },
        }
    }
}

impl Limits {
    /// No store is known. It takes no memory.
    pub fn new(alloc: Global) -> Limits
        ensures value { result ≡ map.empty }
    {
        Limits {
            stores: IdMap::new(alloc),
        }
    }

    /// Makes a store known at a moment in milliseconds, with two full buckets at 15 peers a minute.
    /// A known one stays as it is. Want of memory leaves the limits.
    pub fn know(&mut self, store: u64, now: u64) -> Result<(), NoMemory>
        ensures ok { OnOk result (self.new ≡ known self.old store now) }
        ensures err { OnErr result (self.new ≡ self.old) }
    {
        if self.stores.get(store).is_none() {
            self.stores.put(store, Buckets::new(now))?;
        }
        Ok(())
    }

    /// Sets the rate of a store's bucket, in peers a minute (pd-ctl `store limit`): false exactly
    /// where the store isn't known. What the bucket holds is cut to what the new rate allows.
    pub fn set_rate(&mut self, store: u64, kind: LimitKind, rate: u64, now: u64) -> bool
        requires { rate ≤ MAX_RATE }
        ensures known { IsTrue result ↔ IsSome (map.get self.old store) }
        ensures value { self.new ≡ with_rate self.old store kind rate now }
    {
        let Some(found) = self.stores.get(store) else {
            return false;
        };
        let buckets = *found;
        let bucket = buckets.bucket(kind).with_rate(rate, now);
        self.stores.set(store, buckets.with(kind, bucket));
        true
    }

    /// The units that a store's bucket holds at a moment in milliseconds, 0 where the store isn't
    /// known.
    pub fn available(&self, store: u64, kind: LimitKind, now: u64) -> u64
        ensures value { result ≡ available_in self.now store kind now }
    {
        match self.stores.get(store) {
            Some(buckets) => buckets.bucket(kind).available(now),
            None => 0,
        }
    }

    /// Charges a store's bucket one peer, 60,000 units, at a moment in milliseconds. A moment below
    /// the bucket's last one counts as that one. A refusal leaves the limits.
    pub fn take(&mut self, store: u64, kind: LimitKind, now: u64) -> Result<(), Limited>
        ensures ok { OnOk result (self.new ≡ taken self.old store kind now) }
        ensures limited { IsErr result ↔ (available_in self.old store kind now < PEER_UNITS) }
        ensures numbers { IfErr result (λ limited.
            limited ≡ record { available = available_in self.old store kind now; needed = PEER_UNITS }) }
        ensures err { OnErr result (self.new ≡ self.old) }
    {
        let available = self.available(store, kind, now);
        if available < PEER_UNITS {
            return Err(Limited {
                available,
                needed: PEER_UNITS,
            });
        }
        if let Some(found) = self.stores.get(store) {
            let buckets = *found;
            let bucket = buckets.bucket(kind).charge(now);
            self.stores.set(store, buckets.with(kind, bucket));
        }
        Ok(())
    }
}
