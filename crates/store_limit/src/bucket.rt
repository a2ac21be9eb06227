ghost use Rattle.std.specs.Prelude.{◌≡◌, ◌≤◌};
ghost use Rattle.store_limit.specs.Level.{available_at, charged, full_at, rated};

use std::marker::Model;

/// The units of one peer: a rate of one peer a minute gains one unit a millisecond.
pub const PEER_UNITS: u64 = 60_000;

/// The rate of a store that is new, in peers a minute (pd-ctl `store limit`).
pub const START_RATE: u64 = 15;

/// The greatest rate, in peers a minute (own choice).
pub const MAX_RATE: u64 = 1_000_000;

/// A bucket of units: its rate, and the content that it had at a moment. Contracts see these
/// three numbers.
#[derive(Clone, Copy, Debug)]
pub struct Bucket {
    rate: u64,
    content: u64,
    moment: u64,
}

impl Model for Bucket {
    ghost use Rattle.std.specs.Prelude.{◌≤◌};
    ghost use Rattle.store_limit.specs.declared.bucket.TheConstants.{MAX_RATE};
    ghost use Rattle.store_limit.specs.Level.{Level};

    ghost Value = { Level };

    ghost view = { λ b. record { rate = b.rate; content = b.content; moment = b.moment } };

    ghost invariant = { λ b. b.rate ≤ MAX_RATE };

    ghost inverse = { λ level. record { rate = level.rate; content = level.content; moment = level.moment } };
}

/// The two buckets of a store.
#[derive(Clone, Copy, Debug)]
pub struct Buckets {
    pub add: Bucket,
    pub remove: Bucket,
}

impl Bucket {
    /// A full bucket, at a rate in peers a minute.
    pub fn full(rate: u64, now: u64) -> Bucket
        requires { rate ≤ MAX_RATE }
        ensures value { result ≡ full_at rate now }
    {
        Bucket {
            rate,
            content: rate * PEER_UNITS,
            moment: now,
        }
    }

    /// The units that it holds at a moment in milliseconds.
    pub fn available(&self, now: u64) -> u64
        ensures value { result ≡ available_at self.now now }
    {
        let gained = self.rate.saturating_mul(now.saturating_sub(self.moment));
        self.content
            .saturating_add(gained)
            .min(self.rate * PEER_UNITS)
    }

    /// The bucket after a charge of one peer.
    pub fn charge(&self, now: u64) -> Bucket
        requires { PEER_UNITS ≤ available_at self.now now }
        ensures value { result ≡ charged self.now now }
    {
        Bucket {
            rate: self.rate,
            content: self.available(now) - PEER_UNITS,
            moment: self.moment.max(now),
        }
    }

    /// The bucket from a new rate on: what it holds is cut to what that rate allows.
    pub fn with_rate(&self, rate: u64, now: u64) -> Bucket
        requires { rate ≤ MAX_RATE }
        ensures value { result ≡ rated self.now rate now }
    {
        Bucket {
            rate,
            content: self.available(now).min(rate * PEER_UNITS),
            moment: now.max(self.moment),
        }
    }
}
