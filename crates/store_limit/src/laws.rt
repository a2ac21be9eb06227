ghost use Rattle.std.specs.Prelude.{◌≡◌, ◌≢◌, ℕ, ◌+◌, ◌-◌, ◌*◌, ◌≤◌, List, None, Some};
ghost use Rattle.std.specs.FinMap as map;
ghost use Rattle.store_limit.specs.Level.{Level, available_at, cap_of, charged, full_at, rated};
ghost use Rattle.store_limit.specs.Limits.{available_in, known, level_of, taken, with_level, with_rate, StoreLimits};
ghost use Rattle.store_limit.specs.declared.bucket.Buckets.{Buckets};
ghost use Rattle.store_limit.specs.declared.limits.LimitKind.{LimitKind};
ghost use Rattle.store_limit.specs.declared.limits.LimitKind.TheVariants.{AddPeer, RemovePeer};
ghost use Rattle.store_limit.specs.Charges.{AreLawful, count_between, latest, least_after, level_after};

use crate::{MAX_RATE, PEER_UNITS, START_RATE};

/// The one level that a bucket keeps gives the least over all charges since its rate began, and
/// the charges between two moments are within the rate: a full bucket and what it gains between.
/// A charge that `Limits::take` accepts makes the level that `charged` names, so this holds of each
/// list of them whose moments don't fall. A charge at an earlier moment counts as one at the last.
pub fn one_number_is_the_least_over_all_charges()
    ensures least { (level : Level) (charges : List ℕ) (now : ℕ) → AreLawful level charges →
        latest level charges ≤ now →
        available_at (level_after level charges) now ≡ least_after level charges now }
    ensures within { (level : Level) (charges : List ℕ) (from upto : ℕ) →
        AreLawful level charges → from ≤ upto →
        PEER_UNITS * count_between from upto charges ≤ cap_of level.rate + level.rate * (upto - from) }
{}

/// A charge or a new rate at a moment below the last one counts as one at the last: the same is
/// available, and the same level is left.
pub fn an_earlier_moment_counts_as_the_last()
    ensures available { (level : Level) (now : ℕ) → now ≤ level.moment →
        available_at level now ≡ available_at level level.moment }
    ensures charged { (level : Level) (now : ℕ) → now ≤ level.moment →
        charged level now ≡ charged level level.moment }
    ensures rated { (level : Level) (rate now : ℕ) → now ≤ level.moment →
        rated level rate now ≡ rated level rate level.moment }
{}

/// A full bucket holds as many peers as its rate, and gains one in a minute over its rate.
pub fn a_peer_is_sixty_thousand_units()
    ensures full { (rate now : ℕ) → available_at (full_at rate now) now ≡ rate * 60000 }
    ensures gains { (level : Level) (passed : ℕ) →
        level.content + level.rate * passed ≤ level.rate * 60000 →
        available_at level (level.moment + passed) ≡ level.content + level.rate * passed }
    ensures costs { (level : Level) (now : ℕ) → level.moment ≤ now → 60000 ≤ available_at level now →
        available_at (charged level now) now + 60000 ≡ available_at level now }
{}

/// A new rate gives nothing: a bucket holds no more than before, and no more than the rate's cap. It
/// takes nothing below that cap either, and a bucket gains by it from then on.
pub fn a_new_rate_gives_nothing()
    ensures kept { (level : Level) (rate now : ℕ) → level.moment ≤ now →
        available_at (rated level rate now) now ≤ available_at level now }
    ensures cut { (level : Level) (rate now : ℕ) →
        available_at (rated level rate now) now ≤ rate * 60000 }
    ensures held { (level : Level) (rate now : ℕ) → level.moment ≤ now →
        available_at level now ≤ rate * 60000 →
        available_at (rated level rate now) now ≡ available_at level now }
    ensures full { (level : Level) (rate now : ℕ) → level.moment ≤ now →
        rate * 60000 ≤ available_at level now →
        available_at (rated level rate now) now ≡ rate * 60000 }
    ensures rate { (level : Level) (rate now : ℕ) → (rated level rate now).rate ≡ rate }
    ensures charge { (level : Level) (now : ℕ) → (charged level now).rate ≡ level.rate }
{}

/// The peers that a store gains and those that it loses are charged apart.
pub fn the_two_kinds_are_apart()
    ensures add { (level : Level) (buckets : Buckets) →
        level_of AddPeer (with_level AddPeer level buckets) ≡ level }
    ensures remove { (level : Level) (buckets : Buckets) →
        level_of RemovePeer (with_level RemovePeer level buckets) ≡ level }
    ensures lost { (level : Level) (buckets : Buckets) →
        level_of RemovePeer (with_level AddPeer level buckets) ≡ level_of RemovePeer buckets }
    ensures gained { (level : Level) (buckets : Buckets) →
        level_of AddPeer (with_level RemovePeer level buckets) ≡ level_of AddPeer buckets }
{}

/// A store that becomes known has two full buckets for 15 peers each, a known one stays as it is, and
/// one that isn't known has nothing. A charge and a new rate leave every other store.
pub fn a_store_begins_with_fifteen_peers()
    ensures begins { (limits : StoreLimits) (store now : ℕ) (kind : LimitKind) →
        map.get limits store ≡ None → available_in (known limits store now) store kind now ≡ 900000 }
    ensures stays { (limits : StoreLimits) (store now : ℕ) (buckets : Buckets) →
        map.get limits store ≡ Some buckets → known limits store now ≡ limits }
    ensures unknown { (limits : StoreLimits) (store now : ℕ) (kind : LimitKind) →
        map.get limits store ≡ None → available_in limits store kind now ≡ 0 }
    ensures charged { (limits : StoreLimits) (store other now : ℕ) (kind : LimitKind) →
        other ≢ store → map.get (taken limits store kind now) other ≡ map.get limits other }
    ensures rated { (limits : StoreLimits) (store other rate now : ℕ) (kind : LimitKind) →
        other ≢ store → map.get (with_rate limits store kind rate now) other ≡ map.get limits other }
    ensures others { (limits : StoreLimits) (store other now : ℕ) → other ≢ store →
        map.get (known limits store now) other ≡ map.get limits other }
{}

/// The numbers: the first rate is PD's, the others are our own.
pub fn the_numbers()
    ensures peer { PEER_UNITS ≡ 60000 }
    ensures start { START_RATE ≡ 15 }
    ensures greatest { MAX_RATE ≡ 1000000 }
{}
