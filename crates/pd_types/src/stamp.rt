ghost use Rattle.std.specs.Prelude.{◌≡◌, ◌<◌, ◌^◌, ℕ};
ghost use Rattle.pd_types.specs.Timestamp.{timestamp, physical, logical};

/// How many timestamps a millisecond has.
pub const LOGICAL: u64 = 262144;

/// How many timestamps a draw takes at most.
pub const MAX_COUNT: u64 = LOGICAL - 1;

/// Moments are below this, in milliseconds since the epoch. It is what a timestamp has room for
/// above the count within a millisecond.
pub const MOMENT_END: u64 = 1 << 46;

const _: () = prove!(LOGICAL == 262_144 && MAX_COUNT == 262_143);

const _: () = prove!(MOMENT_END == 70_368_744_177_664);

/// The timestamp with these parts: milliseconds since the epoch, and a count within the
/// millisecond.
pub fn pack(physical: u64, logical: u64) -> u64
    requires physical { physical < MOMENT_END }
    requires logical { logical < LOGICAL }
    ensures value { result ≡ timestamp physical logical }
{
    physical * LOGICAL + logical
}

/// The physical and the logical part of a timestamp, as pd-ctl's `tso` shows them.
pub fn unpack(ts: u64) -> (u64, u64)
    ensures physical { result.0 ≡ physical ts }
    ensures logical { result.1 ≡ logical ts }
{
    (ts / LOGICAL, ts % LOGICAL)
}

/// A timestamp is told by its parts, and its parts by it: `unpack` of what `pack` makes is the
/// pair, and `pack` of what `unpack` gives is the timestamp.
pub fn packs_and_unpacks()
    ensures parts { (p l : ℕ) → l < 2 ^ 18 → (physical (timestamp p l) ≡ p) × (logical (timestamp p l) ≡ l) }
    ensures whole { (ts : ℕ) → timestamp (physical ts) (logical ts) ≡ ts }
    ensures below { (ts : ℕ) → logical ts < 2 ^ 18 }
{}
