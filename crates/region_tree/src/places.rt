ghost use Rattle.std.specs.Prelude.{◌≡◌, ◌+◌, ◌-◌, ◌<◌, ◌≤◌, ℕ, List, [], ◌++◌, true, false, not, ◌&&◌, nat_eq, filter, map, length, slice_index_or, slice_range, vec_len, All, IfOk, IsTrue, Some, None, if◌then◌else◌};
ghost use Rattle.std.specs.List.{list_any, remove_range};
ghost use Rattle.std.specs.FinMap as fin;
ghost use Rattle.std.specs.Vec.{vec_capacity};
ghost use Rattle.pd_types.specs.Keys.{is_before_end, is_below};
ghost use Rattle.pd_types.specs.declared.region.RegionBeat.{RegionBeat};
ghost use Rattle.region_tree.specs.Ranges.{HasRange, overlaps};
ghost use Rattle.region_tree.specs.Standing.{AreApart, insert_by_key, stays};
ghost use Rattle.region_tree.specs.Stale.{ids_of, put_beat, removed_by};
ghost use Rattle.region_tree.specs.Places.{others, IsPlace, IsIndex, IsRun};

use crate::held::Held;
use crate::range::{is_before_end, is_below};
use id_map::IdMap;
use pd_types::{Bytes, Ids, NoMemory, RegionBeat};
use std::alloc::Global;

/// How many regions begin below a key.
pub fn lesser(held: &[Held], key: &[u8]) -> usize
    requires apart { AreApart held.now }
    requires ranges { All HasRange held.now }
    ensures bound { result ≤ length held.now }
    ensures before { (k : ℕ) (d : RegionBeat) → k < result → is_below (slice_index_or held.now k d).region.start key.now ≡ true }
    ensures after { (k : ℕ) (d : RegionBeat) → result ≤ k → k < length held.now → is_below (slice_index_or held.now k d).region.start key.now ≡ false }
{
    held.partition_point(|one| is_below(one.beat().region.start.as_slice(), key))
}

/// How many regions begin at a key or below it.
pub fn upto_key(held: &[Held], key: &[u8]) -> usize
    requires apart { AreApart held.now }
    requires ranges { All HasRange held.now }
    ensures bound { result ≤ length held.now }
    ensures before { (k : ℕ) (d : RegionBeat) → k < result → is_below key.now (slice_index_or held.now k d).region.start ≡ false }
    ensures after { (k : ℕ) (d : RegionBeat) → result ≤ k → k < length held.now → is_below key.now (slice_index_or held.now k d).region.start ≡ true }
{
    held.partition_point(|one| !is_below(key, one.beat().region.start.as_slice()))
}

// How many regions end at a key or below it.
fn ended(held: &[Held], key: &[u8]) -> usize
    requires apart { AreApart held.now }
    requires ranges { All HasRange held.now }
    ensures bound { result ≤ length held.now }
    ensures before { (k : ℕ) (d : RegionBeat) → k < result → is_before_end key.now (slice_index_or held.now k d).region.end ≡ false }
    ensures after { (k : ℕ) (d : RegionBeat) → result ≤ k → k < length held.now → is_before_end key.now (slice_index_or held.now k d).region.end ≡ true }
{
    held.partition_point(|one| !is_before_end(key, one.beat().region.end.as_slice()))
}

// How many regions begin before an end.
fn begun(held: &[Held], end: &[u8]) -> usize
    requires apart { AreApart held.now }
    requires ranges { All HasRange held.now }
    ensures bound { result ≤ length held.now }
    ensures before { (k : ℕ) (d : RegionBeat) → k < result → is_before_end (slice_index_or held.now k d).region.start end.now ≡ true }
    ensures after { (k : ℕ) (d : RegionBeat) → result ≤ k → k < length held.now → is_before_end (slice_index_or held.now k d).region.start end.now ≡ false }
{
    held.partition_point(|one| is_before_end(one.beat().region.start.as_slice(), end))
}

/// The places from one on and up to another.
#[derive(Clone, Copy)]
pub struct Run {
    pub from: usize,
    pub upto: usize,
}

/// The places of the regions that the heartbeat overlaps, which stand in a row.
pub fn run_of(held: &[Held], beat: &RegionBeat) -> Run
    requires apart { AreApart held.now }
    requires ranges { All HasRange held.now }
    ensures run { IsRun beat.now held.now result.from result.upto }
{
    let region = &beat.region;
    let from = ended(held, region.start.as_slice());
    let upto = begun(held, region.end.as_slice()).max(from);
    Run { from, upto }
}

/// The place of the region of an id.
pub fn place_of(held: &[Held], index: &IdMap<Bytes>, id: u64) -> Option<usize>
    requires apart { AreApart held.now }
    requires ranges { All HasRange held.now }
    requires index { IsIndex index.now held.now }
    ensures place { IsPlace held.now id result }
{
    match index.get(id) {
        Some(start) => Some(lesser(held, start.as_slice())),
        None => None,
    }
}

// How many of these regions have another id.
fn others(held: &[Held], id: u64) -> usize
    ensures value { result ≡ length (others id held.now) }
{
    held.iter().filter(|one| one.beat().region.id != id).count()
}

/// How many regions of other ids the heartbeat overlaps.
pub fn removed_count(held: &[Held], run: Run, beat: &RegionBeat) -> usize
    requires run { IsRun beat.now held.now run.from run.upto }
    ensures value { result ≡ length (removed_by beat.now held.now) }
{
    others(&held[run.from..run.upto], beat.region.id)
}

// The ids of those of these regions that have another id, in their order.
fn other_ids(alloc: Global, held: &[Held], id: u64) -> Result<Ids, NoMemory>
    ensures value { IfOk result (λ ids. ids ≡ ids_of (others id held.now)) }
{
    let mut ids = Ids::new(alloc);
    for one in held {
        let other = one.beat().region.id;
        if other != id {
            ids.push(other)?;
        }
    }
    Ok(ids)
}

/// The ids of the regions of other ids that the heartbeat overlaps, in key order.
pub fn removed_ids(
    alloc: Global,
    held: &[Held],
    run: Run,
    beat: &RegionBeat,
) -> Result<Ids, NoMemory>
    requires run { IsRun beat.now held.now run.from run.upto }
    ensures value { IfOk result (λ ids. ids ≡ ids_of (removed_by beat.now held.now)) }
{
    other_ids(alloc, &held[run.from..run.upto], beat.region.id)
}
