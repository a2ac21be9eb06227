ghost use Rattle.std.specs.Prelude.{◌≡◌, ℕ, ◌-◌, ◌+◌, ◌<◌, ◌≤◌, List, [], nat_eq, length, slice_range, vec_len, All, IfOk, OnOk, OnErr, Some, None, IsTrue, find, if◌then◌else◌};
ghost use Rattle.std.specs.List.{list_any, remove_range};
ghost use Rattle.std.specs.FinMap as fin;
ghost use Rattle.std.specs.Vec.{vec_capacity};
ghost use Rattle.pd_types.specs.BeatCheck.{first_fault};
ghost use Rattle.pd_types.specs.declared.region.RegionBeat.{RegionBeat};
ghost use Rattle.region_tree.specs.Ranges.{HasRange};
ghost use Rattle.region_tree.specs.Standing.{AreApart};
ghost use Rattle.region_tree.specs.Stale.{put_beat, removed_by};
ghost use Rattle.region_tree.specs.Places.{others, shifted, IsPlace, IsRun};

use crate::held::Held;
use crate::places::Run;
use id_map::IdMap;
use pd_types::{Bytes, Duplicate, NoMemory, RegionBeat};
use std::alloc::Global;
use std::mem;

/// A heartbeat in its block, with room for the regions of other ids that it will displace.
#[derive(Drop)]
pub struct Room {
    pub beat: Held,
    pub removed: Vec<RegionBeat>,
}

/// Takes all the memory that a heartbeat wants which displaces so many regions of other ids, and
/// writes its start into the index, which comes last and is the only change.
pub fn make_room(
    alloc: Global,
    held: &mut Vec<Held>,
    index: &mut IdMap<Bytes>,
    gone: usize,
    beat: RegionBeat,
) -> Result<Room, NoMemory>
    requires checked { first_fault beat ≡ None }
    ensures same { held.new.items ≡ held.old.items }
    ensures room { OnOk result (vec_len held.new < vec_capacity held.new) }
    ensures index { OnOk result (index.new ≡ fin.insert index.old beat.region.id beat.region.start) }
    ensures err { OnErr result (index.new ≡ index.old) }
    ensures beat { IfOk result (λ room. room.beat ≡ beat) }
    ensures none { IfOk result (λ room. room.removed.items ≡ []) }
    ensures removed { IfOk result (λ room. gone ≤ vec_capacity room.removed) }
{
    let removed = Vec::with_capacity(alloc, gone)?;
    let start = beat.region.start.copy(alloc)?;
    let id = beat.region.id;
    let beat = Held::new(alloc, beat)?;
    held.reserve(1)?;
    index.put(id, start)?;
    Ok(Room { beat, removed })
}

// A place, once the region at the place of an id is gone.
fn shifted(own: Option<usize>, place: usize) -> usize
    ensures value { result ≡ shifted own place }
{
    match own {
        Some(own) => place - usize::from(own < place),
        None => place,
    }
}

// Takes the region at the place of an id out.
fn take_own(held: &mut Vec<Held>, own: Option<usize>, id: u64) -> Option<RegionBeat>
    requires apart { AreApart held.old.items }
    requires place { IsPlace held.old.items id own }
    ensures value { held.new.items ≡ others id held.old.items }
    ensures own { result ≡ find (λ one. nat_eq one.region.id id) held.old.items }
    ensures capacity { vec_capacity held.new ≡ vec_capacity held.old }
    ensures shorter { vec_len held.new ≤ vec_len held.old }
{
    match own {
        Some(place) => Some(held.remove(place).into_beat()),
        None => None,
    }
}

// Moves the regions of a run out, and out of the index.
fn take_run(held: &mut Vec<Held>, index: &mut IdMap<Bytes>, run: Run, removed: &mut Vec<RegionBeat>)
    requires order { run.from ≤ run.upto }
    requires bound { run.upto ≤ vec_len held.old }
    requires none { removed.old.items ≡ [] }
    requires room { run.upto - run.from ≤ vec_capacity removed.old }
    ensures value { held.new.items ≡ remove_range held.old.items run.from run.upto }
    ensures removed { removed.new.items ≡ slice_range held.old.items run.from run.upto }
    ensures index { (q : ℕ) → fin.get index.new q ≡ (if list_any (λ one. nat_eq one.region.id q) (slice_range held.old.items run.from run.upto) then None else fin.get index.old q) }
    ensures capacity { vec_capacity held.new ≡ vec_capacity held.old }
    ensures shorter { vec_len held.new ≤ vec_len held.old }
{
    for one in held.drain(run.from..run.upto) {
        let beat = one.into_beat();
        let _ = index.remove(beat.region.id);
        let Ok(()) = removed.push(beat) else {
            unreachable!()
        };
    }
}

// Whether a region is all of a run.
fn is_alone(own: Option<usize>, run: Run) -> bool
    requires order { run.from ≤ run.upto }
    ensures value { IsTrue result → (own ≡ Some run.from) × (run.upto ≡ run.from + 1) }
{
    own == Some(run.from) && run.upto - run.from == 1
}

// Puts a heartbeat in the place of the region of its id, where it overlaps no other, and answers
// the one that was there.
fn set_own(held: &mut Vec<Held>, place: usize, beat: Held) -> RegionBeat
    requires apart { AreApart held.old.items }
    requires ranges { All HasRange held.old.items }
    requires range { HasRange beat }
    requires place { IsPlace held.old.items beat.region.id (Some place) }
    requires run { IsRun beat held.old.items place (place + 1) }
    ensures value { held.new.items ≡ put_beat beat held.old.items }
    ensures own { Some result ≡ find (λ one. nat_eq one.region.id beat.region.id) held.old.items }
    ensures none { removed_by beat held.old.items ≡ [] }
{
    mem::replace(&mut held[place], beat).into_beat()
}

/// Puts a heartbeat in place of what it displaces, where there is room for one more, moves those of
/// other ids out, and answers the region of its own id. The index has the heartbeat's start
/// already. A region that only tells of itself again is written in its place. It takes no memory.
pub fn replace(
    held: &mut Vec<Held>,
    index: &mut IdMap<Bytes>,
    own: Option<usize>,
    run: Run,
    beat: Held,
    removed: &mut Vec<RegionBeat>,
) -> Option<RegionBeat>
    requires apart { AreApart held.old.items }
    requires ranges { All HasRange held.old.items }
    requires range { HasRange beat }
    requires place { IsPlace held.old.items beat.region.id own }
    requires run { IsRun beat held.old.items run.from run.upto }
    requires none { removed.old.items ≡ [] }
    requires room_removed { length (removed_by beat held.old.items) ≤ vec_capacity removed.old }
    requires room { vec_len held.old < vec_capacity held.old }
    ensures value { held.new.items ≡ put_beat beat held.old.items }
    ensures own { result ≡ find (λ one. nat_eq one.region.id beat.region.id) held.old.items }
    ensures removed { removed.new.items ≡ removed_by beat held.old.items }
    ensures index { (q : ℕ) → fin.get index.new q ≡ (if list_any (λ one. nat_eq one.region.id q) (removed_by beat held.old.items) then None else fin.get index.old q) }
{
    if is_alone(own, run) {
        return Some(set_own(held, run.from, beat));
    }
    let run = Run {
        from: shifted(own, run.from),
        upto: shifted(own, run.upto),
    };
    let before = take_own(held, own, beat.beat().region.id);
    take_run(held, index, run, removed);
    let Ok(()) = held.insert(run.from, beat) else {
        unreachable!()
    };
    before
}
