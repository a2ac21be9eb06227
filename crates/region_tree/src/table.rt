// The regions of a cluster in one term.
ghost use Rattle.std.specs.Prelude.{◌≡◌, ℕ, ◌+◌, ◌-◌, ◌<◌, ◌↔◌, IsTrue, List, [], ◌∷◌, Some, None, All, Bool, IfSome, IfOk, IfErr, OnOk, OnErr, MatchOption, find, nat_eq, length, slice_get, true, is_some, if◌then◌else◌};
ghost use Rattle.std.specs.Option.{option_copied};
ghost use Rattle.pd_types.specs.BeatCheck.{first_fault};
ghost use Rattle.pd_types.specs.Keys.{is_below};
ghost use Rattle.pd_types.specs.declared.region.RegionBeat.{RegionBeat};
ghost use Rattle.region_tree.specs.Cover.{CoverAll, covers_all};
ghost use Rattle.region_tree.specs.Moves.{CountMoves, displaced_by};
ghost use Rattle.region_tree.specs.Places.{IsIndex, IsPlace, IsRun};
ghost use Rattle.region_tree.specs.Ranges.{HasRange, holds};
ghost use Rattle.region_tree.specs.Stale.{ids_of, put_beat, put_refusal, removed_by, RefusedBy};
ghost use Rattle.region_tree.specs.Standing.{AreApart, IsTable, table_of};

use crate::RegionFault;
use crate::cover::covers_all;
use crate::exchange::{make_room, replace};
use crate::held::Held;
use crate::places::{Run, place_of, removed_count, removed_ids, run_of, upto_key};
use crate::range::holds;
use crate::stale::stale_by;
use id_map::IdMap;
use pd_types::{Bytes, Ids, NoMemory, RegionBeat, Seq};
use std::alloc::Global;
use std::marker::Model;

/// A table has at most this many regions.
pub const MOST_REGIONS: usize = 65536;

/// The heartbeats of regions that left a table, in key order.
pub type Removed = Seq<RegionBeat>;

/// What a heartbeat displaced: the region of its id, as it was told before, and those of other ids
/// that it overlaps, in key order.
#[derive(Drop)]
pub struct Displaced {
    pub own: Option<RegionBeat>,
    pub others: Removed,
}

/// The regions that stand, each as its last accepted heartbeat told it. Contracts see them as a list
/// in key order. A refused call leaves them as they were.
#[derive(Drop)]
pub struct Regions {
    held: Vec<Held>,
    index: IdMap<Bytes>,
    alloc: Global,
}

impl Model for Regions {
    ghost use Rattle.std.specs.Prelude.{List, All};
    ghost use Rattle.pd_types.specs.declared.region.RegionBeat.{RegionBeat};
    ghost use Rattle.region_tree.specs.Places.{IsIndex};
    ghost use Rattle.region_tree.specs.Ranges.{HasRange};
    ghost use Rattle.region_tree.specs.Standing.{AreApart};

    ghost Value = { List RegionBeat };

    ghost view = { λ r. r.held.items };

    ghost invariant = { λ r. AreApart r.held.items × All HasRange r.held.items × IsIndex r.index r.held.items };
}

// How many regions stay beside a heartbeat that displaces so many of other ids.
fn staying(held: usize, own: Option<usize>, gone: usize) -> usize
    ensures value { result ≡ (held - (if is_some own then 1 else 0)) - gone }
{
    let own = usize::from(own.is_some());
    held.saturating_sub(own).saturating_sub(gone)
}

// Why a heartbeat isn't put, whose region stands at a place and which overlaps a run of regions,
// so many of them of other ids.
fn refusal(
    held: &[Held],
    own: Option<usize>,
    run: Run,
    gone: usize,
    beat: &RegionBeat,
) -> Option<RegionFault>
    requires apart { AreApart held.now }
    requires place { IsPlace held.now beat.now.region.id own }
    requires run { IsRun beat.now held.now run.from run.upto }
    requires gone { gone ≡ length (removed_by beat.now held.now) }
    ensures value { result ≡ put_refusal beat.now held.now }
{
    if let Some(kept) = stale_by(held, own, run, beat) {
        return Some(RegionFault::Stale { kept });
    }
    if staying(held.len(), own, gone) >= MOST_REGIONS {
        return Some(RegionFault::Limit);
    }
    None
}

// Puts a heartbeat. What it displaces is found once; all memory is taken before the first change.
fn put_in(
    alloc: Global,
    held: &mut Vec<Held>,
    index: &mut IdMap<Bytes>,
    beat: RegionBeat,
) -> Result<Displaced, RegionFault>
    requires apart { AreApart held.old.items }
    requires ranges { All HasRange held.old.items }
    requires index { IsIndex index.old held.old.items }
    requires checked { first_fault beat ≡ None }
    ensures ok { OnOk result (held.new.items ≡ put_beat beat held.old.items) }
    ensures displaced { IfOk result (λ displaced. displaced ≡ displaced_by beat held.old.items) }
    ensures accepted { OnOk result (put_refusal beat held.old.items ≡ None) }
    ensures refused { IfErr result (RefusedBy (put_refusal beat held.old.items)) }
    ensures err { OnErr result (held.new.items ≡ held.old.items) }
    ensures apart { AreApart held.new.items }
    ensures ranges { All HasRange held.new.items }
    ensures index { IsIndex index.new held.new.items }
{
    let own = place_of(held, index, beat.region.id);
    let run = run_of(held, &beat);
    let gone = removed_count(held, run, &beat);
    if let Some(fault) = refusal(held, own, run, gone, &beat) {
        return Err(fault);
    }
    let Ok(room) = make_room(alloc, held, index, gone, beat) else {
        return Err(RegionFault::NoMemory);
    };
    let mut removed = room.removed;
    let own = replace(held, index, own, run, room.beat, &mut removed);
    Ok(Displaced {
        own,
        others: Removed::of(removed),
    })
}

impl Regions {
    /// No regions. It takes no memory before the first region.
    pub fn new(alloc: Global) -> Regions
        ensures value { result ≡ [] }
        ensures table { IsTable [] result }
    {
        Regions {
            held: Vec::new(alloc),
            index: IdMap::new(alloc),
            alloc,
        }
    }

    /// Puts a heartbeat that passed `check_beat` in place of the region of its id and of all that it
    /// overlaps, and answers those of other ids. `Stale` comes where its version or conf_ver is
    /// below that of the region with its id, else where its version is below that of a region that
    /// it overlaps, with the epoch of the first such one in key order. `Limit` comes where it isn't
    /// stale and more than 65,536 regions would stand.
    pub fn put(&mut self, beat: RegionBeat) -> Result<Removed, RegionFault>
        requires checked { first_fault beat ≡ None }
        ensures ok { OnOk result (self.new ≡ put_beat beat self.old) }
        ensures removed { IfOk result (λ removed. removed ≡ removed_by beat self.old) }
        ensures accepted { OnOk result (put_refusal beat self.old ≡ None) }
        ensures refused { IfErr result (RefusedBy (put_refusal beat self.old)) }
        ensures err { OnErr result (self.new ≡ self.old) }

        // What stands is exactly what no later accepted heartbeat displaced.
        ensures table { OnOk result ((accepted : List RegionBeat) → IsTable accepted self.old → IsTable (beat ∷ accepted) self.new) }
        ensures stands { OnOk result ((accepted : List RegionBeat) → self.old ≡ table_of accepted → self.new ≡ table_of (beat ∷ accepted)) }
    {
        match self.exchange(beat) {
            Ok(displaced) => Ok(displaced.others),
            Err(fault) => Err(fault),
        }
    }

    /// Puts a heartbeat as `put` does, and answers all that it displaces.
    pub fn exchange(&mut self, beat: RegionBeat) -> Result<Displaced, RegionFault>
        requires checked { first_fault beat ≡ None }
        ensures ok { OnOk result (self.new ≡ put_beat beat self.old) }
        ensures displaced { IfOk result (λ displaced. displaced ≡ displaced_by beat self.old) }
        ensures accepted { OnOk result (put_refusal beat self.old ≡ None) }
        ensures refused { IfErr result (RefusedBy (put_refusal beat self.old)) }
        ensures err { OnErr result (self.new ≡ self.old) }

        // What stands, as `put` says; it is the region of its id; and how each count of regions moves.
        ensures table { OnOk result ((accepted : List RegionBeat) → IsTable accepted self.old → IsTable (beat ∷ accepted) self.new) }
        ensures stands { OnOk result ((accepted : List RegionBeat) → self.old ≡ table_of accepted → self.new ≡ table_of (beat ∷ accepted)) }
        ensures found { OnOk result (find (λ one. nat_eq one.region.id beat.region.id) self.new ≡ Some beat) }
        ensures counts { OnOk result ((p : RegionBeat → Bool) → CountMoves p beat self.old self.new) }
    {
        put_in(self.alloc, &mut self.held, &mut self.index, beat)
    }

    /// The ids of the regions that `put` would answer for this heartbeat, in key order.
    pub fn overlapped(&self, beat: &RegionBeat) -> Result<Ids, NoMemory>
        ensures value { IfOk result (λ ids. ids ≡ ids_of (removed_by beat.now self.now)) }
    {
        removed_ids(self.alloc, &self.held, run_of(&self.held, beat), beat)
    }

    /// How many regions there are.
    pub fn len(&self) -> usize
        ensures value { result ≡ length self.now }
    {
        self.held.len()
    }

    /// The region with this id; none where it isn't held.
    pub fn by_id(&self, id: u64) -> Option<&RegionBeat>
        ensures value { option_copied result ≡ find (λ beat. nat_eq beat.region.id id) self.now }
        ensures checked { IfSome (option_copied result) (λ beat. first_fault beat ≡ None) }
    {
        find_id(&self.held, &self.index, id)
    }

    /// The region whose range has the key; none where no range has it.
    pub fn by_key(&self, key: &[u8]) -> Option<&RegionBeat>
        ensures value { option_copied result ≡ find (λ beat. holds beat key.now) self.now }
        ensures checked { IfSome (option_copied result) (λ beat. first_fault beat ≡ None) }
    {
        find_key(&self.held, key)
    }

    /// The region at a place, counted from 0 in key order; none past the end.
    pub fn at(&self, place: usize) -> Option<&RegionBeat>
        ensures value { option_copied result ≡ slice_get self.now place }
        ensures order { AreApart self.now }
        ensures checked { IfSome (option_copied result) (λ beat. first_fault beat ≡ None) }
    {
        get(&self.held, place)
    }

    /// The next region in key order behind the start of this one, whether it is held or not; the
    /// first for `None`; none behind the last.
    pub fn after(&self, region: Option<&RegionBeat>) -> Option<&RegionBeat>
        ensures first { option_copied region.entry ≡ None → option_copied result ≡ slice_get self.now 0 }
        ensures value { (one : RegionBeat) → option_copied region.entry ≡ Some one → option_copied result ≡ find (λ next. is_below one.region.start next.region.start) self.now }
        ensures next { (place : ℕ) (one : RegionBeat) → option_copied region.entry ≡ Some one → slice_get self.now place ≡ Some one → option_copied result ≡ slice_get self.now (place + 1) }
        ensures checked { IfSome (option_copied result) (λ beat. first_fault beat ≡ None) }
    {
        match region {
            None => get(&self.held, 0),
            Some(one) => get(
                &self.held,
                upto_key(&self.held, one.region.start.as_slice()),
            ),
        }
    }

    /// Whether each key is in the range of a region.
    pub fn covers_all(&self) -> bool
        ensures value { IsTrue result ↔ CoverAll self.now }
        ensures test { result ≡ covers_all self.now }
    {
        covers_all(&self.held)
    }
}

// The region at a place.
fn get(held: &[Held], place: usize) -> Option<&RegionBeat>
    ensures value { option_copied result ≡ slice_get held.now place }
    ensures checked { IfSome (option_copied result) (λ beat. first_fault beat ≡ None) }
{
    match held.get(place) {
        Some(one) => Some(one.beat()),
        None => None,
    }
}

// The region with this id.
fn find_id<'a>(held: &'a [Held], index: &IdMap<Bytes>, id: u64) -> Option<&'a RegionBeat>
    requires apart { AreApart held.now }
    requires ranges { All HasRange held.now }
    requires index { IsIndex index.now held.now }
    ensures value { option_copied result ≡ find (λ beat. nat_eq beat.region.id id) held.now }
    ensures checked { IfSome (option_copied result) (λ beat. first_fault beat ≡ None) }
{
    match place_of(held, index, id) {
        Some(place) => get(held, place),
        None => None,
    }
}

// The region whose range has the key: the last that begins at it or below, if any.
fn find_key<'a>(held: &'a [Held], key: &[u8]) -> Option<&'a RegionBeat>
    requires apart { AreApart held.now }
    requires ranges { All HasRange held.now }
    ensures value { option_copied result ≡ find (λ beat. holds beat key.now) held.now }
    ensures checked { IfSome (option_copied result) (λ beat. first_fault beat ≡ None) }
{
    let upto = upto_key(held, key);
    if upto == 0 {
        return None;
    }
    let one = held[upto - 1].beat();
    if holds(one, key) { Some(one) } else { None }
}
