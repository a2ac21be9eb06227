ghost use Rattle.std.specs.Prelude.{◌≡◌, None, OnOk, OnErr, Some, IfOk, IfErr, ◌<◌, ◌≤◌, ℕ, length, slice_index_or};
ghost use Rattle.store_table.specs.declared.entry.StoreEntry.{StoreEntry};
ghost use Rattle.store_table.specs.declared.table.TheConstants.{MOST_STORES};
ghost use Rattle.store_table.specs.Entries.{AreRising, entry_at, state_at, placed, changed};
ghost use Rattle.store_table.specs.Calls.{answered, heard, in_state, full_refusal, known_refusal, RefusedBy};
ghost use Rattle.store_table.specs.Places.{Parts, Stands};
ghost use Rattle.store_table.specs.Live.{later};

use crate::{MOST_STORES, StoreEntry, StoreFault};
use pd_types::{StoreRec, StoreState};

// How many stores have a lesser id.
fn lesser(entries: &[StoreEntry], id: u64) -> usize
    requires { AreRising entries.now }
    ensures bound { result ≤ length entries.now }
    ensures before { (k : ℕ) (d : StoreEntry) → k < result → (slice_index_or entries.now k d).store.id < id }
    ensures after { (k : ℕ) (d : StoreEntry) → result ≤ k → k < length entries.now → id ≤ (slice_index_or entries.now k d).store.id }
{
    entries.partition_point(|entry| entry.store.id < id)
}

/// The place of the store, or where it would stand.
pub fn search(entries: &[StoreEntry], id: u64) -> Result<usize, usize>
    requires { AreRising entries.now }
    ensures found { IfOk result (Stands id entries.now) }
    ensures absent { IfErr result (λ place. Parts id entries.now place place) }
{
    let place = lesser(entries, id);
    match entries.get(place) {
        Some(entry) if entry.store.id == id => Ok(place),
        _ => Err(place),
    }
}

/// The place and the state of a store, or where it would stand.
pub fn stand(entries: &[StoreEntry], id: u64) -> Result<(usize, StoreState), usize>
    requires { AreRising entries.now }
    ensures found { IfOk result (λ found. Stands id entries.now found.0) }
    ensures state { IfOk result (λ found. state_at id entries.now ≡ Some found.1) }
    ensures absent { IfErr result (λ place. Parts id entries.now place place) }
    ensures unknown { OnErr result (state_at id entries.now ≡ None) }
{
    match search(entries, id) {
        Ok(place) => Ok((place, entries[place].store.state)),
        Err(place) => Err(place),
    }
}

/// The place of a known store that is no tombstone.
pub fn kept(entries: &[StoreEntry], id: u64) -> Result<usize, StoreFault>
    requires { AreRising entries.now }
    ensures found { IfOk result (Stands id entries.now) }
    ensures accepted { OnOk result (known_refusal (state_at id entries.now) ≡ None) }
    ensures refused { IfErr result (λ fault. known_refusal (state_at id entries.now) ≡ Some fault) }
{
    match stand(entries, id) {
        Ok((_, StoreState::Tombstone)) => Err(StoreFault::Tombstone),
        Ok((place, _)) => Ok(place),
        Err(_) => Err(StoreFault::UnknownStore),
    }
}

/// Puts the entry of a store that isn't known in its place.
pub fn insert(
    entries: &mut Vec<StoreEntry>,
    place: usize,
    entry: StoreEntry,
) -> Result<(), StoreFault>
    requires rising { AreRising entries.old.items }
    requires absent { Parts entry.store.id entries.old.items place place }
    requires few { length entries.old.items ≤ MOST_STORES }
    ensures ok { OnOk result (entries.new.items ≡ placed entry entries.old.items) }
    ensures accepted { OnOk result (full_refusal entries.old.items ≡ None) }
    ensures refused { IfErr result (RefusedBy (full_refusal entries.old.items)) }
    ensures err { OnErr result (entries.new.items ≡ entries.old.items) }
    ensures rising { AreRising entries.new.items }
    ensures few { length entries.new.items ≤ MOST_STORES }
{
    if entries.len() >= MOST_STORES {
        return Err(StoreFault::Limit);
    }
    let Ok(()) = entries.insert(place, entry) else {
        return Err(StoreFault::NoMemory);
    };
    Ok(())
}

/// Puts the entry of a known store in place of the one that it has.
pub fn replace(entries: &mut Vec<StoreEntry>, place: usize, entry: StoreEntry)
    requires rising { AreRising entries.old.items }
    requires known { Stands entry.store.id entries.old.items place }
    ensures value { entries.new.items ≡ placed entry entries.old.items }
    ensures rising { AreRising entries.new.items }
    ensures many { length entries.new.items ≡ length entries.old.items }
{
    entries[place] = entry;
}

// The later of a moment and the last heartbeat, where there is one.
fn later_of(beat: Option<u64>, moment: u64) -> u64
    ensures value { result ≡ later beat moment }
{
    match beat {
        Some(beat) => beat.max(moment),
        None => moment,
    }
}

/// Puts a known store's record with a heartbeat in place of its entry.
pub fn answer(entries: &mut Vec<StoreEntry>, place: usize, rec: StoreRec, moment: u64)
    requires rising { AreRising entries.old.items }
    requires known { Stands rec.id entries.old.items place }
    ensures value { entries.new.items ≡ placed (answered rec moment (entry_at rec.id entries.old.items)) entries.old.items }
    ensures rising { AreRising entries.new.items }
    ensures many { length entries.new.items ≡ length entries.old.items }
{
    let known = &entries[place];
    let state = known.store.state;
    let began = known.began;
    let beat = Some(later_of(known.beat, moment));
    let store = StoreRec { state, ..rec };
    replace(entries, place, StoreEntry { store, began, beat });
}

/// A heartbeat of the store at the place.
pub fn hear(entries: &mut [StoreEntry], place: usize, moment: u64)
    requires rising { AreRising entries.old }
    requires inside { place < length entries.old }
    ensures value { (id : ℕ) → Stands id entries.old place → entries.new ≡ changed id (heard moment) entries.old }
    ensures rising { AreRising entries.new }
    ensures many { length entries.new ≡ length entries.old }
{
    let known = &mut entries[place];
    known.beat = Some(later_of(known.beat, moment));
}

/// Another state of the store at the place.
pub fn set_state(entries: &mut [StoreEntry], place: usize, state: StoreState)
    requires rising { AreRising entries.old }
    requires inside { place < length entries.old }
    ensures value { (id : ℕ) → Stands id entries.old place → entries.new ≡ changed id (in_state state) entries.old }
    ensures rising { AreRising entries.new }
    ensures many { length entries.new ≡ length entries.old }
{
    let known = &mut entries[place];
    known.store.state = state;
}
