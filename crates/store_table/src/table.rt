// The stores that are known in a term.
ghost use Rattle.std.specs.Prelude.{◌≡◌, ◌≤◌, ◌↔◌, IsTrue, None, Some, [], IfErr, OnOk, OnErr, IfSome, slice_get, option_map, length};
ghost use Rattle.std.specs.Prelude.{IsSomeAnd};
ghost use Rattle.std.specs.Option.{option_copied};
ghost use Rattle.pd_types.specs.declared.store.StoreState.TheVariants as states;
ghost use Rattle.store_table.specs.declared.table.TheConstants.{MOST_STORES};
ghost use Rattle.store_table.specs.Entries.{AreRising, entry_at, state_at, placed, changed, is_live, is_usable};
ghost use Rattle.store_table.specs.Live.{IsLive, IsUsable, state_name};
ghost use Rattle.store_table.specs.Calls.{loaded, heard, in_state, answered, load_refusal, put_refusal, known_refusal, bury_refusal, RefusedBy};

use crate::places::{answer, hear, insert, kept, replace, search, set_state, stand};
use crate::{StateName, StoreEntry, StoreFault};
use pd_types::{StoreRec, StoreState};
use std::alloc::Global;
use std::marker::Model;

/// A cluster has at most this many stores.
pub const MOST_STORES: usize = 256;

/// The stores that are known in a term, tombstones too. Contracts see them as a list of entries by
/// rising id, at most 256. A refused call leaves them as they were.
#[derive(Drop)]
pub struct Stores {
    entries: Vec<StoreEntry>,
}

impl Model for Stores {
    ghost use Rattle.std.specs.Prelude.{List, length, ◌≤◌};
    ghost use Rattle.store_table.specs.declared.entry.StoreEntry.{StoreEntry};
    ghost use Rattle.store_table.specs.declared.table.TheConstants.{MOST_STORES};
    ghost use Rattle.store_table.specs.Entries.{AreRising};

    ghost Value = { List StoreEntry };

    ghost view = { λ s. s.entries.items };

    ghost invariant = { λ s. AreRising s.entries.items × (length s.entries.items ≤ MOST_STORES) };
}

impl Stores {
    /// No stores. It takes no memory before the first store.
    pub fn new(alloc: Global) -> Stores
        ensures value { result ≡ [] }
    {
        Stores {
            entries: Vec::new(alloc),
        }
    }

    /// Takes in a store as it is at the beginning of a term, `moment`: it sent no heartbeat. A known
    /// store of this id is replaced. `Limit` comes for an unknown store where 256 are known.
    pub fn load(&mut self, rec: StoreRec, moment: u64) -> Result<(), StoreFault>
        ensures ok { OnOk result (self.new ≡ placed (loaded rec moment) self.old) }
        ensures accepted { OnOk result (load_refusal (state_at rec.id self.old) self.old ≡ None) }
        ensures refused { IfErr result (RefusedBy (load_refusal (state_at rec.id self.old) self.old)) }
        ensures err { OnErr result (self.new ≡ self.old) }
    {
        let entry = StoreEntry {
            store: rec,
            began: moment,
            beat: None,
        };
        match stand(&self.entries, entry.store.id) {
            Ok((place, _)) => {
                replace(&mut self.entries, place, entry);
                Ok(())
            }
            Err(place) => insert(&mut self.entries, place, entry),
        }
    }

    /// Takes in a store's record with a heartbeat at `moment`. A known store keeps its state and
    /// the beginning of its term; an unknown one's term begins at `moment`. `Tombstone` comes for a
    /// known tombstone, `Limit` for an unknown store where 256 are known.
    pub fn put(&mut self, rec: StoreRec, moment: u64) -> Result<(), StoreFault>
        ensures ok { OnOk result (self.new ≡ placed (answered rec moment (entry_at rec.id self.old)) self.old) }
        ensures accepted { OnOk result (put_refusal (state_at rec.id self.old) self.old ≡ None) }
        ensures refused { IfErr result (RefusedBy (put_refusal (state_at rec.id self.old) self.old)) }
        ensures err { OnErr result (self.new ≡ self.old) }
    {
        match stand(&self.entries, rec.id) {
            Ok((_, StoreState::Tombstone)) => Err(StoreFault::Tombstone),
            Ok((place, _)) => {
                answer(&mut self.entries, place, rec, moment);
                Ok(())
            }
            Err(place) => {
                let beat = Some(moment);
                let entry = StoreEntry {
                    store: rec,
                    began: moment,
                    beat,
                };
                insert(&mut self.entries, place, entry)
            }
        }
    }

    /// A heartbeat of a known store at `moment`; of all in a term the greatest counts.
    pub fn beat(&mut self, id: u64, moment: u64) -> Result<(), StoreFault>
        ensures ok { OnOk result (self.new ≡ changed id (heard moment) self.old) }
        ensures accepted { OnOk result (known_refusal (state_at id self.old) ≡ None) }
        ensures refused { IfErr result (λ fault. known_refusal (state_at id self.old) ≡ Some fault) }
        ensures err { OnErr result (self.new ≡ self.old) }
    {
        let place = kept(&self.entries, id)?;
        hear(&mut self.entries, place, moment);
        Ok(())
    }

    /// Makes a store Offline (pd-ctl `store delete`); an Offline one stays so.
    pub fn delete(&mut self, id: u64) -> Result<(), StoreFault>
        ensures ok { OnOk result (self.new ≡ changed id (in_state states.Offline) self.old) }
        ensures accepted { OnOk result (known_refusal (state_at id self.old) ≡ None) }
        ensures refused { IfErr result (λ fault. known_refusal (state_at id self.old) ≡ Some fault) }
        ensures err { OnErr result (self.new ≡ self.old) }
    {
        let place = kept(&self.entries, id)?;
        set_state(&mut self.entries, place, StoreState::Offline);
        Ok(())
    }

    /// Makes an Offline store a Tombstone.
    pub fn bury(&mut self, id: u64) -> Result<(), StoreFault>
        ensures ok { OnOk result (self.new ≡ changed id (in_state states.Tombstone) self.old) }
        ensures accepted { OnOk result (bury_refusal (state_at id self.old) ≡ None) }
        ensures refused { IfErr result (λ fault. bury_refusal (state_at id self.old) ≡ Some fault) }
        ensures err { OnErr result (self.new ≡ self.old) }
    {
        match stand(&self.entries, id) {
            Err(_) => Err(StoreFault::UnknownStore),
            Ok((place, StoreState::Offline)) => {
                set_state(&mut self.entries, place, StoreState::Tombstone);
                Ok(())
            }
            Ok(_) => Err(StoreFault::NotOffline),
        }
    }

    /// What is known of a store; none where it isn't known.
    pub fn entry(&self, id: u64) -> Option<&StoreEntry>
        ensures value { option_copied result ≡ entry_at id self.now }
    {
        match search(&self.entries, id) {
            Ok(place) => Some(&self.entries[place]),
            Err(_) => None,
        }
    }

    /// The record of a store; none where it isn't known.
    pub fn get(&self, id: u64) -> Option<&StoreRec>
        ensures value { option_copied result ≡ option_map (λ entry. entry.store) (entry_at id self.now) }
    {
        match self.entry(id) {
            Some(entry) => Some(&entry.store),
            None => None,
        }
    }

    /// How many stores are known: 256 at most.
    pub fn len(&self) -> usize
        ensures value { result ≡ length self.now }
        ensures few { result ≤ MOST_STORES }
    {
        self.entries.len()
    }

    /// What is known of each store, by rising id.
    pub fn entries(&self) -> &[StoreEntry]
        ensures value { result.now ≡ self.now }
        ensures rising { AreRising self.now }
    {
        &self.entries
    }

    /// The record at a place, counted from 0 by rising id; none past the end.
    pub fn at(&self, place: usize) -> Option<&StoreRec>
        ensures value { option_copied result ≡ option_map (λ entry. entry.store) (slice_get self.now place) }
        ensures rising { AreRising self.now }
    {
        match self.entries.get(place) {
            Some(entry) => Some(&entry.store),
            None => None,
        }
    }

    /// Whether a store is known and answers at the moment `now`: it is Up or Offline, and its last
    /// heartbeat of this term came at most 20,000 ms ago.
    pub fn is_live(&self, id: u64, now: u64) -> bool
        ensures live { IsTrue result ↔ IsSomeAnd (entry_at id self.now) (λ entry. IsLive entry now) }
        ensures value { result ≡ is_live id now self.now }
    {
        match self.entry(id) {
            Some(entry) => entry.is_live(now),
            None => false,
        }
    }

    /// Whether a store is known and may hold peers at the moment `now`: it is Up, and at most
    /// 1,800,000 ms passed since its term began or its last heartbeat came.
    pub fn is_usable(&self, id: u64, now: u64) -> bool
        ensures usable { IsTrue result ↔ IsSomeAnd (entry_at id self.now) (λ entry. IsUsable entry now) }
        ensures value { result ≡ is_usable id now self.now }
    {
        match self.entry(id) {
            Some(entry) => entry.is_usable(now),
            None => false,
        }
    }

    /// How pd-ctl names the state of a store at the moment `now`; none where it isn't known.
    pub fn state_name(&self, id: u64, now: u64) -> Option<StateName>
        ensures value { result ≡ option_map (λ entry. state_name entry now) (entry_at id self.now) }
    {
        match self.entry(id) {
            Some(entry) => Some(entry.state_name(now)),
            None => None,
        }
    }
}
