ghost use Rattle.std.specs.Prelude.{◌≡◌, ◌≢◌, ◌↔◌, ◌+◌, ◌<◌, ◌≤◌, ℕ, List, None, Some, codes, length, option_map};
ghost use Rattle.pd_types.specs.declared.store.StoreRec.{StoreRec};
ghost use Rattle.pd_types.specs.declared.store.StoreState.{StoreState};
ghost use Rattle.pd_types.specs.declared.store.StoreState.TheVariants as states;
ghost use Rattle.store_table.specs.declared.entry.StoreEntry.{StoreEntry};
ghost use Rattle.store_table.specs.declared.fault.StoreFault.TheVariants as faults;
ghost use Rattle.store_table.specs.declared.names.StateName.TheVariants as names;
ghost use Rattle.store_table.specs.Live.{state_name, IsLive, IsUsable};
ghost use Rattle.store_table.specs.Entries.{entry_at, placed, changed};
ghost use Rattle.store_table.specs.StateText.{state_text};
ghost use Rattle.store_table.specs.Calls.{answered, heard, in_state, loaded, load_refusal, put_refusal, known_refusal, bury_refusal};

use crate::{LIVE_MS, MOST_STORES, USABLE_MS};

const _: () = prove!(LIVE_MS == 20_000 && USABLE_MS == 1_800_000 && MOST_STORES == 256);

/// The numbers: 20 seconds and 30 minutes are PD's, 256 stores are our own bound.
pub fn the_numbers()
    ensures live { LIVE_MS ≡ 20000 }
    ensures usable { USABLE_MS ≡ 1800000 }
    ensures stores { MOST_STORES ≡ 256 }
{}

/// An Up store that was heard in this term is Up for 20 seconds, then Disconnected, and Down after
/// 30 minutes. One that wasn't heard is usable for 30 minutes of its term.
pub fn silence_names_a_store()
    ensures up { (entry : StoreEntry) (beat now : ℕ) → entry.store.state ≡ states.Up →
        entry.beat ≡ Some beat → now ≤ beat + 20000 → state_name entry now ≡ names.Up }
    ensures disconnected { (entry : StoreEntry) (beat now : ℕ) → entry.store.state ≡ states.Up →
        entry.beat ≡ Some beat → beat + 20000 < now → now ≤ beat + 1800000 →
        state_name entry now ≡ names.Disconnected }
    ensures down { (entry : StoreEntry) (beat now : ℕ) → entry.store.state ≡ states.Up →
        entry.beat ≡ Some beat → entry.began ≤ beat → beat + 1800000 < now →
        state_name entry now ≡ names.Down }
    ensures began { (entry : StoreEntry) (now : ℕ) → entry.store.state ≡ states.Up →
        now ≤ entry.began + 1800000 → IsUsable entry now }
    ensures silent { (entry : StoreEntry) (now : ℕ) → entry.beat ≡ None →
        entry.began + 1800000 < now → IsUsable entry now → ⊥ }
{}

/// A store that was heard is live for 20 seconds, Up or Offline, and a Tombstone never is. An Up
/// store alone is usable, and Offline and Tombstone are named so whatever their silence.
pub fn an_offline_store_is_live_and_not_usable()
    ensures live { (entry : StoreEntry) (beat now : ℕ) → entry.store.state ≢ states.Tombstone →
        entry.beat ≡ Some beat → now ≤ beat + 20000 → IsLive entry now }
    ensures silent { (entry : StoreEntry) (beat now : ℕ) →
        entry.beat ≡ Some beat → beat + 20000 < now → IsLive entry now → ⊥ }
    ensures unheard { (entry : StoreEntry) (now : ℕ) → entry.beat ≡ None → IsLive entry now → ⊥ }
    ensures tombstone { (entry : StoreEntry) (now : ℕ) →
        entry.store.state ≡ states.Tombstone → IsLive entry now → ⊥ }
    ensures usable { (entry : StoreEntry) (now : ℕ) →
        IsUsable entry now → entry.store.state ≡ states.Up }
    ensures named_offline { (entry : StoreEntry) (now : ℕ) → entry.store.state ≡ states.Offline →
        state_name entry now ≡ names.Offline }
    ensures named_tombstone { (entry : StoreEntry) (now : ℕ) →
        entry.store.state ≡ states.Tombstone → state_name entry now ≡ names.Tombstone }
{}

/// The list of entries is a map from ids: a placed entry is found at its id, a changed one is found
/// changed, and every other id finds what it found before.
pub fn known_stores_are_a_map()
    ensures placed { (entry : StoreEntry) (entries : List StoreEntry) →
        entry_at entry.store.id (placed entry entries) ≡ Some entry }
    ensures others { (id : ℕ) (entry : StoreEntry) (entries : List StoreEntry) →
        id ≢ entry.store.id → entry_at id (placed entry entries) ≡ entry_at id entries }
    ensures changed { (id : ℕ) (change : StoreEntry → StoreEntry) (entries : List StoreEntry) →
        ((entry : StoreEntry) → (change entry).store.id ≡ entry.store.id) →
        entry_at id (changed id change entries) ≡ option_map change (entry_at id entries) }
    ensures kept { (id other : ℕ) (change : StoreEntry → StoreEntry) (entries : List StoreEntry) →
        ((entry : StoreEntry) → (change entry).store.id ≡ entry.store.id) → other ≢ id →
        entry_at other (changed id change entries) ≡ entry_at other entries }
{}

/// No call but `load` takes a state back: heartbeats keep it, an Offline store alone becomes a
/// Tombstone, and a Tombstone is neither heard nor made Offline.
pub fn states_go_one_way()
    ensures put { (rec : StoreRec) (moment : ℕ) (entry : StoreEntry) →
        (answered rec moment (Some entry)).store.state ≡ entry.store.state }
    ensures beat { (moment : ℕ) (entry : StoreEntry) → (heard moment entry).store ≡ entry.store }
    ensures buried { (state : StoreState) →
        (bury_refusal (Some state) ≡ None) ↔ (state ≡ states.Offline) }
    ensures stays { (entries : List StoreEntry) →
        put_refusal (Some states.Tombstone) entries ≡ Some faults.Tombstone }
    ensures silent { known_refusal (Some states.Tombstone) ≡ Some faults.Tombstone }
{}

/// Of all heartbeats of a term the greatest counts, whether they come with a record or without.
pub fn the_greatest_heartbeat_counts()
    ensures older { (entry : StoreEntry) (beat moment : ℕ) → entry.beat ≡ Some beat →
        moment ≤ beat → heard moment entry ≡ entry }
    ensures newer { (entry : StoreEntry) (beat moment : ℕ) → entry.beat ≡ Some beat →
        beat ≤ moment → (heard moment entry).beat ≡ Some moment }
    ensures first { (entry : StoreEntry) (moment : ℕ) → entry.beat ≡ None →
        (heard moment entry).beat ≡ Some moment }
    ensures put { (rec : StoreRec) (moment : ℕ) (entry : StoreEntry) →
        (answered rec moment (Some entry)).beat ≡ (heard moment entry).beat }
    ensures began { (rec : StoreRec) (moment : ℕ) (entry : StoreEntry) →
        (answered rec moment (Some entry)).began ≡ entry.began }
{}

/// What is known of a store after it is taken in: by its term alone nothing was heard of it, by its
/// own record that record with a heartbeat, and a known store's record is replaced.
pub fn a_record_is_kept_whole()
    ensures loaded { (rec : StoreRec) (moment : ℕ) →
        loaded rec moment ≡ record { store = rec; began = moment; beat = None } }
    ensures first { (rec : StoreRec) (moment : ℕ) →
        answered rec moment None ≡ record { store = rec; began = moment; beat = Some moment } }
    ensures known { (rec : StoreRec) (moment : ℕ) (entry : StoreEntry) →
        rec.state ≡ entry.store.state → (answered rec moment (Some entry)).store ≡ rec }
    ensures state { (state : StoreState) (entry : StoreEntry) →
        (in_state state entry).store.state ≡ state }
    ensures beat { (state : StoreState) (entry : StoreEntry) →
        (in_state state entry).beat ≡ entry.beat }
    ensures labels { (state : StoreState) (entry : StoreEntry) →
        (in_state state entry).store.labels ≡ entry.store.labels }
{}

/// Why a call on a store is refused: 256 stores refuse one that isn't known and no other, an unknown
/// store isn't heard, made Offline or buried, and a known one that is no Tombstone is heard.
pub fn the_refusals_of_a_store()
    ensures room { (entries : List StoreEntry) → length entries < 256 →
        (load_refusal None entries ≡ None) × (put_refusal None entries ≡ None) }
    ensures full { (entries : List StoreEntry) → 256 ≤ length entries →
        (load_refusal None entries ≡ Some faults.Limit) × (put_refusal None entries ≡ Some faults.Limit) }
    ensures loaded { (state : StoreState) (entries : List StoreEntry) →
        load_refusal (Some state) entries ≡ None }
    ensures unknown { known_refusal None ≡ Some faults.UnknownStore }
    ensures absent { bury_refusal None ≡ Some faults.UnknownStore }
    ensures kept { (state : StoreState) → state ≢ states.Offline →
        bury_refusal (Some state) ≡ Some faults.NotOffline }
    ensures heard { (state : StoreState) (entries : List StoreEntry) → state ≢ states.Tombstone →
        (known_refusal (Some state) ≡ None) × (put_refusal (Some state) entries ≡ None) }
{}

/// The names of the states, as pd-ctl prints them.
pub fn pd_ctl_names_the_states()
    ensures up { state_text names.Up ≡ codes "Up" }
    ensures disconnected { state_text names.Disconnected ≡ codes "Disconnected" }
    ensures down { state_text names.Down ≡ codes "Down" }
    ensures offline { state_text names.Offline ≡ codes "Offline" }
    ensures tombstone { state_text names.Tombstone ≡ codes "Tombstone" }
{}
