// What hellos and heartbeats make of the stores.
ghost use Rattle.std.specs.Prelude.{◌≡◌, None, IfOk, OnOk, length, option_map};
ghost use Rattle.pd_types.specs.declared.store.StoreState.TheVariants as states;
ghost use Rattle.store_table.specs.Entries.{entry_at, placed, state_at};
ghost use Rattle.pd_state.specs.Replies.{alive_reply, hello_refusal};
ghost use Rattle.pd_state.specs.State.{greeting, kept_state};
ghost use Rattle.pd_state.specs.Steps.{greeted, heard_after};

use crate::Reply;
use pd_types::{Duplicate, Labels, NoMemory, StoreRec, StoreState, Text};
use std::alloc::Global;
use store_table::{MOST_STORES, Stores};

// The state of a store, where it is known.
fn state_of(stores: &Stores, store: u64) -> Option<StoreState>
    ensures value { result ≡ state_at store stores.now }
{
    match stores.get(store) {
        Some(rec) => Some(rec.state),
        None => None,
    }
}

/// What refuses a store's hello before the metadata is asked.
pub fn hello_refusal(stores: &Stores, store: u64) -> Option<Reply>
    ensures value { result ≡ hello_refusal (state_at store stores.now) (length stores.now) }
{
    match state_of(stores, store) {
        Some(StoreState::Tombstone) => Some(Reply::Tombstone),
        Some(_) => None,
        None => {
            if stores.len() >= MOST_STORES {
                Some(Reply::Limit)
            } else {
                None
            }
        }
    }
}

/// The record that a store's hello writes: a known store keeps its state, a new one is Up.
pub fn greeted_record(
    alloc: Global,
    stores: &Stores,
    store: u64,
    address: &Text,
    labels: &Labels,
) -> Result<StoreRec, NoMemory>
    ensures value { IfOk result (λ rec. rec ≡ kept_state (option_map (λ entry. entry.store) (entry_at store stores.now)) (greeting store address.now labels.now)) }
{
    let state = match stores.get(store) {
        Some(known) => known.state,
        None => StoreState::Up,
    };
    Ok(StoreRec {
        id: store,
        address: address.copy(alloc)?,
        labels: labels.copy(alloc)?,
        state,
    })
}

// Takes in a store that isn't known, with a heartbeat.
fn take_in(stores: &mut Stores, rec: StoreRec, began: u64, moment: u64) -> Result<(), NoMemory>
    requires unknown { state_at rec.id stores.old ≡ None }
    requires up { rec.state ≡ states.Up }
    ensures ok { OnOk result (stores.new ≡ placed (greeted None rec began moment) stores.old) }
{
    let id = rec.id;
    match stores.load(rec, began) {
        Ok(()) => {
            let Ok(()) = stores.beat(id, moment) else {
                unreachable!()
            };
            Ok(())
        }
        // The caller tested that there is room, so that memory alone was wanting.
        Err(_) => Err(NoMemory),
    }
}

/// Takes in the record of a store that nothing refuses, with a heartbeat; the term of a new store
/// began with that of its cluster, at `began`.
pub fn greet(stores: &mut Stores, rec: StoreRec, began: u64, moment: u64) -> Result<(), NoMemory>
    requires up { state_at rec.id stores.old ≡ None → rec.state ≡ states.Up }
    ensures ok { OnOk result (stores.new ≡ placed (greeted (entry_at rec.id stores.old) rec began moment) stores.old) }
{
    match state_of(stores, rec.id) {
        None => take_in(stores, rec, began, moment),
        Some(_) => match stores.put(rec, moment) {
            Ok(()) => Ok(()),
            // The caller tested that it is no tombstone, so that memory alone was wanting.
            Err(_) => Err(NoMemory),
        },
    }
}

/// A heartbeat of a store.
pub fn hear(stores: &mut Stores, store: u64, moment: u64) -> Reply
    ensures reply { result ≡ alive_reply (state_at store stores.old) }
    ensures after { stores.new ≡ heard_after result store moment stores.old }
{
    match state_of(stores, store) {
        None => Reply::UnknownStore,
        Some(StoreState::Tombstone) => Reply::Tombstone,
        Some(_) => {
            let Ok(()) = stores.beat(store, moment) else {
                unreachable!()
            };
            Reply::Alive
        }
    }
}
