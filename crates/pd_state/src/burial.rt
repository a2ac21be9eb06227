// Burying stores: an Offline store without a peer becomes a Tombstone.
ghost use Rattle.std.specs.Prelude.{◌≡◌, ◌≢◌, ℕ, ◌+◌, ◌<◌, ◌≤◌, ◌^◌, false, All, AllPairs, IfOk, List, OnOk, Some};
ghost use Rattle.meta_store.specs.Doors.{Serves};
ghost use Rattle.pd_types.specs.declared.store.StoreRec.{StoreRec};
ghost use Rattle.pd_types.specs.declared.store.StoreState.TheVariants as states;
ghost use Rattle.store_table.specs.Entries.{state_at};
ghost use Rattle.pd_state.specs.Adding.{around_of};
ghost use Rattle.pd_state.specs.Asking.{Talks, ear};
ghost use Rattle.pd_state.specs.Checking.{Burial as Burials, bury, bury_all, bury_one, burial_at, graves_in, is_grave};

use crate::Part;
use crate::write::put;
use meta_store::{Door, MetaAnswers, MetaVerdict, store_key, store_text};
use pd_types::{Duplicate, NoMemory, Seq, StoreRec, StoreState};
use std::alloc::Global;

/// How far a patrol came with burying stores.
#[derive(Clone, Copy, Debug)]
pub struct Burial {
    pub buried: u64,
    pub stopped: bool,
}

// Whether the store is Offline and no held region has a peer on it.
fn is_grave(part: &Part, store: &StoreRec) -> bool
    ensures { result ≡ is_grave part.now.standing store.now }
{
    match store.state {
        StoreState::Offline => part.standing.region_count(store.id) == 0,
        StoreState::Up | StoreState::Tombstone => false,
    }
}

// The records of the stores that are to be buried, as tombstones, by rising id.
fn graves(alloc: Global, part: &Part) -> Result<Seq<StoreRec>, NoMemory>
    ensures value { IfOk result (λ graves. graves ≡ graves_in (around_of part.now)) }
    ensures offline { IfOk result (All (λ (grave : StoreRec). state_at grave.id part.now.stores ≡ Some states.Offline)) }
    ensures apart { IfOk result (AllPairs (λ (one other : StoreRec). one.id < other.id)) }
{
    if !part.standing.regions().covers_all() {
        return Ok(Seq::new(alloc));
    }
    let mut graves = Seq::new(alloc);
    for place in 0..part.stores.len() {
        let Some(store) = part.stores.at(place) else {
            unreachable!()
        };
        if !is_grave(part, store) {
            continue;
        }
        let mut grave = store.copy(alloc)?;
        grave.state = StoreState::Tombstone;
        graves.push(grave)?;
    }
    Ok(graves)
}

// Writes the record of one store, and buries the store where the write was accepted.
fn bury_one<M: Door>(
    alloc: Global,
    driver: u8,
    part: &mut Part,
    grave: &StoreRec,
    burial: Burial,
    answers: &mut MetaAnswers,
    door: &mut M,
) -> Result<Burial, NoMemory>
    requires serves { Serves (M.place door.old) driver }
    requires offline { state_at grave.now.id part.old.stores ≡ Some states.Offline }
    requires room { burial.buried + 1 < 2 ^ 64 }
    ensures talks { IfOk result (λ next. Talks Burials (bury_one part.old.term grave.now (burial_at part.old burial)) (burial_at part.new next) driver (ear answers.old part.old.known (M.said door.old) (M.told door.old)) (ear answers.new part.new.known (M.said door.new) (M.told door.new))) }
    ensures more { IfOk result (λ next. next.buried ≤ burial.buried + 1) }
    ensures others { OnOk result ((id : ℕ) → id ≢ grave.now.id → state_at id part.new.stores ≡ state_at id part.old.stores) }
    ensures rest { part.new ≡ record part.old { stores = part.new.stores; known = part.new.known } }
    ensures place { M.place door.new ≡ M.place door.old }
{
    if burial.stopped {
        return Ok(burial);
    }
    let key = store_key(alloc, grave.id)?;
    let text = store_text(alloc, grave)?;
    let answer = put(alloc, door, driver, part.term, &mut part.known, key, text)?;
    let verdict = answer.verdict;
    answers.push(answer)?;
    let MetaVerdict::Accepted { .. } = verdict else {
        return Ok(Burial {
            buried: burial.buried,
            stopped: true,
        });
    };
    let Ok(()) = part.stores.bury(grave.id) else {
        unreachable!()
    };
    Ok(Burial {
        buried: burial.buried + 1,
        stopped: false,
    })
}

// Buries these stores, in turn.
fn bury_each<M: Door>(
    alloc: Global,
    driver: u8,
    part: &mut Part,
    graves: &[StoreRec],
    answers: &mut MetaAnswers,
    door: &mut M,
) -> Result<Burial, NoMemory>
    requires serves { Serves (M.place door.old) driver }
    requires offline { All (λ (grave : StoreRec). state_at grave.id part.old.stores ≡ Some states.Offline) graves.now }
    requires apart { AllPairs (λ (one other : StoreRec). one.id < other.id) graves.now }
    ensures talks { IfOk result (λ burial. Talks Burials (bury part.old.term graves.now (burial_at part.old (record { buried = 0; stopped = false }))) (burial_at part.new burial) driver (ear answers.old part.old.known (M.said door.old) (M.told door.old)) (ear answers.new part.new.known (M.said door.new) (M.told door.new))) }
    ensures rest { part.new ≡ record part.old { stores = part.new.stores; known = part.new.known } }
    ensures place { M.place door.new ≡ M.place door.old }
{
    let mut burial = Burial {
        buried: 0,
        stopped: false,
    };
    for grave in graves {
        burial = bury_one(alloc, driver, part, grave, burial, answers, door)?;
    }
    Ok(burial)
}

/// Buries each Offline store on which no held region has a peer, by rising id, where the held regions
/// cover the whole key space; it stops at a refused write. Answers how many it buried, and whether it stopped.
pub fn bury_all<M: Door>(
    alloc: Global,
    driver: u8,
    part: &mut Part,
    answers: &mut MetaAnswers,
    door: &mut M,
) -> Result<Burial, NoMemory>
    requires { Serves (M.place door.old) driver }
    ensures talks { IfOk result (λ burial. Talks Burials (bury_all (around_of part.old)) (burial_at part.new burial) driver (ear answers.old part.old.known (M.said door.old) (M.told door.old)) (ear answers.new part.new.known (M.said door.new) (M.told door.new))) }
    ensures rest { part.new ≡ record part.old { stores = part.new.stores; known = part.new.known } }
    ensures place { M.place door.new ≡ M.place door.old }
{
    let graves = graves(alloc, part)?;
    bury_each(alloc, driver, part, graves.as_slice(), answers, door)
}
