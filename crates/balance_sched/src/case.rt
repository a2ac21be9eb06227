// What a scheduler goes by, with the counts of all stores.
ghost use Rattle.std.specs.Prelude.{◌≡◌, ◌≤◌, ◌<◌, ℕ, true, map, IfOk, length, slice_get, Some};
ghost use Rattle.store_table.specs.Entries.{is_live, is_usable};
ghost use Rattle.store_table.specs.declared.entry.StoreEntry.{StoreEntry};
ghost use Rattle.balance_sched.specs.Search.{IsLeast};
ghost use Rattle.balance_sched.specs.Tables.{count_of, tables_of};

use crate::Kind;
use heartbeat::Standing;
use pd_types::{Ids, NoMemory};
use rule_set::RuleSet;
use std::alloc::Global;
use store_table::Stores;

/// The stores, the regions that stand, the rules, the regions that have an operator, and the clock
/// in milliseconds since the epoch.
#[derive(Clone, Copy)]
pub struct View<'a> {
    pub kind: Kind,
    pub stores: &'a Stores,
    pub standing: &'a Standing,
    pub rules: &'a RuleSet,
    pub busy: &'a Ids,
    pub now: u64,
}

/// A view with the count of each store, by its place, and a number that no live and usable store is
/// below.
#[derive(Clone, Copy)]
pub struct Case<'a> {
    pub view: View<'a>,
    pub counts: &'a [u64],
    pub least: u64,
    ghost counted: { counts.now ≡ map (λ (entry : StoreEntry). count_of view.kind entry.store.id view.standing.now) view.stores.now },
    ghost above: { IsLeast view.kind (tables_of view.stores.now view.standing.now view.rules.now view.busy.now view.now) least },
}

/// What is balanced, counted on a store.
pub fn count(kind: Kind, standing: &Standing, store: u64) -> u64
    ensures { result ≡ count_of kind store standing.now }
{
    match kind {
        Kind::Regions => standing.region_count(store),
        Kind::Leaders => standing.leader_count(store),
    }
}

/// The count of each store, by its place.
pub fn counts(alloc: Global, on: View) -> Result<Vec<u64>, NoMemory>
    ensures { IfOk result (λ counts. counts.items ≡ map (λ (entry : StoreEntry). count_of on.entry.kind entry.store.id on.entry.standing.now) on.entry.stores.now) }
{
    let mut counts = Vec::new(alloc);
    for place in 0..on.stores.len() {
        let Some(store) = on.stores.at(place) else {
            unreachable!()
        };
        counts.push(count(on.kind, on.standing, store.id))?;
    }
    Ok(counts)
}

// The lesser of a number and the count of the store at a place, where it is live and usable.
fn lesser(on: View, place: usize, least: u64) -> u64
    requires { place < length on.stores.now }
    ensures below { result ≤ least }
    ensures here { (entry : StoreEntry) → slice_get on.entry.stores.now place ≡ Some entry → is_live entry.store.id on.entry.now on.entry.stores.now ≡ true → is_usable entry.store.id on.entry.now on.entry.stores.now ≡ true → result ≤ count_of on.entry.kind entry.store.id on.entry.standing.now }
{
    let Some(store) = on.stores.at(place) else {
        unreachable!()
    };
    if on.stores.is_live(store.id, on.now) && on.stores.is_usable(store.id, on.now) {
        least.min(count(on.kind, on.standing, store.id))
    } else {
        least
    }
}

/// A number that no live and usable store is below: the least count of one, where there is one.
pub fn least(on: View) -> u64
    ensures { IsLeast on.entry.kind (tables_of on.entry.stores.now on.entry.standing.now on.entry.rules.now on.entry.busy.now on.entry.now) result }
{
    let mut least = u64::MAX;
    for place in 0..on.stores.len() {
        least = lesser(on, place, least);
    }
    least
}
