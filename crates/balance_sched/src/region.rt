// What a region's move is tested by.
ghost use Rattle.std.specs.Prelude.{◌≡◌, ◌↔◌, ◌≤◌, option_map, slice_get, IfOk, IfSome, IsTrue, Contains, length};
ghost use Rattle.rule_set.specs.InForce.{rules_at};
ghost use Rattle.balance_sched.specs.Moves.{FitsRules, done, is_target};
ghost use Rattle.balance_sched.specs.Search.{IsAllowed, may_go, targets};
ghost use Rattle.balance_sched.specs.Tables.{count_of, tables_of};
ghost use Rattle.pd_types.specs.declared.beat.TheConstants.{MAX_PEERS};
ghost use Rattle.pd_types.specs.declared.rule.TheConstants.{MAX_RULES};

use crate::case::{Case, View, count};
use crate::moves::{done, is_on, peer_on};
use crate::{Kind, Move};
use op_step::may_lead;
use pd_types::{Ids, NoMemory, RegionBeat, Rules};
use rule_fit::misfit_number;
use std::alloc::Global;

/// A store with its count.
#[derive(Clone, Copy, Debug)]
pub struct Target {
    pub store: u64,
    pub count: u64,
}

/// How many targets the region's moves have.
pub fn targets_len(on: Case, beat: &RegionBeat) -> usize
    ensures { result ≡ length (targets on.entry.view.kind beat.now on.entry.view.stores.now) }
{
    match on.view.kind {
        Kind::Regions => on.counts.len(),
        Kind::Leaders => beat.region.peers.len(),
    }
}

/// A target of the region's moves, by its place.
pub fn target_at(on: Case, beat: &RegionBeat, place: usize) -> Option<Target>
    ensures store { option_map (λ target. target.store) result ≡ slice_get (targets on.entry.view.kind beat.now on.entry.view.stores.now) place }
    ensures count { IfSome result (λ target. target.count ≡ count_of on.entry.view.kind target.store on.entry.view.standing.now) }
{
    match on.view.kind {
        Kind::Regions => {
            let store = on.view.stores.at(place)?.id;
            let count = *on.counts.get(place)?;
            Some(Target { store, count })
        }
        Kind::Leaders => {
            let store = beat.region.peers.as_slice().get(place)?.store;
            let count = count(on.view.kind, on.view.standing, store);
            Some(Target { store, count })
        }
    }
}

/// Whether the region has an operator.
pub fn is_busy(busy: &Ids, region: u64) -> bool
    ensures { IsTrue result ↔ Contains busy.now region }
{
    busy.as_slice().contains(&region)
}

// Whether what moves may come to the store.
fn is_target(on: View, store: u64, beat: &RegionBeat) -> bool
    ensures { result ≡ is_target on.entry.kind (tables_of on.entry.stores.now on.entry.standing.now on.entry.rules.now on.entry.busy.now on.entry.now) store beat.now }
{
    match on.kind {
        Kind::Regions => !is_on(store, beat),
        Kind::Leaders => match peer_on(store, beat) {
            Some(peer) => may_lead(beat, on.stores, on.now, &peer),
            None => false,
        },
    }
}

/// Whether the region fits these rules.
pub fn fits(alloc: Global, on: View, beat: &RegionBeat, rules: &Rules) -> Result<bool, NoMemory>
    requires peers { length beat.now.region.peers ≤ MAX_PEERS }
    requires few { length rules.now ≤ MAX_RULES }
    requires rules { rules.now ≡ rules_at beat.now.region.start on.rules.now }
    ensures { IfOk result (λ fits. IsTrue fits ↔ FitsRules (tables_of on.entry.stores.now on.entry.standing.now on.entry.rules.now on.entry.busy.now on.entry.now) beat.now) }
{
    Ok(misfit_number(alloc, beat, rules, on.stores, on.now)? == 0)
}

// Whether the region fits once the move is done.
fn fits_after(
    alloc: Global,
    on: View,
    beat: &RegionBeat,
    rules: &Rules,
    one: &Move,
) -> Result<bool, NoMemory>
    requires peers { length beat.now.region.peers ≤ MAX_PEERS }
    requires few { length rules.now ≤ MAX_RULES }
    requires rules { rules.now ≡ rules_at beat.now.region.start on.rules.now }
    ensures { IfOk result (λ fits. IsTrue fits ↔ FitsRules (tables_of on.entry.stores.now on.entry.standing.now on.entry.rules.now on.entry.busy.now on.entry.now) (done on.entry.kind one.now beat.now)) }
{
    let left = done(alloc, on.kind, one, beat)?;
    fits(alloc, on, &left, rules)
}

/// Whether both stores and the region's peers allow the move.
pub fn may_go(on: View, beat: &RegionBeat, one: &Move) -> bool
    ensures { result ≡ may_go on.entry.kind (tables_of on.entry.stores.now on.entry.standing.now on.entry.rules.now on.entry.busy.now on.entry.now) beat.now one.now }
{
    on.stores.is_live(one.from, on.now)
        && on.stores.is_live(one.to, on.now)
        && on.stores.is_usable(one.to, on.now)
        && is_target(on, one.to, beat)
}

/// Whether the move of a region that has no operator and fits, from a store where what moves is, is
/// admissible by all but its counts. Its fit once the move is done is looked at last.
pub fn is_allowed(
    alloc: Global,
    on: View,
    beat: &RegionBeat,
    rules: &Rules,
    one: &Move,
) -> Result<bool, NoMemory>
    requires peers { length beat.now.region.peers ≤ MAX_PEERS }
    requires few { length rules.now ≤ MAX_RULES }
    requires rules { rules.now ≡ rules_at beat.now.region.start on.rules.now }
    ensures { IfOk result (λ allowed. IsTrue allowed ↔ IsAllowed on.entry.kind (tables_of on.entry.stores.now on.entry.standing.now on.entry.rules.now on.entry.busy.now on.entry.now) beat.now one.now) }
{
    if !may_go(on, beat, one) {
        return Ok(false);
    }
    fits_after(alloc, on, beat, rules, one)
}
