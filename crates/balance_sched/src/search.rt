// The search for the first move.
ghost use Rattle.std.specs.Prelude.{◌≡◌, ◌≤◌, true, IfOk, IsTrue, IsFalse, Contains, length};
ghost use Rattle.rule_set.specs.InForce.{rules_at};
ghost use Rattle.balance_sched.specs.Moves.{FitsRules, is_source, Proposes};
ghost use Rattle.balance_sched.specs.Search.{AllLose, Follows, IsBest, LoseBetween, LoseFrom, can_win};
ghost use Rattle.balance_sched.specs.Tables.{count_of, tables_of};
ghost use Rattle.pd_types.specs.declared.beat.TheConstants.{MAX_PEERS};
ghost use Rattle.pd_types.specs.declared.rule.TheConstants.{MAX_RULES};

use crate::Move;
use crate::case::{Case, View, count, counts, least};
use crate::moves::{beats, is_source, proposal_of};
use crate::region::{Target, fits, is_allowed, is_busy, may_go, target_at, targets_len};
use pd_types::{NoMemory, Proposal, RegionBeat, Rules};
use std::alloc::Global;

/// A region that has no operator, and the rules in force at its start.
#[derive(Clone, Copy)]
struct Idle<'a> {
    on: Case<'a>,
    beat: &'a RegionBeat,
    rules: &'a Rules,
    ghost peers: { length beat.now.region.peers ≤ MAX_PEERS },
    ghost few: { length rules.now ≤ MAX_RULES },
    ghost rules_are: { rules.now ≡ rules_at beat.now.region.start on.view.rules.now },
    ghost idle: { Contains on.view.busy.now beat.now.region.id → ⊥ },
}

// Whether a move of this region with a difference of at most `most` can go before what was found.
fn can_win(best: Option<Move>, region: u64, most: u64) -> bool
    ensures { result ≡ can_win best region most }
{
    if most < 2 {
        return false;
    }
    match best {
        Some(best) => {
            best.difference < most || (best.difference == most && region <= best.region)
        }
        None => true,
    }
}

// What is found once the move from one store to another is looked at.
fn weigh(
    alloc: Global,
    of: Idle,
    from: u64,
    have: u64,
    target: Target,
    best: Option<Move>,
) -> Result<Option<Move>, NoMemory>
    requires source { is_source of.on.view.kind from of.beat.now ≡ true }
    requires have { have ≡ count_of of.on.view.kind from of.on.view.standing.now }
    requires count { target.count ≡ count_of of.on.view.kind target.store of.on.view.standing.now }
    requires fits { FitsRules (tables_of of.on.view.stores.now of.on.view.standing.now of.on.view.rules.now of.on.view.busy.now of.on.view.now) of.beat.now }
    ensures follows { IfOk result (Follows of.entry.on.view.kind (tables_of of.entry.on.view.stores.now of.entry.on.view.standing.now of.entry.on.view.rules.now of.entry.on.view.busy.now of.entry.on.view.now) of.entry.beat.now best) }
    ensures lose { IfOk result (LoseBetween of.entry.on.view.kind (tables_of of.entry.on.view.stores.now of.entry.on.view.standing.now of.entry.on.view.rules.now of.entry.on.view.busy.now of.entry.on.view.now) of.entry.beat.now from target.store) }
{
    let one = Move {
        region: of.beat.region.id,
        from,
        to: target.store,
        difference: have.saturating_sub(target.count),
    };
    if one.difference < 2 {
        return Ok(best);
    }
    if !beats(&one, best) {
        return Ok(best);
    }
    if !is_allowed(alloc, of.on.view, of.beat, of.rules, &one)? {
        return Ok(best);
    }
    Ok(Some(one))
}

// What is found once all moves from one store are looked at.
fn best_from(
    alloc: Global,
    of: Idle,
    from: u64,
    best: Option<Move>,
) -> Result<Option<Move>, NoMemory>
    requires source { is_source of.on.view.kind from of.beat.now ≡ true }
    requires fits { FitsRules (tables_of of.on.view.stores.now of.on.view.standing.now of.on.view.rules.now of.on.view.busy.now of.on.view.now) of.beat.now }
    ensures follows { IfOk result (Follows of.entry.on.view.kind (tables_of of.entry.on.view.stores.now of.entry.on.view.standing.now of.entry.on.view.rules.now of.entry.on.view.busy.now of.entry.on.view.now) of.entry.beat.now best) }
    ensures lose { IfOk result (LoseFrom of.entry.on.view.kind (tables_of of.entry.on.view.stores.now of.entry.on.view.standing.now of.entry.on.view.rules.now of.entry.on.view.busy.now of.entry.on.view.now) of.entry.beat.now from) }
{
    let have = count(of.on.view.kind, of.on.view.standing, from);
    if !can_win(best, of.beat.region.id, have.saturating_sub(of.on.least)) {
        return Ok(best);
    }
    let mut found = best;
    for place in 0..targets_len(of.on, of.beat) {
        let Some(target) = target_at(of.on, of.beat, place) else {
            continue;
        };
        found = weigh(alloc, of, from, have, target, found)?;
    }
    Ok(found)
}

// The same, also where nothing is there that moves.
fn best_at(alloc: Global, of: Idle, from: u64, best: Option<Move>) -> Result<Option<Move>, NoMemory>
    requires fits { FitsRules (tables_of of.on.view.stores.now of.on.view.standing.now of.on.view.rules.now of.on.view.busy.now of.on.view.now) of.beat.now }
    ensures follows { IfOk result (Follows of.entry.on.view.kind (tables_of of.entry.on.view.stores.now of.entry.on.view.standing.now of.entry.on.view.rules.now of.entry.on.view.busy.now of.entry.on.view.now) of.entry.beat.now best) }
    ensures lose { IfOk result (LoseFrom of.entry.on.view.kind (tables_of of.entry.on.view.stores.now of.entry.on.view.standing.now of.entry.on.view.rules.now of.entry.on.view.busy.now of.entry.on.view.now) of.entry.beat.now from) }
{
    if !is_source(of.on.view.kind, from, of.beat) {
        return Ok(best);
    }
    best_from(alloc, of, from, best)
}

// What is found once all moves of a region that has no operator and fits are looked at.
fn best_of(alloc: Global, of: Idle, best: Option<Move>) -> Result<Option<Move>, NoMemory>
    requires fits { FitsRules (tables_of of.on.view.stores.now of.on.view.standing.now of.on.view.rules.now of.on.view.busy.now of.on.view.now) of.beat.now }
    ensures follows { IfOk result (Follows of.entry.on.view.kind (tables_of of.entry.on.view.stores.now of.entry.on.view.standing.now of.entry.on.view.rules.now of.entry.on.view.busy.now of.entry.on.view.now) of.entry.beat.now best) }
    ensures lose { IfOk result (AllLose of.entry.on.view.kind (tables_of of.entry.on.view.stores.now of.entry.on.view.standing.now of.entry.on.view.rules.now of.entry.on.view.busy.now of.entry.on.view.now) of.entry.beat.now) }
{
    let mut found = best;
    for peer in of.beat.region.peers.as_slice() {
        found = best_at(alloc, of, peer.store, found)?;
    }
    Ok(found)
}

// Whether the counts and the region's peers let the move from one store to another go before what was
// found.
fn may_reach(
    on: Case,
    beat: &RegionBeat,
    from: u64,
    have: u64,
    target: Target,
    best: Option<Move>,
) -> bool
    requires have { have ≡ count_of on.view.kind from on.view.standing.now }
    requires count { target.count ≡ count_of on.view.kind target.store on.view.standing.now }
    ensures { IsFalse result → LoseBetween on.entry.view.kind (tables_of on.entry.view.stores.now on.entry.view.standing.now on.entry.view.rules.now on.entry.view.busy.now on.entry.view.now) beat.now from target.store best }
{
    let one = Move {
        region: beat.region.id,
        from,
        to: target.store,
        difference: have.saturating_sub(target.count),
    };
    if one.difference < 2 || !beats(&one, best) {
        return false;
    }
    may_go(on.view, beat, &one)
}

// Whether the counts and the region's peers let a move from the store go before what was found.
fn may_win_from(on: Case, beat: &RegionBeat, from: u64, best: Option<Move>) -> bool
    ensures { IsFalse result → LoseFrom on.entry.view.kind (tables_of on.entry.view.stores.now on.entry.view.standing.now on.entry.view.rules.now on.entry.view.busy.now on.entry.view.now) beat.now from best }
{
    if !is_source(on.view.kind, from, beat) {
        return false;
    }
    let have = count(on.view.kind, on.view.standing, from);
    if !can_win(best, beat.region.id, have.saturating_sub(on.least)) {
        return false;
    }
    for place in 0..targets_len(on, beat) {
        let Some(target) = target_at(on, beat, place) else {
            continue;
        };
        if may_reach(on, beat, from, have, target, best) {
            return true;
        }
    }
    false
}

// Whether the counts and the peers let a move of the region go before what was found.
fn may_win(on: Case, beat: &RegionBeat, best: Option<Move>) -> bool
    ensures { IsFalse result → AllLose on.entry.view.kind (tables_of on.entry.view.stores.now on.entry.view.standing.now on.entry.view.rules.now on.entry.view.busy.now on.entry.view.now) beat.now best }
{
    for peer in beat.region.peers.as_slice() {
        if may_win_from(on, beat, peer.store, best) {
            return true;
        }
    }
    false
}

// What is found once a region is looked at. Its rules and its fit are looked at only where the counts
// and its peers let it win.
fn best_with(
    alloc: Global,
    on: Case,
    beat: &RegionBeat,
    best: Option<Move>,
) -> Result<Option<Move>, NoMemory>
    requires peers { length beat.now.region.peers ≤ MAX_PEERS }
    ensures follows { IfOk result (Follows on.entry.view.kind (tables_of on.entry.view.stores.now on.entry.view.standing.now on.entry.view.rules.now on.entry.view.busy.now on.entry.view.now) beat.now best) }
    ensures lose { IfOk result (AllLose on.entry.view.kind (tables_of on.entry.view.stores.now on.entry.view.standing.now on.entry.view.rules.now on.entry.view.busy.now on.entry.view.now) beat.now) }
{
    if !may_win(on, beat, best) {
        return Ok(best);
    }
    if is_busy(on.view.busy, beat.region.id) {
        return Ok(best);
    }
    let rules = on.view.rules.rules_at(beat.region.start.as_slice())?;
    if !fits(alloc, on.view, beat, &rules)? {
        return Ok(best);
    }
    let rules = &rules;
    best_of(alloc, Idle { on, beat, rules }, best)
}

// The first of all moves.
fn first_of(alloc: Global, on: Case) -> Result<Option<Move>, NoMemory>
    ensures { IfOk result (IsBest on.entry.view.kind (tables_of on.entry.view.stores.now on.entry.view.standing.now on.entry.view.rules.now on.entry.view.busy.now on.entry.view.now) (length on.entry.view.standing.now)) }
{
    let regions = on.view.standing.regions();
    let mut found = None;
    for place in 0..regions.len() {
        let Some(beat) = regions.at(place) else {
            unreachable!()
        };
        found = best_with(alloc, on, beat, found)?;
    }
    Ok(found)
}

/// The first of all admissible moves, as it is proposed; none where there is none.
pub fn propose(alloc: Global, view: View) -> Result<Option<Proposal>, NoMemory>
    ensures { IfOk result (Proposes view.entry.kind (tables_of view.entry.stores.now view.entry.standing.now view.entry.rules.now view.entry.busy.now view.entry.now)) }
{
    let counts = counts(alloc, view)?;
    let counts = counts.as_slice();
    let least = least(view);
    let on = Case {
        view,
        counts,
        least,
    };
    match first_of(alloc, on)? {
        Some(one) => Ok(Some(proposal_of(view.kind, &one))),
        None => Ok(None),
    }
}
