// Which of two candidates goes before the other.
ghost use Rattle.std.specs.Prelude.{◌≡◌, ◌≤◌, IfOk, length, map, nat_lt};
ghost use Rattle.heartbeat.specs.Counts.{region_count};
ghost use Rattle.rule_fit.specs.Isolation.{score_among};
ghost use Rattle.rule_checker.specs.Ranks.{comes_first, is_before, locations_by, other_stores, score_beside, score_of, stores_of, wins_tie};
ghost use Rattle.pd_types.specs.Numbers.{lesser_then};
ghost use Rattle.rule_checker.specs.Best.{better_of};
ghost use Rattle.pd_types.specs.declared.beat.TheConstants.{MAX_PEERS};

use crate::case::Case;
use crate::{Class, Ranked};
use heartbeat::Standing;
use pd_types::{Ids, Label, NoMemory, Peer};
use rule_fit::{labels_of, labels_of_all, satisfies_all, score_among};
use std::alloc::Global;

/// The isolation score of a store with these labels beside stores with those, by the location
/// labels of the first rule whose constraints it satisfies.
pub fn score_by_rules(on: Case, own: &[Label], others: &[&[Label]]) -> u64
    requires others { length others.now ≤ MAX_PEERS }
    ensures { result ≡ score_among own.now (map (λ other. other.now) others.now) (locations_by on.entry.rules.now own.now) }
{
    for rule in on.rules.as_slice() {
        if satisfies_all(own, rule.constraints.as_slice()) {
            return score_among(own, others, rule.locations.as_slice());
        }
    }
    score_among(own, others, &[])
}

// The isolation score of the store beside others.
fn score_beside(alloc: Global, on: Case, store: u64, others: &Ids) -> Result<u64, NoMemory>
    requires others { length others.now ≤ MAX_PEERS }
    ensures { IfOk result (λ score. score ≡ score_beside on.entry.rules.now on.entry.stores.now store others.now) }
{
    let others = labels_of_all(alloc, on.stores, others)?;
    Ok(score_by_rules(on, labels_of(on.stores, store), &others))
}

/// The stores of the peers.
pub fn stores_of(alloc: Global, peers: &[Peer]) -> Result<Ids, NoMemory>
    ensures { IfOk result (λ stores. stores ≡ stores_of peers.now) }
{
    let mut stores = Ids::new(alloc);
    for peer in peers {
        stores.push(peer.store)?;
    }
    Ok(stores)
}

// The stores of the other peers.
fn other_stores(alloc: Global, peer: &Peer, peers: &[Peer]) -> Result<Ids, NoMemory>
    ensures value { IfOk result (λ stores. stores ≡ other_stores peer.now peers.now) }
    ensures few { IfOk result (λ stores. length stores ≤ length peers.now) }
{
    let mut stores = Ids::new(alloc);
    for one in peers {
        if one.id != peer.id {
            stores.push(one.store)?;
        }
    }
    Ok(stores)
}

fn score_of_new(alloc: Global, on: Case, peer: &Peer) -> Result<u64, NoMemory>
    ensures { IfOk result (λ score. score ≡ score_of Class.AddVoter on.entry.beat.now on.entry.rules.now on.entry.stores.now peer.now) }
{
    let others = stores_of(alloc, on.beat.region.peers.as_slice())?;
    score_beside(alloc, on, peer.store, &others)
}

fn score_of_old(alloc: Global, on: Case, peer: &Peer) -> Result<u64, NoMemory>
    ensures { IfOk result (λ score. score ≡ score_of Class.Remove on.entry.beat.now on.entry.rules.now on.entry.stores.now peer.now) }
{
    let others = other_stores(alloc, peer, on.beat.region.peers.as_slice())?;
    score_beside(alloc, on, peer.store, &others)
}

/// How far a candidate's store is from the others, where its class asks for it.
pub fn score_of(alloc: Global, on: Case, class: Class, peer: &Peer) -> Result<u64, NoMemory>
    ensures { IfOk result (λ score. score ≡ score_of class on.entry.beat.now on.entry.rules.now on.entry.stores.now peer.now) }
{
    match class {
        Class::Promote | Class::Transfer => Ok(0),
        Class::AddVoter | Class::AddLearner => score_of_new(alloc, on, peer),
        Class::Remove => score_of_old(alloc, on, peer),
    }
}

// Whether the one store has fewer regions, or as many and the lesser id.
fn has_fewer(standing: &Standing, one: u64, other: u64) -> bool
    ensures { result ≡ lesser_then (region_count one standing.now) (region_count other standing.now) (nat_lt one other) }
{
    let first = standing.region_count(one);
    let second = standing.region_count(other);
    first < second || (first == second && one < other)
}

// Where the scores are equal, the regions on the stores are counted.
fn comes_first(standing: &Standing, one: &Ranked, other: &Ranked) -> bool
    ensures { result ≡ comes_first standing.now one.now other.now }
{
    other.score < one.score
        || (other.score == one.score && has_fewer(standing, one.peer.store, other.peer.store))
}

// Which of two candidates of one resulting number goes first.
fn wins_tie(class: Class, standing: &Standing, one: &Ranked, other: &Ranked) -> bool
    ensures { result ≡ wins_tie class standing.now one.now other.now }
{
    match class {
        Class::Promote | Class::Transfer => one.peer.id < other.peer.id,
        Class::AddVoter | Class::AddLearner => comes_first(standing, one, other),
        Class::Remove => {
            one.score < other.score || (one.score == other.score && one.peer.id < other.peer.id)
        }
    }
}

/// Whether the one goes before the other.
pub fn is_before(class: Class, standing: &Standing, one: &Ranked, other: &Ranked) -> bool
    ensures { result ≡ is_before class standing.now one.now other.now }
{
    one.to < other.to || (one.to == other.to && wins_tie(class, standing, one, other))
}

/// The one of the two that goes first; of one and none the one.
pub fn better_of(
    class: Class,
    standing: &Standing,
    best: Option<Ranked>,
    one: Option<Ranked>,
) -> Option<Ranked>
    ensures { result ≡ better_of (is_before class standing.now) best one }
{
    let Some(one) = one else {
        return best;
    };
    match best {
        Some(best) => {
            if is_before(class, standing, &one, &best) {
                Some(one)
            } else {
                Some(best)
            }
        }
        None => Some(one),
    }
}
