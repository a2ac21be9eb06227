// Who may be a candidate, and the steps of one.
ghost use Rattle.std.specs.Prelude.{◌≡◌, ◌∷◌, ◌++◌, [], IfOk, OnOk};
ghost use Rattle.rule_checker.specs.Arrival.{takes_new};
ghost use Rattle.rule_checker.specs.Candidates.{lead_part, may_come, may_go, new_on, passes, steps_of};

use crate::Class;
use crate::case::Case;
use op_step::{has_store, is_learner, is_target, may_lead, next_leader};
use pd_types::{MAX_PEERS, NoMemory, Peer, Role, Seq, Step, Steps};
use rule_fit::total;
use std::alloc::Global;
use store_table::StoreEntry;

/// The new peer on a store.
pub fn new_on(store: u64) -> Peer
    ensures { result ≡ new_on store }
{
    Peer {
        id: 0,
        store,
        role: Role::Learner,
    }
}

/// Whether the store of which this is known may get a new peer.
pub fn takes_new(on: Case, entry: &StoreEntry) -> bool
    ensures { result ≡ takes_new on.entry.beat.now entry.now on.entry.now }
{
    entry.is_live(on.now)
        && entry.is_usable(on.now)
        && !has_store(entry.store.id, on.beat)
        && on.beat.region.peers.len() < MAX_PEERS
}

// Whether the store may get a new peer.
#[tactic(auto, using(crate::proofs::ArrivalLemmas::may_by_entry))]
fn may_come(on: Case, store: u64) -> bool
    ensures { result ≡ may_come on.entry.beat.now on.entry.stores.now on.entry.now store }
{
    match on.stores.entry(store) {
        Some(entry) => takes_new(on, entry),
        None => false,
    }
}

// Whether the peer may go.
fn may_go(on: Case, peer: &Peer) -> bool
    ensures { result ≡ may_go on.entry.beat.now on.entry.rules.now on.entry.stores.now on.entry.now peer.now }
{
    let next = next_leader(on.beat, on.stores, on.now);
    total(on.rules.as_slice()) < on.beat.region.peers.len() as u64
        && (peer.id != on.beat.leader || next.is_some())
}

/// Whether the class takes the peer.
pub fn passes(on: Case, class: Class, peer: &Peer) -> bool
    ensures { result ≡ passes class on.entry.beat.now on.entry.rules.now on.entry.stores.now on.entry.now peer.now }
{
    match class {
        Class::Promote => is_learner(peer) && is_target(on.beat, on.stores, on.now, peer),
        Class::Transfer => may_lead(on.beat, on.stores, on.now, peer),
        Class::AddVoter | Class::AddLearner => may_come(on, peer.store),
        Class::Remove => may_go(on, peer),
    }
}

// These steps.
fn list(alloc: Global, steps: &[Step]) -> Result<Steps, NoMemory>
    ensures { IfOk result (λ list. list ≡ steps.now) }
{
    let mut list = Seq::new(alloc);
    for step in steps {
        list.push(*step)?;
    }
    Ok(list)
}

// The step by which the next leader takes the lead.
fn push_lead(steps: &mut Steps, next: Option<Peer>) -> Result<(), NoMemory>
    ensures { OnOk result (steps.new ≡ steps.old ++ lead_part next) }
{
    if let Some(next) = next {
        steps.push(Step::TransferLeader {
            peer: next.id,
            store: next.store,
        })?;
    }
    Ok(())
}

// The steps by which a peer goes.
fn removal(alloc: Global, on: Case, peer: &Peer) -> Result<Steps, NoMemory>
    ensures { IfOk result (λ steps. steps ≡ steps_of Class.Remove on.entry.beat.now on.entry.stores.now on.entry.now peer.now) }
{
    let mut steps = Seq::new(alloc);
    if peer.id == on.beat.leader {
        push_lead(&mut steps, next_leader(on.beat, on.stores, on.now))?;
    }
    steps.push(Step::RemovePeer {
        peer: peer.id,
        store: peer.store,
    })?;
    Ok(steps)
}

/// The steps of a candidate.
pub fn steps_of(alloc: Global, on: Case, class: Class, candidate: &Peer) -> Result<Steps, NoMemory>
    ensures { IfOk result (λ steps. steps ≡ steps_of class on.entry.beat.now on.entry.stores.now on.entry.now candidate.now) }
{
    let peer = candidate.id;
    let store = candidate.store;
    let add = Step::AddLearner { peer, store };
    let promote = Step::PromoteLearner { peer, store };
    match class {
        Class::Promote => list(alloc, &[promote]),
        Class::Transfer => list(alloc, &[Step::TransferLeader { peer, store }]),
        Class::AddVoter => list(alloc, &[add, promote]),
        Class::AddLearner => list(alloc, &[add]),
        Class::Remove => removal(alloc, on, candidate),
    }
}
