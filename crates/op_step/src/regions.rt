// What a step makes of a region, and when it is done.
ghost use Rattle.std.specs.Prelude.{◌≡◌, ◌∷◌, ◌++◌, IfOk, filter, map, not};
ghost use Rattle.op_step.specs.Peers.{is_peer};
ghost use Rattle.op_step.specs.After.{after, conf_change, leader_after, peers_after, promoted};
ghost use Rattle.op_step.specs.Finished.{is_finished};

use crate::peers::{has_id, has_peer, has_store, is_peer, is_pending, is_voter};
use pd_types::{Duplicate, NoMemory, Peer, Peers, Region, RegionBeat, Role, Seq, Step};
use std::alloc::Global;

/// The peer, a voter where it has that id and that store.
pub fn promoted(id: u64, store: u64, peer: &Peer) -> Peer
    ensures { result ≡ promoted id store peer.now }
{
    if is_peer(id, store, peer) {
        Peer {
            id: peer.id,
            store: peer.store,
            role: Role::Voter,
        }
    } else {
        *peer
    }
}

fn all_promoted(alloc: Global, id: u64, store: u64, peers: &[Peer]) -> Result<Vec<Peer>, NoMemory>
    ensures { IfOk result (λ all. all.items ≡ map (promoted id store) peers.now) }
{
    let mut all = Vec::new(alloc);
    for peer in peers {
        all.push(promoted(id, store, peer))?;
    }
    Ok(all)
}

fn others(alloc: Global, id: u64, store: u64, peers: &[Peer]) -> Result<Vec<Peer>, NoMemory>
    ensures { IfOk result (λ all. all.items ≡ filter (λ peer. not (is_peer id store peer)) peers.now) }
{
    let mut all = Vec::new(alloc);
    for peer in peers {
        if !is_peer(id, store, peer) {
            all.push(*peer)?;
        }
    }
    Ok(all)
}

fn with_learner(alloc: Global, id: u64, store: u64, beat: &RegionBeat) -> Result<Peers, NoMemory>
    ensures { IfOk result (λ peers. peers ≡ peers_after (Step.AddLearner id store) beat.now.region.peers) }
{
    let mut peers = beat.region.peers.copy(alloc)?;
    if !(has_id(id, beat) || has_store(store, beat)) {
        peers.push(Peer {
            id,
            store,
            role: Role::Learner,
        })?;
    }
    Ok(peers)
}

fn peers_after(alloc: Global, step: &Step, beat: &RegionBeat) -> Result<Peers, NoMemory>
    ensures { IfOk result (λ peers. peers ≡ peers_after step.now beat.now.region.peers) }
{
    let peers = beat.region.peers.as_slice();
    match *step {
        Step::AddLearner { peer, store } => with_learner(alloc, peer, store, beat),
        Step::PromoteLearner { peer, store } => {
            Ok(Seq::of(all_promoted(alloc, peer, store, peers)?))
        }
        Step::TransferLeader { .. } => beat.region.peers.copy(alloc),
        Step::RemovePeer { peer, store } => Ok(Seq::of(others(alloc, peer, store, peers)?)),
    }
}

fn leader_after(step: &Step, beat: &RegionBeat) -> u64
    ensures { result ≡ leader_after step.now beat.now }
{
    match *step {
        Step::TransferLeader { peer, store } => {
            if has_peer(peer, store, beat) {
                peer
            } else {
                beat.leader
            }
        }
        _ => beat.leader,
    }
}

/// The region as the step leaves it. AddLearner adds the peer as a learner where neither its id nor
/// its store is in the region; PromoteLearner makes that peer a voter, TransferLeader the leader,
/// RemovePeer takes it out. A step whose peer isn't there leaves the region.
pub fn after(alloc: Global, step: &Step, beat: &RegionBeat) -> Result<RegionBeat, NoMemory>
    ensures { IfOk result (λ left. left ≡ after step.now beat.now) }
{
    Ok(RegionBeat {
        region: Region {
            id: beat.region.id,
            start: beat.region.start.copy(alloc)?,
            end: beat.region.end.copy(alloc)?,
            epoch: beat.region.epoch,
            peers: peers_after(alloc, step, beat)?,
        },
        leader: leader_after(step, beat),
        down: beat.down.copy(alloc)?,
        pending: beat.pending.copy(alloc)?,
    })
}

/// Whether a heartbeat shows the step as done: the new peer is on its store and isn't pending, the
/// promoted one is a voter, the leader is on the store, or no peer is on the store any more.
pub fn finished(step: &Step, beat: &RegionBeat) -> bool
    ensures { result ≡ is_finished step.now beat.now }
{
    match *step {
        Step::AddLearner { peer, store } => has_peer(peer, store, beat) && !is_pending(beat, peer),
        Step::PromoteLearner { peer, .. } => has_voter(peer, beat),
        Step::TransferLeader { store, .. } => has_peer(beat.leader, store, beat),
        Step::RemovePeer { store, .. } => !has_store(store, beat),
    }
}

fn has_voter(id: u64, beat: &RegionBeat) -> bool
    ensures { result ≡ is_finished (Step.PromoteLearner id 0) beat.now }
{
    for peer in beat.region.peers.as_slice() {
        if peer.id == id && is_voter(peer) {
            return true;
        }
    }
    false
}

/// By how much the step raises a region's conf_ver: 0 for TransferLeader, else 1.
pub fn conf_change(step: &Step) -> u64
    ensures { result ≡ conf_change step.now }
{
    match step {
        Step::TransferLeader { .. } => 0,
        _ => 1,
    }
}
