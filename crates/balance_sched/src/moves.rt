// Moves, which of two goes first, and what one leaves of a region.
ghost use Rattle.std.specs.Prelude.{◌≡◌, ◌↔◌, map, IfOk, IsTrue};
ghost use Rattle.std.specs.List.{list_any};
ghost use Rattle.op_step.specs.Peers.{peer_on};
ghost use Rattle.heartbeat.specs.Counts.{is_on, leads_on};
ghost use Rattle.balance_sched.specs.Moves.{done, goes_before, id_or, is_source, on_target, proposal_of};
ghost use Rattle.balance_sched.specs.Search.{Beats};

use pd_types::{Duplicate, NoMemory, Peer, Peers, Proposal, RegionBeat, Seq};
use std::alloc::Global;

/// What a scheduler balances.
#[derive(Clone, Copy, Debug, PartialEq, Eq)]
pub enum Kind {
    /// The regions that have a peer on a store.
    Regions,
    /// The regions that have their leader on a store.
    Leaders,
}

/// A move of a region's peer or leader from one store to another, with the difference of the two
/// stores' counts.
#[derive(Clone, Copy, Debug, PartialEq, Eq)]
pub struct Move {
    pub region: u64,
    pub from: u64,
    pub to: u64,
    pub difference: u64,
}

// Whether the one goes before the other.
fn goes_before(one: &Move, other: &Move) -> bool
    ensures { result ≡ goes_before one.now other.now }
{
    if one.difference != other.difference {
        return other.difference < one.difference;
    }
    if one.region != other.region {
        return one.region < other.region;
    }
    one.from < other.from || (one.from == other.from && one.to < other.to)
}

/// Whether the move goes before what was found.
pub fn beats(one: &Move, best: Option<Move>) -> bool
    ensures { IsTrue result ↔ Beats one.now best }
{
    match best {
        Some(best) => goes_before(one, &best),
        None => true,
    }
}

/// The move as it is proposed.
pub fn proposal_of(kind: Kind, one: &Move) -> Proposal
    ensures { result ≡ proposal_of kind one.now }
{
    match kind {
        Kind::Regions => Proposal::MovePeer {
            region: one.region,
            from: one.from,
            to: one.to,
        },
        Kind::Leaders => Proposal::MoveLeader {
            region: one.region,
            to: one.to,
        },
    }
}

/// The region's peer on the store.
pub fn peer_on(store: u64, beat: &RegionBeat) -> Option<Peer>
    ensures { result ≡ peer_on store beat.now }
{
    for peer in beat.region.peers.as_slice() {
        if peer.store == store {
            return Some(*peer);
        }
    }
    None
}

/// Whether the region has a peer on the store.
pub fn is_on(store: u64, beat: &RegionBeat) -> bool
    ensures { result ≡ is_on store beat.now }
{
    beat.region
        .peers
        .as_slice()
        .iter()
        .any(|peer| peer.store == store)
}

// Whether the region's leader is on the store.
fn leads_on(store: u64, beat: &RegionBeat) -> bool
    ensures { result ≡ leads_on store beat.now }
{
    beat.region
        .peers
        .as_slice()
        .iter()
        .any(|peer| peer.id == beat.leader && peer.store == store)
}

/// Whether what moves is on the store.
pub fn is_source(kind: Kind, store: u64, beat: &RegionBeat) -> bool
    ensures { result ≡ is_source kind store beat.now }
{
    match kind {
        Kind::Regions => is_on(store, beat),
        Kind::Leaders => leads_on(store, beat),
    }
}

// The peer, on the target where it was on the source.
fn on_target(one: &Move, peer: &Peer) -> Peer
    ensures { result ≡ on_target one.now peer.now }
{
    if peer.store == one.from {
        Peer {
            store: one.to,
            ..*peer
        }
    } else {
        *peer
    }
}

// The peers, that on the source moved to the target.
fn moved(alloc: Global, one: &Move, peers: &[Peer]) -> Result<Peers, NoMemory>
    ensures { IfOk result (λ left. left ≡ map (on_target one.now) peers.now) }
{
    let mut left = Seq::new(alloc);
    for peer in peers {
        left.push(on_target(one, peer))?;
    }
    Ok(left)
}

// Who leads once the peer on the target does.
fn leader_on(store: u64, beat: &RegionBeat) -> u64
    ensures { result ≡ id_or (peer_on store beat.now) beat.now.leader }
{
    match peer_on(store, beat) {
        Some(peer) => peer.id,
        None => beat.leader,
    }
}

/// The region once the move is done.
pub fn done(
    alloc: Global,
    kind: Kind,
    one: &Move,
    beat: &RegionBeat,
) -> Result<RegionBeat, NoMemory>
    ensures { IfOk result (λ left. left ≡ done kind one.now beat.now) }
{
    let mut left = beat.copy(alloc)?;
    match kind {
        Kind::Regions => {
            left.region.peers = moved(alloc, one, beat.region.peers.as_slice())?;
        }
        Kind::Leaders => {
            left.leader = leader_on(one.to, beat);
        }
    }
    Ok(left)
}
