// Tests on the peers of a region, as its heartbeat tells them.
ghost use Rattle.std.specs.Prelude.{◌≡◌};
ghost use Rattle.std.specs.Option.{option_copied};
ghost use Rattle.pd_types.specs.Roles.{is_learner};
ghost use Rattle.op_step.specs.Peers.{has_id, has_peer, has_store, is_down, is_peer, is_pending, is_target, peer_on};
ghost use Rattle.op_step.specs.Votes.{is_live_voter, is_voter};

use pd_types::{Peer, RegionBeat, Role};
use store_table::Stores;

/// Whether the peer has a vote.
pub fn is_voter(peer: &Peer) -> bool
    ensures { result ≡ is_voter peer.now }
{
    match peer.role {
        Role::Voter => true,
        _ => false,
    }
}

/// Whether the peer takes the log and has no vote.
pub fn is_learner(peer: &Peer) -> bool
    ensures value { result ≡ is_learner peer.now.role }
{
    match peer.role {
        Role::Learner => true,
        _ => false,
    }
}

/// Whether this is the peer of that id on that store.
pub fn is_peer(id: u64, store: u64, peer: &Peer) -> bool
    ensures { result ≡ is_peer id store peer.now }
{
    peer.id == id && peer.store == store
}

/// Whether the region has the peer of that id on that store.
pub fn has_peer(id: u64, store: u64, beat: &RegionBeat) -> bool
    ensures { result ≡ has_peer id store beat.now }
{
    for peer in beat.region.peers.as_slice() {
        if is_peer(id, store, peer) {
            return true;
        }
    }
    false
}

/// Whether the region has a peer on the store.
pub fn has_store(store: u64, beat: &RegionBeat) -> bool
    ensures value { result ≡ has_store store beat.now }
{
    for peer in beat.region.peers.as_slice() {
        if peer.store == store {
            return true;
        }
    }
    false
}

/// Whether the region has a peer of that id.
pub fn has_id(id: u64, beat: &RegionBeat) -> bool
    ensures value { result ≡ has_id id beat.now }
{
    for peer in beat.region.peers.as_slice() {
        if peer.id == id {
            return true;
        }
    }
    false
}

/// The region's peer on the store; none where it has none there.
pub fn peer_on(store: u64, beat: &RegionBeat) -> Option<Peer>
    ensures { result ≡ peer_on store beat.now }
{
    for peer in beat.region.peers.as_slice() {
        if peer.store == store {
            return Some(*peer);
        }
    }
    None
}

/// Whether the heartbeat lists the peer as down.
pub fn is_down(beat: &RegionBeat, id: u64) -> bool
    ensures { result ≡ is_down beat.now id }
{
    for down in beat.down.as_slice() {
        if down.peer == id {
            return true;
        }
    }
    false
}

/// Whether the heartbeat lists the peer as pending.
pub fn is_pending(beat: &RegionBeat, id: u64) -> bool
    ensures { result ≡ is_pending beat.now id }
{
    for pending in beat.pending.as_slice() {
        if *pending == id {
            return true;
        }
    }
    false
}

/// Whether the peer has a vote, is on a live store and isn't down.
pub fn is_live_voter(beat: &RegionBeat, stores: &Stores, now: u64, peer: &Peer) -> bool
    ensures { result ≡ is_live_voter beat.now stores.now now peer.now }
{
    is_voter(peer) && stores.is_live(peer.store, now) && !is_down(beat, peer.id)
}

/// Whether the peer is on a live store, and neither down nor pending.
pub fn is_target(beat: &RegionBeat, stores: &Stores, now: u64, peer: &Peer) -> bool
    ensures value { result ≡ is_target beat.now stores.now now peer.now }
{
    stores.is_live(peer.store, now) && !is_down(beat, peer.id) && !is_pending(beat, peer.id)
}
