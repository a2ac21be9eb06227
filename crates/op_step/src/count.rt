// The voters of a region, and those of the region that a step would leave, without making it.
ghost use Rattle.std.specs.Prelude.{◌≡◌, ◌*◌, count_by, nat_lt};
ghost use Rattle.op_step.specs.After.{after};
ghost use Rattle.op_step.specs.Counts.{passes_after};
ghost use Rattle.op_step.specs.Votes.{is_live_voter, is_voter, live_of, voters_of};

use crate::peers::{is_live_voter, is_peer, is_voter};
use crate::regions::promoted;
use pd_types::{Peer, RegionBeat, Step};
use store_table::Stores;

/// How many voters a region has, and how many of them are live.
#[derive(Clone, Copy, Debug)]
pub struct Votes {
    pub live: u64,
    pub voters: u64,
}

impl Votes {
    /// Whether more than half of the voters are live.
    pub fn are_majority(&self) -> bool
        ensures { result ≡ nat_lt self.now.voters (2 * self.now.live) }
    {
        // Halving the one in place of doubling the other, so that nothing wraps.
        self.voters / 2 < self.live
    }
}

/// The votes of the region.
pub fn count_votes(beat: &RegionBeat, stores: &Stores, now: u64) -> Votes
    ensures live { result.live ≡ live_of beat.now stores.now now }
    ensures voters { result.voters ≡ voters_of beat.now }
{
    let peers = beat.region.peers.as_slice();
    let live = peers
        .iter()
        .filter(|peer| is_live_voter(beat, stores, now, peer))
        .count();
    let voters = peers.iter().filter(|peer| is_voter(peer)).count();
    Votes {
        live: live as u64,
        voters: voters as u64,
    }
}

fn is_voter_after(step: &Step, peer: &Peer) -> bool
    ensures { result ≡ passes_after step.now is_voter peer.now }
{
    match *step {
        Step::PromoteLearner { peer: id, store } => is_voter(&promoted(id, store, peer)),
        Step::RemovePeer { peer: id, store } => !is_peer(id, store, peer) && is_voter(peer),
        _ => is_voter(peer),
    }
}

fn is_live_after(step: &Step, beat: &RegionBeat, stores: &Stores, now: u64, peer: &Peer) -> bool
    ensures { result ≡ passes_after step.now (is_live_voter beat.now stores.now now) peer.now }
{
    match *step {
        Step::PromoteLearner { peer: id, store } => {
            is_live_voter(beat, stores, now, &promoted(id, store, peer))
        }
        Step::RemovePeer { peer: id, store } => {
            !is_peer(id, store, peer) && is_live_voter(beat, stores, now, peer)
        }
        _ => is_live_voter(beat, stores, now, peer),
    }
}

fn count_live_after(step: &Step, beat: &RegionBeat, stores: &Stores, now: u64) -> usize
    ensures { result ≡ count_by (passes_after step.now (is_live_voter beat.now stores.now now)) beat.now.region.peers }
{
    let peers = beat.region.peers.as_slice();
    peers
        .iter()
        .filter(|peer| is_live_after(step, beat, stores, now, peer))
        .count()
}

fn count_voters_after(step: &Step, beat: &RegionBeat) -> usize
    ensures { result ≡ count_by (passes_after step.now is_voter) beat.now.region.peers }
{
    let peers = beat.region.peers.as_slice();
    peers
        .iter()
        .filter(|peer| is_voter_after(step, peer))
        .count()
}

/// The votes of the region that the step would leave. No region is made.
pub fn count_votes_after(step: &Step, beat: &RegionBeat, stores: &Stores, now: u64) -> Votes
    ensures live { result.live ≡ live_of (after step.now beat.now) stores.now now }
    ensures voters { result.voters ≡ voters_of (after step.now beat.now) }
{
    Votes {
        live: count_live_after(step, beat, stores, now) as u64,
        voters: count_voters_after(step, beat) as u64,
    }
}
