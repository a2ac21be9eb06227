// The gate that each step passes before it is sent.
ghost use Rattle.std.specs.Prelude.{◌≡◌, ◌↔◌, IsOk, IsErrOf, IsTrue};
ghost use Rattle.op_step.specs.After.{after};
ghost use Rattle.pd_types.specs.Roles.{is_learner};
ghost use Rattle.op_step.specs.Peers.{is_peer, is_pending, is_target};
ghost use Rattle.op_step.specs.Safe.{gate_of, held_with, is_right, IsSafe};
ghost use Rattle.op_step.specs.Votes.{is_voter, HasMajority, LacksMajority};
ghost use Rattle.op_step.specs.declared.safety.Why.TheVariants as why;

use crate::count::{Votes, count_votes, count_votes_after};
use crate::peers::{
    has_id, has_peer, has_store, is_learner, is_peer, is_pending, is_target, is_voter,
};
use pd_types::{Peer, RegionBeat, Step};
use store_table::Stores;
use thiserror::Error;

/// Which of the three tests a step fails first.
#[derive(Clone, Copy, Debug, PartialEq, Eq)]
pub enum Why {
    /// The region has no majority of live voters.
    Before,
    /// The region would have none after the step.
    After,
    /// The step's peer isn't right for it.
    Target,
}

/// The step isn't sent: of `voters` voters `live` ones are live, after the step where that is
/// `why`, and else before it.
#[derive(Clone, Copy, Debug, PartialEq, Eq, Error)]
#[error("the step is held: {live} of {voters} voters are live")]
pub struct Held {
    pub live: u64,
    pub voters: u64,
    pub why: Why,
}

impl Votes {
    // The refusal with these numbers.
    fn held(&self, why: Why) -> Held
        ensures { result ≡ record { live = self.now.live; voters = self.now.voters; why = why } }
    {
        Held {
            live: self.live,
            voters: self.voters,
            why,
        }
    }
}

fn can_lead(id: u64, store: u64, beat: &RegionBeat, stores: &Stores, now: u64) -> bool
    ensures { result ≡ is_right (Step.TransferLeader id store) beat.now stores.now now }
{
    for peer in beat.region.peers.as_slice() {
        if is_peer(id, store, peer) && is_voter(peer) && is_target(beat, stores, now, peer) {
            return true;
        }
    }
    false
}

fn can_vote(id: u64, store: u64, beat: &RegionBeat, stores: &Stores, now: u64) -> bool
    ensures { result ≡ is_right (Step.PromoteLearner id store) beat.now stores.now now }
{
    for peer in beat.region.peers.as_slice() {
        if is_peer(id, store, peer)
            && is_learner(peer)
            && stores.is_live(peer.store, now)
            && !is_pending(beat, peer.id)
        {
            return true;
        }
    }
    false
}

fn is_right(step: &Step, beat: &RegionBeat, stores: &Stores, now: u64) -> bool
    ensures { result ≡ is_right step.now beat.now stores.now now }
{
    match *step {
        Step::AddLearner { peer, store } => {
            (!has_id(peer, beat) && !has_store(store, beat)) || has_peer(peer, store, beat)
        }
        Step::PromoteLearner { peer, store } => can_vote(peer, store, beat, stores, now),
        Step::TransferLeader { peer, store } => can_lead(peer, store, beat, stores, now),
        Step::RemovePeer { peer, store } => has_peer(peer, store, beat) && beat.leader != peer,
    }
}

/// Whether the step may be sent to the region's leader at the moment `now`: Ok exactly for a safe
/// step, one before and after which more than half of the region's voters are on live stores and
/// not down, and whose peer is right for it. Else the first of the three tests that fails, with
/// the numbers of voters; those of the region after the step where that is the one.
pub fn gate(step: &Step, beat: &RegionBeat, stores: &Stores, now: u64) -> Result<(), Held>
    ensures safe { IsOk result ↔ IsSafe step.now beat.now stores.now now }
    ensures before { IsErrOf result (held_with beat.now stores.now now why.Before) ↔
        LacksMajority beat.now stores.now now }
    ensures after { IsErrOf result (held_with (after step.now beat.now) stores.now now why.After) ↔
        (HasMajority beat.now stores.now now × LacksMajority (after step.now beat.now) stores.now now) }
    ensures target { IsErrOf result (held_with beat.now stores.now now why.Target) ↔
        (HasMajority beat.now stores.now now × HasMajority (after step.now beat.now) stores.now now ×
        (¬ IsTrue (is_right step.now beat.now stores.now now))) }
    ensures value { result ≡ gate_of step.now beat.now stores.now now }
{
    let before = count_votes(beat, stores, now);
    if !before.are_majority() {
        return Err(before.held(Why::Before));
    }
    let left = count_votes_after(step, beat, stores, now);
    if !left.are_majority() {
        return Err(left.held(Why::After));
    }
    if !is_right(step, beat, stores, now) {
        return Err(before.held(Why::Target));
    }
    Ok(())
}
