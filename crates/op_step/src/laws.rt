ghost use Rattle.std.specs.Prelude.{◌≡◌, ◌≢◌, ◌+◌, ◌*◌, ◌<◌, ℕ, List, None, Some, Ok, Err, true, false, All, AllPairs, Any};
ghost use Rattle.pd_types.specs.declared.region.Peer.{Peer};
ghost use Rattle.pd_types.specs.declared.region.RegionBeat.{RegionBeat};
ghost use Rattle.pd_types.specs.declared.region.Role.TheVariants.{Voter};
ghost use Rattle.pd_types.specs.declared.step.Step.{Step};
ghost use Rattle.pd_types.specs.declared.step.Step.TheVariants as steps;
ghost use Rattle.store_table.specs.declared.entry.StoreEntry.{StoreEntry};
ghost use Rattle.store_table.specs.Entries.{is_live, is_usable};
ghost use Rattle.op_step.specs.declared.wishes.Wish.TheVariants as wish;
ghost use Rattle.op_step.specs.declared.wishes.BuildFault.TheVariants as faults;
ghost use Rattle.op_step.specs.Carried.{HasLeft, HasMoved, HasNew, IsLedFrom, IsThereFirst, MayTake, left_by};
ghost use Rattle.op_step.specs.Wishes.{is_unknown, may_lead, next_leader, plan_of};
ghost use Rattle.op_step.specs.After.{after, conf_change, leader_after, peers_after};
ghost use Rattle.op_step.specs.Safe.{is_right, IsFitToLead, IsSafe};
ghost use Rattle.op_step.specs.Finished.{is_finished};
ghost use Rattle.op_step.specs.Peers.{has_id, has_peer, has_store, is_down, is_pending, is_target, peer_on};
ghost use Rattle.op_step.specs.Votes.{is_live_voter, is_voter, live_of, voters_of, HasMajority};

/// Two majorities of a region's voters are more than the voters, so that they have one in common;
/// and one voter more than the half that is left out is enough.
pub fn two_majorities_meet()
    ensures meet { (beat : RegionBeat) (stores others : List StoreEntry) (now moment : ℕ) →
        HasMajority beat stores now → HasMajority beat others moment →
        voters_of beat < live_of beat stores now + live_of beat others moment }
    ensures enough { (beat : RegionBeat) (stores : List StoreEntry) (now half : ℕ) →
        voters_of beat ≡ 2 * half + 1 → live_of beat stores now ≡ half + 1 →
        HasMajority beat stores now }
{}

/// A live voter is a voter on a live store that isn't down; one that lacks parts of the log is live.
pub fn a_live_voter_is_on_a_live_store()
    ensures live { (beat : RegionBeat) (stores : List StoreEntry) (now : ℕ) (peer : Peer) →
        peer.role ≡ Voter → is_live peer.store now stores ≡ true →
        is_down beat peer.id ≡ false → is_live_voter beat stores now peer ≡ true }
    ensures learner { (beat : RegionBeat) (stores : List StoreEntry) (now : ℕ) (peer : Peer) →
        is_voter peer ≡ false → is_live_voter beat stores now peer ≡ false }
    ensures silent { (beat : RegionBeat) (stores : List StoreEntry) (now : ℕ) (peer : Peer) →
        is_live peer.store now stores ≡ false → is_live_voter beat stores now peer ≡ false }
    ensures down { (beat : RegionBeat) (stores : List StoreEntry) (now : ℕ) (peer : Peer) →
        is_down beat peer.id ≡ true → is_live_voter beat stores now peer ≡ false }
{}

/// A step changes its own peer and the leader alone: a peer is added once, the lead moves to a peer
/// that is there, and down and pending peers, epoch and range stay.
pub fn a_step_changes_its_peer_alone()
    ensures known { (id store : ℕ) (beat : RegionBeat) → has_id id beat ≡ true →
        peers_after (steps.AddLearner id store) beat.region.peers ≡ beat.region.peers }
    ensures taken { (id store : ℕ) (beat : RegionBeat) → has_store store beat ≡ true →
        peers_after (steps.AddLearner id store) beat.region.peers ≡ beat.region.peers }
    ensures stays { (id store : ℕ) (beat : RegionBeat) → has_peer id store beat ≡ false →
        leader_after (steps.TransferLeader id store) beat ≡ beat.leader }
    ensures leader { (id store : ℕ) (beat : RegionBeat) →
        leader_after (steps.RemovePeer id store) beat ≡ beat.leader }
    ensures down { (step : Step) (beat : RegionBeat) → (after step beat).down ≡ beat.down }
    ensures pending { (step : Step) (beat : RegionBeat) → (after step beat).pending ≡ beat.pending }
    ensures epoch { (step : Step) (beat : RegionBeat) →
        (after step beat).region.epoch ≡ beat.region.epoch }
    ensures range { (step : Step) (beat : RegionBeat) →
        (after step beat).region.start ≡ beat.region.start }
{}

/// conf_ver counts each change of a region's peers, and a change of its leader is none.
pub fn a_transfer_changes_no_peer()
    ensures peers { (id store : ℕ) (peers : List Peer) →
        peers_after (steps.TransferLeader id store) peers ≡ peers }
    ensures transfer { (id store : ℕ) → conf_change (steps.TransferLeader id store) ≡ 0 }
    ensures add { (id store : ℕ) → conf_change (steps.AddLearner id store) ≡ 1 }
    ensures promote { (id store : ℕ) → conf_change (steps.PromoteLearner id store) ≡ 1 }
    ensures remove { (id store : ℕ) → conf_change (steps.RemovePeer id store) ≡ 1 }
{}

/// A new peer that lacks parts of the log is not there yet.
pub fn a_pending_learner_is_not_finished()
    ensures { (id store : ℕ) (beat : RegionBeat) → is_pending beat id ≡ true →
        is_finished (steps.AddLearner id store) beat ≡ false }
{}

/// A peer that is down, that lacks parts of the log, or whose store is silent is no target, and so
/// may not lead; nor may a learner or the leader itself.
pub fn a_target_is_live_and_up_to_date()
    ensures down { (beat : RegionBeat) (stores : List StoreEntry) (now : ℕ) (peer : Peer) →
        is_down beat peer.id ≡ true → is_target beat stores now peer ≡ false }
    ensures pending { (beat : RegionBeat) (stores : List StoreEntry) (now : ℕ) (peer : Peer) →
        is_pending beat peer.id ≡ true → is_target beat stores now peer ≡ false }
    ensures silent { (beat : RegionBeat) (stores : List StoreEntry) (now : ℕ) (peer : Peer) →
        is_live peer.store now stores ≡ false → is_target beat stores now peer ≡ false }
    ensures target { (beat : RegionBeat) (stores : List StoreEntry) (now : ℕ) (peer : Peer) →
        may_lead beat stores now peer ≡ true → is_target beat stores now peer ≡ true }
    ensures voter { (beat : RegionBeat) (stores : List StoreEntry) (now : ℕ) (peer : Peer) →
        may_lead beat stores now peer ≡ true → is_voter peer ≡ true }
    ensures other { (beat : RegionBeat) (stores : List StoreEntry) (now : ℕ) (peer : Peer) →
        may_lead beat stores now peer ≡ true → peer.id ≢ beat.leader }
{}

/// What the steps of a wish leave, carried out one after the other on a region whose peers have ids
/// and no two of which are on one store, where the new peer's id isn't in it: of AddPeer a voter on
/// the store; of TransferLeader a leader there; of RemovePeer no peer there, another leader than the
/// one that was there, and every other peer as it was; of MovePeer the same of the one store, and on
/// the other a voter in a voter's place, or a learner in a learner's.
pub fn a_wish_is_carried_out()
    ensures adds { (store id now : ℕ) (beat : RegionBeat) (stores : List StoreEntry)
        (list : List Step) → MayTake id beat →
        plan_of (wish.AddPeer store) beat stores now ≡ Ok list →
        HasNew id store Voter (left_by id list beat) }
    ensures leads { (store id now : ℕ) (beat : RegionBeat) (stores : List StoreEntry)
        (list : List Step) → MayTake id beat →
        plan_of (wish.TransferLeader store) beat stores now ≡ Ok list →
        IsLedFrom store (left_by id list beat) }
    ensures leaves { (store id now : ℕ) (beat : RegionBeat) (stores : List StoreEntry)
        (list : List Step) → MayTake id beat →
        plan_of (wish.RemovePeer store) beat stores now ≡ Ok list →
        HasLeft store beat (left_by id list beat) }
    ensures moves { (from to id now : ℕ) (beat : RegionBeat) (stores : List StoreEntry)
        (list : List Step) → MayTake id beat →
        plan_of (wish.MovePeer from to) beat stores now ≡ Ok list →
        HasMoved from to id beat (left_by id list beat) }
{}

/// What a step leaves shows it as finished, and what lacks it doesn't: a promoted peer is a voter, a
/// leader is on the store that it was to move to, and after a removal no peer is on the store.
pub fn a_step_that_is_carried_out_is_finished()
    ensures add { (id store now : ℕ) (beat : RegionBeat) (stores : List StoreEntry) →
        is_right (steps.AddLearner id store) beat stores now ≡ true →
        is_pending beat id ≡ false →
        is_finished (steps.AddLearner id store) (after (steps.AddLearner id store) beat) ≡ true }
    ensures promote { (id store : ℕ) (beat : RegionBeat) → has_peer id store beat ≡ true →
        is_finished (steps.PromoteLearner id store)
        (after (steps.PromoteLearner id store) beat) ≡ true }
    ensures learner { (id store : ℕ) (beat : RegionBeat) →
        All (λ (peer : Peer). peer.id ≡ id → peer.role ≢ Voter) beat.region.peers →
        is_finished (steps.PromoteLearner id store) beat ≡ false }
    ensures transfer { (id store : ℕ) (beat : RegionBeat) → has_peer id store beat ≡ true →
        is_finished (steps.TransferLeader id store)
        (after (steps.TransferLeader id store) beat) ≡ true }
    ensures elsewhere { (id store : ℕ) (beat : RegionBeat) →
        All (λ (peer : Peer). peer.id ≡ beat.leader → peer.store ≢ store) beat.region.peers →
        is_finished (steps.TransferLeader id store) beat ≡ false }
    ensures remove { (id store : ℕ) (beat : RegionBeat) →
        AllPairs (λ (a b : Peer). a.store ≢ b.store) beat.region.peers →
        has_peer id store beat ≡ true →
        is_finished (steps.RemovePeer id store) (after (steps.RemovePeer id store) beat) ≡ true }
    ensures there { (id store : ℕ) (beat : RegionBeat) → has_store store beat ≡ true →
        is_finished (steps.RemovePeer id store) beat ≡ false }
{}

/// The leader isn't removed, and the next one is a voter on a live store, neither down nor pending. A
/// peer that isn't there isn't removed, and none that lacks parts of the log or whose store is silent
/// gets a vote.
pub fn a_safe_step_keeps_a_leader()
    ensures stays { (id store now : ℕ) (beat : RegionBeat) (stores : List StoreEntry) →
        IsSafe (steps.RemovePeer id store) beat stores now → beat.leader ≢ id }
    ensures fit { (id store now : ℕ) (beat : RegionBeat) (stores : List StoreEntry) →
        IsSafe (steps.TransferLeader id store) beat stores now →
        Any (IsFitToLead id store beat stores now) beat.region.peers }
    ensures absent { (id store now : ℕ) (beat : RegionBeat) (stores : List StoreEntry) →
        has_peer id store beat ≡ false → is_right (steps.RemovePeer id store) beat stores now ≡ false }
    ensures votes { (id store now : ℕ) (beat : RegionBeat) (stores : List StoreEntry) →
        IsSafe (steps.PromoteLearner id store) beat stores now →
        (is_live store now stores ≡ true) × (is_pending beat id ≡ false) }
{}

/// Of several faults the first is named: a store that isn't known, then one that isn't usable, then
/// one that has a peer of the region; and a leader that is to lead is told so, voter or not.
pub fn the_first_fault_is_named()
    ensures unknown { (store now : ℕ) (beat : RegionBeat) (stores : List StoreEntry) →
        is_unknown store stores ≡ true →
        plan_of (wish.AddPeer store) beat stores now ≡ Err faults.UnknownStore }
    ensures unusable { (store now : ℕ) (beat : RegionBeat) (stores : List StoreEntry) →
        is_unknown store stores ≡ false → is_usable store now stores ≡ false →
        plan_of (wish.AddPeer store) beat stores now ≡ Err faults.NotUsable }
    ensures taken { (store now : ℕ) (beat : RegionBeat) (stores : List StoreEntry) →
        is_unknown store stores ≡ false → is_usable store now stores ≡ true →
        has_store store beat ≡ true →
        plan_of (wish.AddPeer store) beat stores now ≡ Err faults.HasPeer }
    ensures move_unusable { (from to now : ℕ) (beat : RegionBeat) (stores : List StoreEntry) →
        is_unknown from stores ≡ false → is_unknown to stores ≡ false →
        is_usable to now stores ≡ false →
        plan_of (wish.MovePeer from to) beat stores now ≡ Err faults.NotUsable }
    ensures move_taken { (from to now : ℕ) (beat : RegionBeat) (stores : List StoreEntry) →
        is_unknown from stores ≡ false → is_unknown to stores ≡ false →
        is_usable to now stores ≡ true → has_store to beat ≡ true →
        plan_of (wish.MovePeer from to) beat stores now ≡ Err faults.HasPeer }
    ensures leads { (store now : ℕ) (beat : RegionBeat) (stores : List StoreEntry) (peer : Peer) →
        is_unknown store stores ≡ false → peer_on store beat ≡ Some peer → peer.id ≡ beat.leader →
        plan_of (wish.TransferLeader store) beat stores now ≡ Err faults.IsLeader }
    ensures no_voter { (store now : ℕ) (beat : RegionBeat) (stores : List StoreEntry) (peer : Peer) →
        is_unknown store stores ≡ false → peer_on store beat ≡ Some peer → peer.id ≢ beat.leader →
        is_voter peer ≡ false →
        plan_of (wish.TransferLeader store) beat stores now ≡ Err faults.NotVoter }
    ensures no_peer { (store now : ℕ) (beat : RegionBeat) (stores : List StoreEntry) →
        is_unknown store stores ≡ false → peer_on store beat ≡ None →
        plan_of (wish.RemovePeer store) beat stores now ≡ Err faults.NoPeer }
    ensures no_target { (store now : ℕ) (beat : RegionBeat) (stores : List StoreEntry) (peer : Peer) →
        is_unknown store stores ≡ false → peer_on store beat ≡ Some peer → peer.id ≡ beat.leader →
        next_leader beat stores now ≡ None →
        plan_of (wish.RemovePeer store) beat stores now ≡ Err faults.NoTarget }
{}

/// In a move the new peer is there, in the moved one's role, before the moved one goes.
pub fn the_new_peer_is_there_first()
    ensures { (from to id now : ℕ) (beat : RegionBeat) (stores : List StoreEntry)
        (list : List Step) → MayTake id beat →
        plan_of (wish.MovePeer from to) beat stores now ≡ Ok list →
        IsThereFirst from to id beat list }
{}
