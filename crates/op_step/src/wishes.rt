// The steps of a wish.
ghost use Rattle.std.specs.Prelude.{◌≡◌, ◌∷◌, ◌++◌, [], not, IfOk, IfErr, OnOk, map};
ghost use Rattle.op_step.specs.Wishes.{add_plan, lead_by, may_lead, move_by, move_plan, next_leader, next_part, plan_of, promote_part, lead_part, remove_by, remove_plan, step_with, transfer_plan, is_unknown, lesser, given, FaultOf};
ghost use Rattle.op_step.specs.NextLeader.{IsNext};
ghost use Rattle.op_step.specs.declared.wishes.BuildFault.TheVariants as faults;

use crate::peers::{has_store, is_target, is_voter, peer_on};
use pd_types::{NoMemory, Peer, RegionBeat, Seq, Step, Steps};
use std::alloc::Global;
use store_table::Stores;
use thiserror::Error;

/// What is wished for a region (pd-ctl `operator add`): stores are named by their ids.
#[derive(Clone, Copy, Debug, PartialEq, Eq)]
pub enum Wish {
    AddPeer { store: u64 },
    TransferLeader { store: u64 },
    RemovePeer { store: u64 },
    MovePeer { from: u64, to: u64 },
}

/// Why a wish can't be built, in the order of the tests.
#[derive(Clone, Copy, Debug, PartialEq, Eq, Error)]
pub enum BuildFault {
    /// A store that the wish names isn't known.
    #[error("a store isn't known")]
    UnknownStore,
    /// The store that gets a new peer isn't usable.
    #[error("the store isn't usable")]
    NotUsable,
    /// The store that gets a new peer has one of the region.
    #[error("the store has a peer of the region")]
    HasPeer,
    /// The store has no peer of the region.
    #[error("the store has no peer of the region")]
    NoPeer,
    /// The store has the leader already.
    #[error("the store has the leader")]
    IsLeader,
    /// The peer to lead isn't a voter.
    #[error("the peer isn't a voter")]
    NotVoter,
    /// The leader must leave and nobody can lead.
    #[error("nobody else may lead")]
    NoTarget,
    #[error("out of memory")]
    NoMemory,
}

fn is_known(store: u64, stores: &Stores) -> bool
    ensures { result ≡ not (is_unknown store stores.now) }
{
    stores.get(store).is_some()
}

/// Whether the peer may lead in the leader's place: another voter that is on a live store, and
/// neither down nor pending.
pub fn may_lead(beat: &RegionBeat, stores: &Stores, now: u64, peer: &Peer) -> bool
    ensures value { result ≡ may_lead beat.now stores.now now peer.now }
{
    is_voter(peer) && peer.id != beat.leader && is_target(beat, stores, now, peer)
}

// The one of lesser id.
fn lesser(best: Option<Peer>, peer: &Peer) -> Option<Peer>
    ensures { result ≡ lesser best peer.now }
{
    match best {
        Some(best) if best.id <= peer.id => Some(best),
        _ => Some(*peer),
    }
}

// The one of the least id among those who may lead.
fn least_leader(beat: &RegionBeat, stores: &Stores, now: u64) -> Option<Peer>
    ensures { result ≡ next_leader beat.now stores.now now }
{
    let mut best = None;
    for peer in beat.region.peers.as_slice() {
        if may_lead(beat, stores, now, peer) {
            best = lesser(best, peer);
        }
    }
    best
}

/// Who leads where the leader leaves: of the peers that may lead the one of the least id; none where
/// nobody may.
pub fn next_leader(beat: &RegionBeat, stores: &Stores, now: u64) -> Option<Peer>
    ensures value { result ≡ next_leader beat.now stores.now now }
    ensures next { IsNext beat.now stores.now now result }
{
    least_leader(beat, stores, now)
}

impl From<NoMemory> for BuildFault {
    ghost from_gives = { λ _ fault. fault ≡ faults.NoMemory };

    fn from(_: NoMemory) -> BuildFault {
        BuildFault::NoMemory
    }
}

// These steps.
fn list(alloc: Global, steps: &[Step]) -> Result<Steps, BuildFault>
    ensures ok { IfOk result (λ list. list ≡ steps.now) }
    ensures fault { IfErr result (λ fault. fault ≡ faults.NoMemory) }
{
    let mut list = Seq::new(alloc);
    for step in steps {
        list.push(*step)?;
    }
    Ok(list)
}

fn add_steps(
    alloc: Global,
    store: u64,
    beat: &RegionBeat,
    stores: &Stores,
    now: u64,
) -> Result<Steps, BuildFault>
    ensures ok { IfOk result (λ steps. add_plan store beat.now stores.now now ≡ Ok steps) }
    ensures fault { IfErr result (FaultOf (add_plan store beat.now stores.now now)) }
{
    if !is_known(store, stores) {
        return Err(BuildFault::UnknownStore);
    }
    if !stores.is_usable(store, now) {
        return Err(BuildFault::NotUsable);
    }
    if has_store(store, beat) {
        return Err(BuildFault::HasPeer);
    }
    let add = Step::AddLearner { peer: 0, store };
    let promote = Step::PromoteLearner { peer: 0, store };
    list(alloc, &[add, promote])
}

fn transfer_steps(
    alloc: Global,
    store: u64,
    beat: &RegionBeat,
    stores: &Stores,
) -> Result<Steps, BuildFault>
    ensures ok { IfOk result (λ steps. transfer_plan store beat.now stores.now ≡ Ok steps) }
    ensures fault { IfErr result (FaultOf (transfer_plan store beat.now stores.now)) }
{
    if !is_known(store, stores) {
        return Err(BuildFault::UnknownStore);
    }
    let Some(peer) = peer_on(store, beat) else {
        return Err(BuildFault::NoPeer);
    };
    if peer.id == beat.leader {
        return Err(BuildFault::IsLeader);
    }
    if !is_voter(&peer) {
        return Err(BuildFault::NotVoter);
    }
    list(alloc, &[leads(&peer)])
}

// The peer takes the lead.
fn leads(peer: &Peer) -> Step
    ensures { result ≡ Step.TransferLeader peer.now.id peer.now.store }
{
    Step::TransferLeader {
        peer: peer.id,
        store: peer.store,
    }
}

// The peer is removed.
fn goes(peer: &Peer) -> Step
    ensures { result ≡ Step.RemovePeer peer.now.id peer.now.store }
{
    Step::RemovePeer {
        peer: peer.id,
        store: peer.store,
    }
}

fn remove_steps(
    alloc: Global,
    store: u64,
    beat: &RegionBeat,
    stores: &Stores,
    now: u64,
) -> Result<Steps, BuildFault>
    ensures ok { IfOk result (λ steps. remove_plan store beat.now stores.now now ≡ Ok steps) }
    ensures fault { IfErr result (FaultOf (remove_plan store beat.now stores.now now)) }
{
    if !is_known(store, stores) {
        return Err(BuildFault::UnknownStore);
    }
    let Some(peer) = peer_on(store, beat) else {
        return Err(BuildFault::NoPeer);
    };
    if peer.id != beat.leader {
        return list(alloc, &[goes(&peer)]);
    }
    match next_leader(beat, stores, now) {
        Some(next) => list(alloc, &[leads(&next), goes(&peer)]),
        None => Err(BuildFault::NoTarget),
    }
}

// The new peer becomes a voter where the moved one is one.
fn push_promotion(steps: &mut Steps, peer: &Peer, to: u64) -> Result<(), NoMemory>
    ensures { OnOk result (steps.new ≡ steps.old ++ promote_part peer.now to) }
{
    if is_voter(peer) {
        steps.push(Step::PromoteLearner { peer: 0, store: to })?;
    }
    Ok(())
}

// The step by which the leader changes, to the new peer where nobody else may lead.
fn next_step(next: Option<Peer>, to: u64) -> Step
    ensures { next_part next to ≡ result ∷ [] }
{
    match next {
        Some(next) => leads(&next),
        None => Step::TransferLeader { peer: 0, store: to },
    }
}

// The lead moves where the moved peer has it.
fn push_lead(
    steps: &mut Steps,
    peer: &Peer,
    to: u64,
    beat: &RegionBeat,
    stores: &Stores,
    now: u64,
) -> Result<(), NoMemory>
    ensures { OnOk result (steps.new ≡ steps.old ++ lead_part peer.now to beat.now stores.now now) }
{
    if peer.id == beat.leader {
        steps.push(next_step(next_leader(beat, stores, now), to))?;
    }
    Ok(())
}

fn move_peer(
    alloc: Global,
    peer: &Peer,
    to: u64,
    beat: &RegionBeat,
    stores: &Stores,
    now: u64,
) -> Result<Steps, NoMemory>
    ensures { IfOk result (λ steps. move_by (Some peer.now) to beat.now stores.now now ≡ Ok steps) }
{
    let mut steps = Seq::new(alloc);
    steps.push(Step::AddLearner { peer: 0, store: to })?;
    push_promotion(&mut steps, peer, to)?;
    push_lead(&mut steps, peer, to, beat, stores, now)?;
    steps.push(goes(peer))?;
    Ok(steps)
}

fn move_steps(
    alloc: Global,
    from: u64,
    to: u64,
    beat: &RegionBeat,
    stores: &Stores,
    now: u64,
) -> Result<Steps, BuildFault>
    ensures ok { IfOk result (λ steps. move_plan from to beat.now stores.now now ≡ Ok steps) }
    ensures fault { IfErr result (FaultOf (move_plan from to beat.now stores.now now)) }
{
    if !is_known(from, stores) {
        return Err(BuildFault::UnknownStore);
    }
    if !is_known(to, stores) {
        return Err(BuildFault::UnknownStore);
    }
    if !stores.is_usable(to, now) {
        return Err(BuildFault::NotUsable);
    }
    if has_store(to, beat) {
        return Err(BuildFault::HasPeer);
    }
    let Some(peer) = peer_on(from, beat) else {
        return Err(BuildFault::NoPeer);
    };
    let steps = move_peer(alloc, &peer, to, beat, stores, now)?;
    Ok(steps)
}

/// The steps that carry out a wish on a region at the moment `now`, or the first fault that applies,
/// in the order of `BuildFault`. A new peer has the id 0 until `with_id` gives it one. Where the
/// leader leaves, the lead goes first to the voter of the least id that is a target, another than
/// the leader; in MovePeer to the new peer where there is none.
pub fn build(
    alloc: Global,
    wish: &Wish,
    beat: &RegionBeat,
    stores: &Stores,
    now: u64,
) -> Result<Steps, BuildFault>
    ensures ok { IfOk result (λ steps. plan_of wish.now beat.now stores.now now ≡ Ok steps) }
    ensures fault { IfErr result (FaultOf (plan_of wish.now beat.now stores.now now)) }
    ensures next { IsNext beat.now stores.now now (next_leader beat.now stores.now now) }
{
    match *wish {
        Wish::AddPeer { store } => add_steps(alloc, store, beat, stores, now),
        Wish::TransferLeader { store } => transfer_steps(alloc, store, beat, stores),
        Wish::RemovePeer { store } => remove_steps(alloc, store, beat, stores, now),
        Wish::MovePeer { from, to } => move_steps(alloc, from, to, beat, stores, now),
    }
}

fn given(id: u64, peer: u64) -> u64
    ensures { result ≡ given id peer }
{
    if peer == 0 { id } else { peer }
}

fn step_with(id: u64, step: &Step) -> Step
    ensures { result ≡ step_with id step.now }
{
    match *step {
        Step::AddLearner { peer, store } => Step::AddLearner {
            peer: given(id, peer),
            store,
        },
        Step::PromoteLearner { peer, store } => Step::PromoteLearner {
            peer: given(id, peer),
            store,
        },
        Step::TransferLeader { peer, store } => Step::TransferLeader {
            peer: given(id, peer),
            store,
        },
        Step::RemovePeer { peer, store } => Step::RemovePeer {
            peer: given(id, peer),
            store,
        },
    }
}

/// The steps with this id in the place of a new peer's, which `build` leaves 0. It takes no memory.
pub fn with_id(steps: Steps, id: u64) -> Steps
    ensures value { result ≡ map (step_with id) steps }
{
    let mut items = steps.into_vec();
    for step in items.iter_mut() {
        *step = step_with(id, step);
    }
    Seq::of(items)
}
