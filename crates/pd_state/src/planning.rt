// Adding an operator: its tests, an id for its new peer, and its dispatch at once.
ghost use Rattle.std.specs.Prelude.{◌≡◌, ◌++◌, ◌<◌, ◌^◌, [], IfOk, None, OnOk, Some, length};
ghost use Rattle.meta_store.specs.Doors.{Serves};
ghost use Rattle.op_control.specs.Adding.{refusal_of, with_new_id};
ghost use Rattle.pd_state.specs.Adding.{Adds, Drawn, around_of, asks_id, draw, drawn, entered, free_id, is_new, planning_of, replanned};
ghost use Rattle.pd_state.specs.Asking.{Talks, ear};

use crate::Part;
use crate::adding::Adding;
use crate::sent::{Sents, send};
use crate::write::ask;
use meta_store::{Door, MetaAnswers, MetaVerdict};
use op_control::NewOp;
use op_step::{has_id, with_id};
use pd_types::{NoMemory, RegionBeat, Step};
use std::alloc::Global;

/// What a request heard and sent while it added operators.
#[derive(Debug, Drop)]
pub struct Log {
    pub answers: MetaAnswers,
    pub sents: Sents,
}

impl Log {
    /// Nothing yet.
    pub fn new(alloc: Global) -> Log
        ensures answers { result.answers ≡ [] }
        ensures sents { result.sents ≡ [] }
    {
        Log {
            answers: MetaAnswers::new(alloc),
            sents: Sents::new(alloc),
        }
    }
}

// The next id, or why there is none. A window that is used up is saved anew first.
fn draw<M: Door>(
    alloc: Global,
    driver: u8,
    part: &mut Part,
    answers: &mut MetaAnswers,
    door: &mut M,
) -> Result<Result<u64, Adding>, NoMemory>
    requires { Serves (M.place door.old) driver }
    ensures talks { IfOk result (λ id. Talks Drawn (draw part.old.term part.old.window) (drawn part.new.window id) driver (ear answers.old part.old.known (M.said door.old) (M.told door.old)) (ear answers.new part.new.known (M.said door.new) (M.told door.new))) }
    ensures rest { part.new ≡ record part.old { window = part.new.window; known = part.new.known } }
    ensures place { M.place door.new ≡ M.place door.old }
{
    if !part.window.is_used_up() {
        return Ok(Ok(part.window.take()));
    }
    if part.window.is_spent() {
        return Ok(Err(Adding::IdsSpent));
    }
    let call = part.window.call(alloc, part.term)?;
    let answer = ask(alloc, door, driver, &mut part.known, call)?;
    let verdict = answer.verdict;
    answers.push(answer)?;
    Ok(match verdict {
        MetaVerdict::Accepted { revision } => Ok(part.window.save(revision)),
        MetaVerdict::OldTerm { fence } => Err(Adding::OldTerm { fence }),
        MetaVerdict::Conflict { found } => Err(Adding::Conflict { found }),
        MetaVerdict::Limit => Err(Adding::MetaLimit),
    })
}

// The first id that isn't in the region. One that is passed over counts as taken. As many as the
// region has peers are passed over at most, so that the last is free without a test.
fn free_id<M: Door>(
    alloc: Global,
    driver: u8,
    part: &mut Part,
    beat: &RegionBeat,
    answers: &mut MetaAnswers,
    door: &mut M,
) -> Result<Result<u64, Adding>, NoMemory>
    requires { Serves (M.place door.old) driver }
    ensures talks { IfOk result (λ id. Talks Drawn (free_id beat.now.region.peers beat.now part.old.term part.old.window) (drawn part.new.window id) driver (ear answers.old part.old.known (M.said door.old) (M.told door.old)) (ear answers.new part.new.known (M.said door.new) (M.told door.new))) }
    ensures rest { part.new ≡ record part.old { window = part.new.window; known = part.new.known } }
    ensures place { M.place door.new ≡ M.place door.old }
{
    for _peer in beat.region.peers.as_slice() {
        let id = match draw(alloc, driver, part, answers, door)? {
            Ok(id) => id,
            Err(why) => return Ok(Err(why)),
        };
        if !has_id(id, beat) {
            return Ok(Ok(id));
        }
    }
    draw(alloc, driver, part, answers, door)
}

// Whether the step adds a peer that has no id yet.
fn is_new(step: &Step) -> bool
    ensures { result ≡ is_new step.now }
{
    match *step {
        Step::AddLearner { peer, .. } => peer == 0,
        Step::PromoteLearner { .. } | Step::TransferLeader { .. } | Step::RemovePeer { .. } => {
            false
        }
    }
}

// Whether one of the steps adds a peer that has no id yet.
fn asks_id(steps: &[Step]) -> bool
    ensures { result ≡ asks_id steps.now }
{
    steps.iter().any(is_new)
}

// Adds an operator whose tests passed, and dispatches it by the held heartbeat.
fn enter(
    part: &mut Part,
    op: NewOp,
    beat: &RegionBeat,
    sents: &mut Sents,
) -> Result<Adding, NoMemory>
    requires few { length op.steps < 2 ^ 32 }
    requires passed { refusal_of part.old.operators op (Some beat.now) part.old.limits part.old.clock ≡ None }
    ensures adding { IfOk result (λ came. came ≡ (entered (around_of part.old) op beat.now (planning_of part.old)).adding) }
    ensures planning { OnOk result (planning_of part.new ≡ (entered (around_of part.old) op beat.now (planning_of part.old)).planning) }
    ensures sents { OnOk result (sents.new ≡ sents.old ++ (entered (around_of part.old) op beat.now (planning_of part.old)).sents) }
    ensures rest { part.new ≡ replanned part.old (planning_of part.new) part.old.known }
{
    let now = part.clock;
    match part.operators.add(op, Some(beat), &mut part.limits, now) {
        Ok(()) => {}
        // Its tests passed, so that memory alone was wanting.
        Err(_) => return Err(NoMemory),
    }
    let dispatch = part.operators.dispatch(beat, &part.stores, now);
    send(sents, beat, dispatch)?;
    Ok(Adding::Added(dispatch))
}

// The operator with an id for its new peer.
fn with_new_id(op: NewOp, id: u64) -> NewOp
    ensures value { result ≡ with_new_id op id }
{
    NewOp {
        region: op.region,
        epoch: op.epoch,
        steps: with_id(op.steps, id),
        kind: op.kind,
        priority: op.priority,
    }
}

/// Adds an operator of a region that is held with this heartbeat: its tests come first, then the id
/// of its new peer, and then it is dispatched by that heartbeat at once.
pub fn add_op<M: Door>(
    alloc: Global,
    driver: u8,
    part: &mut Part,
    op: NewOp,
    beat: &RegionBeat,
    log: &mut Log,
    door: &mut M,
) -> Result<Adding, NoMemory>
    requires serves { Serves (M.place door.old) driver }
    requires few { length op.steps < 2 ^ 32 }
    ensures adds { IfOk result (λ came. Adds (around_of part.old) op beat.now (planning_of part.old) (planning_of part.new) log.old.sents log.new.sents came driver (ear log.old.answers part.old.known (M.said door.old) (M.told door.old)) (ear log.new.answers part.new.known (M.said door.new) (M.told door.new))) }
    ensures rest { part.new ≡ replanned part.old (planning_of part.new) part.new.known }
    ensures place { M.place door.new ≡ M.place door.old }
{
    if let Err(fault) = part
        .operators
        .may_add(&op, Some(beat), &part.limits, part.clock)
    {
        return Ok(Adding::Add(fault));
    }
    if !asks_id(op.steps.as_slice()) {
        return enter(part, op, beat, &mut log.sents);
    }
    match free_id(alloc, driver, part, beat, &mut log.answers, door)? {
        Ok(id) => enter(part, with_new_id(op, id), beat, &mut log.sents),
        Err(why) => Ok(why),
    }
}
