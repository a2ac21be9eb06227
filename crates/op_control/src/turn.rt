// What a heartbeat of its region makes of an operator.
ghost use Rattle.std.specs.Prelude.{◌≡◌, ◌≤◌, drop, take, length};
ghost use Rattle.op_control.specs.Turn.{answer_at, answer_of, conf_changes, finished_count, is_astray, late_in, passed_by, sent_by, start_in, started_after, state_after, turned, unless_late, with_left};

use crate::operator::{EXPIRED_MS, OpState, Operator, TIMEOUT_MS};
use op_step::{Held, conf_change, finished, gate};
use pd_types::{RegionBeat, Step};
use store_table::Stores;

/// The answer to a region's heartbeat.
#[derive(Clone, Copy, Debug, PartialEq, Eq)]
pub enum Dispatch {
    /// The region has no operator that hasn't ended.
    NoOperator,
    /// The step is sent to the region's leader.
    Send(Step),
    /// The gate holds the step.
    Wait(Held),
    /// The operator ended as Success.
    Done,
    /// The operator ended as Canceled, Expired or Timeout.
    Ended(OpState),
}

/// What a heartbeat changes of an operator.
#[derive(Clone, Copy, Debug)]
pub struct Progress {
    pub passed: usize,
    pub state: OpState,
    pub started: u64,
}

fn finished_count(steps: &[Step], beat: &RegionBeat) -> usize
    ensures value { result ≡ finished_count beat.now steps.now }
    ensures bound { result ≤ length steps.now }
{
    let mut count = 0;
    for step in steps {
        if !finished(step, beat) {
            return count;
        }
        count += 1;
    }
    count
}

fn conf_changes(steps: &[Step]) -> u64
    ensures { result ≡ conf_changes steps.now }
{
    let mut total = 0;
    for step in steps {
        total += conf_change(step);
    }
    total
}

// The steps from a place on.
fn steps_from(steps: &[Step], place: usize) -> &[Step]
    ensures { result.now ≡ drop place steps.now }
{
    let place = place.min(steps.len());
    &steps[place..]
}

// The steps before a place.
fn steps_before(steps: &[Step], place: usize) -> &[Step]
    ensures { result.now ≡ take place steps.now }
{
    let place = place.min(steps.len());
    &steps[..place]
}

fn passed_by(op: &Operator, beat: &RegionBeat) -> usize
    ensures { result ≡ passed_by op.now beat.now }
{
    op.passed + finished_count(steps_from(op.steps.as_slice(), op.passed), beat)
}

fn late(op: &Operator, now: u64) -> Option<OpState>
    ensures { result ≡ late_in op.now.state op.now now }
{
    match op.state {
        OpState::Created if now.saturating_sub(op.created) > EXPIRED_MS => Some(OpState::Expired),
        OpState::Started if now.saturating_sub(op.started) > TIMEOUT_MS => Some(OpState::Timeout),
        _ => None,
    }
}

fn with_left(
    steps: &[Step],
    op: &Operator,
    beat: &RegionBeat,
    stores: &Stores,
    now: u64,
) -> Dispatch
    ensures { result ≡ with_left steps.now op.now beat.now stores.now now }
{
    let Some(step) = steps.first() else {
        return Dispatch::Done;
    };
    if let Some(state) = late(op, now) {
        return Dispatch::Ended(state);
    }
    match gate(step, beat, stores, now) {
        Ok(()) => Dispatch::Send(*step),
        Err(held) => Dispatch::Wait(held),
    }
}

fn is_astray(passed: usize, op: &Operator, beat: &RegionBeat) -> bool
    ensures { result ≡ is_astray passed op.now beat.now }
{
    let grown = beat.region.epoch.conf_ver.saturating_sub(op.epoch.conf_ver);
    conf_changes(steps_before(op.steps.as_slice(), passed)) < grown
}

fn answer_at(passed: usize, op: &Operator, beat: &RegionBeat, stores: &Stores, now: u64) -> Dispatch
    ensures { result ≡ answer_at passed op.now beat.now stores.now now }
{
    if is_astray(passed, op, beat) {
        Dispatch::Ended(OpState::Canceled)
    } else {
        with_left(
            steps_from(op.steps.as_slice(), passed),
            op,
            beat,
            stores,
            now,
        )
    }
}

fn state_after(state: OpState, answer: &Dispatch) -> OpState
    ensures { result ≡ state_after state answer.now }
{
    match *answer {
        Dispatch::NoOperator => state,
        Dispatch::Send(_) => OpState::Started,
        Dispatch::Wait(_) => state,
        Dispatch::Done => OpState::Success,
        Dispatch::Ended(end) => end,
    }
}

fn started_after(op: &Operator, answer: &Dispatch, now: u64) -> u64
    ensures { result ≡ started_after op.now answer.now now }
{
    match (answer, op.state) {
        (Dispatch::Send(_), OpState::Created) => now,
        _ => op.started,
    }
}

/// What a heartbeat of its region makes of an operator, and the answer to it.
pub fn advance(op: &Operator, beat: &RegionBeat, stores: &Stores, now: u64) -> (Progress, Dispatch)
    ensures answer { result.1 ≡ answer_of op.now beat.now stores.now now }
    ensures passed { result.0.passed ≡ passed_by op.now beat.now }
    ensures state { result.0.state ≡ state_after op.now.state (answer_of op.now beat.now stores.now now) }
    ensures started { result.0.started ≡ started_after op.now (answer_of op.now beat.now stores.now now) now }
{
    let passed = passed_by(op, beat);
    let answer = answer_at(passed, op, beat, stores, now);
    let progress = Progress {
        passed,
        state: state_after(op.state, &answer),
        started: started_after(op, &answer, now),
    };
    (progress, answer)
}
