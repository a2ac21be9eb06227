// The request that checks a region.
ghost use Rattle.std.specs.Prelude.{◌≡◌, ◌++◌, [], IfOk, Some};
ghost use Rattle.meta_store.specs.Asked.{AreAsked};
ghost use Rattle.meta_store.specs.Doors.{Serves};
ghost use Rattle.rule_checker.specs.Told.{first_key, tells};
ghost use Rattle.pd_state.specs.Adding.{around_of, planning_of, replanned};
ghost use Rattle.pd_state.specs.Asking.{ear};
ghost use Rattle.pd_state.specs.Calls.{next_call};
ghost use Rattle.pd_state.specs.Checking.{Does, IsShort, check_op, check_told};
ghost use Rattle.pd_state.specs.Heard.{IsAlone, told_all};
ghost use Rattle.pd_state.specs.Legal.{term_reply, term_sents};
ghost use Rattle.pd_state.specs.Steps.{changed_part};

use crate::heard::{Done, quiet, with_log};
use crate::planning::{Log, add_op};
use crate::{Part, Reply};
use meta_store::Door;
use op_control::NewOp;
use pd_types::{Bytes, Duplicate, Keys, NoMemory, RegionBeat, Request, Steps, Text};
use rule_checker::{Verdict, check};
use std::alloc::Global;

/// The priority of an operator that the checker asks for: above a scheduler's, below pd-ctl's.
pub const CHECK_PRIORITY: u8 = 2;

/// The operator of a plan for a region, of the checker's kind and priority.
pub fn check_op(alloc: Global, beat: &RegionBeat, steps: Steps) -> Result<NewOp, NoMemory>
    ensures value { IfOk result (λ op. op ≡ check_op beat.now steps) }
{
    Ok(NewOp {
        region: beat.region.id,
        epoch: beat.region.epoch,
        steps,
        kind: Text::of(String::from_str(alloc, "check")?),
        priority: CHECK_PRIORITY,
    })
}

// The first of the keys.
fn first_key(alloc: Global, keys: &Keys) -> Result<Bytes, NoMemory>
    ensures value { IfOk result (λ key. key ≡ first_key keys.now) }
{
    match keys.as_slice().first() {
        Some(key) => key.copy(alloc),
        None => Ok(Bytes::new(alloc)),
    }
}

// Carries a verdict out.
fn carry_out<M: Door>(
    alloc: Global,
    driver: u8,
    part: &mut Part,
    beat: &RegionBeat,
    verdict: Verdict,
    door: &mut M,
) -> Result<Done, NoMemory>
    requires serves { Serves (M.place door.old) driver }
    requires few { IsShort verdict }
    ensures does { IfOk result (λ done. Does (check_told (around_of part.old) beat.now (planning_of part.old) (tells verdict)) (planning_of part.new) part.new.stores done driver (ear [] part.old.known (M.said door.old) (M.told door.old)) (ear done.heard.answers part.new.known (M.said door.new) (M.told door.new))) }
    ensures alone { IfOk result (λ done. IsAlone done.heard) }
    ensures rest { part.new ≡ replanned part.old (planning_of part.new) part.new.known }
    ensures place { M.place door.new ≡ M.place door.old }
{
    match verdict {
        Verdict::NeedsSplit { keys } => {
            let key = first_key(alloc, &keys)?;
            Ok(quiet(alloc, Reply::NeedsSplit { key }))
        }
        Verdict::NoFault => Ok(quiet(alloc, Reply::NoFault)),
        Verdict::NoPlan { from, .. } => Ok(quiet(alloc, Reply::NoPlan { from })),
        Verdict::Plan {
            class,
            steps,
            from,
            to,
        } => {
            let op = check_op(alloc, beat, steps)?;
            let mut log = Log::new(alloc);
            let adding = add_op(alloc, driver, part, op, beat, &mut log, door)?;
            let reply = Reply::Plan {
                class,
                from,
                to,
                adding,
            };
            Ok(with_log(alloc, reply, log))
        }
    }
}

/// Checks a region, and adds the operator that its plan asks for.
pub fn check_region<M: Door>(
    alloc: Global,
    driver: u8,
    part: &mut Part,
    moment: u64,
    region: u64,
    door: &mut M,
) -> Result<Done, NoMemory>
    requires { Serves (M.place door.old) driver }
    ensures reply { IfOk result (λ done. done.reply ≡ term_reply driver part.old (Request.Check moment region) done.heard) }
    ensures asked { IfOk result (λ done. AreAsked (next_call (Some part.old) (Request.Check moment region) []) [] done.heard.answers) }
    ensures after { IfOk result (λ done. part.new ≡ changed_part part.old (Request.Check moment region) done.reply done.heard) }
    ensures alone { IfOk result (λ done. IsAlone done.heard) }
    ensures sents { IfOk result (λ done. done.sents ≡ term_sents part.old (Request.Check moment region) done.reply done.heard) }
    ensures said { IfOk result (λ done. M.said door.new ≡ M.said door.old ++ done.heard.answers) }
    ensures told { IfOk result (λ done. M.told door.new ≡ told_all (M.told door.old) driver done.heard.answers) }
    ensures place { M.place door.new ≡ M.place door.old }
{
    part.advance(moment);
    let Some(held) = part.standing.regions().by_id(region) else {
        return Ok(quiet(alloc, Reply::NoRegion));
    };
    let beat = held.copy(alloc)?;
    let verdict = check(
        alloc,
        &beat,
        &part.rules,
        &part.stores,
        &part.standing,
        part.clock,
    )?;
    carry_out(alloc, driver, part, &beat, verdict, door)
}
