// Wishes for regions: their steps are built, and their operators are tried like any others.
ghost use Rattle.std.specs.Prelude.{◌≡◌, ◌≢◌, ◌<◌, ◌^◌, IfOk, length};
ghost use Rattle.meta_store.specs.Doors.{Serves};
ghost use Rattle.pd_state.specs.Adding.{around_of, planning_of, replanned};
ghost use Rattle.pd_state.specs.Asking.{ear};
ghost use Rattle.pd_state.specs.Wishing.{FewOr, Tries, op_of, region_of, steps_in, wish_of, wished};

use crate::Part;
use crate::adding::Adding;
use crate::patrol::Planned;
use crate::planning::{Log, add_op};
use meta_store::Door;
use op_control::{AddFault, NewOp};
use op_step::{BuildFault, Wish, build};
use pd_types::{Duplicate, NoMemory, Proposal, Text};
use std::alloc::Global;

/// Who asks for an operator: of which kind it is, and its priority.
#[derive(Debug, Drop)]
pub struct Asker {
    pub kind: Text,
    pub priority: u8,
}

/// The region of a proposal.
pub fn region_of(proposal: Proposal) -> u64
    ensures value { result ≡ region_of proposal }
{
    match proposal {
        Proposal::MovePeer { region, .. } => region,
        Proposal::MoveLeader { region, .. } => region,
        Proposal::DropPeer { region, .. } => region,
    }
}

/// A proposal as a wish.
pub fn wish_of(proposal: Proposal) -> Wish
    ensures value { result ≡ wish_of proposal }
{
    match proposal {
        Proposal::MovePeer { from, to, .. } => Wish::MovePeer { from, to },
        Proposal::MoveLeader { to, .. } => Wish::TransferLeader { store: to },
        Proposal::DropPeer { store, .. } => Wish::RemovePeer { store },
    }
}

/// The region of this id with the steps of a wish for it, or why there are none.
pub fn wished(
    alloc: Global,
    part: &Part,
    region: u64,
    wish: &Wish,
) -> Result<Result<Planned, Adding>, NoMemory>
    ensures value { IfOk result (λ found. found ≡ wished (around_of part.now) region wish.now) }
    ensures few { IfOk result FewOr }
{
    let Some(beat) = part.standing.regions().by_id(region) else {
        return Ok(Err(Adding::Add(AddFault::NoRegion)));
    };
    match build(alloc, wish, beat, &part.stores, part.clock) {
        Ok(steps) => Ok(Ok(Planned {
            beat: beat.copy(alloc)?,
            steps,
        })),
        Err(fault) => {
            let why = unbuilt(fault)?;
            Ok(Err(why))
        }
    }
}

// Why a wish has no steps; want of memory is no reason.
fn unbuilt(fault: BuildFault) -> Result<Adding, NoMemory>
    ensures value { IfOk result (λ why. why ≡ Adding.Build fault) }
    ensures kept { IfOk result (λ why. fault ≢ BuildFault.NoMemory) }
{
    match fault {
        BuildFault::NoMemory => Err(NoMemory),
        _ => Ok(Adding::Build(fault)),
    }
}

/// How many steps were built.
pub fn steps_in(found: &Result<Planned, Adding>) -> u64
    ensures value { result ≡ steps_in found.now }
{
    match found {
        Ok(planned) => planned.steps.len() as u64,
        Err(_) => 0,
    }
}

// The operator that is asked for.
fn op_of(asker: Asker, planned: &Planned, alloc: Global) -> Result<NewOp, NoMemory>
    ensures value { IfOk result (λ op. op ≡ op_of asker planned.now) }
{
    Ok(NewOp {
        region: planned.beat.region.id,
        epoch: planned.beat.region.epoch,
        steps: planned.steps.copy(alloc)?,
        kind: asker.kind,
        priority: asker.priority,
    })
}

/// Tries the operator of what was wished, where there is one.
pub fn try_wished<M: Door>(
    alloc: Global,
    driver: u8,
    part: &mut Part,
    asker: Asker,
    found: &Result<Planned, Adding>,
    log: &mut Log,
    door: &mut M,
) -> Result<Adding, NoMemory>
    requires serves { Serves (M.place door.old) driver }
    requires few { FewOr found.now }
    ensures tries { IfOk result (λ came. Tries (around_of part.old) asker found.now (planning_of part.old) (planning_of part.new) log.old.sents log.new.sents came driver (ear log.old.answers part.old.known (M.said door.old) (M.told door.old)) (ear log.new.answers part.new.known (M.said door.new) (M.told door.new))) }
    ensures rest { part.new ≡ replanned part.old (planning_of part.new) part.new.known }
    ensures place { M.place door.new ≡ M.place door.old }
{
    let planned = match found {
        Ok(planned) => planned,
        Err(why) => return Ok(*why),
    };
    let op = op_of(asker, planned, alloc)?;
    add_op(alloc, driver, part, op, &planned.beat, log, door)
}
