// The request that lets the next scheduler propose.
ghost use Rattle.std.specs.Prelude.{◌≡◌, ◌++◌, ◌∷◌, [], IfOk, Some, length};
ghost use Rattle.meta_store.specs.Asked.{AreAsked};
ghost use Rattle.meta_store.specs.Doors.{Serves};
ghost use Rattle.sched_api.specs.Benches.{names_of};
ghost use Rattle.pd_state.specs.Adding.{around_of, planning_of, replanned};
ghost use Rattle.pd_state.specs.Asking.{ear};
ghost use Rattle.pd_state.specs.BenchHeard.{Becomes, IsTold, asked_at, dropped, fate_told, turns_of};
ghost use Rattle.pd_state.specs.Calls.{next_call};
ghost use Rattle.pd_state.specs.Checking.{Does};
ghost use Rattle.pd_state.specs.Heard.{IsAlone, told_all};
ghost use Rattle.pd_state.specs.Legal.{term_reply, term_sents};
ghost use Rattle.pd_state.specs.Scheduling.{fate, heed, scheduler};
ghost use Rattle.pd_state.specs.Steps.{changed_part};

use crate::adding::Adding;
use crate::heard::{Done, Heard, quiet, with_log, with_names};
use crate::planning::Log;
use crate::wishing::{Asker, region_of, try_wished, wish_of, wished};
use crate::{Part, Reply};
use meta_store::Door;
use pd_types::{Duplicate, NoMemory, Request, Text};
use sched_api::{BenchSaid, Fate, Said, Seated};
use std::alloc::Global;

/// The priority of an operator that a scheduler asks for: below the checker's and pd-ctl's.
pub const SCHEDULER_PRIORITY: u8 = 1;

// A scheduler of this name, whose operators have its name as their kind.
fn scheduler(alloc: Global, name: &Text) -> Result<Asker, NoMemory>
    ensures value { IfOk result (λ asker. asker ≡ scheduler name.now) }
{
    Ok(Asker {
        kind: name.copy(alloc)?,
        priority: SCHEDULER_PRIORITY,
    })
}

// What became of a proposal for a region.
fn fate(adding: Adding, region: u64) -> Fate
    ensures value { result ≡ fate adding region }
{
    match adding {
        Adding::Added(_) => Fate::Added(region),
        _ => Fate::Refused,
    }
}

// Carries out what a scheduler answered.
fn heed<M: Door>(
    alloc: Global,
    driver: u8,
    part: &mut Part,
    said: &Said,
    door: &mut M,
) -> Result<Done, NoMemory>
    requires serves { Serves (M.place door.old) driver }
    ensures does { IfOk result (λ done. Does (heed (around_of part.old) (planning_of part.old) said.now.name said.now.proposal) (planning_of part.new) part.new.stores done driver (ear [] part.old.known (M.said door.old) (M.told door.old)) (ear done.heard.answers part.new.known (M.said door.new) (M.told door.new))) }
    ensures alone { IfOk result (λ done. IsAlone done.heard) }
    ensures rest { part.new ≡ replanned part.old (planning_of part.new) part.new.known }
    ensures place { M.place door.new ≡ M.place door.old }
{
    let name = said.name.copy(alloc)?;
    let Some(proposal) = said.proposal else {
        return Ok(quiet(alloc, Reply::Silent { name }));
    };
    let asker = scheduler(alloc, &said.name)?;
    let found = wished(alloc, part, region_of(proposal), &wish_of(proposal))?;
    let mut log = Log::new(alloc);
    let adding = try_wished(alloc, driver, part, asker, &found, &mut log, door)?;
    let reply = Reply::Proposed {
        name,
        proposal,
        adding,
    };
    Ok(with_log(alloc, reply, log))
}

// Tells the scheduler that was asked last what became of its proposal; of none it is told nothing.
fn tell<B: Seated>(bench: &mut B, reply: &Reply)
    ensures told { IsTold (fate_told reply.now) (B.seats bench.old) (B.seats bench.new) }
{
    if let Reply::Proposed {
        proposal,
        adding,
        ..
    } = reply
    {
        bench.tell_last(fate(*adding, region_of(*proposal)));
    }
}

// What was said, alone.
fn said_once(alloc: Global, said: Said) -> Result<BenchSaid, NoMemory>
    ensures value { IfOk result (λ list. list ≡ said ∷ []) }
{
    let mut list = BenchSaid::new(alloc);
    list.push(said)?;
    Ok(list)
}

/// Lets the next scheduler of the bench propose a move, whose operator is tried, and tells it what
/// became of it.
pub fn schedule<M: Door, B: Seated>(
    alloc: Global,
    driver: u8,
    part: &mut Part,
    moment: u64,
    door: &mut M,
    bench: &mut B,
) -> Result<Done, NoMemory>
    requires { Serves (M.place door.old) driver }
    ensures reply { IfOk result (λ done. done.reply ≡ term_reply driver part.old (Request.Schedule moment) done.heard) }
    ensures asked { IfOk result (λ done. AreAsked (next_call (Some part.old) (Request.Schedule moment) done.heard.bench) [] done.heard.answers) }
    ensures turns { IfOk result (λ done. length done.heard.bench ≡ turns_of (Some part.old) (Request.Schedule moment) done.heard.names) }
    ensures names { IfOk result (λ done. done.heard.names ≡ names_of (B.seats bench.old)) }
    ensures becomes { IfOk result (λ done. Becomes (asked_at (Some part.old) (Request.Schedule moment)) (fate_told done.reply) done.heard.bench (dropped (Some part.old) (Request.Schedule moment) done.heard.names) (B.seats bench.old) (B.seats bench.new)) }
    ensures after { IfOk result (λ done. part.new ≡ changed_part part.old (Request.Schedule moment) done.reply done.heard) }
    ensures sents { IfOk result (λ done. done.sents ≡ term_sents part.old (Request.Schedule moment) done.reply done.heard) }
    ensures said { IfOk result (λ done. M.said door.new ≡ M.said door.old ++ done.heard.answers) }
    ensures told { IfOk result (λ done. M.told door.new ≡ told_all (M.told door.old) driver done.heard.answers) }
    ensures place { M.place door.new ≡ M.place door.old }
{
    part.advance(moment);
    let names = bench.names()?;
    let asked = bench.run_next(
        &part.stores,
        &part.standing,
        &part.rules,
        part.operators.busy(),
        part.clock,
    )?;
    let Some(said) = asked else {
        return Ok(with_names(alloc, Reply::NoScheduler, names));
    };
    let Done {
        reply,
        heard,
        sents,
    } = heed(alloc, driver, part, &said, door)?;
    tell(bench, &reply);
    let Heard { answers, .. } = heard;
    let bench = said_once(alloc, said)?;
    let heard = Heard {
        answers,
        bench,
        names,
    };
    Ok(Done {
        reply,
        heard,
        sents,
    })
}
