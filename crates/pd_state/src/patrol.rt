// The request that checks every region.
ghost use Rattle.std.specs.Prelude.{◌≡◌, ◌≤◌, ◌+◌, ◌<◌, ◌^◌, ◌++◌, [], false, is_some, All, IfOk, OnOk, Some, count_by, length};
ghost use Rattle.meta_store.specs.Asked.{AreAsked};
ghost use Rattle.meta_store.specs.Doors.{Serves};
ghost use Rattle.rule_checker.specs.Told.{tells};
ghost use Rattle.pd_state.specs.Adding.{around_of, planning_of, replanned};
ghost use Rattle.pd_state.specs.Asking.{Talks, ear};
ghost use Rattle.pd_state.specs.Calls.{next_call};
ghost use Rattle.pd_state.specs.Checking.{AreCounts, Round as Rounds, no_survey, round_at, survey_more, surveyed, sweep, tallied, visit};
ghost use Rattle.pd_state.specs.Heard.{IsAlone, told_all};
ghost use Rattle.pd_state.specs.Legal.{term_reply, term_sents};
ghost use Rattle.pd_state.specs.Steps.{changed_part};
ghost use Rattle.op_control.specs.Table.{active_at};
ghost use Rattle.pd_state.specs.declared.patrol.Planned.{Planned};

use crate::adding::Adding;
use crate::burial::bury_all;
use crate::checking::check_op;
use crate::heard::{Done, with_log};
use crate::planning::{Log, add_op};
use crate::{Part, Reply};
use meta_store::Door;
use op_control::Operators;
use pd_types::{Duplicate, NoMemory, RegionBeat, Request, Seq, Steps};
use rule_checker::{Verdict, check};
use std::alloc::Global;

/// A region with the steps of its plan.
#[derive(Debug, Drop)]
pub struct Planned {
    pub beat: RegionBeat,
    pub steps: Steps,
}

/// What the checker told of the regions: how many of each kind, and those that have a plan, in key
/// order.
#[derive(Drop)]
pub struct Survey {
    pub regions: u64,
    pub ok: u64,
    pub split: u64,
    pub plan: u64,
    pub no_plan: u64,
    pub plans: Seq<Planned>,
}

/// How far a patrol came with adding operators.
#[derive(Clone, Copy, Debug)]
pub struct Round {
    pub added: u64,
    pub stopped: bool,
}

impl Survey {
    fn new(alloc: Global) -> Survey
        ensures value { result ≡ no_survey }
    {
        Survey {
            regions: 0,
            ok: 0,
            split: 0,
            plan: 0,
            no_plan: 0,
            plans: Seq::new(alloc),
        }
    }

    // Takes up what the checker tells of one region.
    fn count(&mut self, alloc: Global, beat: &RegionBeat, verdict: Verdict) -> Result<(), NoMemory>
        requires counts { AreCounts self.old }
        requires room { self.old.regions + 1 < 2 ^ 64 }
        ensures ok { OnOk result (self.new ≡ survey_more self.old beat.now (tells verdict)) }
    {
        match verdict {
            Verdict::NeedsSplit { .. } => self.split += 1,
            Verdict::NoFault => self.ok += 1,
            Verdict::NoPlan { .. } => self.no_plan += 1,
            Verdict::Plan { steps, .. } => {
                let beat = beat.copy(alloc)?;
                self.plans.push(Planned { beat, steps })?;
                self.plan += 1;
            }
        }
        self.regions += 1;
        Ok(())
    }
}

// What the checker tells of every region, before anything is added.
fn survey_all(alloc: Global, part: &Part) -> Result<Survey, NoMemory>
    ensures value { IfOk result (λ survey. survey ≡ surveyed (around_of part.now) part.now.standing) }
{
    let regions = part.standing.regions();
    let mut survey = Survey::new(alloc);
    for place in 0..regions.len() {
        let Some(beat) = regions.at(place) else {
            unreachable!()
        };
        let verdict = check(
            alloc,
            beat,
            &part.rules,
            &part.stores,
            &part.standing,
            part.clock,
        )?;
        survey.count(alloc, beat, verdict)?;
    }
    Ok(survey)
}

// Whether the region has an operator that hasn't ended.
fn has_operator(operators: &Operators, region: u64) -> bool
    ensures { result ≡ is_some (active_at operators.now region) }
{
    match operators.state(region) {
        Some(state) => state.is_active(),
        None => false,
    }
}

// Counts what came of adding one operator: a refusal of an id stops a patrol from adding more.
fn tally(round: Round, adding: Adding) -> Round
    requires { round.added + 1 < 2 ^ 64 }
    ensures value { result ≡ tallied round adding }
{
    match adding {
        Adding::Added(_) => Round {
            added: round.added + 1,
            stopped: false,
        },
        Adding::Build(_) | Adding::Add(_) => round,
        Adding::OldTerm { .. } | Adding::Conflict { .. } | Adding::MetaLimit | Adding::IdsSpent => {
            Round {
                added: round.added,
                stopped: true,
            }
        }
    }
}

// Adds the operator of one plan, unless its region has one.
fn visit<M: Door>(
    alloc: Global,
    driver: u8,
    part: &mut Part,
    planned: &Planned,
    round: Round,
    log: &mut Log,
    door: &mut M,
) -> Result<Round, NoMemory>
    requires serves { Serves (M.place door.old) driver }
    requires few { length planned.now.steps < 2 ^ 32 }
    requires room { round.added + 1 < 2 ^ 64 }
    ensures talks { IfOk result (λ next. Talks Rounds (visit (around_of part.old) planned.now (round_at part.old log.old.sents round)) (round_at part.new log.new.sents next) driver (ear log.old.answers part.old.known (M.said door.old) (M.told door.old)) (ear log.new.answers part.new.known (M.said door.new) (M.told door.new))) }
    ensures more { IfOk result (λ next. next.added ≤ round.added + 1) }
    ensures rest { part.new ≡ replanned part.old (planning_of part.new) part.new.known }
    ensures place { M.place door.new ≡ M.place door.old }
{
    if round.stopped || has_operator(&part.operators, planned.beat.region.id) {
        return Ok(round);
    }
    let op = check_op(alloc, &planned.beat, planned.steps.copy(alloc)?)?;
    let adding = add_op(alloc, driver, part, op, &planned.beat, log, door)?;
    Ok(tally(round, adding))
}

// Adds the operators of these plans, in turn.
fn sweep<M: Door>(
    alloc: Global,
    driver: u8,
    part: &mut Part,
    plans: &[Planned],
    log: &mut Log,
    door: &mut M,
) -> Result<Round, NoMemory>
    requires serves { Serves (M.place door.old) driver }
    requires few { All (λ (one : Planned). length one.steps < 2 ^ 32) plans.now }
    ensures talks { IfOk result (λ round. Talks Rounds (sweep (around_of part.old) plans.now (round_at part.old log.old.sents (record { added = 0; stopped = false }))) (round_at part.new log.new.sents round) driver (ear log.old.answers part.old.known (M.said door.old) (M.told door.old)) (ear log.new.answers part.new.known (M.said door.new) (M.told door.new))) }
    ensures rest { part.new ≡ replanned part.old (planning_of part.new) part.new.known }
    ensures place { M.place door.new ≡ M.place door.old }
{
    let mut round = Round {
        added: 0,
        stopped: false,
    };
    for planned in plans {
        round = visit(alloc, driver, part, planned, round, log, door)?;
    }
    Ok(round)
}

/// Checks every region, adds the operators that their plans ask for, in key order, and then buries
/// stores. The regions are looked at one after the other, whatever the number of workers is.
pub fn patrol<M: Door>(
    alloc: Global,
    driver: u8,
    part: &mut Part,
    moment: u64,
    workers: u32,
    door: &mut M,
) -> Result<Done, NoMemory>
    requires { Serves (M.place door.old) driver }
    ensures reply { IfOk result (λ done. done.reply ≡ term_reply driver part.old (Request.Patrol moment workers) done.heard) }
    ensures asked { IfOk result (λ done. AreAsked (next_call (Some part.old) (Request.Patrol moment workers) []) [] done.heard.answers) }
    ensures after { IfOk result (λ done. part.new ≡ changed_part part.old (Request.Patrol moment workers) done.reply done.heard) }
    ensures alone { IfOk result (λ done. IsAlone done.heard) }
    ensures sents { IfOk result (λ done. done.sents ≡ term_sents part.old (Request.Patrol moment workers) done.reply done.heard) }
    ensures said { IfOk result (λ done. M.said door.new ≡ M.said door.old ++ done.heard.answers) }
    ensures told { IfOk result (λ done. M.told door.new ≡ told_all (M.told door.old) driver done.heard.answers) }
    ensures place { M.place door.new ≡ M.place door.old }
{
    // One after the other, whatever the number of workers is.
    let _ = workers;
    part.advance(moment);
    let found = survey_all(alloc, part)?;
    let mut log = Log::new(alloc);
    let round = sweep(alloc, driver, part, found.plans.as_slice(), &mut log, door)?;
    let burial = bury_all(alloc, driver, part, &mut log.answers, door)?;
    let reply = Reply::Patrolled {
        regions: found.regions,
        ok: found.ok,
        split: found.split,
        plan: found.plan,
        no_plan: found.no_plan,
        added: round.added,
        buried: burial.buried,
    };
    Ok(with_log(alloc, reply, log))
}
