// What a request makes of the tables.
ghost use Rattle.std.specs.Prelude.{◌≡◌, ℕ, ◌++◌, ◌∷◌, [], fold, length, OnOk, Some, IfOk};
ghost use Rattle.op_control.specs.Table.{canceled, dispatch_answer, dispatched};
ghost use Rattle.heartbeat.specs.Intakes.{intake_of};
ghost use Rattle.meta_store.specs.Asked.{AreAsked};
ghost use Rattle.meta_store.specs.Cells.{AreRising};
ghost use Rattle.meta_store.specs.Doors.{Serves};
ghost use Rattle.pd_state.specs.BenchHeard.{HearsBench};
ghost use Rattle.pd_state.specs.Calls.{next_call};
ghost use Rattle.pd_state.specs.Heard.{IsAlone, nothing, told_all};
ghost use Rattle.pd_state.specs.Legal.{beat_dispatch, beat_sents, first_reply, sents_by, term_reply};
ghost use Rattle.pd_state.specs.Replies.{alive_reply, beat_reply};
ghost use Rattle.pd_state.specs.Steps.{changed_part, new_part, stepped};
ghost use Rattle.pd_state.specs.declared.heard.Heard.{Heard};
ghost use Rattle.store_table.specs.Entries.{state_at};

use crate::checking::check_region;
use crate::ctl::ctl;
use crate::handed::{limits_told, rules_told, stores_told};
use crate::heard::{Done, quiet, with_answer, with_log, with_names};
use crate::patrol::patrol;
use crate::placement::{rule, unrule};
use crate::planning::Log;
use crate::scheduling::schedule;
use crate::sent::send;
use crate::stores::{greet, greeted_record, hear, hello_refusal};
use crate::write::{put, refusal};
use crate::{Part, Reply};
use heartbeat::{Intake, Standing};
use id_alloc::IdWindow;
use meta_store::{Door, Known, MetaAnswer, ask_lead, store_key, store_text};
use op_control::Operators;
use pd_types::{Duplicate, Ids, Labels, NoMemory, RegionBeat, Request, Text};
use sched_api::Seated;
use std::alloc::Global;

// The tables of a term that was announced, by the records that were handed out.
fn opened(alloc: Global, term: u64, moment: u64, answer: &MetaAnswer) -> Result<Part, NoMemory>
    requires { AreRising answer.now.cells }
    ensures value { IfOk result (λ part. part ≡ new_part term moment (answer.now ∷ [])) }
{
    let cells = answer.cells.as_slice();
    let mut known = Known::new(alloc);
    known.hear(alloc, answer)?;
    let stores = stores_told(alloc, cells, moment)?;
    let limits = limits_told(alloc, &stores, moment)?;
    Ok(Part {
        term,
        began: moment,
        clock: moment,
        stores,
        standing: Standing::new(alloc),
        rules: rules_told(alloc, cells)?,
        known,
        operators: Operators::new(alloc),
        limits,
        window: IdWindow::of(&answer.cells),
    })
}

// Announces a term and begins it, with the stores and rules that were handed out. Where it is
// refused there is no term afterwards.
fn begin<M: Door>(
    alloc: Global,
    driver: u8,
    part: &mut Option<Part>,
    term: u64,
    moment: u64,
    door: &mut M,
) -> Result<Done, NoMemory>
    requires { Serves (M.place door.old) driver }
    ensures reply { IfOk result (λ done. done.reply ≡ first_reply driver part.old (Request.Term term moment) done.heard) }
    ensures asked { IfOk result (λ done. AreAsked (next_call part.old (Request.Term term moment) []) [] done.heard.answers) }
    ensures after { IfOk result (λ done. part.new ≡ stepped part.old (Request.Term term moment) done.reply done.heard) }
    ensures alone { IfOk result (λ done. IsAlone done.heard) }
    ensures sents { IfOk result (λ done. done.sents ≡ []) }
    ensures said { IfOk result (λ done. M.said door.new ≡ M.said door.old ++ done.heard.answers) }
    ensures told { IfOk result (λ done. M.told door.new ≡ told_all (M.told door.old) driver done.heard.answers) }
    ensures place { M.place door.new ≡ M.place door.old }
{
    *part = None;
    let answer = ask_lead(alloc, door, driver, term)?;
    if let Some(reply) = refusal(answer.verdict) {
        return with_answer(alloc, reply, answer);
    }
    let next = opened(alloc, term, moment, &answer)?;
    let reply = Reply::Term {
        term,
        stores: next.stores.len() as u64,
        rules: next.rules.rules().len() as u64,
    };
    *part = Some(next);
    with_answer(alloc, reply, answer)
}

// Gives the term up, where there is one.
fn retire(part: &mut Option<Part>) -> Reply
    ensures reply { (driver : ℕ) (heard : Heard) → result ≡ first_reply driver part.old Request.Retire heard }
    ensures after { (heard : Heard) → part.new ≡ stepped part.old Request.Retire result heard }
{
    match part.take() {
        Some(_) => Reply::Retired,
        None => Reply::NotLeading,
    }
}

// Writes the record of a store that says hello, and then takes it in.
fn hello<M: Door>(
    alloc: Global,
    driver: u8,
    part: &mut Part,
    store: u64,
    moment: u64,
    address: &Text,
    labels: &Labels,
    door: &mut M,
) -> Result<Done, NoMemory>
    requires { Serves (M.place door.old) driver }
    ensures reply { IfOk result (λ done. done.reply ≡ term_reply driver part.old (Request.Hello store moment address.now labels.now) done.heard) }
    ensures asked { IfOk result (λ done. AreAsked (next_call (Some part.old) (Request.Hello store moment address.now labels.now) []) [] done.heard.answers) }
    ensures after { IfOk result (λ done. part.new ≡ changed_part part.old (Request.Hello store moment address.now labels.now) done.reply done.heard) }
    ensures alone { IfOk result (λ done. IsAlone done.heard) }
    ensures sents { IfOk result (λ done. done.sents ≡ []) }
    ensures said { IfOk result (λ done. M.said door.new ≡ M.said door.old ++ done.heard.answers) }
    ensures told { IfOk result (λ done. M.told door.new ≡ told_all (M.told door.old) driver done.heard.answers) }
    ensures place { M.place door.new ≡ M.place door.old }
{
    part.advance(moment);
    if let Some(reply) = hello_refusal(&part.stores, store) {
        return Ok(quiet(alloc, reply));
    }
    let rec = greeted_record(alloc, &part.stores, store, address, labels)?;
    let key = store_key(alloc, store)?;
    let text = store_text(alloc, &rec)?;
    let answer = put(alloc, door, driver, part.term, &mut part.known, key, text)?;
    if let Some(reply) = refusal(answer.verdict) {
        return with_answer(alloc, reply, answer);
    }
    greet(&mut part.stores, rec, part.began, moment)?;
    part.limits.know(store, part.clock)?;
    with_answer(alloc, Reply::StorePut, answer)
}

fn alive(part: &mut Part, store: u64, moment: u64) -> Reply
    ensures reply { result ≡ alive_reply (state_at store part.old.stores) }
    ensures after { part.new ≡ changed_part part.old (Request.Alive store moment) result nothing }
{
    part.advance(moment);
    hear(&mut part.stores, store, moment)
}

// Ends the operators of the regions that a heartbeat displaced.
fn free(operators: &mut Operators, removed: &[u64])
    ensures value { operators.new ≡ fold canceled operators.old removed.now }
{
    for region in removed {
        operators.gone(*region);
    }
}

// Dispatches an accepted heartbeat, which displaced these regions.
fn accept(
    alloc: Global,
    part: &mut Part,
    beat: &RegionBeat,
    removed: &Ids,
) -> Result<Done, NoMemory>
    ensures reply { IfOk result (λ done. done.reply ≡ Reply.Accepted (length removed.now) (dispatch_answer (fold canceled part.old.operators removed.now) beat.now part.old.stores part.old.clock)) }
    ensures heard { IfOk result (λ done. done.heard.answers ≡ []) }
    ensures after { part.new ≡ record part.old { operators = part.new.operators } }
    ensures operators { OnOk result (part.new.operators ≡ dispatched (fold canceled part.old.operators removed.now) beat.now part.old.stores part.old.clock) }
    ensures alone { IfOk result (λ done. IsAlone done.heard) }
    ensures sents { IfOk result (λ done. done.sents ≡ beat_sents done.reply beat.now) }
{
    free(&mut part.operators, removed.as_slice());
    let dispatch = part.operators.dispatch(beat, &part.stores, part.clock);
    let mut log = Log::new(alloc);
    send(&mut log.sents, beat, dispatch)?;
    let removed = removed.len() as u64;
    Ok(with_log(alloc, Reply::Accepted { removed, dispatch }, log))
}

fn beat(
    alloc: Global,
    part: &mut Part,
    store: u64,
    moment: u64,
    beat: &RegionBeat,
) -> Result<Done, NoMemory>
    ensures reply { IfOk result (λ done. done.reply ≡ beat_reply (intake_of beat.now part.old.standing) (beat_dispatch part.old moment beat.now)) }
    ensures heard { IfOk result (λ done. done.heard.answers ≡ []) }
    ensures after { IfOk result (λ done. part.new ≡ changed_part part.old (Request.Beat store moment beat.now) done.reply nothing) }
    ensures alone { IfOk result (λ done. IsAlone done.heard) }
    ensures sents { IfOk result (λ done. done.sents ≡ beat_sents done.reply beat.now) }
{
    part.advance(moment);
    match part.standing.intake(beat.copy(alloc)?)? {
        Intake::Bad(fault) => Ok(quiet(alloc, Reply::Bad(fault))),
        Intake::Stale { kept } => Ok(quiet(alloc, Reply::Stale { kept })),
        Intake::Full => Ok(quiet(alloc, Reply::Full)),
        Intake::Accepted { removed } => accept(alloc, part, beat, &removed),
    }
}

/// Serves one request over the tables. After want of memory nothing is said of them.
pub fn step<M: Door, B: Seated>(
    alloc: Global,
    driver: u8,
    part: &mut Option<Part>,
    request: &Request,
    door: &mut M,
    bench: &mut B,
) -> Result<Done, NoMemory>
    requires { Serves (M.place door.old) driver }
    ensures reply { IfOk result (λ done. done.reply ≡ first_reply driver part.old request.now done.heard) }
    ensures asked { IfOk result (λ done. AreAsked (next_call part.old request.now done.heard.bench) [] done.heard.answers) }
    ensures bench { IfOk result (λ done. HearsBench part.old request.now done.reply done.heard (B.seats bench.old) (B.seats bench.new)) }
    ensures after { IfOk result (λ done. part.new ≡ stepped part.old request.now done.reply done.heard) }
    ensures sents { IfOk result (λ done. done.sents ≡ sents_by part.old request.now done.reply done.heard) }
    ensures said { IfOk result (λ done. M.said door.new ≡ M.said door.old ++ done.heard.answers) }
    ensures told { IfOk result (λ done. M.told door.new ≡ told_all (M.told door.old) driver done.heard.answers) }
    ensures place { M.place door.new ≡ M.place door.old }
{
    match request {
        Request::Term { term, moment } => begin(alloc, driver, part, *term, *moment, door),
        Request::Retire => Ok(quiet(alloc, retire(part))),
        Request::Hello {
            store,
            moment,
            address,
            labels,
        } => match part {
            Some(held) => hello(alloc, driver, held, *store, *moment, address, labels, door),
            None => Ok(quiet(alloc, Reply::NotLeading)),
        },
        Request::Alive { store, moment } => match part {
            Some(held) => Ok(quiet(alloc, alive(held, *store, *moment))),
            None => Ok(quiet(alloc, Reply::NotLeading)),
        },
        Request::Rule { moment, json } => match part {
            Some(held) => rule(alloc, driver, held, *moment, json, door),
            None => Ok(quiet(alloc, Reply::NotLeading)),
        },
        Request::Unrule { moment, group, id } => match part {
            Some(held) => unrule(alloc, driver, held, *moment, group, id, door),
            None => Ok(quiet(alloc, Reply::NotLeading)),
        },
        Request::Beat {
            store,
            moment,
            beat: heartbeat,
        } => match part {
            Some(held) => beat(alloc, held, *store, *moment, heartbeat),
            None => Ok(quiet(alloc, Reply::NotLeading)),
        },
        Request::Check { moment, region } => match part {
            Some(held) => check_region(alloc, driver, held, *moment, *region, door),
            None => Ok(quiet(alloc, Reply::NotLeading)),
        },
        Request::Patrol { moment, workers } => match part {
            Some(held) => patrol(alloc, driver, held, *moment, *workers, door),
            None => Ok(quiet(alloc, Reply::NotLeading)),
        },
        Request::Schedule { moment } => match part {
            Some(held) => schedule(alloc, driver, held, *moment, door, bench),
            None => Ok(with_names(alloc, Reply::NotLeading, bench.names()?)),
        },
        Request::Ctl { moment, words } => ctl(alloc, driver, part, *moment, words, door, bench),
    }
}
