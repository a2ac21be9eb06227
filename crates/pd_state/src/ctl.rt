// The request that carries out a command of pd-ctl.
ghost use Rattle.std.specs.Prelude.{◌≡◌, ◌++◌, [], None, Ok, IfOk, if◌then◌else◌};
ghost use Rattle.meta_store.specs.Asked.{AreAsked};
ghost use Rattle.meta_store.specs.Doors.{Serves};
ghost use Rattle.sched_api.specs.Benches.{names_of};
ghost use Rattle.pd_state.specs.Adding.{planning_of};
ghost use Rattle.pd_state.specs.Asking.{ear};
ghost use Rattle.pd_state.specs.BenchHeard.{Leaves, dropped, dropped_by, names_by, names_heard};
ghost use Rattle.pd_state.specs.Calls.{next_call};
ghost use Rattle.pd_state.specs.Ctl.{Carries, HasRate, HaveRate, resigns_by};
ghost use Rattle.pd_state.specs.Heard.{told_all};
ghost use Rattle.pd_state.specs.Legal.{first_reply, sents_by};
ghost use Rattle.pd_state.specs.Steps.{rewritten, stepped};

use crate::ctl_changes::change;
use crate::ctl_reports::{command_report, fault_report, read_words};
use crate::heard::{Done, Heard, with_names};
use crate::{Part, Reply};
use meta_store::Door;
use pd_ctl::{Command, CtlFault};
use pd_types::{Bytes, NoMemory, Request, Texts};
use sched_api::Seated;
use std::alloc::Global;

// Whether a command is about schedulers.
fn asks_names(told: &Result<Command, CtlFault>) -> bool
    ensures { result ≡ names_by told.now }
{
    matches!(
        told,
        Ok(Command::SchedulerShow | Command::SchedulerRemove { .. })
    )
}

// The names of the schedulers, where the command is about them.
#[tactic(auto, using(crate::proofs::Removals::names_asked, crate::proofs::Removals::names_unasked))]
fn names_for<B: Seated>(
    alloc: Global,
    told: &Result<Command, CtlFault>,
    bench: &B,
) -> Result<Texts, NoMemory>
    ensures value { IfOk result (λ names. names ≡ (if names_by told.now then names_of (B.seats bench.now) else [])) }
{
    if asks_names(told) {
        bench.names()
    } else {
        Ok(Texts::new(alloc))
    }
}

// Takes a scheduler out of the bench, where the command says so and there is one of that name.
fn drop_named<B: Seated>(told: &Result<Command, CtlFault>, bench: &mut B)
    ensures becomes { Leaves (dropped_by told.now (names_of (B.seats bench.old))) (B.seats bench.old) (B.seats bench.new) }
{
    let Ok(command) = told else {
        return;
    };
    let Command::SchedulerRemove { name } = command else {
        return;
    };
    let _ = bench.remove(name.as_bytes());
}

// Reports on the tables, or changes them.
fn obey<M: Door>(
    alloc: Global,
    driver: u8,
    part: &mut Part,
    names: Texts,
    command: &Command,
    door: &mut M,
) -> Result<Done, NoMemory>
    requires serves { Serves (M.place door.old) driver }
    requires rate { HasRate command.now }
    ensures does { IfOk result (λ done. Carries driver part.old names (Ok command.now) (planning_of part.new) part.new.stores done (ear [] part.old.known (M.said door.old) (M.told door.old)) (ear done.heard.answers part.new.known (M.said door.new) (M.told door.new))) }
    ensures heard { IfOk result (λ done. (done.heard.bench ≡ []) × (done.heard.names ≡ names)) }
    ensures rest { part.new ≡ rewritten part.old part.new }
    ensures place { M.place door.new ≡ M.place door.old }
{
    let report = command_report(alloc, driver, part, &names, command)?;
    if let Some(reply) = report {
        return Ok(with_names(alloc, reply, names));
    }
    let Done {
        reply,
        heard,
        sents,
    } = change(alloc, driver, part, command, door)?;
    let Heard { answers, bench, .. } = heard;
    let heard = Heard {
        answers,
        bench,
        names,
    };
    Ok(Done {
        reply,
        heard,
        sents,
    })
}

// The same of words, which may be no command.
fn carry_out<M: Door>(
    alloc: Global,
    driver: u8,
    part: &mut Part,
    names: Texts,
    told: &Result<Command, CtlFault>,
    door: &mut M,
) -> Result<Done, NoMemory>
    requires serves { Serves (M.place door.old) driver }
    requires rate { HaveRate told.now }
    ensures does { IfOk result (λ done. Carries driver part.old names told.now (planning_of part.new) part.new.stores done (ear [] part.old.known (M.said door.old) (M.told door.old)) (ear done.heard.answers part.new.known (M.said door.new) (M.told door.new))) }
    ensures heard { IfOk result (λ done. (done.heard.bench ≡ []) × (done.heard.names ≡ names)) }
    ensures rest { part.new ≡ rewritten part.old part.new }
    ensures place { M.place door.new ≡ M.place door.old }
{
    match told {
        Ok(command) => obey(alloc, driver, part, names, command, door),
        Err(why) => {
            let reply = fault_report(alloc, *why)?;
            Ok(with_names(alloc, reply, names))
        }
    }
}

// Whether a command gives the term up.
fn resigns(told: &Result<Command, CtlFault>) -> bool
    ensures { result ≡ resigns_by told.now }
{
    matches!(told, Ok(Command::LeaderResign))
}

// Gives the term up, where the command says so.
#[tactic(auto, using(crate::proofs::Removals::term_kept, crate::proofs::Removals::term_given))]
fn resign(told: &Result<Command, CtlFault>, part: &mut Option<Part>)
    ensures after { part.new ≡ (if resigns_by told.now then None else part.old) }
{
    if !resigns(told) {
        return;
    }
    *part = None;
}

/// Carries out the command that these words are, and reports what it did, or what it found.
pub fn ctl<M: Door, B: Seated>(
    alloc: Global,
    driver: u8,
    part: &mut Option<Part>,
    moment: u64,
    words: &Bytes,
    door: &mut M,
    bench: &mut B,
) -> Result<Done, NoMemory>
    requires { Serves (M.place door.old) driver }
    ensures reply { IfOk result (λ done. done.reply ≡ first_reply driver part.old (Request.Ctl moment words.now) done.heard) }
    ensures asked { IfOk result (λ done. AreAsked (next_call part.old (Request.Ctl moment words.now) done.heard.bench) [] done.heard.answers) }
    ensures silent { IfOk result (λ done. done.heard.bench ≡ []) }
    ensures names { IfOk result (λ done. done.heard.names ≡ names_heard (Request.Ctl moment words.now) (names_of (B.seats bench.old))) }
    ensures becomes { IfOk result (λ done. Leaves (dropped part.old (Request.Ctl moment words.now) done.heard.names) (B.seats bench.old) (B.seats bench.new)) }
    ensures after { IfOk result (λ done. part.new ≡ stepped part.old (Request.Ctl moment words.now) done.reply done.heard) }
    ensures sents { IfOk result (λ done. done.sents ≡ sents_by part.old (Request.Ctl moment words.now) done.reply done.heard) }
    ensures said { IfOk result (λ done. M.said door.new ≡ M.said door.old ++ done.heard.answers) }
    ensures told { IfOk result (λ done. M.told door.new ≡ told_all (M.told door.old) driver done.heard.answers) }
    ensures place { M.place door.new ≡ M.place door.old }
{
    let told = read_words(alloc, words)?;
    let names = names_for(alloc, &told, bench)?;
    let Some(held) = part else {
        return Ok(with_names(alloc, Reply::NotLeading, names));
    };
    held.advance(moment);
    let done = carry_out(alloc, driver, held, names, &told, door)?;
    drop_named(&told, bench);
    resign(&told, part);
    Ok(done)
}
