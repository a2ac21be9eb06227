// The commands of pd-ctl that change a cluster.
ghost use Rattle.std.specs.Prelude.{◌≡◌, ◌≤◌, ℕ, List, [], IfOk, Option};
ghost use Rattle.meta_store.specs.declared.record.MetaAnswer.{MetaAnswer};
ghost use Rattle.meta_store.specs.declared.record.MetaEntry.{MetaEntry};
ghost use Rattle.meta_store.specs.Doors.{Serves};
ghost use Rattle.op_control.specs.Table.{active_at};
ghost use Rattle.pd_ctl.specs.Trees.{fault_tree};
ghost use Rattle.store_limit.specs.declared.bucket.TheConstants.{MAX_RATE};
ghost use Rattle.store_table.specs.Entries.{entry_at};
ghost use Rattle.pd_state.specs.Adding.{around_of, planning_of, replanned};
ghost use Rattle.pd_state.specs.Asking.{ear};
ghost use Rattle.pd_state.specs.Checking.{Does};
ghost use Rattle.pd_state.specs.Ctl.{HasRate, add_by_hand, admin, command_done, delete_found, deletion, limit_found, offline, remove_found};
ghost use Rattle.pd_state.specs.Heard.{IsAlone};
ghost use Rattle.pd_state.specs.ReplyText.{reply_text};
ghost use Rattle.pd_state.specs.Reports.{reported};
ghost use Rattle.pd_state.specs.Steps.{rewritten};

use crate::ctl_reports::{added, done, fault};
use crate::heard::{Done, quiet, with_answer, with_log};
use crate::planning::Log;
use crate::wishing::{Asker, steps_in, try_wished, wished};
use crate::write::{put, refusal};
use crate::{Part, Reply};
use meta_store::{Door, store_key, store_text};
use op_step::Wish;
use pd_ctl::Command;
use pd_types::{Bytes, Duplicate, NoMemory, StoreRec, StoreState, Text};
use std::alloc::Global;
use store_limit::LimitKind;
use store_table::Stores;

/// The priority of an operator that is asked for by pd-ctl: above the checker's and a scheduler's.
pub const ADMIN_PRIORITY: u8 = 3;

// Whoever asks by pd-ctl.
fn admin(alloc: Global) -> Result<Asker, NoMemory>
    ensures value { IfOk result (λ asker. asker ≡ admin) }
{
    Ok(Asker {
        kind: Text::of(String::from_str(alloc, "admin")?),
        priority: ADMIN_PRIORITY,
    })
}

// The record, Offline.
fn offline(alloc: Global, rec: &StoreRec) -> Result<StoreRec, NoMemory>
    ensures value { IfOk result (λ copy. copy ≡ offline rec.now) }
{
    Ok(StoreRec {
        id: rec.id,
        address: rec.address.copy(alloc)?,
        labels: rec.labels.copy(alloc)?,
        state: StoreState::Offline,
    })
}

// The record that the deletion of a store writes, or what refuses it before the metadata is asked.
fn deletion(alloc: Global, stores: &Stores, id: u64) -> Result<Result<StoreRec, Reply>, NoMemory>
    ensures value { IfOk result (λ found. found ≡ deletion (entry_at id stores.now)) }
{
    let Some(rec) = stores.get(id) else {
        return Ok(Err(fault(alloc, "unknown-store")?));
    };
    match rec.state {
        StoreState::Up | StoreState::Offline => Ok(Ok(offline(alloc, rec)?)),
        StoreState::Tombstone => Ok(Err(fault(alloc, "tombstone")?)),
    }
}

// The report of a refused write: the text of the reply that a request gives it.
fn refused(alloc: Global, reply: &Reply) -> Result<Reply, NoMemory>
    ensures value { IfOk result (λ told. told ≡ reported (fault_tree (reply_text reply.now))) }
{
    let text = reply.to_string(alloc)?;
    fault(alloc, text.as_str())
}

// Makes a store Offline; its record is written first.
fn delete<M: Door>(
    alloc: Global,
    driver: u8,
    part: &mut Part,
    id: u64,
    door: &mut M,
) -> Result<Done, NoMemory>
    requires serves { Serves (M.place door.old) driver }
    ensures does { IfOk result (λ done. Does (delete_found (entry_at id part.old.stores) (around_of part.old) (planning_of part.old)) (planning_of part.new) part.new.stores done driver (ear [] part.old.known (M.said door.old) (M.told door.old)) (ear done.heard.answers part.new.known (M.said door.new) (M.told door.new))) }
    ensures alone { IfOk result (λ done. IsAlone done.heard) }
    ensures rest { part.new ≡ record part.old { stores = part.new.stores; known = part.new.known } }
    ensures place { M.place door.new ≡ M.place door.old }
{
    let rec = match deletion(alloc, &part.stores, id)? {
        Ok(rec) => rec,
        Err(reply) => return Ok(quiet(alloc, reply)),
    };
    let id = rec.id;
    let key = store_key(alloc, id)?;
    let text = store_text(alloc, &rec)?;
    let answer = put(alloc, door, driver, part.term, &mut part.known, key, text)?;
    if let Some(reply) = refusal(answer.verdict) {
        let told = refused(alloc, &reply)?;
        return with_answer(alloc, told, answer);
    }
    let Ok(()) = part.stores.delete(id) else {
        unreachable!()
    };
    with_answer(alloc, done(alloc, "Offline")?, answer)
}

// Sets the rate of a store's limit.
fn limit(
    alloc: Global,
    part: &mut Part,
    id: u64,
    rate: u64,
    kind: LimitKind,
) -> Result<Done, NoMemory>
    requires { rate ≤ MAX_RATE }
    ensures does { IfOk result (λ done. (driver : ℕ) (said : List MetaAnswer) (told : Option (List MetaEntry)) → Does (limit_found (entry_at id part.old.stores) (around_of part.old) (planning_of part.old) id rate kind) (planning_of part.new) part.new.stores done driver (ear [] part.old.known said told) (ear done.heard.answers part.new.known said told)) }
    ensures alone { IfOk result (λ done. IsAlone done.heard) }
    ensures rest { part.new ≡ record part.old { limits = part.new.limits } }
{
    if part.stores.get(id).is_none() {
        return Ok(quiet(alloc, fault(alloc, "unknown-store")?));
    }
    part.limits.set_rate(id, kind, rate, part.clock);
    Ok(quiet(alloc, done(alloc, "Limit")?))
}

// Tries an operator by hand.
fn add<M: Door>(
    alloc: Global,
    driver: u8,
    part: &mut Part,
    region: u64,
    wish: &Wish,
    door: &mut M,
) -> Result<Done, NoMemory>
    requires serves { Serves (M.place door.old) driver }
    ensures does { IfOk result (λ done. Does (add_by_hand (around_of part.old) (planning_of part.old) region wish.now) (planning_of part.new) part.new.stores done driver (ear [] part.old.known (M.said door.old) (M.told door.old)) (ear done.heard.answers part.new.known (M.said door.new) (M.told door.new))) }
    ensures alone { IfOk result (λ done. IsAlone done.heard) }
    ensures rest { part.new ≡ replanned part.old (planning_of part.new) part.new.known }
    ensures place { M.place door.new ≡ M.place door.old }
{
    let asker = admin(alloc)?;
    let found = wished(alloc, part, region, wish)?;
    let mut log = Log::new(alloc);
    let adding = try_wished(alloc, driver, part, asker, &found, &mut log, door)?;
    let reply = added(alloc, steps_in(&found), adding)?;
    Ok(with_log(alloc, reply, log))
}

// Cancels a region's operator.
fn remove(alloc: Global, part: &mut Part, region: u64) -> Result<Done, NoMemory>
    ensures does { IfOk result (λ done. (driver : ℕ) (said : List MetaAnswer) (told : Option (List MetaEntry)) → Does (remove_found (active_at part.old.operators region) (around_of part.old) (planning_of part.old) region) (planning_of part.new) part.new.stores done driver (ear [] part.old.known said told) (ear done.heard.answers part.new.known said told)) }
    ensures alone { IfOk result (λ done. IsAlone done.heard) }
    ensures rest { part.new ≡ record part.old { operators = part.new.operators } }
{
    let reply = match part.operators.remove(region) {
        Ok(()) => done(alloc, "Canceled")?,
        Err(_) => fault(alloc, "absent")?,
    };
    Ok(quiet(alloc, reply))
}

/// Carries out a command that changes the tables. One that leaves them does nothing here; its report
/// is `command_report`'s.
pub fn change<M: Door>(
    alloc: Global,
    driver: u8,
    part: &mut Part,
    command: &Command,
    door: &mut M,
) -> Result<Done, NoMemory>
    requires serves { Serves (M.place door.old) driver }
    requires rate { HasRate command.now }
    ensures does { IfOk result (λ done. Does (command_done (around_of part.old) (planning_of part.old) command.now) (planning_of part.new) part.new.stores done driver (ear [] part.old.known (M.said door.old) (M.told door.old)) (ear done.heard.answers part.new.known (M.said door.new) (M.told door.new))) }
    ensures alone { IfOk result (λ done. IsAlone done.heard) }
    ensures rest { part.new ≡ rewritten part.old part.new }
    ensures place { M.place door.new ≡ M.place door.old }
{
    match command {
        Command::StoreDelete { id } => delete(alloc, driver, part, *id, door),
        Command::StoreLimit { id, rate, kind } => limit(alloc, part, *id, *rate, *kind),
        Command::OperatorAdd { region, wish } => add(alloc, driver, part, *region, wish, door),
        Command::OperatorRemove { region } => remove(alloc, part, *region),
        Command::Stores
        | Command::Store { .. }
        | Command::Region { .. }
        | Command::RegionKey { .. }
        | Command::OperatorShow
        | Command::OperatorCheck { .. }
        | Command::SchedulerShow
        | Command::SchedulerRemove { .. }
        | Command::LeaderShow
        | Command::LeaderResign
        | Command::Tso { .. } => {
            let json = Bytes::new(alloc);
            Ok(quiet(alloc, Reply::Report { json }))
        }
    }
}
