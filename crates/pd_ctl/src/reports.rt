// The reports of the commands that only read.
ghost use Rattle.std.specs.Prelude.{◌≡◌, ◌<◌, ◌+◌, true, Some, IfOk, OnOk, IsSomeAnd, length, map, take, find, nat_eq};
ghost use Rattle.std.specs.List.{filter_map};
ghost use Rattle.std.specs.Option.{option_copied};
ghost use Rattle.serde_json.specs.Data.{array};
ghost use Rattle.serde_json.specs.View.{view, items_of};
ghost use Rattle.serde_json.specs.Written.{compact_text};
ghost use Rattle.region_tree.specs.Ranges.{holds};
ghost use Rattle.store_table.specs.Entries.{entry_at};
ghost use Rattle.op_control.specs.Table.{active_at, state_of, IsListed};
ghost use Rattle.pd_ctl.specs.Reports.{check_report, entry_tree, leader_report, only_reads, operators_report, region_report, report_of, schedulers_report, shown, store_report, stores_report, tso_report};
ghost use Rattle.pd_ctl.specs.Trees.{operator_tree};

use crate::{Command, Parts, trees};
use heartbeat::Standing;
use op_control::{OpState, Operators};
use pd_types::{Bytes, NoMemory, RegionBeat, Texts, unpack};
use serde_json::{Value, json};
use std::alloc::Global;
use store_table::Stores;

// One store, by its id.
fn store(
    alloc: Global,
    stores: &Stores,
    standing: &Standing,
    now: u64,
    id: u64,
) -> Result<Value, NoMemory>
    ensures { IfOk result (λ v. view v ≡ store_report (entry_at id stores.now) standing.now now) }
{
    let Some(rec) = stores.get(id) else {
        return trees::fault(alloc, "unknown-store");
    };
    let Some(name) = stores.state_name(id, now) else {
        return trees::fault(alloc, "unknown-store");
    };
    trees::store(alloc, rec, name, standing)
}

// Adds the store at a place.
fn push_store(
    alloc: Global,
    values: &mut Vec<Value>,
    stores: &Stores,
    standing: &Standing,
    now: u64,
    place: usize,
) -> Result<(), NoMemory>
    requires { place < length stores.now }
    ensures { OnOk result (map view values.old.items ≡ map (entry_tree standing.now now) (take place stores.now) → map view values.new.items ≡ map (entry_tree standing.now now) (take (place + 1) stores.now)) }
{
    let Some(rec) = stores.at(place) else {
        unreachable!()
    };
    values.push(store(alloc, stores, standing, now, rec.id)?)?;
    Ok(())
}

// All stores, by rising id.
fn store_list(
    alloc: Global,
    stores: &Stores,
    standing: &Standing,
    now: u64,
) -> Result<Value, NoMemory>
    ensures { IfOk result (λ v. view v ≡ array (items_of (map (entry_tree standing.now now) stores.now))) }
{
    let mut values = Vec::new(alloc);
    for place in 0..stores.len() {
        push_store(alloc, &mut values, stores, standing, now, place)?;
    }
    Ok(Value::Array(values))
}

fn stores(alloc: Global, stores: &Stores, standing: &Standing, now: u64) -> Result<Value, NoMemory>
    ensures { IfOk result (λ v. view v ≡ stores_report stores.now standing.now now) }
{
    let list = store_list(alloc, stores, standing, now)?;
    let count = stores.len();
    Ok(json!(in alloc; {"count": count, "stores": list})?)
}

fn region(alloc: Global, held: Option<&RegionBeat>) -> Result<Value, NoMemory>
    ensures { IfOk result (λ v. view v ≡ region_report (option_copied held.entry)) }
{
    match held {
        Some(beat) => trees::region(alloc, beat),
        None => trees::fault(alloc, "no-region"),
    }
}

fn region_by_id(alloc: Global, standing: &Standing, id: u64) -> Result<Value, NoMemory>
    ensures { IfOk result (λ v. view v ≡ region_report (find (λ beat. nat_eq beat.region.id id) standing.now)) }
{
    region(alloc, standing.regions().by_id(id))
}

fn region_by_key(alloc: Global, standing: &Standing, key: &Bytes) -> Result<Value, NoMemory>
    ensures { IfOk result (λ v. view v ≡ region_report (find (λ beat. holds beat key.now) standing.now)) }
{
    region(alloc, standing.regions().by_key(key.as_slice()))
}

// Adds the operator at a place.
fn push_operator(
    alloc: Global,
    values: &mut Vec<Value>,
    operators: &Operators,
    place: usize,
) -> Result<(), NoMemory>
    requires listed { IsListed operators.now }
    requires place { place < length operators.now.busy }
    ensures { OnOk result (map view values.old.items ≡ map operator_tree (filter_map (active_at operators.now) (take place operators.now.busy)) → map view values.new.items ≡ map operator_tree (filter_map (active_at operators.now) (take (place + 1) operators.now.busy))) }
{
    let Some(op) = operators.at(place) else {
        unreachable!()
    };
    values.push(trees::operator(alloc, op)?)?;
    Ok(())
}

// The operators that haven't ended, by rising region.
fn operator_list(alloc: Global, operators: &Operators) -> Result<Value, NoMemory>
    ensures { IfOk result (λ v. view v ≡ array (items_of (map operator_tree (shown operators.now)))) }
{
    let mut values = Vec::new(alloc);
    for place in 0..operators.busy().len() {
        push_operator(alloc, &mut values, operators, place)?;
    }
    Ok(Value::Array(values))
}

fn operators(alloc: Global, operators: &Operators) -> Result<Value, NoMemory>
    ensures { IfOk result (λ v. view v ≡ operators_report operators.now) }
{
    let list = operator_list(alloc, operators)?;
    Ok(json!(in alloc; {"operators": list})?)
}

fn check(alloc: Global, region: u64, state: Option<OpState>) -> Result<Value, NoMemory>
    ensures { IfOk result (λ v. view v ≡ check_report region state) }
{
    let Some(state) = state else {
        return trees::fault(alloc, "absent");
    };
    let state = state.name();
    Ok(json!(in alloc; {"region": region, "state": state})?)
}

fn schedulers(alloc: Global, names: &Texts) -> Result<Value, NoMemory>
    ensures { IfOk result (λ v. view v ≡ schedulers_report names.now) }
{
    let list = trees::texts(alloc, names.as_slice())?;
    Ok(json!(in alloc; {"schedulers": list})?)
}

fn leader(alloc: Global, driver: u8, term: u64) -> Result<Value, NoMemory>
    ensures { IfOk result (λ v. view v ≡ leader_report driver term) }
{
    Ok(json!(in alloc; {"driver": driver, "term": term})?)
}

fn tso(alloc: Global, ts: u64) -> Result<Value, NoMemory>
    ensures { IfOk result (λ v. view v ≡ tso_report ts) }
{
    let (physical, logical) = unpack(ts);
    Ok(json!(in alloc; {"logical": logical, "physical": physical})?)
}

// The report as a JSON value.
fn value(alloc: Global, command: &Command, parts: &Parts) -> Result<Value, NoMemory>
    requires { only_reads command.now ≡ true }
    ensures { IfOk result (λ v. report_of command.now parts.now ≡ Some (view v)) }
{
    match command {
        Command::Stores => stores(alloc, parts.stores, parts.standing, parts.clock),
        Command::Store { id } => store(alloc, parts.stores, parts.standing, parts.clock, *id),
        Command::Region { id } => region_by_id(alloc, parts.standing, *id),
        Command::RegionKey { key } => region_by_key(alloc, parts.standing, key),
        Command::OperatorShow => operators(alloc, parts.operators),
        Command::OperatorCheck { region } => check(alloc, *region, parts.operators.state(*region)),
        Command::SchedulerShow => schedulers(alloc, parts.names),
        Command::LeaderShow => leader(alloc, parts.driver, parts.term),
        Command::Tso { ts } => tso(alloc, *ts),
        Command::StoreDelete { .. }
        | Command::StoreLimit { .. }
        | Command::OperatorAdd { .. }
        | Command::OperatorRemove { .. }
        | Command::SchedulerRemove { .. }
        | Command::LeaderResign => unreachable!(),
    }
}

/// The report of a command that only reads, in one line of compact JSON. What isn't there is told as
/// `{"fault":TEXT}`: `unknown-store`, `no-region`, `absent`.
#[tactic(auto, using(crate::proofs::Whole::report_whole))]
pub fn report(alloc: Global, command: &Command, parts: &Parts) -> Result<Bytes, NoMemory>
    requires { only_reads command.now ≡ true }
    ensures text { IfOk result (λ bytes. IsSomeAnd (report_of command.now parts.now) (λ tree. bytes ≡ compact_text tree)) }
{
    let value = value(alloc, command, parts)?;
    Ok(Bytes::of(value.to_vec(alloc)?))
}
