// The JSON values of which a report is made.
ghost use Rattle.std.specs.Prelude.{◌≡◌, IfOk, OnOk, codes, map};
ghost use Rattle.hex.specs.Hex.{encode_lower};
ghost use Rattle.heartbeat.specs.Counts.{leader_count, region_count};
ghost use Rattle.serde_json.specs.Data.{string, array, put as with_member};
ghost use Rattle.serde_json.specs.View.{view, items_of, members_view};
ghost use Rattle.store_table.specs.StateText.{state_text};
ghost use Rattle.pd_ctl.specs.Trees.{count, fault_tree, label_tree, operator_tree, peer_tree, region_tree, role_text, step_tree, store_tree};
ghost use Rattle.op_control.specs.StateText.{op_state_text};

use crate::members::{put_count, put_key, put_text};
use heartbeat::Standing;
use op_control::Operator;
use pd_types::{Epoch, Label, NoMemory, Peer, Region, RegionBeat, Role, Step, StoreRec, Text};
use serde_json::{Map, Value, json, put};
use std::alloc::Global;
use store_table::StateName;

fn label(alloc: Global, label: &Label) -> Result<Value, NoMemory>
    ensures { IfOk result (λ v. view v ≡ label_tree label.now) }
{
    let key = label.key.as_str();
    let value = label.value.as_str();
    Ok(json!(in alloc; {"key": key, "value": value})?)
}

fn labels(alloc: Global, items: &[Label]) -> Result<Value, NoMemory>
    ensures { IfOk result (λ v. view v ≡ array (items_of (map label_tree items.now))) }
{
    let mut values = Vec::new(alloc);
    for item in items {
        values.push(label(alloc, item)?)?;
    }
    Ok(Value::Array(values))
}

fn put_store(
    members: &mut Map<String, Value>,
    alloc: Global,
    store: &StoreRec,
) -> Result<(), NoMemory>
    ensures { OnOk result (members_view members.new.entries
        ≡ with_member (codes "labels") (array (items_of (map label_tree store.now.labels)))
        (with_member (codes "id") (count store.now.id)
        (with_member (codes "address") (string store.now.address) (members_view members.old.entries)))) }
{
    put_text(members, alloc, "address", store.address.as_str())?;
    put_count(members, alloc, "id", store.id)?;
    let labels = labels(alloc, store.labels.as_slice())?;
    Ok(put(members, alloc, "labels", labels)?)
}

fn put_counts(
    members: &mut Map<String, Value>,
    alloc: Global,
    id: u64,
    standing: &Standing,
) -> Result<(), NoMemory>
    ensures { OnOk result (members_view members.new.entries
        ≡ with_member (codes "region_count") (count (region_count id standing.now))
        (with_member (codes "leader_count") (count (leader_count id standing.now)) (members_view members.old.entries))) }
{
    put_count(members, alloc, "leader_count", standing.leader_count(id))?;
    put_count(members, alloc, "region_count", standing.region_count(id))
}

fn put_state(
    members: &mut Map<String, Value>,
    alloc: Global,
    name: StateName,
) -> Result<(), NoMemory>
    ensures { OnOk result (members_view members.new.entries
        ≡ with_member (codes "state_name") (string (state_text name)) (members_view members.old.entries)) }
{
    let state = name.to_string(alloc)?;
    put_text(members, alloc, "state_name", state.as_str())
}

/// A store with the numbers of its regions and leaders, by the name of its state.
pub fn store(
    alloc: Global,
    store: &StoreRec,
    name: StateName,
    standing: &Standing,
) -> Result<Value, NoMemory>
    ensures { IfOk result (λ v. view v ≡ store_tree store.now name standing.now) }
{
    let mut members = Map::new(alloc);
    put_store(&mut members, alloc, store)?;
    put_counts(&mut members, alloc, store.id, standing)?;
    put_state(&mut members, alloc, name)?;
    Ok(Value::Object(members))
}

fn role_name(role: Role) -> &'static str
    ensures { result.now ≡ role_text role }
{
    match role {
        Role::Voter => "Voter",
        Role::Learner => "Learner",
        Role::Incoming => "IncomingVoter",
        Role::Demoting => "DemotingVoter",
    }
}

fn peer(alloc: Global, peer: &Peer) -> Result<Value, NoMemory>
    ensures { IfOk result (λ v. view v ≡ peer_tree peer.now) }
{
    let id = peer.id;
    let role = role_name(peer.role);
    let store = peer.store;
    Ok(json!(in alloc; {"id": id, "role": role, "store_id": store})?)
}

fn peers(alloc: Global, items: &[Peer]) -> Result<Value, NoMemory>
    ensures { IfOk result (λ v. view v ≡ array (items_of (map peer_tree items.now))) }
{
    let mut values = Vec::new(alloc);
    for item in items {
        values.push(peer(alloc, item)?)?;
    }
    Ok(Value::Array(values))
}

fn put_epoch(members: &mut Map<String, Value>, alloc: Global, epoch: Epoch) -> Result<(), NoMemory>
    ensures { OnOk result (members_view members.new.entries
        ≡ with_member (codes "version") (count epoch.version)
        (with_member (codes "conf_ver") (count epoch.conf_ver) (members_view members.old.entries))) }
{
    put_count(members, alloc, "conf_ver", epoch.conf_ver)?;
    put_count(members, alloc, "version", epoch.version)
}

fn put_range(
    members: &mut Map<String, Value>,
    alloc: Global,
    region: &Region,
) -> Result<(), NoMemory>
    ensures { OnOk result (members_view members.new.entries
        ≡ with_member (codes "start_key") (string (encode_lower region.now.start))
        (with_member (codes "end_key") (string (encode_lower region.now.end)) (members_view members.old.entries))) }
{
    put_key(members, alloc, "end_key", region.end.as_slice())?;
    put_key(members, alloc, "start_key", region.start.as_slice())
}

fn put_peers(
    members: &mut Map<String, Value>,
    alloc: Global,
    beat: &RegionBeat,
) -> Result<(), NoMemory>
    ensures { OnOk result (members_view members.new.entries
        ≡ with_member (codes "peers") (array (items_of (map peer_tree beat.now.region.peers)))
        (with_member (codes "leader") (count beat.now.leader)
        (with_member (codes "id") (count beat.now.region.id) (members_view members.old.entries)))) }
{
    put_count(members, alloc, "id", beat.region.id)?;
    put_count(members, alloc, "leader", beat.leader)?;
    let peers = peers(alloc, beat.region.peers.as_slice())?;
    Ok(put(members, alloc, "peers", peers)?)
}

/// A region.
pub fn region(alloc: Global, beat: &RegionBeat) -> Result<Value, NoMemory>
    ensures { IfOk result (λ v. view v ≡ region_tree beat.now) }
{
    let mut members = Map::new(alloc);
    put_epoch(&mut members, alloc, beat.region.epoch)?;
    put_range(&mut members, alloc, &beat.region)?;
    put_peers(&mut members, alloc, beat)?;
    Ok(Value::Object(members))
}

fn step(alloc: Global, step: &Step) -> Result<Value, NoMemory>
    ensures { IfOk result (λ v. view v ≡ step_tree step.now) }
{
    Ok(Value::String(step.to_string(alloc)?))
}

fn steps(alloc: Global, items: &[Step]) -> Result<Value, NoMemory>
    ensures { IfOk result (λ v. view v ≡ array (items_of (map step_tree items.now))) }
{
    let mut values = Vec::new(alloc);
    for item in items {
        values.push(step(alloc, item)?)?;
    }
    Ok(Value::Array(values))
}

fn put_names(members: &mut Map<String, Value>, alloc: Global, op: &Operator) -> Result<(), NoMemory>
    ensures { OnOk result (members_view members.new.entries
        ≡ with_member (codes "state") (string (op_state_text op.now.state))
        (with_member (codes "region") (count op.now.region)
        (with_member (codes "kind") (string op.now.kind) (members_view members.old.entries)))) }
{
    put_text(members, alloc, "kind", op.kind.as_str())?;
    put_count(members, alloc, "region", op.region)?;
    put_text(members, alloc, "state", op.state.name())
}

fn put_steps(members: &mut Map<String, Value>, alloc: Global, op: &Operator) -> Result<(), NoMemory>
    ensures { OnOk result (members_view members.new.entries
        ≡ with_member (codes "steps") (array (items_of (map step_tree op.now.steps)))
        (with_member (codes "step") (count op.now.passed) (members_view members.old.entries))) }
{
    put_count(members, alloc, "step", op.passed as u64)?;
    let steps = steps(alloc, op.steps.as_slice())?;
    Ok(put(members, alloc, "steps", steps)?)
}

/// An operator.
pub fn operator(alloc: Global, op: &Operator) -> Result<Value, NoMemory>
    ensures { IfOk result (λ v. view v ≡ operator_tree op.now) }
{
    let mut members = Map::new(alloc);
    put_names(&mut members, alloc, op)?;
    put_steps(&mut members, alloc, op)?;
    Ok(Value::Object(members))
}

/// A list of texts.
pub fn texts(alloc: Global, items: &[Text]) -> Result<Value, NoMemory>
    ensures { IfOk result (λ v. view v ≡ array (items_of (map string items.now))) }
{
    let mut values = Vec::new(alloc);
    for item in items {
        values.push(Value::try_from_str(alloc, item.as_str())?)?;
    }
    Ok(Value::Array(values))
}

/// A fault by its text.
pub fn fault(alloc: Global, text: &str) -> Result<Value, NoMemory>
    ensures { IfOk result (λ v. view v ≡ fault_tree text.now) }
{
    Ok(json!(in alloc; {"fault": text})?)
}
