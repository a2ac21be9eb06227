ghost use Rattle.std.specs.Prelude.{◌≡◌, Some, codes, IfOk, OnOk, IsUtf8};
ghost use Rattle.hex.specs.Hex.{encode_lower};
ghost use Rattle.serde_json.specs.Data.{boolean, number, unsigned, string, put as with_member};
ghost use Rattle.serde_json.specs.Read.{read};
ghost use Rattle.serde_json.specs.View.{view, members_view};
ghost use Rattle.serde_json.specs.Written.{compact_text};
ghost use Rattle.rule_text.specs.Words.{role_word};
ghost use Rattle.rule_text.specs.Meaning.{texts_data, constraint_data, constraints_data, rule_data};
ghost use Rattle.rule_text.specs.Tests.{Means};
ghost use Rattle.rule_text.specs.Readable.{IsReadable};

use crate::words::{op_name, role_name};
use pd_types::{Bytes, Constraint, NoMemory, Rule, Text};
use serde_json::{Map, Value, json};
use std::alloc::Global;

fn texts(alloc: Global, items: &[Text]) -> Result<Value, NoMemory>
    ensures { IfOk result (λ v. view v ≡ texts_data items.now) }
{
    let mut values = Vec::new(alloc);
    for item in items {
        values.push(Value::try_from_str(alloc, item.as_str())?)?;
    }
    Ok(Value::Array(values))
}

fn constraint(alloc: Global, one: &Constraint) -> Result<Value, NoMemory>
    ensures { IfOk result (λ v. view v ≡ constraint_data one.now) }
{
    let values = texts(alloc, one.values.as_slice())?;
    let key = one.key.as_str();
    let op = op_name(one.op);
    Ok(json!(in alloc; {"key": key, "op": op, "values": values})?)
}

fn constraints(alloc: Global, items: &[Constraint]) -> Result<Value, NoMemory>
    ensures { IfOk result (λ v. view v ≡ constraints_data items.now) }
{
    let mut values = Vec::new(alloc);
    for item in items {
        values.push(constraint(alloc, item)?)?;
    }
    Ok(Value::Array(values))
}

fn put_text(
    members: &mut Map<String, Value>,
    alloc: Global,
    name: &str,
    text: &str,
) -> Result<(), NoMemory>
    ensures { OnOk result (members_view members.new.entries
        ≡ with_member name.now (string text.now) (members_view members.old.entries)) }
{
    let value = Value::try_from_str(alloc, text)?;
    Ok(serde_json::put(members, alloc, name, value)?)
}

fn put_number(
    members: &mut Map<String, Value>,
    alloc: Global,
    name: &str,
    of: u32,
) -> Result<(), NoMemory>
    ensures { OnOk result (members_view members.new.entries
        ≡ with_member name.now (number (unsigned of)) (members_view members.old.entries)) }
{
    Ok(serde_json::put(members, alloc, name, Value::from(of))?)
}

fn put_key(
    members: &mut Map<String, Value>,
    alloc: Global,
    name: &str,
    key: &[u8],
) -> Result<(), NoMemory>
    ensures { OnOk result (members_view members.new.entries
        ≡ with_member name.now (string (encode_lower key.now)) (members_view members.old.entries)) }
{
    let digits = hex::encode(alloc, key)?;
    put_text(members, alloc, name, digits.as_str())
}

fn put_names(members: &mut Map<String, Value>, alloc: Global, rule: &Rule) -> Result<(), NoMemory>
    ensures { OnOk result (members_view members.new.entries
        ≡ with_member (codes "role") (string (role_word rule.now.role))
        (with_member (codes "id") (string rule.now.id)
        (with_member (codes "group_id") (string rule.now.group) (members_view members.old.entries)))) }
{
    put_text(members, alloc, "group_id", rule.group.as_str())?;
    put_text(members, alloc, "id", rule.id.as_str())?;
    put_text(members, alloc, "role", role_name(rule.role))
}

fn put_range(members: &mut Map<String, Value>, alloc: Global, rule: &Rule) -> Result<(), NoMemory>
    ensures { OnOk result (members_view members.new.entries
        ≡ with_member (codes "end_key") (string (encode_lower rule.now.end))
        (with_member (codes "start_key") (string (encode_lower rule.now.start)) (members_view members.old.entries))) }
{
    put_key(members, alloc, "start_key", rule.start.as_slice())?;
    put_key(members, alloc, "end_key", rule.end.as_slice())
}

fn put_numbers(members: &mut Map<String, Value>, alloc: Global, rule: &Rule) -> Result<(), NoMemory>
    ensures { OnOk result (members_view members.new.entries
        ≡ with_member (codes "override") (boolean rule.now.overrides)
        (with_member (codes "index") (number (unsigned rule.now.index))
        (with_member (codes "count") (number (unsigned rule.now.count)) (members_view members.old.entries)))) }
{
    put_number(members, alloc, "count", rule.count)?;
    put_number(members, alloc, "index", rule.index)?;
    Ok(serde_json::put(members, alloc, "override", Value::Bool(rule.overrides))?)
}

fn put_labels(members: &mut Map<String, Value>, alloc: Global, rule: &Rule) -> Result<(), NoMemory>
    ensures { OnOk result (members_view members.new.entries
        ≡ with_member (codes "location_labels") (texts_data rule.now.locations)
        (with_member (codes "label_constraints") (constraints_data rule.now.constraints) (members_view members.old.entries))) }
{
    let constraints = constraints(alloc, rule.constraints.as_slice())?;
    serde_json::put(members, alloc, "label_constraints", constraints)?;
    let locations = texts(alloc, rule.locations.as_slice())?;
    Ok(serde_json::put(members, alloc, "location_labels", locations)?)
}

fn value_of(alloc: Global, rule: &Rule) -> Result<Value, NoMemory>
    ensures { IfOk result (λ v. view v ≡ rule_data rule.now) }
{
    let mut members = Map::new(alloc);
    put_names(&mut members, alloc, rule)?;
    put_range(&mut members, alloc, rule)?;
    put_numbers(&mut members, alloc, rule)?;
    put_labels(&mut members, alloc, rule)?;
    Ok(Value::Object(members))
}

/// The JSON text of a rule: its ten fields in byte order of their names.
#[tactic(auto, using(crate::proofs::Printed::rule_whole, crate::proofs::Printed::rule_shallow, crate::proofs::Again::printed_means))]
pub fn print_rule(alloc: Global, rule: &Rule) -> Result<Bytes, NoMemory>
    ensures text { IfOk result (λ bytes. bytes ≡ compact_text (rule_data rule.now)) }
    ensures reads_back { IfOk result (λ bytes. IsUtf8 bytes × (read bytes ≡ Some (rule_data rule.now))) }
    ensures again { IfOk result (λ bytes. IsReadable rule.now → Means bytes rule.now) }
{
    let value = value_of(alloc, rule)?;
    Ok(Bytes::of(value.to_vec(alloc)?))
}
