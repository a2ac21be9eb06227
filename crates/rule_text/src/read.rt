ghost use Rattle.std.specs.Prelude.{◌≡◌, None, codes, IfOk, IfErr};
ghost use Rattle.std.specs.List.{list_all};
ghost use Rattle.hex.specs.Hex.{decode_of};
ghost use Rattle.serde_json.specs.View.{view};
ghost use Rattle.pd_types.specs.Keys.{is_before_end};
ghost use Rattle.rule_text.specs.Meaning.{within, bytes_at, role_at, rule_of};
ghost use Rattle.rule_text.specs.Readable.{IsReadable};
ghost use Rattle.rule_text.specs.Tests.{is_count, has_op, have_ops, has_count, has_no_level, behind_keys, behind_kinds, first_failing, tests_of, IsFirst, Means, RefusedText};

use crate::RuleFault;
use crate::build::build;
use crate::fields::{items_of, number_of, text_of};
use crate::kinds::{is_missing, is_of_kind};
use crate::words::{op_of, role_of};
use pd_types::{Bytes, NoMemory, Rule, RuleRole};
use serde_json::Value;
use std::alloc::Global;

/// A key has at most this many bytes.
pub const MOST_KEY_BYTES: usize = 256;

/// The greatest count of a rule.
pub const MOST_COUNT: u32 = 15;

const _: () = prove!(MOST_KEY_BYTES == 256 && MOST_COUNT == 15);

// The bytes of a key; none where it isn't hexadecimal or too long.
fn key(alloc: Global, digits: &str) -> Result<Option<Bytes>, NoMemory>
    ensures { IfOk result (λ key. key ≡ within (decode_of digits.now)) }
{
    match hex::decode(alloc, digits) {
        Ok(bytes) => {
            if bytes.len() <= MOST_KEY_BYTES {
                Ok(Some(Bytes::of(bytes)))
            } else {
                Ok(None)
            }
        }
        Err(hex::FromHexError::OutOfMemory) => Err(NoMemory),
        Err(_) => Ok(None),
    }
}

fn are_all_known(items: &[Value]) -> bool
    ensures { result ≡ list_all (λ v. has_op (view v)) items.now }
{
    items
        .iter()
        .all(|item| op_of(text_of(item, "op")).is_some())
}

// Whether each constraint has a known operator.
#[tactic(auto, using(crate::proofs::Lists::list_all_map))]
fn have_ops(value: &Value) -> bool
    ensures { result ≡ have_ops (view value.now) }
{
    are_all_known(items_of(value, "label_constraints"))
}

fn is_count(role: RuleRole, count: u32) -> bool
    ensures { result ≡ is_count role count }
{
    match role {
        RuleRole::Leader => count == 1,
        _ => 1 <= count && count <= MOST_COUNT,
    }
}

fn is_range(start: &[u8], end: &[u8]) -> bool
    ensures { result ≡ is_before_end start.now end.now }
{
    end.is_empty() || start.cmp(end).is_lt()
}

fn has_count(value: &Value, role: RuleRole) -> bool
    requires { role ≡ role_at (view value.now) }
    ensures { result ≡ has_count (view value.now) }
{
    is_count(role, number_of(value, "count"))
}

fn has_no_level(value: &Value) -> bool
    ensures { result ≡ has_no_level (view value.now) }
{
    text_of(value, "isolation_level").is_empty()
}

// The tests behind that on the keys, and then the rule.
fn read_keyed(alloc: Global, value: &Value, start: Bytes, end: Bytes) -> Result<Rule, RuleFault>
    requires start { start ≡ bytes_at (codes "start_key") (view value.now) }
    requires end { end ≡ bytes_at (codes "end_key") (view value.now) }
    ensures rule { IfOk result (λ rule. (first_failing (behind_keys (view value.now)) ≡ None) × (rule ≡ rule_of (view value.now))) }
    ensures first { IfErr result (IsFirst (behind_keys (view value.now))) }
{
    let Some(role) = role_of(text_of(value, "role")) else {
        return Err(RuleFault::BadRole);
    };
    if !have_ops(value) {
        return Err(RuleFault::BadOp);
    }
    if !has_count(value, role) {
        return Err(RuleFault::BadCount);
    }
    if !is_range(start.as_slice(), end.as_slice()) {
        return Err(RuleFault::EmptyRange);
    }
    if !has_no_level(value) {
        return Err(RuleFault::IsolationLevel);
    }
    Ok(build(alloc, value, start, end, role)?)
}

// The tests behind that on the fields' kinds, and then the rule.
fn read_fields(alloc: Global, value: &Value) -> Result<Rule, RuleFault>
    ensures rule { IfOk result (λ rule. (first_failing (behind_kinds (view value.now)) ≡ None) × (rule ≡ rule_of (view value.now))) }
    ensures first { IfErr result (IsFirst (behind_kinds (view value.now))) }
{
    let start = key(alloc, text_of(value, "start_key"))?;
    let end = key(alloc, text_of(value, "end_key"))?;
    match (start, end) {
        (Some(start), Some(end)) => read_keyed(alloc, value, start, end),
        _ => Err(RuleFault::BadHex),
    }
}

fn read_value(alloc: Global, value: &Value) -> Result<Rule, RuleFault>
    ensures rule { IfOk result (λ rule. (first_failing (tests_of (view value.now)) ≡ None) × (rule ≡ rule_of (view value.now))) }
    ensures first { IfErr result (IsFirst (tests_of (view value.now))) }
{
    if !value.is_object() {
        return Err(RuleFault::NotObject);
    }
    if is_missing(value) {
        return Err(RuleFault::Missing);
    }
    if !is_of_kind(value) {
        return Err(RuleFault::WrongKind);
    }
    read_fields(alloc, value)
}

/// Reads a rule from its JSON text. The first failing test of `RuleFault` is answered.
pub fn read_rule(alloc: Global, bytes: &[u8]) -> Result<Rule, RuleFault>
    ensures rule { IfOk result (Means bytes.now) }
    ensures readable { IfOk result IsReadable }
    ensures refused { IfErr result (RefusedText bytes.now) }
{
    match Value::from_slice(alloc, bytes) {
        Ok(value) => read_value(alloc, &value),
        Err(error) if error.is_memory() => Err(RuleFault::NoMemory),
        Err(_) => Err(RuleFault::NotJson),
    }
}
