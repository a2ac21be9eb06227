ghost use Rattle.std.specs.Prelude.{◌≡◌};
ghost use Rattle.std.specs.List.{list_all, list_any};
ghost use Rattle.serde_json.specs.Find.{get};
ghost use Rattle.rule_text.specs.Fields.{given, list_in};
ghost use Rattle.serde_json.specs.View.{view};
ghost use Rattle.rule_text.specs.Tests.{has, lacks_word, is_missing, is_number, is_name, are_texts, passes, may_pass, is_text, is_constraint, are_constraints, are_few, are_labels, is_truth, are_needed, are_optional, is_of_kind};

use crate::fields::{items_of, list, optional};
use pd_types::MAX_LOCATIONS;
use serde_json::Value;

/// How many bytes the group or the id of a rule has at most.
pub const MOST_NAME_BYTES: usize = 64;

const _: () = prove!(MOST_NAME_BYTES == 64);

fn has(value: &Value, name: &str) -> bool
    ensures { result ≡ has name.now (view value.now) }
{
    value.get(name).is_some()
}

fn lacks_word(constraint: &Value) -> bool
    ensures { result ≡ lacks_word (view constraint.now) }
{
    constraint.is_object() && !(has(constraint, "key") && has(constraint, "op"))
}

fn has_lacking(items: &[Value]) -> bool
    ensures { result ≡ list_any (λ v. lacks_word (view v)) items.now }
{
    items.iter().any(|one| lacks_word(one))
}

/// Whether a field that must be there is absent, also of a constraint that is an object.
#[tactic(auto, using(crate::proofs::Lists::list_any_map))]
pub fn is_missing(rule: &Value) -> bool
    ensures { result ≡ is_missing (view rule.now) }
{
    let whole = has(rule, "group_id") && has(rule, "id") && has(rule, "role") && has(rule, "count");
    !whole || has_lacking(items_of(rule, "label_constraints"))
}

fn is_number(field: &Value) -> bool
    ensures { result ≡ is_number (view field.now) }
{
    match field.as_u64() {
        Some(number) => number < 4_294_967_296,
        None => false,
    }
}

fn is_name(field: &Value) -> bool
    ensures { result ≡ is_name (view field.now) }
{
    match field.as_str() {
        Some(text) => 0 < text.len() && text.len() <= MOST_NAME_BYTES,
        None => false,
    }
}

fn are_all_texts(items: &[Value]) -> bool
    ensures { result ≡ list_all (λ v. is_text (view v)) items.now }
{
    items.iter().all(|item| item.is_string())
}

#[tactic(auto, using(crate::proofs::Lists::list_all_map))]
fn are_texts(field: &Value) -> bool
    ensures { result ≡ are_texts (view field.now) }
{
    match list(field) {
        Some(items) => are_all_texts(items),
        None => false,
    }
}

fn is_text_field(value: &Value, name: &str) -> bool
    ensures { result ≡ passes is_text (get name.now (view value.now)) }
{
    match value.get(name) {
        Some(field) => field.is_string(),
        None => false,
    }
}

fn may_be_text(value: &Value, name: &str) -> bool
    ensures { result ≡ may_pass is_text (given name.now (view value.now)) }
{
    match optional(value, name) {
        Some(field) => field.is_string(),
        None => true,
    }
}

fn may_be_texts(value: &Value, name: &str) -> bool
    ensures { result ≡ may_pass are_texts (given name.now (view value.now)) }
{
    match optional(value, name) {
        Some(field) => are_texts(field),
        None => true,
    }
}

fn is_constraint(item: &Value) -> bool
    ensures { result ≡ is_constraint (view item.now) }
{
    item.is_object()
        && is_text_field(item, "key")
        && is_text_field(item, "op")
        && may_be_texts(item, "values")
}

fn are_all_constraints(items: &[Value]) -> bool
    ensures { result ≡ list_all (λ v. is_constraint (view v)) items.now }
{
    items.iter().all(|item| is_constraint(item))
}

#[tactic(auto, using(crate::proofs::Lists::list_all_map))]
fn may_be_constraints(value: &Value, name: &str) -> bool
    ensures { result ≡ may_pass are_constraints (given name.now (view value.now)) }
{
    match optional(value, name) {
        Some(field) => match list(field) {
            Some(items) => are_all_constraints(items),
            None => false,
        },
        None => true,
    }
}

#[tactic(auto, using(crate::proofs::Lists::length_view))]
fn are_few(field: &Value) -> bool
    ensures { result ≡ are_few (list_in (view field.now)) }
{
    match list(field) {
        Some(items) => items.len() <= MAX_LOCATIONS,
        None => false,
    }
}

fn may_be_labels(value: &Value, name: &str) -> bool
    ensures { result ≡ may_pass are_labels (given name.now (view value.now)) }
{
    match optional(value, name) {
        Some(field) => are_few(field) && are_texts(field),
        None => true,
    }
}

fn is_name_field(value: &Value, name: &str) -> bool
    ensures { result ≡ passes is_name (get name.now (view value.now)) }
{
    match value.get(name) {
        Some(field) => is_name(field),
        None => false,
    }
}

fn is_number_field(value: &Value, name: &str) -> bool
    ensures { result ≡ passes is_number (get name.now (view value.now)) }
{
    match value.get(name) {
        Some(field) => is_number(field),
        None => false,
    }
}

fn may_be_number(value: &Value, name: &str) -> bool
    ensures { result ≡ may_pass is_number (given name.now (view value.now)) }
{
    match optional(value, name) {
        Some(field) => is_number(field),
        None => true,
    }
}

fn may_be_truth(value: &Value, name: &str) -> bool
    ensures { result ≡ may_pass is_truth (given name.now (view value.now)) }
{
    match optional(value, name) {
        Some(field) => field.is_boolean(),
        None => true,
    }
}

// Whether the fields that must be there are of their kinds.
fn are_needed(rule: &Value) -> bool
    ensures { result ≡ are_needed (view rule.now) }
{
    is_name_field(rule, "group_id")
        && is_name_field(rule, "id")
        && is_text_field(rule, "role")
        && is_number_field(rule, "count")
}

// Whether the fields that may be absent are of their kinds.
fn are_optional(rule: &Value) -> bool
    ensures { result ≡ are_optional (view rule.now) }
{
    may_be_text(rule, "start_key")
        && may_be_text(rule, "end_key")
        && may_be_text(rule, "isolation_level")
        && may_be_number(rule, "index")
        && may_be_truth(rule, "override")
        && may_be_constraints(rule, "label_constraints")
        && may_be_labels(rule, "location_labels")
}

/// Whether each field is of its kind.
pub fn is_of_kind(rule: &Value) -> bool
    ensures { result ≡ is_of_kind (view rule.now) }
{
    are_needed(rule) && are_optional(rule)
}
