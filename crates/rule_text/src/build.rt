// The rule of a value whose tests pass.
ghost use Rattle.std.specs.Prelude.{◌≡◌, map, codes, IfOk};
ghost use Rattle.serde_json.specs.View.{view};
ghost use Rattle.rule_text.specs.Fields.{text_of};
ghost use Rattle.rule_text.specs.Meaning.{constraint_of, rule_of, bytes_at, role_at};

use crate::fields::{items_of, number_of, text_of, truth_of};
use crate::words::op_of;
use pd_types::{Bytes, Constraint, Constraints, NoMemory, Op, Rule, RuleRole, Text, Texts};
use serde_json::Value;
use std::alloc::Global;

fn text(alloc: Global, words: &str) -> Result<Text, NoMemory>
    ensures { IfOk result (λ text. text ≡ words.now) }
{
    Ok(Text::of(String::from_str(alloc, words)?))
}

fn text_in(alloc: Global, item: &Value) -> Result<Text, NoMemory>
    ensures { IfOk result (λ text. text ≡ text_of (view item.now)) }
{
    match item.as_str() {
        Some(words) => text(alloc, words),
        None => text(alloc, ""),
    }
}

fn texts(alloc: Global, items: &[Value]) -> Result<Texts, NoMemory>
    ensures { IfOk result (λ texts. texts ≡ map text_of (map view items.now)) }
{
    let mut texts = Vec::new(alloc);
    for item in items {
        texts.push(text_in(alloc, item)?)?;
    }
    Ok(Texts::of(texts))
}

fn constraint(alloc: Global, item: &Value) -> Result<Constraint, NoMemory>
    ensures { IfOk result (λ one. one ≡ constraint_of (view item.now)) }
{
    let key = text(alloc, text_of(item, "key"))?;
    let values = texts(alloc, items_of(item, "values"))?;
    let op = match op_of(text_of(item, "op")) {
        Some(op) => op,
        None => Op::In,
    };
    Ok(Constraint { key, op, values })
}

fn constraints(alloc: Global, items: &[Value]) -> Result<Constraints, NoMemory>
    ensures { IfOk result (λ ones. ones ≡ map constraint_of (map view items.now)) }
{
    let mut constraints = Vec::new(alloc);
    for item in items {
        constraints.push(constraint(alloc, item)?)?;
    }
    Ok(Constraints::of(constraints))
}

/// The rule of a value with these keys and this role.
pub fn build(
    alloc: Global,
    value: &Value,
    start: Bytes,
    end: Bytes,
    role: RuleRole,
) -> Result<Rule, NoMemory>
    requires start { start ≡ bytes_at (codes "start_key") (view value.now) }
    requires end { end ≡ bytes_at (codes "end_key") (view value.now) }
    requires role { role ≡ role_at (view value.now) }
    ensures { IfOk result (λ rule. rule ≡ rule_of (view value.now)) }
{
    let group = text(alloc, text_of(value, "group_id"))?;
    let id = text(alloc, text_of(value, "id"))?;
    let constraints = constraints(alloc, items_of(value, "label_constraints"))?;
    let locations = texts(alloc, items_of(value, "location_labels"))?;
    Ok(Rule {
        group,
        id,
        index: number_of(value, "index"),
        overrides: truth_of(value, "override"),
        start,
        end,
        role,
        count: number_of(value, "count"),
        constraints,
        locations,
    })
}
