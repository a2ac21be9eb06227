// What a new term makes of the records that its lead handed out.
ghost use Rattle.std.specs.Prelude.{◌≡◌, ◌≢◌, Some, IfOk, OnOk, [], map};
ghost use Rattle.rule_set.specs.RuleSets.{HasFewLocations};
ghost use Rattle.pd_state.specs.HandedOut.{limits_of, or_default, rule_more, rules_told, store_in, stores_told};
ghost use Rattle.pd_state.specs.StoredRules.{rule_in};
ghost use Rattle.pd_state.specs.Steps.{entry_more, loaded_at, set_list};

use crate::rules::{read_told, rule_key};
use meta_store::{Cell, read_store_text};
use pd_types::{MAX_RULES, NoMemory, Rule, Rules};
use rule_set::RuleSet;
use std::alloc::Global;
use store_limit::Limits;
use store_table::{MOST_STORES, Stores};

// Takes in the store that a record tells, while fewer than 256 are known.
fn take_store(alloc: Global, stores: &mut Stores, cell: &Cell, began: u64) -> Result<(), NoMemory>
    ensures ok { OnOk result (stores.new ≡ entry_more began (store_in cell.now) stores.old) }
{
    let Some(rec) = read_store_text(alloc, cell.key.as_slice(), cell.bytes.as_slice())? else {
        return Ok(());
    };
    if stores.len() >= MOST_STORES {
        return Ok(());
    }
    match stores.load(rec, began) {
        Ok(()) => Ok(()),
        // Fewer than 256 are known, so that memory alone was wanting.
        Err(_) => Err(NoMemory),
    }
}

/// The stores that the records tell, in a term that began at this moment.
pub fn stores_told(alloc: Global, cells: &[Cell], began: u64) -> Result<Stores, NoMemory>
    ensures value { IfOk result (λ stores. stores ≡ map (loaded_at began) (stores_told cells.now)) }
{
    let mut stores = Stores::new(alloc);
    for cell in cells {
        take_store(alloc, &mut stores, cell, began)?;
    }
    Ok(stores)
}

// The rule that a record tells.
fn rule_in(alloc: Global, cell: &Cell) -> Result<Option<Rule>, NoMemory>
    ensures value { IfOk result (λ rule. rule ≡ rule_in cell.now) }
    ensures few { IfOk result (λ found. (rule : Rule) → found ≡ Some rule → HasFewLocations rule) }
{
    let Ok(rule) = read_told(alloc, cell.bytes.as_slice())? else {
        return Ok(None);
    };
    let key = rule_key(alloc, rule.group.as_bytes(), rule.id.as_bytes())?;
    if key.as_slice() != cell.key.as_slice() {
        return Ok(None);
    }
    Ok(Some(rule))
}

// Takes in a rule, while there are fewer than 64; the first one begins a set.
fn take_rule(alloc: Global, rules: &mut Option<RuleSet>, rule: Rule) -> Result<(), NoMemory>
    requires few { HasFewLocations rule }
    ensures ok { OnOk result (set_list rules.new ≡ rule_more (Some rule) (set_list rules.old)) }
    ensures some { OnOk result (rules.new ≢ Some []) }
{
    let Some(set) = rules else {
        let mut first = Rules::new(alloc);
        first.push(rule)?;
        *rules = Some(RuleSet::of(alloc, first)?);
        return Ok(());
    };
    if set.rules().len() >= MAX_RULES {
        return Ok(());
    }
    match set.set(rule) {
        Ok(()) => Ok(()),
        // There are fewer than 64, so that memory alone was wanting.
        Err(_) => Err(NoMemory),
    }
}

/// The limits of these stores, which a term knows from its beginning at this moment.
pub fn limits_told(alloc: Global, stores: &Stores, began: u64) -> Result<Limits, NoMemory>
    ensures value { IfOk result (λ limits. limits ≡ limits_of began (map (λ entry. entry.store) stores.now)) }
{
    let mut limits = Limits::new(alloc);
    for place in 0..stores.len() {
        let Some(store) = stores.at(place) else {
            unreachable!()
        };
        limits.know(store.id, began)?;
    }
    Ok(limits)
}

/// The rules that the records tell; the default rule where they tell none.
pub fn rules_told(alloc: Global, cells: &[Cell]) -> Result<RuleSet, NoMemory>
    ensures value { IfOk result (λ set. set ≡ or_default (rules_told cells.now)) }
{
    let mut rules = None;
    for cell in cells {
        if let Some(rule) = rule_in(alloc, cell)? {
            take_rule(alloc, &mut rules, rule)?;
        }
    }
    match rules {
        Some(set) => Ok(set),
        None => Ok(RuleSet::new(alloc)?),
    }
}
