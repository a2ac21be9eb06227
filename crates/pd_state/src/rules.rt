// Placement rules as texts, the keys of their records, and what refuses a change of the set.
ghost use Rattle.std.specs.Prelude.{◌≡◌, None, IfOk, find, option_copied};
ghost use Rattle.rule_set.specs.Changes.{knows, remove_refusal, set_refusal};
ghost use Rattle.rule_set.specs.Order.{without};
ghost use Rattle.rule_set.specs.RuleSets.{HasFewLocations};
ghost use Rattle.pd_state.specs.Calls.{is_default};
ghost use Rattle.pd_state.specs.Replies.{removal_refused, set_refused};
ghost use Rattle.pd_state.specs.StoredRules.{rule_key, rule_told};

use crate::Reply;
use pd_types::{Bytes, MAX_RULES, NoMemory, Rule};
use rule_set::RuleSet;
use rule_text::{RuleFault, read_rule};
use std::alloc::Global;

/// The key of a rule's record: `rule/`, its group in hexadecimal, `/`, its id in hexadecimal.
pub fn rule_key(alloc: Global, group: &[u8], id: &[u8]) -> Result<Bytes, NoMemory>
    ensures value { IfOk result (λ key. key ≡ rule_key group.now id.now) }
{
    let group = hex::encode(alloc, group)?;
    let id = hex::encode(alloc, id)?;
    let mut key = Vec::new(alloc);
    key.extend_from_slice(b"rule/")?;
    key.extend_from_slice(group.as_bytes())?;
    key.push(b'/')?;
    key.extend_from_slice(id.as_bytes())?;
    Ok(Bytes::of(key))
}

/// The rule that a text tells, or why it tells none.
#[tactic(auto, using(crate::proofs::RuleTexts::means_told, crate::proofs::RuleTexts::refused_told))]
pub fn read_told(alloc: Global, bytes: &[u8]) -> Result<Result<Rule, RuleFault>, NoMemory>
    ensures value { IfOk result (λ told. told ≡ rule_told bytes.now) }
    ensures few { IfOk result (λ told. IfOk told HasFewLocations) }
{
    match read_rule(alloc, bytes) {
        Ok(rule) => Ok(Ok(rule)),
        Err(RuleFault::NoMemory) => Err(NoMemory),
        Err(fault) => Ok(Err(fault)),
    }
}

/// Whether one of the rules has this group and id.
fn knows(rules: &[Rule], group: &[u8], id: &[u8]) -> bool
    ensures { result ≡ knows group.now id.now rules.now }
{
    rules.iter().any(|rule| rule.group.as_bytes() == group && rule.id.as_bytes() == id)
}

/// Whether the rule has the default rule's group and id.
pub fn is_default(rule: &Rule) -> bool
    ensures { result ≡ is_default rule.now }
{
    rule.group.as_bytes() == b"pd".as_slice() && rule.id.as_bytes() == b"default".as_slice()
}

/// The rule of the default rule's group and id, where there is one.
pub fn default_of(rules: &[Rule]) -> Option<&Rule>
    ensures value { option_copied result ≡ find is_default rules.now }
{
    rules.iter().find(|rule| is_default(rule))
}

/// What refuses a rule that was read, before the metadata is asked: 64 rules of other names.
pub fn set_refusal(rules: &[Rule], rule: &Rule) -> Option<Reply>
    ensures value { result ≡ set_refused (set_refusal rule.now rules.now) }
{
    if !knows(rules, rule.group.as_bytes(), rule.id.as_bytes()) && rules.len() >= MAX_RULES {
        return Some(Reply::RuleLimit);
    }
    None
}

/// What refuses a removal before the metadata is asked.
pub fn removal_refusal(rules: &[Rule], group: &[u8], id: &[u8]) -> Option<Reply>
    ensures value { result ≡ removal_refused (remove_refusal group.now id.now rules.now) }
{
    if !knows(rules, group, id) {
        return Some(Reply::Absent);
    }
    if rules.len() == 1 {
        return Some(Reply::LastRule);
    }
    None
}

/// Removes a rule that nothing refuses to remove.
pub fn remove(rules: &mut RuleSet, group: &[u8], id: &[u8])
    requires { remove_refusal group.now id.now rules.old ≡ None }
    ensures value { rules.new ≡ without group.now id.now rules.old }
{
    let Ok(()) = rules.remove(group, id) else {
        unreachable!()
    };
}
