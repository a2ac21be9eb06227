ghost use Rattle.std.specs.Vec.{vec_capacity};
ghost use Rattle.std.specs.Prelude.{◌≡◌, ◌↔◌, All, ◌<◌, ◌≤◌, ℕ, None, Some, IfOk, IfErr, OnOk, OnErr, ◌&&◌, not, Contains, List, length, vec_len, [], ◌∷◌};
ghost use Rattle.pd_types.specs.declared.rule.Rule.{Rule};
ghost use Rattle.pd_types.specs.declared.rule.TheConstants.{MAX_RULES};
ghost use Rattle.rule_set.specs.Order.{AreInOrder, AreNamedApart, without};
ghost use Rattle.rule_set.specs.RuleSets.{HasFewLocations, IsRuleSet};
ghost use Rattle.rule_set.specs.Changes.{knows, with_rule, set_of, set_refusal, remove_refusal, RefusedBy, default_rule};
ghost use Rattle.std.specs.List.{list_any};
ghost use Rattle.rule_set.specs.Borders.{AreRising, IsBorder};
ghost use Rattle.rule_set.specs.InForce.{rules_at, holds, hides, IsInForce};

use crate::border::borders;
use crate::conditions::knows;
use crate::order::{hides, holds};
use crate::places::{place, take_out};
use crate::{RemoveFault, SetFault};
use pd_types::{
    Bytes, Constraints, Duplicate, Keys, MAX_RULES, NoMemory, Region, Rule, RuleRole, Rules, Text,
    Texts,
};
use std::alloc::Global;
use std::marker::Model;
use std::mem;

/// The placement rules of a cluster, from 1 to 64. Contracts see them as a list in order of group,
/// index and id.
#[derive(Drop)]
pub struct RuleSet {
    rules: Rules,
    alloc: Global,
}

impl Model for RuleSet {
    ghost use Rattle.std.specs.Prelude.{List};
    ghost use Rattle.pd_types.specs.declared.rule.Rule.{Rule};
    ghost use Rattle.rule_set.specs.RuleSets.{IsRuleSet};

    ghost Value = { List Rule };

    ghost view = { λ s. s.rules };

    ghost invariant = { λ s. IsRuleSet s.rules };
}

// Puts a rule in place of one of its group and id, where there is room for it.
fn set_reserved(rules: &mut Vec<Rule>, rule: Rule)
    requires order { AreInOrder rules.old.items }
    requires names { AreNamedApart rules.old.items }
    requires room { vec_len rules.old < vec_capacity rules.old }
    ensures value { rules.new.items ≡ with_rule rule rules.old.items }
    ensures order { AreInOrder rules.new.items }
    ensures names { AreNamedApart rules.new.items }
{
    take_out(rules, rule.group.as_bytes(), rule.id.as_bytes());
    place(rules, rule);
}

// These rules, set one after another.
fn gathered(alloc: Global, rules: Rules) -> Result<Vec<Rule>, NoMemory>
    ensures value { IfOk result (λ items. items.items ≡ set_of rules) }
    ensures order { IfOk result (λ items. AreInOrder items.items) }
    ensures names { IfOk result (λ items. AreNamedApart items.items) }
    ensures fewer { IfOk result (λ items. length items.items ≤ length rules) }
    ensures some { 0 < length rules → IfOk result (λ items. 0 < length items.items) }
{
    let mut items = Vec::new(alloc);
    for rule in rules.into_vec() {
        items.reserve(1)?;
        set_reserved(&mut items, rule);
    }
    Ok(items)
}

// Sets a rule.
fn set_in(rules: &mut Vec<Rule>, rule: Rule) -> Result<(), SetFault>
    requires rules { IsRuleSet rules.old.items }
    requires locations { HasFewLocations rule }
    ensures ok { OnOk result (rules.new.items ≡ with_rule rule rules.old.items) }
    ensures accepted { OnOk result (set_refusal rule rules.old.items ≡ None) }
    ensures refused { IfErr result (RefusedBy (set_refusal rule rules.old.items)) }
    ensures err { OnErr result (rules.new.items ≡ rules.old.items) }
    ensures rules { IsRuleSet rules.new.items }
{
    if !knows(rules, rule.group.as_bytes(), rule.id.as_bytes()) && rules.len() >= MAX_RULES {
        return Err(SetFault::Limit);
    }
    let Ok(()) = rules.reserve(1) else {
        return Err(SetFault::NoMemory);
    };
    set_reserved(rules, rule);
    Ok(())
}

// Removes a rule.
fn remove_in(rules: &mut Vec<Rule>, group: &[u8], id: &[u8]) -> Result<(), RemoveFault>
    requires rules { IsRuleSet rules.old.items }
    ensures ok { OnOk result (rules.new.items ≡ without group.now id.now rules.old.items) }
    ensures accepted { OnOk result (remove_refusal group.now id.now rules.old.items ≡ None) }
    ensures refused { IfErr result (λ fault. remove_refusal group.now id.now rules.old.items ≡ Some fault) }
    ensures err { OnErr result (rules.new.items ≡ rules.old.items) }
    ensures rules { IsRuleSet rules.new.items }
{
    if !knows(rules, group, id) {
        return Err(RemoveFault::Absent);
    }
    if rules.len() == 1 {
        return Err(RemoveFault::LastRule);
    }
    take_out(rules, group, id);
    Ok(())
}

// These words as a text.
fn text(alloc: Global, words: &str) -> Result<Text, NoMemory>
    ensures { IfOk result (λ text. text ≡ words.now) }
{
    Ok(Text::of(String::from_str(alloc, words)?))
}

// The rule that a cluster without stored rules has.
fn default_rule(alloc: Global) -> Result<Rule, NoMemory>
    ensures { IfOk result (λ rule. rule ≡ default_rule) }
{
    Ok(Rule {
        group: text(alloc, "pd")?,
        id: text(alloc, "default")?,
        index: 0,
        overrides: false,
        start: Bytes::new(alloc),
        end: Bytes::new(alloc),
        role: RuleRole::Voter,
        count: 3,
        constraints: Constraints::new(alloc),
        locations: Texts::new(alloc),
    })
}

impl RuleSet {
    /// The default rule alone: group `pd`, id `default`, three voters anywhere.
    pub fn new(alloc: Global) -> Result<RuleSet, NoMemory>
        ensures value { IfOk result (λ set. set ≡ default_rule ∷ []) }
    {
        let mut rules = Rules::new(alloc);
        rules.push(default_rule(alloc)?)?;
        Ok(RuleSet { rules, alloc })
    }

    /// These rules. There are 1 to 64, no two of one group and id (`are_named_apart`), each with at
    /// most 4 location labels (`have_few_locations`).
    pub fn of(alloc: Global, rules: Rules) -> Result<RuleSet, NoMemory>
        requires some { 0 < length rules }
        requires few { length rules ≤ MAX_RULES }
        requires names { AreNamedApart rules }
        requires locations { All HasFewLocations rules }
        ensures value { IfOk result (λ set. set ≡ set_of rules) }
        ensures members { IfOk result (λ set. (rule : Rule) → Contains set rule ↔ Contains rules rule) }
    {
        let rules = Rules::of(gathered(alloc, rules)?);
        Ok(RuleSet { rules, alloc })
    }

    /// All rules, in order of group, index and id.
    pub fn rules(&self) -> &Rules
        ensures value { result.now ≡ self.now }
        ensures rules { IsRuleSet self.now }
    {
        &self.rules
    }

    /// Sets a rule of at most 4 location labels, in place of the one of its group and id. `Limit`
    /// comes where there are 64 rules and none of this group and id.
    pub fn set(&mut self, rule: Rule) -> Result<(), SetFault>
        requires locations { HasFewLocations rule }
        ensures ok { OnOk result (self.new ≡ with_rule rule self.old) }
        ensures accepted { OnOk result (set_refusal rule self.old ≡ None) }
        ensures refused { IfErr result (RefusedBy (set_refusal rule self.old)) }
        ensures err { OnErr result (self.new ≡ self.old) }
    {
        let mut items = mem::replace(&mut self.rules, Rules::new(self.alloc)).into_vec();
        let answer = set_in(&mut items, rule);
        self.rules = Rules::of(items);
        answer
    }

    /// Removes the rule of this group and id. `Absent` comes where there is none, else `LastRule`
    /// where it is the only rule. It takes no memory.
    pub fn remove(&mut self, group: &[u8], id: &[u8]) -> Result<(), RemoveFault>
        ensures ok { OnOk result (self.new ≡ without group.now id.now self.old) }
        ensures accepted { OnOk result (remove_refusal group.now id.now self.old ≡ None) }
        ensures refused { IfErr result (λ fault. remove_refusal group.now id.now self.old ≡ Some fault) }
        ensures err { OnErr result (self.new ≡ self.old) }
    {
        let mut items = mem::replace(&mut self.rules, Rules::new(self.alloc)).into_vec();
        let answer = remove_in(&mut items, group, id);
        self.rules = Rules::of(items);
        answer
    }

    /// The rules in force at a key, in order: those whose range holds it and that no later rule of
    /// their group that holds it overrides.
    pub fn rules_at(&self, key: &[u8]) -> Result<Rules, NoMemory>
        ensures value { IfOk result (λ rules. rules ≡ rules_at key.now self.now) }
        ensures members { IfOk result (λ rules. (rule : Rule) → Contains rules rule ↔ IsInForce self.now key.now rule) }
        ensures order { IfOk result AreInOrder }
        ensures names { IfOk result AreNamedApart }
        ensures few { IfOk result (λ rules. length rules ≤ MAX_RULES) }
        ensures locations { IfOk result (All HasFewLocations) }
    {
        in_force(self.alloc, self.rules.as_slice(), key)
    }

    /// The keys strictly inside the region at which the rules in force may change: starts and ends
    /// of rules, hidden ones too, rising, each once.
    pub fn borders(&self, region: &Region) -> Result<Keys, NoMemory>
        ensures rising { IfOk result (λ keys. AreRising keys) }
        ensures inside { IfOk result (λ keys. (key : List ℕ) → Contains keys key → IsBorder self.now region.now key) }
        ensures every { IfOk result (λ keys. (key : List ℕ) → IsBorder self.now region.now key → Contains keys key) }
    {
        borders(self.alloc, self.rules.as_slice(), region)
    }
}

// The rules in force at a key.
fn in_force(alloc: Global, rules: &[Rule], key: &[u8]) -> Result<Rules, NoMemory>
    ensures value { IfOk result (λ found. found ≡ rules_at key.now rules.now) }
    ensures fewer { IfOk result (λ found. length found ≤ length rules.now) }
{
    let mut found = Rules::new(alloc);
    for (at, rule) in rules.iter().enumerate() {
        if is_in_force(rule, &rules[at + 1..], key) {
            found.push(rule.copy(alloc)?)?;
        }
    }
    Ok(found)
}

// Whether a rule holds the key and none of the later ones hides it.
fn is_in_force(rule: &Rule, later: &[Rule], key: &[u8]) -> bool
    ensures { result ≡ (holds rule.now key.now && not (list_any (hides key.now rule.now) later.now)) }
{
    holds(rule, key) && !is_hidden(rule, later, key)
}

// Whether one of the later rules hides a rule at the key.
fn is_hidden(rule: &Rule, later: &[Rule], key: &[u8]) -> bool
    ensures { result ≡ list_any (hides key.now rule.now) later.now }
{
    later.iter().any(|one| hides(one, rule, key))
}
