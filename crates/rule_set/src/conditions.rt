ghost use Rattle.std.specs.Prelude.{◌↔◌, ◌≡◌, IsTrue, All};
ghost use Rattle.rule_set.specs.Order.{AreNamedApart};
ghost use Rattle.rule_set.specs.Changes.{knows};
ghost use Rattle.rule_set.specs.RuleSets.{HasFewLocations};

use crate::order::is_named;
use pd_types::{MAX_LOCATIONS, Rule};

/// Whether one of the rules has this group and id.
pub fn knows(rules: &[Rule], group: &[u8], id: &[u8]) -> bool
    ensures { result ≡ knows group.now id.now rules.now }
{
    rules.iter().any(|rule| is_named(group, id, rule))
}

/// Whether no two rules have one group and id, as `RuleSet::of` asks.
pub fn are_named_apart(rules: &[Rule]) -> bool
    ensures { IsTrue result ↔ AreNamedApart rules.now }
{
    for (at, rule) in rules.iter().enumerate() {
        if knows(&rules[at + 1..], rule.group.as_bytes(), rule.id.as_bytes()) {
            return false;
        }
    }
    true
}

/// Whether each rule has at most 4 location labels, as `RuleSet::set` and `RuleSet::of` ask.
pub fn have_few_locations(rules: &[Rule]) -> bool
    ensures { IsTrue result ↔ All HasFewLocations rules.now }
{
    for rule in rules {
        if rule.locations.len() > MAX_LOCATIONS {
            return false;
        }
    }
    true
}
