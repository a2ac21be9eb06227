ghost use Rattle.std.specs.Prelude.{◌≡◌};
ghost use Rattle.pd_types.specs.Keys.{is_below};
ghost use Rattle.rule_set.specs.Order.{order_of, comes_before, is_named};
ghost use Rattle.rule_set.specs.InForce.{holds, hides};

use pd_types::Rule;
use std::cmp::Ordering;

// The order of two rules: by group, then by index, then by id.
fn order(one: &Rule, other: &Rule) -> Ordering
    ensures { result ≡ order_of one.now other.now }
{
    let ids = one.id.as_bytes().cmp(other.id.as_bytes());
    let indexes = one.index.cmp(&other.index);
    let groups = one.group.as_bytes().cmp(other.group.as_bytes());
    groups.then(indexes.then(ids))
}

/// Whether one rule comes before another.
pub fn is_before(one: &Rule, other: &Rule) -> bool
    ensures { result ≡ comes_before one.now other.now }
{
    order(one, other).is_lt()
}

/// Whether a key is less than another.
pub fn is_less(one: &[u8], other: &[u8]) -> bool
    ensures { result ≡ is_below one.now other.now }
{
    one.cmp(other).is_lt()
}

/// Whether the rule has this group and id.
pub fn is_named(group: &[u8], id: &[u8], rule: &Rule) -> bool
    ensures { result ≡ is_named group.now id.now rule.now }
{
    rule.group.as_bytes() == group && rule.id.as_bytes() == id
}

/// Whether the rule's range holds the key: the range has its start and not its end, and an empty
/// end has no upper bound.
pub fn holds(rule: &Rule, key: &[u8]) -> bool
    ensures value { result ≡ holds rule.now key.now }
{
    let start = rule.start.as_slice();
    let end = rule.end.as_slice();
    !is_less(key, start) && (end.is_empty() || is_less(key, end))
}

/// Whether the later rule hides the other one at the key.
pub fn hides(later: &Rule, rule: &Rule, key: &[u8]) -> bool
    ensures { result ≡ hides key.now rule.now later.now }
{
    later.overrides && later.group.as_bytes() == rule.group.as_bytes() && holds(later, key)
}
