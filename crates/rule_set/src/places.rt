ghost use Rattle.std.specs.Prelude.{◌≡◌, All, ◌<◌, ◌≤◌, ℕ, true, false, length, slice_index_or, vec_len};
ghost use Rattle.std.specs.Vec.{vec_capacity};
ghost use Rattle.pd_types.specs.declared.rule.Rule.{Rule};
ghost use Rattle.rule_set.specs.Order.{AreInOrder, AreApart, AreNamedApart, comes_before, placed, without, is_named};

use crate::order::{is_before, is_named};
use pd_types::Rule;

/// How many rules come before this one.
pub fn earlier(rules: &[Rule], rule: &Rule) -> usize
    requires { AreInOrder rules.now }
    ensures bound { result ≤ length rules.now }
    ensures before { (k : ℕ) (d : Rule) → k < result → comes_before (slice_index_or rules.now k d) rule.now ≡ true }
    ensures after { (k : ℕ) (d : Rule) → result ≤ k → k < length rules.now → comes_before (slice_index_or rules.now k d) rule.now ≡ false }
{
    rules.partition_point(|one| is_before(one, rule))
}

/// Puts a rule in its place, where there is room for it.
pub fn place(rules: &mut Vec<Rule>, rule: Rule)
    requires order { AreInOrder rules.old.items }
    requires names { AreNamedApart rules.old.items }
    requires other { All (AreApart rule) rules.old.items }
    requires room { vec_len rules.old < vec_capacity rules.old }
    ensures value { rules.new.items ≡ placed rule rules.old.items }
    ensures order { AreInOrder rules.new.items }
    ensures names { AreNamedApart rules.new.items }
{
    let at = earlier(rules, &rule);
    let Ok(()) = rules.insert(at, rule) else {
        unreachable!()
    };
}

/// Takes out the rules of this group and id.
pub fn take_out(rules: &mut Vec<Rule>, group: &[u8], id: &[u8])
    requires order { AreInOrder rules.old.items }
    requires names { AreNamedApart rules.old.items }
    ensures value { rules.new.items ≡ without group.now id.now rules.old.items }
    ensures order { AreInOrder rules.new.items }
    ensures names { AreNamedApart rules.new.items }
    ensures capacity { vec_capacity rules.new ≡ vec_capacity rules.old }
    ensures shorter { vec_len rules.new ≤ vec_len rules.old }
{
    rules.retain(|rule| !is_named(group, id, rule));
}
