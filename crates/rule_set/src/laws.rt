ghost use Rattle.std.specs.Prelude.{◌≡◌, ◌≢◌, ◌↔◌, ◌⊎◌, ◌<◌, ◌≤◌, ℕ, List, [], None, Some, true, false, codes, length, Contains};
ghost use Rattle.pd_types.specs.Keys.{is_below};
ghost use Rattle.pd_types.specs.declared.rule.Rule.{Rule};
ghost use Rattle.pd_types.specs.declared.rule.RuleRole.TheVariants.{Voter};
ghost use Rattle.pd_types.specs.declared.region.Region.{Region};
ghost use Rattle.rule_set.specs.Order.{comes_before, without, AreApart};
ghost use Rattle.rule_set.specs.declared.fault.RemoveFault.TheVariants.{Absent, LastRule};
ghost use Rattle.rule_set.specs.declared.fault.SetFault.TheVariants.{Limit};
ghost use Rattle.rule_set.specs.Changes.{default_rule, knows, remove_refusal, set_refusal, with_rule};
ghost use Rattle.rule_set.specs.InForce.{holds, hides};
ghost use Rattle.rule_set.specs.Borders.{IsBorder};

use pd_types::{MAX_LOCATIONS, MAX_RULES};

const _: () = prove!(MAX_RULES == 64 && MAX_LOCATIONS == 4);

/// The numbers, which are our own.
pub fn the_numbers()
    ensures rules { MAX_RULES ≡ 64 }
    ensures locations { MAX_LOCATIONS ≡ 4 }
{}

/// A rule that is set takes the place of the one of its group and id, and a rule that is removed is
/// the one of this group and id; all others stay.
pub fn rules_go_by_their_names()
    ensures set { (rule one : Rule) (rules : List Rule) →
        Contains (with_rule rule rules) one ↔ ((rule ≡ one) ⊎ (Contains rules one × AreApart one rule)) }
    ensures removed { (group id : List ℕ) (one : Rule) (rules : List Rule) →
        Contains (without group id rules) one ↔
        (Contains rules one × (one.group ≡ group → one.id ≡ id → ⊥)) }
{}

/// The group comes first, then the index, and then the id.
pub fn group_then_index_then_id()
    ensures group { (one other : Rule) →
        is_below one.group other.group ≡ true → comes_before one other ≡ true }
    ensures index { (one other : Rule) →
        one.group ≡ other.group → one.index < other.index → comes_before one other ≡ true }
    ensures id { (one other : Rule) → one.group ≡ other.group → one.index ≡ other.index →
        is_below one.id other.id ≡ true → comes_before one other ≡ true }
{}

/// The range of a rule has its start and not its end, nothing before the start, and no end where
/// that is empty.
pub fn a_range_ends_before_its_end()
    ensures start { (rule : Rule) →
        is_below rule.start rule.end ≡ true → holds rule rule.start ≡ true }
    ensures before { (rule : Rule) (key : List ℕ) →
        is_below key rule.start ≡ true → holds rule key ≡ false }
    ensures end { (rule : Rule) → rule.end ≢ [] → holds rule rule.end ≡ false }
    ensures endless { (rule : Rule) (key : List ℕ) → rule.end ≡ [] →
        is_below key rule.start ≡ false → holds rule key ≡ true }
{}

/// A rule hides another at a key exactly where it overrides, is of its group, and holds the key.
pub fn an_override_hides_its_group()
    ensures { (key : List ℕ) (rule later : Rule) → (hides key rule later ≡ true) ↔
        ((later.overrides ≡ true) × (later.group ≡ rule.group) × (holds later key ≡ true)) }
{}

/// The default rule asks for three voters at every key; it is the rule `default` of the group `pd`, and
/// overrides none.
pub fn three_voters_anywhere()
    ensures held { (key : List ℕ) → holds default_rule key ≡ true }
    ensures voters { default_rule.role ≡ Voter }
    ensures three { default_rule.count ≡ 3 }
    ensures any { default_rule.constraints ≡ [] }
    ensures group { default_rule.group ≡ codes "pd" }
    ensures id { default_rule.id ≡ codes "default" }
    ensures index { default_rule.index ≡ 0 }
    ensures overrides { default_rule.overrides ≡ false }
    ensures locations { default_rule.locations ≡ [] }
{}

/// Why a rule isn't set or removed: 64 rules refuse one of another name and no other, a rule that isn't
/// there can't be removed, whatever else holds, and the last one can't.
pub fn the_refusals_of_a_rule()
    ensures replaces { (rule : Rule) (rules : List Rule) →
        knows rule.group rule.id rules ≡ true → set_refusal rule rules ≡ None }
    ensures room { (rule : Rule) (rules : List Rule) →
        length rules < 64 → set_refusal rule rules ≡ None }
    ensures full { (rule : Rule) (rules : List Rule) → knows rule.group rule.id rules ≡ false →
        64 ≤ length rules → set_refusal rule rules ≡ Some Limit }
    ensures absent { (group id : List ℕ) (rules : List Rule) →
        knows group id rules ≡ false → remove_refusal group id rules ≡ Some Absent }
    ensures last { (group id : List ℕ) (rules : List Rule) → knows group id rules ≡ true →
        length rules ≡ 1 → remove_refusal group id rules ≡ Some LastRule }
    ensures other { (group id : List ℕ) (rules : List Rule) → knows group id rules ≡ true →
        length rules ≢ 1 → remove_refusal group id rules ≡ None }
{}

/// A border is a start or an end of a rule; it is neither end of the region, and not empty.
pub fn a_border_lies_inside()
    ensures start { (rules : List Rule) (region : Region) (key : List ℕ) →
        IsBorder rules region key → key ≢ region.start }
    ensures end { (rules : List Rule) (region : Region) (key : List ℕ) →
        IsBorder rules region key → key ≢ region.end }
    ensures some { (rules : List Rule) (region : Region) (key : List ℕ) →
        IsBorder rules region key → key ≢ [] }
{}
