ghost use Rattle.std.specs.Prelude.{IfOk};
ghost use Rattle.rule_set.specs.RuleSets.{HasFewLocations};

use crate::{RemoveFault, RuleSet, SetFault, are_named_apart, have_few_locations};
use pd_types::{Bytes, Constraints, Epoch, Peers, Region, Rule, RuleRole, Rules, Text, Texts};
use std::alloc::Global;
use std::test::Fail;

fn text(alloc: Global, words: &str) -> Result<Text, Fail> {
    Ok(Text::of(String::from_str(alloc, words)?))
}

fn bytes(alloc: Global, of: &str) -> Result<Bytes, Fail> {
    Ok(Bytes::of(Vec::from_slice(alloc, of.as_bytes())?))
}

// A rule of the group `pd` for the keys from `start` to `end`.
fn rule(
    alloc: Global,
    id: &str,
    index: u32,
    overrides: bool,
    start: &str,
    end: &str,
) -> Result<Rule, Fail>
    ensures { IfOk result HasFewLocations }
{
    Ok(Rule {
        group: text(alloc, "pd")?,
        id: text(alloc, id)?,
        index,
        overrides,
        start: bytes(alloc, start)?,
        end: bytes(alloc, end)?,
        role: RuleRole::Voter,
        count: 1,
        constraints: Constraints::new(alloc),
        locations: Texts::new(alloc),
    })
}

fn names(alloc: Global, rules: &[Rule]) -> Result<String, Fail> {
    let mut all = String::new(alloc);
    for rule in rules {
        all.push_str(rule.id.as_str())?;
        all.push_str(" ")?;
    }
    Ok(all)
}

// PD documentation, "Placement Rules": a rule with `override` hides the rules of its group before
// it where its range holds the key.
#[test]
fn an_override_hides_where_its_range_holds(rt: HostRuntime) -> Result<(), Fail> {
    let alloc = rt.alloc();
    let mut set = RuleSet::new(alloc)?;
    set.set(rule(alloc, "b", 2, true, "k", "m")?)?;
    set.set(rule(alloc, "a", 3, false, "", "")?)?;
    let rows = [
        ("", "default a "),
        ("j", "default a "),
        ("k", "b a "),
        ("l", "b a "),
        ("m", "default a "),
    ];
    for (key, want) in rows {
        let rules = set.rules_at(key.as_bytes())?;
        let found = names(alloc, rules.as_slice())?;
        assert_eq!(rt; found.as_str(), want, "at {key}");
    }
    Ok(())
}

#[test]
fn another_group_hides_nothing(rt: HostRuntime) -> Result<(), Fail> {
    let alloc = rt.alloc();
    let mut set = RuleSet::new(alloc)?;
    let mut other = rule(alloc, "o", 9, true, "", "")?;
    other.group = text(alloc, "z")?;
    set.set(other)?;
    let rules = set.rules_at(b"k")?;
    let found = names(alloc, rules.as_slice())?;
    assert_eq!(rt; found.as_str(), "default o ");
    Ok(())
}

#[test]
fn a_rule_is_set_in_place_of_its_name(rt: HostRuntime) -> Result<(), Fail> {
    let alloc = rt.alloc();
    let mut set = RuleSet::new(alloc)?;
    set.set(rule(alloc, "a", 1, false, "", "")?)?;
    set.set(rule(alloc, "default", 5, false, "", "")?)?;
    let found = names(alloc, set.rules().as_slice())?;
    assert_eq!(rt; found.as_str(), "a default ");
    assert_eq!(rt; set.remove(b"pd", b"b"), Err(RemoveFault::Absent));
    assert_eq!(rt; set.remove(b"pd", b"a"), Ok(()));
    assert_eq!(rt; set.remove(b"pd", b"default"), Err(RemoveFault::LastRule));
    Ok(())
}

// PD documentation, "Placement Rules": rules go by group, then index, then id.
#[test]
fn a_list_of_rules_is_put_in_order(rt: HostRuntime) -> Result<(), Fail> {
    let alloc = rt.alloc();
    let mut rules = Rules::new(alloc);
    for (id, index) in [("b", 2), ("c", 1), ("a", 2)] {
        rules.push(rule(alloc, id, index, false, "", "")?)?;
    }
    assert!(rt; !rules.is_empty() && rules.len() <= 64);
    assert!(rt; are_named_apart(rules.as_slice()));
    assert!(rt; have_few_locations(rules.as_slice()));
    let set = RuleSet::of(alloc, rules)?;
    let found = names(alloc, set.rules().as_slice())?;
    assert_eq!(rt; found.as_str(), "c a b ");
    Ok(())
}

// A list of two rules of one name, or with a rule of five labels, is no set.
#[test]
fn tells_what_makes_no_set(rt: HostRuntime) -> Result<(), Fail> {
    let alloc = rt.alloc();
    let mut rules = Rules::new(alloc);
    rules.push(rule(alloc, "a", 1, false, "", "")?)?;
    let mut other = rule(alloc, "a", 2, false, "", "")?;
    for label in ["zone", "rack", "host", "disk"] {
        other.locations.push(text(alloc, label)?)?;
    }
    rules.push(other)?;
    assert!(rt; have_few_locations(rules.as_slice()));
    assert!(rt; !are_named_apart(rules.as_slice()));
    let mut more = rule(alloc, "b", 1, false, "", "")?;
    for label in ["a", "b", "c", "d", "e"] {
        more.locations.push(text(alloc, label)?)?;
    }
    rules.push(more)?;
    assert!(rt; !have_few_locations(rules.as_slice()));
    Ok(())
}

#[test]
fn there_are_64_rules_at_most(rt: HostRuntime) -> Result<(), Fail> {
    let alloc = rt.alloc();
    let mut set = RuleSet::new(alloc)?;
    for n in 0..63u32 {
        let id = format!(in alloc; "r{n}")?;
        set.set(rule(alloc, id.as_str(), n, false, "", "")?)?;
    }
    assert_eq!(rt;
        set.set(rule(alloc, "more", 0, false, "", "")?),
        Err(SetFault::Limit)
    );
    assert_eq!(rt; set.set(rule(alloc, "r7", 90, false, "", "")?), Ok(()));
    assert_eq!(rt; set.rules().len(), 64);
    Ok(())
}

#[test]
fn borders_lie_strictly_inside(rt: HostRuntime) -> Result<(), Fail> {
    let alloc = rt.alloc();
    let mut set = RuleSet::new(alloc)?;
    set.set(rule(alloc, "a", 1, false, "k", "m")?)?;
    set.set(rule(alloc, "b", 2, false, "b", "k")?)?;
    let rows = [
        ("", "", "b k m "),
        ("b", "m", "k "),
        ("k", "m", ""),
        ("c", "", "k m "),
        ("a", "c", "b "),
    ];
    for (start, end, want) in rows {
        let epoch = Epoch {
            conf_ver: 1,
            version: 1,
        };
        let region = Region {
            id: 7,
            start: bytes(alloc, start)?,
            end: bytes(alloc, end)?,
            epoch,
            peers: Peers::new(alloc),
        };
        let keys = set.borders(&region)?;
        let mut found = Vec::new(alloc);
        for key in keys.as_slice() {
            found.extend_from_slice(key.as_slice())?;
            found.push(b' ')?;
        }
        assert_eq!(rt; found.as_slice(), want.as_bytes(), "from {start} to {end}");
    }
    Ok(())
}
