use crate::{Verdict, check};
use heartbeat::Standing;
use pd_types::{
    Bytes, Constraint, Constraints, Downs, Epoch, Ids, Label, Labels, MAX_LOCATIONS, MAX_PEERS, Op,
    Peer, Peers, Region, RegionBeat, Role, Rule, RuleRole, StoreRec, StoreState, Text, Texts,
};
use rule_fit::{Certificate, are_apart};
use rule_set::RuleSet;
use std::alloc::Global;
use std::test::Fail;
use store_table::Stores;

fn text(alloc: Global, words: &str) -> Result<Text, Fail> {
    Ok(Text::of(String::from_str(alloc, words)?))
}

fn bytes(alloc: Global, words: &str) -> Result<Bytes, Fail> {
    Ok(Bytes::of(Vec::from_slice(alloc, words.as_bytes())?))
}

// A rule for voters in this zone, anywhere where that is empty.
fn rule(alloc: Global, id: &str, count: u32, zone: &str, start: &str) -> Result<Rule, Fail> {
    ruled(alloc, id, RuleRole::Voter, count, zone, start)
}

// The same for any role.
fn ruled(
    alloc: Global,
    id: &str,
    role: RuleRole,
    count: u32,
    zone: &str,
    start: &str,
) -> Result<Rule, Fail> {
    let mut constraints = Constraints::new(alloc);
    if !zone.is_empty() {
        let mut values = Texts::new(alloc);
        values.push(text(alloc, zone)?)?;
        constraints.push(Constraint {
            key: text(alloc, "zone")?,
            op: Op::In,
            values,
        })?;
    }
    Ok(Rule {
        group: text(alloc, "pd")?,
        id: text(alloc, id)?,
        index: 0,
        overrides: false,
        start: bytes(alloc, start)?,
        end: Bytes::new(alloc),
        role,
        count,
        constraints,
        locations: Texts::new(alloc),
    })
}

// Sets a rule that has few location labels, as each rule here.
fn put_rule(rules: &mut RuleSet, one: Rule) -> Result<(), Fail> {
    if one.locations.len() > MAX_LOCATIONS {
        return Err(Fail::new("too many location labels"));
    }
    rules.set(one)?;
    Ok(())
}

fn put_store(
    alloc: Global,
    stores: &mut Stores,
    id: u64,
    zone: &str,
    moment: u64,
) -> Result<(), Fail> {
    let mut labels = Labels::new(alloc);
    labels.push(Label {
        key: text(alloc, "zone")?,
        value: text(alloc, zone)?,
    })?;
    let address = text(alloc, "a")?;
    let state = StoreState::Up;
    stores.put(
        StoreRec {
            id,
            address,
            labels,
            state,
        },
        moment,
    )?;
    Ok(())
}

// The region 7, whose peers have the ids 11, 12, .. on these stores; 11 leads.
fn region(alloc: Global, peers: &[(u64, Role)]) -> Result<RegionBeat, Fail> {
    let mut list = Peers::new(alloc);
    let mut id = 11;
    for (store, role) in peers {
        list.push(Peer {
            id,
            store: *store,
            role: *role,
        })?;
        id = id % 1000 + 1;
    }
    Ok(RegionBeat {
        region: Region {
            id: 7,
            start: Bytes::new(alloc),
            end: Bytes::new(alloc),
            epoch: Epoch {
                conf_ver: 1,
                version: 1,
            },
            peers: list,
        },
        leader: 11,
        down: Downs::new(alloc),
        pending: Ids::new(alloc),
    })
}

// Four stores in three zones, of which the third was silent for long.
fn four(alloc: Global) -> Result<Stores, Fail> {
    let mut stores = Stores::new(alloc);
    put_store(alloc, &mut stores, 1, "z1", 1_801_001)?;
    put_store(alloc, &mut stores, 2, "z2", 1_801_001)?;
    put_store(alloc, &mut stores, 3, "z3", 1000)?;
    put_store(alloc, &mut stores, 4, "z3", 1_801_001)?;
    Ok(stores)
}

// What shows that a region doesn't fit.
fn put_certificate(said: &mut String, certificate: &Certificate) -> Result<(), Fail> {
    match certificate {
        Certificate::Totals { counts, peers } => write!(said, " by {counts} and {peers}")?,
        Certificate::Peers(ids) => {
            for id in ids.as_slice() {
                write!(said, " by peer {id}")?;
            }
        }
    }
    Ok(())
}

// The verdict in words: class, steps and numbers, and what shows that there is no fit.
fn said(alloc: Global, verdict: &Verdict) -> Result<String, Fail> {
    let mut said = String::new(alloc);
    match verdict {
        Verdict::NeedsSplit { keys } => said.push_str(match keys.len() {
            1 => "split 1",
            _ => "split",
        })?,
        Verdict::NoFault => said.push_str("fits")?,
        Verdict::Plan {
            class,
            steps,
            from,
            to,
        } => {
            let lead = format!(in alloc; "{class:?} {from} {to}")?;
            said.push_str(lead.as_str())?;
            for step in steps.as_slice() {
                let words = format!(in alloc; ", {step}")?;
                said.push_str(words.as_str())?;
            }
        }
        Verdict::NoPlan { from, certificate } => {
            write!(said, "stuck {from}")?;
            put_certificate(&mut said, certificate)?;
        }
    }
    Ok(said)
}

// What is said of the region, where no other stands.
fn says(
    alloc: Global,
    beat: &RegionBeat,
    rules: &RuleSet,
    stores: &Stores,
    now: u64,
) -> Result<String, Fail> {
    says_beside(alloc, beat, rules, stores, &Standing::new(alloc), now)
}

// The same beside what stands; no words where `check` may not be called.
fn says_beside(
    alloc: Global,
    beat: &RegionBeat,
    rules: &RuleSet,
    stores: &Stores,
    standing: &Standing,
    now: u64,
) -> Result<String, Fail> {
    let peers = beat.region.peers.as_slice();
    if peers.len() > MAX_PEERS || !are_apart(peers) {
        return Ok(String::new(alloc));
    }
    let verdict = check(alloc, beat, rules, stores, standing, now)?;
    said(alloc, &verdict)
}

const V: Role = Role::Voter;

const L: Role = Role::Learner;

#[test]
fn a_down_peer_is_replaced(rt: HostRuntime) -> Result<(), Fail> {
    let alloc = rt.alloc();
    let stores = four(alloc)?;
    let rules = RuleSet::new(alloc)?;
    let beat = region(alloc, &[(1, V), (2, V), (3, V)])?;
    let text = says(alloc, &beat, &rules, &stores, 1_801_001)?;
    assert_eq!(rt;
        text.as_str(),
        "AddVoter 2 1, add-learner peer 0 store 4, promote-learner peer 0 store 4"
    );
    Ok(())
}

#[test]
fn a_learner_is_promoted(rt: HostRuntime) -> Result<(), Fail> {
    let alloc = rt.alloc();
    let stores = four(alloc)?;
    let rules = RuleSet::new(alloc)?;
    let beat = region(alloc, &[(1, V), (2, V), (3, V), (4, L)])?;
    let text = says(alloc, &beat, &rules, &stores, 1_801_002)?;
    assert_eq!(rt;
        text.as_str(),
        "Promote 3 1, promote-learner peer 14 store 4"
    );
    Ok(())
}

#[test]
fn a_down_peer_goes(rt: HostRuntime) -> Result<(), Fail> {
    let alloc = rt.alloc();
    let stores = four(alloc)?;
    let rules = RuleSet::new(alloc)?;
    let beat = region(alloc, &[(1, V), (2, V), (3, V), (4, V)])?;
    let text = says(alloc, &beat, &rules, &stores, 1_801_003)?;
    assert_eq!(rt; text.as_str(), "Remove 1 0, remove-peer peer 13 store 3");
    Ok(())
}

#[test]
fn a_region_fits(rt: HostRuntime) -> Result<(), Fail> {
    let alloc = rt.alloc();
    let stores = four(alloc)?;
    let rules = RuleSet::new(alloc)?;
    let beat = region(alloc, &[(1, V), (2, V), (4, V)])?;
    let text = says(alloc, &beat, &rules, &stores, 1_801_004)?;
    assert_eq!(rt; text.as_str(), "fits");
    Ok(())
}

// Two rules of one voter each in these zones.
fn two(alloc: Global, one: &str, other: &str) -> Result<RuleSet, Fail> {
    let mut rules = RuleSet::new(alloc)?;
    put_rule(&mut rules, rule(alloc, "A", 1, one, "")?)?;
    put_rule(&mut rules, rule(alloc, "default", 1, other, "")?)?;
    Ok(rules)
}

#[test]
fn equal_totals_may_not_fit(rt: HostRuntime) -> Result<(), Fail> {
    let alloc = rt.alloc();
    let mut stores = Stores::new(alloc);
    put_store(alloc, &mut stores, 1, "z1", 1000)?;
    put_store(alloc, &mut stores, 2, "z2", 1000)?;
    let rules = two(alloc, "z1", "z1")?;
    let beat = region(alloc, &[(1, V), (2, V)])?;
    let text = says(alloc, &beat, &rules, &stores, 1000)?;
    assert_eq!(rt; text.as_str(), "stuck 2 by peer 12");
    Ok(())
}

// The peer in z1 suits both rules, and leaves the one of any zone to a new peer in z2, whichever is
// found for it first. Where both ask for z1, no other store is there.
#[test]
fn a_new_peer_comes_where_another_can_move(rt: HostRuntime) -> Result<(), Fail> {
    let alloc = rt.alloc();
    let stores = zones(alloc, &["z1", "z2"])?;
    let beat = region(alloc, &[(1, V)])?;
    let rows = [
        (
            "z1",
            "",
            "AddVoter 1 0, add-learner peer 0 store 2, promote-learner peer 0 store 2",
        ),
        (
            "",
            "z1",
            "AddVoter 1 0, add-learner peer 0 store 2, promote-learner peer 0 store 2",
        ),
        ("z1", "z1", "stuck 1 by 2 and 1"),
    ];
    for (one, other, says_so) in rows {
        let rules = two(alloc, one, other)?;
        let text = says(alloc, &beat, &rules, &stores, 1000)?;
        assert_eq!(rt; text.as_str(), says_so, "{one} {other}");
    }
    Ok(())
}

#[test]
fn a_border_is_named(rt: HostRuntime) -> Result<(), Fail> {
    let alloc = rt.alloc();
    let stores = four(alloc)?;
    let mut rules = RuleSet::new(alloc)?;
    put_rule(&mut rules, rule(alloc, "x", 1, "", "40")?)?;
    let beat = region(alloc, &[(1, V)])?;
    let text = says(alloc, &beat, &rules, &stores, 1000)?;
    assert_eq!(rt; text.as_str(), "split 1");
    Ok(())
}

#[test]
fn the_leader_moves_before_it_goes(rt: HostRuntime) -> Result<(), Fail> {
    let alloc = rt.alloc();
    let stores = four(alloc)?;
    let mut rules = RuleSet::new(alloc)?;
    put_rule(&mut rules, rule(alloc, "default", 1, "z2", "")?)?;
    let beat = region(alloc, &[(1, V), (2, V)])?;
    let text = says(alloc, &beat, &rules, &stores, 1_801_001)?;
    assert_eq!(rt;
        text.as_str(),
        "Remove 1 0, transfer-leader peer 12 store 2, remove-peer peer 11 store 1"
    );
    Ok(())
}

// Live stores with the ids 1, 2, .. in these zones.
fn zones(alloc: Global, zones: &[&str]) -> Result<Stores, Fail> {
    let mut stores = Stores::new(alloc);
    let mut id = 1;
    for zone in zones {
        put_store(alloc, &mut stores, id, zone, 1000)?;
        id = id % 1000 + 1;
    }
    Ok(stores)
}

#[test]
fn a_pending_learner_is_no_candidate(rt: HostRuntime) -> Result<(), Fail> {
    let alloc = rt.alloc();
    let stores = zones(alloc, &["", "", ""])?;
    let mut beat = region(alloc, &[(1, V), (2, V), (3, L)])?;
    beat.pending.push(13)?;
    let text = says(alloc, &beat, &RuleSet::new(alloc)?, &stores, 1000)?;
    assert_eq!(rt; text.as_str(), "stuck 2 by peer 13");
    Ok(())
}

// The region of these peers: `1v 2l` are a voter on store 1 and a learner on store 2.
fn peers_of(alloc: Global, words: &str) -> Result<RegionBeat, Fail> {
    let mut list: Vec<(u64, Role)> = Vec::new(alloc);
    for word in words.split(' ') {
        let role = if word.ends_with('l') { L } else { V };
        let store = word.get(0..1).unwrap_or("").parse().unwrap_or(0);
        list.push((store, role))?;
    }
    region(alloc, &list)
}

// The rule of `ROLE COUNT [ZONE]`, which keeps peers apart by their zones.
fn rule_of(alloc: Global, id: &str, words: &str) -> Result<Rule, Fail> {
    let mut words = words.split(' ');
    let role = match words.next() {
        Some("leader") => RuleRole::Leader,
        Some("follower") => RuleRole::Follower,
        Some("learner") => RuleRole::Learner,
        _ => RuleRole::Voter,
    };
    let count = words.next().unwrap_or("").parse().unwrap_or(0);
    let mut one = ruled(alloc, id, role, count, words.next().unwrap_or(""), "")?;
    one.locations.push(text(alloc, "zone")?)?;
    Ok(one)
}

// One rule, or two.
fn rules_of(alloc: Global, first: &str, last: &str) -> Result<RuleSet, Fail> {
    let mut rules = RuleSet::new(alloc)?;
    if !first.is_empty() {
        put_rule(&mut rules, rule_of(alloc, "A", first)?)?;
    }
    put_rule(&mut rules, rule_of(alloc, "default", last)?)?;
    Ok(rules)
}

// Each class with each of its ties: the zones of the stores 1, 2, .., the region's peers, the rules, the
// peers of a heartbeat that stands, and what is said.
const TIES: [(&str, &str, &str, &str, &str, &str); 14] = [
    // The least peer, of those that lower the number.
    (
        "- - - -",
        "1v 2v 3l 4l",
        "",
        "voter 3",
        "",
        "Promote 3 1, promote-learner peer 13 store 3",
    ),
    (
        "- - z3 z4",
        "1v 2v 3l 4l",
        "voter 1 z4",
        "voter 2",
        "",
        "Promote 3 1, promote-learner peer 14 store 4",
    ),
    // The least number, and then the least peer.
    (
        "z1 z2 z3",
        "1v 2v 3v",
        "leader 1 z3",
        "follower 1 z1",
        "",
        "Transfer 5 1, transfer-leader peer 13 store 3",
    ),
    (
        "z1 z2 z2",
        "1v 2v 3v",
        "leader 1 z2",
        "follower 2",
        "",
        "Transfer 2 0, transfer-leader peer 12 store 2",
    ),
    // The greatest score, then the fewest regions, and then the least store.
    (
        "z1 z2 z1 z3",
        "1v 2v",
        "",
        "voter 3",
        "",
        "AddVoter 1 0, add-learner peer 0 store 4, promote-learner peer 0 store 4",
    ),
    (
        "z1 z2 z1 z3",
        "1v 2v",
        "",
        "voter 3",
        "4v",
        "AddVoter 1 0, add-learner peer 0 store 4, promote-learner peer 0 store 4",
    ),
    (
        "- - - -",
        "1v 2v",
        "",
        "voter 3",
        "3v",
        "AddVoter 1 0, add-learner peer 0 store 4, promote-learner peer 0 store 4",
    ),
    (
        "- - - -",
        "1v 2v",
        "",
        "voter 3",
        "",
        "AddVoter 1 0, add-learner peer 0 store 3, promote-learner peer 0 store 3",
    ),
    (
        "z1 z2 z1 z3",
        "1v 2v",
        "learner 1",
        "voter 2",
        "",
        "AddLearner 1 0, add-learner peer 0 store 4",
    ),
    (
        "- - - -",
        "1v 2v",
        "learner 1",
        "voter 2",
        "3v",
        "AddLearner 1 0, add-learner peer 0 store 4",
    ),
    (
        "- - - -",
        "1v 2v",
        "learner 1",
        "voter 2",
        "",
        "AddLearner 1 0, add-learner peer 0 store 3",
    ),
    // The least score, and then the least peer, of those that lower the number.
    (
        "z1 z2 z2",
        "1v 2v 3v",
        "",
        "voter 2",
        "",
        "Remove 1 0, remove-peer peer 12 store 2",
    ),
    (
        "- - -",
        "1v 2v 3v",
        "",
        "voter 2",
        "",
        "Remove 1 0, transfer-leader peer 12 store 2, remove-peer peer 11 store 1",
    ),
    (
        "z1 z2 z3",
        "1v 2v 3v",
        "voter 1 z1",
        "voter 1 z3",
        "",
        "Remove 1 0, remove-peer peer 12 store 2",
    ),
];

#[test]
fn each_tie_of_each_class_is_decided(rt: HostRuntime) -> Result<(), Fail> {
    let alloc = rt.alloc();
    for (zone_words, peers, first, last, held, words) in TIES {
        let list: Vec<&str> = zone_words.split(' ').collect(alloc)?;
        let stores = zones(alloc, &list)?;
        let rules = rules_of(alloc, first, last)?;
        let mut standing = Standing::new(alloc);
        if !held.is_empty() {
            standing.intake(peers_of(alloc, held)?)?;
        }
        let beat = peers_of(alloc, peers)?;
        let text = says_beside(alloc, &beat, &rules, &stores, &standing, 1000)?;
        assert_eq!(rt;
            text.as_str(),
            words,
            "{peers} among {zone_words} under {first} {last}"
        );
    }
    Ok(())
}
