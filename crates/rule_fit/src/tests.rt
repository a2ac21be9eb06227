mod agreement;

use crate::suiting::peer_suits;
use crate::{
    Certificate, Fit, are_apart, check_certificate, fit, isolation_score, labels_of, labels_of_all,
    misfit_number, rooms, satisfies_all, score_among,
};
use pd_types::{
    Bytes, Constraint, Constraints, Downs, Epoch, Ids, Label, Labels, Op, Peer, Peers, Region,
    RegionBeat, Role, Rule, RuleRole, Rules, StoreRec, StoreState, Text, Texts,
};
use std::alloc::{AllocError, Global};
use std::test::Fail;
use store_table::Stores;

fn text(alloc: Global, words: &str) -> Result<Text, Fail> {
    Ok(Text::of(String::from_str(alloc, words)?))
}

fn rule(alloc: Global, role: RuleRole, count: u32, constraints: Constraints) -> Result<Rule, Fail> {
    Ok(Rule {
        group: text(alloc, "pd")?,
        id: text(alloc, "default")?,
        index: 0,
        overrides: false,
        start: Bytes::new(alloc),
        end: Bytes::new(alloc),
        role,
        count,
        constraints,
        locations: Texts::new(alloc),
    })
}

fn constraint(alloc: Global, key: &str, op: Op, value: &str) -> Result<Constraints, Fail> {
    let mut values = Texts::new(alloc);
    values.push(text(alloc, value)?)?;
    let key = text(alloc, key)?;
    let mut constraints = Constraints::new(alloc);
    constraints.push(Constraint { key, op, values })?;
    Ok(constraints)
}

// A store whose label `zone` has this value, heard of at the moment 10.
fn put_store(alloc: Global, stores: &mut Stores, id: u64, zone: &str) -> Result<(), Fail> {
    let mut labels = Labels::new(alloc);
    labels.push(Label {
        key: text(alloc, "zone")?,
        value: text(alloc, zone)?,
    })?;
    let address = text(alloc, "a:1")?;
    let state = StoreState::Up;
    stores.put(
        StoreRec {
            id,
            address,
            labels,
            state,
        },
        10,
    )?;
    Ok(())
}

// A region whose peers have the ids 11, 12, .. on the stores 1, 2, ..; the first leads.
fn region(alloc: Global, roles: &[Role]) -> Result<RegionBeat, Fail> {
    let mut peers = Peers::new(alloc);
    let mut store = 1;
    for role in roles {
        let role = *role;
        peers.push(Peer {
            id: 10 + store % 100,
            store,
            role,
        })?;
        store = store % 100 + 1;
    }
    let epoch = Epoch {
        conf_ver: 1,
        version: 1,
    };
    let region = Region {
        id: 7,
        start: Bytes::new(alloc),
        end: Bytes::new(alloc),
        epoch,
        peers,
    };
    Ok(RegionBeat {
        region,
        leader: 11,
        down: Downs::new(alloc),
        pending: Ids::new(alloc),
    })
}

fn three_stores(alloc: Global) -> Result<Stores, Fail> {
    let mut stores = Stores::new(alloc);
    put_store(alloc, &mut stores, 1, "z1")?;
    put_store(alloc, &mut stores, 2, "z2")?;
    put_store(alloc, &mut stores, 3, "z1")?;
    Ok(stores)
}

// The answer of `fit`; none where it may not be called.
fn fitted(
    alloc: Global,
    beat: &RegionBeat,
    rules: &Rules,
    stores: &Stores,
) -> Result<Option<Fit>, Fail> {
    let peers = beat.region.peers.as_slice();
    if peers.len() > 15 || rules.len() > 64 || !are_apart(peers) {
        return Ok(None);
    }
    Ok(Some(fit(alloc, beat, rules, stores, 20)?))
}

// A rule for one peer of this role on any store, and one for a voter in zone z1.
fn beside_zone(alloc: Global, role: RuleRole) -> Result<Rules, Fail> {
    let mut rules = Rules::new(alloc);
    rules.push(rule(alloc, role, 1, Constraints::new(alloc))?)?;
    rules.push(rule(
        alloc,
        RuleRole::Voter,
        1,
        constraint(alloc, "zone", Op::In, "z1")?,
    )?)?;
    Ok(rules)
}

// A leader rule of one and a follower rule of one in zone z1: both peers are there, but the second
// suits neither. The totals agree and there is no fit; the certificate is the second peer.
#[test]
fn equal_totals_do_not_fit(rt: HostRuntime) -> Result<(), Fail> {
    let alloc = rt.alloc();
    let stores = three_stores(alloc)?;
    let beat = region(alloc, &[Role::Voter, Role::Voter])?;
    let rules = beside_zone(alloc, RuleRole::Leader)?;
    assert!(rt; beat.region.peers.len() <= 15);
    assert!(rt; rules.len() <= 64);
    let Some(answer) = fitted(alloc, &beat, &rules, &stores)? else {
        panic!(rt; "fit may be called");
    };
    match &answer {
        Fit::Fits { .. } => panic!(rt; "it does not fit"),
        Fit::Misfit { given, certificate } => {
            let given = given.as_slice();
            assert_eq!(rt; given.len(), 2);
            assert_eq!(rt; given.get(1).copied(), Some(None));
            assert!(rt; check_certificate(certificate, &beat, &rules, &stores, 20));
            match certificate {
                Certificate::Peers(ids) => assert_eq!(rt; ids.as_slice(), [12].as_slice()),
                Certificate::Totals { .. } => panic!(rt; "the totals agree"),
            }
        }
    }
    assert_eq!(rt; misfit_number(alloc, &beat, &rules, &stores, 20)?, 2);
    let totals = Certificate::Totals {
        counts: 2,
        peers: 2,
    };
    assert!(rt; !check_certificate(&totals, &beat, &rules, &stores, 20));
    Ok(())
}

// A rule of each pair of a count and a zone, for voters.
fn zone_rules(alloc: Global, rows: &[(u32, &str)]) -> Result<Rules, Fail> {
    let mut rules = Rules::new(alloc);
    for (count, zone) in rows {
        let constraints = constraint(alloc, "zone", Op::In, zone)?;
        rules.push(rule(alloc, RuleRole::Voter, *count, constraints)?)?;
    }
    Ok(rules)
}

// What the certificate of three voters on the stores 1 to 3 says under these rules.
fn certified(alloc: Global, rows: &[(u32, &str)]) -> Result<String, Fail> {
    let stores = three_stores(alloc)?;
    let beat = region(alloc, &[Role::Voter; 3])?;
    let rules = zone_rules(alloc, rows)?;
    match fitted(alloc, &beat, &rules, &stores)? {
        Some(Fit::Misfit { certificate, .. }) => Ok(said(alloc, &certificate)?),
        Some(Fit::Fits { .. }) => Ok(String::from_str(alloc, "fits")?),
        None => Ok(String::new(alloc)),
    }
}

fn said(alloc: Global, certificate: &Certificate) -> Result<String, AllocError> {
    match certificate {
        Certificate::Totals { counts, peers } => format!(in alloc; "totals {counts} {peers}"),
        Certificate::Peers(ids) => format!(in alloc; "peers {:?}", ids.as_slice()),
    }
}

// Unequal totals are the certificate whatever the peers suit, and without rules they are 0 and the
// number of peers. Of the two peers in zone z1 one has the rule of one peer, and each of them shows
// that the other can't have it too.
#[test]
fn a_certificate_is_of_its_kind(rt: HostRuntime) -> Result<(), Fail> {
    let alloc = rt.alloc();
    let without = certified(alloc, &[])?;
    assert_eq!(rt; without.as_str(), "totals 0 3");
    let unequal = certified(alloc, &[(1, "z9"), (1, "z2")])?;
    assert_eq!(rt; unequal.as_str(), "totals 2 3");
    let two = certified(alloc, &[(1, "z1"), (2, "z2")])?;
    assert_eq!(rt; two.as_str(), "peers [11, 13]");
    let fits = certified(alloc, &[(2, "z1"), (1, "z2")])?;
    assert_eq!(rt; fits.as_str(), "fits");
    Ok(())
}

// Which rules have room beside voters on the stores 1, 2, .., of which the first and the third are in
// zone z1 and the second in z2. A rule of any zone has room where its peer can have another.
#[test]
fn a_rule_has_room_where_its_peer_can_move(rt: HostRuntime) -> Result<(), Fail> {
    let alloc = rt.alloc();
    let stores = three_stores(alloc)?;
    let rows = [
        (1, [(1, "z1"), (1, "z2")], [false, true]),
        (2, [(1, "z1"), (1, "z2")], [false, false]),
        (3, [(1, "z1"), (2, "z2")], [false, true]),
        (2, [(1, "z1"), (2, "z1")], [true, true]),
        (1, [(0, "z1"), (1, "z1")], [false, false]),
    ];
    for (row, (peers, asked, marks)) in rows.into_iter().enumerate() {
        let beat = region(alloc, &[Role::Voter; 3][..peers])?;
        let rules = zone_rules(alloc, &asked)?;
        assert!(rt; rules.len() <= 64);
        let found = rooms(alloc, &beat, &rules, &stores, 20)?;
        assert_eq!(rt; found.as_slice(), marks.as_slice(), "row {row}");
    }
    Ok(())
}

// The first peer suits both rules and must leave the first one to the second peer.
#[test]
fn a_path_moves_a_peer(rt: HostRuntime) -> Result<(), Fail> {
    let alloc = rt.alloc();
    let stores = three_stores(alloc)?;
    let beat = region(alloc, &[Role::Voter, Role::Voter])?;
    let rules = beside_zone(alloc, RuleRole::Voter)?;
    assert!(rt; beat.region.peers.len() <= 15);
    assert!(rt; rules.len() <= 64);
    let Some(answer) = fitted(alloc, &beat, &rules, &stores)? else {
        panic!(rt; "fit may be called");
    };
    match answer {
        Fit::Fits { given } => {
            assert_eq!(rt; given.as_slice(), [Some(1), Some(0)].as_slice());
        }
        Fit::Misfit { .. } => panic!(rt; "it fits"),
    }
    assert_eq!(rt; misfit_number(alloc, &beat, &rules, &stores, 20)?, 0);
    Ok(())
}

// PD documentation, "Placement Rules": an absent label counts as the empty value.
#[test]
fn tests_labels_by_the_four_operators(rt: HostRuntime) -> Result<(), Fail> {
    let alloc = rt.alloc();
    let mut labels = Labels::new(alloc);
    labels.push(Label {
        key: text(alloc, "zone")?,
        value: text(alloc, "z1")?,
    })?;
    let rows = [
        ("zone", Op::In, "z1", true),
        ("zone", Op::In, "z2", false),
        ("zone", Op::NotIn, "z1", false),
        ("zone", Op::NotIn, "z2", true),
        ("zone", Op::Exists, "z2", true),
        ("zone", Op::NotExists, "z2", false),
        ("disk", Op::In, "", false),
        ("disk", Op::NotIn, "", true),
        ("disk", Op::Exists, "z1", false),
        ("disk", Op::NotExists, "z1", true),
    ];
    for (key, op, value, holds) in rows {
        let constraints = constraint(alloc, key, op, value)?;
        let answer = satisfies_all(labels.as_slice(), constraints.as_slice());
        assert_eq!(rt; answer, holds, "{key} {value}");
    }
    Ok(())
}

#[test]
fn a_silent_store_suits_no_rule(rt: HostRuntime) -> Result<(), Fail> {
    let alloc = rt.alloc();
    let stores = three_stores(alloc)?;
    let peer = Peer {
        id: 11,
        store: 1,
        role: Role::Voter,
    };
    let voter = rule(alloc, RuleRole::Voter, 1, Constraints::new(alloc))?;
    let follower = rule(alloc, RuleRole::Follower, 1, Constraints::new(alloc))?;
    let learner = rule(alloc, RuleRole::Learner, 1, Constraints::new(alloc))?;
    assert!(rt; peer_suits(11, &stores, 1_800_010, &peer, &voter));
    assert!(rt; !peer_suits(11, &stores, 1_800_011, &peer, &voter));
    assert!(rt; !peer_suits(11, &stores, 20, &peer, &follower));
    assert!(rt; peer_suits(12, &stores, 20, &peer, &follower));
    assert!(rt; !peer_suits(12, &stores, 20, &peer, &learner));
    Ok(())
}

// Two levels, zone and disk: a different zone gives 100, the same zone and no disk 0.
#[test]
fn scores_isolation_by_the_first_different_label(rt: HostRuntime) -> Result<(), Fail> {
    let alloc = rt.alloc();
    let stores = three_stores(alloc)?;
    let mut others = Ids::new(alloc);
    others.push(2)?;
    others.push(3)?;
    let mut labels = Texts::new(alloc);
    labels.push(text(alloc, "zone")?)?;
    labels.push(text(alloc, "disk")?)?;
    assert!(rt; others.len() <= 15);
    assert!(rt; labels.len() <= 4);
    assert_eq!(rt; isolation_score(&stores, 1, &others, &labels), 100);
    let beside = labels_of_all(alloc, &stores, &others)?;
    assert!(rt; beside.len() <= 15);
    let own = labels_of(&stores, 1);
    assert_eq!(rt; score_among(own, &beside, labels.as_slice()), 100);
    Ok(())
}
