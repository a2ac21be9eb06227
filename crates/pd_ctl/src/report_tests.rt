use crate::{Parts, read_command, report};
use heartbeat::Standing;
use op_control::{NewOp, Operators};
use pd_types::{
    Bytes, Downs, Epoch, Ids, Label, Labels, NoMemory, Peer, Peers, Region, RegionBeat, Role, Step,
    Steps, StoreRec, StoreState, Text, Texts,
};
use std::alloc::{AllocError, Global};
use std::process::Abort;
use std::test::Fail;
use store_limit::Limits;
use store_table::Stores;

fn text(alloc: Global, words: &str) -> Result<Text, AllocError> {
    Ok(Text::of(String::from_str(alloc, words)?))
}

fn bytes(alloc: Global, items: &[u8]) -> Result<Bytes, AllocError> {
    Ok(Bytes::of(Vec::from_slice(alloc, items)?))
}

fn store(
    alloc: Global,
    id: u64,
    address: &str,
    labels: &[(&str, &str)],
) -> Result<StoreRec, NoMemory> {
    let mut list = Labels::new(alloc);
    for (key, value) in labels {
        list.push(Label {
            key: text(alloc, key)?,
            value: text(alloc, value)?,
        })?;
    }
    Ok(StoreRec {
        id,
        address: text(alloc, address)?,
        labels: list,
        state: StoreState::Up,
    })
}

// A heartbeat, whose first peer leads.
fn beat(
    alloc: Global,
    id: u64,
    start: &[u8],
    end: &[u8],
    epoch: Epoch,
    peers: &[Peer],
) -> Result<RegionBeat, NoMemory> {
    let mut list = Peers::new(alloc);
    for peer in peers {
        list.push(*peer)?;
    }
    let leader = match peers.first() {
        Some(peer) => peer.id,
        None => 0,
    };
    Ok(RegionBeat {
        region: Region {
            id,
            start: bytes(alloc, start)?,
            end: bytes(alloc, end)?,
            epoch,
            peers: list,
        },
        leader,
        down: Downs::new(alloc),
        pending: Ids::new(alloc),
    })
}

fn voter(id: u64, store: u64) -> Peer {
    Peer {
        id,
        store,
        role: Role::Voter,
    }
}

const FIRST: Epoch = Epoch {
    conf_ver: 1,
    version: 1,
};

// The tables of a driver's cluster in its term.
#[derive(Drop)]
struct Tables {
    stores: Stores,
    standing: Standing,
    operators: Operators,
    limits: Limits,
    names: Texts,
}

impl Tables {
    fn new(alloc: Global) -> Tables {
        Tables {
            stores: Stores::new(alloc),
            standing: Standing::new(alloc),
            operators: Operators::new(alloc),
            limits: Limits::new(alloc),
            names: Texts::new(alloc),
        }
    }

    // A row's command at its clock has its report.
    fn tells<A: Abort>(&self, rt: &A, alloc: Global, row: &str) -> Result<(), Fail> {
        let (clock, row) = row.split_once(' ').unwrap_or(("", row));
        let (words, told) = row.split_once(" => ").unwrap_or((row, ""));
        let parts = Parts {
            stores: &self.stores,
            standing: &self.standing,
            operators: &self.operators,
            limits: &self.limits,
            names: &self.names,
            clock: clock.parse::<u64>()?,
            driver: 1,
            term: 3,
        };
        let command = read_command(alloc, words.as_bytes())?;
        assert!(rt; command.only_reads(), "{words} changes");
        let json = report(alloc, &command, &parts)?;
        let json = String::from_utf8_lossy(alloc, json.as_slice())?;
        assert_eq!(rt; json.as_str(), told, "{words}");
        Ok(())
    }

    // Each row's command at its clock has its report.
    fn tells_all<A: Abort>(&self, rt: &A, alloc: Global, rows: &str) -> Result<(), Fail> {
        for row in rows.lines() {
            self.tells(rt, alloc, row)?;
        }
        Ok(())
    }
}

// Five stores in three zones, and eight regions on the stores 1, 3 and 5.
const REALISTIC: &str =
    r#"1004 store 1 => {"address":"s1","id":1,"labels":[{"key":"zone","value":"z1"}],"leader_count":8,"region_count":8,"state_name":"Up"}
1004 store 3 => {"address":"s3","id":3,"labels":[{"key":"zone","value":"z2"},{"key":"disk","value":"ssd"}],"leader_count":0,"region_count":8,"state_name":"Up"}
1004 store 4 => {"address":"s4","id":4,"labels":[],"leader_count":0,"region_count":0,"state_name":"Up"}
1004 store 6 => {"fault":"unknown-store"}
1004 region 2 => {"conf_ver":1,"end_key":"40","id":2,"leader":21,"peers":[{"id":21,"role":"Voter","store_id":1},{"id":22,"role":"Voter","store_id":3},{"id":23,"role":"Voter","store_id":5}],"start_key":"20","version":1}
1004 region key 20 => {"conf_ver":1,"end_key":"40","id":2,"leader":21,"peers":[{"id":21,"role":"Voter","store_id":1},{"id":22,"role":"Voter","store_id":3},{"id":23,"role":"Voter","store_id":5}],"start_key":"20","version":1}
1004 region key 3FFF => {"conf_ver":1,"end_key":"40","id":2,"leader":21,"peers":[{"id":21,"role":"Voter","store_id":1},{"id":22,"role":"Voter","store_id":3},{"id":23,"role":"Voter","store_id":5}],"start_key":"20","version":1}
1004 region key - => {"conf_ver":1,"end_key":"20","id":1,"leader":11,"peers":[{"id":11,"role":"Voter","store_id":1},{"id":12,"role":"Voter","store_id":3},{"id":13,"role":"Voter","store_id":5}],"start_key":"","version":1}
1004 region 9 => {"fault":"no-region"}
1004 operator show => {"operators":[]}
1004 operator check 1 => {"fault":"absent"}
1004 scheduler show => {"schedulers":["balance-leader-scheduler"]}
1004 member leader show => {"driver":1,"term":3}
1004 tso 395181938313123110 => {"logical":120102,"physical":1507499459507}
"#;

fn realistic(alloc: Global) -> Result<Tables, Fail> {
    let mut tables = Tables::new(alloc);
    let zones: [(u64, &str, &[(&str, &str)]); 5] = [
        (5, "s5", &[("zone", "z3")]),
        (4, "s4", &[]),
        (3, "s3", &[("zone", "z2"), ("disk", "ssd")]),
        (2, "s2", &[("zone", "z1")]),
        (1, "s1", &[("zone", "z1")]),
    ];
    for (id, address, labels) in zones {
        tables.stores.put(store(alloc, id, address, labels)?, 1000)?;
    }
    for r in 1..9u8 {
        let start = [32 * (r - 1)];
        let end = if r < 8 { [32 * r] } else { [0] };
        let start = if r == 1 { &[] } else { start.as_slice() };
        let end = if r == 8 { &[] } else { end.as_slice() };
        let id = u64::from(r) * 10;
        let peers = [voter(id + 1, 1), voter(id + 2, 3), voter(id + 3, 5)];
        let told = beat(alloc, u64::from(r), start, end, FIRST, &peers)?;
        tables.standing.intake(told)?;
    }
    tables.names.push(text(alloc, "balance-leader-scheduler")?)?;
    Ok(tables)
}

#[test]
fn a_realistic_cluster_is_told(rt: HostRuntime) -> Result<(), Fail> {
    let alloc = rt.alloc();
    realistic(alloc)?.tells_all(&rt, alloc, REALISTIC)
}

const WHOLE: &str =
    r#"1004 region 10 => {"conf_ver":1,"end_key":"","id":10,"leader":41,"peers":[{"id":41,"role":"Voter","store_id":1}],"start_key":"","version":7}
1004 region key ff => {"conf_ver":1,"end_key":"","id":10,"leader":41,"peers":[{"id":41,"role":"Voter","store_id":1}],"start_key":"","version":7}
"#;

// One region holds all keys.
#[test]
fn a_region_is_told_as_reported(rt: HostRuntime) -> Result<(), Fail> {
    let alloc = rt.alloc();
    let mut tables = Tables::new(alloc);
    let epoch = Epoch {
        conf_ver: 1,
        version: 7,
    };
    let told = beat(alloc, 10, &[], &[], epoch, &[voter(41, 1)])?;
    tables.standing.intake(told)?;
    tables.tells_all(&rt, alloc, WHOLE)
}

const PART: &str =
    r#"1005 region key AB00 => {"conf_ver":3,"end_key":"cd00","id":10,"leader":41,"peers":[{"id":41,"role":"Voter","store_id":1},{"id":9,"role":"Learner","store_id":4}],"start_key":"ab","version":8}
1005 region key cd00 => {"fault":"no-region"}
1005 region key aa => {"fault":"no-region"}
1005 region key - => {"fault":"no-region"}
"#;

// A region of which a peer is no voter, and keys that none holds.
#[test]
fn a_learner_is_told(rt: HostRuntime) -> Result<(), Fail> {
    let alloc = rt.alloc();
    let mut tables = Tables::new(alloc);
    let epoch = Epoch {
        conf_ver: 3,
        version: 8,
    };
    let learner = Peer {
        id: 9,
        store: 4,
        role: Role::Learner,
    };
    let peers = [voter(41, 1), learner];
    let told = beat(alloc, 10, &[0xab], &[0xcd, 0], epoch, &peers)?;
    tables.standing.intake(told)?;
    tables.tells_all(&rt, alloc, PART)
}

// A store that a new term was handed has sent no heartbeat in it.
#[test]
fn a_loaded_store_is_told(rt: HostRuntime) -> Result<(), Fail> {
    let alloc = rt.alloc();
    let mut tables = Tables::new(alloc);
    tables.tells(&rt, alloc, r#"0 store => {"count":0,"stores":[]}"#)?;
    tables.stores.load(store(alloc, 1, "a1", &[])?, 500)?;
    tables.tells(
        &rt,
        alloc,
        r#"1002 store => {"count":1,"stores":[{"address":"a1","id":1,"labels":[],"leader_count":0,"region_count":0,"state_name":"Disconnected"}]}"#,
    )
}

// The store 9 was put first, and is Offline.
const STORES: &str =
    r#"21000 store => {"count":2,"stores":[{"address":"a2","id":2,"labels":[],"leader_count":0,"region_count":0,"state_name":"Up"},{"address":"a9","id":9,"labels":[],"leader_count":0,"region_count":0,"state_name":"Offline"}]}
21001 store 2 => {"address":"a2","id":2,"labels":[],"leader_count":0,"region_count":0,"state_name":"Disconnected"}
1801000 store 2 => {"address":"a2","id":2,"labels":[],"leader_count":0,"region_count":0,"state_name":"Disconnected"}
1801001 store 2 => {"address":"a2","id":2,"labels":[],"leader_count":0,"region_count":0,"state_name":"Down"}
1801001 store 9 => {"address":"a9","id":9,"labels":[],"leader_count":0,"region_count":0,"state_name":"Offline"}
"#;

#[test]
fn stores_are_told_by_rising_id(rt: HostRuntime) -> Result<(), Fail> {
    let alloc = rt.alloc();
    let mut tables = Tables::new(alloc);
    tables.stores.put(store(alloc, 9, "a9", &[])?, 1000)?;
    tables.stores.put(store(alloc, 2, "a2", &[])?, 1000)?;
    tables.stores.delete(9)?;
    tables.tells_all(&rt, alloc, STORES)?;
    tables.stores.bury(9)?;
    tables.tells(
        &rt,
        alloc,
        r#"1801001 store 9 => {"address":"a9","id":9,"labels":[],"leader_count":0,"region_count":0,"state_name":"Tombstone"}"#,
    )
}

// The steps that move the leader's peer from store 1 to store 4.
const MOVE: [Step; 4] = [
    Step::AddLearner {
        peer: 1_000_001,
        store: 4,
    },
    Step::PromoteLearner {
        peer: 1_000_001,
        store: 4,
    },
    Step::TransferLeader { peer: 12, store: 2 },
    Step::RemovePeer { peer: 11, store: 1 },
];

// The heartbeat of the region 7 before the first step is done, and after it.
fn moving(alloc: Global, added: bool) -> Result<RegionBeat, NoMemory> {
    let learner = Peer {
        id: 1_000_001,
        store: 4,
        role: Role::Learner,
    };
    let peers = [voter(11, 1), voter(12, 2), voter(13, 3), learner];
    let epoch = Epoch {
        conf_ver: 2,
        version: 1,
    };
    if added {
        beat(alloc, 7, &[], &[], epoch, &peers)
    } else {
        beat(alloc, 7, &[], &[], FIRST, &peers[..3])
    }
}

// Four stores, and the operator that moves the leader's peer.
fn operating(alloc: Global) -> Result<Tables, Fail> {
    let mut tables = Tables::new(alloc);
    for (id, address) in [(1, "a1"), (2, "a2"), (3, "a3"), (4, "a4")] {
        tables.stores.put(store(alloc, id, address, &[])?, 1000)?;
        tables.limits.know(id, 1000)?;
    }
    let op = NewOp {
        region: 7,
        epoch: FIRST,
        steps: Steps::of(Vec::from_slice(alloc, &MOVE)?),
        kind: text(alloc, "admin")?,
        priority: 3,
    };
    let kept = moving(alloc, false)?;
    let limits = &mut tables.limits;
    tables.operators.add(op, Some(&kept), limits, 1000)?;
    Ok(tables)
}

const CREATED: &str = r#"1000 operator check 7 => {"region":7,"state":"Created"}"#;

const STARTED: &str =
    r#"1000 operator show => {"operators":[{"kind":"admin","region":7,"state":"Started","step":0,"steps":["add-learner peer 1000001 store 4","promote-learner peer 1000001 store 4","transfer-leader peer 12 store 2","remove-peer peer 11 store 1"]}]}"#;

const PASSED: &str =
    r#"1001 operator show => {"operators":[{"kind":"admin","region":7,"state":"Started","step":1,"steps":["add-learner peer 1000001 store 4","promote-learner peer 1000001 store 4","transfer-leader peer 12 store 2","remove-peer peer 11 store 1"]}]}"#;

const ENDED: &str = r#"1002 operator show => {"operators":[]}
1002 operator check 7 => {"region":7,"state":"Canceled"}
"#;

#[test]
fn an_operator_is_told_with_its_steps(rt: HostRuntime) -> Result<(), Fail> {
    let alloc = rt.alloc();
    let mut tables = operating(alloc)?;
    tables.tells(&rt, alloc, CREATED)?;
    for (added, moment, told) in [(false, 1000, STARTED), (true, 1001, PASSED)] {
        let kept = moving(alloc, added)?;
        tables.operators.dispatch(&kept, &tables.stores, moment);
        tables.tells(&rt, alloc, told)?;
    }
    Ok(())
}

#[test]
fn operators_are_told_until_they_end(rt: HostRuntime) -> Result<(), Fail> {
    let alloc = rt.alloc();
    let mut tables = operating(alloc)?;
    tables.operators.remove(7)?;
    tables.tells_all(&rt, alloc, ENDED)
}
