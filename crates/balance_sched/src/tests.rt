use crate::{BalanceLeader, BalanceRegion};
use heartbeat::{Intake, Standing};
use pd_types::{
    Bytes, Epoch, Ids, Peer, Peers, Proposal, Region, RegionBeat, Role, Rule, RuleRole, Seq,
    StoreRec, StoreState, Text,
};
use rule_set::RuleSet;
use sched_api::Scheduler;
use std::alloc::Global;
use std::test::Fail;
use store_table::Stores;

/// What the schedulers are asked over.
#[derive(Drop)]
struct World {
    stores: Stores,
    standing: Standing,
    rules: RuleSet,
    busy: Ids,
}

const NOW: u64 = 2_000_000;

fn text(alloc: Global, words: &str) -> Result<Text, Fail> {
    Ok(Text::of(String::from_str(alloc, words)?))
}

/// The stores 1 to 5, of which each was heard of now but those that are silent, the regions that
/// stand, and what is proposed over them.
#[derive(Clone, Copy)]
struct Row {
    what: &'static str,
    /// How many voters the rule wants of a region.
    voters: u32,
    /// Stores that were last heard of 20,001 ms ago, and one that is Offline.
    silent: &'static [u64],
    offline: Option<u64>,
    /// Each region's id and the stores of its voters, of which the first leads, in key order.
    regions: &'static [(u64, &'static [u64])],
    /// Peers that are pending, and regions that have an operator.
    pending: &'static [u64],
    busy: &'static [u64],
    /// The region, the source and the target of a peer's move; the region and the target of a leader's.
    peer: Option<(u64, u64, u64)>,
    leader: Option<(u64, u64)>,
}

// The stores of a row.
fn stores(alloc: Global, row: &Row) -> Result<Stores, Fail> {
    let mut stores = Stores::new(alloc);
    for id in 1..6u64 {
        let rec = StoreRec {
            id,
            address: text(alloc, "a")?,
            labels: Seq::new(alloc),
            state: StoreState::Up,
        };
        let moment = if row.silent.contains(&id) {
            NOW - 20_001
        } else {
            NOW
        };
        stores.put(rec, moment)?;
    }
    if let Some(id) = row.offline {
        stores.delete(id)?;
    }
    Ok(stores)
}

// The default rule, for this many voters.
fn rules(alloc: Global, voters: u32) -> Result<RuleSet, Fail> {
    let mut rules = RuleSet::new(alloc)?;
    rules.set(Rule {
        group: text(alloc, "pd")?,
        id: text(alloc, "default")?,
        index: 0,
        overrides: false,
        start: Bytes::new(alloc),
        end: Bytes::new(alloc),
        role: RuleRole::Voter,
        count: voters,
        constraints: Seq::new(alloc),
        locations: Seq::new(alloc),
    })?;
    Ok(rules)
}

fn ids(alloc: Global, items: &[u64]) -> Result<Ids, Fail> {
    Ok(Ids::of(Vec::from_slice(alloc, items)?))
}

// A region's voters. The peer on a store has the id 10 times the region's and the store's.
fn voters(alloc: Global, region: u64, stores: &[u64]) -> Result<Peers, Fail> {
    let mut peers = Seq::new(alloc);
    for store in stores {
        peers.push(Peer {
            id: region.wrapping_mul(10).wrapping_add(*store),
            store: *store,
            role: Role::Voter,
        })?;
    }
    Ok(peers)
}

// A key of one byte; none is the empty key.
fn key(alloc: Global, byte: Option<u8>) -> Result<Bytes, Fail> {
    let mut key = Bytes::new(alloc);
    if let Some(byte) = byte {
        key.push(byte)?;
    }
    Ok(key)
}

// The heartbeat of the region at a place of a row, which begins at the place's number.
fn beat(alloc: Global, row: &Row, place: u8) -> Result<RegionBeat, Fail> {
    let Some((id, stores)) = row.regions.get(usize::from(place)) else {
        return Err(Fail::new("a place without a region"));
    };
    let start = if place == 0 { None } else { Some(place) };
    let last = usize::from(place) + 1 == row.regions.len();
    let end = if last { None } else { place.checked_add(1) };
    let peers = voters(alloc, *id, stores)?;
    let leader = match peers.as_slice().first() {
        Some(peer) => peer.id,
        None => 0,
    };
    Ok(RegionBeat {
        region: Region {
            id: *id,
            start: key(alloc, start)?,
            end: key(alloc, end)?,
            epoch: Epoch {
                conf_ver: 1,
                version: 1,
            },
            peers,
        },
        leader,
        down: Seq::new(alloc),
        pending: ids(alloc, row.pending)?,
    })
}

// The regions of a row, which all stand.
fn standing(alloc: Global, row: &Row) -> Result<Standing, Fail> {
    let mut standing = Standing::new(alloc);
    for place in 0..row.regions.len() {
        let place = u8::try_from(place)?;
        match standing.intake(beat(alloc, row, place)?)? {
            Intake::Accepted { .. } => {}
            Intake::Bad(_) | Intake::Stale { .. } | Intake::Full => {
                return Err(Fail::new("a region wasn't taken in"));
            }
        }
    }
    Ok(standing)
}

fn world_of(alloc: Global, row: &Row) -> Result<World, Fail> {
    Ok(World {
        stores: stores(alloc, row)?,
        standing: standing(alloc, row)?,
        rules: rules(alloc, row.voters)?,
        busy: ids(alloc, row.busy)?,
    })
}

fn region_move(alloc: Global, world: &World) -> Result<Option<Proposal>, Fail> {
    let mut one = BalanceRegion::new(alloc)?;
    Ok(one.propose(
        &world.stores,
        &world.standing,
        &world.rules,
        &world.busy,
        NOW,
    )?)
}

fn leader_move(alloc: Global, world: &World) -> Result<Option<Proposal>, Fail> {
    let mut one = BalanceLeader::new(alloc)?;
    Ok(one.propose(
        &world.stores,
        &world.standing,
        &world.rules,
        &world.busy,
        NOW,
    )?)
}

const NONE: Row = Row {
    what: "nothing stands",
    voters: 1,
    silent: &[],
    offline: None,
    regions: &[],
    pending: &[],
    busy: &[],
    peer: None,
    leader: None,
};

const EIGHT: [(u64, &[u64]); 8] = [
    (1, &[1, 3, 5]),
    (2, &[1, 3, 5]),
    (3, &[1, 3, 5]),
    (4, &[1, 3, 5]),
    (5, &[1, 3, 5]),
    (6, &[1, 3, 5]),
    (7, &[1, 3, 5]),
    (8, &[1, 3, 5]),
];

// By the rule: the greatest difference, then the least region, source and target.
const ROWS: [Row; 16] = [
    NONE,
    Row {
        what: "a difference of one",
        regions: &[(1, &[1])],
        ..NONE
    },
    Row {
        what: "a difference of two",
        regions: &[(1, &[1]), (2, &[1])],
        peer: Some((1, 1, 2)),
        ..NONE
    },
    Row {
        what: "a difference of one to the only other live store",
        silent: &[3, 4, 5],
        regions: &[(1, &[1]), (2, &[1]), (3, &[2])],
        ..NONE
    },
    Row {
        what: "a source that is silent",
        silent: &[1],
        regions: &[(1, &[1]), (2, &[1])],
        ..NONE
    },
    Row {
        what: "the greatest difference, then the least region",
        silent: &[5],
        regions: &[
            (1, &[1]),
            (2, &[1]),
            (3, &[1]),
            (8, &[2]),
            (6, &[2]),
            (7, &[2]),
            (9, &[2]),
            (5, &[3]),
        ],
        peer: Some((6, 2, 4)),
        ..NONE
    },
    Row {
        what: "the next region, where the first has an operator",
        silent: &[5],
        regions: &[
            (1, &[1]),
            (2, &[1]),
            (3, &[1]),
            (8, &[2]),
            (6, &[2]),
            (7, &[2]),
            (9, &[2]),
            (5, &[3]),
        ],
        busy: &[6],
        peer: Some((7, 2, 4)),
        ..NONE
    },
    Row {
        what: "another source, where all its regions have operators",
        silent: &[5],
        regions: &[
            (1, &[1]),
            (2, &[1]),
            (3, &[1]),
            (8, &[2]),
            (6, &[2]),
            (7, &[2]),
            (9, &[2]),
            (5, &[3]),
        ],
        busy: &[6, 7, 8, 9],
        peer: Some((1, 1, 4)),
        ..NONE
    },
    Row {
        what: "the least of two sources, to a store without a peer",
        voters: 2,
        silent: &[4, 5],
        regions: &[(1, &[1, 2]), (2, &[1, 2]), (3, &[2, 1])],
        peer: Some((1, 1, 3)),
        ..NONE
    },
    Row {
        what: "no usable store without a peer",
        voters: 2,
        silent: &[4, 5],
        offline: Some(3),
        regions: &[(1, &[1, 2]), (2, &[1, 2]), (3, &[2, 1])],
        ..NONE
    },
    Row {
        what: "regions that lack a voter",
        voters: 2,
        regions: &[(1, &[1]), (2, &[1])],
        ..NONE
    },
    Row {
        what: "a difference of one between leaders",
        voters: 3,
        silent: &[4, 5],
        regions: &[(1, &[1, 2, 3])],
        ..NONE
    },
    Row {
        what: "a peer that is pending",
        voters: 3,
        silent: &[4, 5],
        regions: &[(1, &[1, 2, 3]), (2, &[1, 3, 2])],
        pending: &[12],
        leader: Some((1, 3)),
        ..NONE
    },
    Row {
        what: "the least store of those that may lead",
        voters: 3,
        silent: &[4, 5],
        regions: &[(1, &[1, 2, 3]), (2, &[1, 3, 2])],
        pending: &[12],
        busy: &[1],
        leader: Some((2, 2)),
        ..NONE
    },
    Row {
        what: "five stores, eight regions on the stores 1, 3 and 5",
        voters: 3,
        regions: &EIGHT,
        peer: Some((1, 1, 2)),
        leader: Some((1, 3)),
        ..NONE
    },
    Row {
        what: "the same, where the first region has an operator",
        voters: 3,
        regions: &EIGHT,
        busy: &[1],
        peer: Some((2, 1, 2)),
        leader: Some((2, 3)),
        ..NONE
    },
];

fn moves(one: Option<(u64, u64, u64)>) -> Option<Proposal> {
    let (region, from, to) = one?;
    Some(Proposal::MovePeer { region, from, to })
}

fn leads(one: Option<(u64, u64)>) -> Option<Proposal> {
    let (region, to) = one?;
    Some(Proposal::MoveLeader { region, to })
}

#[test]
fn the_first_move_is_proposed(rt: HostRuntime) -> Result<(), Fail> {
    let alloc = rt.alloc();
    for row in ROWS {
        let world = world_of(alloc, &row)?;
        let what = row.what;
        assert!(rt; region_move(alloc, &world)? == moves(row.peer), "{what}");
        assert!(rt; leader_move(alloc, &world)? == leads(row.leader), "{what}");
    }
    Ok(())
}

#[test]
fn they_have_pds_names(rt: HostRuntime) -> Result<(), Fail> {
    let alloc = rt.alloc();
    let leader = BalanceLeader::new(alloc)?;
    assert_eq!(rt; leader.name().as_str(), "balance-leader-scheduler");
    let region = BalanceRegion::new(alloc)?;
    assert_eq!(rt; region.name().as_str(), "balance-region-scheduler");
    Ok(())
}
