use crate::{BuildFault, Held, Why, Wish, after, build, conf_change, finished, gate, with_id};
use pd_types::{
    Epoch, NoMemory, Peer, Region, RegionBeat, Role, Seq, Step, StoreRec, StoreState, Text,
};
use std::alloc::Global;
use std::test::Fail;
use store_table::Stores;

const VOTER: Role = Role::Voter;

const LEARNER: Role = Role::Learner;

// A region of these peers, led by the peer 11, with these peers pending.
fn region(
    alloc: Global,
    peers: &[(u64, u64, Role)],
    pending: &[u64],
) -> Result<RegionBeat, NoMemory> {
    let mut list = Seq::new(alloc);
    for (id, store, role) in peers {
        list.push(Peer {
            id: *id,
            store: *store,
            role: *role,
        })?;
    }
    let mut behind = Seq::new(alloc);
    for id in pending {
        behind.push(*id)?;
    }
    Ok(RegionBeat {
        region: Region {
            id: 7,
            start: Seq::new(alloc),
            end: Seq::new(alloc),
            epoch: Epoch {
                conf_ver: 1,
                version: 1,
            },
            peers: list,
        },
        leader: 11,
        down: Seq::new(alloc),
        pending: behind,
    })
}

// Stores with these ids and last heartbeats.
fn table(alloc: Global, stores: &[(u64, u64)]) -> Result<Stores, Fail> {
    let mut table = Stores::new(alloc);
    for (id, moment) in stores {
        let rec = StoreRec {
            id: *id,
            address: Text::of(String::from_str(alloc, "a")?),
            labels: Seq::new(alloc),
            state: StoreState::Up,
        };
        table.put(rec, *moment)?;
    }
    Ok(table)
}

// Two of three voters were silent for more than 20 seconds: no step is sent, and a millisecond
// earlier it is.
#[test]
fn removal_waits_for_a_majority_of_live_voters(rt: HostRuntime) -> Result<(), Fail> {
    let beat = region(
        rt.alloc(),
        &[(11, 1, VOTER), (12, 2, VOTER), (13, 3, VOTER)],
        &[],
    )?;
    let stores = table(rt.alloc(), &[(1, 21_001), (2, 1000), (3, 1000)])?;
    let step = Step::RemovePeer { peer: 13, store: 3 };
    let held = Held {
        live: 1,
        voters: 3,
        why: Why::Before,
    };
    assert_eq!(rt; gate(&step, &beat, &stores, 21_001), Err(held));
    assert_eq!(rt; gate(&step, &beat, &stores, 21_000), Ok(()));
    Ok(())
}

#[test]
fn the_first_failing_test_is_named_with_its_numbers(rt: HostRuntime) -> Result<(), Fail> {
    let beat = region(
        rt.alloc(),
        &[
            (11, 1, VOTER),
            (12, 2, VOTER),
            (13, 3, VOTER),
            (14, 4, LEARNER),
            (16, 6, LEARNER),
        ],
        &[12, 14],
    )?;
    let stores = table(
        rt.alloc(),
        &[(1, 9000), (2, 9000), (3, 1), (4, 9000), (5, 9000)],
    )?;
    let held = |live, voters, why| Err(Held { live, voters, why });
    let rows = [
        // The silent voter goes, and a live one stays.
        (Step::RemovePeer { peer: 13, store: 3 }, Ok(())),
        // One of two voters would be live.
        (
            Step::RemovePeer { peer: 12, store: 2 },
            held(1, 2, Why::After),
        ),
        // The same for the leader, so the second test comes before the third.
        (
            Step::RemovePeer { peer: 11, store: 1 },
            held(1, 2, Why::After),
        ),
        (
            Step::PromoteLearner { peer: 14, store: 4 },
            held(2, 3, Why::Target),
        ),
        // Two of four would be live, and half is no majority.
        (
            Step::PromoteLearner { peer: 16, store: 6 },
            held(2, 4, Why::After),
        ),
        (
            Step::TransferLeader { peer: 12, store: 2 },
            held(2, 3, Why::Target),
        ),
        (
            Step::TransferLeader { peer: 13, store: 3 },
            held(2, 3, Why::Target),
        ),
        (
            Step::TransferLeader { peer: 12, store: 5 },
            held(2, 3, Why::Target),
        ),
        (Step::TransferLeader { peer: 11, store: 1 }, Ok(())),
        (Step::AddLearner { peer: 15, store: 5 }, Ok(())),
        (Step::AddLearner { peer: 14, store: 4 }, Ok(())),
        (
            Step::AddLearner { peer: 14, store: 5 },
            held(2, 3, Why::Target),
        ),
        (
            Step::AddLearner { peer: 15, store: 4 },
            held(2, 3, Why::Target),
        ),
    ];
    for (step, answer) in rows {
        assert_eq!(rt; gate(&step, &beat, &stores, 21_000), answer, "at {step}");
    }
    Ok(())
}

#[test]
fn steps_leave_a_region_in_which_they_are_finished(rt: HostRuntime) -> Result<(), Fail> {
    let alloc = rt.alloc();
    let beat = region(
        alloc,
        &[(11, 1, VOTER), (12, 2, VOTER), (14, 4, LEARNER)],
        &[],
    )?;
    let rows = [
        (Step::AddLearner { peer: 15, store: 5 }, 11, 4, 1),
        (Step::PromoteLearner { peer: 14, store: 4 }, 11, 3, 1),
        (Step::TransferLeader { peer: 12, store: 2 }, 12, 3, 0),
        (Step::RemovePeer { peer: 12, store: 2 }, 11, 2, 1),
    ];
    for (step, leader, peers, change) in rows {
        assert_eq!(rt; finished(&step, &beat), false, "before {step}");
        let left = after(alloc, &step, &beat)?;
        assert_eq!(rt; finished(&step, &left), true, "after {step}");
        assert_eq!(rt; left.leader, leader, "at {step}");
        assert_eq!(rt; left.region.peers.len(), peers, "at {step}");
        assert_eq!(rt; conf_change(&step), change, "at {step}");
    }
    Ok(())
}

#[test]
fn a_peer_moves_by_four_steps(rt: HostRuntime) -> Result<(), Fail> {
    let alloc = rt.alloc();
    let beat = region(
        alloc,
        &[(11, 1, VOTER), (12, 2, VOTER), (13, 3, VOTER)],
        &[],
    )?;
    let stores = table(alloc, &[(1, 1000), (2, 1000), (3, 1000), (4, 1000)])?;
    let steps = build(
        alloc,
        &Wish::MovePeer { from: 1, to: 4 },
        &beat,
        &stores,
        1000,
    )?;
    let steps = with_id(steps, 1_000_001);
    let wanted = [
        "add-learner peer 1000001 store 4",
        "promote-learner peer 1000001 store 4",
        "transfer-leader peer 12 store 2",
        "remove-peer peer 11 store 1",
    ];
    assert_eq!(rt; steps.len(), 4);
    for (step, text) in steps.as_slice().iter().zip(wanted) {
        let written = format!(in alloc; "{step}")?;
        assert_eq!(rt; written.as_str(), text);
    }
    Ok(())
}

// The steps of a wish, each with a semicolon behind it; a new peer has the id 99.
fn told(alloc: Global, wish: &Wish, beat: &RegionBeat, stores: &Stores) -> Result<String, Fail> {
    let steps = with_id(build(alloc, wish, beat, stores, 1000)?, 99);
    let mut text = String::new(alloc);
    for step in steps.as_slice() {
        let written = format!(in alloc; "{step}; ")?;
        text.push_str(written.as_str())?;
    }
    Ok(text)
}

// pd-ctl, `operator add`. The leader hands the lead to the voter on store 2 before it goes; the peer
// on store 3 is a learner and stays one where it moves.
#[test]
fn each_wish_has_its_steps(rt: HostRuntime) -> Result<(), Fail> {
    let alloc = rt.alloc();
    let peers = [(11, 1, VOTER), (12, 2, VOTER), (13, 3, LEARNER)];
    let beat = region(alloc, &peers, &[])?;
    let stores = table(alloc, &[(1, 1000), (2, 1000), (3, 1000), (4, 1000)])?;
    let rows = [
        (
            Wish::AddPeer { store: 4 },
            "add-learner peer 99 store 4; promote-learner peer 99 store 4; ",
        ),
        (
            Wish::TransferLeader { store: 2 },
            "transfer-leader peer 12 store 2; ",
        ),
        (
            Wish::RemovePeer { store: 2 },
            "remove-peer peer 12 store 2; ",
        ),
        (
            Wish::RemovePeer { store: 1 },
            "transfer-leader peer 12 store 2; remove-peer peer 11 store 1; ",
        ),
        (
            Wish::MovePeer { from: 2, to: 4 },
            "add-learner peer 99 store 4; promote-learner peer 99 store 4; remove-peer peer 12 store 2; ",
        ),
        (
            Wish::MovePeer { from: 3, to: 4 },
            "add-learner peer 99 store 4; remove-peer peer 13 store 3; ",
        ),
    ];
    for (wish, wanted) in rows {
        let text = told(alloc, &wish, &beat, &stores)?;
        assert_eq!(rt; text.as_str(), wanted, "of {wish:?}");
    }
    Ok(())
}

// Rows in which two faults apply show their order.
#[test]
fn the_first_fault_of_a_wish_is_named(rt: HostRuntime) -> Result<(), Fail> {
    let alloc = rt.alloc();
    let beat = region(
        alloc,
        &[
            (11, 1, LEARNER),
            (12, 2, LEARNER),
            (13, 3, VOTER),
            (14, 4, VOTER),
        ],
        &[13],
    )?;
    let stores = table(
        alloc,
        &[
            (1, 1_900_000),
            (2, 1_900_000),
            (3, 1_900_000),
            (4, 1),
            (5, 1_900_000),
        ],
    )?;
    let rows = [
        (Wish::AddPeer { store: 9 }, BuildFault::UnknownStore),
        (Wish::MovePeer { from: 9, to: 4 }, BuildFault::UnknownStore),
        (Wish::MovePeer { from: 5, to: 9 }, BuildFault::UnknownStore),
        (Wish::AddPeer { store: 4 }, BuildFault::NotUsable),
        (Wish::MovePeer { from: 5, to: 4 }, BuildFault::NotUsable),
        (Wish::AddPeer { store: 2 }, BuildFault::HasPeer),
        (Wish::MovePeer { from: 5, to: 2 }, BuildFault::HasPeer),
        (Wish::RemovePeer { store: 5 }, BuildFault::NoPeer),
        (Wish::TransferLeader { store: 5 }, BuildFault::NoPeer),
        (Wish::TransferLeader { store: 1 }, BuildFault::IsLeader),
        (Wish::TransferLeader { store: 2 }, BuildFault::NotVoter),
        (Wish::RemovePeer { store: 1 }, BuildFault::NoTarget),
    ];
    for (wish, fault) in rows {
        let answer = build(alloc, &wish, &beat, &stores, 1_900_000).err();
        assert_eq!(rt; answer, Some(fault), "at {wish:?}");
    }
    Ok(())
}
