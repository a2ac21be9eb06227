use crate::{
    Actor, BeatFault, Bytes, Constraints, DownPeer, Downs, Duplicate, Epoch, Gate, Ids, Label,
    Labels, OpenGate, Peer, Proposal, Region, RegionBeat, Request, Role, Rule, RuleRole, Seq, Step,
    StoreRec, StoreState, Text, Texts, check_beat, pack, unpack,
};
use std::alloc::{AllocError, Global};
use std::process::Abort;
use std::test::Fail;

// The first row is the example of pd-ctl's documentation.
#[test]
fn timestamps_split_as_pd_ctl_prints_them(rt: HostRuntime) {
    let rows = [
        (395_181_938_313_123_110, 1_507_499_459_507, 120_102),
        (262_144_003, 1000, 3),
        (262_143, 0, 262_143),
        (262_144, 1, 0),
    ];
    for (ts, physical, logical) in rows {
        assert_eq!(rt; unpack(ts), (physical, logical), "at {ts}");
        assert_eq!(rt; pack(physical, logical), ts, "at {ts}");
    }
}

// A heartbeat of region 7 with these peers, whose leader is the peer 11.
fn beat_of(
    alloc: Global,
    peers: &[Peer],
    start: &[u8],
    end: &[u8],
) -> Result<RegionBeat, AllocError> {
    Ok(RegionBeat {
        region: Region {
            id: 7,
            start: Bytes::of(start.to_vec(alloc)?),
            end: Bytes::of(end.to_vec(alloc)?),
            epoch: Epoch {
                conf_ver: 1,
                version: 2,
            },
            peers: Seq::of(peers.to_vec(alloc)?),
        },
        leader: 11,
        down: Downs::of(vec![in alloc;
            DownPeer {
                peer: 12,
                seconds: 9
            },
        ]?),
        pending: Ids::of(vec![in alloc; 13]?),
    })
}

fn voter(id: u64, store: u64) -> Peer {
    Peer {
        id,
        store,
        role: Role::Voter,
    }
}

// The answer to a heartbeat with these peers and a range that is at fault.
fn expect(
    rt: &impl Abort,
    alloc: Global,
    peers: &[Peer],
    fault: BeatFault,
) -> Result<(), AllocError> {
    let beat = beat_of(alloc, peers, b"b", b"a")?;
    assert_eq!(rt; check_beat(&beat), Err(fault));
    Ok(())
}

#[test]
fn peers_are_tested_in_order_and_before_keys(rt: HostRuntime) -> Result<(), Fail> {
    let alloc = rt.alloc();
    let learner = Peer {
        id: 11,
        store: 1,
        role: Role::Learner,
    };
    expect(&rt, alloc, &[], BeatFault::NoPeers)?;
    expect(
        &rt,
        alloc,
        &[voter(11, 1), voter(11, 1)],
        BeatFault::DoublePeer,
    )?;
    expect(
        &rt,
        alloc,
        &[voter(12, 1), voter(13, 1)],
        BeatFault::DoubleStore,
    )?;
    expect(&rt, alloc, &[voter(12, 1)], BeatFault::LeaderAbsent)?;
    expect(&rt, alloc, &[learner], BeatFault::LeaderNotVoter)?;
    expect(&rt, alloc, &[voter(11, 1)], BeatFault::BadRange)?;
    let mut many = Vec::new(alloc);
    for i in 0..15u8 {
        many.push(voter(11 + u64::from(i), 1 + u64::from(i)))?;
    }
    expect(&rt, alloc, &many, BeatFault::BadRange)?;
    many.push(voter(11, 1))?;
    expect(&rt, alloc, &many, BeatFault::TooManyPeers)?;
    Ok(())
}

// The answer to a heartbeat with one voter and this range.
fn expect_range(
    rt: &impl Abort,
    alloc: Global,
    start: &[u8],
    end: &[u8],
    answer: Result<(), BeatFault>,
) -> Result<(), AllocError> {
    let beat = beat_of(alloc, &[voter(11, 1)], start, end)?;
    assert_eq!(rt; check_beat(&beat), answer);
    Ok(())
}

#[test]
fn keys_are_tested_by_range_and_length(rt: HostRuntime) -> Result<(), Fail> {
    let alloc = rt.alloc();
    let mut key = vec![in alloc; 0x61; 4096]?;
    expect_range(&rt, alloc, b"b", b"", Ok(()))?;
    expect_range(&rt, alloc, b"a", b"ab", Ok(()))?;
    expect_range(&rt, alloc, b"a", &key, Ok(()))?;
    expect_range(&rt, alloc, b"a", b"a", Err(BeatFault::BadRange))?;
    expect_range(&rt, alloc, b"ab", b"a", Err(BeatFault::BadRange))?;
    key.push(0x61)?;
    expect_range(&rt, alloc, &key, b"a", Err(BeatFault::BadRange))?;
    expect_range(&rt, alloc, b"a", &key, Err(BeatFault::LongKey))?;
    expect_range(&rt, alloc, &key, b"", Err(BeatFault::LongKey))?;
    Ok(())
}

#[test]
fn heartbeats_are_copied(rt: HostRuntime) -> Result<(), Fail> {
    let alloc = rt.alloc();
    let beat = beat_of(alloc, &[voter(11, 1)], b"a", b"b")?;
    let request = Request::Beat {
        store: 1,
        moment: 1000,
        beat: beat.copy(alloc)?,
    };
    let same = request.copy(alloc)?;
    assert!(rt; same == request);
    assert!(rt; same != Request::Retire);
    Ok(())
}

fn text(alloc: Global, word: &str) -> Result<Text, AllocError> {
    Ok(Text::of(String::from_str(alloc, word)?))
}

#[test]
fn stores_and_rules_are_copied(rt: HostRuntime) -> Result<(), Fail> {
    let alloc = rt.alloc();
    let mut labels = Labels::new(alloc);
    labels.push(Label {
        key: text(alloc, "zone")?,
        value: text(alloc, "z1")?,
    })?;
    let store = StoreRec {
        id: 1,
        address: text(alloc, "s1")?,
        labels,
        state: StoreState::Up,
    };
    assert!(rt; store.copy(alloc)? == store);
    let rule = Rule {
        group: text(alloc, "pd")?,
        id: text(alloc, "default")?,
        index: 0,
        overrides: false,
        start: Bytes::new(alloc),
        end: Bytes::new(alloc),
        role: RuleRole::Voter,
        count: 3,
        constraints: Constraints::new(alloc),
        locations: Texts::new(alloc),
    };
    assert!(rt; rule.copy(alloc)? == rule);
    Ok(())
}

#[test]
fn a_step_is_printed(rt: HostRuntime) -> Result<(), Fail> {
    let step = Step::PromoteLearner { peer: 14, store: 4 };
    let printed = format!(in rt.alloc(); "{step}")?;
    assert_eq!(rt; printed.as_str(), "promote-learner peer 14 store 4");
    Ok(())
}

#[test]
fn a_proposal_is_printed(rt: HostRuntime) -> Result<(), Fail> {
    let moved = Proposal::MovePeer {
        region: 2,
        from: 1,
        to: 2,
    };
    let led = Proposal::MoveLeader { region: 1, to: 3 };
    let printed = format!(in rt.alloc(); "{moved}, {led}")?;
    assert_eq!(rt;
        printed.as_str(),
        "move-peer region 2 from 1 to 2, move-leader region 1 store 3"
    );
    Ok(())
}

// The words are those of the tests' own descriptions.
#[test]
fn a_fault_is_printed_in_words(rt: HostRuntime) -> Result<(), Fail> {
    let rows = [
        (BeatFault::NoPeers, "the region has no peers"),
        (BeatFault::TooManyPeers, "the region has more than 15 peers"),
        (BeatFault::DoublePeer, "two peers have one id"),
        (BeatFault::DoubleStore, "two peers are on one store"),
        (
            BeatFault::LeaderAbsent,
            "the leader is no peer of the region",
        ),
        (BeatFault::LeaderNotVoter, "the leader is no voter"),
        (BeatFault::BadRange, "the end key isn't above the start key"),
        (BeatFault::LongKey, "a key is longer than 4,096 bytes"),
    ];
    for (fault, words) in rows {
        let printed = format!(in rt.alloc(); "{fault}")?;
        assert_eq!(rt; printed.as_str(), words);
    }
    Ok(())
}

#[test]
fn the_open_gate_holds_nobody(rt: HostRuntime) {
    let gate = OpenGate;
    for number in [1, 65_536] {
        assert!(rt; !gate.hold(Actor::Client(3), number));
        gate.done(Actor::Client(3), number);
    }
}
