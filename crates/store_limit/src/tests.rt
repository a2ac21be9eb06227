use crate::{LimitKind, Limited, Limits};
use std::test::Fail;

// A bucket of 15 peers a minute holds fifteen peers and gains one in four seconds (pd-ctl `store
// limit`, whose first rate is 15).
#[test]
fn fifteen_peers_and_then_one_in_four_seconds(rt: HostRuntime) -> Result<(), Fail> {
    let mut limits = Limits::new(rt.alloc());
    limits.know(4, 1000)?;
    for _ in 0..15 {
        assert_eq!(rt; limits.take(4, LimitKind::AddPeer, 1000), Ok(()));
    }
    let refused = Limited {
        available: 0,
        needed: 60_000,
    };
    let rows = [(1000, Err(refused)), (5000, Ok(())), (500, Err(refused))];
    for (now, answer) in rows {
        assert_eq!(rt; limits.take(4, LimitKind::AddPeer, now), answer, "at {now}");
    }
    assert_eq!(rt; limits.available(4, LimitKind::RemovePeer, 5000), 900_000);
    Ok(())
}

#[test]
fn a_rate_of_zero_refuses_each_peer(rt: HostRuntime) -> Result<(), Fail> {
    let mut limits = Limits::new(rt.alloc());
    let refused = Limited {
        available: 0,
        needed: 60_000,
    };
    assert_eq!(rt; limits.take(4, LimitKind::AddPeer, 1000), Err(refused));
    assert_eq!(rt; limits.set_rate(4, LimitKind::AddPeer, 0, 1000), false);
    limits.know(4, 1000)?;
    assert_eq!(rt; limits.set_rate(4, LimitKind::AddPeer, 0, 1000), true);
    assert_eq!(rt; limits.take(4, LimitKind::AddPeer, 9000), Err(refused));
    assert_eq!(rt; limits.take(4, LimitKind::RemovePeer, 9000), Ok(()));

    // A bucket that is known already stays as it is, and a new rate begins with what it held.
    limits.know(4, 9000)?;
    assert_eq!(rt; limits.available(4, LimitKind::RemovePeer, 9000), 840_000);
    assert_eq!(rt; limits.set_rate(4, LimitKind::RemovePeer, 30, 9000), true);
    assert_eq!(rt; limits.available(4, LimitKind::RemovePeer, 9001), 840_030);
    assert_eq!(rt; limits.set_rate(4, LimitKind::RemovePeer, 1, 9001), true);
    assert_eq!(rt; limits.available(4, LimitKind::RemovePeer, 9001), 60_000);
    Ok(())
}
