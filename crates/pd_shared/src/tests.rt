// A shared cluster of driver 1, with a stream to store 1.
ghost use Rattle.std.specs.Prelude.{◌≡◌, [], ◌∷◌, All, IfOk};
ghost use Rattle.meta_store.specs.Seats.{new_seat};
ghost use Rattle.pd_shared.specs.Outlets.{AreOutletsOf, OutletValue};
ghost use Rattle.pd_shared.specs.Shares.{actor_of};

use crate::{Closed, ClusterName, Givers, Outlet, Share, SharedCluster};
use meta_store::{MetaSeat, MetaSeats};
use pd_state::Reply;
use pd_types::{
    Actor, Bytes, Downs, Epoch, Ids, Labels, NoMemory, Peer, Peers, Region, RegionBeat, Request,
    Role, Step, StepMsg, Text,
};
use sched_api::Bench;
use std::alloc::Global;
use std::marker::Brand;
use std::process::Abort;
use std::sync::{Arc, Wait};
use std::test::Fail;
use step_stream::Stream;

// The seat of driver 1 at new metadata.
fn seat_of_one(alloc: Global) -> Result<MetaSeat, Fail>
    ensures seat { IfOk result (λ seat. seat ≡ new_seat seat.turn 1) }
{
    let mut all = MetaSeats::open(alloc)?;
    Ok(all.seats.remove(1))
}

fn hello(alloc: Global, store: u64) -> Result<Request, NoMemory> {
    Ok(Request::Hello {
        store,
        moment: 1000,
        address: Text::of(String::from_str(alloc, "a")?),
        labels: Labels::new(alloc),
    })
}

// Region 7, whose one peer is on store 1.
fn beat(alloc: Global) -> Result<Request, NoMemory> {
    let peer = Peer {
        id: 11,
        store: 1,
        role: Role::Voter,
    };
    let mut peers = Peers::new(alloc);
    peers.push(peer)?;
    let region = Region {
        id: 7,
        start: Bytes::new(alloc),
        end: Bytes::new(alloc),
        epoch: Epoch {
            conf_ver: 1,
            version: 1,
        },
        peers,
    };
    let beat = RegionBeat {
        region,
        leader: 11,
        down: Downs::new(alloc),
        pending: Ids::new(alloc),
    };
    Ok(Request::Beat {
        store: 1,
        moment: 1000,
        beat,
    })
}

// The driver leads, two stores say hello, and a region that lacks two voters is checked. Each line says
// whether the driver calls, or store 1.
fn calls(alloc: Global) -> Result<Vec<(bool, Request)>, Fail> {
    let mut calls = Vec::new(alloc);
    let term = Request::Term {
        term: 1,
        moment: 1000,
    };
    let check = Request::Check {
        moment: 1000,
        region: 7,
    };
    calls.push((true, term))?;
    calls.push((false, hello(alloc, 1)?))?;
    calls.push((false, hello(alloc, 2)?))?;
    calls.push((false, beat(alloc)?))?;
    calls.push((true, check))?;
    Ok(calls)
}

// A cluster with its two shares.
fn open_both<N: ClusterName>(
    alloc: Global,
    seat: MetaSeat,
    givers: Givers,
) -> Result<(SharedCluster<N>, Share<N>, Share<N>), Fail>
    requires seat { seat ≡ new_seat N.meta 1 }
    requires givers { AreOutletsOf N.streams 1 givers.items }
    requires none { All (λ (outlet : OutletValue). outlet.pushed ≡ []) givers.items }
    ensures numbers { IfOk result (λ r. r.0.turn.numbers ≡ 0 ∷ 1 ∷ []) }
    ensures driver { IfOk result (λ r. (r.1.cluster ≡ r.0) × (r.1.actor ≡ actor_of r.0.driver 0)) }
    ensures store { IfOk result (λ r. (r.2.cluster ≡ r.0) × (r.2.actor ≡ actor_of r.0.driver 1)) }
{
    let stores = Ids::of(vec![in alloc; 1]?);
    let (cluster, mut shares) = SharedCluster::open(alloc, 1, seat, givers, &stores)?;
    let Some(store) = shares.pop() else {
        return Err(Fail::new("no share"));
    };
    let Some(driver) = shares.pop() else {
        return Err(Fail::new("one share"));
    };
    Ok((cluster, driver, store))
}

// A call by the driver, or by the store.
fn call_as<N: ClusterName, R: Wait>(
    rt: &R,
    cluster: &SharedCluster<N>,
    driver: &mut Share<N>,
    store: &mut Share<N>,
    by_driver: bool,
    request: Request,
    bench: &mut Bench,
) -> Result<Reply, NoMemory>
    requires driver { driver.old.cluster ≡ cluster.now }
    requires store { store.old.cluster ≡ cluster.now }
    ensures driver { (driver.new.cluster ≡ cluster.now) × (driver.new.actor ≡ driver.old.actor) }
    ensures store { (store.new.cluster ≡ cluster.now) × (store.new.actor ≡ store.old.actor) }
{
    if by_driver {
        cluster.call(rt, driver, 3, request, bench)
    } else {
        cluster.call(rt, store, 4, request, bench)
    }
}

// Closes the cluster with its two shares.
fn close_both<N: ClusterName, R: Wait + AllocGlobal>(
    rt: &R,
    cluster: SharedCluster<N>,
    driver: Share<N>,
    store: Share<N>,
) -> Result<Closed<N>, Fail>
    requires numbers { cluster.turn.numbers ≡ 0 ∷ 1 ∷ [] }
    requires driver { (driver.cluster ≡ cluster) × (driver.actor ≡ actor_of cluster.driver 0) }
    requires store { (store.cluster ≡ cluster) × (store.actor ≡ actor_of cluster.driver 1) }
{
    let mut shares = Vec::new(rt.alloc());
    shares.push(store)?;
    shares.push(driver)?;
    Ok(cluster.close(rt, shares)?)
}

// The last answer, and whose each entry is.
fn play<N: ClusterName + Send + Sync, R: Wait + AllocGlobal>(
    rt: &R,
    seat: MetaSeat,
    givers: Givers,
    calls: Vec<(bool, Request)>,
) -> Result<(String, Vec<Actor>), Fail>
    requires seat { seat ≡ new_seat N.meta 1 }
    requires givers { AreOutletsOf N.streams 1 givers.items }
    requires none { All (λ (outlet : OutletValue). outlet.pushed ≡ []) givers.items }
{
    let alloc = rt.alloc();
    let (cluster, mut driver, mut store) = open_both::<N>(alloc, seat, givers)?;
    crosses(&cluster, &driver);
    let mut last = String::new(alloc);
    let mut bench = Bench::empty(alloc);
    for (by_driver, request) in calls {
        let reply = call_as(
            rt,
            &cluster,
            &mut driver,
            &mut store,
            by_driver,
            request,
            &mut bench,
        )?;
        last = format!(in alloc; "{reply}")?;
    }
    let closed = close_both(rt, cluster, driver, store)?;
    let mut actors = Vec::new(alloc);
    for entry in closed.cluster.journal().as_slice() {
        actors.push(entry.actor)?;
    }
    Ok((last, actors))
}

// Threads may share the first, and a thread may take the second.
fn crosses<T: Sync, U: Send>(_shared: &T, _own: &U) {}

// The first new peer's id is 1000001; the step goes to the region's leader, which is on store 1.
#[test]
fn a_sent_step_is_pushed_to_its_store(rt: HostRuntime) -> Result<(), Fail> {
    let alloc = rt.alloc();
    let (stream, giver, mut taker) = Stream::open(alloc)?;
    let stream = Arc::new(alloc, stream)?;
    let outlet = Outlet::new(1, stream.clone()?, giver);
    let seat = seat_of_one(alloc)?;
    let (last, actors) = play::<Brand, _>(&rt, seat, vec![in alloc; outlet]?, calls(alloc)?)?;
    assert_eq!(rt;
        last.as_str(),
        "plan add-voter from 2 to 1 send add-learner peer 1000001 store 2"
    );
    let driver = Actor::Driver(1);
    let store = Actor::Store(1);
    assert!(rt; actors.as_slice() == [driver, store, store, store, driver].as_slice());
    let step = Step::AddLearner {
        peer: 1_000_001,
        store: 2,
    };
    let msg = StepMsg {
        driver: 1,
        term: 1,
        entry: 5,
        region: 7,
        to: 1,
        step,
    };
    assert!(rt; stream.pop(&rt, &mut taker) == Some(msg));
    assert!(rt; stream.pop(&rt, &mut taker).is_none());
    Ok(())
}
