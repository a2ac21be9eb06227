// What all workers leave.
ghost use Rattle.std.specs.Prelude.{◌≡◌, ◌≢◌, ◌<◌, ◌∷◌, ◌++◌, [], ℕ, false, All, Contains, IfNone, IfOk, IfSome, OnOk, flat_map, length, map};
ghost use Rattle.std.specs.List.{AllZip};
ghost use Rattle.pd_turn.specs.Turns.{AreApart};
ghost use Rattle.tso_driver.specs.Drivers.{seat_of};
ghost use Rattle.step_stream.specs.Streams.{TakerValue};
ghost use Rattle.pd_shared.specs.Names.{stream_name};
ghost use Rattle.pd_shared.specs.Outlets.{OutletValue};
ghost use Rattle.pd_shared.specs.Shares.{AreSharesOf};
ghost use Rattle.pd_run.specs.Ends.{AreClosed, AreDriversOf, ClosesOne, EndsOf, HasOutlet, HasPorts, HasPortTo, IsClosing, IsDriverOfCluster, IsDriversOwn, IsPlaceOf, IsSettled, driver_part_of, lent, part_of};
ghost use Rattle.pd_run.specs.Runs.{driver_part, store_part};
ghost use Rattle.pd_run.specs.declared.driving.DriverWork.{DriverWork};
ghost use Rattle.pd_run.specs.declared.storing.StoreWork.{StoreWork};

use crate::answer::{DriverAnswers, StoreAnswers};
use crate::driving::{DriverWork, Means};
use crate::storing::{Port, StoreWork};
use meta_store::MetaSeat;
use pd_shared::{ClusterName, Givers, Outlet, Share, SharedCluster, Shares};
use pd_state::Cluster;
use pd_types::NoMemory;
use std::alloc::Global;
use std::sync::Wait;
use step_stream::Taker;
use tso_board::DriverSeat;

// The shares of one cluster, and for each store the end of its stream that popped.
#[derive(Drop)]
struct Ends<N: ClusterName> {
    shares: Shares<N>,
    takers: Vec<(u64, Taker)>,
}

// All ends at the first driver's cluster of those that are left, and the stores without them.
fn ends_of<N: ClusterName>(
    alloc: Global,
    share: Share<N>,
    stores: Vec<StoreWork<N>>,
) -> Result<(Ends<N>, Vec<StoreWork<N>>), NoMemory>
    requires ports { All (λ (w : StoreWork N). 0 < length w.ports.items) stores.items }
    ensures ends { IfOk result (λ r. EndsOf share stores.items r.1.items r.0.shares.items r.0.takers.items) }
{
    let mut shares = Vec::new(alloc);
    let mut takers = Vec::new(alloc);
    let mut works = Vec::new(alloc);
    shares.push(share)?;
    for store in stores {
        let mut store = store;
        let Port { share, taker, .. } = store.ports.remove(0);
        shares.push(share)?;
        takers.push((store.store, taker))?;
        works.push(store)?;
    }
    Ok((Ends { shares, takers }, works))
}

// The place of the outlet to this store.
fn place_of(givers: &[Outlet], store: u64) -> Option<usize>
    ensures place { IfSome result (λ place. IsPlaceOf givers.now store place) }
    ensures none { IfNone result (All (λ (outlet : OutletValue). outlet.store ≢ store) givers.now) }
{
    for (place, outlet) in givers.iter().enumerate() {
        if outlet.store() == store {
            return Some(place);
        }
    }
    None
}

// Settles the stream to this store.
fn settle<R: Wait>(rt: &R, givers: &mut Givers, store: u64, taker: Taker)
    requires apart { AreApart (map (λ (outlet : OutletValue). outlet.store) givers.old.items) }
    requires there { HasOutlet givers.old.items store taker.stream }
    ensures same { givers.new.items ≡ givers.old.items }
    ensures settled { IsSettled givers.old.items (store, taker) }
{
    let Some(place) = place_of(givers, store) else {
        unreachable!()
    };
    givers[place].settle(rt, taker);
}

// A cluster once it is closed and its streams are settled, with its seat at the metadata.
#[derive(Drop)]
struct Closing {
    cluster: Cluster,
    seat: MetaSeat,
}

fn close<N: ClusterName, R: Wait>(
    rt: &R,
    cluster: SharedCluster<N>,
    ends: Ends<N>,
) -> Result<Closing, NoMemory>
    requires shares { AreSharesOf cluster ends.shares.items }
    requires named { All (λ (end : ℕ × TakerValue). Contains N.streams (stream_name cluster.driver end.0 end.1.stream)) ends.takers.items }
    ensures closing { IfOk result (λ closing. IsClosing N.meta N.streams cluster ends.shares.items ends.takers.items closing.cluster closing.seat) }
{
    let Ends { shares, takers } = ends;
    let closed = cluster.close(rt, shares)?;
    let mut givers = closed.givers;
    for (store, taker) in takers {
        settle(rt, &mut givers, store, taker);
    }
    Ok(Closing {
        cluster: closed.cluster,
        seat: closed.seat,
    })
}

// The benches with one more, if the driver had one.
fn hand_back<B: Drop>(benches: &mut Vec<B>, bench: Option<B>) -> Result<(), NoMemory>
    ensures items { OnOk result (benches.new.items ≡ benches.old.items ++ lent bench) }
{
    if let Some(bench) = bench {
        benches.push(bench)?;
    }
    Ok(())
}

/// What all drivers leave: their seats at the oracle and at the metadata, their answers, their clusters,
/// and their benches; and the stores, without their ports to these clusters.
#[derive(Drop)]
pub struct DriverParts<N: ClusterName, B> {
    pub oracle: Vec<DriverSeat>,
    pub meta: Vec<MetaSeat>,
    pub answers: Vec<DriverAnswers>,
    pub clusters: Vec<Cluster>,
    pub benches: Vec<B>,
    pub stores: Vec<StoreWork<N>>,
}

impl<N: ClusterName, B: Drop> DriverParts<N, B> {
    // The same with what one more driver leaves, whose cluster is closed.
    fn with<R: Wait>(
        self,
        rt: &R,
        alloc: Global,
        work: DriverWork<N, B>,
        cluster: SharedCluster<N>,
    ) -> Result<DriverParts<N, B>, NoMemory>
        requires driver { IsDriverOfCluster (map (λ (w : StoreWork N). w.store) self.stores.items) cluster.driver work cluster }
        requires apart { AreApart (0 ∷ map (λ (w : StoreWork N). w.store) self.stores.items) }
        requires ports { All (HasPortTo N.streams cluster) self.stores.items }
        ensures fine { IfOk result (λ parts. work.failed ≡ false) }
        ensures oracle { IfOk result (λ parts. parts.oracle.items ≡ self.oracle.items ++ seat_of work.means.driver ∷ []) }
        ensures answers { IfOk result (λ parts. map driver_part parts.answers.items ≡ map driver_part self.answers.items ++ driver_part_of work ∷ []) }
        ensures benches { IfOk result (λ parts. parts.benches.items ≡ self.benches.items ++ lent work.means.bench) }
        ensures closed { IfOk result (λ parts. ClosesOne N.meta work self parts) }
    {
        let DriverWork {
            number,
            means,
            answers,
            failed,
            ..
        } = work;
        if failed {
            return Err(NoMemory);
        }
        let Means {
            driver,
            share,
            bench,
        } = means;
        let mut parts = self;
        let (ends, stores) = ends_of(alloc, share, parts.stores)?;
        parts.stores = stores;
        let Closing { cluster, seat } = close(rt, cluster, ends)?;
        parts.clusters.push(cluster)?;
        parts.meta.push(seat)?;
        parts.oracle.push(driver.into_seat())?;
        parts.answers.push(DriverAnswers { number, answers })?;
        hand_back(&mut parts.benches, bench)?;
        Ok(parts)
    }
}

/// What all drivers leave, unless memory was wanting to one of them; their clusters are closed.
pub fn driver_parts<N: ClusterName, B: Drop, R: Wait>(
    rt: &R,
    alloc: Global,
    drivers: Vec<DriverWork<N, B>>,
    clusters: Vec<SharedCluster<N>>,
    stores: Vec<StoreWork<N>>,
) -> Result<DriverParts<N, B>, NoMemory>
    requires drivers { AreDriversOf (map (λ (w : StoreWork N). w.store) stores.items) 0 drivers.items clusters.items }
    requires apart { AreApart (0 ∷ map (λ (w : StoreWork N). w.store) stores.items) }
    requires ports { All (HasPorts N.streams 0 clusters.items) stores.items }
    ensures fine { IfOk result (λ parts. All (λ (w : DriverWork N B). w.failed ≡ false) drivers.items) }
    ensures oracle { IfOk result (λ parts. parts.oracle.items ≡ map (λ (w : DriverWork N B). seat_of w.means.driver) drivers.items) }
    ensures answers { IfOk result (λ parts. map driver_part parts.answers.items ≡ map driver_part_of drivers.items) }
    ensures benches { IfOk result (λ parts. parts.benches.items ≡ flat_map (λ (w : DriverWork N B). lent w.means.bench) drivers.items) }
    ensures closed { IfOk result (λ parts. AreClosed N.meta stores.items 1 parts.clusters.items parts.meta.items) }
    ensures own { IfOk result (λ parts. AllZip IsDriversOwn drivers.items parts.clusters.items) }
    ensures stores { IfOk result (λ parts. map part_of parts.stores.items ≡ map part_of stores.items) }
    ensures failed { IfOk result (λ parts. map (λ (w : StoreWork N). w.failed) parts.stores.items ≡ map (λ (w : StoreWork N). w.failed) stores.items) }
{
    let mut parts = DriverParts {
        oracle: Vec::new(alloc),
        meta: Vec::new(alloc),
        answers: Vec::new(alloc),
        clusters: Vec::new(alloc),
        benches: Vec::new(alloc),
        stores,
    };
    let mut clusters = clusters.into_iter();
    for driver in drivers {
        let Some(cluster) = clusters.next() else {
            unreachable!()
        };
        parts = parts.with(rt, alloc, driver, cluster)?;
    }
    Ok(parts)
}

/// The answers of all stores, unless memory was wanting to one of them.
pub fn store_answers<N: ClusterName>(
    alloc: Global,
    works: Vec<StoreWork<N>>,
) -> Result<Vec<StoreAnswers>, NoMemory>
    ensures fine { IfOk result (λ answers. All (λ (w : StoreWork N). w.failed ≡ false) works.items) }
    ensures answers { IfOk result (λ answers. map store_part answers.items ≡ map part_of works.items) }
{
    let mut answers = Vec::new(alloc);
    for work in works {
        if work.failed {
            return Err(NoMemory);
        }
        answers.push(StoreAnswers {
            store: work.store,
            answers: work.answers,
        })?;
    }
    Ok(answers)
}
