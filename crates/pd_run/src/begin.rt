// All workers before they begin.
ghost use Rattle.std.specs.Prelude.{◌≡◌, ◌+◌, ◌++◌, ◌∷◌, [], All, IfOk, length, map};
ghost use Rattle.std.specs.List.{AllZip};
ghost use Rattle.pd_turn.specs.Turns.{AreApart};
ghost use Rattle.meta_store.specs.Seats.{new_seat};
ghost use Rattle.pd_shared.specs.Names.{streams_of};
ghost use Rattle.pd_shared.specs.Shares.{actor_of, new_share};
ghost use Rattle.tso_model.specs.Moves.{numbers_from, client_view};
ghost use Rattle.tso_model.specs.Sound.{IsSetup};
ghost use Rattle.tso_board.specs.Boards.{board_id, setup_of};
ghost use Rattle.tso_board.specs.Passes.{IsPassOf, pass_view};
ghost use Rattle.pd_run.specs.Crews.{AreLed, AreLedStores, AreStarts, IsReady, IsStart};
ghost use Rattle.pd_run.specs.Tasks.{GoesTo};
ghost use Rattle.pd_run.specs.Pipes.{ArePipesTo, BeginsStore, GotPorts, IsNewPipe, OpensPort, end_by, outlet_by, pipe_name};

use crate::driving::{DriverWork, Means};
use crate::line::{DriverLine, StoreLines, Tasks};
use crate::pipe::Pipe;
use crate::storing::{Port, StoreWork};
use meta_store::MetaSeat;
use pd_shared::{ClusterName, Givers, Outlet, Share, SharedCluster};
use pd_types::{Ids, NoMemory};
use std::alloc::Global;
use std::sync::Arc;
use step_stream::{Stream, Taker};
use tso_board::{Board, DriverSeat, Pass};
use tso_client::{BoardName, Post};
use tso_driver::Driver;
use tso_run::{ClientWork, client_works};

/// All workers, the clusters that they share, from the first driver's on, and the post of the clients.
#[derive(Drop)]
pub struct Workers<N: BoardName + ClusterName, B> {
    pub post: Post<N>,
    pub clusters: Vec<SharedCluster<N>>,
    pub drivers: Vec<DriverWork<N, B>>,
    pub clients: Vec<ClientWork<N>>,
    pub stores: Vec<StoreWork<N>>,
}

// The end of a stream that a store pops.
#[derive(Drop)]
struct PopEnd {
    stream: Arc<Stream, Global>,
    taker: Taker,
}

// The end of each stream that is the cluster's, and the one that is the store's.
fn parted(alloc: Global, pipes: Vec<Pipe>) -> Result<(Givers, Vec<PopEnd>), NoMemory>
    requires new { All IsNewPipe pipes.items }
    ensures givers { IfOk result (λ r. r.0.items ≡ map outlet_by pipes.items) }
    ensures ends { IfOk result (λ r. r.1.items ≡ map end_by pipes.items) }
{
    let mut givers = Vec::new(alloc);
    let mut ends = Vec::new(alloc);
    for pipe in pipes {
        let Pipe {
            store,
            stream,
            giver,
            taker,
        } = pipe;
        givers.push(Outlet::new(store, stream.clone()?, giver))?;
        ends.push(PopEnd { stream, taker })?;
    }
    Ok((givers, ends))
}

// A cluster with the share of its driver, and a port for each store.
#[derive(Drop)]
struct Opened<N: ClusterName> {
    cluster: SharedCluster<N>,
    share: Share<N>,
    ports: Vec<Port<N>>,
}

// A driver's cluster behind its lock, with a stream to each of these stores.
fn open_cluster<N: ClusterName>(
    alloc: Global,
    driver: u8,
    seat: MetaSeat,
    pipes: Vec<Pipe>,
    stores: &Ids,
) -> Result<Opened<N>, NoMemory>
    requires seat { seat ≡ new_seat N.meta driver }
    requires streams { streams_of driver N.streams ≡ map (pipe_name driver) pipes.items }
    requires pipes { ArePipesTo stores.now pipes.items }
    requires stores { AreApart (0 ∷ stores.now) }
    ensures driver { IfOk result (λ opened. opened.cluster.driver ≡ driver) }
    ensures numbers { IfOk result (λ opened. opened.cluster.turn.numbers ≡ 0 ∷ stores.now) }
    ensures share { IfOk result (λ opened. opened.share ≡ new_share opened.cluster (actor_of driver 0)) }
    ensures ports { IfOk result (λ opened. AllZip (OpensPort opened.cluster) pipes.items opened.ports.items) }
{
    let (givers, ends) = parted(alloc, pipes)?;
    let (cluster, shares) = SharedCluster::open(alloc, driver, seat, givers, stores)?;
    let mut shares = shares.into_iter();
    let Some(share) = shares.next() else {
        unreachable!()
    };
    let mut ports = Vec::new(alloc);
    for end in ends {
        let Some(share) = shares.next() else {
            unreachable!()
        };
        let PopEnd { stream, taker } = end;
        ports.push(Port {
            share,
            stream,
            taker,
        })?;
    }
    Ok(Opened {
        cluster,
        share,
        ports,
    })
}

// The stores, each with its port to one more driver's cluster.
fn hand_out<N: ClusterName>(
    alloc: Global,
    stores: Vec<StoreWork<N>>,
    ports: Vec<Port<N>>,
) -> Result<Vec<StoreWork<N>>, NoMemory>
    requires same { length ports.items ≡ length stores.items }
    ensures got { IfOk result (λ works. GotPorts ports.items stores.items works.items) }
{
    let mut works = Vec::new(alloc);
    let mut ports = ports.into_iter();
    for store in stores {
        let Some(port) = ports.next() else {
            unreachable!()
        };
        let mut store = store;
        store.ports.push(port)?;
        works.push(store)?;
    }
    Ok(works)
}

// A worker for each store that acts, which reaches no cluster yet.
fn store_works<N: ClusterName>(
    alloc: Global,
    stores: Vec<StoreLines>,
) -> Result<Vec<StoreWork<N>>, NoMemory>
    ensures begin { IfOk result (λ works. AllZip BeginsStore stores.items works.items) }
{
    let mut works = Vec::new(alloc);
    for lines in stores {
        let StoreLines { store, lines } = lines;
        works.push(StoreWork {
            store,
            ports: Vec::new(alloc),
            lines,
            answers: Vec::new(alloc),
            failed: false,
        })?;
    }
    Ok(works)
}

// The ids of the stores.
fn ids_of<N: ClusterName>(alloc: Global, stores: &[StoreWork<N>]) -> Result<Ids, NoMemory>
    ensures value { IfOk result (λ ids. ids ≡ map (λ w. w.store) stores.now) }
{
    let mut ids = Ids::new(alloc);
    for store in stores {
        ids.push(store.store)?;
    }
    Ok(ids)
}

/// What each driver begins with: its seats at the oracle and at the metadata, its streams, its lines, and
/// its bench, if it has one.
#[derive(Drop)]
pub struct Start<B> {
    pub driver: u8,
    pub oracle: DriverSeat,
    pub meta: MetaSeat,
    pub pipes: Vec<Pipe>,
    pub lines: Vec<DriverLine>,
    pub bench: Option<B>,
}

// What is opened by and by: the clusters, their drivers' workers, and those of all stores, with a port to
// each of the clusters.
#[derive(Drop)]
struct Leading<N: ClusterName, B> {
    clusters: Vec<SharedCluster<N>>,
    drivers: Vec<DriverWork<N, B>>,
    stores: Vec<StoreWork<N>>,
}

impl<N: ClusterName, B: Drop> Leading<N, B> {
    // Opens a driver's cluster, and gives each store its port to it.
    fn with(
        self,
        alloc: Global,
        _board: &Board,
        ids: &Ids,
        start: Start<B>,
    ) -> Result<Leading<N, B>, NoMemory>
        requires start { IsStart _board.now N.meta N.streams ids.now (length self.clusters.items) start }
        requires apart { AreApart (0 ∷ ids.now) }
        requires led { AreLed _board.now N.streams ids.now self.clusters.items self.drivers.items self.stores.items }
        ensures led { IfOk result (λ led. AreLed _board.now N.streams ids.now led.clusters.items led.drivers.items led.stores.items) }
        ensures count { IfOk result (λ led. length led.clusters.items ≡ length self.clusters.items + 1) }
        ensures lines { IfOk result (λ led. map (λ w. w.lines) led.drivers.items ≡ map (λ w. w.lines) self.drivers.items ++ start.lines ∷ []) }
        ensures benches { IfOk result (λ led. map (λ w. w.means.bench) led.drivers.items ≡ map (λ w. w.means.bench) self.drivers.items ++ start.bench ∷ []) }
        ensures store_lines { IfOk result (λ led. map (λ w. w.lines) led.stores.items ≡ map (λ w. w.lines) self.stores.items) }
    {
        let Leading {
            mut clusters,
            mut drivers,
            stores,
        } = self;
        let Start {
            driver,
            oracle,
            meta,
            pipes,
            lines,
            bench,
        } = start;
        let Opened {
            cluster,
            share,
            ports,
        } = open_cluster(alloc, driver, meta, pipes, ids)?;
        let stores = hand_out(alloc, stores, ports)?;
        clusters.push(cluster)?;
        drivers.push(DriverWork {
            number: driver,
            means: Means {
                driver: Driver::of(oracle),
                share,
                bench,
            },
            lines,
            answers: Vec::new(alloc),
            failed: false,
        })?;
        Ok(Leading {
            clusters,
            drivers,
            stores,
        })
    }
}

// The clusters, their drivers, and the stores with a port to each of them.
fn lead<N: ClusterName, B: Drop>(
    alloc: Global,
    board: &Board,
    starts: Vec<Start<B>>,
    stores: Vec<StoreWork<N>>,
    ids: &Ids,
) -> Result<Leading<N, B>, NoMemory>
    requires starts { AreStarts board.now N.meta N.streams ids.now 0 starts.items }
    requires apart { AreApart (0 ∷ ids.now) }
    requires stores { AreLedStores N.streams ids.now [] stores.items }
    ensures count { IfOk result (λ led. length led.clusters.items ≡ length starts.items) }
    ensures led { IfOk result (λ led. AreLed board.now N.streams ids.now led.clusters.items led.drivers.items led.stores.items) }
    ensures lines { IfOk result (λ led. map (λ w. w.lines) led.drivers.items ≡ map (λ start. start.lines) starts.items) }
    ensures benches { IfOk result (λ led. map (λ w. w.means.bench) led.drivers.items ≡ map (λ start. start.bench) starts.items) }
    ensures store_lines { IfOk result (λ led. map (λ w. w.lines) led.stores.items ≡ map (λ w. w.lines) stores.items) }
{
    let mut leading = Leading {
        clusters: Vec::new(alloc),
        drivers: Vec::new(alloc),
        stores,
    };
    for start in starts {
        leading = leading.with(alloc, board, ids, start)?;
    }
    Ok(leading)
}

/// All workers, before they begin.
pub fn begin<N: BoardName + ClusterName, B: Drop>(
    alloc: Global,
    board: &Board,
    starts: Vec<Start<B>>,
    passes: Vec<Pass>,
    stores: Vec<StoreLines>,
) -> Result<Workers<N, B>, NoMemory>
    requires named { board_id board.now ≡ N.board }
    requires setup { IsSetup (setup_of board.now) }
    requires starts { AreStarts board.now N.meta N.streams (map (λ lines. lines.store) stores.items) 0 starts.items }
    requires drivers { length starts.items ≡ (setup_of board.now).drivers }
    requires passes { All (λ p. IsPassOf p board.now) passes.items }
    requires views { map pass_view passes.items ≡ map (client_view (setup_of board.now)) (numbers_from 1 (setup_of board.now).clients) }
    requires apart { AreApart (0 ∷ map (λ lines. lines.store) stores.items) }
    requires within { All (λ lines. All (GoesTo (setup_of board.now).drivers) lines.lines.items) stores.items }
    ensures ready { IfOk result (IsReady N.board N.streams board.now) }
    ensures lines { IfOk result (λ workers. map (λ w. w.lines) workers.drivers.items ≡ map (λ start. start.lines) starts.items) }
    ensures benches { IfOk result (λ workers. map (λ w. w.means.bench) workers.drivers.items ≡ map (λ start. start.bench) starts.items) }
    ensures store_lines { IfOk result (λ workers. map (λ w. record { store = w.store; lines = w.lines }) workers.stores.items ≡ stores.items) }
{
    let stores = store_works(alloc, stores)?;
    let ids = ids_of(alloc, &stores)?;
    let Leading {
        clusters,
        drivers,
        stores,
    } = lead(alloc, board, starts, stores, &ids)?;
    let (post, slips) = Post::<N>::open(alloc, board, passes.len() as u8)?;
    let clients = client_works(alloc, board, &post, passes, slips)?;
    Ok(Workers {
        post,
        clusters,
        drivers,
        clients,
        stores,
    })
}
