// A run: all drivers, clients and stores answer their lines, each on a thread of its own.
ghost use Rattle.std.specs.Prelude.{◌≡◌, ◌+◌, ◌≤◌, ◌∷◌, All, IfOk, List, OnOk, length, map};
ghost use Rattle.std.specs.List.{AllZip};
ghost use Rattle.std.specs.Vec.Iter.{into_iter_items};
ghost use denote.Param.Send.{IsSync};
ghost use Rattle.pd_types.specs.declared.oracle.TheConstants.{MAX_DRIVERS};
ghost use Rattle.pd_turn.specs.Turns.{AreApart};
ghost use Rattle.tso_model.specs.Moves.{numbers_from};
ghost use Rattle.tso_model.specs.Sound.{IsSetup};
ghost use Rattle.tso_board.specs.Boards.{board_id, setup_of};
ghost use Rattle.tso_board.specs.Crews.{IsLedgerOf};
ghost use Rattle.tso_board.specs.Opened.{IsOpened};
ghost use Rattle.tso_run.specs.declared.line.ClientLine.{ClientLine};
ghost use Rattle.tso_run.specs.Lines.{IsCall};
ghost use Rattle.pd_state.specs.Clusters.{ClusterValue};
ghost use Rattle.pd_run.specs.Crews.{CameFrom, HaveWorked, IsReady};
ghost use Rattle.pd_run.specs.Heard.{AreHeard};
ghost use Rattle.pd_run.specs.Pipes.{ArePipesTo, names_from};
ghost use Rattle.pd_run.specs.Runs.{AnswersTasks, IsLawful, lines_of, run_of};
ghost use Rattle.pd_run.specs.Starts.{AreDealt, AreHandedOut, AreNewSeats, AreSpareSeats};
ghost use Rattle.pd_run.specs.Tasks.{AreTasks};
ghost use Rattle.pd_run.specs.declared.begin.Start.{Start};
ghost use Rattle.pd_run.specs.declared.begin.Workers.{Workers};
ghost use Rattle.pd_run.specs.declared.driving.DriverWork.{DriverWork};
ghost use Rattle.pd_run.specs.declared.storing.StoreWork.{StoreWork};

use crate::answer::{DriverAnswers, StoreAnswers};
use crate::begin::{Start, Workers, begin};
use crate::driving::DriverWork;
use crate::end::{driver_parts, store_answers};
use crate::line::{DriverLine, StoreLines, Tasks};
use crate::pipe::{Pipe, open_pipes};
use crate::shared::Shared;
use meta_store::{MetaJournal, MetaSeat, MetaSeats};
use pd_shared::ClusterName;
use pd_state::Cluster;
use pd_types::{Gate, NoMemory};
use sched_api::Seated;
use std::alloc::Global;
use std::marker::Brand;
use std::sync::Wait;
use std::thread::{Threads, join_mut};
use std::vec::IntoIter;
use tso_board::{Board, Crew, DriverSeat, Ledger, gather};
use tso_client::{BoardName, PostJournal};
use tso_run::{ClientAnswers, ClientLine, Work, client_parts, work_all, work_both};

/// What a run leaves: each actor's answers, the clusters with their journals, from the first driver's on,
/// the journals of the metadata and of the post, and the windows and batches of the board.
#[derive(Drop)]
pub struct Left {
    pub drivers: Vec<DriverAnswers>,
    pub clients: Vec<ClientAnswers>,
    pub stores: Vec<StoreAnswers>,
    pub clusters: Vec<Cluster>,
    pub meta: MetaJournal,
    pub post: PostJournal,
    pub ledger: Ledger,
}

// What each driver begins with, the first one with the first bench, as far as there are benches. The seats
// at the metadata that no driver takes stay.
fn starts_of<B: Drop>(
    alloc: Global,
    oracle: Vec<DriverSeat>,
    metas: &mut MetaSeats,
    pipes: Vec<Vec<Pipe>>,
    lines: Vec<Vec<DriverLine>>,
    benches: &mut IntoIter<B>,
) -> Result<Vec<Start<B>>, NoMemory>
    requires count { length oracle.items ≤ MAX_DRIVERS }
    requires seats { length metas.old.seats.items ≡ MAX_DRIVERS + 1 }
    requires pipes { length pipes.items ≡ length oracle.items }
    requires lines { length lines.items ≡ length oracle.items }
    ensures numbers { IfOk result (λ starts. map (λ start. start.driver) starts.items ≡ numbers_from 1 (length oracle.items)) }
    ensures oracle { IfOk result (λ starts. map (λ start. start.oracle) starts.items ≡ oracle.items) }
    ensures pipes { IfOk result (λ starts. map (λ start. start.pipes) starts.items ≡ pipes.items) }
    ensures lines { IfOk result (λ starts. map (λ start. start.lines) starts.items ≡ lines.items) }
    ensures seats { IfOk result (λ starts. AreHandedOut (map (λ start. start.meta) starts.items) metas.old.seats.items metas.new.seats.items) }
    ensures benches { IfOk result (λ starts. AreDealt (into_iter_items benches.old) (map (λ start. start.bench) starts.items) (into_iter_items benches.new)) }
{
    let mut starts = Vec::new(alloc);
    let mut pipes = pipes.into_iter();
    let mut lines = lines.into_iter();
    let mut driver = 0u8;
    for oracle in oracle {
        driver += 1;
        let Some(pipes) = pipes.next() else {
            unreachable!()
        };
        let Some(lines) = lines.next() else {
            unreachable!()
        };
        starts.push(Start {
            driver,
            oracle,
            // The first seat is nobody's.
            meta: metas.seats.remove(1),
            pipes,
            lines,
            bench: benches.next(),
        })?;
    }
    Ok(starts)
}

// The benches that no driver has.
fn others<B: Drop>(alloc: Global, benches: IntoIter<B>) -> Result<Vec<B>, NoMemory>
    ensures items { IfOk result (λ others. others.items ≡ into_iter_items benches) }
{
    let mut others = Vec::new(alloc);
    for bench in benches {
        others.push(bench)?;
    }
    Ok(others)
}

// The workers of three kinds do their work, all at once, those of the first and the last beside one value.
fn work_each<S, T, U, V, W, R>(
    rt: &R,
    shared: &S,
    first: &mut [U],
    last: &mut [W],
    other: &T,
    others: &mut [V],
)
where
    S: Sync,
    T: Sync,
    U: Work<S> + Send,
    V: Work<T> + Send,
    W: Work<S> + Send,
    R: Threads + Wait + Sync,
    requires first { All (U.ready shared.now) first.old }
    requires last { All (W.ready shared.now) last.old }
    requires others { All (V.ready other.now) others.old }
    ensures first { AllZip (U.done shared.now) first.old first.new }
    ensures last { AllZip (W.done shared.now) last.old last.new }
    ensures others { AllZip (V.done other.now) others.old others.new }
{
    join_mut(
        rt,
        &mut ||
            requires { IsSync R.row × IsSync S.row × All (U.ready shared.now) first.now }
            ensures { AllZip (U.done shared.entry.now) first.entry.now first.exit.now }
        { work_all(rt, shared, first) },
        &mut ||
            requires { IsSync R.row × IsSync S.row × IsSync T.row × All (W.ready shared.now) last.now × All (V.ready other.now) others.now }
            ensures { AllZip (W.done shared.entry.now) last.entry.now last.exit.now × AllZip (V.done other.entry.now) others.entry.now others.exit.now }
        { work_both(rt, shared, last, other, others) },
    );
}

// All workers answer their lines.
fn work<'x, N, B, R, G>(
    rt: &R,
    alloc: Global,
    board: &'x Board,
    clients: &'x [ClientLine],
    gate: &'x G,
    workers: &mut Workers<N, B>,
)
where
    N: BoardName + ClusterName + Send + Sync,
    B: Seated + Drop + Send,
    R: Threads + Wait + Sync,
    G: Gate + Sync,
    requires ready { IsReady N.board N.streams board.now workers.old }
    requires calls { All (λ line. IsCall (setup_of board.now) line.ask) clients.now }
    ensures worked { HaveWorked B.seats board.now clients.now workers.old workers.new }
{
    let shared = Shared {
        alloc,
        board,
        gate,
        clusters: &workers.clusters,
    };
    let calling = tso_run::Shared {
        board,
        post: &workers.post,
        gate,
        clients,
    };
    work_each(
        rt,
        &shared,
        workers.drivers.as_mut_slice(),
        workers.stores.as_mut_slice(),
        &calling,
        workers.clients.as_mut_slice(),
    );
}

// What all workers leave, and all benches, in their order, unless memory is wanting.
fn end<N: BoardName + ClusterName, B: Seated + Drop, R: Wait>(
    rt: &R,
    alloc: Global,
    board: Board,
    metas: MetaSeats,
    others: Vec<B>,
    workers: Workers<N, B>,
) -> Result<(Left, Vec<B>), NoMemory>
    requires setup { IsSetup (setup_of board) }
    requires apart { AreApart (0 ∷ map (λ (w : StoreWork N). w.store) workers.stores.items) }
    requires metas { AreSpareSeats N.meta (setup_of board).drivers metas.seats.items }
    requires worked { (clients : List ClientLine) × (first : Workers N B) × CameFrom N.board N.streams B.seats board clients first workers }
    ensures ledger { IfOk result (λ r. IsLedgerOf r.0.ledger board) }
    ensures lawful { IfOk result (λ r. IsLawful (run_of (setup_of board) r.0)) }
    ensures answers { IfOk result (λ r. (clients : List ClientLine) (first : Workers N B) → CameFrom N.board N.streams B.seats board clients first workers
        → AnswersTasks (map (λ (w : DriverWork N B). w.lines.items) first.drivers.items) clients (map (λ (w : StoreWork N). (w.store, w.lines.items)) first.stores.items) (run_of (setup_of board) r.0)) }
    ensures heard { IfOk result (λ r. (clients : List ClientLine) (first : Workers N B) (benches : List B) → CameFrom N.board N.streams B.seats board clients first workers
        → AreDealt benches (map (λ (w : DriverWork N B). w.means.bench) first.drivers.items) others.items → AreHeard 1 (map (λ (c : ClusterValue). c.entries) r.0.clusters.items) (map B.seats benches) (map B.seats r.1.items)) }
{
    let Workers {
        post,
        clusters,
        drivers,
        clients,
        stores,
    } = workers;
    let mut metas = metas;
    let mut others = others;
    let mut parts = driver_parts(rt, alloc, drivers, clusters, stores)?;
    let calls = client_parts(alloc, clients)?;
    let stores = store_answers(alloc, parts.stores)?;
    let post = post.close(rt, calls.slips)?;
    metas.seats.append(&mut parts.meta)?;
    let meta = metas.close(rt)?;
    parts.benches.append(&mut others)?;
    let crew = Crew {
        board,
        seats: parts.oracle,
        passes: calls.passes,
        notes: Vec::new(alloc),
    };
    let Ok(ledger) = gather(crew) else {
        return Err(NoMemory);
    };
    let left = Left {
        drivers: parts.answers,
        clients: calls.answers,
        stores,
        clusters: parts.clusters,
        meta,
        post,
        ledger,
    };
    Ok((left, parts.benches))
}

// The same over a board, metadata and streams whose names are given.
fn run_named<N, B, R, G>(
    rt: &R,
    alloc: Global,
    tasks: Tasks,
    benches: Vec<B>,
    crew: Crew,
    metas: MetaSeats,
    pipes: Vec<Vec<Pipe>>,
    gate: &G,
) -> Result<(Left, Vec<B>), NoMemory>
where
    N: BoardName + ClusterName + Send + Sync,
    B: Seated + Drop + Send,
    R: Threads + Wait + Sync,
    G: Gate + Sync,
    requires named { board_id crew.board ≡ N.board }
    requires setup { IsSetup (setup_of crew.board) }
    requires opened { IsOpened (setup_of crew.board) crew }
    requires tasks { AreTasks (setup_of crew.board) tasks }
    requires metas { AreNewSeats N.meta metas.seats.items }
    requires pipes { All (λ one. ArePipesTo (map (λ lines. lines.store) tasks.stores.items) one.items) pipes.items }
    requires each { length pipes.items ≡ (setup_of crew.board).drivers }
    requires streams { N.streams ≡ names_from 1 (map (λ one. one.items) pipes.items) }
    ensures ledger { IfOk result (λ r. IsLedgerOf r.0.ledger crew.board) }
    ensures lawful { IfOk result (λ r. IsLawful (run_of (setup_of crew.board) r.0)) }
    ensures answers { IfOk result (λ r. AnswersTasks (map (λ lines. lines.items) tasks.drivers.items) tasks.clients.items (map lines_of tasks.stores.items) (run_of (setup_of crew.board) r.0)) }
    ensures heard { IfOk result (λ r. AreHeard 1 (map (λ (c : ClusterValue). c.entries) r.0.clusters.items) (map B.seats benches.items) (map B.seats r.1.items)) }
{
    let Crew {
        board,
        seats,
        passes,
        ..
    } = crew;
    let Tasks {
        drivers,
        clients,
        stores,
    } = tasks;
    let mut metas = metas;
    let mut benches = benches.into_iter();
    let starts = starts_of(alloc, seats, &mut metas, pipes, drivers, &mut benches)?;
    let others = others(alloc, benches)?;
    let mut workers = begin::<N, B>(alloc, &board, starts, passes, stores)?;
    work(rt, alloc, &board, &clients, gate, &mut workers);
    end(rt, alloc, board, metas, others, workers)
}

/// Each driver, client and store answers its own lines in their order, on a thread of its own where there
/// are threads enough, and by its caller else, over a new cluster for each driver of a new crew and new
/// metadata. A line is answered once the gate lets its actor, which then hears of it. A driver has its
/// bench while it works, the first one the first, and hands it back; one that has none asks an empty one.
/// Want of memory of any actor is told in place of all answers; then what was handed in is gone.
pub fn run<B: Seated + Drop + Send, R: Threads + Wait + Sync, G: Gate + Sync>(
    rt: &R,
    alloc: Global,
    tasks: Tasks,
    benches: Vec<B>,
    crew: Crew,
    gate: &G,
) -> Result<(Left, Vec<B>), NoMemory>
    requires setup { IsSetup (setup_of crew.board) }
    requires opened { IsOpened (setup_of crew.board) crew }
    requires tasks { AreTasks (setup_of crew.board) tasks }
    ensures ledger { IfOk result (λ r. IsLedgerOf r.0.ledger crew.board) }
    ensures lawful { IfOk result (λ r. IsLawful (run_of (setup_of crew.board) r.0)) }
    ensures answers { IfOk result (λ r. AnswersTasks (map (λ lines. lines.items) tasks.drivers.items) tasks.clients.items (map lines_of tasks.stores.items) (run_of (setup_of crew.board) r.0)) }
    ensures heard { IfOk result (λ r. AreHeard 1 (map (λ (c : ClusterValue). c.entries) r.0.clusters.items) (map B.seats benches.items) (map B.seats r.1.items)) }
{
    let metas = MetaSeats::open(alloc)?;
    let pipes = open_pipes(alloc, crew.seats.len(), tasks.stores.as_slice())?;
    run_named::<Brand, B, R, G>(rt, alloc, tasks, benches, crew, metas, pipes, gate)
}
