// A driver that leads and clients that draw, each for a thread of its own.
ghost use Rattle.std.specs.Prelude.{◌≡◌, ◌≤◌, ◌<◌, All, IfOk, length, ℕ};
ghost use Rattle.pd_types.specs.declared.stamp.TheConstants.{LOGICAL};
ghost use Rattle.pd_types.specs.declared.oracle.TheConstants.{MAX_CLIENTS};
ghost use Rattle.tso_driver.specs.Drivers.{IsDriverOf};
ghost use Rattle.tso_threads.specs.Workers.{HasDriver, IsClientOf, IsDrawerOf, IsIdleOf, IsWorkerOf};

use pd_types::{Batch, CellWord, NoMemory};
use std::alloc::Global;
use std::sync::Wait;
use std::sync::atomic::{AtomicU64, Ordering};
use std::thread;
use std::thread::Threads;
use tso_board::{Board, Crew, DriverSeat, Pass, open};
use tso_client::take;
use tso_driver::Driver;

/// A driver that ticks: where it is eager, all the time; else each time that a client asks for it.
#[derive(Drop)]
pub struct Ticker {
    pub driver: Driver,
    pub eager: bool,
}

/// A client that draws so often, `count` timestamps each time.
#[derive(Drop)]
pub struct Drawer {
    pub pass: Pass,
    pub times: u64,
    pub count: u64,
    /// How often it drew.
    pub drawn: u64,
    /// Its batches, where it keeps them.
    pub keeps: bool,
    pub got: Vec<Batch>,
}

/// What one thread does.
#[derive(Drop)]
pub enum Worker {
    Ticks(Ticker),
    Draws(Drawer),
}

/// What all threads share.
#[derive(Drop)]
pub struct Shared {
    pub board: Board,
    /// How many clients haven't drawn all yet.
    pub drawing: AtomicU64,
    /// 1 where a client asks for a tick.
    pub asked: AtomicU64,
}

impl Shared {
    // Asks for a tick.
    fn ask(&self) {
        self.asked.store(1, Ordering::SeqCst);
        self.asked.wake_one();
    }
}

impl Ticker {
    /// Ticks until no client draws any more.
    fn work<R: Wait>(&mut self, rt: &R, shared: &Shared)
        requires { IsDriverOf self.old.driver shared.now.board }
        ensures { IsDriverOf self.new.driver shared.now.board }
    {
        for _ in rt.forever() {
            if shared.drawing.load(Ordering::SeqCst) == 0 {
                break;
            }
            if self.eager {
                thread::yield_now();
            } else {
                shared.asked.park(rt, 0);
                shared.asked.store(0, Ordering::SeqCst);
            }
            self.driver.tick(&shared.board, 0);
        }
    }
}

impl Drawer {
    // Draws once. The answer is false where memory is wanting.
    fn draw(&mut self, shared: &Shared) -> bool
        requires drawer { IsDrawerOf self.old shared.now.board }
        requires driver { HasDriver shared.now.board }
        ensures drawer { IsDrawerOf self.new shared.now.board }
    {
        if self.pass.reserve(1).is_err() {
            return false;
        }
        match take(&mut self.pass, &shared.board, 1, self.count) {
            Ok(batch) => {
                self.drawn = self.drawn.saturating_add(1);
                !self.keeps || self.got.push(batch).is_ok()
            }
            Err(_) => {
                shared.ask();
                thread::yield_now();
                true
            }
        }
    }

    /// Draws until all is drawn.
    fn work<R: Wait>(&mut self, rt: &R, shared: &Shared)
        requires drawer { IsDrawerOf self.old shared.now.board }
        requires driver { HasDriver shared.now.board }
        ensures drawer { IsDrawerOf self.new shared.now.board }
    {
        let has_room = self.pass.reserve(self.times as usize).is_ok();
        for _ in rt.forever() {
            if !has_room || self.drawn >= self.times || !self.draw(shared) {
                break;
            }
        }
        shared.drawing.fetch_sub(1, Ordering::SeqCst);
        shared.ask();
    }
}

impl Worker {
    fn work<R: Wait>(&mut self, rt: &R, shared: &Shared)
        requires worker { IsWorkerOf shared.now.board self.old }
        requires driver { HasDriver shared.now.board }
        ensures worker { IsWorkerOf shared.now.board self.new }
    {
        match self {
            Worker::Ticks(ticker) => ticker.work(rt, shared),
            Worker::Draws(drawer) => drawer.work(rt, shared),
        }
    }
}

/// Runs each worker on a thread of its own.
pub fn run_all<R: Threads + Wait + Sync>(rt: &R, shared: &Shared, workers: &mut [Worker])
    requires workers { All (IsWorkerOf shared.now.board) workers.old }
    requires driver { HasDriver shared.now.board }
    ensures workers { All (IsWorkerOf shared.now.board) workers.new }
{
    let threads = workers.len().max(1);
    let work = |_: usize, worker: &mut Worker|
        requires { IsWorkerOf shared.now.board worker.old × HasDriver shared.now.board }
        ensures { IsWorkerOf shared.entry.now.board worker.new }
    { worker.work(rt, shared) };
    thread::for_each_mut(rt, workers, threads, &work);
}

/// A new board of one driver, which leads, and of so many clients, with a worker for each. In a test the
/// driver is eager, and the clients keep their batches.
pub fn start(
    alloc: Global,
    clients: u8,
    times: u64,
    count: u64,
    tested: bool,
) -> Result<(Shared, Vec<Worker>), NoMemory>
    requires clients { (0 < clients) × (clients ≤ MAX_CLIENTS) }
    requires count { (0 < count) × (count < LOGICAL) }
    ensures driver { IfOk result (λ r. HasDriver r.0.board) }
    ensures workers { IfOk result (λ r. All (IsWorkerOf r.0.board) r.1.items) }
{
    let cell = CellWord { saved: 0, term: 0 };
    let Crew {
        board,
        seats,
        passes,
        ..
    } = open(alloc, 1, clients, cell)?;
    let mut workers = Vec::new(alloc);
    add_drawers(alloc, &board, &mut workers, passes, times, count, tested)?;
    add_tickers(&board, &mut workers, seats, tested)?;
    let shared = Shared {
        board,
        drawing: AtomicU64::new(clients as u64),
        asked: AtomicU64::new(0),
    };
    Ok((shared, workers))
}

// A worker for each client. The board is named for what is proved.
fn add_drawers(
    alloc: Global,
    _board: &Board,
    workers: &mut Vec<Worker>,
    passes: Vec<Pass>,
    times: u64,
    count: u64,
    keeps: bool,
) -> Result<(), NoMemory>
    requires passes { All (IsClientOf _board.now) passes.items }
    requires workers { All (IsWorkerOf _board.now) workers.old.items }
    requires count { (0 < count) × (count < LOGICAL) }
    ensures workers { All (IsWorkerOf _board.now) workers.new.items }
{
    for pass in passes {
        let got = Vec::new(alloc);
        workers.push(Worker::Draws(Drawer {
            pass,
            times,
            count,
            drawn: 0,
            keeps,
            got,
        }))?;
    }
    Ok(())
}

// A worker for each driver, which leads.
fn add_tickers(
    board: &Board,
    workers: &mut Vec<Worker>,
    seats: Vec<DriverSeat>,
    eager: bool,
) -> Result<(), NoMemory>
    requires seats { All (IsIdleOf board.now) seats.items }
    requires workers { All (IsWorkerOf board.now) workers.old.items }
    ensures workers { All (IsWorkerOf board.now) workers.new.items }
{
    for mut seat in seats {
        seat.reserve(1)?;
        let mut driver = Driver::of(seat);
        driver.lead(board, 1000);
        workers.push(Worker::Ticks(Ticker { driver, eager }))?;
    }
    Ok(())
}
