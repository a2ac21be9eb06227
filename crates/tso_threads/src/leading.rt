// Drivers that campaign against each other.
ghost use Rattle.std.specs.Prelude.{◌≡◌, ◌≤◌, All, IfOk};
ghost use Rattle.tso_threads.specs.Workers.{HasContended, IsContenderOf, IsIdleOf};

use pd_types::{CellWord, NoMemory, Window};
use std::alloc::Global;
use std::thread;
use std::thread::Threads;
use tso_board::{Board, Crew, DriverSeat, open};
use tso_driver::{Driver, LeadReply};

/// A driver that campaigns so often.
#[derive(Drop)]
pub struct Contender {
    pub driver: Driver,
    pub times: u64,
    /// How often it campaigned, and the windows that it won.
    pub made: u64,
    pub won: Vec<Window>,
}

impl Contender {
    // Campaigns at the moments from 0 on.
    fn campaign(&mut self, board: &Board)
        requires contender { IsContenderOf board.now self.old }
        ensures contender { HasContended board.now self.new }
    {
        let times = self.times;
        for now in 0..times {
            let reply = self.driver.lead(board, now);
            self.made = self.made.saturating_add(1);
            if let LeadReply::Won { term, lo, hi } = reply {
                let window = Window {
                    term,
                    driver: 0,
                    lo,
                    hi,
                };
                if self.won.push(window).is_err() {
                    break;
                }
            }
        }
    }
}

/// Two drivers of one board, each of which has campaigned so often on a thread of its own.
pub fn contend<R: Threads + Sync>(
    rt: &R,
    alloc: Global,
    times: u64,
) -> Result<Vec<Contender>, NoMemory> {
    let cell = CellWord { saved: 0, term: 0 };
    let Crew { board, seats, .. } = open(alloc, 2, 1, cell)?;
    let mut contenders = contenders_of(alloc, &board, seats, times)?;
    campaign_all(rt, &board, &mut contenders);
    Ok(contenders)
}

/// How often two drivers campaigned that campaign so often each.
pub fn leads<R: Threads + Sync>(rt: &R, alloc: Global, times: u64) -> Result<u64, NoMemory> {
    let mut made = 0u64;
    for contender in &contend(rt, alloc, times)? {
        made = made.saturating_add(contender.made);
    }
    Ok(made)
}

// Each contender campaigns on a thread of its own.
fn campaign_all<R: Threads + Sync>(rt: &R, board: &Board, contenders: &mut [Contender])
    requires contenders { All (IsContenderOf board.now) contenders.old }
{
    let threads = contenders.len().max(1);
    let campaign = |_: usize, contender: &mut Contender|
        requires { IsContenderOf board.now contender.old }
        ensures { HasContended board.entry.now contender.new }
    { contender.campaign(board) };
    thread::for_each_mut(rt, contenders, threads, &campaign);
}

// A contender on each seat, with room for its campaigns.
fn contenders_of(
    alloc: Global,
    board: &Board,
    seats: Vec<DriverSeat>,
    times: u64,
) -> Result<Vec<Contender>, NoMemory>
    requires seats { All (IsIdleOf board.now) seats.items }
    ensures contenders { IfOk result (λ all. All (IsContenderOf board.now) all.items) }
{
    let _ = board;
    let mut all = Vec::new(alloc);
    for mut seat in seats {
        seat.reserve(times as usize)?;
        all.push(Contender {
            driver: Driver::of(seat),
            times,
            made: 0,
            won: Vec::new(alloc),
        })?;
    }
    Ok(all)
}
