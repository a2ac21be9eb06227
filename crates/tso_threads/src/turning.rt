// A turn that is taken and given back.
ghost use Rattle.std.specs.Prelude.{◌≡◌, ◌<◌, ◌≤◌, [], All, length, IfOk};
ghost use Rattle.pd_turn.specs.Turns.{AreApart, IsFree};

use pd_turn::{Tale, Ticket, Turn};
use pd_types::{Ids, NoMemory, Seq};
use std::alloc::Global;
use std::sync::Wait;
use std::thread;
use std::thread::Threads;

/// A count without items of its own.
#[derive(Drop)]
struct Tally {
    count: u64,
}

impl Tale for Tally {
    ghost use Rattle.tso_threads.specs.Workers.{no_items};

    type Item = u64;

    ghost tale = { no_items };
}

// Takes the count so often, and counts.
fn take_all<R: Wait>(rt: &R, turn: &Turn<Tally>, ticket: &mut Ticket<Tally>, times: u64)
    requires free { IsFree turn.now ticket.old }
    ensures free { IsFree turn.now ticket.new }
{
    for _ in 0..times {
        let mut tally = turn.take(rt, ticket);
        tally.count = tally.count.wrapping_add(1);
        turn.give_back(ticket, tally);
    }
}

// Each ticket is on a thread of its own.
fn crowd<R: Threads + Wait + Sync>(
    rt: &R,
    turn: &Turn<Tally>,
    tickets: &mut [Ticket<Tally>],
    times: u64,
)
    requires free { All (IsFree turn.now) tickets.old }
    ensures free { All (IsFree turn.now) tickets.new }
    ensures len { length tickets.new ≡ length tickets.old }
{
    let threads = tickets.len().max(1);
    let take = |_: usize, ticket: &mut Ticket<Tally>|
        requires { IsFree turn.now ticket.old }
        ensures { IsFree turn.entry.now ticket.new }
    { take_all(rt, turn, ticket, times) };
    thread::for_each_mut(rt, tickets, threads, &take);
}

// The numbers of one ticket, of two, or of four.
fn numbers(alloc: Global, threads: u8) -> Result<Ids, NoMemory>
    ensures some { IfOk result (λ numbers. 0 < length numbers) }
    ensures apart { IfOk result AreApart }
{
    let numbers = match threads {
        1 => vec![in alloc; 1]?,
        2 => vec![in alloc; 1, 2]?,
        _ => vec![in alloc; 1, 2, 3, 4]?,
    };
    Ok(Seq::of(numbers))
}

/// Takes one turn so often by each of one thread, of two, or of four, and answers how often it was
/// taken.
pub fn turns<R: Threads + Wait + Sync>(
    rt: &R,
    alloc: Global,
    threads: u8,
    times: u64,
) -> Result<u64, NoMemory> {
    let numbers = numbers(alloc, threads)?;
    let (turn, mut tickets) = Turn::open(alloc, Tally { count: 0 }, &numbers)?;
    crowd(rt, &turn, &mut tickets, times);
    let tally = turn.end(rt, tickets);
    Ok(tally.count)
}
