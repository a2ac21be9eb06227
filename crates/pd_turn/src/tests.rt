// Turns among threads, and each call once by one thread.
ghost use Rattle.std.specs.Prelude.{◌≡◌, ◌<◌, ◌++◌, ◌∷◌, [], All, length, true, false};
ghost use Rattle.pd_turn.specs.Turns.{IsFree};

use crate::{Tale, Ticket, Turn};
use pd_types::Ids;
use std::process::Abort;
use std::sync::Wait;
use std::test::Fail;
use std::thread;
use std::thread::Threads;

// Who came, in order, with the count of the times before.
#[derive(Drop)]
struct Visits {
    all: Vec<(u64, u64)>,
}

impl Tale for Visits {
    type Item = u64;

    ghost tale = { λ v. v.all.items };
}

impl Visits {
    // Notes a visit, where there is memory for it.
    fn note(&mut self, number: u64, count: u64) -> bool
        ensures noted { result ≡ true → self.new.all.items ≡ self.old.all.items ++ (number, count) ∷ [] }
        ensures kept { result ≡ false → self.new.all.items ≡ self.old.all.items }
    {
        self.all.push((number, count)).is_ok()
    }
}

// Comes once.
fn visit<R: Wait>(rt: &R, turn: &Turn<Visits>, ticket: &mut Ticket<Visits>, count: u64)
    requires { IsFree turn.now ticket.old }
    ensures { IsFree turn.now ticket.new }
{
    let number = ticket.number();
    let mut visits = turn.take(rt, ticket);
    if visits.note(number, count) {
        turn.give(ticket, visits);
    } else {
        turn.give_back(ticket, visits);
    }
}

// Comes so many times.
fn come<R: Wait>(rt: &R, turn: &Turn<Visits>, ticket: &mut Ticket<Visits>, times: u64)
    requires { IsFree turn.now ticket.old }
    ensures { IsFree turn.now ticket.new }
{
    for i in 0..times {
        visit(rt, turn, ticket, i);
    }
}

// Each ticket comes 20,000 times, on a thread of its own.
fn crowd<R: Threads + Wait + Sync>(
    rt: &R,
    turn: &Turn<Visits>,
    tickets: &mut [Ticket<Visits>],
    threads: usize,
)
    requires some { 0 < threads }
    requires free { All (IsFree turn.now) tickets.old }
    ensures free { All (IsFree turn.now) tickets.new }
    ensures len { length tickets.new ≡ length tickets.old }
{
    let visits = |_: usize, ticket: &mut Ticket<Visits>|
        requires { IsFree turn.now ticket.old }
        ensures { IsFree turn.entry.now ticket.new }
    { come(rt, turn, ticket, 20_000) };
    thread::for_each_mut(rt, tickets, threads, &visits);
}

// The visits of a crowd stand in the order of each number.
fn expect(rt: &impl Abort, visits: &[(u64, u64)]) {
    let mut next = [0u64; 5];
    for (number, count) in visits {
        if let Some(at) = next.get_mut(*number as usize) {
            assert_eq!(rt; *at, *count, "of {number}");
            *at = count.saturating_add(1);
        }
    }
    assert_eq!(rt; next, [0, 20_000, 20_000, 20_000, 20_000]);
}

#[test]
fn four_threads_take_turns(rt: HostRuntime) -> Result<(), Fail> {
    let alloc = rt.alloc();
    let numbers = Ids::of(vec![in alloc; 1, 2, 3, 4]?);
    let visits = Visits {
        all: Vec::new(alloc),
    };
    let (turn, mut tickets) = Turn::open(alloc, visits, &numbers)?;
    crowd(&rt, &turn, &mut tickets, 4);
    let visits = turn.end(&rt, tickets);
    expect(&rt, &visits.all);
    Ok(())
}
