// What a driver answers, clients whose gate fixes the order of their lines, and workers of two kinds.
ghost use Rattle.std.specs.Prelude.{◌≡◌, All, IfOk, map};
ghost use Rattle.tso_model.specs.Moves.{numbers_from, client_view};
ghost use Rattle.tso_board.specs.Boards.{board_id, setup_of};
ghost use Rattle.tso_board.specs.Passes.{IsPassOf, pass_view};
ghost use Rattle.tso_driver.specs.Drivers.{IsDriverOf, seat_of};
ghost use Rattle.tso_run.specs.Lines.{IsCall};
ghost use Rattle.tso_run.specs.Works.{IsNewClient};

use crate::{
    ClientAnswers, ClientAsk, ClientLine, ClientWork, DriverAsk, Shared, Work, answer,
    client_parts, client_works, pass, work_all, work_both,
};
use pd_types::{Actor, Batch, CellWord, Gate, NoMemory, Seen};
use std::alloc::Global;
use std::marker::Brand;
use std::process::Abort;
use std::sync::Wait;
use std::sync::atomic::{AtomicU64, Ordering};
use std::test::Fail;
use std::thread::Threads;
use tso_board::{Board, Crew, DriverSeat, Pass, open};
use tso_client::{BoardName, DrawFault, Post};
use tso_driver::{Driver, DriverSaid, LeadReply, TickReply};
use tso_outcome::ClientSaid;

// Two drivers of a board, and the passes of its two clients, who did nothing yet.
#[derive(Drop)]
struct Opening {
    board: Board,
    first: Driver,
    second: Driver,
    passes: Vec<Pass>,
}

// A driver on a seat that holds no term.
fn driver_on(seat: DriverSeat) -> Result<Driver, Fail>
    ensures same { IfOk result (λ d. (seat_of d).seat.table_id ≡ seat.seat.table_id) }
{
    match seat.held() {
        None => Ok(Driver::of(seat)),
        Some(_) => Err(Fail::new("a new seat holds a term")),
    }
}

fn open_for_two(alloc: Global) -> Result<Opening, Fail>
    ensures first { IfOk result (λ o. IsDriverOf o.first o.board) }
    ensures second { IfOk result (λ o. IsDriverOf o.second o.board) }
    ensures setup { IfOk result (λ o. setup_of o.board ≡ record { drivers = 2; clients = 2; cell = record { saved = 0; term = 0 } }) }
    ensures passes { IfOk result (λ o. All (λ p. IsPassOf p o.board) o.passes.items) }
    ensures views { IfOk result (λ o. map pass_view o.passes.items ≡ map (client_view (setup_of o.board)) (numbers_from 1 2)) }
{
    let Crew {
        board,
        mut seats,
        passes,
        ..
    } = open(alloc, 2, 2, CellWord { saved: 0, term: 0 })?;
    let Some(second) = seats.pop() else {
        return Err(Fail::new("no seat"));
    };
    let Some(first) = seats.pop() else {
        return Err(Fail::new("one seat"));
    };
    Ok(Opening {
        board,
        first: driver_on(first)?,
        second: driver_on(second)?,
        passes,
    })
}

fn won(now: u64, term: u64, lo: u64, hi: u64) -> DriverSaid {
    let reply = LeadReply::Won { term, lo, hi };
    DriverSaid::Led { now, reply }
}

// The second driver leads, which the first one learns as it saves.
#[test]
fn driver_answers_what_it_is_asked(rt: HostRuntime) -> Result<(), Fail> {
    let Opening {
        board,
        mut first,
        mut second,
        ..
    } = open_for_two(rt.alloc())?;
    let said = answer(&mut first, &board, DriverAsk::Lead { now: 1000 })?;
    assert_eq!(rt; said, won(1000, 1, 1000, 4000));
    let said = answer(&mut first, &board, DriverAsk::Tick { now: 900 })?;
    let reply = TickReply::Idle;
    assert_eq!(rt; said, DriverSaid::Ticked { now: 900, reply });
    let said = answer(&mut second, &board, DriverAsk::Lead { now: 500 })?;
    assert_eq!(rt; said, won(500, 2, 4001, 7001));
    let said = answer(&mut first, &board, DriverAsk::Tick { now: 3999 })?;
    let found = CellWord {
        saved: 7001,
        term: 2,
    };
    let reply = TickReply::Lost { found };
    assert_eq!(rt; said, DriverSaid::Ticked { now: 3999, reply });
    let said = answer(&mut first, &board, DriverAsk::Resign)?;
    assert_eq!(rt; said, DriverSaid::Resigned { held: false });
    let said = answer(&mut second, &board, DriverAsk::Resign)?;
    assert_eq!(rt; said, DriverSaid::Resigned { held: true });
    Ok(())
}

// Lets each line begin once the one before it in this order was answered.
#[derive(Drop)]
struct InOrder<'a> {
    order: &'a [u32],
    answered: AtomicU64,
}

impl<'a> Gate for InOrder<'a> {
    fn hold(&self, _actor: Actor, number: u32) -> bool {
        let next = self.answered.load(Ordering::SeqCst) as usize;
        self.order.get(next).copied() != Some(number)
    }

    fn done(&self, _actor: Actor, _number: u32) {
        self.answered.fetch_add(1, Ordering::SeqCst);
    }
}

// What the clients are asked, once driver 1 and then driver 2 led.
const CALLS: [ClientLine; 6] = [
    ClientLine {
        number: 3,
        client: 1,
        ask: ClientAsk::Take { driver: 1, n: 3 },
    },
    ClientLine {
        number: 4,
        client: 2,
        ask: ClientAsk::Take { driver: 2, n: 1 },
    },
    ClientLine {
        number: 5,
        client: 1,
        ask: ClientAsk::Take { driver: 1, n: 2 },
    },
    ClientLine {
        number: 6,
        client: 2,
        ask: ClientAsk::Tell { to: 1 },
    },
    ClientLine {
        number: 7,
        client: 1,
        ask: ClientAsk::Hear,
    },
    ClientLine {
        number: 8,
        client: 1,
        ask: ClientAsk::Take { driver: 1, n: 1 },
    },
];

// A post with the workers of its two clients.
fn callers<N: BoardName>(
    alloc: Global,
    board: &Board,
    passes: Vec<Pass>,
) -> Result<(Post<N>, Vec<ClientWork<N>>), NoMemory>
    requires named { board_id board.now ≡ N.board }
    requires setup { setup_of board.now ≡ record { drivers = 2; clients = 2; cell = record { saved = 0; term = 0 } } }
    requires passes { All (λ p. IsPassOf p board.now) passes.items }
    requires views { map pass_view passes.items ≡ map (client_view (setup_of board.now)) (numbers_from 1 2) }
    ensures new { IfOk result (λ r. All (IsNewClient N.board board.now r.0) r.1.items) }
{
    let (post, slips) = Post::<N>::open(alloc, board, 2)?;
    let works = client_works(alloc, board, &post, passes, slips)?;
    Ok((post, works))
}

// The clients' answers, their lines in this order.
fn call_in_order<N: BoardName + Send + Sync, R: Threads + Wait + Sync>(
    rt: &R,
    alloc: Global,
    board: &Board,
    passes: Vec<Pass>,
    lines: &[ClientLine],
    order: &[u32],
) -> Result<Vec<ClientAnswers>, NoMemory>
    requires calls { All (λ line. IsCall (setup_of board.now) line.ask) lines.now }
    requires named { board_id board.now ≡ N.board }
    requires setup { setup_of board.now ≡ record { drivers = 2; clients = 2; cell = record { saved = 0; term = 0 } } }
    requires passes { All (λ p. IsPassOf p board.now) passes.items }
    requires views { map pass_view passes.items ≡ map (client_view (setup_of board.now)) (numbers_from 1 2) }
{
    let (post, mut works) = callers::<N>(alloc, board, passes)?;
    let gate = InOrder {
        order,
        answered: AtomicU64::new(0),
    };
    let shared = Shared {
        board,
        post: &post,
        gate: &gate,
        clients: lines,
    };
    work_all(rt, &shared, works.as_mut_slice());
    Ok(client_parts(alloc, works)?.answers)
}

fn took(driver: u8, n: u64, answer: Result<Batch, DrawFault>) -> ClientSaid {
    ClientSaid::Took { driver, n, answer }
}

fn batch(term: u64, driver: u8, last: u64, count: u64) -> Batch {
    Batch {
        term,
        driver,
        last,
        count,
    }
}

// Client 1 may draw at driver 1 until it hears of a timestamp of the later term.
#[test]
fn clients_answer_their_own_lines(rt: HostRuntime) -> Result<(), Fail> {
    let Opening {
        board,
        mut first,
        mut second,
        passes,
    } = open_for_two(rt.alloc())?;
    answer(&mut first, &board, DriverAsk::Lead { now: 1000 })?;
    answer(&mut second, &board, DriverAsk::Lead { now: 500 })?;
    let order = [3, 4, 5, 6, 7, 8];
    let answers = call_in_order::<Brand, _>(&rt, rt.alloc(), &board, passes, &CALLS, &order)?;
    let seen = Seen {
        term: 2,
        last: 1_048_838_145,
    };
    let said = [
        (1, 3, took(1, 3, Ok(batch(1, 1, 262_144_003, 3)))),
        (1, 5, took(1, 2, Ok(batch(1, 1, 262_144_005, 2)))),
        (1, 7, ClientSaid::Heard { note: Some(seen) }),
        (1, 8, took(1, 1, Err(DrawFault::Stale { seen_term: 2 }))),
        (2, 4, took(2, 1, Ok(batch(2, 2, 1_048_838_145, 1)))),
        (2, 6, ClientSaid::Told { to: 1 }),
    ];
    let mut rows = said.iter();
    for client in answers.iter() {
        for answer in client.answers.iter() {
            let row = (client.number, answer.line, answer.said);
            assert_eq!(rt; Some(&row), rows.next());
        }
    }
    assert!(rt; rows.next().is_none());
    Ok(())
}

// A client to which memory was wanting.
fn without_memory<N: BoardName>(
    alloc: Global,
    board: &Board,
    passes: Vec<Pass>,
) -> Result<bool, NoMemory>
    requires named { board_id board.now ≡ N.board }
    requires setup { setup_of board.now ≡ record { drivers = 2; clients = 2; cell = record { saved = 0; term = 0 } } }
    requires passes { All (λ p. IsPassOf p board.now) passes.items }
    requires views { map pass_view passes.items ≡ map (client_view (setup_of board.now)) (numbers_from 1 2) }
{
    let (_post, mut works) = callers::<N>(alloc, board, passes)?;
    if let Some(work) = works.last_mut() {
        work.failed = true;
    }
    Ok(client_parts(alloc, works).is_err())
}

#[test]
fn want_of_memory_of_one_client_is_told(rt: HostRuntime) -> Result<(), Fail> {
    let Opening { board, passes, .. } = open_for_two(rt.alloc())?;
    assert!(rt; without_memory::<Brand>(rt.alloc(), &board, passes)?);
    Ok(())
}

// Keeps what is shared.
#[derive(Clone, Copy, Drop)]
struct Copies<T> {
    copied: T,
}

impl Work<u64> for Copies<u64> {
    ghost ready = { λ shared w. Unit {0} };

    ghost done = { λ shared v w. w.copied ≡ shared };

    fn work<R: Threads + Wait + Sync>(&mut self, _rt: &R, shared: &u64) {
        self.copied = *shared;
    }
}

impl Work<bool> for Copies<bool> {
    ghost ready = { λ shared w. Unit {0} };

    ghost done = { λ shared v w. w.copied ≡ shared };

    fn work<R: Threads + Wait + Sync>(&mut self, _rt: &R, shared: &bool) {
        self.copied = *shared;
    }
}

#[test]
fn workers_of_both_kinds_work(rt: HostRuntime) {
    let mut some = [Copies { copied: 0u64 }; 3];
    let mut others = [Copies { copied: false }; 2];
    work_both(&rt, &7, &mut some, &true, &mut others);
    assert!(rt; some.iter().all(|work| work.copied == 7));
    assert!(rt; others.iter().all(|work| work.copied));
}

// Holds each line so often.
#[derive(Drop)]
struct Holding {
    times: u64,
    asked: AtomicU64,
}

impl Gate for Holding {
    fn hold(&self, _actor: Actor, _number: u32) -> bool {
        self.asked.fetch_add(1, Ordering::SeqCst) < self.times
    }

    fn done(&self, _actor: Actor, _number: u32) {}
}

// The last gate never lets it.
#[test]
fn gate_is_asked_until_it_lets_the_line(rt: HostRuntime) {
    for (times, asks) in [(0, 1), (3, 4), (u64::MAX, 1_000_000)] {
        let gate = Holding {
            times,
            asked: AtomicU64::new(0),
        };
        pass(&gate, Actor::Client(1), 1);
        assert_eq!(rt;
            gate.asked.load(Ordering::SeqCst),
            asks,
            "held {times} times"
        );
    }
}
