// What a cluster is asked besides, and runs of two drivers, a client and two stores whose gate fixes the
// order of all lines. The expected answers are worked out by hand.
ghost use Rattle.std.specs.Prelude.{◌≡◌, ◌∷◌, All, IfOk, length, map};
ghost use Rattle.pd_turn.specs.Turns.{AreApart};
ghost use Rattle.tso_run.specs.Lines.{IsCall};
ghost use Rattle.pd_run.specs.Tasks.{AreTasks, GoesTo};

use crate::answer::asked_besides;
use crate::{
    DriverAnswer, DriverLine, DriverSays, DriverTask, Left, StoreAnswer, StoreLine, StoreLines,
    StoreSays, StoreTask, Tasks, run,
};
use pd_state::Reply;
use pd_types::{
    Actor, Batch, Bytes, CellWord, Downs, Epoch, Gate, Ids, Labels, NoMemory, Peer, Peers, Region,
    RegionBeat, Request, Role, Step, StepMsg, Text,
};
use sched_api::Bench;
use std::alloc::Global;
use std::process::Abort;
use std::sync::Wait;
use std::sync::atomic::{AtomicU64, Ordering};
use std::test::Fail;
use std::thread::Threads;
use tso_board::open;
use tso_driver::{DriverSaid, LeadReply, TickReply};
use tso_outcome::ClientSaid;
use tso_run::{ClientAsk, ClientLine, DriverAsk};

#[test]
fn a_cluster_hears_where_a_term_begins_or_ends(rt: HostRuntime) {
    let found = CellWord {
        saved: 7001,
        term: 2,
    };
    let won = LeadReply::Won {
        term: 1,
        lo: 1000,
        hi: 4000,
    };
    let term = Request::Term {
        term: 1,
        moment: 900,
    };
    let lost = TickReply::Lost { found };
    let idle = TickReply::Idle;
    let rows = [
        (
            DriverSaid::Led {
                now: 900,
                reply: won,
            },
            Some(term),
        ),
        (
            DriverSaid::Ticked {
                now: 900,
                reply: lost,
            },
            Some(Request::Retire),
        ),
        (
            DriverSaid::Ticked {
                now: 900,
                reply: idle,
            },
            None,
        ),
        (DriverSaid::Resigned { held: true }, Some(Request::Retire)),
        (DriverSaid::Resigned { held: false }, None),
    ];
    for (said, request) in rows {
        assert_eq!(rt; asked_besides(said), request);
    }
}

// Lets each line begin once all lines before it were answered.
#[derive(Drop)]
struct InOrder {
    answered: AtomicU64,
}

impl Gate for InOrder {
    fn hold(&self, _actor: Actor, number: u32) -> bool {
        self.answered.load(Ordering::SeqCst).saturating_add(1) < u64::from(number)
    }

    fn done(&self, _actor: Actor, _number: u32) {
        self.answered.fetch_add(1, Ordering::SeqCst);
    }
}

// A run of two drivers and a client over these benches, its lines in the order of their numbers.
fn run_in_order<R: Threads + Wait + Sync + AllocGlobal>(
    rt: &R,
    tasks: Tasks,
    benches: Vec<Bench>,
) -> Result<(Left, Vec<Bench>), Fail>
    requires tasks { AreTasks (record { drivers = 2; clients = 1; cell = record { saved = 0; term = 0 } }) tasks }
{
    let cell = CellWord { saved: 0, term: 0 };
    let crew = open(rt.alloc(), 2, 1, cell)?;
    let gate = InOrder {
        answered: AtomicU64::new(0),
    };
    Ok(run(rt, rt.alloc(), tasks, benches, crew, &gate)?)
}

fn lead(number: u32, now: u64) -> DriverLine {
    let task = DriverTask::Oracle(DriverAsk::Lead { now });
    DriverLine { number, task }
}

fn check(number: u32) -> DriverLine {
    let task = DriverTask::Cluster(Request::Check {
        moment: 1000,
        region: 7,
    });
    DriverLine { number, task }
}

// A line of a store at the first driver's cluster.
fn at_first(number: u32, task: StoreTask) -> StoreLine
    ensures goes { GoesTo 2 result }
{
    StoreLine {
        number,
        driver: 1,
        task,
    }
}

fn hello(alloc: Global, number: u32, store: u64) -> Result<StoreLine, NoMemory>
    ensures goes { IfOk result (GoesTo 2) }
{
    let request = Request::Hello {
        store,
        moment: 1000,
        address: Text::of(String::from_str(alloc, "a")?),
        labels: Labels::new(alloc),
    };
    Ok(at_first(number, StoreTask::Ask(request)))
}

// Region 7, whose one peer is on store 1.
fn region(alloc: Global) -> Result<Region, NoMemory> {
    let mut peers = Peers::new(alloc);
    peers.push(Peer {
        id: 11,
        store: 1,
        role: Role::Voter,
    })?;
    Ok(Region {
        id: 7,
        start: Bytes::new(alloc),
        end: Bytes::new(alloc),
        epoch: Epoch {
            conf_ver: 1,
            version: 1,
        },
        peers,
    })
}

fn beat(alloc: Global, number: u32) -> Result<StoreLine, NoMemory>
    ensures goes { IfOk result (GoesTo 2) }
{
    let beat = RegionBeat {
        region: region(alloc)?,
        leader: 11,
        down: Downs::new(alloc),
        pending: Ids::new(alloc),
    };
    let request = Request::Beat {
        store: 1,
        moment: 1000,
        beat,
    };
    Ok(at_first(number, StoreTask::Ask(request)))
}

// The first store reports the region of which it has the leader, and takes a step; the second says hello.
fn acting(alloc: Global) -> Result<Vec<StoreLines>, NoMemory>
    ensures apart { IfOk result (λ stores. AreApart (0 ∷ map (λ (s : StoreLines). s.store) stores.items)) }
    ensures within { IfOk result (λ stores. All (λ (s : StoreLines). All (GoesTo 2) s.lines.items) stores.items) }
{
    let mut first = Vec::new(alloc);
    first.push(hello(alloc, 2, 1)?)?;
    first.push(beat(alloc, 4)?)?;
    first.push(at_first(6, StoreTask::Pop))?;
    let mut second = Vec::new(alloc);
    second.push(hello(alloc, 3, 2)?)?;
    let mut stores = Vec::new(alloc);
    stores.push(StoreLines {
        store: 1,
        lines: first,
    })?;
    stores.push(StoreLines {
        store: 2,
        lines: second,
    })?;
    Ok(stores)
}

// The first driver leads, and checks the region, which lacks two voters; then the second leads.
fn driving(alloc: Global) -> Result<Vec<Vec<DriverLine>>, NoMemory>
    ensures both { IfOk result (λ drivers. length drivers.items ≡ 2) }
{
    let mut first = Vec::new(alloc);
    first.push(lead(1, 1000))?;
    first.push(check(5))?;
    let mut second = Vec::new(alloc);
    second.push(lead(8, 500))?;
    let mut drivers = Vec::new(alloc);
    drivers.push(first)?;
    drivers.push(second)?;
    Ok(drivers)
}

// The client draws at the first driver.
fn calling(alloc: Global) -> Result<Vec<ClientLine>, NoMemory>
    ensures calls { IfOk result (λ lines. All (λ line. IsCall (record { drivers = 2; clients = 1; cell = record { saved = 0; term = 0 } }) line.ask) lines.items) }
{
    let mut lines = Vec::new(alloc);
    lines.push(ClientLine {
        number: 7,
        client: 1,
        ask: ClientAsk::Take { driver: 1, n: 3 },
    })?;
    Ok(lines)
}

fn tasks(alloc: Global) -> Result<Tasks, NoMemory>
    ensures tasks { IfOk result (AreTasks (record { drivers = 2; clients = 1; cell = record { saved = 0; term = 0 } })) }
{
    Ok(Tasks {
        drivers: driving(alloc)?,
        clients: calling(alloc)?,
        stores: acting(alloc)?,
    })
}

// What is left of the run of these lines without benches.
fn left<R: Threads + Wait + Sync + AllocGlobal>(rt: &R) -> Result<Left, Fail> {
    let (left, _) = run_in_order(rt, tasks(rt.alloc())?, Vec::new(rt.alloc()))?;
    Ok(left)
}

#[test]
fn the_oracle_answers_drivers_and_clients(rt: HostRuntime) -> Result<(), Fail> {
    let left = left(&rt)?;
    let rows = [(1, 1000, 1, 1000, 4000), (8, 500, 2, 4001, 7001)];
    let mut drivers = left.drivers.iter();
    for (line, now, term, lo, hi) in rows {
        let reply = LeadReply::Won { term, lo, hi };
        let says = DriverSays::Oracle(DriverSaid::Led { now, reply });
        let first = drivers.next().and_then(|driver| driver.answers.first());
        assert!(rt; first == Some(&DriverAnswer { line, says }));
    }
    let answer = Ok(Batch {
        term: 1,
        driver: 1,
        last: 262_144_003,
        count: 3,
    });
    let took = ClientSaid::Took {
        driver: 1,
        n: 3,
        answer,
    };
    let drawn = left
        .clients
        .first()
        .and_then(|client| client.answers.first());
    assert!(rt; drawn.map(|answer| answer.said) == Some(took));
    Ok(())
}

// The first new peer's id is 1000001; the step goes to the region's leader, which is on store 1.
#[test]
fn a_store_takes_the_step_that_was_sent_to_it(rt: HostRuntime) -> Result<(), Fail> {
    let left = left(&rt)?;
    let step = Step::AddLearner {
        peer: 1_000_001,
        store: 2,
    };
    let message = StepMsg {
        driver: 1,
        term: 1,
        entry: 5,
        region: 7,
        to: 1,
        step,
    };
    let popped = StoreAnswer {
        line: 6,
        driver: 1,
        says: StoreSays::Popped(Some(message)),
    };
    let put = StoreAnswer {
        line: 3,
        driver: 1,
        says: StoreSays::Cluster(Reply::StorePut),
    };
    let mut lasts = left.stores.iter().map(|store| store.answers.last());
    assert!(rt; lasts.next() == Some(Some(&popped)));
    assert!(rt; lasts.next() == Some(Some(&put)));
    assert!(rt; lasts.next().is_none());
    Ok(())
}

// Each entry's line and actor, of the first driver's journal and then of the second's.
#[test]
fn the_journals_have_an_entry_for_each_request(rt: HostRuntime) -> Result<(), Fail> {
    let left = left(&rt)?;
    let (driver, store) = (Actor::Driver(1), Actor::Store(1));
    let rows = [
        (1, driver),
        (2, store),
        (3, Actor::Store(2)),
        (4, store),
        (5, driver),
        (8, Actor::Driver(2)),
    ];
    let mut rows = rows.iter();
    for cluster in left.clusters.iter() {
        for entry in cluster.journal().as_slice() {
            assert_eq!(rt; rows.next(), Some(&(entry.line, entry.actor)));
        }
    }
    assert!(rt; rows.next().is_none());
    Ok(())
}

// The first driver's term, the records of both stores and the window of ids; then the second's term.
#[test]
fn the_metadata_has_the_calls_of_both_drivers(rt: HostRuntime) -> Result<(), Fail> {
    let left = left(&rt)?;
    let mut drivers = [1, 1, 1, 1, 2].iter();
    for call in left.meta.as_slice() {
        assert_eq!(rt; drivers.next(), Some(&call.driver));
    }
    assert!(rt; drivers.next().is_none());
    Ok(())
}

// Two of three benches are lent to drivers.
#[test]
fn all_benches_come_back(rt: HostRuntime) -> Result<(), Fail> {
    let mut benches = Vec::new(rt.alloc());
    for _ in 0..3 {
        benches.push(Bench::empty(rt.alloc()))?;
    }
    let (_, back) = run_in_order(&rt, tasks(rt.alloc())?, benches)?;
    assert_eq!(rt; back.len(), 3);
    Ok(())
}
