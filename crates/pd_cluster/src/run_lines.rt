// Whose line is whose in `run`, and what it asks.
ghost use Rattle.std.specs.Prelude.{◌≡◌, [], IfOk, OnOk, map, replicate};
ghost use Rattle.std.specs.Vec.{vec_items};
ghost use Rattle.pd_cluster.specs.Dealing.{Deals, HasDealtNothing, HasPlace, without_lines};
ghost use Rattle.pd_cluster.specs.Replay.{setup_of};
ghost use Rattle.pd_cluster.specs.RunLines.{AreActing, AreOf, asked_by, own_of};
ghost use Rattle.pd_run.specs.Runs.{lines_of};
ghost use Rattle.pd_run.specs.Tasks.{AreTasks};
ghost use Rattle.pd_script.specs.Lawful.{IsLawfulScript};
ghost use Rattle.pd_script.specs.Scripts.{asker};
ghost use Rattle.pd_script.specs.declared.script.Mode.TheVariants.{Run as OnThreads};

use pd_run::{DriverLine, DriverTask, StoreLine, StoreLines, StoreTask, Tasks};
use pd_script::{Act, Line, Script, asker};
use pd_types::{Actor, NoMemory, Request};
use std::alloc::Global;
use tso_run::{ClientAsk, ClientLine, DriverAsk};

/// Whose line it is, and what it asks.
#[derive(Drop)]
pub enum Own {
    Driver(u8, DriverLine),
    Client(ClientLine),
    Store(u64, StoreLine),
    Nobody,
}

// A line that asks something of the oracle.
fn to_oracle(number: u32, driver: u8, ask: DriverAsk) -> Own
    ensures value { result ≡ Own.Driver driver (record { number = number; task = DriverTask.Oracle ask }) }
{
    let task = DriverTask::Oracle(ask);
    Own::Driver(driver, DriverLine { number, task })
}

// A line of a client.
fn by_client(number: u32, client: u8, ask: ClientAsk) -> Own
    ensures value { result ≡ Own.Client (record { number = number; client = client; ask = ask }) }
{
    Own::Client(ClientLine {
        number,
        client,
        ask,
    })
}

// A line of a store.
fn by_store(number: u32, store: u64, driver: u8, task: StoreTask) -> Own
    ensures value { result ≡ Own.Store store (record { number = number; driver = driver; task = task }) }
{
    Own::Store(
        store,
        StoreLine {
            number,
            driver,
            task,
        },
    )
}

// A line that asks something of a driver's cluster.
fn to_cluster(number: u32, driver: u8, request: Request) -> Own
    ensures value { result ≡ asked_by number driver request (asker driver request) }
{
    match asker(driver, &request) {
        Actor::Store(store) => by_store(number, store, driver, StoreTask::Ask(request)),
        Actor::Driver(_) | Actor::Client(_) => {
            let task = DriverTask::Cluster(request);
            Own::Driver(driver, DriverLine { number, task })
        }
    }
}

// Whose the line with this number is. A `cell` line is nobody's, and no single step stands in `run`.
fn own_of(number: u32, act: Act) -> Own
    ensures value { result ≡ own_of number act }
{
    match act {
        Act::Lead { driver, now } => to_oracle(number, driver, DriverAsk::Lead { now }),
        Act::Tick { driver, now } => to_oracle(number, driver, DriverAsk::Tick { now }),
        Act::Resign { driver } => to_oracle(number, driver, DriverAsk::Resign),
        Act::Take { client, driver, n } => {
            by_client(number, client, ClientAsk::Take { driver, n })
        }
        Act::Tell { client, to } => by_client(number, client, ClientAsk::Tell { to }),
        Act::Hear { client } => by_client(number, client, ClientAsk::Hear),
        Act::Ask { driver, request } => to_cluster(number, driver, request.into_value()),
        Act::Pop { store, driver } => by_store(number, store, driver, StoreTask::Pop),
        Act::Cell { .. } => Own::Nobody,
        Act::Read { .. } | Act::Campaign { .. } | Act::Save { .. } => Own::Nobody,
        Act::Raise { .. } | Act::Publish { .. } | Act::Probe { .. } => Own::Nobody,
        Act::Look { .. } | Act::Arm { .. } | Act::Draw { .. } => Own::Nobody,
    }
}

// The stores that act in these lines, by rising ids.
fn acting(alloc: Global, lines: &[Line]) -> Result<Vec<u64>, NoMemory>
    ensures acting { IfOk result (λ stores. AreActing lines.now stores.items) }
{
    let mut stores = Vec::new(alloc);
    for line in lines {
        if let Some(Actor::Store(store)) = line.actor {
            stores.push(store)?;
        }
    }
    stores.sort()?;
    stores.dedup();
    Ok(stores)
}

// So many empty lists.
fn idle_drivers(alloc: Global, drivers: u8) -> Result<Vec<Vec<DriverLine>>, NoMemory>
    ensures value { IfOk result (λ lists. map vec_items lists.items ≡ replicate drivers []) }
{
    let mut lists = Vec::new(alloc);
    for _driver in 0..drivers {
        lists.push(Vec::new(alloc))?;
    }
    Ok(lists)
}

// These stores, with no lines.
fn idle_stores(alloc: Global, ids: &[u64]) -> Result<Vec<StoreLines>, NoMemory>
    ensures value { IfOk result (λ stores. map lines_of stores.items ≡ map without_lines ids.now) }
{
    let mut stores = Vec::new(alloc);
    for id in ids {
        let lines = Vec::new(alloc);
        stores.push(StoreLines { store: *id, lines })?;
    }
    Ok(stores)
}

/// The ids of the stores that act, which rise, and the lines that were dealt out to their actors.
#[derive(Drop)]
pub struct Dealt {
    pub ids: Vec<u64>,
    pub tasks: Tasks,
}

impl Dealt {
    // Nothing was dealt out to so many drivers and to these stores.
    fn new(alloc: Global, drivers: u8, ids: Vec<u64>) -> Result<Dealt, NoMemory>
        ensures ids { IfOk result (λ dealt. dealt.ids.items ≡ ids.items) }
        ensures none { IfOk result (HasDealtNothing drivers) }
    {
        let tasks = Tasks {
            drivers: idle_drivers(alloc, drivers)?,
            clients: Vec::new(alloc),
            stores: idle_stores(alloc, &ids)?,
        };
        Ok(Dealt { ids, tasks })
    }

    // Gives a driver one line more.
    fn to_driver(&mut self, driver: u8, line: DriverLine) -> Result<(), NoMemory>
        requires place { HasPlace self.old (Own.Driver driver line) }
        ensures ok { OnOk result (Deals (Own.Driver driver line) self.old self.new) }
    {
        let place = (driver - 1) as usize;
        self.tasks.drivers[place].push(line)?;
        Ok(())
    }

    // Gives a store one line more.
    fn to_store(&mut self, store: u64, line: StoreLine) -> Result<(), NoMemory>
        requires place { HasPlace self.old (Own.Store store line) }
        ensures ok { OnOk result (Deals (Own.Store store line) self.old self.new) }
    {
        let Ok(place) = self.ids.binary_search(&store) else {
            unreachable!()
        };
        self.tasks.stores[place].lines.push(line)?;
        Ok(())
    }

    // Gives a line to its actor, behind those that it has.
    fn deal(&mut self, own: Own) -> Result<(), NoMemory>
        requires place { HasPlace self.old own }
        ensures ok { OnOk result (Deals own self.old self.new) }
    {
        match own {
            Own::Driver(driver, line) => self.to_driver(driver, line),
            Own::Client(line) => {
                self.tasks.clients.push(line)?;
                Ok(())
            }
            Own::Store(store, line) => self.to_store(store, line),
            Own::Nobody => Ok(()),
        }
    }
}

/// The lines of all actors of a script.
pub fn tasks_of(alloc: Global, script: Script) -> Result<Tasks, NoMemory>
    requires lawful { IsLawfulScript OnThreads script }
    ensures value { IfOk result (AreOf script) }
    ensures tasks { IfOk result (AreTasks (setup_of script)) }
{
    let Script { drivers, lines, .. } = script;
    let ids = acting(alloc, lines.as_slice())?;
    let mut dealt = Dealt::new(alloc, drivers, ids)?;
    for line in lines.into_vec() {
        dealt.deal(own_of(line.number, line.act))?;
    }
    Ok(dealt.tasks)
}
