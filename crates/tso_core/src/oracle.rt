// The oracle as its callers see it.
ghost use Rattle.std.specs.Prelude.{◌≡◌, ◌<◌, IfOk, OnOk, OnErr};
ghost use Rattle.tso_model.specs.Sound.{IsSetup};
ghost use Rattle.tso_core.specs.Steps.{step_of};
ghost use Rattle.tso_core.specs.Rows.{lead_of, tick_of, resigned_of, take_of};
ghost use Rattle.tso_core.specs.Notes.{tell_of, hear_of};
ghost use Rattle.tso_core.specs.Sound.{IsSound, HasDriver, HasClient};
ghost use Rattle.tso_core.specs.Asked.{HasActor, IsAsked, IsCount};
ghost use Rattle.tso_core.specs.Opened.{opened};

use crate::machine::Machine;
use crate::{Due, Kind, Reply};
use pd_types::{Actor, Batch, CellWord, NoMemory, Window};
use std::alloc::Global;
use std::marker::Model;
use tso_model::Setup;

/// The timestamp oracle of one placement driver: 1 to 7 drivers, one of which leads at a time, and
/// 1 to 64 clients. A call is made by one of them, by its number from 1 on. After `NoMemory`
/// nothing is changed.
#[derive(Drop)]
pub struct Core {
    alloc: Global,
    machine: Machine,
}

impl Model for Core {
    ghost use Rattle.tso_core.specs.Whole.{Whole};

    ghost Value = { Whole };

    ghost use Rattle.tso_core.specs.State.{state_of, IsKept};

    ghost view = { state_of };

    ghost invariant = { IsKept };
}

impl Core {
    /// All actors are at rest, and the opening cell is the only one that anybody knows.
    pub fn new(alloc: Global, drivers: u8, clients: u8, cell: CellWord) -> Result<Core, NoMemory>
        requires setup { IsSetup (record { drivers = drivers; clients = clients; cell = cell }) }
        ensures value { IfOk result (λ core. core ≡ opened (record { drivers = drivers; clients = clients; cell = cell })) }
        ensures sound { IfOk result (λ core. IsSound core) }
    {
        let setup = Setup {
            drivers,
            clients,
            cell,
        };
        let machine = Machine::new(alloc, setup)?;
        Ok(Core { alloc, machine })
    }

    /// The windows of the run, by rising term; the opening one is the first.
    pub fn windows(&self) -> &[Window]
        ensures value { result.now ≡ self.now.windows }
    {
        self.machine.run.windows()
    }

    /// The batches of the run, by term and then by their timestamps.
    pub fn batches(&self) -> &[Batch]
        ensures value { result.now ≡ self.now.batches }
    {
        self.machine.run.batches()
    }

    /// One atomic step of an actor. `OutOfTurn` names the step that is next, where that is another
    /// one; nothing is changed then. `Read`, `Probe`, `Resign` and `Look` come at rest.
    pub fn step(&mut self, actor: Actor, kind: Kind) -> Result<Reply, NoMemory>
        requires actor { HasActor self.old.setup actor }
        requires kind { IsAsked self.old.setup kind }
        ensures reply { IfOk result (λ reply. reply ≡ (step_of self.old actor kind).reply) }
        ensures after { OnOk result (self.new ≡ (step_of self.old actor kind).after) }
        ensures err { OnErr result (self.new ≡ self.old) }
        ensures sound { IsSound self.new }
        ensures setup { self.new.setup ≡ self.old.setup }
    {
        let due = self.machine.due(actor);
        if !kind.due().is(due) {
            return Ok(Reply::OutOfTurn { expected: due });
        }
        self.machine.reserve(self.machine.place(actor), 1)?;
        Ok(self.machine.step(actor, kind))
    }

    /// A driver campaigns at a moment, in milliseconds: a read, a campaign, a save, a raise and a
    /// publish in a row, as far as they come. `OutOfTurn` where it is not at rest.
    pub fn lead(&mut self, driver: u8, now: u64) -> Result<Reply, NoMemory>
        requires driver { HasDriver self.old.setup driver }
        ensures reply { IfOk result (λ reply. reply ≡ (lead_of self.old driver now).reply) }
        ensures after { OnOk result (self.new ≡ (lead_of self.old driver now).after) }
        ensures err { OnErr result (self.new ≡ self.old) }
        ensures sound { IsSound self.new }
        ensures setup { self.new.setup ≡ self.old.setup }
    {
        let kinds = [
            Kind::Read { now },
            Kind::Campaign,
            Kind::Save,
            Kind::Raise,
            Kind::Publish,
        ];
        let answer = self.machine.call(Actor::Driver(driver), &kinds)?;
        Ok(self.machine.won(driver, answer))
    }

    /// A driver that leads goes on with the clock, at a moment in milliseconds: a probe, at times a
    /// save, a raise, and a publish after a save. `OutOfTurn` where it is not at rest.
    pub fn tick(&mut self, driver: u8, now: u64) -> Result<Reply, NoMemory>
        requires driver { HasDriver self.old.setup driver }
        ensures reply { IfOk result (λ reply. reply ≡ (tick_of self.old driver now).reply) }
        ensures after { OnOk result (self.new ≡ (tick_of self.old driver now).after) }
        ensures err { OnErr result (self.new ≡ self.old) }
        ensures sound { IsSound self.new }
        ensures setup { self.new.setup ≡ self.old.setup }
    {
        let kinds = [Kind::Probe { now }, Kind::Save, Kind::Raise, Kind::Publish];
        self.machine.call(Actor::Driver(driver), &kinds)
    }

    /// A driver gives up its term. `OutOfTurn` where it is not at rest.
    pub fn resign(&mut self, driver: u8) -> Result<Reply, NoMemory>
        requires driver { HasDriver self.old.setup driver }
        ensures reply { IfOk result (λ reply. reply ≡ (resigned_of self.old driver).reply) }
        ensures after { OnOk result (self.new ≡ (resigned_of self.old driver).after) }
        ensures err { OnErr result (self.new ≡ self.old) }
        ensures sound { IsSound self.new }
        ensures setup { self.new.setup ≡ self.old.setup }
    {
        self.machine.call(Actor::Driver(driver), &[Kind::Resign])
    }

    /// A client asks a driver for `n` timestamps, 1 to 262,143: a look, an arm and a draw in a row,
    /// as far as they come. `OutOfTurn` where it is not at rest. The row is written out kind by kind,
    /// since most calls are draws, and a step that is known here takes less.
    pub fn take(&mut self, client: u8, driver: u8, n: u64) -> Result<Reply, NoMemory>
        requires client { HasClient self.old.setup client }
        requires driver { HasDriver self.old.setup driver }
        requires count { IsCount n }
        ensures reply { IfOk result (λ reply. reply ≡ (take_of self.old client driver n).reply) }
        ensures after { OnOk result (self.new ≡ (take_of self.old client driver n).after) }
        ensures err { OnErr result (self.new ≡ self.old) }
        ensures sound { IsSound self.new }
        ensures setup { self.new.setup ≡ self.old.setup }
    {
        let actor = Actor::Client(client);
        let due = self.machine.due(actor);
        let refusal = Reply::OutOfTurn { expected: due };
        if !due.is(Due::Rest) {
            return Ok(refusal);
        }
        self.machine.reserve(self.machine.place(actor), 3)?;
        let looked = self.machine.go(actor, Kind::Look { driver }, refusal);
        let armed = self.machine.go(actor, Kind::Arm { n }, looked);
        Ok(self.machine.go(actor, Kind::Draw, armed))
    }

    /// A client leaves a note of what it has seen for another client, or for itself. `OutOfTurn` where
    /// it is not at rest.
    pub fn tell(&mut self, from: u8, to: u8) -> Result<Reply, NoMemory>
        requires from { HasClient self.old.setup from }
        requires to { HasClient self.old.setup to }
        ensures reply { IfOk result (λ reply. reply ≡ (tell_of self.old from to).reply) }
        ensures after { OnOk result (self.new ≡ (tell_of self.old from to).after) }
        ensures err { OnErr result (self.new ≡ self.old) }
        ensures sound { IsSound self.new }
        ensures setup { self.new.setup ≡ self.old.setup }
    {
        let due = self.machine.due(Actor::Client(from));
        if !due.is(Due::Rest) {
            return Ok(Reply::OutOfTurn { expected: due });
        }
        self.machine.leave(self.alloc, from, to)?;
        Ok(Reply::Told)
    }

    /// A client hears the oldest note that was left for it, or `Nothing` where none is left.
    /// `OutOfTurn` where it is not at rest.
    pub fn hear(&mut self, client: u8) -> Result<Reply, NoMemory>
        requires client { HasClient self.old.setup client }
        ensures reply { IfOk result (λ reply. reply ≡ (hear_of self.old client).reply) }
        ensures after { OnOk result (self.new ≡ (hear_of self.old client).after) }
        ensures err { OnErr result (self.new ≡ self.old) }
        ensures sound { IsSound self.new }
        ensures setup { self.new.setup ≡ self.old.setup }
    {
        let due = self.machine.due(Actor::Client(client));
        if due.is(Due::Rest) {
            self.machine
                .reserve(self.machine.place(Actor::Client(client)), 1)?;
            return Ok(self.machine.meet(client));
        }
        Ok(Reply::OutOfTurn { expected: due })
    }
}
