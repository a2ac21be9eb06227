// Single steps, each where it is its actor's next, and whole calls: the steps of an actor in a row.
ghost use Rattle.std.specs.Prelude.{◌≡◌, ◌<◌, IfOk, OnOk, OnErr};
ghost use Rattle.std.specs.List.{AllByRecursion};
ghost use Rattle.pd_types.specs.declared.oracle.Actor.TheVariants.{Driver};
ghost use Rattle.tso_core.specs.declared.reply.Reply.TheVariants.{OutOfTurn};
ghost use Rattle.tso_core.specs.Asked.{HasActor, IsAsked};
ghost use Rattle.tso_core.specs.Due.{due_for};
ghost use Rattle.tso_core.specs.Machine.{whole_of, place_of, room_at, IsAt, DriverAt, Goes};
ghost use Rattle.tso_core.specs.Rows.{call_of, told, won, goes_on};
ghost use Rattle.tso_core.specs.Sound.{IsSound, HasDriver};
ghost use Rattle.tso_core.specs.Steps.{due_step};

use crate::machine::Machine;
use crate::{Due, Kind, Reply};
use pd_types::{Actor, NoMemory, Window};
use tso_model::WordStep;

impl Machine {
    /// A whole call of an actor at rest: the steps of these kinds in a row, each where it comes to be
    /// next. It takes its room before the first; want of memory leaves the state.
    pub fn call(&mut self, actor: Actor, kinds: &[Kind]) -> Result<Reply, NoMemory>
        requires sound { IsSound (whole_of self.old) }
        requires actor { HasActor self.old.setup actor }
        requires kinds { AllByRecursion (IsAsked self.old.setup) kinds.now }
        ensures reply { IfOk result (λ reply. reply ≡ (call_of (whole_of self.old) actor kinds.now).reply) }
        ensures after { OnOk result (whole_of self.new ≡ (call_of (whole_of self.old) actor kinds.now).after) }
        ensures err { OnErr result (whole_of self.new ≡ whole_of self.old) }
        ensures sound { IsSound (whole_of self.new) }
        ensures setup { self.new.setup ≡ self.old.setup }
    {
        let due = self.due(actor);
        let mut answer = Reply::OutOfTurn { expected: due };
        if !due.is(Due::Rest) {
            return Ok(answer);
        }
        self.reserve(self.place(actor), kinds.len())?;
        for kind in kinds {
            answer = self.go(actor, *kind, answer);
        }
        Ok(answer)
    }

    /// One kind of a row, behind the answer before it: its step is made where it is next.
    #[inline(always)]
    pub fn go(&mut self, actor: Actor, kind: Kind, before: Reply) -> Reply
        requires sound { IsSound (whole_of self.old) }
        requires actor { HasActor self.old.setup actor }
        requires kind { IsAsked self.old.setup kind }
        requires room { 0 < room_at self.old (place_of self.old.setup actor) }
        ensures goes { Goes (place_of self.old.setup actor) self.old result self.new (goes_on actor (record { reply = before; after = whole_of self.old }) kind) }
        ensures sound { IsSound (whole_of self.new) }
        ensures setup { self.new.setup ≡ self.old.setup }
    {
        if !kind.due().is(self.due(actor)) {
            return before;
        }
        let told = self.told(actor, kind, before);
        let reply = self.step(actor, kind);
        told.unwrap_or(reply)
    }

    // What a row answers in place of the step's own answer.
    #[inline(always)]
    fn told(&self, actor: Actor, kind: Kind, before: Reply) -> Option<Reply>
        requires sound { IsSound (whole_of self.now) }
        requires actor { HasActor self.now.setup actor }
        ensures value { result ≡ told kind actor (whole_of self.now) before }
    {
        match kind {
            Kind::Raise => match actor {
                Actor::Driver(driver) => Some(Reply::Moved {
                    next: self.turn(driver).next,
                    hi: self.seats[driver as usize].held().hi,
                }),
                Actor::Client(_) | Actor::Store(_) => None,
            },
            Kind::Publish => Some(before),
            // All other answers are the row's too.
            _ => None,
        }
    }

    /// A lead that went on to its end has won the window that its driver holds.
    pub fn won(&self, driver: u8, answer: Reply) -> Reply
        requires sound { IsSound (whole_of self.now) }
        requires driver { HasDriver self.now.setup driver }
        ensures value { result ≡ (won driver (record { reply = answer; after = whole_of self.now })).reply }
    {
        match answer {
            Reply::Moved { .. } => {
                let Window { term, lo, hi, .. } = self.seats[driver as usize].held();
                Reply::Won { term, lo, hi }
            }
            // It ended before.
            _ => answer,
        }
    }

    /// The step of an actor for which one of this kind is next.
    #[inline(always)]
    pub fn step(&mut self, actor: Actor, kind: Kind) -> Reply
        requires at { IsAt (due_for kind) actor self.old }
        requires kind { IsAsked self.old.setup kind }
        ensures goes { Goes (place_of self.old.setup actor) self.old result self.new (due_step (whole_of self.old) actor kind) }
    {
        let id = self.place(actor);
        match actor {
            Actor::Driver(driver) => self.drive(driver, kind),
            Actor::Client(_) => match kind {
                Kind::Look { driver } => self.make(id, WordStep::LoadLimit { driver }).done.reply(),
                Kind::Arm { n } => self.make(id, WordStep::ArmCount { n }).done.reply(),
                Kind::Draw => self.make(id, WordStep::AddArmed).done.reply(),
                // All other steps are a driver's.
                _ => out_of_turn(kind),
            },
            Actor::Store(_) => out_of_turn(kind),
        }
    }

    // The same of a driver: the step is made on its word, and what it found and did decides the
    // answer and what is next.
    fn drive(&mut self, driver: u8, kind: Kind) -> Reply
        requires at { DriverAt (due_for kind) driver self.old }
        ensures goes { Goes driver self.old result self.new (due_step (whole_of self.old) (Driver driver) kind) }
    {
        let id = driver as usize;
        if !self.seats[id].has_term_for(kind) {
            return Reply::NotLeading;
        }
        let hi = self.seats[id].held().hi;
        let turn = self.turn(driver);
        let Some(step) = turn.step(kind) else {
            return out_of_turn(kind);
        };
        let made = self.make(id, step);
        let decided = turn.decide(kind, hi, made);
        self.turns[id] = decided.turn;
        decided.reply
    }
}

// What an actor answers to a kind that only the other actors have, at the due of that kind.
fn out_of_turn(kind: Kind) -> Reply
    ensures value { result ≡ OutOfTurn (due_for kind) }
{
    Reply::OutOfTurn {
        expected: kind.due(),
    }
}
