// The oracle in memory, and one atomic step of it.
ghost use Rattle.std.specs.Prelude.{◌≡◌, ◌-◌, ◌<◌, ◌≤◌, length, OnOk};
ghost use Rattle.tso_core.specs.Asked.{HasActor};
ghost use Rattle.tso_core.specs.Done.{done_of};
ghost use Rattle.tso_core.specs.Machine.{whole_of, place_of, room_at};
ghost use Rattle.tso_core.specs.Steps.{due_of};
ghost use Rattle.tso_core.specs.Sound.{IsSound, MayMake, HasDriver};
ghost use Rattle.tso_core.specs.Whole.{view_at, turn_at, found_by, made};

use crate::notes::Post;
use crate::run::Run;
use crate::seat::Seat;
use crate::{Done, Due, Turn};
use pd_types::{Actor, NoMemory};
use tso_model::{Setup, WordStep};

/// The oracle: its words, what each actor knows, where each stands, and the lists of its run.
#[derive(Drop)]
pub struct Machine {
    pub setup: Setup,
    pub words: Vec<u64>,
    pub seats: Vec<Seat>,
    pub turns: Vec<Turn>,
    pub posts: Vec<Post>,
    pub run: Run,
}

/// A step that was made: the word that it found, and what it did.
#[derive(Clone, Copy, Debug, Drop)]
pub struct Made {
    pub found: u64,
    pub done: Done,
}

impl Machine {
    /// Makes room for `n` more steps of the seat at this place. Want of memory leaves the state.
    #[inline(always)]
    pub fn reserve(&mut self, id: usize, n: usize) -> Result<(), NoMemory>
        requires inside { id < length self.old.seats.items }
        ensures whole { whole_of self.new ≡ whole_of self.old }
        ensures ok { OnOk result (n ≤ room_at self.new id) }
    {
        self.seats[id].reserve(n)?;
        self.run.reserve(n)
    }

    /// Makes the step of the seat at this place: the word is found and written, the seat learns of it,
    /// and the run keeps what was done.
    #[inline(always)]
    pub fn make(&mut self, id: usize, step: WordStep) -> Made
        requires sound { IsSound (whole_of self.old) }
        requires may { MayMake (whole_of self.old) id step }
        requires room { 0 < room_at self.old id }
        ensures found { result.found ≡ found_by (whole_of self.old) id step }
        ensures done { result.done ≡ done_of step (found_by (whole_of self.old) id step) (view_at (whole_of self.old) id) }
        ensures after { whole_of self.new ≡ made (whole_of self.old) id step }
        ensures room { room_at self.new id ≡ room_at self.old id - 1 }
    {
        let seat = &mut self.seats[id];
        let place = seat.place(step);
        let found = self.words[place];
        self.words[place] = seat.written(step, found);
        let done = seat.make(step, found);
        self.run.keep(done);
        Made { found, done }
    }

    /// The actor's place among the seats. A store has none, and stands for the base, which makes no
    /// step.
    #[inline(always)]
    pub fn place(&self, actor: Actor) -> usize
        ensures value { result ≡ place_of self.now.setup actor }
    {
        match actor {
            Actor::Driver(driver) => driver as usize,
            Actor::Client(client) => self.setup.drivers as usize + client as usize,
            Actor::Store(_) => 0,
        }
    }

    /// Where the driver stands.
    #[inline(always)]
    pub fn turn(&self, driver: u8) -> Turn
        requires sound { IsSound (whole_of self.now) }
        requires driver { HasDriver self.now.setup driver }
        ensures value { result ≡ turn_at (whole_of self.now) driver }
    {
        self.turns[driver as usize]
    }

    /// What is next for the actor.
    #[inline(always)]
    pub fn due(&self, actor: Actor) -> Due
        requires sound { IsSound (whole_of self.now) }
        requires actor { HasActor self.now.setup actor }
        ensures value { result ≡ due_of (whole_of self.now) actor }
    {
        match actor {
            Actor::Driver(driver) => self.turn(driver).due,
            Actor::Client(_) => self.seats[self.place(actor)].due(),
            Actor::Store(_) => Due::Rest,
        }
    }
}
