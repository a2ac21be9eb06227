// Notes between clients.
ghost use Rattle.std.specs.Prelude.{◌≡◌, ◌<◌, [], ◌∷◌, ◌++◌, MatchOption, IfNone, OnOk, OnErr};
ghost use Rattle.tso_core.specs.declared.reply.Due.TheVariants.{Rest};
ghost use Rattle.tso_core.specs.declared.reply.Reply.TheVariants.{Heard};
ghost use Rattle.tso_core.specs.Machine.{whole_of, room_at, ClientAt, Answers};
ghost use Rattle.tso_core.specs.Notes.{note_left, heard_from};
ghost use Rattle.tso_core.specs.Sound.{IsSound, HasClient};
ghost use Rattle.tso_core.specs.Whole.{place_of_client, post_at};

use crate::Reply;
use crate::machine::Machine;
use pd_types::{Actor, NoMemory};
use std::alloc::Global;
use std::collections::VecDeque;

/// The notes that wait for a client, by their places among the seats, the oldest first.
#[derive(Drop)]
pub struct Post {
    pub notes: VecDeque<usize>,
}

impl Post {
    /// No note waits.
    pub fn new(alloc: Global) -> Post
        ensures notes { result.notes.items ≡ [] }
    {
        Post {
            notes: VecDeque::new(alloc),
        }
    }

    /// One more note waits. Want of memory leaves the post.
    pub fn leave(&mut self, note: usize) -> Result<(), NoMemory>
        ensures ok { OnOk result (self.new.notes.items ≡ self.old.notes.items ++ note ∷ []) }
        ensures err { OnErr result (self.new.notes.items ≡ self.old.notes.items) }
    {
        self.notes.push_back(note)?;
        Ok(())
    }

    /// The oldest note, which waits no more.
    pub fn take(&mut self) -> Option<usize>
        ensures oldest { MatchOption result (self.old.notes.items ≡ []) (λ note. self.old.notes.items ≡ note ∷ self.new.notes.items) }
        ensures none { IfNone result (self.new.notes.items ≡ []) }
    {
        self.notes.pop_front()
    }
}

impl Machine {
    /// A client at rest leaves a note of what it has seen. Want of memory leaves the state.
    pub fn leave(&mut self, alloc: Global, from: u8, to: u8) -> Result<(), NoMemory>
        requires at { ClientAt Rest from self.old }
        requires to { HasClient self.old.setup to }
        ensures after { OnOk result (whole_of self.new ≡ note_left (whole_of self.old) from to) }
        ensures err { OnErr result (whole_of self.new ≡ whole_of self.old) }
        ensures sound { IsSound (whole_of self.new) }
        ensures setup { self.new.setup ≡ self.old.setup }
    {
        let place = self.place(Actor::Client(from));
        let note = self.seats[place].note(alloc);
        self.seats.reserve(1)?;
        self.posts[to as usize].leave(self.seats.len())?;
        self.seats.push_reserved(note);
        Ok(())
    }

    /// A client at rest hears the oldest note that waits for it.
    pub fn meet(&mut self, client: u8) -> Reply
        requires at { ClientAt Rest client self.old }
        requires room { 0 < room_at self.old (place_of_client (whole_of self.old) client) }
        ensures answers { Answers result self.new (heard_from (whole_of self.old) client (post_at (whole_of self.old) client)) }
        ensures sound { IsSound (whole_of self.new) }
        ensures setup { self.new.setup ≡ self.old.setup }
    {
        let place = self.place(Actor::Client(client));
        match self.posts[client as usize].take() {
            None => Reply::Nothing,
            Some(note) => {
                let seen = self.seats[note].seen();
                self.seats[place].hear(seen);
                self.seats[note].end();
                Reply::Heard { seen }
            }
        }
    }
}
