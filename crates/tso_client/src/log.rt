// What the post's lock keeps.
ghost use Rattle.std.specs.Prelude.{◌≡◌, ◌≢◌, ℕ, ◌-◌, ◌<◌, ◌≤◌, ◌++◌, ◌∷◌, [], List, length, map, replicate, slice_set, IfOk, IfErr, IfNone, IfSome, OnOk, OnErr};
ghost use Rattle.pd_types.specs.declared.oracle.TheConstants.{MAX_CLIENTS};
ghost use Rattle.tso_board.specs.declared.note.Note.{Note};
ghost use Rattle.tso_board.specs.Notes.{note_board, note_seen};
ghost use Rattle.tso_client.specs.declared.entry.PostWhat.TheVariants.{Told, Heard, Nothing};
ghost use Rattle.tso_client.specs.Logs.{queue_at, what_of};
ghost use Rattle.tso_client.specs.Slips.{entry_of};

use crate::entry::{PostEntry, PostWhat};
use crate::name::BoardName;
use pd_turn::Tale;
use pd_types::{MAX_CLIENTS, NoMemory};
use std::alloc::{AllocFailed, Global};
use std::collections::LinkedList;
use std::marker::{Model, PhantomData};
use tso_board::Note;

type Queues = Vec<LinkedList<Note>>;

/// The journal, and for each client the notes that wait for it. Contracts see the journal.
#[derive(Drop)]
pub struct Log<N: BoardName> {
    journal: Vec<PostEntry>,
    queues: Queues,
    of: PhantomData<N>,
}

impl<N: BoardName> Model for Log<N> {
    ghost use Rattle.std.specs.Prelude.{List};
    ghost use Rattle.tso_client.specs.declared.entry.PostEntry.{PostEntry};
    ghost use Rattle.tso_client.specs.Logs.{IsLog};

    ghost Value = { List PostEntry };

    ghost view = { λ l. l.journal.items };

    ghost invariant = { λ l. IsLog N.board l.journal.items l.queues.items };
}

impl<N: BoardName> Tale for Log<N> {
    ghost use Rattle.tso_client.specs.Logs.{tale_of};

    type Item = PostEntry;

    ghost tale = { tale_of };
}

impl<N: BoardName> Log<N> {
    /// An empty journal, and no note.
    pub fn new(alloc: Global) -> Result<Log<N>, NoMemory>
        ensures ok { IfOk result (λ log. log ≡ []) }
    {
        Ok(Log {
            journal: Vec::new(alloc),
            queues: no_notes(alloc)?,
            of: PhantomData,
        })
    }

    /// Leaves a note for a client. Want of memory hands it back.
    pub fn tell(&mut self, client: u8, line: u32, to: u8, note: Note) -> Result<(), Note>
        requires note { note_board note ≡ N.board }
        requires to { (0 < to) × (to ≤ MAX_CLIENTS) }
        ensures ok { OnOk result (self.new ≡ self.old ++ entry_of client line (Told to (note_seen note)) ∷ []) }
        ensures err { IfErr result (λ back. (back ≡ note) × (self.new ≡ self.old)) }
    {
        if self.journal.reserve(1).is_err() {
            return Err(note);
        }
        let seen = note.seen();
        leave(&mut self.queues, to, note)?;
        self.journal.push_reserved(PostEntry {
            client,
            line,
            what: PostWhat::Told { to, seen },
        });
        Ok(())
    }

    /// Takes the oldest note that waits for the client, or none where none does.
    pub fn hear(&mut self, client: u8, line: u32) -> Result<Option<Note>, NoMemory>
        requires client { (0 < client) × (client ≤ MAX_CLIENTS) }
        ensures board { IfOk result (λ heard. IfSome heard (λ note. note_board note ≡ N.board)) }
        ensures ok { IfOk result (λ heard. self.new ≡ self.old ++ entry_of client line (what_of heard) ∷ []) }
        ensures err { OnErr result (self.new ≡ self.old) }
    {
        self.journal.reserve(1)?;
        let heard = oldest(&mut self.queues, client);
        let what = what_of(&heard);
        self.journal.push_reserved(PostEntry { client, line, what });
        Ok(heard)
    }

    /// The journal.
    pub fn into_journal(self) -> Vec<PostEntry>
        ensures value { result.items ≡ self }
    {
        self.journal
    }
}

// What the entry of a hearing says.
fn what_of(heard: &Option<Note>) -> PostWhat
    ensures value { result ≡ what_of heard.now }
{
    match heard {
        Some(note) => PostWhat::Heard { seen: note.seen() },
        None => PostWhat::Nothing,
    }
}

// A queue for each client.
fn no_notes(alloc: Global) -> Result<Queues, NoMemory>
    ensures value { IfOk result (λ queues. queues.items ≡ replicate MAX_CLIENTS []) }
{
    let mut queues = Vec::new(alloc);
    for _ in 0..MAX_CLIENTS {
        queues.push(LinkedList::new(alloc))?;
    }
    Ok(queues)
}

// Puts a note behind those that wait for the client.
fn leave(queues: &mut Queues, to: u8, note: Note) -> Result<(), Note>
    requires to { (0 < to) × (to ≤ length queues.old.items) }
    ensures ok { OnOk result (queues.new.items ≡ slice_set queues.old.items (to - 1) (queue_at queues.old.items (to - 1) ++ note ∷ [])) }
    ensures err { IfErr result (λ back. (back ≡ note) × (queues.new.items ≡ queues.old.items)) }
{
    match queues[to as usize - 1].push_back(note) {
        Ok(()) => Ok(()),
        Err(AllocFailed { value }) => Err(value),
    }
}

// Takes the first note that waits for the client.
fn oldest(queues: &mut Queues, client: u8) -> Option<Note>
    requires client { (0 < client) × (client ≤ length queues.old.items) }
    ensures some { IfSome result (λ note. (later : List Note) × (queue_at queues.old.items (client - 1) ≡ note ∷ later) × (queues.new.items ≡ slice_set queues.old.items (client - 1) later)) }
    ensures none { IfNone result ((queue_at queues.old.items (client - 1) ≡ []) × (queues.new.items ≡ queues.old.items)) }
{
    queues[client as usize - 1].pop_front()
}
