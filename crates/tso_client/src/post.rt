ghost use Rattle.std.specs.Prelude.{◌≡◌, ◌++◌, ◌∷◌, [], ◌<◌, ◌≤◌, ℕ, All, length, map, None, IfErr, IfOk, IfSome, OnErr, OnOk};
ghost use Rattle.pd_types.specs.declared.oracle.TheConstants.{MAX_CLIENTS};
ghost use Rattle.pd_turn.specs.Turns.{AreApart, IsFree, new_ticket, ticket_value};
ghost use Rattle.tso_model.specs.Moves.{numbers_from};
ghost use Rattle.tso_board.specs.Boards.{board_id};
ghost use Rattle.tso_board.specs.Notes.{note_board, note_seen};
ghost use Rattle.tso_client.specs.declared.entry.PostWhat.TheVariants.{Told};
ghost use Rattle.tso_client.specs.Logs.{what_of};
ghost use Rattle.tso_client.specs.Posts.{IsPost};
ghost use Rattle.tso_client.specs.Slips.{IsInJournal, IsOpen, clients_of, entry_of, gains, new_slip, slip_by, ticket_by};

use crate::entry::PostJournal;
use crate::log::Log;
use crate::name::BoardName;
use pd_turn::{Ticket, Turn};
use pd_types::{Ids, NoMemory, Seq};
use std::alloc::Global;
use std::marker::Model;
use std::sync::Wait;
use tso_board::{Board, Note};

/// The notes that clients of one board leave for each other, and the journal of what they told and heard,
/// behind a lock. Contracts see which post it is, and its clients' numbers.
#[derive(Drop)]
pub struct Post<N: BoardName> {
    turn: Turn<Log<N>>,
    alloc: Global,
}

impl<N: BoardName> Model for Post<N> {
    ghost use Rattle.std.specs.Prelude.{◌≡◌, ◌≤◌, length};
    ghost use Rattle.pd_types.specs.declared.oracle.TheConstants.{MAX_CLIENTS};
    ghost use Rattle.pd_turn.specs.Turns.{TurnValue};

    ghost Value = { TurnValue };

    ghost view = { λ p. p.turn };

    ghost invariant = { λ p. length p.turn.numbers ≤ MAX_CLIENTS };
}

/// The slip of a client, by which it tells and hears. Contracts see its post, its client's number, and the
/// client's own entries in the journal.
#[derive(Drop)]
pub struct Slip<N: BoardName> {
    ticket: Ticket<Log<N>>,
}

impl<N: BoardName> Model for Slip<N> {
    ghost use Rattle.std.specs.Prelude.{◌≡◌, ◌<◌, ◌≤◌, None};
    ghost use Rattle.pd_types.specs.declared.oracle.TheConstants.{MAX_CLIENTS};
    ghost use Rattle.tso_client.specs.Slips.{SlipValue, slip_of};

    ghost Value = { SlipValue };

    ghost view = { λ s. slip_of s.ticket.turn s.ticket.number s.ticket.list };

    ghost invariant = { λ s. (s.ticket.taken ≡ None) × (0 < s.ticket.number) × (s.ticket.number ≤ MAX_CLIENTS) };
}

/// A slip for each client of a post.
pub type Slips<N> = Vec<Slip<N>>;

impl<N: BoardName> Post<N> {
    /// Leaves a note for the client `to`. It waits for its turn. Want of memory alone hands the note back,
    /// and changes nothing.
    pub fn tell<R: Wait>(
        &self,
        rt: &R,
        slip: &mut Slip<N>,
        to: u8,
        line: u32,
        note: Note,
    ) -> Result<(), Note>
        requires slip { slip.old.post ≡ self.now }
        requires to { (0 < to) × (to ≤ clients_of self.now) }
        requires note { note_board note ≡ N.board }
        ensures ok { OnOk result (slip.new ≡ gains line (Told to (note_seen note)) slip.old) }
        ensures err { IfErr result (λ back. (back ≡ note) × (slip.new ≡ slip.old)) }
    {
        tell_by(rt, &self.turn, &mut slip.ticket, to, line, note)
    }

    /// Hears the oldest note that waits for the slip's client at that point of the journal, or none where
    /// none does. It waits for its turn. Want of memory changes nothing.
    pub fn hear<R: Wait>(
        &self,
        rt: &R,
        slip: &mut Slip<N>,
        line: u32,
    ) -> Result<Option<Note>, NoMemory>
        requires slip { slip.old.post ≡ self.now }
        ensures board { IfOk result (λ heard. IfSome heard (λ note. note_board note ≡ N.board)) }
        ensures ok { IfOk result (λ heard. slip.new ≡ gains line (what_of heard) slip.old) }
        ensures err { OnErr result (slip.new ≡ slip.old) }
    {
        hear_by(rt, &self.turn, &mut slip.ticket, line)
    }
}

// Tells by a ticket of the turn.
fn tell_by<N: BoardName, R: Wait>(
    rt: &R,
    turn: &Turn<Log<N>>,
    ticket: &mut Ticket<Log<N>>,
    to: u8,
    line: u32,
    note: Note,
) -> Result<(), Note>
    requires turn { ticket.old.turn ≡ turn.now }
    requires none { ticket.old.taken ≡ None }
    requires number { ticket.old.number ≤ MAX_CLIENTS }
    requires to { (0 < to) × (to ≤ MAX_CLIENTS) }
    requires note { note_board note ≡ N.board }
    ensures ok { OnOk result (ticket.new ≡ ticket_value ticket.old.turn ticket.old.number (ticket.old.list ++ entry_of ticket.old.number line (Told to (note_seen note)) ∷ []) None) }
    ensures err { IfErr result (λ back. (back ≡ note) × (ticket.new ≡ ticket.old)) }
{
    let client = ticket.number() as u8;
    let mut log = turn.take(rt, ticket);
    match log.tell(client, line, to, note) {
        Ok(()) => {
            turn.give(ticket, log);
            Ok(())
        }
        Err(note) => {
            turn.give_back(ticket, log);
            Err(note)
        }
    }
}

// Hears by a ticket of the turn.
fn hear_by<N: BoardName, R: Wait>(
    rt: &R,
    turn: &Turn<Log<N>>,
    ticket: &mut Ticket<Log<N>>,
    line: u32,
) -> Result<Option<Note>, NoMemory>
    requires turn { ticket.old.turn ≡ turn.now }
    requires none { ticket.old.taken ≡ None }
    requires number { (0 < ticket.old.number) × (ticket.old.number ≤ MAX_CLIENTS) }
    ensures board { IfOk result (λ heard. IfSome heard (λ note. note_board note ≡ N.board)) }
    ensures ok { IfOk result (λ heard. ticket.new ≡ ticket_value ticket.old.turn ticket.old.number (ticket.old.list ++ entry_of ticket.old.number line (what_of heard) ∷ []) None) }
    ensures err { OnErr result (ticket.new ≡ ticket.old) }
{
    let client = ticket.number() as u8;
    let mut log = turn.take(rt, ticket);
    match log.hear(client, line) {
        Ok(heard) => {
            turn.give(ticket, log);
            Ok(heard)
        }
        Err(fault) => {
            turn.give_back(ticket, log);
            Err(fault)
        }
    }
}

impl<N: BoardName> Post<N> {
    /// Opens the post of a board for 1 to 64 clients: with a slip for each, by their numbers from 1 on, and
    /// an empty journal.
    pub fn open(alloc: Global, _board: &Board, clients: u8) -> Result<(Post<N>, Slips<N>), NoMemory>
        requires board { board_id _board.now ≡ N.board }
        requires clients { (0 < clients) × (clients ≤ MAX_CLIENTS) }
        ensures clients { IfOk result (λ r. clients_of r.0 ≡ clients) }
        ensures slips { IfOk result (λ r. r.1.items ≡ map (new_slip r.0) (numbers_from 1 clients)) }
        ensures post { IfOk result (λ r. All (λ s. s.post ≡ r.0) r.1.items) }
    {
        let numbers = numbers(alloc, clients)?;
        let (turn, tickets) = Turn::open(alloc, Log::new(alloc)?, &numbers)?;
        let slips = slips_of(alloc, tickets)?;
        Ok((Post { turn, alloc }, slips))
    }

    /// Ends the post and hands its journal out: of slips of this post, at least one, in any order. Each
    /// slip's list is its client's entries in the journal. It waits for its turn.
    pub fn close<R: Wait>(self, rt: &R, slips: Slips<N>) -> Result<PostJournal, NoMemory>
        requires some { 0 < length slips.items }
        requires slips { All (λ s. s.post ≡ self) slips.items }
        ensures post { IfOk result IsPost }
        ensures lists { IfOk result (λ journal. All (IsInJournal journal) slips.items) }
    {
        let Post { turn, alloc } = self;
        let tickets = tickets_of(alloc, slips)?;
        let log = turn.end(rt, tickets);
        Ok(Seq::of(log.into_journal()))
    }
}

// The numbers from 1 on.
fn numbers(alloc: Global, clients: u8) -> Result<Ids, NoMemory>
    ensures value { IfOk result (λ numbers. numbers ≡ numbers_from 1 clients) }
{
    let mut numbers = Seq::new(alloc);
    for index in 0..clients {
        numbers.push(index as u64 + 1)?;
    }
    Ok(numbers)
}

// A slip of each ticket.
fn slips_of<N: BoardName>(alloc: Global, tickets: Vec<Ticket<Log<N>>>) -> Result<Slips<N>, NoMemory>
    requires tickets { All IsOpen tickets.items }
    ensures value { IfOk result (λ slips. slips.items ≡ map slip_by tickets.items) }
{
    let mut slips = Vec::new(alloc);
    for ticket in tickets {
        slips.push(Slip { ticket })?;
    }
    Ok(slips)
}

// The ticket of each slip.
fn tickets_of<N: BoardName>(alloc: Global, slips: Slips<N>) -> Result<Vec<Ticket<Log<N>>>, NoMemory>
    ensures value { IfOk result (λ tickets. tickets.items ≡ map ticket_by slips.items) }
{
    let mut tickets = Vec::new(alloc);
    for slip in slips {
        tickets.push(slip.ticket)?;
    }
    Ok(tickets)
}
