// Seats of drivers at metadata that they share, behind a lock.
ghost use Rattle.std.specs.Prelude.{◌≡◌, ◌++◌, ◌∷◌, [], ◌<◌, ◌≤◌, ℕ, All, length, map, reverse, None, Some, IfOk, IfErr, OnOk};
ghost use Rattle.std.specs.Arc.{arc_value};
ghost use Rattle.pd_types.specs.declared.oracle.TheConstants.{MAX_DRIVERS};
ghost use Rattle.pd_turn.specs.Turns.{TurnValue, ticket_value};
ghost use Rattle.meta_store.specs.declared.record.MetaCall.TheVariants as calls;
ghost use Rattle.meta_store.specs.Cells.{AreRising};
ghost use Rattle.meta_store.specs.Doors.{place_of, said_refused};
ghost use Rattle.meta_store.specs.Past.{IsLegal};
ghost use Rattle.meta_store.specs.Seats.{AreOf, AreOpened, AreSeatsOf, IsHeard, IsOpen, gains, lead_adds, seat_by, seat_of, ticket_by, write_adds};

use crate::{Cells, Door, Meta, MetaAnswer, MetaFault, MetaJournal};
use pd_turn::{Tale, Ticket, Turn};
use pd_types::{Ids, NoMemory, Seq};
use std::alloc::Global;
use std::marker::Model;
use std::sync::{Arc, Wait};

/// Behind the lock, the metadata's tale has each answer with the driver that heard it.
impl Tale for Meta {
    ghost use Rattle.std.specs.Prelude.{reverse};
    ghost use Rattle.meta_store.specs.Seats.{tale_of};

    type Item = MetaAnswer;

    ghost tale = { λ m. tale_of (reverse m) };
}

/// A driver's seat at the metadata that it shares with all drivers. Contracts see which metadata it is
/// of, its driver, and the driver's calls with their answers.
#[derive(Drop)]
pub struct MetaSeat {
    turn: Arc<Turn<Meta>, Global>,
    ticket: Ticket<Meta>,
}

impl Model for MetaSeat {
    ghost use Rattle.std.specs.Prelude.{◌≡◌, ◌≤◌, None};
    ghost use Rattle.std.specs.Arc.{arc_value};
    ghost use Rattle.pd_types.specs.declared.oracle.TheConstants.{MAX_DRIVERS};
    ghost use Rattle.meta_store.specs.Seats.{SeatValue, seat_of};

    ghost Value = { SeatValue };

    ghost view = { λ s. seat_of s.ticket.turn s.ticket.number s.ticket.list };

    ghost invariant = { λ s. (s.ticket.turn ≡ arc_value s.turn) × (s.ticket.taken ≡ None) × (s.ticket.number ≤ MAX_DRIVERS) };
}

// A lead under one turn of the lock.
fn lead_by<R: Wait>(
    rt: &R,
    turn: &Turn<Meta>,
    ticket: &mut Ticket<Meta>,
    term: u64,
) -> Result<Cells, MetaFault>
    requires turn { ticket.old.turn ≡ turn.now }
    requires none { ticket.old.taken ≡ None }
    requires number { ticket.old.number ≤ MAX_DRIVERS }
    ensures rising { IfOk result AreRising }
    ensures ticket { ticket.new ≡ ticket_value turn.now ticket.old.number (ticket.old.list ++ lead_adds term result) None }
{
    let driver = ticket.number() as u8;
    let mut meta = turn.take(rt, ticket);
    let answer = meta.lead(driver, term);
    turn.give(ticket, meta);
    answer
}

// A put under one turn of the lock.
fn put_by<R: Wait>(
    rt: &R,
    turn: &Turn<Meta>,
    ticket: &mut Ticket<Meta>,
    term: u64,
    key: &[u8],
    expected: u64,
    bytes: &[u8],
) -> Result<u64, MetaFault>
    requires turn { ticket.old.turn ≡ turn.now }
    requires none { ticket.old.taken ≡ None }
    requires number { ticket.old.number ≤ MAX_DRIVERS }
    ensures ticket { ticket.new ≡ ticket_value turn.now ticket.old.number (ticket.old.list ++ write_adds (calls.Put term key.now expected bytes.now) result) None }
{
    let driver = ticket.number() as u8;
    let mut meta = turn.take(rt, ticket);
    let answer = meta.put_if(driver, term, key, expected, bytes);
    turn.give(ticket, meta);
    answer
}

// A deletion under one turn of the lock.
fn delete_by<R: Wait>(
    rt: &R,
    turn: &Turn<Meta>,
    ticket: &mut Ticket<Meta>,
    term: u64,
    key: &[u8],
    expected: u64,
) -> Result<u64, MetaFault>
    requires turn { ticket.old.turn ≡ turn.now }
    requires none { ticket.old.taken ≡ None }
    requires number { ticket.old.number ≤ MAX_DRIVERS }
    ensures ticket { ticket.new ≡ ticket_value turn.now ticket.old.number (ticket.old.list ++ write_adds (calls.Delete term key.now expected) result) None }
{
    let driver = ticket.number() as u8;
    let mut meta = turn.take(rt, ticket);
    let answer = meta.delete_if(driver, term, key, expected);
    turn.give(ticket, meta);
    answer
}

impl MetaSeat {
    /// Its driver, 0 to 7.
    pub fn driver(&self) -> u8
        ensures value { result ≡ self.now.driver }
    {
        self.ticket.number() as u8
    }

    // The turn of the metadata.
    fn shared(&self) -> Result<Arc<Turn<Meta>, Global>, NoMemory>
        ensures value { IfOk result (λ turn. arc_value turn ≡ self.now.turn) }
    {
        Ok(self.turn.clone()?)
    }

    fn lead<R: Wait>(&mut self, rt: &R, term: u64) -> Result<Cells, MetaFault>
        ensures rising { IfOk result AreRising }
        ensures list { self.new ≡ gains (lead_adds term result) self.old }
    {
        lead_by(rt, &self.turn, &mut self.ticket, term)
    }

    fn put<R: Wait>(
        &mut self,
        rt: &R,
        term: u64,
        key: &[u8],
        expected: u64,
        bytes: &[u8],
    ) -> Result<u64, MetaFault>
        ensures list { self.new ≡ gains (write_adds (calls.Put term key.now expected bytes.now) result) self.old }
    {
        put_by(rt, &self.turn, &mut self.ticket, term, key, expected, bytes)
    }

    fn delete<R: Wait>(
        &mut self,
        rt: &R,
        term: u64,
        key: &[u8],
        expected: u64,
    ) -> Result<u64, MetaFault>
        ensures list { self.new ≡ gains (write_adds (calls.Delete term key.now expected) result) self.old }
    {
        delete_by(rt, &self.turn, &mut self.ticket, term, key, expected)
    }
}

/// A door over a seat, for the seat's driver. Each call waits for its turn at the metadata, and takes its
/// memory before it changes anything. It tells no journal; what it said is the seat's list.
#[derive(Drop)]
pub struct MetaDoor<'a, R: Wait> {
    rt: &'a R,
    seat: &'a mut MetaSeat,
}

impl<'a, R: Wait> MetaDoor<'a, R> {
    /// The door over this seat.
    pub fn new(rt: &'a R, seat: &'a mut MetaSeat) -> MetaDoor<'a, R>
        ensures same_seat { result.seat.ghost_name ≡ seat.entry.ghost_name }
        ensures seat { result.seat.now ≡ seat.old }
    {
        MetaDoor { rt, seat }
    }
}

impl<'a, R: Wait> Door for MetaDoor<'a, R> {
    ghost use Rattle.std.specs.Prelude.{None, Some};
    ghost use Rattle.meta_store.specs.Doors.{place_of};

    ghost said = { λ d. d.seat.now.list };

    ghost told = { λ _. None };

    ghost place = { λ d. place_of (Some d.seat.now.driver) (Some d.seat.now.turn) d.seat.ghost_name };

    fn lead(&mut self, _driver: u8, term: u64) -> Result<Cells, MetaFault> {
        self.seat.lead(self.rt, term)
    }

    fn put_if(
        &mut self,
        _driver: u8,
        term: u64,
        key: &[u8],
        expected: u64,
        bytes: &[u8],
    ) -> Result<u64, MetaFault> {
        self.seat.put(self.rt, term, key, expected, bytes)
    }

    fn delete_if(
        &mut self,
        _driver: u8,
        term: u64,
        key: &[u8],
        expected: u64,
    ) -> Result<u64, MetaFault> {
        self.seat.delete(self.rt, term, key, expected)
    }
}

/// The seats of drivers at one metadata.
#[derive(Drop)]
pub struct MetaSeats {
    pub seats: Vec<MetaSeat>,
    alloc: Global,
}

impl MetaSeats {
    /// New metadata with a seat for each of the drivers 0 to 7, by their numbers.
    pub fn open(alloc: Global) -> Result<MetaSeats, NoMemory>
        ensures opened { IfOk result (λ opened. AreOpened opened.seats.items) }
    {
        let numbers: Ids = Seq::of(vec![in alloc; 0, 1, 2, 3, 4, 5, 6, 7]?);
        let (turn, tickets) = Turn::open(alloc, Meta::new(alloc), &numbers)?;
        let turn = Arc::new(alloc, turn)?;
        let seats = seats_of(alloc, &turn, tickets)?;
        Ok(MetaSeats { seats, alloc })
    }

    /// Ends the metadata of these seats, at least one and all of one metadata, in any order, and hands its
    /// journal out. It waits for its turn. Each seat's list is what its driver heard of the journal. A
    /// driver whose seat isn't handed in would wait for ever at its next call.
    pub fn close<R: Wait>(self, rt: &R) -> Result<MetaJournal, NoMemory>
        requires some { 0 < length self.seats.items }
        requires seats { (turn : TurnValue) × AreSeatsOf turn self.seats.items }
        ensures legal { IfOk result (λ journal. IsLegal (reverse journal)) }
        ensures lists { IfOk result (λ journal. All (IsHeard journal) self.seats.items) }
        ensures drivers { IfOk result (λ journal. (turn : TurnValue) → AreSeatsOf turn self.seats.items → AreOf turn.numbers journal) }
    {
        let MetaSeats { seats, alloc } = self;
        let turn = seats[0].shared()?;
        let tickets = tickets_of(alloc, seats)?;
        let meta = turn.end(rt, tickets);
        Ok(meta.into_journal())
    }
}

// A seat of each ticket.
fn seats_of(
    alloc: Global,
    turn: &Arc<Turn<Meta>, Global>,
    tickets: Vec<Ticket<Meta>>,
) -> Result<Vec<MetaSeat>, NoMemory>
    requires tickets { All (IsOpen (arc_value turn.now)) tickets.items }
    ensures value { IfOk result (λ seats. seats.items ≡ map seat_by tickets.items) }
{
    let mut seats = Vec::new(alloc);
    for ticket in tickets {
        seats.push(MetaSeat {
            turn: turn.clone()?,
            ticket,
        })?;
    }
    Ok(seats)
}

// The ticket of each seat.
fn tickets_of(alloc: Global, seats: Vec<MetaSeat>) -> Result<Vec<Ticket<Meta>>, NoMemory>
    ensures value { IfOk result (λ tickets. tickets.items ≡ map ticket_by seats.items) }
{
    let mut tickets = Vec::new(alloc);
    for seat in seats {
        tickets.push(seat.ticket)?;
    }
    Ok(tickets)
}
