ghost use Rattle.std.specs.Prelude.{◌≡◌, ◌<◌, ◌++◌, All, List, [], length, map, Some, None, IfOk, ℕ};
ghost use Rattle.pd_turn.specs.Turns.{AreApart, IsFree, IsToldBy, IsMadeBy, Adds, new_ticket, ticket_value, items_of};

use crate::rule::{TurnRule, View};
use crate::seats;
use crate::tale::Tale;
use crate::ticket::Ticket;
use atomic_table::{Refused, Table};
use pd_types::{Ids, NoMemory};
use std::alloc::Global;
use std::marker::Model;
use std::sync::Wait;

/// A lock over one word and one slot. Contracts see which it is, and the numbers that it was opened for.
#[derive(Drop)]
pub struct Turn<T: Tale + Drop> {
    table: Table<Option<T>, View<T::Item>, Ids, TurnRule<T>, Global>,
}

impl<T: Tale + Drop> Model for Turn<T> {
    ghost use Rattle.std.specs.Prelude.{◌≡◌, ◌<◌, length};
    ghost use Rattle.pd_turn.specs.Turns.{TurnValue, turn_value};

    ghost Value = { TurnValue };

    ghost view = { λ t. turn_value t.table.shared.table_id t.table.shared.key };

    ghost invariant = { λ t. (t.table.shared.table_id.words ≡ 1) × (t.table.shared.table_id.slots ≡ 1) × (0 < length t.table.shared.key) };
}

impl<T: Tale + Drop> Turn<T> {
    /// Waits for the value, and takes it. Its tale is now the ticket's taken one, and the ticket's list is
    /// the items of its number in it. One atomic compare-exchange of the word takes it.
    pub fn take<R: Wait>(&self, rt: &R, ticket: &mut Ticket<T>) -> T
        requires turn { ticket.old.turn ≡ self.now }
        requires none { ticket.old.taken ≡ None }
        ensures ticket { ticket.new ≡ ticket_value self.now ticket.old.number ticket.old.list (Some (T.tale result)) }
        ensures list { ticket.old.list ≡ items_of ticket.old.number (T.tale result) }
    {
        seats::take(rt, &self.table.shared, &mut ticket.seat)
    }

    /// Puts the value back, whose tale is the taken one and then items of the ticket's own number, which
    /// the ticket's list gains. One store of the word gives it, and one who waits is woken.
    pub fn give(&self, ticket: &mut Ticket<T>, value: T)
        requires turn { ticket.old.turn ≡ self.now }
        requires adds { (new : List T.Item) × Adds ticket.old.number ticket.old.taken new (T.tale value) }
        ensures ticket { (new : List T.Item) → Adds ticket.old.number ticket.old.taken new (T.tale value) → ticket.new ≡ ticket_value self.now ticket.old.number (ticket.old.list ++ new) None }
    {
        seats::give(&self.table.shared, &mut ticket.seat, value);
    }

    /// Puts the value back with the tale that was taken; the ticket's list stays.
    pub fn give_back(&self, ticket: &mut Ticket<T>, value: T)
        requires turn { ticket.old.turn ≡ self.now }
        requires same { ticket.old.taken ≡ Some (T.tale value) }
        ensures ticket { ticket.new ≡ ticket_value self.now ticket.old.number ticket.old.list None }
    {
        self.give(ticket, value);
    }
}

impl<T: Tale + Drop> Turn<T> {
    /// Waits for the value, and takes it for good: of all tickets of the turn, with nothing taken, in any
    /// order. Each ticket's list is the items of its number in the value's tale, in order. A ticket that
    /// isn't handed in would wait for ever at its next `take`.
    pub fn end<R: Wait>(&self, rt: &R, mut tickets: Vec<Ticket<T>>) -> T
        requires some { 0 < length tickets.items }
        requires turn { All (IsFree self.now) tickets.items }
        ensures lists { All (IsToldBy (T.tale result)) tickets.items }
        ensures made { IsMadeBy self.now.numbers (T.tale result) }
    {
        let board = &self.table.shared;
        let Some(last) = tickets.pop() else {
            unreachable!()
        };
        let Ticket {
            number: _,
            mut seat,
        } = last;
        seats::unite(board, &mut seat, tickets);
        seats::take(rt, board, &mut seat)
    }

    /// A turn with this value, whose tale is empty, and a ticket for each number, in order; there is at
    /// least one number, and none stands twice. After want of memory the value is dropped.
    pub fn open(
        alloc: Global,
        value: T,
        numbers: &Ids,
    ) -> Result<(Turn<T>, Vec<Ticket<T>>), NoMemory>
        requires some { 0 < length numbers.now }
        requires apart { AreApart numbers.now }
        requires empty { T.tale value ≡ [] }
        ensures ok { IfOk result (λ r. (r.0.numbers ≡ numbers.now) × (r.1.items ≡ map (new_ticket r.0) numbers.now)) }
    {
        let tickets = Vec::with_capacity(alloc, numbers.len())?;
        let mut slots = Vec::with_capacity(alloc, 1)?;
        slots.push_reserved(Some(value));
        match Table::new(alloc, &[0], slots, numbers) {
            Ok((table, seat)) => {
                let tickets = seats::hand_out(&table.shared, seat, numbers.as_slice(), tickets);
                Ok((Turn { table }, tickets))
            }
            Err(Refused { slots: _ }) => Err(NoMemory),
        }
    }
}
