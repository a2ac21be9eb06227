// A ticket of a turn.
ghost use Rattle.std.specs.Prelude.{◌≡◌};

use crate::rule::View;
use crate::tale::Tale;
use atomic_table::Seat;
use std::marker::Model;

/// What one caller of a turn knows. Contracts see its turn, its number, its own list, and the taken tale or none.
#[derive(Drop)]
pub struct Ticket<T: Tale> {
    pub(crate) number: u64,
    pub(crate) seat: Seat<Option<T>, View<T::Item>>,
}

impl<T: Tale> Model for Ticket<T> {
    ghost use Rattle.pd_turn.specs.Rule.{list_of, IsTicket};
    ghost use Rattle.pd_turn.specs.Turns.{TicketValue, ticket_value, turn_value};

    ghost Value = { TicketValue T.Item };

    ghost view = { λ t. ticket_value (turn_value t.seat.table_id t.seat.me.0.numbers) t.number (list_of t.seat.me.0.lists) t.seat.me.0.taken };

    ghost invariant = { λ t. IsTicket t.number t.seat.me };
}

impl<T: Tale> Ticket<T> {
    /// Its number.
    pub fn number(&self) -> u64
        ensures { result ≡ self.now.number }
    {
        self.number
    }
}
