// The steps of a turn on its table.
ghost use Rattle.std.specs.Prelude.{◌≡◌, ◌++◌, ◌∷◌, [], List, ℕ, Some, None, IfSome, IfNone, map, length, ◌<◌, ◌≤◌, vec_capacity};
ghost use Rattle.pd_turn.specs.Rule.{lists_of, opening_view, view_of, Has};
ghost use Rattle.pd_turn.specs.Turns.{AreApart, new_ticket, turn_value, items_of, made_by, IsMadeBy};
ghost use Rattle.pd_turn.specs.Rule.{AreOf};

use crate::rule::{Giving, Handing, Taking, TurnRule, Uniting, View};
use crate::tale::Tale;
use crate::ticket::Ticket;
use atomic_table::{Seat, Shared};
use pd_types::Ids;
use std::sync::Wait;

pub(crate) type TurnSeat<T, I> = Seat<Option<T>, View<I>>;

pub(crate) type TurnTable<T, I> = Shared<Option<T>, View<I>, Ids, TurnRule<T>>;

// One try to take the value.
fn try_take<T: Tale>(board: &TurnTable<T, T::Item>, seat: &mut TurnSeat<T, T::Item>) -> Option<T>
    requires board { (seat.old.table_id ≡ board.now.table_id) × (board.now.table_id.words ≡ 1) × (board.now.table_id.slots ≡ 1) }
    requires none { seat.old.me.1 ≡ [] }
    ensures board { seat.new.table_id ≡ seat.old.table_id }
    ensures none { IfNone result (seat.new.me ≡ seat.old.me) }
    ensures seat { IfSome result (λ x. seat.new.me ≡ (view_of seat.old.me.0.numbers seat.old.me.0.lists (Some (T.tale x)), (0, None) ∷ [])) }
    ensures lists { IfSome result (λ x. (k : ℕ) (l : List T.Item) → Has seat.old.me.0.lists k l → IsMadeBy seat.old.me.0.numbers (T.tale x) × (l ≡ items_of k (T.tale x))) }
{
    if board.compare_exchange::<Taking<T>>(seat, 0, 0, 1) != 0 {
        return None;
    }
    board.exchange(seat, 0, None)
}

/// Waits for the value, and takes it.
pub(crate) fn take<T: Tale, R: Wait>(
    rt: &R,
    board: &TurnTable<T, T::Item>,
    seat: &mut TurnSeat<T, T::Item>,
) -> T
    requires board { (seat.old.table_id ≡ board.now.table_id) × (board.now.table_id.words ≡ 1) × (board.now.table_id.slots ≡ 1) }
    requires none { seat.old.me.1 ≡ [] }
    ensures board { seat.new.table_id ≡ seat.old.table_id }
    ensures seat { seat.new.me ≡ (view_of seat.old.me.0.numbers seat.old.me.0.lists (Some (T.tale result)), (0, None) ∷ []) }
    ensures lists { (k : ℕ) (l : List T.Item) → Has seat.old.me.0.lists k l → IsMadeBy seat.old.me.0.numbers (T.tale result) × (l ≡ items_of k (T.tale result)) }
{
    for _ in rt.forever() {
        if let Some(value) = try_take(board, seat) {
            return value;
        }
        board.park(rt, 0, 1);
    }
    unreachable!()
}

/// Puts the value back, whose tale has gained items of the seat's one number.
pub(crate) fn give<T: Tale>(
    board: &TurnTable<T, T::Item>,
    seat: &mut TurnSeat<T, T::Item>,
    value: T,
)
    requires board { (seat.old.table_id ≡ board.now.table_id) × (board.now.table_id.words ≡ 1) × (board.now.table_id.slots ≡ 1) }
    requires seat { (k : ℕ) × (l new : List T.Item) × (before : List (ℕ × T.Item)) × (seat.old.me ≡ (view_of seat.old.me.0.numbers ((k, l) ∷ []) (Some before), (0, None) ∷ [])) × (T.tale value ≡ before ++ made_by k new) }
    ensures board { seat.new.table_id ≡ seat.old.table_id }
    ensures seat { (k : ℕ) × (l new : List T.Item) × (before : List (ℕ × T.Item)) × (seat.old.me ≡ (view_of seat.old.me.0.numbers ((k, l) ∷ []) (Some before), (0, None) ∷ [])) × (T.tale value ≡ before ++ made_by k new)
        × (seat.new.me ≡ (view_of seat.old.me.0.numbers ((k, l ++ new) ∷ []) None, [])) }
{
    match board.exchange(seat, 0, Some(value)) {
        None => {}
        Some(_) => unreachable!(),
    }
    board.store::<Giving<T>>(seat, 0, 0);
    board.wake_one(0);
}

/// A ticket for each number, in order.
pub(crate) fn hand_out<T: Tale>(
    board: &TurnTable<T, T::Item>,
    mut seat: TurnSeat<T, T::Item>,
    numbers: &[u64],
    mut tickets: Vec<Ticket<T>>,
) -> Vec<Ticket<T>>
    requires board { (seat.table_id ≡ board.now.table_id) × (board.now.table_id.words ≡ 1) }
    requires seat { seat.me ≡ (opening_view numbers.now, []) }
    requires apart { AreApart numbers.now }
    requires room { (tickets.items ≡ []) × (length numbers.now ≤ vec_capacity tickets) }
    ensures { result.items ≡ map (new_ticket (turn_value board.now.table_id numbers.now)) numbers.now }
{
    for number in numbers {
        let place = board.split_seat::<Handing>(&mut seat);
        tickets.push_reserved(Ticket {
            number: *number,
            seat: place,
        });
    }
    tickets
}

/// The seat takes in the lists of the tickets.
pub(crate) fn unite<T: Tale>(
    board: &TurnTable<T, T::Item>,
    seat: &mut TurnSeat<T, T::Item>,
    mut tickets: Vec<Ticket<T>>,
)
    requires board { (seat.old.table_id ≡ board.now.table_id) × (0 < board.now.table_id.words) }
    requires seat { seat.old.me ≡ (view_of seat.old.me.0.numbers seat.old.me.0.lists None, []) }
    requires tickets { AreOf (turn_value board.now.table_id seat.old.me.0.numbers) tickets.items }
    ensures board { seat.new.table_id ≡ seat.old.table_id }
    ensures seat { seat.new.me ≡ (view_of seat.old.me.0.numbers (lists_of tickets.items ++ seat.old.me.0.lists) None, []) }
{
    while let Some(ticket) = tickets.pop() {
        let Ticket {
            number: _,
            seat: other,
        } = ticket;
        board.join_seat::<Uniting>(seat, other);
    }
}
