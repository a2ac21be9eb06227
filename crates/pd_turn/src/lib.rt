//! A lock over one word and one slot, whose tickets know which items of the locked value's tale they made.
#![tactic(auto)]

mod rule;
mod seats;
mod tale;
#[cfg(test)]
mod tests;
mod ticket;
mod turn;

pub use rule::View;
pub use tale::{Tale, a_list_is_its_numbers_part_of_the_tale};
pub use ticket::Ticket;
pub use turn::Turn;
