//! The oracle on atomic words: a board that drivers and clients on threads of their own step on.
#![tactic(auto)]

mod board;
mod laws;
mod ledger;
mod note;
mod numbers;
mod opening;
mod pass;
mod plays;
mod seat;
#[cfg(test)]
mod tests;

pub use board::Board;
pub use laws::{each_draw_stays_in_bound, numbers_in_order_are_all};
pub use ledger::{Ledger, gather};
pub use note::Note;
pub use opening::{Crew, open};
pub use pass::Pass;
pub use seat::DriverSeat;
