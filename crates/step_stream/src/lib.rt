//! A bounded stream of steps from a driver's cluster to one store. What is popped is a prefix of what
//! was pushed, each step once.
#![tactic(auto)]

mod laws;
mod rule;
mod stream;
#[cfg(test)]
mod tests;

pub use laws::who_meets_a_note_knows_no_less;
pub use rule::View;
pub use stream::{Giver, Note, PLACES, Stream, Taker};
