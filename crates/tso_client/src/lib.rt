//! Clients of the oracle: a whole draw, the split of a batch, and the post by which clients leave notes
//! for each other.
#![tactic(auto)]

mod batch;
mod draw;
mod entry;
mod laws;
mod log;
mod name;
mod post;
#[cfg(test)]
mod tests;

pub use batch::split;
pub use draw::{DrawFault, take};
pub use entry::{PostEntry, PostJournal, PostWhat};
pub use laws::notes_are_heard_in_their_order;
pub use name::BoardName;
pub use post::{Post, Slip, Slips};
