//! The timestamp oracle as a machine that makes one atomic step at a time.
#![tactic(auto)]

mod done;
mod machine;
mod notes;
mod opening;
mod oracle;
mod reply;
mod run;
mod seat;
mod step;
#[cfg(test)]
mod tests;
mod turn;

pub(crate) use done::Done;
pub use oracle::Core;
pub use reply::{Due, Kind, Reply};
pub use turn::Turn;
