//! Drivers of the oracle: a lead, a tick and a resignation, each as its steps on the board in a row.
#![tactic(auto)]

mod driver;
mod reply;
mod said;
#[cfg(test)]
mod tests;

pub use driver::Driver;
pub use reply::{LeadReply, TickReply};
pub use said::DriverSaid;
