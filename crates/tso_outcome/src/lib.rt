//! What a run of drivers and clients on threads leaves, and why it is lawful whatever the schedule was.
#![tactic(auto)]

mod laws;
mod said;

pub use laws::{each_lawful_run_is_safe, each_run_is_lawful};
pub use said::{ClientAnswer, ClientSaid, DriverAnswer};
