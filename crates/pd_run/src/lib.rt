//! Drivers with their clusters, clients and stores, each on a thread of its own.
#![tactic(auto)]

mod answer;
mod begin;
mod driving;
mod end;
mod laws;
mod line;
mod pipe;
mod runner;
mod shared;
mod storing;
#[cfg(test)]
mod tests;

pub use answer::{DriverAnswer, DriverAnswers, DriverSays, StoreAnswer, StoreAnswers, StoreSays};
pub use laws::what_entries_hear_of_a_bench;
pub use line::{DriverLine, DriverTask, StoreLine, StoreLines, StoreTask, Tasks};
pub use runner::{Left, run};
