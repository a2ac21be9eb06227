//! Where bytes come from and go to, with a count of faults that never falls.
#![tactic(auto)]

mod laws;
mod memory;
mod standard;
mod sure;
#[cfg(test)]
mod tests;
mod traits;

pub use laws::{a_count_that_rose_is_above, calls_are_counted_from_one, each_failure_is_counted};
pub use memory::{MemSink, MemSource};
pub use standard::{StdSink, StdSource};
pub use sure::{SureSink, SureSource};
pub use traits::{Failed, PutFault, Sink, Source};
