//! What a driver and a client of the oracle do on a line, and workers that do their work at once.
#![tactic(auto)]

mod caller;
mod driving;
mod end;
mod halve;
mod laws;
mod line;
mod shared;
mod start;
#[cfg(test)]
mod tests;

pub use caller::ClientWork;
pub use driving::answer;
pub use end::{ClientAnswers, ClientParts, client_parts};
pub use halve::{Work, work_all, work_both};
pub use laws::each_line_is_its_actors;
pub use line::{ClientAsk, ClientLine, DriverAsk};
pub use shared::{Shared, pass};
pub use start::client_works;
