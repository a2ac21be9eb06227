//! pd-ctl: the commands and the reports over a cluster's tables.
#![tactic(auto)]

mod command;
mod fault;
mod laws;
mod members;
mod parts;
mod places;
mod read;
#[cfg(test)]
mod report_tests;
mod reports;
#[cfg(test)]
mod tests;
mod trees;
mod verb;
mod words;

pub use command::Command;
pub use fault::CtlFault;
pub use laws::{
    a_rate_is_at_most_a_million, each_fault_has_its_cause, reports_are_written_so,
    the_most_fixed_words_decide, what_has_not_ended_is_shown, what_is_printed_is_read,
    what_only_reads_has_a_report,
};
pub use parts::Parts;
pub use read::read_command;
pub use reports::report;
