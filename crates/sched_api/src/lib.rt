//! Schedulers, which may be anyone's, and a bench that asks them in turn.
#![tactic(auto)]

mod bench;
mod laws;
mod scheduler;
#[cfg(test)]
mod tests;

pub use bench::{Bench, Seated};
pub use laws::{
    a_removal_leaves_who_was_asked_last, each_ask_is_counted, the_first_of_a_name_goes,
    the_one_asked_last_is_told, turns_go_round_the_list,
};
pub use scheduler::{Absent, BenchSaid, Fate, Said, Scheduler};
