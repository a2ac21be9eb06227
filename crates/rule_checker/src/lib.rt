//! The plan that mends a region.
#![tactic(auto)]

mod arrival;
mod best;
mod candidate;
mod case;
mod class;
mod inspect;
mod laws;
mod measure;
#[cfg(test)]
mod tests;
mod tie;
mod verdict;

pub use class::{Class, Ranked};
pub use inspect::check;
pub use laws::{
    a_plan_does_what_its_class_says, checked_beat, every_peer_and_store_is_looked_at,
    isolation_counts_the_other_stores, one_verdict, plans_come_to_an_end,
    the_first_rule_gives_the_labels, the_order_of_classes, who_goes_first, who_is_a_candidate,
};
pub use verdict::Verdict;
