//! The cluster of a driver: what it knows of stores, rules and regions, and the journal of its requests.
#![tactic(auto)]

mod adding;
mod burial;
mod check_laws;
mod checking;
mod cluster;
mod ctl;
mod ctl_changes;
mod ctl_reports;
mod entry;
mod handed;
mod heard;
mod laws;
mod part;
mod patrol;
mod placement;
mod planning;
mod reply;
mod rule_laws;
mod rules;
mod scheduling;
mod sent;
mod serve;
mod stores;
mod turn_laws;
mod wishing;
mod write;

pub use adding::Adding;
pub use check_laws::{
    each_sent_step_is_safe, finished_steps_are_passed_over, how_a_new_peer_gets_its_id,
    operators_live_by_the_table, what_a_patrol_leaves,
};
pub use checking::CHECK_PRIORITY;
pub use cluster::Cluster;
pub use ctl_changes::ADMIN_PRIORITY;
pub use entry::{Entry, Journal};
pub use heard::Heard;
pub use laws::{
    a_heartbeat_is_answered_as_taken, a_hello_is_answered_as_it_was_written,
    a_request_counts_in_its_term, a_store_is_heard_by_hello_and_alive, a_term_begins_anew,
    a_term_tells_its_stores_and_rules, each_reply_is_the_first_that_applies,
    the_calls_of_each_request, the_clock_is_the_greatest_moment, the_regions_are_those_that_stand,
    the_revisions_are_those_heard, the_rules_are_those_that_were_handed_out,
    the_stores_are_those_that_said_hello, the_stores_are_those_that_were_handed_out, who_is_heard,
};
pub use part::Part;
pub use reply::Reply;
pub use rule_laws::{
    how_a_removal_is_answered, how_a_rule_is_answered, the_calls_of_a_removal, the_calls_of_a_rule,
    the_numbers_of_a_rules_faults, what_a_rule_leaves_alone, what_is_left_of_the_rules,
    what_is_stored_of_a_rule,
};
pub use scheduling::SCHEDULER_PRIORITY;
pub use turn_laws::{what_is_told_of_a_proposal, who_spoke_has_heard};
