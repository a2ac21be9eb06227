//! Operator steps: what a step leaves, when it is done, whether it may be sent, and the steps of a wish.
#![tactic(auto)]

mod count;
mod laws;
mod peers;
mod regions;
mod safety;
#[cfg(test)]
mod tests;
mod wishes;

pub use laws::{
    a_live_voter_is_on_a_live_store, a_pending_learner_is_not_finished, a_safe_step_keeps_a_leader,
    a_step_changes_its_peer_alone, a_step_that_is_carried_out_is_finished,
    a_target_is_live_and_up_to_date, a_transfer_changes_no_peer, a_wish_is_carried_out,
    the_first_fault_is_named, two_majorities_meet,
};
pub use peers::{has_id, has_store, is_learner, is_target};
pub use regions::{after, conf_change, finished};
pub use safety::{Held, Why, gate};
pub use wishes::{BuildFault, Wish, build, may_lead, next_leader, with_id};
