//! Whether a region's peers fit the placement rules, with a certificate where they don't.
#![tactic(auto)]

mod answer;
mod assign;
mod certificate;
mod ids;
mod isolation;
mod laws;
mod region;
mod room;
mod search;
mod suiting;
mod table;
#[cfg(test)]
mod tests;

pub use answer::{Certificate, Fit, Places};
pub use certificate::{check_certificate, total};
pub use ids::are_apart;
pub use isolation::{isolation_score, score_among};
pub use laws::{
    a_follower_is_a_voter_that_does_not_lead, a_peer_suits_by_its_store_and_its_role,
    a_rule_with_room_takes_one_peer_more, certificate_refutes, each_constraint_is_asked,
    notin_is_the_opposite_of_in, one_misfit_number, the_first_label_weighs_most, totals_come_first,
};
pub use region::{fit, misfit_number};
pub use room::rooms;
pub use suiting::{labels_of, labels_of_all, satisfies_all, suits_on};
