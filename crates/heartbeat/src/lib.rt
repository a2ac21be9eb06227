//! Region heartbeats: which are taken in, and how many regions and leaders each store then has.
#![tactic(auto)]

mod counts;
mod intake;
mod laws;
mod standing;
#[cfg(test)]
mod tests;

pub use intake::Intake;
pub use laws::{
    a_region_counts_by_its_peers, regions_and_leaders_are_counted, the_first_reason_is_answered,
};
pub use standing::Standing;
