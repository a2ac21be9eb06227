//! The regions that stand: what region heartbeats told of the key space, in key order.
#![tactic(auto)]

mod cover;
mod exchange;
mod fault;
mod held;
mod laws;
mod places;
mod range;
mod stale;
mod table;
#[cfg(test)]
mod tests;

pub use fault::RegionFault;
pub use laws::{
    a_range_has_its_start_and_not_its_end, an_older_heartbeat_is_stale,
    at_most_65536_regions_stand, overlapping_ranges_share_a_key, what_stands_is_the_table,
};
pub use table::{Displaced, MOST_REGIONS, Regions, Removed};
