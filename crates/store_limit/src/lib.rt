//! Store limits: how many peers a store may gain and lose in a minute.
#![tactic(auto)]

mod bucket;
mod laws;
mod limits;
#[cfg(test)]
mod tests;

pub use bucket::{MAX_RATE, PEER_UNITS, START_RATE};
pub use laws::{
    a_new_rate_gives_nothing, a_peer_is_sixty_thousand_units, a_store_begins_with_fifteen_peers,
    an_earlier_moment_counts_as_the_last, one_number_is_the_least_over_all_charges, the_numbers,
    the_two_kinds_are_apart,
};
pub use limits::{LimitKind, Limited, Limits};
