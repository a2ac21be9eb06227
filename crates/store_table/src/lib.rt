//! The stores of a cluster: their records, heartbeats and states.
#![tactic(auto)]

mod entry;
mod fault;
mod laws;
mod names;
mod places;
mod table;
#[cfg(test)]
mod tests;

pub use entry::{LIVE_MS, StoreEntry, USABLE_MS};
pub use fault::StoreFault;
pub use laws::{
    a_record_is_kept_whole, an_offline_store_is_live_and_not_usable, known_stores_are_a_map,
    pd_ctl_names_the_states, silence_names_a_store, states_go_one_way,
    the_greatest_heartbeat_counts, the_numbers, the_refusals_of_a_store,
};
pub use names::StateName;
pub use table::{MOST_STORES, Stores};
