//! The two schedulers that balance regions and leaders among the stores.
#![tactic(auto)]

mod balance;
mod case;
mod laws;
mod moves;
mod region;
mod search;
#[cfg(test)]
mod tests;

pub use balance::{BalanceLeader, BalanceRegion};
pub use laws::{
    a_move_evens_the_counts, a_move_keeps_the_rest, a_region_goes_by_the_rules_at_its_start,
    a_wide_difference_is_evened, what_bars_a_move, what_is_proposed, who_goes_first,
};
pub use moves::{Kind, Move};
