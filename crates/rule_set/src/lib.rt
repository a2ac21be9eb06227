//! Placement rules: their order, those in force at a key, and the borders inside a region.
#![tactic(auto)]

mod border;
mod conditions;
mod fault;
mod laws;
mod order;
mod places;
mod set;
#[cfg(test)]
mod tests;

pub use conditions::{are_named_apart, have_few_locations};
pub use fault::{RemoveFault, SetFault};
pub use laws::{
    a_border_lies_inside, a_range_ends_before_its_end, an_override_hides_its_group,
    group_then_index_then_id, rules_go_by_their_names, the_numbers, the_refusals_of_a_rule,
    three_voters_anywhere,
};
pub use set::RuleSet;
