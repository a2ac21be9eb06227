//! The JSON text of placement rules: reading and printing.
#![tactic(auto)]

mod build;
mod fault;
mod fields;
mod kinds;
mod laws;
mod print;
mod read;
#[cfg(test)]
mod tests;
mod words;

pub use fault::RuleFault;
pub use laws::{
    each_field_has_its_name, each_role_has_its_word, the_bounds, the_tests_stand_in_order,
    what_is_printed_is_read,
};
pub use print::print_rule;
pub use read::read_rule;
