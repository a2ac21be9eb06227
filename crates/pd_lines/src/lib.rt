//! Whole inputs, words and whole outputs.
#![tactic(auto)]

mod hexadecimal;
mod input;
mod label;
mod output;
mod plain;
#[cfg(test)]
mod tests;
mod words;

pub use hexadecimal::{key, keys_are_spelled_in_hexadecimal};
pub use input::{ReadRefusal, read_all};
pub use label::{
    addresses_and_labels_have_their_bounds, labels, labels_are_read_as_they_are_written,
};
pub use output::{put_all, what_is_written_is_the_front};
pub use plain::address;
pub use words::{cut, digits, number, spells_its_number};
