//! Ids of new peers, from windows that are saved before an id of them is used.
#![tactic(auto)]

mod fault;
mod laws;
#[cfg(test)]
mod tests;
mod window;

pub use fault::IdFault;
pub use laws::{a_window_has_a_thousand_ids, no_id_is_taken_twice};
pub use window::IdWindow;
