//! Operators: their life, their dispatch at a region's heartbeat, and what adding one takes.
#![tactic(auto)]

mod adding;
mod busy;
mod charging;
mod laws;
mod operator;
mod table;
#[cfg(test)]
mod tests;
mod turn;

pub use adding::{AddFault, MOST_OPERATORS};
pub use laws::{
    an_id_changes_no_refusal, at_most_1024_regions_have_an_operator,
    new_and_leaving_peers_are_charged, passed_steps_raise_conf_ver, the_first_refusal_is_named,
    the_first_send_is_the_start, the_numbers,
};
pub use operator::{EXPIRED_MS, NewOp, OpState, Operator, TIMEOUT_MS};
pub use table::{Absent, Operators};
pub use turn::Dispatch;
