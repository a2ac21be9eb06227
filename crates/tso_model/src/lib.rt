//! The oracle as plain data: its words, what each actor knows, its steps, and the fact that they keep.
#![tactic(auto)]

mod entries;
mod laws;
mod plan;
mod step;
#[cfg(test)]
mod tests;
mod view;
mod word;

pub use entries::{Added, Claim, Found, Grant, Limit, Look, Published, Refusal, Start};
pub use laws::{
    each_move_keeps, each_step_keeps, each_step_learns, the_lists, the_numbers, the_plan,
};
pub use plan::{
    AHEAD_MS, is_passing, is_past_clock, is_saving, lengthened, next_of_lead, next_of_tick,
};
pub use step::WordStep;
pub use view::{Setup, View};
pub use word::{cell_in, greater, packed};
