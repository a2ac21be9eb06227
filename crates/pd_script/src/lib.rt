//! Scripts: their lines, the first line at fault and why, and their limits.
#![tactic(auto)]

mod act;
mod actor;
mod ask;
mod beats;
mod boxed;
mod checks;
mod ctl;
mod event;
mod form;
mod items;
mod laws;
mod limits;
mod line;
mod numbers;
mod place;
mod reading;
mod refusal;
mod request_verb;
mod rules;
mod script;
mod split;
mod stores;
#[cfg(test)]
mod tests;
mod verb;

pub use act::{Act, Line};
pub use actor::asker;
pub use boxed::Boxed;
pub use laws::{
    a_rest_keeps_its_words, each_place_has_its_range, stores_and_the_driver_ask,
    what_is_cut_is_the_whole,
};
pub use reading::read_script;
pub use refusal::{Limited, Reason, ScriptRefusal};
pub use script::{Lines, Mode, Script};
