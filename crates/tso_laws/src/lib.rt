//! What the oracle's single steps and whole calls answer and leave, in words.
#![tactic(auto)]

mod laws;

pub use laws::{
    every_answer_tells, every_call_tells, every_list_of_calls_keeps, every_sound_state_tells,
    every_whole_call_tells,
};
