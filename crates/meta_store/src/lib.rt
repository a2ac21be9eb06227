//! The metadata: records under keys, whose writes are guarded by a term and by a revision.
#![tactic(auto)]

mod ask;
mod door;
mod fault;
mod known;
mod laws;
mod meta;
mod record;
mod records;
#[cfg(test)]
mod seat_tests;
mod seats;
mod store;
mod tables;
#[cfg(test)]
mod tests;
mod text;

pub use ask::{ask_delete, ask_lead, ask_put};
pub use door::Door;
pub use fault::MetaFault;
pub use known::{Known, the_last_answer_tells_a_revision, who_hears_all_knows_each_revision};
pub use laws::{
    a_call_is_refused_by_what_stands_before_it, a_call_with_room_is_accepted,
    a_driver_hears_of_its_own_calls, a_prefix_stands_first, accepted_writes_are_counted,
    all_records_are_handed_out, each_call_is_said_with_its_answer, each_refused_call_is_an_entry,
    one_verdict_accepts, the_fence_is_the_greatest_accepted_term, the_first_fault_is_told,
    the_last_write_of_a_key_counts, the_limits,
};
pub use meta::Meta;
pub use record::{
    Cell, Cells, MetaAnswer, MetaAnswers, MetaCall, MetaEntry, MetaJournal, MetaVerdict,
};
pub use seats::{MetaDoor, MetaSeat, MetaSeats};
pub use store::{read_store_text, store_key, store_text, stores_are_read_as_they_are_written};
pub use tables::{MOST_ENTRIES, MOST_KEYS};
pub use text::{id_text, ids_are_read_as_they_are_written, read_id_text};
