//! Records of the placement driver: timestamps, regions, stores, placement rules, steps, and lists of them; and the gate that a run asks.
#![tactic(auto)]

mod beat;
mod gate;
mod laws;
mod lists;
mod memory;
mod oracle;
mod proposal;
mod region;
mod request;
mod rule;
mod stamp;
mod step;
mod store;
#[cfg(test)]
mod tests;
mod text;

pub use beat::{BeatFault, MAX_KEY, MAX_PEERS, check_beat};
pub use gate::{Gate, OpenGate};
pub use laws::{each_role_votes_or_learns_or_neither, keys_go_by_their_bytes};
pub use lists::{
    Batches, Bytes, Constraints, Downs, Duplicate, Ids, Keys, Labels, Peers, Rules, Seq, StepMsgs,
    Steps, Texts, Windows,
};
pub use memory::NoMemory;
pub use oracle::{
    Actor, Batch, CLOCK_END, CellWord, LAST_TERM, MAX_CLIENTS, MAX_DRIVERS, Seen, Window,
    batches_apart_share_no_timestamp, batches_have_their_count,
};
pub use proposal::Proposal;
pub use region::{DownPeer, Epoch, Peer, Region, RegionBeat, Role};
pub use request::Request;
pub use rule::{Constraint, MAX_LOCATIONS, MAX_RULES, Op, Rule, RuleRole};
pub use stamp::{LOGICAL, MAX_COUNT, MOMENT_END, pack, packs_and_unpacks, unpack};
pub use step::{Step, StepMsg};
pub use store::{Label, StoreRec, StoreState};
pub use text::Text;
