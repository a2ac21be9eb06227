// A driver's calls with their answers.
use crate::reply::{LeadReply, TickReply};

/// What a driver was asked and answered: a lead or a tick at a moment, or a resignation, which is
/// true where a term was held.
#[derive(Clone, Copy, Debug, Drop, PartialEq, Eq)]
pub enum DriverSaid {
    Led { now: u64, reply: LeadReply },
    Ticked { now: u64, reply: TickReply },
    Resigned { held: bool },
}
