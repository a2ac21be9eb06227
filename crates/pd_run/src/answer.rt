// What drivers and stores answer on their lines.
ghost use Rattle.std.specs.Prelude.{◌≡◌};
ghost use Rattle.pd_run.specs.Answers.{asked_besides, gave_up};

use pd_state::Reply;
use pd_types::{Request, StepMsg};
use tso_driver::{DriverSaid, LeadReply, TickReply};

/// What a driver answers on a line.
#[derive(Debug, Drop, PartialEq)]
pub enum DriverSays {
    /// What the oracle answered.
    Oracle(DriverSaid),
    /// What its cluster replied.
    Cluster(Reply),
    /// What its cluster replied to a command by which the term was given up, and whether the driver held
    /// one at the oracle.
    Resigned { reply: Reply, held: bool },
}

/// A driver's answer with the number of its line.
#[derive(Debug, Drop, PartialEq)]
pub struct DriverAnswer {
    pub line: u32,
    pub says: DriverSays,
}

/// What a store answers on a line: what a cluster replied to it, or the step that it took, if one waited.
#[derive(Debug, Drop, PartialEq)]
pub enum StoreSays {
    Cluster(Reply),
    Popped(Option<StepMsg>),
}

/// A store's answer with the number of its line and the driver whose cluster was asked.
#[derive(Debug, Drop, PartialEq)]
pub struct StoreAnswer {
    pub line: u32,
    pub driver: u8,
    pub says: StoreSays,
}

/// A driver's answers, in the order of its lines.
#[derive(Debug, Drop, PartialEq)]
pub struct DriverAnswers {
    pub number: u8,
    pub answers: Vec<DriverAnswer>,
}

/// A store's answers, in the order of its lines.
#[derive(Debug, Drop, PartialEq)]
pub struct StoreAnswers {
    pub store: u64,
    pub answers: Vec<StoreAnswer>,
}

/// What the driver's cluster is asked besides, once the driver answered this: Term where it won a term,
/// and Retire where it lost its term or gave it up.
pub fn asked_besides(said: DriverSaid) -> Option<Request>
    ensures value { result ≡ asked_besides said }
{
    match said {
        DriverSaid::Led {
            now,
            reply: LeadReply::Won { term, .. },
        } => Some(Request::Term { term, moment: now }),
        DriverSaid::Led {
            reply: LeadReply::Lost { .. },
            ..
        } => Some(Request::Retire),
        DriverSaid::Ticked {
            reply: TickReply::Lost { .. },
            ..
        } => Some(Request::Retire),
        DriverSaid::Resigned { held: true } => Some(Request::Retire),
        _ => None,
    }
}

/// Whether the reply says that a command gave the term up.
pub fn gave_up(reply: &Reply) -> bool
    ensures value { result ≡ gave_up reply.now }
{
    match reply {
        Reply::Report { json } => json.as_slice() == b"{\"done\":\"Resigned\"}".as_slice(),
        _ => false,
    }
}
