use crate::Reply;
use meta_store::MetaAnswers;
use pd_types::{Actor, Request, Seq, StepMsgs, Texts};
use sched_api::BenchSaid;

/// A request that a cluster served: who asked, at which line, what, what the metadata answered to
/// its calls, what the bench of schedulers said, the names of its schedulers where the request asks
/// for them, the steps that were sent, in their order, and what was replied.
#[derive(Debug, Drop)]
pub struct Entry {
    pub actor: Actor,
    pub line: u32,
    pub request: Request,
    pub answers: MetaAnswers,
    pub bench: BenchSaid,
    pub names: Texts,
    pub sends: StepMsgs,
    pub reply: Reply,
}

/// The requests of a cluster in the order in which they were served.
pub type Journal = Seq<Entry>;
