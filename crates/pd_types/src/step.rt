ghost use Rattle.std.specs.Prelude.{Some};
ghost use Rattle.pd_types.specs.StepText.{step_text};

use crate::{Duplicate, NoMemory};
use std::alloc::Global;
use std::fmt;

/// One step of an operator, which a region's leader is asked to carry out (pdpb `ChangePeer` and
/// `TransferLeader`). It names a peer and that peer's store.
#[derive(Clone, Copy, Debug, PartialEq, Eq)]
pub enum Step {
    AddLearner { peer: u64, store: u64 },
    PromoteLearner { peer: u64, store: u64 },
    TransferLeader { peer: u64, store: u64 },
    RemovePeer { peer: u64, store: u64 },
}

impl fmt::Display for Step {
    ghost output = { λ step. Some (step_text step) };

    fn fmt<W: fmt::Write>(&self, f: &mut fmt::Formatter<W>) -> fmt::Result {
        match self {
            Step::AddLearner { peer, store } => write!(f, "add-learner peer {peer} store {store}"),
            Step::PromoteLearner { peer, store } => {
                write!(f, "promote-learner peer {peer} store {store}")
            }
            Step::TransferLeader { peer, store } => {
                write!(f, "transfer-leader peer {peer} store {store}")
            }
            Step::RemovePeer { peer, store } => write!(f, "remove-peer peer {peer} store {store}"),
        }
    }
}

impl Duplicate for Step {
    fn copy(&self, _alloc: Global) -> Result<Step, NoMemory> {
        Ok(*self)
    }
}

/// A step that a driver's cluster sent to the store of a region's leader: whose cluster and in which
/// term, the place in the cluster's journal of the entry that sent it (from 1), the region, and that
/// store.
#[derive(Clone, Copy, Debug, PartialEq, Eq)]
pub struct StepMsg {
    pub driver: u8,
    pub term: u64,
    pub entry: u64,
    pub region: u64,
    pub to: u64,
    pub step: Step,
}

impl Duplicate for StepMsg {
    fn copy(&self, _alloc: Global) -> Result<StepMsg, NoMemory> {
        Ok(*self)
    }
}
