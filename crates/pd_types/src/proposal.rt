ghost use Rattle.std.specs.Prelude.{Some};
ghost use Rattle.pd_types.specs.ProposalText.{proposal_text};

use crate::{Duplicate, NoMemory};
use std::alloc::Global;
use std::fmt;

/// What a scheduler proposes for a region (PD documentation, "Scheduling"). It is built as a wish and
/// passes every test of one: nothing is believed of it.
#[derive(Clone, Copy, Debug, PartialEq, Eq)]
pub enum Proposal {
    /// The peer on the store `from` goes to the store `to`.
    MovePeer { region: u64, from: u64, to: u64 },
    /// The peer on the store `to` takes the lead.
    MoveLeader { region: u64, to: u64 },
    /// The peer on the store goes.
    DropPeer { region: u64, store: u64 },
}

impl fmt::Display for Proposal {
    ghost output = { λ proposal. Some (proposal_text proposal) };

    fn fmt<W: fmt::Write>(&self, f: &mut fmt::Formatter<W>) -> fmt::Result {
        match self {
            Proposal::MovePeer { region, from, to } => {
                write!(f, "move-peer region {region} from {from} to {to}")
            }
            Proposal::MoveLeader { region, to } => {
                write!(f, "move-leader region {region} store {to}")
            }
            Proposal::DropPeer { region, store } => {
                write!(f, "drop-peer region {region} store {store}")
            }
        }
    }
}

impl Duplicate for Proposal {
    fn copy(&self, _alloc: Global) -> Result<Proposal, NoMemory> {
        Ok(*self)
    }
}
