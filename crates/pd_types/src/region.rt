use crate::{Bytes, Downs, Duplicate, Ids, NoMemory, Peers};
use std::alloc::Global;

/// What a peer may do in its region (metapb `PeerRole`). `Incoming` and `Demoting` are the two
/// sides of a joint membership.
#[derive(Clone, Copy, Debug, PartialEq, Eq)]
pub enum Role {
    Voter,
    Learner,
    Incoming,
    Demoting,
}

/// A replica of a region on a store (metapb `Peer`).
#[derive(Clone, Copy, Debug, PartialEq, Eq)]
pub struct Peer {
    pub id: u64,
    pub store: u64,
    pub role: Role,
}

/// How often a region's membership and its range changed (metapb `RegionEpoch`).
#[derive(Clone, Copy, Debug, PartialEq, Eq)]
pub struct Epoch {
    pub conf_ver: u64,
    pub version: u64,
}

/// A range of keys and the peers that hold it (metapb `Region`). The range has `start` and not
/// `end`; an empty end has no upper bound.
#[derive(Debug, Drop, PartialEq)]
pub struct Region {
    pub id: u64,
    pub start: Bytes,
    pub end: Bytes,
    pub epoch: Epoch,
    pub peers: Peers,
}

/// A peer that its leader hasn't heard from for this many seconds (pdpb `PeerStats`).
#[derive(Clone, Copy, Debug, PartialEq, Eq)]
pub struct DownPeer {
    pub peer: u64,
    pub seconds: u64,
}

/// A region heartbeat (pdpb `RegionHeartbeatRequest`): the region, the peer id of its leader, and
/// the peers that are down or pending, by peer id.
#[derive(Debug, Drop, PartialEq)]
pub struct RegionBeat {
    pub region: Region,
    pub leader: u64,
    pub down: Downs,
    pub pending: Ids,
}

impl Duplicate for Peer {
    fn copy(&self, _alloc: Global) -> Result<Peer, NoMemory> {
        Ok(*self)
    }
}

impl Duplicate for DownPeer {
    fn copy(&self, _alloc: Global) -> Result<DownPeer, NoMemory> {
        Ok(*self)
    }
}

impl Duplicate for Epoch {
    fn copy(&self, _alloc: Global) -> Result<Epoch, NoMemory> {
        Ok(*self)
    }
}

impl Duplicate for Region {
    fn copy(&self, alloc: Global) -> Result<Region, NoMemory> {
        Ok(Region {
            id: self.id,
            start: self.start.copy(alloc)?,
            end: self.end.copy(alloc)?,
            epoch: self.epoch,
            peers: self.peers.copy(alloc)?,
        })
    }
}

impl Duplicate for RegionBeat {
    fn copy(&self, alloc: Global) -> Result<RegionBeat, NoMemory> {
        Ok(RegionBeat {
            region: self.region.copy(alloc)?,
            leader: self.leader,
            down: self.down.copy(alloc)?,
            pending: self.pending.copy(alloc)?,
        })
    }
}
