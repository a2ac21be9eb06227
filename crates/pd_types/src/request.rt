use crate::{Bytes, Duplicate, Labels, NoMemory, RegionBeat, Text};
use std::alloc::Global;

/// What a driver's cluster is asked to do. Moments are in milliseconds since the epoch.
#[derive(Debug, Drop, PartialEq)]
pub enum Request {
    /// Puts a store, with a heartbeat of it (pdpb `PutStore`).
    Hello {
        store: u64,
        moment: u64,
        address: Text,
        labels: Labels,
    },
    /// A store heartbeat (pdpb `StoreHeartbeat`).
    Alive {
        store: u64,
        moment: u64,
    },
    /// A region heartbeat that a store sends (pdpb `RegionHeartbeat`).
    Beat {
        store: u64,
        moment: u64,
        beat: RegionBeat,
    },
    /// Sets a placement rule, by its JSON text (pd-ctl `config placement-rules`).
    Rule {
        moment: u64,
        json: Bytes,
    },
    /// Removes the placement rule of this group and id (pd-ctl `config placement-rules`).
    Unrule {
        moment: u64,
        group: Text,
        id: Text,
    },
    /// Checks a region, and adds the operator that its plan asks for (PD's checkers).
    Check {
        moment: u64,
        region: u64,
    },
    /// Checks every region, adds the operators that their plans ask for, and buries stores (PD's
    /// patrol of the regions). So many workers look at the regions.
    Patrol {
        moment: u64,
        workers: u32,
    },
    /// Lets the next scheduler of the driver's bench propose a move (PD's schedulers).
    Schedule {
        moment: u64,
    },
    /// A command of pd-ctl, by its words.
    Ctl {
        moment: u64,
        words: Bytes,
    },
    /// The driver won this term.
    Term {
        term: u64,
        moment: u64,
    },
    /// The driver gave its term up or lost it.
    Retire,
}

impl Duplicate for Request {
    fn copy(&self, alloc: Global) -> Result<Request, NoMemory> {
        match self {
            Request::Hello {
                store,
                moment,
                address,
                labels,
            } => Ok(Request::Hello {
                store: *store,
                moment: *moment,
                address: address.copy(alloc)?,
                labels: labels.copy(alloc)?,
            }),
            Request::Alive { store, moment } => Ok(Request::Alive {
                store: *store,
                moment: *moment,
            }),
            Request::Beat {
                store,
                moment,
                beat,
            } => Ok(Request::Beat {
                store: *store,
                moment: *moment,
                beat: beat.copy(alloc)?,
            }),
            Request::Rule { moment, json } => Ok(Request::Rule {
                moment: *moment,
                json: json.copy(alloc)?,
            }),
            Request::Unrule { moment, group, id } => Ok(Request::Unrule {
                moment: *moment,
                group: group.copy(alloc)?,
                id: id.copy(alloc)?,
            }),
            Request::Check { moment, region } => Ok(Request::Check {
                moment: *moment,
                region: *region,
            }),
            Request::Patrol { moment, workers } => Ok(Request::Patrol {
                moment: *moment,
                workers: *workers,
            }),
            Request::Schedule { moment } => Ok(Request::Schedule { moment: *moment }),
            Request::Ctl { moment, words } => Ok(Request::Ctl {
                moment: *moment,
                words: words.copy(alloc)?,
            }),
            Request::Term { term, moment } => Ok(Request::Term {
                term: *term,
                moment: *moment,
            }),
            Request::Retire => Ok(Request::Retire),
        }
    }
}
