// What a scheduler is asked and told.
ghost use Rattle.std.specs.Prelude.{◌≡◌, ℕ, List, Option, Some, None, IfOk};
ghost use Rattle.pd_types.specs.declared.proposal.Proposal.{Proposal};
ghost use Rattle.sched_api.specs.Schedulers.{more_by_one};

use heartbeat::Standing;
use pd_types::{Duplicate, Ids, NoMemory, Proposal, Seq, Text};
use rule_set::RuleSet;
use std::alloc::Global;
use store_table::Stores;
use thiserror::Error;

/// What became of a proposal.
#[derive(Clone, Copy, Debug, PartialEq, Eq)]
pub enum Fate {
    /// An operator was added for the region of this id.
    Added(u64),
    /// No operator was added.
    Refused,
}

/// A scheduler's answer, under its name: a proposal, or none.
#[derive(Debug, Drop)]
pub struct Said {
    pub name: Text,
    pub proposal: Option<Proposal>,
}

/// What a bench said, in order.
pub type BenchSaid = Seq<Said>;

/// No scheduler has the name.
#[derive(Clone, Copy, Debug, PartialEq, Eq, Error)]
#[error("no scheduler has the name")]
pub struct Absent;

impl Duplicate for Said {
    fn copy(&self, alloc: Global) -> Result<Said, NoMemory> {
        Ok(Said {
            name: self.name.copy(alloc)?,
            proposal: self.proposal,
        })
    }
}

/// Proposes moves of peers and leaders (PD documentation, "Scheduling"). It may be anyone's: nothing
/// is believed of what it proposes, which is built as a wish and passes every test of one.
pub trait Scheduler: Drop {
    ghost use Rattle.std.specs.Prelude.{◌≡◌, ℕ, List, Option, Some, None, IfOk};
    ghost use Rattle.pd_types.specs.declared.proposal.Proposal.{Proposal};
    ghost use Rattle.sched_api.specs.Schedulers.{more_by_one};
    ghost use Rattle.sched_api.specs.declared.scheduler.Fate.{Fate};

    /// Its name.
    ghost name: { Self → List ℕ };

    /// Its last answer.
    ghost last: { Self → Option Proposal };

    /// How often it was asked, up to the greatest u64.
    ghost asks: { Self → ℕ };

    /// The clock that it was last asked with, in milliseconds since the epoch.
    ghost at: { Self → ℕ };

    /// What it was told of its last proposal. None until it is told.
    ghost heard: { Self → Option Fate };

    /// Its name, by which pd-ctl shows and removes it.
    fn name(&self) -> &Text
        ensures value { result.now ≡ name self.now };

    /// Proposes a move, or none, by the stores, the regions that stand, the rules, the regions that
    /// have an operator, and the clock `now` in milliseconds since the epoch.
    fn propose(
        &mut self,
        stores: &Stores,
        standing: &Standing,
        rules: &RuleSet,
        busy: &Ids,
        now: u64,
    ) -> Result<Option<Proposal>, NoMemory>
        ensures answer { IfOk result (λ proposal. proposal ≡ last self.new) }
        ensures asks { asks self.new ≡ more_by_one (asks self.old) }
        ensures at { at self.new ≡ now }
        ensures heard { heard self.new ≡ None }
        ensures name { name self.new ≡ name self.old };

    /// Hears what became of its last proposal.
    fn note(&mut self, fate: Fate)
        ensures heard { heard self.new ≡ Some fate }
        ensures name { name self.new ≡ name self.old }
        ensures last { last self.new ≡ last self.old }
        ensures asks { asks self.new ≡ asks self.old }
        ensures at { at self.new ≡ at self.old };
}
