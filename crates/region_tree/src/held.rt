ghost use Rattle.std.specs.Prelude.{◌≡◌, IfOk, None};
ghost use Rattle.pd_types.specs.BeatCheck.{first_fault};

use pd_types::{NoMemory, RegionBeat};
use std::alloc::Global;
use std::marker::Model;

/// A region heartbeat that passed `check_beat`, in a block of its own, so that a table of them moves
/// as pointers. Contracts see the heartbeat.
#[derive(Drop)]
pub struct Held {
    beat: Box<RegionBeat>,
}

impl Model for Held {
    ghost use Rattle.std.specs.Prelude.{◌≡◌, None};
    ghost use Rattle.pd_types.specs.BeatCheck.{first_fault};
    ghost use Rattle.pd_types.specs.declared.region.RegionBeat.{RegionBeat};

    ghost Value = { RegionBeat };

    ghost view = { λ h. h.beat.value };

    ghost invariant = { λ h. first_fault h.beat.value ≡ None };
}

impl Held {
    /// The heartbeat in its block; want of memory drops it.
    pub fn new(alloc: Global, beat: RegionBeat) -> Result<Held, NoMemory>
        requires checked { first_fault beat ≡ None }
        ensures value { IfOk result (λ held. held ≡ beat) }
    {
        Ok(Held {
            beat: Box::new(alloc, beat)?,
        })
    }

    /// The heartbeat.
    pub fn beat(&self) -> &RegionBeat
        ensures value { result.now ≡ self.now }
        ensures checked { first_fault self.now ≡ None }
    {
        &self.beat
    }

    /// The heartbeat out of its block.
    pub fn into_beat(self) -> RegionBeat
        ensures value { result ≡ self }
    {
        Box::into_inner(self.beat)
    }
}
