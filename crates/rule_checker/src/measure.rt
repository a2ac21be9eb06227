// The misfit number that a candidate leaves.
ghost use Rattle.std.specs.Prelude.{◌≡◌, IfOk, IsTrue};
ghost use Rattle.rule_checker.specs.Candidates.{after_all, passes};
ghost use Rattle.rule_checker.specs.Measure.{Leaves};

use crate::Class;
use crate::candidate::steps_of;
use crate::case::Case;
use op_step::after;
use pd_types::{Duplicate, NoMemory, Peer, RegionBeat, Step};
use rule_fit::misfit_number;
use std::alloc::Global;

// The region after the steps.
fn after_all(alloc: Global, steps: &[Step], beat: &RegionBeat) -> Result<RegionBeat, NoMemory>
    ensures { IfOk result (λ left. left ≡ after_all steps.now beat.now) }
{
    let mut left = beat.copy(alloc)?;
    for step in steps {
        left = after(alloc, step, &left)?;
    }
    Ok(left)
}

/// The number that a peer's steps leave.
pub fn number_of(alloc: Global, on: Case, class: Class, peer: &Peer) -> Result<u64, NoMemory>
    requires passes { IsTrue (passes class on.beat.now on.rules.now on.stores.now on.now peer.now) }
    ensures { IfOk result (Leaves class on.entry.beat.now on.entry.rules.now on.entry.stores.now on.entry.now peer.now) }
{
    let steps = steps_of(alloc, on, class, peer)?;
    let left = after_all(alloc, steps.as_slice(), on.beat)?;
    misfit_number(alloc, &left, on.rules, on.stores, on.now)
}
