// What holds of the steps that a cluster sends, and of its checks and patrols.
ghost use Rattle.std.specs.Prelude.{◌≡◌, ◌∷◌, ◌++◌, ℕ, List, Some};
ghost use Rattle.op_control.specs.declared.operator.NewOp.{NewOp};
ghost use Rattle.op_control.specs.declared.operator.Operator.{Operator};
ghost use Rattle.op_control.specs.Table.{Table, active_at};
ghost use Rattle.pd_types.specs.declared.region.RegionBeat.{RegionBeat};
ghost use Rattle.store_table.specs.declared.entry.StoreEntry.{StoreEntry};
ghost use Rattle.store_table.specs.Entries.{AreRising};
ghost use Rattle.pd_state.specs.Adding.{Around, Planning, Work, add_op};
ghost use Rattle.pd_state.specs.Asking.{Hearing, and_then, ended};
ghost use Rattle.pd_state.specs.Checking.{Deed, Round, patrol, sweep};
ghost use Rattle.pd_state.specs.Gates.{IsGated};
ghost use Rattle.pd_state.specs.Legal.{IsLegal, IsLegalAfter};
ghost use Rattle.pd_state.specs.Lives.{AreLives, GoesWith};
ghost use Rattle.pd_state.specs.NewIds.{Comes};
ghost use Rattle.pd_state.specs.Passing.{HasPassed};
ghost use Rattle.pd_state.specs.Patrols.{Patrols};
ghost use Rattle.pd_state.specs.State.{part_after};
ghost use Rattle.pd_state.specs.declared.entry.Entry.{Entry};
ghost use Rattle.pd_state.specs.declared.part.Part.{Part};
ghost use Rattle.pd_state.specs.declared.patrol.Planned.{Planned};

use crate::{ADMIN_PRIORITY, CHECK_PRIORITY, SCHEDULER_PRIORITY};

// A scheduler's operator gives way to a check's, and both to one that is added by hand.
const _: () = prove!(SCHEDULER_PRIORITY == 1 && CHECK_PRIORITY == 2 && ADMIN_PRIORITY == 3);

/// Each step that an entry of a legal journal sends is safe there, whoever asked for its operator: a
/// majority of its region's voters is live before it and after it, and its target is right, by the
/// heartbeat that the region stands with after the entry, the stores as they stand before it, and the
/// clock with its moment. It is sent to the store of the region's leader.
pub fn each_sent_step_is_safe()
    ensures gated { (driver : ℕ) (past : List Entry) (entry : Entry) → IsLegal driver past →
        IsLegalAfter driver past entry → IsGated past entry }
{}

/// Between two entries of a term an operator's life makes only steps of the table of its states, and
/// none of them is forgotten: a region's last operator stays the same one and goes on, or it goes on to
/// an end and a new one is Created in its place.
pub fn operators_live_by_the_table()
    ensures lives { (past : List Entry) (entry : Entry) (before after : Part) →
        part_after past ≡ Some before → part_after (entry ∷ past) ≡ Some after →
        GoesWith entry.request → AreLives before.operators after.operators }
{}

/// What a heartbeat passes over of its region's operator: the steps that it shows as finished, from the
/// current one on up to the first that it doesn't, and none of them comes again.
pub fn finished_steps_are_passed_over()
    ensures passed { (table : Table) (op : Operator) (beat : RegionBeat) (stores : List StoreEntry) (now : ℕ) →
        active_at table beat.region.id ≡ Some op → HasPassed table op beat stores now }
{}

/// What comes of adding an operator, in words: where one of its tests fails nothing changes, and no id
/// is taken; its new peer gets the least id above the taken ones that no peer of the region has, and
/// all ids up to it are taken then; where none is left, those that were passed over stay taken.
pub fn how_a_new_peer_gets_its_id()
    ensures ids { (around : Around) (op : NewOp) (beat : RegionBeat) (old : Planning) (at then : Hearing) (work : Work) →
        add_op around op beat old at ≡ ended work then → Comes work.adding around op beat old work }
{}

/// What a patrol leaves, in words: which regions have another operator after it and why a plan has
/// none, and which stores are Tombstones then. The plans are carried out in their order, which is that
/// of the keys.
pub fn what_a_patrol_leaves()
    ensures patrols { (around : Around) (before : Planning) (at then : Hearing) (deed : Deed) → AreRising around.stores →
        patrol around before at ≡ ended deed then → Patrols around before deed }
    ensures order { (around : Around) (front back : List Planned) (round : Round) (at : Hearing) →
        sweep around (front ++ back) round at ≡ and_then (sweep around front round) (λ last. sweep around back last) at }
{}
