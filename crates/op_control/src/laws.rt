ghost use Rattle.std.specs.Prelude.{◌≡◌, ◌≢◌, ◌+◌, ◌<◌, ◌≤◌, ℕ, false, List, [], ◌∷◌, length, take, drop, Option, Some, None, All, IsTrue};
ghost use Rattle.pd_types.specs.declared.region.RegionBeat.{RegionBeat};
ghost use Rattle.pd_types.specs.declared.step.Step.{Step};
ghost use Rattle.pd_types.specs.declared.step.Step.TheVariants as steps;
ghost use Rattle.op_step.specs.Finished.{is_finished};
ghost use Rattle.store_table.specs.declared.entry.StoreEntry.{StoreEntry};
ghost use Rattle.store_limit.specs.declared.limits.LimitKind.TheVariants as kinds;
ghost use Rattle.store_limit.specs.declared.limits.Limited.{Limited};
ghost use Rattle.store_limit.specs.Limits.{StoreLimits, available_in, taken};
ghost use Rattle.op_control.specs.declared.operator.NewOp.{NewOp};
ghost use Rattle.op_control.specs.declared.operator.Operator.{Operator};
ghost use Rattle.op_control.specs.declared.operator.OpState.TheVariants.{Created, Started};
ghost use Rattle.op_control.specs.declared.adding.AddFault.TheVariants as faults;
ghost use Rattle.op_control.specs.declared.turn.Dispatch.TheVariants as dispatch;
ghost use Rattle.op_control.specs.Table.{Table, active_at};
ghost use Rattle.op_control.specs.Turn.{answer_of, conf_changes, turned};
ghost use Rattle.op_control.specs.Charging.{after_charges, first_refused};
ghost use Rattle.op_control.specs.Adding.{added, created, refusal_of, with_new_id};

use crate::{EXPIRED_MS, MOST_OPERATORS, TIMEOUT_MS};

/// The numbers: 3 seconds, 10 minutes and 1,024 operators.
pub fn the_numbers()
    ensures expired { EXPIRED_MS ≡ 3000 }
    ensures timeout { TIMEOUT_MS ≡ 600000 }
    ensures operators { MOST_OPERATORS ≡ 1024 }
{}

/// An operator is refused for the same reason before its new peer has an id and after.
pub fn an_id_changes_no_refusal()
    ensures { (table : Table) (op : NewOp) (id : ℕ) (kept : Option RegionBeat)
        (limits : StoreLimits) (now : ℕ) →
        refusal_of table (with_new_id op id) kept limits now ≡ refusal_of table op kept limits now }
{}

/// Of several reasons the first is named, with the numbers of what stands in the way: a region that
/// isn't held, another epoch,
/// then an operator of at least this priority, then a store's limit, then 1,024 operators, which
/// don't matter to an operator that replaces one.
pub fn the_first_refusal_is_named()
    ensures no_region { (table : Table) (op : NewOp) (limits : StoreLimits) (now : ℕ) →
        refusal_of table op None limits now ≡ Some faults.NoRegion }
    ensures moved { (table : Table) (op : NewOp) (beat : RegionBeat) (limits : StoreLimits)
        (now : ℕ) → op.epoch ≢ beat.region.epoch →
        refusal_of table op (Some beat) limits now ≡ Some (faults.EpochMoved beat.region.epoch) }
    ensures busy { (table : Table) (op : NewOp) (active : Operator) (beat : RegionBeat)
        (limits : StoreLimits) (now : ℕ) → op.epoch ≡ beat.region.epoch →
        active_at table op.region ≡ Some active → op.priority ≤ active.priority →
        refusal_of table op (Some beat) limits now ≡ Some (faults.Busy active.priority) }
    ensures limited { (table : Table) (op : NewOp) (beat : RegionBeat) (limits : StoreLimits)
        (now : ℕ) (limit : Limited) → op.epoch ≡ beat.region.epoch →
        active_at table op.region ≡ None → first_refused op.steps limits now ≡ Some limit →
        refusal_of table op (Some beat) limits now
        ≡ Some (faults.Limited limit.available limit.needed) }
    ensures full { (table : Table) (op : NewOp) (beat : RegionBeat) (limits : StoreLimits)
        (now : ℕ) → op.epoch ≡ beat.region.epoch → active_at table op.region ≡ None →
        first_refused op.steps limits now ≡ None → 1024 ≤ length table.busy →
        refusal_of table op (Some beat) limits now ≡ Some faults.Limit }
    ensures room { (table : Table) (op : NewOp) (beat : RegionBeat) (limits : StoreLimits)
        (now : ℕ) → op.epoch ≡ beat.region.epoch → active_at table op.region ≡ None →
        first_refused op.steps limits now ≡ None → length table.busy < 1024 →
        refusal_of table op (Some beat) limits now ≡ None }
    ensures replaces { (table : Table) (op : NewOp) (active : Operator) (beat : RegionBeat)
        (limits : StoreLimits) (now : ℕ) → op.epoch ≡ beat.region.epoch →
        active_at table op.region ≡ Some active → active.priority < op.priority →
        first_refused op.steps limits now ≡ None →
        refusal_of table op (Some beat) limits now ≡ None }
{}

/// No more than 1,024 regions have an operator.
pub fn at_most_1024_regions_have_an_operator()
    ensures { (table : Table) (op : NewOp) (kept : Option RegionBeat) (limits : StoreLimits)
        (now : ℕ) → length table.busy ≤ 1024 → refusal_of table op kept limits now ≡ None →
        length (added table op now).busy ≤ 1024 }
{}

/// The first Send is an operator's start, and no later heartbeat changes it.
pub fn the_first_send_is_the_start()
    ensures begins { (op : Operator) (beat : RegionBeat) (stores : List StoreEntry) (now : ℕ)
        (step : Step) → op.state ≡ Created → answer_of op beat stores now ≡ dispatch.Send step →
        (turned op beat stores now).started ≡ now }
    ensures keeps { (op : Operator) (beat : RegionBeat) (stores : List StoreEntry) (now : ℕ) →
        op.state ≡ Started → (turned op beat stores now).started ≡ op.started }
{}

/// Passed steps raise conf_ver by one each, but for a transfer of the lead.
pub fn passed_steps_raise_conf_ver()
    ensures none { conf_changes [] ≡ 0 }
    ensures add { (peer store : ℕ) (more : List Step) →
        conf_changes (steps.AddLearner peer store ∷ more) ≡ conf_changes more + 1 }
    ensures promote { (peer store : ℕ) (more : List Step) →
        conf_changes (steps.PromoteLearner peer store ∷ more) ≡ conf_changes more + 1 }
    ensures remove { (peer store : ℕ) (more : List Step) →
        conf_changes (steps.RemovePeer peer store ∷ more) ≡ conf_changes more + 1 }
    ensures transfer { (peer store : ℕ) (more : List Step) →
        conf_changes (steps.TransferLeader peer store ∷ more) ≡ conf_changes more }
{}

/// A new peer is charged to its store's limit for new peers, one that leaves to the other, and no
/// other step is charged. Fewer than 60,000 units refuse a charge, and a step is tested after the
/// charges of the steps before it.
pub fn new_and_leaving_peers_are_charged()
    ensures add { (limits : StoreLimits) (peer store now : ℕ) →
        after_charges (steps.AddLearner peer store ∷ []) limits now
        ≡ taken limits store kinds.AddPeer now }
    ensures remove { (limits : StoreLimits) (peer store now : ℕ) →
        after_charges (steps.RemovePeer peer store ∷ []) limits now
        ≡ taken limits store kinds.RemovePeer now }
    ensures promote { (limits : StoreLimits) (peer store now : ℕ) →
        after_charges (steps.PromoteLearner peer store ∷ []) limits now ≡ limits }
    ensures transfer { (limits : StoreLimits) (peer store now : ℕ) →
        after_charges (steps.TransferLeader peer store ∷ []) limits now ≡ limits }
    ensures refused { (limits : StoreLimits) (peer store now : ℕ) (more : List Step) →
        available_in limits store kinds.AddPeer now < 60000 →
        first_refused (steps.AddLearner peer store ∷ more) limits now
        ≡ Some (record { available = available_in limits store kinds.AddPeer now; needed = 60000 }) }
    ensures turn { (limits : StoreLimits) (peer store now : ℕ) (more : List Step) →
        60000 ≤ available_in limits store kinds.AddPeer now →
        first_refused (steps.AddLearner peer store ∷ more) limits now
        ≡ first_refused more (taken limits store kinds.AddPeer now) now }
    ensures leaves { (limits : StoreLimits) (peer store now : ℕ) (more : List Step) →
        60000 ≤ available_in limits store kinds.RemovePeer now →
        first_refused (steps.RemovePeer peer store ∷ more) limits now
        ≡ first_refused more (taken limits store kinds.RemovePeer now) now }
{}

/// What is added is a new operator of its region and of no other: it is Created at this moment, is to
/// take the steps that were asked for, none of which is passed, and keeps epoch, kind and priority.
pub fn an_added_operator_is_new()
    ensures region { (table : Table) (op : NewOp) (now : ℕ) →
        active_at (added table op now) op.region ≡ Some (created op now) }
    ensures others { (table : Table) (op : NewOp) (now region : ℕ) → region ≢ op.region →
        active_at (added table op now) region ≡ active_at table region }
    ensures state { (op : NewOp) (now : ℕ) → (created op now).state ≡ Created }
    ensures moment { (op : NewOp) (now : ℕ) → (created op now).created ≡ now }
    ensures steps { (op : NewOp) (now : ℕ) → (created op now).steps ≡ op.steps }
    ensures passed { (op : NewOp) (now : ℕ) → (created op now).passed ≡ 0 }
    ensures epoch { (op : NewOp) (now : ℕ) → (created op now).epoch ≡ op.epoch }
    ensures priority { (op : NewOp) (now : ℕ) → (created op now).priority ≡ op.priority }
    ensures kind { (op : NewOp) (now : ℕ) → (created op now).kind ≡ op.kind }
{}

/// Passed steps stay passed: a heartbeat passes some more, each of which it shows as finished, and the
/// operator stands at the first step that it doesn't.
pub fn passed_steps_stay_passed()
    ensures more { (op : Operator) (beat : RegionBeat) (stores : List StoreEntry) (now : ℕ) →
        (count : ℕ) × ((turned op beat stores now).passed ≡ op.passed + count)
        × All (λ (step : Step). IsTrue (is_finished step beat)) (take count (drop op.passed op.steps)) }
    ensures next { (op : Operator) (beat : RegionBeat) (stores : List StoreEntry) (now : ℕ)
        (step : Step) (more : List Step) →
        drop (turned op beat stores now).passed op.steps ≡ step ∷ more →
        is_finished step beat ≡ false }
{}
