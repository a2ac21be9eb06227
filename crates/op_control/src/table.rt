// The operators of a term.
ghost use Rattle.std.specs.Prelude.{◌≡◌, ◌==◌, false, true, ◌↔◌, ◌^◌, ◌<◌, [], None, Some, IfErr, IsErr, OnErr, OnOk, IsSome, IsSomeAnd, IsTrue, length};
ghost use Rattle.std.specs.Option.{option_copied};
ghost use Rattle.std.specs.FinMap as map;
ghost use Rattle.op_control.specs.Adding.{added, busy_with, created, priority_refusal, refusal_of, room_refusal, same_epoch, RefusedBy};
ghost use Rattle.op_control.specs.Changes.{LivesBy, LivesOn, Replaces, SendsSafe};
ghost use Rattle.op_control.specs.Charging.{after_charges, first_refused};
ghost use Rattle.op_control.specs.Life.{is_active, RegionLeft, Removed};
ghost use Rattle.op_control.specs.Table.{active_at, active_by, canceled, dispatch_answer, dispatched, joined, op_at, state_of, without, IsListed};
ghost use Rattle.op_control.specs.Told.{Tells};
ghost use Rattle.op_control.specs.Written.{progressed};
ghost use Rattle.std.specs.List.{list_any};

use crate::adding::{AddFault, created, priority_refusal, room_refusal, same_epoch};
use crate::busy::{join, unlist};
use crate::charging::{charge_all, first_refused};
use crate::operator::{NewOp, OpState, Operator};
use crate::turn::{Dispatch, Progress, advance};
use id_map::IdMap;
use pd_types::{Epoch, Ids, NoMemory, RegionBeat, Seq, Text};
use std::alloc::Global;
use std::marker::Model;
use store_limit::Limits;
use store_table::Stores;
use thiserror::Error;

/// The region has no operator that hasn't ended.
#[derive(Clone, Copy, Debug, PartialEq, Eq, Error)]
#[error("the region has no operator")]
pub struct Absent;

/// The operators of a term: the last one of each region, and the regions whose operator hasn't
/// ended. Contracts see the two as a map and a list.
#[derive(Drop)]
pub struct Operators {
    last: IdMap<Operator>,
    busy: Ids,
    alloc: Global,
}

impl Model for Operators {
    ghost use Rattle.std.specs.Prelude.{ℕ, List, refl};
    ghost use Rattle.std.specs.Coded.{code_by, coded×, coded_list, coded_ℕ};
    ghost use Rattle.std.specs.Ordering.{nat_cmp};
    ghost use Rattle.std.specs.FinMap as map;
    ghost use Rattle.op_control.specs.declared.operator.Operator.{Operator};
    ghost use Rattle.op_control.specs.contracts.operator.Operator as operator;
    ghost use Rattle.op_control.specs.Table.{Table, IsListed};

    ghost Value = { Table };

    ghost coded = { code_by (map.FinMap nat_cmp Operator × List ℕ)
        (coded× (map.code coded_ℕ operator.the_row.coded) (coded_list coded_ℕ))
        (λ table. (table.last, table.busy)) (λ pair. record { last = pair.0; busy = pair.1 }) (λ _. refl) };

    ghost view = { λ o. record { last = o.last; busy = o.busy } };

    ghost invariant = { λ o. IsListed (record { last = o.last; busy = o.busy }) };
}

fn active(last: &IdMap<Operator>, region: u64) -> Option<&Operator>
    ensures { option_copied result ≡ active_by (map.get last.now region) }
{
    match last.get(region) {
        Some(op) if op.state.is_active() => Some(op),
        _ => None,
    }
}

// An operator without steps, which stands in a known one's place for a moment.
fn blank(alloc: Global) -> Operator {
    Operator {
        region: 0,
        epoch: Epoch {
            conf_ver: 0,
            version: 0,
        },
        kind: Text::of(String::new(alloc)),
        priority: 0,
        steps: Seq::new(alloc),
        passed: 0,
        state: OpState::Created,
        created: 0,
        started: 0,
    }
}

// Writes an operator's progress in its place.
fn write(last: &mut IdMap<Operator>, alloc: Global, region: u64, progress: Progress)
    requires { IsSome (map.get last.old region) }
    ensures { (op : Operator) → map.get last.old region ≡ Some op →
        last.new ≡ map.insert last.old region (progressed progress.passed progress.state progress.started op) }
{
    let mut op = last.swap(region, blank(alloc));
    op.passed = progress.passed;
    op.state = progress.state;
    op.started = progress.started;
    last.set(region, op);
}

// Gives a region that has no operator a new one. Want of memory leaves both.
fn put_new(
    last: &mut IdMap<Operator>,
    busy: &mut Ids,
    alloc: Global,
    region: u64,
    op: Operator,
) -> Result<(), NoMemory>
    requires { list_any (λ one. one == region) busy.old ≡ false }
    ensures last { OnOk result (last.new ≡ map.insert last.old region op) }
    ensures busy { OnOk result (busy.new ≡ joined region busy.old) }
    ensures last_err { OnErr result (last.new ≡ last.old) }
    ensures busy_err { OnErr result (busy.new ≡ busy.old) }
{
    join(busy, alloc, region)?;
    match last.put(region, op) {
        Ok(()) => Ok(()),
        Err(fault) => {
            unlist(busy, alloc, region);
            Err(fault)
        }
    }
}

// Gives a region a new operator, in place of the one that it has. Want of memory leaves both.
fn store(
    last: &mut IdMap<Operator>,
    busy: &mut Ids,
    alloc: Global,
    region: u64,
    op: Operator,
) -> Result<(), NoMemory>
    requires listed { IsListed (record { last = last.old; busy = busy.old }) }
    requires fresh { is_active op.state ≡ true }
    ensures last { OnOk result (last.new ≡ map.insert last.old region op) }
    ensures busy { OnOk result (busy.new ≡ busy_with (active_by (map.get last.old region)) region busy.old) }
    ensures last_err { OnErr result (last.new ≡ last.old) }
    ensures busy_err { OnErr result (busy.new ≡ busy.old) }
    ensures listed { IsListed (record { last = last.new; busy = busy.new }) }
{
    match active(last, region) {
        Some(_) => {
            last.set(region, op);
            Ok(())
        }
        None => {
            put_new(last, busy, alloc, region, op)?;
            Ok(())
        }
    }
}

// Charges the steps of a region's last operator.
fn charge_stored(last: &IdMap<Operator>, region: u64, limits: &mut Limits, now: u64)
    requires { (op : Operator) → map.get last.now region ≡ Some op → first_refused op.steps limits.old now ≡ None }
    ensures { (op : Operator) → map.get last.now region ≡ Some op →
        limits.new ≡ after_charges op.steps limits.old now }
{
    if let Some(stored) = last.get(region) {
        charge_all(stored.steps.as_slice(), limits, now);
    }
}

impl Operators {
    /// No operators. It takes no memory.
    pub fn new(alloc: Global) -> Operators
        ensures value { result ≡ record { last = map.empty; busy = [] } }
    {
        Operators {
            last: IdMap::new(alloc),
            busy: Seq::new(alloc),
            alloc,
        }
    }

    /// The answer to an accepted heartbeat of a region at the moment `now`, in milliseconds.
    /// Finished steps are passed over; then the operator ends as Canceled where conf_ver grew by
    /// more than the passed steps change it, as Success where no step is left, as Expired or
    /// Timeout where it is late; else the gate says whether the step is sent. It takes no memory.
    pub fn dispatch(&mut self, beat: &RegionBeat, stores: &Stores, now: u64) -> Dispatch
        ensures answer { result ≡ dispatch_answer self.old beat.now stores.now now }
        ensures value { self.new ≡ dispatched self.old beat.now stores.now now }
        ensures life { LivesBy self.old self.new beat.now.region.id result }
        ensures safe { SendsSafe result beat.now stores.now now }
        ensures tells { Tells self.old beat.now stores.now now result }
    {
        let region = beat.region.id;
        let Some(op) = active(&self.last, region) else {
            return Dispatch::NoOperator;
        };
        let (progress, answer) = advance(op, beat, stores, now);
        write(&mut self.last, self.alloc, region, progress);
        if !progress.state.is_active() {
            unlist(&mut self.busy, self.alloc, region);
        }
        answer
    }

    // The first of the five refusals that applies.
    fn refusal(
        &self,
        op: &NewOp,
        kept: Option<&RegionBeat>,
        limits: &Limits,
        now: u64,
    ) -> Option<AddFault>
        requires { length op.now.steps < 2 ^ 32 }
        ensures { result ≡ refusal_of self.now op.now (option_copied kept.entry) limits.now now }
    {
        let Some(beat) = kept else {
            return Some(AddFault::NoRegion);
        };
        if !same_epoch(&op.epoch, &beat.region.epoch) {
            return Some(AddFault::EpochMoved {
                kept: beat.region.epoch,
            });
        }
        let other = active(&self.last, op.region);
        if let Some(fault) = priority_refusal(other, op) {
            return Some(fault);
        }
        let limited = first_refused(op.steps.as_slice(), limits, now);
        room_refusal(limited, other, self.busy.len())
    }

    /// Whether the operator, of fewer than 2^32 steps, may be added at the moment `now`, where its
    /// region is held with the heartbeat `kept`; else the first fault that applies, in the order
    /// of `AddFault`. It takes no memory.
    pub fn may_add(
        &self,
        op: &NewOp,
        kept: Option<&RegionBeat>,
        limits: &Limits,
        now: u64,
    ) -> Result<(), AddFault>
        requires { length op.now.steps < 2 ^ 32 }
        ensures ok { OnOk result (refusal_of self.now op.now (option_copied kept.entry) limits.now now ≡ None) }
        ensures refused { IfErr result (λ fault.
            refusal_of self.now op.now (option_copied kept.entry) limits.now now ≡ Some fault) }
    {
        match self.refusal(op, kept, limits, now) {
            Some(fault) => Err(fault),
            None => Ok(()),
        }
    }

    /// Adds an operator where `may_add` is Ok: it is Created at the moment `now`, takes the place
    /// of the region's operator of lesser priority, which ends as Replaced, and its steps are
    /// charged to their stores' limits. A fault leaves operators and limits.
    pub fn add(
        &mut self,
        op: NewOp,
        kept: Option<&RegionBeat>,
        limits: &mut Limits,
        now: u64,
    ) -> Result<(), AddFault>
        requires { length op.steps < 2 ^ 32 }
        ensures accepted { OnOk result (refusal_of self.old op (option_copied kept.entry) limits.old now ≡ None) }
        ensures refused { IfErr result (RefusedBy (refusal_of self.old op (option_copied kept.entry) limits.old now)) }
        ensures ok { OnOk result (self.new ≡ added self.old op now) }
        ensures replaced { OnOk result (Replaces self.old op) }
        ensures charged { OnOk result (limits.new ≡ after_charges op.steps limits.old now) }
        ensures err { OnErr result (self.new ≡ self.old) }
        ensures limits { OnErr result (limits.new ≡ limits.old) }
    {
        if let Some(fault) = self.refusal(&op, kept, limits, now) {
            return Err(fault);
        }
        let region = op.region;
        let new = created(op, now);
        store(&mut self.last, &mut self.busy, self.alloc, region, new)?;
        charge_stored(&self.last, region, limits, now);
        Ok(())
    }

    /// Ends the region's operator as Canceled (pd-ctl `operator remove`).
    pub fn remove(&mut self, region: u64) -> Result<(), Absent>
        ensures absent { IsErr result ↔ (active_at self.old region ≡ None) }
        ensures value { self.new ≡ canceled self.old region }
        ensures life { LivesOn self.old self.new region Removed }
    {
        let Some(op) = active(&self.last, region) else {
            return Err(Absent);
        };
        let progress = Progress {
            passed: op.passed,
            state: OpState::Canceled,
            started: op.started,
        };
        write(&mut self.last, self.alloc, region, progress);
        unlist(&mut self.busy, self.alloc, region);
        Ok(())
    }

    /// The region left the table: its operator ends as Canceled, where it has one.
    pub fn gone(&mut self, region: u64)
        ensures value { self.new ≡ canceled self.old region }
        ensures life { LivesOn self.old self.new region RegionLeft }
    {
        let _ = self.remove(region);
    }

    /// The state of the region's last operator in this term.
    pub fn state(&self, region: u64) -> Option<OpState>
        ensures value { result ≡ state_of self.now region }
        ensures active { IsSomeAnd result (λ state. IsTrue (is_active state)) ↔ IsSome (active_at self.now region) }
    {
        match self.last.get(region) {
            Some(op) => Some(op.state),
            None => None,
        }
    }

    /// The ids of the regions whose operator hasn't ended, rising.
    pub fn busy(&self) -> &Ids
        ensures value { result.now ≡ self.now.busy }
        ensures listed { IsListed self.now }
    {
        &self.busy
    }

    /// The operator that hasn't ended at a place, counted from 0 by rising region.
    pub fn at(&self, place: usize) -> Option<&Operator>
        ensures value { option_copied result ≡ op_at self.now place }
    {
        match self.busy.as_slice().get(place) {
            Some(region) => self.last.get(*region),
            None => None,
        }
    }
}
