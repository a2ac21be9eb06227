// The windows and batches of a run.
ghost use Rattle.std.specs.Prelude.{◌≡◌, ◌+◌, ◌<◌, ◌≤◌, true, false, [], ◌∷◌, nat_le, length, vec_len, vec_capacity, IfOk, OnOk};
ghost use Rattle.std.specs.List.Sorted.{IsNonDecreasingBy, IsPartitionPoint};
ghost use Rattle.pd_types.specs.declared.oracle.Batch.{Batch};
ghost use Rattle.tso_model.specs.Ledger.{longer_last, place};
ghost use Rattle.tso_core.specs.Ran.{run_after};

use crate::Done;
use pd_types::{Batch, NoMemory, Window};
use std::alloc::Global;
use std::marker::Model;
use tso_model::lengthened;

// Room is taken for so many more entries than are asked for, so that it is seldom taken.
pub(crate) const SPARE_AHEAD: usize = 64;

/// The lists of a run. They have room before a step is made, so a step takes no memory.
#[derive(Drop)]
pub struct Run {
    windows: Vec<Window>,
    batches: Vec<Batch>,
    // Each list has room for so many more entries.
    spare: usize,
}

impl Model for Run {
    ghost use Rattle.tso_core.specs.Ran.{Ran};

    ghost Value = { Ran };

    ghost use Rattle.tso_core.specs.Run.{ran_of, HasSpare};

    ghost view = { ran_of };

    ghost invariant = { HasSpare };
}

impl Run {
    /// A run that begins with this window.
    pub fn new(alloc: Global, first: Window) -> Result<Run, NoMemory>
        ensures windows { IfOk result (λ run. run.windows ≡ first ∷ []) }
        ensures batches { IfOk result (λ run. run.batches ≡ []) }
    {
        let mut windows = Vec::new(alloc);
        windows.push(first)?;
        Ok(Run {
            windows,
            batches: Vec::new(alloc),
            spare: 0,
        })
    }

    /// The windows by rising term.
    pub fn windows(&self) -> &[Window]
        ensures value { result.now ≡ self.now.windows }
    {
        self.windows.as_slice()
    }

    /// The batches by term and then by their timestamps.
    pub fn batches(&self) -> &[Batch]
        ensures value { result.now ≡ self.now.batches }
    {
        self.batches.as_slice()
    }

    /// Makes room for `n` more windows and batches. Want of memory leaves both lists.
    #[inline(always)]
    pub fn reserve(&mut self, n: usize) -> Result<(), NoMemory>
        ensures windows { self.new.windows ≡ self.old.windows }
        ensures batches { self.new.batches ≡ self.old.batches }
        ensures ok { OnOk result (n ≤ self.new.spare) }
    {
        if n <= self.spare {
            return Ok(());
        }
        let spare = n.saturating_add(SPARE_AHEAD);
        self.windows.reserve(spare)?;
        self.batches.reserve(spare)?;
        self.spare = spare;
        Ok(())
    }

    /// Keeps what a step did.
    #[inline(always)]
    pub fn keep(&mut self, done: Done)
        requires sorted { IsNonDecreasingBy (λ (b : Batch). b.term) self.old.batches }
        requires room { 0 < self.old.spare }
        ensures after { self.new ≡ run_after done self.old }
    {
        self.spare -= 1;
        match done {
            Done::Claimed { window } => self.windows.push_reserved(window),
            Done::Saved { hi } => lengthen(&mut self.windows, hi),
            Done::Granted { batch } => insert(&mut self.batches, batch),
            // No other step claims, saves or draws.
            _ => {}
        }
    }
}

// Makes the last window longer.
fn lengthen(windows: &mut [Window], hi: u64)
    ensures value { windows.new ≡ longer_last hi windows.old }
{
    let len = windows.len();
    if len == 0 {
        return;
    }
    windows[len - 1] = lengthened(hi, windows[len - 1]);
}

// Puts a batch behind those of its term and of lower ones. Mostly that is the end.
#[tactic(auto, using(crate::proofs::Placing::place_at, crate::proofs::Placing::place_end))]
#[inline(always)]
fn insert(batches: &mut Vec<Batch>, batch: Batch)
    requires sorted { IsNonDecreasingBy (λ (b : Batch). b.term) batches.old.items }
    requires room { vec_len batches.old < vec_capacity batches.old }
    ensures items { batches.new.items ≡ place batch batches.old.items }
    ensures len { vec_len batches.new ≡ vec_len batches.old + 1 }
    ensures capacity { vec_capacity batches.old ≤ vec_capacity batches.new }
{
    let at = place_of(batches, batch.term);
    if at == batches.len() {
        batches.push_reserved(batch);
        return;
    }
    match batches.insert(at, batch) {
        Ok(()) => {}
        Err(_) => unreachable!(),
    }
}

// The first place behind all batches of this term and of lower ones.
#[inline(always)]
fn place_of(batches: &[Batch], term: u64) -> usize
    requires sorted { IsNonDecreasingBy (λ (b : Batch). b.term) batches.now }
    ensures bound { result ≤ length batches.now }
    ensures place { IsPartitionPoint (λ (b : Batch). nat_le b.term term ≡ true) (λ (b : Batch). nat_le b.term term ≡ false) batches.now result }
{
    let len = batches.len();
    if len == 0 {
        return 0;
    }
    if batches[len - 1].term <= term {
        return len;
    }
    batches.partition_point(|batch| batch.term <= term)
}
