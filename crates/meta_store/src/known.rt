// What a driver knows of the revisions of keys.
ghost use Rattle.std.specs.Prelude.{◌≡◌, ℕ, true, false, List, [], ◌∷◌, reverse, OnOk, OnErr};
ghost use Rattle.meta_store.specs.declared.record.Cell.{Cell};
ghost use Rattle.meta_store.specs.declared.record.MetaAnswer.{MetaAnswer};
ghost use Rattle.meta_store.specs.declared.record.MetaCall.TheVariants as calls;
ghost use Rattle.meta_store.specs.declared.record.MetaEntry.{MetaEntry};
ghost use Rattle.meta_store.specs.declared.record.MetaVerdict.TheVariants as verdicts;
ghost use Rattle.meta_store.specs.Cells.{AreRising, cell_at, revision_in};
ghost use Rattle.meta_store.specs.Doors.{answer_of, said_of};
ghost use Rattle.meta_store.specs.Known.{kept_heard, kept_of, known_revision};
ghost use Rattle.meta_store.specs.Past.{IsLegal, is_accepted, is_of, is_write, revision_of};

use crate::records::Records;
use crate::{Cell, MetaAnswer, MetaCall, MetaVerdict};
use pd_types::{Bytes, Duplicate, NoMemory};
use std::alloc::Global;
use std::marker::Model;

/// The revisions that a driver knows: those that were handed out to it, with its own accepted writes
/// since. Contracts see the keys' records without their bytes, by rising key.
#[derive(Drop)]
pub struct Known {
    records: Records,
}

impl Model for Known {
    ghost use Rattle.std.specs.Prelude.{List};
    ghost use Rattle.meta_store.specs.declared.record.Cell.{Cell};

    ghost Value = { List Cell };

    ghost view = { λ k. k.records };
}

/// The known revision of a key is that of the last accepted write of it, or the one that was handed
/// out; 0 where that write was a deletion, and where there is neither.
pub fn the_last_answer_tells_a_revision()
    ensures known { (answers : List MetaAnswer) (key : List ℕ) → revision_in (cell_at key (kept_of answers)) ≡ known_revision key answers }
    ensures none { (key : List ℕ) → known_revision key [] ≡ 0 }
    ensures lead { (earlier : List MetaAnswer) (term revision : ℕ) (cells : List Cell) (key : List ℕ) →
        known_revision key (answer_of (calls.Lead term) (verdicts.Accepted revision) cells ∷ earlier) ≡ revision_in (cell_at key cells) }
    ensures put { (earlier : List MetaAnswer) (term expected revision : ℕ) (key bytes : List ℕ) →
        known_revision key (answer_of (calls.Put term key expected bytes) (verdicts.Accepted revision) [] ∷ earlier) ≡ revision }
    ensures deleted { (earlier : List MetaAnswer) (term expected revision : ℕ) (key : List ℕ) →
        known_revision key (answer_of (calls.Delete term key expected) (verdicts.Accepted revision) [] ∷ earlier) ≡ 0 }
    ensures refused { (earlier : List MetaAnswer) (answer : MetaAnswer) (key : List ℕ) → is_accepted answer.verdict ≡ false →
        known_revision key (answer ∷ earlier) ≡ known_revision key earlier }
    ensures others { (earlier : List MetaAnswer) (answer : MetaAnswer) (key : List ℕ) → is_write answer.call ≡ true → is_of key answer.call ≡ false →
        known_revision key (answer ∷ earlier) ≡ known_revision key earlier }
{}

/// Who heard all answers of the metadata knows each key's revision as it is.
pub fn who_hears_all_knows_each_revision()
    ensures all { (past : List MetaEntry) (key : List ℕ) → IsLegal past → known_revision key (reverse (said_of past)) ≡ revision_of key past }
{}

impl Known {
    /// No revisions. It takes no memory.
    pub fn new(alloc: Global) -> Known
        ensures value { result ≡ [] }
    {
        Known {
            records: Records::new(alloc),
        }
    }

    /// The known revision of a key; 0 where none is known.
    pub fn revision(&self, key: &[u8]) -> u64
        ensures value { result ≡ revision_in (cell_at key.now self.now) }
    {
        match self.records.get(key) {
            Some(cell) => cell.revision,
            None => 0,
        }
    }

    /// Takes in an answer of the door. Want of memory leaves what is known.
    pub fn hear(&mut self, alloc: Global, answer: &MetaAnswer) -> Result<(), NoMemory>
        requires rising { AreRising answer.now.cells }
        ensures ok { OnOk result (self.new ≡ kept_heard answer.now.call answer.now.verdict answer.now.cells self.old) }
        ensures err { OnErr result (self.new ≡ self.old) }
    {
        let MetaVerdict::Accepted { revision } = answer.verdict else {
            return Ok(());
        };
        match &answer.call {
            MetaCall::Lead { .. } => self.records = Records::bare(alloc, answer.cells.as_slice())?,
            MetaCall::Put { key, .. } => {
                let key = key.copy(alloc)?;
                let bytes = Bytes::new(alloc);
                let cell = Cell {
                    key,
                    revision,
                    bytes,
                };
                self.records.put(alloc, cell)?;
            }
            MetaCall::Delete { key, .. } => self.records.remove(key.as_slice()),
        }
        Ok(())
    }
}
