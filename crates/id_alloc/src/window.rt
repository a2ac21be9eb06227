// A window of ids.
ghost use Rattle.std.specs.Prelude.{◌≡◌, ◌+◌, ◌<◌, ◌≤◌, ◌^◌, [], ◌∷◌, ◌++◌, Some, false, true, option_copied, IfOk, IfErr, OnErr};
ghost use Rattle.std.specs.Fmt.{decimal};
ghost use Rattle.meta_store.specs.declared.record.MetaVerdict.TheVariants as verdicts;
ghost use Rattle.meta_store.specs.Cells.{cell_at, revision_in};
ghost use Rattle.meta_store.specs.Doors.{Serves};
ghost use Rattle.id_alloc.specs.Windows.{Refuses, Takes, end_in, id_call, id_key, is_spent, is_used_up, window_in, with_next, with_saved};

use crate::IdFault;
use meta_store::{Cell, Cells, Door, MetaCall, MetaFault, id_text, read_id_text};
use pd_types::{Bytes, NoMemory};
use std::alloc::Global;
use std::marker::Model;

/// The end where no window was ever saved.
pub const FIRST_END: u64 = 1_000_000;

/// How many ids a window has.
pub const WINDOW: u64 = 1000;

const _: () = prove!(FIRST_END == 1_000_000 && WINDOW == 1_000);

/// Ids up to an end that is saved in the record `id`. Contracts see the end, the revision at which
/// the window was saved or found, and the last id that is taken.
#[derive(Debug, Drop)]
pub struct IdWindow {
    end: u64,
    revision: u64,
    taken: u64,
}

impl Model for IdWindow {
    ghost use Rattle.std.specs.Prelude.{◌≤◌};
    ghost use Rattle.id_alloc.specs.Windows.{Window};

    ghost Value = { Window };

    ghost view = { λ w. record { end = w.end; revision = w.revision; taken = w.taken } };

    ghost invariant = { λ w. w.taken ≤ w.end };
}

// The record of the key `id`.
fn id_cell(cells: &[Cell]) -> Option<&Cell>
    ensures value { option_copied result ≡ cell_at id_key cells.now }
{
    cells
        .iter()
        .find(|cell| cell.key.as_slice() == b"id".as_slice())
}

// The end that a record tells.
fn end_in(cell: &Cell) -> u64
    ensures value { result ≡ end_in (Some cell.now) }
{
    read_id_text(cell.bytes.as_slice()).unwrap_or(FIRST_END)
}

impl IdWindow {
    /// A window that is used up, at the end and the revision of the record `id` among these, or at
    /// 1,000,000 and 0 where there is none. An end that doesn't read counts as 1,000,000.
    pub fn of(cells: &Cells) -> IdWindow
        ensures value { result ≡ window_in cells.now }
    {
        match id_cell(cells.as_slice()) {
            Some(cell) => {
                let end = end_in(cell);
                IdWindow {
                    end,
                    revision: cell.revision,
                    taken: end,
                }
            }
            None => IdWindow {
                end: FIRST_END,
                revision: 0,
                taken: FIRST_END,
            },
        }
    }

    /// Takes the next id. Only where the window is used up it asks the door, for a thousand ids
    /// more, by a write of their end at the known revision. `Spent` comes exactly where the end of
    /// those would be 2^63 or more; `OldTerm`, `Conflict` and `Limit` are the door's own answers in
    /// this call. After a refusal the window is as before.
    pub fn next<M: Door>(
        &mut self,
        alloc: Global,
        door: &mut M,
        driver: u8,
        term: u64,
    ) -> Result<u64, IdFault>
        requires { Serves (M.place door.old) driver }
        ensures ok { IfOk result (Takes self.old self.new (record { said_old = M.said door.old; said_new = M.said door.new; told_old = M.told door.old; told_new = M.told door.new }) driver term) }
        ensures refused { IfErr result (Refuses self.old (record { said_old = M.said door.old; said_new = M.said door.new; told_old = M.told door.old; told_new = M.told door.new }) driver term) }
        ensures err { OnErr result (self.new ≡ self.old) }
        ensures place { M.place door.new ≡ M.place door.old }
    {
        if self.is_used_up() {
            return self.renew(alloc, door, driver, term);
        }
        Ok(self.take())
    }

    /// Whether no id of the window is left.
    pub fn is_used_up(&self) -> bool
        ensures value { result ≡ is_used_up self.now }
    {
        self.taken == self.end
    }

    /// Whether the next window would end at 2^63 or later, so that there is none.
    pub fn is_spent(&self) -> bool
        ensures value { result ≡ is_spent self.now }
    {
        self.end >= (1 << 63) - WINDOW
    }

    /// Takes the next id of a window that isn't used up.
    pub fn take(&mut self) -> u64
        requires left { is_used_up self.old ≡ false }
        ensures value { self.new ≡ with_next self.old }
        ensures id { result ≡ self.old.taken + 1 }
    {
        self.taken += 1;
        self.taken
    }

    /// The write that saves the next window: its end, at the known revision. For a caller that makes
    /// the write itself, and then calls `save` with the revision that it was accepted at.
    pub fn call(&self, alloc: Global, term: u64) -> Result<MetaCall, NoMemory>
        requires room { is_spent self.now ≡ false }
        ensures value { IfOk result (λ call. call ≡ id_call term self.now) }
    {
        Ok(MetaCall::Put {
            term,
            key: Bytes::of(Vec::from_slice(alloc, b"id")?),
            expected: self.revision,
            bytes: id_text(alloc, self.end + WINDOW)?,
        })
    }

    /// Goes over to the next window, whose write was accepted at this revision, and takes its first id.
    pub fn save(&mut self, revision: u64) -> u64
        requires used { is_used_up self.old ≡ true }
        requires room { is_spent self.old ≡ false }
        ensures value { self.new ≡ with_saved self.old revision }
        ensures id { result ≡ self.old.end + 1 }
    {
        let id = self.end + 1;
        *self = IdWindow {
            end: self.end + WINDOW,
            revision,
            taken: id,
        };
        id
    }

    // Saves the next window, and takes its first id.
    fn renew<M: Door>(
        &mut self,
        alloc: Global,
        door: &mut M,
        driver: u8,
        term: u64,
    ) -> Result<u64, IdFault>
        requires serves { Serves (M.place door.old) driver }
        requires used { is_used_up self.old ≡ true }
        ensures ok { IfOk result (Takes self.old self.new (record { said_old = M.said door.old; said_new = M.said door.new; told_old = M.told door.old; told_new = M.told door.new }) driver term) }
        ensures refused { IfErr result (Refuses self.old (record { said_old = M.said door.old; said_new = M.said door.new; told_old = M.told door.old; told_new = M.told door.new }) driver term) }
        ensures err { OnErr result (self.new ≡ self.old) }
        ensures place { M.place door.new ≡ M.place door.old }
    {
        if self.is_spent() {
            return Err(IdFault::Spent);
        }
        let Ok(text) = id_text(alloc, self.end + WINDOW) else {
            return Err(IdFault::NoMemory);
        };
        match door.put_if(driver, term, b"id", self.revision, text.as_slice()) {
            Ok(revision) => Ok(self.save(revision)),
            Err(MetaFault::OldTerm { fence }) => Err(IdFault::OldTerm { fence }),
            Err(MetaFault::Conflict { found }) => Err(IdFault::Conflict { found }),
            Err(MetaFault::Limit) => Err(IdFault::Limit),
            Err(MetaFault::NoMemory) => Err(IdFault::NoMemory),
        }
    }
}
