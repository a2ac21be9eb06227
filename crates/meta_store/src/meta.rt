// The metadata, which one caller holds.
ghost use Rattle.std.specs.Prelude.{◌≡◌, ◌≤◌, ℕ, [], List, reverse, IsTrue, IfOk, IfErr, OnOk, OnErr};
ghost use Rattle.meta_store.specs.declared.record.MetaCall.TheVariants as calls;
ghost use Rattle.meta_store.specs.declared.record.MetaVerdict.TheVariants as verdicts;
ghost use Rattle.meta_store.specs.Past.{AreRecords, AreRecordsUnder, IsLegal, Refused, is_accepted, noted, record_of, records_of, verdict_of};
ghost use Rattle.meta_store.specs.Steps.{verdict_by};

use crate::records::Records;
use crate::tables::{Tables, apply, judge};
use crate::{Cell, Cells, MetaCall, MetaEntry, MetaFault, MetaJournal, MetaVerdict};
use pd_types::{Bytes, Duplicate, NoMemory, Seq};
use std::alloc::Global;
use std::marker::Model;

/// The metadata. Contracts see its journal, the list of all calls, refused ones too, with driver and
/// verdict. Each call takes its memory first, and want of it changes nothing.
#[derive(Drop)]
pub struct Meta {
    entries: Vec<MetaEntry>,
    tables: Tables,
    alloc: Global,
}

impl Model for Meta {
    ghost use Rattle.std.specs.Prelude.{◌≡◌, List, reverse};
    ghost use Rattle.meta_store.specs.declared.record.MetaEntry.{MetaEntry};
    ghost use Rattle.meta_store.specs.Past.{IsLegal};
    ghost use Rattle.meta_store.specs.Steps.{tables_of};

    ghost Value = { List MetaEntry };

    ghost view = { λ m. m.entries.items };

    ghost invariant = { λ m. (m.tables ≡ tables_of (reverse m.entries.items)) × IsLegal (reverse m.entries.items) };
}

// The bytes, as a list of its own.
fn bytes_of(alloc: Global, bytes: &[u8]) -> Result<Bytes, NoMemory>
    ensures value { IfOk result (λ copy. copy ≡ bytes.now) }
{
    let mut copy = Vec::with_capacity(alloc, bytes.len())?;
    copy.extend_from_slice(bytes)?;
    Ok(Bytes::of(copy))
}

// A write, with copies of its key and its bytes.
fn put_call(
    alloc: Global,
    term: u64,
    key: &[u8],
    expected: u64,
    bytes: &[u8],
) -> Result<MetaCall, NoMemory>
    ensures value { IfOk result (λ call. call ≡ calls.Put term key.now expected bytes.now) }
{
    Ok(MetaCall::Put {
        term,
        key: bytes_of(alloc, key)?,
        expected,
        bytes: bytes_of(alloc, bytes)?,
    })
}

// A deletion, with a copy of its key.
fn delete_call(alloc: Global, term: u64, key: &[u8], expected: u64) -> Result<MetaCall, NoMemory>
    ensures value { IfOk result (λ call. call ≡ calls.Delete term key.now expected) }
{
    Ok(MetaCall::Delete {
        term,
        key: bytes_of(alloc, key)?,
        expected,
    })
}

// Copies of the records, where a lead of the term will be accepted.
fn handed_out(alloc: Global, tables: &Tables, entries: usize, term: u64) -> Result<Cells, NoMemory>
    requires { tables.now.counter ≤ entries }
    ensures value { IfOk result (λ cells. (revision : ℕ) → verdict_by tables.now entries (calls.Lead term) ≡ verdicts.Accepted revision → cells ≡ tables.now.records) }
{
    match judge(tables, entries, &MetaCall::Lead { term }) {
        MetaVerdict::Accepted { .. } => tables.records.copy(alloc),
        _ => Ok(Cells::new(alloc)),
    }
}

impl Meta {
    /// No entries. It takes no memory.
    pub fn new(alloc: Global) -> Meta
        ensures value { result ≡ [] }
    {
        Meta {
            entries: Vec::new(alloc),
            tables: Tables {
                records: Records::new(alloc),
                counter: 0,
                fence: 0,
            },
            alloc,
        }
    }

    // Makes an entry of a call, with its verdict.
    fn note(&mut self, driver: u8, call: MetaCall) -> Result<MetaVerdict, NoMemory>
        ensures verdict { IfOk result (λ verdict. verdict ≡ verdict_of (reverse self.old) call) }
        ensures ok { OnOk result (self.new ≡ noted self.old driver call) }
        ensures err { OnErr result (self.new ≡ self.old) }
    {
        self.entries.reserve(1)?;
        let verdict = judge(&self.tables, self.entries.len(), &call);
        apply(self.alloc, &mut self.tables, &call, verdict)?;
        self.entries.push_reserved(MetaEntry {
            driver,
            call,
            verdict,
        });
        Ok(verdict)
    }

    // Makes an entry of a call, and answers the revision or the fault that its verdict tells.
    fn ask(&mut self, driver: u8, call: MetaCall) -> Result<u64, MetaFault>
        ensures ok { OnOk result (self.new ≡ noted self.old driver call) }
        ensures accepted { IfOk result (λ revision. verdict_of (reverse self.old) call ≡ verdicts.Accepted revision) }
        ensures refused { IfErr result (Refused self.old self.new driver call) }
    {
        match self.note(driver, call) {
            Err(_) => Err(MetaFault::NoMemory),
            Ok(MetaVerdict::Accepted { revision }) => Ok(revision),
            Ok(MetaVerdict::OldTerm { fence }) => Err(MetaFault::OldTerm { fence }),
            Ok(MetaVerdict::Conflict { found }) => Err(MetaFault::Conflict { found }),
            Ok(MetaVerdict::Limit) => Err(MetaFault::Limit),
        }
    }

    /// Announces a driver's term and hands out all records by rising key. `OldTerm` comes where a
    /// later term was announced, else `Limit` where there are 262,144 entries.
    pub fn lead(&mut self, driver: u8, term: u64) -> Result<Cells, MetaFault>
        ensures ok { OnOk result (self.new ≡ noted self.old driver (calls.Lead term)) }
        ensures accepted { OnOk result (IsTrue (is_accepted (verdict_of (reverse self.old) (calls.Lead term)))) }
        ensures value { IfOk result (λ cells. cells ≡ records_of (reverse self.old)) }
        ensures records { IfOk result (AreRecords (reverse self.old)) }
        ensures refused { IfErr result (Refused self.old self.new driver (calls.Lead term)) }
    {
        let entries = self.entries.len();
        let Ok(cells) = handed_out(self.alloc, &self.tables, entries, term) else {
            return Err(MetaFault::NoMemory);
        };
        match self.ask(driver, MetaCall::Lead { term }) {
            Ok(_) => Ok(cells),
            Err(fault) => Err(fault),
        }
    }

    /// Writes a key's bytes where its revision is the expected one, 0 for a key without a record,
    /// and answers the new revision. The first that applies is told: `OldTerm` where a later term
    /// was announced, `Conflict` with the key's revision, `Limit` where the key would be the
    /// 65,537th or there are 262,144 entries.
    pub fn put_if(
        &mut self,
        driver: u8,
        term: u64,
        key: &[u8],
        expected: u64,
        bytes: &[u8],
    ) -> Result<u64, MetaFault>
        ensures ok { OnOk result (self.new ≡ noted self.old driver (calls.Put term key.now expected bytes.now)) }
        ensures value { IfOk result (λ revision. verdict_of (reverse self.old) (calls.Put term key.now expected bytes.now) ≡ verdicts.Accepted revision) }
        ensures refused { IfErr result (Refused self.old self.new driver (calls.Put term key.now expected bytes.now)) }
    {
        let Ok(call) = put_call(self.alloc, term, key, expected, bytes) else {
            return Err(MetaFault::NoMemory);
        };
        self.ask(driver, call)
    }

    /// Deletes a key's record where its revision is the expected one, and answers the counter. The
    /// refusals are those of `put_if`, but that a key more is never one too many.
    pub fn delete_if(
        &mut self,
        driver: u8,
        term: u64,
        key: &[u8],
        expected: u64,
    ) -> Result<u64, MetaFault>
        ensures ok { OnOk result (self.new ≡ noted self.old driver (calls.Delete term key.now expected)) }
        ensures value { IfOk result (λ revision. verdict_of (reverse self.old) (calls.Delete term key.now expected) ≡ verdicts.Accepted revision) }
        ensures refused { IfErr result (Refused self.old self.new driver (calls.Delete term key.now expected)) }
    {
        let Ok(call) = delete_call(self.alloc, term, key, expected) else {
            return Err(MetaFault::NoMemory);
        };
        self.ask(driver, call)
    }

    /// A copy of a key's record; none where the key has none.
    pub fn get(&self, key: &[u8]) -> Result<Option<Cell>, NoMemory>
        ensures value { IfOk result (λ found. found ≡ record_of key.now (reverse self.now)) }
    {
        match self.tables.records.get(key) {
            Some(cell) => Ok(Some(cell.copy(self.alloc)?)),
            None => Ok(None),
        }
    }

    /// Copies of all records whose keys begin with the prefix, by rising key.
    pub fn list(&self, prefix: &[u8]) -> Result<Cells, NoMemory>
        ensures records { IfOk result (AreRecordsUnder prefix.now (reverse self.now)) }
    {
        self.tables.records.under(self.alloc, prefix)
    }

    /// All calls with their verdicts, in their order. Each verdict is the first that applies over
    /// the entries before it.
    pub fn journal(&self) -> &[MetaEntry]
        ensures value { result.now ≡ self.now }
        ensures legal { IsLegal (reverse self.now) }
    {
        &self.entries
    }

    /// The same by value.
    pub(crate) fn into_journal(self) -> MetaJournal
        ensures value { result ≡ self }
        ensures legal { IsLegal (reverse self) }
    {
        Seq::of(self.entries)
    }
}
