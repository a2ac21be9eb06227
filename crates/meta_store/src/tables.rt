// The tables behind the journal, which answer without looking back.
ghost use Rattle.std.specs.Prelude.{◌≡◌, ◌≤◌, ◌&&◌, not, nat_le, length, is_some, false, true, IfOk, OnOk, OnErr};
ghost use Rattle.meta_store.specs.Cells.{cell_at, revision_in};
ghost use Rattle.meta_store.specs.Past.{is_full, lead_verdict, write_verdict};
ghost use Rattle.meta_store.specs.Steps.{stepped, verdict_by};

use crate::records::Records;
use crate::{Cell, MetaCall, MetaVerdict};
use pd_types::{Duplicate, NoMemory};
use std::alloc::Global;

/// At most this many keys have a record.
pub const MOST_KEYS: usize = 65536;

/// From this many entries on, no call is accepted.
pub const MOST_ENTRIES: usize = 262144;

/// The records, how many writes were accepted, and the greatest term that was announced.
#[derive(Drop)]
pub struct Tables {
    pub records: Records,
    pub counter: u64,
    pub fence: u64,
}

// The verdict on a lead.
fn lead_verdict(tables: &Tables, entries: usize, term: u64) -> MetaVerdict
    ensures value { result ≡ lead_verdict tables.now.fence tables.now.counter entries term }
{
    let fence = tables.fence;
    if term < fence {
        return MetaVerdict::OldTerm { fence };
    }
    if entries >= MOST_ENTRIES {
        return MetaVerdict::Limit;
    }
    MetaVerdict::Accepted {
        revision: tables.counter,
    }
}

// What a write is guarded by, and whether its key would be one too many.
#[derive(Clone, Copy)]
struct Guard {
    term: u64,
    expected: u64,
    full: bool,
}

// The revision of a key.
fn revision(tables: &Tables, key: &[u8]) -> u64
    ensures value { result ≡ revision_in (cell_at key.now tables.now.records) }
{
    match tables.records.get(key) {
        Some(cell) => cell.revision,
        None => 0,
    }
}

// Whether a key would be one too many.
fn is_full(tables: &Tables, key: &[u8]) -> bool
    ensures value { result ≡ is_full (cell_at key.now tables.now.records) (length tables.now.records) }
{
    tables.records.get(key).is_none() && tables.records.len() >= MOST_KEYS
}

// The verdict on a write.
fn write_verdict(tables: &Tables, entries: usize, key: &[u8], guard: Guard) -> MetaVerdict
    requires { tables.now.counter ≤ entries }
    ensures value { result ≡ write_verdict tables.now.fence tables.now.counter entries (revision_in (cell_at key.now tables.now.records)) guard.full guard.term guard.expected }
{
    let fence = tables.fence;
    if guard.term < fence {
        return MetaVerdict::OldTerm { fence };
    }
    let found = revision(tables, key);
    if guard.expected != found {
        return MetaVerdict::Conflict { found };
    }
    if guard.full || entries >= MOST_ENTRIES {
        return MetaVerdict::Limit;
    }
    MetaVerdict::Accepted {
        revision: tables.counter + 1,
    }
}

/// The verdict on a call, after so many entries.
pub fn judge(tables: &Tables, entries: usize, call: &MetaCall) -> MetaVerdict
    requires { tables.now.counter ≤ entries }
    ensures value { result ≡ verdict_by tables.now entries call.now }
{
    match call {
        MetaCall::Lead { term } => lead_verdict(tables, entries, *term),
        MetaCall::Put {
            term,
            key,
            expected,
            ..
        } => {
            let (term, expected) = (*term, *expected);
            let full = is_full(tables, key.as_slice());
            let guard = Guard {
                term,
                expected,
                full,
            };
            write_verdict(tables, entries, key.as_slice(), guard)
        }
        MetaCall::Delete {
            term,
            key,
            expected,
        } => {
            let guard = Guard {
                term: *term,
                expected: *expected,
                full: false,
            };
            write_verdict(tables, entries, key.as_slice(), guard)
        }
    }
}

/// Changes the tables as a call with this verdict does. Want of memory leaves them.
pub fn apply(
    alloc: Global,
    tables: &mut Tables,
    call: &MetaCall,
    verdict: MetaVerdict,
) -> Result<(), NoMemory>
    ensures ok { OnOk result (tables.new ≡ stepped tables.old call.now verdict) }
    ensures err { OnErr result (tables.new ≡ tables.old) }
{
    let MetaVerdict::Accepted { revision } = verdict else {
        return Ok(());
    };
    match call {
        MetaCall::Lead { term } => tables.fence = *term,
        MetaCall::Put { key, bytes, .. } => {
            let key = key.copy(alloc)?;
            let bytes = bytes.copy(alloc)?;
            let cell = Cell {
                key,
                revision,
                bytes,
            };
            tables.records.put(alloc, cell)?;
            tables.counter = revision;
        }
        MetaCall::Delete { key, .. } => {
            tables.records.remove(key.as_slice());
            tables.counter = revision;
        }
    }
    Ok(())
}
