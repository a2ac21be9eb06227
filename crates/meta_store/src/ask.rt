// Calls of a door, as answers.
ghost use Rattle.std.specs.Prelude.{◌≡◌, ◌++◌, ◌∷◌, ℕ, List, Option, [], IfOk, OnOk, OnErr};
ghost use Rattle.meta_store.specs.declared.fault.MetaFault.TheVariants as faults;
ghost use Rattle.meta_store.specs.declared.record.MetaAnswer.{MetaAnswer};
ghost use Rattle.meta_store.specs.declared.record.MetaCall.TheVariants as calls;
ghost use Rattle.meta_store.specs.declared.record.MetaEntry.{MetaEntry};
ghost use Rattle.meta_store.specs.Asked.{Asks};
ghost use Rattle.meta_store.specs.Cells.{AreRising};
ghost use Rattle.meta_store.specs.Doors.{Serves, said_refused, told_more, told_refused};

use crate::{Cells, Door, MetaAnswer, MetaCall, MetaFault, MetaVerdict};
use pd_types::{Bytes, NoMemory};
use std::alloc::Global;

// The answer of a refused call.
fn refused(alloc: Global, call: MetaCall, fault: MetaFault) -> Result<MetaAnswer, NoMemory>
    ensures call { IfOk result (λ answer. answer.call ≡ call) }
    ensures cells { IfOk result (λ answer. answer.cells ≡ []) }
    ensures said { IfOk result (λ answer. (said : List MetaAnswer) → said_refused fault call said ≡ said ++ answer ∷ []) }
    ensures told { OnOk result ((told : Option (List MetaEntry)) (driver : ℕ) → told_refused fault driver call told ≡ told_more told driver call) }
    ensures err { OnErr result (fault ≡ faults.NoMemory) }
{
    let verdict = match fault {
        MetaFault::OldTerm { fence } => MetaVerdict::OldTerm { fence },
        MetaFault::Conflict { found } => MetaVerdict::Conflict { found },
        MetaFault::Limit => MetaVerdict::Limit,
        MetaFault::NoMemory => return Err(NoMemory),
    };
    Ok(MetaAnswer {
        call,
        verdict,
        cells: Cells::new(alloc),
    })
}

/// Announces a driver's term. The answer is what the door said; want of memory leaves what it said
/// and told.
pub fn ask_lead<M: Door>(
    alloc: Global,
    door: &mut M,
    driver: u8,
    term: u64,
) -> Result<MetaAnswer, NoMemory>
    requires { Serves (M.place door.old) driver }
    ensures ok { IfOk result (Asks (M.said door.old) (M.said door.new) (M.told door.old) (M.told door.new) driver (calls.Lead term)) }
    ensures rising { IfOk result (λ answer. AreRising answer.cells) }
    ensures said { OnErr result (M.said door.new ≡ M.said door.old) }
    ensures told { OnErr result (M.told door.new ≡ M.told door.old) }
    ensures place { M.place door.new ≡ M.place door.old }
{
    let call = MetaCall::Lead { term };
    match door.lead(driver, term) {
        Ok(cells) => Ok(MetaAnswer {
            call,
            verdict: MetaVerdict::Accepted { revision: 0 },
            cells,
        }),
        Err(fault) => refused(alloc, call, fault),
    }
}

/// Writes a key's bytes where its revision is the expected one. The answer is what the door said;
/// want of memory leaves what it said and told.
pub fn ask_put<M: Door>(
    alloc: Global,
    door: &mut M,
    driver: u8,
    term: u64,
    key: Bytes,
    expected: u64,
    bytes: Bytes,
) -> Result<MetaAnswer, NoMemory>
    requires { Serves (M.place door.old) driver }
    ensures ok { IfOk result (Asks (M.said door.old) (M.said door.new) (M.told door.old) (M.told door.new) driver (calls.Put term key expected bytes)) }
    ensures cells { IfOk result (λ answer. answer.cells ≡ []) }
    ensures said { OnErr result (M.said door.new ≡ M.said door.old) }
    ensures told { OnErr result (M.told door.new ≡ M.told door.old) }
    ensures place { M.place door.new ≡ M.place door.old }
{
    let done = door.put_if(driver, term, key.as_slice(), expected, bytes.as_slice());
    let call = MetaCall::Put {
        term,
        key,
        expected,
        bytes,
    };
    match done {
        Ok(revision) => Ok(MetaAnswer {
            call,
            verdict: MetaVerdict::Accepted { revision },
            cells: Cells::new(alloc),
        }),
        Err(fault) => refused(alloc, call, fault),
    }
}

/// Deletes a key's record where its revision is the expected one. The answer is what the door said;
/// want of memory leaves what it said and told.
pub fn ask_delete<M: Door>(
    alloc: Global,
    door: &mut M,
    driver: u8,
    term: u64,
    key: Bytes,
    expected: u64,
) -> Result<MetaAnswer, NoMemory>
    requires { Serves (M.place door.old) driver }
    ensures ok { IfOk result (Asks (M.said door.old) (M.said door.new) (M.told door.old) (M.told door.new) driver (calls.Delete term key expected)) }
    ensures cells { IfOk result (λ answer. answer.cells ≡ []) }
    ensures said { OnErr result (M.said door.new ≡ M.said door.old) }
    ensures told { OnErr result (M.told door.new ≡ M.told door.old) }
    ensures place { M.place door.new ≡ M.place door.old }
{
    let done = door.delete_if(driver, term, key.as_slice(), expected);
    let call = MetaCall::Delete {
        term,
        key,
        expected,
    };
    match done {
        Ok(revision) => Ok(MetaAnswer {
            call,
            verdict: MetaVerdict::Accepted { revision },
            cells: Cells::new(alloc),
        }),
        Err(fault) => refused(alloc, call, fault),
    }
}
