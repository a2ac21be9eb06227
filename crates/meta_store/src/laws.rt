// What the definitions come to.
ghost use Rattle.std.specs.Prelude.{◌≡◌, ◌≢◌, ◌+◌, ◌<◌, ◌≤◌, ℕ, Bool, true, false, List, [], ◌∷◌, ◌++◌, drop, length, map, Some, None, All};
ghost use Rattle.meta_store.specs.declared.fault.MetaFault.TheVariants as faults;
ghost use Rattle.meta_store.specs.declared.record.Cell.{Cell};
ghost use Rattle.meta_store.specs.declared.record.MetaCall.{MetaCall};
ghost use Rattle.meta_store.specs.declared.record.MetaCall.TheVariants as calls;
ghost use Rattle.meta_store.specs.declared.record.MetaEntry.{MetaEntry};
ghost use Rattle.meta_store.specs.declared.record.MetaVerdict.{MetaVerdict};
ghost use Rattle.meta_store.specs.declared.record.MetaVerdict.TheVariants as verdicts;
ghost use Rattle.meta_store.specs.Cells.{begins_with};
ghost use Rattle.meta_store.specs.Doors.{answer_of, said_of};
ghost use Rattle.meta_store.specs.Seats.{heard_by, heard_of, tale_of};
ghost use Rattle.meta_store.specs.Past.{AreRecords, IsExpected, Refused, announced, counter_of, entry_of, fence_of, is_accepted, is_full, is_of, is_write, lead_verdict, record_of, records_of, revision_of, term_of, verdict_of, write_verdict};

/// A key without a record is one too many where 65,536 have one; from 262,144 entries on no call is
/// accepted.
pub fn the_limits()
    ensures keys { (is_full None 65536 ≡ true) × (is_full None 65535 ≡ false) }
    ensures known { (cell : Cell) (keys : ℕ) → is_full (Some cell) keys ≡ false }
    ensures leads { (fence counter term : ℕ) → fence ≤ term →
        (lead_verdict fence counter 262144 term ≡ verdicts.Limit) ×
        (lead_verdict fence counter 262143 term ≡ verdicts.Accepted counter) }
    ensures writes { (fence counter found term : ℕ) → fence ≤ term →
        (write_verdict fence counter 262144 found false term found ≡ verdicts.Limit) ×
        (write_verdict fence counter 262143 found false term found ≡ verdicts.Accepted (counter + 1)) }
{}

/// What becomes of a call, by the entries before it: a lead and a write whose expected revision is
/// the key's are accepted where their term isn't below the fence and there is room.
pub fn a_call_with_room_is_accepted()
    ensures lead { (past : List MetaEntry) (term : ℕ) → fence_of past ≤ term → length past < 262144 →
        verdict_of past (calls.Lead term) ≡ verdicts.Accepted (counter_of past) }
    ensures new_key { (past : List MetaEntry) (term : ℕ) (key bytes : List ℕ) → fence_of past ≤ term → length past < 262144 →
        record_of key past ≡ None → length (records_of past) < 65536 →
        verdict_of past (calls.Put term key 0 bytes) ≡ verdicts.Accepted (counter_of past + 1) }
    ensures known_key { (past : List MetaEntry) (term : ℕ) (key bytes : List ℕ) (cell : Cell) → fence_of past ≤ term → length past < 262144 →
        record_of key past ≡ Some cell →
        verdict_of past (calls.Put term key cell.revision bytes) ≡ verdicts.Accepted (counter_of past + 1) }
    ensures deletion { (past : List MetaEntry) (term : ℕ) (key : List ℕ) → fence_of past ≤ term → length past < 262144 →
        verdict_of past (calls.Delete term key (revision_of key past)) ≡ verdicts.Accepted (counter_of past + 1) }
{}

/// What a call is refused for, by the entries before it, the first that applies.
pub fn a_call_is_refused_by_what_stands_before_it()
    ensures old_term { (past : List MetaEntry) (call : MetaCall) → term_of call < fence_of past →
        verdict_of past call ≡ verdicts.OldTerm (fence_of past) }
    ensures put_conflict { (past : List MetaEntry) (term expected : ℕ) (key bytes : List ℕ) → fence_of past ≤ term →
        expected ≢ revision_of key past →
        verdict_of past (calls.Put term key expected bytes) ≡ verdicts.Conflict (revision_of key past) }
    ensures delete_conflict { (past : List MetaEntry) (term expected : ℕ) (key : List ℕ) → fence_of past ≤ term →
        expected ≢ revision_of key past →
        verdict_of past (calls.Delete term key expected) ≡ verdicts.Conflict (revision_of key past) }
    ensures new_key { (past : List MetaEntry) (term : ℕ) (key bytes : List ℕ) → fence_of past ≤ term →
        record_of key past ≡ None → 65536 ≤ length (records_of past) →
        verdict_of past (calls.Put term key 0 bytes) ≡ verdicts.Limit }
    ensures entries { (past : List MetaEntry) (call : MetaCall) → fence_of past ≤ term_of call → 262144 ≤ length past →
        IsExpected past call → verdict_of past call ≡ verdicts.Limit }
{}

/// Each accepted write counts one, a deletion too; no other call counts.
pub fn accepted_writes_are_counted()
    ensures none { counter_of [] ≡ 0 }
    ensures put { (past : List MetaEntry) (driver term expected revision : ℕ) (key bytes : List ℕ) →
        counter_of (entry_of driver (calls.Put term key expected bytes) (verdicts.Accepted revision) ∷ past) ≡ counter_of past + 1 }
    ensures deleted { (past : List MetaEntry) (driver term expected revision : ℕ) (key : List ℕ) →
        counter_of (entry_of driver (calls.Delete term key expected) (verdicts.Accepted revision) ∷ past) ≡ counter_of past + 1 }
    ensures lead { (past : List MetaEntry) (driver term : ℕ) (verdict : MetaVerdict) →
        counter_of (entry_of driver (calls.Lead term) verdict ∷ past) ≡ counter_of past }
    ensures refused { (past : List MetaEntry) (entry : MetaEntry) → is_accepted entry.verdict ≡ false →
        counter_of (entry ∷ past) ≡ counter_of past }
{}

/// A call is accepted by the verdict of that name alone.
pub fn one_verdict_accepts()
    ensures accepted { (revision : ℕ) → is_accepted (verdicts.Accepted revision) ≡ true }
    ensures old_term { (fence : ℕ) → is_accepted (verdicts.OldTerm fence) ≡ false }
    ensures conflict { (found : ℕ) → is_accepted (verdicts.Conflict found) ≡ false }
    ensures limit { is_accepted verdicts.Limit ≡ false }
{}

/// Each call but one without memory is one entry more, refused or not, with the verdict that the
/// fault tells.
pub fn each_refused_call_is_an_entry()
    ensures old_term { (old new : List MetaEntry) (driver fence : ℕ) (call : MetaCall) → Refused old new driver call (faults.OldTerm fence) →
        new ≡ old ++ entry_of driver call (verdicts.OldTerm fence) ∷ [] }
    ensures conflict { (old new : List MetaEntry) (driver found : ℕ) (call : MetaCall) → Refused old new driver call (faults.Conflict found) →
        new ≡ old ++ entry_of driver call (verdicts.Conflict found) ∷ [] }
    ensures limit { (old new : List MetaEntry) (driver : ℕ) (call : MetaCall) → Refused old new driver call faults.Limit →
        new ≡ old ++ entry_of driver call verdicts.Limit ∷ [] }
    ensures memory { (old new : List MetaEntry) (driver : ℕ) (call : MetaCall) → Refused old new driver call faults.NoMemory →
        new ≡ old }
{}

/// What drivers heard has one answer for each entry, in the order of the calls: the verdict, but an
/// accepted lead tells no revision and hands out all records.
pub fn each_call_is_said_with_its_answer()
    ensures lead { (past : List MetaEntry) (driver term revision : ℕ) →
        said_of (entry_of driver (calls.Lead term) (verdicts.Accepted revision) ∷ past)
        ≡ said_of past ++ answer_of (calls.Lead term) (verdicts.Accepted 0) (records_of past) ∷ [] }
    ensures put { (past : List MetaEntry) (driver term expected revision : ℕ) (key bytes : List ℕ) →
        said_of (entry_of driver (calls.Put term key expected bytes) (verdicts.Accepted revision) ∷ past)
        ≡ said_of past ++ answer_of (calls.Put term key expected bytes) (verdicts.Accepted revision) [] ∷ [] }
    ensures deleted { (past : List MetaEntry) (driver term expected revision : ℕ) (key : List ℕ) →
        said_of (entry_of driver (calls.Delete term key expected) (verdicts.Accepted revision) ∷ past)
        ≡ said_of past ++ answer_of (calls.Delete term key expected) (verdicts.Accepted revision) [] ∷ [] }
    ensures refused { (past : List MetaEntry) (driver : ℕ) (call : MetaCall) (verdict : MetaVerdict) → is_accepted verdict ≡ false →
        said_of (entry_of driver call verdict ∷ past) ≡ said_of past ++ answer_of call verdict [] ∷ [] }
{}

/// Of a write the first fault is told: an old term before a conflict, a conflict before a limit.
pub fn the_first_fault_is_told()
    ensures old_term { (fence counter entries found term expected : ℕ) (full : Bool) → term < fence →
        write_verdict fence counter entries found full term expected ≡ verdicts.OldTerm fence }
    ensures conflict { (fence counter entries found term expected : ℕ) (full : Bool) → fence ≤ term →
        expected ≢ found →
        write_verdict fence counter entries found full term expected ≡ verdicts.Conflict found }
    ensures limit { (fence counter entries found term : ℕ) → fence ≤ term →
        write_verdict fence counter entries found true term found ≡ verdicts.Limit }
{}

/// A key's record is what its last accepted write left: a put its bytes and one write more, a
/// deletion none. Refused calls, leads and writes of other keys leave it.
pub fn the_last_write_of_a_key_counts()
    ensures put { (past : List MetaEntry) (driver term expected revision : ℕ) (key bytes : List ℕ) →
        record_of key (entry_of driver (calls.Put term key expected bytes) (verdicts.Accepted revision) ∷ past)
        ≡ Some (record { key = key; revision = counter_of past + 1; bytes = bytes }) }
    ensures deleted { (past : List MetaEntry) (driver term expected revision : ℕ) (key : List ℕ) →
        record_of key (entry_of driver (calls.Delete term key expected) (verdicts.Accepted revision) ∷ past) ≡ None }
    ensures refused { (past : List MetaEntry) (entry : MetaEntry) (key : List ℕ) →
        is_accepted entry.verdict ≡ false → record_of key (entry ∷ past) ≡ record_of key past }
    ensures others { (past : List MetaEntry) (entry : MetaEntry) (key : List ℕ) →
        is_of key entry.call ≡ false → record_of key (entry ∷ past) ≡ record_of key past }
{}

/// What an accepted lead hands out are exactly the records that looking back finds, each key once.
pub fn all_records_are_handed_out()
    ensures records { (past : List MetaEntry) → AreRecords past (records_of past) }
{}

/// A key begins with a prefix exactly where the prefix stands first in it.
pub fn a_prefix_stands_first()
    ensures begins { (prefix rest : List ℕ) → begins_with prefix (prefix ++ rest) ≡ true }
    ensures only { (prefix key : List ℕ) → begins_with prefix key ≡ true → key ≡ prefix ++ drop (length prefix) key }
{}

/// The fence is the greatest term of the accepted leads, and 0 without one.
pub fn the_fence_is_the_greatest_accepted_term()
    ensures none { fence_of [] ≡ 0 }
    ensures upper { (past : List MetaEntry) (entry : MetaEntry) → fence_of past ≤ fence_of (entry ∷ past) }
    ensures lead { (past : List MetaEntry) (driver term revision : ℕ) → fence_of past ≤ term →
        fence_of (entry_of driver (calls.Lead term) (verdicts.Accepted revision) ∷ past) ≡ term }
    ensures own { (past : List MetaEntry) (entry : MetaEntry) → is_accepted entry.verdict ≡ true → announced entry.call ≤ fence_of (entry ∷ past) }
    ensures writes { (past : List MetaEntry) (entry : MetaEntry) → is_write entry.call ≡ true → fence_of (entry ∷ past) ≡ fence_of past }
    ensures refused { (past : List MetaEntry) (entry : MetaEntry) → is_accepted entry.verdict ≡ false → fence_of (entry ∷ past) ≡ fence_of past }
{}

/// What the drivers heard of a journal, one after another, is what was said; a driver hears its own calls,
/// each with its answer, in their order, and of no other driver's.
pub fn a_driver_hears_of_its_own_calls()
    ensures all { (past : List MetaEntry) → map (λ heard. heard.1) (tale_of past) ≡ said_of past }
    ensures nothing { (driver : ℕ) → heard_by driver [] ≡ [] }
    ensures own { (past : List MetaEntry) (entry : MetaEntry) →
        heard_by entry.driver (entry ∷ past) ≡ heard_by entry.driver past ++ heard_of past entry ∷ [] }
    ensures other { (past : List MetaEntry) (entry : MetaEntry) (driver : ℕ) → entry.driver ≢ driver →
        heard_by driver (entry ∷ past) ≡ heard_by driver past }
{}
