// The metadata, as a driver asks it.
ghost use Rattle.std.specs.Prelude.{◌≡◌, ◌++◌, ◌∷◌, [], List, Option, Some, None, reverse, IfOk, IfErr, OnOk};
ghost use Rattle.meta_store.specs.declared.record.MetaAnswer.{MetaAnswer};
ghost use Rattle.meta_store.specs.declared.record.MetaCall.TheVariants as calls;
ghost use Rattle.meta_store.specs.declared.record.MetaEntry.{MetaEntry};
ghost use Rattle.meta_store.specs.declared.record.MetaVerdict.TheVariants as verdicts;
ghost use Rattle.meta_store.specs.Cells.{AreRising};
ghost use Rattle.meta_store.specs.Doors.{Place, Serves, answer_of, place_of, said_of, said_refused, told_more, told_refused};

use crate::{Cells, Meta, MetaFault};

/// What drivers ask of the metadata. Each call is said with its answer, but for want of memory,
/// which changes nothing.
pub trait Door {
    ghost use Rattle.std.specs.Prelude.{◌≡◌, ◌++◌, ◌∷◌, [], List, Option, IfOk, IfErr, OnOk};
    ghost use Rattle.meta_store.specs.declared.record.MetaAnswer.{MetaAnswer};
    ghost use Rattle.meta_store.specs.declared.record.MetaCall.TheVariants as calls;
    ghost use Rattle.meta_store.specs.declared.record.MetaEntry.{MetaEntry};
    ghost use Rattle.meta_store.specs.declared.record.MetaVerdict.TheVariants as verdicts;
    ghost use Rattle.meta_store.specs.Cells.{AreRising};
    ghost use Rattle.meta_store.specs.Doors.{Place, Serves, answer_of, said_refused, told_more, told_refused};

    /// Its calls, with their answers.
    ghost said: { Self → List MetaAnswer };

    /// The journal of all calls, where the door tells it.
    ghost told: { Self → Option (List MetaEntry) };

    /// What no call changes: whom it serves, and what it was lent.
    ghost place: { Self → Place };

    /// Announces a driver's term and hands out all records by rising key.
    fn lead(&mut self, driver: u8, term: u64) -> Result<Cells, MetaFault>
        requires { Serves (place self.old) driver }
        ensures ok { IfOk result (λ cells. said self.new ≡ said self.old ++ answer_of (calls.Lead term) (verdicts.Accepted 0) cells ∷ []) }
        ensures rising { IfOk result AreRising }
        ensures told { OnOk result (told self.new ≡ told_more (told self.old) driver (calls.Lead term)) }
        ensures refused { IfErr result (λ fault. said self.new ≡ said_refused fault (calls.Lead term) (said self.old)) }
        ensures err { IfErr result (λ fault. told self.new ≡ told_refused fault driver (calls.Lead term) (told self.old)) }
        ensures place { place self.new ≡ place self.old };

    /// Writes a key's bytes where its revision is the expected one, 0 for a key without a record,
    /// and answers the new revision.
    fn put_if(
        &mut self,
        driver: u8,
        term: u64,
        key: &[u8],
        expected: u64,
        bytes: &[u8],
    ) -> Result<u64, MetaFault>
        requires { Serves (place self.old) driver }
        ensures ok { IfOk result (λ revision. said self.new ≡ said self.old ++ answer_of (calls.Put term key.now expected bytes.now) (verdicts.Accepted revision) [] ∷ []) }
        ensures told { OnOk result (told self.new ≡ told_more (told self.old) driver (calls.Put term key.now expected bytes.now)) }
        ensures refused { IfErr result (λ fault. said self.new ≡ said_refused fault (calls.Put term key.now expected bytes.now) (said self.old)) }
        ensures err { IfErr result (λ fault. told self.new ≡ told_refused fault driver (calls.Put term key.now expected bytes.now) (told self.old)) }
        ensures place { place self.new ≡ place self.old };

    /// Deletes a key's record where its revision is the expected one, and answers the counter.
    fn delete_if(
        &mut self,
        driver: u8,
        term: u64,
        key: &[u8],
        expected: u64,
    ) -> Result<u64, MetaFault>
        requires { Serves (place self.old) driver }
        ensures ok { IfOk result (λ revision. said self.new ≡ said self.old ++ answer_of (calls.Delete term key.now expected) (verdicts.Accepted revision) [] ∷ []) }
        ensures told { OnOk result (told self.new ≡ told_more (told self.old) driver (calls.Delete term key.now expected)) }
        ensures refused { IfErr result (λ fault. said self.new ≡ said_refused fault (calls.Delete term key.now expected) (said self.old)) }
        ensures err { IfErr result (λ fault. told self.new ≡ told_refused fault driver (calls.Delete term key.now expected) (told self.old)) }
        ensures place { place self.new ≡ place self.old };
}

/// It serves all drivers, and what it said is read off its journal.
impl Door for Meta {
    ghost use Rattle.std.specs.Prelude.{Some, None, reverse};
    ghost use Rattle.meta_store.specs.Doors.{place_of, said_of};

    ghost said = { λ m. said_of (reverse m) };

    ghost told = { λ m. Some m };

    ghost place = { λ _. place_of None None 0 };

    fn lead(&mut self, driver: u8, term: u64) -> Result<Cells, MetaFault> {
        Meta::lead(self, driver, term)
    }

    fn put_if(
        &mut self,
        driver: u8,
        term: u64,
        key: &[u8],
        expected: u64,
        bytes: &[u8],
    ) -> Result<u64, MetaFault> {
        Meta::put_if(self, driver, term, key, expected, bytes)
    }

    fn delete_if(
        &mut self,
        driver: u8,
        term: u64,
        key: &[u8],
        expected: u64,
    ) -> Result<u64, MetaFault> {
        Meta::delete_if(self, driver, term, key, expected)
    }
}
