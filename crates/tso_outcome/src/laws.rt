// What a run leaves is lawful and safe, by what its calls tell alone.
ghost use Rattle.tso_outcome.specs.Ends.{IsFinished};
ghost use Rattle.tso_outcome.specs.Lawful.{IsLawful};
ghost use Rattle.tso_outcome.specs.Runs.{Run};
ghost use Rattle.tso_outcome.specs.Safe.{IsSafeRun};

/// Where each driver and each client made its calls one after the other, and the ledger and the
/// journal of the post are theirs, the run is lawful.
pub fn each_run_is_lawful()
    ensures lawful { (run : Run) → IsFinished run → IsLawful run }
{}

/// A lawful run grants no timestamp twice: its batches are one history, each above all that its
/// client had seen.
pub fn each_lawful_run_is_safe()
    ensures safe { (run : Run) → IsLawful run → IsSafeRun run }
{}
