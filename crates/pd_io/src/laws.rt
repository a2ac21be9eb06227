// What the definitions give, by themselves.
ghost use Rattle.std.specs.Prelude.{◌≡◌, ◌<◌, ◌≤◌, ◌+◌, ◌-◌, ◌^◌, Err, ℕ};
ghost use Rattle.pd_io.specs.Faults.{HasReadCause, HasWriteCause, Rose};
ghost use Rattle.pd_io.specs.Memory.{next_call};
ghost use Rattle.pd_io.specs.declared.traits.Failed.{Failed};
ghost use Rattle.pd_io.specs.declared.traits.PutFault.TheVariants as faults;

/// A count that rose is above what it was, but for one that stands at the greatest number of its
/// type; and a count that is above what it was has risen.
pub fn a_count_that_rose_is_above()
    ensures above { (before now : ℕ) → Rose before now → before < 2 ^ 64 - 1 → before < now }
    ensures rose { (before now : ℕ) → before < now → Rose before now }
{}

/// A read that failed is counted, and so is a write that failed other than for memory: the count
/// of faults is above what it was before, but for one at the greatest number of its type.
pub fn each_failure_is_counted()
    ensures read { (before now : ℕ) → (fault : Failed) → HasReadCause {T = ℕ} before now (Err fault) → before < 2 ^ 64 - 1 → before < now }
    ensures write { (before now : ℕ) → HasWriteCause {T = ℕ} before now (Err faults.Failed) → before < 2 ^ 64 - 1 → before < now }
{}

/// The first call of a fake has the number 1, and each later one the number after the one before,
/// up to the greatest number of its type.
pub fn calls_are_counted_from_one()
    ensures first { next_call 0 ≡ 1 }
    ensures next { (calls : ℕ) → calls < 2 ^ 32 - 1 → next_call calls ≡ calls + 1 }
{}
