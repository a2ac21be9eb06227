// Words of the oracle as numbers, and what an actor has seen.
ghost use Rattle.std.specs.Prelude.{◌≡◌, ◌<◌, ◌^◌};
ghost use Rattle.pd_types.specs.declared.stamp.TheConstants.{LOGICAL};
ghost use Rattle.pd_types.specs.declared.oracle.TheConstants.{CLOCK_END};
ghost use Rattle.tso_model.specs.Moves.{greater};
ghost use Rattle.tso_model.specs.Words.{cell_of, packed};

use pd_types::{CellWord, LOGICAL, Seen};

/// The word of a time, in milliseconds, and a term.
pub fn packed(time: u64, term: u64) -> u64
    requires time { time < CLOCK_END }
    requires term { term < LOGICAL }
    ensures value { result ≡ packed time term }
{
    time * LOGICAL + term
}

/// The cell that a word holds.
pub fn cell_in(word: u64) -> CellWord
    ensures value { result ≡ cell_of word }
    ensures saved { word < 2 ^ 63 → result.saved < CLOCK_END }
    ensures term { result.term < LOGICAL }
{
    CellWord {
        saved: word / LOGICAL,
        term: word % LOGICAL,
    }
}

/// The greater of two pairs, by term and then by the last timestamp.
pub fn greater(one: Seen, other: Seen) -> Seen
    ensures value { result ≡ greater one other }
{
    if one.term < other.term {
        return other;
    }
    if other.term < one.term {
        return one;
    }
    if one.last < other.last { other } else { one }
}
