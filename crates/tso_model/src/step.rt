/// One atomic step on one word of the oracle.
#[derive(Clone, Copy, Debug, Drop, PartialEq, Eq)]
pub enum WordStep {
    /// A driver loads the cell.
    LoadCell,
    /// A driver claims the next term: a compare-exchange of the cell from what it last knew.
    ClaimTerm,
    /// A driver saves a later end of its window: a compare-exchange of the cell.
    SaveEnd { hi: u64 },
    /// A driver raises its own cursor to `at`: a fetch-max. By 0 it only reads.
    RaiseCursor { at: u64 },
    /// A driver stores the end and term of its held window as its limit.
    StoreLimit,
    /// A driver stores 0 as its limit and holds no term.
    ClearLimit,
    /// A client loads the limit of a driver.
    LoadLimit { driver: u8 },
    /// A client loads the cursor of that driver, and arms `n` where they fit.
    ArmCount { n: u64 },
    /// A client adds what it armed to that cursor.
    AddArmed,
}
