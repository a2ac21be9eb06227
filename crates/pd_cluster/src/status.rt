ghost use Rattle.std.specs.Prelude.{◌≡◌};

/// How a run of the program ends.
#[derive(Clone, Copy, Debug, PartialEq, Eq)]
pub enum Status {
    /// The input was read to its end, and the whole outcome was written.
    Done,
    /// The words of the command line are no command.
    Usage,
    /// A line of the script is at fault.
    Refused,
    /// The source failed.
    ReadFault,
    /// The sink failed; what was written is a prefix.
    WriteFault,
    /// Want of memory; what was written is a prefix.
    NoMemory,
    /// The script is past a limit.
    Limit,
}

impl Status {
    ghost use Rattle.pd_cluster.specs.Number.{status_number};

    /// The exit status of the process.
    pub fn number(self) -> u8
        ensures value { result ≡ status_number self }
    {
        self as u8
    }
}
