ghost use Rattle.std.specs.Prelude.{◌≡◌};
ghost use Rattle.pd_script.specs.Numbering.{reason_number};
ghost use Rattle.pd_script.specs.Refusals.{at_line};
ghost use Rattle.pd_script.specs.declared.refusal.LineRefusal.TheVariants.{Fault, NoMemory as NoRoom};

use pd_types::NoMemory;
use std::alloc::AllocError;
use thiserror::Error;

/// Why a line is at fault. The variants are numbered from 1 in this order.
#[derive(Clone, Copy, Debug, PartialEq, Eq, Error)]
pub enum Reason {
    #[error("the last line has no line feed")]
    NoNewline,
    #[error("the line has a byte outside 0x20 to 0x7E")]
    BadByte,
    #[error("the first word is unknown")]
    UnknownWord,
    #[error("a word is missing")]
    MissingWord,
    #[error("there is a word too many")]
    ExtraWord,
    #[error("a number's place has no number")]
    BadNumber,
    #[error("a number is outside its range")]
    OutOfRange,
    #[error("a word is outside the form of its place")]
    BadWord,
    #[error("the line may not stand here")]
    Misplaced,
}

/// What a script has too much of.
#[derive(Clone, Copy, Debug, PartialEq, Eq)]
pub enum Limited {
    Events,
    Drivers,
    Clients,
    Stores,
    /// Lines `ctl` and `patrol`.
    Reports,
    /// Lines `lead` and `publish`.
    Leads,
}

/// Why a text is no script.
#[derive(Clone, Copy, Debug, PartialEq, Eq, Error)]
pub enum ScriptRefusal {
    /// The first line at fault, counted from 1.
    #[error("line {line} is at fault")]
    Fault { line: u32, reason: Reason },
    /// The first limit that is broken, and the number that was counted.
    #[error("a limit is broken")]
    Limit { what: Limited, count: u64 },
    #[error("out of memory")]
    NoMemory,
}

impl Reason {
    /// The number that is printed.
    pub fn number(self) -> u8
        ensures value { result ≡ reason_number self }
    {
        match self {
            Reason::NoNewline => 1,
            Reason::BadByte => 2,
            Reason::UnknownWord => 3,
            Reason::MissingWord => 4,
            Reason::ExtraWord => 5,
            Reason::BadNumber => 6,
            Reason::OutOfRange => 7,
            Reason::BadWord => 8,
            Reason::Misplaced => 9,
        }
    }
}

/// Why a line isn't kept.
#[derive(Clone, Copy, Debug, PartialEq, Eq)]
pub enum LineRefusal {
    /// It is at fault.
    Fault(Reason),
    NoMemory,
}

impl From<Reason> for LineRefusal {
    ghost from_gives = { λ reason refusal. refusal ≡ Fault reason };

    fn from(reason: Reason) -> Self {
        LineRefusal::Fault(reason)
    }
}

impl From<NoMemory> for LineRefusal {
    ghost from_gives = { λ _ refusal. refusal ≡ NoRoom };

    fn from(_: NoMemory) -> Self {
        LineRefusal::NoMemory
    }
}

impl From<AllocError> for LineRefusal {
    ghost from_gives = { λ _ refusal. refusal ≡ NoRoom };

    fn from(_: AllocError) -> Self {
        LineRefusal::NoMemory
    }
}

impl LineRefusal {
    /// The refusal of a text whose line of this number is refused so.
    pub fn at(self, line: u32) -> ScriptRefusal
        ensures value { result ≡ at_line line self }
    {
        match self {
            LineRefusal::Fault(reason) => ScriptRefusal::Fault { line, reason },
            LineRefusal::NoMemory => ScriptRefusal::NoMemory,
        }
    }
}
