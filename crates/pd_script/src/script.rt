use crate::Line;
use pd_types::Seq;

/// How a script is to be run.
#[derive(Clone, Copy, Debug, PartialEq, Eq)]
pub enum Mode {
    /// Line after line.
    Replay,
    /// Each actor's lines on a thread of its own.
    Run,
}

/// The lines of a script, without those that are passed over.
pub type Lines = Seq<Line>;

/// A script with the greatest numbers of drivers and clients that it names, at least 1.
#[derive(Debug, Drop)]
pub struct Script {
    pub drivers: u8,
    pub clients: u8,
    pub lines: Lines,
}
