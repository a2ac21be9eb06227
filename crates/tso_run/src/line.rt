// The lines that drivers and clients answer.

/// What a driver is asked, at a moment in milliseconds.
#[derive(Clone, Copy, Debug, Drop, PartialEq, Eq)]
pub enum DriverAsk {
    Lead { now: u64 },
    Tick { now: u64 },
    Resign,
}

/// What a client is asked: to draw `n` timestamps at a driver, to leave a note for a client, or to hear
/// the oldest note that was left for it.
#[derive(Clone, Copy, Debug, Drop, PartialEq, Eq)]
pub enum ClientAsk {
    Take { driver: u8, n: u64 },
    Tell { to: u8 },
    Hear,
}

/// A line that a client answers, with its number in the script.
#[derive(Clone, Copy, Debug, Drop, PartialEq, Eq)]
pub struct ClientLine {
    pub number: u32,
    pub client: u8,
    pub ask: ClientAsk,
}
