// What clients and drivers were asked on their lines, and what they answered.
use pd_types::{Batch, Seen};
use tso_client::DrawFault;
use tso_driver::DriverSaid;

/// A client's line with its answer: a draw of `n` at a driver, a note left for a client, or a note
/// heard, if any was left.
#[derive(Clone, Copy, Debug, Drop, PartialEq, Eq)]
pub enum ClientSaid {
    Took {
        driver: u8,
        n: u64,
        answer: Result<Batch, DrawFault>,
    },
    Told {
        to: u8,
    },
    Heard {
        note: Option<Seen>,
    },
}

/// A driver's answer with the number of its line.
#[derive(Clone, Copy, Debug, Drop, PartialEq, Eq)]
pub struct DriverAnswer {
    pub line: u32,
    pub said: DriverSaid,
}

/// A client's answer with the number of its line.
#[derive(Clone, Copy, Debug, Drop, PartialEq, Eq)]
pub struct ClientAnswer {
    pub line: u32,
    pub said: ClientSaid,
}
