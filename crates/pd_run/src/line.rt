// The lines that drivers and stores answer.
use pd_types::Request;
use tso_run::{ClientLine, DriverAsk};

/// What a driver is asked: something of the oracle, or a request to its cluster.
#[derive(Debug, Drop, PartialEq)]
pub enum DriverTask {
    Oracle(DriverAsk),
    Cluster(Request),
}

/// A line that a driver answers, with its number in the script.
#[derive(Debug, Drop, PartialEq)]
pub struct DriverLine {
    pub number: u32,
    pub task: DriverTask,
}

/// What a store is asked: to send a request to a driver's cluster, or to take the oldest step that the
/// cluster sent to it.
#[derive(Debug, Drop, PartialEq)]
pub enum StoreTask {
    Ask(Request),
    Pop,
}

/// A line that a store answers, with its number in the script and the driver whose cluster it goes to.
#[derive(Debug, Drop, PartialEq)]
pub struct StoreLine {
    pub number: u32,
    pub driver: u8,
    pub task: StoreTask,
}

/// A store that acts, with its lines in the order of the script.
#[derive(Debug, Drop, PartialEq)]
pub struct StoreLines {
    pub store: u64,
    pub lines: Vec<StoreLine>,
}

/// The lines of all actors: those of each driver, from the first one on; those of all clients; and those
/// of each store that acts, by rising ids.
#[derive(Debug, Drop, PartialEq)]
pub struct Tasks {
    pub drivers: Vec<Vec<DriverLine>>,
    pub clients: Vec<ClientLine>,
    pub stores: Vec<StoreLines>,
}
