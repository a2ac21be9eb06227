ghost use Rattle.std.specs.Prelude.{◌≡◌, ◌≤◌};
ghost use Rattle.pd_types.specs.declared.oracle.TheConstants.{MAX_CLIENTS, MAX_DRIVERS};
ghost use Rattle.pd_script.specs.Scripts.{act_by, greatest_in, if_client, if_driver};
ghost use Rattle.pd_script.specs.Table.{row};

use crate::Boxed;
use crate::numbers::Numbers;
use crate::verb::Verb;
use pd_types::{Actor, Request};

/// What a line does. Moments are in milliseconds since the epoch.
#[derive(Debug, Drop, PartialEq)]
pub enum Act {
    /// The opening cell: the saved time and the last term.
    Cell { saved: u64, term: u64 },
    /// A whole campaign.
    Lead { driver: u8, now: u64 },
    /// A whole step of the driver's clock.
    Tick { driver: u8, now: u64 },
    /// The driver gives its term up.
    Resign { driver: u8 },
    /// A whole draw of `n` timestamps.
    Take { client: u8, driver: u8, n: u64 },
    /// Client `client` leaves a note for client `to`.
    Tell { client: u8, to: u8 },
    /// Takes the oldest note that is left for the client.
    Hear { client: u8 },
    /// Loads the cell, which begins a lead.
    Read { driver: u8, now: u64 },
    /// Claims the next term.
    Campaign { driver: u8 },
    /// Saves the end of the window.
    Save { driver: u8 },
    /// Raises the driver's cursor.
    Raise { driver: u8 },
    /// Publishes the limit, or 0 after a lost term.
    Publish { driver: u8 },
    /// Reads the driver's own cursor, which begins a tick.
    Probe { driver: u8, now: u64 },
    /// Loads the driver's limit, which begins a draw.
    Look { client: u8, driver: u8 },
    /// Loads the driver's cursor and arms `n`.
    Arm { client: u8, n: u64 },
    /// Adds the armed count to the cursor.
    Draw { client: u8 },
    /// The store takes the oldest of the steps that the driver's cluster sent to it.
    Pop { store: u64, driver: u8 },
    /// A request to a driver's cluster.
    Ask { driver: u8, request: Boxed<Request> },
}

/// A line of a script: its number, counted from 1 over all lines of the text, and who acts in it
/// (none in a `cell` line).
#[derive(Debug, Drop, PartialEq)]
pub struct Line {
    pub number: u32,
    pub actor: Option<Actor>,
    pub act: Act,
}

/// What a line does that is no request.
pub fn step_act(verb: Verb, numbers: Numbers) -> Act
    requires drivers { greatest_in if_driver (row verb).places numbers ≤ MAX_DRIVERS }
    requires clients { greatest_in if_client (row verb).places numbers ≤ MAX_CLIENTS }
    ensures value { result ≡ act_by verb numbers }
{
    let Numbers {
        first,
        second,
        third,
    } = numbers;
    match verb {
        Verb::Cell => Act::Cell {
            saved: first,
            term: second,
        },
        Verb::Lead => Act::Lead {
            driver: first as u8,
            now: second,
        },
        Verb::Tick => Act::Tick {
            driver: first as u8,
            now: second,
        },
        Verb::Resign => Act::Resign {
            driver: first as u8,
        },
        Verb::Take => Act::Take {
            client: first as u8,
            driver: second as u8,
            n: third,
        },
        Verb::Tell => Act::Tell {
            client: first as u8,
            to: second as u8,
        },
        Verb::Hear => Act::Hear {
            client: first as u8,
        },
        Verb::Read => Act::Read {
            driver: first as u8,
            now: second,
        },
        Verb::Campaign => Act::Campaign {
            driver: first as u8,
        },
        Verb::Save => Act::Save {
            driver: first as u8,
        },
        Verb::Raise => Act::Raise {
            driver: first as u8,
        },
        Verb::Publish => Act::Publish {
            driver: first as u8,
        },
        Verb::Probe => Act::Probe {
            driver: first as u8,
            now: second,
        },
        Verb::Look => Act::Look {
            client: first as u8,
            driver: second as u8,
        },
        Verb::Arm => Act::Arm {
            client: first as u8,
            n: second,
        },
        Verb::Draw => Act::Draw {
            client: first as u8,
        },
        Verb::Pop => Act::Pop {
            store: first,
            driver: second as u8,
        },
    }
}
