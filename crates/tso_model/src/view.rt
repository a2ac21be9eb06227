use crate::{Added, Claim, Found, Grant, Limit, Look, Published, Refusal, Start};
use pd_types::{CellWord, Seen, Seq};

/// What an oracle is made with: 1 to 7 drivers, 1 to 64 clients, and the opening cell.
#[derive(Clone, Copy, Debug, Drop)]
pub struct Setup {
    pub drivers: u8,
    pub clients: u8,
    pub cell: CellWord,
}

/// What one actor knows and all that it did: a driver's, a client's or a note's part, or several
/// of them where views were joined. Entries carry the number of the driver or client that made
/// them.
#[derive(Debug, Drop)]
pub struct View {
    /// It was joined into another and counts no more.
    pub spent: bool,
    pub opening: CellWord,
    /// Its own number as a driver or as a client, or 0.
    pub driver: u8,
    pub client: u8,
    /// The numbers that it has to give to views that are split off.
    pub give_drivers: Seq<u8>,
    pub give_clients: Seq<u8>,
    /// The numbers of the views that were joined into it, 0 for each number that one of them lacked.
    pub took_drivers: Seq<u8>,
    pub took_clients: Seq<u8>,

    /// The cell as it last knew it.
    pub cell: CellWord,
    /// It holds the term of its latest claim.
    pub holds: bool,
    /// Its cursor was raised to the start of the held window.
    pub marked: bool,
    /// Its own latest window.
    pub latest: Option<Claim>,
    pub older: Seq<Claim>,
    pub founds: Seq<Found>,
    pub starts: Seq<Start>,
    pub published: Seq<Published>,

    pub seen: Seen,
    /// The limit in hand between a look and the end of the draw.
    pub hand: Option<Limit>,
    /// The count that is armed, or 0.
    pub armed: u64,
    /// The most that it may arm.
    pub quota: u64,
    pub grants: Seq<Grant>,
    pub looks: Seq<Look>,
    pub refusals: Seq<Refusal>,
    pub added: Seq<Added>,
}
