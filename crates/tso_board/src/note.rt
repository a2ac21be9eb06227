ghost use Rattle.std.specs.Prelude.{◌≡◌, []};
ghost use Rattle.tso_model.specs.Moves.{blank};

use atomic_table::Seat;
use pd_types::Seen;
use tso_model::View;

/// What a client had seen, for another client. It may be dropped.
#[derive(Drop)]
pub struct Note {
    pub(crate) seat: Seat<(), View>,
    pub(crate) seen: Seen,
    ghost no_slot: { seat.me.1 ≡ [] },
    ghost is_note: { seat.me.0 ≡ record (blank seat.me.0.opening) { seen = seen } },
}

impl Note {
    ghost use Rattle.tso_board.specs.Notes.{note_seen};

    /// What its sender had seen when it was made.
    pub fn seen(&self) -> Seen
        ensures value { result ≡ note_seen self.now }
    {
        self.seen
    }
}
