ghost use Rattle.std.specs.Prelude.{◌≡◌, ℕ, ◌+◌, ◌<◌, ◌≤◌, true, OnErr, OnOk};
ghost use Rattle.tso_board.specs.declared.board.Board.{Board};
ghost use Rattle.tso_board.specs.Seats.{seat_view};
ghost use Rattle.tso_driver.specs.Settled.{IsSettled};

use crate::reply::{LeadReply, TickReply};
use pd_types::{LAST_TERM, LOGICAL, NoMemory};
use tso_board::{Board, DriverSeat};
use tso_model::{AHEAD_MS, is_past_clock, is_saving, next_of_lead, next_of_tick};

/// A driver of the oracle on its seat. Between two calls it holds no term, or one whose window is
/// open, with the cursor raised to its start.
#[derive(Drop)]
pub struct Driver {
    seat: DriverSeat,
    ghost settled: { IsSettled (seat_view seat) },
}

impl Driver {
    ghost use Rattle.tso_driver.specs.declared.said.DriverSaid.TheVariants.{Led, Ticked, Resigned};
    ghost use Rattle.tso_driver.specs.Drivers.{IsDriverOf, seat_of, spare_of, view_of};
    ghost use Rattle.tso_driver.specs.Driving.{DriverDid};
    ghost use Rattle.tso_driver.specs.Moments.{Leads, Resigns, Ticks};

    /// A driver on this seat.
    pub fn of(seat: DriverSeat) -> Driver
        requires settled { IsSettled (seat_view seat) }
        ensures seat { seat_of result ≡ seat }
    {
        Driver { seat }
    }

    /// The driver's seat, for `gather` and for `reserve`.
    pub fn into_seat(self) -> DriverSeat
        ensures seat { result ≡ seat_of self }
        ensures settled { IsSettled (seat_view result) }
    {
        self.seat
    }

    /// Makes room for `n` more claims, of which a lead takes one at most. Want of memory leaves the
    /// driver as it was.
    pub fn reserve(&mut self, n: usize) -> Result<(), NoMemory>
        ensures ok { OnOk result (n ≤ spare_of self.new) }
        ensures err { OnErr result (spare_of self.new ≡ spare_of self.old) }
        ensures same { view_of self.new ≡ view_of self.old }
        ensures board { (board : Board) → IsDriverOf self.old board → IsDriverOf self.new board }
    {
        self.seat.reserve(n)
    }

    /// Campaigns for the next term at this moment, in milliseconds, and opens its window: from the
    /// moment on, or from one millisecond past the saved time where that is later. `TermsSpent`,
    /// `ClockRange` and `Beaten` leave what the driver holds; after `Lost` it holds no term. It waits
    /// for nobody and takes no memory.
    pub fn lead(&mut self, board: &Board, now: u64) -> LeadReply
        requires board { IsDriverOf self.old board.now }
        requires spare { 0 < spare_of self.old }
        ensures board { IsDriverOf self.new board.now }
        ensures made { Leads now result (view_of self.old) (view_of self.new) }
        ensures did { DriverDid (Led now result) (view_of self.old) (view_of self.new) }
        ensures spare { spare_of self.old ≤ spare_of self.new + 1 }
    {
        let cell = self.seat.read_cell(board);
        if cell.term == LAST_TERM {
            return LeadReply::TermsSpent;
        }
        let lo = next_of_lead(cell.saved, now);
        if is_past_clock(lo) {
            return LeadReply::ClockRange;
        }
        let hi = lo + AHEAD_MS;
        let term = match self.seat.campaign(board) {
            Err(found) => return LeadReply::Beaten { found },
            Ok(term) => term,
        };
        if let Err(found) = self.seat.save(board, hi) {
            self.seat.resign(board);
            return LeadReply::Lost { found };
        }
        self.seat.raise(board, lo * LOGICAL);
        self.seat.publish(board);
        LeadReply::Won { term, lo, hi }
    }

    /// Moves the cursor on with the clock at this moment, in milliseconds, and saves a later end
    /// where at most a millisecond is left of the held window. `NotLeading`, `Idle` and `ClockRange`
    /// leave what the driver holds; after `Lost` it holds no term. It waits for nobody and takes no
    /// memory.
    pub fn tick(&mut self, board: &Board, now: u64) -> TickReply
        requires board { IsDriverOf self.old board.now }
        ensures board { IsDriverOf self.new board.now }
        ensures made { Ticks now result (view_of self.old) (view_of self.new) }
        ensures did { DriverDid (Ticked now result) (view_of self.old) (view_of self.new) }
        ensures spare { spare_of self.new ≡ spare_of self.old }
    {
        let Some(held) = self.seat.held() else {
            return TickReply::NotLeading;
        };
        let cursor = self.seat.raise(board, 0);
        let Some(next) = next_of_tick(cursor, held.hi, now) else {
            return TickReply::Idle;
        };
        if !is_saving(next, held.hi) {
            self.seat.raise(board, next * LOGICAL);
            return TickReply::Moved { next, hi: held.hi };
        }
        if is_past_clock(next) {
            return TickReply::ClockRange;
        }
        let end = next + AHEAD_MS;
        if let Err(found) = self.seat.save(board, end) {
            self.seat.resign(board);
            return TickReply::Lost { found };
        }
        self.seat.raise(board, next * LOGICAL);
        self.seat.publish(board);
        TickReply::Moved { next, hi: end }
    }

    /// Gives the held term up: its limit is 0 from then on. Answers false, and does nothing, where no
    /// term is held.
    pub fn resign(&mut self, board: &Board) -> bool
        requires board { IsDriverOf self.old board.now }
        ensures board { IsDriverOf self.new board.now }
        ensures made { Resigns result (view_of self.old) (view_of self.new) }
        ensures did { DriverDid (Resigned result) (view_of self.old) (view_of self.new) }
        ensures spare { spare_of self.new ≡ spare_of self.old }
    {
        let Some(_held) = self.seat.held() else {
            return false;
        };
        self.seat.resign(board);
        true
    }
}
