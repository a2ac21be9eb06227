ghost use Rattle.std.specs.Prelude.{◌≡◌, ℕ, ◌+◌, ◌*◌, ◌<◌, [], ◌≢◌, false, true, None, Some, IfErr, IfOk, IfSome, OnOk, OnErr, ◌≤◌};
ghost use Rattle.std.specs.Option.{ForSome};
ghost use Rattle.pd_types.specs.declared.stamp.TheConstants.{LOGICAL};
ghost use Rattle.pd_types.specs.declared.oracle.TheConstants.{CLOCK_END, LAST_TERM};
ghost use Rattle.tso_board.specs.Actors.{IsDriverView};

use crate::Board;
use crate::numbers::marks;
use crate::plays::{Campaigns, Publishes, Raises, Reads, Resigns, Saves};
use atomic_table::Seat;
use pd_types::{CellWord, NoMemory, Window};
use std::alloc::Global;
use tso_model::{Claim, View, cell_in, lengthened, packed};

/// The seat of a driver: it makes the driver's steps on the board, and keeps what the driver knows.
#[derive(Drop)]
pub struct DriverSeat {
    pub(crate) seat: Seat<(), View>,
    pub(crate) number: u8,
    pub(crate) cell: CellWord,
    pub(crate) holds: bool,
    pub(crate) marked: bool,
    pub(crate) latest: Option<Claim>,
    pub(crate) older: Vec<Claim>,
    ghost no_slot: { seat.me.1 ≡ [] },
    ghost drivers_alone: { IsDriverView seat.me.0 },
    ghost live: { seat.me.0.spent ≡ false },
    ghost positive: { 0 < number },
    ghost numbered: { seat.me.0.driver ≡ number },
    ghost celled: { seat.me.0.cell ≡ cell },
    ghost held: { seat.me.0.holds ≡ holds },
    ghost is_marked: { seat.me.0.marked ≡ marked },
    ghost in_table: { 2 * number < seat.table_id.words },
    ghost newest: { seat.me.0.latest ≡ latest },
    ghost past: { seat.me.0.older ≡ older.items },
    ghost cell_fits: { (cell.saved < CLOCK_END) × (cell.term < LOGICAL) },
    ghost window_fits: { ForSome latest (λ c. (c.window.lo < CLOCK_END) × (c.window.hi < CLOCK_END) × (c.window.term < LOGICAL)) },
    ghost claims_held: { holds ≡ true → latest ≢ None },
}

impl DriverSeat {
    ghost use Rattle.tso_model.specs.Moves.{blank};
    ghost use Rattle.tso_model.specs.Steps.{held, HasClaim, raised};
    ghost use Rattle.tso_board.specs.Seats.{IsSeatOf, seat_view, seat_spare};
    ghost use Rattle.tso_board.specs.Told.{Claimed, MayPublish, MayRaise, Missed, Read, Saved, given_up, holding, told_limit};
    ghost use Rattle.tso_model.specs.Words.{IsCell};

    /// The seat of a driver that did nothing yet.
    pub(crate) fn new(alloc: Global, seat: Seat<(), View>, number: u8, cell: CellWord) -> DriverSeat
        requires view { seat.me ≡ (record (blank cell) { driver = number }, []) }
        requires positive { 0 < number }
        requires table { 2 * number < seat.table_id.words }
        requires cell { IsCell cell }
        ensures view { seat_view result ≡ record (blank cell) { driver = number } }
        ensures board { result.seat.table_id ≡ seat.table_id }
    {
        DriverSeat {
            seat,
            number,
            cell,
            holds: false,
            marked: false,
            latest: None,
            older: Vec::new(alloc),
        }
    }

    /// The seat of the same view, without what was kept in memory.
    pub(crate) fn into_seat(self) -> Seat<(), View>
        ensures view { result.me ≡ (seat_view self, []) }
        ensures board { result.table_id ≡ self.seat.table_id }
        ensures live { (seat_view self).spent ≡ false }
    {
        self.seat
    }

    /// Makes room for `n` more claims. This alone takes memory of all that a driver calls.
    pub fn reserve(&mut self, n: usize) -> Result<(), NoMemory>
        ensures ok { OnOk result (n ≤ seat_spare self.new) }
        ensures err { OnErr result (seat_spare self.new ≡ seat_spare self.old) }
        ensures same { seat_view self.new ≡ seat_view self.old }
        ensures board { self.new.seat.table_id ≡ self.old.seat.table_id }
    {
        self.older.reserve(n)?;
        Ok(())
    }

    /// The held window, or none where no term is held.
    pub fn held(&self) -> Option<Window>
        ensures value { result ≡ holding (seat_view self.now) }
        ensures range { IfSome result (λ w. w.hi < CLOCK_END) }
    {
        let claim = self.latest?;
        self.holds.then_some(claim.window)
    }

    /// Loads the cell.
    pub fn read_cell(&mut self, board: &Board) -> CellWord
        requires board { IsSeatOf self.old board.now }
        ensures board { IsSeatOf self.new board.now }
        ensures step { Read result (seat_view self.old) (seat_view self.new) }
        ensures spare { seat_spare self.new ≡ seat_spare self.old }
    {
        let found = board.table.shared.load::<Reads>(&mut self.seat, 0);
        self.cell = cell_in(found);
        self.cell
    }

    /// Claims the next term, where the cell is still the known one: a compare-exchange. The answer
    /// is the term, or the other cell that was found.
    pub fn campaign(&mut self, board: &Board) -> Result<u64, CellWord>
        requires board { IsSeatOf self.old board.now }
        requires terms { (seat_view self.old).cell.term < LAST_TERM }
        requires spare { 0 < seat_spare self.old }
        ensures board { IsSeatOf self.new board.now }
        ensures claimed { IfOk result (λ term. Claimed term (seat_view self.old) (seat_view self.new)) }
        ensures missed { IfErr result (λ found. Missed found (seat_view self.old) (seat_view self.new)) }
        ensures other { IfErr result (λ found. found ≢ (seat_view self.old).cell) }
        ensures spare { seat_spare self.old ≤ seat_spare self.new + 1 }
        ensures err { OnErr result (seat_spare self.new ≡ seat_spare self.old) }
    {
        let CellWord { saved, term } = self.cell;
        let known = packed(saved, term);
        let found = board
            .table
            .shared
            .compare_exchange::<Campaigns>(&mut self.seat, 0, known, known + 1);
        if found != known {
            self.cell = cell_in(found);
            return Err(self.cell);
        }
        if let Some(claim) = self.latest {
            self.older.push_reserved(claim);
        }
        self.holds = true;
        self.marked = false;
        self.cell = CellWord {
            saved,
            term: term + 1,
        };
        self.latest = Some(Claim {
            window: Window {
                term: term + 1,
                driver: self.number,
                lo: saved,
                hi: saved,
            },
            at: saved,
        });
        Ok(term + 1)
    }

    /// Saves a later end of the held window, where the cell is still this window's: a
    /// compare-exchange. Else the answer is the other cell that was found.
    pub fn save(&mut self, board: &Board, hi: u64) -> Result<(), CellWord>
        requires board { IsSeatOf self.old board.now }
        requires holds { (seat_view self.old).holds ≡ true }
        requires claim { HasClaim (seat_view self.old) }
        requires later { (held (seat_view self.old)).hi < hi }
        requires clock { hi < CLOCK_END }
        ensures board { IsSeatOf self.new board.now }
        ensures saved { OnOk result (Saved hi (seat_view self.old) (seat_view self.new)) }
        ensures missed { IfErr result (λ found. Missed found (seat_view self.old) (seat_view self.new)) }
        ensures spare { seat_spare self.new ≡ seat_spare self.old }
    {
        let Some(claim) = self.latest else {
            unreachable!()
        };
        let Claim { window, at } = claim;
        let held = packed(window.hi, window.term);
        let new = packed(hi, window.term);
        let found = board
            .table
            .shared
            .compare_exchange::<Saves>(&mut self.seat, 0, held, new);
        if found != held {
            self.cell = cell_in(found);
            return Err(self.cell);
        }
        self.cell = CellWord {
            saved: hi,
            term: window.term,
        };
        if window.lo == window.hi {
            self.marked = false;
        }
        let window = lengthened(hi, window);
        self.latest = Some(Claim { window, at });
        Ok(())
    }

    /// Raises the driver's cursor to `at`, by a fetch-max, and answers what it was before. By 0 it
    /// only reads.
    pub fn raise(&mut self, board: &Board, at: u64) -> u64
        requires board { IsSeatOf self.old board.now }
        requires may { MayRaise at (seat_view self.old) }
        ensures board { IsSeatOf self.new board.now }
        ensures step { seat_view self.new ≡ raised at result (seat_view self.old) }
        ensures spare { seat_spare self.new ≡ seat_spare self.old }
    {
        let word = 2 * self.number as usize;
        let found = board
            .table
            .shared
            .fetch_max::<Raises>(&mut self.seat, word, at);
        self.marked = marks(self.holds, self.marked, self.latest, at);
        found
    }

    /// Stores the end and the term of the held window as the limit.
    pub fn publish(&mut self, board: &Board)
        requires board { IsSeatOf self.old board.now }
        requires may { MayPublish (seat_view self.old) }
        ensures board { IsSeatOf self.new board.now }
        ensures step { seat_view self.new ≡ told_limit (seat_view self.old) }
        ensures spare { seat_spare self.new ≡ seat_spare self.old }
    {
        let Some(claim) = self.latest else {
            unreachable!()
        };
        let word = 2 * self.number as usize - 1;
        let limit = packed(claim.window.hi, claim.window.term);
        board
            .table
            .shared
            .store::<Publishes>(&mut self.seat, word, limit);
    }

    /// Stores 0 as the limit. No term is held from then on.
    pub fn resign(&mut self, board: &Board)
        requires board { IsSeatOf self.old board.now }
        ensures board { IsSeatOf self.new board.now }
        ensures step { seat_view self.new ≡ given_up (seat_view self.old) }
        ensures spare { seat_spare self.new ≡ seat_spare self.old }
    {
        let word = 2 * self.number as usize - 1;
        board.table.shared.store::<Resigns>(&mut self.seat, word, 0);
        self.holds = false;
        self.marked = false;
    }
}
