ghost use Rattle.std.specs.Prelude.{◌≡◌, ℕ, ◌+◌, ◌*◌, ◌<◌, ◌^◌, [], ◌≤◌, true, false, None, Some, IfErr, IfOk, OnOk, OnErr};
ghost use Rattle.std.specs.Option.{ForSome};
ghost use Rattle.pd_types.specs.declared.stamp.TheConstants.{LOGICAL};
ghost use Rattle.pd_types.specs.declared.oracle.TheConstants.{CLOCK_END};
ghost use Rattle.tso_model.specs.declared.step.WordStep.TheVariants.{ArmCount};
ghost use Rattle.tso_model.specs.Steps.{May, hand, view_after};
ghost use Rattle.tso_model.specs.Words.{cursor_at};
ghost use Rattle.tso_board.specs.Actors.{IsClientView};

use crate::numbers::hand_of;
use crate::plays::{Arms, Count, Draws, Looks, Meets, Notes};
use crate::{Board, Note};
use atomic_table::Seat;
use pd_types::{Batch, NoMemory, Seen};
use std::alloc::Global;
use std::marker::Brand;
use tso_model::{Grant, Limit, View, greater, is_passing};

/// The pass of a client: it makes the client's steps on the board, and keeps what the client has
/// seen and drawn.
#[derive(Drop)]
pub struct Pass {
    pub(crate) seat: Seat<(), View>,
    pub(crate) number: u8,
    pub(crate) seen: Seen,
    pub(crate) hand: Option<Limit>,
    pub(crate) armed: u64,
    pub(crate) grants: Vec<Grant>,
    ghost no_slot: { seat.me.1 ≡ [] },
    ghost clients_alone: { IsClientView seat.me.0 },
    ghost live: { seat.me.0.spent ≡ false },
    ghost positive: { 0 < number },
    ghost numbered: { seat.me.0.client ≡ number },
    ghost has_seen: { seat.me.0.seen ≡ seen },
    ghost in_hand: { seat.me.0.hand ≡ hand },
    ghost is_armed: { seat.me.0.armed ≡ armed },
    ghost granted: { seat.me.0.grants ≡ grants.items },
    ghost quota: { seat.me.0.quota ≡ LOGICAL },
    ghost few: { armed < LOGICAL },
    ghost hand_fits: { ForSome hand (λ l. (2 * l.driver < seat.table_id.words) × (l.hi < CLOCK_END) × (l.term < LOGICAL)) },
}

impl Pass {
    ghost use Rattle.tso_model.specs.Moves.{blank};
    ghost use Rattle.tso_model.specs.Steps.{AtRest, HasHand, looked};
    ghost use Rattle.tso_board.specs.Boards.{setup_of};
    ghost use Rattle.tso_board.specs.Notes.{IsNoteOf, note_seen};
    ghost use Rattle.tso_board.specs.Passes.{IsPassOf, pass_view, pass_spare};
    ghost use Rattle.tso_board.specs.Told.{Armed, Drawn, Met, NotArmed, NotDrawn};

    /// The pass of a client that did nothing yet, with a client's quota.
    pub(crate) fn new(alloc: Global, seat: Seat<(), View>, number: u8) -> Pass
        requires view { seat.me ≡ (record (blank seat.me.0.opening) { client = number; quota = LOGICAL }, []) }
        requires positive { 0 < number }
        ensures view { pass_view result ≡ seat.me.0 }
        ensures board { result.seat.table_id ≡ seat.table_id }
    {
        Pass {
            seat,
            number,
            seen: Seen { term: 0, last: 0 },
            hand: None,
            armed: 0,
            grants: Vec::new(alloc),
        }
    }

    /// The seat of the same view, without what was kept in memory.
    pub(crate) fn into_seat(self) -> Seat<(), View>
        ensures view { result.me ≡ (pass_view self, []) }
        ensures board { result.table_id ≡ self.seat.table_id }
        ensures live { (pass_view self).spent ≡ false }
    {
        self.seat
    }

    /// Makes room for `n` more batches. This alone takes memory of all that a client calls.
    pub fn reserve(&mut self, n: usize) -> Result<(), NoMemory>
        ensures ok { OnOk result (n ≤ pass_spare self.new) }
        ensures err { OnErr result (pass_spare self.new ≡ pass_spare self.old) }
        ensures same { pass_view self.new ≡ pass_view self.old }
        ensures board { self.new.seat.table_id ≡ self.old.seat.table_id }
    {
        self.grants.reserve(n)?;
        Ok(())
    }

    /// What the client has seen: the greatest pair of its batches and of the notes that it met.
    pub fn seen(&self) -> Seen
        ensures value { result ≡ (pass_view self.now).seen }
    {
        self.seen
    }

    /// Makes a note of what the client has seen.
    pub fn note(&mut self, board: &Board) -> Note
        requires board { IsPassOf self.old board.now }
        ensures board { IsPassOf self.new board.now }
        ensures note { IsNoteOf result board.now }
        ensures seen { note_seen result ≡ (pass_view self.old).seen }
        ensures same { pass_view self.new ≡ pass_view self.old }
        ensures spare { pass_spare self.new ≡ pass_spare self.old }
    {
        let seat = board.table.shared.split_seat::<Notes>(&mut self.seat);
        Note {
            seat,
            seen: self.seen,
        }
    }

    /// Takes a note in: the client has seen the greater of both pairs from then on.
    pub fn meet(&mut self, board: &Board, note: Note)
        requires board { IsPassOf self.old board.now }
        requires note { IsNoteOf note board.now }
        requires rest { AtRest (pass_view self.old) }
        ensures board { IsPassOf self.new board.now }
        ensures met { Met (note_seen note) (pass_view self.old) (pass_view self.new) }
        ensures rest { AtRest (pass_view self.new) }
        ensures spare { pass_spare self.new ≡ pass_spare self.old }
    {
        let Note { seat, seen } = note;
        board.table.shared.join_seat::<Meets>(&mut self.seat, seat);
        self.seen = greater(self.seen, seen);
    }

    /// Loads the limit word of a driver. It is in hand from then on, unless it is 0 or of a term
    /// below the seen one.
    pub fn look(&mut self, board: &Board, driver: u8) -> u64
        requires board { IsPassOf self.old board.now }
        requires some { 0 < driver }
        requires driver { driver ≤ (setup_of board.now).drivers }
        requires rest { AtRest (pass_view self.old) }
        ensures board { IsPassOf self.new board.now }
        ensures step { pass_view self.new ≡ looked driver result (pass_view self.old) }
        ensures spare { pass_spare self.new ≡ pass_spare self.old }
    {
        let place = 2 * driver as usize - 1;
        let word = board.table.shared.load::<Looks>(&mut self.seat, place);
        self.hand = hand_of(driver, word, self.seen.term);
        word
    }

    /// Loads the cursor of the limit in hand, and arms `n` where they fit behind it. Else the draw is
    /// over. The answer is the cursor, in both cases.
    pub fn arm(&mut self, board: &Board, n: u64) -> Result<u64, u64>
        requires board { IsPassOf self.old board.now }
        requires hand { HasHand (pass_view self.old) }
        requires rest { (pass_view self.old).armed ≡ 0 }
        requires some { 0 < n }
        requires most { n < LOGICAL }
        ensures board { IsPassOf self.new board.now }
        ensures armed { IfOk result (λ at. Armed n at (pass_view self.old) (pass_view self.new)) }
        ensures refused { IfErr result (λ at. NotArmed n at (pass_view self.old) (pass_view self.new)) }
        ensures spare { pass_spare self.new ≡ pass_spare self.old }
    {
        let Some(limit) = self.hand else {
            unreachable!()
        };
        let word = 2 * limit.driver as usize;
        let at = load_armed::<Brand>(board, &mut self.seat, word, n);
        if is_passing(at, limit.hi, n) {
            self.hand = None;
            self.armed = 0;
            return Err(at);
        }
        self.armed = n;
        Ok(at)
    }

    /// Adds what is armed to the cursor, by a fetch-add. The answer is the batch behind the cursor
    /// that was found, or that cursor, where the count passes there: then nothing is granted.
    pub fn draw(&mut self, board: &Board) -> Result<Batch, u64>
        requires board { IsPassOf self.old board.now }
        requires hand { HasHand (pass_view self.old) }
        requires armed { 0 < (pass_view self.old).armed }
        requires spare { 0 < pass_spare self.old }
        ensures board { IsPassOf self.new board.now }
        ensures drawn { IfOk result (λ b. Drawn b (pass_view self.old) (pass_view self.new)) }
        ensures refused { IfErr result (λ at. NotDrawn at (pass_view self.old) (pass_view self.new)) }
        ensures ok { OnOk result (pass_spare self.old ≡ pass_spare self.new + 1) }
        ensures err { OnErr result (pass_spare self.new ≡ pass_spare self.old) }
    {
        let Some(limit) = self.hand else {
            unreachable!()
        };
        let count = self.armed;
        let word = 2 * limit.driver as usize;
        let at = board
            .table
            .shared
            .fetch_add::<Draws>(&mut self.seat, word, count);
        self.hand = None;
        self.armed = 0;
        if is_passing(at, limit.hi, count) {
            return Err(at);
        }
        let Limit { driver, term, .. } = limit;
        let last = at + count;
        self.seen = Seen { term, last };
        let batch = Batch {
            term,
            driver,
            last,
            count,
        };
        let client = self.number;
        let grant = Grant { client, batch };
        self.grants.push_reserved(grant);
        Ok(batch)
    }
}

// A load that arms this count.
fn load_armed<N: Count>(board: &Board, seat: &mut Seat<(), View>, word: usize, n: u64) -> u64
    requires count { N.count ≡ n }
    requires board { seat.old.table_id ≡ board.now.table.shared.table_id }
    requires may { May board.now.table.shared.key (ArmCount n) seat.old.me.0 }
    requires at { word ≡ cursor_at (hand seat.old.me.0).driver }
    requires within { word < seat.old.table_id.words }
    ensures board { seat.new.table_id ≡ seat.old.table_id }
    ensures step { seat.new.me ≡ (view_after (ArmCount n) result seat.old.me.0, seat.old.me.1) }
    ensures low { result + LOGICAL < 2 ^ 64 }
{
    board.table.shared.load::<Arms<N>>(seat, word)
}
