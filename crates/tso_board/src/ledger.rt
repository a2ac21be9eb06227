// The windows and batches of a whole run, gathered from all seats and passes.
ghost use Rattle.std.specs.Prelude.{◌≡◌, ℕ, ◌+◌, ◌*◌, ◌<◌, List, [], ◌∷◌, ◌++◌, false, map, All, IfOk, IfErr, OnOk};
ghost use Rattle.std.specs.List.Sorted.{IsNonDecreasingBy};
ghost use Rattle.pd_types.specs.declared.oracle.Batch.{Batch};
ghost use Rattle.pd_types.specs.declared.oracle.CellWord.{CellWord};
ghost use Rattle.pd_types.specs.declared.oracle.Seen.{Seen};
ghost use Rattle.tso_model.specs.declared.entries.Claim.{Claim};
ghost use Rattle.tso_model.specs.declared.entries.Grant.{Grant};
ghost use Rattle.tso_model.specs.History.{claims as of_view};
ghost use Rattle.tso_model.specs.Ledger.{Gathered};
ghost use Rattle.tso_model.specs.Lists.{total};
ghost use Rattle.tso_model.specs.Steps.{AtRest};
ghost use Rattle.tso_model.specs.Words.{opening_claim};
ghost use Rattle.tso_board.specs.Ledger.{HasEach, all_batches, all_claims, all_joined, first_in};
ghost use Rattle.tso_board.specs.Boards.{setup_of};
ghost use Rattle.tso_board.specs.Crews.{IsGathered, IsLedgerOf, IsWhole, ledger_batches, ledger_windows};
ghost use Rattle.tso_board.specs.Passes.{pass_view};
ghost use Rattle.tso_board.specs.Seats.{seat_view};

use crate::board::{Words, close, take_in};
use crate::plays::Notes;
use crate::{Board, Crew, DriverSeat, Pass};
use atomic_table::Seat;
use pd_types::{Batch, Batches, CellWord, NoMemory, Seq, Window, Windows};
use std::alloc::Global;
use tso_model::{Claim, Grant, View};

/// The windows and batches of a whole run. Only `gather` makes one.
#[derive(Drop)]
pub struct Ledger {
    // A seat of the board that it was gathered from.
    mark: Seat<(), View>,
    windows: Windows,
    batches: Batches,
}

impl Ledger {
    /// The windows, the opening one first, by rising term.
    pub fn windows(&self) -> &Windows
        ensures value { result.now ≡ ledger_windows self.now }
    {
        &self.windows
    }

    /// The batches, by term and timestamps.
    pub fn batches(&self) -> &Batches
        ensures value { result.now ≡ ledger_batches self.now }
    {
        &self.batches
    }
}

/// Ends a board and gathers the windows and batches of the whole run from all its seats and passes.
/// Want of memory hands everything back as it was.
pub fn gather(crew: Crew) -> Result<Ledger, Crew>
    requires whole { IsWhole crew }
    ensures ok { IfOk result (λ ledger. IsGathered ledger crew) }
    ensures board { IfOk result (λ ledger. IsLedgerOf ledger crew.board) }
    ensures err { IfErr result (λ back. back ≡ crew) }
{
    let Ok(lists) = sorted_lists(&crew) else {
        return Err(crew);
    };
    let Crew {
        board,
        seats,
        passes,
        ..
    } = crew;
    let mark = end(board, seats, passes);
    let Lists {
        windows,
        batches,
        ..
    } = lists;
    Ok(Ledger {
        mark,
        windows: Seq::of(windows),
        batches: Seq::of(batches),
    })
}

// The lists of a ledger, and the claims of its windows.
#[derive(Drop)]
struct Lists {
    claims: Vec<Claim>,
    windows: Vec<Window>,
    batches: Vec<Batch>,
}

fn sorted_lists(crew: &Crew) -> Result<Lists, NoMemory>
    ensures windows { IfOk result (λ l. l.windows.items ≡ map (λ (c : Claim). c.window) l.claims.items) }
    ensures claims_sorted { IfOk result (λ l. IsNonDecreasingBy (λ (c : Claim). c.window.term) l.claims.items) }
    ensures claims { IfOk result (λ l. (f : Claim → ℕ) → total f l.claims.items ≡ total f (all_claims (map seat_view crew.now.seats.items)) + f (opening_claim (setup_of crew.now.board).cell)) }
    ensures batches_sorted { IfOk result (λ l. IsNonDecreasingBy (λ (b : Batch). b.last) l.batches.items) }
    ensures batches { IfOk result (λ l. (f : Batch → ℕ) → total f l.batches.items ≡ total f (all_batches (map pass_view crew.now.passes.items))) }
{
    let alloc = crew.board.alloc;
    let mut claims = claims_of(alloc, crew.board.opening, crew.seats.as_slice())?;
    sort_claims(&mut claims)?;
    let windows = windows_of(alloc, claims.as_slice())?;
    let mut batches = batches_of(alloc, crew.passes.as_slice())?;
    sort_batches(&mut batches)?;
    Ok(Lists {
        claims,
        windows,
        batches,
    })
}

// The opening window and all that were claimed, as they stand in the seats.
fn claims_of(alloc: Global, opening: CellWord, seats: &[DriverSeat]) -> Result<Vec<Claim>, NoMemory>
    ensures value { IfOk result (λ claims. claims.items ≡ opening_claim opening ∷ all_claims (map seat_view seats.now)) }
{
    let mut claims = Vec::new(alloc);
    claims.push(opening_claim(opening))?;
    for seat in seats {
        add_claims(&mut claims, seat)?;
    }
    Ok(claims)
}

fn add_claims(claims: &mut Vec<Claim>, seat: &DriverSeat) -> Result<(), NoMemory>
    ensures ok { OnOk result (claims.new.items ≡ claims.old.items ++ of_view (seat_view seat.now)) }
{
    claims.extend_from_slice(seat.older.as_slice())?;
    if let Some(claim) = seat.latest {
        claims.push(claim)?;
    }
    Ok(())
}

fn opening_claim(cell: CellWord) -> Claim
    ensures value { result ≡ opening_claim cell }
{
    Claim {
        window: Window {
            term: cell.term,
            driver: 0,
            lo: cell.saved,
            hi: cell.saved,
        },
        at: cell.saved,
    }
}

fn windows_of(alloc: Global, claims: &[Claim]) -> Result<Vec<Window>, NoMemory>
    ensures value { IfOk result (λ windows. windows.items ≡ map (λ (c : Claim). c.window) claims.now) }
{
    let mut windows = Vec::new(alloc);
    for claim in claims {
        windows.push(claim.window)?;
    }
    Ok(windows)
}

// All batches that were drawn, as they stand in the passes.
fn batches_of(alloc: Global, passes: &[Pass]) -> Result<Vec<Batch>, NoMemory>
    ensures value { IfOk result (λ batches. batches.items ≡ all_batches (map pass_view passes.now)) }
{
    let mut batches = Vec::new(alloc);
    for pass in passes {
        add_batches(&mut batches, pass.grants.as_slice())?;
    }
    Ok(batches)
}

fn add_batches(batches: &mut Vec<Batch>, grants: &[Grant]) -> Result<(), NoMemory>
    ensures ok { OnOk result (batches.new.items ≡ batches.old.items ++ map (λ (g : Grant). g.batch) grants.now) }
{
    for grant in grants {
        batches.push(grant.batch)?;
    }
    Ok(())
}

fn sort_claims(claims: &mut Vec<Claim>) -> Result<(), NoMemory>
    ensures sorted { OnOk result (IsNonDecreasingBy (λ (c : Claim). c.window.term) claims.new.items) }
    ensures same { OnOk result ((f : Claim → ℕ) → total f claims.new.items ≡ total f claims.old.items) }
{
    claims.sort_by_key(|claim| claim.window.term)?;
    Ok(())
}

fn sort_batches(batches: &mut Vec<Batch>) -> Result<(), NoMemory>
    ensures sorted { OnOk result (IsNonDecreasingBy (λ (b : Batch). b.last) batches.new.items) }
    ensures same { OnOk result ((f : Batch → ℕ) → total f batches.new.items ≡ total f batches.old.items) }
{
    batches.sort_by_key(|batch| batch.last)?;
    Ok(())
}

// Takes all seats and passes into a new seat, and closes the words. What is left is a seat of no words.
fn end(board: Board, mut seats: Vec<DriverSeat>, passes: Vec<Pass>) -> Seat<(), View>
    requires seats { All (λ s. s.seat.table_id ≡ board.table.shared.table_id) seats.items }
    requires passes { All (λ p. p.seat.table_id ≡ board.table.shared.table_id) passes.items }
    requires drivers { HasEach (setup_of board).drivers (map (λ v. v.driver) (map seat_view seats.items)) }
    requires clients { HasEach (setup_of board).clients (map (λ v. v.client) (map pass_view passes.items)) }
    ensures gathered { (opening : CellWord) × (seen : Seen) × Gathered (setup_of board) (all_joined (all_joined (first_in opening seen) (map seat_view seats.items)) (map pass_view passes.items)) }
    ensures mark { result.table_id ≡ board.table.shared.table_id }
{
    let Board { table, .. } = board;
    let Some(last) = seats.pop() else {
        unreachable!()
    };
    let mut last = last.into_seat();
    let mut base = table.shared.split_seat::<Notes>(&mut last);
    let mark = table.shared.split_seat::<Notes>(&mut base);
    take_seats(&table, &mut base, seats);
    take_in(&table, &mut base, last);
    take_passes(&table, &mut base, passes);
    close(table, base);
    mark
}

fn take_seats(table: &Words, base: &mut Seat<(), View>, seats: Vec<DriverSeat>)
    requires board { base.old.table_id ≡ table.now.shared.table_id }
    requires sized { table.now.shared.table_id.words ≡ 1 + 2 * table.now.shared.key.drivers }
    requires seats { All (λ s. s.seat.table_id ≡ table.now.shared.table_id) seats.items }
    requires live { base.old.me.0.spent ≡ false }
    requires rest { AtRest base.old.me.0 }
    ensures board { base.new.table_id ≡ base.old.table_id }
    ensures view { base.new.me ≡ (all_joined base.old.me.0 (map seat_view seats.items), base.old.me.1) }
    ensures live { base.new.me.0.spent ≡ false }
    ensures rest { AtRest base.new.me.0 }
{
    for seat in seats {
        take_in(table, base, seat.into_seat());
    }
}

fn take_passes(table: &Words, base: &mut Seat<(), View>, passes: Vec<Pass>)
    requires board { base.old.table_id ≡ table.now.shared.table_id }
    requires sized { table.now.shared.table_id.words ≡ 1 + 2 * table.now.shared.key.drivers }
    requires passes { All (λ p. p.seat.table_id ≡ table.now.shared.table_id) passes.items }
    requires live { base.old.me.0.spent ≡ false }
    requires rest { AtRest base.old.me.0 }
    ensures board { base.new.table_id ≡ base.old.table_id }
    ensures view { base.new.me ≡ (all_joined base.old.me.0 (map pass_view passes.items), base.old.me.1) }
{
    for pass in passes {
        take_in(table, base, pass.into_seat());
    }
}
