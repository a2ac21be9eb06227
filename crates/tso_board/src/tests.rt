ghost use Rattle.std.specs.Prelude.{◌≡◌, IfOk};
ghost use Rattle.tso_board.specs.Crews.{IsWhole};
ghost use Rattle.tso_board.specs.Seats.{IsSeatOf, seat_view};

use crate::{Board, Crew, DriverSeat, Ledger, gather, open};
use pd_types::{CellWord, Window};
use std::alloc::Global;
use std::process::Abort;
use std::test::Fail;

const OPENING: CellWord = CellWord {
    saved: 1000,
    term: 5,
};

// The last two seats of a new board.
fn two_drivers(alloc: Global) -> Result<(Board, DriverSeat, DriverSeat), Fail>
    ensures first { IfOk result (λ r. IsSeatOf r.1 r.0) }
    ensures second { IfOk result (λ r. IsSeatOf r.2 r.0) }
{
    let Crew {
        board,
        mut seats,
        ..
    } = open(alloc, 3, 1, OPENING)?;
    let Some(second) = seats.pop() else {
        return Err(Fail::new("no seat"));
    };
    let Some(first) = seats.pop() else {
        return Err(Fail::new("one seat"));
    };
    Ok((board, first, second))
}

// A campaign over a cell that isn't of the last term.
fn campaign(board: &Board, seat: &mut DriverSeat, known: CellWord) -> Option<Result<u64, CellWord>>
    requires board { IsSeatOf seat.old board.now }
    requires known { (seat_view seat.old).cell ≡ known }
    ensures board { IsSeatOf seat.new board.now }
{
    if known.term >= 262_143 {
        return None;
    }
    seat.reserve(1).ok()?;
    Some(seat.campaign(board))
}

#[test]
fn gives_each_actor_a_place(rt: HostRuntime) -> Result<(), Fail> {
    let crew = open(rt.alloc(), 7, 64, OPENING)?;
    assert!(rt; crew.seats.len() == 7 && crew.passes.len() == 64 && crew.notes.is_empty());
    Ok(())
}

// Both drivers know the opening cell when they campaign. The first to come has the next term.
#[test]
fn later_campaign_finds_the_other_cell(rt: HostRuntime) -> Result<(), Fail> {
    let (board, mut first, mut second) = two_drivers(rt.alloc())?;
    let known = first.read_cell(&board);
    let same = second.read_cell(&board);
    assert!(rt; known == OPENING && same == OPENING);
    let won = campaign(&board, &mut first, known);
    assert!(rt; won == Some(Ok(6)));
    let beaten = campaign(&board, &mut second, same);
    assert!(rt;
        beaten
            == Some(Err(CellWord {
                saved: 1000,
                term: 6
            }))
    );
    assert!(rt; first.held().is_some() && second.held().is_none());
    first.resign(&board);
    assert!(rt; first.held().is_none());
    Ok(())
}

// A ledger of nothing but the opening window, which is driver 0's.
#[test]
fn gathers_the_opening_window(rt: HostRuntime) -> Result<(), Fail> {
    let crew = open(rt.alloc(), 2, 3, OPENING)?;
    let Ok(ledger) = gather(crew) else {
        return Err(Fail::new("no ledger"));
    };
    let opening = Window {
        term: 5,
        driver: 0,
        lo: 1000,
        hi: 1000,
    };
    assert!(rt; ledger.windows().as_slice() == [opening].as_slice());
    assert!(rt; ledger.batches().as_slice().is_empty());
    Ok(())
}

// A ledger, asked for once more where memory was wanting: the crew comes back whole.
fn gathered(crew: Crew) -> Option<Ledger>
    requires whole { IsWhole crew }
{
    match gather(crew) {
        Ok(ledger) => Some(ledger),
        Err(back) => gather(back).ok(),
    }
}

// With `rt try --test --fail-alloc N` the Nth allocation of each test fails, and where it is one of
// `gather` the second call comes.
#[test]
fn want_of_memory_leaves_the_crew_whole(rt: HostRuntime) -> Result<(), Fail> {
    let crew = open(rt.alloc(), 2, 3, OPENING)?;
    let Some(ledger) = gathered(crew) else {
        return Err(Fail::new("no ledger"));
    };
    assert!(rt; ledger.windows().as_slice().len() == 1);
    Ok(())
}

// Room that is refused is asked for once more, and the campaign finds the cell that was known.
#[test]
fn want_of_memory_leaves_a_seat_as_it_was(rt: HostRuntime) -> Result<(), Fail> {
    let (board, mut first, _) = two_drivers(rt.alloc())?;
    let known = first.read_cell(&board);
    if first.reserve(1).is_err() {
        assert!(rt; first.held().is_none() && first.reserve(1).is_ok());
    }
    let won = campaign(&board, &mut first, known);
    assert!(rt; won == Some(Ok(6)));
    Ok(())
}
