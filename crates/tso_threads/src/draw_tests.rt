// Each answer of a draw, by one thread over two drivers and two clients.
ghost use Rattle.std.specs.Prelude.{◌≡◌, ◌<◌, ◌≤◌, All, IfOk};
ghost use Rattle.pd_types.specs.declared.stamp.TheConstants.{LOGICAL};
ghost use Rattle.tso_board.specs.Boards.{setup_of};
ghost use Rattle.tso_driver.specs.Drivers.{IsDriverOf, spare_of};
ghost use Rattle.tso_threads.specs.Workers.{IsClientOf, IsIdleOf};

use pd_types::{Batch, CellWord};
use std::alloc::Global;
use std::process::Abort;
use std::test::Fail;
use tso_board::{Board, Crew, DriverSeat, Pass, open};
use tso_client::{DrawFault, take};
use tso_driver::{Driver, LeadReply, TickReply};

// The last two of the clients' passes. The board is named for what is proved.
fn two_clients(_board: &Board, mut passes: Vec<Pass>) -> Result<(Pass, Pass), Fail>
    requires clients { All (IsClientOf _board.now) passes.items }
    ensures first { IfOk result (λ r. IsClientOf _board.now r.0) }
    ensures second { IfOk result (λ r. IsClientOf _board.now r.1) }
{
    let Some(second) = passes.pop() else {
        return Err(Fail::new("no pass"));
    };
    let Some(first) = passes.pop() else {
        return Err(Fail::new("one pass"));
    };
    Ok((first, second))
}

// A driver with room for one campaign.
fn driver_on(_board: &Board, mut seat: DriverSeat) -> Result<Driver, Fail>
    requires idle { IsIdleOf _board.now seat }
    ensures driver { IfOk result (λ d. IsDriverOf d _board.now) }
    ensures spare { IfOk result (λ d. 1 ≤ spare_of d) }
{
    seat.reserve(1)?;
    Ok(Driver::of(seat))
}

// The last two drivers.
fn two_drivers(board: &Board, mut seats: Vec<DriverSeat>) -> Result<(Driver, Driver), Fail>
    requires idle { All (IsIdleOf board.now) seats.items }
    ensures first { IfOk result (λ r. IsDriverOf r.0 board.now × (1 ≤ spare_of r.0)) }
    ensures second { IfOk result (λ r. IsDriverOf r.1 board.now × (1 ≤ spare_of r.1)) }
{
    let Some(second) = seats.pop() else {
        return Err(Fail::new("no seat"));
    };
    let Some(first) = seats.pop() else {
        return Err(Fail::new("one seat"));
    };
    Ok((driver_on(board, first)?, driver_on(board, second)?))
}

// A new board with all that belongs to it.
#[derive(Drop)]
struct Oracle {
    board: Board,
    first: Driver,
    second: Driver,
    one: Pass,
    two: Pass,
}

fn new_oracle(alloc: Global) -> Result<Oracle, Fail>
    ensures drivers { IfOk result (λ o. 2 ≤ (setup_of o.board).drivers) }
    ensures first_driver { IfOk result (λ o. IsDriverOf o.first o.board × (1 ≤ spare_of o.first)) }
    ensures second_driver { IfOk result (λ o. IsDriverOf o.second o.board × (1 ≤ spare_of o.second)) }
    ensures first_client { IfOk result (λ o. IsClientOf o.board o.one) }
    ensures second_client { IfOk result (λ o. IsClientOf o.board o.two) }
{
    let cell = CellWord { saved: 0, term: 0 };
    let Crew {
        board,
        seats,
        passes,
        ..
    } = open(alloc, 2, 2, cell)?;
    let (first, second) = two_drivers(&board, seats)?;
    let (one, two) = two_clients(&board, passes)?;
    Ok(Oracle {
        board,
        first,
        second,
        one,
        two,
    })
}

// A draw with room for its batch.
fn draw(
    pass: &mut Pass,
    board: &Board,
    driver: u8,
    n: u64,
) -> Result<Result<Batch, DrawFault>, Fail>
    requires client { IsClientOf board.now pass.old }
    requires driver { (0 < driver) × (driver ≤ (setup_of board.now).drivers) }
    requires count { (0 < n) × (n < LOGICAL) }
    ensures client { IsClientOf board.now pass.new }
{
    pass.reserve(1)?;
    Ok(take(pass, board, driver, n))
}

fn got(term: u64, driver: u8, last: u64, count: u64) -> Result<Batch, DrawFault> {
    Ok(Batch {
        term,
        driver,
        last,
        count,
    })
}

// Driver 1 doesn't know that driver 2 leads, and grants until it saves. A client that heard of term 2
// draws no more at driver 1.
#[test]
fn drawn_by_the_limit_and_by_what_was_seen(rt: HostRuntime) -> Result<(), Fail> {
    let Oracle {
        board,
        mut first,
        mut second,
        mut one,
        mut two,
    } = new_oracle(rt.alloc())?;
    assert_eq!(rt; draw(&mut one, &board, 1, 3)?, Err(DrawFault::NotLeader));
    first.lead(&board, 1000);
    assert_eq!(rt; draw(&mut one, &board, 1, 3)?, got(1, 1, 262_144_003, 3));
    second.lead(&board, 500);
    assert_eq!(rt; draw(&mut two, &board, 2, 1)?, got(2, 2, 1_048_838_145, 1));
    assert_eq!(rt; draw(&mut one, &board, 1, 2)?, got(1, 1, 262_144_005, 2));
    let note = two.note(&board);
    one.meet(&board, note);
    assert_eq!(rt;
        draw(&mut one, &board, 1, 1)?,
        Err(DrawFault::Stale { seen_term: 2 })
    );
    first.tick(&board, 3999);
    assert_eq!(rt; draw(&mut two, &board, 1, 1)?, Err(DrawFault::NotLeader));
    Ok(())
}

// The logical part of a millisecond is used up, and a tick opens the next one.
#[test]
fn again_until_the_next_millisecond(rt: HostRuntime) -> Result<(), Fail> {
    let Oracle {
        board,
        mut first,
        mut one,
        ..
    } = new_oracle(rt.alloc())?;
    let won = LeadReply::Won {
        term: 1,
        lo: 1000,
        hi: 4000,
    };
    assert_eq!(rt; first.lead(&board, 1000), won);
    assert_eq!(rt;
        draw(&mut one, &board, 1, 262_143)?,
        got(1, 1, 262_406_143, 262_143)
    );
    let again = DrawFault::Again {
        at: 262_406_143,
        hi: 4000,
        n: 1,
    };
    assert_eq!(rt; draw(&mut one, &board, 1, 1)?, Err(again));
    let moved = TickReply::Moved {
        next: 1001,
        hi: 4000,
    };
    assert_eq!(rt; first.tick(&board, 1000), moved);
    assert_eq!(rt; draw(&mut one, &board, 1, 1)?, got(1, 1, 262_406_145, 1));
    Ok(())
}
