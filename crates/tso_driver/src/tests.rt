// Each answer of each call by one thread.
ghost use Rattle.std.specs.Prelude.{◌≡◌, ◌≤◌, IfOk};
ghost use Rattle.tso_board.specs.Seats.{IsSeatOf};
ghost use Rattle.tso_driver.specs.Drivers.{IsDriverOf, seat_of, spare_of};

use crate::{Driver, LeadReply, TickReply};
use pd_types::CellWord;
use std::alloc::Global;
use std::process::Abort;
use std::test::Fail;
use tso_board::{Board, Crew, DriverSeat, open};

// The clock's end, in milliseconds.
const END: u64 = 1 << 45;

// A driver on a seat that holds no term, with room for four claims.
fn driver_on(mut seat: DriverSeat) -> Result<Driver, Fail>
    ensures same { IfOk result (λ d. (seat_of d).seat.table_id ≡ seat.seat.table_id) }
    ensures spare { IfOk result (λ d. 4 ≤ spare_of d) }
{
    seat.reserve(4)?;
    match seat.held() {
        None => Ok(Driver::of(seat)),
        Some(_) => Err(Fail::new("a new seat holds a term")),
    }
}

// The two drivers of a new board.
fn two_drivers(alloc: Global, saved: u64, term: u64) -> Result<(Board, Driver, Driver), Fail>
    ensures first { IfOk result (λ r. IsDriverOf r.1 r.0 × (4 ≤ spare_of r.1)) }
    ensures second { IfOk result (λ r. IsDriverOf r.2 r.0 × (4 ≤ spare_of r.2)) }
{
    if saved >= END || term >= 1 << 18 {
        return Err(Fail::new("no cell"));
    }
    let Crew {
        board,
        mut seats,
        ..
    } = open(alloc, 2, 1, CellWord { saved, term })?;
    let Some(second) = seats.pop() else {
        return Err(Fail::new("no seat"));
    };
    let Some(first) = seats.pop() else {
        return Err(Fail::new("one seat"));
    };
    Ok((board, driver_on(first)?, driver_on(second)?))
}

fn won(term: u64, lo: u64, hi: u64) -> LeadReply {
    LeadReply::Won { term, lo, hi }
}

fn moved(next: u64, hi: u64) -> TickReply {
    TickReply::Moved { next, hi }
}

// A second driver campaigns, and the first one doesn't know it until it saves.
#[test]
fn first_driver_is_lost_to_the_second(rt: HostRuntime) -> Result<(), Fail> {
    let (board, mut first, mut second) = two_drivers(rt.alloc(), 0, 0)?;
    assert_eq!(rt; first.lead(&board, 1000), won(1, 1000, 4000));
    assert_eq!(rt; first.tick(&board, 900), TickReply::Idle);
    assert_eq!(rt; second.tick(&board, 900), TickReply::NotLeading);
    assert_eq!(rt; second.lead(&board, 500), won(2, 4001, 7001));
    let found = CellWord {
        saved: 7001,
        term: 2,
    };
    assert_eq!(rt; first.tick(&board, 3999), TickReply::Lost { found });
    assert_eq!(rt; first.tick(&board, 3999), TickReply::NotLeading);
    assert!(rt; !first.resign(&board) && second.resign(&board) && !second.resign(&board));
    Ok(())
}

// At 3,998 ms two milliseconds are left of the window, and at 3,999 ms one.
#[test]
fn tick_saves_where_a_millisecond_is_left(rt: HostRuntime) -> Result<(), Fail> {
    let (board, mut first, _) = two_drivers(rt.alloc(), 0, 0)?;
    assert_eq!(rt; first.lead(&board, 1000), won(1, 1000, 4000));
    assert_eq!(rt; first.tick(&board, 3998), moved(3998, 4000));
    let (board, mut first, _) = two_drivers(rt.alloc(), 0, 0)?;
    assert_eq!(rt; first.lead(&board, 1000), won(1, 1000, 4000));
    assert_eq!(rt; first.tick(&board, 3999), moved(3999, 6999));
    Ok(())
}

// The last term, and the end of the clock: of a lead and of a tick.
#[test]
fn terms_and_time_end(rt: HostRuntime) -> Result<(), Fail> {
    let (board, mut last, _) = two_drivers(rt.alloc(), 0, 262_143)?;
    assert_eq!(rt; last.lead(&board, 1000), LeadReply::TermsSpent);
    let (board, mut late, _) = two_drivers(rt.alloc(), 0, 0)?;
    assert_eq!(rt; late.lead(&board, END - 3000), LeadReply::ClockRange);
    assert_eq!(rt; late.lead(&board, END - 3001), won(1, END - 3001, END - 1));
    assert_eq!(rt; late.tick(&board, END - 2), TickReply::ClockRange);
    Ok(())
}
