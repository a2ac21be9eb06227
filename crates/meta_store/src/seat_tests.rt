// Drivers at metadata that they share, by one thread.
ghost use Rattle.std.specs.Prelude.{◌≡◌, All};
ghost use Rattle.pd_turn.specs.Turns.{TurnValue};
ghost use Rattle.meta_store.specs.Seats.{AreSeatsOf};

use crate::{Door, MetaDoor, MetaFault, MetaSeat, MetaSeats, MetaVerdict};
use std::process::Abort;
use std::sync::Wait;
use std::test::Fail;

// Announces a term by the seat's driver, and then writes one key at this revision.
fn lead_and_put<R: Wait>(
    rt: &R,
    seat: &mut MetaSeat,
    term: u64,
    expected: u64,
) -> Result<u64, MetaFault>
    ensures turn { seat.new.turn ≡ seat.old.turn }
{
    let driver = seat.driver();
    let mut door = MetaDoor::new(rt, seat);
    door.lead(driver, term)?;
    door.put_if(driver, term, b"id", expected, b"1001000")
}

// Driver 6 is fenced off by the term of driver 7, whose write then finds no record of the key. What both
// did is in the journal, in its order.
#[test]
fn a_later_term_fences_another_drivers_writes(rt: HostRuntime) -> Result<(), Fail> {
    let mut all = MetaSeats::open(rt.alloc())?;
    assert_eq!(rt; all.seats.len(), 8);
    let (Some(mut seven), Some(mut six)) = (all.seats.pop(), all.seats.pop()) else {
        return Err(Fail::new("no seats"));
    };
    assert_eq!(rt; (six.driver(), seven.driver()), (6, 7));
    assert_eq!(rt; lead_and_put(&rt, &mut six, 1, 0), Ok(1));
    assert_eq!(rt;
        lead_and_put(&rt, &mut seven, 2, 0),
        Err(MetaFault::Conflict { found: 1 })
    );
    assert_eq!(rt;
        lead_and_put(&rt, &mut six, 1, 1),
        Err(MetaFault::OldTerm { fence: 2 })
    );
    all.seats.push(six)?;
    all.seats.push(seven)?;
    let journal = all.close(&rt)?;
    let mut said = Vec::new(rt.alloc());
    for entry in journal.as_slice() {
        said.push((entry.driver, entry.verdict))?;
    }
    let verdicts = [
        (6, MetaVerdict::Accepted { revision: 0 }),
        (6, MetaVerdict::Accepted { revision: 1 }),
        (7, MetaVerdict::Accepted { revision: 1 }),
        (7, MetaVerdict::Conflict { found: 1 }),
        (6, MetaVerdict::OldTerm { fence: 2 }),
    ];
    assert!(rt; said.as_slice() == verdicts.as_slice());
    Ok(())
}
