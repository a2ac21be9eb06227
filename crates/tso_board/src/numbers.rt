// Words of the board as numbers, and what the steps make of them.
ghost use Rattle.std.specs.Prelude.{◌≡◌, ◌<◌};
ghost use Rattle.std.specs.Option.{ForSome};
ghost use Rattle.pd_types.specs.declared.oracle.TheConstants.{CLOCK_END};
ghost use Rattle.tso_board.specs.Kept.{hand_by, marks_of};

use pd_types::LOGICAL;
use tso_model::{Claim, Limit};

/// Whether the held window is marked as raised, once the cursor was raised to `at`.
pub fn marks(holds: bool, marked: bool, latest: Option<Claim>, at: u64) -> bool
    requires low { ForSome latest (λ c. c.window.lo < CLOCK_END) }
    ensures value { result ≡ marks_of holds marked latest at }
{
    match latest {
        Some(Claim { window, .. }) => {
            let is_raised = holds && window.lo < window.hi && at >= window.lo * LOGICAL;
            is_raised || marked
        }
        None => marked,
    }
}

/// The limit that a loaded word brings into hand, or none where it is 0 or stale.
pub fn hand_of(driver: u8, word: u64, seen_term: u64) -> Option<Limit>
    ensures value { result ≡ hand_by driver word seen_term }
{
    let term = word % LOGICAL;
    if word == 0 || term < seen_term {
        return None;
    }
    Some(Limit {
        driver,
        term,
        hi: word / LOGICAL,
    })
}
