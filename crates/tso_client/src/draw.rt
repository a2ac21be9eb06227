// A whole draw.
ghost use Rattle.std.specs.Prelude.{◌≡◌, ℕ, ◌+◌, ◌<◌, ◌≤◌, OnOk, OnErr};
ghost use Rattle.pd_types.specs.declared.stamp.TheConstants.{LOGICAL};
ghost use Rattle.tso_model.specs.Steps.{AtRest};
ghost use Rattle.tso_board.specs.Boards.{setup_of};
ghost use Rattle.tso_board.specs.Passes.{IsPassOf, pass_spare, pass_view};
ghost use Rattle.tso_client.specs.Draws.{Took};
ghost use Rattle.tso_client.specs.Takes.{Takes};

use pd_types::{Batch, LOGICAL};
use tso_board::{Board, Pass};

/// Why a draw grants nothing.
#[derive(Clone, Copy, Debug, Drop, PartialEq, Eq)]
pub enum DrawFault {
    /// The driver's limit was 0: it holds no term, or didn't open its window yet.
    NotLeader,
    /// The driver's limit is of a term below this one, which the client has seen.
    Stale { seen_term: u64 },
    /// At the cursor `at` that was found, `n` timestamps reach the end `hi` of the limit, or pass the
    /// logical part.
    Again { at: u64, hi: u64, n: u64 },
}

/// Draws `n` timestamps, 1 to 262,143, at a driver of the board. A batch is above all that the client had
/// seen, by its term and by its timestamps. It waits for nobody, takes no lock and no memory: one load of
/// the limit, one of the cursor, and one fetch-add. After a fault the client has seen what it had seen.
pub fn take(pass: &mut Pass, board: &Board, driver: u8, n: u64) -> Result<Batch, DrawFault>
    requires board { IsPassOf pass.old board.now }
    requires driver { (0 < driver) × (driver ≤ (setup_of board.now).drivers) }
    requires count { (0 < n) × (n < LOGICAL) }
    requires rest { AtRest (pass_view pass.old) }
    requires spare { 0 < pass_spare pass.old }
    ensures board { IsPassOf pass.new board.now }
    ensures made { Takes driver n result (pass_view pass.old) (pass_view pass.new) }
    ensures took { Took driver n result (pass_view pass.old) (pass_view pass.new) }
    ensures rest { AtRest (pass_view pass.new) }
    ensures ok { OnOk result (pass_spare pass.old ≡ pass_spare pass.new + 1) }
    ensures err { OnErr result (pass_spare pass.new ≡ pass_spare pass.old) }
{
    let word = pass.look(board, driver);
    if word == 0 {
        return Err(DrawFault::NotLeader);
    }
    let seen = pass.seen();
    if word % LOGICAL < seen.term {
        return Err(DrawFault::Stale {
            seen_term: seen.term,
        });
    }
    let hi = word / LOGICAL;
    if let Err(at) = pass.arm(board, n) {
        return Err(DrawFault::Again { at, hi, n });
    }
    match pass.draw(board) {
        Err(at) => Err(DrawFault::Again { at, hi, n }),
        Ok(batch) => Ok(batch),
    }
}
