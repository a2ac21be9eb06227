// The workers of clients before they begin.
ghost use Rattle.std.specs.Prelude.{◌≡◌, ◌≤◌, All, IfOk, map};
ghost use Rattle.pd_types.specs.declared.oracle.TheConstants.{MAX_CLIENTS};
ghost use Rattle.tso_model.specs.Moves.{numbers_from, client_view};
ghost use Rattle.tso_board.specs.Boards.{board_id, setup_of};
ghost use Rattle.tso_board.specs.Passes.{IsPassOf, pass_view};
ghost use Rattle.tso_client.specs.Slips.{clients_of, new_slip};
ghost use Rattle.tso_run.specs.Works.{IsNewClient};

use crate::caller::ClientWork;
use pd_types::NoMemory;
use std::alloc::Global;
use tso_board::{Board, Pass};
use tso_client::{BoardName, Post, Slips};

/// A worker for each client, by rising numbers.
pub fn client_works<N: BoardName>(
    alloc: Global,
    _board: &Board,
    _post: &Post<N>,
    passes: Vec<Pass>,
    slips: Slips<N>,
) -> Result<Vec<ClientWork<N>>, NoMemory>
    requires named { board_id _board.now ≡ N.board }
    requires clients { clients_of _post.now ≡ (setup_of _board.now).clients }
    requires few { (setup_of _board.now).clients ≤ MAX_CLIENTS }
    requires passes { All (λ p. IsPassOf p _board.now) passes.items }
    requires views { map pass_view passes.items ≡ map (client_view (setup_of _board.now)) (numbers_from 1 (setup_of _board.now).clients) }
    requires slips { slips.items ≡ map (new_slip _post.now) (numbers_from 1 (setup_of _board.now).clients) }
    ensures new { IfOk result (λ works. All (IsNewClient N.board _board.now _post.now) works.items) }
    ensures numbers { IfOk result (λ works. map (λ w. w.number) works.items ≡ numbers_from 1 (setup_of _board.now).clients) }
{
    let mut works = Vec::new(alloc);
    let mut slips = slips.into_iter();
    let mut number = 0u8;
    for pass in passes {
        number += 1;
        let Some(slip) = slips.next() else {
            unreachable!()
        };
        works.push(ClientWork {
            number,
            pass,
            slip,
            answers: Vec::new(alloc),
            failed: false,
        })?;
    }
    Ok(works)
}
