// What the workers of a run bring back.
ghost use Rattle.std.specs.Prelude.{◌≡◌, All, IfOk, false, map};
ghost use Rattle.tso_run.specs.Runs.{client_answers};

use crate::caller::ClientWork;
use pd_types::NoMemory;
use std::alloc::Global;
use tso_board::Pass;
use tso_client::{BoardName, Slips};
use tso_outcome::ClientAnswer;

/// A client's answers, in the order of its lines.
#[derive(Drop)]
pub struct ClientAnswers {
    pub number: u8,
    pub answers: Vec<ClientAnswer>,
}

/// What all clients bring back.
#[derive(Drop)]
pub struct ClientParts<N: BoardName> {
    pub passes: Vec<Pass>,
    pub slips: Slips<N>,
    pub answers: Vec<ClientAnswers>,
}

/// The passes, the slips and the answers of all clients, unless memory was wanting to one of them.
pub fn client_parts<N: BoardName>(
    alloc: Global,
    works: Vec<ClientWork<N>>,
) -> Result<ClientParts<N>, NoMemory>
    ensures fine { IfOk result (λ r. All (λ w. w.failed ≡ false) works.items) }
    ensures passes { IfOk result (λ r. r.passes.items ≡ map (λ w. w.pass) works.items) }
    ensures slips { IfOk result (λ r. r.slips.items ≡ map (λ w. w.slip) works.items) }
    ensures answers { IfOk result (λ r. r.answers.items ≡ map client_answers works.items) }
{
    let mut parts = ClientParts {
        passes: Vec::new(alloc),
        slips: Vec::new(alloc),
        answers: Vec::new(alloc),
    };
    for work in works {
        if work.failed {
            return Err(NoMemory);
        }
        parts.passes.push(work.pass)?;
        parts.slips.push(work.slip)?;
        parts.answers.push(ClientAnswers {
            number: work.number,
            answers: work.answers,
        })?;
    }
    Ok(parts)
}
