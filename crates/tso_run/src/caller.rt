// A client's worker: it answers its lines, one after the other.
ghost use Rattle.std.specs.Prelude.{◌≡◌, ◌<◌, ◌≤◌, All, IfOk, OnOk};
ghost use Rattle.pd_types.specs.declared.stamp.TheConstants.{LOGICAL};
ghost use Rattle.tso_model.specs.Steps.{AtRest};
ghost use Rattle.tso_board.specs.Boards.{board_id, setup_of};
ghost use Rattle.tso_board.specs.Passes.{IsPassOf, pass_view};
ghost use Rattle.tso_client.specs.Slips.{clients_of};
ghost use Rattle.tso_outcome.specs.Clients.{ClientDid, PassDid};
ghost use Rattle.tso_outcome.specs.declared.said.ClientSaid.TheVariants.{Heard, Told, Took};
ghost use Rattle.tso_run.specs.Lines.{IsCall, client_ask};
ghost use Rattle.tso_run.specs.Works.{ClientAnswered, ClientWorked, IsClientAtWork, IsNewClient, client_of};

use crate::halve::Work;
use crate::line::{ClientAsk, ClientLine};
use crate::shared::{Shared, pass};
use pd_types::{Actor, Batch, Gate, NoMemory, Seen};
use std::sync::Wait;
use std::thread::Threads;
use tso_board::{Board, Pass};
use tso_client::{BoardName, DrawFault, Post, Slip, take};
use tso_outcome::{ClientAnswer, ClientSaid};

/// A client with its answers.
#[derive(Drop)]
pub struct ClientWork<N: BoardName> {
    pub number: u8,
    pub pass: Pass,
    pub slip: Slip<N>,
    pub answers: Vec<ClientAnswer>,
    /// Memory was wanting, and the lines behind weren't answered.
    pub failed: bool,
}

// The pair of the oldest note that waits, which the pass has seen then.
fn hear<N: BoardName, R: Wait>(
    rt: &R,
    pass: &mut Pass,
    slip: &mut Slip<N>,
    board: &Board,
    post: &Post<N>,
    line: u32,
) -> Result<Option<Seen>, NoMemory>
    requires board { IsPassOf pass.old board.now }
    requires named { board_id board.now ≡ N.board }
    requires rest { AtRest (pass_view pass.old) }
    requires slip { slip.old.post ≡ post.now }
    requires own { slip.old.client ≡ (pass_view pass.old).client }
    ensures board { IsPassOf pass.new board.now }
    ensures rest { AtRest (pass_view pass.new) }
    ensures slip { slip.new.post ≡ slip.old.post }
    ensures own { slip.new.client ≡ (pass_view pass.new).client }
    ensures did { IfOk result (λ note. ClientDid line (Heard note) (client_of pass.old slip.old) (client_of pass.new slip.new)) }
{
    let Some(note) = post.hear(rt, slip, line)? else {
        return Ok(None);
    };
    let seen = note.seen();
    pass.meet(board, note);
    Ok(Some(seen))
}

// Leaves a note of what the pass has seen.
fn tell<N: BoardName, R: Wait>(
    rt: &R,
    pass: &mut Pass,
    slip: &mut Slip<N>,
    board: &Board,
    post: &Post<N>,
    to: u8,
    line: u32,
) -> Result<(), NoMemory>
    requires board { IsPassOf pass.old board.now }
    requires named { board_id board.now ≡ N.board }
    requires rest { AtRest (pass_view pass.old) }
    requires slip { slip.old.post ≡ post.now }
    requires own { slip.old.client ≡ (pass_view pass.old).client }
    requires to { (0 < to) × (to ≤ clients_of post.now) }
    ensures board { IsPassOf pass.new board.now }
    ensures rest { AtRest (pass_view pass.new) }
    ensures slip { slip.new.post ≡ slip.old.post }
    ensures own { slip.new.client ≡ (pass_view pass.new).client }
    ensures did { OnOk result (ClientDid line (Told to) (client_of pass.old slip.old) (client_of pass.new slip.new)) }
{
    let note = pass.note(board);
    match post.tell(rt, slip, to, line, note) {
        Ok(()) => Ok(()),
        Err(_) => Err(NoMemory),
    }
}

// Draws timestamps, and keeps the batch.
fn draw(
    pass: &mut Pass,
    board: &Board,
    driver: u8,
    n: u64,
) -> Result<Result<Batch, DrawFault>, NoMemory>
    requires board { IsPassOf pass.old board.now }
    requires rest { AtRest (pass_view pass.old) }
    requires driver { (0 < driver) × (driver ≤ (setup_of board.now).drivers) }
    requires count { (0 < n) × (n < LOGICAL) }
    ensures board { IsPassOf pass.new board.now }
    ensures rest { AtRest (pass_view pass.new) }
    ensures did { IfOk result (λ answer. PassDid (Took driver n answer) (pass_view pass.old) (pass_view pass.new)) }
    ensures client { (pass_view pass.new).client ≡ (pass_view pass.old).client }
{
    pass.reserve(1)?;
    Ok(take(pass, board, driver, n))
}

// What the client answers.
fn answer<N: BoardName, R: Wait>(
    rt: &R,
    pass: &mut Pass,
    slip: &mut Slip<N>,
    board: &Board,
    post: &Post<N>,
    line: ClientLine,
) -> Result<ClientSaid, NoMemory>
    requires board { IsPassOf pass.old board.now }
    requires named { board_id board.now ≡ N.board }
    requires rest { AtRest (pass_view pass.old) }
    requires slip { slip.old.post ≡ post.now }
    requires own { slip.old.client ≡ (pass_view pass.old).client }
    requires clients { clients_of post.now ≡ (setup_of board.now).clients }
    requires call { IsCall (setup_of board.now) line.ask }
    ensures board { IsPassOf pass.new board.now }
    ensures rest { AtRest (pass_view pass.new) }
    ensures slip { slip.new.post ≡ slip.old.post }
    ensures own { slip.new.client ≡ (pass_view pass.new).client }
    ensures asked { IfOk result (λ said. client_ask said ≡ line.ask) }
    ensures did { IfOk result (λ said. ClientDid line.number said (client_of pass.old slip.old) (client_of pass.new slip.new)) }
{
    match line.ask {
        ClientAsk::Take { driver, n } => {
            let answer = draw(pass, board, driver, n)?;
            Ok(ClientSaid::Took { driver, n, answer })
        }
        ClientAsk::Tell { to } => {
            tell(rt, pass, slip, board, post, to, line.number)?;
            Ok(ClientSaid::Told { to })
        }
        ClientAsk::Hear => {
            let note = hear(rt, pass, slip, board, post, line.number)?;
            Ok(ClientSaid::Heard { note })
        }
    }
}

impl<N: BoardName> ClientWork<N> {
    // Answers one of its lines, once the gate lets it.
    fn answer_line<R: Wait, G: Gate>(
        &mut self,
        rt: &R,
        board: &Board,
        post: &Post<N>,
        gate: &G,
        line: ClientLine,
    ) -> Result<(), NoMemory>
        requires kept { IsClientAtWork N.board board.now post.now self.old }
        requires call { IsCall (setup_of board.now) line.ask }
        ensures kept { IsClientAtWork N.board board.now post.now self.new }
        ensures number { self.new.number ≡ self.old.number }
        ensures failed { self.new.failed ≡ self.old.failed }
        ensures ok { OnOk result (ClientAnswered line self.old self.new) }
    {
        let actor = Actor::Client(self.number);
        self.answers.reserve(1)?;
        pass(gate, actor, line.number);
        let said = answer(rt, &mut self.pass, &mut self.slip, board, post, line)?;
        self.answers.push_reserved(ClientAnswer {
            line: line.number,
            said,
        });
        gate.done(actor, line.number);
        Ok(())
    }

    // Answers its lines in order, as far as there is memory.
    fn call<R: Wait, G: Gate>(
        &mut self,
        rt: &R,
        board: &Board,
        post: &Post<N>,
        gate: &G,
        lines: &[ClientLine],
    )
        requires new { IsNewClient N.board board.now post.now self.old }
        requires calls { All (λ line. IsCall (setup_of board.now) line.ask) lines.now }
        ensures worked { ClientWorked board.now post.now lines.now self.old self.new }
    {
        for line in lines {
            if line.client != self.number {
                continue;
            }
            let Ok(()) = self.answer_line(rt, board, post, gate, *line) else {
                self.failed = true;
                return;
            };
        }
    }
}

impl<'a, N: BoardName, G: Gate + Sync> Work<Shared<'a, N, G>> for ClientWork<N> {
    ghost use Rattle.std.specs.Prelude.{All};
    ghost use Rattle.tso_board.specs.Boards.{setup_of};
    ghost use Rattle.tso_run.specs.Lines.{IsCall};
    ghost use Rattle.tso_run.specs.Works.{ClientWorked, IsNewClient};

    ghost ready = { λ shared w. IsNewClient N.board shared.board.now shared.post.now w × All (λ line. IsCall (setup_of shared.board.now) line.ask) shared.clients.now };

    ghost done = { λ shared v w. ClientWorked shared.board.now shared.post.now shared.clients.now v w };

    fn work<R: Threads + Wait + Sync>(&mut self, rt: &R, shared: &Shared<'a, N, G>) {
        self.call(rt, shared.board, shared.post, shared.gate, shared.clients);
    }
}
