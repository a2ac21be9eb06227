// A driver's worker: it answers its lines, one after the other, by its seat at the oracle and by its cluster.
ghost use Rattle.std.specs.Prelude.{◌≡◌, [], false, IfOk, OnOk, Option};
ghost use Rattle.std.specs.Option.{is_some};
ghost use Rattle.pd_state.specs.declared.entry.Entry.{Entry};
ghost use Rattle.pd_state.specs.declared.reply.Reply.{Reply};
ghost use Rattle.pd_shared.specs.Kept.{IsEntryOf};
ghost use Rattle.pd_shared.specs.Shares.{gains};
ghost use Rattle.pd_run.specs.Answers.{asked_besides};
ghost use Rattle.pd_run.specs.Heard.{seats_of};
ghost use Rattle.pd_run.specs.Turns.{IsAsked};
ghost use Rattle.pd_run.specs.Works.{DriverWorked, IsAtWork, IsNewDriver, LineAnswered, LineDone, LinesAnswered, Made, StaysAtWork};

use crate::answer::{DriverAnswer, DriverSays, asked_besides, gave_up};
use crate::line::{DriverLine, DriverTask};
use crate::shared::Shared;
use pd_shared::{ClusterName, Share, SharedCluster};
use pd_state::Reply;
use pd_types::{Actor, Gate, NoMemory, Request};
use sched_api::{Bench, Seated};
use std::alloc::Global;
use std::mem;
use std::sync::Wait;
use std::thread::Threads;
use tso_board::Board;
use tso_driver::Driver;
use tso_run::{DriverAsk, Work, answer, pass};

/// By which a driver answers: its seat at the oracle, its share of its cluster, and the bench that is lent
/// to it, if it has one.
#[derive(Drop)]
pub struct Means<N: ClusterName, B> {
    pub driver: Driver,
    pub share: Share<N>,
    pub bench: Option<B>,
}

/// A driver with the lines that it has to answer, and its answers.
#[derive(Drop)]
pub struct DriverWork<N: ClusterName, B> {
    pub number: u8,
    pub means: Means<N, B>,
    pub lines: Vec<DriverLine>,
    pub answers: Vec<DriverAnswer>,
    /// Memory was wanting, and the lines behind weren't answered.
    pub failed: bool,
}

// What the cluster replies to a share, over the bench; where there is none, over one without schedulers.
fn call<N: ClusterName, B: Seated, R: Wait>(
    rt: &R,
    alloc: Global,
    cluster: &SharedCluster<N>,
    share: &mut Share<N>,
    bench: &mut Option<B>,
    number: u32,
    request: Request,
) -> Result<Reply, NoMemory>
    requires share { share.old.cluster ≡ cluster.now }
    ensures ok { IfOk result (λ reply. Made B.seats number request reply share.old share.new bench.old bench.new) }
    ensures stays { (share.new.cluster ≡ share.old.cluster) × (share.new.actor ≡ share.old.actor) }
    ensures bench { is_some bench.new ≡ is_some bench.old }
{
    match bench {
        Some(bench) => cluster.call(rt, share, number, request, bench),
        None => {
            let mut none = Bench::empty(alloc);
            cluster.call(rt, share, number, request, &mut none)
        }
    }
}

// The same where nobody asks what the cluster replies.
fn tell<N: ClusterName, B: Seated, R: Wait>(
    rt: &R,
    alloc: Global,
    cluster: &SharedCluster<N>,
    share: &mut Share<N>,
    bench: &mut Option<B>,
    number: u32,
    request: Request,
) -> Result<(), NoMemory>
    requires share { share.old.cluster ≡ cluster.now }
    ensures ok { OnOk result ((reply : Reply) × Made B.seats number request reply share.old share.new bench.old bench.new) }
    ensures stays { (share.new.cluster ≡ share.old.cluster) × (share.new.actor ≡ share.old.actor) }
    ensures bench { is_some bench.new ≡ is_some bench.old }
{
    call(rt, alloc, cluster, share, bench, number, request)?;
    Ok(())
}

impl<N: ClusterName, B: Seated> Means<N, B> {
    // What the oracle answers; then the cluster hears where a term began or ended.
    fn by_oracle<R: Wait>(
        &mut self,
        rt: &R,
        alloc: Global,
        board: &Board,
        cluster: &SharedCluster<N>,
        number: u32,
        ask: DriverAsk,
    ) -> Result<DriverSays, NoMemory>
        requires at_work { IsAtWork board.now cluster.now self.old }
        ensures stays { StaysAtWork board.now self.old self.new }
        ensures ok { IfOk result (λ says. LineDone B.seats number (DriverTask.Oracle ask) says self.old self.new) }
    {
        let said = answer(&mut self.driver, board, ask)?;
        if let Some(request) = asked_besides(said) {
            tell(
                rt,
                alloc,
                cluster,
                &mut self.share,
                &mut self.bench,
                number,
                request,
            )?;
        }
        Ok(DriverSays::Oracle(said))
    }

    // What the cluster replies; where a command gave the term up, the driver resigns at the oracle too.
    fn by_cluster<R: Wait>(
        &mut self,
        rt: &R,
        alloc: Global,
        board: &Board,
        cluster: &SharedCluster<N>,
        number: u32,
        request: Request,
    ) -> Result<DriverSays, NoMemory>
        requires at_work { IsAtWork board.now cluster.now self.old }
        ensures stays { StaysAtWork board.now self.old self.new }
        ensures ok { IfOk result (λ says. LineDone B.seats number (DriverTask.Cluster request) says self.old self.new) }
    {
        let reply = call(
            rt,
            alloc,
            cluster,
            &mut self.share,
            &mut self.bench,
            number,
            request,
        )?;
        if !gave_up(&reply) {
            return Ok(DriverSays::Cluster(reply));
        }
        let held = self.driver.resign(board);
        Ok(DriverSays::Resigned { reply, held })
    }

    // What is answered to this.
    fn answer<R: Wait>(
        &mut self,
        rt: &R,
        alloc: Global,
        board: &Board,
        cluster: &SharedCluster<N>,
        number: u32,
        task: DriverTask,
    ) -> Result<DriverSays, NoMemory>
        requires at_work { IsAtWork board.now cluster.now self.old }
        ensures stays { StaysAtWork board.now self.old self.new }
        ensures ok { IfOk result (λ says. LineDone B.seats number task says self.old self.new) }
    {
        match task {
            DriverTask::Oracle(ask) => self.by_oracle(rt, alloc, board, cluster, number, ask),
            DriverTask::Cluster(request) => {
                self.by_cluster(rt, alloc, board, cluster, number, request)
            }
        }
    }
}

impl<N: ClusterName, B: Seated> DriverWork<N, B> {
    // Answers one of its lines, once the gate lets it.
    fn answer_line<R: Wait, G: Gate>(
        &mut self,
        rt: &R,
        shared: &Shared<'_, N, G>,
        cluster: &SharedCluster<N>,
        line: DriverLine,
    ) -> Result<(), NoMemory>
        requires at_work { IsAtWork shared.now.board.now cluster.now self.old.means }
        ensures stays { StaysAtWork shared.now.board.now self.old.means self.new.means }
        ensures number { self.new.number ≡ self.old.number }
        ensures failed { self.new.failed ≡ self.old.failed }
        ensures ok { OnOk result (LineAnswered B.seats line self.old self.new) }
    {
        let DriverLine { number, task } = line;
        let actor = Actor::Driver(self.number);
        self.answers.reserve(1)?;
        pass(shared.gate, actor, number);
        let says = self
            .means
            .answer(rt, shared.alloc, shared.board, cluster, number, task)?;
        self.answers
            .push_reserved(DriverAnswer { line: number, says });
        shared.gate.done(actor, number);
        Ok(())
    }

    // Answers these lines in order, as far as there is memory.
    fn answer_all<R: Wait, G: Gate>(
        &mut self,
        rt: &R,
        shared: &Shared<'_, N, G>,
        cluster: &SharedCluster<N>,
        lines: Vec<DriverLine>,
    )
        requires at_work { IsAtWork shared.now.board.now cluster.now self.old.means }
        requires first { self.old.answers.items ≡ [] }
        requires list { self.old.means.share.list ≡ [] }
        requires fine { self.old.failed ≡ false }
        ensures worked { LinesAnswered B.seats shared.now.board.now lines.items self.old self.new }
    {
        for line in lines {
            let Ok(()) = self.answer_line(rt, shared, cluster, line) else {
                self.failed = true;
                return;
            };
        }
    }

    // Answers its lines in order, as far as there is memory.
    fn drive<R: Wait, G: Gate>(&mut self, rt: &R, shared: &Shared<'_, N, G>)
        requires new { IsNewDriver shared.now.board.now shared.now.clusters.now self.old }
        ensures worked { DriverWorked B.seats shared.now.board.now self.old self.new }
    {
        let lines = mem::replace(&mut self.lines, Vec::new(shared.alloc));
        let cluster = &shared.clusters[(self.number - 1) as usize];
        self.answer_all(rt, shared, cluster, lines);
    }
}

impl<'a, N: ClusterName, B: Seated, G: Gate + Sync> Work<Shared<'a, N, G>> for DriverWork<N, B> {
    ghost use Rattle.pd_run.specs.Works.{DriverWorked, IsNewDriver};

    ghost ready = { λ shared w. IsNewDriver shared.board.now shared.clusters.now w };

    ghost done = { λ shared v w. DriverWorked B.seats shared.board.now v w };

    fn work<R: Threads + Wait + Sync>(&mut self, rt: &R, shared: &Shared<'a, N, G>) {
        self.drive(rt, shared);
    }
}
