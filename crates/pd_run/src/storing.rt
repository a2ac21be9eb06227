// A store's worker: it answers its lines, one after the other, by its share of each driver's cluster and by
// the stream from it.
ghost use Rattle.std.specs.Prelude.{◌≡◌, [], false, All, IfOk, OnOk, length};
ghost use Rattle.std.specs.Arc.{arc_value};
ghost use Rattle.pd_run.specs.Tasks.{GoesTo};
ghost use Rattle.pd_run.specs.Works.{ArePorts, HasDoneNothing, IsNewStore, PortDone, StaysPort, StoreLineAnswered, StoreLinesAnswered, StoreWorked, streams_at};

use crate::answer::{StoreAnswer, StoreSays};
use crate::line::{StoreLine, StoreTask};
use crate::shared::Shared;
use pd_shared::{ClusterName, Share, SharedCluster};
use pd_types::{Actor, Gate, NoMemory};
use sched_api::Bench;
use std::alloc::Global;
use std::mem;
use std::sync::{Arc, Wait};
use std::thread::Threads;
use step_stream::{Stream, Taker};
use tso_run::{Work, pass};

/// By which a store reaches one driver's cluster: its share, and the stream of steps with the end that
/// pops.
#[derive(Drop)]
pub struct Port<N: ClusterName> {
    pub share: Share<N>,
    pub stream: Arc<Stream, Global>,
    pub taker: Taker,
}

/// A store with a port to each driver's cluster, from the first driver's on, the lines that it has to
/// answer, and its answers.
#[derive(Drop)]
pub struct StoreWork<N: ClusterName> {
    pub store: u64,
    pub ports: Vec<Port<N>>,
    pub lines: Vec<StoreLine>,
    pub answers: Vec<StoreAnswer>,
    /// Memory was wanting, and the lines behind weren't answered.
    pub failed: bool,
}

impl<N: ClusterName> Port<N> {
    // What the cluster replies, or the step that was taken. No request of a store asks the bench.
    fn answer<R: Wait>(
        &mut self,
        rt: &R,
        alloc: Global,
        cluster: &SharedCluster<N>,
        number: u32,
        task: StoreTask,
    ) -> Result<StoreSays, NoMemory>
        requires cluster { self.old.share.cluster ≡ cluster.now }
        requires stream { self.old.taker.stream ≡ arc_value self.old.stream }
        ensures stays { StaysPort self.old self.new }
        ensures ok { IfOk result (λ says. PortDone number task says self.old self.new) }
    {
        match task {
            StoreTask::Ask(request) => {
                let mut bench = Bench::empty(alloc);
                let reply = cluster.call(rt, &mut self.share, number, request, &mut bench)?;
                Ok(StoreSays::Cluster(reply))
            }
            StoreTask::Pop => Ok(StoreSays::Popped(self.stream.pop(rt, &mut self.taker))),
        }
    }
}

impl<N: ClusterName> StoreWork<N> {
    // Answers one of its lines, once the gate lets it.
    fn answer_line<R: Wait, G: Gate>(
        &mut self,
        rt: &R,
        shared: &Shared<'_, N, G>,
        clusters: &[SharedCluster<N>],
        line: StoreLine,
    ) -> Result<(), NoMemory>
        requires ports { ArePorts self.old.store clusters.now self.old.ports.items }
        requires line { GoesTo (length clusters.now) line }
        ensures ports { ArePorts self.old.store clusters.now self.new.ports.items }
        ensures streams { streams_at self.new.ports.items ≡ streams_at self.old.ports.items }
        ensures store { self.new.store ≡ self.old.store }
        ensures failed { self.new.failed ≡ self.old.failed }
        ensures ok { OnOk result (StoreLineAnswered line self.old self.new) }
    {
        let StoreLine {
            number,
            driver,
            task,
        } = line;
        let actor = Actor::Store(self.store);
        self.answers.reserve(1)?;
        pass(shared.gate, actor, number);
        let place = (driver - 1) as usize;
        let cluster = &clusters[place];
        let port = &mut self.ports[place];
        let says = port.answer(rt, shared.alloc, cluster, number, task)?;
        self.answers.push_reserved(StoreAnswer {
            line: number,
            driver,
            says,
        });
        shared.gate.done(actor, number);
        Ok(())
    }

    // Answers these lines in order, as far as there is memory.
    fn answer_all<R: Wait, G: Gate>(
        &mut self,
        rt: &R,
        shared: &Shared<'_, N, G>,
        clusters: &[SharedCluster<N>],
        lines: Vec<StoreLine>,
    )
        requires ports { ArePorts self.old.store clusters.now self.old.ports.items }
        requires lines { All (GoesTo (length clusters.now)) lines.items }
        requires first { self.old.answers.items ≡ [] }
        requires none { HasDoneNothing self.old.ports.items }
        requires fine { self.old.failed ≡ false }
        ensures worked { StoreLinesAnswered clusters.now lines.items self.old self.new }
    {
        for line in lines {
            let Ok(()) = self.answer_line(rt, shared, clusters, line) else {
                self.failed = true;
                return;
            };
        }
    }

    // Answers its lines in order, as far as there is memory.
    fn act<R: Wait, G: Gate>(&mut self, rt: &R, shared: &Shared<'_, N, G>)
        requires new { IsNewStore shared.now.clusters.now self.old }
        ensures worked { StoreWorked shared.now.clusters.now self.old self.new }
    {
        let lines = mem::replace(&mut self.lines, Vec::new(shared.alloc));
        self.answer_all(rt, shared, shared.clusters, lines);
    }
}

impl<'a, N: ClusterName, G: Gate + Sync> Work<Shared<'a, N, G>> for StoreWork<N> {
    ghost use Rattle.pd_run.specs.Works.{IsNewStore, StoreWorked};

    ghost ready = { λ shared w. IsNewStore shared.clusters.now w };

    ghost done = { λ shared v w. StoreWorked shared.clusters.now v w };

    fn work<R: Threads + Wait + Sync>(&mut self, rt: &R, shared: &Shared<'a, N, G>) {
        self.act(rt, shared);
    }
}
