// What lies behind the lock of a cluster.
ghost use Rattle.std.specs.Prelude.{◌≡◌, ◌++◌, ◌∷◌, [], List, All, None, false, IfOk, OnErr, OnOk};
ghost use Rattle.meta_store.specs.Seats.{new_seat};
ghost use Rattle.pd_state.specs.declared.entry.Entry.{Entry};
ghost use Rattle.pd_state.specs.Clusters.{Died, Served};
ghost use Rattle.pd_shared.specs.Kept.{Appended, IsKept};
ghost use Rattle.pd_shared.specs.Outlets.{AreOutletsOf, OutletValue};

use crate::name::ClusterName;
use crate::outlet::{Givers, push_all};
use meta_store::{MetaDoor, MetaSeat};
use pd_state::{Cluster, Entry, Reply};
use pd_turn::Tale;
use pd_types::{Actor, NoMemory, Request, StepMsg};
use sched_api::Seated;
use std::alloc::Global;
use std::marker::{Model, PhantomData};
use std::sync::Wait;

/// A cluster with its seat at the metadata and its outlets, and whether want of memory ended it.
/// Contracts see all but the last, which the cluster's value tells.
#[derive(Drop)]
pub struct Locked<N: ClusterName> {
    cluster: Cluster,
    seat: MetaSeat,
    givers: Givers,
    dead: bool,
    of: PhantomData<N>,
}

impl<N: ClusterName> Model for Locked<N> {
    ghost use Rattle.std.specs.Prelude.{◌≡◌};
    ghost use Rattle.std.specs.Coded.{codes};
    ghost use Rattle.pd_state.specs.contracts.part.Part as tables;
    ghost use Rattle.pd_shared.specs.Kept.{LockedValue, IsKept};

    ghost Value = { LockedValue };

    ghost coded = { Prim.hlevel (codes, tables.the_row.coded) };

    ghost view = { λ l. record { cluster = l.cluster; seat = l.seat; outlets = l.givers.items } };

    ghost invariant = { λ l. IsKept N.meta N.streams l.cluster l.seat l.givers.items × (l.dead ≡ l.cluster.dead) };
}

impl<N: ClusterName> Tale for Locked<N> {
    ghost use Rattle.pd_shared.specs.Kept.{tale_of};

    type Item = Entry;

    ghost tale = { λ l. tale_of l.cluster.entries };
}

/// What is left of a shared cluster: the cluster with its journal, its outlets with what was pushed, and
/// its seat.
#[derive(Drop)]
pub struct Closed<N: ClusterName> {
    pub cluster: Cluster,
    pub givers: Givers,
    pub seat: MetaSeat,
    of: PhantomData<N>,
}

// What the last entry of the cluster's journal sent.
fn last_sends(cluster: &Cluster) -> &[StepMsg]
    ensures value { (before : List Entry) (entry : Entry) → cluster.now.entries ≡ before ++ entry ∷ [] → result.now ≡ entry.sends }
{
    match cluster.journal().as_slice().last() {
        Some(entry) => entry.sends.as_slice(),
        None => &[],
    }
}

// Serves over the door of the seat, and the bench.
fn serve_at<R: Wait, B: Seated>(
    rt: &R,
    cluster: &mut Cluster,
    seat: &mut MetaSeat,
    actor: Actor,
    line: u32,
    request: Request,
    bench: &mut B,
) -> Result<Reply, NoMemory>
    requires driver { seat.old.driver ≡ cluster.old.driver }
    ensures ok { IfOk result (λ reply. Served cluster.old cluster.new (record { said_old = seat.old.list; said_new = seat.new.list; told_old = None; told_new = None }) (B.seats bench.old) (B.seats bench.new) actor line request reply) }
    ensures err { OnErr result (Died cluster.old cluster.new) }
    ensures turn { seat.new.turn ≡ seat.old.turn }
    ensures driver { seat.new.driver ≡ seat.old.driver }
{
    let mut door = MetaDoor::new(rt, seat);
    cluster.serve(actor, line, request, &mut door, bench)
}

impl<N: ClusterName> Locked<N> {
    /// A new cluster of a driver, with its seat, which made no call, and its outlets, into which nothing
    /// was pushed.
    pub fn new(alloc: Global, driver: u8, seat: MetaSeat, givers: Givers) -> Locked<N>
        requires seat { seat ≡ new_seat N.meta driver }
        requires givers { AreOutletsOf N.streams driver givers.items }
        requires none { All (λ (outlet : OutletValue). outlet.pushed ≡ []) givers.items }
        ensures entries { result.cluster.entries ≡ [] }
    {
        Locked {
            cluster: Cluster::new(alloc, driver),
            seat,
            givers,
            dead: false,
            of: PhantomData,
        }
    }

    /// Serves a request for an actor over a bench of schedulers, and then pushes what its entry sent.
    pub fn serve<R: Wait, B: Seated>(
        self,
        rt: &R,
        actor: Actor,
        line: u32,
        request: Request,
        bench: &mut B,
    ) -> (Locked<N>, Result<Reply, NoMemory>)
        ensures ok { IfOk result.1 (λ reply. Appended self.cluster.entries result.0.cluster.entries (B.seats bench.old) (B.seats bench.new) actor line request reply) }
        ensures err { OnErr result.1 (result.0.cluster.entries ≡ self.cluster.entries) }
    {
        let Locked {
            mut cluster,
            mut seat,
            mut givers,
            dead: _,
            of,
        } = self;
        match serve_at(rt, &mut cluster, &mut seat, actor, line, request, bench) {
            Ok(reply) => {
                push_all(rt, &mut givers, last_sends(&cluster));
                let locked = Locked {
                    cluster,
                    seat,
                    givers,
                    dead: false,
                    of,
                };
                (locked, Ok(reply))
            }
            Err(fault) => {
                let locked = Locked {
                    cluster,
                    seat,
                    givers,
                    dead: true,
                    of,
                };
                (locked, Err(fault))
            }
        }
    }

    /// Takes it apart, unless want of memory ended it. The type of what lies behind a lock doesn't tell its
    /// driver, which is therefore compared with the one that it was opened for; they never differ.
    pub fn close(self, driver: u8) -> Result<Closed<N>, NoMemory>
        ensures driver { IfOk result (λ closed. closed.cluster.driver ≡ driver) }
        ensures alive { IfOk result (λ closed. closed.cluster.dead ≡ false) }
        ensures kept { IfOk result (λ closed. IsKept N.meta N.streams closed.cluster closed.seat closed.givers.items) }
        ensures cluster { IfOk result (λ closed. closed.cluster ≡ self.cluster) }
    {
        if self.dead || self.seat.driver() != driver {
            return Err(NoMemory);
        }
        let Locked {
            cluster,
            seat,
            givers,
            dead: _,
            of,
        } = self;
        Ok(Closed {
            cluster,
            givers,
            seat,
            of,
        })
    }
}
