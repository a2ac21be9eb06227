// A cluster that actors share, each by its share.
ghost use Rattle.std.specs.Prelude.{◌≡◌, ◌++◌, ◌∷◌, [], ℕ, All, Contains, map, None, false, IfOk, OnErr};
ghost use Rattle.pd_turn.specs.Turns.{AreApart, new_ticket, ticket_value};
ghost use Rattle.meta_store.specs.Seats.{new_seat};
ghost use Rattle.pd_state.specs.declared.entry.Entry.{Entry};
ghost use Rattle.pd_shared.specs.Benches.{IsOver};
ghost use Rattle.pd_shared.specs.Kept.{IsEntryOf, IsKept};
ghost use Rattle.pd_shared.specs.Outlets.{AreOutletsOf, OutletValue};
ghost use Rattle.pd_shared.specs.Shares.{AreSharesOf, Called, IsInJournal, IsOpen, IsOwn, actor_of, actors_of, new_share, share_by, ticket_by};

use crate::locked::{Closed, Locked};
use crate::name::ClusterName;
use crate::outlet::Givers;
use meta_store::MetaSeat;
use pd_state::Reply;
use pd_turn::{Ticket, Turn};
use pd_types::{Actor, Ids, NoMemory, Request};
use sched_api::Seated;
use std::alloc::Global;
use std::marker::Model;
use std::sync::Wait;

/// The cluster of a driver, behind a lock. Contracts see its turn and its driver.
#[derive(Drop)]
pub struct SharedCluster<N: ClusterName> {
    driver: u8,
    turn: Turn<Locked<N>>,
    alloc: Global,
}

impl<N: ClusterName> Model for SharedCluster<N> {
    ghost use Rattle.std.specs.Prelude.{◌<◌, length};
    ghost use Rattle.pd_shared.specs.Shares.{SharedValue, shared_of};

    ghost Value = { SharedValue };

    ghost view = { λ s. shared_of s.turn s.driver };

    ghost invariant = { λ s. 0 < length s.turn.numbers };
}

/// The share of the driver or of a store, by which it calls the cluster. Contracts see the cluster, whose
/// share it is, and the entries of its own calls.
#[derive(Drop)]
pub struct Share<N: ClusterName> {
    driver: u8,
    ticket: Ticket<Locked<N>>,
}

impl<N: ClusterName> Model for Share<N> {
    ghost use Rattle.pd_shared.specs.Shares.{IsOpen, ShareValue, share_by};

    ghost Value = { ShareValue };

    ghost view = { λ s. share_by s.driver s.ticket };

    ghost invariant = { λ s. IsOpen s.driver s.ticket };
}

/// A share for the driver, and one for each store.
pub type Shares<N> = Vec<Share<N>>;

impl<N: ClusterName> SharedCluster<N> {
    /// Serves a request for the share's actor, over the seat of the cluster's driver at the metadata and
    /// over the bench, which is the driver's, and pushes the steps that its entry sent, all under one turn
    /// of the lock, for which it waits. Want of memory leaves the share's list, and ends the cluster: every
    /// later call answers it too; what the bench did stays done.
    pub fn call<R: Wait, B: Seated>(
        &self,
        rt: &R,
        share: &mut Share<N>,
        line: u32,
        request: Request,
        bench: &mut B,
    ) -> Result<Reply, NoMemory>
        requires share { share.old.cluster ≡ self.now }
        ensures ok { IfOk result (λ reply. Called share.old share.new (B.seats bench.old) (B.seats bench.new) line request reply) }
        ensures err { OnErr result (share.new ≡ share.old) }
    {
        call_by(
            rt,
            &self.turn,
            &mut share.ticket,
            share.driver,
            line,
            request,
            bench,
        )
    }

    /// The cluster of a driver behind a lock, with its seat at the named metadata, which made no call, and
    /// an outlet for each stream that is named for this driver, into which nothing was pushed; with a share
    /// for the driver, and then one for each store, whose ids are distinct and not 0. After want of memory
    /// what was handed in is gone.
    pub fn open(
        alloc: Global,
        driver: u8,
        seat: MetaSeat,
        givers: Givers,
        stores: &Ids,
    ) -> Result<(SharedCluster<N>, Shares<N>), NoMemory>
        requires seat { seat ≡ new_seat N.meta driver }
        requires givers { AreOutletsOf N.streams driver givers.items }
        requires none { All (λ (outlet : OutletValue). outlet.pushed ≡ []) givers.items }
        requires stores { AreApart (0 ∷ stores.now) }
        ensures driver { IfOk result (λ r. r.0.driver ≡ driver) }
        ensures numbers { IfOk result (λ r. r.0.turn.numbers ≡ 0 ∷ stores.now) }
        ensures shares { IfOk result (λ r. r.1.items ≡ map (new_share r.0) (actors_of r.0)) }
    {
        let numbers = numbers(alloc, stores)?;
        let locked = Locked::new(alloc, driver, seat, givers);
        let (turn, tickets) = Turn::open(alloc, locked, &numbers)?;
        let shares = shares_of(alloc, driver, tickets)?;
        Ok((
            SharedCluster {
                driver,
                turn,
                alloc,
            },
            shares,
        ))
    }

    /// Ends the sharing and hands back the cluster, which is alive, its outlets and its seat: of all shares
    /// of this cluster, in any order. Each share's list is its actor's entries in the journal, in their
    /// order, and no other actor has one there. It waits for its turn. Where want of memory ended the
    /// cluster it answers that.
    pub fn close<R: Wait>(self, rt: &R, shares: Shares<N>) -> Result<Closed<N>, NoMemory>
        requires shares { AreSharesOf self shares.items }
        ensures driver { IfOk result (λ closed. closed.cluster.driver ≡ self.driver) }
        ensures alive { IfOk result (λ closed. closed.cluster.dead ≡ false) }
        ensures kept { IfOk result (λ closed. IsKept N.meta N.streams closed.cluster closed.seat closed.givers.items) }
        ensures lists { IfOk result (λ closed. All (IsInJournal closed.cluster.entries) shares.items) }
        ensures callers { IfOk result (λ closed. All (λ (entry : Entry). Contains (actors_of self) entry.actor) closed.cluster.entries) }
    {
        let SharedCluster {
            driver,
            turn,
            alloc,
        } = self;
        let tickets = tickets_of(alloc, shares)?;
        let locked = turn.end(rt, tickets);
        locked.close(driver)
    }
}

impl<N: ClusterName> Share<N> {
    /// Whose share it is.
    pub fn actor(&self) -> Actor
        ensures value { result ≡ self.now.actor }
    {
        actor_of(self.driver, self.ticket.number())
    }
}

// Whose share the number is.
fn actor_of(driver: u8, number: u64) -> Actor
    ensures value { result ≡ actor_of driver number }
{
    if number == 0 {
        Actor::Driver(driver)
    } else {
        Actor::Store(number)
    }
}

// Calls by a ticket of the turn.
fn call_by<N: ClusterName, R: Wait, B: Seated>(
    rt: &R,
    turn: &Turn<Locked<N>>,
    ticket: &mut Ticket<Locked<N>>,
    driver: u8,
    line: u32,
    request: Request,
    bench: &mut B,
) -> Result<Reply, NoMemory>
    requires turn { ticket.old.turn ≡ turn.now }
    requires none { ticket.old.taken ≡ None }
    ensures ok { IfOk result (λ reply. (entry : Entry) × IsEntryOf entry (actor_of driver ticket.old.number) line request reply
        × (ticket.new ≡ ticket_value ticket.old.turn ticket.old.number (ticket.old.list ++ entry ∷ []) None)
        × IsOver entry (B.seats bench.old) (B.seats bench.new)) }
    ensures err { OnErr result (ticket.new ≡ ticket.old) }
{
    let actor = actor_of(driver, ticket.number());
    let locked = turn.take(rt, ticket);
    let (locked, answer) = locked.serve(rt, actor, line, request, bench);
    match answer {
        Ok(reply) => {
            turn.give(ticket, locked);
            Ok(reply)
        }
        Err(fault) => {
            turn.give_back(ticket, locked);
            Err(fault)
        }
    }
}

// The numbers of the shares.
fn numbers(alloc: Global, stores: &Ids) -> Result<Ids, NoMemory>
    ensures value { IfOk result (λ numbers. numbers ≡ 0 ∷ stores.now) }
{
    let mut numbers = Ids::new(alloc);
    numbers.push(0)?;
    for store in stores.as_slice() {
        numbers.push(*store)?;
    }
    Ok(numbers)
}

// A share of each ticket.
fn shares_of<N: ClusterName>(
    alloc: Global,
    driver: u8,
    tickets: Vec<Ticket<Locked<N>>>,
) -> Result<Shares<N>, NoMemory>
    requires tickets { All (IsOpen driver) tickets.items }
    ensures value { IfOk result (λ shares. shares.items ≡ map (share_by driver) tickets.items) }
{
    let mut shares = Vec::new(alloc);
    for ticket in tickets {
        shares.push(Share { driver, ticket })?;
    }
    Ok(shares)
}

// The ticket of each share.
fn tickets_of<N: ClusterName>(
    alloc: Global,
    shares: Shares<N>,
) -> Result<Vec<Ticket<Locked<N>>>, NoMemory>
    ensures value { IfOk result (λ tickets. tickets.items ≡ map ticket_by shares.items) }
    ensures own { IfOk result (λ tickets. All IsOwn shares.items) }
{
    let mut tickets = Vec::new(alloc);
    for share in shares {
        tickets.push(share.ticket)?;
    }
    Ok(tickets)
}
