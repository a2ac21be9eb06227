// A cluster, which serves one request after another.
ghost use Rattle.std.specs.Prelude.{◌≡◌, [], false, true, None, IfOk, OnErr, option_copied, reverse};
ghost use Rattle.meta_store.specs.Doors.{Serves};
ghost use Rattle.pd_state.specs.Clusters.{cluster_value, Died, Replays, Served};
ghost use Rattle.pd_state.specs.Legal.{IsLegal, term_in};

use crate::heard::{Done, Heard};
use crate::sent::messages;
use crate::serve::step;
use crate::{Entry, Journal, Part, Reply};
use meta_store::Door;
use pd_types::{Actor, Duplicate, NoMemory, Request};
use sched_api::Seated;
use std::alloc::Global;
use std::marker::Model;

/// The cluster of one driver. Contracts see its driver, its journal, its tables, and whether want of
/// memory ended it.
#[derive(Drop)]
pub struct Cluster {
    driver: u8,
    entries: Journal,
    part: Option<Part>,
    dead: bool,
    alloc: Global,
}

impl Model for Cluster {
    ghost use Rattle.std.specs.Prelude.{◌≡◌, false, reverse};
    ghost use Rattle.std.specs.Coded.{codes};
    ghost use Rattle.pd_state.specs.contracts.part.Part as tables;
    ghost use Rattle.pd_state.specs.Clusters.{ClusterValue, cluster_value};
    ghost use Rattle.pd_state.specs.Legal.{IsLegal};
    ghost use Rattle.pd_state.specs.State.{part_after};

    ghost Value = { ClusterValue };

    ghost coded = { Prim.hlevel (codes, tables.the_row.coded) };

    ghost view = { λ c. cluster_value c.driver c.entries c.dead c.part };

    ghost invariant = { λ c. IsLegal c.driver (reverse c.entries) × (c.dead ≡ false → c.part ≡ part_after (reverse c.entries)) };
}

// The number of the term; 0 without one.
fn term_in(part: &Option<Part>) -> u64
    ensures value { result ≡ term_in part.now }
{
    match part {
        Some(part) => part.term,
        None => 0,
    }
}

impl Cluster {
    /// The cluster of a driver, without a term and without entries.
    pub fn new(alloc: Global, driver: u8) -> Cluster
        ensures value { result ≡ cluster_value driver [] false None }
    {
        Cluster {
            driver,
            entries: Journal::new(alloc),
            part: None,
            dead: false,
            alloc,
        }
    }

    /// Serves one request over the metadata's door, which serves this driver, and the bench of
    /// schedulers that is its, and appends its entry; the reply is the first that applies over the
    /// entries before it and what the door and the bench answered. After want of memory no entry was
    /// appended, and every later call answers it too; what the door and the bench did stays done.
    pub fn serve<M: Door, B: Seated>(
        &mut self,
        actor: Actor,
        line: u32,
        request: Request,
        door: &mut M,
        bench: &mut B,
    ) -> Result<Reply, NoMemory>
        requires { Serves (M.place door.old) self.old.driver }
        ensures ok { IfOk result (λ reply. Served self.old self.new (record { said_old = M.said door.old; said_new = M.said door.new; told_old = M.told door.old; told_new = M.told door.new }) (B.seats bench.old) (B.seats bench.new) actor line request reply) }
        ensures err { OnErr result (Died self.old self.new) }
        ensures place { M.place door.new ≡ M.place door.old }
    {
        if self.dead {
            return Err(NoMemory);
        }
        // The tables may be left half changed from here on.
        self.dead = true;
        // Entries are numbered from 1; a journal of 2^64 - 1 of them has no room for more.
        let Some(entry) = (self.entries.len() as u64).checked_add(1) else {
            return Err(NoMemory);
        };
        let term = term_in(&self.part);
        let Done {
            reply,
            heard,
            sents,
        } = step(
            self.alloc,
            self.driver,
            &mut self.part,
            &request,
            door,
            bench,
        )?;
        let Heard {
            answers,
            bench: said,
            names,
        } = heard;
        let sends = messages(self.alloc, self.driver, term, entry, &sents)?;
        let answered = reply.copy(self.alloc)?;
        self.entries.push(Entry {
            actor,
            line,
            request,
            answers,
            bench: said,
            names,
            sends,
            reply,
        })?;
        self.dead = false;
        Ok(answered)
    }

    /// The journal: all requests with their replies, in order. It replays to the tables, unless want
    /// of memory ended the cluster.
    pub fn journal(&self) -> &Journal
        ensures value { result.now ≡ self.now.entries }
        ensures legal { IsLegal self.now.driver (reverse self.now.entries) }
        ensures replays { Replays self.now }
    {
        &self.entries
    }

    /// The tables of the term; none without a term, and none after want of memory.
    pub fn part(&self) -> Option<&Part>
        ensures value { self.now.dead ≡ false → option_copied result ≡ self.now.part }
        ensures ended { self.now.dead ≡ true → option_copied result ≡ None }
        ensures replays { Replays self.now }
    {
        if self.dead {
            return None;
        }
        self.part.as_ref()
    }
}
