// What the clusters sent to the stores that act, until those take it.
ghost use Rattle.std.specs.Prelude.{◌≡◌, is_some, IfOk, OnOk};
ghost use Rattle.pd_cluster.specs.Clusters.{past_of};
ghost use Rattle.pd_cluster.specs.Streams.{has_room, last_sends, left_by, oldest_in, waiting_for, with_actor, with_message, with_messages};
ghost use Rattle.std.specs.FinMap as map;

use id_map::IdMap;
use pd_script::Line;
use pd_state::Cluster;
use pd_types::{Actor, NoMemory, StepMsg, StepMsgs};
use std::alloc::Global;
use std::marker::Model;

/// How many messages wait for a store at most.
pub const MOST_MESSAGES: usize = 64;

const _: () = prove!(MOST_MESSAGES == 64);

/// The streams of one driver: for each store that acts the messages that the driver's cluster sent to
/// it and that it didn't take yet, the oldest first.
#[derive(Drop)]
pub struct Streams {
    lists: IdMap<StepMsgs>,
    alloc: Global,
}

impl Model for Streams {
    ghost use Rattle.std.specs.Prelude.{List};
    ghost use Rattle.std.specs.Coded.{coded_list, coded_ℕ};
    ghost use Rattle.std.specs.FinMap as map;
    ghost use Rattle.std.specs.Ordering.{nat_cmp};
    ghost use Rattle.pd_types.specs.contracts.step.StepMsg as message_row;
    ghost use Rattle.pd_types.specs.declared.step.StepMsg.{StepMsg};

    ghost Value = { map.FinMap nat_cmp (List StepMsg) };

    ghost coded = { map.code coded_ℕ (coded_list message_row.the_row.coded) };

    ghost view = { λ s. s.lists };
}

// Opens the stream of the store that acts in a line, where one does.
fn open(alloc: Global, lists: &mut IdMap<StepMsgs>, actor: Option<Actor>) -> Result<(), NoMemory>
    ensures ok { OnOk result (lists.new ≡ with_actor lists.old actor) }
{
    match actor {
        Some(Actor::Store(store)) => lists.put(store, StepMsgs::new(alloc)),
        Some(Actor::Driver(_)) | Some(Actor::Client(_)) | None => Ok(()),
    }
}

impl Streams {
    /// The streams of the stores that act in these lines. No message waits.
    pub fn of(alloc: Global, lines: &[Line]) -> Result<Streams, NoMemory>
        ensures value { IfOk result (λ streams. streams ≡ waiting_for lines.now) }
    {
        let mut lists = IdMap::new(alloc);
        for line in lines {
            open(alloc, &mut lists, line.actor)?;
        }
        Ok(Streams { lists, alloc })
    }

    // Whether fewer than 64 messages wait for the store, which acts.
    fn has_room(&self, store: u64) -> bool
        ensures value { result ≡ has_room (map.get self.now store) }
    {
        match self.lists.get(store) {
            Some(messages) => messages.len() < MOST_MESSAGES,
            None => false,
        }
    }

    /// Puts a message behind those that wait for its store. It isn't kept where the store acts nowhere,
    /// or where 64 wait for it: its step is sent again at a later heartbeat.
    pub fn send(&mut self, message: StepMsg) -> Result<(), NoMemory>
        ensures ok { OnOk result (self.new ≡ with_message self.old message) }
    {
        if self.has_room(message.to) {
            let mut messages = self.lists.swap(message.to, StepMsgs::new(self.alloc));
            messages.push(message)?;
            self.lists.set(message.to, messages);
        }
        Ok(())
    }

    /// Takes the oldest message that waits for the store.
    pub fn pop(&mut self, store: u64) -> Option<StepMsg>
        ensures value { result ≡ oldest_in self.old store }
        ensures left { self.new ≡ left_by self.old store }
    {
        if !self.has_message(store) {
            return None;
        }
        let mut messages = self.lists.swap(store, StepMsgs::new(self.alloc)).into_vec();
        let oldest = messages.remove(0);
        self.lists.set(store, StepMsgs::of(messages));
        Some(oldest)
    }

    // Whether a message waits for the store.
    fn has_message(&self, store: u64) -> bool
        ensures value { result ≡ is_some (oldest_in self.now store) }
    {
        match self.lists.get(store) {
            Some(messages) => !messages.is_empty(),
            None => false,
        }
    }

    // Sends messages one after another.
    fn send_all(&mut self, messages: &[StepMsg]) -> Result<(), NoMemory>
        ensures ok { OnOk result (self.new ≡ with_messages self.old messages.now) }
    {
        for message in messages {
            self.send(*message)?;
        }
        Ok(())
    }
}

// What the last entry of the cluster's journal sent.
fn last_sends(cluster: &Cluster) -> &[StepMsg]
    ensures value { result.now ≡ last_sends (past_of cluster.now) }
{
    match cluster.journal().as_slice().last() {
        Some(entry) => entry.sends.as_slice(),
        None => &[],
    }
}

/// Sends what the last entry of the cluster's journal sent.
pub fn deliver(cluster: &Cluster, streams: &mut Streams) -> Result<(), NoMemory>
    ensures ok { OnOk result (streams.new ≡ with_messages streams.old (last_sends (past_of cluster.now))) }
{
    streams.send_all(last_sends(cluster))
}
