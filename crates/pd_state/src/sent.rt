// The steps that a request sends.
ghost use Rattle.std.specs.Prelude.{◌≡◌, IfOk, OnOk, ◌++◌, find, map, nat_eq, option_copied};
ghost use Rattle.pd_state.specs.Sends.{leader_store, message, sent_by};

use op_control::Dispatch;
use pd_types::{NoMemory, Peer, RegionBeat, Seq, Step, StepMsg, StepMsgs};
use std::alloc::Global;

/// A step that was sent: of which region, and to the store of its leader.
#[derive(Clone, Copy, Debug, PartialEq, Eq)]
pub struct Sent {
    pub region: u64,
    pub to: u64,
    pub step: Step,
}

/// The steps that a request sent, in order.
pub type Sents = Seq<Sent>;

// The peer that leads the region.
fn leader(beat: &RegionBeat) -> Option<&Peer>
    ensures value { option_copied result ≡ find (λ peer. nat_eq peer.id beat.now.leader) beat.now.region.peers }
{
    let leader = beat.leader;
    beat.region
        .peers
        .as_slice()
        .iter()
        .find(|peer| peer.id == leader)
}

// The store of the region's leader; 0 where no peer leads.
fn leader_store(beat: &RegionBeat) -> u64
    ensures value { result ≡ leader_store beat.now }
{
    match leader(beat) {
        Some(peer) => peer.store,
        None => 0,
    }
}

/// Takes up the step that a dispatch by this heartbeat sends, if any.
pub fn send(sents: &mut Sents, beat: &RegionBeat, dispatch: Dispatch) -> Result<(), NoMemory>
    ensures ok { OnOk result (sents.new ≡ sents.old ++ sent_by beat.now dispatch) }
{
    if let Dispatch::Send(step) = dispatch {
        sents.push(Sent {
            region: beat.region.id,
            to: leader_store(beat),
            step,
        })?;
    }
    Ok(())
}

// The message of a step.
fn message(driver: u8, term: u64, entry: u64, sent: &Sent) -> StepMsg
    ensures value { result ≡ message driver term entry sent.now }
{
    StepMsg {
        driver,
        term,
        entry,
        region: sent.region,
        to: sent.to,
        step: sent.step,
    }
}

/// The messages of the steps that an entry sent.
pub fn messages(
    alloc: Global,
    driver: u8,
    term: u64,
    entry: u64,
    sents: &Sents,
) -> Result<StepMsgs, NoMemory>
    ensures value { IfOk result (λ messages. messages ≡ map (message driver term entry) sents.now) }
{
    let mut messages = StepMsgs::new(alloc);
    for sent in sents.as_slice() {
        messages.push(message(driver, term, entry, sent))?;
    }
    Ok(messages)
}
