// What a region heartbeat must meet by itself.
ghost use Rattle.std.specs.Prelude.{◌≡◌, ◌↔◌, IsOk, IfErr};
ghost use Rattle.std.specs.List.{find};
ghost use Rattle.pd_types.specs.BeatCheck.{fails, first_fault, has_id, has_store, leader_is_no_voter, shares_id, shares_store};
ghost use Rattle.pd_types.specs.Keys.{is_bad_range};
ghost use Rattle.pd_types.specs.WellFormed.{IsLeastFault, IsWellFormed};

use crate::{Peer, RegionBeat, Role};
use thiserror::Error;

/// How many peers a region has at most.
pub const MAX_PEERS: usize = 15;

/// How many bytes a key has at most.
pub const MAX_KEY: usize = 4096;

/// Why a region heartbeat is refused by itself. The tests come in this order, and the first that
/// fails is answered.
#[derive(Clone, Copy, Debug, PartialEq, Eq, Error)]
pub enum BeatFault {
    #[error("the region has no peers")]
    NoPeers,
    #[error("the region has more than 15 peers")]
    TooManyPeers,
    #[error("two peers have one id")]
    DoublePeer,
    #[error("two peers are on one store")]
    DoubleStore,
    #[error("the leader is no peer of the region")]
    LeaderAbsent,
    #[error("the leader is no voter")]
    LeaderNotVoter,
    #[error("the end key isn't above the start key")]
    BadRange,
    #[error("a key is longer than 4,096 bytes")]
    LongKey,
}

const _: () = prove!(MAX_PEERS == 15 && MAX_KEY == 4_096);

fn has_id(peers: &[Peer], id: u64) -> bool
    ensures value { result ≡ has_id peers.now id }
{
    peers.iter().any(|peer| peer.id == id)
}

fn has_store(peers: &[Peer], store: u64) -> bool
    ensures value { result ≡ has_store peers.now store }
{
    peers.iter().any(|peer| peer.store == store)
}

// Whether two of the peers have one id.
fn share_id(peers: &[Peer]) -> bool
    ensures value { result ≡ shares_id peers.now }
{
    match peers {
        [] => false,
        [first, rest @ ..] => has_id(rest, first.id) || share_id(rest),
    }
}

// Whether two of the peers are on one store.
fn share_store(peers: &[Peer]) -> bool
    ensures value { result ≡ shares_store peers.now }
{
    match peers {
        [] => false,
        [first, rest @ ..] => has_store(rest, first.store) || share_store(rest),
    }
}

// Whether the leader is a peer that is no voter.
fn leader_is_no_voter(peers: &[Peer], leader: u64) -> bool
    ensures value { result ≡ leader_is_no_voter peers.now leader }
{
    peers
        .iter()
        .any(|peer| peer.id == leader && peer.role != Role::Voter)
}

// Whether no key can be in the range.
fn is_bad_range(start: &[u8], end: &[u8]) -> bool
    ensures value { result ≡ is_bad_range start.now end.now }
{
    let rises = start.cmp(end).is_lt();
    !(end.is_empty() || rises)
}

// Whether the heartbeat fails this test.
fn fails(beat: &RegionBeat, test: BeatFault) -> bool
    ensures value { result ≡ fails beat.now test }
{
    let region = &beat.region;
    let peers = region.peers.as_slice();
    match test {
        BeatFault::NoPeers => peers.is_empty(),
        BeatFault::TooManyPeers => peers.len() > MAX_PEERS,
        BeatFault::DoublePeer => share_id(peers),
        BeatFault::DoubleStore => share_store(peers),
        BeatFault::LeaderAbsent => !has_id(peers, beat.leader),
        BeatFault::LeaderNotVoter => leader_is_no_voter(peers, beat.leader),
        BeatFault::BadRange => is_bad_range(region.start.as_slice(), region.end.as_slice()),
        BeatFault::LongKey => region.start.len() > MAX_KEY || region.end.len() > MAX_KEY,
    }
}

// The first of the tests that the heartbeat fails.
fn first_failing(beat: &RegionBeat, tests: &[BeatFault]) -> Option<BeatFault>
    ensures value { result ≡ find (fails beat.now) tests.now }
{
    for test in tests {
        if fails(beat, *test) {
            return Some(*test);
        }
    }
    None
}

/// Tests a region heartbeat by itself (pdpb `RegionHeartbeatRequest`; the tests are our own choice).
/// Down and pending peers that aren't in the region count for nothing.
#[tactic(auto, using(crate::proofs::BeatLemmas::first_least, crate::proofs::BeatLemmas::passes_formed, crate::proofs::BeatLemmas::formed_passes))]
pub fn check_beat(beat: &RegionBeat) -> Result<(), BeatFault>
    ensures ok { IsOk result ↔ (first_fault beat.now ≡ None) }
    ensures fault { IfErr result (λ fault. first_fault beat.now ≡ Some fault) }
    ensures least { IfErr result (IsLeastFault beat.now) }
    ensures formed { IsOk result ↔ IsWellFormed beat.now }
{
    let tests = [
        BeatFault::NoPeers,
        BeatFault::TooManyPeers,
        BeatFault::DoublePeer,
        BeatFault::DoubleStore,
        BeatFault::LeaderAbsent,
        BeatFault::LeaderNotVoter,
        BeatFault::BadRange,
        BeatFault::LongKey,
    ];
    match first_failing(beat, &tests) {
        Some(fault) => Err(fault),
        None => Ok(()),
    }
}
