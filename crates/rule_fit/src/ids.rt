ghost use Rattle.std.specs.Prelude.{Bool, ◌≡◌, ◌↔◌, ◌<◌, ℕ, length, slice_index_or, map, filter, IfOk, IsTrue};
ghost use Rattle.pd_types.specs.declared.region.Peer.{Peer};
ghost use Rattle.std.specs.List.{list_all};
ghost use Rattle.pd_types.specs.BeatCheck.{has_id};
ghost use Rattle.rule_fit.specs.Chosen.{listed};
ghost use Rattle.rule_fit.specs.Ids.{chosen_by, AreApart, apart_test};
ghost use Rattle.rule_fit.specs.Search.{marked};

use pd_types::{NoMemory, Peer};
use std::alloc::Global;

/// The ids of the peers that are marked.
pub fn ids_of(alloc: Global, peers: &[Peer], reached: &[bool]) -> Result<Vec<u64>, NoMemory>
    requires apart { AreApart peers.now }
    requires same { length reached.now ≡ length peers.now }
    ensures agree { IfOk result (λ ids. (p : ℕ) → p < length peers.now → chosen_by ids.items peers.now p ≡ marked reached.now p) }
    ensures inside { IfOk result (λ ids. IsTrue (list_all (has_id peers.now) ids.items)) }
    ensures order { IfOk result (λ ids. (chosen : Peer → Bool) →
        ((p : ℕ) (d : Peer) → p < length peers.now → chosen (slice_index_or peers.now p d) ≡ marked reached.now p) →
        ids.items ≡ map (λ peer. peer.id) (filter chosen peers.now)) }
{
    let mut ids = Vec::new(alloc);
    for (place, peer) in peers.iter().enumerate() {
        if !reached[place] {
            continue;
        }
        ids.push(peer.id)?;
    }
    Ok(ids)
}

// Whether the id is listed.
fn is_listed(ids: &[u64], id: u64) -> bool
    ensures { result ≡ listed ids.now id }
{
    ids.iter().any(|one| *one == id)
}

/// Whether the id of the peer at the place is listed.
pub fn is_chosen(ids: &[u64], peers: &[Peer], place: usize) -> bool
    ensures { result ≡ chosen_by ids.now peers.now place }
{
    match peers.get(place) {
        Some(peer) => is_listed(ids, peer.id),
        None => false,
    }
}

// Whether a peer has this id.
fn is_peer(peers: &[Peer], id: u64) -> bool
    ensures { result ≡ has_id peers.now id }
{
    peers.iter().any(|peer| peer.id == id)
}

/// Whether each id is one of a peer.
pub fn are_peers(peers: &[Peer], ids: &[u64]) -> bool
    ensures { result ≡ list_all (has_id peers.now) ids.now }
{
    ids.iter().all(|id| is_peer(peers, *id))
}

/// Whether no two peers have one id, as `fit` asks.
pub fn are_apart(peers: &[Peer]) -> bool
    ensures value { result ≡ apart_test peers.now }
    ensures apart { IsTrue result ↔ AreApart peers.now }
{
    for (place, peer) in peers.iter().enumerate() {
        if is_peer(&peers[place + 1..], peer.id) {
            return false;
        }
    }
    true
}
