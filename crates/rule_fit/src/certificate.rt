ghost use Rattle.std.specs.Prelude.{◌≡◌, ◌*◌, ◌≤◌, ◌↔◌, ◌^◌, length, IsTrue, sum, cond, false};
ghost use Rattle.rule_fit.specs.Certificate.{Differ, Lacks};
ghost use Rattle.rule_fit.specs.Chosen.{wanted, capacity, size_of};
ghost use Rattle.rule_fit.specs.Ids.{chosen_by};
ghost use Rattle.rule_fit.specs.Question.{CertifiesIn, question};
ghost use Rattle.rule_fit.specs.Suits.{suits_in, counts_of};
ghost use Rattle.pd_types.specs.declared.rule.TheConstants.{MAX_RULES};

use crate::Certificate;
use crate::ids::{are_peers, is_chosen};
use crate::suiting::peer_suits;
use pd_types::{Peer, RegionBeat, Rule, Rules};
use store_table::Stores;

/// The sum of the rules' counts.
pub fn total(rules: &[Rule]) -> u64
    requires { length rules.now ≤ MAX_RULES }
    ensures value { result ≡ sum (counts_of rules.now) }
    ensures bound { result ≤ length rules.now * 2 ^ 32 }
{
    let mut total = 0;
    for rule in rules {
        total += u64::from(rule.count);
    }
    total
}

// Whether the peer at a place suits the rule at a place.
fn suits_at(
    beat: &RegionBeat,
    rules: &[Rule],
    stores: &Stores,
    now: u64,
    peer: usize,
    rule: usize,
) -> bool
    ensures { result ≡ suits_in beat.now rules.now stores.now now peer rule }
{
    match beat.region.peers.as_slice().get(peer) {
        Some(peer) => match rules.get(rule) {
            Some(rule) => peer_suits(beat.leader, stores, now, peer, rule),
            None => false,
        },
        None => false,
    }
}

// Whether the peer at a place has one of these ids and suits the rule.
fn is_wanting(
    beat: &RegionBeat,
    rules: &[Rule],
    stores: &Stores,
    now: u64,
    ids: &[u64],
    peer: usize,
    rule: usize,
) -> bool
    ensures { result ≡ cond (chosen_by ids.now beat.now.region.peers peer) (suits_in beat.now rules.now stores.now now peer rule) false }
{
    is_chosen(ids, beat.region.peers.as_slice(), peer)
        && suits_at(beat, rules, stores, now, peer, rule)
}

// Whether one of the peers with these ids suits the rule.
fn is_wanted(
    beat: &RegionBeat,
    rules: &[Rule],
    stores: &Stores,
    now: u64,
    ids: &[u64],
    rule: usize,
) -> bool
    ensures { result ≡ wanted (suits_in beat.now rules.now stores.now now) (length beat.now.region.peers) (chosen_by ids.now beat.now.region.peers) rule }
{
    for peer in 0..beat.region.peers.len() {
        if is_wanting(beat, rules, stores, now, ids, peer, rule) {
            return true;
        }
    }
    false
}

// The sum of the counts of the rules that one of these peers suits.
fn capacity(beat: &RegionBeat, rules: &[Rule], stores: &Stores, now: u64, ids: &[u64]) -> u64
    requires { length rules.now ≤ MAX_RULES }
    ensures { result ≡ capacity (counts_of rules.now) (wanted (suits_in beat.now rules.now stores.now now) (length beat.now.region.peers) (chosen_by ids.now beat.now.region.peers)) }
{
    let mut capacity = 0;
    for rule in 0..rules.len() {
        if is_wanted(beat, rules, stores, now, ids, rule) {
            capacity += u64::from(rules[rule].count);
        }
    }
    capacity
}

// How many peers have one of these ids.
fn size(peers: &[Peer], ids: &[u64]) -> u64
    ensures { result ≡ size_of (length peers.now) (chosen_by ids.now peers.now) }
{
    let mut size = 0;
    for peer in 0..peers.len() {
        if is_chosen(ids, peers, peer) {
            size += 1;
        }
    }
    size
}

// Whether the peers with these ids have a smaller sum of counts than they are many.
fn lack(beat: &RegionBeat, rules: &[Rule], stores: &Stores, now: u64, ids: &[u64]) -> bool
    requires { length rules.now ≤ MAX_RULES }
    ensures { IsTrue result ↔ Lacks (suits_in beat.now rules.now stores.now now) beat.now.region.peers (counts_of rules.now) ids.now }
{
    let peers = beat.region.peers.as_slice();
    are_peers(peers, ids) && capacity(beat, rules, stores, now, ids) < size(peers, ids)
}

// Whether these are the sum of the counts and the number of peers, and differ.
fn differ(peers: &[Peer], rules: &[Rule], counts: u64, many: u64) -> bool
    requires { length rules.now ≤ MAX_RULES }
    ensures { IsTrue result ↔ Differ (length peers.now) (counts_of rules.now) counts many }
{
    counts == total(rules) && many == peers.len() as u64 && counts != many
}

/// Whether the certificate holds of the region's peers and the rules, and so shows that the region
/// doesn't fit them. Of a list of ids each counts once, and one that no peer has makes it false.
pub fn check_certificate(
    certificate: &Certificate,
    beat: &RegionBeat,
    rules: &Rules,
    stores: &Stores,
    now: u64,
) -> bool
    requires { length rules.now ≤ MAX_RULES }
    ensures value { IsTrue result ↔ CertifiesIn (question beat.now rules.now stores.now now) certificate.now }
{
    match certificate {
        Certificate::Totals { counts, peers } => {
            differ(
                beat.region.peers.as_slice(),
                rules.as_slice(),
                *counts,
                *peers,
            )
        }
        Certificate::Peers(ids) => lack(beat, rules.as_slice(), stores, now, ids.as_slice()),
    }
}
