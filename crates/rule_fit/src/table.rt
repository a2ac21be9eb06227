ghost use Rattle.std.specs.Prelude.{◌≡◌, ◌≤◌, length, map, IfOk};
ghost use Rattle.rule_fit.specs.Question.{IsAssignmentIn, IsGreatestIn, question};
ghost use Rattle.rule_fit.specs.Search.{IsClosed};
ghost use Rattle.rule_fit.specs.Suits.{peer_suits, suits_in, counts_of};
ghost use Rattle.pd_types.specs.declared.rule.TheConstants.{MAX_RULES};

use crate::assign::{Matching, greatest};
use crate::suiting::suits_on;
use pd_types::{NoMemory, Peer, RegionBeat, Rule};
use std::alloc::Global;
use store_table::Stores;

// Which rules the peer suits. Its store is looked up once.
#[tactic(auto, using(crate::proofs::EntryLemmas::peer_by_entry))]
fn row(
    alloc: Global,
    leader: u64,
    stores: &Stores,
    now: u64,
    peer: &Peer,
    rules: &[Rule],
) -> Result<Vec<bool>, NoMemory>
    ensures { IfOk result (λ row. row.items ≡ map (peer_suits leader stores.now now peer.now) rules.now) }
{
    let entry = stores.entry(peer.store);
    let mut row = Vec::new(alloc);
    for rule in rules {
        row.push(suits_on(leader, entry, now, peer, rule))?;
    }
    Ok(row)
}

/// Which peer suits which rule.
pub fn table(
    alloc: Global,
    leader: u64,
    stores: &Stores,
    now: u64,
    peers: &[Peer],
    rules: &[Rule],
) -> Result<Vec<Vec<bool>>, NoMemory>
    ensures { IfOk result (λ table. map (λ row. row.items) table.items ≡ map (λ peer. map (peer_suits leader stores.now now peer) rules.now) peers.now) }
{
    let mut table = Vec::new(alloc);
    for peer in peers {
        table.push(row(alloc, leader, stores, now, peer, rules)?)?;
    }
    Ok(table)
}

/// The counts of the rules.
pub fn counts(alloc: Global, rules: &[Rule]) -> Result<Vec<u32>, NoMemory>
    ensures { IfOk result (λ counts. counts.items ≡ counts_of rules.now) }
{
    let mut counts = Vec::new(alloc);
    for rule in rules {
        counts.push(rule.count)?;
    }
    Ok(counts)
}

/// Gives the most peers of the region a rule.
pub fn matching(
    alloc: Global,
    beat: &RegionBeat,
    rules: &[Rule],
    stores: &Stores,
    now: u64,
) -> Result<Matching, NoMemory>
    requires { length rules.now ≤ MAX_RULES }
    ensures assigned { IfOk result (λ g. IsAssignmentIn (question beat.now rules.now stores.now now) g.given.items) }
    ensures greatest { IfOk result (λ g. IsGreatestIn (question beat.now rules.now stores.now now) g.given.items) }
    ensures closed { IfOk result (λ g. IsClosed (suits_in beat.now rules.now stores.now now) (length beat.now.region.peers) (counts_of rules.now) g.given.items g.reached.items) }
{
    let peers = beat.region.peers.as_slice();
    let table = table(alloc, beat.leader, stores, now, peers, rules)?;
    let counts = counts(alloc, rules)?;
    greatest(alloc, &table, &counts)
}
