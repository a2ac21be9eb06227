// The best store for a new peer.
ghost use Rattle.std.specs.Prelude.{◌≡◌, ◌≢◌, ◌≤◌, [], false, Some, IfOk, IfSome, IfNone, Contains, length, map};
ghost use Rattle.std.specs.List.{list_any};
ghost use Rattle.store_table.specs.Entries.{entry_at};
ghost use Rattle.op_step.specs.Peers.{has_id};
ghost use Rattle.rule_fit.specs.Question.{question};
ghost use Rattle.rule_fit.specs.Suits.{labels_of_all, suits_on};
ghost use Rattle.rule_checker.specs.declared.class.Ranked.{Ranked};
ghost use Rattle.rule_checker.specs.Arrival.{Adds, AreRoomy, arrived, with_room};
ghost use Rattle.rule_checker.specs.Best.{IsBestOf};
ghost use Rattle.rule_checker.specs.Candidates.{new_on, pool};
ghost use Rattle.rule_checker.specs.Measure.{HasNumber, Lowers};
ghost use Rattle.rule_checker.specs.Ranks.{stores_of};
ghost use Rattle.pd_types.specs.declared.beat.TheConstants.{MAX_PEERS};

use crate::candidate::{new_on, takes_new};
use crate::case::Case;
use crate::tie::{better_of, score_by_rules, stores_of};
use crate::{Class, Ranked};
use op_step::has_id;
use pd_types::{Label, NoMemory, Peer, Role, Rule};
use rule_fit::{labels_of_all, rooms, suits_on};
use std::alloc::Global;
use store_table::StoreEntry;

// The new peer as the steps leave it.
fn arrived(class: Class, store: u64) -> Peer
    ensures { result ≡ arrived class store }
{
    let role = match class {
        Class::AddVoter => Role::Voter,
        Class::Promote | Class::Transfer | Class::AddLearner | Class::Remove => Role::Learner,
    };
    Peer { id: 0, store, role }
}

// The rules that have room.
fn roomy_rules<'a>(
    alloc: Global,
    rules: &'a [Rule],
    rooms: &[bool],
) -> Result<Vec<&'a Rule>, NoMemory>
    requires { length rooms.now ≡ length rules.now }
    ensures { IfOk result (λ roomy. map (λ rule. rule.now) roomy.items ≡ with_room rules.now rooms.now) }
{
    let mut roomy = Vec::new(alloc);
    for (place, rule) in rules.iter().enumerate() {
        if rooms[place] {
            roomy.push(rule)?;
        }
    }
    Ok(roomy)
}

// Whether the peer suits one of the rules that have room.
fn finds_room(on: Case, entry: &StoreEntry, peer: &Peer, roomy: &[&Rule]) -> bool
    ensures { result ≡ list_any (λ rule. suits_on on.entry.beat.now.leader (Some entry.now) on.entry.now peer.now rule.now) roomy.now }
{
    roomy.iter().any(|rule| suits_on(on.beat.leader, Some(entry), on.now, peer, rule))
}

// Whether a rule has room.
fn any_has_room(rooms: &[bool]) -> bool
    ensures { result ≡ list_any (λ room. room) rooms.now }
{
    rooms.iter().any(|room| *room)
}

// The new peer on the store as a candidate that lowers the number, or none where it is none.
fn weigh(
    on: Case,
    class: Class,
    from: u64,
    entry: &StoreEntry,
    roomy: &[&Rule],
    others: &[&[Label]],
) -> Option<Ranked>
    requires ruled { on.rules.now ≢ [] }
    requires adds { Adds class }
    requires number { HasNumber on.beat.now on.rules.now on.stores.now on.now from }
    requires free { has_id 0 on.beat.now ≡ false }
    requires roomy { AreRoomy (question on.beat.now on.rules.now on.stores.now on.now) on.rules.now (map (λ rule. rule.now) roomy.now) }
    requires others { map (λ other. other.now) others.now ≡ labels_of_all (stores_of on.beat.now.region.peers) on.stores.now }
    requires few { length others.now ≤ MAX_PEERS }
    requires known { entry_at entry.now.store.id on.stores.now ≡ Some entry.now }
    requires held { Contains (pool class on.beat.now on.stores.now) (new_on entry.now.store.id) }
    ensures some { IfSome result (Lowers class on.entry.beat.now on.entry.rules.now on.entry.stores.now on.entry.now from) }
    ensures same { IfSome result (λ one. one.peer ≡ new_on entry.now.store.id) }
    ensures none { IfNone result ((one : Ranked) → one.peer ≡ new_on entry.now.store.id → Lowers class on.entry.beat.now on.entry.rules.now on.entry.stores.now on.entry.now from one → ⊥) }
{
    let store = entry.store.id;
    if !finds_room(on, entry, &arrived(class, store), roomy) {
        return None;
    }
    if !takes_new(on, entry) {
        return None;
    }
    let peer = new_on(store);
    let to = from - 1;
    let score = score_by_rules(on, entry.store.labels.as_slice(), others);
    Some(Ranked { peer, to, score })
}

/// The best new peer of the class that lowers the number, or none. It lowers the number by one where
/// it suits a rule that has room, and only there. A region that has a peer of the id 0 gets none.
pub fn best_new(
    alloc: Global,
    on: Case,
    class: Class,
    from: u64,
) -> Result<Option<Ranked>, NoMemory>
    requires ruled { on.rules.now ≢ [] }
    requires adds { Adds class }
    requires number { HasNumber on.beat.now on.rules.now on.stores.now on.now from }
    ensures { IfOk result (IsBestOf class on.entry.beat.now on.entry.rules.now on.entry.stores.now on.entry.standing.now on.entry.now from (length (pool class on.entry.beat.now on.entry.stores.now))) }
{
    if has_id(0, on.beat) {
        return Ok(None);
    }
    let rooms = rooms(alloc, on.beat, on.rules, on.stores, on.now)?;
    if !any_has_room(&rooms) {
        return Ok(None);
    }
    let roomy = roomy_rules(alloc, on.rules.as_slice(), &rooms)?;
    let peers = stores_of(alloc, on.beat.region.peers.as_slice())?;
    let others = labels_of_all(alloc, on.stores, &peers)?;
    let mut best = None;
    for entry in on.stores.entries() {
        let one = weigh(on, class, from, entry, &roomy, &others);
        // Most stores are none, and cost no comparison.
        if one.is_some() {
            best = better_of(class, on.standing, best, one);
        }
    }
    Ok(best)
}
