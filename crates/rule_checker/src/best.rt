// The best candidate of a class.
ghost use Rattle.std.specs.Prelude.{◌≡◌, ◌≢◌, [], IfOk, IfSome, IfNone, Contains, length};
ghost use Rattle.std.specs.List.{list_any};
ghost use Rattle.rule_checker.specs.declared.class.Ranked.{Ranked};
ghost use Rattle.rule_checker.specs.Best.{IsBestOf, tells_leader};
ghost use Rattle.rule_checker.specs.Candidates.{pool};
ghost use Rattle.rule_checker.specs.Measure.{HasNumber, Lowers};

use crate::arrival::best_new;
use crate::candidate::passes;
use crate::case::Case;
use crate::measure::number_of;
use crate::tie::{better_of, score_of};
use crate::{Class, Ranked};
use pd_types::{NoMemory, Peer, Rule, RuleRole};
use std::alloc::Global;

// The peer as a candidate that lowers the number, or none where it is none.
fn weigh(
    alloc: Global,
    on: Case,
    class: Class,
    from: u64,
    peer: &Peer,
) -> Result<Option<Ranked>, NoMemory>
    requires ruled { on.rules.now ≢ [] }
    requires held { Contains (pool class on.beat.now on.stores.now) peer.now }
    ensures some { IfOk result (λ found. IfSome found (Lowers class on.entry.beat.now on.entry.rules.now on.entry.stores.now on.entry.now from)) }
    ensures same { IfOk result (λ found. IfSome found (λ one. one.peer ≡ peer.now)) }
    ensures none { IfOk result (λ found. IfNone found ((one : Ranked) → one.peer ≡ peer.now → Lowers class on.entry.beat.now on.entry.rules.now on.entry.stores.now on.entry.now from one → ⊥)) }
{
    if !passes(on, class, peer) {
        return Ok(None);
    }
    let to = number_of(alloc, on, class, peer)?;
    if to >= from {
        return Ok(None);
    }
    let score = score_of(alloc, on, class, peer)?;
    Ok(Some(Ranked {
        peer: *peer,
        to,
        score,
    }))
}

// The best candidate of a class that is about the region's own peers, or none.
fn best_own(alloc: Global, on: Case, class: Class, from: u64) -> Result<Option<Ranked>, NoMemory>
    requires ruled { on.rules.now ≢ [] }
    requires own { pool class on.beat.now on.stores.now ≡ on.beat.now.region.peers }
    ensures { IfOk result (IsBestOf class on.entry.beat.now on.entry.rules.now on.entry.stores.now on.entry.standing.now on.entry.now from (length (pool class on.entry.beat.now on.entry.stores.now))) }
{
    let mut best = None;
    for peer in on.beat.region.peers.as_slice() {
        let one = weigh(alloc, on, class, from, peer)?;
        best = better_of(class, on.standing, best, one);
    }
    Ok(best)
}

// Whether a rule tells the leader from the other voters.
fn tells_leader(rules: &[Rule]) -> bool
    ensures { result ≡ list_any tells_leader rules.now }
{
    rules.iter().any(|rule| match rule.role {
        RuleRole::Leader | RuleRole::Follower => true,
        RuleRole::Voter | RuleRole::Learner => false,
    })
}

// The best new leader, or none. Who leads is all one where no rule tells the leader from the other
// voters.
fn best_leader(alloc: Global, on: Case, from: u64) -> Result<Option<Ranked>, NoMemory>
    requires ruled { on.rules.now ≢ [] }
    requires number { HasNumber on.beat.now on.rules.now on.stores.now on.now from }
    ensures { IfOk result (IsBestOf Class.Transfer on.entry.beat.now on.entry.rules.now on.entry.stores.now on.entry.standing.now on.entry.now from (length (pool Class.Transfer on.entry.beat.now on.entry.stores.now))) }
{
    if !tells_leader(on.rules.as_slice()) {
        return Ok(None);
    }
    best_own(alloc, on, Class::Transfer, from)
}

/// The best candidate of the class that lowers the number, or none.
pub fn best_of(alloc: Global, on: Case, class: Class, from: u64) -> Result<Option<Ranked>, NoMemory>
    requires ruled { on.rules.now ≢ [] }
    requires number { HasNumber on.beat.now on.rules.now on.stores.now on.now from }
    ensures { IfOk result (IsBestOf class on.entry.beat.now on.entry.rules.now on.entry.stores.now on.entry.standing.now on.entry.now from (length (pool class on.entry.beat.now on.entry.stores.now))) }
{
    match class {
        Class::Transfer => best_leader(alloc, on, from),
        Class::Promote | Class::Remove => best_own(alloc, on, class, from),
        Class::AddVoter | Class::AddLearner => best_new(alloc, on, class, from),
    }
}
