ghost use Rattle.std.specs.Prelude.{Bool, ◌≡◌, ◌+◌, ◌<◌, ◌≤◌, Option, Some, None, ℕ, List, length, get_or, slice_index, IfSome, IfNone, IfOk, OnOk, true, ◌↔◌, IsTrue};
ghost use Rattle.rule_fit.specs.Assignment.{held, has, placed, IsAssignment};
ghost use Rattle.rule_fit.specs.Table.{suits};
ghost use Rattle.rule_fit.specs.Trail.{IsTrail, peer_at, from_at};
ghost use Rattle.rule_fit.specs.Search.{IsSearch, Extends, Finds, marked};
ghost use Rattle.pd_types.specs.declared.rule.TheConstants.{MAX_RULES};

use pd_types::NoMemory;
use std::alloc::Global;

/// A peer that a search reached, and how it came there: from None if it has no rule.
#[derive(Clone, Copy, Debug)]
pub struct Reached {
    pub peer: usize,
    pub from: Option<Link>,
}

/// The step before, by its place, whose peer suits the rule that this step's peer has.
#[derive(Clone, Copy, Debug)]
pub struct Link {
    pub place: usize,
    pub rule: u32,
}

/// Whether the table says that the peer suits the rule.
pub fn suits(table: &[Vec<bool>], peer: usize, rule: u32) -> bool
    ensures { result ≡ suits table.now peer rule }
{
    match table.get(peer) {
        Some(row) => row.get(rule as usize).copied().unwrap_or(false),
        None => false,
    }
}

/// How many peers have the rule.
pub fn held(given: &[Option<u32>], rule: u32) -> usize
    ensures { result ≡ held given.now rule }
{
    given.iter().filter(|place| **place == Some(rule)).count()
}

/// The first rule that the peer suits and that has room.
fn open_rule(table: &[Vec<bool>], counts: &[u32], given: &[Option<u32>], peer: usize) -> Option<u32>
    requires { length counts.now ≤ MAX_RULES }
    ensures some { IfSome result (λ r. r < length counts.now) }
    ensures suited { IfSome result (λ r. suits table.now peer r ≡ true) }
    ensures room { IfSome result (λ r. held given.now r < slice_index counts.now r) }
    ensures none { IfNone result ((r : ℕ) → r < length counts.now → suits table.now peer r ≡ true → slice_index counts.now r ≤ held given.now r) }
{
    for (place, count) in counts.iter().enumerate() {
        let rule = place as u32;
        if suits(table, peer, rule) && (held(given, rule) as u64) < u64::from(*count) {
            return Some(rule);
        }
    }
    None
}

/// Gives the peer of the step at `last` the rule, and each peer on the way back to it the rule that
/// the step after leaves.
pub fn augment(
    table: &[Vec<bool>],
    counts: &[u32],
    queue: &[Reached],
    given: &mut [Option<u32>],
    last: usize,
    rule: u32,
)
    requires assigned { IsAssignment (suits table.now) (length given.old) counts.now given.old }
    requires trail { IsTrail (suits table.now) (length given.old) given.old queue.now (last + 1) }
    requires known { rule < length counts.now }
    requires suited { suits table.now (peer_at queue.now last) rule ≡ true }
    requires room { held given.old rule < slice_index counts.now rule }
    ensures assigned { IsAssignment (suits table.now) (length given.new) counts.now given.new }
    ensures placed { placed given.new ≡ placed given.old + 1 }
{
    let mut at = last;
    let mut freed = rule;
    loop {
        let step = queue[at];
        given[step.peer] = Some(freed);
        match step.from {
            None => return,
            Some(link) => {
                at = link.place;
                freed = link.rule;
            }
        }
    }
}

/// What a search from every peer without a rule found.
#[derive(Debug, Drop)]
pub enum Found {
    /// The peer of the step at `last` suits the rule, which has room.
    Path {
        queue: Vec<Reached>,
        last: usize,
        rule: u32,
    },
    /// No path is left from the peers that it reached.
    Closed {
        reached: Vec<bool>,
    },
}

/// The steps of the peers without a rule, and the mark of each peer.
fn start(alloc: Global, given: &[Option<u32>]) -> Result<(Vec<Reached>, Vec<bool>), NoMemory>
    ensures { IfOk result (λ both. (test : ℕ → ℕ → Bool) → IsSearch test given.now both.0.items both.1.items (length given.now)) }
{
    let mut queue = Vec::new(alloc);
    let mut reached = Vec::new(alloc);
    for (peer, place) in given.iter().enumerate() {
        if place.is_some() {
            reached.push(false)?;
            continue;
        }
        queue.push(Reached { peer, from: None })?;
        reached.push(true)?;
    }
    Ok((queue, reached))
}

/// Reaches the peers that have a rule which the peer of the step at `at` suits.
fn reach(
    table: &[Vec<bool>],
    given: &[Option<u32>],
    queue: &mut Vec<Reached>,
    reached: &mut [bool],
    at: usize,
) -> Result<(), NoMemory>
    requires search { IsSearch (suits table.now) given.now queue.old.items reached.old (length given.now) }
    requires at { at < length queue.old.items }
    ensures search { IfOk result (λ _. IsSearch (suits table.now) given.now queue.new.items reached.new (length given.now)) }
    ensures kept { IfOk result (λ _. Extends queue.old.items reached.old queue.new.items reached.new) }
    ensures holders { IfOk result (λ _. (q r : ℕ) → suits table.now (peer_at queue.old.items at) r ≡ true → get_or given.now q None ≡ Some r → marked reached.new q ≡ true) }
{
    let peer = queue[at].peer;
    for (other, place) in given.iter().enumerate() {
        let rule = match *place {
            Some(rule) => rule,
            None => continue,
        };
        if reached[other] || !suits(table, peer, rule) {
            continue;
        }
        queue.push(Reached {
            peer: other,
            from: Some(Link { place: at, rule }),
        })?;
        reached[other] = true;
    }
    Ok(())
}

/// Looks for a path from a peer without a rule to a rule with room.
pub fn search(
    alloc: Global,
    table: &[Vec<bool>],
    counts: &[u32],
    given: &[Option<u32>],
) -> Result<Found, NoMemory>
    requires { length counts.now ≤ MAX_RULES }
    ensures { IfOk result (Finds (suits table.now) counts.now given.now) }
{
    let (mut queue, mut reached) = start(alloc, given)?;
    let mut at = 0;
    while at < queue.len() {
        if let Some(rule) = open_rule(table, counts, given, queue[at].peer) {
            return Ok(Found::Path {
                queue,
                last: at,
                rule,
            });
        }
        reach(table, given, &mut queue, &mut reached, at)?;
        at += 1;
    }
    Ok(Found::Closed { reached })
}
